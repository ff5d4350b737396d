//! Whether rows and instances keep the bounds of states.
ghost use Rattle.std.specs.Prelude.{◌≡◌, ◌↔◌, IfErr, IfNone, IfOk, IfSome, IsTrue, map, slice_get};
ghost use Rattle.std.specs.Option.{option_copied};
ghost use Rattle.save_codec.specs.meaning.SavedBounds.{HasSorts, RowFits, SaveSetting, kept_row_of};
ghost use Rattle.save_codec.specs.machine.BoundJudgements.{AreFittingRows, IsJudge, IsUnfit, AreRowsWithin};
ghost use Rattle.save_codec.specs.declared.judging.Unfit.TheVariants.{NoMemory as OutOfMemory};

use crate::parts::RowLine;
use crate::sorts::Known;
use enf_data::NoMemory;
use past_state::{KeptRow, KeptRows, WindowShape, check_rows};
use plan_terms::Plan;
use std::alloc::Global;

// What rows and instances are judged by: the plans with what is known of their variables, and the windows with what is
// known of their columns.
#[derive(Drop)]
pub(crate) struct Judge<'a> {
    pub plans: &'a [Plan],
    pub rules: Vec<Known>,
    pub shapes: Vec<WindowShape<'a>>,
    pub windows: Vec<Known>,
}

// The rows up to the first that does not fit, and whether they are all.
#[derive(Drop)]
pub(crate) struct Fitting {
    pub kept: Vec<KeptRow>,
    pub all: bool,
}

// The place of the first of some lines with which they break the bounds.
#[derive(Drop)]
pub(crate) enum Unfit {
    At(usize),
    NoMemory,
}

impl From<NoMemory> for Unfit {
    ghost from_gives = { λ _ unfit. unfit ≡ OutOfMemory };

    fn from(_no_memory: NoMemory) -> Unfit {
        Unfit::NoMemory
    }
}

pub(crate) fn item_at<T>(items: &[T], place: usize) -> Option<&T>
    ensures { option_copied result ≡ slice_get items.now place }
{
    items.get(place)
}

impl Judge<'_> {
    // Whether the values of a row are of the sorts that are known of its window's columns.
    fn has_sorts(&self, row: &RowLine) -> bool
        ensures { (s : SaveSetting) → IsJudge s self.now → IsTrue result ↔ HasSorts s row.now }
    {
        let window = row.window as usize;
        let Some(shape) = item_at(self.shapes.as_slice(), window) else {
            return true;
        };
        let Some(known) = item_at(self.windows.as_slice(), window) else {
            return true;
        };
        known.fit(shape.columns.as_slice(), row.values.as_slice())
    }

    fn kept_row(&self, row: RowLine) -> Option<KeptRow>
        ensures kept { IfSome result (λ kept. kept ≡ kept_row_of row) }
        ensures fits { (s : SaveSetting) → IsJudge s self.now → IfSome result (λ _. RowFits s row) }
        ensures none { (s : SaveSetting) → IsJudge s self.now → IfNone result (RowFits s row → ⊥) }
    {
        if !self.has_sorts(&row) {
            return None;
        }
        let Ok(window) = u32::try_from(row.window) else {
            return None;
        };
        Some(KeptRow {
            window,
            row: row.values,
            time: row.time,
        })
    }

    fn fitting_rows(&self, alloc: Global, rows: Vec<RowLine>) -> Result<Fitting, NoMemory>
        ensures { (s : SaveSetting) → IsJudge s self.now → IfOk result (AreFittingRows s rows.items) }
    {
        let mut kept = Vec::new(alloc);
        for row in rows {
            match self.kept_row(row) {
                Some(row) => kept.push(row)?,
                None => return Ok(Fitting { kept, all: false }),
            }
        }
        Ok(Fitting { kept, all: true })
    }

    // The kept rows, where they keep the bounds.
    pub fn kept_rows(
        &self,
        alloc: Global,
        last: Option<u64>,
        rows: Vec<RowLine>,
    ) -> Result<KeptRows, Unfit>
        requires judge { (s : SaveSetting) × IsJudge s self.now }
        ensures ok { (s : SaveSetting) → IsJudge s self.now
            → IfOk result (λ kept. (kept ≡ map kept_row_of rows.items) × AreRowsWithin s last rows.items) }
        ensures err { (s : SaveSetting) → IsJudge s self.now
            → IfErr result (IsUnfit (AreRowsWithin s last) rows.items) }
    {
        let fitting = self.fitting_rows(alloc, rows)?;
        if let Err(broken) = check_rows(self.shapes.as_slice(), last, fitting.kept.as_slice()) {
            return Err(Unfit::At(broken.row));
        }
        if !fitting.all {
            return Err(Unfit::At(fitting.kept.len()));
        }
        Ok(KeptRows::from_vec(fitting.kept))
    }
}
