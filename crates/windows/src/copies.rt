//! Windows and slots copied into new memory.
ghost use Rattle.std.specs.Prelude.{◌≡◌, [], ◌∷◌, ◌++◌, IfOk, OnOk, Contains, map};
ghost use Rattle.enf_data.specs.meaning.Membership.{HasNoRepeats};

use crate::entries::Entries;
use crate::prev_slot::PrevSlot;
use crate::row_index::made_anew;
use crate::since::SinceWindow;
use crate::steps::LastStep;
use crate::times::Times;
use enf_data::items::Duplicate;
use enf_data::memory::NoMemory;
use enf_data::rows::Row;
use indexmap::IndexMap;
use std::alloc::Global;

impl Duplicate for SinceWindow {
    fn duplicate(&self, alloc: Global) -> Result<SinceWindow, NoMemory> {
        let among = self.columns.as_slice();
        let index = made_anew(alloc, &self.index, among, &self.entries)?;
        Ok(SinceWindow {
            interval: self.interval,
            columns: self.columns.duplicate(alloc)?,
            last: self.last,
            entries: copy_entries(alloc, &self.entries)?,
            queue: self.queue.duplicate(alloc)?,
            index,
            pairs: self.pairs,
        })
    }
}

impl Duplicate for PrevSlot {
    fn duplicate(&self, alloc: Global) -> Result<PrevSlot, NoMemory> {
        let last = match &self.last {
            Some(last) => Some(last.duplicate(alloc)?),
            None => None,
        };
        Ok(PrevSlot {
            interval: self.interval,
            columns: self.columns.duplicate(alloc)?,
            last,
        })
    }
}

impl Duplicate for LastStep {
    fn duplicate(&self, alloc: Global) -> Result<LastStep, NoMemory> {
        Ok(LastStep {
            time: self.time,
            rows: self.rows.duplicate(alloc)?,
        })
    }
}

// A copy of the entries: their rows with their times, in their order.
fn copy_entries(alloc: Global, entries: &Entries) -> Result<Entries, NoMemory>
    requires { HasNoRepeats (map (λ e. e.0) entries.now.entries) }
    ensures { IfOk result (λ copy. copy.entries ≡ entries.now.entries) }
{
    let mut copy = IndexMap::with_capacity_and_hasher(alloc, entries.len(), *entries.hasher())?;
    for (row, times) in entries.iter() {
        copy_entry(alloc, row, times, &mut copy)?;
    }
    Ok(copy)
}

// Puts the row last, with the same times. It is not there yet.
fn copy_entry(alloc: Global, row: &Row, times: &Times, copy: &mut Entries) -> Result<(), NoMemory>
    requires { Contains (map (λ e. e.0) copy.old.entries) row.now → ⊥ }
    ensures { OnOk result (copy.new.entries ≡ copy.old.entries ++ (row.now, times.now) ∷ []) }
{
    let times = times.duplicate(alloc)?;
    copy.insert(row.duplicate(alloc)?, times)?;
    Ok(())
}
