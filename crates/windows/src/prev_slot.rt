//! Slots of the operator `prev`.
ghost use Rattle.std.specs.Prelude.{◌≡◌, ◌↔◌, [], None, Some, IfOk, IsTrue};
ghost use Rattle.enf_data.specs.meaning.Membership.{HasNoRepeats};
ghost use Rattle.enf_data.specs.meaning.Valuations.{Valuation as Bound};
ghost use Rattle.valuations.specs.machine.Tables.{IsTable, HasValuation, Relation};

use crate::row_answers::no_rows;
use crate::steps::LastStep;
use enf_data::intervals::Interval;
use enf_data::items::Duplicate;
use enf_data::memory::NoMemory;
use enf_data::terms::Vars;
use std::alloc::Global;
use std::marker::Model;
use std::mem::replace;
use valuations::Table;

/// The rows of the step that was committed last, where there is one.
#[derive(Debug, Drop)]
pub struct PrevSlot {
    pub(crate) interval: Interval,
    pub(crate) columns: Vars,
    pub(crate) last: Option<LastStep>,
}

impl Model for PrevSlot {
    ghost use Rattle.windows.specs.machine.Slots.{Slot, IsSlot};

    ghost Value = { Slot };

    ghost view = { λ s. record { interval = s.interval; columns = s.columns; last = s.last } };

    ghost invariant = { λ s. IsSlot (record {
      interval = s.interval;
      columns = s.columns;
      last = s.last;
    }) };
}

impl PrevSlot {
    ghost use Rattle.windows.specs.machine.Slots.{IsBareSlot, IsUpToTime, GivesLast, with_rows};

    /// No step is committed. The columns are distinct.
    pub fn new(interval: Interval, columns: Vars) -> PrevSlot
        requires { HasNoRepeats columns }
        ensures { result ≡ record { interval = interval; columns = columns; last = None } }
    {
        PrevSlot {
            interval,
            columns,
            last: None,
        }
    }

    /// The interval of the operator.
    pub fn interval(&self) -> Interval
        ensures { result ≡ self.now.interval }
    {
        self.interval
    }

    /// The columns of its rows.
    pub fn columns(&self) -> &Vars
        ensures { result.now ≡ self.now.columns }
    {
        &self.columns
    }

    /// The rows of the last step, where its distance from the time is in the interval, and else none. The last step
    /// is not later.
    pub fn answer(&self, alloc: Global, time: u64) -> Result<Table, NoMemory>
        requires { IsUpToTime time self.now.last }
        ensures table { IfOk result IsTable }
        ensures columns { IfOk result (λ t. t.columns ≡ self.now.columns) }
        ensures rows { IfOk result (λ t. (v : Bound) → HasValuation t v
            ↔ GivesLast self.now.interval time self.now.last v) }
    {
        if let Some(last) = &self.last {
            if self.interval.has(time - last.time) {
                return last.rows.duplicate(alloc);
            }
        }
        no_rows(alloc, &self.columns)
    }

    /// Makes this step the last one, with rows of the slot's columns. The step before is not later.
    pub fn commit(&mut self, time: u64, rows: Table)
        requires later { IsUpToTime time self.old.last }
        requires columns { rows.columns ≡ self.old.columns }
        ensures { self.new ≡ record self.old { last = Some (with_rows time rows) } }
    {
        self.last = Some(LastStep { time, rows });
    }

    /// Whether a step is committed, and the last one has no rows.
    pub fn is_bare(&self) -> bool
        ensures { IsTrue result → IsBareSlot self.now }
    {
        match &self.last {
            Some(last) => last.rows.is_empty(),
            None => false,
        }
    }

    /// Makes a step the last one that has no rows, where the one before has none. That one is not later.
    pub fn pass(&mut self, time: u64)
        requires later { IsUpToTime time self.old.last }
        requires bare { IsBareSlot self.old }
        ensures { (rows : Relation) → rows.columns ≡ self.old.columns → rows.rows ≡ []
            → self.new ≡ record self.old { last = Some (with_rows time rows) } }
    {
        let Some(last) = replace(&mut self.last, None) else {
            return;
        };
        let LastStep { rows, .. } = last;
        self.commit(time, rows);
    }
}
