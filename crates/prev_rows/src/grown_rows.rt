//! Rows of which none goes: those of a step are those of the step before, with some more.
ghost use Rattle.std.specs.Prelude.{◌≡◌, ◌↔◌, [], All, IfOk, IsTrue, OnOk, Contains, length, map};
ghost use Rattle.enf_data.specs.meaning.Valuations.{Valuation as Bound};
ghost use Rattle.valuations.specs.machine.Tables.{AgreesWhereBound, HasValuation, IsTable};
ghost use Rattle.windows.specs.declared.kept_pairs.KeptPair.{KeptPair as Pair};
ghost use Rattle.windows.specs.meaning.KeptPairs.{pair};

use enf_data::intervals::Interval;
use enf_data::items::Duplicate;
use enf_data::memory::NoMemory;
use enf_data::seeds::Seed;
use enf_data::terms::Vars;
use std::alloc::Global;
use std::marker::Model;
use valuations::{Lookup, Table};
use windows::{KeptPair, PrevSlot, SinceWindow, Surviving};

/// The rows of the step that was committed last, as a window remembers them that lets none go.
#[derive(Debug, Drop)]
pub struct GrownRows {
    interval: Interval,
    window: SinceWindow,
    // of the same columns, without a row
    none: Table,
}

impl Model for GrownRows {
    ghost use Rattle.std.specs.Prelude.{◌≡◌, []};
    ghost use Rattle.prev_rows.specs.machine.GrownSlots.{grown_slot, IsEndless};
    ghost use Rattle.windows.specs.machine.Slots.{Slot};

    ghost Value = { Slot };

    ghost view = { λ g. grown_slot g.interval g.window };

    ghost invariant = { λ g. IsEndless g.window × (g.none.columns ≡ g.window.columns) × (g.none.rows ≡ []) };
}

impl GrownRows {
    ghost use Rattle.prev_rows.specs.machine.GrownSlots.{IsGrownBy, IsTakenOver, KeepsColumns};
    ghost use Rattle.windows.specs.machine.Slots.{GivesLast, IsSlot, IsUpToTime};
    ghost use Rattle.windows.specs.machine.StoredPairs.{AreRising, pairs_of_last};

    /// The rows of the slot, whose step is not later than this time. They are found by hashes from the seed on.
    pub fn of(alloc: Global, seed: Seed, slot: &PrevSlot, time: u64) -> Result<GrownRows, NoMemory>
        requires { IsUpToTime time slot.now.last }
        ensures { IfOk result (IsTakenOver time slot.now) }
    {
        let pairs = slot.kept(alloc)?;
        let columns = slot.columns().duplicate(alloc)?;
        let none = Table::from_rows(columns.duplicate(alloc)?, Vec::new(alloc))?;
        let endless = Interval { low: 0, high: None };
        let window = SinceWindow::from_kept(alloc, seed, endless, columns, time, pairs)?;
        Ok(GrownRows {
            interval: slot.interval(),
            window,
            none,
        })
    }

    /// The interval of the operator.
    pub fn interval(&self) -> Interval
        ensures { result ≡ self.now.interval }
    {
        self.interval
    }

    /// The columns of the rows.
    pub fn columns(&self) -> &Vars
        ensures { result.now ≡ self.now.columns }
    {
        self.window.columns()
    }

    /// A table of the same columns without a row.
    pub fn none(&self, alloc: Global) -> Result<Table, NoMemory>
        ensures columns { IfOk result (λ t. t.columns ≡ self.now.columns) }
        ensures rows { IfOk result (λ t. t.rows ≡ []) }
    {
        self.none.duplicate(alloc)
    }

    /// Makes this step the last one, with these rows more. Once memory has run out, it answers no more calls but drop.
    pub fn add(&mut self, time: u64, rows: &Table) -> Result<(), NoMemory>
        requires later { IsUpToTime time self.old.last }
        requires columns { rows.now.columns ≡ self.old.columns }
        ensures ok { OnOk result (IsGrownBy self.old time rows.now self.new) }
        ensures kind { KeepsColumns self.old self.new }
    {
        self.window.commit_by(time, &Surviving::All, rows)
    }

    /// Whether the valuation is among the rows of the last step, whose distance from the time is in the interval; it
    /// takes no memory.
    pub fn answers<V: Lookup>(&self, time: u64, v: &V) -> bool
        requires { IsUpToTime time self.now.last }
        ensures { IsTrue result ↔ GivesLast self.now.interval time self.now.last (V.valuation v.now) }
    {
        let last = self.window.last();
        self.interval.has(time - last) && self.window.answers(last, &Surviving::All, &self.none, v)
    }

    /// Those of them that agree with the valuation on each column that it binds.
    pub fn rows_under<V: Lookup>(&self, alloc: Global, time: u64, v: &V) -> Result<Table, NoMemory>
        requires { IsUpToTime time self.now.last }
        ensures table { IfOk result IsTable }
        ensures columns { IfOk result (λ t. t.columns ≡ self.now.columns) }
        ensures rows { IfOk result (λ t. (w : Bound) → HasValuation t w
            ↔ (GivesLast self.now.interval time self.now.last w
            × AgreesWhereBound self.now.columns (V.valuation v.now) w)) }
    {
        let last = self.window.last();
        if self.interval.has(time - last) {
            self.window
                .rows_under(alloc, last, &Surviving::All, &self.none, v)
        } else {
            self.none(alloc)
        }
    }

    /// The rows of the last step in order, each with its time.
    pub fn kept(&self, alloc: Global) -> Result<Vec<KeptPair>, NoMemory>
        ensures rising { IfOk result (λ pairs. AreRising pairs.items) }
        ensures exact { IfOk result (λ pairs. (p : Pair) → Contains pairs.items p
            ↔ Contains (pairs_of_last self.now.last) p) }
        ensures whole { IfOk result (λ _. IsSlot self.now × All (λ p. length p.row ≡ length self.now.columns)
            (pairs_of_last self.now.last)) }
    {
        let pairs = self.window.kept(alloc)?;
        at_time(alloc, pairs, self.window.last())
    }
}

// The rows of the pairs, each with this time.
fn at_time(alloc: Global, pairs: Vec<KeptPair>, time: u64) -> Result<Vec<KeptPair>, NoMemory>
    ensures { IfOk result (λ out. out.items ≡ map (λ p. pair p.row time) pairs.items) }
{
    let mut out = Vec::with_capacity(alloc, pairs.len())?;
    for pair in pairs {
        let row = pair.row;
        out.push(KeptPair { row, time })?;
    }
    Ok(out)
}

impl Duplicate for GrownRows {
    fn duplicate(&self, alloc: Global) -> Result<GrownRows, NoMemory> {
        Ok(GrownRows {
            interval: self.interval,
            window: self.window.duplicate(alloc)?,
            none: self.none.duplicate(alloc)?,
        })
    }
}
