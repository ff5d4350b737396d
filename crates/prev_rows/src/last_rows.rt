//! What is kept for `prev`: the rows of the last step, as each step tells them, or grown from step to step.
ghost use Rattle.std.specs.Prelude.{◌≡◌, ◌↔◌, [], All, Some, IfOk, IsTrue, OnOk, Contains, length};
ghost use Rattle.enf_data.specs.meaning.Valuations.{Valuation as Bound};
ghost use Rattle.valuations.specs.machine.Tables.{AgreesWhereBound, HasValuation, IsTable, Relation};
ghost use Rattle.windows.specs.declared.kept_pairs.KeptPair.{KeptPair as Pair};

use crate::grown_rows::GrownRows;
use enf_data::intervals::Interval;
use enf_data::items::Duplicate;
use enf_data::memory::NoMemory;
use enf_data::seeds::Seed;
use enf_data::terms::Vars;
use std::alloc::Global;
use std::marker::Model;
use valuations::{Lookup, Table};
use windows::{KeptPair, PrevSlot};

/// The rows of the step that was committed last, where there is one.
#[derive(Debug, Drop)]
pub struct LastRows {
    // of the hashes by which rows that grow are found
    seed: Seed,
    kept: Kept,
}

#[derive(Debug, Drop)]
pub(crate) enum Kept {
    Told(PrevSlot),
    Grown(GrownRows),
}

impl Model for LastRows {
    ghost use Rattle.prev_rows.specs.machine.LastRows.{kept_slot};
    ghost use Rattle.windows.specs.machine.Slots.{Slot};

    ghost Value = { Slot };

    ghost view = { λ r. kept_slot r.kept };
}

impl Duplicate for LastRows {
    fn duplicate(&self, alloc: Global) -> Result<LastRows, NoMemory> {
        let kept = match &self.kept {
            Kept::Told(slot) => Kept::Told(slot.duplicate(alloc)?),
            Kept::Grown(rows) => Kept::Grown(rows.duplicate(alloc)?),
        };
        let seed = self.seed;
        Ok(LastRows { seed, kept })
    }
}

impl LastRows {
    ghost use Rattle.prev_rows.specs.machine.GrownSlots.{IsGrownBy, KeepsColumns};
    ghost use Rattle.windows.specs.machine.Slots.{GivesLast, IsBareSlot, IsSlot, IsUpToTime, with_rows};
    ghost use Rattle.windows.specs.machine.StoredPairs.{AreRising, pairs_of_last};

    /// Those of the slot.
    pub fn of(seed: Seed, slot: PrevSlot) -> LastRows
        ensures { result ≡ slot }
    {
        LastRows {
            seed,
            kept: Kept::Told(slot),
        }
    }

    /// The interval of the operator.
    pub fn interval(&self) -> Interval
        ensures { result ≡ self.now.interval }
    {
        match &self.kept {
            Kept::Told(slot) => slot.interval(),
            Kept::Grown(rows) => rows.interval(),
        }
    }

    /// The columns of the rows.
    pub fn columns(&self) -> &Vars
        ensures { result.now ≡ self.now.columns }
    {
        match &self.kept {
            Kept::Told(slot) => slot.columns(),
            Kept::Grown(rows) => rows.columns(),
        }
    }

    /// Makes this step the last one, with these rows alone. The step before is not later. Once memory has run out, it
    /// answers no more calls but drop.
    pub fn commit(&mut self, alloc: Global, time: u64, rows: Table) -> Result<(), NoMemory>
        requires later { IsUpToTime time self.old.last }
        requires columns { rows.columns ≡ self.old.columns }
        ensures ok { OnOk result (self.new ≡ record self.old { last = Some (with_rows time rows) }) }
        ensures kind { KeepsColumns self.old self.new }
    {
        match &mut self.kept {
            Kept::Told(slot) => {
                slot.commit(time, rows);
                Ok(())
            }
            Kept::Grown(grown) => {
                let columns = rows.columns().duplicate(alloc)?;
                let mut slot = PrevSlot::new(grown.interval(), columns);
                slot.commit(time, rows);
                self.kept = Kept::Told(slot);
                Ok(())
            }
        }
    }

    /// Whether a step is committed, and it is plain to see that the last one has no rows.
    pub fn is_bare(&self) -> bool
        ensures { IsTrue result → IsBareSlot self.now }
    {
        match &self.kept {
            Kept::Told(slot) => slot.is_bare(),
            Kept::Grown(_) => false,
        }
    }

    /// Makes a step the last one that has no rows, where the one before has none. That one is not later. Once memory
    /// has run out, it answers no more calls but drop.
    pub fn pass(&mut self, alloc: Global, time: u64) -> Result<(), NoMemory>
        requires later { IsUpToTime time self.old.last }
        requires bare { IsBareSlot self.old }
        ensures ok { OnOk result ((rows : Relation) → rows.columns ≡ self.old.columns → rows.rows ≡ []
            → self.new ≡ record self.old { last = Some (with_rows time rows) }) }
        ensures kind { KeepsColumns self.old self.new }
    {
        match &mut self.kept {
            Kept::Told(slot) => {
                slot.pass(time);
                Ok(())
            }
            Kept::Grown(rows) => {
                let none = rows.none(alloc)?;
                self.commit(alloc, time, none)
            }
        }
    }

    /// Makes this step the last one, with these rows beside those of the step before, which is not later. Once memory
    /// has run out, it answers no more calls but drop.
    pub fn grow(&mut self, alloc: Global, time: u64, rows: &Table) -> Result<(), NoMemory>
        requires later { IsUpToTime time self.old.last }
        requires columns { rows.now.columns ≡ self.old.columns }
        ensures ok { OnOk result (IsGrownBy self.old time rows.now self.new) }
        ensures kind { KeepsColumns self.old self.new }
    {
        match &mut self.kept {
            Kept::Told(slot) => {
                let mut grown = GrownRows::of(alloc, self.seed, slot, time)?;
                grown.add(time, rows)?;
                self.kept = Kept::Grown(grown);
                Ok(())
            }
            Kept::Grown(grown) => grown.add(time, rows),
        }
    }

    /// The rows of the last step in order, each with its time; none before the first step.
    pub fn kept(&self, alloc: Global) -> Result<Vec<KeptPair>, NoMemory>
        ensures rising { IfOk result (λ pairs. AreRising pairs.items) }
        ensures exact { IfOk result (λ pairs. (p : Pair) → Contains pairs.items p
            ↔ Contains (pairs_of_last self.now.last) p) }
        ensures whole { IfOk result (λ _. IsSlot self.now × All (λ p. length p.row ≡ length self.now.columns)
            (pairs_of_last self.now.last)) }
    {
        match &self.kept {
            Kept::Told(slot) => slot.kept(alloc),
            Kept::Grown(rows) => rows.kept(alloc),
        }
    }

    /// Whether the valuation is among the rows, where the distance of their step from the time is in the interval. The
    /// step is not later.
    pub fn answers<V: Lookup>(&self, time: u64, v: &V) -> bool
        requires { IsUpToTime time self.now.last }
        ensures { IsTrue result ↔ GivesLast self.now.interval time self.now.last (V.valuation v.now) }
    {
        match &self.kept {
            Kept::Told(slot) => slot.answers(time, v),
            Kept::Grown(rows) => rows.answers(time, v),
        }
    }

    /// Those of them that agree with the valuation on each column that it binds.
    pub fn rows_under<V: Lookup>(&self, alloc: Global, time: u64, v: &V) -> Result<Table, NoMemory>
        requires { IsUpToTime time self.now.last }
        ensures table { IfOk result IsTable }
        ensures columns { IfOk result (λ t. t.columns ≡ self.now.columns) }
        ensures rows { IfOk result (λ t. (w : Bound) → HasValuation t w
            ↔ (GivesLast self.now.interval time self.now.last w
            × AgreesWhereBound self.now.columns (V.valuation v.now) w)) }
    {
        match &self.kept {
            Kept::Told(slot) => slot.rows_under(alloc, time, v),
            Kept::Grown(rows) => rows.rows_under(alloc, time, v),
        }
    }
}
