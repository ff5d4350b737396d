//! Windows of the operators `since`, `once` and `historically`.
ghost use Rattle.std.specs.Prelude.{◌≡◌, ◌↔◌, ◌≤◌, ◌+◌, ◌*◌, ℕ, [], All, IfOk, OnOk, length};
ghost use Rattle.enf_data.specs.meaning.Membership.{HasNoRepeats};
ghost use Rattle.enf_data.specs.meaning.Valuations.{Valuation as Bound};
ghost use Rattle.valuations.specs.machine.Tables.{IsTable, HasValuation, Relation};

use crate::commits::{add_step, compact_step};
use crate::entries::{Entries, keep_surviving, push_all, push_given, push_now};
use crate::expiry::forget_dues;
use crate::queue::DueQueue;
use crate::row_index::{RowIndex, are_some_of};
use crate::surviving_rows::Surviving;
use enf_data::intervals::Interval;
use enf_data::items::Duplicate;
use enf_data::memory::NoMemory;
use enf_data::rows::Row;
use enf_data::seeds::Seed;
use enf_data::terms::Vars;
use indexmap::IndexMap;
use std::alloc::Global;
use std::marker::Model;
use valuations::Table;

/// The rows that were right at a committed step and survived each step after it, with the times of those steps that a
/// later step can ask for, and no other.
#[derive(Debug, Drop)]
pub struct SinceWindow {
    pub(crate) interval: Interval,
    pub(crate) columns: Vars,
    pub(crate) last: u64,
    pub(crate) entries: Entries,
    // of an interval with an end, the times of these rows
    pub(crate) queue: DueQueue,
    // where rows are looked up by a part of them, their places by it
    pub(crate) index: Option<RowIndex>,
    // of how many times is known that the rows have them
    pub(crate) pairs: usize,
}

impl Model for SinceWindow {
    ghost use Rattle.windows.specs.machine.Windows.{Window, IsWindow, kept_entries};

    ghost Value = { Window };

    ghost view = { λ w. record {
      interval = w.interval;
      columns = w.columns;
      last = w.last;
      kept = kept_entries w.entries.entries;
    } };

    ghost invariant = { λ w. IsWindow w.interval w.columns w.last w.entries.entries w.queue w.index w.pairs };
}

impl SinceWindow {
    ghost use Rattle.windows.specs.machine.WindowEntries.{count_pairs};
    ghost use Rattle.windows.specs.machine.Windows.{StandsForSteps, HasRow, WindowKeeps, KeepsLeast, AnswersBy};
    ghost use Rattle.windows.specs.machine.Windows.{AnswersNow, FitsColumns, IsWalkedNow, IsWalkedLater, IsCommitted};
    ghost use Rattle.windows.specs.machine.Windows.{IsCommittedBy, IsSameKind, StandsWithStep, SurvivesFor};

    /// No step is committed. The columns are distinct.
    pub fn new(alloc: Global, interval: Interval, columns: Vars) -> SinceWindow
        requires { HasNoRepeats columns }
        ensures interval { result.interval ≡ interval }
        ensures columns { result.columns ≡ columns }
        ensures last { result.last ≡ 0 }
        ensures stands { StandsForSteps result [] }
        ensures least { KeepsLeast result }
    {
        SinceWindow {
            interval,
            columns,
            last: 0,
            entries: IndexMap::with_hasher(alloc, Seed::known()),
            queue: DueQueue::new(alloc),
            index: None,
            pairs: 0,
        }
    }

    /// The interval of the operator.
    pub fn interval(&self) -> Interval
        ensures { result ≡ self.now.interval }
    {
        self.interval
    }

    /// The columns of its rows.
    pub fn columns(&self) -> &Vars
        ensures { result.now ≡ self.now.columns }
    {
        &self.columns
    }

    /// The time of the step that was committed last, and 0 where none is.
    pub fn last(&self) -> u64
        ensures { result ≡ self.now.last }
    {
        self.last
    }

    /// How many rows it holds, or how many times of rows that end some day, whichever are more. Rows and times that it
    /// need not keep are among them, but they are never many.
    pub fn held(&self) -> usize
        ensures least { length self.now.kept ≤ result }
        ensures most { result ≤ 2 * count_pairs self.now.kept + 64 }
    {
        self.entries.len().max(self.queue.len())
    }

    /// Looks rows up by these columns without a look at the others, where they are some of its own, and it looks rows up
    /// by none yet. Nothing else changes.
    pub fn index_by(&mut self, columns: Vars) -> Result<(), NoMemory>
        ensures { self.new ≡ self.old }
    {
        if self.index.is_some() {
            return Ok(());
        }
        let among = self.columns.as_slice();
        if are_some_of(columns.as_slice(), among) {
            let alloc = *self.entries.allocator();
            let index = RowIndex::of(alloc, columns, among, &self.entries)?;
            self.index = Some(index);
        }
        Ok(())
    }

    /// The rows that a step from the last time on can answer by a step committed so far: those that are right at such
    /// a step, at a distance from the last time that is not past the interval, and survive each one after it.
    pub fn rows(&self, alloc: Global) -> Result<Table, NoMemory>
        ensures table { IfOk result IsTable }
        ensures columns { IfOk result (λ t. t.columns ≡ self.now.columns) }
        ensures rows { IfOk result (λ t. (v : Bound) → HasValuation t v ↔ WindowKeeps self.now self.now.last v) }
        ensures kept { IfOk result (λ t. (v : Bound) → HasValuation t v ↔
            ((time : ℕ) × HasRow self.now v time)) }
        ensures walked { IfOk result (IsWalkedLater self.now) }
    {
        let mut rows = Vec::new(alloc);
        push_all(alloc, &self.entries, &mut rows)?;
        Table::from_rows(self.columns.duplicate(alloc)?, rows)
    }

    /// The rows that hold at a step at this time: those that are right at it, where 0 is in the interval, and
    /// those that survive it and each step back to one, at a distance in the interval, at which they are right.
    /// No committed step is later, and the tables have the window's columns.
    pub fn answer(
        &self,
        alloc: Global,
        time: u64,
        surviving: &Table,
        right: &Table,
    ) -> Result<Table, NoMemory>
        requires later { self.now.last ≤ time }
        requires surviving_columns { surviving.now.columns ≡ self.now.columns }
        requires right_columns { right.now.columns ≡ self.now.columns }
        ensures table { IfOk result IsTable }
        ensures columns { IfOk result (λ t. t.columns ≡ self.now.columns) }
        ensures rows { IfOk result (λ t. (v : Bound) → HasValuation t v
            ↔ AnswersNow self.now time surviving.now right.now v) }
        ensures walked { IfOk result (IsWalkedNow self.now time surviving.now right.now) }
    {
        self.answer_by(alloc, time, &Surviving::Only(surviving), right)
    }

    /// The rows that hold at a step at this time, where the rows that survive it are told by all, by a table, or by
    /// all but a table.
    pub fn answer_by(
        &self,
        alloc: Global,
        time: u64,
        surviving: &Surviving<'_>,
        right: &Table,
    ) -> Result<Table, NoMemory>
        requires later { self.now.last ≤ time }
        requires surviving_columns { FitsColumns self.now.columns surviving.now }
        requires right_columns { right.now.columns ≡ self.now.columns }
        ensures table { IfOk result IsTable }
        ensures columns { IfOk result (λ t. t.columns ≡ self.now.columns) }
        ensures rows { IfOk result (λ t. (v : Bound) → HasValuation t v
            ↔ AnswersBy self.now time (SurvivesFor surviving.now) right.now v) }
    {
        let mut rows = Vec::new(alloc);
        push_given(
            alloc,
            &self.entries,
            surviving,
            self.interval,
            time,
            &mut rows,
        )?;
        push_now(alloc, right, self.interval, &mut rows)?;
        Table::from_rows(self.columns.duplicate(alloc)?, rows)
    }

    /// Makes this step the last one. Once memory has run out, the window answers no more calls but drop. No committed
    /// step is later, and the tables have the window's columns.
    pub fn commit(&mut self, time: u64, surviving: &Table, right: &Table) -> Result<(), NoMemory>
        requires later { self.old.last ≤ time }
        requires surviving_columns { surviving.now.columns ≡ self.old.columns }
        requires right_columns { right.now.columns ≡ self.old.columns }
        ensures ok { OnOk result (IsCommitted self.old time surviving.now right.now self.new) }
        ensures stands { OnOk result (StandsWithStep self.old time surviving.now right.now self.new) }
        ensures kind { IsSameKind self.old self.new }
    {
        self.commit_by(time, &Surviving::Only(surviving), right)
    }

    /// Makes this step the last one, where the rows that survive it are told by all, by a table, or by all but a
    /// table.
    pub fn commit_by(
        &mut self,
        time: u64,
        surviving: &Surviving<'_>,
        right: &Table,
    ) -> Result<(), NoMemory>
        requires later { self.old.last ≤ time }
        requires surviving_columns { FitsColumns self.old.columns surviving.now }
        requires right_columns { right.now.columns ≡ self.old.columns }
        ensures ok { OnOk result (IsCommittedBy self.old time (SurvivesFor surviving.now) right.now self.new) }
        ensures kind { IsSameKind self.old self.new }
    {
        let alloc = *self.entries.allocator();
        let copy = right.duplicate(alloc)?;
        self.commit_rows(time, surviving, copy.into_rows())
    }

    /// So too, where the rows that are right are given away: they are moved into the window.
    pub fn commit_rows(
        &mut self,
        time: u64,
        surviving: &Surviving<'_>,
        right: Vec<Row>,
    ) -> Result<(), NoMemory>
        requires later { self.old.last ≤ time }
        requires surviving_columns { FitsColumns self.old.columns surviving.now }
        requires fit { All (λ row. length row ≡ length self.old.columns) right.items }
        ensures ok { OnOk result (IsCommittedBy self.old time (SurvivesFor surviving.now)
            (record { columns = self.old.columns; rows = right.items }) self.new) }
        ensures kind { IsSameKind self.old self.new }
    {
        let left = forget_dues(
            &mut self.entries,
            &mut self.queue,
            self.interval,
            time,
            self.pairs,
        );
        let left = keep_surviving(&mut self.entries, surviving, left);
        self.last = time;
        let added = add_step(
            &mut self.entries,
            &mut self.index,
            &mut self.queue,
            self.columns.as_slice(),
            right,
            self.interval,
            time,
            left,
        );
        match added {
            Ok(pairs) => {
                self.pairs = pairs;
                Ok(())
            }
            Err(error) => {
                self.pairs = 0;
                Err(error)
            }
        }
    }

    /// Makes a step the last one at which no row is right and all that are kept survive.
    pub fn pass(&mut self, time: u64) -> Result<(), NoMemory>
        requires later { self.old.last ≤ time }
        ensures ok { OnOk result ((right : Relation) → right.columns ≡ self.old.columns → right.rows ≡ []
            → IsCommittedBy self.old time (λ v. Unit {0}) right self.new) }
        ensures kind { IsSameKind self.old self.new }
    {
        let left = forget_dues(
            &mut self.entries,
            &mut self.queue,
            self.interval,
            time,
            self.pairs,
        );
        self.last = time;
        let compacted = compact_step(
            &mut self.entries,
            &mut self.index,
            &mut self.queue,
            self.columns.as_slice(),
            self.interval,
            time,
            left,
        );
        match compacted {
            Ok(pairs) => {
                self.pairs = pairs;
                Ok(())
            }
            Err(error) => {
                self.pairs = 0;
                Err(error)
            }
        }
    }
}
