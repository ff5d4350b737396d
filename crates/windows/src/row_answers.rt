//! What a window answers to one question: each is a look-up, and no table is made where it asks for one row.
ghost use Rattle.std.specs.Prelude.{◌≡◌, ◌↔◌, ◌≤◌, IsTrue, IfOk, length};
ghost use Rattle.enf_data.specs.meaning.Membership.{HasNoRepeats};
ghost use Rattle.enf_data.specs.meaning.Valuations.{BindsColumns, Valuation as Bound};
ghost use Rattle.valuations.specs.machine.Tables.{AgreesWithRow, AgreesWhereBound, HasValuation, IsTable};
ghost use Rattle.windows.specs.machine.Windows.{SurvivesFor};

use crate::bound_answers::{push_given_by, push_now_under};
use crate::prev_slot::PrevSlot;
use crate::row_query::{RowQuery, row_of};
use crate::row_searches::{has_given_by, has_now_under};
use crate::since::SinceWindow;
use crate::surviving_rows::Surviving;
use enf_data::items::Duplicate;
use enf_data::memory::NoMemory;
use enf_data::rows::Row;
use enf_data::terms::Vars;
use std::alloc::Global;
use valuations::{Lookup, Table};

impl SinceWindow {
    ghost use Rattle.windows.specs.machine.Windows.{AnswersBy, FitsColumns, WindowRemembers};

    /// Whether the valuation is among the rows that hold at a step at this time: `answer_by` has it. It takes no
    /// memory.
    pub fn answers<V: Lookup>(
        &self,
        time: u64,
        surviving: &Surviving<'_>,
        right: &Table,
        v: &V,
    ) -> bool
        ensures { IsTrue result ↔ AnswersBy self.now time (SurvivesFor surviving.now) right.now
            (V.valuation v.now) }
    {
        let is_right_now = self.interval.has(0) && right.has_valuation(v);
        is_right_now || (self.remembers(time, v) && survives(surviving, v))
    }

    /// Those of the rows that hold at a step at this time that agree with the valuation on each column that it binds;
    /// one look-up where it binds all. No committed step is later, and the tables have the window's columns.
    pub fn rows_under<V: Lookup>(
        &self,
        alloc: Global,
        time: u64,
        surviving: &Surviving<'_>,
        right: &Table,
        v: &V,
    ) -> Result<Table, NoMemory>
        requires later { self.now.last ≤ time }
        requires surviving_columns { FitsColumns self.now.columns surviving.now }
        requires right_columns { right.now.columns ≡ self.now.columns }
        ensures table { IfOk result IsTable }
        ensures columns { IfOk result (λ t. t.columns ≡ self.now.columns) }
        ensures rows { IfOk result (λ t. (w : Bound) → HasValuation t w
            ↔ (AnswersBy self.now time (SurvivesFor surviving.now) right.now w
            × AgreesWhereBound self.now.columns (V.valuation v.now) w)) }
    {
        match row_of(alloc, self.columns.as_slice(), v)? {
            Some(row) => {
                let is_there = self.answers(time, surviving, right, v);
                row_where(alloc, &self.columns, row, is_there)
            }
            None => self.agreeing(alloc, time, surviving, right, v),
        }
    }

    /// Whether there are such rows: the first that is found is enough. It takes no memory.
    pub fn has_some<V: Lookup>(
        &self,
        time: u64,
        surviving: &Surviving<'_>,
        right: &Table,
        v: &V,
    ) -> bool
        requires later { self.now.last ≤ time }
        requires surviving_columns { FitsColumns self.now.columns surviving.now }
        requires right_columns { right.now.columns ≡ self.now.columns }
        ensures { IsTrue result ↔ ((w : Bound) × BindsColumns w self.now.columns
            × AnswersBy self.now time (SurvivesFor surviving.now) right.now w
            × AgreesWhereBound self.now.columns (V.valuation v.now) w) }
    {
        let query = RowQuery {
            columns: self.columns.as_slice(),
            values: v,
        };
        if has_now_under(right, query, self.interval) {
            return true;
        }
        has_given_by(
            &self.entries,
            &self.index,
            query,
            surviving,
            self.interval,
            time,
        )
    }

    // The rows that hold at a step and agree with the valuation, by the index where the valuation binds its columns,
    // and else by a look at each: only those that agree are copied.
    fn agreeing<V: Lookup>(
        &self,
        alloc: Global,
        time: u64,
        surviving: &Surviving<'_>,
        right: &Table,
        v: &V,
    ) -> Result<Table, NoMemory>
        requires surviving_columns { FitsColumns self.now.columns surviving.now }
        requires right_columns { right.now.columns ≡ self.now.columns }
        ensures table { IfOk result IsTable }
        ensures columns { IfOk result (λ t. t.columns ≡ self.now.columns) }
        ensures rows { IfOk result (λ t. (w : Bound) → HasValuation t w
            ↔ (AnswersBy self.now time (SurvivesFor surviving.now) right.now w
            × AgreesWhereBound self.now.columns (V.valuation v.now) w)) }
    {
        let query = RowQuery {
            columns: self.columns.as_slice(),
            values: v,
        };
        let mut rows = Vec::new(alloc);
        push_given_by(
            &self.entries,
            &self.index,
            query,
            surviving,
            self.interval,
            time,
            &mut rows,
        )?;
        push_now_under(alloc, right, query, self.interval, &mut rows)?;
        Table::from_rows(self.columns.duplicate(alloc)?, rows)
    }

    // Whether a row with the valuation's values has a time at a distance in the interval.
    fn remembers<V: Lookup>(&self, time: u64, v: &V) -> bool
        ensures { IsTrue result ↔ WindowRemembers self.now time (V.valuation v.now) }
    {
        let query = RowQuery {
            columns: self.columns.as_slice(),
            values: v,
        };
        match self.entries.get(query) {
            Some(times) => times.has_in(self.interval, time),
            None => false,
        }
    }
}

impl PrevSlot {
    ghost use Rattle.windows.specs.machine.Slots.{GivesLast, IsUpToTime};

    /// Whether the valuation is among the rows of `answer`; it takes no memory. The last step is not later.
    pub fn answers<V: Lookup>(&self, time: u64, v: &V) -> bool
        requires { IsUpToTime time self.now.last }
        ensures { IsTrue result ↔ GivesLast self.now.interval time self.now.last (V.valuation v.now) }
    {
        match &self.last {
            Some(last) => self.interval.has(time - last.time) && last.rows.has_valuation(v),
            None => false,
        }
    }

    /// Those of the rows of `answer` that agree with the valuation on each column that it binds; one look-up where it
    /// binds all. The last step is not later.
    pub fn rows_under<V: Lookup>(&self, alloc: Global, time: u64, v: &V) -> Result<Table, NoMemory>
        requires { IsUpToTime time self.now.last }
        ensures table { IfOk result IsTable }
        ensures columns { IfOk result (λ t. t.columns ≡ self.now.columns) }
        ensures rows { IfOk result (λ t. (w : Bound) → HasValuation t w
            ↔ (GivesLast self.now.interval time self.now.last w
            × AgreesWhereBound self.now.columns (V.valuation v.now) w)) }
    {
        if let Some(last) = &self.last {
            if self.interval.has(time - last.time) {
                return rows_of_table(alloc, &last.rows, v);
            }
        }
        no_rows(alloc, &self.columns)
    }
}

// A table of these columns that has no row.
pub fn no_rows(alloc: Global, columns: &Vars) -> Result<Table, NoMemory>
    requires { HasNoRepeats columns.now }
    ensures table { IfOk result IsTable }
    ensures columns { IfOk result (λ t. t.columns ≡ columns.now) }
    ensures rows { IfOk result (λ t. (v : Bound) → HasValuation t v → ⊥) }
{
    Table::from_rows(columns.duplicate(alloc)?, Vec::new(alloc))
}

// Whether the valuation survives.
fn survives<V: Lookup>(surviving: &Surviving<'_>, v: &V) -> bool
    ensures { IsTrue result ↔ SurvivesFor surviving.now (V.valuation v.now) }
{
    match surviving {
        Surviving::All => true,
        Surviving::Only(rows) => rows.has_valuation(v),
        Surviving::AllBut(rows) => !rows.has_valuation(v),
    }
}

// Those of the table's rows that agree with the valuation on each column that it binds; one look-up where it binds all.
fn rows_of_table<V: Lookup>(alloc: Global, rows: &Table, v: &V) -> Result<Table, NoMemory>
    ensures table { IfOk result IsTable }
    ensures columns { IfOk result (λ t. t.columns ≡ rows.now.columns) }
    ensures rows { IfOk result (λ t. (w : Bound) → HasValuation t w
        ↔ (HasValuation rows.now w × AgreesWhereBound rows.now.columns (V.valuation v.now) w)) }
{
    match row_of(alloc, rows.columns().as_slice(), v)? {
        Some(row) => {
            let is_there = rows.has_valuation(v);
            row_where(alloc, rows.columns(), row, is_there)
        }
        None => rows.rows_under(alloc, v),
    }
}

// A table of the row, or of none.
fn row_where(alloc: Global, columns: &Vars, row: Row, is_there: bool) -> Result<Table, NoMemory>
    requires distinct { HasNoRepeats columns.now }
    requires fits { length row ≡ length columns.now }
    ensures table { IfOk result IsTable }
    ensures columns { IfOk result (λ t. t.columns ≡ columns.now) }
    ensures rows { IfOk result (λ t. (v : Bound) → HasValuation t v ↔
        (IsTrue is_there × AgreesWithRow v columns.now row)) }
{
    let mut rows = Vec::new(alloc);
    if is_there {
        rows.push(row)?;
    }
    Table::from_rows(columns.duplicate(alloc)?, rows)
}
