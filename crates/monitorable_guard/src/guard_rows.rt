//! The rows of a guard, where they stand.
ghost use Rattle.std.specs.Prelude.{◌≡◌, ◌<◌, IfSome, IsTrue, Some, All, length, map, slice_get};
ghost use Rattle.std.specs.List.Sorted.{IsStrictlySortedBy};
ghost use Rattle.enf_data.specs.meaning.Values.{row_cmp};
ghost use Rattle.enf_data.specs.meaning.Membership.{HasNoRepeats};
ghost use Rattle.enf_data.specs.declared.terms.Term.TheVariants.{Var as Variable};
ghost use Rattle.monitorable_guard.specs.machine.EventOrder.{arguments, kept_rows};
ghost use Rattle.valuations.specs.machine.Tables.{IsTable};

use enf_data::events::Event;
use enf_data::terms::{Term, VarId};
use enf_data::values::Value;
use std::marker::Model;
use valuations::Table;

/// The rows of a guard at a step, in rising order: those of a table, or the arguments of events, which stay where they
/// are.
#[derive(Drop)]
pub struct Rows<'a> {
    table: Option<Table>,
    // where there is no table
    columns: &'a [VarId],
    events: &'a [&'a Event],
}

impl<'a> Model for Rows<'a> {
    ghost use Rattle.valuations.specs.machine.Tables.{IsTable, Relation, relation_code};
    ghost use Rattle.monitorable_guard.specs.machine.EventOrder.{kept_rows};

    ghost Value = { Relation };

    ghost coded = { relation_code };

    ghost view = { λ rows. kept_rows rows.table rows.columns.now rows.events.now };

    ghost invariant = { λ rows. IsTable (kept_rows rows.table rows.columns.now rows.events.now) };
}

impl<'a> Rows<'a> {
    /// The rows of a table.
    pub fn of(table: Table) -> Rows<'a>
        requires { IsTable table }
        ensures { result ≡ table }
    {
        Rows {
            table: Some(table),
            columns: &[],
            events: &[],
        }
    }

    /// How many rows there are.
    pub fn len(&self) -> usize
        ensures { result ≡ length self.now.rows }
    {
        match &self.table {
            Some(table) => table.len(),
            None => self.events.len(),
        }
    }

    /// The columns in order.
    pub fn columns(&self) -> &[VarId]
        ensures { result.now ≡ self.now.columns }
    {
        match &self.table {
            Some(table) => table.columns().as_slice(),
            None => self.columns,
        }
    }

    /// The row at a place, counted from 0.
    pub fn row(&self, place: usize) -> &[Value]
        requires { place < length self.now.rows }
        ensures { slice_get self.now.rows place ≡ Some result.now }
    {
        match &self.table {
            Some(table) => table.rows()[place].as_slice(),
            None => {
                let event = self.events[place];
                event.args.as_slice()
            }
        }
    }
}

// The arguments of the events, where they are rows of the columns.
pub fn told<'a>(columns: &'a [VarId], events: &'a [&'a Event]) -> Option<Rows<'a>>
    requires { HasNoRepeats columns.now }
    ensures rows { IfSome result (λ t. t ≡ record { columns = columns.now; rows = arguments events.now }) }
    ensures table { IfSome result IsTable }
{
    if fit(events, columns.len()) && rise(events) {
        Some(Rows {
            table: None,
            columns,
            events,
        })
    } else {
        None
    }
}

// Whether each event has so many arguments.
fn fit(events: &[&Event], width: usize) -> bool
    ensures { IsTrue result → All (λ row. length row ≡ width) (arguments events.now) }
{
    for event in events {
        if event.args.len() != width {
            return false;
        }
    }
    true
}

// Whether the arguments of each event come before those of the next.
fn rise(events: &[&Event]) -> bool
    ensures { IsTrue result → IsStrictlySortedBy row_cmp (arguments events.now) }
{
    events.is_sorted_by(|a, b| a.args.compare(&b.args).is_lt())
}

// Whether the terms are the variables, one after another.
pub fn are_variables(terms: &[Term], variables: &[VarId]) -> bool
    ensures { IsTrue result → terms.now ≡ map Variable variables.now }
{
    if terms.len() != variables.len() {
        return false;
    }
    for place in 0..terms.len() {
        if !is_variable(&terms[place], variables[place]) {
            return false;
        }
    }
    true
}

fn is_variable(term: &Term, variable: VarId) -> bool
    ensures { IsTrue result → term.now ≡ Variable variable }
{
    match term {
        Term::Var(own) => *own == variable,
        Term::Const(_) => false,
    }
}
