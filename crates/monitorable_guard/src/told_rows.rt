//! The rows of a formula that begins with an event: the arguments of events under which it holds.
ghost use Rattle.std.specs.Prelude.{◌≡◌, ◌↔◌, ◌<◌, ◌^◌, Contains, IfOk, IsTrue, OnOk, length};
ghost use Rattle.enf_data.specs.declared.events.Event.{Event as AnyEvent};
ghost use Rattle.enf_formula.specs.machine.FormulaViews.{tree_of};
ghost use Rattle.valuations.specs.machine.Bindings.{bound_in};
ghost use Rattle.valuations.specs.machine.Tables.{IsTable};
ghost use Rattle.monitorable_guard.specs.machine.Answers.{AddsRows, AreOpenUnder, CanAskFormula, HasAnswers};
ghost use Rattle.monitorable_guard.specs.machine.Answers.{IsBoundBy, IsGuardAnswer};
ghost use Rattle.monitorable_guard.specs.machine.EventOrder.{shown_events};
ghost use Rattle.monitorable_guard.specs.machine.NeededEvents.{BeginsWithEvent, HoldsForArguments, first_conjunct};
ghost use Rattle.monitorable_guard.specs.machine.PresentMeaning.{HoldsNow};
ghost use Rattle.monitorable_guard.specs.meaning.Safety.{FreeWithin};

use crate::evaluation::{Present, holds, rows_over};
use crate::needed_events::event_of_columns;
use crate::past_tables::Past;
use enf_data::events::{Event, NameId};
use enf_data::items::Duplicate;
use enf_data::memory::NoMemory;
use enf_data::rows::Row;
use enf_data::terms::{VarId, Vars};
use enf_formula::Formula;
use std::alloc::Global;
use valuations::{Frame, Table};

// The table of the valuations under which the formula holds, over the free variables that have no value. Where it
// begins with an event whose terms are these, no row but those that it has is made.
pub fn rows_told<'a, P: Past>(
    alloc: Global,
    present: &Present<'_, '_, '_, P>,
    formula: &Formula,
    scope: &'a Frame<'a>,
    columns: Vars,
) -> Result<Table, NoMemory>
    requires few { length (P.tables present.now.past.now) < 2 ^ 64 }
    requires ask { CanAskFormula (bound_in scope.now) (P.tables present.now.past.now) (tree_of formula.now) }
    requires open { AreOpenUnder (bound_in scope.now) (tree_of formula.now) columns }
    ensures table { IfOk result IsTable }
    ensures columns { IfOk result (λ t. AreOpenUnder (bound_in scope.now) (tree_of formula.now) t.columns) }
    ensures rows { IfOk result (HasAnswers present.now.events.now (P.tables present.now.past.now) (bound_in scope.now)
        (tree_of formula.now)) }
{
    let Some(name) = event_of_columns(formula, columns.as_slice()) else {
        return rows_over(alloc, present, formula, 0, scope, columns);
    };
    let named = present.events.named(name);
    let mut found = Vec::with_capacity(alloc, named.len())?;
    gather_told(
        alloc,
        present,
        formula,
        scope,
        columns.as_slice(),
        name,
        named,
        &mut found,
    )?;
    Table::from_rows(columns, found)
}

// Adds the arguments of those of the named events, as many as the columns, under which the formula holds.
fn gather_told<'a, P: Past>(
    alloc: Global,
    present: &Present<'_, '_, '_, P>,
    formula: &Formula,
    scope: &'a Frame<'a>,
    columns: &[VarId],
    name: NameId,
    named: &[&Event],
    out: &mut Vec<Row>,
) -> Result<(), NoMemory>
    requires named { (event : AnyEvent) → Contains (shown_events named.now) event
        ↔ (Contains present.now.events.now event × (event.name ≡ name)) }
    requires few { length (P.tables present.now.past.now) < 2 ^ 64 }
    requires ask { CanAskFormula (bound_in scope.now) (P.tables present.now.past.now) (tree_of formula.now) }
    requires open { AreOpenUnder (bound_in scope.now) (tree_of formula.now) columns.now }
    requires begins { BeginsWithEvent name columns.now (tree_of formula.now) }
    ensures { OnOk result (AddsRows columns.now out.old.items out.new.items
        (IsGuardAnswer present.now.events.now (P.tables present.now.past.now) (bound_in scope.now)
        (tree_of formula.now) columns.now)) }
{
    for event in named {
        gather_if_told(alloc, present, formula, scope, columns, event, out)?;
    }
    Ok(())
}

// Adds the arguments of an event with which the formula can begin, if they are as many as the columns and the formula
// holds under them.
fn gather_if_told<'a, P: Past>(
    alloc: Global,
    present: &Present<'_, '_, '_, P>,
    formula: &Formula,
    scope: &'a Frame<'a>,
    columns: &[VarId],
    event: &Event,
    out: &mut Vec<Row>,
) -> Result<(), NoMemory>
    requires few { length (P.tables present.now.past.now) < 2 ^ 64 }
    requires ask { CanAskFormula (bound_in scope.now) (P.tables present.now.past.now) (tree_of formula.now) }
    requires open { AreOpenUnder (bound_in scope.now) (tree_of formula.now) columns.now }
    requires there { Contains present.now.events.now event.now }
    requires begins { BeginsWithEvent event.now.name columns.now (tree_of formula.now) }
    ensures { OnOk result (AddsRows columns.now out.old.items out.new.items
        (HoldsForArguments present.now.events.now (P.tables present.now.past.now) (bound_in scope.now)
        (tree_of formula.now) columns.now event.now.args)) }
{
    let args = event.args.as_slice();
    if args.len() != columns.len() {
        return Ok(());
    }
    let inner = Frame::Row(&*scope, columns, args);
    if !holds_for(alloc, present, formula, &inner)? {
        return Ok(());
    }
    out.push(event.args.duplicate(alloc)?)?;
    Ok(())
}

// Whether a formula that begins with an event that is there holds under the scope, which has a value for each free
// variable. One that is nothing but this event does.
fn holds_for<'a, P: Past>(
    alloc: Global,
    present: &Present<'_, '_, '_, P>,
    formula: &Formula,
    scope: &'a Frame<'a>,
) -> Result<bool, NoMemory>
    requires few { length (P.tables present.now.past.now) < 2 ^ 64 }
    requires ask { CanAskFormula (bound_in scope.now) (P.tables present.now.past.now) (tree_of formula.now) }
    requires closed { FreeWithin (tree_of formula.now) (IsBoundBy (bound_in scope.now)) }
    requires begins { HoldsNow present.now.events.now (P.tables present.now.past.now) (bound_in scope.now)
        (first_conjunct (tree_of formula.now)) }
    ensures { IfOk result (λ holds. IsTrue holds ↔ HoldsNow present.now.events.now (P.tables present.now.past.now)
        (bound_in scope.now) (tree_of formula.now)) }
{
    match formula {
        Formula::Atom(_, _, _) => Ok(true),
        _ => holds(alloc, present, formula, 0, scope),
    }
}
