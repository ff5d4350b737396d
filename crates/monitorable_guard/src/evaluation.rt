//! The valuations under which a formula holds at a step, and whether it holds under one.
ghost use Rattle.std.specs.Prelude.{◌≡◌, ◌↔◌, ◌<◌, ◌^◌, ◌⊎◌, ℕ, List, [], OnOk, IfOk};
ghost use Rattle.std.specs.Prelude.{IsTrue, Contains, drop, length};
ghost use Rattle.enf_formula.specs.machine.FormulaViews.{tree_of};
ghost use Rattle.enf_data.specs.declared.terms.VarId.{VarId as Variable};
ghost use Rattle.enf_data.specs.declared.values.Value.{Value as AnyValue};
ghost use Rattle.valuations.specs.machine.Bindings.{bound_in, filled_from_row};
ghost use Rattle.valuations.specs.machine.Tables.{IsTable};
ghost use Rattle.monitorable_guard.specs.machine.Answers.{AddsRows, AreBoundOrFree, AreOpenUnder};
ghost use Rattle.monitorable_guard.specs.machine.Answers.{CanAskFormula, HasAnswers, HasAnswersIn, HasSolution};
ghost use Rattle.monitorable_guard.specs.machine.Answers.{IsGuardAnswer, IsBoundBy};
ghost use Rattle.monitorable_guard.specs.machine.PresentMeaning.{HoldsNow, tables_beyond};
ghost use Rattle.monitorable_guard.specs.meaning.Safety.{FreeWithin};
ghost use Rattle.enf_formula.specs.meaning.Satisfaction as tree;

use crate::atoms::{gather_equal, gather_events, has_match, is_at_most, is_equal, is_less};
use crate::events::StepEvents;
use crate::operators::{is_closed, is_closed_under, open_variables, operators};
use crate::past_tables::Past;
use crate::scope_rows::{push_if, push_rows};
use enf_data::memory::NoMemory;
use enf_data::rows::Row;
use enf_data::terms::{VarId, Vars};
use enf_formula::Formula;
use std::alloc::Global;
use valuations::{Frame, Table};

// What a formula is asked of: the events of a step, and the past.
#[derive(Drop)]
pub struct Present<'e, 's, 'p, P> {
    pub events: &'e StepEvents<'s>,
    pub past: &'p P,
}

// The table of the valuations that go on from the scope and under which the formula holds.
#[cycle(evaluation)]
fn rows<'a, P: Past>(
    alloc: Global,
    present: &Present<'_, '_, '_, P>,
    formula: &Formula,
    first: usize,
    scope: &'a Frame<'a>,
) -> Result<Table, NoMemory>
    requires few { length (P.tables present.now.past.now) < 2 ^ 64 }
    requires ask { CanAskFormula (bound_in scope.now) (drop first (P.tables present.now.past.now))
        (tree_of formula.now) }
    ensures table { IfOk result IsTable }
    ensures columns { IfOk result (λ t. AreOpenUnder (bound_in scope.now) (tree_of formula.now) t.columns) }
    ensures rows { IfOk result (HasAnswers present.now.events.now
        (drop first (P.tables present.now.past.now)) (bound_in scope.now) (tree_of formula.now)) }
{
    let columns = open_variables(alloc, formula, scope)?;
    rows_over(alloc, present, formula, first, scope, columns)
}

// The table of the valuations under which the formula holds, where it is known which free variables have no value.
#[cycle(evaluation)]
pub fn rows_over<'a, P: Past>(
    alloc: Global,
    present: &Present<'_, '_, '_, P>,
    formula: &Formula,
    first: usize,
    scope: &'a Frame<'a>,
    columns: Vars,
) -> Result<Table, NoMemory>
    requires few { length (P.tables present.now.past.now) < 2 ^ 64 }
    requires ask { CanAskFormula (bound_in scope.now) (drop first (P.tables present.now.past.now))
        (tree_of formula.now) }
    requires open { AreOpenUnder (bound_in scope.now) (tree_of formula.now) columns }
    ensures table { IfOk result IsTable }
    ensures columns { IfOk result (λ t. AreOpenUnder (bound_in scope.now) (tree_of formula.now) t.columns) }
    ensures rows { IfOk result (HasAnswers present.now.events.now
        (drop first (P.tables present.now.past.now)) (bound_in scope.now) (tree_of formula.now)) }
{
    let mut found = Vec::new(alloc);
    let closed = columns.is_empty();
    gather_known(
        alloc,
        present,
        formula,
        first,
        scope,
        columns.as_slice(),
        closed,
        &mut found,
    )?;
    Table::from_rows(columns, found)
}

// The table of those of them that are in another table, which has some of their columns: the formula is asked under
// each row of that one.
pub fn rows_in<'a, P: Past>(
    alloc: Global,
    present: &Present<'_, '_, '_, P>,
    formula: &Formula,
    within: &'a Table,
    scope: &'a Frame<'a>,
    columns: Vars,
) -> Result<Table, NoMemory>
    requires few { length (P.tables present.now.past.now) < 2 ^ 64 }
    requires ask { CanAskFormula (bound_in scope.now) (P.tables present.now.past.now) (tree_of formula.now) }
    requires open { AreOpenUnder (bound_in scope.now) (tree_of formula.now) columns }
    requires table { IsTable within.now }
    requires within { (x : Variable) → Contains within.now.columns x → Contains columns x }
    ensures table { IfOk result IsTable }
    ensures columns { IfOk result (λ t. AreOpenUnder (bound_in scope.now) (tree_of formula.now) t.columns) }
    ensures rows { IfOk result (HasAnswersIn within.now present.now.events.now (P.tables present.now.past.now)
        (bound_in scope.now) (tree_of formula.now)) }
{
    let mut found = Vec::new(alloc);
    gather_under(
        alloc,
        present,
        formula,
        0,
        within,
        scope,
        columns.as_slice(),
        &mut found,
    )?;
    Table::from_rows(columns, found)
}

// Adds the row over the columns of each such valuation.
#[cycle(evaluation)]
fn gather<'a, P: Past>(
    alloc: Global,
    present: &Present<'_, '_, '_, P>,
    formula: &Formula,
    first: usize,
    scope: &'a Frame<'a>,
    columns: &[VarId],
    out: &mut Vec<Row>,
) -> Result<(), NoMemory>
    requires few { length (P.tables present.now.past.now) < 2 ^ 64 }
    requires ask { CanAskFormula (bound_in scope.now) (drop first (P.tables present.now.past.now))
        (tree_of formula.now) }
    requires within { AreBoundOrFree columns.now (bound_in scope.now) (tree_of formula.now) }
    ensures { OnOk result (AddsRows columns.now out.old.items out.new.items
        (IsGuardAnswer present.now.events.now (drop first (P.tables present.now.past.now)) (bound_in scope.now)
        (tree_of formula.now) columns.now)) }
{
    let closed = is_closed(alloc, formula, scope)?;
    gather_known(alloc, present, formula, first, scope, columns, closed, out)
}

// Adds the row of each valuation under which the formula holds, where it is known whether each free variable has a
// value.
#[cycle(evaluation)]
fn gather_known<'a, P: Past>(
    alloc: Global,
    present: &Present<'_, '_, '_, P>,
    formula: &Formula,
    first: usize,
    scope: &'a Frame<'a>,
    columns: &[VarId],
    closed: bool,
    out: &mut Vec<Row>,
) -> Result<(), NoMemory>
    requires few { length (P.tables present.now.past.now) < 2 ^ 64 }
    requires ask { CanAskFormula (bound_in scope.now) (drop first (P.tables present.now.past.now))
        (tree_of formula.now) }
    requires within { AreBoundOrFree columns.now (bound_in scope.now) (tree_of formula.now) }
    requires known { IsTrue closed ↔ FreeWithin (tree_of formula.now) (IsBoundBy (bound_in scope.now)) }
    ensures { OnOk result (AddsRows columns.now out.old.items out.new.items
        (IsGuardAnswer present.now.events.now (drop first (P.tables present.now.past.now)) (bound_in scope.now)
        (tree_of formula.now) columns.now)) }
{
    if closed {
        let test = holds(alloc, present, formula, first, scope)?;
        push_if(alloc, test, scope, columns, out)
    } else {
        gather_open(alloc, present, formula, first, scope, columns, out)
    }
}

// Adds the row of each valuation under which a formula with a free variable that has no value holds.
#[cycle(evaluation)]
fn gather_open<'a, P: Past>(
    alloc: Global,
    present: &Present<'_, '_, '_, P>,
    formula: &Formula,
    first: usize,
    scope: &'a Frame<'a>,
    columns: &[VarId],
    out: &mut Vec<Row>,
) -> Result<(), NoMemory>
    requires few { length (P.tables present.now.past.now) < 2 ^ 64 }
    requires ask { CanAskFormula (bound_in scope.now) (drop first (P.tables present.now.past.now))
        (tree_of formula.now) }
    requires within { AreBoundOrFree columns.now (bound_in scope.now) (tree_of formula.now) }
    requires open { FreeWithin (tree_of formula.now) (IsBoundBy (bound_in scope.now)) → ⊥ }
    ensures { OnOk result (AddsRows columns.now out.old.items out.new.items
        (IsGuardAnswer present.now.events.now (drop first (P.tables present.now.past.now)) (bound_in scope.now)
        (tree_of formula.now) columns.now)) }
{
    match formula {
        Formula::Atom(_, name, terms) => {
            let terms = terms.as_slice();
            let events = present.events.under(*name, terms, &*scope);
            gather_events(alloc, events, terms, &*scope, columns, out)
        }
        Formula::Equal(_, s, t) => gather_equal(alloc, s, t, &*scope, columns, out),
        Formula::And(_, g, h) => gather_both(alloc, present, g, h, first, scope, columns, out),
        Formula::Or(_, g, h) => gather_either(alloc, present, g, h, first, scope, columns, out),
        Formula::Exists(_, _, g) => gather(alloc, present, g, first, scope, columns, out),
        Formula::Prev(_, _, _) | Formula::Once(_, _, _) | Formula::Since(_, _, _, _) => {
            let rows = present.past.rows_under(alloc, first, scope)?;
            push_rows(alloc, &rows, &*scope, columns, out)
        }
        // safe only where each free variable has a value
        _ => Ok(()),
    }
}

// Under each row of the left side, the rows of the right side.
#[cycle(evaluation)]
fn gather_both<'a, P: Past>(
    alloc: Global,
    present: &Present<'_, '_, '_, P>,
    g: &Formula,
    h: &Formula,
    first: usize,
    scope: &'a Frame<'a>,
    columns: &[VarId],
    out: &mut Vec<Row>,
) -> Result<(), NoMemory>
    requires few { length (P.tables present.now.past.now) < 2 ^ 64 }
    requires ask { (place : ℕ) × CanAskFormula (bound_in scope.now) (drop first (P.tables present.now.past.now))
        (tree.And place (tree_of g.now) (tree_of h.now)) }
    requires within { AreBoundOrFree columns.now (bound_in scope.now) (tree.And 0 (tree_of g.now) (tree_of h.now)) }
    ensures { (place : ℕ) → OnOk result (AddsRows columns.now out.old.items out.new.items
        (IsGuardAnswer present.now.events.now (drop first (P.tables present.now.past.now)) (bound_in scope.now)
        (tree.And place (tree_of g.now) (tree_of h.now)) columns.now)) }
{
    let left = rows(alloc, present, g, first, scope)?;
    let next = first + operators(g);
    gather_under(alloc, present, h, next, &left, &*scope, columns, out)
}

// Under each row of the table, the rows of the formula.
#[cycle(evaluation)]
fn gather_under<'a, P: Past>(
    alloc: Global,
    present: &Present<'_, '_, '_, P>,
    formula: &Formula,
    first: usize,
    table: &'a Table,
    scope: &'a Frame<'a>,
    columns: &[VarId],
    out: &mut Vec<Row>,
) -> Result<(), NoMemory>
    requires few { length (P.tables present.now.past.now) < 2 ^ 64 }
    requires table { IsTable table.now }
    requires ask { (row : List AnyValue) → Contains table.now.rows row
        → CanAskFormula (filled_from_row (bound_in scope.now) table.now.columns row)
        (drop first (P.tables present.now.past.now)) (tree_of formula.now) }
    requires within { (row : List AnyValue) → Contains table.now.rows row
        → AreBoundOrFree columns.now (filled_from_row (bound_in scope.now) table.now.columns row)
        (tree_of formula.now) }
    ensures { OnOk result (AddsRows columns.now out.old.items out.new.items
        (λ w. (row : List AnyValue) × Contains table.now.rows row
        × IsGuardAnswer present.now.events.now (drop first (P.tables present.now.past.now))
        (filled_from_row (bound_in scope.now) table.now.columns row) (tree_of formula.now) columns.now w)) }
{
    let closed = is_closed_under(alloc, formula, table, &*scope)?;
    for row in table.rows() {
        let inner = Frame::Row(&*scope, table.columns().as_slice(), row.as_slice());
        gather_known(alloc, present, formula, first, &inner, columns, closed, out)?;
    }
    Ok(())
}

#[cycle(evaluation)]
fn gather_either<'a, P: Past>(
    alloc: Global,
    present: &Present<'_, '_, '_, P>,
    g: &Formula,
    h: &Formula,
    first: usize,
    scope: &'a Frame<'a>,
    columns: &[VarId],
    out: &mut Vec<Row>,
) -> Result<(), NoMemory>
    requires few { length (P.tables present.now.past.now) < 2 ^ 64 }
    requires ask { (place : ℕ) × CanAskFormula (bound_in scope.now) (drop first (P.tables present.now.past.now))
        (tree.Or place (tree_of g.now) (tree_of h.now)) }
    requires within { AreBoundOrFree columns.now (bound_in scope.now) (tree.Or 0 (tree_of g.now) (tree_of h.now)) }
    ensures { (place : ℕ) → OnOk result (AddsRows columns.now out.old.items out.new.items
        (IsGuardAnswer present.now.events.now (drop first (P.tables present.now.past.now)) (bound_in scope.now)
        (tree.Or place (tree_of g.now) (tree_of h.now)) columns.now)) }
{
    gather(alloc, present, g, first, scope, columns, out)?;
    gather(alloc, present, h, first + operators(g), scope, columns, out)
}

// Whether there is such a valuation; the first that is found is enough.
#[cycle(evaluation)]
fn has_answer<'a, P: Past>(
    alloc: Global,
    present: &Present<'_, '_, '_, P>,
    formula: &Formula,
    first: usize,
    scope: &'a Frame<'a>,
) -> Result<bool, NoMemory>
    requires few { length (P.tables present.now.past.now) < 2 ^ 64 }
    requires ask { CanAskFormula (bound_in scope.now) (drop first (P.tables present.now.past.now))
        (tree_of formula.now) }
    ensures { IfOk result (λ there. IsTrue there ↔ HasSolution present.now.events.now
        (drop first (P.tables present.now.past.now)) (bound_in scope.now) (tree_of formula.now)) }
{
    let closed = is_closed(alloc, formula, scope)?;
    has_known_answer(alloc, present, formula, first, scope, closed)
}

// Whether there is one, where it is known whether each free variable has a value.
#[cycle(evaluation)]
fn has_known_answer<'a, P: Past>(
    alloc: Global,
    present: &Present<'_, '_, '_, P>,
    formula: &Formula,
    first: usize,
    scope: &'a Frame<'a>,
    closed: bool,
) -> Result<bool, NoMemory>
    requires few { length (P.tables present.now.past.now) < 2 ^ 64 }
    requires ask { CanAskFormula (bound_in scope.now) (drop first (P.tables present.now.past.now))
        (tree_of formula.now) }
    requires known { IsTrue closed ↔ FreeWithin (tree_of formula.now) (IsBoundBy (bound_in scope.now)) }
    ensures { IfOk result (λ there. IsTrue there ↔ HasSolution present.now.events.now
        (drop first (P.tables present.now.past.now)) (bound_in scope.now) (tree_of formula.now)) }
{
    if closed {
        holds(alloc, present, formula, first, scope)
    } else {
        has_open_answer(alloc, present, formula, first, scope)
    }
}

// Whether there is one of a formula with a free variable that has no value.
#[cycle(evaluation)]
fn has_open_answer<'a, P: Past>(
    alloc: Global,
    present: &Present<'_, '_, '_, P>,
    formula: &Formula,
    first: usize,
    scope: &'a Frame<'a>,
) -> Result<bool, NoMemory>
    requires few { length (P.tables present.now.past.now) < 2 ^ 64 }
    requires ask { CanAskFormula (bound_in scope.now) (drop first (P.tables present.now.past.now))
        (tree_of formula.now) }
    requires open { FreeWithin (tree_of formula.now) (IsBoundBy (bound_in scope.now)) → ⊥ }
    ensures { IfOk result (λ there. IsTrue there ↔ HasSolution present.now.events.now
        (drop first (P.tables present.now.past.now)) (bound_in scope.now) (tree_of formula.now)) }
{
    match formula {
        Formula::Atom(_, name, terms) => {
            let terms = terms.as_slice();
            let events = present.events.under(*name, terms, &*scope);
            has_match(alloc, events, terms, &*scope)
        }
        Formula::And(_, g, h) => has_both(alloc, present, g, h, first, scope),
        Formula::Or(_, g, h) => has_either(alloc, present, g, h, first, scope),
        Formula::Exists(_, _, g) => has_answer(alloc, present, g, first, scope),
        Formula::Prev(_, _, _) | Formula::Once(_, _, _) | Formula::Since(_, _, _, _) => {
            present.past.has_some(alloc, first, scope)
        }
        _ => {
            let mut found = Vec::new(alloc);
            gather_open(alloc, present, formula, first, scope, &[], &mut found)?;
            Ok(!found.is_empty())
        }
    }
}

#[cycle(evaluation)]
fn has_both<'a, P: Past>(
    alloc: Global,
    present: &Present<'_, '_, '_, P>,
    g: &Formula,
    h: &Formula,
    first: usize,
    scope: &'a Frame<'a>,
) -> Result<bool, NoMemory>
    requires few { length (P.tables present.now.past.now) < 2 ^ 64 }
    requires ask { (place : ℕ) × CanAskFormula (bound_in scope.now) (drop first (P.tables present.now.past.now))
        (tree.And place (tree_of g.now) (tree_of h.now)) }
    ensures { IfOk result (λ there. (place : ℕ) → IsTrue there ↔ HasSolution present.now.events.now
        (drop first (P.tables present.now.past.now)) (bound_in scope.now)
        (tree.And place (tree_of g.now) (tree_of h.now))) }
{
    let left = rows(alloc, present, g, first, scope)?;
    let next = first + operators(g);
    has_answer_under(alloc, present, h, next, &left, &*scope)
}

// Whether there is one under some row of the table.
#[cycle(evaluation)]
fn has_answer_under<'a, P: Past>(
    alloc: Global,
    present: &Present<'_, '_, '_, P>,
    formula: &Formula,
    first: usize,
    table: &'a Table,
    scope: &'a Frame<'a>,
) -> Result<bool, NoMemory>
    requires few { length (P.tables present.now.past.now) < 2 ^ 64 }
    requires table { IsTable table.now }
    requires ask { (row : List AnyValue) → Contains table.now.rows row
        → CanAskFormula (filled_from_row (bound_in scope.now) table.now.columns row)
        (drop first (P.tables present.now.past.now)) (tree_of formula.now) }
    ensures { IfOk result (λ there. IsTrue there ↔ ((row : List AnyValue) × Contains table.now.rows row
        × HasSolution present.now.events.now (drop first (P.tables present.now.past.now))
        (filled_from_row (bound_in scope.now) table.now.columns row) (tree_of formula.now))) }
{
    let closed = is_closed_under(alloc, formula, table, &*scope)?;
    for row in table.rows() {
        let inner = Frame::Row(&*scope, table.columns().as_slice(), row.as_slice());
        if has_known_answer(alloc, present, formula, first, &inner, closed)? {
            return Ok(true);
        }
    }
    Ok(false)
}

#[cycle(evaluation)]
fn has_either<'a, P: Past>(
    alloc: Global,
    present: &Present<'_, '_, '_, P>,
    g: &Formula,
    h: &Formula,
    first: usize,
    scope: &'a Frame<'a>,
) -> Result<bool, NoMemory>
    requires few { length (P.tables present.now.past.now) < 2 ^ 64 }
    requires ask { (place : ℕ) × CanAskFormula (bound_in scope.now) (drop first (P.tables present.now.past.now))
        (tree.Or place (tree_of g.now) (tree_of h.now)) }
    ensures { IfOk result (λ there. (place : ℕ) → IsTrue there ↔ HasSolution present.now.events.now
        (drop first (P.tables present.now.past.now)) (bound_in scope.now)
        (tree.Or place (tree_of g.now) (tree_of h.now))) }
{
    if has_answer(alloc, present, g, first, scope)? {
        Ok(true)
    } else {
        has_answer(alloc, present, h, first + operators(g), scope)
    }
}

// Whether the formula holds under the scope, which has a value for each free variable.
#[cycle(evaluation)]
pub fn holds<'a, P: Past>(
    alloc: Global,
    present: &Present<'_, '_, '_, P>,
    formula: &Formula,
    first: usize,
    scope: &'a Frame<'a>,
) -> Result<bool, NoMemory>
    requires few { length (P.tables present.now.past.now) < 2 ^ 64 }
    requires ask { CanAskFormula (bound_in scope.now) (drop first (P.tables present.now.past.now))
        (tree_of formula.now) }
    requires closed { FreeWithin (tree_of formula.now) (IsBoundBy (bound_in scope.now)) }
    ensures { IfOk result (λ holds. IsTrue holds ↔ HoldsNow present.now.events.now
        (drop first (P.tables present.now.past.now)) (bound_in scope.now) (tree_of formula.now)) }
{
    match formula {
        Formula::True(_) => Ok(true),
        Formula::Atom(_, name, terms) => Ok(
            present.events.has_event(*name, terms.as_slice(), &*scope),
        ),
        Formula::Equal(_, s, t) => Ok(is_equal(s, t, &*scope)),
        Formula::Less(_, s, t) => Ok(is_less(s, t, &*scope)),
        Formula::AtMost(_, s, t) => Ok(is_at_most(s, t, &*scope)),
        Formula::Not(_, g) => Ok(!holds(alloc, present, g, first, scope)?),
        Formula::And(_, g, h) => hold_both(alloc, present, g, h, first, scope),
        Formula::Or(_, g, h) => holds_either(alloc, present, g, h, first, scope),
        Formula::Implies(_, g, h) => holds_where(alloc, present, g, h, first, scope),
        Formula::Exists(_, _, g) => has_answer(alloc, present, g, first, scope),
        Formula::Forall(_, _, g) => holds_for_all(alloc, present, g, first, scope),
        Formula::Prev(_, _, _) | Formula::Once(_, _, _) | Formula::Since(_, _, _, _) => {
            Ok(present.past.has(first, scope))
        }
        Formula::Historically(_, _, _) => Ok(!present.past.has(first, scope)),
        Formula::False(_)
        | Formula::Next(_, _, _)
        | Formula::Eventually(_, _, _)
        | Formula::Always(_, _, _)
        | Formula::Until(_, _, _, _) => Ok(false),
    }
}

#[cycle(evaluation)]
fn hold_both<'a, P: Past>(
    alloc: Global,
    present: &Present<'_, '_, '_, P>,
    g: &Formula,
    h: &Formula,
    first: usize,
    scope: &'a Frame<'a>,
) -> Result<bool, NoMemory>
    requires few { length (P.tables present.now.past.now) < 2 ^ 64 }
    requires left { CanAskFormula (bound_in scope.now) (drop first (P.tables present.now.past.now)) (tree_of g.now) }
    requires right { CanAskFormula (bound_in scope.now)
        (tables_beyond (tree_of g.now) (drop first (P.tables present.now.past.now))) (tree_of h.now) }
    requires closed { FreeWithin (tree_of g.now) (IsBoundBy (bound_in scope.now)) }
    requires closed_right { FreeWithin (tree_of h.now) (IsBoundBy (bound_in scope.now)) }
    ensures { IfOk result (λ hold. IsTrue hold
        ↔ (HoldsNow present.now.events.now (drop first (P.tables present.now.past.now)) (bound_in scope.now)
        (tree_of g.now) × HoldsNow present.now.events.now
        (tables_beyond (tree_of g.now) (drop first (P.tables present.now.past.now))) (bound_in scope.now)
        (tree_of h.now))) }
{
    if holds(alloc, present, g, first, scope)? {
        holds(alloc, present, h, first + operators(g), scope)
    } else {
        Ok(false)
    }
}

#[cycle(evaluation)]
fn holds_either<'a, P: Past>(
    alloc: Global,
    present: &Present<'_, '_, '_, P>,
    g: &Formula,
    h: &Formula,
    first: usize,
    scope: &'a Frame<'a>,
) -> Result<bool, NoMemory>
    requires few { length (P.tables present.now.past.now) < 2 ^ 64 }
    requires left { CanAskFormula (bound_in scope.now) (drop first (P.tables present.now.past.now)) (tree_of g.now) }
    requires right { CanAskFormula (bound_in scope.now)
        (tables_beyond (tree_of g.now) (drop first (P.tables present.now.past.now))) (tree_of h.now) }
    requires closed { FreeWithin (tree_of g.now) (IsBoundBy (bound_in scope.now)) }
    requires closed_right { FreeWithin (tree_of h.now) (IsBoundBy (bound_in scope.now)) }
    ensures { IfOk result (λ holds. IsTrue holds
        ↔ (HoldsNow present.now.events.now (drop first (P.tables present.now.past.now)) (bound_in scope.now)
        (tree_of g.now) ⊎ HoldsNow present.now.events.now
        (tables_beyond (tree_of g.now) (drop first (P.tables present.now.past.now))) (bound_in scope.now)
        (tree_of h.now))) }
{
    if holds(alloc, present, g, first, scope)? {
        Ok(true)
    } else {
        holds(alloc, present, h, first + operators(g), scope)
    }
}

#[cycle(evaluation)]
fn holds_where<'a, P: Past>(
    alloc: Global,
    present: &Present<'_, '_, '_, P>,
    g: &Formula,
    h: &Formula,
    first: usize,
    scope: &'a Frame<'a>,
) -> Result<bool, NoMemory>
    requires few { length (P.tables present.now.past.now) < 2 ^ 64 }
    requires left { CanAskFormula (bound_in scope.now) (drop first (P.tables present.now.past.now)) (tree_of g.now) }
    requires right { CanAskFormula (bound_in scope.now)
        (tables_beyond (tree_of g.now) (drop first (P.tables present.now.past.now))) (tree_of h.now) }
    requires closed { FreeWithin (tree_of g.now) (IsBoundBy (bound_in scope.now)) }
    requires closed_right { FreeWithin (tree_of h.now) (IsBoundBy (bound_in scope.now)) }
    ensures { IfOk result (λ holds. IsTrue holds
        ↔ (HoldsNow present.now.events.now (drop first (P.tables present.now.past.now)) (bound_in scope.now)
        (tree_of g.now) → HoldsNow present.now.events.now
        (tables_beyond (tree_of g.now) (drop first (P.tables present.now.past.now))) (bound_in scope.now)
        (tree_of h.now))) }
{
    if holds(alloc, present, g, first, scope)? {
        holds(alloc, present, h, first + operators(g), scope)
    } else {
        Ok(true)
    }
}

// Directly below a `forall`; those directly nested count as one.
#[cycle(evaluation)]
fn holds_for_all<'a, P: Past>(
    alloc: Global,
    present: &Present<'_, '_, '_, P>,
    body: &Formula,
    first: usize,
    scope: &'a Frame<'a>,
) -> Result<bool, NoMemory>
    requires few { length (P.tables present.now.past.now) < 2 ^ 64 }
    requires ask { (place : ℕ) × (xs : List Variable) × CanAskFormula (bound_in scope.now)
        (drop first (P.tables present.now.past.now)) (tree.Forall place xs (tree_of body.now)) }
    ensures { IfOk result (λ holds. (place : ℕ) (xs : List Variable) → CanAskFormula (bound_in scope.now)
        (drop first (P.tables present.now.past.now)) (tree.Forall place xs (tree_of body.now))
        → FreeWithin (tree.Forall place xs (tree_of body.now)) (IsBoundBy (bound_in scope.now))
        → IsTrue holds ↔ HoldsNow present.now.events.now
        (drop first (P.tables present.now.past.now)) (bound_in scope.now)
        (tree.Forall place xs (tree_of body.now))) }
{
    match body {
        Formula::Forall(_, _, inner) => holds_for_all(alloc, present, inner, first, scope),
        Formula::Implies(_, g, h) => holds_for_each(alloc, present, g, h, first, scope),
        Formula::Not(_, g) => Ok(!has_answer(alloc, present, g, first, scope)?),
        // not safe
        _ => Ok(false),
    }
}

// Whether the right side holds under each row of the left side.
#[cycle(evaluation)]
fn holds_for_each<'a, P: Past>(
    alloc: Global,
    present: &Present<'_, '_, '_, P>,
    g: &Formula,
    h: &Formula,
    first: usize,
    scope: &'a Frame<'a>,
) -> Result<bool, NoMemory>
    requires few { length (P.tables present.now.past.now) < 2 ^ 64 }
    requires ask { (places : ℕ × ℕ) × (xs : List Variable) × CanAskFormula (bound_in scope.now)
        (drop first (P.tables present.now.past.now))
        (tree.Forall places.0 xs (tree.Implies places.1 (tree_of g.now) (tree_of h.now))) }
    ensures { IfOk result (λ holds. (p q : ℕ) (xs : List Variable) → CanAskFormula (bound_in scope.now)
        (drop first (P.tables present.now.past.now))
        (tree.Forall p xs (tree.Implies q (tree_of g.now) (tree_of h.now)))
        → IsTrue holds ↔ HoldsNow present.now.events.now
        (drop first (P.tables present.now.past.now)) (bound_in scope.now)
        (tree.Forall p xs (tree.Implies q (tree_of g.now) (tree_of h.now)))) }
{
    let range = rows(alloc, present, g, first, scope)?;
    let next = first + operators(g);
    holds_under(alloc, present, h, next, &range, &*scope)
}

// Whether the formula holds under each row of the table.
#[cycle(evaluation)]
fn holds_under<'a, P: Past>(
    alloc: Global,
    present: &Present<'_, '_, '_, P>,
    formula: &Formula,
    first: usize,
    table: &'a Table,
    scope: &'a Frame<'a>,
) -> Result<bool, NoMemory>
    requires few { length (P.tables present.now.past.now) < 2 ^ 64 }
    requires ask { (row : List AnyValue) → Contains table.now.rows row
        → CanAskFormula (filled_from_row (bound_in scope.now) table.now.columns row)
        (drop first (P.tables present.now.past.now)) (tree_of formula.now) }
    requires closed { (row : List AnyValue) → Contains table.now.rows row
        → FreeWithin (tree_of formula.now) (IsBoundBy (filled_from_row (bound_in scope.now) table.now.columns row)) }
    ensures { IfOk result (λ holds. IsTrue holds
        ↔ ((row : List AnyValue) → Contains table.now.rows row → HoldsNow present.now.events.now
        (drop first (P.tables present.now.past.now)) (filled_from_row (bound_in scope.now) table.now.columns row)
        (tree_of formula.now))) }
{
    for row in table.rows() {
        let inner = Frame::Row(&*scope, table.columns().as_slice(), row.as_slice());
        if !holds(alloc, present, formula, first, &inner)? {
            return Ok(false);
        }
    }
    Ok(true)
}
