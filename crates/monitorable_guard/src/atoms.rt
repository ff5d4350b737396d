//! Atoms and comparisons: the valuations under which they hold, and whether they hold under one.
ghost use Rattle.std.specs.Prelude.{◌≡◌, ◌↔◌, ◌⊎◌, ◌<ℤ◌, ◌≤ℤ◌, IfOk, OnOk};
ghost use Rattle.std.specs.Prelude.{[], IsSome, IsTrue, Contains};
ghost use Rattle.enf_data.specs.meaning.Valuations.{Valuation as Bound};
ghost use Rattle.enf_data.specs.meaning.Valuations.{value_of_term};
ghost use Rattle.enf_data.specs.declared.terms.Term.TheVariants.{Var as Variable};
ghost use Rattle.enf_data.specs.declared.terms.VarId.{VarId as AnyVariable};
ghost use Rattle.enf_formula.specs.meaning.Satisfaction.{AreSameValues, AreNumbersInOrder};
ghost use Rattle.monitorable_guard.specs.machine.Answers.{AddsRows, IsBoundBy, IsEquated, IsMatchAmong, IsMatchOf};
ghost use Rattle.monitorable_guard.specs.machine.Answers.{IsValued};
ghost use Rattle.monitorable_guard.specs.machine.EventOrder.{shown_events};
ghost use Rattle.valuations.specs.machine.Bindings.{bound_in};

use crate::atom_matches::{matched, matched_term};
use crate::scope_rows::push_row;
use enf_data::events::Event;
use enf_data::memory::NoMemory;
use enf_data::rows::Row;
use enf_data::terms::{Term, VarId};
use enf_data::values::Value;
use std::alloc::Global;
use valuations::arguments::value_in;
use valuations::{Frame, Scope};

// Adds a row for each valuation under which the terms are the arguments of one of the events.
pub fn gather_events<'a>(
    alloc: Global,
    events: &[&'a Event],
    terms: &[Term],
    scope: &'a Frame<'a>,
    columns: &[VarId],
    out: &mut Vec<Row>,
) -> Result<(), NoMemory>
    requires { (x : AnyVariable) → Contains columns.now x
        → IsBoundBy (bound_in scope.now) x ⊎ Contains terms.now (Variable x) }
    ensures { OnOk result (AddsRows columns.now out.old.items out.new.items
        (IsMatchAmong (shown_events events.now) terms.now (bound_in scope.now) columns.now)) }
{
    for event in events {
        gather_match(alloc, terms, event.args.as_slice(), scope, columns, out)?;
    }
    Ok(())
}

// Whether there is such a valuation: the first event that the terms match is enough.
pub fn has_match<'a>(
    alloc: Global,
    events: &[&'a Event],
    terms: &[Term],
    scope: &'a Frame<'a>,
) -> Result<bool, NoMemory>
    ensures { IfOk result (λ there. IsTrue there ↔ ((w : Bound)
        × IsMatchAmong (shown_events events.now) terms.now (bound_in scope.now) [] w)) }
{
    for event in events {
        if has_values(alloc, terms, event.args.as_slice(), scope)? {
            return Ok(true);
        }
    }
    Ok(false)
}

// Whether there is a valuation under which the terms have these values.
fn has_values<'a>(
    alloc: Global,
    terms: &[Term],
    values: &'a [Value],
    scope: &'a Frame<'a>,
) -> Result<bool, NoMemory>
    ensures { IfOk result (λ there. IsTrue there
        ↔ ((w : Bound) × IsMatchOf terms.now values.now (bound_in scope.now) [] w)) }
{
    let found = matched(terms, values, Scope::over(alloc, scope))?;
    Ok(found.is_some())
}

// Adds the row of the valuation under which the terms have these values, where there is one.
pub fn gather_match<'a>(
    alloc: Global,
    terms: &[Term],
    values: &'a [Value],
    scope: &'a Frame<'a>,
    columns: &[VarId],
    out: &mut Vec<Row>,
) -> Result<(), NoMemory>
    requires { (x : AnyVariable) → Contains columns.now x
        → IsBoundBy (bound_in scope.now) x ⊎ Contains terms.now (Variable x) }
    ensures { OnOk result (AddsRows columns.now out.old.items out.new.items
        (IsMatchOf terms.now values.now (bound_in scope.now) columns.now)) }
{
    match matched(terms, values, Scope::over(alloc, scope))? {
        Some(inner) => push_row(alloc, &inner, columns, out),
        None => Ok(()),
    }
}

// Adds the row of the valuation under which the terms are equal, one of which has a value.
pub fn gather_equal<'a>(
    alloc: Global,
    s: &'a Term,
    t: &'a Term,
    scope: &'a Frame<'a>,
    columns: &[VarId],
    out: &mut Vec<Row>,
) -> Result<(), NoMemory>
    requires one { IsSome (value_of_term (bound_in scope.now) s.now)
        ⊎ IsSome (value_of_term (bound_in scope.now) t.now) }
    requires within { (x : AnyVariable) → Contains columns.now x
        → IsBoundBy (bound_in scope.now) x ⊎ ((s.now ≡ Variable x) ⊎ (t.now ≡ Variable x)) }
    ensures { OnOk result (AddsRows columns.now out.old.items out.new.items
        (IsEquated s.now t.now (bound_in scope.now) columns.now)) }
{
    match (value_in(s, scope), value_in(t, scope)) {
        (Some(value), _) => gather_value(alloc, t, value, scope, columns, out),
        (None, Some(value)) => gather_value(alloc, s, value, scope, columns, out),
        (None, None) => Ok(()),
    }
}

fn gather_value<'a>(
    alloc: Global,
    term: &Term,
    value: &'a Value,
    scope: &'a Frame<'a>,
    columns: &[VarId],
    out: &mut Vec<Row>,
) -> Result<(), NoMemory>
    requires { (x : AnyVariable) → Contains columns.now x
        → IsBoundBy (bound_in scope.now) x ⊎ (term.now ≡ Variable x) }
    ensures { OnOk result (AddsRows columns.now out.old.items out.new.items
        (IsValued term.now value.now (bound_in scope.now) columns.now)) }
{
    match matched_term(term, value, Scope::over(alloc, scope))? {
        Some(inner) => push_row(alloc, &inner, columns, out),
        None => Ok(()),
    }
}

// Whether both terms have values, which are the same.
pub fn is_equal<'a>(s: &'a Term, t: &'a Term, scope: &'a Frame<'a>) -> bool
    ensures { IsTrue result ↔ AreSameValues (value_of_term (bound_in scope.now) s.now)
        (value_of_term (bound_in scope.now) t.now) }
{
    match (value_in(s, scope), value_in(t, scope)) {
        (Some(a), Some(b)) => a == b,
        _ => false,
    }
}

// Whether both terms are numbers, of which the first is less.
pub fn is_less<'a>(s: &'a Term, t: &'a Term, scope: &'a Frame<'a>) -> bool
    ensures { IsTrue result
        ↔ AreNumbersInOrder ◌<ℤ◌ (value_of_term (bound_in scope.now) s.now)
        (value_of_term (bound_in scope.now) t.now) }
{
    match (value_in(s, scope), value_in(t, scope)) {
        (Some(Value::Num(a)), Some(Value::Num(b))) => *a < *b,
        _ => false,
    }
}

// Whether both terms are numbers, of which the first is at most the second.
pub fn is_at_most<'a>(s: &'a Term, t: &'a Term, scope: &'a Frame<'a>) -> bool
    ensures { IsTrue result
        ↔ AreNumbersInOrder ◌≤ℤ◌ (value_of_term (bound_in scope.now) s.now)
        (value_of_term (bound_in scope.now) t.now) }
{
    match (value_in(s, scope), value_in(t, scope)) {
        (Some(Value::Num(a)), Some(Value::Num(b))) => *a <= *b,
        _ => false,
    }
}
