//! The outermost operators on the past, and the variables that are open.
ghost use Rattle.std.specs.Prelude.{◌≡◌, ◌<◌, ◌^◌, ◌↔◌, IfOk, IsTrue, Contains, filter, is_none};
ghost use Rattle.std.specs.Prelude.{length, List};
ghost use Rattle.enf_data.specs.meaning.Valuations.{value_at};
ghost use Rattle.enf_formula.specs.machine.FormulaViews.{tree_of};
ghost use Rattle.enf_data.specs.declared.terms.VarId.{VarId as Variable};
ghost use Rattle.monitorable_guard.specs.machine.Answers.{AreOpenUnder, IsBoundBy};
ghost use Rattle.monitorable_guard.specs.machine.Evaluation.{AreOpen};
ghost use Rattle.monitorable_guard.specs.machine.PresentMeaning.{outermost};
ghost use Rattle.monitorable_guard.specs.meaning.Safety.{FreeWithin};
ghost use Rattle.enf_data.specs.declared.values.Value.{Value as AnyValue};
ghost use Rattle.valuations.specs.machine.Bindings.{bound_in, filled_from_row};
ghost use Rattle.valuations.specs.machine.Tables.{IsTable};

use enf_data::memory::NoMemory;
use enf_data::terms::{VarId, Vars};
use enf_formula::Formula;
use std::alloc::Global;
use valuations::{Frame, Lookup, Table};

// How many outermost operators on the past there are.
pub fn operators(formula: &Formula) -> usize
    requires { length (outermost (tree_of formula.now)) < 2 ^ 64 }
    ensures { result ≡ length (outermost (tree_of formula.now)) }
{
    match formula {
        Formula::True(_)
        | Formula::False(_)
        | Formula::Atom(_, _, _)
        | Formula::Equal(_, _, _)
        | Formula::Less(_, _, _)
        | Formula::AtMost(_, _, _)
        | Formula::Next(_, _, _)
        | Formula::Eventually(_, _, _)
        | Formula::Always(_, _, _)
        | Formula::Until(_, _, _, _) => 0,
        Formula::Not(_, g) | Formula::Exists(_, _, g) | Formula::Forall(_, _, g) => operators(g),
        Formula::And(_, g, h) | Formula::Or(_, g, h) | Formula::Implies(_, g, h) => {
            operators(g) + operators(h)
        }
        Formula::Prev(_, _, _)
        | Formula::Once(_, _, _)
        | Formula::Historically(_, _, _)
        | Formula::Since(_, _, _, _) => 1,
    }
}

// How many there are, where a usize can say it: no memory has room for a number of each otherwise.
pub fn counted(formula: &Formula) -> Result<usize, NoMemory>
    ensures { IfOk result (λ count. count ≡ length (outermost (tree_of formula.now))) }
{
    match formula {
        Formula::True(_)
        | Formula::False(_)
        | Formula::Atom(_, _, _)
        | Formula::Equal(_, _, _)
        | Formula::Less(_, _, _)
        | Formula::AtMost(_, _, _)
        | Formula::Next(_, _, _)
        | Formula::Eventually(_, _, _)
        | Formula::Always(_, _, _)
        | Formula::Until(_, _, _, _) => Ok(0),
        Formula::Not(_, g) | Formula::Exists(_, _, g) | Formula::Forall(_, _, g) => counted(g),
        Formula::And(_, g, h) | Formula::Or(_, g, h) | Formula::Implies(_, g, h) => {
            let left = counted(g)?;
            let right = counted(h)?;
            left.checked_add(right).ok_or(NoMemory)
        }
        Formula::Prev(_, _, _)
        | Formula::Once(_, _, _)
        | Formula::Historically(_, _, _)
        | Formula::Since(_, _, _, _) => Ok(1),
    }
}

// The free variables that have no value, in rising order.
pub fn open_variables(alloc: Global, formula: &Formula, scope: &Frame<'_>) -> Result<Vars, NoMemory>
    ensures { IfOk result (AreOpenUnder (bound_in scope.now) (tree_of formula.now)) }
{
    let free = formula.free_vars(alloc)?;
    let found = unbound(alloc, free.as_slice(), scope)?;
    Ok(Vars::from_vec(found))
}

fn unbound(alloc: Global, variables: &[VarId], scope: &Frame<'_>) -> Result<Vec<VarId>, NoMemory>
    ensures { IfOk result (λ xs. xs.items
        ≡ filter (λ x. is_none (value_at (bound_in scope.now) x)) variables.now) }
{
    let mut found = Vec::new(alloc);
    for variable in variables {
        if scope.get(*variable).is_none() {
            found.push(*variable)?;
        }
    }
    Ok(found)
}

// Whether each free variable has a value.
pub fn is_closed(alloc: Global, formula: &Formula, scope: &Frame<'_>) -> Result<bool, NoMemory>
    ensures { IfOk result (λ closed. IsTrue closed
        ↔ FreeWithin (tree_of formula.now) (IsBoundBy (bound_in scope.now))) }
{
    let free = formula.free_vars(alloc)?;
    Ok(are_bound(free.as_slice(), scope))
}

// Whether each of the variables has a value.
pub fn are_bound<V: Lookup>(variables: &[VarId], v: &V) -> bool
    ensures { IsTrue result
        ↔ ((x : Variable) → Contains variables.now x → IsBoundBy (V.valuation v.now) x) }
{
    for variable in variables {
        if v.value(*variable).is_none() {
            return false;
        }
    }
    true
}

// Whether each free variable has a value under a row of the table: the same under each of its rows.
pub fn is_closed_under(
    alloc: Global,
    formula: &Formula,
    table: &Table,
    scope: &Frame<'_>,
) -> Result<bool, NoMemory>
    requires { IsTable table.now }
    ensures { IfOk result (λ closed. (row : List AnyValue) → Contains table.now.rows row → IsTrue closed
        ↔ FreeWithin (tree_of formula.now)
        (IsBoundBy (filled_from_row (bound_in scope.now) table.now.columns row))) }
{
    let Some(first) = table.rows().first() else {
        return Ok(true);
    };
    let inner = Frame::Row(scope, table.columns().as_slice(), first.as_slice());
    is_closed(alloc, formula, &inner)
}

// The free variables that are not bound, in rising order.
pub fn open_beside(alloc: Global, formula: &Formula, bound: &[VarId]) -> Result<Vars, NoMemory>
    ensures { IfOk result (AreOpen (tree_of formula.now) bound.now) }
{
    let free = formula.free_vars(alloc)?;
    let mut found = Vec::new(alloc);
    for variable in free.as_slice() {
        if !bound.contains(variable) {
            found.push(*variable)?;
        }
    }
    Ok(Vars::from_vec(found))
}
