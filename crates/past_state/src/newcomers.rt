//! What an operator right below another brings that is new, which is asked for in the place of its whole table.
ghost use Rattle.std.specs.Prelude.{◌≡◌, [], IfOk, IfSome, IsTrue, None};
ghost use Rattle.enf_formula.specs.machine.FormulaViews.{tree_of};
ghost use Rattle.enf_formula.specs.meaning.Satisfaction.{AreFreeVariables};
ghost use Rattle.monitorable_guard.specs.machine.PresentMeaning.{outermost};
ghost use Rattle.past_state.specs.machine.KeepableOperators.{IsAlone, IsFreshFormula};
ghost use Rattle.past_state.specs.machine.Newcomers.{AsksInstead, BeginsWith, GrowsBy};

use crate::first_memories::guard_alone;
use crate::shared_guard::SharedGuard;
use enf_data::intervals::Interval;
use enf_data::memory::NoMemory;
use enf_data::terms::Vars;
use enf_formula::Formula;
use std::alloc::Global;

// A guard for the rows of an operand of `once` that are new, where they are enough and can be asked for by themselves.
pub fn newcomers(
    alloc: Global,
    interval: Interval,
    operand: &Formula,
    columns: &Vars,
) -> Result<Option<SharedGuard>, NoMemory>
    requires fresh { IsFreshFormula (tree_of operand.now) }
    requires columns { AreFreeVariables (tree_of operand.now) columns.now }
    ensures endless { IfOk result (λ found. IfSome found (λ _. interval.high ≡ None)) }
    ensures asks { IfOk result (λ found. IfSome found
        (AsksInstead (BeginsWith (tree_of operand.now)) (tree_of operand.now))) }
{
    if interval.high.is_some() {
        return Ok(None);
    }
    match operand {
        Formula::Once(_, inner, begun) | Formula::Since(_, inner, _, begun) if inner.low == 0 => {
            guard_of_now(alloc, begun, columns)
        }
        _ => Ok(None),
    }
}

// A guard for the rows that come to those of an operand of `prev`, where none goes and they can be asked for by
// themselves.
pub fn growth(
    alloc: Global,
    operand: &Formula,
    columns: &Vars,
) -> Result<Option<SharedGuard>, NoMemory>
    requires fresh { IsFreshFormula (tree_of operand.now) }
    requires columns { AreFreeVariables (tree_of operand.now) columns.now }
    ensures { IfOk result (λ found. IfSome found
        (AsksInstead (GrowsBy (tree_of operand.now)) (tree_of operand.now))) }
{
    match operand {
        Formula::Once(_, inner, begun) if inner.low == 0 => {
            if inner.high.is_some() {
                return Ok(None);
            }
            guard_of_now(alloc, begun, columns)
        }
        _ => Ok(None),
    }
}

// The guard of the formula with nothing bound, where it is one, has these columns and asks nothing of the past.
fn guard_of_now(
    alloc: Global,
    formula: &Formula,
    columns: &Vars,
) -> Result<Option<SharedGuard>, NoMemory>
    ensures alone { IfOk result (λ found. IfSome found (IsAlone (tree_of formula.now))) }
    ensures columns { IfOk result (λ found. IfSome found (λ _. AreFreeVariables (tree_of formula.now) columns.now)) }
    ensures present { IfOk result (λ found. IfSome found (λ _. outermost (tree_of formula.now) ≡ [])) }
{
    if !is_of_now(formula) || formula.free_vars(alloc)? != *columns {
        return Ok(None);
    }
    match guard_alone(alloc, formula)? {
        Some(guard) => Ok(Some(SharedGuard::new(alloc, guard)?)),
        None => Ok(None),
    }
}

// Whether no operator on the past stands in it.
fn is_of_now(formula: &Formula) -> bool
    ensures { IsTrue result → outermost (tree_of formula.now) ≡ [] }
{
    match formula {
        Formula::True(_)
        | Formula::False(_)
        | Formula::Atom(_, _, _)
        | Formula::Equal(_, _, _)
        | Formula::Less(_, _, _)
        | Formula::AtMost(_, _, _) => true,
        Formula::Not(_, g) | Formula::Exists(_, _, g) | Formula::Forall(_, _, g) => is_of_now(g),
        Formula::And(_, g, h) | Formula::Or(_, g, h) | Formula::Implies(_, g, h) => {
            is_of_now(g) && is_of_now(h)
        }
        _ => false,
    }
}
