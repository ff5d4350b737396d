//! What safety is for: a law over the definitions, the contract of a function with an empty body.
ghost use Rattle.monitorable_guard.specs.machine.Laws.{EvaluatedIsSatisfied, FreeVariablesDecideNow};
ghost use Rattle.monitorable_guard.specs.machine.Laws.{SafeWithFreeListed, SafeWithNoneListed, PresentIsSatisfied};
ghost use Rattle.monitorable_guard.specs.machine.Laws.{EvaluatedAreRows, SafeHasRows, SafeIsDecided};
ghost use Rattle.monitorable_guard.specs.machine.Laws.{HistoricallyAsksDenial, SafeValuesAreKnown};

use enf_formula::laws::{dependence, is_classical};

/// With the bound variables fixed, finitely many values of the others satisfy a safe formula: those of the events
/// up to there, of its constants, and of the bound variables.
pub fn safe_values_are_known()
    ensures { SafeValuesAreKnown }
{}

/// `historically g` is as safe as the denial of g that `once` takes in its place.
pub fn historically_asks_denial()
    ensures { HistoricallyAsksDenial }
{}

/// What can be evaluated by itself, or with the variables that are free in another formula, can be so with these in a
/// list.
pub fn safe_with_listed()
    ensures none { SafeWithNoneListed }
    ensures free { SafeWithFreeListed }
{}

/// Where tables stand for the outermost operators on the past at a position of a trace, a formula holds by them where
/// it is satisfied there.
pub fn present_is_satisfied()
    ensures { PresentIsSatisfied }
{
    is_classical();
}

/// Where the tables stand for a position of a trace, a guard's rows there are the valuations that satisfy it.
pub fn evaluated_is_satisfied()
    ensures { EvaluatedIsSatisfied }
{
    present_is_satisfied();
}

/// What holds by the tables of a step depends on the values of the free variables alone.
pub fn free_variables_decide_now()
    ensures { FreeVariablesDecideNow }
{}

/// A safe formula is satisfied at a position or it is not, and finitely many rows of values of its variables satisfy
/// it there: there is a list of them.
pub fn safe_has_rows()
    ensures decided { SafeIsDecided }
    ensures rows { SafeHasRows }
{
    dependence();
}

/// Where the tables stand for a position of a trace, a guard's table has just the rows that satisfy it there.
pub fn evaluated_are_rows()
    ensures { EvaluatedAreRows }
{
    evaluated_is_satisfied();
}
