//! Laws of plans, each the contract of a function with an empty body.
ghost use Rattle.plan_terms.specs.machine.Laws.{ColumnsAreVariables, LostStaysLost, NumberIsPlace, LeadsOn};
ghost use Rattle.plan_terms.specs.machine.Laws.{OwedLeadsOn, OwedStaysOwed, FoundBeginsWithScope, FoundEndsInTime};
ghost use Rattle.plan_terms.specs.machine.Laws.{FoundHasListedGuards, FoundHasRisingScope, FoundHasSafeGuards};
ghost use Rattle.plan_terms.specs.machine.Laws.{FoundIsFirst, FoundIsScoped, FreeIsInScope, NodesHaveScopes};
ghost use Rattle.plan_terms.specs.machine.Laws.{FoundStandIn, NodesStandIn, PlansStandIn, TriggersAreMet};

use enf_formula::laws::dependence;

/// Where the nodes are numbered in pre-order from 0, the node with a number is the one at that place.
pub fn number_is_place()
    ensures { NumberIsPlace }
{}

/// Each node of a plan has its variables in scope: those at the root and then those that were bound above it, which
/// rise.
pub fn nodes_have_scopes()
    ensures nodes { NodesHaveScopes }
    ensures found { FoundIsFirst }
    ensures begins { FoundBeginsWithScope }
    ensures rises { FoundHasRisingScope }
{}

/// The node that is found by a number inherits what is asked of a plan, with the variables in scope there.
pub fn found_node_inherits()
    ensures scoped { FoundIsScoped }
    ensures safe { FoundHasSafeGuards }
    ensures listed { FoundHasListedGuards }
    ensures ends { FoundEndsInTime }
{}

/// What is free in the formula that a plan stands for is in scope at its root.
pub fn free_is_in_scope()
    ensures { FreeIsInScope }
{}

/// Where a guard with triggers holds, the step has an event of one of them.
pub fn triggers_are_met()
    ensures { TriggersAreMet }
{}

/// Each node of a well-formed plan stands in it: each node below it is the one that its number names, and their guards
/// look back. So do the plan itself and the node that is found by a number.
pub fn nodes_stand_in_plans()
    ensures nodes { NodesStandIn }
    ensures plans { PlansStandIn }
    ensures found { FoundStandIn }
{}

/// The columns of the rows of a guard are its variables, as they are written.
pub fn columns_are_variables()
    ensures { ColumnsAreVariables }
{}

/// What is lost stays lost at a later clock, and after steps that are not before the clock.
pub fn lost_stays_lost()
    ensures { LostStaysLost }
{}

/// So what is owed stays owed, where guards and tests look back alone, and what it leads to is owed too.
pub fn owed_stays_owed()
    ensures leads { LeadsOn }
    ensures owed { OwedStaysOwed }
    ensures more { OwedLeadsOn }
{
    dependence();
}
