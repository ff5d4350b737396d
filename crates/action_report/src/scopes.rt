//! The variables in scope at a node of a plan.
ghost use Rattle.std.specs.Prelude.{IfOk, IfNone, IfSome, List, map};
ghost use Rattle.enf_data.specs.declared.terms.VarId.{VarId as AnyVariable};
ghost use Rattle.plan_terms.specs.machine.StoredPlans.{plan_of};
ghost use Rattle.action_report.specs.machine.ReportedActions.{StandIn};

use enf_data::{NoMemory, VarId};
use obligations::scopes::find_scope;
use plan_terms::Plan;
use std::alloc::Global;

// The variables in scope at a node, where it and the leaf are nodes of the rule's plan.
pub(crate) fn scope_of(
    alloc: Global,
    plans: &[Plan],
    rule: u32,
    node: u32,
    leaf: u32,
) -> Result<Option<Vec<VarId>>, NoMemory>
    ensures found { IfOk result
        (λ found. IfSome found (λ scope. StandIn (map plan_of plans.now) rule node leaf scope.items)) }
    ensures none { IfOk result (λ found. IfNone found
        ((scope : List AnyVariable) → StandIn (map plan_of plans.now) rule node leaf scope → ⊥)) }
{
    let Some(plan) = plans.get(rule as usize) else {
        return Ok(None);
    };
    if plan.at(leaf).is_none() {
        return Ok(None);
    }
    let mut scope = Vec::new(alloc);
    if !find_scope(plan, node, &mut scope)? {
        return Ok(None);
    }
    Ok(Some(scope))
}
