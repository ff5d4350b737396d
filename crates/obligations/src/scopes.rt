//! The variables in scope at nodes of plans.
ghost use Rattle.std.specs.Prelude.{◌≡◌, ◌↔◌, IfOk, IsTrue, map, true};
ghost use Rattle.std.specs.Option.{option_map};
ghost use Rattle.plan_terms.specs.meaning.Plans.{is_future as looks_ahead};
ghost use Rattle.plan_terms.specs.machine.StoredPlans.{plan_of};
ghost use Rattle.plan_terms.specs.machine.NamedNodes.{FindsScope};
ghost use Rattle.plan_terms.specs.meaning.Scopes.{future_in};
ghost use Rattle.obligations.specs.machine.Parts.{node_with_scope};

use enf_data::memory::NoMemory;
use enf_data::terms::VarId;
use plan_terms::Plan;
use plan_terms::laws::nodes_have_scopes;
use std::alloc::Global;

/// An operator on the future in the plan of a rule, and the variables in scope there, in the order of their binding.
#[derive(Drop)]
pub struct FutureNode<'a> {
    pub node: &'a Plan,
    pub scope: Vec<VarId>,
}

/// The operator on the future with a number in the plan of a rule, if it is one.
pub fn future_node<'a>(
    alloc: Global,
    plans: &'a [Plan],
    rule: u32,
    node: u32,
) -> Result<Option<FutureNode<'a>>, NoMemory>
    ensures { IfOk result (λ found. option_map node_with_scope found ≡ future_in (map plan_of plans.now) rule node) }
{
    nodes_have_scopes();
    let Some(plan) = plans.get(rule as usize) else {
        return Ok(None);
    };
    let mut scope = Vec::new(alloc);
    if !find_scope(plan, node, &mut scope)? {
        return Ok(None);
    }
    match plan.at(node) {
        Some(node) if is_future(node) => Ok(Some(FutureNode { node, scope })),
        Some(_) | None => Ok(None),
    }
}

fn is_future(node: &Plan) -> bool
    ensures { result ≡ looks_ahead (plan_of node.now) }
{
    match node {
        Plan::Eventually { .. } | Plan::Always { .. } | Plan::Until { .. } | Plan::Next { .. } =>
            true,
        Plan::Cause { .. }
        | Plan::Suppress { .. }
        | Plan::Both { .. }
        | Plan::Either { .. }
        | Plan::TestOr { .. }
        | Plan::Guarded { .. } => false,
    }
}

/// Puts the variables that come into scope on the way to the first node with this number after those in scope at the
/// plan, and says whether there is such a node. Where there is none they stay.
pub fn find_scope(plan: &Plan, node: u32, scope: &mut Vec<VarId>) -> Result<bool, NoMemory>
    ensures { IfOk result (FindsScope node (plan_of plan.now) scope.old.items scope.new.items) }
{
    if plan.node() == node {
        return Ok(true);
    }
    match plan {
        Plan::Cause { .. } | Plan::Suppress { .. } => Ok(false),
        Plan::TestOr { body, .. }
        | Plan::Eventually { body, .. }
        | Plan::Always { body, .. }
        | Plan::Next { body, .. } => find_scope(body, node, scope),
        Plan::Guarded { vars, body, .. } => {
            let before = scope.len();
            scope.extend_from_slice(vars.as_slice())?;
            let found = find_scope(body, node, scope)?;
            if !found {
                scope.truncate(before);
            }
            Ok(found)
        }
        Plan::Both { left, right, .. }
        | Plan::Either { left, right, .. }
        | Plan::Until { left, right, .. } => {
            if find_scope(left, node, scope)? {
                return Ok(true);
            }
            find_scope(right, node, scope)
        }
    }
}
