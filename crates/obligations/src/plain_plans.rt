//! Which plans have no choices.
ghost use Rattle.std.specs.Prelude.{◌↔◌, IsTrue};
ghost use Rattle.std.specs.List.{AllByRecursion};
ghost use Rattle.plan_terms.specs.meaning.Plans.{nodes};
ghost use Rattle.plan_terms.specs.machine.StoredPlans.{plan_of};
ghost use Rattle.obligations.specs.machine.PlanClasses.{IsPlain};

use plan_terms::Plan;

/// Whether no node of the plan chooses between two sides.
pub fn is_plain(plan: &Plan) -> bool
    ensures { IsTrue result ↔ AllByRecursion IsPlain (nodes (plan_of plan.now)) }
{
    match plan {
        Plan::Cause { .. } | Plan::Suppress { .. } => true,
        Plan::Either { .. } | Plan::Until { .. } => false,
        Plan::TestOr { body, .. }
        | Plan::Guarded { body, .. }
        | Plan::Eventually { body, .. }
        | Plan::Always { body, .. }
        | Plan::Next { body, .. } => is_plain(body),
        Plan::Both { left, right, .. } => is_plain(left) && is_plain(right),
    }
}
