//! The transparent mark.
ghost use Rattle.std.specs.Prelude.{◌≡◌, map};
ghost use Rattle.std.specs.List.{list_all};
ghost use Rattle.plan_terms.specs.meaning.Plans.{nodes};
ghost use Rattle.plan_terms.specs.machine.StoredPlans.{plan_of};
ghost use Rattle.rank_check.specs.meaning.AcceptedPlans.{is_transparent as are_transparent, is_transparent_at};

use plan_terms::Plan;

// Whether at each node of each plan of two sides of an `Either` at most one looks ahead, and nothing does in the body
// of an `Eventually` or in the right side of an `Until`.
pub fn is_transparent(plans: &[Plan]) -> bool
    ensures { result ≡ are_transparent (map plan_of plans.now) }
{
    plans.iter().all(|plan| is_transparent_plan(plan))
}

fn is_transparent_plan(plan: &Plan) -> bool
    ensures { result ≡ list_all is_transparent_at (nodes (plan_of plan.now)) }
{
    match plan {
        Plan::Cause { .. } | Plan::Suppress { .. } => true,
        Plan::TestOr { body, .. }
        | Plan::Guarded { body, .. }
        | Plan::Always { body, .. }
        | Plan::Next { body, .. } => is_transparent_plan(body),
        Plan::Eventually { body, .. } => !body.has_future() && is_transparent_plan(body),
        Plan::Both { left, right, .. } => is_transparent_plan(left) && is_transparent_plan(right),
        Plan::Either { left, right, .. } => {
            !(left.has_future() && right.has_future())
                && is_transparent_plan(left)
                && is_transparent_plan(right)
        }
        Plan::Until { left, right, .. } => {
            !right.has_future() && is_transparent_plan(left) && is_transparent_plan(right)
        }
    }
}
