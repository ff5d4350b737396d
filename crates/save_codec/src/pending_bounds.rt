//! Whether instances can be pending.
ghost use Rattle.std.specs.Prelude.{◌≡◌, ◌↔◌, ◌<◌, IsTrue};
ghost use Rattle.plan_terms.specs.machine.StoredPlans.{plan_of};
ghost use Rattle.obligations.specs.meaning.PendingBounds.{CanWait, IsDeadlineInTime, first_end, second_end};

use obligations::instances::Instance;
use plan_terms::Plan;

/// Whether an instance of the node can be pending at the clock, after so many steps; it takes no memory.
pub fn can_wait(node: &Plan, clock: u64, position: u64, instance: &Instance) -> bool
    ensures { IsTrue result ↔ CanWait (plan_of node.now) clock position instance.now }
{
    let first = begins_after(node);
    instance.origin < position
        && first <= instance.low
        && instance.low <= instance.high
        && instance.high - instance.low == ends_after(node).saturating_sub(first)
        && is_in_time(node, clock, position, instance)
}

// Whether its deadline, if its node has one, is not over; a `next` was begun at the last position.
fn is_in_time(node: &Plan, clock: u64, position: u64, instance: &Instance) -> bool
    requires { instance.now.origin < position }
    ensures { IsTrue result ↔ IsDeadlineInTime (plan_of node.now) clock position instance.now }
{
    match node {
        Plan::Eventually { .. } | Plan::Until { .. } => clock <= instance.high,
        Plan::Next { .. } => clock <= instance.high && instance.origin + 1 == position,
        Plan::Cause { .. }
        | Plan::Suppress { .. }
        | Plan::Both { .. }
        | Plan::Either { .. }
        | Plan::TestOr { .. }
        | Plan::Guarded { .. }
        | Plan::Always { .. } => true,
    }
}

fn begins_after(node: &Plan) -> u64
    ensures { result ≡ first_end (plan_of node.now) }
{
    match node {
        Plan::Eventually { low, .. } | Plan::Always { low, .. } | Plan::Until { low, .. } => *low,
        Plan::Cause { .. }
        | Plan::Suppress { .. }
        | Plan::Both { .. }
        | Plan::Either { .. }
        | Plan::TestOr { .. }
        | Plan::Guarded { .. }
        | Plan::Next { .. } => 0,
    }
}

fn ends_after(node: &Plan) -> u64
    ensures { result ≡ second_end (plan_of node.now) }
{
    match node {
        Plan::Eventually { high, .. }
        | Plan::Always { high, .. }
        | Plan::Until { high, .. }
        | Plan::Next { high, .. } => *high,
        Plan::Cause { .. }
        | Plan::Suppress { .. }
        | Plan::Both { .. }
        | Plan::Either { .. }
        | Plan::TestOr { .. }
        | Plan::Guarded { .. } => 0,
    }
}
