//! The deadlines of instances, in the queue of those that are pending.
ghost use Rattle.std.specs.Prelude.{◌≡◌, ◌+◌, ◌-◌, ◌<◌, ◌≤◌, ◌^◌, ℕ, OnOk, [], ◌∷◌};
ghost use Rattle.std.specs.Prelude.{map};
ghost use Rattle.deadline_queue.specs.machine.Queues.{IsDeadlineQueue, held_count};
ghost use Rattle.plan_terms.specs.machine.StoredPlans.{plan_of};
ghost use Rattle.obligations.specs.machine.Deadlines.{count_due, deadline_of};

use deadline_queue::DeadlineQueue;
use enf_data::memory::NoMemory;
use obligations::instances::Instance;
use obligations::pending_parts::node_in;
use plan_terms::Plan;

// The deadline of an instance, if its node has one.
fn deadline_in(plans: &[Plan], instance: &Instance) -> Option<u64>
    ensures { result ≡ deadline_of (map plan_of plans.now) instance.now }
{
    match node_in(plans, instance)? {
        Plan::Eventually { .. } | Plan::Until { .. } | Plan::Next { .. } => Some(instance.high),
        Plan::Cause { .. }
        | Plan::Suppress { .. }
        | Plan::Both { .. }
        | Plan::Either { .. }
        | Plan::TestOr { .. }
        | Plan::Guarded { .. }
        | Plan::Always { .. } => None,
    }
}

/// The deadline of an instance is held once more.
pub fn hold(
    plans: &[Plan],
    instance: &Instance,
    deadlines: &mut DeadlineQueue,
) -> Result<(), NoMemory>
    requires queue { IsDeadlineQueue deadlines.old }
    requires few { (deadline : ℕ) → held_count deadlines.old deadline < 2 ^ 64 - 1 }
    ensures held { OnOk result ((deadline : ℕ) → held_count deadlines.new deadline
        ≡ held_count deadlines.old deadline + count_due (map plan_of plans.now) (instance.now ∷ []) deadline) }
    ensures queue { IsDeadlineQueue deadlines.new }
{
    if let Some(deadline) = deadline_in(plans, instance) {
        deadlines.add(deadline)?;
    }
    Ok(())
}

/// The deadline of an instance is held once less.
pub fn let_go(plans: &[Plan], instance: &Instance, deadlines: &mut DeadlineQueue)
    requires queue { IsDeadlineQueue deadlines.old }
    requires held { (deadline : ℕ) → count_due (map plan_of plans.now) (instance.now ∷ []) deadline
        ≤ held_count deadlines.old deadline }
    ensures held { (deadline : ℕ) → held_count deadlines.new deadline
        + count_due (map plan_of plans.now) (instance.now ∷ []) deadline ≡ held_count deadlines.old deadline }
    ensures queue { IsDeadlineQueue deadlines.new }
{
    if let Some(deadline) = deadline_in(plans, instance) {
        let _held = deadlines.take_one(deadline);
    }
}
