//! What pending instances miss at a step.
ghost use Rattle.std.specs.Prelude.{◌≡◌, ◌↔◌, IfOk, IsTrue, map, true};
ghost use Rattle.std.specs.Option.{option_copied, option_map};
ghost use Rattle.plan_terms.specs.meaning.Plans.{is_future};
ghost use Rattle.plan_terms.specs.machine.StoredPlans.{plan_of};
ghost use Rattle.obligations.specs.machine.AskablePlans.{CanAskPlan};
ghost use Rattle.obligations.specs.machine.FreshGuards.{guards_now};
ghost use Rattle.obligations.specs.meaning.Pending.{IsInWindow, node_of};
ghost use Rattle.obligations.specs.meaning.PendingBounds.{is_forced};
ghost use Rattle.obligations.specs.machine.Parts.{AsksPartOrNothing};

use crate::instances::Instance;
use crate::missing_first::misses_nothing;
use crate::present_step::Now;
use enf_data::memory::NoMemory;
use plan_terms::Plan;
use std::alloc::Global;
use valuations::Frame;

// The node of an instance.
pub fn node_in<'a>(plans: &'a [Plan], instance: &Instance) -> Option<&'a Plan>
    ensures { option_map plan_of (option_copied result) ≡ node_of (map plan_of plans.now) instance.now }
{
    match plans.get(instance.rule as usize) {
        Some(plan) => plan.at(instance.node),
        None => None,
    }
}

// The part of an operator on the future that an instance of it misses what it misses of, if it misses any.
pub fn part_asked<'a>(
    alloc: Global,
    node: &'a Plan,
    instance: &Instance,
    now: &Now<'_>,
    forced: bool,
) -> Result<Option<&'a Plan>, NoMemory>
    requires can { CanAskPlan (guards_now now.now) (plan_of node.now) instance.now.valuation }
    requires future { is_future (plan_of node.now) ≡ true }
    ensures { IfOk result (λ part. AsksPartOrNothing now.now (plan_of node.now) instance.now forced
        (option_map plan_of (option_copied part))) }
{
    let in_window = is_in_window(instance, now.time);
    match node {
        Plan::Next { body, .. } => Ok(Some(body)),
        Plan::Eventually { body, .. } => {
            if forced {
                return Ok(Some(body));
            }
            Ok(None)
        }
        Plan::Always { body, .. } => {
            if in_window {
                return Ok(Some(body));
            }
            Ok(None)
        }
        Plan::Until { left, right, .. } => {
            let v = Frame::Whole(&instance.valuation);
            if in_window && misses_nothing(alloc, right, &v, now)? {
                return Ok(None);
            }
            if forced {
                return Ok(Some(right));
            }
            Ok(Some(left))
        }
        _ => Ok(None),
    }
}

// Whether the time is in the window of the instance, both ends included.
pub fn is_in_window(instance: &Instance, time: u64) -> bool
    ensures { IsTrue result ↔ IsInWindow instance.now time }
{
    instance.low <= time && time <= instance.high
}

// Whether an instance cannot wait any longer: at an inserted step at the end of its window.
pub fn is_forced(instance: &Instance, time: u64, inserted: bool) -> bool
    ensures { result ≡ is_forced inserted time instance.now }
{
    inserted && time == instance.high
}
