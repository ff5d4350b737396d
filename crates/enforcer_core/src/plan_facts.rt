//! What is known of the plans of a policy, once for all steps.
ghost use Rattle.std.specs.Prelude.{IfOk, IsTrue, map};
ghost use Rattle.std.specs.List.{AllByRecursion};
ghost use Rattle.obligations.specs.machine.PlanClasses.{LooksAtNow};
ghost use Rattle.plan_terms.specs.machine.StoredPlans.{plan_of};
ghost use Rattle.enforcer_core.specs.machine.StepMemory.{AreFactsOf};

use choice_step::Wakes;
use enf_data::memory::NoMemory;
use plan_terms::Plan;
use std::alloc::Global;

// Which of the plans a step can wake, and whether none of them looks ahead.
#[derive(Drop)]
pub(crate) struct PlanFacts {
    pub(crate) wakes: Wakes,
    pub(crate) looks_at_now: bool,
}

impl PlanFacts {
    pub(crate) fn of(alloc: Global, plans: &[Plan]) -> Result<PlanFacts, NoMemory>
        ensures { IfOk result (AreFactsOf (map plan_of plans.now)) }
    {
        let wakes = Wakes::of(alloc, plans)?;
        Ok(PlanFacts {
            wakes,
            looks_at_now: none_looks_ahead(plans),
        })
    }
}

// Whether no plan looks ahead.
fn none_looks_ahead(plans: &[Plan]) -> bool
    ensures { IsTrue result → AllByRecursion LooksAtNow (map plan_of plans.now) }
{
    for plan in plans {
        if plan.has_future() {
            return false;
        }
    }
    true
}
