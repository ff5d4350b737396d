//! Which of two sides is taken at a step.
ghost use Rattle.std.specs.Prelude.{IfOk};
ghost use Rattle.std.specs.Option.{option_copied, option_map};
ghost use Rattle.plan_terms.specs.machine.StoredPlans.{plan_of};
ghost use Rattle.valuations.specs.machine.Bindings.{bound_in};
ghost use Rattle.obligations.specs.machine.AskablePlans.{CanAskPlan};
ghost use Rattle.obligations.specs.machine.FreshGuards.{guards_now};
ghost use Rattle.obligations.specs.machine.PresentStep.{TakesSide};

use crate::missing_first::misses_nothing;
use crate::present_step::Now;
use enf_data::memory::NoMemory;
use plan_terms::Plan;
use std::alloc::Global;
use valuations::Frame;

// Of two sides the first of these that lacks nothing: the right one if it does not look ahead, the left one if it does
// not, the right one, the left one.
pub fn side_taken<'a, 'b>(
    alloc: Global,
    left: &'a Plan,
    right: &'a Plan,
    v: &'b Frame<'b>,
    now: &Now<'_>,
) -> Result<Option<&'a Plan>, NoMemory>
    requires left { CanAskPlan (guards_now now.now) (plan_of left.now) (bound_in v.now) }
    requires right { CanAskPlan (guards_now now.now) (plan_of right.now) (bound_in v.now) }
    ensures { IfOk result (λ side. TakesSide now.now (plan_of left.now) (plan_of right.now) (bound_in v.now)
        (option_map plan_of (option_copied side))) }
{
    if misses_nothing(alloc, right, &*v, now)? {
        if !right.has_future() {
            return Ok(Some(right));
        }
        if !left.has_future() && misses_nothing(alloc, left, &*v, now)? {
            return Ok(Some(left));
        }
        return Ok(Some(right));
    }
    if misses_nothing(alloc, left, &*v, now)? {
        return Ok(Some(left));
    }
    Ok(None)
}
