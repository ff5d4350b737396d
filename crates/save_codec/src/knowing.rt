//! What is known of the variables of rules and of windows.
ghost use Rattle.std.specs.Prelude.{◌≡◌, IfOk, OnOk, map};
ghost use Rattle.plan_terms.specs.machine.StoredPlans.{plan_of};
ghost use Rattle.past_state.specs.machine.WindowShapes.{numbered_operator};
ghost use Rattle.save_codec.specs.machine.KnownSorts.{KnowRules, KnowWindows, KnowsJust, Learns, GuardedPlanTells};
ghost use Rattle.save_codec.specs.meaning.ToldSorts.{GuardTells, PlanTells, has_guard};

use crate::sorts::Known;
use enf_data::NoMemory;
use past_state::shapes::WindowShape;
use plan_terms::Plan;
use signature::Signature;
use std::alloc::Global;

fn known_in_rule(alloc: Global, signature: &Signature, plan: &Plan) -> Result<Known, NoMemory>
    ensures { IfOk result (KnowsJust (PlanTells signature.now (plan_of plan.now))) }
{
    let mut known = Known::nothing(alloc);
    known.note_plan(signature, plan)?;
    Ok(known)
}

// What the plan of each rule tells.
pub(crate) fn known_in_rules(
    alloc: Global,
    signature: &Signature,
    plans: &[Plan],
) -> Result<Vec<Known>, NoMemory>
    ensures { IfOk result (λ known. KnowRules signature.now (map plan_of plans.now) known.items) }
{
    let mut known = Vec::new(alloc);
    for plan in plans {
        known.push(known_in_rule(alloc, signature, plan)?)?;
    }
    Ok(known)
}

// Whether the plan has the guard with a number.
fn has_guard(plan: &Plan, guard: usize) -> bool
    ensures { result ≡ has_guard guard (plan_of plan.now) }
{
    match plan {
        Plan::Cause { .. } | Plan::Suppress { .. } => false,
        Plan::TestOr {
            guard: number,
            body,
            ..
        }
        | Plan::Guarded {
            guard: number,
            body,
            ..
        } => { *number as usize == guard || has_guard(body, guard) }
        Plan::Eventually { body, .. } | Plan::Always { body, .. } | Plan::Next { body, .. } => {
            has_guard(body, guard)
        }
        Plan::Both { left, right, .. }
        | Plan::Either { left, right, .. }
        | Plan::Until { left, right, .. } => has_guard(left, guard) || has_guard(right, guard),
    }
}

impl Known {
    // Notes what a plan tells, if it has the guard.
    fn note_plan_of(
        &mut self,
        signature: &Signature,
        plan: &Plan,
        guard: usize,
    ) -> Result<(), NoMemory>
        ensures { OnOk result
            (Learns (GuardedPlanTells signature.now guard (plan_of plan.now)) self.old self.new) }
    {
        if !has_guard(plan, guard) {
            return Ok(());
        }
        self.note_plan(signature, plan)
    }
}

fn known_in_guard(
    alloc: Global,
    signature: &Signature,
    plans: &[Plan],
    guard: usize,
) -> Result<Known, NoMemory>
    ensures { IfOk result (KnowsJust (GuardTells signature.now (map plan_of plans.now) guard)) }
{
    let mut known = Known::nothing(alloc);
    for plan in plans {
        known.note_plan_of(signature, plan, guard)?;
    }
    Ok(known)
}

// What the plans tell that have the guard of each window.
pub(crate) fn known_in_windows(
    alloc: Global,
    signature: &Signature,
    plans: &[Plan],
    shapes: &[WindowShape<'_>],
) -> Result<Vec<Known>, NoMemory>
    ensures { IfOk result
        (λ known. KnowWindows signature.now (map plan_of plans.now) (map numbered_operator shapes.now) known.items) }
{
    let mut known = Vec::new(alloc);
    for shape in shapes {
        known.push(known_in_guard(alloc, signature, plans, shape.guard)?)?;
    }
    Ok(known)
}
