//! What plans and pending instances miss at a step.
ghost use Rattle.std.specs.Prelude.{IfOk, IfSome, List, Contains, map};
ghost use Rattle.enf_data.specs.declared.steps.Step.{Step};
ghost use Rattle.plan_terms.specs.machine.StoredPlans.{plan_of};
ghost use Rattle.valuations.specs.machine.Bindings.{bound_in};
ghost use Rattle.obligations.specs.machine.AskablePlans.{CanAskPlan, CanAskOf};
ghost use Rattle.obligations.specs.machine.PresentStep.{IsNowOf};
ghost use Rattle.obligations.specs.machine.WantedLiterals.{IsWanted, IsWantedOf};
ghost use Rattle.obligations.specs.machine.FreshGuards.{guards_now};
ghost use Rattle.obligations.specs.meaning.Obligations.{Missing};
ghost use Rattle.obligations.specs.meaning.Pending.{MissingOf};
ghost use Rattle.obligations.specs.machine.FirstMissing.{FirstMissing, FirstMissingOf};
ghost use Rattle.obligations.specs.declared.literals.Literal.{Literal as AnyLiteral};

use crate::instances::Instance;
use crate::laws::missing_exists;
use crate::literals::Literal;
use crate::missing_all::push_missing;
use crate::missing_first::find_missing;
use crate::patient_plans::is_patient;
use crate::pending_parts::{node_in, part_asked};
use crate::present_step::Now;
use enf_data::memory::NoMemory;
use plan_terms::Plan;
use std::alloc::Global;
use valuations::{Frame, Valuation};

/// The first literal that the plan misses where it is begun at the step, if it misses any. No list is made, and no
/// valuation is copied for a row.
pub fn first_missing(
    alloc: Global,
    plan: &Plan,
    v: &Frame<'_>,
    now: &Now<'_>,
) -> Result<Option<Literal>, NoMemory>
    requires { CanAskPlan (guards_now now.now) (plan_of plan.now) (bound_in v.now) }
    ensures first { IfOk result (λ found. (trace : List Step) → IsNowOf now.now trace
        → FirstMissing trace (plan_of plan.now) (bound_in v.now) found) }
    ensures wanted { IfOk result (λ found. IfSome found
        (IsWanted now.now (plan_of plan.now) (bound_in v.now))) }
{
    if is_patient(plan) {
        missing_exists();
        return Ok(None);
    }
    find_missing(alloc, plan, v, now)
}

/// The literals that the plan misses where it is begun at the step.
pub fn lack(
    alloc: Global,
    plan: &Plan,
    v: &Valuation,
    now: &Now<'_>,
) -> Result<Vec<Literal>, NoMemory>
    requires { CanAskPlan (guards_now now.now) (plan_of plan.now) v.now }
    ensures missing { IfOk result (λ literals. (trace : List Step) → IsNowOf now.now trace
        → Missing trace (plan_of plan.now) v.now literals.items) }
    ensures wanted { IfOk result (λ literals. (literal : AnyLiteral) → Contains literals.items literal
        → IsWanted now.now (plan_of plan.now) v.now literal) }
{
    let mut literals = Vec::new(alloc);
    if is_patient(plan) {
        missing_exists();
        return Ok(literals);
    }
    push_missing(alloc, plan, &Frame::Whole(v), now, &mut literals)?;
    Ok(literals)
}

/// The first literal that a pending instance misses at the step, if it misses any. One that is forced cannot wait any
/// longer.
pub fn first_missing_of(
    alloc: Global,
    instance: &Instance,
    plans: &[Plan],
    now: &Now<'_>,
    forced: bool,
) -> Result<Option<Literal>, NoMemory>
    requires { CanAskOf (guards_now now.now) (map plan_of plans.now) instance.now }
    ensures first { IfOk result (λ found. (trace : List Step) → IsNowOf now.now trace
        → FirstMissingOf (map plan_of plans.now) trace instance.now forced found) }
    ensures wanted { IfOk result (λ found. IfSome found
        (IsWantedOf now.now (map plan_of plans.now) instance.now)) }
{
    let Some(node) = node_in(plans, instance) else {
        return Ok(None);
    };
    match part_asked(alloc, node, instance, now, forced)? {
        Some(part) => find_missing(alloc, part, &Frame::Whole(&instance.valuation), now),
        None => Ok(None),
    }
}

/// The literals that a pending instance misses at the step.
pub fn lack_pending(
    alloc: Global,
    instance: &Instance,
    plans: &[Plan],
    now: &Now<'_>,
    forced: bool,
) -> Result<Vec<Literal>, NoMemory>
    requires { CanAskOf (guards_now now.now) (map plan_of plans.now) instance.now }
    ensures { IfOk result (λ literals. (trace : List Step) → IsNowOf now.now trace
        → MissingOf (map plan_of plans.now) trace instance.now forced literals.items) }
{
    let Some(node) = node_in(plans, instance) else {
        return Ok(Vec::new(alloc));
    };
    match part_asked(alloc, node, instance, now, forced)? {
        Some(part) => lack(alloc, part, &instance.valuation, now),
        None => Ok(Vec::new(alloc)),
    }
}
