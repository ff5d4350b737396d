//! What a pending instance becomes after a step.
ghost use Rattle.std.specs.Prelude.{◌≡◌, ◌≤◌, false, true, Contains, IfOk, IfSome, List, OnOk, Some};
ghost use Rattle.std.specs.Prelude.{◌^◌, ◌++◌, ◌∷◌, [], cond, length, map};
ghost use Rattle.std.specs.List.{AllByRecursion};
ghost use Rattle.std.specs.Option.{option_copied, option_map};
ghost use Rattle.enf_data.specs.declared.steps.Step.{Step};
ghost use Rattle.plan_terms.specs.machine.WellFormed.{EndsInTime};
ghost use Rattle.plan_terms.specs.meaning.Plans.{is_future, nodes, Plan as Tree};
ghost use Rattle.plan_terms.specs.machine.StoredPlans.{plan_of};
ghost use Rattle.plan_terms.specs.machine.NamedNodes.{StandsIn};
ghost use Rattle.valuations.specs.machine.Bindings.{bound_in};
ghost use Rattle.obligations.specs.machine.Additions.{AddsAsked, IsBegunHere};
ghost use Rattle.obligations.specs.machine.AskablePlans.{CanAskPlan, CanAskOf, CanAskRoots};
ghost use Rattle.obligations.specs.machine.PresentStep.{IsNowOf};
ghost use Rattle.obligations.specs.machine.FreshGuards.{guards_now};
ghost use Rattle.obligations.specs.meaning.Obligations.{Begun};
ghost use Rattle.obligations.specs.machine.Progress.{BegunFor, WillBecome, awaited_in, BecomesOne};
ghost use Rattle.obligations.specs.declared.instances.Instance.{Instance as AnyInstance};
ghost use Rattle.obligations.specs.declared.present_step.TheConstants.{MOST_TIME};
ghost use Rattle.obligations.specs.machine.Successors.{ComesOf, ComesOfRoot};
ghost use Rattle.obligations.specs.meaning.Pending.{BegunByRoots};
ghost use Rattle.obligations.specs.meaning.PendingBounds.{is_forced};
ghost use Rattle.obligations.specs.machine.PlanClasses.{PlansStand};

use crate::begin::begin_behind;
use crate::empty_guards::is_asleep;
use crate::instances::Instance;
use crate::laws::missing_exists;
use crate::missing_first::misses_nothing;
use crate::pending_parts::{is_forced, is_in_window, node_in};
use crate::present_step::Now;
use enf_data::memory::NoMemory;
use plan_terms::Plan;
use plan_terms::laws::nodes_have_scopes;
use std::alloc::Global;
use valuations::{Frame, Valuation};

// Whether an instance stays, and the part of its node that is begun for it, if one is.
#[derive(Clone, Copy)]
pub struct Becoming<'a> {
    pub stays: bool,
    pub begins: Option<&'a Plan>,
}

// What an instance of the node becomes. One that is forced at an inserted step is served there, so that nothing is
// asked.
pub fn becoming_of<'a>(
    alloc: Global,
    node: &'a Plan,
    instance: &Instance,
    now: &Now<'_>,
    inserted: bool,
) -> Result<Becoming<'a>, NoMemory>
    requires can { CanAskPlan (guards_now now.now) (plan_of node.now) instance.now.valuation }
    requires future { is_future (plan_of node.now) ≡ true }
    ensures { IfOk result (λ b. WillBecome now.now (plan_of node.now) instance.now
        (is_forced inserted now.now.time instance.now) b.stays (option_map plan_of (option_copied b.begins))) }
{
    if is_forced(instance, now.time, inserted) {
        if let Some(part) = awaited(node) {
            return Ok(Becoming {
                stays: false,
                begins: Some(part),
            });
        }
    }
    becoming_waiting(alloc, node, instance, now)
}

// What an instance of a node with a deadline waits for.
fn awaited(node: &Plan) -> Option<&Plan>
    ensures { option_map plan_of (option_copied result) ≡ awaited_in (plan_of node.now) }
{
    match node {
        Plan::Eventually { body, .. } | Plan::Next { body, .. } => Some(body),
        Plan::Until { right, .. } => Some(right),
        _ => None,
    }
}

// What one becomes that can wait, or has no deadline.
fn becoming_waiting<'a>(
    alloc: Global,
    node: &'a Plan,
    instance: &Instance,
    now: &Now<'_>,
) -> Result<Becoming<'a>, NoMemory>
    requires can { CanAskPlan (guards_now now.now) (plan_of node.now) instance.now.valuation }
    requires future { is_future (plan_of node.now) ≡ true }
    ensures { IfOk result (λ b. WillBecome now.now (plan_of node.now) instance.now false b.stays
        (option_map plan_of (option_copied b.begins))) }
{
    let in_window = is_in_window(instance, now.time);
    let v = Frame::Whole(&instance.valuation);
    match node {
        Plan::Next { body, .. } => Ok(Becoming {
            stays: false,
            begins: Some(body),
        }),
        Plan::Eventually { body, .. } => {
            if in_window && misses_nothing(alloc, body, &v, now)? {
                return Ok(Becoming {
                    stays: false,
                    begins: Some(body),
                });
            }
            Ok(Becoming {
                stays: true,
                begins: None,
            })
        }
        Plan::Always { body, .. } => {
            if in_window {
                return Ok(Becoming {
                    stays: true,
                    begins: Some(body),
                });
            }
            Ok(Becoming {
                stays: now.time < instance.low,
                begins: None,
            })
        }
        Plan::Until { left, right, .. } => {
            if in_window && misses_nothing(alloc, right, &v, now)? {
                return Ok(Becoming {
                    stays: false,
                    begins: Some(right),
                });
            }
            Ok(Becoming {
                stays: true,
                begins: Some(left),
            })
        }
        _ => Ok(Becoming {
            stays: true,
            begins: None,
        }),
    }
}

// Puts the instances last that the plan begins. Of a plan that does not look ahead, or whose guard needs an event that the
// step does not have, no rows are asked.
pub fn begin_ahead<'a>(
    alloc: Global,
    rule: u32,
    plan: &Plan,
    v: &'a Frame<'a>,
    now: &Now<'_>,
    into: &mut Vec<Instance>,
) -> Result<(), NoMemory>
    requires asked { CanAskPlan (guards_now now.now) (plan_of plan.now) (bound_in v.now) }
    requires ends { AllByRecursion EndsInTime (nodes (plan_of plan.now)) }
    requires in_time { now.now.time ≤ MOST_TIME }
    ensures { OnOk result (AddsAsked now.now rule (plan_of plan.now)
        (λ trace. Begun trace rule (plan_of plan.now) (bound_in v.now)) into.old.items into.new.items) }
{
    if !plan.has_future() {
        missing_exists();
        return Ok(());
    }
    if is_asleep(plan, now) {
        return Ok(());
    }
    begin_behind(alloc, rule, plan, &*v, now, into)
}

// What is begun for an instance.
pub fn begun_for(
    alloc: Global,
    instance: &Instance,
    part: Option<&Plan>,
    now: &Now<'_>,
) -> Result<Vec<Instance>, NoMemory>
    requires can { IfSome (option_map plan_of (option_copied part))
        (λ p. CanAskPlan (guards_now now.now) p instance.now.valuation) }
    requires ends { IfSome (option_map plan_of (option_copied part)) (λ p. AllByRecursion EndsInTime (nodes p)) }
    requires in_time { now.now.time ≤ MOST_TIME }
    ensures begun { IfOk result (λ begun. (trace : List Step) → IsNowOf now.now trace
        → BegunFor trace instance.now (option_map plan_of (option_copied part.entry)) begun.items) }
    ensures asked { IfOk result (λ begun. (plans : List Tree)
        → IfSome (option_map plan_of (option_copied part.entry)) (StandsIn plans instance.now.rule)
        → AllByRecursion (CanAskOf (guards_now now.now) plans) begun.items) }
    ensures comes { IfOk result (λ begun. (j : AnyInstance) → Contains begun.items j
        → (p : Tree) × (option_map plan_of (option_copied part.entry) ≡ Some p)
        × IsBegunHere now.now instance.now.rule p j) }
{
    let mut begun = Vec::new(alloc);
    if let Some(part) = part {
        let v = Frame::Whole(&instance.valuation);
        begin_ahead(alloc, instance.rule, part, &v, now, &mut begun)?;
    }
    Ok(begun)
}

/// What becomes of a pending instance: whether it stays, and what is begun for it.
#[derive(Drop)]
pub struct Outcome {
    pub stays: bool,
    pub begun: Vec<Instance>,
}

/// What becomes of a pending instance after the step. One that is forced at an inserted step counts as served.
pub fn outcome_of(
    alloc: Global,
    plans: &[Plan],
    instance: &Instance,
    now: &Now<'_>,
    inserted: bool,
) -> Result<Outcome, NoMemory>
    requires named { PlansStand (map plan_of plans.now) }
    requires asked { CanAskOf (guards_now now.now) (map plan_of plans.now) instance.now }
    requires in_time { now.now.time ≤ MOST_TIME }
    ensures after { IfOk result (λ o. (trace : List Step) → IsNowOf now.now trace
        → BecomesOne (map plan_of plans.now) inserted instance.now trace
        (cond o.stays (instance.now ∷ []) [] ++ o.begun.items)) }
    ensures asked { IfOk result (λ o. AllByRecursion
        (CanAskOf (guards_now now.now) (map plan_of plans.now)) o.begun.items) }
    ensures come { IfOk result (λ o. (j : AnyInstance)
        → Contains (cond o.stays (instance.now ∷ []) [] ++ o.begun.items) j
        → ComesOf now.now (map plan_of plans.now) inserted instance.now j) }
{
    nodes_have_scopes();
    let Some(node) = node_in(plans, instance) else {
        return Ok(Outcome {
            stays: true,
            begun: Vec::new(alloc),
        });
    };
    let becoming = becoming_of(alloc, node, instance, now, inserted)?;
    let begun = begun_for(alloc, instance, becoming.begins, now)?;
    Ok(Outcome {
        stays: becoming.stays,
        begun,
    })
}

/// What the roots of the rules begin.
pub fn begun_by_roots(
    alloc: Global,
    plans: &[Plan],
    now: &Now<'_>,
) -> Result<Vec<Instance>, NoMemory>
    requires roots { CanAskRoots (guards_now now.now) (map plan_of plans.now) }
    requires named { PlansStand (map plan_of plans.now) }
    requires few { length plans.now ≤ 2 ^ 32 }
    requires in_time { now.now.time ≤ MOST_TIME }
    ensures begun { IfOk result (λ begun. (trace : List Step) → IsNowOf now.now trace
        → BegunByRoots trace 0 (map plan_of plans.now) begun.items) }
    ensures asked { IfOk result (λ begun. AllByRecursion
        (CanAskOf (guards_now now.now) (map plan_of plans.now)) begun.items) }
    ensures come { IfOk result (λ begun. (j : AnyInstance) → Contains begun.items j
        → ComesOfRoot now.now (map plan_of plans.now) j) }
{
    let none = Valuation::empty(alloc);
    let mut begun = Vec::new(alloc);
    for (rule, plan) in plans.iter().enumerate() {
        let v = Frame::Whole(&none);
        begin_ahead(alloc, rule as u32, plan, &v, now, &mut begun)?;
    }
    Ok(begun)
}
