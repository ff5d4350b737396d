//! The patterns of the events that can change what a plan asks.
ghost use Rattle.std.specs.Prelude.{◌≡◌, IfOk};
ghost use Rattle.plan_terms.specs.machine.StoredPlans.{plan_of};
ghost use Rattle.valuations.specs.machine.Bindings.{bound_in};
ghost use Rattle.wake_patterns.specs.machine.WakePatterns as waking;

use crate::guard_patterns::{fails_still, fails_without, holds_without};
use crate::patterns::{narrower, of_both, one_pattern, pattern_of};
use enf_data::items::Items;
use enf_data::memory::NoMemory;
use plan_terms::Plan;
use sleepers::Patterns;
use std::alloc::Global;
use valuations::Frame;

/// The patterns of the events that can change what an operator on the future asks that began under these values, up to
/// the end of its window; or none where each step can.
pub fn patterns_of(alloc: Global, node: &Plan, v: &Frame<'_>) -> Result<Option<Patterns>, NoMemory>
    ensures { IfOk result (λ found. found ≡ waking.wake_patterns (bound_in v.now) (plan_of node.now)) }
{
    match node {
        Plan::Eventually { body, .. } => met_by(alloc, body, v),
        Plan::Always { body, .. } => missed_by(alloc, body, v),
        Plan::Until { left, right, .. } => with_missed(alloc, met_by(alloc, right, v)?, left, v),
        _ => Ok(None),
    }
}

/// The patterns of the events that can change what a pending operator on the future asks, up to the end of its window,
/// where its goal was not met at the step before; or none where each step can.
pub fn waiting_patterns_of(
    alloc: Global,
    node: &Plan,
    v: &Frame<'_>,
) -> Result<Option<Patterns>, NoMemory>
    ensures { IfOk result (λ found. found ≡ waking.waiting_patterns (bound_in v.now) (plan_of node.now)) }
{
    match node {
        Plan::Eventually { low, body, .. } => goal_patterns(alloc, *low, body, v),
        Plan::Always { body, .. } => missed_by(alloc, body, v),
        Plan::Until {
            low,
            left,
            right,
            ..
        } => with_missed(alloc, goal_patterns(alloc, *low, right, v)?, left, v),
        _ => Ok(None),
    }
}

/// The patterns of the events that can change what it asks before its window begins.
pub fn early_patterns_of(
    alloc: Global,
    node: &Plan,
    v: &Frame<'_>,
) -> Result<Option<Patterns>, NoMemory>
    ensures { IfOk result (λ found. found ≡ waking.early_patterns (bound_in v.now) (plan_of node.now)) }
{
    match node {
        Plan::Eventually { .. } | Plan::Always { .. } => Ok(Some(Items::from_vec(Vec::new(alloc)))),
        Plan::Until { left, .. } => missed_by(alloc, left, v),
        _ => Ok(None),
    }
}

// Patterns and those without which the plan holds, where both have some. That of an atom goes straight after.
fn with_missed(
    alloc: Global,
    patterns: Option<Patterns>,
    plan: &Plan,
    v: &Frame<'_>,
) -> Result<Option<Patterns>, NoMemory>
    ensures { IfOk result (λ found. found
        ≡ waking.patterns_of_both patterns (waking.missed_by (bound_in v.now) (plan_of plan.now))) }
{
    let Plan::Suppress { name, terms, .. } = plan else {
        return of_both(patterns, missed_by(alloc, plan, v)?);
    };
    let Some(patterns) = patterns else {
        return Ok(None);
    };
    let mut all = patterns.into_vec();
    all.push(pattern_of(alloc, *name, terms, v)?)?;
    Ok(Some(Items::from_vec(all)))
}

// Without an event of these the goal is not met that was not met at the step before, where its window began with the
// operator. A window that begins later may begin between the two.
fn goal_patterns(
    alloc: Global,
    low: u64,
    goal: &Plan,
    v: &Frame<'_>,
) -> Result<Option<Patterns>, NoMemory>
    ensures { IfOk result (λ found. found ≡ waking.goal_patterns low (bound_in v.now) (plan_of goal.now)) }
{
    if low > 0 {
        return met_by(alloc, goal, v);
    }
    met_anew(alloc, goal, v)
}

// Without an event of these the plan does not hold, where it did not hold at the step before.
fn met_anew(alloc: Global, plan: &Plan, v: &Frame<'_>) -> Result<Option<Patterns>, NoMemory>
    ensures { IfOk result (λ found. found ≡ waking.met_anew (bound_in v.now) (plan_of plan.now)) }
{
    match plan {
        Plan::Both { left, right, .. } => match met_by(alloc, plan, v)? {
            Some(patterns) => Ok(Some(patterns)),
            None => of_both(met_anew(alloc, left, v)?, met_anew(alloc, right, v)?),
        },
        Plan::Either { left, right, .. } => {
            of_both(met_anew(alloc, left, v)?, met_anew(alloc, right, v)?)
        }
        Plan::TestOr { test, body, .. } => {
            of_both(fails_still(alloc, test, v)?, met_anew(alloc, body, v)?)
        }
        _ => met_by(alloc, plan, v),
    }
}

// Without an event of these the plan does not hold.
fn met_by(alloc: Global, plan: &Plan, v: &Frame<'_>) -> Result<Option<Patterns>, NoMemory>
    ensures { IfOk result (λ found. found ≡ waking.met_by (bound_in v.now) (plan_of plan.now)) }
{
    match plan {
        Plan::Cause { name, terms, .. } => one_pattern(alloc, *name, terms, v),
        Plan::Both { left, right, .. } => Ok(narrower(
            met_by(alloc, left, v)?,
            met_by(alloc, right, v)?,
        )),
        Plan::Either { left, right, .. } => {
            of_both(met_by(alloc, left, v)?, met_by(alloc, right, v)?)
        }
        Plan::TestOr { test, body, .. } => {
            of_both(fails_without(alloc, test, v)?, met_by(alloc, body, v)?)
        }
        Plan::Always { low, body, .. } if *low == 0 => met_by(alloc, body, v),
        Plan::Until {
            low,
            left,
            right,
            ..
        } => {
            if *low > 0 {
                return met_by(alloc, left, v);
            }
            of_both(met_by(alloc, right, v)?, met_by(alloc, left, v)?)
        }
        _ => Ok(None),
    }
}

// Without an event of these the plan holds, and asks nothing of later steps.
fn missed_by(alloc: Global, plan: &Plan, v: &Frame<'_>) -> Result<Option<Patterns>, NoMemory>
    ensures { IfOk result (λ found. found ≡ waking.missed_by (bound_in v.now) (plan_of plan.now)) }
{
    match plan {
        Plan::Suppress { name, terms, .. } => one_pattern(alloc, *name, terms, v),
        Plan::Both { left, right, .. } | Plan::Either { left, right, .. } => {
            of_both(missed_by(alloc, left, v)?, missed_by(alloc, right, v)?)
        }
        Plan::TestOr { test, body, .. } => Ok(narrower(
            holds_without(alloc, test, v)?,
            missed_by(alloc, body, v)?,
        )),
        Plan::Guarded { test, body, .. } => Ok(narrower(
            fails_without(alloc, test, v)?,
            missed_by(alloc, body, v)?,
        )),
        _ => Ok(None),
    }
}
