//! The instances that plans begin at a step, one after another.
ghost use Rattle.std.specs.Prelude.{◌≡◌, ◌∷◌, [], ◌++◌, ◌≤◌, OnOk, List, Contains, true, IfOk};
ghost use Rattle.std.specs.List.{AllByRecursion};
ghost use Rattle.enf_data.specs.declared.limits.TheConstants.{MOST_INTERVAL_END};
ghost use Rattle.enf_data.specs.declared.values.Value.{Value as AnyValue};
ghost use Rattle.plan_terms.specs.machine.WellFormed.{EndsInTime};
ghost use Rattle.plan_terms.specs.meaning.Plans.{is_future, nodes, Plan as Tree};
ghost use Rattle.plan_terms.specs.machine.StoredPlans.{plan_of};
ghost use Rattle.valuations.specs.machine.Bindings.{bound_in, filled_from_row};
ghost use Rattle.obligations.specs.machine.Additions.{AddsAsked};
ghost use Rattle.obligations.specs.machine.PresentStep.{begun_at_now, IsNowOf};
ghost use Rattle.obligations.specs.machine.AskablePlans.{CanAskPlan, CanAskOf};
ghost use Rattle.obligations.specs.machine.FreshGuards.{guards_now};
ghost use Rattle.obligations.specs.meaning.Obligations.{Begun, Gathers};
ghost use Rattle.obligations.specs.declared.present_step.TheConstants.{MOST_TIME};
ghost use Rattle.enf_data.specs.declared.steps.Step.{Step};
ghost use Rattle.plan_terms.specs.machine.NamedNodes.{StandsIn};

use crate::instances::Instance;
use crate::missing_first::misses_nothing;
use crate::present_step::Now;
use crate::sides::side_taken;
use enf_data::memory::NoMemory;
use monitorable_guard::Rows;
use plan_terms::Plan;
use std::alloc::Global;
use valuations::filling::valuation_in;
use valuations::{Frame, Valuation};

// Puts the instances last that the plan of a rule begins where it is begun at the step.
#[cycle(beginning)]
pub fn begin_behind<'a>(
    alloc: Global,
    rule: u32,
    plan: &Plan,
    v: &'a Frame<'a>,
    now: &Now<'_>,
    into: &mut Vec<Instance>,
) -> Result<(), NoMemory>
    requires asked { CanAskPlan (guards_now now.now) (plan_of plan.now) (bound_in v.now) }
    requires ends { AllByRecursion EndsInTime (nodes (plan_of plan.now)) }
    requires in_time { now.now.time ≤ MOST_TIME }
    ensures { OnOk result (AddsAsked now.now rule (plan_of plan.now)
        (λ trace. Begun trace rule (plan_of plan.now) (bound_in v.now)) into.old.items into.new.items) }
{
    match plan {
        Plan::Cause { .. } | Plan::Suppress { .. } => Ok(()),
        Plan::Both { left, right, .. } => {
            begin_behind(alloc, rule, left, &*v, now, into)?;
            begin_behind(alloc, rule, right, &*v, now, into)
        }
        Plan::Either { left, right, .. } => match side_taken(alloc, left, right, &*v, now)? {
            Some(side) => begin_behind(alloc, rule, side, &*v, now, into),
            None => Ok(()),
        },
        Plan::TestOr { guard, body, .. } => {
            if now.tables.holds_under(alloc, *guard, now.ordered, &*v)? {
                return Ok(());
            }
            begin_behind(alloc, rule, body, &*v, now, into)
        }
        Plan::Guarded { guard, body, .. } => {
            let rows = now.tables.told_under(alloc, *guard, now.ordered, &*v)?;
            begin_under(alloc, rule, body, &rows, &*v, now, into)
        }
        Plan::Eventually { .. } | Plan::Always { .. } | Plan::Until { .. } | Plan::Next { .. } => {
            begin_later(alloc, rule, plan, &*v, now, into)
        }
    }
}

// Puts the instances last that a node on the future begins: its own, if it waits, and those of what is begun at once.
#[cycle(beginning)]
fn begin_later<'a>(
    alloc: Global,
    rule: u32,
    plan: &Plan,
    v: &'a Frame<'a>,
    now: &Now<'_>,
    into: &mut Vec<Instance>,
) -> Result<(), NoMemory>
    requires asked { CanAskPlan (guards_now now.now) (plan_of plan.now) (bound_in v.now) }
    requires ends { AllByRecursion EndsInTime (nodes (plan_of plan.now)) }
    requires in_time { now.now.time ≤ MOST_TIME }
    requires future { is_future (plan_of plan.now) ≡ true }
    ensures { OnOk result (AddsAsked now.now rule (plan_of plan.now)
        (λ trace. Begun trace rule (plan_of plan.now) (bound_in v.now)) into.old.items into.new.items) }
{
    match plan {
        Plan::Eventually {
            node,
            low,
            high,
            body,
            ..
        } => {
            if *low == 0 && misses_nothing(alloc, body, &*v, now)? {
                return begin_behind(alloc, rule, body, &*v, now, into);
            }
            push_begun(alloc, rule, *node, (*low, *high), &*v, now, into)
        }
        Plan::Always {
            node,
            low,
            high,
            body,
            ..
        } => {
            push_begun(alloc, rule, *node, (*low, *high), &*v, now, into)?;
            if *low > 0 {
                return Ok(());
            }
            begin_behind(alloc, rule, body, &*v, now, into)
        }
        Plan::Until {
            node,
            low,
            high,
            left,
            right,
            ..
        } => {
            if *low == 0 && misses_nothing(alloc, right, &*v, now)? {
                return begin_behind(alloc, rule, right, &*v, now, into);
            }
            push_begun(alloc, rule, *node, (*low, *high), &*v, now, into)?;
            begin_behind(alloc, rule, left, &*v, now, into)
        }
        Plan::Next { node, high, .. } => {
            push_begun(alloc, rule, *node, (0, *high), &*v, now, into)
        }
        _ => Ok(()),
    }
}

// Puts the instances last that a plan begins under each row of a table, one after another.
#[cycle(beginning)]
fn begin_under<'a>(
    alloc: Global,
    rule: u32,
    body: &Plan,
    rows: &'a Rows<'a>,
    v: &'a Frame<'a>,
    now: &Now<'_>,
    into: &mut Vec<Instance>,
) -> Result<(), NoMemory>
    requires asked { (row : List AnyValue) → Contains rows.now.rows row → CanAskPlan (guards_now now.now)
        (plan_of body.now) (filled_from_row (bound_in v.now) rows.now.columns row) }
    requires ends { AllByRecursion EndsInTime (nodes (plan_of body.now)) }
    requires in_time { now.now.time ≤ MOST_TIME }
    ensures puts { OnOk result (AddsAsked now.now rule (plan_of body.now) (λ trace. Gathers (λ row. Begun trace rule
        (plan_of body.now) (filled_from_row (bound_in v.now) rows.now.columns row)) rows.now.rows)
        into.old.items into.new.items) }
    ensures none { OnOk result (rows.now.rows ≡ [] → into.new.items ≡ into.old.items) }
{
    for place in 0..rows.len() {
        let inner = Frame::Row(&*v, rows.columns(), rows.row(place));
        begin_behind(alloc, rule, body, &inner, now, into)?;
    }
    Ok(())
}

// Puts the instance last that is begun at the step for a node, with a window that begins and ends so much later.
fn push_begun(
    alloc: Global,
    rule: u32,
    node: u32,
    window: (u64, u64),
    v: &Frame<'_>,
    now: &Now<'_>,
    into: &mut Vec<Instance>,
) -> Result<(), NoMemory>
    requires window { (window.0 ≤ window.1) × (window.1 ≤ MOST_INTERVAL_END) }
    requires in_time { now.now.time ≤ MOST_TIME }
    ensures { OnOk result (into.new.items
        ≡ into.old.items ++ begun_at_now now.now rule node window.0 window.1 (bound_in v.now) ∷ []) }
{
    let valuation = valuation_in(alloc, v)?;
    into.push(Instance {
        rule,
        node,
        valuation,
        origin: now.position,
        low: now.time + window.0,
        high: now.time + window.1,
    })?;
    Ok(())
}

/// The instances that the plan of a rule begins where it is begun at the step.
pub fn take(
    alloc: Global,
    rule: u32,
    plan: &Plan,
    v: &Valuation,
    now: &Now<'_>,
) -> Result<Vec<Instance>, NoMemory>
    requires asked { CanAskPlan (guards_now now.now) (plan_of plan.now) v.now }
    requires ends { AllByRecursion EndsInTime (nodes (plan_of plan.now)) }
    requires in_time { now.now.time ≤ MOST_TIME }
    ensures begun { IfOk result (λ begun. (trace : List Step) → IsNowOf now.now trace
        → Begun trace rule (plan_of plan.now) v.now begun.items) }
    ensures asked { IfOk result (λ begun. (plans : List Tree) → StandsIn plans rule (plan_of plan.now)
        → AllByRecursion (CanAskOf (guards_now now.now) plans) begun.items) }
{
    let mut begun = Vec::new(alloc);
    begin_behind(alloc, rule, plan, &Frame::Whole(v), now, &mut begun)?;
    Ok(begun)
}
