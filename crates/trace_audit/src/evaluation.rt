//! What a plan still asks of the steps after the one that is looked at, where its formula is to hold there.
ghost use Rattle.std.specs.Prelude.{◌≡◌, ◌≤◌, IfOk, List, Contains};
ghost use Rattle.std.specs.List.{AllByRecursion};
ghost use Rattle.enf_formula.specs.meaning.Satisfaction.{Sat};
ghost use Rattle.enf_data.specs.declared.limits.TheConstants.{MOST_INTERVAL_END};
ghost use Rattle.enf_data.specs.declared.values.Value.{Value as AnyValue};
ghost use Rattle.plan_terms.specs.machine.WellFormed.{EndsInTime};
ghost use Rattle.plan_terms.specs.meaning.Plans.{formula_for};
ghost use Rattle.plan_terms.specs.machine.StoredPlans.{plan_of};
ghost use Rattle.trace_meaning.specs.meaning.Traces.{most_time};
ghost use Rattle.trace_meaning.specs.declared.kinds.StepKind.TheVariants.{Inserted};
ghost use Rattle.valuations.specs.machine.Bindings.{bound_in, filled_from_row};
ghost use Rattle.trace_audit.specs.machine.AskablePlans.{CanEvaluatePlan};
ghost use Rattle.trace_audit.specs.machine.Moments.{IsBegunWaiting, TellsRest, moment_of};
ghost use Rattle.past_state.specs.machine.GuardPlaces.{guards_at};
ghost use Rattle.trace_audit.specs.machine.Residuals.{WaitingAsks, ResidualCanGoOn, CanLinkGoOn, PlanHoldsAt};
ghost use Rattle.trace_audit.specs.machine.Residuals.{LinksMean, Means};

use crate::present_step::Present;
use crate::residuals::{Link, Residual, Waiting, all, any, settled};
use enf_data::memory::NoMemory;
use enf_formula::laws::is_classical;
use plan_terms::Plan;
use plan_terms::laws::columns_are_variables;
use std::alloc::Global;
use valuations::filling::valuation_in;
use valuations::{Frame, Table};

// What is asked where the plan's formula is to hold at the step.
#[cycle(evaluating)]
pub fn evaluate<'p, 'a>(
    alloc: Global,
    plan: &'p Plan,
    v: &'a Frame<'a>,
    now: &Present<'_>,
) -> Result<Residual<'p>, NoMemory>
    requires can { CanEvaluatePlan (guards_at now.now.tables.now) (plan_of plan.now) (bound_in v.now) }
    requires in_time { now.now.time ≤ most_time Inserted }
    ensures { IfOk result (TellsRest (moment_of now.now)
        (λ trace. PlanHoldsAt trace (bound_in v.now) (plan_of plan.now) now.now.position)) }
{
    is_classical();
    match plan {
        Plan::Cause { name, terms, .. } => {
            Ok(settled(now.events.has_event(*name, terms.as_slice(), v)))
        }
        Plan::Suppress { name, terms, .. } => {
            Ok(settled(!now.events.has_event(*name, terms.as_slice(), v)))
        }
        Plan::Both { left, right, .. } => {
            let left = evaluate(alloc, left, &*v, now)?;
            let right = evaluate(alloc, right, &*v, now)?;
            all(alloc, left, right)
        }
        Plan::Either { left, right, .. } => {
            let left = evaluate(alloc, left, &*v, now)?;
            let right = evaluate(alloc, right, &*v, now)?;
            any(alloc, left, right)
        }
        Plan::TestOr { guard, body, .. } => {
            if now.tables.holds_under(alloc, *guard, now.events, &*v)? {
                return Ok(Residual::Met);
            }
            evaluate(alloc, body, &*v, now)
        }
        Plan::Guarded { guard, body, .. } => {
            columns_are_variables();
            let rows = now.tables.rows_under(alloc, *guard, now.events, &*v)?;
            evaluate_under(alloc, body, &rows, &*v, now)
        }
        Plan::Eventually { low, high, .. }
        | Plan::Always { low, high, .. }
        | Plan::Until { low, high, .. } => {
            let waiting = begin(alloc, plan, (*low, *high), &*v, now)?;
            wake(alloc, waiting, now)
        }
        Plan::Next { high, .. } => {
            let waiting = begin(alloc, plan, (0, *high), &*v, now)?;
            Ok(Residual::Waits(waiting))
        }
    }
}

// What is asked where the plan's formula is to hold at the step under each row of a table.
#[cycle(evaluating)]
fn evaluate_under<'p, 'a>(
    alloc: Global,
    body: &'p Plan,
    rows: &'a Table,
    v: &'a Frame<'a>,
    now: &Present<'_>,
) -> Result<Residual<'p>, NoMemory>
    requires can { (row : List AnyValue) → Contains rows.now.rows row
        → CanEvaluatePlan (guards_at now.now.tables.now)
        (plan_of body.now) (filled_from_row (bound_in v.now) rows.now.columns row) }
    requires in_time { now.now.time ≤ most_time Inserted }
    ensures { IfOk result (TellsRest (moment_of now.now) (λ trace. AllByRecursion (λ row. PlanHoldsAt trace
        (filled_from_row (bound_in v.now) rows.now.columns row) (plan_of body.now) now.now.position) rows.now.rows)) }
{
    let mut rest = Residual::Met;
    for row in rows.rows() {
        let inner = Frame::Row(&*v, rows.columns().as_slice(), row.as_slice());
        let next = evaluate(alloc, body, &inner, now)?;
        rest = all(alloc, rest, next)?;
    }
    Ok(rest)
}

// What is still asked where an operator that waits comes to the step.
#[cycle(evaluating)]
pub fn wake<'p>(
    alloc: Global,
    waiting: Waiting<'p>,
    now: &Present<'_>,
) -> Result<Residual<'p>, NoMemory>
    requires can { CanEvaluatePlan (guards_at now.now.tables.now) (plan_of waiting.node.now) waiting.valuation }
    requires in_time { now.now.time ≤ most_time Inserted }
    ensures { IfOk result (TellsRest (moment_of now.now) (λ trace. WaitingAsks trace now.now.position waiting.entry)) }
{
    is_classical();
    let node = waiting.node;
    match node {
        Plan::Eventually { body, .. } => {
            if now.time > waiting.high {
                return Ok(Residual::Failed);
            }
            if now.time < waiting.low {
                return Ok(Residual::Waits(waiting));
            }
            let present = evaluate(alloc, body, &Frame::Whole(&waiting.valuation), now)?;
            any(alloc, Residual::Waits(waiting), present)
        }
        Plan::Always { body, .. } => {
            if now.time > waiting.high {
                return Ok(Residual::Met);
            }
            if now.time < waiting.low {
                return Ok(Residual::Waits(waiting));
            }
            let present = evaluate(alloc, body, &Frame::Whole(&waiting.valuation), now)?;
            all(alloc, Residual::Waits(waiting), present)
        }
        Plan::Until { left, right, .. } => {
            if now.time > waiting.high {
                return Ok(Residual::Failed);
            }
            let before = evaluate(alloc, left, &Frame::Whole(&waiting.valuation), now)?;
            if now.time < waiting.low {
                return all(alloc, Residual::Waits(waiting), before);
            }
            let present = evaluate(alloc, right, &Frame::Whole(&waiting.valuation), now)?;
            let waits = all(alloc, Residual::Waits(waiting), before)?;
            any(alloc, waits, present)
        }
        Plan::Next { body, .. } => {
            if now.time > waiting.high {
                return Ok(Residual::Failed);
            }
            evaluate(alloc, body, &Frame::Whole(&waiting.valuation), now)
        }
        Plan::Cause { .. }
        | Plan::Suppress { .. }
        | Plan::Both { .. }
        | Plan::Either { .. }
        | Plan::TestOr { .. }
        | Plan::Guarded { .. } => Ok(Residual::Failed),
    }
}

// An operator that begins to wait at the step, with a window that begins and ends so much later.
fn begin<'p>(
    alloc: Global,
    node: &'p Plan,
    window: (u64, u64),
    v: &Frame<'_>,
    now: &Present<'_>,
) -> Result<Waiting<'p>, NoMemory>
    requires ends { (window.0 ≤ window.1) × (window.1 ≤ MOST_INTERVAL_END) }
    requires in_time { now.now.time ≤ most_time Inserted }
    ensures { IfOk result (IsBegunWaiting (moment_of now.now) (plan_of node.now) (bound_in v.now) window.0 window.1) }
{
    let valuation = valuation_in(alloc, v)?;
    Ok(Waiting {
        node,
        valuation,
        low: now.time + window.0,
        high: now.time + window.1,
    })
}

// What is still asked where the steps up to the one that is looked at are over.
#[cycle(progressing)]
pub fn progress<'p>(
    alloc: Global,
    rest: Residual<'p>,
    now: &Present<'_>,
) -> Result<Residual<'p>, NoMemory>
    requires can { ResidualCanGoOn (guards_at now.now.tables.now) rest }
    requires in_time { now.now.time ≤ most_time Inserted }
    ensures { IfOk result (TellsRest (moment_of now.now) (λ trace. Means trace now.now.position rest.entry)) }
{
    match rest {
        Residual::Met => Ok(Residual::Met),
        Residual::Failed => Ok(Residual::Failed),
        Residual::Waits(waiting) => wake(alloc, waiting, now),
        Residual::Chain(links) => progress_chain(alloc, links, now),
    }
}

#[cycle(progressing)]
fn progress_chain<'p>(
    alloc: Global,
    links: Vec<Link<'p>>,
    now: &Present<'_>,
) -> Result<Residual<'p>, NoMemory>
    requires can { AllByRecursion (CanLinkGoOn (guards_at now.now.tables.now)) links.items }
    requires in_time { now.now.time ≤ most_time Inserted }
    ensures { IfOk result (TellsRest (moment_of now.now)
        (λ trace. LinksMean trace now.now.position (Unit {0}) links.entry.items)) }
{
    let mut rest = Residual::Met;
    for link in links {
        rest = match link {
            Link::Both(next) => {
                let next = progress(alloc, next, now)?;
                all(alloc, rest, next)?
            }
            Link::Either(next) => {
                let next = progress(alloc, next, now)?;
                any(alloc, rest, next)?
            }
        };
    }
    Ok(rest)
}
