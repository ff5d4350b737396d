//! The first literal that a plan misses at a step.
ghost use Rattle.std.specs.Prelude.{IfOk, IfSome, List, Contains};
ghost use Rattle.enf_data.specs.declared.steps.Step.{Step};
ghost use Rattle.enf_data.specs.declared.values.Value.{Value as AnyValue};
ghost use Rattle.plan_terms.specs.machine.StoredPlans.{plan_of};
ghost use Rattle.valuations.specs.machine.Bindings.{bound_in, filled_from_row};
ghost use Rattle.obligations.specs.machine.PresentStep.{TellsNothing, IsNowOf};
ghost use Rattle.obligations.specs.machine.AskablePlans.{CanAskPlan};
ghost use Rattle.obligations.specs.machine.WantedLiterals.{IsWanted, IsWantedUnder};
ghost use Rattle.obligations.specs.machine.FreshGuards.{guards_now};
ghost use Rattle.obligations.specs.meaning.Obligations.{Missing, Gathers};
ghost use Rattle.obligations.specs.machine.FirstMissing.{FirstMissing, FirstOf};

use crate::guarded_rows::rows_to_ask;
use crate::laws::missing_exists;
use crate::leaves::{cause_missing, is_there, suppress_missing};
use crate::literals::Literal;
use crate::present_step::Now;
use enf_data::memory::NoMemory;
use monitorable_guard::Rows;
use plan_terms::Plan;
use std::alloc::Global;
use valuations::Frame;

// The first literal that the plan misses where it is begun at the step, if it misses any.
#[cycle(finding)]
pub fn find_missing<'a>(
    alloc: Global,
    plan: &Plan,
    v: &'a Frame<'a>,
    now: &Now<'_>,
) -> Result<Option<Literal>, NoMemory>
    requires { CanAskPlan (guards_now now.now) (plan_of plan.now) (bound_in v.now) }
    ensures first { IfOk result (λ found. (trace : List Step) → IsNowOf now.now trace
        → FirstMissing trace (plan_of plan.now) (bound_in v.now) found) }
    ensures wanted { IfOk result (λ found. IfSome found
        (IsWanted now.now (plan_of plan.now) (bound_in v.now))) }
{
    match plan {
        Plan::Cause {
            node,
            name,
            terms,
            ..
        } => cause_missing(alloc, *node, *name, terms, &*v, now.events),
        Plan::Suppress {
            node,
            name,
            terms,
            ..
        } => suppress_missing(alloc, *node, *name, terms, &*v, now.events),
        Plan::Both { left, right, .. } => {
            missing_exists();
            match find_missing(alloc, left, &*v, now)? {
                Some(literal) => Ok(Some(literal)),
                None => find_missing(alloc, right, &*v, now),
            }
        }
        Plan::Either { left, right, .. } => {
            if misses_nothing(alloc, left, &*v, now)? {
                return Ok(None);
            }
            find_missing(alloc, right, &*v, now)
        }
        Plan::TestOr { guard, body, .. } => {
            if now.tables.holds_under(alloc, *guard, now.ordered, &*v)? {
                return Ok(None);
            }
            find_missing(alloc, body, &*v, now)
        }
        Plan::Guarded {
            vars,
            guard,
            test,
            body,
            ..
        } => {
            let rows = rows_to_ask(alloc, vars, *guard, test, body, &*v, &*now)?;
            find_under(alloc, body, &rows, &*v, now)
        }
        Plan::Always { low, body, .. } => {
            if *low > 0 {
                return Ok(None);
            }
            find_missing(alloc, body, &*v, now)
        }
        Plan::Until {
            low,
            left,
            right,
            ..
        } => {
            if *low == 0 && misses_nothing(alloc, right, &*v, now)? {
                return Ok(None);
            }
            find_missing(alloc, left, &*v, now)
        }
        Plan::Eventually { .. } | Plan::Next { .. } => Ok(None),
    }
}

// The first literal that a plan misses under the first row of a table under which it misses any.
#[cycle(finding)]
fn find_under<'a>(
    alloc: Global,
    body: &Plan,
    rows: &'a Rows<'a>,
    v: &'a Frame<'a>,
    now: &Now<'_>,
) -> Result<Option<Literal>, NoMemory>
    requires { (row : List AnyValue) → Contains rows.now.rows row → CanAskPlan (guards_now now.now)
        (plan_of body.now) (filled_from_row (bound_in v.now) rows.now.columns row) }
    ensures first { IfOk result (λ found. (trace : List Step) → IsNowOf now.now trace
        → FirstOf (Gathers (λ row. Missing trace (plan_of body.now)
        (filled_from_row (bound_in v.now) rows.now.columns row)) rows.now.rows) found) }
    ensures wanted { IfOk result (λ found. IfSome found
        (IsWantedUnder now.now (plan_of body.now) (bound_in v.now) rows.now)) }
{
    missing_exists();
    for place in 0..rows.len() {
        let inner = Frame::Row(&*v, rows.columns(), rows.row(place));
        if let Some(literal) = find_missing(alloc, body, &inner, now)? {
            return Ok(Some(literal));
        }
    }
    Ok(None)
}

// Whether the plan misses nothing. Of a leaf no literal is made.
#[cycle(finding)]
pub fn misses_nothing<'a>(
    alloc: Global,
    plan: &Plan,
    v: &'a Frame<'a>,
    now: &Now<'_>,
) -> Result<bool, NoMemory>
    requires { CanAskPlan (guards_now now.now) (plan_of plan.now) (bound_in v.now) }
    ensures { IfOk result (TellsNothing now.now (plan_of plan.now) (bound_in v.now)) }
{
    match plan {
        Plan::Cause { name, terms, .. } => is_there(alloc, *name, terms, &*v, now.events),
        Plan::Suppress { name, terms, .. } => {
            Ok(!is_there(alloc, *name, terms, &*v, now.events)?)
        }
        _ => Ok(find_missing(alloc, plan, v, now)?.is_none()),
    }
}
