//! The literals that plans miss at a step, one after another.
ghost use Rattle.std.specs.Prelude.{OnOk, List, Contains};
ghost use Rattle.enf_data.specs.declared.values.Value.{Value as AnyValue};
ghost use Rattle.plan_terms.specs.machine.StoredPlans.{plan_of};
ghost use Rattle.valuations.specs.machine.Bindings.{bound_in, filled_from_row};
ghost use Rattle.obligations.specs.machine.Additions.{AddsList, AddsOf};
ghost use Rattle.obligations.specs.machine.AskablePlans.{CanAskPlan};
ghost use Rattle.obligations.specs.machine.WantedLiterals.{IsWanted, IsWantedUnder};
ghost use Rattle.obligations.specs.machine.FreshGuards.{guards_now};
ghost use Rattle.obligations.specs.meaning.Obligations.{Missing, Gathers};

use crate::guarded_rows::rows_to_ask;
use crate::leaves::{push_cause, push_suppress};
use crate::literals::Literal;
use crate::missing_first::misses_nothing;
use crate::present_step::Now;
use enf_data::memory::NoMemory;
use monitorable_guard::Rows;
use plan_terms::Plan;
use std::alloc::Global;
use valuations::Frame;

// Puts the literals last that the plan misses where it is begun at the step.
#[cycle(listing)]
pub fn push_missing<'a>(
    alloc: Global,
    plan: &Plan,
    v: &'a Frame<'a>,
    now: &Now<'_>,
    out: &mut Vec<Literal>,
) -> Result<(), NoMemory>
    requires { CanAskPlan (guards_now now.now) (plan_of plan.now) (bound_in v.now) }
    ensures listed { OnOk result (AddsList now.now (λ trace. Missing trace (plan_of plan.now) (bound_in v.now))
        out.old.items out.new.items) }
    ensures wanted { OnOk result (AddsOf (IsWanted now.now (plan_of plan.now) (bound_in v.now))
        out.old.items out.new.items) }
{
    match plan {
        Plan::Cause {
            node,
            name,
            terms,
            ..
        } => push_cause(alloc, *node, *name, terms, &*v, now.events, out),
        Plan::Suppress {
            node,
            name,
            terms,
            ..
        } => push_suppress(alloc, *node, *name, terms, &*v, now.events, out),
        Plan::Both { left, right, .. } => {
            push_missing(alloc, left, &*v, now, out)?;
            push_missing(alloc, right, &*v, now, out)
        }
        Plan::Either { left, right, .. } => {
            if misses_nothing(alloc, left, &*v, now)? {
                return Ok(());
            }
            push_missing(alloc, right, &*v, now, out)
        }
        Plan::TestOr { guard, body, .. } => {
            if now.tables.holds_under(alloc, *guard, now.ordered, &*v)? {
                return Ok(());
            }
            push_missing(alloc, body, &*v, now, out)
        }
        Plan::Guarded {
            vars,
            guard,
            test,
            body,
            ..
        } => {
            let rows = rows_to_ask(alloc, vars, *guard, test, body, &*v, &*now)?;
            push_under(alloc, body, &rows, &*v, now, out)
        }
        Plan::Always { low, body, .. } => {
            if *low > 0 {
                return Ok(());
            }
            push_missing(alloc, body, &*v, now, out)
        }
        Plan::Until {
            low,
            left,
            right,
            ..
        } => {
            if *low == 0 && misses_nothing(alloc, right, &*v, now)? {
                return Ok(());
            }
            push_missing(alloc, left, &*v, now, out)
        }
        Plan::Eventually { .. } | Plan::Next { .. } => Ok(()),
    }
}

// Puts the literals last that a plan misses under each row of a table, one after another.
#[cycle(listing)]
fn push_under<'a>(
    alloc: Global,
    body: &Plan,
    rows: &'a Rows<'a>,
    v: &'a Frame<'a>,
    now: &Now<'_>,
    out: &mut Vec<Literal>,
) -> Result<(), NoMemory>
    requires { (row : List AnyValue) → Contains rows.now.rows row → CanAskPlan (guards_now now.now)
        (plan_of body.now) (filled_from_row (bound_in v.now) rows.now.columns row) }
    ensures listed { OnOk result (AddsList now.now (λ trace. Gathers (λ row. Missing trace (plan_of body.now)
        (filled_from_row (bound_in v.now) rows.now.columns row)) rows.now.rows) out.old.items out.new.items) }
    ensures wanted { OnOk result (AddsOf (IsWantedUnder now.now (plan_of body.now) (bound_in v.now) rows.now)
        out.old.items out.new.items) }
{
    for place in 0..rows.len() {
        let inner = Frame::Row(&*v, rows.columns(), rows.row(place));
        push_missing(alloc, body, &inner, now, out)?;
    }
    Ok(())
}
