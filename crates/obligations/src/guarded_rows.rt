//! The rows of a guard that are asked for what a plan below it misses.
ghost use Rattle.std.specs.Prelude.{◌≡◌, IfOk, IfSome, Some, filter};
ghost use Rattle.enf_formula.specs.machine.FormulaViews.{tree_of};
ghost use Rattle.plan_terms.specs.meaning.Plans.{Plan as Tree};
ghost use Rattle.plan_terms.specs.machine.StoredPlans.{plan_of};
ghost use Rattle.valuations.specs.machine.Bindings.{bound_in};
ghost use Rattle.obligations.specs.machine.GuardedRows.{IsGuardedBy, TellMissing, is_in_terms, is_term_of};
ghost use Rattle.obligations.specs.machine.GuardedRows.{suppressed_alone};

use crate::laws::missing_exists;
use crate::present_step::Now;
use enf_data::events::NameId;
use enf_data::memory::NoMemory;
use enf_data::terms::{Term, VarId, Vars};
use enf_formula::Formula;
use monitorable_guard::Rows;
use monitorable_guard::event_tables::table_of_events;
use plan_terms::Plan;
use plan_terms::triggers::has_triggers;
use std::alloc::Global;
use valuations::Frame;

// The rows under which the body is asked for what the plan with the guard misses. Where the guard needs no event, and
// the body does nothing but suppress one under each row, they are those alone for which the step has this event.
pub fn rows_to_ask<'t>(
    alloc: Global,
    vars: &Vars,
    guard: u32,
    test: &Formula,
    body: &Plan,
    v: &'t Frame<'t>,
    now: &'t Now<'_>,
) -> Result<Rows<'t>, NoMemory>
    requires { (plan : Tree) × IsGuardedBy now.now guard (tree_of test.now) vars.now (plan_of body.now) (bound_in v.now)
        plan }
    ensures { IfOk result (λ rows. (plan : Tree)
        → IsGuardedBy now.now guard (tree_of test.now) vars.now (plan_of body.now) (bound_in v.now) plan
        → TellMissing now.now plan (plan_of body.now) (bound_in v.now) rows) }
{
    let Some((name, terms)) = suppressed_bare(test, body) else {
        return now.tables.told_under(alloc, guard, now.ordered, &*v);
    };
    missing_exists();
    let columns = variables_of(alloc, vars.as_slice(), terms)?;
    // Under a row whose event is gone the body misses nothing.
    let within = table_of_events(alloc, now.events.all(), name, terms, v, columns)?;
    let rows = now.tables.rows_in(alloc, guard, now.ordered, &*v, &within)?;
    Ok(Rows::of(rows))
}

// The name and the terms of what the body suppresses below tests, if that is all that it does and its guard needs no
// event.
fn suppressed_bare<'p>(test: &Formula, body: &'p Plan) -> Option<(NameId, &'p [Term])>
    ensures { IfSome result (λ own. suppressed_alone (plan_of body.now) ≡ Some (own.0, own.1.now)) }
{
    if has_triggers(test) {
        return None;
    }
    suppressed(body)
}

// The name and the terms of what the plan suppresses below tests, if that is all that it does.
pub fn suppressed(plan: &Plan) -> Option<(NameId, &[Term])>
    ensures { IfSome result (λ own. suppressed_alone (plan_of plan.now) ≡ Some (own.0, own.1.now)) }
{
    match plan {
        Plan::Suppress { name, terms, .. } => Some((*name, terms.as_slice())),
        Plan::TestOr { body, .. } => suppressed(body),
        _ => None,
    }
}

// Those of the variables that are among the terms.
fn variables_of(alloc: Global, variables: &[VarId], terms: &[Term]) -> Result<Vars, NoMemory>
    ensures { IfOk result (λ xs. xs ≡ filter (is_in_terms terms.now) variables.now) }
{
    let mut found = Vec::new(alloc);
    for variable in variables {
        if !has_variable(terms, *variable) {
            continue;
        }
        found.push(*variable)?;
    }
    Ok(Vars::from_vec(found))
}

// Whether the variable is one of the terms.
fn has_variable(terms: &[Term], variable: VarId) -> bool
    ensures { result ≡ is_in_terms terms.now variable }
{
    terms.iter().any(|term| is_variable(term, variable))
}

fn is_variable(term: &Term, variable: VarId) -> bool
    ensures { result ≡ is_term_of variable term.now }
{
    match term {
        Term::Var(own) => own.0 == variable.0,
        Term::Const(_) => false,
    }
}
