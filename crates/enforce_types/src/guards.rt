//! The guards and tests of plans, as they are evaluated.
ghost use Rattle.std.specs.Prelude.{◌≡◌, ◌++◌, ◌∷◌, [], OnOk, Contains};
ghost use Rattle.enf_formula.specs.machine.FormulaViews.{tree_of};
ghost use Rattle.plan_terms.specs.meaning.Plans.{guards_of_plan};
ghost use Rattle.plan_terms.specs.machine.GuardProperties.{guards_of};
ghost use Rattle.plan_terms.specs.machine.WellFormed.{GuardsAreSafe};
ghost use Rattle.monitorable_guard.specs.meaning.Safety.{Safe};
ghost use Rattle.plan_terms.specs.machine.StoredPlans.{plan_of};

use crate::operand_plans::extended;
use enf_data::memory::NoMemory;
use enf_data::terms::Vars;
use enf_formula::Formula;
use monitorable_guard::{Guard, GuardRefusal};
use plan_terms::Plan;
use std::alloc::Global;

// Puts the guards and tests of a plan last, in pre-order, each with the variables in scope where it stands.
pub fn collect(
    alloc: Global,
    plan: &Plan,
    scope: &Vars,
    guards: &mut Vec<Guard>,
) -> Result<(), NoMemory>
    requires { GuardsAreSafe (plan_of plan.now) scope.now }
    ensures { OnOk result (guards_of guards.new.items
        ≡ guards_of guards.old.items ++ guards_of_plan (plan_of plan.now) scope.now) }
{
    match plan {
        Plan::Cause { .. } | Plan::Suppress { .. } => Ok(()),
        Plan::TestOr { test, body, .. } => {
            collect_one(alloc, test, scope, guards)?;
            collect(alloc, body, scope, guards)
        }
        Plan::Guarded {
            vars,
            test,
            body,
            ..
        } => {
            collect_one(alloc, test, scope, guards)?;
            let all = extended(alloc, scope, vars)?;
            collect(alloc, body, &all, guards)
        }
        Plan::Eventually { body, .. } | Plan::Always { body, .. } | Plan::Next { body, .. } => {
            collect(alloc, body, scope, guards)
        }
        Plan::Both { left, right, .. }
        | Plan::Either { left, right, .. }
        | Plan::Until { left, right, .. } => {
            collect(alloc, left, scope, guards)?;
            collect(alloc, right, scope, guards)
        }
    }
}

fn collect_one(
    alloc: Global,
    test: &Formula,
    scope: &Vars,
    guards: &mut Vec<Guard>,
) -> Result<(), NoMemory>
    requires { Safe (tree_of test.now) (Contains scope.now) }
    ensures { OnOk result (guards_of guards.new.items
        ≡ guards_of guards.old.items ++ (tree_of test.now, scope.now) ∷ []) }
{
    match Guard::of(alloc, test.duplicate(alloc)?, scope) {
        Ok(guard) => Ok(guards.push(guard)?),
        Err(GuardRefusal::NoMemory) => Err(NoMemory),
        Err(GuardRefusal::Unguarded { .. }) => unreachable!(),
    }
}
