//! The formula that a plan stands for.
ghost use Rattle.std.specs.Prelude.{◌≡◌, IfOk};
ghost use Rattle.enf_formula.specs.machine.FormulaViews.{tree_of};
ghost use Rattle.plan_terms.specs.machine.StoredPlans.{plan_of};
ghost use Rattle.plan_terms.specs.meaning.Plans.{formula_for, interval_from_to};

use crate::plans::Plan;
use enf_data::intervals::Interval;
use enf_data::items::Duplicate;
use enf_data::memory::NoMemory;
use enf_data::terms::Terms;
use enf_formula::Formula;
use std::alloc::Global;

/// The formula that a plan stands for. Where the plan keeps no place of a node, it is 0.
pub fn formula_of(alloc: Global, plan: &Plan) -> Result<Formula, NoMemory>
    ensures { IfOk result (λ formula. tree_of formula ≡ formula_for (plan_of plan.now)) }
{
    match plan {
        Plan::Cause {
            place,
            name,
            terms,
            ..
        } => Ok(Formula::Atom(*place, *name, terms.duplicate(alloc)?)),
        Plan::Suppress {
            place,
            name,
            terms,
            ..
        } => {
            let atom = Formula::Atom(*place, *name, terms.duplicate(alloc)?);
            Ok(Formula::Not(0, Box::new(alloc, atom)?))
        }
        Plan::Both { left, right, .. } => {
            let left = Box::new(alloc, formula_of(alloc, left)?)?;
            let right = Box::new(alloc, formula_of(alloc, right)?)?;
            Ok(Formula::And(0, left, right))
        }
        Plan::Either { left, right, .. } => {
            let left = Box::new(alloc, formula_of(alloc, left)?)?;
            let right = Box::new(alloc, formula_of(alloc, right)?)?;
            Ok(Formula::Or(0, left, right))
        }
        Plan::TestOr { test, body, .. } => {
            let test = Box::new(alloc, test.duplicate(alloc)?)?;
            let body = Box::new(alloc, formula_of(alloc, body)?)?;
            Ok(Formula::Or(0, test, body))
        }
        Plan::Guarded {
            vars,
            test,
            body,
            ..
        } => {
            let vars = vars.duplicate(alloc)?;
            let test = Box::new(alloc, test.duplicate(alloc)?)?;
            let body = Box::new(alloc, formula_of(alloc, body)?)?;
            let implication = Box::new(alloc, Formula::Implies(0, test, body))?;
            Ok(Formula::Forall(0, vars, implication))
        }
        Plan::Eventually {
            place,
            low,
            high,
            body,
            ..
        } => {
            let body = Box::new(alloc, formula_of(alloc, body)?)?;
            Ok(Formula::Eventually(*place, bounded(*low, *high), body))
        }
        Plan::Always {
            place,
            low,
            high,
            body,
            ..
        } => {
            let body = Box::new(alloc, formula_of(alloc, body)?)?;
            Ok(Formula::Always(*place, bounded(*low, *high), body))
        }
        Plan::Until {
            place,
            low,
            high,
            left,
            right,
            ..
        } => {
            let left = Box::new(alloc, formula_of(alloc, left)?)?;
            let right = Box::new(alloc, formula_of(alloc, right)?)?;
            Ok(Formula::Until(*place, bounded(*low, *high), left, right))
        }
        Plan::Next {
            place,
            high,
            body,
            ..
        } => {
            let body = Box::new(alloc, formula_of(alloc, body)?)?;
            Ok(Formula::Next(*place, bounded(0, *high), body))
        }
    }
}

// The differences from `low` to `high`.
fn bounded(low: u64, high: u64) -> Interval
    ensures { result ≡ interval_from_to low high }
{
    Interval {
        low,
        high: Some(high),
    }
}
