//! Plans for a formula from the plans for its operands. Their nodes and guards have the number 0 each.
ghost use Rattle.std.specs.Prelude.{◌≡◌, ◌↔◌, ◌++◌, IfOk, IsTrue, ok_or};
ghost use Rattle.enf_formula.specs.machine.FormulaViews.{tree_of};
ghost use Rattle.enforce_types.specs.declared.refusals.TypeRefusal.TheVariants.{NotEnforceable};
ghost use Rattle.enforce_types.specs.meaning.Elab.{IsGuardFor};
ghost use Rattle.enforce_types.specs.machine.OperandAnswers.{denied_where, positive_end, positive_end_from};
ghost use Rattle.plan_terms.specs.machine.StoredPlans.{plan_of};
ghost use Rattle.enf_formula.specs.meaning.Satisfaction.{formula_place};
ghost use Rattle.enf_formula.specs.meaning.Satisfaction as formulas;
ghost use Rattle.plan_terms.specs.meaning.Plans as tree;

use crate::refusals::TypeRefusal;
use enf_data::intervals::Interval;
use enf_data::items::Duplicate;
use enf_data::memory::NoMemory;
use enf_data::places::Place;
use enf_data::terms::Vars;
use enf_formula::Formula;
use monitorable_guard::{are_free_in, is_safe};
use plan_terms::Plan;
use std::alloc::Global;

// The end of the interval, where it has one and that is at least 1; else the formula at the place is refused.
pub fn end_of(place: Place, interval: &Interval) -> Result<u64, TypeRefusal>
    ensures { result ≡ ok_or (positive_end interval.now.high) (NotEnforceable place) }
{
    let end = interval.high.filter(|high| *high > 0);
    end.ok_or(TypeRefusal::NotEnforceable { place })
}

// The end of an interval that begins at 0; else the formula at the place is refused too.
pub fn end_from_zero(place: Place, interval: &Interval) -> Result<u64, TypeRefusal>
    ensures { result ≡ ok_or (positive_end_from interval.now.low interval.now.high) (NotEnforceable place) }
{
    if interval.low > 0 {
        return Err(TypeRefusal::NotEnforceable { place });
    }
    end_of(place, interval)
}

// The variables of both lists in turn.
pub fn extended(alloc: Global, front: &Vars, back: &Vars) -> Result<Vars, NoMemory>
    ensures { IfOk result (λ all. all ≡ front.now ++ back.now) }
{
    let mut all = Vec::from_slice(alloc, front.as_slice())?;
    all.extend_from_slice(back.as_slice())?;
    Ok(Vars::from_vec(all))
}

// Whether g can be evaluated with the variables in scope, and tells the values of xs.
pub fn is_guard(alloc: Global, scope: &Vars, xs: &Vars, g: &Formula) -> Result<bool, NoMemory>
    ensures { IfOk result (λ guards. IsTrue guards ↔ IsGuardFor scope.now xs.now (tree_of g.now)) }
{
    if is_safe(alloc, g, scope.as_slice())? {
        are_free_in(alloc, xs.as_slice(), g)
    } else {
        Ok(false)
    }
}

pub fn eventually(
    alloc: Global,
    place: Place,
    low: u64,
    high: u64,
    body: Plan,
) -> Result<Plan, NoMemory>
    ensures { IfOk result (λ plan. plan_of plan ≡ tree.EventuallyPlan 0 place low high (plan_of body)) }
{
    let body = Box::new(alloc, body)?;
    Ok(Plan::Eventually {
        node: 0,
        place,
        low,
        high,
        body,
    })
}

pub fn always(
    alloc: Global,
    place: Place,
    low: u64,
    high: u64,
    body: Plan,
) -> Result<Plan, NoMemory>
    ensures { IfOk result (λ plan. plan_of plan ≡ tree.AlwaysPlan 0 place low high (plan_of body)) }
{
    let body = Box::new(alloc, body)?;
    Ok(Plan::Always {
        node: 0,
        place,
        low,
        high,
        body,
    })
}

pub fn next(alloc: Global, place: Place, high: u64, body: Plan) -> Result<Plan, NoMemory>
    ensures { IfOk result (λ plan. plan_of plan ≡ tree.NextPlan 0 place high (plan_of body)) }
{
    let body = Box::new(alloc, body)?;
    Ok(Plan::Next {
        node: 0,
        place,
        high,
        body,
    })
}

pub fn both(alloc: Global, left: Plan, right: Plan) -> Result<Plan, NoMemory>
    ensures { IfOk result (λ plan. plan_of plan ≡ tree.Both 0 (plan_of left) (plan_of right)) }
{
    let left = Box::new(alloc, left)?;
    let right = Box::new(alloc, right)?;
    Ok(Plan::Both {
        node: 0,
        left,
        right,
    })
}

pub fn until(
    alloc: Global,
    place: Place,
    low: u64,
    high: u64,
    left: Plan,
    right: Plan,
) -> Result<Plan, NoMemory>
    ensures { IfOk result (λ plan. plan_of plan
        ≡ tree.UntilPlan 0 place low high (plan_of left) (plan_of right)) }
{
    let left = Box::new(alloc, left)?;
    let right = Box::new(alloc, right)?;
    Ok(Plan::Until {
        node: 0,
        place,
        low,
        high,
        left,
        right,
    })
}

pub fn test_or(alloc: Global, denied: bool, test: &Formula, body: Plan) -> Result<Plan, NoMemory>
    ensures { IfOk result (λ plan. plan_of plan
        ≡ tree.TestOr 0 0 (denied_where denied (tree_of test.now)) (plan_of body)) }
{
    let test = Box::new(alloc, sided(alloc, denied, test)?)?;
    let body = Box::new(alloc, body)?;
    Ok(Plan::TestOr {
        node: 0,
        guard: 0,
        test,
        body,
    })
}

// A copy of the formula, or of its denial.
fn sided(alloc: Global, denied: bool, formula: &Formula) -> Result<Formula, NoMemory>
    ensures { IfOk result (λ copy. tree_of copy ≡ denied_where denied (tree_of formula.now)) }
{
    let copy = formula.duplicate(alloc)?;
    if denied {
        let copy = Box::new(alloc, copy)?;
        Ok(Formula::Not(formula.place(), copy))
    } else {
        Ok(copy)
    }
}

pub fn either(alloc: Global, left: Plan, right: Plan) -> Result<Plan, NoMemory>
    ensures { IfOk result (λ plan. plan_of plan ≡ tree.Either 0 (plan_of left) (plan_of right)) }
{
    let left = Box::new(alloc, left)?;
    let right = Box::new(alloc, right)?;
    Ok(Plan::Either {
        node: 0,
        left,
        right,
    })
}

pub fn guarded(alloc: Global, xs: &Vars, test: Formula, body: Plan) -> Result<Plan, NoMemory>
    ensures { IfOk result (λ plan. plan_of plan
        ≡ tree.Guarded 0 xs.now 0 (tree_of test) (plan_of body)) }
{
    let vars = xs.duplicate(alloc)?;
    let test = Box::new(alloc, test)?;
    let body = Box::new(alloc, body)?;
    Ok(Plan::Guarded {
        node: 0,
        vars,
        guard: 0,
        test,
        body,
    })
}

// The formula that g holds and h does not.
pub fn without(alloc: Global, place: Place, g: &Formula, h: &Formula) -> Result<Formula, NoMemory>
    ensures { IfOk result (λ test. tree_of test
        ≡ formulas.And place (tree_of g.now) (formulas.Not (formula_place (tree_of h.now)) (tree_of h.now))) }
{
    let left = Box::new(alloc, g.duplicate(alloc)?)?;
    let right = Box::new(alloc, h.duplicate(alloc)?)?;
    let right = Box::new(alloc, Formula::Not(h.place(), right))?;
    Ok(Formula::And(place, left, right))
}
