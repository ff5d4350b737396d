//! How a formula is made true or false.
ghost use Rattle.std.specs.Prelude.{◌≡◌};
ghost use Rattle.enf_formula.specs.machine.FormulaViews.{tree_of};
ghost use Rattle.enforce_types.specs.meaning.Elab.{Elab, Up, Down, UpForAll, Exclusion, ImplicationAnswer, LeafWhere};
ghost use Rattle.enforce_types.specs.meaning.Elab.{OneOfTwo, is_causable as can_cause, is_suppressible as can_suppress};
ghost use Rattle.enforce_types.specs.machine.OperandAnswers.{GivesAnswer, aim_where, denied_where, test_answer};
ghost use Rattle.plan_terms.specs.machine.StoredPlans.{plan_of};
ghost use Rattle.plan_terms.specs.meaning.Plans as tree;

use crate::operand_plans::{
    always, both, either, end_from_zero, end_of, eventually, extended, guarded, is_guard, next,
    test_or, until, without,
};
use crate::refusals::TypeRefusal;
use enf_data::events::NameId;
use enf_data::items::Duplicate;
use enf_data::places::Place;
use enf_data::terms::{Terms, Vars};
use enf_formula::Formula;
use monitorable_guard::is_test;
use plan_terms::Plan;
use signature::Signature;
use std::alloc::Global;

/// How the formula is made true with these variables in scope, or the first refusal.
#[cycle(elaboration)]
pub fn up(
    alloc: Global,
    signature: &Signature,
    formula: &Formula,
    scope: &Vars,
) -> Result<Plan, TypeRefusal>
    ensures { GivesAnswer (Elab (can_cause signature.now) (can_suppress signature.now)
        Up (tree_of formula.now) scope.now) result }
{
    match formula {
        Formula::Atom(place, name, terms) => cause(alloc, signature, *place, *name, terms),
        Formula::Not(_, g) => down(alloc, signature, g, scope),
        Formula::And(_, g, h) => {
            let left = up(alloc, signature, g, scope)?;
            let right = up(alloc, signature, h, scope)?;
            Ok(both(alloc, left, right)?)
        }
        Formula::Or(_, g, h) => one_of_two(alloc, signature, false, g, h, scope),
        Formula::Implies(place, g, h) => {
            let none = Vars::new(alloc);
            up_implies(alloc, signature, *place, *place, &none, g, h, scope)
        }
        Formula::Forall(place, xs, g) => up_for_all(alloc, signature, *place, xs, g, scope),
        Formula::Eventually(place, interval, g) => {
            let high = end_of(*place, interval)?;
            let body = up(alloc, signature, g, scope)?;
            Ok(eventually(alloc, *place, interval.low, high, body)?)
        }
        Formula::Always(place, interval, g) => {
            let high = end_of(*place, interval)?;
            let body = up(alloc, signature, g, scope)?;
            Ok(always(alloc, *place, interval.low, high, body)?)
        }
        Formula::Until(place, interval, g, h) => {
            let high = end_of(*place, interval)?;
            let left = up(alloc, signature, g, scope)?;
            let right = up(alloc, signature, h, scope)?;
            Ok(until(alloc, *place, interval.low, high, left, right)?)
        }
        Formula::Next(place, interval, g) => {
            let high = end_from_zero(*place, interval)?;
            let body = up(alloc, signature, g, scope)?;
            Ok(next(alloc, *place, high, body)?)
        }
        Formula::True(place)
        | Formula::False(place)
        | Formula::Equal(place, _, _)
        | Formula::Less(place, _, _)
        | Formula::AtMost(place, _, _)
        | Formula::Exists(place, _, _)
        | Formula::Prev(place, _, _)
        | Formula::Once(place, _, _)
        | Formula::Historically(place, _, _)
        | Formula::Since(place, _, _, _) => Err(TypeRefusal::NotEnforceable { place: *place }),
    }
}

/// How the formula is made false with these variables in scope, or the first refusal.
#[cycle(elaboration)]
pub fn down(
    alloc: Global,
    signature: &Signature,
    formula: &Formula,
    scope: &Vars,
) -> Result<Plan, TypeRefusal>
    ensures { GivesAnswer (Elab (can_cause signature.now) (can_suppress signature.now)
        Down (tree_of formula.now) scope.now) result }
{
    match formula {
        Formula::Atom(place, name, terms) => suppress(alloc, signature, *place, *name, terms),
        Formula::Not(_, g) => up(alloc, signature, g, scope),
        Formula::And(_, g, h) => one_of_two(alloc, signature, true, g, h, scope),
        Formula::Or(_, g, h) => {
            let left = down(alloc, signature, g, scope)?;
            let right = down(alloc, signature, h, scope)?;
            Ok(both(alloc, left, right)?)
        }
        Formula::Implies(_, g, h) => {
            let left = up(alloc, signature, g, scope)?;
            let right = down(alloc, signature, h, scope)?;
            Ok(both(alloc, left, right)?)
        }
        Formula::Exists(place, xs, g) => exclude(alloc, signature, *place, xs, g, scope),
        Formula::Eventually(place, interval, g) => {
            let high = end_of(*place, interval)?;
            let body = down(alloc, signature, g, scope)?;
            Ok(always(alloc, *place, interval.low, high, body)?)
        }
        Formula::Always(place, interval, g) => {
            let high = end_of(*place, interval)?;
            let body = down(alloc, signature, g, scope)?;
            Ok(eventually(alloc, *place, interval.low, high, body)?)
        }
        Formula::True(place)
        | Formula::False(place)
        | Formula::Equal(place, _, _)
        | Formula::Less(place, _, _)
        | Formula::AtMost(place, _, _)
        | Formula::Forall(place, _, _)
        | Formula::Prev(place, _, _)
        | Formula::Next(place, _, _)
        | Formula::Once(place, _, _)
        | Formula::Historically(place, _, _)
        | Formula::Since(place, _, _, _)
        | Formula::Until(place, _, _, _) => Err(TypeRefusal::NotEnforceable { place: *place }),
    }
}

// How one of two formulas is made true, or made false where both are denied. That one is refused does not matter where
// it is a test and the other has a plan.
#[cycle(elaboration)]
fn one_of_two(
    alloc: Global,
    signature: &Signature,
    denied: bool,
    l: &Formula,
    r: &Formula,
    scope: &Vars,
) -> Result<Plan, TypeRefusal>
    ensures { GivesAnswer (OneOfTwo scope.now
        (denied_where denied (tree_of l.now)) (denied_where denied (tree_of r.now))
        (Elab (can_cause signature.now) (can_suppress signature.now) (aim_where denied) (tree_of l.now) scope.now)
        (Elab (can_cause signature.now) (can_suppress signature.now) (aim_where denied) (tree_of r.now) scope.now))
        result }
{
    match one_side(alloc, signature, denied, r, scope) {
        Ok(plan) => {
            if is_test(alloc, l, scope)? {
                return Ok(test_or(alloc, denied, l, plan)?);
            }
            let other = one_side(alloc, signature, denied, l, scope)?;
            Ok(either(alloc, other, plan)?)
        }
        Err(refusal) => match refusal {
            TypeRefusal::NoMemory => Err(TypeRefusal::NoMemory),
            _ => {
                if !is_test(alloc, r, scope)? {
                    return Err(refusal);
                }
                let plan = one_side(alloc, signature, denied, l, scope)?;
                Ok(test_or(alloc, denied, r, plan)?)
            }
        },
    }
}

// How the formula is made true, or made false where it is denied.
#[cycle(elaboration)]
fn one_side(
    alloc: Global,
    signature: &Signature,
    denied: bool,
    formula: &Formula,
    scope: &Vars,
) -> Result<Plan, TypeRefusal>
    ensures { GivesAnswer (Elab (can_cause signature.now) (can_suppress signature.now)
        (aim_where denied) (tree_of formula.now) scope.now) result }
{
    if denied {
        down(alloc, signature, formula, scope)
    } else {
        up(alloc, signature, formula, scope)
    }
}

// How the body of `forall`s of these variables is made true for all their values.
#[cycle(elaboration)]
fn up_for_all(
    alloc: Global,
    signature: &Signature,
    first: Place,
    xs: &Vars,
    body: &Formula,
    scope: &Vars,
) -> Result<Plan, TypeRefusal>
    ensures { GivesAnswer (Elab (can_cause signature.now) (can_suppress signature.now)
        (UpForAll first xs.now) (tree_of body.now) scope.now) result }
{
    match body {
        Formula::Forall(_, ys, g) => {
            let all = extended(alloc, xs, ys)?;
            up_for_all(alloc, signature, first, &all, g, scope)
        }
        Formula::Implies(place, g, h) => {
            up_implies(alloc, signature, first, *place, xs, g, h, scope)
        }
        Formula::Not(_, g) => exclude(alloc, signature, first, xs, g, scope),
        _ => Err(TypeRefusal::Unguarded { place: first }),
    }
}

// How an implication below `forall`s of these variables is made true: its left side as a guard, else by making that
// false or the right side true.
#[cycle(elaboration)]
fn up_implies(
    alloc: Global,
    signature: &Signature,
    place: Place,
    arrow: Place,
    xs: &Vars,
    g: &Formula,
    h: &Formula,
    scope: &Vars,
) -> Result<Plan, TypeRefusal>
    ensures { GivesAnswer (ImplicationAnswer place arrow scope.now xs.now (tree_of g.now) (tree_of h.now)
        (Elab (can_cause signature.now) (can_suppress signature.now) Down (tree_of g.now))
        (Elab (can_cause signature.now) (can_suppress signature.now) Up (tree_of h.now))) result }
{
    let all = extended(alloc, scope, xs)?;
    let guards = is_guard(alloc, scope, xs, g)?;
    match up(alloc, signature, h, &all) {
        Ok(plan) => {
            if guards {
                let test = g.duplicate(alloc)?;
                return Ok(guarded(alloc, xs, test, plan)?);
            }
            if !xs.is_empty() {
                return Err(TypeRefusal::Unguarded { place });
            }
            let other = down(alloc, signature, g, scope)?;
            Ok(either(alloc, other, plan)?)
        }
        Err(refusal) => match refusal {
            TypeRefusal::NoMemory => Err(TypeRefusal::NoMemory),
            _ => {
                if !is_test(alloc, h, &all)? {
                    return Err(refusal);
                }
                let plan = down(alloc, signature, g, &all)?;
                test_implies(alloc, place, arrow, xs, guards, g, h, plan)
            }
        },
    }
}

// An implication whose right side is a test, with the plan that makes its left side false.
fn test_implies(
    alloc: Global,
    place: Place,
    arrow: Place,
    xs: &Vars,
    guards: bool,
    g: &Formula,
    h: &Formula,
    plan: Plan,
) -> Result<Plan, TypeRefusal>
    ensures { GivesAnswer (λ answer. answer ≡ test_answer place arrow xs.now guards
        (tree_of g.now) (tree_of h.now) (plan_of plan)) result }
{
    if guards {
        let test = without(alloc, arrow, g, h)?;
        return Ok(guarded(alloc, xs, test, plan)?);
    }
    if xs.is_empty() {
        return Ok(test_or(alloc, false, h, plan)?);
    }
    Err(TypeRefusal::Unguarded { place })
}

// How the formula is made false for all values of these variables.
#[cycle(elaboration)]
fn exclude(
    alloc: Global,
    signature: &Signature,
    place: Place,
    xs: &Vars,
    g: &Formula,
    scope: &Vars,
) -> Result<Plan, TypeRefusal>
    ensures { GivesAnswer (Exclusion place scope.now xs.now (tree_of g.now)
        (Elab (can_cause signature.now) (can_suppress signature.now) Down (tree_of g.now))) result }
{
    let all = extended(alloc, scope, xs)?;
    let plan = down(alloc, signature, g, &all)?;
    if !is_guard(alloc, scope, xs, g)? {
        return Err(TypeRefusal::Unguarded { place });
    }
    let test = g.duplicate(alloc)?;
    Ok(guarded(alloc, xs, test, plan)?)
}

// The leaf that causes the event, where the name's events can be caused.
fn cause(
    alloc: Global,
    signature: &Signature,
    place: Place,
    name: NameId,
    terms: &Terms,
) -> Result<Plan, TypeRefusal>
    ensures { GivesAnswer (LeafWhere (can_cause signature.now name) place
        (tree.CausePlan 0 place name terms.now)) result }
{
    let causable = match signature.entry(name) {
        Some(entry) => entry.causable,
        None => false,
    };
    if !causable {
        return Err(TypeRefusal::NotEnforceable { place });
    }
    Ok(Plan::Cause {
        node: 0,
        place,
        name,
        terms: terms.duplicate(alloc)?,
    })
}

// The leaf that suppresses the event, where the name's events can be suppressed.
fn suppress(
    alloc: Global,
    signature: &Signature,
    place: Place,
    name: NameId,
    terms: &Terms,
) -> Result<Plan, TypeRefusal>
    ensures { GivesAnswer (LeafWhere (can_suppress signature.now name) place
        (tree.SuppressPlan 0 place name terms.now)) result }
{
    let suppressible = match signature.entry(name) {
        Some(entry) => entry.suppressible,
        None => false,
    };
    if !suppressible {
        return Err(TypeRefusal::NotEnforceable { place });
    }
    Ok(Plan::Suppress {
        node: 0,
        place,
        name,
        terms: terms.duplicate(alloc)?,
    })
}
