//! Whether a formula can be evaluated over finite tables.
ghost use Rattle.std.specs.Prelude.{◌≡◌, ◌↔◌, ◌⊎◌, IfOk, IsTrue, Contains, None, Some};
ghost use Rattle.enf_formula.specs.machine.FormulaViews.{tree_of};
ghost use Rattle.enf_formula.specs.meaning.Satisfaction.{IsFree};
ghost use Rattle.enf_data.specs.declared.terms.VarId.{VarId as Variable};
ghost use Rattle.monitorable_guard.specs.meaning.Safety.{Safe, SafeBelow, BoundOrFreeIn, NoneBound, FreeWithin};
ghost use Rattle.monitorable_guard.specs.meaning.Safety.{FreeAlike, FreeUnder, Assigns, denial};
ghost use Rattle.monitorable_guard.specs.machine.Answers.{IsBoundIn};

use crate::scopes::{are_free_in, is_free_alike, is_free_under, is_free_within, joined, with_free};
use enf_data::memory::NoMemory;
use enf_data::terms::{Term, VarId};
use enf_formula::Formula;
use std::alloc::Global;

// Whether the formula can be evaluated with these variables bound.
#[cycle(safety)]
pub fn is_safe(alloc: Global, formula: &Formula, bound: &[VarId]) -> Result<bool, NoMemory>
    ensures { IfOk result (λ safe. IsTrue safe ↔ Safe (tree_of formula.now) (Contains bound.now)) }
{
    match formula {
        Formula::True(_) | Formula::False(_) | Formula::Atom(_, _, _) => Ok(true),
        Formula::Equal(_, s, t) => Ok(is_safe_equality(s, t, bound)),
        Formula::Less(_, s, t) | Formula::AtMost(_, s, t) => {
            Ok(is_bound(s, bound) && is_bound(t, bound))
        }
        Formula::Not(_, g) => is_safe_test(alloc, g, bound),
        Formula::And(_, g, h) => is_safe_both(alloc, g, h, bound),
        Formula::Or(_, g, h) => is_safe_either(alloc, g, h, bound),
        Formula::Implies(_, g, h) => is_safe_condition(alloc, g, h, bound),
        Formula::Exists(_, _, g) => is_safe(alloc, g, bound),
        Formula::Forall(_, xs, g) => is_safe_below(alloc, xs.as_slice(), g, bound),
        Formula::Prev(_, _, g) => is_safe(alloc, g, &[]),
        Formula::Once(_, _, g) => is_safe(alloc, g, &[]),
        Formula::Historically(_, _, g) => is_safe_history(alloc, g, bound),
        Formula::Since(_, _, g, h) => is_safe_test_with(alloc, h, g, &[]),
        Formula::Next(_, _, _)
        | Formula::Eventually(_, _, _)
        | Formula::Always(_, _, _)
        | Formula::Until(_, _, _, _) => Ok(false),
    }
}

#[cycle(safety)]
fn is_safe_test(alloc: Global, g: &Formula, bound: &[VarId]) -> Result<bool, NoMemory>
    ensures { IfOk result (λ safe. IsTrue safe ↔ (FreeWithin (tree_of g.now) (Contains bound.now)
        × Safe (tree_of g.now) (Contains bound.now))) }
{
    if is_free_within(alloc, g, bound)? {
        is_safe(alloc, g, bound)
    } else {
        Ok(false)
    }
}

#[cycle(safety)]
fn is_safe_both(alloc: Global, g: &Formula, h: &Formula, bound: &[VarId]) -> Result<bool, NoMemory>
    ensures { IfOk result (λ safe. IsTrue safe ↔ (Safe (tree_of g.now) (Contains bound.now)
        × Safe (tree_of h.now) (BoundOrFreeIn (Contains bound.now) (tree_of g.now)))) }
{
    if is_safe(alloc, g, bound)? {
        let all = with_free(alloc, bound, g)?;
        is_safe(alloc, h, all.as_slice())
    } else {
        Ok(false)
    }
}

#[cycle(safety)]
fn is_safe_either(
    alloc: Global,
    g: &Formula,
    h: &Formula,
    bound: &[VarId],
) -> Result<bool, NoMemory>
    ensures { IfOk result (λ safe. IsTrue safe ↔ (Safe (tree_of g.now) (Contains bound.now)
        × Safe (tree_of h.now) (Contains bound.now)
        × FreeAlike (Contains bound.now) (tree_of g.now) (tree_of h.now))) }
{
    if is_safe(alloc, g, bound)? && is_safe(alloc, h, bound)? {
        is_free_alike(alloc, g, h, bound)
    } else {
        Ok(false)
    }
}

#[cycle(safety)]
fn is_safe_condition(
    alloc: Global,
    g: &Formula,
    h: &Formula,
    bound: &[VarId],
) -> Result<bool, NoMemory>
    ensures { IfOk result (λ safe. IsTrue safe ↔ (FreeWithin (tree_of g.now) (Contains bound.now)
        × FreeWithin (tree_of h.now) (Contains bound.now)
        × Safe (tree_of g.now) (Contains bound.now)
        × Safe (tree_of h.now) (Contains bound.now))) }
{
    if is_safe_test(alloc, g, bound)? {
        is_safe_test(alloc, h, bound)
    } else {
        Ok(false)
    }
}

// Directly below a `forall` of these variables.
#[cycle(safety)]
fn is_safe_below(
    alloc: Global,
    xs: &[VarId],
    body: &Formula,
    bound: &[VarId],
) -> Result<bool, NoMemory>
    ensures { IfOk result (λ safe. IsTrue safe
        ↔ SafeBelow (Some xs.now) (tree_of body.now) (Contains bound.now)) }
{
    match body {
        Formula::Forall(_, ys, g) => {
            let all = joined(alloc, xs, ys.as_slice())?;
            is_safe_below(alloc, all.as_slice(), g, bound)
        }
        Formula::Implies(_, g, h) => is_safe_range(alloc, xs, g, h, bound),
        Formula::Not(_, g) => {
            if is_free_under(alloc, xs, g, bound)? {
                is_safe(alloc, g, bound)
            } else {
                Ok(false)
            }
        }
        _ => Ok(false),
    }
}

#[cycle(safety)]
fn is_safe_range(
    alloc: Global,
    xs: &[VarId],
    g: &Formula,
    h: &Formula,
    bound: &[VarId],
) -> Result<bool, NoMemory>
    ensures { IfOk result (λ safe. IsTrue safe
        ↔ (FreeUnder xs.now (tree_of g.now) (Contains bound.now)
        × FreeUnder xs.now (tree_of h.now) (Contains bound.now)
        × ((x : Variable) → Contains xs.now x → IsFree x (tree_of g.now))
        × Safe (tree_of g.now) (Contains bound.now)
        × Safe (tree_of h.now) (BoundOrFreeIn (Contains bound.now) (tree_of g.now))
        × FreeWithin (tree_of h.now) (BoundOrFreeIn (Contains bound.now) (tree_of g.now)))) }
{
    if is_free_under(alloc, xs, g, bound)?
        && is_free_under(alloc, xs, h, bound)?
        && are_free_in(alloc, xs, g)?
    {
        is_safe_test_with(alloc, g, h, bound)
    } else {
        Ok(false)
    }
}

#[cycle(safety)]
fn is_safe_test_with(
    alloc: Global,
    g: &Formula,
    h: &Formula,
    bound: &[VarId],
) -> Result<bool, NoMemory>
    ensures { IfOk result (λ safe. IsTrue safe ↔ (Safe (tree_of g.now) (Contains bound.now)
        × (FreeWithin (tree_of h.now) (BoundOrFreeIn (Contains bound.now) (tree_of g.now))
        × Safe (tree_of h.now) (BoundOrFreeIn (Contains bound.now) (tree_of g.now))))) }
{
    if is_safe(alloc, g, bound)? {
        let all = with_free(alloc, bound, g)?;
        is_safe_test(alloc, h, all.as_slice())
    } else {
        Ok(false)
    }
}

#[cycle(safety)]
fn is_safe_history(alloc: Global, g: &Formula, bound: &[VarId]) -> Result<bool, NoMemory>
    ensures { IfOk result (λ safe. IsTrue safe ↔ (FreeWithin (tree_of g.now) (Contains bound.now)
        × Safe (denial (tree_of g.now)) NoneBound)) }
{
    if is_free_within(alloc, g, bound)? {
        is_safe_denial(alloc, g)
    } else {
        Ok(false)
    }
}

#[cycle(safety)]
fn is_safe_denial(alloc: Global, g: &Formula) -> Result<bool, NoMemory>
    ensures { IfOk result (λ safe. IsTrue safe ↔ Safe (denial (tree_of g.now)) NoneBound) }
{
    match g {
        Formula::Not(_, h) => is_safe(alloc, h, &[]),
        Formula::Implies(_, a, b) => is_safe_test_with(alloc, a, b, &[]),
        _ => is_safe_test(alloc, g, &[]),
    }
}

fn is_bound(term: &Term, bound: &[VarId]) -> bool
    ensures { IsTrue result ↔ IsBoundIn (Contains bound.now) term.now }
{
    match term {
        Term::Var(x) => bound.contains(x),
        Term::Const(_) => true,
    }
}

fn assigns(s: &Term, t: &Term, bound: &[VarId]) -> bool
    ensures { IsTrue result ↔ Assigns (Contains bound.now) s.now t.now }
{
    match s {
        Term::Var(x) => !bound.contains(x) && is_bound(t, bound),
        Term::Const(_) => false,
    }
}

fn is_safe_equality(s: &Term, t: &Term, bound: &[VarId]) -> bool
    ensures { IsTrue result ↔ ((IsBoundIn (Contains bound.now) s.now
        × IsBoundIn (Contains bound.now) t.now)
        ⊎ (Assigns (Contains bound.now) s.now t.now ⊎ Assigns (Contains bound.now) t.now s.now)) }
{
    is_bound(s, bound) && is_bound(t, bound) || assigns(s, t, bound) || assigns(t, s, bound)
}
