//! The free variables of formulas, against those that are bound.
ghost use Rattle.std.specs.Prelude.{◌≡◌, ◌↔◌, ◌++◌, IfOk, OnOk, IsTrue, All, Contains};
ghost use Rattle.enf_formula.specs.machine.FormulaViews.{tree_of};
ghost use Rattle.enf_formula.specs.machine.Variables.{AddsVariables};
ghost use Rattle.enf_formula.specs.meaning.Satisfaction.{IsFree};
ghost use Rattle.enf_data.specs.declared.terms.Term.TheVariants.{Var};
ghost use Rattle.enf_data.specs.declared.terms.VarId.{VarId as Variable};
ghost use Rattle.monitorable_guard.specs.meaning.Safety.{BoundOrFreeIn, FreeWithin, FreeAlike, FreeUnder};

use enf_data::memory::NoMemory;
use enf_data::terms::{Term, VarId};
use enf_formula::Formula;
use std::alloc::Global;

pub fn is_free_within(alloc: Global, formula: &Formula, bound: &[VarId]) -> Result<bool, NoMemory>
    ensures { IfOk result (λ within. IsTrue within
        ↔ FreeWithin (tree_of formula.now) (Contains bound.now)) }
{
    match formula {
        Formula::Atom(_, _, terms) => Ok(are_terms_within(terms.as_slice(), bound)),
        Formula::And(_, g, h) => {
            Ok(is_free_within(alloc, g, bound)? && is_free_within(alloc, h, bound)?)
        }
        _ => {
            let free = formula.free_vars(alloc)?;
            Ok(are_all_in(free.as_slice(), bound))
        }
    }
}

// Whether each of the terms that is a variable is bound.
fn are_terms_within(terms: &[Term], bound: &[VarId]) -> bool
    ensures { IsTrue result ↔ ((x : Variable) → Contains terms.now (Var x) → Contains bound.now x) }
{
    for term in terms {
        if let Term::Var(x) = term {
            if !is_in(*x, bound) {
                return false;
            }
        }
    }
    true
}

// Whether each free variable of the body is one of these or bound.
pub fn is_free_under(
    alloc: Global,
    xs: &[VarId],
    body: &Formula,
    bound: &[VarId],
) -> Result<bool, NoMemory>
    ensures { IfOk result (λ within. IsTrue within
        ↔ FreeUnder xs.now (tree_of body.now) (Contains bound.now)) }
{
    let all = joined(alloc, xs, bound)?;
    is_free_within(alloc, body, all.as_slice())
}

// Whether the variables are free in the formula.
pub fn are_free_in(alloc: Global, xs: &[VarId], formula: &Formula) -> Result<bool, NoMemory>
    ensures { IfOk result (λ all. IsTrue all
        ↔ ((x : Variable) → Contains xs.now x → IsFree x (tree_of formula.now))) }
{
    let free = formula.free_vars(alloc)?;
    Ok(are_all_in(xs, free.as_slice()))
}

// Whether each variable that is not bound is free in both or in none.
pub fn is_free_alike(
    alloc: Global,
    g: &Formula,
    h: &Formula,
    bound: &[VarId],
) -> Result<bool, NoMemory>
    ensures { IfOk result (λ alike. IsTrue alike
        ↔ FreeAlike (Contains bound.now) (tree_of g.now) (tree_of h.now)) }
{
    let left = with_free(alloc, bound, g)?;
    let right = with_free(alloc, bound, h)?;
    Ok(are_same(left.as_slice(), right.as_slice()))
}

// The variables that are bound, and those that are free in the formula.
pub fn with_free(alloc: Global, bound: &[VarId], formula: &Formula) -> Result<Vec<VarId>, NoMemory>
    ensures { IfOk result (λ all. (x : Variable) → Contains all.items x
        ↔ BoundOrFreeIn (Contains bound.now) (tree_of formula.now) x) }
{
    let mut all = Vec::from_slice(alloc, bound)?;
    add_free(alloc, formula, &mut all)?;
    Ok(all)
}

// Adds the variables that are free in the formula.
fn add_free(alloc: Global, formula: &Formula, all: &mut Vec<VarId>) -> Result<(), NoMemory>
    ensures { OnOk result (AddsVariables (λ x. IsFree x (tree_of formula.now)) all.old.items all.new.items) }
{
    match formula {
        Formula::Atom(_, _, terms) => add_terms(terms.as_slice(), all),
        Formula::And(_, g, h) => {
            add_free(alloc, g, all)?;
            add_free(alloc, h, all)
        }
        _ => {
            let free = formula.free_vars(alloc)?;
            add_each(free.as_slice(), all)
        }
    }
}

// Adds the terms that are variables.
fn add_terms(terms: &[Term], all: &mut Vec<VarId>) -> Result<(), NoMemory>
    ensures { OnOk result (AddsVariables (λ x. Contains terms.now (Var x)) all.old.items all.new.items) }
{
    for term in terms {
        add_term(term, all)?;
    }
    Ok(())
}

// Adds a term that is a variable.
fn add_term(term: &Term, all: &mut Vec<VarId>) -> Result<(), NoMemory>
    ensures { OnOk result (AddsVariables (λ x. term.now ≡ Var x) all.old.items all.new.items) }
{
    match term {
        Term::Var(x) => add_new(*x, all),
        Term::Const(_) => Ok(()),
    }
}

// Adds the variables.
fn add_each(xs: &[VarId], all: &mut Vec<VarId>) -> Result<(), NoMemory>
    ensures { OnOk result (AddsVariables (Contains xs.now) all.old.items all.new.items) }
{
    for x in xs {
        add_new(*x, all)?;
    }
    Ok(())
}

// Adds a variable where it is not there yet: a scope stays as short as the variables are few.
fn add_new(x: VarId, all: &mut Vec<VarId>) -> Result<(), NoMemory>
    ensures { OnOk result (AddsVariables (λ y. y ≡ x) all.old.items all.new.items) }
{
    if !is_in(x, all.as_slice()) {
        all.push(x)?;
    }
    Ok(())
}

pub fn joined(alloc: Global, front: &[VarId], back: &[VarId]) -> Result<Vec<VarId>, NoMemory>
    ensures { IfOk result (λ all. all.items ≡ front.now ++ back.now) }
{
    let mut all = Vec::from_slice(alloc, front)?;
    all.extend_from_slice(back)?;
    Ok(all)
}

// Whether the same variables are in both.
pub fn are_same(xs: &[VarId], others: &[VarId]) -> bool
    ensures { IsTrue result
        ↔ (All (Contains others.now) xs.now × All (Contains xs.now) others.now) }
{
    are_all_in(xs, others) && are_all_in(others, xs)
}

fn are_all_in(xs: &[VarId], others: &[VarId]) -> bool
    ensures { IsTrue result ↔ All (Contains others.now) xs.now }
{
    for x in xs {
        if !is_in(*x, others) {
            return false;
        }
    }
    true
}

pub fn is_in(x: VarId, variables: &[VarId]) -> bool
    ensures { IsTrue result ↔ Contains variables.now x }
{
    variables.contains(&x)
}
