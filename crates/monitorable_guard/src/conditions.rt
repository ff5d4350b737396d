//! What it takes to evaluate a formula, decided.
ghost use Rattle.std.specs.Prelude.{◌≡◌, ◌≤◌, ◌↔◌, ◌⊎◌, [], ◌∷◌, length, IfOk, IsTrue};
ghost use Rattle.std.specs.Prelude.{Contains};
ghost use Rattle.enf_formula.specs.machine.FormulaViews.{tree_of};
ghost use Rattle.enf_data.specs.declared.terms.VarId.{VarId as Variable};
ghost use Rattle.monitorable_guard.specs.machine.Evaluation.{FitOperators};
ghost use Rattle.monitorable_guard.specs.machine.PresentMeaning.{tables_beyond, outermost};
ghost use Rattle.enf_formula.specs.machine.FormulaShape.{BindsFresh};

use crate::operators::operators;
use crate::scopes::{are_same, is_in, joined};
use enf_data::memory::NoMemory;
use enf_data::terms::VarId;
use enf_formula::Formula;
use std::alloc::Global;
use valuations::Table;

// Whether no quantifier binds a variable that is in scope where it stands.
#[cycle(fresh)]
pub fn is_fresh(alloc: Global, formula: &Formula, scope: &[VarId]) -> Result<bool, NoMemory>
    ensures { IfOk result (λ fresh. IsTrue fresh
        ↔ BindsFresh (tree_of formula.now) (Contains scope.now)) }
{
    match formula {
        Formula::True(_)
        | Formula::False(_)
        | Formula::Atom(_, _, _)
        | Formula::Equal(_, _, _)
        | Formula::Less(_, _, _)
        | Formula::AtMost(_, _, _) => Ok(true),
        Formula::Not(_, g) => is_fresh(alloc, g, scope),
        Formula::Prev(_, _, g)
        | Formula::Next(_, _, g)
        | Formula::Once(_, _, g)
        | Formula::Historically(_, _, g)
        | Formula::Eventually(_, _, g)
        | Formula::Always(_, _, g) => is_fresh(alloc, g, scope),
        Formula::And(_, g, h) | Formula::Or(_, g, h) | Formula::Implies(_, g, h) => {
            are_fresh(alloc, g, h, scope)
        }
        Formula::Since(_, _, g, h) | Formula::Until(_, _, g, h) => are_fresh(alloc, g, h, scope),
        Formula::Exists(_, xs, g) | Formula::Forall(_, xs, g) => {
            is_fresh_below(alloc, xs.as_slice(), g, scope)
        }
    }
}

#[cycle(fresh)]
fn are_fresh(alloc: Global, g: &Formula, h: &Formula, scope: &[VarId]) -> Result<bool, NoMemory>
    ensures { IfOk result (λ fresh. IsTrue fresh
        ↔ (BindsFresh (tree_of g.now) (Contains scope.now)
        × BindsFresh (tree_of h.now) (Contains scope.now))) }
{
    if is_fresh(alloc, g, scope)? {
        is_fresh(alloc, h, scope)
    } else {
        Ok(false)
    }
}

// Below a quantifier of these variables.
#[cycle(fresh)]
fn is_fresh_below(
    alloc: Global,
    xs: &[VarId],
    body: &Formula,
    scope: &[VarId],
) -> Result<bool, NoMemory>
    ensures { IfOk result (λ fresh. IsTrue fresh
        ↔ (((x : Variable) → Contains xs.now x → Contains scope.now x → ⊥)
        × BindsFresh (tree_of body.now) (λ x. Contains scope.now x ⊎ Contains xs.now x))) }
{
    if are_apart(xs, scope) {
        let all = joined(alloc, scope, xs)?;
        is_fresh(alloc, body, all.as_slice())
    } else {
        Ok(false)
    }
}

fn are_apart(xs: &[VarId], others: &[VarId]) -> bool
    ensures { IsTrue result
        ↔ ((x : Variable) → Contains xs.now x → Contains others.now x → ⊥) }
{
    for x in xs {
        if is_in(*x, others) {
            return false;
        }
    }
    true
}

// Whether there are tables for the outermost operators on the past, with the columns that they should have.
#[cycle(fitting)]
pub fn fits(alloc: Global, formula: &Formula, tables: &[Table]) -> Result<bool, NoMemory>
    ensures { IfOk result (λ fits. IsTrue fits
        ↔ FitOperators (outermost (tree_of formula.now)) tables.now) }
{
    match formula {
        Formula::True(_)
        | Formula::False(_)
        | Formula::Atom(_, _, _)
        | Formula::Equal(_, _, _)
        | Formula::Less(_, _, _)
        | Formula::AtMost(_, _, _)
        | Formula::Next(_, _, _)
        | Formula::Eventually(_, _, _)
        | Formula::Always(_, _, _)
        | Formula::Until(_, _, _, _) => Ok(true),
        Formula::Not(_, g) | Formula::Exists(_, _, g) | Formula::Forall(_, _, g) => {
            fits(alloc, g, tables)
        }
        Formula::And(_, g, h) | Formula::Or(_, g, h) | Formula::Implies(_, g, h) => {
            fit_both(alloc, g, h, tables)
        }
        Formula::Prev(_, _, _)
        | Formula::Once(_, _, _)
        | Formula::Historically(_, _, _)
        | Formula::Since(_, _, _, _) => first_fits(alloc, formula, tables),
    }
}

#[cycle(fitting)]
fn fit_both(alloc: Global, g: &Formula, h: &Formula, tables: &[Table]) -> Result<bool, NoMemory>
    ensures { IfOk result (λ fit. IsTrue fit
        ↔ (FitOperators (outermost (tree_of g.now)) tables.now
        × FitOperators (outermost (tree_of h.now)) (tables_beyond (tree_of g.now) tables.now))) }
{
    if fits(alloc, g, tables)? {
        fits(alloc, h, tables_behind(g, tables))
    } else {
        Ok(false)
    }
}

// The tables after those of the formula.
fn tables_behind<'t>(formula: &Formula, tables: &'t [Table]) -> &'t [Table]
    requires { length (outermost (tree_of formula.now)) ≤ length tables.now }
    ensures { result.now ≡ tables_beyond (tree_of formula.now) tables.now }
{
    &tables[operators(formula)..]
}

// Whether there is a first table, whose columns are the formula's free variables.
fn first_fits(alloc: Global, formula: &Formula, tables: &[Table]) -> Result<bool, NoMemory>
    ensures { IfOk result (λ fits. IsTrue fits
        ↔ FitOperators (tree_of formula.now ∷ []) tables.now) }
{
    let Some(first) = tables.first() else {
        return Ok(false);
    };
    let free = formula.free_vars(alloc)?;
    Ok(are_same(free.as_slice(), first.columns().as_slice()))
}
