//! Copies of formulas.
ghost use Rattle.std.specs.Prelude.{◌≡◌, ◌+◌, ◌<◌, ◌^◌, IfOk, OnOk, length, map};
ghost use Rattle.count_guard.specs.machine.StoredCopies.{substitution_of};
ghost use Rattle.count_guard.specs.meaning.FormulaCopies.{bound_count, copy_of, new_variables as fresh};
ghost use Rattle.count_guard.specs.meaning.FormulaCopies.{with_new_variables, with_terms};
ghost use Rattle.enf_data.specs.declared.terms.Term.TheVariants.{Var as Variable};
ghost use Rattle.enf_formula.specs.machine.FormulaViews.{tree_of};
ghost use Rattle.enf_formula.specs.machine.Variables.{numbered_variables};

use crate::substitution::Given;
use enf_data::memory::NoMemory;
use enf_data::places::Place;
use enf_data::terms::{Term, VarId, Vars};
use enf_formula::Formula;
use std::alloc::Global;

// Copies formulas to one place.
#[derive(Clone, Copy)]
struct Copier {
    alloc: Global,
    at: Place,
}

/// So many variables, numbered from a number on.
pub fn numbered(alloc: Global, first: u32, count: u32) -> Result<Vars, NoMemory>
    requires { first + count < 2 ^ 32 }
    ensures { IfOk result (λ xs. xs ≡ numbered_variables first count) }
{
    let mut xs = Vec::with_capacity(alloc, count as usize)?;
    for number in first..first + count {
        xs.push(VarId(number))?;
    }
    Ok(Vars::from_vec(xs))
}

/// The formula with these terms in the places of these variables. Its quantifiers bind variables that are numbered from
/// `next` on, which is then the first variable after them; all its nodes are at one place.
pub fn copied(
    alloc: Global,
    at: Place,
    xs: &[VarId],
    terms: &[Term],
    next: &mut u32,
    formula: &Formula,
) -> Result<Formula, NoMemory>
    requires { next.old + bound_count (tree_of formula.now) < 2 ^ 32 }
    ensures copy { IfOk result
        (λ copy. tree_of copy ≡ copy_of at (with_terms xs.now terms.now Variable) next.old (tree_of formula.now)) }
    ensures next { OnOk result (next.new ≡ next.old + bound_count (tree_of formula.now)) }
{
    let copier = Copier { alloc, at };
    copier.copy(&Given::With(&Given::Own, xs, terms), next, formula)
}

/// The variables as terms.
pub fn as_terms(alloc: Global, xs: &[VarId]) -> Result<Vec<Term>, NoMemory>
    ensures { IfOk result (λ terms. terms.items ≡ map Variable xs.now) }
{
    let mut terms = Vec::with_capacity(alloc, xs.len())?;
    for x in xs {
        terms.push(Term::Var(*x))?;
    }
    Ok(terms)
}

impl Copier {
    #[cycle(copies)]
    fn copy(
        &self,
        given: &Given<'_>,
        next: &mut u32,
        formula: &Formula,
    ) -> Result<Formula, NoMemory>
        requires { next.old + bound_count (tree_of formula.now) < 2 ^ 32 }
        ensures copy { IfOk result (λ copy. tree_of copy
            ≡ copy_of self.now.at (substitution_of given.now) next.old (tree_of formula.now)) }
        ensures next { OnOk result (next.new ≡ next.old + bound_count (tree_of formula.now)) }
    {
        let at = self.at;
        match formula {
            Formula::True(_) => Ok(Formula::True(at)),
            Formula::False(_) => Ok(Formula::False(at)),
            Formula::Atom(_, name, terms) => {
                Ok(Formula::Atom(at, *name, given.terms(self.alloc, terms.as_slice())?))
            }
            Formula::Equal(_, s, t) => {
                let (s, t) = given.pair(self.alloc, s, t)?;
                Ok(Formula::Equal(at, s, t))
            }
            Formula::Less(_, s, t) => {
                let (s, t) = given.pair(self.alloc, s, t)?;
                Ok(Formula::Less(at, s, t))
            }
            Formula::AtMost(_, s, t) => {
                let (s, t) = given.pair(self.alloc, s, t)?;
                Ok(Formula::AtMost(at, s, t))
            }
            Formula::Not(_, f) => Ok(Formula::Not(at, self.boxed(given, next, f)?)),
            Formula::And(_, f, g) => {
                let (f, g) = self.both(given, next, f, g)?;
                Ok(Formula::And(at, f, g))
            }
            Formula::Or(_, f, g) => {
                let (f, g) = self.both(given, next, f, g)?;
                Ok(Formula::Or(at, f, g))
            }
            Formula::Implies(_, f, g) => {
                let (f, g) = self.both(given, next, f, g)?;
                Ok(Formula::Implies(at, f, g))
            }
            Formula::Exists(_, xs, f) => {
                let (xs, f) = self.bound(given, next, xs.as_slice(), f)?;
                Ok(Formula::Exists(at, xs, f))
            }
            Formula::Forall(_, xs, f) => {
                let (xs, f) = self.bound(given, next, xs.as_slice(), f)?;
                Ok(Formula::Forall(at, xs, f))
            }
            Formula::Prev(_, interval, f) => {
                Ok(Formula::Prev(at, *interval, self.boxed(given, next, f)?))
            }
            Formula::Next(_, interval, f) => {
                Ok(Formula::Next(at, *interval, self.boxed(given, next, f)?))
            }
            Formula::Once(_, interval, f) => {
                Ok(Formula::Once(at, *interval, self.boxed(given, next, f)?))
            }
            Formula::Historically(_, interval, f) => {
                Ok(Formula::Historically(at, *interval, self.boxed(given, next, f)?))
            }
            Formula::Since(_, interval, f, g) => {
                let (f, g) = self.both(given, next, f, g)?;
                Ok(Formula::Since(at, *interval, f, g))
            }
            Formula::Eventually(_, interval, f) => {
                Ok(Formula::Eventually(at, *interval, self.boxed(given, next, f)?))
            }
            Formula::Always(_, interval, f) => {
                Ok(Formula::Always(at, *interval, self.boxed(given, next, f)?))
            }
            Formula::Until(_, interval, f, g) => {
                let (f, g) = self.both(given, next, f, g)?;
                Ok(Formula::Until(at, *interval, f, g))
            }
        }
    }

    #[cycle(copies)]
    fn boxed(
        &self,
        given: &Given<'_>,
        next: &mut u32,
        formula: &Formula,
    ) -> Result<Box<Formula>, NoMemory>
        requires { next.old + bound_count (tree_of formula.now) < 2 ^ 32 }
        ensures copy { IfOk result (λ copy. tree_of copy.value
            ≡ copy_of self.now.at (substitution_of given.now) next.old (tree_of formula.now)) }
        ensures next { OnOk result (next.new ≡ next.old + bound_count (tree_of formula.now)) }
    {
        let copy = self.copy(given, next, formula)?;
        Ok(Box::new(self.alloc, copy)?)
    }

    // Two operands in turn.
    #[cycle(copies)]
    fn both(
        &self,
        given: &Given<'_>,
        next: &mut u32,
        left: &Formula,
        right: &Formula,
    ) -> Result<(Box<Formula>, Box<Formula>), NoMemory>
        requires { next.old + (bound_count (tree_of left.now) + bound_count (tree_of right.now)) < 2 ^ 32 }
        ensures left { IfOk result (λ copies. tree_of copies.0.value
            ≡ copy_of self.now.at (substitution_of given.now) next.old (tree_of left.now)) }
        ensures right { IfOk result (λ copies. tree_of copies.1.value
            ≡ copy_of self.now.at (substitution_of given.now) (next.old + bound_count (tree_of left.now))
            (tree_of right.now)) }
        ensures next { OnOk result
            (next.new ≡ next.old + (bound_count (tree_of left.now) + bound_count (tree_of right.now))) }
    {
        let left = self.boxed(given, next, left)?;
        let right = self.boxed(given, next, right)?;
        Ok((left, right))
    }

    // New variables for those of a quantifier, and the formula in which they are in scope.
    #[cycle(copies)]
    fn bound(
        &self,
        given: &Given<'_>,
        next: &mut u32,
        xs: &[VarId],
        formula: &Formula,
    ) -> Result<(Vars, Box<Formula>), NoMemory>
        requires { next.old + (length xs.now + bound_count (tree_of formula.now)) < 2 ^ 32 }
        ensures variables { IfOk result (λ bound. bound.0 ≡ fresh next.old xs.now) }
        ensures copy { IfOk result (λ bound. tree_of bound.1.value
            ≡ copy_of self.now.at (with_new_variables next.old xs.now (substitution_of given.now))
            (next.old + length xs.now) (tree_of formula.now)) }
        ensures next { OnOk result
            (next.new ≡ next.old + (length xs.now + bound_count (tree_of formula.now))) }
    {
        let count = xs.len() as u32;
        let new = numbered(self.alloc, *next, count)?;
        *next += count;
        let terms = as_terms(self.alloc, new.as_slice())?;
        let inner = Given::With(&*given, &*xs, terms.as_slice());
        let copy = self.boxed(&inner, next, formula)?;
        Ok((new, copy))
    }
}
