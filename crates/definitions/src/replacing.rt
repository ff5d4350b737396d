//! Formulas without defined names.
ghost use Rattle.std.specs.Prelude.{◌≡◌, ◌+◌, ◌<◌, ◌^◌, IfOk, OnOk, length, map};
ghost use Rattle.count_guard.specs.machine.StoredCopies.{substitution_of};
ghost use Rattle.count_guard.specs.meaning.FormulaCopies.{new_variables, term_given, with_new_variables};
ghost use Rattle.definitions.specs.machine.StoredTables.{table_of};
ghost use Rattle.definitions.specs.meaning.UnfoldedFormulas.{atom_count, atom_unfolded, unfolded, unfolded_count};
ghost use Rattle.enf_data.specs.declared.terms.Term.TheVariants.{Var as Variable};
ghost use Rattle.enf_formula.specs.machine.FormulaViews.{tree_of};

use crate::tables::Table;
use count_guard::copying::{as_terms, copied, numbered};
use count_guard::substitution::Given;
use enf_data::events::NameId;
use enf_data::memory::NoMemory;
use enf_data::places::Place;
use enf_data::terms::{Terms, VarId, Vars};
use enf_formula::Formula;
use std::alloc::Global;

// Replaces the names that a table defines.
#[derive(Clone, Copy)]
struct Replacer<'a> {
    alloc: Global,
    table: &'a Table,
}

/// The formula with each atom of a defined name replaced by a copy of what the name says. Its quantifiers bind variables
/// that are numbered from `next` on, which is then the first variable after them.
pub fn replaced(
    alloc: Global,
    table: &Table,
    next: &mut u32,
    formula: &Formula,
) -> Result<Formula, NoMemory>
    requires { next.old + unfolded_count (table_of table.now) (tree_of formula.now) < 2 ^ 32 }
    ensures formula { IfOk result (λ made. tree_of made
        ≡ unfolded (table_of table.now) Variable next.old (tree_of formula.now)) }
    ensures next { OnOk result
        (next.new ≡ next.old + unfolded_count (table_of table.now) (tree_of formula.now)) }
{
    let replacer = Replacer { alloc, table };
    replacer.replace(&Given::Own, next, formula)
}

impl Replacer<'_> {
    // An atom, or what stands in its place.
    fn atom(
        &self,
        next: &mut u32,
        place: Place,
        name: NameId,
        terms: Terms,
    ) -> Result<Formula, NoMemory>
        requires { next.old + atom_count (table_of self.now.table.now name) < 2 ^ 32 }
        ensures formula { IfOk result (λ made. tree_of made
            ≡ atom_unfolded (table_of self.now.table.now name) place name terms next.old) }
        ensures next { OnOk result (next.new ≡ next.old + atom_count (table_of self.now.table.now name)) }
    {
        match self.table.get(name) {
            None => Ok(Formula::Atom(place, name, terms)),
            Some(meant) => copied(
                self.alloc,
                place,
                meant.params.as_slice(),
                terms.as_slice(),
                next,
                &meant.formula,
            ),
        }
    }

    #[cycle(replaced_all)]
    fn replace(
        &self,
        given: &Given<'_>,
        next: &mut u32,
        formula: &Formula,
    ) -> Result<Formula, NoMemory>
        requires { next.old + unfolded_count (table_of self.now.table.now) (tree_of formula.now) < 2 ^ 32 }
        ensures formula { IfOk result (λ made. tree_of made
            ≡ unfolded (table_of self.now.table.now) (substitution_of given.now) next.old (tree_of formula.now)) }
        ensures next { OnOk result
            (next.new ≡ next.old + unfolded_count (table_of self.now.table.now) (tree_of formula.now)) }
    {
        match formula {
            Formula::True(place) => Ok(Formula::True(*place)),
            Formula::False(place) => Ok(Formula::False(*place)),
            Formula::Atom(place, name, terms) => {
                let terms = given.terms(self.alloc, terms.as_slice())?;
                self.atom(next, *place, *name, terms)
            }
            Formula::Equal(place, s, t) => {
                let (s, t) = given.pair(self.alloc, s, t)?;
                Ok(Formula::Equal(*place, s, t))
            }
            Formula::Less(place, s, t) => {
                let (s, t) = given.pair(self.alloc, s, t)?;
                Ok(Formula::Less(*place, s, t))
            }
            Formula::AtMost(place, s, t) => {
                let (s, t) = given.pair(self.alloc, s, t)?;
                Ok(Formula::AtMost(*place, s, t))
            }
            Formula::Not(place, f) => Ok(Formula::Not(*place, self.boxed(given, next, f)?)),
            Formula::And(place, f, g) => {
                let (f, g) = self.both(given, next, f, g)?;
                Ok(Formula::And(*place, f, g))
            }
            Formula::Or(place, f, g) => {
                let (f, g) = self.both(given, next, f, g)?;
                Ok(Formula::Or(*place, f, g))
            }
            Formula::Implies(place, f, g) => {
                let (f, g) = self.both(given, next, f, g)?;
                Ok(Formula::Implies(*place, f, g))
            }
            Formula::Exists(place, xs, f) => {
                let (xs, f) = self.bound(given, next, xs.as_slice(), f)?;
                Ok(Formula::Exists(*place, xs, f))
            }
            Formula::Forall(place, xs, f) => {
                let (xs, f) = self.bound(given, next, xs.as_slice(), f)?;
                Ok(Formula::Forall(*place, xs, f))
            }
            Formula::Prev(place, interval, f) => Ok(Formula::Prev(
                *place,
                *interval,
                self.boxed(given, next, f)?,
            )),
            Formula::Next(place, interval, f) => Ok(Formula::Next(
                *place,
                *interval,
                self.boxed(given, next, f)?,
            )),
            Formula::Once(place, interval, f) => Ok(Formula::Once(
                *place,
                *interval,
                self.boxed(given, next, f)?,
            )),
            Formula::Historically(place, interval, f) => Ok(Formula::Historically(
                *place,
                *interval,
                self.boxed(given, next, f)?,
            )),
            Formula::Since(place, interval, f, g) => {
                let (f, g) = self.both(given, next, f, g)?;
                Ok(Formula::Since(*place, *interval, f, g))
            }
            Formula::Eventually(place, interval, f) => Ok(Formula::Eventually(
                *place,
                *interval,
                self.boxed(given, next, f)?,
            )),
            Formula::Always(place, interval, f) => Ok(Formula::Always(
                *place,
                *interval,
                self.boxed(given, next, f)?,
            )),
            Formula::Until(place, interval, f, g) => {
                let (f, g) = self.both(given, next, f, g)?;
                Ok(Formula::Until(*place, *interval, f, g))
            }
        }
    }

    #[cycle(replaced_all)]
    fn boxed(
        &self,
        given: &Given<'_>,
        next: &mut u32,
        formula: &Formula,
    ) -> Result<Box<Formula>, NoMemory>
        requires { next.old + unfolded_count (table_of self.now.table.now) (tree_of formula.now) < 2 ^ 32 }
        ensures formula { IfOk result (λ made. tree_of made.value
            ≡ unfolded (table_of self.now.table.now) (substitution_of given.now) next.old (tree_of formula.now)) }
        ensures next { OnOk result
            (next.new ≡ next.old + unfolded_count (table_of self.now.table.now) (tree_of formula.now)) }
    {
        let made = self.replace(given, next, formula)?;
        Ok(Box::new(self.alloc, made)?)
    }

    // Two operands in turn.
    #[cycle(replaced_all)]
    fn both(
        &self,
        given: &Given<'_>,
        next: &mut u32,
        left: &Formula,
        right: &Formula,
    ) -> Result<(Box<Formula>, Box<Formula>), NoMemory>
        requires { next.old + (unfolded_count (table_of self.now.table.now) (tree_of left.now)
            + unfolded_count (table_of self.now.table.now) (tree_of right.now)) < 2 ^ 32 }
        ensures left { IfOk result (λ made. tree_of made.0.value
            ≡ unfolded (table_of self.now.table.now) (substitution_of given.now) next.old (tree_of left.now)) }
        ensures right { IfOk result (λ made. tree_of made.1.value
            ≡ unfolded (table_of self.now.table.now) (substitution_of given.now)
            (next.old + unfolded_count (table_of self.now.table.now) (tree_of left.now)) (tree_of right.now)) }
        ensures next { OnOk result
            (next.new ≡ next.old + (unfolded_count (table_of self.now.table.now) (tree_of left.now)
            + unfolded_count (table_of self.now.table.now) (tree_of right.now))) }
    {
        let left = self.boxed(given, next, left)?;
        let right = self.boxed(given, next, right)?;
        Ok((left, right))
    }

    // New variables for those of a quantifier, and the formula in which they are in scope.
    #[cycle(replaced_all)]
    fn bound(
        &self,
        given: &Given<'_>,
        next: &mut u32,
        xs: &[VarId],
        formula: &Formula,
    ) -> Result<(Vars, Box<Formula>), NoMemory>
        requires { next.old + (length xs.now
            + unfolded_count (table_of self.now.table.now) (tree_of formula.now)) < 2 ^ 32 }
        ensures variables { IfOk result (λ bound. bound.0 ≡ new_variables next.old xs.now) }
        ensures formula { IfOk result (λ bound. tree_of bound.1.value
            ≡ unfolded (table_of self.now.table.now)
            (with_new_variables next.old xs.now (substitution_of given.now))
            (next.old + length xs.now) (tree_of formula.now)) }
        ensures next { OnOk result (next.new ≡ next.old + (length xs.now
            + unfolded_count (table_of self.now.table.now) (tree_of formula.now))) }
    {
        let count = xs.len() as u32;
        let new = numbered(self.alloc, *next, count)?;
        *next += count;
        let terms = as_terms(self.alloc, new.as_slice())?;
        let inner = Given::With(&*given, &*xs, terms.as_slice());
        let made = self.boxed(&inner, next, formula)?;
        Ok((new, made))
    }
}
