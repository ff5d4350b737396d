//! Counts as formulas.
ghost use Rattle.std.specs.Prelude.{◌≡◌, ◌≤◌, ◌+◌, ◌*◌, ◌<◌, ◌^◌, ◌++◌, IfOk, OnOk, length, map};
ghost use Rattle.count_guard.specs.meaning.CountFormulas.{after_copies, after_count, all_of as conjunction_of};
ghost use Rattle.count_guard.specs.meaning.CountFormulas.{at_least as at_least_of, count_as, different_copies};
ghost use Rattle.count_guard.specs.meaning.CountFormulas.{differs_from, equal_pairs};
ghost use Rattle.count_guard.specs.meaning.FormulaCopies.{bound_count, copy_of, with_terms};
ghost use Rattle.enf_data.specs.declared.terms.Term.TheVariants.{Var as Variable};
ghost use Rattle.enf_formula.specs.meaning.Satisfaction.{Not as Never};
ghost use Rattle.enf_formula.specs.machine.FormulaViews.{tree_of};
ghost use Rattle.enf_formula.specs.machine.Variables.{numbered_variables};

use crate::copying::{as_terms, copied, numbered};
use enf_data::memory::NoMemory;
use enf_data::places::Place;
use enf_data::terms::{Term, VarId, Vars};
use enf_formula::Formula;
use std::alloc::Global;

/// What is said of a number.
#[derive(Clone, Copy, Debug, PartialEq, Eq)]
pub enum CountKind {
    AtLeast,
    AtMost,
    Exactly,
}

/// What is counted, and where the formula stands.
#[derive(Clone, Copy)]
struct Counter<'a> {
    alloc: Global,
    at: Place,
    counted: &'a [VarId],
    body: &'a Formula,
}

/// The formula that says that there are so many lists of values for the counted variables with which the body holds, and
/// the first variable that is still unused. Its quantifiers bind variables that are numbered from `next` on.
pub fn count_formula(
    alloc: Global,
    kind: CountKind,
    k: u32,
    counted: &Vars,
    body: &Formula,
    next: VarId,
    place: Place,
) -> Result<(Formula, VarId), NoMemory>
    requires from_1 { 1 ≤ k }
    requires to_9 { k ≤ 9 }
    requires room { after_count kind k counted.now (tree_of body.now) next.0 < 2 ^ 32 }
    ensures formula { IfOk result
        (λ made. tree_of made.0 ≡ count_as kind k counted.now (tree_of body.now) next.0 place) }
    ensures unused { IfOk result (λ made. made.1.0 ≡ after_count kind k counted.now (tree_of body.now) next.0) }
{
    let counter = Counter {
        alloc,
        at: place,
        counted: counted.as_slice(),
        body,
    };
    let mut unused = next.0;
    let formula = match kind {
        CountKind::AtLeast => counter.at_least(k, &mut unused)?,
        CountKind::AtMost => counter.at_most(k, &mut unused)?,
        CountKind::Exactly => {
            let lower = Box::new(alloc, counter.at_least(k, &mut unused)?)?;
            let upper = Box::new(alloc, counter.at_most(k, &mut unused)?)?;
            Formula::And(place, lower, upper)
        }
    };
    Ok((formula, VarId(unused)))
}

impl Counter<'_> {
    // That there are so many, in new variables.
    fn at_least(&self, k: u32, next: &mut u32) -> Result<Formula, NoMemory>
        requires from_1 { 1 ≤ k }
        requires room { after_copies next.old self.now.counted.now (tree_of self.now.body.now) k < 2 ^ 32 }
        ensures formula { IfOk result (λ made. tree_of made
            ≡ at_least_of self.now.at next.old self.now.counted.now (tree_of self.now.body.now) k) }
        ensures unused { OnOk result
            (next.new ≡ after_copies next.old self.now.counted.now (tree_of self.now.body.now) k) }
    {
        let first = *next;
        let count = k * self.counted.len() as u32;
        *next += count;
        let parts = self.different(k, first, next)?;
        let whole = conjunction(self.alloc, self.at, parts)?;
        let xs = numbered(self.alloc, first, count)?;
        Ok(Formula::Exists(self.at, xs, Box::new(self.alloc, whole)?))
    }

    // That there are no more than so many, in new variables.
    fn at_most(&self, k: u32, next: &mut u32) -> Result<Formula, NoMemory>
        requires fits { k ≤ 9 }
        requires room { after_copies next.old self.now.counted.now (tree_of self.now.body.now) (k + 1) < 2 ^ 32 }
        ensures formula { IfOk result (λ made. tree_of made ≡ Never self.now.at
            (at_least_of self.now.at next.old self.now.counted.now (tree_of self.now.body.now) (k + 1))) }
        ensures unused { OnOk result
            (next.new ≡ after_copies next.old self.now.counted.now (tree_of self.now.body.now) (k + 1)) }
    {
        let more = self.at_least(k + 1, next)?;
        Ok(Formula::Not(self.at, Box::new(self.alloc, more)?))
    }

    // The copies of the body, each followed by what tells it from those before it. The copies of the counted variables
    // are numbered from `first` on.
    fn different(&self, k: u32, first: u32, next: &mut u32) -> Result<Vec<Formula>, NoMemory>
        requires counted { first + k * length self.now.counted.now < 2 ^ 32 }
        requires room { next.old + k * bound_count (tree_of self.now.body.now) < 2 ^ 32 }
        requires from_1 { 1 ≤ k }
        ensures parts { IfOk result (λ parts. map tree_of parts.items
            ≡ different_copies self.now.at first next.old self.now.counted.now (tree_of self.now.body.now) k) }
        ensures unused { OnOk result (next.new ≡ next.old + k * bound_count (tree_of self.now.body.now)) }
    {
        let width = self.counted.len() as u32;
        let mut parts = Vec::new(self.alloc);
        for copy in 0..k {
            parts.push(self.body_copy(first + copy * width, next)?)?;
            self.push_differences(first, copy, &mut parts)?;
        }
        Ok(parts)
    }

    // A copy of the body, of a copy of the counted variables that is numbered from `first` on.
    fn body_copy(&self, first: u32, next: &mut u32) -> Result<Formula, NoMemory>
        requires counted { first + length self.now.counted.now < 2 ^ 32 }
        requires room { next.old + bound_count (tree_of self.now.body.now) < 2 ^ 32 }
        ensures copy { IfOk result (λ copy. tree_of copy ≡ copy_of self.now.at
            (with_terms self.now.counted.now (map Variable (numbered_variables first (length self.now.counted.now))) Variable)
            next.old (tree_of self.now.body.now)) }
        ensures unused { OnOk result (next.new ≡ next.old + bound_count (tree_of self.now.body.now)) }
    {
        let xs = numbered(self.alloc, first, self.counted.len() as u32)?;
        let terms = as_terms(self.alloc, xs.as_slice())?;
        copied(
            self.alloc,
            self.at,
            self.counted,
            terms.as_slice(),
            next,
            self.body,
        )
    }

    // Appends that a copy is equal to none before it.
    fn push_differences(
        &self,
        first: u32,
        copy: u32,
        parts: &mut Vec<Formula>,
    ) -> Result<(), NoMemory>
        requires { first + (copy + 1) * length self.now.counted.now < 2 ^ 32 }
        ensures { OnOk result (map tree_of parts.new.items ≡ map tree_of parts.old.items
            ++ differs_from self.now.at first self.now.counted.now copy copy) }
    {
        let width = self.counted.len() as u32;
        for earlier in 0..copy {
            let one = first + earlier * width;
            let other = first + copy * width;
            parts.push(self.differ(one, other)?)?;
        }
        Ok(())
    }

    // That two copies of the counted variables, numbered from these on, are not equal.
    fn differ(&self, one: u32, other: u32) -> Result<Formula, NoMemory>
        requires one { one + length self.now.counted.now < 2 ^ 32 }
        requires other { other + length self.now.counted.now < 2 ^ 32 }
        ensures { IfOk result (λ made. tree_of made ≡ Never self.now.at (conjunction_of self.now.at
            (equal_pairs self.now.at (numbered_variables one (length self.now.counted.now))
            (numbered_variables other (length self.now.counted.now))))) }
    {
        let width = self.counted.len() as u32;
        let mut pairs = Vec::with_capacity(self.alloc, self.counted.len())?;
        for number in 0..width {
            let left = Term::Var(VarId(one + number));
            let right = Term::Var(VarId(other + number));
            pairs.push(Formula::Equal(self.at, left, right))?;
        }
        let same = conjunction(self.alloc, self.at, pairs)?;
        Ok(Formula::Not(self.at, Box::new(self.alloc, same)?))
    }
}

// All of the formulas, grouped to the right.
fn conjunction(alloc: Global, at: Place, mut parts: Vec<Formula>) -> Result<Formula, NoMemory>
    ensures { IfOk result (λ whole. tree_of whole ≡ conjunction_of at (map tree_of parts.items)) }
{
    let Some(mut whole) = parts.pop() else {
        return Ok(Formula::True(at));
    };
    while let Some(part) = parts.pop() {
        let part = Box::new(alloc, part)?;
        whole = Formula::And(at, part, Box::new(alloc, whole)?);
    }
    Ok(whole)
}
