//! Formulas as they are asked: made of their parts, with the numbers of these one after another.
ghost use Rattle.std.specs.Prelude.{◌≡◌, ◌<◌, ◌+◌, ◌++◌, ◌^◌, IfOk, length};
ghost use Rattle.std.specs.List.{range_with_len};
ghost use Rattle.enf_formula.specs.machine.FormulaViews.{tree_of};
ghost use Rattle.enf_formula.specs.meaning.Satisfaction as tree;
ghost use Rattle.monitorable_guard.specs.machine.PresentMeaning.{outermost};

use crate::operators::operators;
use enf_data::items::Duplicate;
use enf_data::memory::NoMemory;
use enf_data::places::Place;
use enf_data::terms::Vars;
use enf_formula::Formula;
use std::alloc::Global;

/// A formula as it is asked, and the places that its outermost operators on the past had in the given one.
#[derive(Debug, Drop)]
pub struct Asked {
    pub formula: Formula,
    pub numbers: Vec<usize>,
}

impl Asked {
    // The formula as it is given, where so many operators stand before its own.
    pub fn given(alloc: Global, formula: &Formula, first: usize) -> Result<Asked, NoMemory>
        requires { first + length (outermost (tree_of formula.now)) < 2 ^ 64 }
        ensures formula { IfOk result (λ a. tree_of a.formula ≡ tree_of formula.now) }
        ensures numbers { IfOk result (λ a. a.numbers.items
            ≡ range_with_len first (length (outermost (tree_of formula.now)))) }
    {
        let numbers = numbers_from(alloc, first, operators(formula))?;
        Ok(Asked {
            formula: formula.duplicate(alloc)?,
            numbers,
        })
    }

    pub fn not(alloc: Global, place: Place, part: Asked) -> Result<Asked, NoMemory>
        ensures formula { IfOk result (λ a. tree_of a.formula ≡ tree.Not place (tree_of part.formula)) }
        ensures numbers { IfOk result (λ a. a.numbers.items ≡ part.numbers.items) }
    {
        let inner = Box::new(alloc, part.formula)?;
        Ok(Asked {
            formula: Formula::Not(place, inner),
            numbers: part.numbers,
        })
    }

    pub fn exists(alloc: Global, place: Place, xs: &Vars, part: Asked) -> Result<Asked, NoMemory>
        ensures formula { IfOk result (λ a. tree_of a.formula
            ≡ tree.Exists place xs.now (tree_of part.formula)) }
        ensures numbers { IfOk result (λ a. a.numbers.items ≡ part.numbers.items) }
    {
        let inner = Box::new(alloc, part.formula)?;
        Ok(Asked {
            formula: Formula::Exists(place, xs.duplicate(alloc)?, inner),
            numbers: part.numbers,
        })
    }

    pub fn forall(alloc: Global, place: Place, xs: &Vars, part: Asked) -> Result<Asked, NoMemory>
        ensures formula { IfOk result (λ a. tree_of a.formula
            ≡ tree.Forall place xs.now (tree_of part.formula)) }
        ensures numbers { IfOk result (λ a. a.numbers.items ≡ part.numbers.items) }
    {
        let inner = Box::new(alloc, part.formula)?;
        Ok(Asked {
            formula: Formula::Forall(place, xs.duplicate(alloc)?, inner),
            numbers: part.numbers,
        })
    }

    pub fn and(alloc: Global, place: Place, left: Asked, right: Asked) -> Result<Asked, NoMemory>
        ensures formula { IfOk result (λ a. tree_of a.formula
            ≡ tree.And place (tree_of left.formula) (tree_of right.formula)) }
        ensures numbers { IfOk result (λ a. a.numbers.items ≡ left.numbers.items ++ right.numbers.items) }
    {
        let pair = paired(alloc, left, right)?;
        Ok(Asked {
            formula: Formula::And(place, pair.first, pair.second),
            numbers: pair.numbers,
        })
    }

    pub fn or(alloc: Global, place: Place, left: Asked, right: Asked) -> Result<Asked, NoMemory>
        ensures formula { IfOk result (λ a. tree_of a.formula
            ≡ tree.Or place (tree_of left.formula) (tree_of right.formula)) }
        ensures numbers { IfOk result (λ a. a.numbers.items ≡ left.numbers.items ++ right.numbers.items) }
    {
        let pair = paired(alloc, left, right)?;
        Ok(Asked {
            formula: Formula::Or(place, pair.first, pair.second),
            numbers: pair.numbers,
        })
    }

    pub fn implies(
        alloc: Global,
        place: Place,
        left: Asked,
        right: Asked,
    ) -> Result<Asked, NoMemory>
        ensures formula { IfOk result (λ a. tree_of a.formula
            ≡ tree.Implies place (tree_of left.formula) (tree_of right.formula)) }
        ensures numbers { IfOk result (λ a. a.numbers.items ≡ left.numbers.items ++ right.numbers.items) }
    {
        let pair = paired(alloc, left, right)?;
        Ok(Asked {
            formula: Formula::Implies(place, pair.first, pair.second),
            numbers: pair.numbers,
        })
    }
}

// The parts of a formula of two.
#[derive(Drop)]
struct Pair {
    first: Box<Formula>,
    second: Box<Formula>,
    numbers: Vec<usize>,
}

// The parts, with their numbers one after another.
fn paired(alloc: Global, left: Asked, right: Asked) -> Result<Pair, NoMemory>
    ensures first { IfOk result (λ pair. pair.first.value ≡ left.formula) }
    ensures second { IfOk result (λ pair. pair.second.value ≡ right.formula) }
    ensures numbers { IfOk result (λ pair. pair.numbers.items ≡ left.numbers.items ++ right.numbers.items) }
{
    let numbers = joined(left.numbers, right.numbers.as_slice())?;
    let first = Box::new(alloc, left.formula)?;
    let second = Box::new(alloc, right.formula)?;
    Ok(Pair {
        first,
        second,
        numbers,
    })
}

// So many numbers, from one on.
fn numbers_from(alloc: Global, first: usize, count: usize) -> Result<Vec<usize>, NoMemory>
    requires { first + count < 2 ^ 64 }
    ensures { IfOk result (λ numbers. numbers.items ≡ range_with_len first count) }
{
    let mut numbers = Vec::with_capacity(alloc, count)?;
    for place in 0..count {
        numbers.push(first + place)?;
    }
    Ok(numbers)
}

fn joined(front: Vec<usize>, back: &[usize]) -> Result<Vec<usize>, NoMemory>
    ensures { IfOk result (λ all. all.items ≡ front.items ++ back.now) }
{
    let mut all = front;
    all.extend_from_slice(back)?;
    Ok(all)
}
