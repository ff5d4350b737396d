//! By which columns a guard looks for rows of the operators on the past.

use crate::asked::Asked;
use crate::scopes::{is_in, with_free};
use enf_data::memory::NoMemory;
use enf_data::terms::{VarId, Vars};
use enf_formula::Formula;
use std::alloc::Global;

/// The columns of an operator on the past that have values where a guard looks for its rows: some and not all. An index
/// by them would serve. It is a hint, of which no clause speaks: rows are found by other columns too.
#[derive(Debug, Drop)]
pub struct Look {
    /// The number of the operator among the outermost ones.
    pub operator: usize,
    pub columns: Vars,
}

// Adds the looks of a formula as it is asked with these variables bound, where so many operators stand before its own.
pub fn add_looks(
    alloc: Global,
    asked: &Asked,
    bound: &[VarId],
    start: usize,
    looks: &mut Vec<Look>,
) -> Result<(), NoMemory> {
    let mut found = Vec::new(alloc);
    add_known(alloc, &asked.formula, bound, &mut found)?;
    for (number, columns) in asked.numbers.iter().zip(found) {
        if !columns.is_empty() {
            looks.push(Look {
                operator: start.saturating_add(*number),
                columns,
            })?;
        }
    }
    Ok(())
}

// Adds for each outermost operator of the formula, in order, the columns that have values where it is asked.
fn add_known(
    alloc: Global,
    formula: &Formula,
    bound: &[VarId],
    found: &mut Vec<Vars>,
) -> Result<(), NoMemory> {
    match formula {
        Formula::Not(_, g) | Formula::Exists(_, _, g) | Formula::Forall(_, _, g) => {
            add_known(alloc, g, bound, found)
        }
        Formula::Or(_, g, h) => {
            add_known(alloc, g, bound, found)?;
            add_known(alloc, h, bound, found)
        }
        // the right side is asked under the rows of the left side
        Formula::And(_, g, h) | Formula::Implies(_, g, h) => {
            add_known(alloc, g, bound, found)?;
            let scope = with_free(alloc, bound, g)?;
            add_known(alloc, h, scope.as_slice(), found)
        }
        Formula::Prev(_, _, _)
        | Formula::Once(_, _, _)
        | Formula::Historically(_, _, _)
        | Formula::Since(_, _, _, _) => {
            found.push(known_of(alloc, formula, bound)?)?;
            Ok(())
        }
        _ => Ok(()),
    }
}

// Those of the formula's free variables that are bound, or none where all of them are.
fn known_of(alloc: Global, formula: &Formula, bound: &[VarId]) -> Result<Vars, NoMemory> {
    let free = formula.free_vars(alloc)?;
    let mut known = Vec::new(alloc);
    for x in free.as_slice() {
        if is_in(*x, bound) {
            known.push(*x)?;
        }
    }
    if known.len() == free.as_slice().len() {
        known.clear();
    }
    Ok(Vars::from_vec(known))
}
