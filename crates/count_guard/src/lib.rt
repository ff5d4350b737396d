//! Counts as formulas: that there are at least, at most or exactly k different lists of values with which a formula
//! holds, said by copies of the formula, and the law that they say just this.
#![tactic(auto)]

pub mod copying;
pub mod counting;
pub mod laws;
pub mod substitution;
pub mod worked_cases;

pub use counting::{CountKind, count_formula};
