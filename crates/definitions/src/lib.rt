//! Names that are defined by formulas: when formulas with such names hold, what they come to without them, and the law
//! that this is the same.
#![tactic(auto)]

pub mod laws;
pub mod replacing;
pub mod tables;
pub mod worked_cases;
