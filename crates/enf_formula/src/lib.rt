//! Formulas of metric first-order temporal logic: their trees, and the definition of satisfaction
//! on finite traces.
#![tactic(auto)]

pub mod copies;
pub mod formulas;
pub mod laws;
pub mod shape;
pub mod variables;
pub mod worked_cases;

pub use formulas::Formula;
