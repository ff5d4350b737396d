//! The patterns of the events that plans wait for: without an event of them a step changes nothing of what a plan asks.
//! It stands on `sleepers`, `plan_terms`, `valuations`, `enf_formula` and `enf_data`.
#![tactic(auto)]

mod guard_patterns;
mod known_truths;
pub mod laws;
mod patterns;
pub mod plan_patterns;
pub mod worked_cases;

pub use patterns::of_both;
pub use plan_patterns::{early_patterns_of, patterns_of, waiting_patterns_of};
