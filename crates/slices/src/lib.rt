//! Policies that speak of one key at a time, as of one user, and slices of traces for sets of keys: definitions, with
//! laws that say what enforcing slice by slice comes to, and the test whether a policy can be cut.
#![tactic(auto)]

pub mod hindrances;
pub mod keys;
pub mod laws;
pub mod policies;
pub mod sliced;
pub mod verdicts;
pub mod worked_cases;

pub use hindrances::{Hindrance, Why};
pub use keys::Keys;
pub use policies::is_sliced;
pub use sliced::rule_hindrance;
pub use verdicts::{Absence, Verdict};
