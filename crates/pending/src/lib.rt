//! The instances that are pending, by the events that can change them. It stands on `wake_patterns`, `obligations`,
//! `sleepers`, `deadline_queue`, `past_state`, `plan_terms`, `monitorable_guard`, `trace_meaning`, `valuations`,
//! `enf_formula` and `enf_data`.
#![tactic(auto)]

pub mod asking;
mod deadlines;
mod entries;
pub mod laws;
mod moments;
mod pending;
mod progress_all;

// A crate can name `Asking` in a contract only if the types of its fields are exported.
#[doc(hidden)]
pub use asking::AskedOf;
pub use asking::{Asking, RuleNode};
pub use pending::Pending;
