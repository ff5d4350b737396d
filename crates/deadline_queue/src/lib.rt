//! Which deadlines are to be met, and how often each. It stands on `enf_data`.
#![tactic(auto)]

pub mod laws;
pub mod queue;
pub mod worked_cases;

pub use queue::{DeadlineQueue, NotThere};
