//! Generated logs, under a sample signature and a sample policy, for tries and measurements: the same start gives
//! the same log. It stands on log_stream, which has the canonical line of a step, and on formula_reader, which says
//! how a policy is read.
#![tactic(auto)]

mod draws;
mod events;
pub mod generator;
pub mod laws;
pub mod samples;
pub mod worked_cases;

pub use generator::{Generator, MOST_START, MOST_STEPS, generate};
pub use samples::{sample_policy, sample_signature};
