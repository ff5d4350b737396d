//! The enforcer: it takes step after step, and changes each as its policy wants, so that every rule holds at every
//! position of what is emitted. It stands on the choice loop of `choice_step`, on what `obligations` leaves pending, on
//! what `past_state` remembers, on the policies of `enforce_types` and on the lawful change of `trace_meaning`.
#![tactic(auto)]

pub mod enforcer;
pub mod existing;
pub mod laws;
mod plan_facts;
mod step_memory;
pub mod steps;
pub mod termination;
pub mod worked_cases;

pub use enforcer::Enforcer;
pub use steps::{OutStep, OutSteps, StepOut, StepRefusal};
