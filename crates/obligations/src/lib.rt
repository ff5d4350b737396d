//! What plans owe at a step of a trace, and what they leave pending. It stands on `deadline_queue`, `past_state`,
//! `plan_terms`, `monitorable_guard`, `valuations`, `trace_meaning`, `enf_formula` and `enf_data`.
#![tactic(auto)]

pub mod actions;
pub mod begin;
mod empty_guards;
mod guarded_rows;
pub mod instances;
pub mod laws;
mod leaves;
pub mod literals;
mod missing_all;
mod missing_first;
pub mod missing_literals;
pub mod moved_plans;
mod patient_plans;
pub mod pending_parts;
pub mod plain_plans;
pub mod present_events;
pub mod present_step;
pub mod progress_one;
pub mod scopes;
mod sides;
pub mod worked_cases;

pub use actions::Action;
pub use instances::{Instance, Instances};
pub use literals::{Literal, LiteralKind};
pub use present_events::PresentEvents;
pub use present_step::Now;
