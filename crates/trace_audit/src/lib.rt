//! The audit of a trace: whether it satisfies a policy, and else where it breaks which rule first. It stands on the
//! plans of `enforce_types`, the tables of `past_state` and the patterns of `wake_patterns`, and on nothing that
//! decides what an enforcer does.
#![tactic(auto)]

pub mod auditor;
mod evaluation;
mod followed_rules;
pub mod laws;
mod open_rules;
mod present_step;
mod residuals;
pub mod verdicts;
mod waking;
pub mod worked_cases;

pub use auditor::{Auditor, audit};
pub use verdicts::Verdict;
