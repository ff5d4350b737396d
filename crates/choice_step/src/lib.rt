//! Which events are added and taken out at a step, so that nothing is missing there. It stands on `obligations`,
//! `past_state`, `plan_terms`, `monitorable_guard`, `valuations`, `trace_meaning`, `enf_formula` and `enf_data`.
#![tactic(auto)]

pub mod actions;
mod apply_actions;
mod asked_again;
mod changing;
pub mod choice_loop;
mod first_missing;
pub mod idle_steps;
pub mod laws;
mod own_events;
pub mod rule_triggers;
mod situation;
mod unasked;
mod woken_rules;
pub mod worked_cases;

pub use actions::{Action, Actions};
pub use choice_loop::{Choice, choose, choose_with};
pub use rule_triggers::Wakes;
