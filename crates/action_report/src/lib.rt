//! Reports: the line that says of an action what was done, when, and for what, written and read. It stands on
//! `obligations`, which has the actions, on `plan_terms`, which has the nodes that they name, on `formula_reader` and
//! `log_stream`, which have the names of rules and the texts of events, and on what these stand on.
#![tactic(auto)]

mod bindings;
mod cursor;
mod events;
pub mod laws;
pub mod lines;
pub mod reading;
pub mod refusals;
mod scopes;
pub mod worked_cases;

pub use lines::{rule_name, write_action};
pub use reading::read_action;
pub use refusals::ReportRefusal;
