//! Guards: formulas on the past and the present that can be evaluated over finite tables, and the rows under which
//! they hold. It stands on `valuations` and `enf_formula`.
#![tactic(auto)]

mod asked;
mod atom_matches;
mod atoms;
mod conditions;
mod evaluation;
pub mod event_tables;
pub mod events;
pub mod guard;
pub mod guard_rows;
pub mod laws;
pub mod looks;
mod needed_events;
mod operators;
mod order;
pub mod past_tables;
mod safety;
mod scope_rows;
mod scopes;
mod told_rows;
pub mod worked_cases;

pub use events::StepEvents;
pub use guard::{Guard, GuardRefusal, is_test};
pub use guard_rows::Rows;
pub use looks::Look;
pub use past_tables::{Past, PastTables};
pub use safety::is_safe;
pub use scopes::are_free_in;
