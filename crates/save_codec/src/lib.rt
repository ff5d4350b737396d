//! Saved states as texts: what is kept of a run that has stopped, its text, and the state of a text. It stands on
//! `obligations`, which has what is pending, on `past_state`, which has what the windows keep, and on what these stand
//! on.
#![tactic(auto)]

mod cursor;
mod heads;
mod instances;
mod judging;
mod knowing;
pub mod laws;
pub mod limits;
pub mod lines;
mod parts;
mod pending_bounds;
mod reading;
pub mod refusals;
mod resuming;
mod saving;
pub mod snapshots;
mod sorts;
mod texts;
pub mod worked_cases;

pub use refusals::StateRefusal;
pub use resuming::resume;
pub use saving::save;
pub use snapshots::Snapshot;
