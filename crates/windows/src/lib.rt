//! What the operators on the past remember between two steps, as tables of rows. A window keeps what `since`, `once`
//! and `historically` need, a slot what `prev` needs. It stands on `valuations`.
#![tactic(auto)]

mod bound_answers;
mod commits;
mod compaction;
mod copies;
mod entries;
mod expiry;
pub mod kept_pairs;
pub mod laws;
pub mod prev_slot;
mod queue;
mod row_answers;
mod row_index;
mod row_parts;
mod row_query;
mod row_searches;
pub mod since;
pub mod steps;
pub mod surviving_rows;
mod times;
pub mod worked_cases;

pub use kept_pairs::KeptPair;
pub use prev_slot::PrevSlot;
pub use since::SinceWindow;
pub use steps::LastStep;
pub use surviving_rows::Surviving;
