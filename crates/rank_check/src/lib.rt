//! Whether the plans of a policy can work together: which names they change, from which events each cause follows, and
//! the horizon. It stands on `plan_terms`.
#![tactic(auto)]

mod causes;
mod chains;
mod edges;
mod horizon;
pub mod laws;
pub mod plan_check;
pub mod rank_answers;
pub mod ranked;
mod roles;
mod transparent;
mod untriggered_nodes;
pub mod worked_cases;

pub use horizon::MOST_HORIZON;
pub use plan_check::check;
pub use rank_answers::{RankRefusal, Role};
pub use ranked::Ranks;
