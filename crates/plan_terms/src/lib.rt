//! Plans: how a formula is to be made true, as trees whose leaves are changes of the present, with the formula that a
//! plan stands for and what is asked of plans and their guards. It stands on `monitorable_guard`, `enf_formula` and
//! `enf_data`.
#![tactic(auto)]

pub mod formulas;
pub mod laws;
pub mod plan_shape;
pub mod plans;
pub mod triggers;
pub mod waking;
pub mod worked_cases;

pub use formulas::formula_of;
pub use plans::Plan;
