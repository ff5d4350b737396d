//! From rules to plans: which formulas can be made true by causing and suppressing events, and how. It stands on
//! `rank_check`, `monitorable_guard` and `formula_reader`.
#![tactic(auto)]

pub mod elaboration;
mod guards;
pub mod laws;
mod node_numbers;
mod operand_plans;
pub mod refusals;
pub mod rule_plans;
pub mod typed_policy;
pub mod worked_cases;

pub use refusals::{Refusal, TypeRefusal};
pub use rule_plans::{RulePlans, plan_rules};
pub use typed_policy::TypedPolicy;
