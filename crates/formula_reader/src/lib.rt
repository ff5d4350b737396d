//! Policies: their rules under a signature, and the canonical text of a rule.
//!
//! The first pass, from the text to a syntax tree, is policy_syntax's. The second pass stands here: it finds names in
//! the signature and variables in their scopes, and gives the variables sorts.
#![tactic(auto)]

pub mod laws;
pub mod policies;
pub mod printing;
pub mod reading;
pub mod resolving;
mod variables;
pub mod worked_cases;

pub use policies::{Policy, PolicyRefusal, Rule, Rules, VarNames};
pub use printing::print_rule;
pub use reading::read_policy;
pub use resolving::resolve;
