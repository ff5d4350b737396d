//! Valuations, and tables of them: finite sets of valuations of the same variables, kept as rows, with the
//! operations of relations. It stands on `enf_data`.
#![tactic(auto)]

pub mod arguments;
mod cells;
pub mod comparing;
pub mod filling;
pub mod frame;
mod joining;
pub mod laws;
mod relations;
pub mod scope;
mod searching;
pub mod tables;
pub mod valuation;

pub use comparing::Compare;
pub use frame::Frame;
pub use scope::{Lookup, Scope};
pub use tables::Table;
pub use valuation::Valuation;
