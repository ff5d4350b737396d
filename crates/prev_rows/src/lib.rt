//! The rows of the step before, which `prev` asks for: as each step tells them, or grown from step to step where none
//! of them ever goes. It stands on `windows`.
#![tactic(auto)]

pub mod grown_rows;
pub mod last_rows;

pub use last_rows::LastRows;
