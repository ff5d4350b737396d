//! Several streams of records, which are put in one order of time: a step goes out as soon as no open stream can give
//! one that comes before it. It stands on log_stream, which has the items of logs.
#![tactic(auto)]

pub mod laws;
pub mod mux;
pub mod records;
mod releasing;
mod tree;
mod turns;
mod waiting;
pub mod worked_cases;

pub use mux::Mux;
pub use records::{MuxRefusal, Offer, Tagged};
