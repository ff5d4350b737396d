//! Signatures: the names of a log with their columns, and their text.
#![tactic(auto)]

pub mod entries;
pub mod laws;
mod reading;
pub mod refusals;
pub mod signatures;

pub use entries::{NameEntry, Sort, Sorts};
pub use refusals::{SignatureLimit, SignatureRefusal};
pub use signatures::Signature;
