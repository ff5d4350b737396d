//! A list that is changed at one place. It stands on nothing of this repository.
//!
//! `CursorList` is a doubly linked list with a cursor between two of its items: what stands there is looked at, passed,
//! taken out or put in without moving any other item, and only what is put in takes memory.
#![tactic(auto)]

mod cursor;
mod nodes;
mod walk;

pub use cursor::CursorList;
// A crate can name a list in a contract only if the types of its fields are exported.
#[doc(hidden)]
pub use nodes::{Node, Nodes, Place};
pub use walk::Walk;
