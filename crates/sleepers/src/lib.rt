//! Entries by place, which sleep until an event of a pattern or a time wakes them. It stands on `cursor_list` and
//! `enf_data`.
#![tactic(auto)]

pub mod agenda;
mod awake_groups;
pub mod entries;
mod groups;
mod keys;
pub mod laws;
mod pairs;
pub mod patterns;
pub mod places;
mod rousing;
pub mod sleeper_list;
mod wake_index;
pub mod worked_cases;

pub use agenda::Agenda;
pub use entries::Entry;
// A crate can name `Sleepers` in a contract only if the types of its fields are exported.
#[doc(hidden)]
pub use groups::Groups;
#[doc(hidden)]
pub use keys::Shape;
#[doc(hidden)]
pub use pairs::Pairs;
pub use patterns::{Pattern, Patterns};
pub use places::{Beginning, Place};
pub use sleeper_list::Sleepers;
#[doc(hidden)]
pub use wake_index::Index;
