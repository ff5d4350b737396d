//! What logs, signatures and policies speak of: values with their order, events, sets of events, terms and intervals.
//! An event set is a list without repeats, in the order in which its events came. It stands on the kit's `indexmap`, rows
//! and texts on its `smallvec`.
#![tactic(auto)]

pub mod event_sets;
pub mod events;
pub mod intervals;
pub mod items;
pub mod limits;
pub mod memory;
pub mod places;
pub mod rows;
pub mod seeds;
pub mod short_lists;
pub mod steps;
pub mod terms;
pub mod texts;
pub mod values;

pub use event_sets::EventSet;
pub use events::{Event, NameId};
pub use intervals::Interval;
pub use items::{Duplicate, Items};
pub use limits::{
    MOST_COLUMNS, MOST_FILE_BYTES, MOST_INTERVAL_END, MOST_NAME_BYTES, MOST_NAMES, MOST_NODES,
    MOST_RULES, MOST_TEXT_BYTES,
};
pub use memory::NoMemory;
pub use places::Place;
pub use rows::Row;
pub use seeds::{Seed, SeededHasher};
pub use steps::Step;
pub use terms::{Term, Terms, VarId, Vars};
pub use texts::{TextRefusal, TextValue};
pub use values::Value;
