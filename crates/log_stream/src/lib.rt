//! Logs: the records of a text that comes in any pieces, and the canonical lines of steps.
//! It stands on signature, which has the names, on trace_meaning, which has the kinds of steps, and on enf_value,
//! which has the values; the kit's `memchr` finds the bytes at which a record or a text can end.
#![tactic(auto)]

mod cursor;
mod fronts;
pub mod items;
pub mod laws;
pub mod limits;
pub mod lines;
pub mod reader;
mod records;
mod scanning;
pub mod worked_cases;

pub use items::{Found, LogItem, LogMode, LogRefusal};
pub use limits::{MOST_EVENTS, MOST_RECORD_BYTES};
pub use lines::{print_event, write_step};
pub use reader::LogReader;
pub use records::has_sort;
