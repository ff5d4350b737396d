//! How values are printed and read, and how the texts of signatures and policies are cut into tokens. It stands on
//! `enf_data`, whose values, events and sets of events it hands on; the kit's `itoa` prints numbers.
#![tactic(auto)]

pub mod laws;
pub mod names;
pub mod printing;
pub mod reading;
pub mod tokens;

pub use enf_data::{
    Duplicate, Event, EventSet, Interval, Items, NameId, NoMemory, Place, Row, Step, Term, Terms,
    TextRefusal, TextValue, Value, VarId, Vars,
};
pub use names::{ByteKind, is_reserved, name_text};
pub use printing::{print_byte, print_bytes, print_number, print_value};
pub use reading::{put_value, read_digits, read_value};
pub use tokens::{Mark, PlacedToken, Token, next_token};
