//! A log that is split into a stream for each of some slices, by the keys of its events: what each stream has of each
//! record, and the text of keys. It stands on slices, which has the keys of events and the slices of traces, on
//! log_stream, which reads logs and prints events, and on signature and enf_value; the kit's `itoa` prints numbers.
#![tactic(auto)]

pub mod hashes;
pub mod key_texts;
pub mod lines;
pub mod splitting;

pub use key_texts::{KeysRefusal, read_keys};
pub use lines::Split;
pub use splitting::{SplitRefusal, Splitter};
