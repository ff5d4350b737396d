//! The limits on records.

/// The greatest number of bytes of a record.
pub const MOST_RECORD_BYTES: usize = 65_536;

/// The greatest number of events of a record, repeats included.
pub const MOST_EVENTS: usize = 2048;
