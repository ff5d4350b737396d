//! The limit on times.

/// The greatest clock, time of a kept row, and end of a window in a saved state.
pub const MOST_STATE_TIME: u64 = 2_000_000_000_000_000;
