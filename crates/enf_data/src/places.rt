//! Places in texts.

/// A byte offset in a text, counted from 0.
pub type Place = u32;
