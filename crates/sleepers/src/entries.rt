//! Entries that sleep until an event or a time wakes them.
ghost use Rattle.std.specs.Prelude.{◌↔◌, IsFalse, IsTrue};
ghost use Rattle.sleepers.specs.machine.Agendas.{LeavesAsleep};
ghost use Rattle.sleepers.specs.machine.Entries.{IsAsleep};
ghost use Rattle.sleepers.specs.machine.Groups.{WakeAlike};

use crate::patterns::{Patterns, has_none};
use crate::places::Place;
use enf_data::Event;
use std::slice;

/// An item with its place, the patterns of the events that wake it, or none where each step does, and the time from
/// which on it is awake.
#[derive(Debug, Drop)]
pub struct Entry<T> {
    pub place: Place,
    pub patterns: Option<Patterns>,
    pub end: u64,
    pub item: T,
}

impl<T> Entry<T> {
    /// Whether the entry sleeps at a step of this time with these events.
    pub fn is_asleep(&self, events: &[Event], time: u64) -> bool
        ensures { IsTrue result ↔ IsAsleep events.now time self.now }
    {
        match &self.patterns {
            Some(patterns) => time < self.end && has_none(patterns.as_slice(), events),
            None => false,
        }
    }

    // Whether the event is of one of the patterns that wake the entry.
    pub(crate) fn is_roused_by(&self, event: &Event) -> bool
        ensures { IsFalse result → LeavesAsleep event.now self.now }
    {
        match &self.patterns {
            Some(patterns) => !has_none(patterns.as_slice(), slice::from_ref(event)),
            None => false,
        }
    }

    // Whether the entry sleeps at the same steps as the other.
    pub(crate) fn wakes_alike(&self, other: &Entry<T>) -> bool
        ensures { IsTrue result → WakeAlike self.now other.now }
    {
        match (&self.patterns, &other.patterns) {
            (Some(patterns), Some(others)) => self.end == other.end && *patterns == *others,
            (None, None) => true,
            _ => false,
        }
    }
}
