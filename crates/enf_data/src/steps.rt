//! Steps of a trace.

use crate::event_sets::EventSet;

/// A time and the events at it.
#[derive(Drop)]
pub struct Step {
    pub time: u64,
    pub events: EventSet,
}
