//! Names and events.
ghost use Rattle.std.specs.Prelude.{◌≡◌};
ghost use Rattle.enf_data.specs.machine.EventSets.{event_order};

use crate::items::Duplicate;
use crate::memory::NoMemory;
use crate::rows::Row;
use std::alloc::Global;
use std::cmp::Ordering;

/// A name of a signature, by its order of declaration from 0.
#[derive(Clone, Copy, Debug, PartialEq, Eq, PartialOrd, Ord, Hash)]
pub struct NameId(pub u32);

/// A name with its arguments.
#[derive(Debug, PartialEq, Eq, Hash, Drop)]
pub struct Event {
    pub name: NameId,
    pub args: Row,
}

impl Event {
    /// The order of the names by their numbers, and then of the arguments.
    pub fn compare(&self, other: &Event) -> Ordering
        ensures { result ≡ event_order self.now other.now }
    {
        match self.name.0.cmp(&other.name.0) {
            Ordering::Equal => self.args.compare(&other.args),
            apart => apart,
        }
    }
}

impl Duplicate for Event {
    fn duplicate(&self, alloc: Global) -> Result<Event, NoMemory> {
        Ok(Event {
            name: self.name,
            args: self.args.duplicate(alloc)?,
        })
    }
}
