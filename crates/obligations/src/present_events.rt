//! The events of a step while they change.
ghost use Rattle.std.specs.Prelude.{◌≡◌, ◌↔◌, [], Contains, IfOk, IfSome, IsTrue};
ghost use Rattle.enf_data.specs.declared.events.Event.{Event as AnyEvent};
ghost use Rattle.enf_data.specs.machine.EventSets.{without_events};

use enf_data::Event;
use enf_data::event_sets::EventSet;
use enf_data::events::NameId;
use enf_data::items::Duplicate;
use enf_data::memory::NoMemory;
use std::alloc::Global;
use std::marker::Model;

/// The events of a set but those of another, which are gone: so an event goes without a look at the others.
#[derive(Drop)]
pub struct PresentEvents<'a> {
    events: &'a EventSet,
    gone: &'a EventSet,
}

impl<'a> Model for PresentEvents<'a> {
    ghost use Rattle.std.specs.Prelude.{List};
    ghost use Rattle.enf_data.specs.declared.events.Event.{Event};
    ghost use Rattle.enf_data.specs.machine.EventSets.{without_events};

    ghost Value = { List Event };

    ghost view = { λ p. without_events p.events.now p.gone.now };
}

impl<'a> PresentEvents<'a> {
    /// Those of a set but those that are gone.
    pub fn of(events: &'a EventSet, gone: &'a EventSet) -> PresentEvents<'a>
        ensures are { result ≡ without_events events.now gone.now }
        ensures all { gone.now ≡ [] → result ≡ events.now }
    {
        PresentEvents { events, gone }
    }

    /// Whether the event is there.
    pub fn contains(&self, event: &Event) -> bool
        ensures { IsTrue result ↔ Contains self.now event.now }
    {
        self.events.contains(event) && !self.gone.contains(event)
    }

    /// Whether an event has the name, or one that is gone had it.
    pub fn may_have(&self, name: NameId) -> bool
        ensures { (event : AnyEvent) → Contains self.now event → event.name ≡ name → IsTrue result }
    {
        has_named(self.events.as_slice(), name)
    }

    /// The events, and those that are gone too.
    pub fn all(&self) -> &[Event]
        ensures { (event : AnyEvent) → Contains self.now event → Contains result.now event }
    {
        self.events.as_slice()
    }

    /// The events, if none is gone.
    pub fn listed(&self) -> Option<&[Event]>
        ensures { IfSome result (λ events. events.now ≡ self.now) }
    {
        if self.gone.is_empty() {
            return Some(self.events.as_slice());
        }
        None
    }

    /// The events as a set of their own.
    pub fn to_set(&self, alloc: Global) -> Result<EventSet, NoMemory>
        ensures { IfOk result (λ set. set ≡ self.now) }
    {
        let mut set = self.events.duplicate(alloc)?;
        set.remove_all(self.gone);
        Ok(set)
    }
}

// Whether an event has the name.
fn has_named(events: &[Event], name: NameId) -> bool
    ensures { (event : AnyEvent) → Contains events.now event → event.name ≡ name → IsTrue result }
{
    for event in events {
        if event.name == name {
            return true;
        }
    }
    false
}
