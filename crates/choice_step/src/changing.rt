//! The events of a step while actions change them.
ghost use Rattle.std.specs.Prelude.{◌≡◌, ◌↔◌, ◌++◌, ◌∷◌, [], Bool, Contains, IsTrue, OnOk};
ghost use Rattle.enf_data.specs.machine.EventSets.{InsertsItem, without_events};
ghost use Rattle.enf_data.specs.meaning.Membership.{HasNoRepeats, TakesOut};

use enf_data::Event;
use enf_data::event_sets::EventSet;
use enf_data::items::Duplicate;
use enf_data::memory::NoMemory;
use enf_data::seeds::Seed;
use obligations::PresentEvents;
use std::alloc::Global;
use std::marker::Model;

// The events of a set but those that are gone: of many none is moved where one goes.
#[derive(Drop)]
pub struct Changing {
    events: EventSet,
    gone: EventSet,
    seed: Seed,
    alloc: Global,
}

// Of so many events one that goes is taken out at once.
const FEW_EVENTS: usize = 16;

impl Model for Changing {
    ghost use Rattle.std.specs.Prelude.{List};
    ghost use Rattle.enf_data.specs.declared.events.Event.{Event};
    ghost use Rattle.enf_data.specs.meaning.Membership.{HasNoRepeats};
    ghost use Rattle.enf_data.specs.machine.EventSets.{without_events};

    ghost Value = { List Event };

    ghost view = { λ c. without_events c.events c.gone };

    ghost invariant = { λ c. HasNoRepeats c.events };
}

impl Changing {
    // Those of a set. A seed is for hashes, as a stranger chooses the events.
    pub fn of(alloc: Global, seed: Seed, events: EventSet) -> Changing
        ensures { result ≡ events }
    {
        // Its clause says that no event stands twice.
        let _given = events.as_slice();
        Changing {
            events,
            gone: EventSet::new(alloc),
            seed,
            alloc,
        }
    }

    // The events as they are now.
    pub fn present(&self) -> PresentEvents<'_>
        ensures { result ≡ self.now }
    {
        PresentEvents::of(&self.events, &self.gone)
    }

    // Whether the event is there.
    pub fn contains(&self, event: &Event) -> bool
        ensures { IsTrue result ↔ Contains self.now event.now }
    {
        self.present().contains(event)
    }

    // Puts an event last that was absent.
    #[inline(always)]
    pub fn add(&mut self, event: Event) -> Result<(), NoMemory>
        requires { Contains self.old event → ⊥ }
        ensures last { OnOk result (self.new ≡ self.old ++ event ∷ []) }
        ensures distinct { HasNoRepeats self.old }
    {
        bring_back(self.alloc, &event, &mut self.events, &mut self.gone);
        put_last(self.seed, event, &mut self.events)?;
        Ok(())
    }

    // Takes an event out that was there. The others keep their order.
    pub fn take_out(&mut self, event: &Event) -> Result<(), NoMemory>
        requires { Contains self.old event.now }
        ensures taken { OnOk result (TakesOut event.now self.old self.new) }
        ensures distinct { HasNoRepeats self.old }
    {
        if self.events.len() <= FEW_EVENTS && self.gone.is_empty() {
            let _was_there = self.events.remove(event);
            return Ok(());
        }
        let copy = event.duplicate(self.alloc)?;
        put_last(self.seed, copy, &mut self.gone)?;
        Ok(())
    }

    // The events as a set.
    pub fn into_set(self) -> EventSet
        ensures { result ≡ self }
    {
        let Changing { events, gone, .. } = self;
        without(events, &gone)
    }
}

// Puts an event last in a set, if it is not there.
#[inline(always)]
pub fn put_last(seed: Seed, event: Event, set: &mut EventSet) -> Result<(), NoMemory>
    ensures put { OnOk result ((new : Bool) × InsertsItem event set.old new set.new) }
    ensures distinct { HasNoRepeats set.new }
{
    let Ok(_is_new) = set.insert_by(seed, event) else {
        return Err(NoMemory);
    };
    Ok(())
}

// From now on the event is not one that is gone.
fn bring_back(alloc: Global, event: &Event, events: &mut EventSet, gone: &mut EventSet)
    ensures same { without_events events.new gone.new ≡ without_events events.old gone.old }
    ensures there { Contains gone.new event.now → ⊥ }
    ensures distinct { HasNoRepeats events.new }
{
    // Its clause says that no event stands twice.
    let _events = events.as_slice();
    if !gone.contains(event) {
        return;
    }
    events.remove_all(&*gone);
    *gone = EventSet::new(alloc);
}

// The events but those that are gone.
fn without(events: EventSet, gone: &EventSet) -> EventSet
    ensures { result ≡ without_events events gone.now }
{
    if gone.is_empty() {
        return events;
    }
    let mut left = events;
    left.remove_all(gone);
    left
}
