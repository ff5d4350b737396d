//! Sets of events, in the order in which the events came.
ghost use Rattle.std.specs.Prelude.{◌≡◌, ◌↔◌, ◌<◌, ◌≤◌, ◌+◌, ◌++◌, ◌∷◌, IsTrue};
ghost use Rattle.std.specs.Prelude.{List, [], Some, Contains, length, IfOk, IfErr, IfNone, IfSome, OnErr, OnOk};
ghost use Rattle.std.specs.Prelude.{slice_get, not};
ghost use Rattle.std.specs.Option.{option_copied};
ghost use Rattle.std.specs.Vec.{vec_capacity, vec_len};
ghost use Rattle.indexmap.specs.IndexSet.{spare};
ghost use Rattle.enf_data.specs.meaning.Membership.{HasNoRepeats};
ghost use Rattle.enf_data.specs.machine.EventSets.{InsertsItem, InsertsEach, RemovesItem, TakenOutAreGone};
ghost use Rattle.enf_data.specs.machine.EventSets.{AreRisingEvents, without_events};
ghost use Rattle.enf_data.specs.machine.StoredEvents.{RiseAsSaid, stored_events};
ghost use Rattle.enf_data.specs.meaning.Values.{has_event};

use crate::events::Event;
use crate::items::Duplicate;
use crate::memory::NoMemory;
use crate::seeds::Seed;
use indexmap::IndexSet;
use std::alloc::{AllocError, Global};
use std::marker::Model;
use std::mem;

/// A list of events without repeats, which finds an event without a look at the others.
#[derive(Drop)]
pub struct EventSet {
    events: Stored,
}

// How many events are searched at most. Above that there is a table, or they rise.
const MOST_SEARCHED: usize = 16;

// How many events are compared by pairs, which for so few costs least.
const MOST_PAIRED: usize = 4;

type EventTable = IndexSet<Event, Seed>;

// The events of a set: a few, which are searched, some that rise, which their order finds, or more, with a table.
#[derive(Drop)]
pub(crate) enum Stored {
    Few(Vec<Event>),
    Rising(Vec<Event>),
    Many(Box<EventTable>),
}

impl Model for EventSet {
    ghost use Rattle.std.specs.Prelude.{List};
    ghost use Rattle.enf_data.specs.declared.events.Event.{Event};
    ghost use Rattle.enf_data.specs.meaning.Membership.{HasNoRepeats};
    ghost use Rattle.enf_data.specs.machine.StoredEvents.{RiseAsSaid, stored_events};

    ghost Value = { List Event };

    ghost view = { λ s. stored_events s.events };

    ghost invariant = { λ s. HasNoRepeats (stored_events s.events) × RiseAsSaid s.events };
}

impl EventSet {
    /// The set with no event.
    pub fn new(alloc: Global) -> EventSet
        ensures { result ≡ [] }
    {
        EventSet {
            events: Stored::Few(Vec::new(alloc)),
        }
    }

    /// The events of a vector, of each the first. Where they rise, or are few and none stands twice, it takes no
    /// memory. Of others the hashes begin from the seed.
    pub fn from_vec(alloc: Global, seed: Seed, events: Vec<Event>) -> Result<EventSet, NoMemory>
        ensures { IfOk result (λ set. InsertsEach [] events.items set) }
    {
        if events.len() > MOST_PAIRED && do_rise(events.as_slice()) {
            return Ok(EventSet {
                events: Stored::Rising(events),
            });
        }
        if events.len() <= MOST_SEARCHED && are_distinct(events.as_slice()) {
            return Ok(EventSet {
                events: Stored::Few(events),
            });
        }
        let mut set = EventSet::new(alloc);
        for event in events {
            set.insert_by(seed, event).map_err(|_event| NoMemory)?;
        }
        Ok(set)
    }

    /// The memory that its events took, where they have no table.
    pub fn into_room(self) -> Option<Vec<Event>>
        ensures { IfSome result (λ room. room.items ≡ []) }
    {
        match self.events {
            Stored::Few(events) | Stored::Rising(events) => {
                let mut room = events;
                room.clear();
                Some(room)
            }
            Stored::Many(_) => None,
        }
    }

    /// Puts a new event last and answers true, or answers false where it is there. Where memory runs out, the event
    /// comes back.
    #[inline(always)]
    pub fn insert(&mut self, event: Event) -> Result<bool, Event>
        ensures inserted { IfOk result (λ new. InsertsItem event self.old new self.new) }
        ensures value_returned { IfErr result (λ back. back ≡ event) }
        ensures err { OnErr result (self.new ≡ self.old) }
        ensures absent { OnErr result (Contains self.old event → ⊥) }
        ensures distinct { HasNoRepeats self.new }
    {
        self.insert_by(Seed::known(), event)
    }

    /// So too, with a seed for hashes, where a stranger chooses the events. It counts as they become many.
    #[inline(always)]
    pub fn insert_by(&mut self, seed: Seed, event: Event) -> Result<bool, Event>
        ensures inserted { IfOk result (λ new. InsertsItem event self.old new self.new) }
        ensures value_returned { IfErr result (λ back. back ≡ event) }
        ensures err { OnErr result (self.new ≡ self.old) }
        ensures absent { OnErr result (Contains self.old event → ⊥) }
        ensures distinct { HasNoRepeats self.new }
    {
        match &mut self.events {
            Stored::Many(table) => insert_in_table(table, event),
            Stored::Few(few) if few.len() < MOST_SEARCHED => insert_searched(few, event),
            Stored::Few(few) if is_among(few.as_slice(), &event) => Ok(false),
            Stored::Few(few) => {
                self.events = Stored::Many(with_table(seed, few, event)?);
                Ok(true)
            }
            Stored::Rising(rising) if is_among_rising(rising.as_slice(), &event) => Ok(false),
            Stored::Rising(rising) => {
                self.events = with_last(seed, rising, event)?;
                Ok(true)
            }
        }
    }

    /// Takes an event out and answers whether it was there. The rest keeps its order.
    pub fn remove(&mut self, event: &Event) -> bool
        ensures removed { RemovesItem event.now self.old result self.new }
        ensures distinct { HasNoRepeats self.new }
    {
        match &mut self.events {
            Stored::Few(few) => remove_searched(few, event),
            Stored::Rising(rising) => remove_rising(rising, event),
            Stored::Many(table) => remove_from_table(table, event),
        }
    }

    /// Takes the events of another set out. The rest keeps its order.
    pub fn remove_all(&mut self, gone: &EventSet)
        ensures removed { self.new ≡ without_events self.old gone.now }
        ensures distinct { HasNoRepeats self.new }
    {
        match &mut self.events {
            Stored::Few(few) => keep_searched(few, gone),
            Stored::Rising(rising) => keep_rising(rising, gone),
            Stored::Many(table) => keep_in_table(table, gone),
        }
    }

    /// Whether the event is there.
    pub fn contains(&self, event: &Event) -> bool
        ensures { IsTrue result ↔ Contains self.now event.now }
    {
        match &self.events {
            Stored::Few(few) => is_among(few.as_slice(), event),
            Stored::Rising(rising) => is_among_rising(rising.as_slice(), event),
            Stored::Many(table) => is_in_table(table, event),
        }
    }

    /// Whether it is known that each event is before those after it, in the order of names and arguments.
    pub fn rises(&self) -> bool
        ensures { IsTrue result → AreRisingEvents self.now }
    {
        match &self.events {
            Stored::Rising(_) => true,
            Stored::Few(_) | Stored::Many(_) => false,
        }
    }

    /// How many events there are.
    pub fn len(&self) -> usize
        ensures { result ≡ length self.now }
    {
        self.as_slice().len()
    }

    /// Whether there is no event.
    pub fn is_empty(&self) -> bool
        ensures { IsTrue result ↔ (self.now ≡ []) }
    {
        self.as_slice().is_empty()
    }

    /// The event at a place, counted from 0.
    pub fn get(&self, place: usize) -> Option<&Event>
        ensures { option_copied result ≡ slice_get self.now place }
    {
        self.as_slice().get(place)
    }

    /// The events in order.
    pub fn as_slice(&self) -> &[Event]
        ensures events { result.now ≡ self.now }
        ensures distinct { HasNoRepeats self.now }
    {
        match &self.events {
            Stored::Few(few) => few.as_slice(),
            Stored::Rising(rising) => rising.as_slice(),
            Stored::Many(many) => many.as_slice(),
        }
    }
}

// Whether each event is before those after it.
fn do_rise(events: &[Event]) -> bool
    ensures order { IsTrue result → AreRisingEvents events.now }
    ensures distinct { IsTrue result → HasNoRepeats events.now }
{
    events.is_sorted_by(|a, b| a.compare(b).is_lt())
}

// Where an event stands among others that rise.
fn place_in_order(events: &[Event], event: &Event) -> Option<usize>
    requires { AreRisingEvents events.now }
    ensures some { IfSome result (λ place. slice_get events.now place ≡ Some event.now) }
    ensures within { IfSome result (λ place. place < length events.now) }
    ensures none { IfNone result (Contains events.now event.now → ⊥) }
{
    match events.binary_search_by(|other| other.compare(event)) {
        Ok(place) => Some(place),
        Err(_place) => None,
    }
}

// Whether an event is among others that rise.
fn is_among_rising(events: &[Event], event: &Event) -> bool
    requires { AreRisingEvents events.now }
    ensures { IsTrue result ↔ Contains events.now event.now }
{
    place_in_order(events, event).is_some()
}

// Whether no event stands twice.
fn are_distinct(events: &[Event]) -> bool
    ensures { IsTrue result ↔ HasNoRepeats events.now }
{
    for place in 1..events.len() {
        if is_among(&events[..place], &events[place]) {
            return false;
        }
    }
    true
}

// Whether an event is in a table.
fn is_in_table(table: &EventTable, event: &Event) -> bool
    ensures { IsTrue result ↔ Contains table.now.keys event.now }
{
    table.contains(event)
}

// Puts a new event last in a table, and answers whether it is new.
fn insert_in_table(table: &mut EventTable, event: Event) -> Result<bool, Event>
    ensures inserted { IfOk result (λ new. InsertsItem event table.old.keys new table.new.keys) }
    ensures value_returned { IfErr result (λ back. back ≡ event) }
    ensures err { OnErr result (table.new.keys ≡ table.old.keys) }
    ensures absent { OnErr result (Contains table.old.keys event → ⊥) }
    ensures distinct { HasNoRepeats table.new.keys }
{
    table.insert(event).map_err(|failed| failed.value)
}

// Takes an event out of a table, and answers whether it was there.
fn remove_from_table(table: &mut EventTable, event: &Event) -> bool
    ensures removed { RemovesItem event.now table.old.keys result table.new.keys }
    ensures distinct { HasNoRepeats table.new.keys }
{
    table.shift_remove(event)
}

// Whether an event is among a few.
fn is_among(few: &[Event], event: &Event) -> bool
    ensures { IsTrue result ↔ Contains few.now event.now }
{
    place_of(few, event).is_some()
}

// Puts a new event last among a few, and answers whether it is new.
fn insert_searched(few: &mut Vec<Event>, event: Event) -> Result<bool, Event>
    requires { HasNoRepeats few.old.items }
    ensures inserted { IfOk result (λ new. InsertsItem event few.old.items new few.new.items) }
    ensures value_returned { IfErr result (λ back. back ≡ event) }
    ensures err { OnErr result (few.new.items ≡ few.old.items) }
    ensures absent { OnErr result (Contains few.old.items event → ⊥) }
    ensures distinct { HasNoRepeats few.new.items }
{
    if is_among(few.as_slice(), &event) {
        return Ok(false);
    }
    if make_room(few).is_err() {
        return Err(event);
    }
    few.push_reserved(event);
    Ok(true)
}

// Makes room for one event more. One that is caused often stays alone.
fn make_room(few: &mut Vec<Event>) -> Result<(), AllocError>
    ensures items { few.new.items ≡ few.old.items }
    ensures room { OnOk result (vec_len few.new < vec_capacity few.new) }
{
    if few.is_empty() {
        few.reserve_exact(1)
    } else {
        few.reserve(1)
    }
}

// Takes an event out of a few, and answers whether it was there.
fn remove_searched(few: &mut Vec<Event>, event: &Event) -> bool
    requires { HasNoRepeats few.old.items }
    ensures removed { RemovesItem event.now few.old.items result few.new.items }
    ensures distinct { HasNoRepeats few.new.items }
{
    match place_of(few.as_slice(), event) {
        Some(place) => {
            few.remove(place);
            true
        }
        None => false,
    }
}

// Takes an event out of some that rise, and answers whether it was there.
fn remove_rising(rising: &mut Vec<Event>, event: &Event) -> bool
    requires { AreRisingEvents rising.old.items }
    ensures removed { RemovesItem event.now rising.old.items result rising.new.items }
    ensures order { AreRisingEvents rising.new.items }
    ensures distinct { HasNoRepeats rising.new.items }
{
    match place_in_order(rising.as_slice(), event) {
        Some(place) => {
            let _gone = rising.remove(place);
            true
        }
        None => false,
    }
}

// Takes the events of a set out of some that rise.
fn keep_rising(rising: &mut Vec<Event>, gone: &EventSet)
    requires { AreRisingEvents rising.old.items }
    ensures removed { rising.new.items ≡ without_events rising.old.items gone.now }
    ensures order { AreRisingEvents rising.new.items }
    ensures distinct { HasNoRepeats rising.new.items }
{
    rising.retain(
        |event: &Event| -> bool
            ensures { result ≡ not (has_event gone.entry.now event.now) }
        { is_kept(gone, event) },
    );
}

// Takes the events of a set out of a few.
fn keep_searched(few: &mut Vec<Event>, gone: &EventSet)
    requires { HasNoRepeats few.old.items }
    ensures removed { few.new.items ≡ without_events few.old.items gone.now }
    ensures distinct { HasNoRepeats few.new.items }
{
    few.retain(
        |event: &Event| -> bool
            ensures { result ≡ not (has_event gone.entry.now event.now) }
        { is_kept(gone, event) },
    );
}

// Takes the events of a set out of a table, which is gone through once.
fn keep_in_table(table: &mut EventTable, gone: &EventSet)
    ensures removed { table.new.keys ≡ without_events table.old.keys gone.now }
    ensures distinct { HasNoRepeats table.new.keys }
{
    table.retain(
        |event: &Event| -> bool
            ensures { result ≡ not (has_event gone.entry.now event.now) }
        { is_kept(gone, event) },
    );
}

// Whether an event is none of those that go.
fn is_kept(gone: &EventSet, event: &Event) -> bool
    ensures { result ≡ not (has_event gone.now event.now) }
{
    !gone.contains(event)
}

/// To take events out at once is to take them out one after another.
pub fn taken_out_are_gone()
    ensures { TakenOutAreGone }
{}

// Where an event stands.
fn place_of(events: &[Event], event: &Event) -> Option<usize>
    ensures some { IfSome result (λ place. slice_get events.now place ≡ Some event.now) }
    ensures within { IfSome result (λ place. place < length events.now) }
    ensures none { IfNone result (Contains events.now event.now → ⊥) }
{
    for (place, other) in events.iter().enumerate() {
        if other == event {
            return Some(place);
        }
    }
    None
}

// Moves a few events into a table, and puts a new one after them. Where memory runs out, they stay, and the new one
// comes back.
fn with_table(seed: Seed, few: &mut Vec<Event>, event: Event) -> Result<Box<EventTable>, Event>
    requires distinct { HasNoRepeats few.old.items }
    requires absent { Contains few.old.items event → ⊥ }
    ensures ok { IfOk result (λ table. table.value.keys ≡ few.old.items ++ event ∷ []) }
    ensures distinct { IfOk result (λ table. HasNoRepeats table.value.keys) }
    ensures value_returned { IfErr result (λ back. back ≡ event) }
    ensures err { OnErr result (few.new.items ≡ few.old.items) }
{
    let alloc = *few.allocator();
    let Ok(empty) = IndexSet::with_capacity_and_hasher(alloc, few.len() + 1, seed) else {
        return Err(event);
    };
    let Ok(mut table) = Box::new(alloc, empty) else {
        return Err(event);
    };
    for moved in mem::replace(few, Vec::new(alloc)) {
        put(&mut table, moved);
    }
    put(&mut table, event);
    Ok(table)
}

// Puts a new event after some that rise, which then need rise no longer. Where memory runs out, they stay, and the new
// one comes back.
fn with_last(seed: Seed, rising: &mut Vec<Event>, event: Event) -> Result<Stored, Event>
    requires distinct { HasNoRepeats rising.old.items }
    requires absent { Contains rising.old.items event → ⊥ }
    ensures ok { IfOk result (λ stored. stored_events stored ≡ rising.old.items ++ event ∷ []) }
    ensures distinct { IfOk result (λ stored. HasNoRepeats (stored_events stored)) }
    ensures rise { IfOk result RiseAsSaid }
    ensures value_returned { IfErr result (λ back. back ≡ event) }
    ensures err { OnErr result (rising.new.items ≡ rising.old.items) }
{
    if rising.len() >= MOST_SEARCHED {
        return Ok(Stored::Many(with_table(seed, rising, event)?));
    }
    if make_room(rising).is_err() {
        return Err(event);
    }
    let alloc = *rising.allocator();
    let mut few = mem::replace(rising, Vec::new(alloc));
    few.push_reserved(event);
    Ok(Stored::Few(few))
}

// Puts an event that is not there last, where there is room.
fn put(table: &mut EventTable, event: Event)
    requires room { 0 < spare table.old }
    requires absent { Contains table.old.keys event → ⊥ }
    ensures keys { table.new.keys ≡ table.old.keys ++ event ∷ [] }
    ensures distinct { HasNoRepeats table.new.keys }
    ensures room { spare table.old ≤ spare table.new + 1 }
{
    if table.insert(event).is_err() {
        unreachable!();
    }
}

// A copy of a few events.
fn copy_few(alloc: Global, few: &[Event]) -> Result<Vec<Event>, NoMemory>
    ensures { IfOk result (λ copy. copy.items ≡ few.now) }
{
    let mut copy = Vec::with_capacity(alloc, few.len())?;
    for event in few {
        copy.push(event.duplicate(alloc)?)?;
    }
    Ok(copy)
}

// A copy of a table, with its seed.
fn copy_table(alloc: Global, table: &EventTable) -> Result<Box<EventTable>, NoMemory>
    requires { HasNoRepeats table.now.keys }
    ensures { IfOk result (λ copy. copy.value.keys ≡ table.now.keys) }
{
    let mut copy = IndexSet::with_capacity_and_hasher(alloc, table.len(), *table.hasher())?;
    for event in table.as_slice() {
        insert_in_table(&mut copy, event.duplicate(alloc)?).map_err(|_event| NoMemory)?;
    }
    Ok(Box::new(alloc, copy)?)
}

// A copy of the events, kept as they are.
fn copy_stored(alloc: Global, stored: &Stored) -> Result<Stored, NoMemory>
    requires distinct { HasNoRepeats (stored_events stored.now) }
    requires rise { RiseAsSaid stored.now }
    ensures same { IfOk result (λ copy. stored_events copy ≡ stored_events stored.now) }
    ensures rise { IfOk result RiseAsSaid }
{
    match stored {
        Stored::Few(few) => Ok(Stored::Few(copy_few(alloc, few.as_slice())?)),
        Stored::Rising(rising) => Ok(Stored::Rising(copy_few(alloc, rising.as_slice())?)),
        Stored::Many(table) => Ok(Stored::Many(copy_table(alloc, table)?)),
    }
}

impl Duplicate for EventSet {
    fn duplicate(&self, alloc: Global) -> Result<EventSet, NoMemory> {
        Ok(EventSet {
            events: copy_stored(alloc, &self.events)?,
        })
    }
}
