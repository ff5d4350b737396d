//! The events of a step, by their names.
ghost use Rattle.std.specs.Prelude.{◌≡◌, ◌↔◌, ◌≤◌, IfOk, IsTrue, Contains, Some, length, map, take};
ghost use Rattle.std.specs.List.Sorted.{IsSortedByKey};
ghost use Rattle.std.specs.Ordering.{nat_cmp, ordering_then};
ghost use Rattle.enf_formula.specs.meaning.Satisfaction.{IsEventAmong};
ghost use Rattle.enf_data.specs.machine.EventSets.{AreRisingEvents};
ghost use Rattle.enf_data.specs.meaning.Values.{row_cmp};
ghost use Rattle.enf_data.specs.meaning.Valuations.{value_of_term, values_of_terms};
ghost use Rattle.enf_data.specs.declared.events.Event.{Event as AnyEvent};
ghost use Rattle.monitorable_guard.specs.machine.EventOrder.{HasItsEvents, IsByName, listed, name_of, shown_events};
ghost use Rattle.monitorable_guard.specs.machine.EventOrder.{BeginAsKnown, event_cmp, key_of, leading_known};
ghost use Rattle.valuations.specs.machine.RowParts.{key_cmp};

use enf_data::event_sets::EventSet;
use enf_data::events::{Event, NameId};
use enf_data::memory::NoMemory;
use enf_data::terms::Term;
use enf_data::values::Value;
use std::alloc::Global;
use std::cmp::Ordering;
use std::marker::Model;
use valuations::Lookup;
use valuations::arguments::{compare_to_terms, value_in};

/// The events of a step, which finds those of a name without a look at the others.
#[derive(Drop)]
pub struct StepEvents<'a> {
    events: &'a EventSet,
    by_name: ByName<'a>,
}

// How many events are put in order in places of their own.
const MOST_IN_PLACE: usize = 4;

// The events of a step in the order of their names and arguments: a few, which take no memory, or more.
#[derive(Drop)]
pub(crate) enum ByName<'a> {
    Few(FewEvents<'a>),
    Many(Vec<&'a Event>),
}

// So many of the places; those that are left have any event.
#[derive(Drop)]
pub(crate) struct FewEvents<'a> {
    places: [&'a Event; MOST_IN_PLACE],
    count: usize,
}

impl<'a> Model for StepEvents<'a> {
    ghost use Rattle.std.specs.Prelude.{List};
    ghost use Rattle.enf_data.specs.declared.events.Event.{Event};
    ghost use Rattle.monitorable_guard.specs.machine.EventOrder.{HasItsEvents, IsByName, listed};

    ghost Value = { List Event };

    ghost view = { λ step. step.events.now };

    ghost invariant = { λ step. HasItsEvents step.by_name × IsByName step.events.now (listed step.by_name) };
}

impl<'a> StepEvents<'a> {
    /// The events of a set.
    pub fn of(alloc: Global, events: &'a EventSet) -> Result<StepEvents<'a>, NoMemory>
        ensures { IfOk result (λ step. step ≡ events.now) }
    {
        let by_name = in_order(alloc, events.as_slice(), events.rises())?;
        Ok(StepEvents { events, by_name })
    }

    /// The set.
    pub fn set(&self) -> &'a EventSet
        ensures { result.now ≡ self.now }
    {
        self.events
    }

    /// The events of a name.
    pub fn named(&self, name: NameId) -> &[&'a Event]
        ensures { (event : AnyEvent) → Contains (shown_events result.now) event
            ↔ (Contains self.now event × (event.name ≡ name)) }
    {
        of_name(order_of(&self.by_name), name)
    }

    /// The events of a name whose arguments begin with the values of the terms, up to the first term that has none:
    /// found by the order, without a look at the others.
    pub fn under<V: Lookup>(&self, name: NameId, terms: &[Term], v: &V) -> &[&'a Event]
        ensures { (event : AnyEvent) → Contains (shown_events result.now) event
            ↔ (Contains self.now event × (event.name ≡ name)
            × BeginAsKnown (map (value_of_term (V.valuation v.now)) terms.now) event.args) }
    {
        let count = leading(terms, v);
        beginning_with(order_of(&self.by_name), name, &terms[..count], v)
    }

    /// Whether the terms are the arguments of an event of the name; it takes no memory.
    pub fn has_event<V: Lookup>(&self, name: NameId, terms: &[Term], v: &V) -> bool
        ensures { IsTrue result
            ↔ IsEventAmong self.now name (values_of_terms (V.valuation v.now) terms.now) }
    {
        order_of(&self.by_name)
            .binary_search_by(|event| compare_to_event(event, name, terms, v))
            .is_ok()
    }
}

// The events in their order.
fn order_of<'s, 'a>(by_name: &'s ByName<'a>) -> &'s [&'a Event]
    requires { HasItsEvents by_name.now }
    ensures { result.now ≡ listed by_name.now }
{
    match by_name {
        ByName::Few(few) => &few.places[..few.count],
        ByName::Many(order) => order.as_slice(),
    }
}

// The events in the order of their names and arguments, in which they are where they rise.
fn in_order<'a>(alloc: Global, events: &'a [Event], rise: bool) -> Result<ByName<'a>, NoMemory>
    requires { IsTrue rise → AreRisingEvents events.now }
    ensures has { IfOk result HasItsEvents }
    ensures order { IfOk result (λ order. IsByName events.now (listed order)) }
{
    match events.first() {
        Some(first) if events.len() <= MOST_IN_PLACE => {
            Ok(ByName::Few(few_in_order(first, events)))
        }
        _ => Ok(ByName::Many(many_in_order(alloc, events, rise)?)),
    }
}

// A few events in the order of their names and arguments, in places that any event fills.
fn few_in_order<'a>(any: &'a Event, events: &'a [Event]) -> FewEvents<'a>
    requires { length events.now ≤ 4 }
    ensures few { result.count ≤ 4 }
    ensures order { IsByName events.now (take result.count result.places) }
{
    let mut places = [any; MOST_IN_PLACE];
    for place in 0..events.len() {
        places[place] = &events[place];
    }
    places[..events.len()].sort_unstable_by(|a, b| compare_events(a, b));
    FewEvents {
        places,
        count: events.len(),
    }
}

// Many events in the order of their names and arguments, in which they are where they rise.
fn many_in_order<'a>(
    alloc: Global,
    events: &'a [Event],
    rise: bool,
) -> Result<Vec<&'a Event>, NoMemory>
    requires { IsTrue rise → AreRisingEvents events.now }
    ensures { IfOk result (λ order. IsByName events.now order.items) }
{
    let mut order = Vec::with_capacity(alloc, events.len())?;
    for event in events {
        order.push(event)?;
    }
    if rise {
        return Ok(order);
    }
    order.sort_unstable_by(|a, b| compare_events(a, b));
    Ok(order)
}

fn compare_events(a: &Event, b: &Event) -> Ordering
    ensures { result ≡ ordering_then (nat_cmp a.now.name.0 b.now.name.0)
        (row_cmp a.now.args b.now.args) }
{
    a.compare(b)
}

// The order of an event and one of the name whose arguments are the values of the terms.
fn compare_to_event<V: Lookup>(event: &Event, name: NameId, terms: &[Term], v: &V) -> Ordering
    ensures { result ≡ ordering_then (nat_cmp event.now.name.0 name.0)
        (key_cmp (map Some event.now.args) (map (value_of_term (V.valuation v.now)) terms.now)) }
{
    match event.name.0.cmp(&name.0) {
        Ordering::Equal => compare_to_terms(event.args.as_slice(), terms, v),
        apart => apart,
    }
}

// Those of the events in order that have the name.
fn of_name<'s, 'a>(order: &'s [&'a Event], name: NameId) -> &'s [&'a Event]
    requires { IsSortedByKey name_of nat_cmp order.now }
    ensures { (event : AnyEvent) → Contains (shown_events result.now) event
        ↔ (Contains (shown_events order.now) event × (event.name ≡ name)) }
{
    let from = order.partition_point(|event| event.name.0.cmp(&name.0).is_lt());
    let rest = &order[from..];
    let count = rest.partition_point(|event| event.name.0.cmp(&name.0).is_le());
    &rest[..count]
}

// How many terms have values before the first that has none.
fn leading<V: Lookup>(terms: &[Term], v: &V) -> usize
    ensures count { result ≡ leading_known (map (value_of_term (V.valuation v.now)) terms.now) }
    ensures within { result ≤ length terms.now }
{
    for place in 0..terms.len() {
        if value_in(&terms[place], v).is_none() {
            return place;
        }
    }
    terms.len()
}

// The order of an event, of whose arguments as many count as there are terms, and one of the name whose arguments are
// the values of the terms.
fn compare_beginning<V: Lookup>(event: &Event, name: NameId, terms: &[Term], v: &V) -> Ordering
    ensures { result ≡ ordering_then (nat_cmp event.now.name.0 name.0)
        (key_cmp (map Some (take (length terms.now) event.now.args))
        (map (value_of_term (V.valuation v.now)) terms.now)) }
{
    match event.name.0.cmp(&name.0) {
        Ordering::Equal => compare_to_terms(first_args(event, terms.len()), terms, v),
        apart => apart,
    }
}

// So many arguments of an event, or all where there are fewer.
fn first_args(event: &Event, count: usize) -> &[Value]
    ensures { result.now ≡ take count event.now.args }
{
    let args = event.args.as_slice();
    &args[..count.min(args.len())]
}

// Those of the events in order that have the name and whose arguments begin with the values of the terms.
fn beginning_with<'s, 'a, V: Lookup>(
    order: &'s [&'a Event],
    name: NameId,
    terms: &[Term],
    v: &V,
) -> &'s [&'a Event]
    requires { IsSortedByKey key_of event_cmp order.now }
    ensures { (event : AnyEvent) → Contains (shown_events result.now) event
        ↔ (Contains (shown_events order.now) event × (event.name ≡ name)
        × (map Some (take (length terms.now) event.args) ≡ map (value_of_term (V.valuation v.now)) terms.now)) }
{
    let from = order.partition_point(|event| compare_beginning(event, name, terms, v).is_lt());
    let behind = &order[from..];
    let count = behind.partition_point(|event| compare_beginning(event, name, terms, v).is_le());
    &behind[..count]
}
