//! Pending instances as entries.
ghost use Rattle.std.specs.Prelude.{◌≡◌, ◌++◌, ◌∷◌, [], IfOk, OnOk, map};
ghost use Rattle.plan_terms.specs.machine.StoredPlans.{plan_of};
ghost use Rattle.pending.specs.machine.PendingEntries.{entries_from, entry_at, items_of};
ghost use Rattle.sleepers.specs.machine.Entries.{shown};
ghost use Rattle.pending.specs.machine.InstancePatterns.{wake_patterns_of};
ghost use Rattle.pending.specs.machine.InstancePatterns as waiting;
ghost use Rattle.pending.specs.machine.Waits.{patterns_at};
ghost use Rattle.pending.specs.machine.Waits as waits;

use crate::moments::step_moment;
use enf_data::memory::NoMemory;
use obligations::Instance;
use obligations::pending_parts::node_in;
use plan_terms::Plan;
use sleepers::{Beginning, Entry, Patterns, Place};
use std::alloc::Global;
use valuations::Frame;
use wake_patterns::{early_patterns_of, waiting_patterns_of};

// The patterns of the events that can change an instance that is filed at this time.
fn patterns_in(
    alloc: Global,
    plans: &[Plan],
    time: u64,
    instance: &Instance,
) -> Result<Option<Patterns>, NoMemory>
    ensures { IfOk result (λ found. found ≡ patterns_at (map plan_of plans.now) time instance.now) }
{
    if time < instance.low {
        return early_patterns_in(alloc, plans, instance);
    }
    open_patterns_in(alloc, plans, instance)
}

fn open_patterns_in(
    alloc: Global,
    plans: &[Plan],
    instance: &Instance,
) -> Result<Option<Patterns>, NoMemory>
    ensures { IfOk result (λ found. found ≡ wake_patterns_of (map plan_of plans.now) instance.now) }
{
    match node_in(plans, instance) {
        Some(node) => waiting_patterns_of(alloc, node, &Frame::Whole(&instance.valuation)),
        None => Ok(None),
    }
}

fn early_patterns_in(
    alloc: Global,
    plans: &[Plan],
    instance: &Instance,
) -> Result<Option<Patterns>, NoMemory>
    ensures { IfOk result (λ found. found ≡ waiting.early_patterns_of (map plan_of plans.now) instance.now) }
{
    match node_in(plans, instance) {
        Some(node) => early_patterns_of(alloc, node, &Frame::Whole(&instance.valuation)),
        None => Ok(None),
    }
}

// The moment up to which an instance waits that is filed at this time.
pub fn until_at(time: u64, instance: &Instance) -> u64
    ensures { result ≡ waits.until_at time instance.now }
{
    let last = step_moment(true, instance.high);
    if time < instance.low {
        return step_moment(false, instance.low).min(last);
    }
    last
}

// The place that goes on from one at a beginning.
fn place_behind(alloc: Global, place: &[Beginning], beginning: Beginning) -> Result<Place, NoMemory>
    ensures { IfOk result (λ behind. behind ≡ place.now ++ beginning ∷ []) }
{
    let mut beginnings = Vec::with_capacity(alloc, place.len() + 1)?;
    for made in place {
        beginnings.push(*made)?;
    }
    beginnings.push(beginning)?;
    Ok(Place::from_vec(beginnings))
}

// The entry of an instance that is filed at this time, and goes on from a place at a beginning.
pub fn entry_behind(
    alloc: Global,
    plans: &[Plan],
    time: u64,
    place: &[Beginning],
    beginning: Beginning,
    instance: Instance,
) -> Result<Entry<Instance>, NoMemory>
    ensures { IfOk result
        (λ entry. entry ≡ entry_at (map plan_of plans.now) time (place.now ++ beginning ∷ []) instance) }
{
    let patterns = patterns_in(alloc, plans, time, &instance)?;
    Ok(Entry {
        place: place_behind(alloc, place, beginning)?,
        patterns,
        end: until_at(time, &instance),
        item: instance,
    })
}

// Puts the entries of instances last that are filed at this time, of one beginning after a place.
pub fn put_begun(
    alloc: Global,
    plans: &[Plan],
    time: u64,
    place: &[Beginning],
    number: u64,
    instances: Vec<Instance>,
    into: &mut Vec<Entry<Instance>>,
) -> Result<(), NoMemory>
    ensures { OnOk result (into.new.items
        ≡ into.old.items ++ entries_from (map plan_of plans.now) time place.now number 0 instances.items) }
{
    if instances.is_empty() {
        return Ok(());
    }
    let mut among = 0;
    for instance in instances {
        let beginning = Beginning { number, among };
        into.push(entry_behind(alloc, plans, time, place, beginning, instance)?)?;
        among += 1;
    }
    Ok(())
}

// The instances of entries.
pub fn items_in<'a>(
    alloc: Global,
    entries: &[&'a Entry<Instance>],
) -> Result<Vec<&'a Instance>, NoMemory>
    ensures { IfOk result (λ items. shown items.items ≡ items_of (shown entries.now)) }
{
    let mut items = Vec::with_capacity(alloc, entries.len())?;
    for entry in entries {
        items.push(&entry.item)?;
    }
    Ok(items)
}
