//! The groups of entries that a step wakes, and the group of an entry.
ghost use Rattle.std.specs.Prelude.{◌≡◌, ◌⊎◌, ◌++◌, ◌∷◌, ℕ, [], Contains, IfOk, IfSome, IsFalse, IsTrue, List};
ghost use Rattle.std.specs.Prelude.{OnOk, drop, length, reverse, true};
ghost use Rattle.std.specs.List.Sorted.{IsPermutation, IsSortedByKey};
ghost use Rattle.sleepers.specs.machine.Entries.{shown};
ghost use Rattle.sleepers.specs.machine.Groups.{AreAlike, AreAwake, AreAwakeBy, AreNoted, AreRewound, IsOfAwake};
ghost use Rattle.sleepers.specs.machine.Groups.{StandsAsleep, StandsAwake, StayGroups, Suits, entries_at, group_at};
ghost use Rattle.sleepers.specs.machine.Groups.{held};
ghost use Rattle.sleepers.specs.machine.NotedGroups.{CanBeFound, IsContainedIn, IsGroupFound, KeepsAll};
ghost use Rattle.enf_data.specs.declared.events.Event.{Event as AnyEvent};
ghost use Rattle.sleepers.specs.declared.entries.Entry.{Entry as AnyEntry};
ghost use Rattle.sleepers.specs.machine.Places.{place_cmp};

use crate::entries::Entry;
use crate::groups::Groups;
use crate::places::compare;
use crate::wake_index::{Index, keep_each_once};
use enf_data::{Event, NoMemory};
use std::alloc::Global;
use std::slice;

// Up to so many groups a step looks at each of them, and none is noted.
const FEW: usize = 16;

// Whether a group is awake is told by a look at so many events at most.
const FEW_EVENTS: usize = 4;

// The groups whose entries are awake at a step of this time with these events, each once. They may take a room.
pub(crate) fn awake<T: Drop>(
    alloc: Global,
    groups: &Groups<T>,
    index: &Index,
    events: &[Event],
    time: u64,
    room: Vec<usize>,
) -> Result<Vec<usize>, NoMemory>
    requires { AreNoted groups.now index.now }
    ensures { IfOk result (λ numbers. AreAwake events.now time groups.now numbers.items) }
{
    if !index.is_begun() {
        return awake_of_all(groups, events, time, room);
    }
    if events.len() > FEW_EVENTS {
        return awake_by_each(alloc, groups, index, events, time);
    }
    awake_of_found(alloc, groups, index, events, time)
}

// The same, where groups are noted: by a look at all events for each that the step can wake.
fn awake_of_found<T: Drop>(
    alloc: Global,
    groups: &Groups<T>,
    index: &Index,
    events: &[Event],
    time: u64,
) -> Result<Vec<usize>, NoMemory>
    requires noted { AreNoted groups.now index.now }
    requires begun { index.now.is_begun ≡ true }
    ensures { IfOk result (λ numbers. AreAwake events.now time groups.now numbers.items) }
{
    let mut numbers = index.find(alloc, events, time)?;
    numbers.retain(|number| is_awake(groups, *number, events, time));
    Ok(numbers)
}

// The same, by a look at each that an event can wake with that event alone, so that many events wake many at no more
// than one look each.
fn awake_by_each<T: Drop>(
    alloc: Global,
    groups: &Groups<T>,
    index: &Index,
    events: &[Event],
    time: u64,
) -> Result<Vec<usize>, NoMemory>
    requires noted { AreNoted groups.now index.now }
    requires begun { index.now.is_begun ≡ true }
    ensures { IfOk result (λ numbers. AreAwake events.now time groups.now numbers.items) }
{
    let mut numbers = awake_of_found(alloc, groups, index, &[], time)?;
    let mut room = Vec::new(alloc);
    for event in events {
        push_awake(groups, index, event, time, &mut room, &mut numbers)?;
    }
    keep_each_once(&mut numbers);
    Ok(numbers)
}

// Puts those groups last that the event can wake and that are awake at a step of this time with it. They are found in a
// room.
fn push_awake<T: Drop>(
    groups: &Groups<T>,
    index: &Index,
    event: &Event,
    time: u64,
    room: &mut Vec<usize>,
    numbers: &mut Vec<usize>,
) -> Result<(), NoMemory>
    requires noted { AreNoted groups.now index.now }
    requires begun { index.now.is_begun ≡ true }
    ensures { OnOk result ((events told : List AnyEvent) → Contains events event.now
        → AreAwakeBy events told time groups.now numbers.old.items
        → AreAwakeBy events (told ++ event.now ∷ []) time groups.now numbers.new.items) }
{
    room.clear();
    index.find_each(slice::from_ref(event), room)?;
    push_awake_of(groups, room.as_slice(), event, time, numbers)?;
    Ok(())
}

// Puts those of some groups last that are awake at a step of this time with this event.
fn push_awake_of<T: Drop>(
    groups: &Groups<T>,
    found: &[usize],
    event: &Event,
    time: u64,
    numbers: &mut Vec<usize>,
) -> Result<(), NoMemory>
    requires { (number : ℕ) → AreAlike (entries_at groups.now number) }
    ensures kept { OnOk result (IsContainedIn numbers.old.items numbers.new.items) }
    ensures awake { OnOk result ((number : ℕ) → Contains numbers.new.items number
        → Contains numbers.old.items number ⊎ StandsAwake (event.now ∷ []) time groups.now number) }
    ensures looked { OnOk result ((number : ℕ) → Contains found.now number
        → Contains numbers.new.items number ⊎ StandsAsleep (event.now ∷ []) time groups.now number) }
{
    for number in found {
        if !is_awake(groups, *number, slice::from_ref(event), time) {
            continue;
        }
        numbers.push(*number)?;
    }
    Ok(())
}

// Whether some entry may be awake at a step of this time with these events.
pub(crate) fn may_wake<T: Drop>(
    groups: &Groups<T>,
    index: &Index,
    events: &[Event],
    time: u64,
) -> bool
    requires { AreNoted groups.now index.now }
    ensures { IsFalse result → (number : ℕ) → StandsAsleep events.now time groups.now number }
{
    if index.is_begun() {
        return index.may_wake(events, time);
    }
    is_some_awake(groups, events, time)
}

// Whether some group is awake at a step of this time with these events, by a look at each.
fn is_some_awake<T: Drop>(groups: &Groups<T>, events: &[Event], time: u64) -> bool
    requires { (number : ℕ) → AreAlike (entries_at groups.now number) }
    ensures { IsFalse result → (number : ℕ) → StandsAsleep events.now time groups.now number }
{
    for number in 0..groups.len() {
        if is_awake(groups, number, events, time) {
            return true;
        }
    }
    false
}

// The groups whose entries are awake at a step of this time with these events, by a look at each group.
fn awake_of_all<T: Drop>(
    groups: &Groups<T>,
    events: &[Event],
    time: u64,
    room: Vec<usize>,
) -> Result<Vec<usize>, NoMemory>
    requires { (number : ℕ) → AreAlike (entries_at groups.now number) }
    ensures { IfOk result (λ numbers. AreAwake events.now time groups.now numbers.items) }
{
    let mut numbers = room;
    numbers.clear();
    for number in 0..groups.len() {
        if !is_awake(groups, number, events, time) {
            continue;
        }
        numbers.push(number)?;
    }
    Ok(numbers)
}

// Whether the first entry of a group is awake. It tells of all where they are alike.
fn is_awake<T: Drop>(groups: &Groups<T>, number: usize, events: &[Event], time: u64) -> bool
    ensures awake { IsTrue result → AreAlike (entries_at groups.now number)
        → StandsAwake events.now time groups.now number }
    ensures asleep { IsFalse result → AreAlike (entries_at groups.now number)
        → StandsAsleep events.now time groups.now number }
{
    match groups.first(number) {
        Some(entry) => !entry.is_asleep(events, time),
        None => false,
    }
}

// The entries that are awake at a step of this time with these events, group by group.
pub(crate) fn woken<'a, T: Drop>(
    alloc: Global,
    groups: &'a Groups<T>,
    index: &Index,
    events: &[Event],
    time: u64,
) -> Result<Vec<&'a Entry<T>>, NoMemory>
    requires { AreNoted groups.now index.now }
    ensures { IfOk result (λ woken. IsOfAwake events.now time groups.now (shown woken.items)) }
{
    if index.is_begun() {
        let numbers = awake(alloc, groups, index, events, time, Vec::new(alloc))?;
        return groups.entries_of(alloc, numbers.as_slice());
    }
    woken_of_all(alloc, groups, events, time)
}

// The entries that are awake at a step of this time with these events, by a look at each group.
fn woken_of_all<'a, T: Drop>(
    alloc: Global,
    groups: &'a Groups<T>,
    events: &[Event],
    time: u64,
) -> Result<Vec<&'a Entry<T>>, NoMemory>
    requires { (number : ℕ) → AreAlike (entries_at groups.now number) }
    ensures { IfOk result (λ woken. IsOfAwake events.now time groups.now (shown woken.items)) }
{
    let mut woken = Vec::new(alloc);
    for number in 0..groups.len() {
        if !is_awake(groups, number, events, time) {
            continue;
        }
        groups.push_entries(number, &mut woken)?;
    }
    Ok(woken)
}

// Puts the cursors of some groups in front of all their entries.
pub(crate) fn rewind_each<T: Drop>(groups: &mut Groups<T>, numbers: &[usize])
    ensures { AreRewound numbers.now groups.old groups.new }
{
    for number in numbers {
        groups.rewind(*number);
    }
}

// A group for the entry, which is noted where others are.
pub(crate) fn group_for<T: Drop>(
    alloc: Global,
    groups: &mut Groups<T>,
    index: &mut Index,
    entry: &Entry<T>,
) -> Result<usize, NoMemory>
    requires { AreNoted groups.old index.old }
    ensures ok { IfOk result (λ number. Suits groups.new index.new number entry.now) }
    ensures noted { AreNoted groups.new index.new }
    ensures stay { StayGroups groups.old groups.new }
{
    if let Some(number) = group_of(groups, index, entry) {
        return Ok(number);
    }
    let number = groups.fresh()?;
    note(alloc, groups, index, number, entry)?;
    Ok(number)
}

// A group whose entries sleep at the same steps.
fn group_of<T: Drop>(groups: &Groups<T>, index: &Index, entry: &Entry<T>) -> Option<usize>
    requires { AreNoted groups.now index.now }
    ensures { IfSome result (λ number. Suits groups.now index.now number entry.now) }
{
    let number = candidate(groups, index, entry)?;
    let first = groups.first(number)?;
    if first.wakes_alike(entry) {
        Some(number)
    } else {
        None
    }
}

// A group whose entries may sleep at the same steps.
fn candidate<T: Drop>(groups: &Groups<T>, index: &Index, entry: &Entry<T>) -> Option<usize> {
    if index.is_begun() {
        index.candidate(&entry.patterns, entry.end)
    } else {
        alike_in(groups, entry)
    }
}

// The first of all groups whose entries sleep at the same steps.
fn alike_in<T: Drop>(groups: &Groups<T>, entry: &Entry<T>) -> Option<usize> {
    for number in 0..groups.len() {
        let Some(first) = groups.first(number) else {
            continue;
        };
        if first.wakes_alike(entry) {
            return Some(number);
        }
    }
    None
}

// Notes a group for the entry, where groups are noted.
fn note<T: Drop>(
    alloc: Global,
    groups: &Groups<T>,
    index: &mut Index,
    number: usize,
    entry: &Entry<T>,
) -> Result<(), NoMemory>
    requires { AreNoted groups.now index.old }
    ensures ok { OnOk result (CanBeFound index.new number entry.now.patterns entry.now.end) }
    ensures noted { AreNoted groups.now index.new }
{
    begin(alloc, groups, index)?;
    if !index.is_begun() {
        return Ok(());
    }
    index.note(alloc, number, &entry.patterns, entry.end)
}

// Notes all groups from now on, if they are no longer few.
fn begin<T: Drop>(alloc: Global, groups: &Groups<T>, index: &mut Index) -> Result<(), NoMemory>
    requires { AreNoted groups.now index.old }
    ensures { AreNoted groups.now index.new }
{
    if index.is_begun() || groups.len() <= FEW {
        return Ok(());
    }
    note_each(alloc, groups, index)?;
    index.begin();
    Ok(())
}

fn note_each<T: Drop>(alloc: Global, groups: &Groups<T>, index: &mut Index) -> Result<(), NoMemory>
    requires { AreNoted groups.now index.old }
    ensures ok { OnOk result ((number : ℕ) (entry : AnyEntry T) → Contains (entries_at groups.now number) entry
        → IsGroupFound index.new number entry.patterns entry.end) }
    ensures kept { KeepsAll index.old index.new }
{
    for number in 0..groups.len() {
        note_first(alloc, groups, index, number)?;
    }
    Ok(())
}

// Notes a group under what wakes its first entry. It tells of all where they are alike.
fn note_first<T: Drop>(
    alloc: Global,
    groups: &Groups<T>,
    index: &mut Index,
    number: usize,
) -> Result<(), NoMemory>
    ensures ok { OnOk result (AreAlike (entries_at groups.now number)
        → (entry : AnyEntry T) → Contains (entries_at groups.now number) entry
        → IsGroupFound index.new number entry.patterns entry.end) }
    ensures kept { KeepsAll index.old index.new }
{
    match groups.first(number) {
        Some(first) => index.note(alloc, number, &first.patterns, first.end),
        None => Ok(()),
    }
}

// Lets go of a group that the entry has left, if it has no other.
pub(crate) fn release<T: Drop>(
    groups: &mut Groups<T>,
    index: &mut Index,
    number: usize,
    entry: &Entry<T>,
)
    ensures noted { AreNoted groups.old index.old → AreNoted groups.new index.new }
    ensures groups { groups.new ≡ groups.old }
{
    if groups.first(number).is_none() {
        index.let_go(number, &entry.patterns, entry.end);
        groups.release(number);
    }
}

// Begins anew where groups were noted and no entry is left. Else it lets go of the last group without entries, so that
// a step has fewer to look at.
pub(crate) fn renew<T: Drop>(alloc: Global, groups: &mut Groups<T>, index: &mut Index, count: usize)
    requires { count ≡ length (held groups.old) }
    ensures noted { AreNoted groups.old index.old → AreNoted groups.new index.new }
    ensures stay { StayGroups groups.old groups.new }
{
    if count > 0 || !index.is_begun() {
        groups.trim();
        return;
    }
    *groups = Groups::new(alloc);
    *index = Index::new(alloc, index.seed());
}

// Ends a walk over its first group, if no entry of that is left.
pub(crate) fn leave<T: Drop>(groups: &Groups<T>, walk: &mut Vec<usize>, number: usize)
    ensures over { (group_at groups.now number).after ≡ []
        → reverse walk.new.items ≡ drop 1 (reverse walk.old.items) }
    ensures on { ((group_at groups.now number).after ≡ [] → ⊥)
        → reverse walk.new.items ≡ reverse walk.old.items }
{
    if groups.peek(number).is_none() {
        walk.pop();
    }
}

// Puts references to entries in the order of their places.
pub(crate) fn sort_by_place<T>(entries: &mut Vec<&Entry<T>>)
    ensures same { IsPermutation entries.old.items entries.new.items }
    ensures order { IsSortedByKey (λ entry. entry.now.place) place_cmp entries.new.items }
{
    // most steps wake one or none
    if entries.len() < 2 {
        return;
    }
    entries.sort_unstable_by(|x, y| compare(x.place.as_slice(), y.place.as_slice()));
}
