//! The entries that an event wakes.
ghost use Rattle.std.specs.Prelude.{◌⊎◌, ℕ, Contains, IfOk, OnOk};
ghost use Rattle.sleepers.specs.machine.Agendas.{IsRousedOf, LeavesAsleep};
ghost use Rattle.sleepers.specs.machine.Entries.{shown};
ghost use Rattle.sleepers.specs.machine.Groups.{AreAlike, AreNoted, entries_at, held};
ghost use Rattle.sleepers.specs.machine.NotedGroups.{IsContainedIn};
ghost use Rattle.sleepers.specs.declared.entries.Entry.{Entry as AnyEntry};

use crate::entries::Entry;
use crate::groups::Groups;
use crate::wake_index::Index;
use enf_data::{Event, NoMemory};
use std::alloc::Global;
use std::slice;

// The entries that the event wakes, group by group, and it may be others of the groups.
pub(crate) fn roused<'a, T: Drop>(
    alloc: Global,
    groups: &'a Groups<T>,
    index: &Index,
    event: &Event,
) -> Result<Vec<&'a Entry<T>>, NoMemory>
    requires { AreNoted groups.now index.now }
    ensures { IfOk result (λ roused. IsRousedOf event.now (held groups.now) (shown roused.items)) }
{
    let mut entries = Vec::new(alloc);
    if !index.is_begun() {
        push_all(groups, event, &mut entries)?;
        return Ok(entries);
    }
    let mut numbers = Vec::new(alloc);
    index.find_each(slice::from_ref(event), &mut numbers)?;
    push_each(groups, numbers.as_slice(), event, &mut entries)?;
    Ok(entries)
}

// Puts those of all groups last.
fn push_all<'a, T: Drop>(
    groups: &'a Groups<T>,
    event: &Event,
    entries: &mut Vec<&'a Entry<T>>,
) -> Result<(), NoMemory>
    requires alike { (number : ℕ) → AreAlike (entries_at groups.now number) }
    requires among { IsContainedIn (shown entries.old.items) (held groups.now) }
    ensures { OnOk result (IsRousedOf event.now (held groups.now) (shown entries.new.items)) }
{
    for number in 0..groups.len() {
        push_roused(groups, number, event, entries)?;
    }
    Ok(())
}

// Puts those of some groups last.
fn push_each<'a, T: Drop>(
    groups: &'a Groups<T>,
    numbers: &[usize],
    event: &Event,
    entries: &mut Vec<&'a Entry<T>>,
) -> Result<(), NoMemory>
    requires alike { (number : ℕ) → AreAlike (entries_at groups.now number) }
    requires among { IsContainedIn (shown entries.old.items) (held groups.now) }
    ensures among { OnOk result (IsContainedIn (shown entries.new.items) (held groups.now)) }
    ensures all { OnOk result ((number : ℕ) (x : AnyEntry T) → Contains numbers.now number
        → Contains (entries_at groups.now number) x
        → Contains (shown entries.new.items) x ⊎ LeavesAsleep event.now x) }
{
    for number in numbers {
        push_roused(groups, *number, event, entries)?;
    }
    Ok(())
}

// Puts the entries of a group last, if the event wakes the first. It tells of all where they are alike.
fn push_roused<'a, T: Drop>(
    groups: &'a Groups<T>,
    number: usize,
    event: &Event,
    entries: &mut Vec<&'a Entry<T>>,
) -> Result<(), NoMemory>
    requires alike { AreAlike (entries_at groups.now number) }
    requires among { IsContainedIn (shown entries.old.items) (held groups.now) }
    ensures kept { OnOk result (IsContainedIn (shown entries.old.items) (shown entries.new.items)) }
    ensures among { OnOk result (IsContainedIn (shown entries.new.items) (held groups.now)) }
    ensures all { OnOk result ((x : AnyEntry T) → Contains (entries_at groups.now number) x
        → Contains (shown entries.new.items) x ⊎ LeavesAsleep event.now x) }
{
    let Some(first) = groups.first(number) else {
        return Ok(());
    };
    if !first.is_roused_by(event) {
        return Ok(());
    }
    groups.push_entries(number, entries)
}
