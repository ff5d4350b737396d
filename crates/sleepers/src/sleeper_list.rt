//! Entries in the order of their places, and a walk over those that are awake.
ghost use Rattle.std.specs.Prelude.{◌≡◌, ◌↔◌, ◌++◌, [], ◌∷◌, IsNone, drop, length, IfNone, IfOk, IsFalse};
ghost use Rattle.std.specs.Prelude.{IfSome, OnErr, OnOk};
ghost use Rattle.std.specs.Option.{option_to_list};
ghost use Rattle.sleepers.specs.machine.Agendas.{Rouses};
ghost use Rattle.sleepers.specs.machine.NotedGroups.{IsContainedIn};
ghost use Rattle.sleepers.specs.machine.Entries.{AllButThose, HasOneMoreEntry, IsAllBut, IsAsleep, IsFreePlace, shown};

use crate::agenda::Agenda;
use crate::awake_groups::{
    awake, group_for, leave, may_wake, release, renew, rewind_each, sort_by_place, woken,
};
use crate::entries::Entry;
use crate::groups::Groups;
use crate::rousing::roused;
use crate::wake_index::Index;
use enf_data::{Event, NoMemory, Seed};
use std::alloc::Global;
use std::marker::Model;
use std::mem::replace;

/// Entries of which each has a place of its own, seen as the list of them in the order of their places; with those that
/// a walk over what is awake has in front of it.
#[derive(Drop)]
pub struct Sleepers<T> {
    // The entries of a group sleep at the same steps.
    groups: Groups<T>,
    index: Index,
    count: usize,
    // The groups that the walk has in front of it, the next one last, in that up to its cursor.
    walk: Vec<usize>,
    // The room of the walk before.
    spare: Vec<usize>,
    alloc: Global,
}

impl<T> Model for Sleepers<T> {
    ghost use Rattle.std.specs.Prelude.{reverse};
    ghost use Rattle.sleepers.specs.machine.Groups.{AreKept, ahead_of, by_place, held};
    ghost use Rattle.sleepers.specs.machine.Entries.{Sleeping};

    ghost Value = { Sleeping T };

    ghost view = { λ s. record {
      entries = by_place (held s.groups);
      ahead = ahead_of s.groups (reverse s.walk.items);
    } };

    ghost invariant = { λ s. AreKept s.groups s.index s.count (reverse s.walk.items) };
}

impl<T: Drop> Sleepers<T> {
    /// No entry. It takes no memory. What wakes entries is found by hashes from the seed on.
    pub fn new(alloc: Global, seed: Seed) -> Sleepers<T>
        ensures entries { result.entries ≡ [] }
        ensures ahead { result.ahead ≡ [] }
    {
        Sleepers {
            groups: Groups::new(alloc),
            index: Index::new(alloc, seed),
            count: 0,
            walk: Vec::new(alloc),
            spare: Vec::new(alloc),
            alloc,
        }
    }

    /// The seed of the hashes.
    pub fn seed(&self) -> Seed {
        self.index.seed()
    }

    /// How many entries there are.
    pub fn len(&self) -> usize
        ensures { result ≡ length self.now.entries }
    {
        self.count
    }

    /// All entries in order.
    pub fn in_order(&self, alloc: Global) -> Result<Vec<&Entry<T>>, NoMemory>
        ensures { IfOk result (λ all. shown all.items ≡ self.now.entries) }
    {
        let mut all = self.groups.all(alloc)?;
        sort_by_place(&mut all);
        Ok(all)
    }

    /// Those that are awake at a step of this time with these events, to be looked at one after another.
    pub fn agenda(
        &self,
        alloc: Global,
        events: &[Event],
        time: u64,
    ) -> Result<Agenda<'_, T>, NoMemory>
        ensures { IfOk result (λ agenda. AllButThose (IsAsleep events.now time) self.now.entries agenda) }
    {
        let mut woken = woken(alloc, &self.groups, &self.index, events, time)?;
        sort_by_place(&mut woken);
        Ok(Agenda::of(woken))
    }

    /// Whether some entry may be awake at a step of this time with these events: one waits for an event of such a name,
    /// or a time has come.
    pub fn may_wake(&self, events: &[Event], time: u64) -> bool
        ensures { IsFalse result → AllButThose (IsAsleep events.now time) self.now.entries [] }
    {
        may_wake(&self.groups, &self.index, events, time)
    }

    /// Puts those entries into an agenda that the event wakes. Without memory some may be missing.
    pub fn rouse<'a>(&'a self, event: &Event, agenda: &mut Agenda<'a, T>) -> Result<(), NoMemory>
        requires { IsContainedIn agenda.old self.now.entries }
        ensures ok { OnOk result (Rouses event.now self.now.entries agenda.old agenda.new) }
        ensures among { IsContainedIn agenda.new self.now.entries }
    {
        let roused = roused(self.alloc, &self.groups, &self.index, event)?;
        agenda.put_each(roused.as_slice())
    }

    /// Puts an entry in, at a place that none has. A walk is over then. Without memory the entries stay.
    pub fn put(&mut self, entry: Entry<T>) -> Result<(), NoMemory>
        requires { IsFreePlace entry.place self.old.entries }
        ensures ok { OnOk result (HasOneMoreEntry entry self.old.entries self.new.entries) }
        ensures err { OnErr result (self.new.entries ≡ self.old.entries) }
        ensures ahead { self.new.ahead ≡ [] }
    {
        self.walk.clear();
        let Some(more) = self.count.checked_add(1) else {
            return Err(NoMemory);
        };
        let number = group_for(self.alloc, &mut self.groups, &mut self.index, &entry)?;
        match self.groups.put(number, entry) {
            Ok(()) => {
                self.count = more;
                Ok(())
            }
            Err(refused) => {
                release(&mut self.groups, &mut self.index, number, &refused);
                Err(NoMemory)
            }
        }
    }

    /// Begins a walk over those that are awake at a step of this time with these events, in any order.
    pub fn wake(&mut self, alloc: Global, events: &[Event], time: u64) -> Result<(), NoMemory>
        ensures ok { OnOk result (IsAllBut (IsAsleep events.now time) self.old.entries self.new.ahead) }
        ensures err { OnErr result (self.new.ahead ≡ self.old.ahead) }
        ensures entries { self.new.entries ≡ self.old.entries }
    {
        let room = replace(&mut self.spare, Vec::new(self.alloc));
        let numbers = awake(alloc, &self.groups, &self.index, events, time, room)?;
        rewind_each(&mut self.groups, numbers.as_slice());
        self.spare = replace(&mut self.walk, numbers);
        Ok(())
    }

    /// The entry at which the walk stands.
    pub fn peek(&self) -> Option<&Entry<T>>
        ensures none { IsNone result ↔ (self.now.ahead ≡ []) }
        ensures some { IfSome result (λ entry. self.now.ahead ≡ entry.now ∷ drop 1 self.now.ahead) }
    {
        let number = self.walk.last().copied()?;
        self.groups.peek(number)
    }

    /// Passes the entry at which the walk stands.
    pub fn pass(&mut self)
        ensures entries { self.new.entries ≡ self.old.entries }
        ensures ahead { self.new.ahead ≡ drop 1 self.old.ahead }
    {
        let Some(number) = self.walk.last().copied() else {
            return;
        };
        self.groups.pass(number);
        leave(&self.groups, &mut self.walk, number);
    }

    /// Takes the entry out at which the walk stands.
    pub fn take(&mut self) -> Option<Entry<T>>
        ensures ahead { self.old.ahead ≡ option_to_list result ++ self.new.ahead }
        ensures some { IfSome result (λ entry. HasOneMoreEntry entry self.new.entries self.old.entries) }
        ensures none { IfNone result ((self.old.ahead ≡ []) × (self.new.entries ≡ self.old.entries)) }
    {
        let number = self.walk.last().copied()?;
        let entry = self.groups.take(number)?;
        self.count -= 1;
        leave(&self.groups, &mut self.walk, number);
        release(&mut self.groups, &mut self.index, number, &entry);
        renew(self.alloc, &mut self.groups, &mut self.index, self.count);
        Some(entry)
    }
}
