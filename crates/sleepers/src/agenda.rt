//! Entries that are looked at one after another.
ghost use Rattle.std.specs.Prelude.{◌≡◌, ◌↔◌, ◌++◌, ◌∷◌, [], Contains, IfErr, IfOk, IfSome};
ghost use Rattle.std.specs.Prelude.{IsNone, OnOk, drop};
ghost use Rattle.sleepers.specs.machine.Agendas.{HaveOwnPlaces, IsGapFor};
ghost use Rattle.sleepers.specs.machine.Entries.{ArePlaced, entry_places, shown};
ghost use Rattle.sleepers.specs.machine.NotedGroups.{IsContainedIn};

use crate::entries::Entry;
use crate::places::{Beginning, compare};
use enf_data::NoMemory;
use std::marker::Model;

/// Entries in the order of their places, seen as the list of those that are not passed.
#[derive(Drop)]
pub struct Agenda<'a, T> {
    entries: Vec<&'a Entry<T>>,
    passed: usize,
}

impl<'a, T> Model for Agenda<'a, T> {
    ghost use Rattle.std.specs.Prelude.{List, drop, length, ◌≤◌};
    ghost use Rattle.sleepers.specs.declared.entries.Entry.{Entry};
    ghost use Rattle.sleepers.specs.machine.Entries.{ArePlaced, shown};

    ghost Value = { List (Entry T) };

    ghost view = { λ agenda. drop agenda.passed (shown agenda.entries.items) };

    ghost invariant = { λ agenda. (agenda.passed ≤ length agenda.entries.items)
        × ArePlaced (drop agenda.passed (shown agenda.entries.items)) };
}

impl<'a, T> Agenda<'a, T> {
    // Those of a list in the order of their places.
    pub(crate) fn of(entries: Vec<&'a Entry<T>>) -> Agenda<'a, T>
        requires { ArePlaced (shown entries.items) }
        ensures { result ≡ shown entries.entry.items }
    {
        Agenda { entries, passed: 0 }
    }

    /// The first entry.
    pub fn next(&self) -> Option<&'a Entry<T>>
        ensures none { IsNone result ↔ (self.now ≡ []) }
        ensures some { IfSome result (λ entry. self.now ≡ entry.now ∷ drop 1 self.now) }
        ensures order { ArePlaced self.now }
    {
        self.entries.as_slice()[self.passed..].first().copied()
    }

    /// Passes the first entry.
    pub fn pass(&mut self)
        ensures { self.new ≡ drop 1 self.old }
    {
        if self.passed < self.entries.len() {
            self.passed += 1;
        }
    }

    /// Puts an entry in at its place. One that is there stays once.
    pub fn put(&mut self, entry: &'a Entry<T>) -> Result<(), NoMemory>
        requires { HaveOwnPlaces (entry.now ∷ self.old) }
        ensures has { OnOk result (Contains self.new entry.now) }
        ensures kept { IsContainedIn self.old self.new }
        ensures among { IsContainedIn self.new (entry.now ∷ self.old) }
    {
        match search(
            &self.entries.as_slice()[self.passed..],
            entry.place.as_slice(),
        ) {
            Ok(_at) => Ok(()),
            Err(at) => {
                self.entries.insert(self.passed + at, entry)?;
                Ok(())
            }
        }
    }

    /// Puts entries in at their places.
    pub fn put_each(&mut self, entries: &[&'a Entry<T>]) -> Result<(), NoMemory>
        requires { HaveOwnPlaces (self.old ++ shown entries.now) }
        ensures has { OnOk result (IsContainedIn (shown entries.now) self.new) }
        ensures kept { IsContainedIn self.old self.new }
        ensures among { IsContainedIn self.new (self.old ++ shown entries.now) }
    {
        for entry in entries {
            self.put(*entry)?;
        }
        Ok(())
    }
}

// Where an entry of the place stands, or else where one would.
fn search<T>(entries: &[&Entry<T>], place: &[Beginning]) -> Result<usize, usize>
    requires { ArePlaced (shown entries.now) }
    ensures found { IfOk result (λ _. Contains (entry_places (shown entries.now)) place.now) }
    ensures free { IfErr result (IsGapFor place.now (shown entries.now)) }
{
    entries.binary_search_by(|entry| compare(entry.place.as_slice(), place))
}
