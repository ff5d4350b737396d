//! Numbers of groups under keys.
ghost use Rattle.std.specs.Prelude.{◌≡◌, ◌≤◌, ℕ, [], Contains, IsTrue, OnOk};
ghost use Rattle.sleepers.specs.machine.NotedGroups.{IsContainedIn, IsWithinBut};

use enf_data::NoMemory;
use std::alloc::Global;
use std::collections::BTreeSet;
use std::marker::Model;

/// Groups by keys, seen as the list of all pairs of a key and the number of a group.
#[derive(Debug, Drop)]
pub struct Pairs {
    pairs: BTreeSet<(u64, usize)>,
}

impl Model for Pairs {
    ghost use Rattle.std.specs.Prelude.{ℕ, ◌<◌, ◌^◌, List};
    ghost use Rattle.std.specs.List.{AllByRecursion};

    ghost Value = { List (ℕ × ℕ) };

    ghost view = { λ p. p.pairs.keys };

    ghost invariant = { λ p. AllByRecursion (λ (pair : ℕ × ℕ). pair.1 < 2 ^ 64) p.pairs.keys };
}

impl Pairs {
    // No pair. It takes no memory.
    pub(crate) fn new(alloc: Global) -> Pairs
        ensures { result ≡ [] }
    {
        Pairs {
            pairs: BTreeSet::new(alloc),
        }
    }

    // Puts a group under a key.
    pub(crate) fn add(&mut self, key: u64, group: usize) -> Result<(), NoMemory>
        ensures ok { OnOk result (Contains self.new (key, group)) }
        ensures kept { IsContainedIn self.old self.new }
    {
        self.pairs.insert((key, group))?;
        Ok(())
    }

    // Takes a group from a key.
    pub(crate) fn remove(&mut self, key: u64, group: usize)
        ensures { IsWithinBut group self.old self.new }
    {
        self.pairs.remove(&(key, group));
    }

    // Adds the groups under the keys of a range.
    pub(crate) fn find(
        &self,
        least: u64,
        greatest: u64,
        found: &mut Vec<usize>,
    ) -> Result<(), NoMemory>
        requires { least ≤ greatest }
        ensures ok { OnOk result ((pair : ℕ × ℕ) → Contains self.now pair → least ≤ pair.0
            → pair.0 ≤ greatest → Contains found.new.items pair.1) }
        ensures kept { IsContainedIn found.old.items found.new.items }
    {
        for pair in self.pairs.range((least, 0)..=(greatest, usize::MAX)) {
            found.push(pair.1)?;
        }
        Ok(())
    }

    // Adds the groups under the keys up to one.
    pub(crate) fn find_up_to(&self, greatest: u64, found: &mut Vec<usize>) -> Result<(), NoMemory>
        ensures ok { OnOk result ((pair : ℕ × ℕ) → Contains self.now pair → pair.0 ≤ greatest
            → Contains found.new.items pair.1) }
        ensures kept { IsContainedIn found.old.items found.new.items }
    {
        if self.is_above(greatest) {
            return Ok(());
        }
        self.find(0, greatest, found)
    }

    // Whether all keys are above this one.
    pub(crate) fn is_above(&self, key: u64) -> bool
        ensures { IsTrue result → (pair : ℕ × ℕ) → Contains self.now pair → pair.0 ≤ key → ⊥ }
    {
        match self.pairs.first() {
            Some(pair) => pair.0 > key,
            None => true,
        }
    }

    // The last of the groups under a key.
    pub(crate) fn last(&self, key: u64) -> Option<usize> {
        // what is put in next ends last mostly, and what is taken up again ends first
        if self.pairs.last()?.0 < key || key < self.pairs.first()?.0 {
            return None;
        }
        let pair = self.pairs.range((key, 0)..=(key, usize::MAX)).next_back()?;
        Some(pair.1)
    }
}
