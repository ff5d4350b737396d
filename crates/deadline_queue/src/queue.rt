//! Deadlines, each held as often as something is to be done by then.
ghost use Rattle.std.specs.Prelude.{◌≡◌, ◌↔◌, ◌-◌, ◌<◌, ◌^◌, [], IsErr, OnErr, OnOk};
ghost use Rattle.deadline_queue.specs.machine.Queues.{HoldsOneMore, IsLeastOf, IsDeadlineQueue, held_deadlines};
ghost use Rattle.deadline_queue.specs.machine.Queues.{held_count};

use enf_data::memory::NoMemory;
use std::alloc::Global;
use std::collections::BTreeMap;
use std::marker::Model;

/// A deadline is not held.
#[derive(Clone, Copy, Debug, PartialEq, Eq)]
pub struct NotThere;

/// Deadlines with how often each is held, seen as pairs, the least deadline first.
#[derive(Debug, Drop)]
pub struct DeadlineQueue {
    counts: BTreeMap<u64, u64>,
}

impl Model for DeadlineQueue {
    ghost use Rattle.std.specs.Prelude.{List, ℕ};
    ghost use Rattle.deadline_queue.specs.machine.Queues.{IsDeadlineQueue};

    ghost Value = { List (ℕ × ℕ) };

    ghost view = { λ queue. queue.counts.entries };

    ghost invariant = { λ queue. IsDeadlineQueue queue.counts.entries };
}

impl DeadlineQueue {
    /// No deadline is held. It takes no memory.
    pub fn new(alloc: Global) -> DeadlineQueue
        ensures { result ≡ [] }
    {
        DeadlineQueue {
            counts: BTreeMap::new(alloc),
        }
    }

    /// Holds a deadline once more. Without memory the queue stays.
    pub fn add(&mut self, deadline: u64) -> Result<(), NoMemory>
        requires few { held_count self.old deadline < 2 ^ 64 - 1 }
        ensures ok { OnOk result (HoldsOneMore deadline self.old self.new) }
        ensures err { OnErr result (self.new ≡ self.old) }
        ensures queue { IsDeadlineQueue self.new }
    {
        // Most deadlines are new: so one way down the tree is enough.
        let Some(count) = self.counts.insert(deadline, 1)? else {
            return Ok(());
        };
        if let Some(held) = self.counts.get_mut(&deadline) {
            *held = count + 1;
        }
        Ok(())
    }

    /// Holds a deadline once less, and answers `NotThere` where it is not held.
    pub fn take_one(&mut self, deadline: u64) -> Result<(), NotThere>
        ensures ok { OnOk result (HoldsOneMore deadline self.new self.old) }
        ensures not_there { IsErr result ↔ (held_count self.old deadline ≡ 0) }
        ensures err { OnErr result (self.new ≡ self.old) }
        ensures queue { IsDeadlineQueue self.new }
    {
        let Some(count) = self.counts.get(&deadline).copied() else {
            return Err(NotThere);
        };
        if count == 1 {
            self.counts.remove(&deadline);
            return Ok(());
        }
        if let Some(held) = self.counts.get_mut(&deadline) {
            *held = count - 1;
        }
        Ok(())
    }

    /// The least deadline that is held.
    pub fn least(&self) -> Option<u64>
        ensures { IsLeastOf (held_deadlines self.now) result }
    {
        match self.counts.first_key_value() {
            Some((deadline, _)) => Some(*deadline),
            None => None,
        }
    }
}
