//! The times of the rows of a window of an interval with an end, in their order.
ghost use Rattle.std.specs.Prelude.{◌≡◌, ◌-◌, ◌+◌, ◌<◌, ◌≤◌, ◌↔◌, [], ◌∷◌};
ghost use Rattle.std.specs.Prelude.{◌++◌, All, Contains, List, IfNone, IfSome, OnErr, OnOk, length, drop};
ghost use Rattle.windows.specs.machine.DueQueues.{AreUpToTime, due, waiting_of};
ghost use Rattle.windows.specs.declared.queue.Due.{Due as AnyDue};

use enf_data::items::Duplicate;
use enf_data::memory::NoMemory;
use std::alloc::Global;
use std::collections::VecDeque;
use std::marker::Model;

/// A time at which the row at a place was right.
#[derive(Clone, Copy, Debug)]
pub struct Due {
    pub time: u64,
    pub place: usize,
}

/// Times of rows, with the places of the rows, of which none is past the end of an interval. How many at the front are
/// far enough is counted.
#[derive(Debug, Drop)]
pub struct DueQueue {
    dues: VecDeque<Due>,
    far: usize,
}

impl Model for DueQueue {
    ghost use Rattle.windows.specs.machine.DueQueues.{Queue, IsDueQueue};

    ghost Value = { Queue };

    ghost view = { λ q. record { dues = q.dues.items; far = q.far } };

    ghost invariant = { λ q. IsDueQueue (record { dues = q.dues.items; far = q.far }) };
}

impl DueQueue {
    // Nothing waits.
    pub fn new(alloc: Global) -> DueQueue
        ensures { result ≡ record { dues = []; far = 0 } }
    {
        DueQueue {
            dues: VecDeque::new(alloc),
            far: 0,
        }
    }

    // These in the order of their times, none of which is known to be far enough.
    pub fn from_dues(dues: Vec<Due>) -> DueQueue
        ensures far { result.far ≡ 0 }
        ensures count { length result.dues ≡ length dues.items }
        ensures dues { (d : AnyDue) → Contains result.dues d ↔ Contains dues.items d }
    {
        let mut dues = dues;
        dues.sort_unstable_by_key(|due| due.time);
        DueQueue {
            dues: VecDeque::from(dues),
            far: 0,
        }
    }

    // How many there are.
    pub fn len(&self) -> usize
        ensures { result ≡ length self.now.dues }
    {
        self.dues.len()
    }

    // Puts the time of the row at the place last.
    pub fn push(&mut self, time: u64, place: usize) -> Result<(), NoMemory>
        requires { AreUpToTime time self.old.dues }
        ensures ok { OnOk result (self.new ≡ record {
          dues = self.old.dues ++ due time place ∷ [];
          far = self.old.far;
        }) }
        ensures waits { OnOk result (waiting_of self.new ≡ waiting_of self.old ++ due time place ∷ []) }
        ensures err { OnErr result (self.new ≡ self.old) }
    {
        self.dues.push_back(Due { time, place })?;
        Ok(())
    }

    // The first, where it is past the end.
    pub fn take_ended(&mut self, high: u64, now: u64) -> Option<Due>
        ensures some { IfSome result (λ d. (high < now - d.time) × (self.old.dues ≡ d ∷ self.new.dues)
            × (self.new.far ≡ self.old.far - 1)) }
        ensures none { IfNone result (self.new ≡ self.old) }
        ensures live { IfNone result (All (λ d. now - d.time ≤ high) self.old.dues) }
    {
        let ended = match self.dues.front() {
            Some(due) => high < now.saturating_sub(due.time),
            None => false,
        };
        if !ended {
            return None;
        }
        self.far = self.far.saturating_sub(1);
        self.dues.pop_front()
    }

    // The first after those that were passed, where it is far enough.
    pub fn first_far(&self, low: u64, now: u64) -> Option<Due>
        ensures some { IfSome result (λ d. (low ≤ now - d.time)
            × (waiting_of self.now ≡ d ∷ drop (self.now.far + 1) self.now.dues)) }
        ensures none { IfNone result (All (λ d. now - d.time < low) (waiting_of self.now)) }
    {
        let due = self.dues.get(self.far)?;
        if now.saturating_sub(due.time) < low {
            return None;
        }
        Some(*due)
    }

    // Passes it.
    pub fn pass(&mut self)
        requires { self.old.far < length self.old.dues }
        ensures { self.new ≡ record { dues = self.old.dues; far = self.old.far + 1 } }
    {
        self.far += 1;
    }
}

impl Duplicate for DueQueue {
    fn duplicate(&self, alloc: Global) -> Result<DueQueue, NoMemory> {
        let mut dues = VecDeque::with_capacity(alloc, self.dues.len())?;
        for due in self.dues.iter() {
            dues.push_back(*due)?;
        }
        Ok(DueQueue {
            dues,
            far: self.far,
        })
    }
}
