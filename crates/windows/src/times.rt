//! The times at which one row was right, of which only those are kept that a later step can ask for.
ghost use Rattle.std.specs.Prelude.{◌≡◌, ◌↔◌, ◌++◌, ◌∷◌, [], ◌+◌, ◌-◌, ◌<◌, ◌≤◌, ◌⊎◌, ℕ, IfOk, IfSome, OnErr, OnOk};
ghost use Rattle.std.specs.Prelude.{All, IsFalse, IsTrue, Some, Contains, get_or, length, slice_get};
ghost use Rattle.windows.specs.machine.StoredTimes.{stored_times};
ghost use Rattle.windows.specs.machine.WindowEntries.{AddsAtMost, AddsTime, IsSomeIn, SettlesTimes};
ghost use Rattle.windows.specs.meaning.KeptPairs.{IsRisingBy};
ghost use Rattle.windows.specs.machine.RowTimes.{AreLeastTimes, IsEndedTime, IsFirstPassed, RiseTo};
ghost use Rattle.windows.specs.machine.RowTimes.{is_some_time};

use enf_data::intervals::Interval;
use enf_data::items::Duplicate;
use enf_data::memory::NoMemory;
use std::alloc::Global;
use std::collections::VecDeque;
use std::marker::Model;

/// The times of a row in order, seen as the list of them. One takes no memory. A row that was let go has none.
#[derive(Debug, Drop)]
pub struct Times {
    stored: Stored,
}

#[derive(Debug, Drop)]
pub(crate) enum Stored {
    Empty,
    One(u64),
    Several(Box<VecDeque<u64>>),
}

impl Model for Times {
    ghost use Rattle.std.specs.Prelude.{List, ℕ, ◌<◌};
    ghost use Rattle.windows.specs.machine.StoredTimes.{stored_times};
    ghost use Rattle.windows.specs.meaning.KeptPairs.{IsRisingBy};

    ghost Value = { List ℕ };

    ghost view = { λ t. stored_times t.stored };

    ghost invariant = { λ t. IsRisingBy ◌<◌ (stored_times t.stored) };
}

impl Times {
    // The time alone.
    pub fn one(time: u64) -> Times
        ensures { result ≡ time ∷ [] }
    {
        Times {
            stored: Stored::One(time),
        }
    }

    // Whether there is a time.
    pub fn has_time(&self) -> bool
        ensures { result ≡ is_some_time self.now }
    {
        match &self.stored {
            Stored::Empty => false,
            Stored::One(_time) => true,
            Stored::Several(times) => has_some(times),
        }
    }

    // Lets all times go. Answers how many there were.
    pub fn clear(&mut self) -> usize
        ensures cleared { self.new ≡ [] }
        ensures count { result ≡ length self.old }
    {
        let count = self.len();
        self.stored = Stored::Empty;
        count
    }

    // How many times there are.
    pub fn len(&self) -> usize
        ensures { result ≡ length self.now }
    {
        match &self.stored {
            Stored::Empty => 0,
            Stored::One(_time) => 1,
            Stored::Several(times) => times.len(),
        }
    }

    // The time at a place, counted from 0.
    pub fn at(&self, place: usize) -> u64
        requires { place < length self.now }
        ensures { (d : ℕ) → result ≡ get_or self.now place d }
    {
        match &self.stored {
            Stored::Empty => unreachable!(),
            Stored::One(time) => *time,
            Stored::Several(times) => times[place],
        }
    }

    // The time, where it is known to be the only one.
    pub fn only(&self) -> Option<u64>
        ensures { IfSome result (λ time. self.now ≡ time ∷ []) }
    {
        match &self.stored {
            Stored::Empty => None,
            Stored::One(time) => Some(*time),
            Stored::Several(_times) => None,
        }
    }

    // The last of them.
    fn latest(&self) -> Option<u64>
        ensures { result ≡ slice_get self.now (length self.now - 1) }
    {
        match &self.stored {
            Stored::Empty => None,
            Stored::One(time) => Some(*time),
            Stored::Several(times) => last_of(times),
        }
    }

    // Puts the time last. The others are earlier.
    pub fn push(&mut self, alloc: Global, time: u64) -> Result<(), NoMemory>
        requires { All (λ earlier. earlier < time) self.old }
        ensures ok { OnOk result (self.new ≡ self.old ++ time ∷ []) }
        ensures err { OnErr result (self.new ≡ self.old) }
    {
        let first = match &mut self.stored {
            Stored::Several(times) => return put_last(times, time),
            Stored::One(first) => *first,
            Stored::Empty => {
                self.stored = Stored::One(time);
                return Ok(());
            }
        };
        self.stored = Stored::Several(two_times(alloc, first, time)?);
        Ok(())
    }

    // Adds the time, and answers how many more there are. Of an interval without end the earliest is kept alone, and of
    // one that begins at 0 the latest.
    pub fn add(&mut self, alloc: Global, interval: Interval, now: u64) -> Result<usize, NoMemory>
        requires rise { RiseTo now self.old }
        requires least { (self.old ≡ []) ⊎ AreLeastTimes interval.high interval.low now self.old }
        ensures among { OnOk result (AddsAtMost now self.old self.new) }
        ensures added { OnOk result (AddsTime interval now self.old self.new) }
        ensures rise { OnOk result (RiseTo now self.new) }
        ensures least { OnOk result (AreLeastTimes interval.high interval.low now self.new) }
        ensures count { IfOk result (λ more. length self.new ≡ length self.old + more) }
        ensures err { OnErr result (self.new ≡ self.old) }
    {
        if !self.has_time() {
            self.stored = Stored::One(now);
            return Ok(1);
        }
        let Some(_high) = interval.high else {
            return Ok(0);
        };
        if self.ends_with(now) {
            return Ok(0);
        }
        if interval.low == 0 {
            self.stored = Stored::One(now);
            return Ok(0);
        }
        self.push(alloc, now)?;
        Ok(1)
    }

    // Whether the time is the last of them.
    fn ends_with(&self, now: u64) -> bool
        requires { RiseTo now self.now }
        ensures { IsTrue result ↔ Contains self.now now }
    {
        match self.latest() {
            Some(latest) => latest == now,
            None => false,
        }
    }

    // Forgets the times that are past the end, and of those that are far enough all but the latest. Answers how many
    // went.
    pub fn settle_counted(&mut self, low: u64, high: u64, now: u64) -> usize
        requires { RiseTo now self.old }
        ensures settles { SettlesTimes high low now self.old self.new }
        ensures lost { length self.old ≤ length self.new + result }
    {
        let count = self.len();
        self.settle(low, high, now);
        count.saturating_sub(self.len())
    }

    // Forgets those times.
    fn settle(&mut self, low: u64, high: u64, now: u64)
        requires { RiseTo now self.old }
        ensures { SettlesTimes high low now self.old self.new }
    {
        if let Stored::Several(times) = &mut self.stored {
            settle_all(times, low, high, now);
            return;
        }
        if !self.are_ended(high, now) {
            return;
        }
        self.stored = Stored::Empty;
    }

    // Whether one of the times is at a distance in the interval. Of those that are far enough the latest is the nearest.
    pub fn has_in(&self, interval: Interval, now: u64) -> bool
        ensures { IsTrue result ↔ IsSomeIn interval now self.now }
    {
        match &self.stored {
            Stored::Empty => false,
            Stored::One(time) => interval.has(now.saturating_sub(*time)),
            Stored::Several(times) => is_some_in(times, interval, now),
        }
    }

    // Whether each of the times is past the end of the interval.
    pub fn are_ended(&self, high: u64, now: u64) -> bool
        requires { RiseTo now self.now }
        ensures ended { IsTrue result
            → ((time : ℕ) → Contains self.now time → IsEndedTime (Some high) now time) }
        ensures live { IsFalse result → (time : ℕ) × Contains self.now time × (now - time ≤ high) }
    {
        match self.latest() {
            Some(latest) => high < now - latest,
            None => true,
        }
    }
}

impl Duplicate for Times {
    fn duplicate(&self, alloc: Global) -> Result<Times, NoMemory> {
        let stored = match &self.stored {
            Stored::Empty => Stored::Empty,
            Stored::One(time) => Stored::One(*time),
            Stored::Several(times) => Stored::Several(copy_times(alloc, times)?),
        };
        Ok(Times { stored })
    }
}

fn has_some(times: &VecDeque<u64>) -> bool
    ensures { result ≡ is_some_time times.now.items }
{
    !times.is_empty()
}

fn last_of(times: &VecDeque<u64>) -> Option<u64>
    ensures { result ≡ slice_get times.now.items (length times.now.items - 1) }
{
    match times.back() {
        Some(time) => Some(*time),
        None => None,
    }
}

fn put_last(times: &mut VecDeque<u64>, time: u64) -> Result<(), NoMemory>
    ensures ok { OnOk result (times.new.items ≡ times.old.items ++ time ∷ []) }
    ensures err { OnErr result (times.new.items ≡ times.old.items) }
{
    times.push_back(time)?;
    Ok(())
}

fn two_times(alloc: Global, first: u64, second: u64) -> Result<Box<VecDeque<u64>>, NoMemory>
    ensures { IfOk result (λ times. times.value.items ≡ first ∷ second ∷ []) }
{
    let mut times = VecDeque::with_capacity(alloc, 2)?;
    times.push_back(first)?;
    times.push_back(second)?;
    Ok(Box::new(alloc, times)?)
}

fn copy_times(alloc: Global, times: &VecDeque<u64>) -> Result<Box<VecDeque<u64>>, NoMemory>
    ensures { IfOk result (λ copy. copy.value.items ≡ times.now.items) }
{
    let mut copy = VecDeque::with_capacity(alloc, times.len())?;
    for time in times.iter() {
        copy.push_back(*time)?;
    }
    Ok(Box::new(alloc, copy)?)
}

fn settle_all(times: &mut VecDeque<u64>, low: u64, high: u64, now: u64)
    requires { RiseTo now times.old.items }
    ensures { SettlesTimes high low now times.old.items times.new.items }
{
    while is_first_passed(times, low, high, now) {
        times.pop_front();
    }
}

// Whether the first time is past the end, or the second far enough.
fn is_first_passed(times: &VecDeque<u64>, low: u64, high: u64, now: u64) -> bool
    ensures passed { IsTrue result → IsFirstPassed high low now times.now.items }
    ensures held { IsFalse result → IsFirstPassed high low now times.now.items → ⊥ }
{
    if times.len() < 2 {
        return is_ended(times, high, now);
    }
    is_passed(times[0], times[1], low, high, now)
}

// Whether there is a time, and the first is past the end.
fn is_ended(times: &VecDeque<u64>, high: u64, now: u64) -> bool
    ensures some { IsTrue result → (0 < length times.now.items) × ((d : ℕ) → high < now - get_or times.now.items 0 d) }
    ensures live { IsFalse result → 0 < length times.now.items → (d : ℕ)
        → now - get_or times.now.items 0 d ≤ high }
{
    match times.front() {
        Some(first) => high < now.saturating_sub(*first),
        None => false,
    }
}

fn is_passed(first: u64, second: u64, low: u64, high: u64, now: u64) -> bool
    ensures passed { IsTrue result → (high < now - first) ⊎ (low ≤ now - second) }
    ensures held { IsFalse result → (now - first ≤ high) × (now - second < low) }
{
    high < now.saturating_sub(first) || low <= now.saturating_sub(second)
}

fn is_some_in(times: &VecDeque<u64>, interval: Interval, now: u64) -> bool
    requires { IsRisingBy ◌<◌ times.now.items }
    ensures { IsTrue result ↔ IsSomeIn interval now times.now.items }
{
    let far = count_far(times, interval.low, now);
    0 < far && interval.has(now.saturating_sub(times[far - 1]))
}

// How many of the times are far enough.
fn count_far(times: &VecDeque<u64>, low: u64, now: u64) -> usize
    requires { IsRisingBy ◌<◌ times.now.items }
    ensures within { result ≤ length times.now.items }
    ensures far { (place : ℕ) (d : ℕ) → place < result → low ≤ now - get_or times.now.items place d }
    ensures near { (place : ℕ) (d : ℕ) → result ≤ place → place < length times.now.items
        → now - get_or times.now.items place d < low }
{
    times.partition_point(|time| low <= now.saturating_sub(*time))
}
