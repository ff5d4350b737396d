//! What time takes out of a window: times past the end of the interval, and of those that are far enough all but the
//! latest of each row. A time is looked at once where it becomes far enough, and once where it ends.
ghost use Rattle.std.specs.Prelude.{◌≡◌, ◌-◌, ◌≤◌, ℕ, List, Some, All, Contains};
ghost use Rattle.enf_data.specs.declared.values.Value.{Value as AnyValue};
ghost use Rattle.windows.specs.declared.queue.Due.{Due as AnyDue};
ghost use Rattle.windows.specs.machine.WindowEntries.{AreWindowEntries, AreLeast, Forgets, count_pairs};
ghost use Rattle.windows.specs.machine.DueQueues.{AreInReach, AreQueued, AreUpToTime, IsSettledAt, LetsGo};
ghost use Rattle.windows.specs.machine.DueQueues.{waiting_of};
ghost use Rattle.windows.specs.machine.RowTimes.{IsEndedTime};

use crate::entries::{Entries, settle_at};
use crate::queue::DueQueue;
use enf_data::intervals::Interval;

// Forgets what the window need not keep at this time. There are at least so many times as `pairs`, and then as the
// answer.
pub fn forget_dues(
    entries: &mut Entries,
    queue: &mut DueQueue,
    interval: Interval,
    now: u64,
    pairs: usize,
) -> usize
    requires kept { (long : ℕ) × AreWindowEntries long now entries.old.entries }
    requires least { (last : ℕ) × (last ≤ now) × AreLeast interval last entries.old.entries }
    requires queued { (high : ℕ) → interval.high ≡ Some high → AreQueued entries.old.entries queue.old }
    requires counted { pairs ≤ count_pairs entries.old.entries }
    ensures kept { (long : ℕ) → AreWindowEntries long now entries.old.entries
        → AreWindowEntries long now entries.new.entries }
    ensures least { AreLeast interval now entries.new.entries }
    ensures queued { (high : ℕ) → interval.high ≡ Some high → AreQueued entries.new.entries queue.new }
    ensures forgets { Forgets interval now entries.old.entries entries.new.entries }
    ensures up_to { AreUpToTime now queue.old.dues → AreUpToTime now queue.new.dues }
    ensures in_reach { (last : ℕ) → AreInReach interval.high last queue.old.dues
        → AreInReach interval.high now queue.new.dues }
    ensures counted { result ≤ count_pairs entries.new.entries }
{
    let Some(high) = interval.high else {
        return pairs;
    };
    let left = forget_ended(entries, queue, interval, high, now, pairs);
    if 0 < interval.low {
        forget_far(entries, queue, interval, high, now, left)
    } else {
        left
    }
}

// Lets the times go that are past the end of the interval.
fn forget_ended(
    entries: &mut Entries,
    queue: &mut DueQueue,
    interval: Interval,
    high: u64,
    now: u64,
    pairs: usize,
) -> usize
    requires high { interval.high ≡ Some high }
    requires kept { (long : ℕ) × AreWindowEntries long now entries.old.entries }
    requires counted { pairs ≤ count_pairs entries.old.entries }
    ensures kept { (long : ℕ) → AreWindowEntries long now entries.old.entries
        → AreWindowEntries long now entries.new.entries }
    ensures forgets { Forgets interval now entries.old.entries entries.new.entries }
    ensures settled { (d : AnyDue) → Contains queue.old.dues d
        → IsEndedTime (Some high) now d.time → IsSettledAt high interval.low now entries.new.entries d.place }
    ensures lets_go { LetsGo (IsEndedTime (Some high) now) (IsEndedTime (Some high) now) queue.old queue.new }
    ensures live { All (λ d. now - d.time ≤ high) queue.new.dues }
    ensures counted { result ≤ count_pairs entries.new.entries }
{
    let mut left = pairs;
    while let Some(due) = queue.take_ended(high, now) {
        left = settle_at(entries, due.place, interval, high, now, left);
    }
    left
}

// Passes those that are far enough: of the times of a row up to such a one the latest is enough.
fn forget_far(
    entries: &mut Entries,
    queue: &mut DueQueue,
    interval: Interval,
    high: u64,
    now: u64,
    pairs: usize,
) -> usize
    requires high { interval.high ≡ Some high }
    requires kept { (long : ℕ) × AreWindowEntries long now entries.old.entries }
    requires counted { pairs ≤ count_pairs entries.old.entries }
    ensures kept { (long : ℕ) → AreWindowEntries long now entries.old.entries
        → AreWindowEntries long now entries.new.entries }
    ensures forgets { Forgets interval now entries.old.entries entries.new.entries }
    ensures settled { (d : AnyDue) → Contains (waiting_of queue.old) d
        → interval.low ≤ now - d.time → IsSettledAt high interval.low now entries.new.entries d.place }
    ensures lets_go { LetsGo (λ _. ⊥) (λ time. interval.low ≤ now - time) queue.old queue.new }
    ensures counted { result ≤ count_pairs entries.new.entries }
{
    let mut left = pairs;
    while let Some(due) = queue.first_far(interval.low, now) {
        left = settle_at(entries, due.place, interval, high, now, left);
        queue.pass();
    }
    left
}
