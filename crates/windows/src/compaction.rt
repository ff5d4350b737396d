//! What a window holds beside what it keeps, rows without times and dues of times that went, is taken out once it is
//! many: so it holds no more than a constant times what it keeps.
ghost use Rattle.std.specs.Prelude.{◌≡◌, ◌+◌, ◌*◌, ◌≤◌, ℕ, ◌++◌, IfOk, IfSome, IsFalse, OnOk, length, map};
ghost use Rattle.enf_data.specs.meaning.Membership.{HasNoRepeats};
ghost use Rattle.windows.specs.machine.DueQueues.{IsQueueAt, due, dues_from};
ghost use Rattle.windows.specs.machine.RowIndexes.{IsIndexOf};
ghost use Rattle.windows.specs.machine.RowTimes.{is_some_time};
ghost use Rattle.windows.specs.machine.WindowEntries.{AreLeast, AreWindowEntries, KeepsRows, count_pairs, rows_of};
ghost use Rattle.windows.specs.machine.Windows.{IsWindow, kept_entries};

use crate::entries::Entries;
use crate::queue::{Due, DueQueue};
use crate::row_index::{RowIndex, made_anew};
use crate::times::Times;
use enf_data::intervals::Interval;
use enf_data::memory::NoMemory;
use enf_data::rows::Row;
use enf_data::terms::VarId;
use std::alloc::Global;
use std::mem;

// Takes out rows without times, and dues of times that went, where one of them are many against the times. There are at
// least so many as `pairs`, and then as the answer.
pub fn compact_if_many(
    entries: &mut Entries,
    index: &mut Option<RowIndex>,
    queue: &mut DueQueue,
    among: &[VarId],
    interval: Interval,
    now: u64,
    pairs: usize,
) -> Result<usize, NoMemory>
    requires distinct { HasNoRepeats among.now }
    requires kept { AreWindowEntries (length among.now) now entries.old.entries }
    requires least { AreLeast interval now entries.old.entries }
    requires queued { IsQueueAt interval now entries.old.entries queue.old }
    requires indexed { IfSome index.old (IsIndexOf among.now (rows_of entries.old.entries)) }
    requires counted { pairs ≤ count_pairs entries.old.entries }
    ensures keeps { OnOk result (KeepsRows (λ row. Unit {0}) entries.old.entries entries.new.entries) }
    ensures window { IfOk result (IsWindow interval among.now now entries.new.entries queue.new index.new) }
{
    if !are_many(entries.len(), queue.len(), pairs) {
        return Ok(pairs);
    }
    compact(entries, index, queue, among, interval, now)
}

// Takes them out, and answers how many times there are.
#[inline(never)]
fn compact(
    entries: &mut Entries,
    index: &mut Option<RowIndex>,
    queue: &mut DueQueue,
    among: &[VarId],
    interval: Interval,
    now: u64,
) -> Result<usize, NoMemory>
    requires distinct { HasNoRepeats among.now }
    requires kept { AreWindowEntries (length among.now) now entries.old.entries }
    requires least { AreLeast interval now entries.old.entries }
    requires indexed { IfSome index.old (IsIndexOf among.now (rows_of entries.old.entries)) }
    ensures keeps { OnOk result (KeepsRows (λ row. Unit {0}) entries.old.entries entries.new.entries) }
    ensures window { IfOk result (IsWindow interval among.now now entries.new.entries queue.new index.new) }
{
    let alloc = *entries.allocator();
    take_out(entries);
    let old = mem::replace(index, None);
    let made = made_anew(alloc, &old, among, entries)?;
    *index = made;
    *queue = DueQueue::new(alloc);
    let queued = queue_of(alloc, interval, now, entries)?;
    let pairs = counted(interval, &queued, entries);
    *queue = queued;
    Ok(pairs)
}

// How many times there are. Of an interval with an end each waits in the queue.
fn counted(interval: Interval, queued: &DueQueue, entries: &Entries) -> usize
    requires { length queued.now.dues ≤ count_pairs entries.now.entries }
    ensures { result ≤ count_pairs entries.now.entries }
{
    if interval.high.is_some() {
        queued.len()
    } else {
        count(entries)
    }
}

// Whether so many rows, or so many dues, are many against so many times.
fn are_many(rows: usize, dues: usize, pairs: usize) -> bool
    ensures { IsFalse result → (rows ≤ 2 * pairs + 64) × (dues ≤ 2 * pairs + 64) }
{
    let bound = pairs.saturating_add(64);
    bound.saturating_add(pairs / 3) < rows || bound.saturating_add(pairs) < dues
}

// Takes the rows out that have no times; the others stay in their order.
fn take_out(entries: &mut Entries)
    ensures { entries.new.entries ≡ kept_entries entries.old.entries }
{
    entries.retain(
        |_row: &Row, times: &mut Times| -> bool
            ensures { (result ≡ is_some_time times.old) × (times.new ≡ times.old) }
        { times.has_time() },
    );
}

// How many times there are, or at least some of these where they are too many to count.
pub fn count(entries: &Entries) -> usize
    ensures { result ≤ count_pairs entries.now.entries }
{
    let mut pairs: usize = 0;
    for times in entries.values() {
        pairs = pairs.saturating_add(times.len());
    }
    pairs
}

// The queue of all times of the entries, where the interval has an end.
pub fn queue_of(
    alloc: Global,
    interval: Interval,
    now: u64,
    entries: &Entries,
) -> Result<DueQueue, NoMemory>
    requires kept { (long : ℕ) × AreWindowEntries long now entries.now.entries }
    requires least { AreLeast interval now entries.now.entries }
    ensures queued { IfOk result (IsQueueAt interval now entries.now.entries) }
    ensures count { IfOk result (λ queue. length queue.dues ≤ count_pairs entries.now.entries) }
{
    if interval.high.is_none() {
        return Ok(DueQueue::new(alloc));
    }
    Ok(DueQueue::from_dues(all_dues(alloc, entries)?))
}

// The times of all rows, each with its place.
fn all_dues(alloc: Global, entries: &Entries) -> Result<Vec<Due>, NoMemory>
    ensures { IfOk result (λ dues. dues.items ≡ dues_from 0 (map (λ e. e.1) entries.now.entries)) }
{
    let mut dues = Vec::with_capacity(alloc, entries.len())?;
    let mut place = 0;
    for times in entries.values() {
        push_dues(times, place, &mut dues)?;
        place += 1;
    }
    Ok(dues)
}

// Puts a due last for each of the times of the row at the place.
fn push_dues(times: &Times, place: usize, out: &mut Vec<Due>) -> Result<(), NoMemory>
    ensures { OnOk result (out.new.items ≡ out.old.items ++ map (λ time. due time place) times.now) }
{
    if let Some(time) = times.only() {
        out.push(Due { time, place })?;
        return Ok(());
    }
    for index in 0..times.len() {
        out.push(Due {
            time: times.at(index),
            place,
        })?;
    }
    Ok(())
}
