//! What a committed step adds to a window.
ghost use Rattle.std.specs.Prelude.{◌≡◌, ◌≤◌, [], All, Contains, IfOk, IfSome, None, OnErr, OnOk, length};
ghost use Rattle.enf_data.specs.meaning.Membership.{HasNoRepeats};
ghost use Rattle.windows.specs.machine.DueQueues.{IsQueueAt};
ghost use Rattle.windows.specs.machine.RowIndexes.{IsIndexOf};
ghost use Rattle.windows.specs.machine.WindowEntries.{AddAtMost, AddsTimes, AreLeast, AreWindowEntries};
ghost use Rattle.windows.specs.machine.WindowEntries.{KeepsRows, count_pairs, rows_of};
ghost use Rattle.windows.specs.machine.Windows.{IsWindow};

use crate::compaction::compact_if_many;
use crate::entries::{Entries, add_rows};
use crate::queue::DueQueue;
use crate::row_index::RowIndex;
use enf_data::intervals::Interval;
use enf_data::memory::NoMemory;
use enf_data::rows::Row;
use enf_data::terms::VarId;

// Adds the time to those of each of the rows. Where memory has run out, nothing is left.
pub fn add_step(
    entries: &mut Entries,
    index: &mut Option<RowIndex>,
    queue: &mut DueQueue,
    among: &[VarId],
    rows: Vec<Row>,
    interval: Interval,
    now: u64,
    pairs: usize,
) -> Result<usize, NoMemory>
    requires distinct { HasNoRepeats among.now }
    requires fit { All (λ row. length row ≡ length among.now) rows.items }
    requires kept { AreWindowEntries (length among.now) now entries.old.entries }
    requires least { AreLeast interval now entries.old.entries }
    requires indexed { IfSome index.old (IsIndexOf among.now (rows_of entries.old.entries)) }
    requires queued { IsQueueAt interval now entries.old.entries queue.old }
    requires counted { pairs ≤ count_pairs entries.old.entries }
    ensures among { OnOk result (AddAtMost now (Contains rows.items) entries.old.entries entries.new.entries) }
    ensures added { OnOk result (AddsTimes interval now (Contains rows.items)
        entries.old.entries entries.new.entries) }
    ensures window { IfOk result
        (IsWindow interval among.now now entries.new.entries queue.new index.new) }
    ensures none { OnErr result ((entries.new.entries ≡ []) × (index.new ≡ None)
        × (queue.new ≡ record { dues = []; far = 0 })) }
{
    match add_and_compact(entries, index, queue, among, rows, interval, now, pairs) {
        Ok(left) => Ok(left),
        Err(error) => {
            let_all_go(entries, index, queue);
            Err(error)
        }
    }
}

// Where memory has run out, the window answers no more.
#[inline(never)]
fn let_all_go(entries: &mut Entries, index: &mut Option<RowIndex>, queue: &mut DueQueue)
    ensures entries { entries.new.entries ≡ [] }
    ensures index { index.new ≡ None }
    ensures queue { queue.new ≡ record { dues = []; far = 0 } }
{
    let alloc = *entries.allocator();
    entries.clear();
    *index = None;
    *queue = DueQueue::new(alloc);
}

// Takes out what is many beside the times. Where memory has run out, nothing is left.
pub fn compact_step(
    entries: &mut Entries,
    index: &mut Option<RowIndex>,
    queue: &mut DueQueue,
    among: &[VarId],
    interval: Interval,
    now: u64,
    pairs: usize,
) -> Result<usize, NoMemory>
    requires distinct { HasNoRepeats among.now }
    requires kept { AreWindowEntries (length among.now) now entries.old.entries }
    requires least { AreLeast interval now entries.old.entries }
    requires indexed { IfSome index.old (IsIndexOf among.now (rows_of entries.old.entries)) }
    requires queued { IsQueueAt interval now entries.old.entries queue.old }
    requires counted { pairs ≤ count_pairs entries.old.entries }
    ensures keeps { OnOk result (KeepsRows (λ row. Unit {0}) entries.old.entries entries.new.entries) }
    ensures window { IfOk result (IsWindow interval among.now now entries.new.entries queue.new index.new) }
    ensures none { OnErr result ((entries.new.entries ≡ []) × (index.new ≡ None)
        × (queue.new ≡ record { dues = []; far = 0 })) }
{
    match compact_if_many(entries, index, queue, among, interval, now, pairs) {
        Ok(left) => Ok(left),
        Err(error) => {
            let_all_go(entries, index, queue);
            Err(error)
        }
    }
}

fn add_and_compact(
    entries: &mut Entries,
    index: &mut Option<RowIndex>,
    queue: &mut DueQueue,
    among: &[VarId],
    rows: Vec<Row>,
    interval: Interval,
    now: u64,
    pairs: usize,
) -> Result<usize, NoMemory>
    requires distinct { HasNoRepeats among.now }
    requires fit { All (λ row. length row ≡ length among.now) rows.items }
    requires kept { AreWindowEntries (length among.now) now entries.old.entries }
    requires least { AreLeast interval now entries.old.entries }
    requires indexed { IfSome index.old (IsIndexOf among.now (rows_of entries.old.entries)) }
    requires queued { IsQueueAt interval now entries.old.entries queue.old }
    requires counted { pairs ≤ count_pairs entries.old.entries }
    ensures among { OnOk result (AddAtMost now (Contains rows.items) entries.old.entries entries.new.entries) }
    ensures added { OnOk result (AddsTimes interval now (Contains rows.items)
        entries.old.entries entries.new.entries) }
    ensures window { IfOk result
        (IsWindow interval among.now now entries.new.entries queue.new index.new) }
{
    let left = add_rows(entries, index, queue, among, rows, interval, now, pairs)?;
    compact_if_many(entries, index, queue, among, interval, now, left)
}
