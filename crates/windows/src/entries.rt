//! Rows with their times, as a window keeps them: each call is one look-up, or one for each row that it is given.
ghost use Rattle.std.specs.Prelude.{◌≡◌, ◌≤◌, ◌↔◌, ◌⊎◌, ℕ, List, Some, IsTrue, OnOk, Contains, length};
ghost use Rattle.std.specs.Prelude.{All, IfOk, IfSome, map};
ghost use Rattle.enf_data.specs.meaning.Membership.{IsIn};
ghost use Rattle.enf_data.specs.declared.values.Value.{Value as AnyValue};
ghost use Rattle.valuations.specs.machine.Tables.{IsTable};
ghost use Rattle.windows.specs.machine.RowIndexes.{IsIndexButLast, IsIndexOf};
ghost use Rattle.windows.specs.machine.DueQueues.{AreInReach, AreUpToTime, IsQueueAt, IsSettledAt, KeepsDues};
ghost use Rattle.windows.specs.machine.DueQueues.{due, waiting_of};
ghost use Rattle.windows.specs.machine.Windows.{AreTables, kept_entries};
ghost use Rattle.windows.specs.machine.WindowEntries.{AddAtMost, AddsTimes, AreWindowEntries, AreLeast, Forgets};
ghost use Rattle.windows.specs.machine.WindowEntries.{GivesRow, GivesSomeRow, IsAnyRow, IsSomeIn};
ghost use Rattle.windows.specs.machine.WindowEntries.{IsLetGoUnless, KeepsRows, RowSurvives, count_pairs, rows_of};

use crate::compaction::count;
use crate::queue::DueQueue;
use crate::row_index::{RowIndex, note_place};
use crate::surviving_rows::Surviving;
use crate::times::Times;
use enf_data::intervals::Interval;
use enf_data::items::Duplicate;
use enf_data::memory::NoMemory;
use enf_data::rows::Row;
use enf_data::seeds::Seed;
use enf_data::terms::VarId;
use indexmap::IndexMap;
use std::alloc::Global;
use valuations::Table;

/// Rows, each with its times.
pub type Entries = IndexMap<Row, Times, Seed>;

// Adds the time to those of the row. A row that is not there goes last. There are at least so many times as `pairs`,
// and then as the answer.
#[inline(never)]
pub fn add_row(
    entries: &mut Entries,
    index: &mut Option<RowIndex>,
    queue: &mut DueQueue,
    among: &[VarId],
    row: Row,
    interval: Interval,
    now: u64,
    pairs: usize,
) -> Result<usize, NoMemory>
    requires kept { AreWindowEntries (length among.now) now entries.old.entries }
    requires least { AreLeast interval now entries.old.entries }
    requires fits { length row ≡ length among.now }
    requires indexed { IfSome index.old (IsIndexOf among.now (rows_of entries.old.entries)) }
    requires queued { IsQueueAt interval now entries.old.entries queue.old }
    requires counted { pairs ≤ count_pairs entries.old.entries }
    ensures among { OnOk result (AddAtMost now (λ other. other ≡ row) entries.old.entries entries.new.entries) }
    ensures added { OnOk result (AddsTimes interval now (λ other. other ≡ row)
        entries.old.entries entries.new.entries) }
    ensures kept { OnOk result (AreWindowEntries (length among.now) now entries.new.entries) }
    ensures least { OnOk result (AreLeast interval now entries.new.entries) }
    ensures indexed { OnOk result (IfSome index.new (IsIndexOf among.now (rows_of entries.new.entries))) }
    ensures queued { OnOk result (IsQueueAt interval now entries.new.entries queue.new) }
    ensures counted { IfOk result (λ left. left ≤ count_pairs entries.new.entries) }
{
    let alloc = *entries.allocator();
    let (place, held) = entries.insert_full(row, Times::one(now))?;
    push_due(queue, interval, now, place)?;
    let Some(before) = held else {
        note_last(alloc, index, among, entries, place)?;
        return Ok(pairs.saturating_add(1));
    };
    let mut times = before;
    let more = times.add(alloc, interval, now)?;
    entries[place] = times;
    Ok(pairs.saturating_add(more))
}

// Notes the place of the last row, where there is an index.
fn note_last(
    alloc: Global,
    index: &mut Option<RowIndex>,
    among: &[VarId],
    entries: &Entries,
    place: usize,
) -> Result<(), NoMemory>
    requires { IsIndexButLast among.now (rows_of entries.now.entries) place index.old }
    ensures { OnOk result (IfSome index.new (IsIndexOf among.now (rows_of entries.now.entries))) }
{
    match entries.get_index(place) {
        Some((row, _times)) => note_place(alloc, index, among, row, place),
        None => Ok(()),
    }
}

// Adds the time to those of each row.
pub fn add_rows(
    entries: &mut Entries,
    index: &mut Option<RowIndex>,
    queue: &mut DueQueue,
    among: &[VarId],
    rows: Vec<Row>,
    interval: Interval,
    now: u64,
    pairs: usize,
) -> Result<usize, NoMemory>
    requires fit { All (λ row. length row ≡ length among.now) rows.items }
    requires kept { AreWindowEntries (length among.now) now entries.old.entries }
    requires least { AreLeast interval now entries.old.entries }
    requires indexed { IfSome index.old (IsIndexOf among.now (rows_of entries.old.entries)) }
    requires queued { IsQueueAt interval now entries.old.entries queue.old }
    requires counted { pairs ≤ count_pairs entries.old.entries }
    ensures among { OnOk result (AddAtMost now (Contains rows.items) entries.old.entries entries.new.entries) }
    ensures added { OnOk result (AddsTimes interval now (Contains rows.items)
        entries.old.entries entries.new.entries) }
    ensures kept { OnOk result (AreWindowEntries (length among.now) now entries.new.entries) }
    ensures least { OnOk result (AreLeast interval now entries.new.entries) }
    ensures indexed { OnOk result (IfSome index.new (IsIndexOf among.now (rows_of entries.new.entries))) }
    ensures queued { OnOk result (IsQueueAt interval now entries.new.entries queue.new) }
    ensures counted { IfOk result (λ left. left ≤ count_pairs entries.new.entries) }
{
    let mut left = pairs;
    for row in rows {
        left = add_row(entries, index, queue, among, row, interval, now, left)?;
    }
    Ok(left)
}

// Lets the row's times go; its place stays. There are at least so many times as `pairs`, and then as the answer.
pub fn forget_row(entries: &mut Entries, row: &Row, pairs: usize) -> usize
    requires counted { pairs ≤ count_pairs entries.old.entries }
    ensures keeps { KeepsRows (λ other. other ≡ row.now → ⊥) entries.old.entries entries.new.entries }
    ensures rows { rows_of entries.new.entries ≡ rows_of entries.old.entries }
    ensures counted { result ≤ count_pairs entries.new.entries }
{
    let _given = entries.len();
    let Some(place) = entries.get_index_of(row) else {
        return pairs;
    };
    let lost = entries[place].clear();
    pairs.saturating_sub(lost)
}

// So with each row of the table.
pub fn forget_rows(entries: &mut Entries, failing: &Table, pairs: usize) -> usize
    requires counted { pairs ≤ count_pairs entries.old.entries }
    ensures keeps { KeepsRows (λ other. Contains failing.now.rows other → ⊥)
        entries.old.entries entries.new.entries }
    ensures rows { rows_of entries.new.entries ≡ rows_of entries.old.entries }
    ensures table { IsTable failing.now }
    ensures counted { result ≤ count_pairs entries.new.entries }
{
    let mut left = pairs;
    for row in failing.rows() {
        left = forget_row(entries, row, left);
    }
    left
}

// Lets the times go of the rows that are not in the table.
pub fn keep_rows(entries: &mut Entries, surviving: &Table)
    ensures keeps { KeepsRows (Contains surviving.now.rows) entries.old.entries entries.new.entries }
    ensures rows { rows_of entries.new.entries ≡ rows_of entries.old.entries }
    ensures table { IsAnyRow entries.old.entries → IsTable surviving.now }
{
    entries.retain(
        |row: &Row, times: &mut Times| -> bool
            ensures { IsTrue result × IsLetGoUnless (Contains surviving.entry.now.rows row.now) times.old times.new
                × IsTable surviving.entry.now }
        {
            if !surviving.has(row) {
                times.clear();
            }
            true
        },
    );
}

// Lets the times go of the rows that do not survive. There are at least so many times as `pairs`, and then as the
// answer.
pub fn keep_surviving(entries: &mut Entries, surviving: &Surviving<'_>, pairs: usize) -> usize
    requires counted { pairs ≤ count_pairs entries.old.entries }
    ensures keeps { KeepsRows (RowSurvives surviving.now) entries.old.entries entries.new.entries }
    ensures rows { rows_of entries.new.entries ≡ rows_of entries.old.entries }
    ensures tables { IsAnyRow entries.old.entries → AreTables surviving.now }
    ensures counted { result ≤ count_pairs entries.new.entries }
{
    match surviving {
        Surviving::All => pairs,
        Surviving::Only(rows) => {
            keep_rows(entries, rows);
            count(entries)
        }
        Surviving::AllBut(rows) => forget_rows(entries, rows, pairs),
    }
}

// Whether the row survives and one of its times is at a distance in the interval.
pub fn is_given(
    row: &Row,
    times: &Times,
    surviving: &Surviving<'_>,
    interval: Interval,
    now: u64,
) -> bool
    ensures given { IsTrue result ↔ (IsSomeIn interval now times.now × RowSurvives surviving.now row.now) }
    ensures tables { IsSomeIn interval now times.now → AreTables surviving.now }
{
    times.has_in(interval, now) && surviving.has(row)
}

// Puts each row last that has a time.
pub fn push_all(alloc: Global, entries: &Entries, out: &mut Vec<Row>) -> Result<(), NoMemory>
    ensures { OnOk result ((row : List AnyValue) → Contains out.new.items row
        ↔ (Contains out.old.items row ⊎ Contains (map (λ e. e.0) (kept_entries entries.now.entries)) row)) }
{
    for (row, times) in entries.iter() {
        if times.has_time() {
            out.push(row.duplicate(alloc)?)?;
        }
    }
    Ok(())
}

// Puts those rows last that survive and have a time at a distance in the interval.
pub fn push_given(
    alloc: Global,
    entries: &Entries,
    surviving: &Surviving<'_>,
    interval: Interval,
    now: u64,
    out: &mut Vec<Row>,
) -> Result<(), NoMemory>
    ensures rows { OnOk result ((row : List AnyValue) → Contains out.new.items row
        ↔ (Contains out.old.items row ⊎ GivesRow interval now (RowSurvives surviving.now) entries.now.entries row)) }
    ensures tables { OnOk result (GivesSomeRow interval now entries.now.entries → AreTables surviving.now) }
{
    for (row, times) in entries.iter() {
        if is_given(row, times, surviving, interval, now) {
            out.push(row.duplicate(alloc)?)?;
        }
    }
    Ok(())
}

// Puts the rows of the table last.
pub fn push_rows(alloc: Global, rows: &Table, out: &mut Vec<Row>) -> Result<(), NoMemory>
    ensures table { IsTable rows.now }
    ensures rows { OnOk result ((row : List AnyValue) → Contains out.new.items row
        ↔ (Contains out.old.items row ⊎ Contains rows.now.rows row)) }
{
    for row in rows.rows() {
        out.push(row.duplicate(alloc)?)?;
    }
    Ok(())
}

// Puts the rows of the table last where 0 is in the interval.
pub fn push_now(
    alloc: Global,
    right: &Table,
    interval: Interval,
    out: &mut Vec<Row>,
) -> Result<(), NoMemory>
    ensures table { IsIn interval 0 → IsTable right.now }
    ensures rows { OnOk result ((row : List AnyValue) → Contains out.new.items row
        ↔ (Contains out.old.items row ⊎ (IsIn interval 0 × Contains right.now.rows row))) }
{
    if interval.has(0) {
        push_rows(alloc, right, out)?;
    }
    Ok(())
}

// Leaves the row at the place just the times that are not past the end, and of those that are far enough the latest.
// There are at least so many times as `pairs`, and then as the answer.
pub fn settle_at(
    entries: &mut Entries,
    place: usize,
    interval: Interval,
    high: u64,
    now: u64,
    pairs: usize,
) -> usize
    requires high { interval.high ≡ Some high }
    requires kept { (long : ℕ) × AreWindowEntries long now entries.old.entries }
    requires counted { pairs ≤ count_pairs entries.old.entries }
    ensures kept { (long : ℕ) → AreWindowEntries long now entries.old.entries
        → AreWindowEntries long now entries.new.entries }
    ensures forgets { Forgets interval now entries.old.entries entries.new.entries }
    ensures settled { IsSettledAt high interval.low now entries.new.entries place }
    ensures counted { result ≤ count_pairs entries.new.entries }
{
    if entries.len() <= place {
        return pairs;
    }
    let lost = entries[place].settle_counted(interval.low, high, now);
    pairs.saturating_sub(lost)
}

// Queues the time of the row at the place, where it is past the end of the interval some day.
fn push_due(
    queue: &mut DueQueue,
    interval: Interval,
    time: u64,
    place: usize,
) -> Result<(), NoMemory>
    requires { AreUpToTime time queue.old.dues }
    ensures up_to { AreUpToTime time queue.new.dues }
    ensures in_reach { AreInReach interval.high time queue.old.dues → AreInReach interval.high time queue.new.dues }
    ensures stays { KeepsDues queue.old queue.new }
    ensures waits { OnOk result ((high : ℕ) → interval.high ≡ Some high
        → Contains (waiting_of queue.new) (due time place)) }
{
    if interval.high.is_some() {
        queue.push(time, place)?;
    }
    Ok(())
}
