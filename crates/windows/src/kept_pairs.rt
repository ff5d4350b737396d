//! What windows and slots keep, as pairs of a row and a time.
ghost use Rattle.std.specs.Prelude.{◌≡◌, ◌↔◌, [], ◌∷◌, ◌++◌, ℕ, List, All, Contains, IfOk, OnOk, length, map};
ghost use Rattle.enf_data.specs.meaning.Membership.{HasNoRepeats};
ghost use Rattle.enf_data.specs.declared.values.Value.{Value as AnyValue};
ghost use Rattle.windows.specs.meaning.KeptPairs.{pair};
ghost use Rattle.windows.specs.machine.StoredPairs.{AreBefore, AreEntriesOf, AreRising, AreTimesOf};
ghost use Rattle.windows.specs.machine.WindowEntries.{AreWindowEntries};
ghost use Rattle.windows.specs.declared.kept_pairs.KeptPair.{KeptPair as Pair};

use crate::compaction::{count, queue_of};
use crate::entries::Entries;
use crate::prev_slot::PrevSlot;
use crate::since::SinceWindow;
use crate::steps::LastStep;
use crate::times::Times;
use enf_data::intervals::Interval;
use enf_data::items::Duplicate;
use enf_data::memory::NoMemory;
use enf_data::rows::Row;
use enf_data::seeds::Seed;
use enf_data::terms::Vars;
use indexmap::IndexMap;
use std::alloc::Global;
use valuations::Table;

/// A row that is kept, with a time at which it was right.
#[derive(Debug, Drop)]
pub struct KeptPair {
    pub row: Row,
    pub time: u64,
}

impl SinceWindow {
    ghost use Rattle.windows.specs.machine.StoredPairs.{AreKeepable, ArePairsOf, ArePairsKept};
    ghost use Rattle.windows.specs.machine.Windows.{KeepsLeast};

    /// The rows that are kept, each with its times, by row and then by time.
    pub fn kept(&self, alloc: Global) -> Result<Vec<KeptPair>, NoMemory>
        ensures keepable { IfOk result (λ pairs.
            AreKeepable self.now.interval self.now.columns self.now.last pairs.items) }
        ensures exact { IfOk result (λ pairs. ArePairsOf self.now pairs.items) }
        ensures walked { IfOk result (λ pairs. ArePairsKept self.now pairs.items) }
        ensures least { KeepsLeast self.now }
    {
        let entries = &self.entries;
        let rows = self.rows(alloc)?;
        let mut pairs = Vec::new(alloc);
        for row in rows.rows() {
            push_pairs(alloc, entries, row, &mut pairs)?;
        }
        Ok(pairs)
    }

    /// The window that keeps these pairs, with this last time. The columns are distinct, and the pairs are such as
    /// `kept` gives of a window of this interval and these columns at that time. Rows are found by hashes from the seed
    /// on.
    pub fn from_kept(
        alloc: Global,
        seed: Seed,
        interval: Interval,
        columns: Vars,
        last: u64,
        pairs: Vec<KeptPair>,
    ) -> Result<SinceWindow, NoMemory>
        requires distinct { HasNoRepeats columns }
        requires keepable { AreKeepable interval columns last pairs.items }
        ensures interval { IfOk result (λ w. w.interval ≡ interval) }
        ensures columns { IfOk result (λ w. w.columns ≡ columns) }
        ensures last { IfOk result (λ w. w.last ≡ last) }
        ensures exact { IfOk result (λ w. ArePairsOf w pairs.items) }
        ensures least { IfOk result KeepsLeast }
    {
        let entries = entries_of(alloc, seed, pairs)?;
        let queue = queue_of(alloc, interval, last, &entries)?;
        let pairs = count(&entries);
        Ok(SinceWindow {
            interval,
            columns,
            last,
            entries,
            queue,
            index: None,
            pairs,
        })
    }
}

impl PrevSlot {
    ghost use Rattle.windows.specs.machine.StoredPairs.{AreOfLast, pairs_of_last, last_step_time};
    ghost use Rattle.windows.specs.machine.Slots.{IsSlot};

    /// The rows of the last step in order, each with its time; none before the first step.
    pub fn kept(&self, alloc: Global) -> Result<Vec<KeptPair>, NoMemory>
        ensures exact { IfOk result (λ pairs. pairs.items ≡ pairs_of_last self.now.last) }
        ensures times { IfOk result (λ pairs. AreOfLast (last_step_time self.now.last) pairs.items) }
        ensures rising { IfOk result (λ pairs. AreRising pairs.items) }
        ensures fits { IfOk result (λ pairs. All (λ p. length p.row ≡ length self.now.columns) pairs.items) }
        ensures slot { IsSlot self.now }
    {
        let mut pairs = Vec::new(alloc);
        if let Some(last) = &self.last {
            push_step(alloc, last.time, last.rows.rows(), &mut pairs)?;
        }
        Ok(pairs)
    }

    /// The slot whose last step, where there is one, has the rows of these pairs. The columns are distinct, and there
    /// are no pairs without a last step.
    pub fn from_kept(
        alloc: Global,
        interval: Interval,
        columns: Vars,
        last: Option<u64>,
        pairs: Vec<KeptPair>,
    ) -> Result<PrevSlot, NoMemory>
        requires distinct { HasNoRepeats columns }
        requires fit { All (λ p. length p.row ≡ length columns) pairs.items }
        requires times { AreOfLast last pairs.items }
        ensures interval { IfOk result (λ s. s.interval ≡ interval) }
        ensures columns { IfOk result (λ s. s.columns ≡ columns) }
        ensures last { IfOk result (λ s. last_step_time s.last ≡ last) }
        ensures exact { IfOk result
            (λ s. (p : Pair) → Contains (pairs_of_last s.last) p ↔ Contains pairs.items p) }
        ensures slot { IfOk result IsSlot }
    {
        let last = match last {
            Some(time) => Some(LastStep {
                time,
                rows: rows_of(alloc, &columns, pairs)?,
            }),
            None => None,
        };
        Ok(PrevSlot {
            interval,
            columns,
            last,
        })
    }
}

// Puts the row last with each of its times.
fn push_pairs(
    alloc: Global,
    entries: &Entries,
    row: &Row,
    out: &mut Vec<KeptPair>,
) -> Result<(), NoMemory>
    requires { (long : ℕ) × (last : ℕ) × AreWindowEntries long last entries.now.entries }
    ensures { OnOk result ((times : List ℕ) × AreTimesOf entries.now.entries row.now times
        × (out.new.items ≡ out.old.items ++ map (pair row.now) times)) }
{
    if let Some(place) = entries.get_index_of(row) {
        push_times(alloc, row, &entries[place], out)?;
    }
    Ok(())
}

fn push_times(
    alloc: Global,
    row: &Row,
    times: &Times,
    out: &mut Vec<KeptPair>,
) -> Result<(), NoMemory>
    ensures { OnOk result (out.new.items ≡ out.old.items ++ map (pair row.now) times.now) }
{
    for place in 0..times.len() {
        out.push(KeptPair {
            row: row.duplicate(alloc)?,
            time: times.at(place),
        })?;
    }
    Ok(())
}

// Puts the rows last, each with the time.
fn push_step(
    alloc: Global,
    time: u64,
    rows: &[Row],
    out: &mut Vec<KeptPair>,
) -> Result<(), NoMemory>
    ensures { OnOk result (out.new.items ≡ out.old.items ++ map (λ row. pair row time) rows.now) }
{
    for row in rows {
        out.push(KeptPair {
            row: row.duplicate(alloc)?,
            time,
        })?;
    }
    Ok(())
}

// The rows of the pairs, each with its times.
fn entries_of(alloc: Global, seed: Seed, pairs: Vec<KeptPair>) -> Result<Entries, NoMemory>
    requires { AreRising pairs.items }
    ensures { IfOk result (λ entries. AreEntriesOf pairs.items entries.entries) }
{
    let mut entries = IndexMap::with_capacity_and_hasher(alloc, pairs.len(), seed)?;
    for pair in pairs {
        put_time(alloc, &mut entries, pair)?;
    }
    Ok(entries)
}

// Puts the time last among those of the row.
fn put_time(alloc: Global, entries: &mut Entries, pair: KeptPair) -> Result<(), NoMemory>
    requires { (done : List Pair) × AreEntriesOf done entries.old.entries × AreBefore done pair }
    ensures { OnOk result ((done : List Pair) → AreEntriesOf done entries.old.entries → AreBefore done pair
        → AreEntriesOf (done ++ pair ∷ []) entries.new.entries) }
{
    let (place, held) = entries.insert_full(pair.row, Times::one(pair.time))?;
    let Some(before) = held else {
        return Ok(());
    };
    let mut times = before;
    times.push(alloc, pair.time)?;
    entries[place] = times;
    Ok(())
}

// The table of the pairs' rows.
fn rows_of(alloc: Global, columns: &Vars, pairs: Vec<KeptPair>) -> Result<Table, NoMemory>
    requires distinct { HasNoRepeats columns.now }
    requires fit { All (λ p. length p.row ≡ length columns.now) pairs.items }
    ensures columns { IfOk result (λ t. t.columns ≡ columns.now) }
    ensures rows { IfOk result (λ t. (row : List AnyValue) → Contains t.rows row
        ↔ Contains (map (λ p. p.row) pairs.items) row) }
{
    let mut rows = Vec::with_capacity(alloc, pairs.len())?;
    for pair in pairs {
        rows.push(pair.row)?;
    }
    Table::from_rows(columns.duplicate(alloc)?, rows)
}
