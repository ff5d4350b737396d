//! Past states that are made again of the rows that one kept.
ghost use Rattle.std.specs.Prelude.{◌≡◌, ◌<◌, [], IfOk, All, length, map};
ghost use Rattle.enf_data.specs.meaning.Membership.{HasNoRepeats};
ghost use Rattle.past_state.specs.machine.Guards.{tree_in};
ghost use Rattle.past_state.specs.machine.Memories.{columns_of};
ghost use Rattle.past_state.specs.meaning.KeptRows.{all_operators};
ghost use Rattle.windows.specs.machine.StoredPairs.{AreKeepable, AreOfLast};
ghost use Rattle.past_state.specs.machine.MemoryTimes.{last_or_zero};
ghost use Rattle.past_state.specs.machine.RestoredMemories.{AreByWindow, AreKeepableFor, AreRestored, CanRestore};
ghost use Rattle.past_state.specs.machine.RestoredMemories.{IsRestored, IsRestoredSlot, IsRestoredWindow};

use crate::guards::{PlacedGuard, place_all, push_all};
use crate::kept_rows::KeptRows;
use crate::memories::Memory;
use crate::names::GuardNames;
use crate::operators::{OperatorState, OperatorStates};
use crate::past::PastState;
use crate::row_looks::index_looks;
use enf_data::items::Duplicate;
use enf_data::memory::NoMemory;
use enf_data::seeds::Seed;
use enf_formula::laws::dependence;
use monitorable_guard::Guard;
use prev_rows::LastRows;
use std::alloc::Global;
use std::rc::Rc;
use windows::{KeptPair, PrevSlot, SinceWindow};

impl PastState {
    ghost use Rattle.past_state.specs.machine.Guards.{AreCopies, IsFreshGuard};
    ghost use Rattle.past_state.specs.meaning.RowBounds.{AreWithinBounds};
    ghost use Rattle.past_state.specs.machine.MemoryTimes.{AreAtLast, IsUpToLast};
    ghost use Rattle.past_state.specs.machine.RestoringLaws.{WillStandFor};
    ghost use Rattle.past_state.specs.machine.StoredRows.{AreStoredRows};

    /// The past state that keeps these rows, with this last time; none before the first step. No quantifier in a guard
    /// binds a variable in scope. Rows that `kept` gives are within the bounds, where the state stands for a trace with
    /// that last time (`laws::kept_can_be_restored`).
    pub fn from_kept(
        alloc: Global,
        guards: &[Guard],
        last: Option<u64>,
        rows: KeptRows,
    ) -> Result<PastState, NoMemory>
        requires fresh { All IsFreshGuard guards.now }
        requires bounds { AreWithinBounds (all_operators (map tree_in guards.now)) last rows }
        ensures guards { IfOk result (λ p. AreCopies guards.now p.guards) }
        ensures last { IfOk result (AreAtLast last) }
        ensures up_to { IfOk result (IsUpToLast last) }
        ensures exact { IfOk result (λ p. AreStoredRows p rows) }
        ensures stands { IfOk result (WillStandFor (all_operators (map tree_in guards.now)) last rows) }
    {
        PastState::seeded_from(alloc, Seed::known(), guards, last, rows)
    }

    /// So too, with a seed for the hashes by which rows are found.
    pub fn seeded_from(
        alloc: Global,
        seed: Seed,
        guards: &[Guard],
        last: Option<u64>,
        rows: KeptRows,
    ) -> Result<PastState, NoMemory>
        requires fresh { All IsFreshGuard guards.now }
        requires bounds { AreWithinBounds (all_operators (map tree_in guards.now)) last rows }
        ensures guards { IfOk result (λ p. AreCopies guards.now p.guards) }
        ensures last { IfOk result (AreAtLast last) }
        ensures up_to { IfOk result (IsUpToLast last) }
        ensures exact { IfOk result (λ p. AreStoredRows p rows) }
        ensures stands { IfOk result (WillStandFor (all_operators (map tree_in guards.now)) last rows) }
    {
        dependence();
        let mut operators = Vec::new(alloc);
        let counts = push_all(alloc, guards, &mut operators)?;
        let placed = place_all(alloc, guards, counts)?;
        let items = restore_all(alloc, seed, operators, placed.as_slice(), last, rows)?;
        let names = GuardNames::of(alloc, placed.as_slice())?;
        let guards = Rc::new(alloc, placed)?;
        let operators = Rc::new(alloc, OperatorStates { items })?;
        Ok(PastState {
            guards,
            operators,
            names,
        })
    }
}

// The operators with the rows kept, and this last time, and with indexes for what the guards look up.
fn restore_all(
    alloc: Global,
    seed: Seed,
    operators: Vec<OperatorState>,
    guards: &[PlacedGuard],
    last: Option<u64>,
    rows: KeptRows,
) -> Result<Vec<OperatorState>, NoMemory>
    requires { CanRestore operators.items last rows }
    ensures { IfOk result (λ restored. AreRestored last rows 0 operators.items restored.items) }
{
    let mut restored = restore_each(alloc, seed, operators, last, rows)?;
    index_looks(alloc, &mut restored, guards)?;
    Ok(restored)
}

// The operators with the rows kept, and this last time.
fn restore_each(
    alloc: Global,
    seed: Seed,
    operators: Vec<OperatorState>,
    last: Option<u64>,
    rows: KeptRows,
) -> Result<Vec<OperatorState>, NoMemory>
    requires { CanRestore operators.items last rows }
    ensures { IfOk result (λ restored. AreRestored last rows 0 operators.items restored.items) }
{
    let lists = by_window(alloc, operators.len(), rows)?;
    let mut restored = Vec::with_capacity(alloc, operators.len())?;
    for (operator, pairs) in operators.into_iter().zip(lists.into_iter().rev()) {
        let memory = operator.memory.restored(alloc, seed, last, pairs)?;
        restored.push(OperatorState {
            taken: operator.taken,
            memory,
        })?;
    }
    Ok(restored)
}

// The rows of each window, in order.
fn by_window(alloc: Global, count: usize, rows: KeptRows) -> Result<Vec<Vec<KeptPair>>, NoMemory>
    requires { All (λ r. r.window < count) rows }
    ensures { IfOk result (λ lists. AreByWindow rows count lists.items) }
{
    let mut lists = no_pairs(alloc, count)?;
    for row in rows.into_vec() {
        let pair = KeptPair {
            row: row.row,
            time: row.time,
        };
        lists[row.window as usize].push(pair)?;
    }
    Ok(lists)
}

fn no_pairs(alloc: Global, count: usize) -> Result<Vec<Vec<KeptPair>>, NoMemory>
    ensures { IfOk result (λ lists. AreByWindow [] count lists.items) }
{
    let mut lists = Vec::with_capacity(alloc, count)?;
    for _ in 0..count {
        lists.push(Vec::new(alloc))?;
    }
    Ok(lists)
}

impl Memory {
    // What is kept for an operator, made again with these pairs and this last time.
    fn restored(
        self,
        alloc: Global,
        seed: Seed,
        last: Option<u64>,
        pairs: Vec<KeptPair>,
    ) -> Result<Memory, NoMemory>
        requires distinct { HasNoRepeats (columns_of self) }
        requires keepable { AreKeepableFor self last pairs.items }
        ensures { IfOk result (IsRestored self last pairs.items) }
    {
        match self {
            Memory::Prev { slot, operand } => {
                let slot = restored_slot(alloc, seed, &slot, last, pairs)?;
                Ok(Memory::Prev { slot, operand })
            }
            Memory::Once { window, right } => {
                let window = restored_window(alloc, seed, &window, last, pairs)?;
                Ok(Memory::Once { window, right })
            }
            Memory::Since {
                window,
                left,
                left_tables,
                right,
            } => {
                let window = restored_window(alloc, seed, &window, last, pairs)?;
                Ok(Memory::Since {
                    window,
                    left,
                    left_tables,
                    right,
                })
            }
        }
    }
}

fn restored_slot(
    alloc: Global,
    seed: Seed,
    slot: &LastRows,
    last: Option<u64>,
    pairs: Vec<KeptPair>,
) -> Result<LastRows, NoMemory>
    requires distinct { HasNoRepeats slot.now.columns }
    requires fit { All (λ p. length p.row ≡ length slot.now.columns) pairs.items }
    requires times { AreOfLast last pairs.items }
    ensures { IfOk result (IsRestoredSlot slot.now last pairs.items) }
{
    let columns = slot.columns().duplicate(alloc)?;
    let restored = PrevSlot::from_kept(alloc, slot.interval(), columns, last, pairs)?;
    Ok(LastRows::of(seed, restored))
}

fn restored_window(
    alloc: Global,
    seed: Seed,
    window: &SinceWindow,
    last: Option<u64>,
    pairs: Vec<KeptPair>,
) -> Result<SinceWindow, NoMemory>
    requires distinct { HasNoRepeats window.now.columns }
    requires keepable { AreKeepable window.now.interval window.now.columns (last_or_zero last) pairs.items }
    ensures { IfOk result (IsRestoredWindow window.now last pairs.items) }
{
    let columns = window.columns().duplicate(alloc)?;
    SinceWindow::from_kept(
        alloc,
        seed,
        window.interval(),
        columns,
        last.unwrap_or(0),
        pairs,
    )
}
