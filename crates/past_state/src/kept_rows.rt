//! What a past state keeps, as rows that can be written down.
ghost use Rattle.std.specs.Prelude.{◌≡◌, ◌↔◌, ◌++◌, ◌≤◌, ◌^◌, IfOk, OnOk, Contains, length};
ghost use Rattle.std.specs.Prelude.{map};
ghost use Rattle.past_state.specs.meaning.RowBounds.{kept_row};
ghost use Rattle.windows.specs.machine.StoredPairs.{AreRising};
ghost use Rattle.windows.specs.declared.kept_pairs.KeptPair.{KeptPair as Pair};

use crate::memories::Memory;
use crate::past::PastState;
use enf_data::items::Items;
use enf_data::memory::NoMemory;
use enf_data::rows::Row;
use std::alloc::Global;
use windows::KeptPair;

/// A row that a window or slot keeps, with a time at which it was right. They are numbered from 0, over the guards in
/// order and within a guard in pre-order of the operators on the past.
#[derive(Debug, Drop)]
pub struct KeptRow {
    pub window: u32,
    pub row: Row,
    pub time: u64,
}

/// A list of kept rows.
pub type KeptRows = Items<KeptRow>;

impl PastState {
    ghost use Rattle.past_state.specs.meaning.KeptRows.{all_operators, AreRowsRising};
    ghost use Rattle.past_state.specs.machine.Past.{formulas_of_guards};
    ghost use Rattle.past_state.specs.machine.StoredRows.{AreStoredRows, AreRowsKept};

    /// How many windows and slots there are: one for each operator on the past in the guards.
    pub fn window_count(&self) -> usize
        ensures { result ≡ length (all_operators (formulas_of_guards self.now.guards)) }
    {
        self.operators.items.len()
    }

    /// The rows that are kept, by window, then by row, and then by time. The windows can be numbered.
    pub fn kept(&self, alloc: Global) -> Result<KeptRows, NoMemory>
        requires { length (all_operators (formulas_of_guards self.now.guards)) ≤ 2 ^ 32 }
        ensures rising { IfOk result AreRowsRising }
        ensures exact { IfOk result (AreStoredRows self.now) }
        ensures kept { IfOk result (AreRowsKept self.now) }
    {
        let mut rows = Vec::new(alloc);
        let operators = self.operators.items.as_slice();
        for window in 0..operators.len() {
            let operator = &operators[operators.len() - 1 - window];
            push_rows(window as u32, operator.memory.kept(alloc)?, &mut rows)?;
        }
        Ok(KeptRows::from_vec(rows))
    }
}

impl Memory {
    ghost use Rattle.past_state.specs.machine.StoredRows.{IsWhole, StoresFor};

    // The rows that are kept for the operator, by row and then by time.
    pub(crate) fn kept(&self, alloc: Global) -> Result<Vec<KeptPair>, NoMemory>
        ensures rising { IfOk result (λ pairs. AreRising pairs.items) }
        ensures exact { IfOk result (λ pairs. (p : Pair) → Contains pairs.items p ↔ StoresFor self.now p) }
        ensures whole { IfOk result (λ _. IsWhole self.now) }
    {
        match self {
            Memory::Prev { slot, .. } => slot.kept(alloc),
            Memory::Once { window, .. } => window.kept(alloc),
            Memory::Since { window, .. } => window.kept(alloc),
        }
    }
}

// Puts the pairs last, as rows of a window.
fn push_rows(window: u32, pairs: Vec<KeptPair>, out: &mut Vec<KeptRow>) -> Result<(), NoMemory>
    ensures { OnOk result (out.new.items ≡ out.old.items ++ map (kept_row window) pairs.items) }
{
    for pair in pairs {
        out.push(KeptRow {
            window,
            row: pair.row,
            time: pair.time,
        })?;
    }
    Ok(())
}
