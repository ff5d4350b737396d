//! The guards of a past state, and what is kept for them before the first step.
ghost use Rattle.std.specs.Prelude.{◌≡◌, ◌<◌, ◌^◌, IfOk, OnOk, All, length, map, reverse};
ghost use Rattle.past_state.specs.machine.Guards.{tree_in, count_in, IsFreshGuard, IsPastGuard, AreCopies};
ghost use Rattle.past_state.specs.machine.Past.{BeginAt};
ghost use Rattle.past_state.specs.machine.KeepableOperators.{PushesFor};
ghost use Rattle.past_state.specs.meaning.KeptRows.{all_operators};
ghost use Rattle.past_state.specs.machine.InnerOperators.{all_outermost};

use crate::first_memories::{guard_of, push_operators};
use crate::operators::OperatorState;
use enf_data::memory::NoMemory;
use monitorable_guard::Guard;
use std::alloc::Global;

/// A guard, and where the tables of its outermost operators on the past begin among those of all guards.
#[derive(Debug, Drop)]
pub struct PlacedGuard {
    pub guard: Guard,
    pub start: usize,
}

// Puts the operators of all guards last, from the last in pre-order to the first, and counts the outermost ones of
// each guard, from the last guard to the first.
pub fn push_all(
    alloc: Global,
    guards: &[Guard],
    out: &mut Vec<OperatorState>,
) -> Result<Vec<usize>, NoMemory>
    requires { All IsFreshGuard guards.now }
    ensures counts { IfOk result (λ counts. counts.items ≡ reverse (map count_in guards.now)) }
    ensures pushed { OnOk result (PushesFor (reverse (all_operators (map tree_in guards.now)))
        out.old.items out.new.items) }
{
    let mut counts = Vec::new(alloc);
    for place in 0..guards.len() {
        let guard = &guards[guards.len() - 1 - place];
        counts.push(push_operators(alloc, guard.formula(), out)?)?;
    }
    Ok(counts)
}

// The guards with the places of their tables, by the counts of their outermost operators from the last to the first.
pub fn place_all(
    alloc: Global,
    guards: &[Guard],
    counts: Vec<usize>,
) -> Result<Vec<PlacedGuard>, NoMemory>
    requires counted { counts.items ≡ reverse (map count_in guards.now) }
    requires few { length (all_outermost (map tree_in guards.now)) < 2 ^ 64 }
    ensures copies { IfOk result (λ placed. AreCopies guards.now placed.items) }
    ensures begin { IfOk result (λ placed. BeginAt 0 placed.items) }
    ensures past { IfOk result (λ _. All IsPastGuard guards.now) }
{
    let mut counts = counts;
    let mut placed = Vec::with_capacity(alloc, guards.len())?;
    let mut start = 0;
    for guard in guards {
        let copy = guard_of(alloc, guard.formula(), guard.bound())?;
        placed.push(PlacedGuard { guard: copy, start })?;
        if let Some(count) = counts.pop() {
            start += count;
        }
    }
    Ok(placed)
}
