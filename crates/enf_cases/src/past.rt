//! The past of a guard: what its rows are at each step of a log, and that it can be made again of what it keeps.
ghost use Rattle.std.specs.Prelude.{◌≡◌, [], None, IfOk};
ghost use Rattle.enf_cases.specs.machine.GuardRuns.{IsPastOfGuard, StandsUpTo};
ghost use Rattle.past_state.specs.machine.Guards.{IsFreshGuard};
ghost use Rattle.past_state.specs.machine.StoredRows.{AreRowsKept};
ghost use Rattle.past_state.specs.meaning.KeptRows.{AreRowsRising};

use crate::case::CaseError;
use crate::output::Output;
use crate::parts::{read_formula, three};
use crate::running::{Question, Run, Way, answer_log};
use enf_data::{Items, Vars};
use enf_formula::Formula;
use monitorable_guard::Guard;
use past_state::laws::kept_can_be_restored;
use past_state::{KeptRows, PastState};
use std::alloc::Global;
use std::slice;

/// The rows of a guard at each step of a log, with `/` after them. The input has a signature, a policy of one
/// rule and a log, with a byte 1 between them: the guard is the formula of the rule, or what stands below its first
/// `exists`, and none of its variables is bound. Where the way is to tell what is kept, those rows stand after the
/// ones of each step and a `|`, each as the number of its window, `:`, its values and its time.
pub fn answer(alloc: Global, way: Way, input: &[u8], out: &mut Output) -> Result<(), CaseError> {
    let (signature, policy, log) = three(input)?;
    let guard = read_guard(alloc, signature, policy)?;
    let run = Run {
        guard: &guard,
        question: Question::Rows,
        way,
    };
    answer_log(alloc, &run, signature, log, out)
}

/// The guard with nothing bound, in which no quantifier binds a variable in scope.
pub fn read_guard(alloc: Global, signature: &[u8], policy: &[u8]) -> Result<Guard, CaseError>
    ensures bound { IfOk result (λ g. g.bound ≡ []) }
    ensures fresh { IfOk result IsFreshGuard }
{
    guard_of(
        alloc,
        read_formula(alloc, signature, policy)?,
        &Items::new(alloc),
    )
}

/// The guard of a formula with these variables bound, in which no quantifier binds a variable in scope.
pub fn guard_of(alloc: Global, formula: Formula, bound: &Vars) -> Result<Guard, CaseError>
    ensures bound { IfOk result (λ g. g.bound ≡ bound.now) }
    ensures formula { IfOk result (λ g. g.formula ≡ formula) }
    ensures fresh { IfOk result IsFreshGuard }
{
    match Guard::of(alloc, formula, bound) {
        Ok(guard) => fresh(alloc, guard),
        Err(_refusal) => Err(CaseError::Malformed),
    }
}

// The guard itself, where it is fresh.
fn fresh(alloc: Global, guard: Guard) -> Result<Guard, CaseError>
    ensures same { IfOk result (λ g. g ≡ guard) }
    ensures fresh { IfOk result IsFreshGuard }
{
    if guard.is_fresh(alloc)? {
        Ok(guard)
    } else {
        Err(CaseError::Malformed)
    }
}

/// The past of a guard, before the first step.
pub fn begun(alloc: Global, guard: &Guard) -> Result<PastState, CaseError>
    requires { IsFreshGuard guard.now }
    ensures of { IfOk result (IsPastOfGuard guard.now) }
    ensures stands { IfOk result (StandsUpTo None) }
{
    Ok(PastState::new(alloc, slice::from_ref(guard))?)
}

/// The rows that a past of few windows keeps.
pub fn kept_rows(alloc: Global, state: &PastState) -> Result<KeptRows, CaseError>
    ensures rising { IfOk result AreRowsRising }
    ensures kept { IfOk result (AreRowsKept state.now) }
{
    if state.window_count() <= 1_000 {
        Ok(state.kept(alloc)?)
    } else {
        Err(CaseError::Malformed)
    }
}

/// The past of the guard with this last time that is made of the rows that the one before kept.
pub fn restored(
    alloc: Global,
    guard: &Guard,
    last: Option<u64>,
    before: &PastState,
) -> Result<PastState, CaseError>
    requires fresh { IsFreshGuard guard.now }
    requires of { IsPastOfGuard guard.now before.now }
    requires stands { StandsUpTo last before.now }
    ensures of { IfOk result (IsPastOfGuard guard.now) }
    ensures stands { IfOk result (StandsUpTo last) }
{
    kept_can_be_restored();
    let rows = kept_rows(alloc, before)?;
    Ok(PastState::from_kept(alloc, slice::from_ref(guard), last, rows)?)
}
