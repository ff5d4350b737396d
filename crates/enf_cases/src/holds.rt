//! Whether a guard holds, step by step, under valuations that bind all its variables.
ghost use Rattle.std.specs.Prelude.{IfOk, OnOk, All, IsTrue};
ghost use Rattle.enf_cases.specs.machine.GuardRuns.{BindsGuardVariables};
ghost use Rattle.past_state.specs.machine.Guards.{IsFreshGuard};
ghost use Rattle.enf_data.specs.meaning.Valuations.{BindsColumns};

use crate::case::CaseError;
use crate::output::Output;
use crate::parts::{cut, read_formula, read_variables, three};
use crate::past::guard_of;
use crate::running::{Question, Run, Way, answer_log};
use crate::tables::read_valuation;
use enf_data::{VarId, Vars};
use monitorable_guard::{Guard, is_test};
use std::alloc::Global;
use valuations::Valuation;

/// For each step of a log, with `/` after it, `1` for each valuation under which a guard holds and `0` for
/// each other. The input has, with a byte 1 after each but the last, the numbers of the guard's variables, the
/// valuations with `;` after each, a signature, a policy of one rule, and a log: the guard is the formula of the rule,
/// or what stands below its first `exists`.
pub fn answer(alloc: Global, input: &[u8], out: &mut Output) -> Result<(), CaseError> {
    let (bound, values, rest) = three(input)?;
    let (signature, policy, log) = three(rest)?;
    let guard = read_guard(alloc, bound, signature, policy)?;
    answer_guard(alloc, &guard, values, signature, log, out)
}

fn read_guard(
    alloc: Global,
    bound: &[u8],
    signature: &[u8],
    policy: &[u8],
) -> Result<Guard, CaseError>
    ensures { IfOk result IsFreshGuard }
{
    let bound = read_variables(alloc, bound)?;
    guard_of(alloc, read_formula(alloc, signature, policy)?, &bound)
}

fn answer_guard(
    alloc: Global,
    guard: &Guard,
    values: &[u8],
    signature: &[u8],
    log: &[u8],
    out: &mut Output,
) -> Result<(), CaseError>
    requires { IsFreshGuard guard.now }
{
    check_test(alloc, guard)?;
    let valuations = read_valuations(alloc, guard.bound(), values)?;
    let run = Run {
        guard,
        question: Question::Holds(valuations.as_slice()),
        way: Way::Committed,
    };
    answer_log(alloc, &run, signature, log, out)
}

// Refuses a guard with a free variable that is not bound.
fn check_test(alloc: Global, guard: &Guard) -> Result<(), CaseError>
    ensures { OnOk result (BindsGuardVariables guard.now) }
{
    if is_test(alloc, guard.formula(), guard.bound())? {
        Ok(())
    } else {
        Err(CaseError::Malformed)
    }
}

// Valuations that bind the variables, each with `;` after it.
fn read_valuations(alloc: Global, bound: &Vars, bytes: &[u8]) -> Result<Vec<Valuation>, CaseError>
    ensures { IfOk result (λ valuations. All (λ v. BindsColumns v bound.now) valuations.items) }
{
    let mut valuations = Vec::new(alloc);
    let mut rest = bytes;
    while let Some((piece, behind)) = cut(rest, b';') {
        valuations.push(read_whole(alloc, bound, piece)?)?;
        rest = behind;
    }
    Ok(valuations)
}

fn read_whole(alloc: Global, bound: &Vars, bytes: &[u8]) -> Result<Valuation, CaseError>
    ensures { IfOk result (λ v. BindsColumns v bound.now) }
{
    let v = read_valuation(alloc, bytes)?;
    if binds(&v, bound.as_slice()) {
        Ok(v)
    } else {
        Err(CaseError::Malformed)
    }
}

// Whether each of the variables has a value.
fn binds(v: &Valuation, variables: &[VarId]) -> bool
    ensures { IsTrue result → BindsColumns v.now variables.now }
{
    match variables.split_first() {
        Some((first, rest)) => v.get(*first).is_some() && binds(v, rest),
        None => true,
    }
}
