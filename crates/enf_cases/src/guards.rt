//! Guards: whether a formula is one with some variables bound, and whether it is a test.
use crate::case::CaseError;
use crate::output::Output;
use crate::parts::{read_formula, read_variables, three};
use enf_data::Vars;
use enf_formula::Formula;
use monitorable_guard::{Guard, GuardRefusal, is_test};
use std::alloc::Global;

/// `ok`, `ok, a test`, or where the formula cannot be evaluated. The input has the numbers of the variables that are
/// bound, a byte 1, a signature, a byte 1, and a policy of one rule: the formula is that of the rule, or what stands
/// below its first `exists`.
pub fn answer(alloc: Global, input: &[u8], out: &mut Output) -> Result<(), CaseError> {
    let (bound, signature, text) = three(input)?;
    let bound = read_variables(alloc, bound)?;
    let formula = read_formula(alloc, signature, text)?;
    answer_formula(alloc, formula, &bound, out)
}

fn answer_formula(
    alloc: Global,
    formula: Formula,
    bound: &Vars,
    out: &mut Output,
) -> Result<(), CaseError> {
    let test = is_test(alloc, &formula, bound)?;
    match Guard::of(alloc, formula, bound) {
        Ok(_) => out.bytes(if test {
            b"ok, a test".as_slice()
        } else {
            b"ok"
        }),
        Err(refusal) => print_refusal(refusal, out),
    }
    Ok(())
}

/// Where a formula cannot be evaluated.
pub fn print_refusal(refusal: GuardRefusal, out: &mut Output) {
    match refusal {
        GuardRefusal::Unguarded { place } => out.place(b"unguarded", place),
        GuardRefusal::NoMemory => out.no_memory(),
    }
}
