//! Policies under a signature: the canonical texts of the rules that are read, or the first refusal.
use crate::case::CaseError;
use crate::output::Output;
use crate::parts::{read_signature, two, within_limit};
use formula_reader::{PolicyRefusal, Rule, read_policy};
use signature::Signature;
use std::alloc::Global;

/// Reads a signature and, after a byte 1, a policy under it.
pub fn answer(alloc: Global, input: &[u8], out: &mut Output) -> Result<(), CaseError> {
    let (signature, text) = two(input)?;
    let signature = read_signature(alloc, signature)?;
    answer_under(alloc, &signature, text, out)
}

fn answer_under(
    alloc: Global,
    signature: &Signature,
    text: &[u8],
    out: &mut Output,
) -> Result<(), CaseError> {
    let text = within_limit(text)?;
    match read_policy(alloc, signature, text) {
        Ok(policy) => print_rules(signature, policy.rules.as_slice(), out),
        Err(refusal) => print_refusal(refusal, out),
    }
    Ok(())
}

fn print_rules(signature: &Signature, rules: &[Rule], out: &mut Output) {
    for rule in rules {
        out.rule(signature, rule);
    }
}

/// The refusal with its place.
pub fn print_refusal(refusal: PolicyRefusal, out: &mut Output) {
    match refusal {
        PolicyRefusal::Syntax { place } => out.place(b"syntax", place),
        PolicyRefusal::UnknownName { place } => out.place(b"unknown name", place),
        PolicyRefusal::Arity { place } => out.place(b"arity", place),
        PolicyRefusal::SortClash { place } => out.place(b"sort", place),
        PolicyRefusal::FreeVariable { place } => out.place(b"free variable", place),
        PolicyRefusal::Rebound { place } => out.place(b"rebound", place),
        PolicyRefusal::Limit { place } => out.place(b"limit", place),
        PolicyRefusal::NoMemory => out.no_memory(),
    }
}
