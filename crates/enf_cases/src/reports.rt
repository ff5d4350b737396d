//! Report lines, read back.
ghost use Rattle.formula_reader.specs.machine.StoredRules.{policy_rules_of};
ghost use Rattle.formula_reader.specs.machine.WellFormedPolicies.{IsWellFormedPolicy};

use crate::case::CaseError;
use crate::enforcing::{print_event, print_valuation};
use crate::output::Output;
use crate::parts::{read_signature, three, within_limit};
use action_report::{ReportRefusal, read_action};
use enforce_types::TypedPolicy;
use formula_reader::{Policy, read_policy};
use obligations::{Action, LiteralKind};
use signature::Signature;
use std::alloc::Global;

/// What a report line tells: `+` or `-`, the event, the time, the position, the numbers of the rule, the node and the
/// leaf, the origin, and the values; or `syntax`. Reads a signature, a policy and a line, with a byte 1 between them.
pub fn answer(alloc: Global, input: &[u8], out: &mut Output) -> Result<(), CaseError> {
    let (signature, policy, line) = three(input)?;
    let names = read_signature(alloc, signature)?;
    let policy = within_limit(policy)?;
    match read_policy(alloc, &names, policy) {
        Ok(policy) => answer_under(alloc, &names, &policy, line, out),
        Err(_) => Err(CaseError::Malformed),
    }
}

fn answer_under(
    alloc: Global,
    names: &Signature,
    policy: &Policy,
    line: &[u8],
    out: &mut Output,
) -> Result<(), CaseError>
    requires { IsWellFormedPolicy names.now (policy_rules_of policy.now) }
{
    let Ok(typed) = TypedPolicy::of(alloc, names, policy) else {
        return Err(CaseError::Malformed);
    };
    match read_action(alloc, names, policy, typed.plans(), line) {
        Ok(action) => print_action(names, &action, out),
        Err(ReportRefusal::Syntax) => out.bytes(b"syntax"),
        Err(ReportRefusal::NoMemory) => out.no_memory(),
    }
    Ok(())
}

fn print_action(names: &Signature, action: &Action, out: &mut Output) {
    out.bytes(match action.kind {
        LiteralKind::Cause => b"+",
        LiteralKind::Suppress => b"-",
    });
    print_event(names, &action.event, out);
    print_numbers(action, out);
    print_valuation(&action.valuation, out);
}

fn print_numbers(action: &Action, out: &mut Output) {
    let numbers = [
        action.time,
        action.position,
        action.rule.into(),
        action.node.into(),
        action.leaf.into(),
        action.origin,
    ];
    for number in &numbers {
        out.bytes(b" ");
        out.number(*number);
    }
}
