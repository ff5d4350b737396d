//! Saved states: whether they are resumed, or why they are refused.
ghost use Rattle.std.specs.Prelude.{◌≤◌, Ok, length};
ghost use Rattle.enf_data.specs.declared.limits.TheConstants.{MOST_FILE_BYTES};
ghost use Rattle.formula_reader.specs.machine.StoredRules.{policy_rules_of};
ghost use Rattle.formula_reader.specs.machine.WellFormedPolicies.{IsWellFormedPolicy};
ghost use Rattle.signature.specs.meaning.Refusals.{AnswersSignature};

use crate::case::CaseError;
use crate::output::Output;
use crate::parts::{three, within_limit};
use crate::{policies, typing};
use enforce_types::TypedPolicy;
use formula_reader::{Policy, read_policy};
use save_codec::{Snapshot, StateRefusal, resume, save};
use signature::Signature;
use std::alloc::Global;

// The bytes of a signature and of a policy, and those of a state.
#[derive(Clone, Copy)]
struct Texts<'a> {
    signature: &'a [u8],
    policy: &'a [u8],
    state: &'a [u8],
}

/// Whether a saved state is resumed and saved again as it was: `the same` or `other`; or the refusal with its line.
/// Reads a signature, a policy and a state, with a byte 1 between them.
pub fn answer(alloc: Global, input: &[u8], out: &mut Output) -> Result<(), CaseError> {
    let (signature, policy, state) = three(input)?;
    let signature = within_limit(signature)?;
    let policy = within_limit(policy)?;
    let texts = Texts {
        signature,
        policy,
        state,
    };
    match Signature::read(alloc, signature) {
        Ok(names) => answer_under(alloc, texts, &names, out),
        Err(_) => Err(CaseError::Malformed),
    }
}

fn answer_under(
    alloc: Global,
    texts: Texts<'_>,
    names: &Signature,
    out: &mut Output,
) -> Result<(), CaseError>
    requires short { length texts.signature.now ≤ MOST_FILE_BYTES }
    requires policy { length texts.policy.now ≤ MOST_FILE_BYTES }
    requires spells { AnswersSignature texts.signature.now (Ok names.now) }
{
    match read_policy(alloc, names, texts.policy) {
        Ok(policy) => answer_policy(alloc, texts, names, &policy, out),
        Err(refusal) => {
            policies::print_refusal(refusal, out);
            Ok(())
        }
    }
}

fn answer_policy(
    alloc: Global,
    texts: Texts<'_>,
    names: &Signature,
    policy: &Policy,
    out: &mut Output,
) -> Result<(), CaseError>
    requires short { length texts.signature.now ≤ MOST_FILE_BYTES }
    requires spells { AnswersSignature texts.signature.now (Ok names.now) }
    requires formed { IsWellFormedPolicy names.now (policy_rules_of policy.now) }
{
    match TypedPolicy::of(alloc, names, policy) {
        Ok(typed) => answer_state(alloc, texts, names, &typed, out),
        Err(refusal) => {
            typing::print_refusal(names, refusal, out);
            Ok(())
        }
    }
}

fn answer_state(
    alloc: Global,
    texts: Texts<'_>,
    names: &Signature,
    typed: &TypedPolicy,
    out: &mut Output,
) -> Result<(), CaseError>
    requires short { length texts.signature.now ≤ MOST_FILE_BYTES }
    requires spells { AnswersSignature texts.signature.now (Ok names.now) }
{
    match resume(
        alloc,
        texts.state,
        texts.signature,
        texts.policy,
        typed.plans(),
        typed.guards(),
    ) {
        Ok(snapshot) => print_again(alloc, texts, &snapshot, out),
        Err(refusal) => {
            print_refusal(refusal, out);
            Ok(())
        }
    }
}

// Whether what is saved of a state is the text that was read.
fn print_again(
    alloc: Global,
    texts: Texts<'_>,
    snapshot: &Snapshot,
    out: &mut Output,
) -> Result<(), CaseError> {
    let again = save(alloc, texts.signature, texts.policy, snapshot)?;
    out.bytes(if again.as_slice() == texts.state {
        b"the same".as_slice()
    } else {
        b"other"
    });
    Ok(())
}

fn print_refusal(refusal: StateRefusal, out: &mut Output) {
    match refusal {
        StateRefusal::Syntax { line } => print_line(b"syntax", line, out),
        StateRefusal::OtherPolicy => out.bytes(b"other policy"),
        StateRefusal::Inconsistent { line } => print_line(b"inconsistent", line, out),
        StateRefusal::NoMemory => out.no_memory(),
    }
}

fn print_line(what: &[u8], line: u64, out: &mut Output) {
    out.bytes(what);
    out.bytes(b" at line ");
    out.number(line);
}
