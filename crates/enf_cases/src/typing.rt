//! Policies by what they may change: the mark, the horizon and the roles, or the first refusal.
ghost use Rattle.formula_reader.specs.machine.StoredRules.{policy_rules_of};
ghost use Rattle.formula_reader.specs.machine.WellFormedPolicies.{IsWellFormedPolicy};

use crate::case::CaseError;
use crate::output::Output;
use crate::parts::{read_signature, two, within_limit};
use crate::policies;
use enf_data::NameId;
use enforce_types::{TypeRefusal, TypedPolicy};
use formula_reader::{Policy, read_policy};
use rank_check::Role;
use signature::Signature;
use std::alloc::Global;

/// Reads a signature and, after a byte 1, a policy under it: `transparent yes` or `transparent no`, the horizon, and
/// each name that is caused or suppressed, in the signature's order.
pub fn answer(alloc: Global, input: &[u8], out: &mut Output) -> Result<(), CaseError> {
    let (signature, text) = two(input)?;
    let signature = read_signature(alloc, signature)?;
    if let Some(typed) = read_typed(alloc, &signature, text, out)? {
        print_typed(&signature, &typed, out);
    }
    Ok(())
}

/// The policy that the text spells, with its plans; or its refusal is printed.
pub fn read_typed(
    alloc: Global,
    signature: &Signature,
    text: &[u8],
    out: &mut Output,
) -> Result<Option<TypedPolicy>, CaseError> {
    let text = within_limit(text)?;
    match read_policy(alloc, signature, text) {
        Ok(policy) => Ok(typed_of(alloc, signature, &policy, out)),
        Err(refusal) => {
            policies::print_refusal(refusal, out);
            Ok(None)
        }
    }
}

fn typed_of(
    alloc: Global,
    signature: &Signature,
    policy: &Policy,
    out: &mut Output,
) -> Option<TypedPolicy>
    requires { IsWellFormedPolicy signature.now (policy_rules_of policy.now) }
{
    match TypedPolicy::of(alloc, signature, policy) {
        Ok(typed) => Some(typed),
        Err(refusal) => {
            print_refusal(signature, refusal, out);
            None
        }
    }
}

fn print_typed(signature: &Signature, typed: &TypedPolicy, out: &mut Output) {
    out.bytes(if typed.is_transparent() {
        b"transparent yes, horizon ".as_slice()
    } else {
        b"transparent no, horizon "
    });
    out.number(typed.horizon());
    for number in 0..signature.len() {
        print_role(signature, NameId(number), typed, out);
    }
}

fn print_role(signature: &Signature, name: NameId, typed: &TypedPolicy, out: &mut Output) {
    match typed.role(name) {
        Role::Free => (),
        Role::Caused => print_named(b", cause ", signature, name, out),
        Role::Suppressed => print_named(b", suppress ", signature, name, out),
    }
}

fn print_named(word: &[u8], signature: &Signature, name: NameId, out: &mut Output) {
    out.bytes(word);
    if let Some(entry) = signature.entry(name) {
        out.bytes(entry.text.bytes());
    }
}

/// The refusal with its place or name.
pub fn print_refusal(signature: &Signature, refusal: TypeRefusal, out: &mut Output) {
    match refusal {
        TypeRefusal::Unguarded { place } => out.place(b"unguarded", place),
        TypeRefusal::NotEnforceable { place } => out.place(b"not enforceable", place),
        TypeRefusal::Untriggered { place } => out.place(b"untriggered", place),
        TypeRefusal::RoleClash { name } => print_named(b"role clash ", signature, name, out),
        TypeRefusal::Cyclic { name } => print_named(b"cyclic ", signature, name, out),
        TypeRefusal::NoMemory => out.no_memory(),
    }
}
