//! The signature, the policy and the state, as the files give them.
ghost use Rattle.std.specs.Prelude.{◌≡◌, ◌≤◌, Err, IfOk, IfErr, List, MatchOption, Ok, OnOk, Some, ℕ};
ghost use Rattle.std.specs.Prelude.{length};
ghost use Rattle.enf_run.specs.machine.FileReads.{EndsFile, IsLongFile, IsFileNotRead, IsShortFile, HoldsPolicy};
ghost use Rattle.enf_run.specs.machine.FileReads.{HoldsRefusedPolicy, HoldsRefusedSignature, HoldsRefusedState};
ghost use Rattle.enf_run.specs.machine.FileReads.{HoldsSignature};
ghost use Rattle.enf_run.specs.meaning.Sources.{HoldsState, IsRefusedPolicy, IsRefusedSignature, IsRefusedState};
ghost use Rattle.enf_run.specs.meaning.Sources.{word_from, SpellsRefusedPolicy};
ghost use Rattle.save_codec.specs.meaning.SavedBounds.{SaveSetting as Bounds};
ghost use Rattle.save_codec.specs.meaning.SaveRefusals.{IsSaveRefusal};
ghost use Rattle.enf_run.specs.meaning.Headline.{all_formulas};
ghost use Rattle.enf_run.specs.machine.LogStarts.{typed_bounds};
ghost use Rattle.enforce_types.specs.meaning.PolicyRefusals.{IsTyped};
ghost use Rattle.enforce_types.specs.machine.PolicyLaws.{KeepsToSignature};
ghost use Rattle.enforce_types.specs.machine.TypedPolicies.{typed_of};
ghost use Rattle.formula_reader.specs.meaning.RuleText.{name_text};
ghost use Rattle.formula_reader.specs.machine.CallAnswers.{GivesPolicyAnswer};
ghost use Rattle.formula_reader.specs.machine.StoredRules.{policy_rules_of};
ghost use Rattle.signature.specs.machine.Reader.{GivesSignatureAnswer};
ghost use Rattle.signature.specs.meaning.Refusals.{AnswersSignature};
ghost use Rattle.signature.specs.declared.entries.NameEntry.{NameEntry};

use crate::endings::FileEnding;
use crate::refusals::{PolicyRefusal, SignatureRefusal, StateRefusal};
use crate::saved_state::Sources;
use enf_data::{MOST_FILE_BYTES, NameId, NoMemory, Seed};
use enf_io::devices::{Files, IoRefusal};
use enf_value::ByteKind;
use enforce_types::{TypeRefusal, TypedPolicy};
use formula_reader::Policy;
use save_codec::{Snapshot, resume};
use signature::Signature;
use std::alloc::Global;

/// The greatest number of bytes of a saved state.
pub const MOST_STATE_BYTES: usize = 268_435_456;

/// A signature, with the bytes that it was read from.
#[derive(Drop)]
pub struct ReadSignature {
    pub bytes: Vec<u8>,
    pub signature: Signature,
}

/// Reads the signature.
pub fn read_signature<F: Files>(
    alloc: Global,
    files: &mut F,
    name: &str,
) -> Result<ReadSignature, FileEnding<SignatureRefusal>>
    ensures held { IfOk result (λ read.
        HoldsSignature (F.seen files.old).contents name.now read.bytes.items read.signature) }
    ensures same { OnOk result (F.seen files.new ≡ F.seen files.old) }
    ensures ends { IfErr result (EndsFile MOST_FILE_BYTES (HoldsRefusedSignature (F.seen files.old).contents name.now)
        name.now (F.seen files.old) (F.seen files.new)) }
{
    let Some(bytes) = read_file(files, name, MOST_FILE_BYTES)? else {
        return Err(FileEnding::Refused(SignatureRefusal::TooLong));
    };
    match Signature::read(alloc, &bytes) {
        Ok(signature) => Ok(ReadSignature { bytes, signature }),
        Err(refusal) => Err(FileEnding::Refused(refusal_of(alloc, &bytes, refusal)?)),
    }
}

/// A policy that is accepted, as it was read, with the bytes that it was read from and its plans, and a seed for the
/// hashes of what is read under it.
#[derive(Drop)]
pub struct AcceptedPolicy {
    pub bytes: Vec<u8>,
    pub policy: Policy,
    pub typed: TypedPolicy,
    pub seed: Seed,
}

/// Reads the policy under a signature.
pub fn read_policy<F: Files>(
    alloc: Global,
    files: &mut F,
    name: &str,
    signature: &Signature,
) -> Result<AcceptedPolicy, FileEnding<PolicyRefusal>>
    ensures held { IfOk result (λ accepted. HoldsPolicy (F.seen files.old).contents name.now
        accepted.bytes.items signature.now (policy_rules_of accepted.policy)) }
    ensures typed { IfOk result (λ accepted.
        IsTyped signature.now (all_formulas (policy_rules_of accepted.policy)) (typed_of accepted.typed)) }
    ensures kept { IfOk result (λ accepted. KeepsToSignature signature.now
        (typed_of accepted.typed).plans (typed_of accepted.typed).guards) }
    ensures same { OnOk result (F.seen files.new ≡ F.seen files.old) }
    ensures ends { IfErr result (EndsFile MOST_FILE_BYTES
        (HoldsRefusedPolicy (F.seen files.old).contents name.now signature.now)
        name.now (F.seen files.old) (F.seen files.new)) }
{
    let Some(bytes) = read_file(files, name, MOST_FILE_BYTES)? else {
        return Err(FileEnding::Refused(PolicyRefusal::TooLong));
    };
    let policy = match formula_reader::read_policy(alloc, signature, &bytes) {
        Ok(policy) => policy,
        Err(refusal) => return Err(FileEnding::Refused(policy_refusal_of(refusal)?)),
    };
    match TypedPolicy::of(alloc, signature, &policy) {
        Ok(typed) => Ok(AcceptedPolicy {
            bytes,
            policy,
            typed,
            seed: Seed::known(),
        }),
        Err(refusal) => Err(FileEnding::Refused(type_refusal_of(alloc, signature, refusal)?)),
    }
}

/// So too, with a seed that nobody outside knows, for a log that a stranger writes. Where none can be had, the file
/// counts as one that was not read.
pub fn read_policy_with_seed<F: Files>(
    alloc: Global,
    files: &mut F,
    name: &str,
    signature: &Signature,
) -> Result<AcceptedPolicy, FileEnding<PolicyRefusal>>
    ensures held { IfOk result (λ accepted. HoldsPolicy (F.seen files.old).contents name.now
        accepted.bytes.items signature.now (policy_rules_of accepted.policy)) }
    ensures typed { IfOk result (λ accepted.
        IsTyped signature.now (all_formulas (policy_rules_of accepted.policy)) (typed_of accepted.typed)) }
    ensures kept { IfOk result (λ accepted. KeepsToSignature signature.now
        (typed_of accepted.typed).plans (typed_of accepted.typed).guards) }
    ensures same { OnOk result (F.seen files.new ≡ F.seen files.old) }
    ensures ends { IfErr result (EndsFile MOST_FILE_BYTES
        (HoldsRefusedPolicy (F.seen files.old).contents name.now signature.now)
        name.now (F.seen files.old) (F.seen files.new)) }
{
    let accepted = read_policy(alloc, files, name, signature)?;
    let seed = draw_seed(files, name)?;
    Ok(AcceptedPolicy { seed, ..accepted })
}

// A seed that nobody outside knows.
fn draw_seed<F: Files>(files: &mut F, name: &str) -> Result<Seed, IoRefusal>
    ensures same { OnOk result (F.seen files.new ≡ F.seen files.old) }
    ensures not_read { IfErr result (IsFileNotRead MOST_FILE_BYTES name.now (F.seen files.old) (F.seen files.new)) }
{
    Ok(Seed(files.draw(name)?))
}

// What is said of a refusal of the signature's text, with the name that stands at its place if that is repeated.
fn refusal_of(
    alloc: Global,
    bytes: &[u8],
    why: signature::SignatureRefusal,
) -> Result<SignatureRefusal, NoMemory>
    requires short { length bytes.now ≤ MOST_FILE_BYTES }
    requires answer { GivesSignatureAnswer bytes.now (Err why) }
    ensures { IfOk result (λ refusal. IsRefusedSignature refusal bytes.now) }
{
    let name = match why {
        signature::SignatureRefusal::NoMemory => return Err(NoMemory),
        signature::SignatureRefusal::Repeated { place, .. } => word_at(alloc, bytes, place)?,
        signature::SignatureRefusal::Syntax { .. } | signature::SignatureRefusal::Limit { .. } => {
            Vec::new(alloc)
        }
    };
    Ok(SignatureRefusal::Text { why, name })
}

// What is said of a refusal of the reader of policies.
fn policy_refusal_of(why: formula_reader::PolicyRefusal) -> Result<PolicyRefusal, NoMemory>
    ensures { IfOk result
        (λ refusal. (entries : List NameEntry) (bytes : List ℕ) → length bytes ≤ MOST_FILE_BYTES
        → GivesPolicyAnswer entries bytes (Err why) → IsRefusedPolicy entries refusal bytes) }
{
    match why {
        formula_reader::PolicyRefusal::NoMemory => Err(NoMemory),
        _ => Ok(PolicyRefusal::Text(why)),
    }
}

// What is said of a refusal of the reader of states.
fn state_refusal_of(why: save_codec::StateRefusal) -> Result<StateRefusal, NoMemory>
    ensures { IfOk result (λ refusal. (signature policy : List ℕ) (bounds : Bounds) (bytes : List ℕ)
        → length bytes ≤ MOST_STATE_BYTES → IsSaveRefusal bounds bytes signature policy why
        → IsRefusedState refusal signature policy bounds bytes) }
{
    match why {
        save_codec::StateRefusal::NoMemory => Err(NoMemory),
        _ => Ok(StateRefusal::Text(why)),
    }
}

// What is said of a refusal of the typing, with the text of the name that it is about.
fn type_refusal_of(
    alloc: Global,
    signature: &Signature,
    why: TypeRefusal,
) -> Result<PolicyRefusal, NoMemory>
    ensures { IfOk result (λ refusal. (bytes : List ℕ) → SpellsRefusedPolicy signature.now bytes why
        → IsRefusedPolicy signature.now refusal bytes) }
{
    let name = match why {
        TypeRefusal::NoMemory => return Err(NoMemory),
        TypeRefusal::RoleClash { name } | TypeRefusal::Cyclic { name } => {
            Vec::from_slice(alloc, text_of_name(signature, name))?
        }
        TypeRefusal::Unguarded { .. }
        | TypeRefusal::NotEnforceable { .. }
        | TypeRefusal::Untriggered { .. } => Vec::new(alloc),
    };
    Ok(PolicyRefusal::Typing { why, name })
}

/// The text of a name; nothing, where there is no such name.
pub fn text_of_name(signature: &Signature, name: NameId) -> &[u8]
    ensures { result.now ≡ name_text signature.now name }
{
    match signature.entry(name) {
        Some(entry) => entry.text.bytes(),
        None => &[],
    }
}

// The letters, digits and `_` from a place on.
fn word_at(alloc: Global, bytes: &[u8], place: u32) -> Result<Vec<u8>, NoMemory>
    ensures { IfOk result (λ name. name.items ≡ word_from place bytes.now) }
{
    let behind = bytes.get(place as usize..).unwrap_or(&[]);
    Ok(Vec::from_slice(alloc, ByteKind::Word.front(behind))?)
}

/// Reads the state to start from, which came about under these sources, of a policy that is accepted under them.
pub fn read_state<F: Files>(
    alloc: Global,
    files: &mut F,
    name: &str,
    sources: Sources<'_>,
    typed: &TypedPolicy,
) -> Result<Snapshot, FileEnding<StateRefusal>>
    requires short { length sources.signature.now ≤ MOST_FILE_BYTES }
    requires spells { (entries : List NameEntry) × AnswersSignature sources.signature.now (Ok entries) }
    ensures held { (entries : List NameEntry) → AnswersSignature sources.entry.signature.now (Ok entries) →
        IfOk result (λ state. (bytes : List ℕ) × HoldsState (F.seen files.old).contents name.now bytes
        sources.entry.signature.now sources.entry.policy.now (typed_bounds entries (typed_of typed.now)) state) }
    ensures same { OnOk result (F.seen files.new ≡ F.seen files.old) }
    ensures ends { (entries : List NameEntry) → AnswersSignature sources.entry.signature.now (Ok entries) →
        IfErr result (EndsFile MOST_STATE_BYTES (HoldsRefusedState (F.seen files.old).contents name.now
        sources.entry.signature.now sources.entry.policy.now (typed_bounds entries (typed_of typed.now)))
        name.now (F.seen files.old) (F.seen files.new)) }
{
    let Some(bytes) = read_file(files, name, MOST_STATE_BYTES)? else {
        return Err(FileEnding::Refused(StateRefusal::TooLong));
    };
    match resume(
        alloc,
        &bytes,
        sources.signature,
        sources.policy,
        typed.plans(),
        typed.guards(),
    ) {
        Ok(state) => Ok(state),
        Err(why) => Err(FileEnding::Refused(state_refusal_of(why)?)),
    }
}

// The bytes of a file; none where they are more than it may have.
fn read_file<F: Files>(files: &mut F, name: &str, most: usize) -> Result<Option<Vec<u8>>, IoRefusal>
    requires { most ≤ MOST_STATE_BYTES }
    ensures bytes { IfOk result
        (λ found. MatchOption found (IsLongFile most (F.seen files.old).contents name.now)
        (λ bytes. IsShortFile most (F.seen files.old).contents name.now bytes.items)) }
    ensures same { OnOk result (F.seen files.new ≡ F.seen files.old) }
    ensures not_read { IfErr result (IsFileNotRead most name.now (F.seen files.old) (F.seen files.new)) }
{
    let bytes = files.read(name, most + 1)?;
    if bytes.len() > most {
        return Ok(None);
    }
    Ok(Some(bytes))
}
