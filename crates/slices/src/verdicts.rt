//! What is known of a formula where nothing of its key happens.
ghost use Rattle.std.specs.Prelude.{◌≡◌};
ghost use Rattle.enf_formula.specs.machine.FormulaViews.{tree_of};
ghost use Rattle.slices.specs.machine.StoredKeys.{keying_of};
ghost use Rattle.slices.specs.meaning.Verdicts.{denied, both_hold, one_holds, verdict_of, verdict_of_atom};
ghost use Rattle.slices.specs.meaning.Verdicts.{verdict_of_some, verdict_of_all};

use crate::keys::Keys;
use enf_data::events::NameId;
use enf_formula::Formula;

/// What is known of the truth of a formula.
#[derive(Clone, Copy, Debug, PartialEq, Eq)]
pub enum Verdict {
    Holds,
    Fails,
    Open,
}

/// Where nothing of a key happens: at a step that has no event without a key either, or in a whole trace.
#[derive(Clone, Copy, Debug, PartialEq, Eq)]
pub enum Absence {
    AtStep,
    InTrace,
}

// Of the denial.
fn not(verdict: Verdict) -> Verdict
    ensures { result ≡ denied verdict }
{
    match verdict {
        Verdict::Holds => Verdict::Fails,
        Verdict::Fails => Verdict::Holds,
        Verdict::Open => Verdict::Open,
    }
}

fn and(one: Verdict, other: Verdict) -> Verdict
    ensures { result ≡ both_hold one other }
{
    match one {
        Verdict::Fails => Verdict::Fails,
        Verdict::Holds => other,
        Verdict::Open => match other {
            Verdict::Fails => Verdict::Fails,
            _ => Verdict::Open,
        },
    }
}

fn or(one: Verdict, other: Verdict) -> Verdict
    ensures { result ≡ one_holds one other }
{
    not(and(not(one), not(other)))
}

// Of an atom.
fn of_atom(absence: Absence, keys: &Keys, name: NameId) -> Verdict
    ensures { result ≡ verdict_of_atom absence (keying_of keys.now name) }
{
    match (keys.column(name), absence) {
        (None, Absence::InTrace) => Verdict::Open,
        _ => Verdict::Fails,
    }
}

// That some step has it.
fn some(absence: Absence, verdict: Verdict) -> Verdict
    ensures { result ≡ verdict_of_some absence verdict }
{
    match (absence, verdict) {
        (Absence::InTrace, Verdict::Fails) => Verdict::Fails,
        _ => Verdict::Open,
    }
}

// That all steps have it.
fn all(absence: Absence, verdict: Verdict) -> Verdict
    ensures { result ≡ verdict_of_all absence verdict }
{
    match (absence, verdict) {
        (Absence::InTrace, Verdict::Holds) => Verdict::Holds,
        _ => Verdict::Open,
    }
}

/// What is known of a formula of one key where nothing of this key happens.
pub fn known(absence: Absence, keys: &Keys, formula: &Formula) -> Verdict
    ensures { result ≡ verdict_of absence (keying_of keys.now) (tree_of formula.now) }
{
    match formula {
        Formula::True(_) => Verdict::Holds,
        Formula::False(_) => Verdict::Fails,
        Formula::Atom(_, name, _) => of_atom(absence, keys, *name),
        Formula::Equal(_, _, _)
        | Formula::Less(_, _, _)
        | Formula::AtMost(_, _, _)
        | Formula::Prev(_, _, _)
        | Formula::Next(_, _, _) => Verdict::Open,
        Formula::Not(_, f) => not(known(absence, keys, f)),
        Formula::And(_, f, g) => and(known(absence, keys, f), known(absence, keys, g)),
        Formula::Or(_, f, g) => or(known(absence, keys, f), known(absence, keys, g)),
        Formula::Implies(_, f, g) => or(not(known(absence, keys, f)), known(absence, keys, g)),
        Formula::Exists(_, _, f) | Formula::Forall(_, _, f) => known(absence, keys, f),
        Formula::Once(_, _, f)
        | Formula::Eventually(_, _, f)
        | Formula::Since(_, _, _, f)
        | Formula::Until(_, _, _, f) => some(absence, known(absence, keys, f)),
        Formula::Historically(_, _, f) | Formula::Always(_, _, f) => {
            all(absence, known(absence, keys, f))
        }
    }
}
