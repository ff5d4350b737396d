//! The state of a text.
ghost use Rattle.std.specs.Prelude.{◌≡◌, ◌↔◌, ◌+◌, ◌<◌, ◌≤◌, ◌^◌, List, None, Ok, IfErr};
ghost use Rattle.std.specs.Prelude.{IfNone, IfOk, IfSome, IsTrue, [], length, map};
ghost use Rattle.std.specs.List.{AllByRecursion};
ghost use Rattle.signature.specs.meaning.Refusals.{AnswersSignature};
ghost use Rattle.signature.specs.declared.entries.NameEntry.{NameEntry};
ghost use Rattle.plan_terms.specs.machine.StoredPlans.{plan_of};
ghost use Rattle.plan_terms.specs.machine.WellFormed.{IsScopedPlan};
ghost use Rattle.past_state.specs.meaning.RowBounds.{IsFrom};
ghost use Rattle.save_codec.specs.meaning.SavedBounds.{SaveSetting, KeepsBounds};
ghost use Rattle.save_codec.specs.meaning.SavedTexts.{IsTextOfLines, lines_of};
ghost use Rattle.save_codec.specs.machine.BoundJudgements.{AreNumbers, FitsBehind, IsJudge, IsStateOf, IsUnfitLine};
ghost use Rattle.save_codec.specs.machine.BoundJudgements.{IsUnfitNumber, unfit_refusal};
ghost use Rattle.save_codec.specs.machine.LineParts.{lines_in};
ghost use Rattle.save_codec.specs.meaning.SaveRefusals.{IsSaveRefusal};
ghost use Rattle.save_codec.specs.machine.ResumeAnswers.{IsSettingOf};

use crate::judging::{Judge, Unfit};
use crate::knowing::{known_in_rules, known_in_windows};
use crate::limits::MOST_STATE_TIME;
use crate::parts::LineParts;
use crate::refusals::StateRefusal;
use crate::snapshots::Snapshot;
use crate::texts::{StateText, read_text};
use enf_data::{MOST_FILE_BYTES, NoMemory};
use monitorable_guard::Guard;
use past_state::window_shapes;
use plan_terms::Plan;
use signature::Signature;
use std::alloc::Global;

fn is_up_to(clock: u64, last: Option<u64>) -> bool
    ensures { IsTrue result ↔ IsFrom last clock }
{
    match last {
        Some(last) => last <= clock,
        None => true,
    }
}

// Whether the position is 0 just where there is no last time.
fn agree(last: Option<u64>, position: u64) -> bool
    ensures { IsTrue result ↔ ((last ≡ None) ↔ (position ≡ 0)) }
{
    match last {
        Some(_) => position != 0,
        None => position == 0,
    }
}

// The first line of clock, last time and position that breaks the bounds.
fn unfit_number(clock: u64, last: Option<u64>, position: u64) -> Option<u64>
    ensures some { IfSome result (IsUnfitNumber clock last position) }
    ensures none { IfNone result (AreNumbers clock last position) }
{
    if clock > MOST_STATE_TIME {
        return Some(1);
    }
    if !is_up_to(clock, last) {
        return Some(2);
    }
    if !agree(last, position) {
        return Some(3);
    }
    None
}

// The refusal for the place of a line, where the first of the lines has this number.
fn refusal_at(first: u64, unfit: Unfit) -> StateRefusal
    requires { FitsBehind first unfit }
    ensures { result ≡ unfit_refusal first unfit }
{
    match unfit {
        Unfit::At(place) => StateRefusal::Inconsistent {
            line: first + place as u64,
        },
        Unfit::NoMemory => StateRefusal::NoMemory,
    }
}

impl Judge<'_> {
    // The state of lines, or the first line that breaks the bounds.
    fn state(&self, alloc: Global, parts: LineParts) -> Result<Snapshot, StateRefusal>
        requires judge { (s : SaveSetting) × IsJudge s self.now }
        requires few { length (lines_in parts) < 2 ^ 63 }
        ensures ok { (s : SaveSetting) → IsJudge s self.now → IfOk result (IsStateOf s (lines_in parts)) }
        ensures err { (s : SaveSetting) → IsJudge s self.now → IfErr result (IsUnfitLine s (lines_in parts)) }
    {
        let LineParts {
            clock,
            last,
            position,
            rows,
            dues,
        } = parts;
        if let Some(line) = unfit_number(clock, last, position) {
            return Err(StateRefusal::Inconsistent { line });
        }
        let behind_rows = 4 + rows.len() as u64;
        let kept = match self.kept_rows(alloc, last, rows) {
            Ok(kept) => kept,
            Err(unfit) => return Err(refusal_at(4, unfit)),
        };
        let pending = match self.instances(alloc, clock, position, dues.as_slice()) {
            Ok(pending) => pending,
            Err(unfit) => return Err(refusal_at(behind_rows, unfit)),
        };
        Ok(Snapshot {
            clock,
            last,
            position,
            kept,
            pending,
        })
    }
}

fn judge_of<'a>(
    alloc: Global,
    signature: &[u8],
    plans: &'a [Plan],
    guards: &'a [Guard],
) -> Result<Judge<'a>, NoMemory>
    requires short { length signature.now ≤ MOST_FILE_BYTES }
    requires spells { (entries : List NameEntry) × AnswersSignature signature.now (Ok entries) }
    requires scoped { AllByRecursion (λ plan. IsScopedPlan plan []) (map plan_of plans.now) }
    ensures { (s : SaveSetting) → IsSettingOf signature.now plans.now guards.now s → IfOk result (IsJudge s) }
{
    // The bytes are a signature, so that memory alone can be wanting.
    let Ok(signature) = Signature::read(alloc, signature) else {
        return Err(NoMemory);
    };
    let rules = known_in_rules(alloc, &signature, plans)?;
    let shapes = window_shapes(alloc, guards)?;
    let windows = known_in_windows(alloc, &signature, plans, shapes.as_slice())?;
    Ok(Judge {
        plans,
        rules,
        shapes,
        windows,
    })
}

fn is_same(bytes: &[u8], others: &[u8]) -> bool
    ensures { IsTrue result ↔ (bytes.now ≡ others.now) }
{
    bytes == others
}

/// The state whose saved text the bytes are, under the bytes of a signature and of a policy with these plans and
/// guards; or the first refusal: by the form of the lines, then by another signature or policy, then by the bounds.
pub fn resume(
    alloc: Global,
    bytes: &[u8],
    signature: &[u8],
    policy: &[u8],
    plans: &[Plan],
    guards: &[Guard],
) -> Result<Snapshot, StateRefusal>
    requires short { length signature.now ≤ MOST_FILE_BYTES }
    requires spells { (entries : List NameEntry) × AnswersSignature signature.now (Ok entries) }
    requires scoped { AllByRecursion (λ plan. IsScopedPlan plan []) (map plan_of plans.now) }
    ensures text { IfOk result (λ state. IsTextOfLines bytes.now signature.now policy.now (lines_of state)) }
    ensures bounds { (s : SaveSetting) → IsSettingOf signature.now plans.now guards.now s
        → IfOk result (KeepsBounds s) }
    ensures refused { (s : SaveSetting) → IsSettingOf signature.now plans.now guards.now s
        → IfErr result (IsSaveRefusal s bytes.now signature.now policy.now) }
{
    let text = read_text(alloc, bytes)?;
    if !is_same(text.signature, signature) || !is_same(text.policy, policy) {
        return Err(StateRefusal::OtherPolicy);
    }
    let StateText { parts, .. } = text;
    let judge = judge_of(alloc, signature, plans, guards)?;
    judge.state(alloc, parts)
}
