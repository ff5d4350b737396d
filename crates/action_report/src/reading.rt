//! The action that a line tells.
ghost use Rattle.std.specs.Prelude.{◌≡◌, ◌++◌, ◌<◌, ◌^◌, [], ℕ, List, IfErr, IfOk, IfSome, Some};
ghost use Rattle.std.specs.Prelude.{codes, length, map, position};
ghost use Rattle.std.specs.List.{AllByRecursion};
ghost use Rattle.std.specs.Str.{bytes_eq};
ghost use Rattle.enf_value.specs.meaning.Tokens.{IsNoDigit};
ghost use Rattle.formula_reader.specs.meaning.Resolution.{Rule as AnyRule};
ghost use Rattle.formula_reader.specs.machine.StoredRules.{policy_rules_of};
ghost use Rattle.formula_reader.specs.declared.policies.Rule.{Rule as StoredRule};
ghost use Rattle.formula_reader.specs.machine.WellFormedPolicies.{IsWellFormedPolicy};
ghost use Rattle.obligations.specs.declared.actions.Action.{Action as AnyAction};
ghost use Rattle.obligations.specs.declared.literals.LiteralKind.{LiteralKind as AnyKind};
ghost use Rattle.plan_terms.specs.machine.StoredPlans.{plan_of};
ghost use Rattle.plan_terms.specs.machine.WellFormed.{IsScopedPlan};
ghost use Rattle.action_report.specs.meaning.ReportLines.{cause_text, kind_text, when_text};
ghost use Rattle.action_report.specs.machine.LineParts.{IsRuleNamedOnce, cause_of_action, EndsWord, IsFieldRead};
ghost use Rattle.action_report.specs.machine.ReportedActions.{CanBeTold, IsReportLine, IsWithinBits, RefusesReportLine};

use crate::bindings::read_valuation;
use crate::cursor::Cursor;
use crate::lines::write_action;
use crate::refusals::ReportRefusal;
use enf_data::NoMemory;
use formula_reader::policies::{Policy, Rule};
use obligations::{Action, LiteralKind};
use plan_terms::Plan;
use signature::Signature;
use std::alloc::Global;

// For what an action is done: its rule, the node and the leaf, and where the node was begun.
#[derive(Clone, Copy)]
pub(crate) struct Cause {
    pub rule: u32,
    pub node: u32,
    pub leaf: u32,
    pub origin: u64,
}

fn kind_of(word: &[u8]) -> Option<LiteralKind>
    ensures { (kind : AnyKind) → word.now ≡ kind_text kind → result ≡ Some kind }
{
    match word {
        b"cause" => Some(LiteralKind::Cause),
        b"suppress" => Some(LiteralKind::Suppress),
        _ => None,
    }
}

// Where the first rule with a name stands.
fn place_named(rules: &[Rule], name: &[u8]) -> Option<usize>
    ensures place { result ≡ position (λ (rule : StoredRule). bytes_eq rule.name name.now) rules.now }
    ensures within { IfSome result (λ place. place < length rules.now) }
{
    rules.iter().position(|rule| rule.name.bytes() == name)
}

// The number of the rule with a name.
fn rule_named(policy: &Policy, name: &[u8]) -> Option<u32>
    ensures within { IfSome result (λ number. number < length policy.now.rules) }
    ensures again { (number : ℕ) (rule : AnyRule) → number < 2 ^ 32
        → IsRuleNamedOnce (policy_rules_of policy.now) number rule
        → name.now ≡ rule.name → result ≡ Some number }
{
    let number = place_named(policy.rules.as_slice(), name)?;
    u32::try_from(number).ok()
}

impl Cursor<'_> {
    fn kind(&mut self) -> Option<LiteralKind>
        ensures { (kind : AnyKind) (rest : List ℕ) → self.old.rest.now ≡ kind_text kind ++ (codes " " ++ rest)
            → IsFieldRead result self.new.rest.now kind rest }
    {
        let kind = kind_of(self.word())?;
        if !self.take(b" ") {
            return None;
        }
        Some(kind)
    }

    // The time and the position.
    fn when(&mut self) -> Option<(u64, u64)>
        ensures { (action : AnyAction) (rest : List ℕ) → IsWithinBits action → IsNoDigit rest
            → self.old.rest.now ≡ when_text action ++ rest
            → IsFieldRead result self.new.rest.now (action.time, action.position) rest }
    {
        let time = self.labelled(b" at ")?;
        let position = self.labelled(b" step ")?;
        Some((time, position))
    }

    fn rule(&mut self, policy: &Policy) -> Option<u32>
        ensures within { IfSome result (λ number. number < length policy.now.rules) }
        ensures again { (number : ℕ) (rule : AnyRule) (rest : List ℕ) → number < 2 ^ 32
            → IsRuleNamedOnce (policy_rules_of policy.now) number rule → EndsWord rest
            → self.old.rest.now ≡ codes " rule " ++ (rule.name ++ rest)
            → IsFieldRead result self.new.rest.now number rest }
    {
        if !self.take(b" rule ") {
            return None;
        }
        rule_named(policy, self.word())
    }

    fn cause(&mut self, policy: &Policy) -> Option<Cause>
        ensures within { IfSome result (λ cause. cause.rule < length policy.now.rules) }
        ensures again { (action : AnyAction) (rule : AnyRule) (rest : List ℕ) → IsWithinBits action
            → IsRuleNamedOnce (policy_rules_of policy.now) action.rule rule → IsNoDigit rest
            → self.old.rest.now ≡ cause_text rule.name action ++ rest
            → IsFieldRead result self.new.rest.now (cause_of_action action) rest }
    {
        let rule = self.rule(policy)?;
        let node = self.short_labelled(b" node ")?;
        let leaf = self.short_labelled(b" leaf ")?;
        let origin = self.labelled(b" origin ")?;
        Some(Cause {
            rule,
            node,
            leaf,
            origin,
        })
    }
}

// The action that a line tells, whatever stands after it and however its numbers and texts are spelled.
fn read_loosely(
    alloc: Global,
    signature: &Signature,
    policy: &Policy,
    plans: &[Plan],
    line: &[u8],
) -> Result<Option<Action>, NoMemory>
    requires policy { IsWellFormedPolicy signature.now (policy_rules_of policy.now) }
    requires plans { AllByRecursion (λ plan. IsScopedPlan plan []) (map plan_of plans.now) }
    ensures told { IfOk result
        (λ found. IfSome found (CanBeTold signature.now (policy_rules_of policy.now) (map plan_of plans.now))) }
    ensures again { (action : AnyAction) → IsWithinBits action
        → IsReportLine signature.now (policy_rules_of policy.now) (map plan_of plans.now) line.now action
        → IfOk result (λ found. found ≡ Some action) }
{
    let mut cursor = Cursor { rest: line };
    let Some(kind) = cursor.kind() else {
        return Ok(None);
    };
    let Some(event) = cursor.event(alloc, signature)? else {
        return Ok(None);
    };
    let Some((time, position)) = cursor.when() else {
        return Ok(None);
    };
    let Some(cause) = cursor.cause(policy) else {
        return Ok(None);
    };
    let Some(valuation) = read_valuation(alloc, policy, plans, cause, &mut cursor)? else {
        return Ok(None);
    };
    Ok(Some(Action {
        kind,
        event,
        time,
        position,
        rule: cause.rule,
        node: cause.node,
        leaf: cause.leaf,
        origin: cause.origin,
        valuation,
    }))
}

/// The action that a report line tells, its line feed included. Syntax comes exactly where the bytes are the line of
/// no action. It reads loosely, and takes only what would be written so.
pub fn read_action(
    alloc: Global,
    signature: &Signature,
    policy: &Policy,
    plans: &[Plan],
    line: &[u8],
) -> Result<Action, ReportRefusal>
    // So is each policy that was read under the signature.
    requires policy { IsWellFormedPolicy signature.now (policy_rules_of policy.now) }
    // So are the plans of each policy that was typed.
    requires plans { AllByRecursion (λ plan. IsScopedPlan plan []) (map plan_of plans.now) }
    ensures told { IfOk result
        (IsReportLine signature.now (policy_rules_of policy.now) (map plan_of plans.now) line.now) }
    ensures refused { IfErr result (RefusesReportLine signature.now (policy_rules_of policy.now)
        (map plan_of plans.now) line.now) }
{
    let Some(action) = read_loosely(alloc, signature, policy, plans, line)? else {
        return Err(ReportRefusal::Syntax);
    };
    let mut written = Vec::new(alloc);
    write_action(signature, policy, &action, &mut written)?;
    if written.as_slice() != line {
        return Err(ReportRefusal::Syntax);
    }
    Ok(action)
}
