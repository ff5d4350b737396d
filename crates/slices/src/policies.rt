//! Whether policies are of one key.
ghost use Rattle.std.specs.Prelude.{OnOk, OnErr, IfErr};
ghost use Rattle.formula_reader.specs.machine.StoredRules.{stored_rule_formulas};
ghost use Rattle.slices.specs.machine.FirstHindrances.{IsFirstAnswer, IsPolicyInTheWay};
ghost use Rattle.slices.specs.machine.StoredKeys.{keying_of};
ghost use Rattle.slices.specs.meaning.SlicedRules.{IsFirstHindrance, IsSlicedPolicy};

use crate::hindrances::{Hindrance, earlier};
use crate::keys::Keys;
use crate::sliced::rule_hindrance;
use formula_reader::policies::Rule;

// The first that is in the way of one of the rules.
fn policy_hindrance(keys: &Keys, rules: &[Rule]) -> Option<Hindrance>
    ensures { IsFirstAnswer (IsPolicyInTheWay (keying_of keys.now) (stored_rule_formulas rules.now)) result }
{
    let mut first = None;
    for rule in rules {
        first = earlier(first, rule_hindrance(keys, &rule.formula));
    }
    first
}

/// Whether each rule is of one key; if not, the first place that is in the way.
pub fn is_sliced(keys: &Keys, rules: &[Rule]) -> Result<(), Hindrance>
    ensures ok { OnOk result (IsSlicedPolicy (keying_of keys.now) (stored_rule_formulas rules.now)) }
    ensures refused { OnErr result (IsSlicedPolicy (keying_of keys.now) (stored_rule_formulas rules.now) → ⊥) }
    ensures first { IfErr result (IsFirstHindrance
        (IsPolicyInTheWay (keying_of keys.now) (stored_rule_formulas rules.now))) }
{
    match policy_hindrance(keys, rules) {
        None => Ok(()),
        Some(hindrance) => Err(hindrance),
    }
}
