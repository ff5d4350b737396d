//! The reader of policies: the first pass over the whole text, then the second over its tree.
ghost use Rattle.std.specs.Prelude.{◌≤◌, IfOk, List, Result, length};
ghost use Rattle.formula_reader.specs.machine.CallAnswers.{CallGivesPolicy, policy_answer_of, GivesPolicyAnswer};
ghost use Rattle.formula_reader.specs.meaning.PolicyAnswers.{IsPolicyAnswer};
ghost use Rattle.formula_reader.specs.meaning.Resolution.{Rule as PureRule};
ghost use Rattle.formula_reader.specs.machine.StoredRules.{policy_rules_of};
ghost use Rattle.formula_reader.specs.machine.WellFormedPolicies.{IsWellFormedPolicy};
ghost use Rattle.formula_reader.specs.declared.policies.PolicyRefusal.{PolicyRefusal as RefusalOfPolicy};

use crate::laws::read_is_well_formed;
use crate::policies::{Policy, PolicyRefusal};
use crate::resolving::resolve;
use enf_data::MOST_FILE_BYTES;
use policy_syntax::read_syntax;
use signature::Signature;
use std::alloc::Global;

/// The policy that a text spells under a signature, or the first refusal: those of the first pass, Syntax and Limit,
/// come before the others.
pub fn read_policy(
    alloc: Global,
    signature: &Signature,
    bytes: &[u8],
) -> Result<Policy, PolicyRefusal>
    requires { length bytes.now ≤ MOST_FILE_BYTES }
    // The text's answer, unless there is no memory.
    ensures answer { GivesPolicyAnswer signature.now bytes.now (policy_answer_of result) }
    // No other answer than the text's.
    ensures only { (answer : Result (List PureRule) RefusalOfPolicy) → IsPolicyAnswer signature.now bytes.now answer
        → CallGivesPolicy (policy_answer_of result) answer }
    // The rules are those of a policy: closed, and within the limits.
    ensures policy { IfOk result (λ policy. IsWellFormedPolicy signature.now (policy_rules_of policy)) }
{
    read_is_well_formed();
    let syntax = read_syntax(alloc, bytes)?;
    resolve(alloc, signature, &syntax)
}
