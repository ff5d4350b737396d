//! Laws of verdicts, each the contract of a function that does nothing.
ghost use Rattle.trace_audit.specs.machine.Laws.{VerdictIsOfPolicy, VerdictIsOne};

use enforce_types::laws::policy_plans_keep_meaning;

/// There is one verdict on a trace at most.
pub fn verdict_is_one()
    ensures { VerdictIsOne }
{}

/// The verdict by the plans of a policy is that by the policy.
pub fn verdict_is_of_policy()
    ensures { VerdictIsOfPolicy }
{
    policy_plans_keep_meaning();
}
