//! What plans are worth: laws over the definitions, each the contract of a function with an empty body.
ghost use Rattle.enforce_types.specs.machine.PlanLaws.{UpKeepsMeaning, DownKeepsMeaning, FormulaHasOneAnswer};
ghost use Rattle.enforce_types.specs.machine.PlanLaws.{PlansHaveSafeGuards, SafeLooksBack, NodesAreNumbered};
ghost use Rattle.enforce_types.specs.machine.PlanLaws.{GuardsAreNumbered, NumbersMeanNothing, NumberingKeepsSafe};
ghost use Rattle.enforce_types.specs.machine.PlanLaws.{PlansAreSmall};
ghost use Rattle.enforce_types.specs.machine.PolicyLaws.{PolicyKeepsMeaning, PolicyIsNumbered, PolicyGuardsAreSafe};
ghost use Rattle.enforce_types.specs.machine.PolicyLaws.{PolicyHasAnswer, NotPlannedAndRefused, OnePlans, OneRefusal};
ghost use Rattle.enforce_types.specs.machine.PolicyLaws.{GuardsAreAtNumbers, PlansAreWellFormed, PlansAreWithinLimits};
ghost use Rattle.enforce_types.specs.machine.PolicyLaws.{PlansEndLater, PlansKeepToSignature, AcceptedIsNotRefused};
ghost use Rattle.enforce_types.specs.machine.PolicyLaws.{AcceptedOrRefused, RefusedOnce};
ghost use Rattle.enforce_types.specs.machine.SortLaws.{MadeKeepsSorts, PolicyKeepsSorts, ReadIsSorted, SafeIsFound};
ghost use Rattle.enforce_types.specs.machine.SortLaws.{SafeValuesFit};

use enf_formula::laws::is_classical;
use rank_check::laws::plans_have_one_answer;

/// A plan's formula holds exactly where the formula does that it makes true, and exactly where the formula does not
/// that it makes false.
pub fn plans_keep_meaning()
    ensures up { UpKeepsMeaning }
    ensures down { DownKeepsMeaning }
{
    is_classical();
}

/// For each formula that is to be made true or false there is exactly one answer, a plan or the first refusal.
pub fn has_one_answer()
    ensures { FormulaHasOneAnswer }
{}

/// The guards and tests of a plan can be evaluated over finite tables where they stand, and look back alone.
pub fn plans_have_safe_guards()
    ensures safe { PlansHaveSafeGuards }
    ensures past { SafeLooksBack }
{}

/// Numbers of nodes are their places in pre-order, those of guards and tests their places over the policy; no number
/// has a part in what a plan means.
pub fn numbers_are_places()
    ensures nodes { NodesAreNumbered }
    ensures guards { GuardsAreNumbered }
    ensures meaning { NumbersMeanNothing }
    ensures safe { NumberingKeepsSafe }
{}

/// A plan is not larger than its formula.
pub fn plans_are_small()
    ensures { PlansAreSmall }
{}

/// The plans of a policy mean what its rules mean, keep their places as numbers, and have guards that can be evaluated.
pub fn policy_plans_keep_meaning()
    ensures meaning { PolicyKeepsMeaning }
    ensures numbered { PolicyIsNumbered }
    ensures safe { PolicyGuardsAreSafe }
{
    is_classical();
}

/// In the plans of a policy the guard or test with a number stands at this place among the guards.
pub fn guards_stand_at_their_numbers()
    ensures { GuardsAreAtNumbers }
{}

/// The plans of a policy that was read keep to the limits, and change and look for no name but the signature's.
pub fn plans_are_within_limits()
    ensures { PlansAreWithinLimits }
{}

/// The plans of a policy that was read are well-formed with their guards, where no name is both caused and suppressed.
/// None of their intervals ends at once, and they change events as the signature permits.
pub fn plans_are_well_formed()
    ensures formed { PlansAreWellFormed }
    ensures later { PlansEndLater }
    ensures kept { PlansKeepToSignature }
{}

/// Each policy has plans or a first refusal, exactly one.
pub fn policy_has_one_answer()
    ensures answered { PolicyHasAnswer }
    ensures not_both { NotPlannedAndRefused }
    ensures plans { OnePlans }
    ensures refusal { OneRefusal }
{}

/// A policy that is accepted is refused in no other way than by running out of memory.
pub fn accepted_is_not_refused()
    ensures { AcceptedIsNotRefused }
{
    plans_have_one_answer();
}

/// Each policy is accepted or refused, and has one refusal at most, other than by running out of memory.
pub fn policy_is_accepted_or_refused()
    ensures answered { AcceptedOrRefused }
    ensures once { RefusedOnce }
{
    plans_have_one_answer();
}

/// A safe formula finds the sorts of its free variables, and the values of these under which it holds are of their
/// sorts, on a trace of which the events are.
pub fn safe_values_fit()
    ensures found { SafeIsFound }
    ensures values { SafeValuesFit }
{}

/// The plan of a closed formula that sorts fit keeps to them, and so do those of a policy that was read.
pub fn plans_keep_sorts()
    ensures made { MadeKeepsSorts }
    ensures policy { PolicyKeepsSorts }
{}

/// The rules of a text are sorted.
pub fn read_is_sorted()
    ensures { ReadIsSorted }
{}
