//! That something is emitted: laws over the definitions, the contract of a function that does nothing.
ghost use Rattle.enforcer_core.specs.machine.ExistenceLaws.{JustOneFollows, JustOneFollowsPolicy, JustOneFollowsToEnd};
ghost use Rattle.enforcer_core.specs.machine.ExistenceLaws.{SomethingDrains, SomethingFollows};

use crate::termination::serving_ends;
use choice_step::laws::{follows_is_one, something_goes_out};
use enforce_types::laws::policy_has_one_answer;
use obligations::laws::well_formed_can_be_asked;

/// The plans of every accepted policy decide something after each trace: for the records of each log, and where all
/// that is pending is served.
pub fn something_is_decided()
    ensures records { SomethingFollows }
    ensures drain { SomethingDrains }
{
    serving_ends();
    well_formed_can_be_asked();
    something_goes_out();
}

/// Just one list of steps is emitted for the records of a log, by the plans of an accepted policy and by the policy,
/// and up to the end.
pub fn just_one_follows()
    ensures plans { JustOneFollows }
    ensures policy { JustOneFollowsPolicy }
    ensures to_end { JustOneFollowsToEnd }
{
    something_is_decided();
    follows_is_one();
    policy_has_one_answer();
}
