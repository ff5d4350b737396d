//! Steps at which nothing is awake.
ghost use Rattle.choice_step.specs.machine.Laws.{AsleepChangesNothing, AsleepComeOfThemselves, AsleepDecidesNothing};

use obligations::laws::{pending_exists, unwoken_is_idle};
use pending::laws::sleepers_stay;

/// Where all that is pending sleeps at a step and no rule is woken by its events, nothing is done there, nothing is
/// begun, and what is pending stays as it is, if its goals were not met before the step, as it is with what is pending
/// after a trace (`obligations::laws::pending_is_unmet`).
pub fn asleep_is_idle()
    ensures decides { AsleepDecidesNothing }
    ensures goes { AsleepChangesNothing }
    ensures leads { AsleepComeOfThemselves }
{
    unwoken_is_idle();
    pending_exists();
    sleepers_stay();
}
