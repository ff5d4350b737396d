//! Laws of what is done at a step and of what is emitted, each the contract of a function that does nothing.
ghost use Rattle.choice_step.specs.machine.FittingLaws.{DecidedFits, DrainFits, FollowedFits};
ghost use Rattle.choice_step.specs.machine.JustificationLaws.{DecidedAreJustified, LeastDeadlineIsNeeded};
ghost use Rattle.choice_step.specs.machine.Laws.{ActionsAreLawful, CausesAlone, EventsAreActedOnOnce};
ghost use Rattle.choice_step.specs.machine.Laws.{DecidedIsDistinct, DecidedMissesNothing, DecidesIsOne, DrainIsOne};
ghost use Rattle.choice_step.specs.machine.Laws.{FollowsIsOne, SomeDecision, SomeFollows, SomeInserts};

use obligations::laws::{
    missed_are_own, missed_is_served, missing_exists, missing_is_one, pending_can_be_asked,
    pending_exists, pending_is_one, pending_is_owed, pending_is_right, something_missed_is_lost,
    well_formed_can_be_asked,
};
use plan_terms::laws::{lost_stays_lost, owed_stays_owed};
use trace_meaning::laws::trace_grows;

/// The rules leave no choice: not at a step, not for the records of a log, and not at its end.
pub fn follows_is_one()
    ensures step { DecidesIsOne }
    ensures records { FollowsIsOne }
    ensures drain { DrainIsOne }
{
    missing_is_one();
    pending_is_one();
}

/// Something is done at each step, whatever its events: the choice loop ends. It leaves a step without repeats.
pub fn some_decision()
    ensures some { SomeDecision }
    ensures distinct { DecidedIsDistinct }
{
    missing_exists();
    pending_exists();
    missed_are_own();
}

/// Where serving deadlines ends, something is emitted: at a drain, and for the records of each log.
pub fn something_goes_out()
    ensures inserts { SomeInserts }
    ensures records { SomeFollows }
{
    pending_exists();
    pending_can_be_asked();
    some_decision();
}

/// What is done at a step leaves nothing missing there.
pub fn decided_misses_nothing()
    ensures { DecidedMissesNothing }
{}

/// Actions are lawful changes of the events of a step: no event is acted on twice, and a step that begins without
/// events has causes alone.
pub fn actions_are_lawful()
    ensures changes { ActionsAreLawful }
    ensures once { EventsAreActedOnOnce }
    ensures causes_alone { CausesAlone }
{}

/// Each action that is decided at a step is for a node that is owed and otherwise lost, and leads to what the action
/// does; and an inserted step is needed.
pub fn actions_are_justified()
    ensures actions { DecidedAreJustified }
    ensures steps { LeastDeadlineIsNeeded }
{
    trace_grows();
    lost_stays_lost();
    owed_stays_owed();
    something_missed_is_lost();
    pending_is_one();
    pending_is_owed();
    missed_is_served();
    pending_can_be_asked();
    well_formed_can_be_asked();
}

/// Where the events that come in pass a test, and those that plans cause on traces whose events do, all that is emitted
/// pass it.
pub fn what_is_emitted_fits()
    ensures step { DecidedFits }
    ensures records { FollowedFits }
    ensures drain { DrainFits }
{
    pending_is_right();
}
