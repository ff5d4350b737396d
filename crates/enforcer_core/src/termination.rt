//! Why inserted steps end: laws over the definitions, each the contract of a function that does nothing.
ghost use Rattle.enforcer_core.specs.machine.ReachLaws.{AnyCountsFall, AnyDeadlinesFall, DeadlinesAreWithinReach};
ghost use Rattle.enforcer_core.specs.machine.ReachLaws.{HighsAreNear, LedDeadlinesFall, LedStaysInReach, NoneGoesOver};
ghost use Rattle.enforcer_core.specs.machine.ReachLaws.{ReachIsWithinHorizon, ServedCountsFall, ServedDeadlinesFall};
ghost use Rattle.enforcer_core.specs.machine.ReachLaws.{WindowsAreInOrder};

use choice_step::laws::{actions_are_lawful, decided_misses_nothing};
use obligations::laws::{
    missing_is_one, pending_is_one, pending_was_begun, steps_reach, well_formed_can_be_asked,
};
use plan_terms::laws::nodes_stand_in_plans;
use rank_check::laws::ranks_by_recursion;
use trace_meaning::laws::last_time_of_trace;

/// From whatever is pending a step that serves the least deadline leaves later ones, and nothing is owed for longer
/// than it was. It leaves fewer deadlines of some class, and as many of each class above it, even where intervals end
/// at once.
pub fn serving_ends_anywhere()
    ensures fall { AnyDeadlinesFall }
    ensures counts { AnyCountsFall }
{
    nodes_stand_in_plans();
    ranks_by_recursion();
    steps_reach();
    missing_is_one();
    decided_misses_nothing();
}

/// So it is after a trace, by what is pending there, of which the counts by class fall, compared from the greatest class
/// down; what is owed there is owed within the horizon.
pub fn serving_ends()
    ensures fall { ServedDeadlinesFall }
    ensures counts { ServedCountsFall }
    ensures horizon { ReachIsWithinHorizon }
    ensures near { HighsAreNear }
    ensures reach { DeadlinesAreWithinReach }
    ensures over { NoneGoesOver }
    ensures windows { WindowsAreInOrder }
{
    serving_ends_anywhere();
    nodes_stand_in_plans();
    steps_reach();
    missing_is_one();
    pending_is_one();
    pending_was_begun();
    well_formed_can_be_asked();
    last_time_of_trace();
}

/// Whatever the guards say, what a step leads on to has no deadline that is over, and is owed within the horizon; where
/// the step serves the least deadline, each is later, and nothing is owed for longer than it was.
pub fn steps_lead_on()
    ensures fall { LedDeadlinesFall }
    ensures stays { LedStaysInReach }
{
    nodes_stand_in_plans();
    ranks_by_recursion();
    steps_reach();
    actions_are_lawful();
}
