//! Laws of what sleeps, each the contract of a function that does nothing.
ghost use Rattle.pending.specs.machine.Laws.{EarlyMissNothing, EarlyStay, SleepersMissNothing, SleepersStay};

use enf_formula::laws;
use plan_terms::laws::nodes_have_scopes;
use trace_meaning::laws::last_time_of_trace;

/// A pending instance that sleeps at a step misses nothing there, where it is not forced. It becomes itself, where its
/// goal was not met before the step; one of an Always up to the end of its window. So does one whose window has not
/// begun, whatever was before.
pub fn sleepers_stay()
    ensures misses_nothing { SleepersMissNothing }
    ensures stays { SleepersStay }
    ensures early_misses_nothing { EarlyMissNothing }
    ensures early_stays { EarlyStay }
{
    laws::dependence();
    nodes_have_scopes();
    last_time_of_trace();
}
