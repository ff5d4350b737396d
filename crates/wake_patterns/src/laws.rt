//! Laws of plans that wait for events, each the contract of a function that does nothing.
ghost use Rattle.wake_patterns.specs.machine.Laws.{UnmetPlansFail, UnmissedPlansHold};

/// Without an event by which it could be met a plan fails; without one by which it could be missed it holds.
pub fn plans_wait()
    ensures unmet_fail { UnmetPlansFail }
    ensures unmissed_hold { UnmissedPlansHold }
{}
