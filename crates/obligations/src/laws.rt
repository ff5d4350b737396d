//! Laws of what plans miss and begin, each the contract of a function that does nothing.
ghost use Rattle.obligations.specs.machine.TraceLaws.{PendCanBePending, PendCame, PendingWasBegun, CleanGrows};
ghost use Rattle.obligations.specs.machine.TraceLaws.{NothingIsPending, PendGrows};
ghost use Rattle.obligations.specs.machine.SoundnessLaws.{NothingMissedIsEnough, NothingMissedIsEnoughPending};
ghost use Rattle.obligations.specs.machine.SoundnessLaws.{PendingIsEnough, StepIsEnough};
ghost use Rattle.obligations.specs.machine.LossLaws.{SomethingMissedIsLost, DeadlineIsNeeded, MissedIsServed};
ghost use Rattle.obligations.specs.machine.LossLaws.{MissedIsServedPending, PendingIsEarlier, PendingIsOwed};
ghost use Rattle.obligations.specs.machine.LossLaws.{SomethingMissedIsLostPending};
ghost use Rattle.obligations.specs.machine.ExistenceLaws.{AfterExists, BegunExists, PendingAfterExists, MissingExists};
ghost use Rattle.obligations.specs.machine.ExistenceLaws.{MissingOfExists, PendExists};
ghost use Rattle.obligations.specs.machine.AskingLaws.{BegunCanBeAsked, PendingAfterCanBeAsked, PendCanBeAsked};
ghost use Rattle.obligations.specs.machine.AskingLaws.{CanBeAsked, NowStands, WellFormedCanBeAsked, WellFormedStand};
ghost use Rattle.obligations.specs.machine.AskingLaws.{FreshInstanceCanBeAsked, FreshPlanCanBeAsked, StaleNowStands};
ghost use Rattle.obligations.specs.machine.UniquenessLaws.{MissingIsOne, AfterIsOne, BegunIsOne, MissingOfIsOne};
ghost use Rattle.obligations.specs.machine.UniquenessLaws.{PendIsOne, RowsAreOne};
ghost use Rattle.obligations.specs.machine.TriggerLaws.{BegunIsNamed, BegunIsReached, MissedIsReached, ReachedIsInside};
ghost use Rattle.obligations.specs.machine.TriggerLaws.{UnwokenBeginsNothing, UnwokenMissesNothing};
ghost use Rattle.obligations.specs.machine.ValueLaws.{MissedIsRight, MissedOfIsRight, PendingIsRight, MissedAreOwn};
ghost use Rattle.obligations.specs.machine.ValueLaws.{MissedOfAreOwn};
ghost use Rattle.obligations.specs.machine.UnmetGoals.{PendAreUnmet};
ghost use Rattle.obligations.specs.machine.UnreadLaws.{UnreadInstanceStaysMet, UnreadLeavesRest, UnreadStaysMet};

use enf_formula::laws;
use monitorable_guard::laws::{safe_has_rows, safe_values_are_known};
use plan_terms::laws::{
    lost_stays_lost, nodes_have_scopes, nodes_stand_in_plans, owed_stays_owed, triggers_are_met,
};
use trace_meaning::laws::last_time_of_trace;

/// A guard has one list of rows at most, and a plan misses one list of literals.
pub fn missing_is_one()
    ensures rows { RowsAreOne }
    ensures missing { MissingIsOne }
{}

/// What is begun, what an instance misses and becomes, and what is pending after a trace, is one list at most.
pub fn pending_is_one()
    ensures begun { BegunIsOne }
    ensures missing { MissingOfIsOne }
    ensures after { AfterIsOne }
    ensures pending { PendIsOne }
{}

/// Where nothing is missing, it is enough that later positions meet what is begun, and what becomes of what was
/// pending.
pub fn nothing_missed_is_enough()
    ensures begun { NothingMissedIsEnough }
    ensures pending { NothingMissedIsEnoughPending }
{
    laws::dependence();
}

/// Where a plan that is begun misses something, no longer trace satisfies it there.
pub fn something_missed_is_lost()
    ensures { SomethingMissedIsLost }
{
    laws::dependence();
}

/// What is pending after a clean trace is owed there, and where it misses something at a step more, it is lost.
pub fn pending_is_owed()
    ensures owed { PendingIsOwed }
    ensures earlier { PendingIsEarlier }
    ensures needed { DeadlineIsNeeded }
    ensures lost { SomethingMissedIsLostPending }
{
    laws::dependence();
    nodes_have_scopes();
    last_time_of_trace();
    lost_stays_lost();
    owed_stays_owed();
}

/// What misses something leads to the leaves that want it: what is begun at a step, and what was pending before.
pub fn missed_is_served()
    ensures begun { MissedIsServed }
    ensures pending { MissedIsServedPending }
{
    laws::dependence();
    nodes_have_scopes();
    last_time_of_trace();
    lost_stays_lost();
    owed_stays_owed();
}

/// Where nothing was missed along a trace, it is enough to meet what is pending after it, and so for what was pending
/// before a step, where nothing is missed at it; plans that do not look ahead leave nothing pending.
pub fn pending_is_enough()
    ensures enough { PendingIsEnough }
    ensures step { StepIsEnough }
    ensures nothing { NothingIsPending }
{
    laws::dependence();
    nodes_have_scopes();
    last_time_of_trace();
}

/// With a step more at a trace, what is pending goes where the step leads it, and the trace stays clean where the step
/// is.
pub fn traces_grow()
    ensures pending { PendGrows }
    ensures clean { CleanGrows }
{}

/// What a plan that can be asked misses at a step, and what it begins, is a list.
pub fn missing_exists()
    ensures missing { MissingExists }
    ensures begun { BegunExists }
{
    safe_has_rows();
}

/// What a pending instance misses that can be asked, and what it becomes, is a list; so is what is pending after a
/// step, and after a trace.
pub fn pending_exists()
    ensures missing { MissingOfExists }
    ensures after { AfterExists }
    ensures goes { PendingAfterExists }
    ensures pending { PendExists }
{
    missing_exists();
    pending_can_be_asked();
}

/// Of plans that can be asked, what is begun can be asked, and what is pending after a step and after a trace.
pub fn pending_can_be_asked()
    ensures begun { BegunCanBeAsked }
    ensures goes { PendingAfterCanBeAsked }
    ensures pending { PendCanBeAsked }
{
    nodes_have_scopes();
}

/// Each literal that is missed is of a leaf of its plan, and its values are bound, or among those of the trace and of
/// the constants.
pub fn missed_are_own()
    ensures plans { MissedAreOwn }
    ensures instances { MissedOfAreOwn }
{
    safe_values_are_known();
}

/// The plans of a policy can be asked at a step with its guards, also with copies of these, and their nodes stand in
/// them.
pub fn well_formed_can_be_asked()
    ensures founded { WellFormedCanBeAsked }
    ensures asked { CanBeAsked }
    ensures stand { WellFormedStand }
{
    nodes_stand_in_plans();
}

/// A step with the tables of a past that stands for a trace stands for the trace with the step.
pub fn now_stands()
    ensures { NowStands }
{}

/// So does one with the tables of other events, which differ in stale names and in such as no guard looks for.
pub fn stale_now_stands()
    ensures { StaleNowStands }
{
    laws::dependence();
}

/// What can be asked with all guards can be asked where names are stale, if none of its own guards looks for one.
pub fn fresh_can_be_asked()
    ensures plans { FreshPlanCanBeAsked }
    ensures instances { FreshInstanceCanBeAsked }
{}

/// What missed nothing misses nothing after an action on a name where no leaf of it wants the contrary, each of its
/// tests holds still and none of its guards has a row more. What missed something misses the rest of it, where it has
/// no choices, and no guard or test looks for the name or a rule takes out just what its guard holds for.
pub fn unread_stays_met()
    ensures plans { UnreadStaysMet }
    ensures instances { UnreadInstanceStaysMet }
    ensures rest { UnreadLeavesRest }
{
    laws::dependence();
    laws::polarity();
    missing_exists();
}

/// What is missed and begun at a step stands below guards of which a trigger has an event there. A node that is reached
/// so is one of the plan's, and what it begins names it.
pub fn steps_reach()
    ensures missed { MissedIsReached }
    ensures begun { BegunIsReached }
    ensures inside { ReachedIsInside }
    ensures named { BegunIsNamed }
{
    triggers_are_met();
}

/// A plan that can be asked misses nothing and begins nothing at a step that has no event of a name that wakes it.
pub fn unwoken_is_idle()
    ensures missed { UnwokenMissesNothing }
    ensures begun { UnwokenBeginsNothing }
{
    triggers_are_met();
    missing_exists();
}

/// What is pending after a trace was begun at one of its steps; what is pending after one step more was led there by
/// it.
pub fn pending_was_begun()
    ensures came { PendCame }
    ensures begun { PendingWasBegun }
{
    triggers_are_met();
    nodes_have_scopes();
}

/// What is pending after a trace lacked something of its goal at the last position, where its window was open from the
/// beginning.
pub fn pending_is_unmet()
    ensures { PendAreUnmet }
{
    triggers_are_met();
    nodes_have_scopes();
    last_time_of_trace();
}

/// Where guards give right values, what is pending after a trace has such, and what is missed is of such.
pub fn pending_is_right()
    ensures pending { PendingIsRight }
    ensures missed { MissedIsRight }
    ensures missed_pending { MissedOfIsRight }
{
    nodes_have_scopes();
}

/// What is pending after a trace can be so, at a clock at which no deadline is over.
pub fn pending_can_be()
    ensures { PendCanBePending }
{
    nodes_have_scopes();
}
