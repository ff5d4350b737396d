//! Laws of enforcers, each the contract of a function that does nothing.
ghost use Rattle.enforcer_core.specs.machine.Laws.{FollowsFitsSignature, DrainIsJustified, FollowsIsJustified};
ghost use Rattle.enforcer_core.specs.machine.Laws.{PlannedAreSatisfied, StandsForGood, FollowsAlone, NothingDrains};
ghost use Rattle.enforcer_core.specs.machine.CourseLaws.{CourseIsJustified, CourseIsJustifiedToEnd, CourseBegins};
ghost use Rattle.enforcer_core.specs.machine.CourseLaws.{CourseGoesOn, CourseKeepsUp, CourseEnforces, CourseFollows};
ghost use Rattle.enforcer_core.specs.machine.CourseLaws.{CourseFollowsToEnd, CourseIsTransparent};
ghost use Rattle.enforcer_core.specs.machine.CourseLaws.{CourseIsTransparentToEnd};
ghost use Rattle.enforcer_core.specs.machine.EnforcerSteps.{TakesAreFew};
ghost use Rattle.enforcer_core.specs.machine.SnapshotLaws.{SavedKeepsBounds, KeptCanBeTakenUp};
ghost use Rattle.enforcer_core.specs.machine.StepLaws.{DrainLaws, StepLaws};

use crate::existing::something_is_decided;
use crate::termination::{serving_ends, steps_lead_on};
use choice_step::laws::{
    actions_are_justified, actions_are_lawful, decided_misses_nothing, some_decision,
};
use enforce_types::laws::{
    plans_are_well_formed, plans_keep_sorts, policy_plans_keep_meaning, read_is_sorted,
    safe_values_fit,
};
use formula_reader::laws::read_is_well_formed;
use monitorable_guard::laws::safe_with_listed;
use obligations::laws::{
    missing_is_one, pending_can_be, pending_can_be_asked, pending_is_enough, pending_is_one,
    pending_is_right, pending_was_begun, traces_grow, well_formed_can_be_asked,
};
use past_state::laws::{kept_can_be_restored, kept_values_held, operators_are_nodes};
use plan_terms::laws::{nodes_have_scopes, number_is_place};
use rank_check::laws::owed_nodes_are_not_lost;
use save_codec::laws::sound_keeps_bounds;
use trace_meaning::laws;

/// What an enforcer does for records, one after another.
pub fn course()
    ensures begins { CourseBegins }
    ensures goes_on { CourseGoesOn }
    ensures keeps_up { CourseKeepsUp }
    ensures enforces { CourseEnforces }
    ensures follows { CourseFollows }
    ensures follows_to_end { CourseFollowsToEnd }
    ensures justified { CourseIsJustified }
    ensures justified_to_end { CourseIsJustifiedToEnd }
    ensures transparent { CourseIsTransparent }
    ensures transparent_to_end { CourseIsTransparentToEnd }
{
    laws::records_join();
    laws::lawful_joins();
    laws::trace_grows();
    laws::good();
    policy_plans_keep_meaning();
    drain_laws();
    all_are_justified();
    lawful_are_left_alone();
}

/// For a record few steps are emitted: at most one for each unit of time that the clock rises, and that of the record,
/// where it is no tick.
pub fn takes_are_few()
    ensures { TakesAreFew }
{}

/// Under transparent plans the steps of a log are emitted as they came, while they can be continued well, and nothing
/// is drained after a trace that satisfies what the plans stand for.
pub fn lawful_are_left_alone()
    ensures records { FollowsAlone }
    ensures drain { NothingDrains }
{
    laws::good();
    all_are_justified();
    owed_nodes_are_not_lost();
}

/// What is emitted for the records of a log, and at its end, is justified: each action is for a node that is owed and
/// otherwise lost, and each inserted step is needed.
pub fn all_are_justified()
    ensures records { FollowsIsJustified }
    ensures drain { DrainIsJustified }
{
    step_laws();
    pending_was_begun();
    some_decision();
    actions_are_justified();
}

/// What an enforcer stands for can be continued well.
pub fn stands_for_good()
    ensures { StandsForGood }
{
    drain_laws();
}

/// The plans of a policy mean what it means.
pub fn planned()
    ensures { PlannedAreSatisfied }
{
    policy_plans_keep_meaning();
}

/// What is kept of a trace that is ready for a clock can be taken up, where the clock is not too late.
pub fn kept_can_be_taken_up()
    ensures { KeptCanBeTakenUp }
{
    pending_can_be();
    pending_is_one();
    kept_can_be_restored();
    serving_ends();
}

/// And it keeps the bounds by which a resumed state is judged under the signature and the policy, where the events of
/// the trace are of the signature.
pub fn saved_keeps_bounds()
    ensures { SavedKeepsBounds }
{
    nodes_have_scopes();
    number_is_place();
    operators_are_nodes();
    safe_values_fit();
    safe_with_listed();
    kept_values_held();
    pending_is_right();
    pending_can_be();
    kept_can_be_restored();
    pending_is_one();
    serving_ends();
    read_is_sorted();
    read_is_well_formed();
    plans_keep_sorts();
    policy_plans_keep_meaning();
    sound_keeps_bounds();
}

/// After a trace of which the events are of the signature, what is emitted for records of which they are has such too.
pub fn what_is_emitted_fits()
    ensures { FollowsFitsSignature }
{
    choice_step::laws::what_is_emitted_fits();
    read_is_sorted();
    read_is_well_formed();
    plans_keep_sorts();
    plans_are_well_formed();
}

// What a step that is emitted rests on.
pub(crate) fn step_laws()
    ensures { StepLaws }
{
    laws::trace_grows();
    laws::lawful_joins();
    missing_is_one();
    pending_is_one();
    traces_grow();
    decided_misses_nothing();
    actions_are_lawful();
    serving_ends();
    steps_lead_on();
}

// And what a drain rests on.
fn drain_laws()
    ensures { DrainLaws }
{
    step_laws();
    pending_is_enough();
    pending_can_be_asked();
    well_formed_can_be_asked();
    some_decision();
    something_is_decided();
}
