//! How windows and slots stand for a trace, step by step: laws over the definitions, each the contract of a function.
ghost use Rattle.past_state.specs.machine.KeepableOperators.{KeptHeld, OperatorsCanBeKept};
ghost use Rattle.past_state.specs.machine.Laws.{NoMoreThanNodes, SinceAnswers, SinceGoesOn, OnceAnswers, OnceGoesOn};
ghost use Rattle.past_state.specs.machine.Laws.{BegunAnswers, BegunGoesOn, HistoricallyIsDenied};
ghost use Rattle.past_state.specs.machine.Laws.{PrevAnswers, PrevGoesOn, PrevGrows};
ghost use Rattle.past_state.specs.machine.ValueSources.{TablesAreKnown};
ghost use Rattle.past_state.specs.machine.Past.{RunStands, CommitStands, TablesStay, UnreadGuardsHold};
ghost use Rattle.past_state.specs.machine.Past.{UnreadTablesStay};
ghost use Rattle.past_state.specs.machine.RestoringLaws.{KeptAreWithinBounds};

use enf_formula::laws::{dependence, is_classical};
use monitorable_guard::laws::present_is_satisfied;
use trace_meaning::laws::{last_time_of_trace, trace_grows};
use windows::laws::{rows_are_chosen, windows_stand};

/// A window of `since`.
pub fn since()
    ensures answers { SinceAnswers }
    ensures goes_on { SinceGoesOn }
{
    dependence();
    trace_grows();
    windows_stand();
    rows_are_chosen();
}

/// A window of `once`, and that of `historically`.
pub fn once()
    ensures answers { OnceAnswers }
    ensures goes_on { OnceGoesOn }
    ensures denied { HistoricallyIsDenied }
{
    dependence();
    is_classical();
    trace_grows();
    windows_stand();
    rows_are_chosen();
}

/// A window of `once` that is told only what is new.
pub fn once_begun()
    ensures answers { BegunAnswers }
    ensures goes_on { BegunGoesOn }
{
    dependence();
    trace_grows();
    windows_stand();
    rows_are_chosen();
}

/// A slot of `prev`.
pub fn prev()
    ensures answers { PrevAnswers }
    ensures goes_on { PrevGoesOn }
{
    dependence();
    trace_grows();
}

/// A slot of `prev` whose rows grow.
pub fn prev_grows()
    ensures { PrevGrows }
{
    dependence();
    prev();
}

/// A step over all operators: where they stand for a trace its tables stand for the step, and with the step committed
/// they stand for the longer trace.
pub fn steps_stand()
    ensures tables { RunStands }
    ensures committed { CommitStands }
{
    dependence();
    since();
    once();
    once_begun();
    prev();
    prev_grows();
    present_is_satisfied();
}

/// The tables of a step stay so where its events change of names alone that no operator on the past looks for.
pub fn tables_stay()
    ensures { TablesStay }
{}

/// Where the events of a step change of names alone that no guard looks for, its tables stay those of the step, and the
/// guards hold by them where they are satisfied.
pub fn unread_tables_stay()
    ensures are { UnreadTablesStay }
    ensures hold { UnreadGuardsHold }
{
    dependence();
}

/// Whatever was committed before: each value of the tables that are made at a step is one of its events, of the
/// constants of the guards, or of a row that is kept.
pub fn tables_are_known()
    ensures { TablesAreKnown }
{}

/// Formulas have no more operators on the past than nodes: where guards have at most 2^32 nodes, their windows can be
/// numbered, as `PastState::kept` asks.
pub fn operators_are_nodes()
    ensures { NoMoreThanNodes }
{}

/// What has to be kept of a trace is within the bounds of what a past state can be made again of.
pub fn kept_can_be_restored()
    ensures within { KeptAreWithinBounds }
{
    last_time_of_trace();
}

/// What is needed of a guard's operators can be kept; and a row that has to be kept is of values under which the
/// operand held, which can be evaluated by itself.
pub fn kept_values_held()
    ensures operators { OperatorsCanBeKept }
    ensures rows { KeptHeld }
{}
