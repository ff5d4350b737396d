//! Laws of runs, each the contract of a function that does nothing: two runs that take one log, the second of which
//! goes on from where the first was saved, are as one that takes all of it; and what the first saved is not refused.
ghost use Rattle.enf_run.specs.machine.TwoRunResuming.{AskedIsTaken, ComesToFitting, FittingGoesOn, FromNothingFits};
ghost use Rattle.enf_run.specs.machine.TwoRunResuming.{SavedIsTaken};
ghost use Rattle.enf_run.specs.machine.TwoRunCalls.{CallsAreOne, PausesAreOne};
ghost use Rattle.enf_run.specs.machine.TwoRunLaws.{GivesJoins, TwoRunJoins, OwedIsOne, OwedJoins, RunsAreOne};
ghost use Rattle.enf_run.specs.machine.TwoRunHeadlines.{KeptBehindSaved, SavedBehindSaved, SavedIsAsked};

use enf_io::devices::Gate;
use enforce_types::laws::{accepted_is_not_refused, plans_are_well_formed, policy_has_one_answer};
use enforcer_core::laws::{saved_keeps_bounds, what_is_emitted_fits};
use log_stream::laws::{one_answer, one_log};
use trace_meaning::laws;

/// What is owed to the records of a log is what is owed to the first of them, and after that to the others; and it is
/// one list of steps.
pub fn owed_joins()
    ensures joins { OwedJoins }
    ensures one { OwedIsOne }
{
    joins();
}

/// One run of a log gives what two give that take it one after the other.
pub fn runs_are_one()
    ensures gives { GivesJoins }
    ensures runs { RunsAreOne }
{
    joins();
    one_answer();
    one_log();
}

/// What is said of two such runs holds of them as of one, and the second is asked to go on from where the first has
/// come to.
pub fn headlines_join()
    ensures asked { SavedIsAsked }
    ensures kept { KeptBehindSaved }
    ensures saved { SavedBehindSaved }
{
    joins();
}

/// A call of `run` that takes the logs of two calls, the second of which goes on from what the first has saved, gives
/// and says what these two do, and comes to where they come to.
pub fn calls_are_one<G: Gate>()
    ensures drained { CallsAreOne G }
    ensures saved { PausesAreOne G }
{
    signature::laws::one_answer();
    formula_reader::laws::one_text_answer();
    accepted_is_not_refused();
    one_answer();
    one_log();
    joins();
}

/// What a run has saved, from nothing or from what such a run has saved, is not refused by a run that resumes it under
/// the same signature and policy.
pub fn saved_is_not_refused<G: Gate>()
    ensures nothing { FromNothingFits }
    ensures comes { ComesToFitting G }
    ensures asked { AskedIsTaken G }
    ensures saved { SavedIsTaken G }
    ensures goes_on { FittingGoesOn G }
{
    signature::laws::one_answer();
    formula_reader::laws::one_text_answer();
    formula_reader::laws::read_is_well_formed();
    save_codec::laws::one_answer();
    accepted_is_not_refused();
    plans_are_well_formed();
    policy_has_one_answer();
    what_is_emitted_fits();
    saved_keeps_bounds();
}

// What that rests on.
fn joins()
    ensures { TwoRunJoins }
{
    policy_has_one_answer();
    laws::records_join();
    laws::lawful_joins();
    laws::trace_grows();
    laws::good();
}
