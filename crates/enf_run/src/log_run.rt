//! The log: it is taken from the gate piece by piece, and all records that a piece completes are
//! enforced, and their lines and those of their actions given, before the next read.
ghost use Rattle.std.specs.Prelude.{◌≡◌, ◌<◌, ◌≤◌, ◌^◌, IfOk, IfErr, List, [], OnErr, OnOk, false, None};
ghost use Rattle.std.specs.Prelude.{length};
ghost use Rattle.formula_reader.specs.machine.StoredRules.{policy_rules_of};
ghost use Rattle.enf_data.specs.declared.steps.Step.{Step};
ghost use Rattle.enforcer_core.specs.machine.Answers.{IsNewEnforcer, Leaves, RefusesCall};
ghost use Rattle.enforcer_core.specs.machine.LawfulChanges.{Permits};
ghost use Rattle.enforcer_core.specs.machine.Snapshots.{CanBeTakenUp, IsTakenUpFrom, StandsAgain};
ghost use Rattle.enforcer_core.specs.machine.Enforcers.{enforcer_plans};
ghost use Rattle.enforcer_core.specs.machine.StepMemory.{most_positions};
ghost use Rattle.enforcer_core.specs.machine.Stands.{Stands};
ghost use Rattle.enf_run.specs.declared.endings.Cut.TheVariants.{NoMemory as OutOfMemory};
ghost use Rattle.enf_run.specs.machine.LogRunEnds.{HasPlans, enforcer_setting, RanAsJudged, rest_left};
ghost use Rattle.enf_run.specs.meaning.Headline.{most_log_bytes, record_of};
ghost use Rattle.enf_run.specs.meaning.Readings.{most_read_bytes, input_log};
ghost use Rattle.enforce_types.specs.meaning.Elab.{is_causable, is_suppressible};
ghost use Rattle.enforce_types.specs.machine.TypedPolicies.{WorkTogether, typed_of};
ghost use Rattle.enf_run.specs.meaning.LogRuns.{CutsRun, LostLog, TookLog, seen_of};
ghost use Rattle.enf_run.specs.machine.EnforceTurns.{AnswersItem, AnswersNext, AnswersTurn, CutsDrain, CutsItem};
ghost use Rattle.enf_run.specs.machine.EnforceTurns.{CutsNext, CutsTurn, GivesDrain, GivesRest, IsNewLog, log_front};
ghost use Rattle.enf_run.specs.machine.EnforceTurns.{log_moment, reads_on};
ghost use Rattle.enforcer_core.specs.machine.EnforcerLaws.{EnforcerLaws};
ghost use Rattle.enforcer_core.specs.machine.EnforcerSteps.{EnforcerTakes};
ghost use Rattle.trace_meaning.specs.meaning.Traces.{most_time, time_of};
ghost use Rattle.trace_meaning.specs.declared.kinds.StepKind.TheVariants.{System};

use crate::endings::Cut;
use crate::intake::{Intake, Judged, Next, Verdict, refusal_of};
use crate::refusals::RecordRefusal;
use crate::step_lines::{Names, hand_on, write_steps};
use enf_data::{NoMemory, Seed};
use enf_io::devices::{Gate, Sink};
use enforce_types::TypedPolicy;
use enforce_types::laws::policy_has_one_answer;
use enforcer_core::enforcer::Enforcer;
use enforcer_core::steps::{OutSteps, StepOut, StepRefusal};
use enforcer_core::{existing, laws};
use log_stream::{Found, LogItem, LogMode, LogReader};
use save_codec::Snapshot;
use signature::Signature;
use std::alloc::Global;

// How many bytes there is room for before a line is made, so that a usual one takes no memory.
const USUAL_LINE_BYTES: usize = 256;

/// A log that is enforced.
#[derive(Drop)]
pub struct Enforcement {
    intake: Intake,
    enforcer: Enforcer,
    // Where a line is made.
    line: Vec<u8>,
}

impl Enforcement {
    /// The enforcer, as what was taken so far has left it.
    pub fn enforcer(&self) -> &Enforcer
        ensures { result.now ≡ self.now.enforcer }
    {
        &self.enforcer
    }

    /// A log of which nothing was taken yet, to be enforced by this policy, with hashes from the seed on.
    pub fn new(
        alloc: Global,
        seed: Seed,
        signature: &Signature,
        policy: TypedPolicy,
    ) -> Result<Enforcement, NoMemory>
        ensures new { IfOk result (IsNewLog signature.now) }
        ensures enforcer { IfOk result (λ log. IsNewEnforcer policy log.enforcer) }
        ensures together { IfOk result (λ log. WorkTogether (typed_of log.enforcer.policy)) }
        ensures stands { IfOk result (λ log. Stands log.enforcer []) }
    {
        Ok(Enforcement {
            intake: Intake::new(alloc, seed, signature, LogMode::Input)?,
            enforcer: Enforcer::seeded(alloc, seed, policy)?,
            line: Vec::with_capacity(alloc, USUAL_LINE_BYTES)?,
        })
    }

    /// A log of which nothing was taken yet, to be enforced by this policy from a state on.
    pub fn resumed(
        alloc: Global,
        seed: Seed,
        signature: &Signature,
        policy: TypedPolicy,
        state: Snapshot,
    ) -> Result<Enforcement, NoMemory>
        requires bounds { CanBeTakenUp policy state }
        requires small { state.position < 2 ^ 63 }
        ensures new { IfOk result (IsNewLog signature.now) }
        ensures enforcer { IfOk result (λ log. IsTakenUpFrom policy state log.enforcer) }
        ensures together { IfOk result (λ log. WorkTogether (typed_of log.enforcer.policy)) }
        ensures stands { IfOk result (λ log. StandsAgain policy state log.enforcer) }
    {
        let enforcer = Enforcer::seeded_from(alloc, seed, policy, state)?;
        let intake = Intake::new(alloc, seed, signature, LogMode::Input)?;
        Ok(Enforcement {
            intake,
            enforcer,
            line: Vec::with_capacity(alloc, USUAL_LINE_BYTES)?,
        })
    }
}

/// Takes the log from the gate, enforces its whole records from where the enforcer stands, and gives their lines and
/// those of their actions, and at its end those of what is still owed; but where the state is to be saved at the end of
/// the input, that is left to the run that resumes. At the end the gate holds nothing back, where memory ran out too;
/// where not all was handed on, a write has failed.
pub fn enforce_log<G: Gate, R: Sink>(
    alloc: Global,
    names: &Names<'_>,
    saves: bool,
    log: &mut Enforcement,
    gate: &mut G,
    report: &mut R,
) -> Result<Judged, Cut>
    requires new { IsNewLog names.now.signature.now log.old }
    requires permits { Permits (is_causable names.now.signature.now) (is_suppressible names.now.signature.now)
        (enforcer_plans log.old.enforcer) }
    requires together { WorkTogether (typed_of log.old.enforcer.policy) }
    ensures ran { (trace : List Step) →
        HasPlans names.now.signature.now (policy_rules_of names.now.policy.now) log.old.enforcer →
        Stands log.old.enforcer trace → IfOk result (λ judged. RanAsJudged saves
        (enforcer_setting names.now.signature.now (policy_rules_of names.now.policy.now) log.old.enforcer trace) judged
        log.new.enforcer
        (seen_of (G.seen gate.old) (R.seen report.old)) (seen_of (G.seen gate.new) (R.seen report.new))) }
    ensures took { IfOk result (λ judged. TookLog (input_log names.now.signature.now log.old.enforcer.clock) judged
        (seen_of (G.seen gate.old) (R.seen report.old)) (seen_of (G.seen gate.new) (R.seen report.new))) }
    ensures lost { IfErr result (LostLog (input_log names.now.signature.now log.old.enforcer.clock)
        (seen_of (G.seen gate.old) (R.seen report.old)) (seen_of (G.seen gate.new) (R.seen report.new))) }
    ensures few { IfOk result (λ judged. judged.accepted < 2 ^ 63) }
    ensures goes_on { OnOk result (log.new.enforcer.stopped ≡ false) }
    ensures late { (G.seen gate.new).late_reads ≡ (G.seen gate.old).late_reads }
    ensures handed { OnOk result ((G.seen gate.new).held ≡ 0) }
    ensures lacks { IfErr result (λ cut. cut ≡ OutOfMemory → (G.seen gate.new).held ≡ 0) }
    ensures cut { (trace : List Step) →
        HasPlans names.now.signature.now (policy_rules_of names.now.policy.now) log.old.enforcer →
        Stands log.old.enforcer trace → IfErr result (CutsRun
        (enforcer_setting names.now.signature.now (policy_rules_of names.now.policy.now) log.old.enforcer trace)
        (seen_of (G.seen gate.old) (R.seen report.old)) (seen_of (G.seen gate.new) (R.seen report.new))) }
{
    enforcer_laws();
    match enforce_records(alloc, names, saves, log, gate, report) {
        Ok(judged) => {
            hand_on(gate)?;
            Ok(judged)
        }
        Err(Cut::NoMemory) => {
            hand_on(gate)?;
            Err(Cut::NoMemory)
        }
        Err(Cut::WriteFault) => Err(Cut::WriteFault),
    }
}

// Takes the log, and gives what is owed to it, of which the gate may hold some back.
fn enforce_records<G: Gate, R: Sink>(
    alloc: Global,
    names: &Names<'_>,
    saves: bool,
    log: &mut Enforcement,
    gate: &mut G,
    report: &mut R,
) -> Result<Judged, Cut>
    requires new { IsNewLog names.now.signature.now log.old }
    requires permits { Permits (is_causable names.now.signature.now) (is_suppressible names.now.signature.now)
        (enforcer_plans log.old.enforcer) }
    requires together { WorkTogether (typed_of log.old.enforcer.policy) }
    ensures ran { (trace : List Step) →
        HasPlans names.now.signature.now (policy_rules_of names.now.policy.now) log.old.enforcer →
        Stands log.old.enforcer trace → IfOk result (λ judged. RanAsJudged saves
        (enforcer_setting names.now.signature.now (policy_rules_of names.now.policy.now) log.old.enforcer trace) judged
        log.new.enforcer
        (seen_of (G.seen gate.old) (R.seen report.old)) (seen_of (G.seen gate.new) (R.seen report.new))) }
    ensures took { IfOk result (λ judged. TookLog (input_log names.now.signature.now log.old.enforcer.clock) judged
        (seen_of (G.seen gate.old) (R.seen report.old)) (seen_of (G.seen gate.new) (R.seen report.new))) }
    ensures lost { IfErr result (LostLog (input_log names.now.signature.now log.old.enforcer.clock)
        (seen_of (G.seen gate.old) (R.seen report.old)) (seen_of (G.seen gate.new) (R.seen report.new))) }
    ensures few { IfOk result (λ judged. judged.accepted < 2 ^ 63) }
    ensures goes_on { OnOk result (log.new.enforcer.stopped ≡ false) }
    ensures late { (G.seen gate.new).late_reads ≡ (G.seen gate.old).late_reads }
    ensures cut { (trace : List Step) →
        HasPlans names.now.signature.now (policy_rules_of names.now.policy.now) log.old.enforcer →
        Stands log.old.enforcer trace → IfErr result (CutsRun
        (enforcer_setting names.now.signature.now (policy_rules_of names.now.policy.now) log.old.enforcer trace)
        (seen_of (G.seen gate.old) (R.seen report.old)) (seen_of (G.seen gate.new) (R.seen report.new))) }
{
    enforcer_laws();
    loop {
        if let Some(verdict) = go_on(alloc, names, log, gate, report)? {
            let left = leaves_rest(saves, verdict);
            give_rest(
                alloc,
                names,
                left,
                &mut log.enforcer,
                &mut log.line,
                gate,
                report,
            )?;
            return Ok(Judged {
                accepted: log.intake.accepted,
                verdict,
            });
        }
    }
}

/// The laws of enforcers on which the run of a log rests.
pub fn enforcer_laws()
    ensures { EnforcerLaws }
{
    laws::takes_are_few();
    laws::course();
    laws::planned();
    policy_has_one_answer();
    existing::just_one_follows();
    trace_meaning::laws::good();
}

// Whether what is still owed at the end of a log is left to the run that resumes.
fn leaves_rest(saves: bool, verdict: Verdict) -> bool
    ensures { result ≡ rest_left saves verdict }
{
    match verdict {
        Verdict::Accepted => saves,
        Verdict::Fault | Verdict::Refused(_) => false,
    }
}

// Gives the lines of what is still owed at the end of the log, unless that is left.
fn give_rest<G: Gate, R: Sink>(
    alloc: Global,
    names: &Names<'_>,
    left: bool,
    enforcer: &mut Enforcer,
    line: &mut Vec<u8>,
    gate: &mut G,
    report: &mut R,
) -> Result<(), Cut>
    requires room { enforcer.old.position < most_positions }
    requires goes_on { enforcer.old.stopped ≡ false }
    ensures given { OnOk result (GivesRest left names.now.signature.now (policy_rules_of names.now.policy.now)
        (log_moment enforcer.old (seen_of (G.seen gate.old) (R.seen report.old)))
        (log_moment enforcer.new (seen_of (G.seen gate.new) (R.seen report.new)))) }
    ensures goes_on { OnOk result (enforcer.new.stopped ≡ false) }
    ensures late { (G.seen gate.new).late_reads ≡ (G.seen gate.old).late_reads }
    ensures cut { IfErr result (CutsDrain names.now.signature.now (policy_rules_of names.now.policy.now)
        (log_moment enforcer.old (seen_of (G.seen gate.old) (R.seen report.old)))
        (seen_of (G.seen gate.new) (R.seen report.new))) }
{
    if left {
        return Ok(());
    }
    drain(alloc, names, enforcer, line, gate, report)
}

// Gives the lines of all that is still owed at the end of the log.
#[inline(never)]
fn drain<G: Gate, R: Sink>(
    alloc: Global,
    names: &Names<'_>,
    enforcer: &mut Enforcer,
    line: &mut Vec<u8>,
    gate: &mut G,
    report: &mut R,
) -> Result<(), Cut>
    requires room { enforcer.old.position < most_positions }
    ensures drained { OnOk result (GivesDrain names.now.signature.now (policy_rules_of names.now.policy.now)
        (log_moment enforcer.old (seen_of (G.seen gate.old) (R.seen report.old)))
        (log_moment enforcer.new (seen_of (G.seen gate.new) (R.seen report.new)))) }
    ensures goes_on { OnOk result (enforcer.new.stopped ≡ false) }
    ensures late { (G.seen gate.new).late_reads ≡ (G.seen gate.old).late_reads }
    ensures cut { IfErr result (CutsDrain names.now.signature.now (policy_rules_of names.now.policy.now)
        (log_moment enforcer.old (seen_of (G.seen gate.old) (R.seen report.old)))
        (seen_of (G.seen gate.new) (R.seen report.new))) }
{
    match enforcer.drain(alloc) {
        Ok(out) => write_steps(names, out.steps.as_slice(), line, gate, report),
        // No time is given, so none falls.
        Err(StepRefusal::Falling { .. } | StepRefusal::Stopped | StepRefusal::NoMemory) => {
            Err(Cut::NoMemory)
        }
    }
}

// Enforces the record at the front, or takes the next piece where no record is whole; a verdict
// ends the log.
fn go_on<G: Gate, R: Sink>(
    alloc: Global,
    names: &Names<'_>,
    log: &mut Enforcement,
    gate: &mut G,
    report: &mut R,
) -> Result<Option<Verdict>, Cut>
    requires going { log.old.intake.reader ≡ reads_on names.now.signature.now log.old.intake.reader.rest }
    requires taken { log.old.intake.taken ≤ most_log_bytes }
    requires count { log.old.intake.accepted < 2 ^ 63 }
    requires position { log.old.enforcer.position < most_positions }
    requires room { length log.old.intake.piece.items ≡ most_read_bytes }
    ensures room { length log.new.intake.piece.items ≡ most_read_bytes }
    ensures turn { IfOk result (λ verdict. AnswersTurn names.now.signature.now (policy_rules_of names.now.policy.now)
        verdict log.old log.new
        (seen_of (G.seen gate.old) (R.seen report.old)) (seen_of (G.seen gate.new) (R.seen report.new))) }
    ensures late { (G.seen gate.new).late_reads ≡ (G.seen gate.old).late_reads }
    ensures cut { IfErr result (λ cut. CutsTurn names.now.signature.now (policy_rules_of names.now.policy.now) log.old
        (seen_of (G.seen gate.old) (R.seen report.old)) (seen_of (G.seen gate.new) (R.seen report.new)) cut) }
{
    match enforce_next(
        alloc,
        names,
        &mut log.intake.reader,
        &mut log.enforcer,
        &mut log.line,
        gate,
        report,
    )? {
        Next::Taken => {
            log.intake.accepted += 1;
            Ok(None)
        }
        Next::Refused(why) => Ok(Some(Verdict::Refused(why))),
        Next::Pending => log.intake.take_next(gate),
    }
}

// Enforces the record at the front and gives its lines, where one is whole.
fn enforce_next<G: Gate, R: Sink>(
    alloc: Global,
    names: &Names<'_>,
    reader: &mut LogReader,
    enforcer: &mut Enforcer,
    line: &mut Vec<u8>,
    gate: &mut G,
    report: &mut R,
) -> Result<Next, Cut>
    requires going { reader.old ≡ reads_on names.now.signature.now reader.old.rest }
    requires room { enforcer.old.position < most_positions }
    ensures next { IfOk result (λ next. AnswersNext names.now.signature.now (policy_rules_of names.now.policy.now) next
        (log_front reader.old enforcer.old (seen_of (G.seen gate.old) (R.seen report.old)))
        (log_front reader.new enforcer.new (seen_of (G.seen gate.new) (R.seen report.new)))) }
    ensures late { (G.seen gate.new).late_reads ≡ (G.seen gate.old).late_reads }
    ensures cut { IfErr result (CutsNext names.now.signature.now (policy_rules_of names.now.policy.now) reader.old.rest
        (log_moment enforcer.old (seen_of (G.seen gate.old) (R.seen report.old)))
        (seen_of (G.seen gate.new) (R.seen report.new))) }
{
    match reader.next_record(alloc) {
        Ok(Found::Pending) => Ok(Next::Pending),
        Err(refusal) => Ok(Next::Refused(refusal_of(refusal)?)),
        Ok(Found::Item(item)) => {
            match enforce_item(alloc, names, reader, enforcer, item, line, gate, report)? {
                None => Ok(Next::Taken),
                Some(why) => Ok(Next::Refused(why)),
            }
        }
    }
}

// Enforces a record and gives its lines; one whose time is below the clock is refused.
fn enforce_item<G: Gate, R: Sink>(
    alloc: Global,
    names: &Names<'_>,
    reader: &mut LogReader,
    enforcer: &mut Enforcer,
    item: LogItem,
    line: &mut Vec<u8>,
    gate: &mut G,
    report: &mut R,
) -> Result<Option<RecordRefusal>, Cut>
    requires time { time_of (record_of item) ≤ most_time System }
    requires room { enforcer.old.position < most_positions }
    ensures answer { IfOk result (λ refused.
        AnswersItem names.now.signature.now (policy_rules_of names.now.policy.now) (record_of item) refused
        (log_moment enforcer.old (seen_of (G.seen gate.old) (R.seen report.old)))
        (log_moment enforcer.new (seen_of (G.seen gate.new) (R.seen report.new)))) }
    ensures late { (G.seen gate.new).late_reads ≡ (G.seen gate.old).late_reads }
    ensures cut { IfErr result (CutsItem names.now.signature.now (policy_rules_of names.now.policy.now) (record_of item)
        (log_moment enforcer.old (seen_of (G.seen gate.old) (R.seen report.old)))
        (seen_of (G.seen gate.new) (R.seen report.new))) }
    // Where the time falls, that is the answer.
    ensures in_time { enforcer.old.stopped ≡ false → OnErr result (enforcer.old.clock ≤ time_of (record_of item)) }
    ensures stays { reader.new ≡ reader.old }
{
    match take_item(alloc, enforcer, item) {
        Ok(out) => {
            write_steps(names, out.steps.as_slice(), line, gate, report)?;
            give_back(out.steps, reader);
            Ok(None)
        }
        Err(StepRefusal::Falling { clock, given }) => Ok(Some(RecordRefusal::Falling {
            given,
            clock,
        })),
        Err(StepRefusal::Stopped | StepRefusal::NoMemory) => Err(Cut::NoMemory),
    }
}

// Gives the reader the memory that the events of a step took, for those of a later record.
fn give_back(steps: OutSteps, reader: &mut LogReader)
    ensures { reader.new ≡ reader.old }
{
    if let Some(room) = steps.into_room() {
        reader.keep_room(room);
    }
}

// Takes a record to the enforcer.
fn take_item(alloc: Global, enforcer: &mut Enforcer, item: LogItem) -> Result<StepOut, StepRefusal>
    requires time { time_of (record_of item) ≤ most_time System }
    requires room { enforcer.old.position < most_positions }
    ensures taken { IfOk result (λ made. EnforcerTakes enforcer.old (record_of item) made enforcer.new) }
    ensures refused { IfErr result (λ why. RefusesCall enforcer.old (time_of (record_of item)) why
        × Leaves why enforcer.old enforcer.new) }
{
    match item {
        LogItem::Step { time, events, .. } => enforcer.step(alloc, time, events),
        LogItem::Tick { time } => enforcer.tick(alloc, time),
    }
}
