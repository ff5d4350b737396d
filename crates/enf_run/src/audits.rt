//! The audit of a log: its steps go to an auditor one by one, and nothing is given to the gate while they do.
ghost use Rattle.std.specs.Prelude.{◌≡◌, ◌+◌, ◌<◌, ◌≤◌, ◌^◌, [], IfOk, OnErr, length};
ghost use Rattle.enforce_types.specs.machine.TypedPolicies.{typed_of};
ghost use Rattle.formula_reader.specs.machine.StoredRules.{policy_rules_of};
ghost use Rattle.log_stream.specs.declared.items.LogMode.TheVariants.{TraceLog};
ghost use Rattle.trace_audit.specs.machine.Auditors.{Audits as StandsFor, IsNewAuditor, AuditsSome};
ghost use Rattle.trace_meaning.specs.meaning.Traces.{most_time, time_of};
ghost use Rattle.trace_meaning.specs.declared.kinds.StepKind.TheVariants.{Inserted};
ghost use Rattle.enf_run.specs.machine.AuditTurns.{AnswersAudit, AnswersAuditTurn, AnswersRecord, LeavesCounts};
ghost use Rattle.enf_run.specs.machine.AuditTurns.{LosesAuditTurn, HasAudited, finish_after, LosesLog};
ghost use Rattle.enf_run.specs.meaning.Outcomes.{verdict_line};
ghost use Rattle.enf_run.specs.machine.LogIntake.{IsNewIntake, reads_in};
ghost use Rattle.enf_run.specs.meaning.Headline.{most_log_bytes, record_of};
ghost use Rattle.enf_run.specs.meaning.Readings.{most_read_bytes};
ghost use Rattle.enf_run.specs.machine.RunEndings.{WritesText};

use crate::endings::{Cut, Finish};
use crate::intake::{Intake, Judged, Next, Verdict, refusal_of};
use crate::refusals::RecordRefusal;
use crate::report_lines::write_pieces;
use action_report::rule_name;
use enf_data::{NoMemory, Seed};
use enf_io::devices::{Gate, Sink};
use enforce_types::TypedPolicy;
use formula_reader::Policy;
use itoa::Buffer;
use log_stream::{Found, LogItem, LogMode};
use signature::Signature;
use std::alloc::Global;
use trace_audit::Auditor;

/// What becomes of a log that is audited, and the verdict on the steps of its accepted records.
#[derive(Clone, Copy, Debug)]
pub struct Audited {
    pub judged: Judged,
    pub found: trace_audit::Verdict,
}

/// A log that is audited.
#[derive(Drop)]
pub struct Audit<'p> {
    intake: Intake,
    auditor: Auditor<'p>,
    // The time of the last record, also where that is a tick.
    clock: u64,
}

impl<'p> Audit<'p> {
    // A log of which nothing was taken yet, to be audited by this policy, with hashes from the seed on.
    fn new(
        alloc: Global,
        seed: Seed,
        signature: &Signature,
        policy: &'p TypedPolicy,
    ) -> Result<Audit<'p>, NoMemory>
        ensures intake { IfOk result (λ audit. IsNewIntake signature.now TraceLog audit.intake) }
        ensures auditor { IfOk result (λ audit. IsNewAuditor policy.now audit.auditor) }
        ensures stands { IfOk result (λ audit. StandsFor audit.auditor []) }
        ensures clock { IfOk result (λ audit. audit.clock ≡ 0) }
    {
        Ok(Audit {
            intake: Intake::new(alloc, seed, signature, LogMode::TraceLog)?,
            auditor: Auditor::seeded(alloc, seed, policy)?,
            clock: 0,
        })
    }
}

/// Takes the log from the gate, to its end or to the first record that is refused, and audits its steps.
pub fn audit_log<G: Gate>(
    alloc: Global,
    seed: Seed,
    signature: &Signature,
    policy: &TypedPolicy,
    gate: &mut G,
) -> Result<Audited, NoMemory>
    ensures audited { IfOk result (λ audited. HasAudited signature.now (typed_of policy.now).plans audited
        (G.seen gate.old) (G.seen gate.new)) }
    ensures few { IfOk result (λ audited. audited.judged.accepted < 2 ^ 63) }
    ensures lost { OnErr result (LosesLog signature.now (G.seen gate.old) (G.seen gate.new)) }
    ensures writes { (G.seen gate.new).write_faults ≡ (G.seen gate.old).write_faults }
    ensures held { (G.seen gate.new).held ≡ (G.seen gate.old).held }
    ensures late { (G.seen gate.old).held ≡ 0
        → (G.seen gate.new).late_reads ≡ (G.seen gate.old).late_reads }
{
    let mut audit = Audit::new(alloc, seed, signature, policy)?;
    loop {
        if let Some(verdict) = go_on(alloc, &mut audit, gate)? {
            return Ok(Audited {
                judged: Judged {
                    accepted: audit.intake.accepted,
                    verdict,
                },
                found: audit.auditor.verdict(),
            });
        }
    }
}

// Takes the record at the front to the auditor, or the next piece where no record is whole; a verdict ends the log.
fn go_on<G: Gate>(
    alloc: Global,
    audit: &mut Audit<'_>,
    gate: &mut G,
) -> Result<Option<Verdict>, NoMemory>
    requires reader { audit.old.intake.reader ≡
        reads_in audit.old.intake.reader.entries TraceLog audit.old.intake.reader.rest }
    requires taken { audit.old.intake.taken ≤ most_log_bytes }
    requires count { audit.old.intake.accepted < 2 ^ 63 }
    requires room { length audit.old.intake.piece.items ≡ most_read_bytes }
    requires stands { AuditsSome audit.old.auditor }
    requires later { audit.old.auditor.last ≤ audit.old.clock }
    requires position { audit.old.auditor.position + 1 < 2 ^ 64 }
    ensures room { length audit.new.intake.piece.items ≡ most_read_bytes }
    ensures turn { IfOk result (λ verdict. AnswersAuditTurn audit.old.intake.reader.entries verdict
        audit.old audit.new (G.seen gate.old) (G.seen gate.new)) }
    ensures lost { OnErr result (LosesAuditTurn audit.old (G.seen gate.old) (G.seen gate.new)) }
    ensures writes { (G.seen gate.new).write_faults ≡ (G.seen gate.old).write_faults }
    ensures held { (G.seen gate.new).held ≡ (G.seen gate.old).held }
    ensures late { (G.seen gate.old).held ≡ 0
        → (G.seen gate.new).late_reads ≡ (G.seen gate.old).late_reads }
{
    match audit_next(alloc, audit)? {
        Next::Taken => {
            audit.intake.accepted += 1;
            Ok(None)
        }
        Next::Refused(why) => Ok(Some(Verdict::Refused(why))),
        Next::Pending => audit.intake.take_more(gate),
    }
}

// Takes the record at the front to the auditor, where one is whole.
fn audit_next(alloc: Global, audit: &mut Audit<'_>) -> Result<Next, NoMemory>
    requires reader { audit.old.intake.reader ≡
        reads_in audit.old.intake.reader.entries TraceLog audit.old.intake.reader.rest }
    requires stands { AuditsSome audit.old.auditor }
    requires later { audit.old.auditor.last ≤ audit.old.clock }
    requires position { audit.old.auditor.position + 1 < 2 ^ 64 }
    ensures counts { LeavesCounts audit.old audit.new }
    ensures next { IfOk result (λ next.
        AnswersAudit audit.old.intake.reader.entries next audit.old audit.new) }
{
    match audit.intake.reader.next_record(alloc) {
        Ok(Found::Pending) => Ok(Next::Pending),
        Err(refusal) => Ok(Next::Refused(refusal_of(refusal)?)),
        Ok(Found::Item(item)) => audit_item(alloc, &item, &mut audit.clock, &mut audit.auditor),
    }
}

// Takes a record to the auditor; one whose time is below the clock is refused.
fn audit_item(
    alloc: Global,
    item: &LogItem,
    clock: &mut u64,
    auditor: &mut Auditor<'_>,
) -> Result<Next, NoMemory>
    requires time { time_of (record_of item.now) ≤ most_time Inserted }
    requires stands { AuditsSome auditor.old }
    requires later { auditor.old.last ≤ clock.old }
    requires position { auditor.old.position + 1 < 2 ^ 64 }
    ensures { IfOk result (λ next.
        AnswersRecord (record_of item.now) next clock.old clock.new auditor.old auditor.new) }
{
    let given = time_of(item);
    if given < *clock {
        return Ok(Next::Refused(RecordRefusal::Falling {
            given,
            clock: *clock,
        }));
    }
    if let LogItem::Step { time, events, .. } = item {
        auditor.step(alloc, *time, events)?;
    }
    *clock = given;
    Ok(Next::Taken)
}

// The time of a record.
fn time_of(item: &LogItem) -> u64
    ensures { result ≡ time_of (record_of item.now) }
{
    match item {
        LogItem::Step { time, .. } | LogItem::Tick { time } => *time,
    }
}

/// Gives the line of a verdict.
pub fn write_verdict<S: Sink>(
    found: trace_audit::Verdict,
    policy: &Policy,
    sink: &mut S,
) -> Result<(), Cut>
    ensures { WritesText (verdict_line (policy_rules_of policy.now) found) result
        (S.seen sink.old) (S.seen sink.new) }
{
    match found {
        trace_audit::Verdict::Holds => write_pieces(&[b"holds\n"], sink),
        trace_audit::Verdict::Fails { rule, position } => {
            let name = rule_name(policy, rule);
            let mut digits = Buffer::new();
            let at = digits.format(position).as_bytes();
            write_pieces(&[b"violated ", name, b" at position ", at, b"\n"], sink)
        }
    }
}

/// How a run ends that found this.
pub fn finish_of(found: trace_audit::Verdict) -> Finish
    ensures { result ≡ finish_after found }
{
    match found {
        trace_audit::Verdict::Holds => Finish::Done,
        trace_audit::Verdict::Fails { .. } => Finish::Violated,
    }
}
