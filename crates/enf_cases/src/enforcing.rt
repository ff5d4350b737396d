//! Policies enforced on logs: what is done at each step, and the step that is emitted; or what is pending.
ghost use Rattle.std.specs.Prelude.{◌≤◌, ◌<◌, ◌^◌, IfOk, OnOk};
ghost use Rattle.enf_cases.specs.machine.EnforcerProgress.{IsFurtherByRecord, HasTakenNothing, IsResumedFrom};
ghost use Rattle.enf_cases.specs.machine.EnforcerProgress.{IsStandingEnforcer, StaysStanding};

use crate::case::CaseError;
use crate::output::Output;
use crate::parts::{read_signature, three};
use crate::typing::read_typed;
use choice_step::Action;
use enf_data::{Duplicate, Event, EventSet, Value};
use enforce_types::TypedPolicy;
use enforcer_core::laws::{kept_can_be_taken_up, takes_are_few};
use enforcer_core::{Enforcer, OutStep, StepOut, StepRefusal};
use log_stream::{Found, LogItem, LogMode, LogReader};
use obligations::{Instance, LiteralKind};
use signature::Signature;
use std::alloc::Global;
use valuations::Valuation;

/// What is told of an enforcer: for each step that is emitted what was done at it, as `+` or `-`, the event, `/`, the
/// number of the leaf and a blank, and the step with a blank; after each record, and the drain after the last one,
/// what is pending; or the steps of one that is made anew of what is kept of it, before the first record and after
/// each.
#[derive(Clone, Copy)]
pub enum Told {
    Steps,
    Pending,
    Resumed,
}

// How many records are taken at most, and the greatest time of one.
const MOST_RECORDS: u32 = 1_000;

const MOST_TIME: u64 = 1_000_000_000_000_000;

/// What is told of an enforcer over a log, and the drain after it. Reads a signature, a policy and a log, with a byte
/// 1 between them.
pub fn answer(alloc: Global, told: Told, input: &[u8], out: &mut Output) -> Result<(), CaseError> {
    let (signature, policy, log) = three(input)?;
    let names = read_signature(alloc, signature)?;
    if let Some(typed) = read_typed(alloc, &names, policy, out)? {
        answer_typed(alloc, told, &names, typed, log, out)?;
    }
    Ok(())
}

fn answer_typed(
    alloc: Global,
    told: Told,
    names: &Signature,
    typed: TypedPolicy,
    log: &[u8],
    out: &mut Output,
) -> Result<(), CaseError> {
    let enforcer = resumed(alloc, told, Enforcer::new(alloc, typed)?)?;
    enforce(alloc, told, names, log, enforcer, out)
}

fn enforce(
    alloc: Global,
    told: Told,
    names: &Signature,
    log: &[u8],
    enforcer: Enforcer,
    out: &mut Output,
) -> Result<(), CaseError>
    requires fresh { HasTakenNothing enforcer }
    requires stands { IsStandingEnforcer enforcer }
{
    let mut reader = LogReader::new(alloc, names.duplicate(alloc)?, LogMode::Input);
    reader.feed(log)?;
    take_records(alloc, told, names, &mut reader, enforcer, out)
}

fn take_records(
    alloc: Global,
    told: Told,
    names: &Signature,
    reader: &mut LogReader,
    enforcer: Enforcer,
    out: &mut Output,
) -> Result<(), CaseError>
    requires fresh { HasTakenNothing enforcer }
    requires stands { IsStandingEnforcer enforcer }
{
    let mut enforcer = enforcer;
    for taken in 0..MOST_RECORDS {
        let _before = taken;
        match reader.next_record(alloc) {
            Ok(Found::Item(item)) => enforcer = take(alloc, told, names, item, enforcer, out)?,
            Ok(Found::Pending) => return drain(alloc, told, names, &mut enforcer, out),
            Err(_) => return Err(CaseError::Malformed),
        }
    }
    Err(CaseError::Malformed)
}

fn take(
    alloc: Global,
    told: Told,
    names: &Signature,
    item: LogItem,
    enforcer: Enforcer,
    out: &mut Output,
) -> Result<Enforcer, CaseError>
    requires room { enforcer.position < 2 ^ 63 }
    requires stands { IsStandingEnforcer enforcer }
    ensures further { IfOk result (IsFurtherByRecord enforcer) }
    ensures stands { IfOk result IsStandingEnforcer }
{
    let mut enforcer = enforcer;
    let made = made_of(alloc, item, &mut enforcer)?;
    let pending = enforcer.pending(alloc)?;
    print_made(told, names, &made, pending.as_slice(), out);
    resumed(alloc, told, enforcer)
}

// The enforcer, made anew of what is kept of it where it is to be.
fn resumed(alloc: Global, told: Told, enforcer: Enforcer) -> Result<Enforcer, CaseError>
    requires stands { IsStandingEnforcer enforcer }
    requires in_time { enforcer.clock ≤ MOST_TIME }
    ensures { IfOk result (IsResumedFrom enforcer) }
{
    match told {
        Told::Steps | Told::Pending => Ok(enforcer),
        Told::Resumed => made_anew(alloc, enforcer),
    }
}

fn made_anew(alloc: Global, enforcer: Enforcer) -> Result<Enforcer, CaseError>
    requires stands { IsStandingEnforcer enforcer }
    requires in_time { enforcer.clock ≤ MOST_TIME }
    ensures { IfOk result (IsResumedFrom enforcer) }
{
    kept_can_be_taken_up();
    let snapshot = enforcer.snapshot(alloc)?;
    let policy = enforcer.into_policy();
    Ok(Enforcer::from_snapshot(alloc, policy, snapshot)?)
}

// Lets out what is still owed after the log.
fn drain(
    alloc: Global,
    told: Told,
    names: &Signature,
    enforcer: &mut Enforcer,
    out: &mut Output,
) -> Result<(), CaseError>
    requires { enforcer.old.position < 2 ^ 63 }
{
    let made = drained(alloc, enforcer)?;
    let pending = enforcer.pending(alloc)?;
    print_made(told, names, &made, pending.as_slice(), out);
    Ok(())
}

fn drained(alloc: Global, enforcer: &mut Enforcer) -> Result<StepOut, CaseError>
    requires { enforcer.old.position < 2 ^ 63 }
{
    match enforcer.drain(alloc) {
        Ok(made) => Ok(made),
        Err(refusal) => Err(error_of(refusal)),
    }
}

fn made_of(alloc: Global, item: LogItem, enforcer: &mut Enforcer) -> Result<StepOut, CaseError>
    requires { enforcer.old.position < 2 ^ 63 }
    ensures further { OnOk result (IsFurtherByRecord enforcer.old enforcer.new) }
    ensures stands { OnOk result (StaysStanding enforcer.old enforcer.new) }
{
    match item {
        LogItem::Step { time, events, .. } => take_step(alloc, time, events, enforcer),
        LogItem::Tick { time } => take_tick(alloc, time, enforcer),
    }
}

fn take_step(
    alloc: Global,
    time: u64,
    events: EventSet,
    enforcer: &mut Enforcer,
) -> Result<StepOut, CaseError>
    requires { enforcer.old.position < 2 ^ 63 }
    ensures further { OnOk result (IsFurtherByRecord enforcer.old enforcer.new) }
    ensures stands { OnOk result (StaysStanding enforcer.old enforcer.new) }
{
    if time > MOST_TIME {
        return Err(CaseError::Malformed);
    }
    takes_are_few();
    match enforcer.step(alloc, time, events) {
        Ok(made) => Ok(made),
        Err(refusal) => Err(error_of(refusal)),
    }
}

fn take_tick(alloc: Global, time: u64, enforcer: &mut Enforcer) -> Result<StepOut, CaseError>
    requires { enforcer.old.position < 2 ^ 63 }
    ensures further { OnOk result (IsFurtherByRecord enforcer.old enforcer.new) }
    ensures stands { OnOk result (StaysStanding enforcer.old enforcer.new) }
{
    if time > MOST_TIME {
        return Err(CaseError::Malformed);
    }
    takes_are_few();
    match enforcer.tick(alloc, time) {
        Ok(made) => Ok(made),
        Err(refusal) => Err(error_of(refusal)),
    }
}

fn error_of(refusal: StepRefusal) -> CaseError {
    match refusal {
        StepRefusal::NoMemory => CaseError::NoMemory,
        StepRefusal::Falling { .. } | StepRefusal::Stopped => CaseError::Malformed,
    }
}

fn print_made(
    told: Told,
    names: &Signature,
    made: &StepOut,
    pending: &[Instance],
    out: &mut Output,
) {
    match told {
        Told::Steps | Told::Resumed => print_steps(names, made.steps.as_slice(), out),
        Told::Pending => print_pending(pending, out),
    }
}

/// The instances that are pending, with `;` after each, and `/` and a blank.
pub fn print_pending(pending: &[Instance], out: &mut Output) {
    for instance in pending {
        print_instance(instance, out);
    }
    out.bytes(b"/ ");
}

// The rule and the node, the origin and the window, with blanks between them, and the values.
fn print_instance(instance: &Instance, out: &mut Output) {
    out.number(instance.rule.into());
    print_behind_blank(instance.node.into(), out);
    print_behind_blank(instance.origin, out);
    print_behind_blank(instance.low, out);
    print_behind_blank(instance.high, out);
    print_valuation(&instance.valuation, out);
    out.bytes(b";");
}

fn print_behind_blank(number: u64, out: &mut Output) {
    out.bytes(b" ");
    out.number(number);
}

/// For each variable that is bound a blank, its number, `=` and its value.
pub fn print_valuation(v: &Valuation, out: &mut Output) {
    for binding in v.bindings() {
        print_behind_blank(binding.0.0.into(), out);
        out.bytes(b"=");
        out.value(&binding.1);
    }
}

fn print_steps(names: &Signature, steps: &[OutStep], out: &mut Output) {
    for step in steps {
        print_step(names, step, out);
    }
}

fn print_step(names: &Signature, step: &OutStep, out: &mut Output) {
    for action in step.actions.as_slice() {
        print_action(names, action, out);
    }
    out.step(names, step.kind, step.time, &step.events);
}

fn print_action(names: &Signature, action: &Action, out: &mut Output) {
    out.bytes(match action.kind {
        LiteralKind::Cause => b"+",
        LiteralKind::Suppress => b"-",
    });
    print_event(names, &action.event, out);
    out.bytes(b"/");
    out.number(action.leaf.into());
    out.bytes(b" ");
}

/// The event.
pub fn print_event(names: &Signature, event: &Event, out: &mut Output) {
    if let Some(entry) = names.entry(event.name) {
        out.bytes(entry.text.bytes());
    }
    out.bytes(b"(");
    print_values(event.args.as_slice(), out);
    out.bytes(b")");
}

fn print_values(values: &[Value], out: &mut Output) {
    let mut mark = b"".as_slice();
    for value in values {
        out.bytes(mark);
        out.value(value);
        mark = b",";
    }
}
