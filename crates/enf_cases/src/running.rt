//! A guard over a log: what is asked of it at each step, and how its past goes on.
ghost use Rattle.std.specs.Prelude.{◌≡◌, ◌<◌, [], ◌∷◌, None, IfOk, OnOk, IfSome, IsTrue, All, length};
ghost use Rattle.enf_cases.specs.machine.GuardRuns.{CanAskQuestion, IsPastOfGuard, StandsUpTo};
ghost use Rattle.enf_data.specs.meaning.Valuations.{no_values};
ghost use Rattle.past_state.specs.machine.Guards.{AreCopies, IsFreshGuard};
ghost use Rattle.past_state.specs.machine.Past.{AreTablesAtStep, BindsBound, IsTestOf};
ghost use Rattle.past_state.specs.meaning.RowBounds.{IsFrom};

use crate::case::CaseError;
use crate::output::Output;
use crate::parts::open_log;
use crate::past::{begun, kept_rows, restored};
use crate::tables::{print_row_at, print_table};
use enf_data::{EventSet, Step};
use log_stream::{Found, LogItem, LogReader};
use monitorable_guard::Guard;
use past_state::{KeptRow, PastState, Tables};
use std::alloc::Global;
use trace_meaning::StepKind;
use trace_meaning::laws::trace_grows;
use valuations::Valuation;

/// What is asked at a step: the guard's rows, or whether it holds under each of some valuations.
#[derive(Clone, Copy)]
pub enum Question<'a> {
    Rows,
    Holds(&'a [Valuation]),
}

/// How the past goes on after a step.
#[derive(Clone, Copy)]
pub enum Way {
    Committed,
    /// And the rows that are kept are told.
    Kept,
    /// While tables of the step are held that share what is kept, and are asked afterwards.
    Shared,
    /// And it is made again of the rows that it keeps, also before the first step.
    Again,
}

/// A guard, and what is done with it over a log.
#[derive(Clone, Copy)]
pub struct Run<'a, 'b> {
    pub guard: &'a Guard,
    pub question: Question<'b>,
    pub way: Way,
}

/// The past and the time of its last step.
#[derive(Drop)]
pub struct Running {
    pub state: PastState,
    pub last: Option<u64>,
}

/// A step of a log, and whose it is.
#[derive(Drop)]
pub struct Logged {
    pub kind: StepKind,
    pub step: Step,
}

/// What is asked at each step of a log under a signature, with `/` after it.
pub fn answer_log(
    alloc: Global,
    run: &Run<'_, '_>,
    signature: &[u8],
    log: &[u8],
    out: &mut Output,
) -> Result<(), CaseError>
    requires fresh { IsFreshGuard run.now.guard.now }
    requires asked { CanAskQuestion run.now.guard.now run.now.question }
{
    let mut running = Running {
        state: begun(alloc, run.guard)?,
        last: None,
    };
    let mut reader = open_log(alloc, signature, log)?;
    answer_steps(alloc, run, &mut reader, log.len(), &mut running, out)
}

// What is asked at each step of a log with at most so many records.
fn answer_steps(
    alloc: Global,
    run: &Run<'_, '_>,
    reader: &mut LogReader,
    most: usize,
    running: &mut Running,
    out: &mut Output,
) -> Result<(), CaseError>
    requires fresh { IsFreshGuard run.now.guard.now }
    requires asked { CanAskQuestion run.now.guard.now run.now.question }
    requires of { IsPastOfGuard run.now.guard.now running.old.state }
    requires stands { StandsUpTo running.old.last running.old.state }
{
    for _ in 0..most {
        renew(alloc, run, running)?;
        let Some(logged) = next_step(alloc, reader, running.last)? else {
            return Ok(());
        };
        answer_step(alloc, run, &logged.step, running, out)?;
        print_end(alloc, run.way, &running.state, out)?;
    }
    Ok(())
}

// Puts in the past's place, where it is wanted, one that is made of the rows that it keeps.
fn renew(alloc: Global, run: &Run<'_, '_>, running: &mut Running) -> Result<(), CaseError>
    requires fresh { IsFreshGuard run.now.guard.now }
    requires of { IsPastOfGuard run.now.guard.now running.old.state }
    requires stands { StandsUpTo running.old.last running.old.state }
    ensures of { OnOk result (IsPastOfGuard run.now.guard.now running.new.state) }
    ensures stands { OnOk result (StandsUpTo running.new.last running.new.state) }
{
    if let Way::Again = run.way {
        running.state = restored(alloc, run.guard, running.last, &running.state)?;
    }
    Ok(())
}

/// The next step of a log without ticks, which is not before the last one.
pub fn next_step(
    alloc: Global,
    reader: &mut LogReader,
    last: Option<u64>,
) -> Result<Option<Logged>, CaseError>
    ensures { IfOk result (λ found. IfSome found (λ logged. IsFrom last logged.step.time)) }
{
    match reader.next_record(alloc) {
        Ok(Found::Item(LogItem::Step { kind, time, events })) => {
            if is_from(last, time) {
                let step = Step { time, events };
                Ok(Some(Logged { kind, step }))
            } else {
                Err(CaseError::Malformed)
            }
        }
        Ok(Found::Pending) => Ok(None),
        _ => Err(CaseError::Malformed),
    }
}

fn is_from(last: Option<u64>, time: u64) -> bool
    ensures { IsTrue result → IsFrom last time }
{
    match last {
        Some(last) => last <= time,
        None => true,
    }
}

// What is asked at a step, which becomes the last one.
fn answer_step(
    alloc: Global,
    run: &Run<'_, '_>,
    step: &Step,
    running: &mut Running,
    out: &mut Output,
) -> Result<(), CaseError>
    requires asked { CanAskQuestion run.now.guard.now run.now.question }
    requires from { IsFrom running.old.last step.now.time }
    requires of { IsPastOfGuard run.now.guard.now running.old.state }
    requires stands { StandsUpTo running.old.last running.old.state }
    ensures of { OnOk result (IsPastOfGuard run.now.guard.now running.new.state) }
    ensures stands { OnOk result (StandsUpTo running.new.last running.new.state) }
{
    let tables = running.state.tables(alloc, step.time, &step.events)?;
    if let Way::Shared = run.way {
        let held = running.state.tables(alloc, step.time, &step.events)?;
        commit(step, tables, running)?;
        print_asked(alloc, run, &step.events, &held, out)
    } else {
        print_asked(alloc, run, &step.events, &tables, out)?;
        commit(step, tables, running)
    }
}

/// Makes the step of these tables the last one.
pub fn commit(step: &Step, tables: Tables, running: &mut Running) -> Result<(), CaseError>
    requires from { IsFrom running.old.last step.now.time }
    requires are { AreTablesAtStep running.old.state step.now.time step.now.events tables }
    requires stands { StandsUpTo running.old.last running.old.state }
    ensures guards { OnOk result (running.new.state.guards ≡ running.old.state.guards) }
    ensures stands { OnOk result (StandsUpTo running.new.last running.new.state) }
{
    trace_grows();
    // no event is there twice
    let _events = step.events.as_slice();
    running.state.commit(step.time, &step.events, tables)?;
    running.last = Some(step.time);
    Ok(())
}

// What the tables tell of what is asked.
fn print_asked(
    alloc: Global,
    run: &Run<'_, '_>,
    events: &EventSet,
    tables: &Tables,
    out: &mut Output,
) -> Result<(), CaseError>
    requires of { AreCopies (run.now.guard.now ∷ []) tables.now.guards }
    requires asked { CanAskQuestion run.now.guard.now run.now.question }
{
    match run.question {
        Question::Rows => print_rows_of(alloc, events, tables, out),
        Question::Holds(valuations) => print_held(alloc, valuations, events, tables, out),
    }
}

fn print_rows_of(
    alloc: Global,
    events: &EventSet,
    tables: &Tables,
    out: &mut Output,
) -> Result<(), CaseError>
    requires one { 0 < length tables.now.guards }
    requires binds { BindsBound tables.now.guards 0 no_values }
{
    print_table(
        &tables.rows(alloc, 0, events, &Valuation::empty(alloc))?,
        out,
    );
    Ok(())
}

// `1` for each valuation under which the guard holds, and `0` for each other.
fn print_held(
    alloc: Global,
    valuations: &[Valuation],
    events: &EventSet,
    tables: &Tables,
    out: &mut Output,
) -> Result<(), CaseError>
    requires one { 0 < length tables.now.guards }
    requires bind { All (BindsBound tables.now.guards 0) valuations.now }
    requires test { IsTestOf tables.now.guards 0 }
{
    for v in valuations {
        let holds = tables.holds(alloc, 0, events, v)?;
        out.bytes(if holds { b"1" } else { b"0" });
    }
    Ok(())
}

// What is kept after a step, where it is wanted, and a `/`.
fn print_end(
    alloc: Global,
    way: Way,
    state: &PastState,
    out: &mut Output,
) -> Result<(), CaseError> {
    if let Way::Kept = way {
        out.bytes(b"|");
        print_kept(kept_rows(alloc, state)?.as_slice(), out);
    }
    out.bytes(b"/");
    Ok(())
}

fn print_kept(rows: &[KeptRow], out: &mut Output) {
    for row in rows {
        out.number(row.window.into());
        out.bytes(b":");
        print_row_at(&row.row, row.time, out);
    }
}
