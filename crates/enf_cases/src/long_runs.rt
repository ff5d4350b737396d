//! Long runs of a past: at how many steps a guard has rows, and how many rows are kept.
ghost use Rattle.std.specs.Prelude.{◌≡◌, ◌≤◌, ◌<◌, ℕ, IfOk, OnOk, length};
ghost use Rattle.enf_data.specs.meaning.Valuations.{no_values};
ghost use Rattle.past_state.specs.machine.Past.{BindsBound};
ghost use Rattle.past_state.specs.machine.OperatorRuns.{AreUpToTimeOf};

use crate::case::CaseError;
use crate::output::Output;
use crate::parts::{read_count, two, word};
use crate::past::{begun, kept_rows, read_guard};
use enf_data::{Event, EventSet, NameId, Row, Value};
use past_state::{PastState, Tables};
use std::alloc::Global;
use valuations::Valuation;

// The names of all runs.
const SIGNATURE: &[u8] = b"p(int);q(int);r(int);";

// How many steps and users, and at which steps the kept rows are counted.
#[derive(Clone, Copy)]
struct Run {
    steps: u32,
    users: u32,
    every: u32,
}

// At how many steps the guard has rows, how many rows are kept after the last step, and the most that were counted.
#[derive(Clone, Copy)]
struct Counts {
    held: u32,
    kept: usize,
    most: usize,
}

/// At how many steps of a run a guard has rows, how many rows are kept at its end, and the most after a step. The
/// input is the numbers of steps and of users and how many steps pass between two counts, a byte 1, and a policy of
/// one rule: the guard is what stands below its first `exists`. With u being i modulo the users, step i is at time i
/// and has `p(u)`, `q` of the user as far from the last as u from the first, and `r` of the user half of all further
/// on.
pub fn answer(alloc: Global, input: &[u8], out: &mut Output) -> Result<(), CaseError> {
    let (numbers, policy) = two(input)?;
    let run = read_run(numbers)?;
    let guard = read_guard(alloc, SIGNATURE, policy)?;
    let mut state = begun(alloc, &guard)?;
    print_counts(count(alloc, run, &mut state)?, out);
    Ok(())
}

fn print_counts(counts: Counts, out: &mut Output) {
    out.number(counts.held.into());
    out.bytes(b" steps, kept ");
    out.number(counts.kept as u64);
    out.bytes(b", at most ");
    out.number(counts.most as u64);
}

fn read_run(numbers: &[u8]) -> Result<Run, CaseError>
    ensures users { IfOk result (λ run. 0 < run.users) }
    ensures every { IfOk result (λ run. 0 < run.every) }
{
    let (steps, rest) = word(numbers)?;
    let (users, every) = word(rest)?;
    run_of(steps, users, every)
}

fn run_of(steps: &[u8], users: &[u8], every: &[u8]) -> Result<Run, CaseError>
    ensures users { IfOk result (λ run. 0 < run.users) }
    ensures every { IfOk result (λ run. 0 < run.every) }
{
    Ok(Run {
        steps: read_count(steps)?,
        users: read_positive(users)?,
        every: read_positive(every)?,
    })
}

fn read_positive(bytes: &[u8]) -> Result<u32, CaseError>
    ensures { IfOk result (λ count. 0 < count) }
{
    match read_count(bytes)? {
        0 => Err(CaseError::Malformed),
        count => Ok(count),
    }
}

fn count(alloc: Global, run: Run, state: &mut PastState) -> Result<Counts, CaseError>
    requires users { 0 < run.users }
    requires every { 0 < run.every }
    requires later { (time : ℕ) → AreUpToTimeOf time state.old.operators }
    requires one { 0 < length state.old.guards }
    requires binds { BindsBound state.old.guards 0 no_values }
{
    let mut held = 0;
    let mut most = 0;
    for step in 0..run.steps {
        if take_step(alloc, step, run.users, state)? {
            held += 1;
        }
        if step % run.every == 0 {
            most = most.max(count_kept(alloc, state)?);
        }
    }
    let kept = count_kept(alloc, state)?;
    Ok(Counts {
        held,
        kept,
        most: most.max(kept),
    })
}

fn count_kept(alloc: Global, state: &PastState) -> Result<usize, CaseError> {
    Ok(kept_rows(alloc, state)?.len())
}

// Whether the guard has a row at the step, which is committed.
fn take_step(alloc: Global, step: u32, users: u32, state: &mut PastState) -> Result<bool, CaseError>
    requires users { 0 < users }
    requires later { AreUpToTimeOf step state.old.operators }
    requires one { 0 < length state.old.guards }
    requires binds { BindsBound state.old.guards 0 no_values }
    ensures later { OnOk result ((later : ℕ) → step ≤ later → AreUpToTimeOf later state.new.operators) }
    ensures guards { OnOk result (state.new.guards ≡ state.old.guards) }
{
    let events = events_at(alloc, step % users, users)?;
    commit_step(alloc, step.into(), &events, state)
}

fn commit_step(
    alloc: Global,
    time: u64,
    events: &EventSet,
    state: &mut PastState,
) -> Result<bool, CaseError>
    requires later { AreUpToTimeOf time state.old.operators }
    requires one { 0 < length state.old.guards }
    requires binds { BindsBound state.old.guards 0 no_values }
    ensures later { OnOk result ((later : ℕ) → time ≤ later → AreUpToTimeOf later state.new.operators) }
    ensures guards { OnOk result (state.new.guards ≡ state.old.guards) }
{
    let tables = state.tables(alloc, time, events)?;
    let has = has_rows(alloc, events, &tables)?;
    state.commit(time, events, tables)?;
    Ok(has)
}

fn has_rows(alloc: Global, events: &EventSet, tables: &Tables) -> Result<bool, CaseError>
    requires one { 0 < length tables.now.guards }
    requires binds { BindsBound tables.now.guards 0 no_values }
{
    let rows = tables.rows(alloc, 0, events, &Valuation::empty(alloc))?;
    Ok(!rows.is_empty())
}

fn events_at(alloc: Global, user: u32, users: u32) -> Result<EventSet, CaseError>
    requires { user < users }
{
    let mut events = EventSet::new(alloc);
    insert_all(alloc, user, users, &mut events)?;
    Ok(events)
}

fn insert_all(alloc: Global, user: u32, users: u32, events: &mut EventSet) -> Result<(), CaseError>
    requires { user < users }
{
    insert(event_of(alloc, 0, user.into())?, events)?;
    insert(event_of(alloc, 1, (users - 1 - user).into())?, events)?;
    insert(event_of(alloc, 2, opposite(user, users).into())?, events)?;
    Ok(())
}

// The user who is half of all further on.
fn opposite(user: u32, users: u32) -> u32
    requires { user < users }
{
    let half = users / 2;
    if user < half {
        user + half
    } else {
        user - half
    }
}

// Puts an event last, where it is not there.
fn insert(event: Event, set: &mut EventSet) -> Result<bool, CaseError> {
    match set.insert(event) {
        Ok(new) => Ok(new),
        Err(_) => Err(CaseError::NoMemory),
    }
}

// The event of a name with a number.
fn event_of(alloc: Global, name: u32, number: i64) -> Result<Event, CaseError> {
    let args = Row::from_vec(vec![in alloc; Value::Num(number)]?);
    Ok(Event {
        name: NameId(name),
        args,
    })
}
