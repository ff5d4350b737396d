//! What guards give at a step.
ghost use Rattle.enf_formula.specs.machine.FormulaViews.{tree_of};
ghost use Rattle.monitorable_guard.specs.machine.Evaluation.{CanEvaluate};

use crate::case::CaseError;
use crate::guards::print_refusal;
use crate::output::Output;
use crate::parts::{cut, open_log, read_formula, read_variables, three, two};
use crate::tables::{print_answer, print_table, read_table, read_valuation};
use enf_data::EventSet;
use log_stream::{Found, LogItem};
use monitorable_guard::{Guard, PastTables, StepEvents, is_test};
use std::alloc::Global;
use valuations::{Frame, Table, Valuation};

/// How a guard is asked: for its rows under a valuation, or under a frame. Under a frame a test is asked whether it
/// holds.
#[derive(Clone, Copy)]
pub enum Asking {
    Valuation,
    Frame,
}

/// The table that a guard gives, or why it gives none. The input has, with a byte 1 after each but the last, the
/// numbers of the variables that are bound, their values, a signature, the record of the step, the tables of the
/// outermost operators on the past with `&` after each, and a policy of one rule: the formula is that of the rule, or
/// what stands below its first `exists`.
pub fn answer(
    alloc: Global,
    asking: Asking,
    input: &[u8],
    out: &mut Output,
) -> Result<(), CaseError> {
    let (bound, values, rest) = three(input)?;
    let (signature, record, rest) = three(rest)?;
    let (tables, policy) = two(rest)?;
    let at = Moment {
        signature,
        record,
        tables,
        values,
        asking,
    };
    answer_at(alloc, at, bound, policy, out)
}

// What a guard is evaluated over.
#[derive(Clone, Copy)]
struct Moment<'a> {
    signature: &'a [u8],
    record: &'a [u8],
    tables: &'a [u8],
    values: &'a [u8],
    asking: Asking,
}

fn answer_at(
    alloc: Global,
    at: Moment<'_>,
    bound: &[u8],
    policy: &[u8],
    out: &mut Output,
) -> Result<(), CaseError> {
    let bound = read_variables(alloc, bound)?;
    let formula = read_formula(alloc, at.signature, policy)?;
    match Guard::of(alloc, formula, &bound) {
        Ok(guard) => answer_guard(alloc, &guard, at, out),
        Err(refusal) => {
            print_refusal(refusal, out);
            Ok(())
        }
    }
}

fn answer_guard(
    alloc: Global,
    guard: &Guard,
    at: Moment<'_>,
    out: &mut Output,
) -> Result<(), CaseError> {
    let events = read_events(alloc, at.signature, at.record)?;
    answer_events(alloc, guard, at, &events, out)
}

fn answer_events(
    alloc: Global,
    guard: &Guard,
    at: Moment<'_>,
    events: &EventSet,
    out: &mut Output,
) -> Result<(), CaseError> {
    let past = read_tables(alloc, at.tables)?;
    let v = read_valuation(alloc, at.values)?;
    if guard.can_evaluate(alloc, past.as_slice(), &v)? {
        evaluate(alloc, guard, at.asking, events, &past, &v, out)
    } else {
        out.bytes(b"cannot be evaluated");
        Ok(())
    }
}

fn evaluate(
    alloc: Global,
    guard: &Guard,
    asking: Asking,
    events: &EventSet,
    past: &[Table],
    v: &Valuation,
    out: &mut Output,
) -> Result<(), CaseError>
    requires { CanEvaluate (tree_of guard.now.formula) guard.now.bound past.now v.now }
{
    match asking {
        Asking::Valuation => {
            print_table(&guard.evaluate(alloc, events, past, v)?, out);
            Ok(())
        }
        Asking::Frame => ask(alloc, guard, &StepEvents::of(alloc, events)?, past, v, out),
    }
}

// Whether a test holds, and of another guard its rows.
fn ask(
    alloc: Global,
    guard: &Guard,
    events: &StepEvents<'_>,
    past: &[Table],
    v: &Valuation,
    out: &mut Output,
) -> Result<(), CaseError>
    requires { CanEvaluate (tree_of guard.now.formula) guard.now.bound past.now v.now }
{
    let past = PastTables { tables: past };
    let frame = Frame::Whole(v);
    if is_test(alloc, guard.formula(), guard.bound())? {
        print_answer(guard.holds(alloc, events, &past, &frame)?, out);
    } else {
        print_table(&guard.evaluate_under(alloc, events, &past, &frame)?, out);
    }
    Ok(())
}

// The events of the record that the bytes spell.
fn read_events(alloc: Global, signature: &[u8], bytes: &[u8]) -> Result<EventSet, CaseError> {
    let mut reader = open_log(alloc, signature, bytes)?;
    match reader.next_record(alloc) {
        Ok(Found::Item(LogItem::Step { events, .. })) => Ok(events),
        _ => Err(CaseError::Malformed),
    }
}

// Tables, each with `&` after it.
fn read_tables(alloc: Global, bytes: &[u8]) -> Result<Vec<Table>, CaseError> {
    let mut tables = Vec::new(alloc);
    push_tables(alloc, bytes, &mut tables)?;
    Ok(tables)
}

fn push_tables(alloc: Global, bytes: &[u8], tables: &mut Vec<Table>) -> Result<(), CaseError> {
    let mut rest = bytes;
    while let Some((piece, behind)) = cut(rest, b'&') {
        tables.push(read_table(alloc, piece)?)?;
        rest = behind;
    }
    Ok(())
}
