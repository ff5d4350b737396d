//! Logs that are audited: whether they satisfy a policy.
ghost use Rattle.std.specs.Prelude.{◌<◌, ◌≤◌, ◌^◌, IfOk, length};
ghost use Rattle.trace_meaning.specs.meaning.Traces.{last_time, most_time};
ghost use Rattle.trace_meaning.specs.declared.kinds.StepKind.TheVariants.{Inserted};

use crate::case::CaseError;
use crate::output::Output;
use crate::parts::{read_signature, three};
use crate::typing::read_typed;
use enf_data::{Duplicate, NoMemory, Step};
use enforce_types::TypedPolicy;
use log_stream::{Found, LogItem, LogMode, LogReader};
use signature::Signature;
use std::alloc::Global;
use trace_audit::{Verdict, audit};
use trace_meaning::Trace;
use trace_meaning::laws::trace_grows;

// How many records and steps are taken at most, and the greatest time of one.
const MOST_RECORDS: u32 = 1_000;

const MOST_STEPS: usize = 1_000;

const MOST_TIME: u64 = 2_000_000_000_000_000;

/// Whether an enforced log satisfies a policy: `holds`, or `fails` with the number of the rule and the position. Reads
/// a signature, a policy and a log, with a byte 1 between them; ticks are passed over.
pub fn answer(alloc: Global, input: &[u8], out: &mut Output) -> Result<(), CaseError> {
    let (signature, policy, log) = three(input)?;
    let names = read_signature(alloc, signature)?;
    if let Some(typed) = read_typed(alloc, &names, policy, out)? {
        answer_log(alloc, &names, &typed, log, out)?;
    }
    Ok(())
}

fn answer_log(
    alloc: Global,
    names: &Signature,
    typed: &TypedPolicy,
    log: &[u8],
    out: &mut Output,
) -> Result<(), CaseError> {
    let mut reader = LogReader::new(alloc, names.duplicate(alloc)?, LogMode::TraceLog);
    reader.feed(log)?;
    let trace = read_trace(alloc, &mut reader)?;
    print_verdict(audit(alloc, typed, &trace)?, out);
    Ok(())
}

// The steps of what was fed.
fn read_trace(alloc: Global, reader: &mut LogReader) -> Result<Trace, CaseError>
    ensures { IfOk result (λ trace. (last_time trace ≤ most_time Inserted) × (length trace < 2 ^ 63)) }
{
    trace_grows();
    let mut trace = Trace::new(alloc);
    let mut last = 0;
    for _ in 0..MOST_RECORDS {
        match reader.next_record(alloc) {
            Ok(Found::Item(LogItem::Step { time, events, .. })) => {
                if time < last || time > MOST_TIME || trace.len() >= MOST_STEPS {
                    return Err(CaseError::Malformed);
                }
                trace.push(Step { time, events }).map_err(|_| NoMemory)?;
                last = time;
            }
            Ok(Found::Item(LogItem::Tick { .. })) => {}
            Ok(Found::Pending) => return Ok(trace),
            Err(_) => return Err(CaseError::Malformed),
        }
    }
    Err(CaseError::Malformed)
}

fn print_verdict(verdict: Verdict, out: &mut Output) {
    match verdict {
        Verdict::Holds => out.bytes(b"holds"),
        Verdict::Fails { rule, position } => {
            out.bytes(b"fails ");
            out.number(u64::from(rule));
            out.bytes(b" ");
            out.number(position);
        }
    }
}
