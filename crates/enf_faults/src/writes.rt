//! Writes that fail, of the gate and of the report.
use crate::runs::{ENFORCE, Left, Texts, Turns, enforced, ran, then_fail};
use crate::scan::{first_lines, steps_of, whole_lines};
use crate::table::Table;
use enf_io::devices::NoMemory;
use enf_io::turns::Turn;
use enf_run::refusals::Status;
use std::alloc::Global;

// What the writes before the one that fails take.
const KINDS: [Turn; 3] = [Turn::All, Turn::Take(1), Turn::Take(7)];

/// Each write of the gate fails in turn: nothing more is given, and the report has the lines of the steps given whole.
pub fn failing(alloc: Global, texts: &Texts, table: &mut Table) -> Result<(), NoMemory> {
    let wanted = enforced(alloc, texts, &texts.log)?;
    let steps = steps_of(alloc, &wanted.report)?;
    for turn in KINDS {
        for count in 0..wanted.output.len() {
            let mut turns = Turns::calm(alloc);
            turns.writes = then_fail(alloc, turn, count)?;
            let left = ran(alloc, ENFORCE, texts, b"", &texts.log, turns)?;
            if left.status == Status::Done {
                break;
            }
            let holds = breaks_off(&left, &wanted, &steps, turn, count);
            table.row("the gate fails at write", count, &left, holds)?;
        }
    }
    Ok(())
}

// Whether a run broke off at a write of the gate, after so many that took what the turn says.
fn breaks_off(left: &Left, wanted: &Left, steps: &[usize], turn: Turn, count: usize) -> bool {
    let whole = whole_lines(&left.output);
    let said = steps.iter().filter(|step| **step < whole).count();
    left.status == Status::WriteFault
        && wanted.output.starts_with(&left.output)
        && gave(&left.output, turn, count)
        && left.report.as_slice() == first_lines(&wanted.report, said)
}

// Whether so many writes that took what the turn says gave as many bytes.
fn gave(given: &[u8], turn: Turn, count: usize) -> bool {
    match turn {
        Turn::All => given.last().is_none_or(|byte| *byte == b'\n'),
        Turn::Take(1) => given.len() == count,
        _ => given.len() >= count,
    }
}

/// Each write of the report fails in turn: what was said is a front of the whole, and the steps that it is about were given.
pub fn report_failing(alloc: Global, texts: &Texts, table: &mut Table) -> Result<(), NoMemory> {
    let wanted = enforced(alloc, texts, &texts.log)?;
    let steps = steps_of(alloc, &wanted.report)?;
    for turn in KINDS {
        for count in 0..wanted.report.len() {
            let mut turns = Turns::calm(alloc);
            turns.report_writes = then_fail(alloc, turn, count)?;
            let left = ran(alloc, ENFORCE, texts, b"", &texts.log, turns)?;
            if left.status == Status::Done {
                break;
            }
            let holds = falls_silent(&left, &wanted, &steps, turn, count);
            table.row("the report fails at write", count, &left, holds)?;
        }
    }
    Ok(())
}

// Whether a run broke off at a write of the report, after so many that took what the turn says.
fn falls_silent(left: &Left, wanted: &Left, steps: &[usize], turn: Turn, count: usize) -> bool {
    let given = match steps.get(whole_lines(&left.report)) {
        Some(step) => step.saturating_add(1),
        None => return false,
    };
    left.status == Status::WriteFault
        && wanted.report.starts_with(&left.report)
        && gave(&left.report, turn, count)
        && left.output.as_slice() == first_lines(&wanted.output, given)
}
