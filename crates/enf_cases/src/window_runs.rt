//! Windows: what they answer and keep, step by step.
ghost use Rattle.std.specs.Prelude.{◌≡◌, ◌≤◌, IfOk, OnOk};
ghost use Rattle.enf_data.specs.meaning.Membership.{HasNoRepeats};
ghost use Rattle.windows.specs.machine.Windows.{FitsColumns, IsSameKind};

use crate::case::CaseError;
use crate::output::Output;
use crate::parts::{cut, cut_at, read_interval, read_number, read_variables, word};
use crate::tables::{are_distinct, print_row_at, print_rows, table_of};
use enf_data::{Duplicate, Interval, Seed, Vars};
use std::alloc::Global;
use valuations::Table;
use windows::{KeptPair, SinceWindow, Surviving};

/// For each step, with `/` after it, the rows that a window gives at it and, once it is committed, its rows and
/// what it keeps, with `|` between them. The input is `LOW HIGH COLUMNS`, a `&`, and the steps, with `/` after each:
/// the time, a blank, the rows that survive, `|`, and the right rows. `*` stands for all rows, `+` for those that
/// follow, `-` for all others.
/// Where it restores, the window is made anew after each step, of what it keeps.
pub fn answer(
    alloc: Global,
    restores: bool,
    input: &[u8],
    out: &mut Output,
) -> Result<(), CaseError> {
    let (interval, rest) = read_interval(input)?;
    let (columns, steps) = cut_at(rest, b'&')?;
    let form = Form {
        interval,
        columns: read_columns_of(alloc, columns)?,
        restores,
    };
    answer_window(alloc, &form, steps, out)
}

// Distinct columns.
fn read_columns_of(alloc: Global, digits: &[u8]) -> Result<Vars, CaseError>
    ensures { IfOk result HasNoRepeats }
{
    let columns = read_variables(alloc, digits)?;
    if are_distinct(columns.as_slice()) {
        Ok(columns)
    } else {
        Err(CaseError::Malformed)
    }
}

// What is said of a window before its steps.
#[derive(Drop)]
struct Form {
    interval: Interval,
    columns: Vars,
    restores: bool,
}

fn answer_window(
    alloc: Global,
    form: &Form,
    steps: &[u8],
    out: &mut Output,
) -> Result<(), CaseError>
    requires { HasNoRepeats form.now.columns }
{
    let mut window = SinceWindow::new(alloc, form.interval, form.columns.duplicate(alloc)?);
    answer_steps(alloc, form, steps, &mut window, out)
}

fn answer_steps(
    alloc: Global,
    form: &Form,
    steps: &[u8],
    window: &mut SinceWindow,
    out: &mut Output,
) -> Result<(), CaseError>
    requires distinct { HasNoRepeats form.now.columns }
    requires interval { window.old.interval ≡ form.now.interval }
    requires columns { window.old.columns ≡ form.now.columns }
    requires last { window.old.last ≡ 0 }
{
    let mut last = 0;
    let mut rest = steps;
    while let Some((bytes, behind)) = cut(rest, b'/') {
        let step = read_step(alloc, &form.columns, last, bytes)?;
        answer_step(alloc, &step, window, out)?;
        last = step.time;
        rest = behind;
        if form.restores {
            restore(alloc, form, last, window)?;
        }
    }
    Ok(())
}

// Puts in the window's place one that is made of what it keeps.
fn restore(alloc: Global, form: &Form, last: u64, window: &mut SinceWindow) -> Result<(), CaseError>
    requires distinct { HasNoRepeats form.now.columns }
    requires interval { window.old.interval ≡ form.now.interval }
    requires columns { window.old.columns ≡ form.now.columns }
    requires last { window.old.last ≡ last }
    ensures kind { OnOk result (IsSameKind window.old window.new) }
    ensures last { OnOk result (window.new.last ≡ last) }
{
    let pairs = window.kept(alloc)?;
    let columns = form.columns.duplicate(alloc)?;
    *window = SinceWindow::from_kept(alloc, Seed::known(), form.interval, columns, last, pairs)?;
    Ok(())
}

// A step: the rows that are right at it, and a table that tells which rows survive it.
#[derive(Drop)]
struct WindowStep {
    time: u64,
    right: Table,
    how: How,
    by: Table,
}

// All rows survive, those of a table, or all but those of a table.
#[derive(Clone, Copy)]
enum How {
    All,
    Only,
    AllBut,
}

impl WindowStep {
    fn surviving(&self) -> Surviving<'_>
        ensures { FitsColumns self.now.by.columns result }
    {
        match self.how {
            How::All => Surviving::All,
            How::Only => Surviving::Only(&self.by),
            How::AllBut => Surviving::AllBut(&self.by),
        }
    }
}

// What is given at the step, which is committed, and what is kept.
fn answer_step(
    alloc: Global,
    step: &WindowStep,
    window: &mut SinceWindow,
    out: &mut Output,
) -> Result<(), CaseError>
    requires later { window.old.last ≤ step.now.time }
    requires right { step.now.right.columns ≡ window.old.columns }
    requires by { step.now.by.columns ≡ window.old.columns }
    ensures kind { OnOk result (IsSameKind window.old window.new) }
    ensures last { OnOk result (window.new.last ≡ step.now.time) }
{
    print_given(alloc, step, window, out)?;
    commit(step, window)?;
    print_kept(alloc, window, out)
}

// The rows that the window gives at the step; where a table has those that survive, by the call that takes one.
fn given_rows(alloc: Global, step: &WindowStep, window: &SinceWindow) -> Result<Table, CaseError>
    requires later { window.now.last ≤ step.now.time }
    requires right { step.now.right.columns ≡ window.now.columns }
    requires by { step.now.by.columns ≡ window.now.columns }
{
    match step.how {
        How::Only => Ok(window.answer(alloc, step.time, &step.by, &step.right)?),
        _ => Ok(window.answer_by(alloc, step.time, &step.surviving(), &step.right)?),
    }
}

// Commits the step to the window, likewise.
fn commit(step: &WindowStep, window: &mut SinceWindow) -> Result<(), CaseError>
    requires later { window.old.last ≤ step.now.time }
    requires right { step.now.right.columns ≡ window.old.columns }
    requires by { step.now.by.columns ≡ window.old.columns }
    ensures kind { OnOk result (IsSameKind window.old window.new) }
    ensures last { OnOk result (window.new.last ≡ step.now.time) }
{
    match step.how {
        How::Only => Ok(window.commit(step.time, &step.by, &step.right)?),
        _ => Ok(window.commit_by(step.time, &step.surviving(), &step.right)?),
    }
}

fn print_given(
    alloc: Global,
    step: &WindowStep,
    window: &SinceWindow,
    out: &mut Output,
) -> Result<(), CaseError>
    requires later { window.now.last ≤ step.now.time }
    requires right { step.now.right.columns ≡ window.now.columns }
    requires by { step.now.by.columns ≡ window.now.columns }
{
    let given = given_rows(alloc, step, window)?;
    print_rows(given.rows(), out);
    out.bytes(b"|");
    Ok(())
}

fn print_kept(alloc: Global, window: &SinceWindow, out: &mut Output) -> Result<(), CaseError> {
    let rows = window.rows(alloc)?;
    print_rows(rows.rows(), out);
    out.bytes(b"|");
    print_pairs(&window.kept(alloc)?, out);
    out.bytes(b"/");
    Ok(())
}

// Each row, with `@` and its time after it.
fn print_pairs(pairs: &[KeptPair], out: &mut Output) {
    for pair in pairs {
        print_row_at(&pair.row, pair.time, out);
    }
}

// A step that is not before the last one.
fn read_step(
    alloc: Global,
    columns: &Vars,
    last: u64,
    bytes: &[u8],
) -> Result<WindowStep, CaseError>
    ensures later { IfOk result (λ step. last ≤ step.time) }
    ensures right { IfOk result (λ step. step.right.columns ≡ columns.now) }
    ensures by { IfOk result (λ step. step.by.columns ≡ columns.now) }
{
    let (time, rest) = word(bytes)?;
    let (surviving, right) = cut_at(rest, b'|')?;
    let (how, by) = read_how(surviving)?;
    let time = read_time(last, time)?;
    let by = read_rows(alloc, columns, by)?;
    let right = read_rows(alloc, columns, right)?;
    Ok(WindowStep {
        time,
        right,
        how,
        by,
    })
}

fn read_time(last: u64, bytes: &[u8]) -> Result<u64, CaseError>
    ensures { IfOk result (λ time. last ≤ time) }
{
    let time = read_number(bytes)?;
    if last <= time {
        Ok(time)
    } else {
        Err(CaseError::Malformed)
    }
}

fn read_how(bytes: &[u8]) -> Result<(How, &[u8]), CaseError> {
    match bytes.split_first() {
        Some((b'*', by)) => Ok((How::All, by)),
        Some((b'+', by)) => Ok((How::Only, by)),
        Some((b'-', by)) => Ok((How::AllBut, by)),
        _ => Err(CaseError::Malformed),
    }
}

fn read_rows(alloc: Global, columns: &Vars, rows: &[u8]) -> Result<Table, CaseError>
    ensures { IfOk result (λ t. t.columns ≡ columns.now) }
{
    table_of(alloc, columns.duplicate(alloc)?, rows)
}
