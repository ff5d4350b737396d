//! Reads that take pieces of a log, and reads that fail after some of its bytes.
use crate::runs::{ENFORCE, Left, Texts, Turns, enforced, ran, repeated};
use crate::scan::record_ends;
use crate::table::Table;
use enf_io::devices::NoMemory;
use enf_io::turns::Turn;
use enf_run::refusals::Status;
use std::alloc::Global;

// How many bytes a read or a write takes at most.
const PIECES: [usize; 4] = [1, 2, 7, 64];

/// A log that comes in pieces, and whose output and report are taken in pieces.
pub fn in_pieces(alloc: Global, texts: &Texts, table: &mut Table) -> Result<(), NoMemory> {
    let wanted = enforced(alloc, texts, &texts.log)?;
    for piece in PIECES {
        let turn = Turn::Take(piece);
        let turns = Turns {
            reads: repeated(alloc, turn, texts.log.len())?,
            writes: repeated(alloc, turn, wanted.output.len())?,
            report_writes: repeated(alloc, turn, wanted.report.len())?,
            failing_files: Vec::new(alloc),
        };
        let left = ran(alloc, ENFORCE, texts, b"", &texts.log, turns)?;
        let holds = left.status == Status::Done
            && left.output == wanted.output
            && left.report == wanted.report;
        table.row("pieces of", piece, &left, holds)?;
    }
    Ok(())
}

/// A log of which a read fails after each of its bytes: what is owed to the records before it is given, all of it.
pub fn failing(alloc: Global, texts: &Texts, table: &mut Table) -> Result<(), NoMemory> {
    let ends = record_ends(alloc, &texts.log)?;
    let mut wanted = enforced(alloc, texts, b"")?;
    for cut in 0..texts.log.len().saturating_add(1) {
        if ends.contains(&cut) {
            wanted = enforced(alloc, texts, texts.log.get(..cut).unwrap_or(b""))?;
        }
        fails_after(alloc, texts, cut, &wanted, table)?;
    }
    Ok(())
}

// The read after so many bytes fails, which came at once or in pieces.
fn fails_after(
    alloc: Global,
    texts: &Texts,
    cut: usize,
    wanted: &Left,
    table: &mut Table,
) -> Result<(), NoMemory> {
    for piece in PIECES {
        let mut turns = Turns::calm(alloc);
        turns.reads = fails_behind(alloc, cut, piece)?;
        let left = ran(alloc, ENFORCE, texts, b"", &texts.log, turns)?;
        let holds = is_cut_off(&left, b"", b"", wanted);
        table.row("a read fails after byte", cut, &left, holds)?;
    }
    let mut turns = Turns::calm(alloc);
    turns.reads = fails_behind(alloc, cut, cut)?;
    let left = ran(alloc, ENFORCE, texts, b"", &texts.log, turns)?;
    let holds = is_cut_off(&left, b"", b"", wanted);
    table.row("the read after the first fails, at", cut, &left, holds)
}

/// Reads of pieces that take so many bytes in all, and then one that fails.
pub fn fails_behind(alloc: Global, cut: usize, piece: usize) -> Result<Vec<Turn>, NoMemory> {
    let whole = cut.checked_div(piece).unwrap_or(0);
    let rest = cut.checked_rem(piece).unwrap_or(cut);
    let mut turns = repeated(alloc, Turn::Take(piece), whole)?;
    if rest > 0 {
        turns.push(Turn::Take(rest))?;
    }
    turns.push(Turn::Fail)?;
    Ok(turns)
}

/// Whether a run was cut off by a read, and what it gave, after what was given before it, is all that is wanted.
pub fn is_cut_off(left: &Left, output: &[u8], report: &[u8], wanted: &Left) -> bool {
    left.status == Status::ReadFault
        && is_joined(output, &left.output, &wanted.output)
        && left
            .report
            .strip_suffix(b"read fault\n")
            .is_some_and(|said| is_joined(report, said, &wanted.report))
}

// Whether the whole is both parts together.
fn is_joined(front: &[u8], rest: &[u8], whole: &[u8]) -> bool {
    whole.strip_prefix(front) == Some(rest)
}
