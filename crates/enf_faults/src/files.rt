//! Files whose calls fail, and runs that resume what another saved.
use crate::reads::{fails_behind, is_cut_off};
use crate::runs::{ENFORCE, Left, RESUME, SAVE, Texts, Turns, enforced, ran};
use crate::scan::record_ends;
use crate::table::Table;
use enf_io::devices::NoMemory;
use enf_run::refusals::Status;
use std::alloc::Global;

// No run makes more calls for files.
const MOST_CALLS: u64 = 8;

/// Each call for a file fails in turn, under words that save nothing, that save a state, and that resume one.
pub fn failing(alloc: Global, texts: &Texts, table: &mut Table) -> Result<(), NoMemory> {
    let saved = ran(alloc, SAVE, texts, b"", b"", Turns::calm(alloc))?;
    for words in [ENFORCE, SAVE, RESUME] {
        let wanted = ran(
            alloc,
            words,
            texts,
            &saved.state,
            &texts.log,
            Turns::calm(alloc),
        )?;
        for call in 0..MOST_CALLS {
            let mut turns = Turns::calm(alloc);
            turns.failing_files = Vec::from_slice(alloc, &[call])?;
            let left = ran(alloc, words, texts, &saved.state, &texts.log, turns)?;
            if left.status == Status::Done {
                break;
            }
            table.row(
                words,
                usize::try_from(call).unwrap_or(0),
                &left,
                is_refused(&left, &wanted),
            )?;
        }
    }
    Ok(())
}

// Whether a run that could not read a file gave nothing, and one that could not save gave all.
fn is_refused(left: &Left, wanted: &Left) -> bool {
    match left.status {
        Status::ReadFault => left.output.is_empty()
            && left.report.as_slice() == b"read fault\n".as_slice(),
        Status::WriteFault => left.output == wanted.output && left.report == wanted.report,
        _ => false,
    }
}

/// After each record the state is saved and resumed, and a read of the rest fails after each of its bytes: both runs
/// together give what is wanted of the records before it.
pub fn resumed(alloc: Global, texts: &Texts, table: &mut Table) -> Result<(), NoMemory> {
    let ends = record_ends(alloc, &texts.log)?;
    for end in ends.iter() {
        let (front, rest) = texts.log.split_at_checked(*end).unwrap_or((b"", b""));
        let first = ran(alloc, SAVE, texts, b"", front, Turns::calm(alloc))?;
        table.row(
            "saved after byte",
            *end,
            &first,
            first.status == Status::Done,
        )?;
        resumed_after(alloc, texts, &first, front, rest, table)?;
    }
    Ok(())
}

// The rest of the log is enforced from the state that the first run saved, and a read fails after each of its bytes.
fn resumed_after(
    alloc: Global,
    texts: &Texts,
    first: &Left,
    front: &[u8],
    rest: &[u8],
    table: &mut Table,
) -> Result<(), NoMemory> {
    let ends = record_ends(alloc, &texts.log)?;
    let mut wanted = enforced(alloc, texts, front)?;
    for cut in 0..rest.len().saturating_add(1) {
        let behind = front.len().saturating_add(cut);
        if ends.contains(&behind) {
            wanted = enforced(alloc, texts, texts.log.get(..behind).unwrap_or(b""))?;
        }
        let mut turns = Turns::calm(alloc);
        turns.reads = fails_behind(alloc, cut, 7)?;
        let left = ran(alloc, RESUME, texts, &first.state, rest, turns)?;
        let holds = is_cut_off(&left, &first.output, &first.report, &wanted);
        table.row("resumed, a read fails after byte", behind, &left, holds)?;
    }
    Ok(())
}
