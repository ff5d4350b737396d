//! Logs: the records that are read of them, and how they end.
ghost use Rattle.std.specs.Prelude.{◌≡◌, ◌<◌, None};
ghost use Rattle.log_stream.specs.meaning.LogGrammar.{IsPending};

use crate::case::CaseError;
use crate::output::Output;
use crate::parts::read_signature;
use enf_data::Duplicate;
use log_stream::{Found, LogItem, LogMode, LogReader, LogRefusal};
use signature::Signature;
use std::alloc::Global;

// The names of all logs.
const SIGNATURE: &[u8] = b"go(); ping(); num(int); txt(text); two(int,text);";

/// The line of each record and how the log ends, read as a whole and byte by byte.
pub fn answer(alloc: Global, mode: LogMode, log: &[u8], out: &mut Output) -> Result<(), CaseError> {
    let names = read_signature(alloc, SIGNATURE)?;
    let slow = read_log(alloc, &names, mode, log, 1)?;
    let fast = read_log(alloc, &names, mode, log, 65_536)?;
    print_both(slow.text(Ok(())), fast.text(Ok(())), out);
    Ok(())
}

fn print_both(slow: &[u8], fast: &[u8], out: &mut Output) {
    if slow != fast {
        out.bytes(b"byte by byte: ");
        out.bytes(slow);
        out.bytes(b", as a whole: ");
    }
    out.bytes(fast);
}

// What is read of a log that comes in pieces of a size.
fn read_log(
    alloc: Global,
    names: &Signature,
    mode: LogMode,
    log: &[u8],
    size: usize,
) -> Result<Output, CaseError>
    requires { 0 < size }
{
    let mut out = Output::new(alloc);
    let mut reader = LogReader::new(alloc, names.duplicate(alloc)?, mode);
    read_pieces(alloc, names, &mut reader, log, size, &mut out)?;
    Ok(out)
}

fn read_pieces(
    alloc: Global,
    names: &Signature,
    reader: &mut LogReader,
    log: &[u8],
    size: usize,
    out: &mut Output,
) -> Result<(), CaseError>
    requires { 0 < size }
{
    let mut from = 0;
    loop {
        if let Some(refusal) = read_on(alloc, names, reader, out) {
            print_refusal(refusal, out);
            return Ok(());
        }
        if from >= log.len() {
            print_end(reader.end(), out);
            return Ok(());
        }
        let piece = size.min(log.len() - from);
        reader.feed(&log[from..from + piece])?;
        from += piece;
    }
}

// Reads the records that are whole, up to a refusal, where there is one.
fn read_on(
    alloc: Global,
    names: &Signature,
    reader: &mut LogReader,
    out: &mut Output,
) -> Option<LogRefusal>
    ensures { result ≡ None → reader.new.refused ≡ None → IsPending reader.new.rest }
{
    loop {
        match reader.next_record(alloc) {
            Ok(Found::Item(item)) => print_item(names, item, out),
            Ok(Found::Pending) => return None,
            Err(refusal) => return Some(refusal),
        }
    }
}

fn print_item(names: &Signature, item: LogItem, out: &mut Output) {
    match item {
        LogItem::Step { kind, time, events } => out.step(names, kind, time, &events),
        LogItem::Tick { time } => {
            out.bytes(b">");
            out.number(time);
            out.bytes(b"; ");
        }
    }
}

fn print_end(end: Result<(), LogRefusal>, out: &mut Output) {
    match end {
        Ok(()) => out.bytes(b"end"),
        Err(refusal) => print_refusal(refusal, out),
    }
}

fn print_refusal(refusal: LogRefusal, out: &mut Output) {
    match refusal {
        LogRefusal::BadRecord { place } => out.place(b"bad", place),
        LogRefusal::UnknownName { place } => out.place(b"unknown name", place),
        LogRefusal::Arity { place } => out.place(b"arity", place),
        LogRefusal::SortClash { place } => out.place(b"sort", place),
        LogRefusal::TooLong => out.bytes(b"too long"),
        LogRefusal::TimeTooLarge => out.bytes(b"time too large"),
        LogRefusal::Truncated => out.bytes(b"truncated"),
        LogRefusal::NoMemory => out.no_memory(),
    }
}
