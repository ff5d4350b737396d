//! Holds what the libraries answer to cases against what is wanted: a line of standard input is a kind, a blank, an
//! input, ` => ` and the wanted answer, from outside. An empty line, and one that begins with `#`, is no case. Standard
//! output has the cases that do not hold, each with what was answered, and at its end how many hold.
//! An input writes `\n`, `\r`, `\t`, `\\` and `\xNN` for bytes that a line cannot hold, and ` =>\x20` for ` => `.
#![tactic(auto)]

mod audits;
mod case;
mod enforcing;
mod escapes;
mod evaluations;
mod guards;
mod holds;
mod kinds;
mod logs;
mod long_runs;
mod output;
mod parts;
mod past;
mod policies;
mod reports;
mod running;
mod saved;
mod signatures;
mod tables;
mod tally;
mod typing;
mod values;
mod window_runs;

use case::CaseError;
use kinds::{answer_kind, kind_of};
use output::Output;
use parts::cut;
use std::alloc::Global;
use std::io;
use std::io::{BufRead, BufReader, Write};
use tally::Tally;

fn main(rt: HostRuntime) -> io::Result<()> {
    let mut output = io::writer(&rt);
    let mut tally = Tally::new();
    for line in BufReader::new(rt.alloc(), rt.reader())?.lines(rt.alloc()) {
        tally.line();
        check_line(rt.alloc(), line?.as_str(), &mut tally, &mut output)?;
    }
    tally.write(&mut output)
}

// Checks the case of a line, where it has one.
fn check_line<W: Write>(
    alloc: Global,
    line: &str,
    tally: &mut Tally,
    output: &mut W,
) -> io::Result<()> {
    match line.as_bytes() {
        [] | [b'#', ..] => Ok(()),
        _ => check_case(alloc, line, tally, output),
    }
}

// Holds the answer to a case against the wanted one. A case that wants none does not hold.
fn check_case<W: Write>(
    alloc: Global,
    line: &str,
    tally: &mut Tally,
    output: &mut W,
) -> io::Result<()> {
    let (case, wanted) = match line.split_once(" => ") {
        Some((case, wanted)) => (case, Some(wanted.as_bytes())),
        None => (line, None),
    };
    let mut out = Output::new(alloc);
    let answered = answer_case(alloc, case.as_bytes(), &mut out);
    tally.case(line, out.text(answered), wanted, output)
}

// Prints the answer to a case.
fn answer_case(alloc: Global, case: &[u8], out: &mut Output) -> Result<(), CaseError> {
    let (name, input) = cut(case, b' ').unwrap_or((case, &[]));
    let kind = kind_of(name)?;
    answer_kind(alloc, kind, &escapes::unescaped(alloc, input)?, out)
}
