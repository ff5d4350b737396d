//! Runs over a gate or a report that takes only pieces, or fails.
use super::calm::{DELETED_AT_35, ERASE, Outcome, SIGNATURE, enforce_words, files_of};
use enf_io::calm_sink::CalmSink;
use enf_io::devices::NoMemory;
use enf_io::mem_gate::MemGate;
use enf_io::mem_sink::MemSink;
use enf_io::turns::Turn;
use enf_run::endings::{Cut, Ending};
use enf_run::refusals::Status;
use enf_run::report_lines::report_ending;
use enf_run::run::run;
use std::alloc::Global;
use std::test::Fail;

// Enforces `erase` on the log over devices with these turns.
fn enforced_in_turns(
    alloc: Global,
    log: &[u8],
    reads: &[Turn],
    writes: &[Turn],
    report_writes: &[Turn],
) -> Result<Outcome, NoMemory> {
    let words = enforce_words(alloc)?;
    let mut files = files_of(alloc, SIGNATURE, ERASE)?;
    let log = Vec::from_slice(alloc, log)?;
    let reads = Vec::from_slice(alloc, reads)?;
    let writes = Vec::from_slice(alloc, writes)?;
    let mut gate = MemGate::new(alloc, log, reads, writes);
    let mut report = MemSink::new(alloc, Vec::from_slice(alloc, report_writes)?);
    let status = run(alloc, &words, &mut gate, &mut files, &mut report);
    Ok(Outcome {
        status,
        output: Vec::from_slice(alloc, gate.given())?,
        report: Vec::from_slice(alloc, report.given())?,
    })
}

// Two records, of 16 and 4 bytes, and what is to be given for them.
const LOG: &[u8] = b"@5 request(\"a\"); @40;";

const ANSWER: &[u8] = b"@5 request(\"a\");\n+35 delete(\"a\");\n@40;\n";

// What is given once so many bytes of the log were taken.
fn answer_to(taken: usize) -> &'static [u8] {
    if taken < 16 {
        b""
    } else if taken < LOG.len() {
        b"@5 request(\"a\");\n"
    } else {
        ANSWER
    }
}

// And what is owed to them in all, where the second record is not whole.
fn owed_to(taken: usize) -> &'static [u8] {
    if taken < 16 {
        b""
    } else {
        b"@5 request(\"a\");\n+35 delete(\"a\");\n"
    }
}

// And what is said of that, and of the read that failed.
fn said_of(taken: usize) -> &'static [u8] {
    if taken < 16 {
        b"read fault\n"
    } else {
        b"cause delete(\"a\") at 35 step 1 rule erase node 1 leaf 2 origin 0 u=\"a\"\nread fault\n"
    }
}

// Whether `erase` makes this of the log, where the first read takes so many bytes, with these marks at the reads.
fn answers_before_each_read(
    alloc: Global,
    log: &[u8],
    cut: usize,
    given: &[u8],
    marks: &[(u64, u64)],
) -> Result<bool, NoMemory> {
    let words = enforce_words(alloc)?;
    let mut files = files_of(alloc, SIGNATURE, ERASE)?;
    let log = Vec::from_slice(alloc, log)?;
    let reads = Vec::from_slice(alloc, &[Turn::Take(cut)])?;
    let mut gate = MemGate::new(alloc, log, reads, Vec::new(alloc));
    let mut report = MemSink::new(alloc, Vec::new(alloc));
    let status = run(alloc, &words, &mut gate, &mut files, &mut report);
    Ok(status == Status::Done && gate.given() == given && gate.marks() == marks)
}

#[test]
fn each_record_is_answered_before_the_next_read(rt: HostRuntime) -> Result<(), Fail> {
    for cut in 1..LOG.len() {
        let marks = [(0, 0), (cut as u64, answer_to(cut).len() as u64), (21, 39)];
        assert!(rt;
            answers_before_each_read(rt.alloc(), LOG, cut, ANSWER, &marks)?,
            "cut after {cut}"
        );
    }
    Ok(())
}

#[test]
fn a_tick_serves_the_deadlines_below_it(rt: HostRuntime) -> Result<(), Fail> {
    let log = b"@5 request(\"a\"); >35;>36;";
    let given = b"@5 request(\"a\");\n+35 delete(\"a\");\n";
    let marks = [(0, 0), (21, 17), (25, 34)];
    assert!(rt; answers_before_each_read(rt.alloc(), log, 21, given, &marks)?);
    Ok(())
}

#[test]
fn a_read_that_fails_after_each_byte(rt: HostRuntime) -> Result<(), Fail> {
    for cut in 1..LOG.len() {
        let reads = [Turn::Take(cut), Turn::Fail];
        let outcome = enforced_in_turns(rt.alloc(), LOG, &reads, &[], &[])?;
        let answer = owed_to(cut);
        let report = said_of(cut);
        outcome.assert_is(&rt, "a cut", Status::ReadFault, answer, report);
    }
    Ok(())
}

#[test]
fn a_read_fault_keeps_the_whole_records(rt: HostRuntime) -> Result<(), Fail> {
    let alloc = rt.alloc();
    let log = b"@5 request(\"a\"); @6 request(\"b\"); @2;";
    for (name, reads, output, status, report) in [
        (
            "behind a record",
            [Turn::Take(16), Turn::Fail].as_slice(),
            b"@5 request(\"a\");\n+35 delete(\"a\");\n".as_slice(),
            Status::ReadFault,
            b"cause delete(\"a\") at 35 step 1 rule erase node 1 leaf 2 origin 0 u=\"a\"\nread fault\n".as_slice(),
        ),
        (
            "within the second",
            &[Turn::Take(10), Turn::Take(12), Turn::Fail],
            b"@5 request(\"a\");\n+35 delete(\"a\");\n",
            Status::ReadFault,
            b"cause delete(\"a\") at 35 step 1 rule erase node 1 leaf 2 origin 0 u=\"a\"\nread fault\n",
        ),
        (
            "at once",
            &[Turn::Fail],
            b"",
            Status::ReadFault,
            b"read fault\n",
        ),
        (
            "behind a refused record",
            &[Turn::All, Turn::Fail],
            b"@5 request(\"a\");\n@6 request(\"b\");\n+35 delete(\"a\");\n+36 delete(\"b\");\n",
            Status::Record,
            b"cause delete(\"a\") at 35 step 2 rule erase node 1 leaf 2 origin 0 u=\"a\"\n\
              cause delete(\"b\") at 36 step 3 rule erase node 1 leaf 2 origin 1 u=\"b\"\n\
              record 3: time 2 is below 6\n",
        ),
    ] {
        let outcome = enforced_in_turns(alloc, log, reads, &[], &[])?;
        outcome.assert_is(&rt, name, status, output, report);
    }
    Ok(())
}

#[test]
fn a_write_is_finished_by_further_writes(rt: HostRuntime) -> Result<(), Fail> {
    let alloc = rt.alloc();
    let log = b"@5 request(\"a\"); @7; @6;";
    let threes = vec![in alloc; Turn::Take(3); 20]?;
    let outcome = enforced_in_turns(alloc, log, &[], &threes, &threes)?;
    outcome.assert_is(
        &rt,
        "three bytes a write",
        Status::Record,
        b"@5 request(\"a\");\n@7;\n+35 delete(\"a\");\n",
        b"cause delete(\"a\") at 35 step 2 rule erase node 1 leaf 2 origin 0 u=\"a\"\n\
          record 3: time 6 is below 7\n",
    );
    Ok(())
}

#[test]
fn a_write_fault_ends_the_run(rt: HostRuntime) -> Result<(), Fail> {
    let alloc = rt.alloc();
    let log = b"@5 request(\"a\"); @40 request(\"b\"); foo";
    for (name, writes, report_writes, status, output, report) in [
        (
            "at once",
            [Turn::Fail].as_slice(),
            [].as_slice(),
            Status::WriteFault,
            b"".as_slice(),
            b"".as_slice(),
        ),
        (
            "within an inserted step",
            &[Turn::All, Turn::Take(4), Turn::Fail],
            &[],
            Status::WriteFault,
            b"@5 request(\"a\");\n+35 ",
            b"",
        ),
        (
            "within the drain",
            &[Turn::All, Turn::All, Turn::All, Turn::Take(4), Turn::Fail],
            &[],
            Status::WriteFault,
            b"@5 request(\"a\");\n+35 delete(\"a\");\n@40 request(\"b\");\n+70 ",
            DELETED_AT_35,
        ),
        (
            "in the line of an action",
            &[],
            &[Turn::Take(4), Turn::Fail],
            Status::WriteFault,
            b"@5 request(\"a\");\n+35 delete(\"a\");\n",
            b"caus",
        ),
        (
            "in that of an action of the drain",
            &[],
            &[Turn::All, Turn::Fail],
            Status::WriteFault,
            b"@5 request(\"a\");\n+35 delete(\"a\");\n@40 request(\"b\");\n+70 delete(\"b\");\n",
            DELETED_AT_35,
        ),
        (
            "in the last line of the report",
            &[],
            &[Turn::All, Turn::All, Turn::Take(4), Turn::Fail],
            Status::Record,
            b"@5 request(\"a\");\n+35 delete(\"a\");\n@40 request(\"b\");\n+70 delete(\"b\");\n",
            b"cause delete(\"a\") at 35 step 1 rule erase node 1 leaf 2 origin 0 u=\"a\"\n\
              cause delete(\"b\") at 70 step 3 rule erase node 1 leaf 2 origin 2 u=\"b\"\nreco",
        ),
    ] {
        let outcome = enforced_in_turns(alloc, log, &[], writes, report_writes)?;
        outcome.assert_is(&rt, name, status, output, report);
    }
    Ok(())
}

// No clause says that the line is there: a sink that has no memory takes nothing of it.
#[test]
fn want_of_memory_has_its_line(rt: HostRuntime) -> Result<(), Fail> {
    let mut report = CalmSink::new(rt.alloc());
    let status = report_ending(&Ending::Cut(Cut::NoMemory), &mut report);
    assert!(rt; status == Status::NoMemory && report.given() == b"no memory\n".as_slice());
    Ok(())
}
