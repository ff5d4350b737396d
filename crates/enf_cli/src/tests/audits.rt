//! Audits, with the bytes that they are to give.
use super::calm::{CONSENT, ERASE, Outcome, SIGNATURE, audit_words, audited, files_of};
use enf_io::calm_sink::CalmSink;
use enf_io::devices::NoMemory;
use enf_io::mem_gate::MemGate;
use enf_io::turns::Turn;
use enf_run::refusals::Status;
use enf_run::run::run;
use std::alloc::Global;
use std::test::Fail;

const LAWFUL: &[u8] = b"@5 request(\"a\");\n+35 delete(\"a\");\n@40;\n";

#[test]
fn a_log_holds_or_not(rt: HostRuntime) -> Result<(), Fail> {
    let alloc = rt.alloc();
    for (name, policy, log, status, want) in [
        (
            "no consent",
            CONSENT,
            b"@1 use(\"a\");".as_slice(),
            Status::Violated,
            b"violated consent at position 0\n".as_slice(),
        ),
        ("nothing used", CONSENT, b"@1;", Status::Done, b"holds\n"),
        ("no record", CONSENT, b" \n", Status::Done, b"holds\n"),
        ("inserted in time", ERASE, LAWFUL, Status::Done, b"holds\n"),
        (
            "the end within the window",
            ERASE,
            b"@1; @5 request(\"a\"); >9;",
            Status::Violated,
            b"violated erase at position 1\n",
        ),
        (
            "the least position, and the greatest time",
            ERASE,
            b"@5 request(\"a\"); @9 request(\"b\"); @9 delete(\"a\"); +2000000000000000 delete(\"b\");",
            Status::Violated,
            b"violated erase at position 1\n",
        ),
    ] {
        let outcome = audited(alloc, SIGNATURE, policy, log, Vec::new(alloc))?;
        outcome.assert_is(&rt, name, status, want, b"");
    }
    Ok(())
}

#[test]
fn a_refused_record_ends_an_audit(rt: HostRuntime) -> Result<(), Fail> {
    let alloc = rt.alloc();
    for (name, log, report) in [
        (
            "below a tick",
            b"@5; >9; @7;".as_slice(),
            b"record 3: time 7 is below 9\n".as_slice(),
        ),
        (
            "below an inserted step",
            b"+9; @7 use(\"a\");",
            b"record 2: time 7 is below 9\n",
        ),
        (
            "an unknown name",
            b"@1 x();",
            b"record 1: unknown name at 3\n",
        ),
        ("no end", b"@1; @2", b"record 2: truncated\n"),
    ] {
        let outcome = audited(alloc, SIGNATURE, CONSENT, log, Vec::new(alloc))?;
        outcome.assert_is(&rt, name, Status::Record, b"", report);
    }
    Ok(())
}

// Audits the log under `erase` over a gate with these turns.
fn audited_in_turns(
    alloc: Global,
    log: &[u8],
    reads: &[Turn],
    writes: &[Turn],
) -> Result<Outcome, NoMemory> {
    let words = audit_words(alloc)?;
    let mut files = files_of(alloc, SIGNATURE, ERASE)?;
    let log = Vec::from_slice(alloc, log)?;
    let reads = Vec::from_slice(alloc, reads)?;
    let writes = Vec::from_slice(alloc, writes)?;
    let mut gate = MemGate::new(alloc, log, reads, writes);
    let mut report = CalmSink::new(alloc);
    let status = run(alloc, &words, &mut gate, &mut files, &mut report);
    Ok(Outcome {
        status,
        output: Vec::from_slice(alloc, gate.given())?,
        report: Vec::from_slice(alloc, report.given())?,
    })
}

#[test]
fn pieces_and_faults_of_an_audit(rt: HostRuntime) -> Result<(), Fail> {
    let alloc = rt.alloc();
    for cut in 1..LAWFUL.len() {
        let outcome = audited_in_turns(alloc, LAWFUL, &[Turn::Take(cut), Turn::Take(1)], &[])?;
        outcome.assert_is(&rt, "in pieces", Status::Done, b"holds\n", b"");
    }
    let cut = [Turn::Take(20), Turn::Fail];
    let outcome = audited_in_turns(alloc, LAWFUL, &cut, &[])?;
    outcome.assert_is(&rt, "a read", Status::ReadFault, b"", b"read fault\n");
    let writes = [Turn::Take(4), Turn::Fail];
    let outcome = audited_in_turns(alloc, b"@5 request(\"a\");", &[], &writes)?;
    outcome.assert_is(&rt, "a write", Status::WriteFault, b"viol", b"");
    Ok(())
}
