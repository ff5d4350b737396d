//! Generated logs, and drills with them: the bytes come from scripts/generated.py and scripts/drilled.py.
use super::calm::{Outcome, words_of};
use enf_io::calm_files::CalmFiles;
use enf_io::calm_sink::CalmSink;
use enf_io::devices::NoMemory;
use enf_io::mem_gate::MemGate;
use enf_io::turns::Turn;
use enf_run::refusals::Status;
use enf_run::run::run;
use std::alloc::Global;
use std::test::Fail;

// Does what the words of a line ask for, over a gate that takes what is given in these turns.
fn generated(alloc: Global, line: &str, writes: &[Turn]) -> Result<Outcome, NoMemory> {
    let words = words_of(alloc, line)?;
    let log = Vec::from_slice(alloc, b"@1;")?;
    let writes = Vec::from_slice(alloc, writes)?;
    let mut gate = MemGate::new(alloc, log, Vec::new(alloc), writes);
    let mut files = CalmFiles::new(alloc);
    let mut report = CalmSink::new(alloc);
    let status = run(alloc, &words, &mut gate, &mut files, &mut report);
    Ok(Outcome {
        status,
        output: Vec::from_slice(alloc, gate.given())?,
        report: Vec::from_slice(alloc, report.given())?,
    })
}

#[test]
fn logs_and_counts_are_given(rt: HostRuntime) -> Result<(), Fail> {
    let alloc = rt.alloc();
    let two =
        b"@6 delete(\"u11\") consent(\"u11\");\n@8 use(\"u6\") lock(\"u15\") lock(\"u12\");\n";
    let drilled = b"steps 2 inserted 1 caused 2 suppressed 1 kept 1 pending 2\n";
    for (line, writes, status, output) in [
        ("gen 0 0", [].as_slice(), Status::Done, b"".as_slice()),
        (
            "gen 1 2",
            &[Turn::Take(3), Turn::Take(5)],
            Status::Done,
            two,
        ),
        ("gen 0000000001 0000000002", &[], Status::Done, two),
        ("gen 2147483647 1", &[], Status::Done, b"@1 use(\"u14\");\n"),
        (
            "gen 1 2",
            &[Turn::Take(9), Turn::Fail],
            Status::WriteFault,
            &two[..9],
        ),
        (
            "drill 0 0",
            &[],
            Status::Done,
            b"steps 0 inserted 0 caused 0 suppressed 0 kept 0 pending 0\n",
        ),
        ("drill 1 2", &[Turn::Take(3)], Status::Done, drilled),
        (
            "drill 1 2",
            &[Turn::Take(9), Turn::Fail],
            Status::WriteFault,
            &drilled[..9],
        ),
        (
            "drill 1 200000",
            &[],
            Status::Done,
            b"steps 200000 inserted 84365 caused 99751 suppressed 3920 kept 16 pending 6\n",
        ),
    ] {
        let outcome = generated(alloc, line, writes)?;
        outcome.assert_is(&rt, line, status, output, b"");
    }
    Ok(())
}

#[test]
fn a_million_steps_are_given(rt: HostRuntime) -> Result<(), Fail> {
    let whole = generated(rt.alloc(), "gen 1 1000000", &[])?;
    let last_line = b"\n@3496291 request(\"u6\") consent(\"u9\");\n";
    assert!(rt; whole.status == Status::Done && whole.output.len() == 28_655_581);
    assert!(rt; whole.output.ends_with(last_line));
    let cut = generated(
        rt.alloc(),
        "gen 1 1000000",
        &[Turn::All, Turn::Take(7), Turn::Fail],
    )?;
    assert!(rt; cut.status == Status::WriteFault && whole.output.starts_with(&cut.output));
    Ok(())
}
