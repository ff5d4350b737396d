//! Words that match no form, and files that are not there.
use super::calm::{RAISE, SIGNATURE, files_of, words_of};
use enf_io::calm_gate::CalmGate;
use enf_io::calm_sink::CalmSink;
use enf_run::refusals::Status;
use enf_run::run::run;
use std::test::Fail;

const USAGE: &[u8] =
    b"usage: enf enforce SIG POLICY [--resume FILE] [--save FILE] | check SIG POLICY \
      | audit SIG POLICY | gen START N | drill START N\n";

#[test]
fn words_and_missing_files_are_told(rt: HostRuntime) -> Result<(), Fail> {
    let alloc = rt.alloc();
    for (line, status, report) in [
        ("enforce", Status::Words, USAGE),
        ("enforce sig pol --save", Status::Words, USAGE),
        ("enforce sig pol save state", Status::Words, USAGE),
        (
            "enforce sig pol --save state --resume state",
            Status::Words,
            USAGE,
        ),
        ("check sig pol --save state", Status::Words, USAGE),
        ("audit sig pol --resume state", Status::Words, USAGE),
        ("check sig", Status::Words, USAGE),
        ("check sig pol more", Status::Words, USAGE),
        ("checks sig pol", Status::Words, USAGE),
        ("--help", Status::Words, USAGE),
        ("gen 1", Status::Words, USAGE),
        ("gen 1 2 3", Status::Words, USAGE),
        ("gen  2", Status::Words, USAGE),
        ("gen 1 +2", Status::Words, USAGE),
        ("gen -1 2", Status::Words, USAGE),
        ("gen 0x1 2", Status::Words, USAGE),
        ("gen 1 ２", Status::Words, USAGE),
        ("gen 2147483648 1", Status::Words, USAGE),
        ("gen 4294967297 1", Status::Words, USAGE),
        ("gen 1 1000001", Status::Words, USAGE),
        ("gen 00000000001 2", Status::Words, USAGE),
        ("drill 1 1000001", Status::Words, USAGE),
        ("enforce missing pol", Status::ReadFault, b"read fault\n"),
        ("enforce sig missing", Status::ReadFault, b"read fault\n"),
        (
            "enforce sig pol --resume missing",
            Status::ReadFault,
            b"read fault\n",
        ),
        ("check missing pol", Status::ReadFault, b"read fault\n"),
        ("check sig missing", Status::ReadFault, b"read fault\n"),
    ] {
        let words = words_of(alloc, line)?;
        let mut files = files_of(alloc, SIGNATURE, RAISE)?;
        let log = Vec::from_slice(alloc, b"@1;")?;
        let mut gate = CalmGate::new(alloc, log, Vec::new(alloc));
        let mut sink = CalmSink::new(alloc);
        let answered = run(alloc, &words, &mut gate, &mut files, &mut sink);
        assert_eq!(rt; answered, status, "{line}");
        assert_eq!(rt; sink.given(), report, "{line}");
        assert!(rt; gate.given().is_empty(), "{line}");
    }
    Ok(())
}
