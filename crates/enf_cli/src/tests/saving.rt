//! States that are saved, and resumed.
use super::calm::{DELETED_AT_35, ERASE, Outcome, files_of, words_of};
use enf_io::calm_gate::CalmGate;
use enf_io::calm_sink::CalmSink;
use enf_io::devices::{Files, NoMemory};
use enf_io::mem_files::MemFiles;
use enf_run::refusals::Status;
use enf_run::run::run;
use std::alloc::Global;
use std::test::Fail;

const SIGNATURE: &[u8] = b"request(text); delete(text) +;";

const LOG: &[u8] = b"@5 request(\"a\");";

const FRONT: &[u8] = b"enfstate 1
signature 30
request(text); delete(text) +;
policy 63
rule erase: forall u. request(u) -> eventually[0,30] delete(u);
clock 5
last 5
position 1
";

// Another policy under the signature.
const AT_ONCE: &[u8] = b"rule at_once: forall u. request(u) -> delete(u);";

const DUE_AT_35: &[u8] = b"due 0 1 0 5 35 \"a\"\nend\n";

// The state after the log, with these lines from what is pending on.
fn state_with(alloc: Global, lines: &[u8]) -> Result<Vec<u8>, NoMemory> {
    let mut state = Vec::from_slice(alloc, FRONT)?;
    state.extend_from_slice(lines)?;
    Ok(state)
}

// What a run left that was to save its state: on its devices, and under the name, nothing where there is no file.
#[derive(Drop)]
struct Saved {
    outcome: Outcome,
    state: Vec<u8>,
}

// Enforces `erase` on the log over these files, and saves the state.
fn enforced_and_saved<F: Files>(
    alloc: Global,
    files: &mut F,
    log: &[u8],
) -> Result<Saved, NoMemory> {
    let words = words_of(alloc, "enforce sig pol --save state")?;
    let mut gate = CalmGate::new(alloc, Vec::from_slice(alloc, log)?, Vec::new(alloc));
    let mut report = CalmSink::new(alloc);
    let status = run(alloc, &words, &mut gate, files, &mut report);
    Ok(Saved {
        outcome: Outcome {
            status,
            output: Vec::from_slice(alloc, gate.given())?,
            report: Vec::from_slice(alloc, report.given())?,
        },
        state: files.read("state", 1_000).unwrap_or(Vec::new(alloc)),
    })
}

#[test]
fn a_state_is_saved_in_place_of_the_drain(rt: HostRuntime) -> Result<(), Fail> {
    let alloc = rt.alloc();
    let mut files = files_of(alloc, SIGNATURE, ERASE)?;
    let saved = enforced_and_saved(alloc, &mut files, LOG)?;
    let output = b"@5 request(\"a\");\n";
    saved
        .outcome
        .assert_is(&rt, "saved", Status::Done, output, b"");
    assert!(rt; saved.state == state_with(alloc, DUE_AT_35)?);
    Ok(())
}

#[test]
fn behind_a_refused_record_nothing_is_saved(rt: HostRuntime) -> Result<(), Fail> {
    let alloc = rt.alloc();
    let mut files = files_of(alloc, SIGNATURE, ERASE)?;
    let saved = enforced_and_saved(alloc, &mut files, b"@5 request(\"a\"); @4;")?;
    let output = b"@5 request(\"a\");\n+35 delete(\"a\");\n";
    let report =
        b"cause delete(\"a\") at 35 step 1 rule erase node 1 leaf 2 origin 0 u=\"a\"\nrecord 2: time 4 is below 5\n";
    saved
        .outcome
        .assert_is(&rt, "refused", Status::Record, output, report);
    assert!(rt; saved.state.is_empty());
    Ok(())
}

#[test]
fn a_write_of_the_state_that_fails_is_a_write_fault(rt: HostRuntime) -> Result<(), Fail> {
    let alloc = rt.alloc();
    // After the two reads.
    let mut files = MemFiles::new(alloc, Vec::from_slice(alloc, &[2])?);
    files.put("sig", Vec::from_slice(alloc, SIGNATURE)?)?;
    files.put("pol", Vec::from_slice(alloc, ERASE)?)?;
    let saved = enforced_and_saved(alloc, &mut files, LOG)?;
    let output = b"@5 request(\"a\");\n";
    saved
        .outcome
        .assert_is(&rt, "failed", Status::WriteFault, output, b"");
    Ok(())
}

// Enforces the policy on `@40;`, from the state with these lines on.
fn resumed(alloc: Global, policy: &[u8], lines: &[u8]) -> Result<Outcome, NoMemory> {
    let words = words_of(alloc, "enforce sig pol --resume state")?;
    let mut files = files_of(alloc, SIGNATURE, policy)?;
    files.put("state", state_with(alloc, lines)?)?;
    let mut gate = CalmGate::new(alloc, Vec::from_slice(alloc, b"@40;")?, Vec::new(alloc));
    let mut report = CalmSink::new(alloc);
    let status = run(alloc, &words, &mut gate, &mut files, &mut report);
    Ok(Outcome {
        status,
        output: Vec::from_slice(alloc, gate.given())?,
        report: Vec::from_slice(alloc, report.given())?,
    })
}

#[test]
fn what_is_pending_in_a_state_is_served(rt: HostRuntime) -> Result<(), Fail> {
    let outcome = resumed(rt.alloc(), ERASE, DUE_AT_35)?;
    let output = b"+35 delete(\"a\");\n@40;\n";
    outcome.assert_is(&rt, "resumed", Status::Done, output, DELETED_AT_35);
    Ok(())
}

#[test]
fn a_refused_state_is_told(rt: HostRuntime) -> Result<(), Fail> {
    let alloc = rt.alloc();
    for (policy, lines, report) in [
        (AT_ONCE, DUE_AT_35, b"state: other policy\n".as_slice()),
        (
            ERASE,
            b"due 0 1 0 5 36 \"a\"\nend\n",
            b"state: inconsistent at line 4\n",
        ),
        (
            ERASE,
            b"due 0 1 0 5 35 \"a\"\nend",
            b"state: syntax at line 5\n",
        ),
    ] {
        let outcome = resumed(alloc, policy, lines)?;
        outcome.assert_is(&rt, "refused", Status::Files, b"", report);
    }
    Ok(())
}
