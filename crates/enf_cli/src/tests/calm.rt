//! Runs over the devices that never fail.
ghost use Rattle.std.specs.Prelude.{◌≡◌, ◌≢◌, ℕ, IfOk, List, None, codes};
ghost use Rattle.enf_io.specs.machine.CalmDevices.{contents_under};
ghost use Rattle.enf_io.specs.meaning.Files.{NoFile};
ghost use Rattle.enf_run.specs.meaning.Calls.{IsAuditForm, IsCheckForm, IsEnforceForm, texts_of};
ghost use Rattle.enf_run.specs.machine.CommandForms.{NamesFiles, NamesFilesAlone, NamesResumed, states_of};

use enf_io::calm_files::CalmFiles;
use enf_io::calm_gate::CalmGate;
use enf_io::calm_sink::CalmSink;
use enf_io::devices::NoMemory;
use enf_run::refusals::Status;
use enf_run::run::run;
use std::alloc::Global;
use std::process::Abort;

/// The signature of the worked rows.
pub const SIGNATURE: &[u8] =
    b"request(text); consent(text); use(text) -; delete(text) +; unlock(text) +;\n\
      lock(text); note(text) +-; alarm() +; ping() +; pong() +;\n";

/// The policy `raise` of the worked rows.
pub const RAISE: &[u8] = b"rule raise: forall u. request(u) -> alarm();\n";

/// The policy `consent` of the worked rows.
pub const CONSENT: &[u8] = b"rule consent: forall u. use(u) -> once[0,*] consent(u);";

/// The policy `erase` of the worked rows.
pub const ERASE: &[u8] = b"rule erase: forall u. request(u) -> eventually[0,30] delete(u);";

/// What `raise` says on the report of an alarm at time 1, in the first step.
pub const RAISED_AT_1: &[u8] = b"cause alarm() at 1 step 0 rule raise node 0 leaf 1 origin 0\n";

/// What `erase` says of a deletion at time 35, in the second step, for a request in the first.
pub const DELETED_AT_35: &[u8] =
    b"cause delete(\"a\") at 35 step 1 rule erase node 1 leaf 2 origin 0 u=\"a\"\n";

/// What a run answered, and what it left on the gate and the report.
#[derive(Drop)]
pub struct Outcome {
    pub status: Status,
    pub output: Vec<u8>,
    pub report: Vec<u8>,
}

impl Outcome {
    pub fn assert_is(
        &self,
        rt: &impl Abort,
        name: &str,
        status: Status,
        output: &[u8],
        report: &[u8],
    ) {
        assert_eq!(rt; self.status, status, "{name}");
        assert!(rt; self.output.as_slice() == output, "{name}: the output");
        assert!(rt; self.report.as_slice() == report, "{name}: the report");
    }
}

/// The words `enforce sig pol`.
pub fn enforce_words(alloc: Global) -> Result<[String; 3], NoMemory>
    ensures { IfOk result (λ words. IsEnforceForm (states_of None None) (texts_of words) (codes "sig") (codes "pol")) }
{
    Ok([
        String::from_str(alloc, "enforce")?,
        String::from_str(alloc, "sig")?,
        String::from_str(alloc, "pol")?,
    ])
}

/// The words `check sig pol`.
pub fn check_words(alloc: Global) -> Result<[String; 3], NoMemory>
    ensures { IfOk result (λ words. IsCheckForm (texts_of words) (codes "sig") (codes "pol")) }
{
    Ok([
        String::from_str(alloc, "check")?,
        String::from_str(alloc, "sig")?,
        String::from_str(alloc, "pol")?,
    ])
}

/// The words `audit sig pol`.
pub fn audit_words(alloc: Global) -> Result<[String; 3], NoMemory>
    ensures { IfOk result (λ words. IsAuditForm (texts_of words) (codes "sig") (codes "pol")) }
{
    Ok([
        String::from_str(alloc, "audit")?,
        String::from_str(alloc, "sig")?,
        String::from_str(alloc, "pol")?,
    ])
}

/// The words of a line, with a blank between them.
pub fn words_of(alloc: Global, line: &str) -> Result<Vec<String>, NoMemory> {
    let mut words = Vec::new(alloc);
    for word in line.split(' ') {
        words.push(String::from_str(alloc, word)?)?;
    }
    Ok(words)
}

/// The files that those words name.
pub fn files_of(alloc: Global, signature: &[u8], policy: &[u8]) -> Result<CalmFiles, NoMemory>
    ensures signature { IfOk result (λ files. contents_under files (codes "sig") ≢ NoFile) }
    ensures policy { IfOk result (λ files. contents_under files (codes "pol") ≢ NoFile) }
{
    let mut files = CalmFiles::new(alloc);
    files.put("sig", Vec::from_slice(alloc, signature)?)?;
    files.put("pol", Vec::from_slice(alloc, policy)?)?;
    Ok(files)
}

/// Over the calm forms, where both files are there and that of a state to resume too, a run meets no fault.
pub fn run_calmly(
    alloc: Global,
    words: &[String],
    gate: &mut CalmGate,
    files: &mut CalmFiles,
    report: &mut CalmSink,
) -> Status
    requires words { NamesFiles (texts_of words.now) (codes "sig") (codes "pol") }
    requires signature { contents_under files.old (codes "sig") ≢ NoFile }
    requires policy { contents_under files.old (codes "pol") ≢ NoFile }
    requires state { (file : List ℕ) → NamesResumed (texts_of words.now) file
        → contents_under files.old file ≢ NoFile }
    ensures no_read_fault { result ≡ Status.ReadFault → ⊥ }
    ensures no_write_fault { result ≡ Status.WriteFault → ⊥ }
{
    run(alloc, words, gate, files, report)
}

/// Enforces the policy on the log, which comes in pieces of these sizes.
pub fn enforced(
    alloc: Global,
    signature: &[u8],
    policy: &[u8],
    log: &[u8],
    pieces: Vec<usize>,
) -> Result<Outcome, NoMemory> {
    let words = enforce_words(alloc)?;
    let gate = CalmGate::new(alloc, Vec::from_slice(alloc, log)?, pieces);
    ran(alloc, &words, signature, policy, gate)
}

/// Audits the log, which comes in pieces of these sizes.
pub fn audited(
    alloc: Global,
    signature: &[u8],
    policy: &[u8],
    log: &[u8],
    pieces: Vec<usize>,
) -> Result<Outcome, NoMemory> {
    let words = audit_words(alloc)?;
    let gate = CalmGate::new(alloc, Vec::from_slice(alloc, log)?, pieces);
    ran(alloc, &words, signature, policy, gate)
}

/// Checks the policy. There is a log, of which nothing is to be read.
pub fn checked(alloc: Global, signature: &[u8], policy: &[u8]) -> Result<Outcome, NoMemory> {
    let words = check_words(alloc)?;
    let gate = CalmGate::new(alloc, Vec::from_slice(alloc, b"no log")?, Vec::new(alloc));
    ran(alloc, &words, signature, policy, gate)
}

fn ran(
    alloc: Global,
    words: &[String],
    signature: &[u8],
    policy: &[u8],
    mut gate: CalmGate,
) -> Result<Outcome, NoMemory>
    requires { NamesFilesAlone (texts_of words.now) (codes "sig") (codes "pol") }
{
    let mut files = files_of(alloc, signature, policy)?;
    let mut report = CalmSink::new(alloc);
    let status = run_calmly(alloc, words, &mut gate, &mut files, &mut report);
    Ok(Outcome {
        status,
        output: Vec::from_slice(alloc, gate.given())?,
        report: Vec::from_slice(alloc, report.given())?,
    })
}
