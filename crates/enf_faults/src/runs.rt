//! One run over devices in memory, each of whose calls does what its turn says.
use enf_io::devices::{Files, NoMemory};
use enf_io::mem_files::MemFiles;
use enf_io::mem_gate::MemGate;
use enf_io::mem_sink::MemSink;
use enf_io::turns::Turn;
use enf_run::refusals::Status;
use enf_run::run::run;
use std::alloc::Global;

/// The words of a run that neither resumes a state nor saves one.
pub const ENFORCE: &str = "enforce sig pol";

/// The words of a run that saves its state.
pub const SAVE: &str = "enforce sig pol --save state";

/// The words of a run that resumes that state.
pub const RESUME: &str = "enforce sig pol --resume state";

// A state is not longer.
const MOST_STATE_BYTES: usize = 1_000_000;

/// What all runs read.
#[derive(Drop)]
pub struct Texts {
    pub signature: Vec<u8>,
    pub policy: Vec<u8>,
    pub log: Vec<u8>,
}

/// What the calls of the devices do, in turn, and the numbers of the calls for files that fail.
#[derive(Drop)]
pub struct Turns {
    pub reads: Vec<Turn>,
    pub writes: Vec<Turn>,
    pub report_writes: Vec<Turn>,
    pub failing_files: Vec<u64>,
}

impl Turns {
    /// No call fails, and each does all that it can.
    pub fn calm(alloc: Global) -> Turns {
        Turns {
            reads: Vec::new(alloc),
            writes: Vec::new(alloc),
            report_writes: Vec::new(alloc),
            failing_files: Vec::new(alloc),
        }
    }
}

/// What a run answered and left.
#[derive(Drop)]
pub struct Left {
    pub status: Status,
    pub output: Vec<u8>,
    pub report: Vec<u8>,
    pub state: Vec<u8>,
}

/// Runs by these words on the log, from the state where they name one.
pub fn ran(
    alloc: Global,
    words: &str,
    texts: &Texts,
    state: &[u8],
    log: &[u8],
    turns: Turns,
) -> Result<Left, NoMemory> {
    let Turns {
        reads,
        writes,
        report_writes,
        failing_files,
    } = turns;
    let mut files = MemFiles::new(alloc, failing_files);
    files.put("sig", Vec::from_slice(alloc, &texts.signature)?)?;
    files.put("pol", Vec::from_slice(alloc, &texts.policy)?)?;
    files.put("state", Vec::from_slice(alloc, state)?)?;
    let mut gate = MemGate::new(alloc, Vec::from_slice(alloc, log)?, reads, writes);
    let mut report = MemSink::new(alloc, report_writes);
    let words = words_of(alloc, words)?;
    let status = run(alloc, &words, &mut gate, &mut files, &mut report);
    Ok(Left {
        status,
        output: Vec::from_slice(alloc, gate.given())?,
        report: Vec::from_slice(alloc, report.given())?,
        state: files
            .read("state", MOST_STATE_BYTES)
            .unwrap_or(Vec::new(alloc)),
    })
}

/// What a run without a fault leaves of the log.
pub fn enforced(alloc: Global, texts: &Texts, log: &[u8]) -> Result<Left, NoMemory> {
    ran(alloc, ENFORCE, texts, b"", log, Turns::calm(alloc))
}

/// So many turns of a kind.
pub fn repeated(alloc: Global, turn: Turn, count: usize) -> Result<Vec<Turn>, NoMemory> {
    Ok(vec![in alloc; turn; count]?)
}

/// So many turns of a kind, and then one that fails.
pub fn then_fail(alloc: Global, turn: Turn, count: usize) -> Result<Vec<Turn>, NoMemory> {
    let mut turns = repeated(alloc, turn, count)?;
    turns.push(Turn::Fail)?;
    Ok(turns)
}

// The words of a line, with a blank between them.
fn words_of(alloc: Global, line: &str) -> Result<Vec<String>, NoMemory> {
    let mut words = Vec::new(alloc);
    for word in line.split(' ') {
        words.push(String::from_str(alloc, word)?)?;
    }
    Ok(words)
}
