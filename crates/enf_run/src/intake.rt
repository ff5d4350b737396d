//! The intake of a log: its bytes come from the gate piece by piece, and a verdict ends it.
ghost use Rattle.std.specs.Prelude.{◌≡◌, ◌≢◌, IfErr, IfOk, OnErr, OnOk, None, length};
ghost use Rattle.enf_run.specs.machine.LogIntake.{AnswersRead, CutsPiece, IsIntakeOpen, IsNewIntake, JudgesLogEnd};
ghost use Rattle.enf_run.specs.machine.LogIntake.{LosesPiece, ReadsPiece, takeable_bytes};
ghost use Rattle.enf_run.specs.meaning.Readings.{most_read_bytes};
ghost use Rattle.enf_run.specs.declared.refusals.RecordRefusal.TheVariants.{Log};
ghost use Rattle.log_stream.specs.meaning.LogGrammar.{IsPending};
ghost use Rattle.log_stream.specs.declared.items.LogRefusal.TheVariants.{NoMemory as OutOfMemory};

use crate::endings::Cut;
use crate::refusals::RecordRefusal;
use crate::step_lines::hand_on;
use enf_data::{Duplicate, NoMemory, Seed};
use enf_io::devices::{Gate, IoRefusal};
use log_stream::{LogMode, LogReader, LogRefusal};
use signature::Signature;
use std::alloc::Global;

/// The greatest number of bytes that are taken of a log.
pub const MOST_LOG_BYTES: usize = 1_099_511_627_776;

/// The greatest number of bytes that one read asks for.
pub const MOST_READ_BYTES: usize = 65_536;

// So many bytes of a record that is not whole yet are counted where the next read asks for fewer.
const MOST_COUNTED_BYTES: usize = 16_384;

/// What becomes of a log.
#[derive(Clone, Copy, Debug)]
pub enum Verdict {
    Accepted,
    /// The log was cut short by a read fault.
    Fault,
    Refused(RecordRefusal),
}

/// What becomes of a log after so many accepted records.
#[derive(Clone, Copy, Debug)]
pub struct Judged {
    pub accepted: u64,
    pub verdict: Verdict,
}

/// What becomes of the record at the front.
pub enum Next {
    Taken,
    Pending,
    Refused(RecordRefusal),
}

// What a read gave.
enum Piece {
    More { count: usize },
    Ended,
    Fault,
    // As many bytes were taken as may be.
    Limit,
}

/// A log that is taken in: its reader, how many of its records were accepted, and how many bytes taken.
#[derive(Drop)]
pub struct Intake {
    pub reader: LogReader,
    // Where a read puts what it takes.
    piece: Vec<u8>,
    pub accepted: u64,
    pub taken: usize,
}

impl Intake {
    /// A log of which nothing was taken yet.
    pub fn new(
        alloc: Global,
        seed: Seed,
        signature: &Signature,
        mode: LogMode,
    ) -> Result<Intake, NoMemory>
        ensures { IfOk result (IsNewIntake signature.now mode) }
    {
        Ok(Intake {
            reader: LogReader::seeded(alloc, seed, signature.duplicate(alloc)?, mode),
            piece: vec![in alloc; 0; MOST_READ_BYTES]?,
            accepted: 0,
            taken: 0,
        })
    }

    /// Takes the next piece, where no record is whole; a verdict ends the log.
    pub fn take_more<G: Gate>(&mut self, gate: &mut G) -> Result<Option<Verdict>, NoMemory>
        requires pending { IsPending self.old.reader.rest }
        requires going { IsIntakeOpen self.old }
        ensures room { length self.new.piece.items ≡ most_read_bytes }
        ensures turn { IfOk result
            (λ verdict. AnswersRead verdict self.old self.new (G.seen gate.old) (G.seen gate.new)) }
        ensures lost { OnErr result (LosesPiece (takeable_bytes self.old) (G.seen gate.old) (G.seen gate.new)) }
        ensures writes { (G.seen gate.new).write_faults ≡ (G.seen gate.old).write_faults }
        ensures held { (G.seen gate.new).held ≡ (G.seen gate.old).held }
        ensures late { (G.seen gate.old).held ≡ 0
            → (G.seen gate.new).late_reads ≡ (G.seen gate.old).late_reads }
    {
        let left = MOST_LOG_BYTES - self.taken;
        match take_piece(gate, &mut self.piece, left, &mut self.reader)? {
            Piece::More { count } => {
                self.taken += count;
                Ok(None)
            }
            Piece::Ended => Ok(Some(judge_end(&mut self.reader))),
            Piece::Fault => Ok(Some(Verdict::Fault)),
            Piece::Limit => Ok(Some(Verdict::Refused(RecordRefusal::InputLimit))),
        }
    }

    /// Takes the next piece, once the gate holds nothing back of what it was given.
    pub fn take_next<G: Gate>(&mut self, gate: &mut G) -> Result<Option<Verdict>, Cut>
        requires pending { IsPending self.old.reader.rest }
        requires going { IsIntakeOpen self.old }
        ensures room { length self.new.piece.items ≡ most_read_bytes }
        ensures turn { IfOk result
            (λ verdict. AnswersRead verdict self.old self.new (G.seen gate.old) (G.seen gate.new)) }
        ensures writes { OnOk result ((G.seen gate.new).write_faults ≡ (G.seen gate.old).write_faults) }
        ensures cut { IfErr result (CutsPiece (takeable_bytes self.old) (G.seen gate.old) (G.seen gate.new)) }
        ensures late { (G.seen gate.new).late_reads ≡ (G.seen gate.old).late_reads }
    {
        hand_on(gate)?;
        Ok(self.take_more(gate)?)
    }
}

// Takes the next piece of the log and feeds it, unless none may be taken any more.
#[inline(never)]
fn take_piece<G: Gate>(
    gate: &mut G,
    piece: &mut [u8],
    left: usize,
    reader: &mut LogReader,
) -> Result<Piece, NoMemory>
    requires { length piece.old ≡ most_read_bytes }
    ensures turn { IfOk result
        (λ read. ReadsPiece read left reader.old reader.new (G.seen gate.old) (G.seen gate.new)) }
    ensures lost { OnErr result (LosesPiece left (G.seen gate.old) (G.seen gate.new)) }
    ensures writes { (G.seen gate.new).write_faults ≡ (G.seen gate.old).write_faults }
    ensures held { (G.seen gate.new).held ≡ (G.seen gate.old).held }
    ensures late { (G.seen gate.old).held ≡ 0
        → (G.seen gate.new).late_reads ≡ (G.seen gate.old).late_reads }
{
    if left == 0 {
        return Ok(Piece::Limit);
    }
    // With the record that is begun it is no more than a gate over std holds back, so that what is given for it goes out
    // by one call, where its lines are no longer than what came.
    let begun = reader.unread().min(MOST_COUNTED_BYTES);
    let most = (piece.len() - begun).min(left);
    match gate.read(&mut piece[..most]) {
        Ok(0) => Ok(Piece::Ended),
        Ok(count) => {
            reader.feed(&piece[..count])?;
            Ok(Piece::More { count })
        }
        Err(IoRefusal::Failed) => Ok(Piece::Fault),
        Err(IoRefusal::NoMemory) => Err(NoMemory),
    }
}

// What the end of the log makes of what was fed, where no whole record is left.
fn judge_end(reader: &mut LogReader) -> Verdict
    requires pending { IsPending reader.old.rest }
    requires going { reader.old.refused ≡ None }
    ensures { JudgesLogEnd reader.old.rest result }
{
    match reader.end() {
        Ok(()) => Verdict::Accepted,
        Err(refusal) => Verdict::Refused(RecordRefusal::Log(refusal)),
    }
}

/// What a refusal of the log's reader says of a record; running out of memory says nothing of it.
pub fn refusal_of(refusal: LogRefusal) -> Result<RecordRefusal, NoMemory>
    ensures { IfOk result (λ why. (why ≡ Log refusal) × (refusal ≢ OutOfMemory)) }
{
    match refusal {
        LogRefusal::NoMemory => Err(NoMemory),
        _ => Ok(RecordRefusal::Log(refusal)),
    }
}
