//! Why a run is refused, the line that says so on the report, and the status that the run ends with. A refusal of a
//! library is kept as the library gives it. No line takes memory.
ghost use Rattle.std.specs.Prelude.{◌≡◌, ◌++◌, codes, decimal};
ghost use Rattle.enf_run.specs.machine.RunEndings.{status_code, WritesText, text_of_policy_refusal};
ghost use Rattle.enf_run.specs.machine.RunEndings.{text_of_signature_refusal, text_of_state_refusal};
ghost use Rattle.enf_run.specs.meaning.Reports.{refusal_status, text_of_reading, text_of_refusal, text_of_signature};
ghost use Rattle.enf_run.specs.meaning.Reports.{text_of_state, text_of_typing};
ghost use Rattle.enf_run.specs.meaning.Headline.{text_of_log_refusal};
ghost use Rattle.enf_run.specs.declared.refusals.Refusal.TheVariants as refusal;

use crate::endings::Cut;
use crate::report_lines::{write_at, write_pieces};
use enf_io::devices::Sink;
use enforce_types::TypeRefusal;
use itoa::Buffer;
use log_stream::LogRefusal;

const USAGE: &[u8] =
    b"usage: enf enforce SIG POLICY [--resume FILE] [--save FILE] | check SIG POLICY";

const MORE_USAGE: &[u8] = b" | audit SIG POLICY | gen START N | drill START N\n";

/// How a run ended: 0 done, 1 the words match no form, 2 the signature, the policy or the state is refused,
/// 3 a record is refused, 4 a read fault, 5 a write fault, 6 no memory, 7 an audited log violates the policy.
#[derive(Clone, Copy, Debug, PartialEq, Eq)]
pub enum Status {
    Done = 0,
    Words = 1,
    Files = 2,
    Record = 3,
    ReadFault = 4,
    WriteFault = 5,
    NoMemory = 6,
    Violated = 7,
}

impl Status {
    /// The number that the program ends with.
    pub fn code(self) -> u8
        ensures { result ≡ status_code self }
    {
        self as u8
    }
}

/// Why the signature is refused.
#[derive(Debug, Drop)]
pub enum SignatureRefusal {
    TooLong,
    /// By its reader; with the name that is repeated, or none.
    Text {
        why: signature::SignatureRefusal,
        name: Vec<u8>,
    },
}

impl SignatureRefusal {
    fn write<R: Sink>(&self, report: &mut R) -> Result<(), Cut>
        ensures { WritesText (text_of_signature_refusal self.now) result
            (R.seen report.old) (R.seen report.new) }
    {
        match self {
            SignatureRefusal::TooLong => write_pieces(&[b"signature: too long\n"], report),
            SignatureRefusal::Text { why, name } => write_signature(*why, name, report),
        }
    }
}

fn write_signature<R: Sink>(
    why: signature::SignatureRefusal,
    name: &[u8],
    report: &mut R,
) -> Result<(), Cut>
    ensures { WritesText (text_of_signature why name.now) result (R.seen report.old) (R.seen report.new) }
{
    match why {
        signature::SignatureRefusal::Syntax { place } => {
            write_at(b"signature: syntax at ", place, report)
        }
        signature::SignatureRefusal::Repeated { place, .. } => {
            let mut digits = Buffer::new();
            let at = digits.format(place).as_bytes();
            write_pieces(&[b"signature: repeated ", name, b" at ", at, b"\n"], report)
        }
        signature::SignatureRefusal::Limit { place, .. } => {
            write_at(b"signature: limit at ", place, report)
        }
        signature::SignatureRefusal::NoMemory => write_pieces(&[b"no memory\n"], report),
    }
}

/// Why the policy is refused.
#[derive(Debug, Drop)]
pub enum PolicyRefusal {
    TooLong,
    /// By its reader.
    Text(formula_reader::PolicyRefusal),
    /// By its typing; with the text of the name that it is about, or none.
    Typing { why: TypeRefusal, name: Vec<u8> },
}

impl PolicyRefusal {
    fn write<R: Sink>(&self, report: &mut R) -> Result<(), Cut>
        ensures { WritesText (text_of_policy_refusal self.now) result
            (R.seen report.old) (R.seen report.new) }
    {
        match self {
            PolicyRefusal::TooLong => write_pieces(&[b"policy: too long\n"], report),
            PolicyRefusal::Text(why) => write_reading(*why, report),
            PolicyRefusal::Typing { why, name } => write_typing(*why, name, report),
        }
    }
}

fn write_reading<R: Sink>(why: formula_reader::PolicyRefusal, report: &mut R) -> Result<(), Cut>
    ensures { WritesText (text_of_reading why) result (R.seen report.old) (R.seen report.new) }
{
    match why {
        formula_reader::PolicyRefusal::Syntax { place } => {
            write_at(b"policy: syntax at ", place, report)
        }
        formula_reader::PolicyRefusal::UnknownName { place } => {
            write_at(b"policy: unknown name at ", place, report)
        }
        formula_reader::PolicyRefusal::Arity { place } => write_at(
            b"policy: arity at ",
            place,
            report,
        ),
        formula_reader::PolicyRefusal::SortClash { place } => {
            write_at(b"policy: sort at ", place, report)
        }
        formula_reader::PolicyRefusal::FreeVariable { place } => {
            write_at(b"policy: free variable at ", place, report)
        }
        formula_reader::PolicyRefusal::Rebound { place } => {
            write_at(b"policy: rebound at ", place, report)
        }
        formula_reader::PolicyRefusal::Limit { place } => write_at(
            b"policy: limit at ",
            place,
            report,
        ),
        formula_reader::PolicyRefusal::NoMemory => write_pieces(&[b"no memory\n"], report),
    }
}

fn write_typing<R: Sink>(why: TypeRefusal, name: &[u8], report: &mut R) -> Result<(), Cut>
    ensures { WritesText (text_of_typing why name.now) result (R.seen report.old) (R.seen report.new) }
{
    match why {
        TypeRefusal::Unguarded { place } => write_at(b"policy: unguarded at ", place, report),
        TypeRefusal::NotEnforceable { place } => {
            write_at(b"policy: not enforceable at ", place, report)
        }
        TypeRefusal::RoleClash { .. } => {
            write_pieces(&[b"policy: role clash ", name, b"\n"], report)
        }
        TypeRefusal::Untriggered { place } => write_at(b"policy: untriggered at ", place, report),
        TypeRefusal::Cyclic { .. } => write_pieces(&[b"policy: cyclic ", name, b"\n"], report),
        TypeRefusal::NoMemory => write_pieces(&[b"no memory\n"], report),
    }
}

/// Why the state is refused.
#[derive(Clone, Copy, Debug)]
pub enum StateRefusal {
    TooLong,
    /// By its reader; lines are counted from 1 at that of the clock, and what stands before it is line 0.
    Text(save_codec::StateRefusal),
}

impl StateRefusal {
    fn write<R: Sink>(self, report: &mut R) -> Result<(), Cut>
        ensures { WritesText (text_of_state_refusal self) result (R.seen report.old) (R.seen report.new) }
    {
        match self {
            StateRefusal::TooLong => write_pieces(&[b"state: too long\n"], report),
            StateRefusal::Text(why) => write_state(why, report),
        }
    }
}

fn write_state<R: Sink>(why: save_codec::StateRefusal, report: &mut R) -> Result<(), Cut>
    ensures { WritesText (text_of_state why) result (R.seen report.old) (R.seen report.new) }
{
    match why {
        save_codec::StateRefusal::Syntax { line } => {
            write_at_line(b"state: syntax at line ", line, report)
        }
        save_codec::StateRefusal::OtherPolicy => {
            write_pieces(&[b"state: other policy\n"], report)
        }
        save_codec::StateRefusal::Inconsistent { line } => {
            write_at_line(b"state: inconsistent at line ", line, report)
        }
        save_codec::StateRefusal::NoMemory => write_pieces(&[b"no memory\n"], report),
    }
}

// What is said of a line.
fn write_at_line<R: Sink>(what: &[u8], line: u64, report: &mut R) -> Result<(), Cut>
    ensures { WritesText (what.now ++ decimal line ++ codes "\n") result (R.seen report.old) (R.seen report.new) }
{
    let mut digits = Buffer::new();
    write_pieces(&[what, digits.format(line).as_bytes(), b"\n"], report)
}

/// Why a record is refused.
#[derive(Clone, Copy, Debug)]
pub enum RecordRefusal {
    /// By the reader of logs; a place is a byte offset within the record, counted from 0.
    Log(LogRefusal),
    /// The given time is below the clock.
    Falling { given: u64, clock: u64 },
    /// As many bytes were taken as a log may have.
    InputLimit,
}

fn write_record_refusal<R: Sink>(number: u64, why: RecordRefusal, report: &mut R) -> Result<(), Cut>
    ensures { WritesText (text_of_refusal (refusal.Record number why)) result
        (R.seen report.old) (R.seen report.new) }
{
    match why {
        RecordRefusal::Log(why) => write_log_refusal(number, why, report),
        RecordRefusal::Falling { given, clock } => write_falling(number, given, clock, report),
        RecordRefusal::InputLimit => write_whole_record(number, b"input limit", report),
    }
}

fn write_log_refusal<R: Sink>(number: u64, why: LogRefusal, report: &mut R) -> Result<(), Cut>
    ensures { WritesText
        (codes "record " ++ decimal number ++ codes ": " ++ text_of_log_refusal why ++ codes "\n") result
        (R.seen report.old) (R.seen report.new) }
{
    match why {
        LogRefusal::BadRecord { place } => write_record(number, b"bad at ", place, report),
        LogRefusal::UnknownName { place } => {
            write_record(number, b"unknown name at ", place, report)
        }
        LogRefusal::Arity { place } => write_record(number, b"arity at ", place, report),
        LogRefusal::SortClash { place } => write_record(number, b"sort at ", place, report),
        LogRefusal::TooLong => write_whole_record(number, b"too long", report),
        LogRefusal::TimeTooLarge => write_whole_record(number, b"time too large", report),
        LogRefusal::Truncated => write_whole_record(number, b"truncated", report),
        LogRefusal::NoMemory => write_whole_record(number, b"no memory", report),
    }
}

// What is said of a record as a whole.
fn write_whole_record<R: Sink>(number: u64, what: &[u8], report: &mut R) -> Result<(), Cut>
    ensures { WritesText
        (codes "record " ++ decimal number ++ codes ": " ++ what.now ++ codes "\n") result
        (R.seen report.old) (R.seen report.new) }
{
    let mut digits = Buffer::new();
    let number = digits.format(number).as_bytes();
    write_pieces(&[b"record ", number, b": ", what, b"\n"], report)
}

// What is said of a place in a record.
fn write_record<R: Sink>(number: u64, what: &[u8], place: u32, report: &mut R) -> Result<(), Cut>
    ensures { WritesText
        (codes "record " ++ decimal number ++ codes ": " ++ (what.now ++ decimal place) ++ codes "\n")
        result (R.seen report.old) (R.seen report.new) }
{
    let mut digits = Buffer::new();
    let number = digits.format(number).as_bytes();
    let mut place_digits = Buffer::new();
    let place = place_digits.format(place).as_bytes();
    write_pieces(&[b"record ", number, b": ", what, place, b"\n"], report)
}

// What is said of a record whose time is below the clock.
fn write_falling<R: Sink>(number: u64, given: u64, clock: u64, report: &mut R) -> Result<(), Cut>
    ensures { WritesText
        (codes "record " ++ decimal number ++ codes ": "
        ++ (codes "time " ++ decimal given ++ codes " is below " ++ decimal clock) ++ codes "\n")
        result (R.seen report.old) (R.seen report.new) }
{
    let mut number_digits = Buffer::new();
    let number = number_digits.format(number).as_bytes();
    let mut given_digits = Buffer::new();
    let given = given_digits.format(given).as_bytes();
    let mut clock_digits = Buffer::new();
    let clock = clock_digits.format(clock).as_bytes();
    write_pieces(
        &[
            b"record ",
            number,
            b": time ",
            given,
            b" is below ",
            clock,
            b"\n",
        ],
        report,
    )
}

/// What the last line on the report says.
#[derive(Debug, Drop)]
pub enum Refusal {
    Words,
    Signature(SignatureRefusal),
    Policy(PolicyRefusal),
    State(StateRefusal),
    /// The record's number is counted from 1.
    Record { number: u64, why: RecordRefusal },
    ReadFault,
}

impl Refusal {
    /// Adds the line that says so to the report.
    pub fn write<R: Sink>(&self, report: &mut R) -> Result<(), Cut>
        ensures { WritesText (text_of_refusal self.now) result
            (R.seen report.old) (R.seen report.new) }
    {
        match self {
            Refusal::Words => write_pieces(&[USAGE, MORE_USAGE], report),
            Refusal::Signature(why) => why.write(report),
            Refusal::Policy(why) => why.write(report),
            Refusal::State(why) => why.write(report),
            Refusal::Record { number, why } => write_record_refusal(*number, *why, report),
            Refusal::ReadFault => write_pieces(&[b"read fault\n"], report),
        }
    }

    /// The status that the refusal ends with.
    pub fn status(&self) -> Status
        ensures { result ≡ refusal_status self.now }
    {
        match self {
            Refusal::Words => Status::Words,
            Refusal::Signature(_) | Refusal::Policy(_) | Refusal::State(_) => Status::Files,
            Refusal::Record { .. } => Status::Record,
            Refusal::ReadFault => Status::ReadFault,
        }
    }
}
