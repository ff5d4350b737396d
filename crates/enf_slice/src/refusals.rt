//! Why a run is refused, the line that says so on the report, and the status that the run ends with.
use enf_data::Place;
use enf_io::devices::Sink;
use enf_io::writing::{WriteRefusal, write_all};
use formula_reader::PolicyRefusal;
use itoa::Buffer;
use log_split::{KeysRefusal, SplitRefusal};
use log_stream::LogRefusal;
use signature::SignatureRefusal;

const USAGE: &[u8] = b"usage: enf-slice check SIG POLICY KEYS | split SIG KEYS N\n";

/// How a run ended: 0 done, 1 the words match no form, 2 a file is refused, 3 a record is refused, 4 a read fault,
/// 5 a write fault, 6 no memory, 7 the policy is not sliced.
#[derive(Clone, Copy, Debug, PartialEq, Eq)]
pub enum Status {
    Done = 0,
    Words = 1,
    Files = 2,
    Record = 3,
    ReadFault = 4,
    WriteFault = 5,
    NoMemory = 6,
    NotSliced = 7,
}

impl Status {
    /// The number that the program ends with.
    pub fn code(self) -> u8 {
        self as u8
    }
}

/// What a file is read as.
#[derive(Clone, Copy, Debug, PartialEq, Eq)]
pub enum Source {
    Signature,
    Policy,
    Keys,
}

/// Why a record is refused.
#[derive(Clone, Copy, Debug)]
pub enum RecordRefusal {
    Split(SplitRefusal),
    /// As many bytes were taken as a log may have.
    InputLimit,
}

/// What the last line on the report says.
#[derive(Clone, Copy, Debug)]
pub enum Refusal {
    Words,
    TooLong(Source),
    Signature(SignatureRefusal),
    Policy(PolicyRefusal),
    Keys(KeysRefusal),
    /// The record's number is counted from 1.
    Record { number: u64, why: RecordRefusal },
    ReadFault,
}

impl Refusal {
    /// Adds the line that says so to the report.
    pub fn write<R: Sink>(&self, report: &mut R) -> Result<(), WriteRefusal> {
        match self {
            Refusal::Words => write_all(report, USAGE),
            Refusal::TooLong(source) => {
                write_pieces(&[name_of_source(*source), b": too long\n"], report)
            }
            Refusal::Signature(why) => write_signature(*why, report),
            Refusal::Policy(why) => write_policy(*why, report),
            Refusal::Keys(why) => write_keys(*why, report),
            Refusal::Record { number, why } => write_record_refusal(*number, *why, report),
            Refusal::ReadFault => write_all(report, b"read fault\n"),
        }
    }

    /// The status that the refusal ends with.
    pub fn status(&self) -> Status {
        match self {
            Refusal::Words => Status::Words,
            Refusal::TooLong(_) | Refusal::Signature(_) | Refusal::Policy(_) | Refusal::Keys(_) =>
                Status::Files,
            Refusal::Record { .. } => Status::Record,
            Refusal::ReadFault => Status::ReadFault,
        }
    }
}

fn name_of_source(source: Source) -> &'static [u8] {
    match source {
        Source::Signature => b"signature",
        Source::Policy => b"policy",
        Source::Keys => b"keys",
    }
}

// The pieces, one after another.
pub(crate) fn write_pieces<R: Sink>(pieces: &[&[u8]], report: &mut R) -> Result<(), WriteRefusal> {
    for piece in pieces {
        write_all(report, piece)?;
    }
    Ok(())
}

// What is said of a place.
pub(crate) fn write_at<R: Sink>(
    what: &[u8],
    place: Place,
    report: &mut R,
) -> Result<(), WriteRefusal> {
    let mut digits = Buffer::new();
    write_pieces(&[what, digits.format(place).as_bytes(), b"\n"], report)
}

// Why, `enf check` says.
fn write_signature<R: Sink>(why: SignatureRefusal, report: &mut R) -> Result<(), WriteRefusal> {
    match why {
        SignatureRefusal::Syntax { place }
        | SignatureRefusal::Repeated { place, .. }
        | SignatureRefusal::Limit { place, .. } => write_at(
            b"signature: refused at ",
            place,
            report,
        ),
        SignatureRefusal::NoMemory => write_all(report, b"no memory\n"),
    }
}

// Why, `enf check` says.
fn write_policy<R: Sink>(why: PolicyRefusal, report: &mut R) -> Result<(), WriteRefusal> {
    match why {
        PolicyRefusal::Syntax { place }
        | PolicyRefusal::UnknownName { place }
        | PolicyRefusal::Arity { place }
        | PolicyRefusal::SortClash { place }
        | PolicyRefusal::FreeVariable { place }
        | PolicyRefusal::Rebound { place }
        | PolicyRefusal::Limit { place } => write_at(b"policy: refused at ", place, report),
        PolicyRefusal::NoMemory => write_all(report, b"no memory\n"),
    }
}

fn write_keys<R: Sink>(why: KeysRefusal, report: &mut R) -> Result<(), WriteRefusal> {
    match why {
        KeysRefusal::Syntax { place } => write_at(b"keys: syntax at ", place, report),
        KeysRefusal::UnknownName { place } => write_at(b"keys: unknown name at ", place, report),
        KeysRefusal::Repeated { place } => write_at(b"keys: repeated at ", place, report),
        KeysRefusal::Position { place } => write_at(b"keys: position at ", place, report),
        KeysRefusal::NoMemory => write_all(report, b"no memory\n"),
    }
}

fn write_record_refusal<R: Sink>(
    number: u64,
    why: RecordRefusal,
    report: &mut R,
) -> Result<(), WriteRefusal> {
    let mut digits = Buffer::new();
    write_pieces(
        &[b"record ", digits.format(number).as_bytes(), b": "],
        report,
    )?;
    match why {
        RecordRefusal::Split(SplitRefusal::Log(why)) => write_log_refusal(why, report),
        RecordRefusal::Split(SplitRefusal::Falling { given, clock }) => {
            write_falling(given, clock, report)
        }
        RecordRefusal::InputLimit => write_all(report, b"input limit\n"),
    }
}

fn write_log_refusal<R: Sink>(why: LogRefusal, report: &mut R) -> Result<(), WriteRefusal> {
    match why {
        LogRefusal::BadRecord { place } => write_at(b"bad at ", place, report),
        LogRefusal::UnknownName { place } => write_at(b"unknown name at ", place, report),
        LogRefusal::Arity { place } => write_at(b"arity at ", place, report),
        LogRefusal::SortClash { place } => write_at(b"sort at ", place, report),
        LogRefusal::TooLong => write_all(report, b"too long\n"),
        LogRefusal::TimeTooLarge => write_all(report, b"time too large\n"),
        LogRefusal::Truncated => write_all(report, b"truncated\n"),
        LogRefusal::NoMemory => write_all(report, b"no memory\n"),
    }
}

// A record whose time is below the clock.
fn write_falling<R: Sink>(given: u64, clock: u64, report: &mut R) -> Result<(), WriteRefusal> {
    let mut given_digits = Buffer::new();
    let mut clock_digits = Buffer::new();
    let given = given_digits.format(given).as_bytes();
    let clock = clock_digits.format(clock).as_bytes();
    write_pieces(&[b"time ", given, b" is below ", clock, b"\n"], report)
}
