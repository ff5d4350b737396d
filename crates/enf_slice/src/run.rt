//! The top call: all that the program does.
ghost use Rattle.std.specs.Prelude.{◌<◌, ◌≤◌, IfOk, IfSome, length};

use crate::endings::Ending;
use crate::refusals::{RecordRefusal, Refusal, Source, Status, write_at, write_pieces};
use enf_data::{MOST_FILE_BYTES, NameId};
use enf_io::devices::{Files, Gate, Sink};
use enf_io::writing::write_all;
use formula_reader::{Policy, PolicyRefusal, read_policy};
use log_split::{KeysRefusal, Split, SplitRefusal, Splitter, read_keys};
use signature::{NameEntry, Signature, SignatureRefusal};
use slices::{Hindrance, Keys, Why, is_sliced};
use std::alloc::Global;

/// The greatest number of bytes that are taken of a log.
pub const MOST_LOG_BYTES: usize = 1_099_511_627_776;

/// The greatest number of bytes that one read asks for.
pub const MOST_READ_BYTES: usize = 65_536;

/// The greatest number of streams.
pub const MOST_STREAMS: u32 = 64;

/// Does what the words ask for: `check SIG POLICY KEYS` says whether the policy is sliced by the keys, or where and
/// why it is not; `split SIG KEYS N` takes a log from the gate and gives what each of N streams has of it. The report
/// says why a run ends early.
pub fn run<G: Gate, F: Files, R: Sink>(
    alloc: Global,
    words: &[String],
    gate: &mut G,
    files: &mut F,
    report: &mut R,
) -> Status {
    match perform(alloc, words, gate, files) {
        Ok(status) => status,
        Err(ending) => report_ending(&ending, report),
    }
}

// Says on the report why a run ends. A fault in writing that line leaves the status as it is.
fn report_ending<R: Sink>(ending: &Ending, report: &mut R) -> Status {
    match ending {
        Ending::Refused(refusal) => {
            let _told = refusal.write(report);
            refusal.status()
        }
        Ending::WriteFault => Status::WriteFault,
        Ending::NoMemory => {
            let _told = write_all(report, b"no memory\n");
            Status::NoMemory
        }
    }
}

fn perform<G: Gate, F: Files>(
    alloc: Global,
    words: &[String],
    gate: &mut G,
    files: &mut F,
) -> Result<Status, Ending> {
    let [command, first, second, third] = words else {
        return Err(Refusal::Words.into());
    };
    match command.as_str() {
        "check" => check(
            alloc,
            first.as_str(),
            second.as_str(),
            third.as_str(),
            gate,
            files,
        ),
        "split" => match streams_of(third.as_str()) {
            Some(streams) => split(alloc, first.as_str(), second.as_str(), streams, gate, files),
            None => Err(Refusal::Words.into()),
        },
        _ => Err(Refusal::Words.into()),
    }
}

// The number of streams that one or two digits write.
fn streams_of(word: &str) -> Option<u32>
    ensures { IfSome result (λ streams. 0 < streams) }
{
    if word.len() > 2 || word.as_bytes().first() == Some(&b'+') {
        return None;
    }
    let number: u32 = word.parse().ok()?;
    (1 <= number && number <= MOST_STREAMS).then_some(number)
}

// Says whether the policy is sliced by the keys.
fn check<G: Gate, F: Files>(
    alloc: Global,
    signature_file: &str,
    policy_file: &str,
    keys_file: &str,
    gate: &mut G,
    files: &mut F,
) -> Result<Status, Ending> {
    let signature = read_signature_file(alloc, files, signature_file)?;
    let policy = read_policy_file(alloc, files, policy_file, &signature)?;
    let keys = read_keys_file(alloc, files, keys_file, &signature)?;
    let status = give_answer(&signature, &policy, &keys, gate)?;
    gate.flush().map_err(|_refusal| Ending::WriteFault)?;
    Ok(status)
}

// Gives what is to be said of the policy.
fn give_answer<G: Sink>(
    signature: &Signature,
    policy: &Policy,
    keys: &Keys,
    gate: &mut G,
) -> Result<Status, Ending> {
    if let Some(entry) = marked_and_shared(signature, keys) {
        write_pieces(
            &[b"not sliced: shared and marked ", entry.text.bytes(), b"\n"],
            gate,
        )?;
        return Ok(Status::NotSliced);
    }
    match is_sliced(keys, policy.rules.as_slice()) {
        Ok(()) => {
            write_all(gate, b"sliced\n")?;
            Ok(Status::Done)
        }
        Err(hindrance) => {
            give_hindrance(&hindrance, gate)?;
            Ok(Status::NotSliced)
        }
    }
}

// The first name whose events may be caused or suppressed, and are in each slice.
fn marked_and_shared<'a>(signature: &'a Signature, keys: &Keys) -> Option<&'a NameEntry> {
    for number in 0..signature.len() {
        let name = NameId(number);
        if keys.column(name).is_none() {
            let entry = signature.entry(name)?;
            if entry.causable || entry.suppressible {
                return Some(entry);
            }
        }
    }
    None
}

fn give_hindrance<S: Sink>(hindrance: &Hindrance, sink: &mut S) -> Result<(), Ending> {
    let place = hindrance.place;
    let why = match hindrance.why {
        Why::NoKey => b"not sliced: no key at ".as_slice(),
        Why::OtherKey => b"not sliced: other key at ".as_slice(),
        Why::Bound => b"not sliced: key bound at ".as_slice(),
        Why::Neighbour => b"not sliced: neighbour at ".as_slice(),
        Why::Operand => b"not sliced: operand at ".as_slice(),
        Why::Rule => b"not sliced: rule at ".as_slice(),
    };
    Ok(write_at(why, place, sink)?)
}

// Splits the log that the gate gives.
fn split<G: Gate, F: Files>(
    alloc: Global,
    signature_file: &str,
    keys_file: &str,
    streams: u32,
    gate: &mut G,
    files: &mut F,
) -> Result<Status, Ending>
    requires { 0 < streams }
{
    let signature = read_signature_file(alloc, files, signature_file)?;
    let keys = read_keys_file(alloc, files, keys_file, &signature)?;
    let split = Split {
        signature: &signature,
        keys: &keys,
        streams,
    };
    let given = split_log(alloc, split, gate);
    if let Err(Ending::WriteFault) = given {
        return Err(Ending::WriteFault);
    }
    gate.flush().map_err(|_refusal| Ending::WriteFault)?;
    given?;
    Ok(Status::Done)
}

// Takes the log to its end, and gives the lines of the records that became whole before the next read.
fn split_log<G: Gate>(alloc: Global, split: Split<'_>, gate: &mut G) -> Result<(), Ending>
    requires { 0 < split.streams }
{
    let mut splitter = Splitter::new(alloc, split)?;
    let mut piece = vec![in alloc; 0; MOST_READ_BYTES]?;
    let mut lines = Vec::new(alloc);
    let mut taken = 0;
    while taken < MOST_LOG_BYTES {
        let most = piece.len().min(MOST_LOG_BYTES - taken);
        gate.flush().map_err(|_refusal| Ending::WriteFault)?;
        let count = gate.read(&mut piece[..most])?;
        if count == 0 {
            return match splitter.end() {
                None => Ok(()),
                Some(why) => Err(refused_next(&splitter, RecordRefusal::Split(why))),
            };
        }
        taken += count;
        splitter.feed(&piece[..count])?;
        lines.clear();
        let refused = splitter.take_whole(alloc, &mut lines)?;
        write_all(gate, &lines)?;
        if let Some(why) = refused {
            return Err(refused_next(&splitter, RecordRefusal::Split(why)));
        }
    }
    Err(refused_next(&splitter, RecordRefusal::InputLimit))
}

// How a run ends where the next record is refused.
fn refused_next(splitter: &Splitter<'_>, why: RecordRefusal) -> Ending {
    Ending::Refused(Refusal::Record {
        number: splitter.accepted().saturating_add(1),
        why,
    })
}

// The bytes of a file that is no longer than it may be.
fn read_file<F: Files>(files: &mut F, name: &str, source: Source) -> Result<Vec<u8>, Ending>
    ensures { IfOk result (λ bytes. length bytes.items ≤ MOST_FILE_BYTES) }
{
    let bytes = files.read(name, MOST_FILE_BYTES + 1)?;
    if bytes.len() > MOST_FILE_BYTES {
        return Err(Refusal::TooLong(source).into());
    }
    Ok(bytes)
}

fn read_signature_file<F: Files>(
    alloc: Global,
    files: &mut F,
    name: &str,
) -> Result<Signature, Ending> {
    let bytes = read_file(files, name, Source::Signature)?;
    match Signature::read(alloc, &bytes) {
        Ok(signature) => Ok(signature),
        Err(SignatureRefusal::NoMemory) => Err(Ending::NoMemory),
        Err(why) => Err(Refusal::Signature(why).into()),
    }
}

fn read_policy_file<F: Files>(
    alloc: Global,
    files: &mut F,
    name: &str,
    signature: &Signature,
) -> Result<Policy, Ending> {
    let bytes = read_file(files, name, Source::Policy)?;
    match read_policy(alloc, signature, &bytes) {
        Ok(policy) => Ok(policy),
        Err(PolicyRefusal::NoMemory) => Err(Ending::NoMemory),
        Err(why) => Err(Refusal::Policy(why).into()),
    }
}

fn read_keys_file<F: Files>(
    alloc: Global,
    files: &mut F,
    name: &str,
    signature: &Signature,
) -> Result<Keys, Ending> {
    let bytes = read_file(files, name, Source::Keys)?;
    match read_keys(alloc, signature, &bytes) {
        Ok(keys) => Ok(keys),
        Err(KeysRefusal::NoMemory) => Err(Ending::NoMemory),
        Err(why) => Err(Refusal::Keys(why).into()),
    }
}
