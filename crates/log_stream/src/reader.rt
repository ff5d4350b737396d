//! A log that comes in pieces, read record by record.
ghost use Rattle.std.specs.Prelude.{◌≡◌, ◌≤◌, ◌++◌, [], IfNone, IfSome, None, Ok, OnErr, OnOk, drop};
ghost use Rattle.std.specs.Prelude.{length};
ghost use Rattle.log_stream.specs.meaning.LogGrammar.{IsPending};
ghost use Rattle.log_stream.specs.machine.LogReaders.{EndsAt, ReadsNext, fed};
ghost use Rattle.log_stream.specs.machine.EndScans.{StandsWhole, lasting};
ghost use Rattle.log_stream.specs.declared.items.Found.TheVariants.{Item as FoundItem};

use crate::cursor::skip_blanks;
use crate::fronts::{Front, front_at};
use crate::items::{Found, LogItem, LogMode, LogRefusal};
use crate::limits::MOST_RECORD_BYTES;
use crate::records::read_record;
use crate::scanning::Scan;
use enf_data::{Event, NoMemory, Seed};
use signature::Signature;
use std::alloc::Global;
use std::marker::Model;

/// The records of a log that is fed in any pieces. It keeps the record that is not whole yet and what was fed
/// after it, and lets go what was handed out.
#[derive(Drop)]
pub struct LogReader {
    signature: Signature,
    mode: LogMode,
    bytes: Vec<u8>,
    front: usize,
    scanned: usize,
    scan: Scan,
    refused: Option<LogRefusal>,
    // memory for the events of a record, where some was kept
    room: Option<Vec<Event>>,
    // of the hashes of its events
    seed: Seed,
}

impl Model for LogReader {
    ghost use Rattle.std.specs.Prelude.{drop};
    ghost use Rattle.log_stream.specs.machine.LogReaders.{Reader};

    ghost Value = { Reader };

    ghost use Rattle.log_stream.specs.machine.EndScans.{IsReader};

    ghost view = { λ r. record {
      entries = r.signature;
      mode = r.mode;
      rest = drop r.front r.bytes.items;
      refused = r.refused;
    } };

    ghost invariant = { λ r. IsReader r.bytes.items r.front r.scanned r.scan r.refused };
}

// Lets the first bytes go.
fn let_go(bytes: &mut Vec<u8>, count: usize)
    requires { count ≤ length bytes.old.items }
    ensures { bytes.new.items ≡ drop count bytes.old.items }
{
    if count == 0 {
        return;
    }
    let left = bytes.len() - count;
    bytes.copy_within(count.., 0);
    bytes.truncate(left);
}

// The refusal that every later call answers again: running out of memory is none.
fn lasting(refusal: LogRefusal) -> Option<LogRefusal>
    ensures { result ≡ lasting refusal }
{
    match refusal {
        LogRefusal::NoMemory => None,
        _ => Some(refusal),
    }
}

// The record that begins after the blanks at a place, read where it stands with no look for its end before, and the
// place after it. None says nothing: then its end is looked for.
fn read_ahead(
    alloc: Global,
    signature: &Signature,
    mode: LogMode,
    bytes: &[u8],
    front: usize,
    seed: Seed,
    room: &mut Option<Vec<Event>>,
) -> Option<(LogItem, usize)>
    requires { front ≤ length bytes.now }
    ensures { IfSome result (λ read. StandsWhole signature.now mode bytes.now front read.0 read.1) }
{
    let begin = skip_blanks(bytes, front);
    let most = MOST_RECORD_BYTES.min(bytes.len() - begin);
    match read_record(
        alloc,
        signature,
        mode,
        &bytes[begin..begin + most],
        seed,
        room,
    ) {
        Ok((item, length)) => Some((item, begin + length)),
        Err(_) => None,
    }
}

impl LogReader {
    /// A reader to which nothing was fed.
    pub fn new(alloc: Global, signature: Signature, mode: LogMode) -> LogReader
        ensures { result ≡ record { entries = signature; mode = mode; rest = []; refused = None } }
    {
        LogReader::seeded(alloc, Seed::known(), signature, mode)
    }

    /// So too, where a stranger writes the log: who does not know the seed cannot write records that take long to read.
    pub fn seeded(alloc: Global, seed: Seed, signature: Signature, mode: LogMode) -> LogReader
        ensures { result ≡ record { entries = signature; mode = mode; rest = []; refused = None } }
    {
        LogReader {
            signature,
            mode,
            bytes: Vec::new(alloc),
            front: 0,
            scanned: 0,
            scan: Scan::Outside,
            refused: None,
            room: None,
            seed,
        }
    }

    /// Keeps memory for the events of a later record.
    pub fn keep_room(&mut self, room: Vec<Event>)
        ensures { self.new ≡ self.old }
    {
        self.room = Some(room);
    }

    /// Puts a piece after what was fed. After a refusal nothing is kept.
    pub fn feed(&mut self, piece: &[u8]) -> Result<(), NoMemory>
        ensures ok { OnOk result (self.new ≡ fed self.old piece.now) }
        ensures err { OnErr result (self.new ≡ self.old) }
    {
        if self.refused.is_none() {
            self.bytes.extend_from_slice(piece)?;
        }
        Ok(())
    }

    /// How many bytes were fed and are not read yet.
    pub fn unread(&self) -> usize
        ensures { result ≡ length self.now.rest }
    {
        self.bytes.len() - self.front
    }

    /// The next record, or its refusal, which every later call answers again. Pending comes exactly where the bytes
    /// so far hold no whole record more and no refusal.
    pub fn next_record(&mut self, alloc: Global) -> Result<Found, LogRefusal>
        ensures { ReadsNext self.old result self.new }
    {
        match self.taken_ahead(alloc) {
            Some(item) => Ok(Found::Item(item)),
            None => self.found(alloc),
        }
    }

    // Takes the record at the front where it can be read with no look for its end; none says nothing.
    fn taken_ahead(&mut self, alloc: Global) -> Option<LogItem>
        ensures some { IfSome result (λ item. ReadsNext self.old (Ok (FoundItem item)) self.new) }
        ensures none { IfNone result (self.new ≡ self.old) }
    {
        if self.refused.is_some() {
            return None;
        }
        if self.scanned > 0 {
            return None;
        }
        let bytes = self.bytes.as_slice();
        let (item, end) = read_ahead(
            alloc,
            &self.signature,
            self.mode,
            bytes,
            self.front,
            self.seed,
            &mut self.room,
        )?;
        self.front = end;
        Some(item)
    }

    // The next record by a look for its end.
    #[inline(never)]
    fn found(&mut self, alloc: Global) -> Result<Found, LogRefusal>
        ensures { ReadsNext self.old result self.new }
    {
        if let Some(refusal) = self.refused {
            return Err(refusal);
        }
        match front_at(&self.bytes, self.front, self.scanned, self.scan) {
            Front::Whole { begin, end } => {
                match read_record(
                    alloc,
                    &self.signature,
                    self.mode,
                    &self.bytes[begin..end],
                    self.seed,
                    &mut self.room,
                ) {
                    Ok((item, _length)) => {
                        self.front = end;
                        self.scanned = 0;
                        self.scan = Scan::Outside;
                        Ok(Found::Item(item))
                    }
                    Err(refusal) => {
                        self.refused = lasting(refusal);
                        Err(refusal)
                    }
                }
            }
            Front::TooLong => {
                self.refused = Some(LogRefusal::TooLong);
                Err(LogRefusal::TooLong)
            }
            Front::Pending { begin, scan } => {
                let_go(&mut self.bytes, begin);
                self.front = 0;
                self.scanned = self.bytes.len();
                self.scan = scan;
                Ok(Found::Pending)
            }
        }
    }

    /// The end of the log, where no whole record is left: it is refused where a record was begun.
    pub fn end(&mut self) -> Result<(), LogRefusal>
        requires { self.old.refused ≡ None → IsPending self.old.rest }
        ensures { EndsAt self.old result self.new }
    {
        if let Some(refusal) = self.refused {
            return Err(refusal);
        }
        if skip_blanks(&self.bytes, self.front) < self.bytes.len() {
            self.refused = Some(LogRefusal::Truncated);
            return Err(LogRefusal::Truncated);
        }
        Ok(())
    }
}
