//! A log that is split: its records are taken as they become whole.
ghost use Rattle.std.specs.Prelude.{◌≡◌, ◌≢◌, ◌<◌, ◌≤◌, ◌+◌, ◌^◌, [], IfNone, IfOk, None, OnErr, OnOk};
ghost use Rattle.log_split.specs.declared.splitting.SplitRefusal.TheVariants.{Log};
ghost use Rattle.log_split.specs.machine.Taking.{IsSplitting, SplitsItem, TakesWhole, item_time, most_records};
ghost use Rattle.log_stream.specs.declared.items.LogRefusal.TheVariants.{NoMemory as OutOfMemory};
ghost use Rattle.log_stream.specs.machine.LogReaders.{fed};
ghost use Rattle.log_stream.specs.meaning.LogGrammar.{IsPending};

use crate::lines::{Split, write_record};
use enf_data::{Duplicate, NoMemory};
use log_stream::{Found, LogItem, LogMode, LogReader, LogRefusal};
use std::alloc::Global;

/// Why a record is not split.
#[derive(Clone, Copy, Debug, PartialEq, Eq)]
pub enum SplitRefusal {
    /// By the reader of logs; a place is a byte offset within the record, counted from 0.
    Log(LogRefusal),
    /// The given time is below the clock.
    Falling { given: u64, clock: u64 },
}

/// A log that is split.
#[derive(Drop)]
pub struct Splitter<'a> {
    split: Split<'a>,
    reader: LogReader,
    // The streams of the events of a record.
    own: Vec<Option<u32>>,
    /// How many records were taken.
    accepted: u64,
    // The time of the last of them.
    clock: u64,
}

impl<'a> Splitter<'a> {
    /// A log of which nothing was taken yet.
    pub fn new(alloc: Global, split: Split<'a>) -> Result<Splitter<'a>, NoMemory>
        requires { 0 < split.streams }
        ensures splitting { IfOk result IsSplitting }
        ensures split { IfOk result (λ splitter. splitter.split ≡ split.entry) }
        ensures rest { IfOk result (λ splitter. splitter.reader.rest ≡ []) }
        ensures accepted { IfOk result (λ splitter. splitter.accepted ≡ 0) }
        ensures clock { IfOk result (λ splitter. splitter.clock ≡ 0) }
    {
        Ok(Splitter {
            split,
            reader: LogReader::new(alloc, split.signature.duplicate(alloc)?, LogMode::Input),
            own: Vec::new(alloc),
            accepted: 0,
            clock: 0,
        })
    }

    /// Puts a piece of the log after what was fed.
    pub fn feed(&mut self, piece: &[u8]) -> Result<(), NoMemory>
        ensures ok { OnOk result (self.new ≡ record self.old { reader = fed self.old.reader piece.now }) }
        ensures err { OnErr result (self.new ≡ self.old) }
    {
        self.reader.feed(piece)
    }

    /// How many records were taken.
    pub fn accepted(&self) -> u64
        ensures { result ≡ self.now.accepted }
    {
        self.accepted
    }

    /// Appends the lines of all records that are whole, up to the first that is refused.
    pub fn take_whole(
        &mut self,
        alloc: Global,
        out: &mut Vec<u8>,
    ) -> Result<Option<SplitRefusal>, NoMemory>
        requires splitting { IsSplitting self.old }
        requires few { most_records self.old < 2 ^ 63 }
        ensures taken { IfOk result (TakesWhole self.old self.new out.old.items out.new.items) }
        ensures still { IfOk result (λ refused. IfNone refused (IsSplitting self.new)) }
        ensures pending { IfOk result (λ refused. IfNone refused (IsPending self.new.reader.rest)) }
        ensures few { OnOk result (most_records self.new ≤ most_records self.old) }
    {
        loop {
            match self.reader.next_record(alloc) {
                Ok(Found::Pending) => return Ok(None),
                Ok(Found::Item(item)) => {
                    if let Some(refusal) = self.take(item, out)? {
                        return Ok(Some(refusal));
                    }
                }
                Err(why) => return Ok(Some(refusal_of(why)?)),
            }
        }
    }

    // Appends the lines of a record; one whose time is below the clock is refused.
    fn take(&mut self, item: LogItem, out: &mut Vec<u8>) -> Result<Option<SplitRefusal>, NoMemory>
        requires some { 0 < self.old.split.streams }
        requires few { self.old.accepted + 1 < 2 ^ 63 }
        ensures { IfOk result (SplitsItem item self.old self.new out.old.items out.new.items) }
    {
        let given = time_of(&item);
        if given < self.clock {
            return Ok(Some(SplitRefusal::Falling {
                given,
                clock: self.clock,
            }));
        }
        write_record(&self.split, &item, &mut self.own, out)?;
        self.clock = given;
        self.accepted += 1;
        if let LogItem::Step { events, .. } = item {
            if let Some(room) = events.into_room() {
                self.reader.keep_room(room);
            }
        }
        Ok(None)
    }

    /// The end of the log: it is refused where a record was begun.
    pub fn end(&mut self) -> Option<SplitRefusal>
        requires { self.old.reader.refused ≡ None → IsPending self.old.reader.rest }
        ensures { self.new.accepted ≡ self.old.accepted }
    {
        match self.reader.end() {
            Ok(()) => None,
            Err(why) => Some(SplitRefusal::Log(why)),
        }
    }
}

// Why a record is refused, where the reader refuses it and has memory.
fn refusal_of(why: LogRefusal) -> Result<SplitRefusal, NoMemory>
    ensures { IfOk result (λ refusal. (refusal ≡ Log why) × (why ≢ OutOfMemory)) }
{
    match why {
        LogRefusal::NoMemory => Err(NoMemory),
        _ => Ok(SplitRefusal::Log(why)),
    }
}

// The time of a record.
fn time_of(item: &LogItem) -> u64
    ensures { result ≡ item_time item.now }
{
    match item {
        LogItem::Step { time, .. } | LogItem::Tick { time } => *time,
    }
}
