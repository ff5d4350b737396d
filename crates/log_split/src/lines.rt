//! What the streams have of a record: for each stream that has some, a line after the stream's number.
ghost use Rattle.std.specs.Prelude.{◌≡◌, ◌≢◌, ◌<◌, ◌++◌, [], IsFalse, IsTrue, OnOk, filter, map};
ghost use Rattle.log_split.specs.machine.Splitting.{goes_to, own_stream, split_plan};
ghost use Rattle.log_split.specs.meaning.Streams.{events_to, lines_below, stream_tag, tagged_lines, tagged_step};
ghost use Rattle.log_split.specs.meaning.Streams.{tagged_tick};

use crate::hashes::stream_of;
use enf_data::{Event, NoMemory};
use enf_value::{print_byte, print_bytes, print_number};
use log_stream::{LogItem, print_event};
use signature::Signature;
use slices::Keys;

/// By what a log is split: the names of its events, their keys, and the number of streams.
#[derive(Clone, Copy)]
pub struct Split<'a> {
    pub signature: &'a Signature,
    pub keys: &'a Keys,
    pub streams: u32,
}

/// Appends the lines of a record. The streams of its events are kept in `own` meanwhile.
pub fn write_record(
    split: &Split<'_>,
    item: &LogItem,
    own: &mut Vec<Option<u32>>,
    out: &mut Vec<u8>,
) -> Result<(), NoMemory>
    requires { 0 < split.now.streams }
    ensures { OnOk result (out.new.items ≡ out.old.items ++ tagged_lines (split_plan split.now) item.now) }
{
    match item {
        LogItem::Tick { time } => write_ticks(split.streams, *time, out),
        LogItem::Step { time, events, .. } if events.is_empty() => {
            write_ticks(split.streams, *time, out)
        }
        LogItem::Step { time, events, .. } => {
            find_streams(split, events.as_slice(), own)?;
            write_steps(split, *time, events.as_slice(), own, out)
        }
    }
}

// Appends a tick for each stream.
#[tactic(auto, using(crate::proofs::StreamLemmas::lines_below_more))]
fn write_ticks(streams: u32, time: u64, out: &mut Vec<u8>) -> Result<(), NoMemory>
    ensures { OnOk result (out.new.items ≡ out.old.items ++ lines_below (tagged_tick time) streams) }
{
    for stream in 0..streams {
        write_tag(stream, out)?;
        print_byte(b'>', out)?;
        print_number(time, out)?;
        print_bytes(b";\n", out)?;
    }
    Ok(())
}

fn write_tag(stream: u32, out: &mut Vec<u8>) -> Result<(), NoMemory>
    ensures { OnOk result (out.new.items ≡ out.old.items ++ stream_tag stream) }
{
    print_number(stream as u64, out)?;
    print_byte(b':', out)
}

// Puts the stream of each event in place of what was there.
fn find_streams(
    split: &Split<'_>,
    events: &[Event],
    own: &mut Vec<Option<u32>>,
) -> Result<(), NoMemory>
    requires { 0 < split.now.streams }
    ensures { OnOk result (own.new.items ≡ map (own_stream (split_plan split.now).keying split.now.streams) events.now) }
{
    own.clear();
    for event in events {
        own.push(stream_of(split.keys, split.streams, event))?;
    }
    Ok(())
}

// Appends the lines of a step that has events, whose streams are known.
fn write_steps(
    split: &Split<'_>,
    time: u64,
    events: &[Event],
    own: &[Option<u32>],
    out: &mut Vec<u8>,
) -> Result<(), NoMemory>
    requires { own.now ≡ map (own_stream (split_plan split.now).keying split.now.streams) events.now }
    ensures { OnOk result (out.new.items ≡ out.old.items
        ++ lines_below (λ stream. tagged_step (split_plan split.now) time stream
        (events_to (split_plan split.now) stream events.now)) split.now.streams) }
{
    for stream in 0..split.streams {
        if goes_some(own, stream) {
            write_step_to(split, time, events, own, stream, out)?;
        }
    }
    Ok(())
}

// Whether an event of this stream goes to a stream: one without a key goes to each.
fn goes(own: Option<u32>, stream: u32) -> bool
    ensures { result ≡ goes_to stream own }
{
    match own {
        None => true,
        Some(own) => own == stream,
    }
}

// Whether some event goes to a stream.
fn goes_some(own: &[Option<u32>], stream: u32) -> bool
    ensures some { IsTrue result → filter (goes_to stream) own.now ≢ [] }
    ensures none { IsFalse result → filter (goes_to stream) own.now ≡ [] }
{
    for each in own {
        if goes(*each, stream) {
            return true;
        }
    }
    false
}

// Appends the line of a step in a stream to which some of its events go.
fn write_step_to(
    split: &Split<'_>,
    time: u64,
    events: &[Event],
    own: &[Option<u32>],
    stream: u32,
    out: &mut Vec<u8>,
) -> Result<(), NoMemory>
    requires own { own.now ≡ map (own_stream (split_plan split.now).keying split.now.streams) events.now }
    requires some { filter (goes_to stream) own.now ≢ [] }
    ensures { OnOk result (out.new.items ≡ out.old.items ++ tagged_step (split_plan split.now) time stream
        (events_to (split_plan split.now) stream events.now)) }
{
    write_tag(stream, out)?;
    print_byte(b'@', out)?;
    print_number(time, out)?;
    for (place, event) in events.iter().enumerate() {
        if goes(own[place], stream) {
            print_event(split.signature, event, out)?;
        }
    }
    print_bytes(b";\n", out)?;
    Ok(())
}
