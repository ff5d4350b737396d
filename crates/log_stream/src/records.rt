//! One record, read from its bytes.
ghost use Rattle.std.specs.Prelude.{◌≡◌, ◌↔◌, ◌<◌, ◌≤◌, ◌+◌, ◌++◌, ◌∷◌, [], ℕ};
ghost use Rattle.std.specs.Prelude.{List, IfErr, IfOk, IfSome, IsTrue, None, OnOk, Result, Some, length, slice_get};
ghost use Rattle.std.specs.Option.{option_map, option_or};
ghost use Rattle.std.specs.Str.{bytes_eq};
ghost use Rattle.signature.specs.meaning.Columns.{has_sort};
ghost use Rattle.signature.specs.meaning.Grammar.{name_number};
ghost use Rattle.signature.specs.declared.entries.NameEntry.{NameEntry as AnyEntry};
ghost use Rattle.trace_meaning.specs.declared.kinds.StepKind.{StepKind as AnyKind};
ghost use Rattle.log_stream.specs.declared.items.LogMode.{LogMode as AnyMode};
ghost use Rattle.log_stream.specs.meaning.LogGrammar.{entry_of_name, LogTokensLead, LogMark, IsLogTokenAt, ModeReads};
ghost use Rattle.log_stream.specs.meaning.LogGrammar.{WrittenEvent, mark_of};
ghost use Rattle.trace_meaning.specs.meaning.Traces.{most_time};
ghost use Rattle.enf_data.specs.declared.events.Event.{Event as AnyEvent};
ghost use Rattle.enf_data.specs.declared.values.Value.{Value as AnyValue};
ghost use Rattle.log_stream.specs.declared.items.LogRefusal.{LogRefusal as AnyRefusal};
ghost use Rattle.log_stream.specs.machine.RecordStates.{Events, FailsReading, Opened, PutsEvent, ReadsEvent};
ghost use Rattle.log_stream.specs.machine.RecordStates.{ReadsFront, ReadsRow, ReadsUpTo, clash_at, row_refusal, so_far};

use crate::cursor::{behind_mark, name_at, put_value_at, time_at};
use crate::items::{LogItem, LogMode, LogRefusal};
use crate::limits::{MOST_EVENTS, MOST_RECORD_BYTES};
use enf_data::{Event, EventSet, NameId, NoMemory, Place, Row, Seed, Value};
use signature::{NameEntry, Signature, Sort};
use std::alloc::Global;
use trace_meaning::StepKind;

// Of more events than these most have the name of the one before.
const MOST_MIXED: usize = 4;

// The greatest time of a step.
fn most_time(kind: StepKind) -> u64
    ensures { result ≡ most_time kind }
{
    match kind {
        StepKind::System => 1_000_000_000_000_000,
        StepKind::Inserted => 2_000_000_000_000_000,
    }
}

fn bad_at(place: usize) -> LogRefusal
    requires { place ≤ MOST_RECORD_BYTES }
    ensures { result ≡ LogRefusal.BadRecord place }
{
    LogRefusal::BadRecord {
        place: place as Place,
    }
}

/// Whether a value is of a sort.
pub fn has_sort(sort: Sort, value: &Value) -> bool
    ensures { result ≡ has_sort sort value.now }
{
    matches!(
        (sort, value),
        (Sort::Int, Value::Num(_)) | (Sort::Text, Value::Text(_))
    )
}

// The place of a value that has not its column's sort, if there is such a column.
fn clash_at(sorts: &[Sort], column: usize, value: &Value, place: Place) -> Option<Place>
    ensures { result ≡ clash_at (slice_get sorts.now column) value.now place }
{
    match sorts.get(column) {
        Some(sort) if !has_sort(*sort, value) => Some(place),
        _ => None,
    }
}

// Keeps the place of the last value of a row where it is the first of another sort.
fn note_clash(clash: &mut Option<Place>, sorts: &[Sort], row: &Row, place: Place)
    ensures { (before : List AnyValue) (last : AnyValue) → row.now ≡ before ++ last ∷ []
        → clash.new ≡ option_or clash.old (clash_at (slice_get sorts.now (length before)) last place) }
{
    if clash.is_none() {
        if let Some((last, before)) = row.as_slice().split_last() {
            *clash = clash_at(sorts, before.len(), last, place);
        }
    }
}

// Reads the arguments after `(`, up to and with `)`, into an empty row, and where the first of another sort begins. It
// gives the place of the next token.
fn read_row(
    alloc: Global,
    sorts: &[Sort],
    bytes: &[u8],
    from: usize,
    row: &mut Row,
    clash: &mut Option<Place>,
) -> Result<usize, LogRefusal>
    requires within { from ≤ length bytes.now }
    requires short { length bytes.now ≤ MOST_RECORD_BYTES }
    requires empty { row.old ≡ [] }
    requires clear { clash.old ≡ None }
    ensures ok { IfOk result (λ next. ReadsRow sorts.now bytes.now from row.new clash.new next) }
    ensures within { IfOk result (λ next. (from < next) × (next ≤ length bytes.now)) }
    ensures err { IfErr result (λ refusal. (mode : AnyMode) (kind : AnyKind) (time : ℕ) (events : List WrittenEvent)
        (place : ℕ) (name : List ℕ) → FailsReading mode bytes.now from (Opened kind time events place name)
        refusal) }
{
    if let Some(next) = behind_mark(bytes, from, b')') {
        return Ok(next);
    }
    let mut place = from;
    loop {
        let Some(next) = put_value_at(alloc, bytes, place, row)? else {
            return Err(bad_at(place));
        };
        note_clash(clash, sorts, row, place as Place);
        if let Some(next) = behind_mark(bytes, next, b')') {
            return Ok(next);
        }
        let Some(after) = behind_mark(bytes, next, b',') else {
            return Err(bad_at(next));
        };
        place = after;
    }
}

// Whether the entry has the name.
fn is_named(entry: &NameEntry, name: &[u8]) -> bool
    ensures { result ≡ bytes_eq entry.now.text name.now }
{
    entry.text.bytes() == name
}

// The name of an event, with its entry, where it is this one.
fn declared_as<'a>(
    signature: &'a Signature,
    event: &Event,
    name: &[u8],
) -> Option<(NameId, &'a NameEntry)>
    ensures entry { IfSome result (λ found. entry_of_name signature.now name.now ≡ Some found.1.now) }
    ensures number { IfSome result (λ found. name_number signature.now name.now ≡ Some found.0.0) }
{
    // Its clause says that no name stands twice.
    let _count = signature.len();
    let Some(entry) = signature.entry(event.name) else {
        return None;
    };
    if is_named(entry, name) {
        Some((event.name, entry))
    } else {
        None
    }
}

// The event whose name is looked at first for the next one: the last of many, most of which have one name.
fn likely(events: &[Event]) -> Option<&Event> {
    if events.len() < MOST_MIXED {
        return None;
    }
    events.last()
}

// A name of the signature, with its entry. Where it is that of an event before, it is not sought.
fn declared<'a>(
    signature: &'a Signature,
    before: Option<&Event>,
    name: &[u8],
) -> Option<(NameId, &'a NameEntry)>
    ensures entry { option_map (λ found. found.1.now) result ≡ entry_of_name signature.now name.now }
    ensures number { IfSome result (λ found. name_number signature.now name.now ≡ Some found.0.0) }
{
    if let Some(event) = before {
        if let Some(found) = declared_as(signature, event, name) {
            return Some(found);
        }
    }
    let number = signature.find(name)?;
    let entry = signature.entry(number)?;
    Some((number, entry))
}

// Why an event with so many arguments is refused, if it is.
fn refusal_of(
    sorts: &[Sort],
    count: usize,
    clash: Option<Place>,
    place: Place,
) -> Option<LogRefusal>
    ensures { result ≡ row_refusal sorts.now count clash place }
{
    if count != sorts.len() {
        return Some(LogRefusal::Arity { place });
    }
    match clash {
        Some(place) => Some(LogRefusal::SortClash { place }),
        None => None,
    }
}

// Keeps a refusal where it is the first.
#[inline(never)]
fn keep_first(refused: &mut Option<LogRefusal>, refusal: LogRefusal)
    ensures { refused.new ≡ option_or refused.old (Some refusal) }
{
    if refused.is_none() {
        *refused = Some(refusal);
    }
}

// Reads an event and puts it last, or keeps the first refusal. It gives the place of the next token.
fn read_event(
    alloc: Global,
    signature: &Signature,
    bytes: &[u8],
    from: usize,
    events: &mut Vec<Event>,
    refused: &mut Option<LogRefusal>,
) -> Result<usize, LogRefusal>
    requires within { from ≤ length bytes.now }
    requires short { length bytes.now ≤ MOST_RECORD_BYTES }
    ensures ok { IfOk result (λ next. (event : Result AnyEvent AnyRefusal)
        × ReadsEvent signature.now bytes.now from event next
        × PutsEvent (so_far events.old.items refused.old) event (so_far events.new.items refused.new)) }
    ensures within { IfOk result (λ next. (from < next) × (next ≤ length bytes.now)) }
    ensures err { IfErr result (λ refusal. (mode : AnyMode) (kind : AnyKind) (time : ℕ) (events : List WrittenEvent)
        → length events < MOST_EVENTS → ((end : ℕ) → IsLogTokenAt bytes.now from end (LogMark 59) → ⊥)
        → FailsReading mode bytes.now from (Events kind time events) refusal) }
{
    let Some((name, next)) = name_at(bytes, from) else {
        return Err(bad_at(from));
    };
    let Some(inside) = behind_mark(bytes, next, b'(') else {
        return Err(bad_at(next));
    };
    let (name, sorts): (NameId, &[Sort]) = match declared(
        signature,
        likely(events.as_slice()),
        name,
    ) {
        Some((number, entry)) => (number, entry.sorts.as_slice()),
        None => {
            keep_first(
                refused,
                LogRefusal::UnknownName {
                    place: from as Place,
                },
            );
            // after a refusal an event counts for nothing, whatever its number
            (NameId(0), &[])
        }
    };
    let Ok(event) = events.push_mut(Event {
        name,
        args: Row::new(alloc),
    }) else {
        return Err(LogRefusal::NoMemory);
    };
    let mut clash = None;
    let next = read_row(alloc, sorts, bytes, inside, &mut event.args, &mut clash)?;
    if let Some(refusal) = refusal_of(sorts, event.args.len(), clash, from as Place) {
        keep_first(refused, refusal);
    }
    Ok(next)
}

// Whether a record ends here.
fn ends_here(bytes: &[u8], at: usize) -> bool
    ensures { IsTrue result ↔ IsLogTokenAt bytes.now at (at + 1) (LogMark 59) }
{
    at < bytes.len() && bytes[at] == b';'
}

// Reads the events after a time into an empty vector, repeats included, or keeps the first refusal. It gives the place
// of the semicolon after them.
fn read_events(
    alloc: Global,
    signature: &Signature,
    bytes: &[u8],
    from: usize,
    events: &mut Vec<Event>,
    refused: &mut Option<LogRefusal>,
) -> Result<usize, LogRefusal>
    requires within { from ≤ length bytes.now }
    requires short { length bytes.now ≤ MOST_RECORD_BYTES }
    requires empty { events.old.items ≡ [] }
    requires clear { refused.old ≡ None }
    ensures ok { IfOk result (λ at. ReadsUpTo signature.now bytes.now from (so_far events.new.items refused.new) at) }
    ensures err { IfErr result (λ refusal. (mode : AnyMode) (kind : AnyKind) (time : ℕ)
        → FailsReading mode bytes.now from (Events kind time []) refusal) }
{
    let mut place = from;
    for _count in 0..MOST_EVENTS {
        if ends_here(bytes, place) {
            return Ok(place);
        }
        place = read_event(alloc, signature, bytes, place, events, refused)?;
    }
    if ends_here(bytes, place) {
        Ok(place)
    } else {
        Err(bad_at(place))
    }
}

// The memory for events, with none in it.
fn emptied(alloc: Global, room: &mut Option<Vec<Event>>) -> Vec<Event>
    ensures { result.items ≡ [] }
{
    let Some(mut events) = room.take() else {
        return Vec::new(alloc);
    };
    if !events.is_empty() {
        events.clear();
    }
    events
}

// Reads what is after the mark of a step, and gives how many bytes the record has.
fn read_step(
    alloc: Global,
    signature: &Signature,
    kind: StepKind,
    bytes: &[u8],
    from: usize,
    seed: Seed,
    room: &mut Option<Vec<Event>>,
) -> Result<(LogItem, usize), LogRefusal>
    requires within { from ≤ length bytes.now }
    requires short { length bytes.now ≤ MOST_RECORD_BYTES }
    ensures { (mode : AnyMode) → ModeReads mode kind → LogTokensLead bytes.now 0 (LogMark (mark_of kind) ∷ [])
        from
        → ReadsFront signature.now mode bytes.now result }
{
    let Some((time, next)) = time_at(bytes, from) else {
        return Err(bad_at(from));
    };
    let mut events = emptied(alloc, room);
    let mut refused = None;
    let at = read_events(alloc, signature, bytes, next, &mut events, &mut refused)?;
    if time > most_time(kind) {
        return Err(LogRefusal::TimeTooLarge);
    }
    if let Some(refusal) = refused {
        return Err(refusal);
    }
    let events = EventSet::from_vec(alloc, seed, events)?;
    Ok((LogItem::Step { kind, time, events }, at + 1))
}

// Reads what is after the mark of a tick, and gives how many bytes the record has.
#[inline(never)]
fn read_tick(bytes: &[u8], from: usize) -> Result<(LogItem, usize), LogRefusal>
    requires within { from ≤ length bytes.now }
    requires short { length bytes.now ≤ MOST_RECORD_BYTES }
    ensures { (entries : List AnyEntry) (mode : AnyMode) → LogTokensLead bytes.now 0 (LogMark 62 ∷ []) from
        → ReadsFront entries mode bytes.now result }
{
    let Some((time, next)) = time_at(bytes, from) else {
        return Err(bad_at(from));
    };
    if !ends_here(bytes, next) {
        return Err(bad_at(next));
    }
    if time > most_time(StepKind::System) {
        return Err(LogRefusal::TimeTooLarge);
    }
    Ok((LogItem::Tick { time }, next + 1))
}

// Reads the record at the front of bytes, and gives how many it has; what is after it counts for nothing. A refusal is
// that of the record where the bytes are those of one record alone.
#[inline(always)]
pub(crate) fn read_record(
    alloc: Global,
    signature: &Signature,
    mode: LogMode,
    bytes: &[u8],
    seed: Seed,
    room: &mut Option<Vec<Event>>,
) -> Result<(LogItem, usize), LogRefusal>
    requires { length bytes.now ≤ MOST_RECORD_BYTES }
    ensures { ReadsFront signature.now mode bytes.now result }
{
    if let Some(next) = behind_mark(bytes, 0, b'@') {
        return read_step(alloc, signature, StepKind::System, bytes, next, seed, room);
    }
    if let Some(next) = behind_mark(bytes, 0, b'>') {
        return read_tick(bytes, next);
    }
    if mode == LogMode::TraceLog {
        if let Some(next) = behind_mark(bytes, 0, b'+') {
            return read_step(
                alloc,
                signature,
                StepKind::Inserted,
                bytes,
                next,
                seed,
                room,
            );
        }
    }
    Err(bad_at(0))
}
