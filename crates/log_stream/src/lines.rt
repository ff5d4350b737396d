//! The canonical lines of steps.
ghost use Rattle.std.specs.Prelude.{◌≡◌, ◌++◌, ◌∷◌, [], OnErr, OnOk, decimal, slice_index_or};
ghost use Rattle.std.specs.List.{flat_map};
ghost use Rattle.enf_value.specs.machine.ValueCalls.{AppendsPart};
ghost use Rattle.enf_value.specs.meaning.Tokens.{spelled};
ghost use Rattle.log_stream.specs.meaning.LogGrammar.{spelled_event, spelled_row, step_line, mark_of};
ghost use Rattle.signature.specs.meaning.Grammar.{entry_names as names_of};

use enf_data::{Event, EventSet, NameId, NoMemory, Value};
use enf_value::{print_byte, print_bytes, print_number, print_value};
use signature::Signature;
use trace_meaning::StepKind;

/// Appends the step's line; where memory runs out, a front of it is appended. Of a name that the signature lacks
/// nothing is printed.
#[inline(always)]
pub fn write_step(
    signature: &Signature,
    kind: StepKind,
    time: u64,
    events: &EventSet,
    out: &mut Vec<u8>,
) -> Result<(), NoMemory>
    ensures ok { OnOk result (out.new.items
        ≡ out.old.items ++ step_line (names_of signature.now) kind time events.now) }
    ensures err { OnErr result (AppendsPart (step_line (names_of signature.now) kind time events.now)
        out.old.items out.new.items) }
{
    print_byte(mark(kind), out)?;
    print_number(time, out)?;
    print_events(signature, events.as_slice(), out)?;
    print_bytes(b";\n", out)
}

fn mark(kind: StepKind) -> u8
    ensures { result ≡ mark_of kind }
{
    match kind {
        StepKind::System => b'@',
        StepKind::Inserted => b'+',
    }
}

#[inline(always)]
fn print_events(signature: &Signature, events: &[Event], out: &mut Vec<u8>) -> Result<(), NoMemory>
    ensures ok { OnOk result (out.new.items ≡ out.old.items
        ++ flat_map (λ event. 32 ∷ spelled_event (names_of signature.now) event) events.now) }
    ensures err { OnErr result (AppendsPart
        (flat_map (λ event. 32 ∷ spelled_event (names_of signature.now) event) events.now)
        out.old.items out.new.items) }
{
    for event in events {
        print_event(signature, event, out)?;
    }
    Ok(())
}

/// Appends an event after a space; where memory runs out, a front of it is appended. Of a name that the signature
/// lacks nothing is printed.
#[inline(always)]
pub fn print_event(signature: &Signature, event: &Event, out: &mut Vec<u8>) -> Result<(), NoMemory>
    ensures ok { OnOk result (out.new.items
        ≡ out.old.items ++ 32 ∷ spelled_event (names_of signature.now) event.now) }
    ensures err { OnErr result (AppendsPart (32 ∷ spelled_event (names_of signature.now) event.now)
        out.old.items out.new.items) }
{
    print_byte(b' ', out)?;
    print_name(signature, event.name, out)?;
    print_byte(b'(', out)?;
    print_row(event.args.as_slice(), out)?;
    print_byte(b')', out)
}

#[inline(always)]
fn print_name(signature: &Signature, name: NameId, out: &mut Vec<u8>) -> Result<(), NoMemory>
    ensures ok { OnOk result (out.new.items
        ≡ out.old.items ++ slice_index_or (names_of signature.now) name.0 []) }
    ensures err { OnErr result (out.new.items ≡ out.old.items) }
{
    match signature.entry(name) {
        Some(entry) => print_bytes(entry.text.bytes(), out),
        None => Ok(()),
    }
}

// Values with commas between them.
#[inline(always)]
fn print_row(row: &[Value], out: &mut Vec<u8>) -> Result<(), NoMemory>
    ensures ok { OnOk result (out.new.items ≡ out.old.items ++ spelled_row row.now) }
    ensures err { OnErr result (AppendsPart (spelled_row row.now) out.old.items out.new.items) }
{
    let [first, rest @ ..] = row else {
        return Ok(());
    };
    print_value(first, out)?;
    for value in rest {
        print_next(value, out)?;
    }
    Ok(())
}

// A value after a comma.
fn print_next(value: &Value, out: &mut Vec<u8>) -> Result<(), NoMemory>
    ensures ok { OnOk result (out.new.items ≡ out.old.items ++ 44 ∷ spelled value.now) }
    ensures err { OnErr result (AppendsPart (44 ∷ spelled value.now) out.old.items out.new.items) }
{
    print_byte(b',', out)?;
    print_value(value, out)
}
