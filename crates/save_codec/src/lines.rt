//! The lines of a saved text, and how they are printed.
ghost use Rattle.std.specs.Prelude.{◌≡◌, ◌∷◌, ◌++◌, All, OnOk, codes};
ghost use Rattle.enf_value.specs.meaning.Tokens.{spelled};
ghost use Rattle.enf_data.specs.meaning.Values.{IsValue};
ghost use Rattle.save_codec.specs.meaning.SavedTexts.{line_kind, due_text, last_text, spaced, values_text};

use enf_data::{NoMemory, Row, Value};
use enf_value::{print_byte, print_bytes, print_number, print_value};

/// A line of a saved text, after the bytes of the signature and of the policy. Its numbers are below 2^63.
#[derive(Drop)]
pub enum Line {
    Clock(u64),
    Last(Option<u64>),
    Position(u64),
    Row {
        window: u64,
        time: u64,
        values: Row,
    },
    Due {
        rule: u64,
        node: u64,
        origin: u64,
        low: u64,
        high: u64,
        values: Row,
    },
    End,
}

// A kind of line.
#[derive(Clone, Copy)]
pub(crate) enum Kind {
    Clock,
    Last,
    Position,
    Row,
    Due,
    End,
}

impl Line {
    pub(crate) fn kind(&self) -> Kind
        ensures { result ≡ line_kind self.now }
    {
        match self {
            Line::Clock(_) => Kind::Clock,
            Line::Last(_) => Kind::Last,
            Line::Position(_) => Kind::Position,
            Line::Row { .. } => Kind::Row,
            Line::Due { .. } => Kind::Due,
            Line::End => Kind::End,
        }
    }
}

// Appends a number after a space.
pub(crate) fn print_spaced(number: u64, out: &mut Vec<u8>) -> Result<(), NoMemory>
    ensures { OnOk result (out.new.items ≡ out.old.items ++ spaced number) }
{
    print_byte(b' ', out)?;
    print_number(number, out)
}

// Appends a line that has one number.
pub(crate) fn print_numbered(word: &[u8], number: u64, out: &mut Vec<u8>) -> Result<(), NoMemory>
    ensures { OnOk result (out.new.items ≡ out.old.items ++ (word.now ++ (spaced number ++ codes "\n"))) }
{
    print_bytes(word, out)?;
    print_spaced(number, out)?;
    print_byte(b'\n', out)
}

pub(crate) fn print_last(last: Option<u64>, out: &mut Vec<u8>) -> Result<(), NoMemory>
    ensures { OnOk result (out.new.items ≡ out.old.items ++ (codes "last" ++ (last_text last ++ codes "\n"))) }
{
    match last {
        Some(last) => print_numbered(b"last", last, out),
        None => print_bytes(b"last -\n", out),
    }
}

// A number in memory has 64 bits, and a text is one of the program.
fn is_value(value: &Value)
    ensures { IsValue value.now }
{
    match value {
        Value::Num(number) => {
            let _number = *number;
        }
        Value::Text(text) => {
            let _bytes = text.bytes();
        }
    }
}

// Appends a value after a space.
pub(crate) fn print_spaced_value(value: &Value, out: &mut Vec<u8>) -> Result<(), NoMemory>
    ensures text { OnOk result (out.new.items ≡ out.old.items ++ 32 ∷ spelled value.now) }
    ensures value { IsValue value.now }
{
    is_value(value);
    print_byte(b' ', out)?;
    print_value(value, out)
}

// Appends values, each after a space.
fn print_values(values: &[Value], out: &mut Vec<u8>) -> Result<(), NoMemory>
    ensures text { OnOk result (out.new.items ≡ out.old.items ++ values_text values.now) }
    ensures values { OnOk result (All IsValue values.now) }
{
    for value in values {
        print_spaced_value(value, out)?;
    }
    Ok(())
}

pub(crate) fn print_row(
    window: u64,
    time: u64,
    values: &[Value],
    out: &mut Vec<u8>,
) -> Result<(), NoMemory>
    ensures text { OnOk result (out.new.items ≡ out.old.items
        ++ (codes "row" ++ (spaced window ++ (spaced time ++ (values_text values.now ++ codes "\n"))))) }
    ensures values { OnOk result (All IsValue values.now) }
{
    print_bytes(b"row", out)?;
    print_spaced(window, out)?;
    print_spaced(time, out)?;
    print_values(values, out)?;
    print_byte(b'\n', out)
}

// Appends what stands in the line of an instance before its values.
pub(crate) fn print_due(
    rule: u64,
    node: u64,
    origin: u64,
    low: u64,
    high: u64,
    out: &mut Vec<u8>,
) -> Result<(), NoMemory>
    ensures { OnOk result (out.new.items ≡ out.old.items ++ due_text rule node origin low high) }
{
    print_bytes(b"due", out)?;
    print_spaced(rule, out)?;
    print_spaced(node, out)?;
    print_spaced(origin, out)?;
    print_spaced(low, out)?;
    print_spaced(high, out)
}
