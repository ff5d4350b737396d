//! The canonical texts of values and of numbers.
ghost use Rattle.std.specs.Prelude.{◌≡◌, ◌++◌, ◌∷◌, ◌<◌, ◌≤◌, [], IfOk, IsTrue, OnOk, OnErr};
ghost use Rattle.std.specs.Prelude.{decimal, length, take};
ghost use Rattle.std.specs.Fmt.{signed_decimal};
ghost use Rattle.std.specs.List.{flat_map};
ghost use Rattle.enf_value.specs.meaning.Tokens.{spelled, escaped, quoted};
ghost use Rattle.enf_value.specs.machine.ValueCalls.{AppendsPart};

use crate::names::ByteKind;
use enf_data::memory::NoMemory;
use enf_data::values::Value;
use itoa::{Buffer, write_digits};

// How many digits the greatest number has.
const MOST_DIGITS: usize = 20;

/// Appends bytes; where memory runs out, nothing is appended.
#[inline(always)]
pub fn print_bytes(bytes: &[u8], out: &mut Vec<u8>) -> Result<(), NoMemory>
    ensures ok { OnOk result (out.new.items ≡ out.old.items ++ bytes.now) }
    ensures err { OnErr result (out.new.items ≡ out.old.items) }
{
    out.extend_from_slice(bytes)?;
    Ok(())
}

/// Appends a byte; where memory runs out, nothing is appended.
#[inline(always)]
pub fn print_byte(byte: u8, out: &mut Vec<u8>) -> Result<(), NoMemory>
    ensures ok { OnOk result (out.new.items ≡ out.old.items ++ byte ∷ []) }
    ensures err { OnErr result (out.new.items ≡ out.old.items) }
{
    out.push(byte)?;
    Ok(())
}

/// Appends a number's decimal text; where memory runs out, nothing is appended.
#[inline(always)]
pub fn print_number(number: u64, out: &mut Vec<u8>) -> Result<(), NoMemory>
    ensures ok { OnOk result (out.new.items ≡ out.old.items ++ decimal number) }
    ensures err { OnErr result (out.new.items ≡ out.old.items) }
{
    if number < 10 {
        return print_byte(b'0' + number as u8, out);
    }
    // After the digits there are as many bytes more, so that each copy has the same length.
    let mut digits = [0; 2 * MOST_DIGITS];
    let start = write_digits(number, &mut digits, MOST_DIGITS);
    let end = out.len() + (MOST_DIGITS - start);
    print_bytes(&digits[start..start + MOST_DIGITS], out)?;
    out.truncate(end);
    Ok(())
}

fn print_signed(number: i64, out: &mut Vec<u8>) -> Result<(), NoMemory>
    ensures ok { OnOk result (out.new.items ≡ out.old.items ++ signed_decimal number) }
    ensures err { OnErr result (out.new.items ≡ out.old.items) }
{
    let mut buffer = Buffer::new();
    print_bytes(buffer.format(number).as_bytes(), out)
}

#[inline(always)]
fn print_text(bytes: &[u8], out: &mut Vec<u8>) -> Result<(), NoMemory>
    ensures ok { OnOk result (out.new.items ≡ out.old.items ++ quoted bytes.now) }
    ensures err { OnErr result (AppendsPart (quoted bytes.now) out.old.items out.new.items) }
{
    out.reserve(bytes.len() + 2)?;
    out.push_reserved(b'"');
    if !is_plain(bytes) {
        print_escaped(bytes, out)?;
        return print_byte(b'"', out);
    }
    out.extend_from_slice(bytes)?;
    out.push_reserved(b'"');
    Ok(())
}

// Whether each byte stands for itself.
#[inline(always)]
fn is_plain(bytes: &[u8]) -> bool
    ensures { IsTrue result → flat_map escaped bytes.now ≡ bytes.now }
{
    for byte in bytes {
        if !ByteKind::Plain.has(*byte) {
            return false;
        }
    }
    true
}

#[inline(never)]
fn print_escaped(bytes: &[u8], out: &mut Vec<u8>) -> Result<(), NoMemory>
    ensures ok { OnOk result (out.new.items ≡ out.old.items ++ flat_map escaped bytes.now) }
    ensures err { OnErr result (AppendsPart (flat_map escaped bytes.now) out.old.items out.new.items) }
{
    let mut at = 0;
    while at < bytes.len() {
        at += print_front(&bytes[at..], out)?;
    }
    Ok(())
}

// Appends the bytes that stand for themselves, and the byte after them, and gives how many they are.
fn print_front(bytes: &[u8], out: &mut Vec<u8>) -> Result<usize, NoMemory>
    requires { 0 < length bytes.now }
    ensures ok { IfOk result (λ count. out.new.items ≡ out.old.items ++ flat_map escaped (take count bytes.now)) }
    ensures within { IfOk result (λ count. (0 < count) × (count ≤ length bytes.now)) }
    ensures err { OnErr result (AppendsPart (flat_map escaped bytes.now) out.old.items out.new.items) }
{
    let plain = ByteKind::Plain.front(bytes);
    print_bytes(plain, out)?;
    if plain.len() < bytes.len() {
        print_escaped_byte(bytes[plain.len()], out)?;
        return Ok(plain.len() + 1);
    }
    Ok(plain.len())
}

fn print_escaped_byte(byte: u8, out: &mut Vec<u8>) -> Result<(), NoMemory>
    ensures ok { OnOk result (out.new.items ≡ out.old.items ++ escaped byte) }
    ensures err { OnErr result (out.new.items ≡ out.old.items) }
{
    match byte {
        b'"' => print_bytes(b"\\\"", out),
        b'\\' => print_bytes(b"\\\\", out),
        b'\n' => print_bytes(b"\\n", out),
        b'\r' => print_bytes(b"\\r", out),
        b'\t' => print_bytes(b"\\t", out),
        _ => print_byte(byte, out),
    }
}

/// Appends the value's text: a number in decimal, a text in quotes with its escapes. Where memory runs out, a front
/// of that text is appended.
#[inline(always)]
pub fn print_value(value: &Value, out: &mut Vec<u8>) -> Result<(), NoMemory>
    ensures ok { OnOk result (out.new.items ≡ out.old.items ++ spelled value.now) }
    ensures err { OnErr result (AppendsPart (spelled value.now) out.old.items out.new.items) }
{
    match value {
        Value::Num(number) => print_signed(*number, out),
        Value::Text(text) => print_text(text.bytes(), out),
    }
}
