//! The tokens of values, read where they begin.
ghost use Rattle.std.specs.Prelude.{◌≡◌, ◌≢◌, ◌<◌, ◌≤◌, ◌+◌, ◌==◌, ◌^◌, ℕ, ℤ};
ghost use Rattle.std.specs.Prelude.{pos, List, length, take, drop, slice_index, IfOk, IfSome, IfNone, IsTrue, OnErr};
ghost use Rattle.std.specs.Prelude.{if◌then◌else◌};
ghost use Rattle.std.specs.Char.{is_ascii_digit};
ghost use Rattle.std.specs.List.{prefix_len};
ghost use Rattle.std.specs.Str.{IsAscii};
ghost use Rattle.enf_data.specs.meaning.Texts.{IsTextValue};
ghost use Rattle.enf_value.specs.machine.ValueCalls.{PutsValueToken, WrittenTextAt};
ghost use Rattle.enf_value.specs.meaning.Tokens.{ValueTokenAt, escape_meaning};
ghost use Rattle.enf_data.specs.declared.values.Value.{Value as AnyValue};
ghost use Rattle.enf_data.specs.declared.values.Value.TheVariants.{Num, Text};

use crate::names::ByteKind;
use enf_data::limits::MOST_TEXT_BYTES;
use enf_data::memory::NoMemory;
use enf_data::rows::Row;
use enf_data::texts::{TextRefusal, TextValue};
use enf_data::values::Value;
use std::alloc::Global;

/// The value of the number or text token that begins at a place, and the place after it; none where no token
/// begins there or its value is refused. A number takes all digits that follow, so the token ends at another byte
/// or at the end.
#[inline(always)]
pub fn read_value(
    alloc: Global,
    bytes: &[u8],
    at: usize,
) -> Result<Option<(Value, usize)>, NoMemory>
    requires { at ≤ length bytes.now }
    ensures some { IfOk result (λ found. IfSome found (λ read. ValueTokenAt bytes.now at read.1 read.0)) }
    ensures within { IfOk result (λ found. IfSome found (λ read. (at < read.1) × (read.1 ≤ length bytes.now))) }
    ensures none { IfOk result
        (λ found. IfNone found ((value : AnyValue) (end : ℕ) → ValueTokenAt bytes.now at end value → ⊥)) }
{
    let Some((value, length)) = read_front(alloc, &bytes[at..])? else {
        return Ok(None);
    };
    Ok(Some((value, at + length)))
}

/// Puts the value of the token that begins at a place last in a row, and gives the place after the token; none where
/// `read_value` gives none, and then the row stays.
#[inline(always)]
pub fn put_value(
    alloc: Global,
    bytes: &[u8],
    at: usize,
    row: &mut Row,
) -> Result<Option<usize>, NoMemory>
    requires { at ≤ length bytes.now }
    ensures some { IfOk result (λ found. IfSome found (λ end. PutsValueToken bytes.now at end row.old row.new)) }
    ensures within { IfOk result (λ found. IfSome found (λ end. (at < end) × (end ≤ length bytes.now))) }
    ensures none { IfOk result
        (λ found. IfNone found ((value : AnyValue) (end : ℕ) → ValueTokenAt bytes.now at end value → ⊥)) }
    ensures kept { IfOk result (λ found. IfNone found (row.new ≡ row.old)) }
    ensures err { OnErr result (row.new ≡ row.old) }
{
    let Some(length) = put_front(alloc, &bytes[at..], row)? else {
        return Ok(None);
    };
    Ok(Some(at + length))
}

#[inline(always)]
fn put_front(alloc: Global, bytes: &[u8], row: &mut Row) -> Result<Option<usize>, NoMemory>
    ensures some { IfOk result (λ found. IfSome found (λ end. PutsValueToken bytes.now 0 end row.old row.new)) }
    ensures none { IfOk result
        (λ found. IfNone found ((value : AnyValue) (end : ℕ) → ValueTokenAt bytes.now 0 end value → ⊥)) }
    ensures kept { IfOk result (λ found. IfNone found (row.new ≡ row.old)) }
    ensures err { OnErr result (row.new ≡ row.old) }
{
    if begins_text(bytes) {
        put_text(alloc, bytes, row)
    } else {
        put_number(bytes, row)
    }
}

#[inline(always)]
fn put_number(bytes: &[u8], row: &mut Row) -> Result<Option<usize>, NoMemory>
    ensures some { IfOk result (λ found. IfSome found (λ end. PutsValueToken bytes.now 0 end row.old row.new)) }
    ensures none { IfOk result
        (λ found. IfNone found ((number : ℤ) (end : ℕ) → ValueTokenAt bytes.now 0 end (Num number) → ⊥)) }
    ensures kept { IfOk result (λ found. IfNone found (row.new ≡ row.old)) }
    ensures err { OnErr result (row.new ≡ row.old) }
{
    let Some((number, end)) = read_number(bytes) else {
        return Ok(None);
    };
    row.put(Value::Num(number))?;
    Ok(Some(end))
}

// Most texts are short, all ASCII and have no escape: such a one is looked at once and copied once.
#[inline(always)]
fn put_text(alloc: Global, bytes: &[u8], row: &mut Row) -> Result<Option<usize>, NoMemory>
    requires { slice_index bytes.now 0 ≡ 34 }
    ensures some { IfOk result (λ found. IfSome found (λ end. PutsValueToken bytes.now 0 end row.old row.new)) }
    ensures none { IfOk result
        (λ found. IfNone found ((text : List ℕ) (end : ℕ) → ValueTokenAt bytes.now 0 end (Text text) → ⊥)) }
    ensures kept { IfOk result (λ found. IfNone found (row.new ≡ row.old)) }
    ensures err { OnErr result (row.new ≡ row.old) }
{
    let behind = &bytes[1..];
    if let Some((quote, true)) = plain_end(behind) {
        if quote <= MOST_TEXT_BYTES {
            let text = TextValue::copied(alloc, &behind[..quote])?;
            row.put(Value::Text(text))?;
            return Ok(Some(quote + 2));
        }
    }
    put_any_text(alloc, bytes, row)
}

#[inline(never)]
fn put_any_text(alloc: Global, bytes: &[u8], row: &mut Row) -> Result<Option<usize>, NoMemory>
    requires { slice_index bytes.now 0 ≡ 34 }
    ensures some { IfOk result (λ found. IfSome found (λ end. PutsValueToken bytes.now 0 end row.old row.new)) }
    ensures none { IfOk result
        (λ found. IfNone found ((text : List ℕ) (end : ℕ) → ValueTokenAt bytes.now 0 end (Text text) → ⊥)) }
    ensures kept { IfOk result (λ found. IfNone found (row.new ≡ row.old)) }
    ensures err { OnErr result (row.new ≡ row.old) }
{
    let Some((text, end)) = read_text(alloc, bytes)? else {
        return Ok(None);
    };
    row.put(Value::Text(text))?;
    Ok(Some(end))
}

#[inline(always)]
fn read_front(alloc: Global, bytes: &[u8]) -> Result<Option<(Value, usize)>, NoMemory>
    ensures some { IfOk result (λ found. IfSome found (λ read. ValueTokenAt bytes.now 0 read.1 read.0)) }
    ensures none { IfOk result
        (λ found. IfNone found ((value : AnyValue) (end : ℕ) → ValueTokenAt bytes.now 0 end value → ⊥)) }
{
    if begins_text(bytes) {
        Ok(read_text(alloc, bytes)?.map(|(text, end)| (Value::Text(text), end)))
    } else {
        Ok(read_number(bytes).map(|(number, end)| (Value::Num(number), end)))
    }
}

fn begins_text(bytes: &[u8]) -> bool
    ensures { result ≡ (slice_index bytes.now 0 == 34) }
{
    bytes.first() == Some(&b'"')
}

fn read_number(bytes: &[u8]) -> Option<(i64, usize)>
    ensures some { IfSome result (λ read. ValueTokenAt bytes.now 0 read.1 (Num read.0)) }
    ensures none { IfNone result ((number : ℤ) (end : ℕ) → ValueTokenAt bytes.now 0 end (Num number) → ⊥) }
{
    if let Some((number, end)) = read_digits(bytes, 0) {
        return Some((number as i64, end));
    }
    let end = number_end(bytes);
    let number = str::from_utf8(&bytes[..end]).ok()?.parse().ok()?;
    Some((number, end))
}

// A number above this one is 2^63 or more with any digit after it.
const MOST_BEFORE_A_DIGIT: u64 = 922_337_203_685_477_580;

/// The number below 2^63 that digits alone write at a place, and the place after them; none where no such number
/// stands there.
pub fn read_digits(bytes: &[u8], at: usize) -> Option<(u64, usize)>
    requires { at ≤ length bytes.now }
    ensures some { IfSome result (λ read. ValueTokenAt bytes.now at read.1 (Num (pos read.0))) }
    ensures digits { IfSome result (λ read. slice_index bytes.now at ≢ 45) }
    ensures within { IfSome result (λ read. (at < read.1) × (read.1 ≤ length bytes.now) × (read.0 < 2 ^ 63)) }
    ensures none { IfNone result ((number end : ℕ) → slice_index bytes.now at ≢ 45
        → ValueTokenAt bytes.now at end (Num (pos number)) → ⊥) }
{
    let mut number = 0;
    let mut end = at;
    while end < bytes.len() && bytes[end].is_ascii_digit() {
        if number > MOST_BEFORE_A_DIGIT {
            return None;
        }
        number = 10 * number + (bytes[end] - b'0') as u64;
        end += 1;
    }
    if end == at || number > i64::MAX as u64 {
        return None;
    }
    Some((number, end))
}

// Where a minus and digits at the front end.
fn number_end(bytes: &[u8]) -> usize
    ensures within { result ≤ length bytes.now }
    ensures end { result ≡ (if slice_index bytes.now 0 == 45
        then 1 + prefix_len is_ascii_digit (drop 1 bytes.now) else prefix_len is_ascii_digit bytes.now) }
{
    match bytes {
        [b'-', digits @ ..] => 1 + ByteKind::Digit.front_length(digits),
        _ => ByteKind::Digit.front_length(bytes),
    }
}

#[inline(always)]
fn read_text(alloc: Global, bytes: &[u8]) -> Result<Option<(TextValue, usize)>, NoMemory>
    requires { slice_index bytes.now 0 ≡ 34 }
    ensures some { IfOk result (λ found. IfSome found (λ read. ValueTokenAt bytes.now 0 read.1 (Text read.0))) }
    ensures none { IfOk result
        (λ found. IfNone found ((text : List ℕ) (end : ℕ) → ValueTokenAt bytes.now 0 end (Text text) → ⊥)) }
{
    let behind = &bytes[1..];
    if let Some((quote, _)) = plain_end(behind) {
        return text_token(alloc, &behind[..quote], quote);
    }
    let Some((written, quote)) = read_written(alloc, behind)? else {
        return Ok(None);
    };
    text_token(alloc, written.as_slice(), quote)
}

// Where the last quote of a text stands that has no escape, in the bytes after its first, and whether all bytes up to
// it are ASCII.
#[inline(always)]
fn plain_end(bytes: &[u8]) -> Option<(usize, bool)>
    ensures written { IfSome result (λ found. WrittenTextAt bytes.now found.0 (take found.0 bytes.now)) }
    ensures within { IfSome result (λ found. found.0 < length bytes.now) }
    ensures ascii { IfSome result (λ found. IsTrue found.1 → IsAscii (take found.0 bytes.now)) }
{
    let mut ascii = true;
    for (place, byte) in bytes.iter().enumerate() {
        match *byte {
            b'"' => return Some((place, ascii)),
            b'\\' => return None,
            byte => {
                if byte >= 128 {
                    ascii = false;
                }
            }
        }
    }
    None
}

// The text, where its bytes are one, and the place after its last quote.
#[inline(always)]
fn text_token(
    alloc: Global,
    text: &[u8],
    quote: usize,
) -> Result<Option<(TextValue, usize)>, NoMemory>
    requires { quote < 2 ^ 63 }
    ensures some { (bytes : List ℕ) → slice_index bytes 0 ≡ 34 → WrittenTextAt (drop 1 bytes) quote text.now
        → IfOk result (λ found. IfSome found (λ read. ValueTokenAt bytes 0 read.1 (Text read.0))) }
    ensures none { (bytes : List ℕ) → WrittenTextAt (drop 1 bytes) quote text.now
        → IfOk result
        (λ found. IfNone found ((other : List ℕ) (end : ℕ) → ValueTokenAt bytes 0 end (Text other) → ⊥)) }
{
    match TextValue::from_bytes(alloc, text) {
        Ok(text) => Ok(Some((text, quote + 2))),
        Err(TextRefusal::TooLong) => Ok(None),
        Err(TextRefusal::NotUtf8) => Ok(None),
        Err(TextRefusal::NoMemory) => Err(NoMemory),
    }
}

// The bytes of a text after its first quote, and where its last quote stands.
#[inline(never)]
fn read_written(alloc: Global, bytes: &[u8]) -> Result<Option<(Vec<u8>, usize)>, NoMemory>
    ensures some { IfOk result (λ found. IfSome found (λ read. WrittenTextAt bytes.now read.1 read.0.items)) }
    ensures within { IfOk result (λ found. IfSome found (λ read. read.1 < length bytes.now)) }
    ensures none { IfOk result
        (λ found. IfNone found ((text : List ℕ) (end : ℕ) → WrittenTextAt bytes.now end text → ⊥)) }
{
    let mut text = Vec::new(alloc);
    let mut escape = false;
    for (place, byte) in bytes.iter().enumerate() {
        match (escape, *byte) {
            (false, b'"') => return Ok(Some((text, place))),
            (false, b'\\') => escape = true,
            (false, byte) => text.push(byte)?,
            (true, letter) => {
                let Some(byte) = escaped_by(letter) else {
                    return Ok(None);
                };
                text.push(byte)?;
                escape = false;
            }
        }
    }
    Ok(None)
}

fn escaped_by(letter: u8) -> Option<u8>
    ensures { result ≡ escape_meaning letter }
{
    match letter {
        b'"' | b'\\' => Some(letter),
        b'n' => Some(b'\n'),
        b'r' => Some(b'\r'),
        b't' => Some(b'\t'),
        _ => None,
    }
}
