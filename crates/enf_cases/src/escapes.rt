//! The bytes that an input stands for.
ghost use Rattle.std.specs.Prelude.{◌<◌, IfSome, length};

use crate::case::CaseError;
use std::alloc::Global;

/// The bytes of an input, with its escapes replaced.
pub fn unescaped(alloc: Global, input: &[u8]) -> Result<Vec<u8>, CaseError> {
    let mut bytes = Vec::with_capacity(alloc, input.len())?;
    unescape(input, &mut bytes)?;
    Ok(bytes)
}

fn unescape(input: &[u8], bytes: &mut Vec<u8>) -> Result<(), CaseError> {
    let mut rest = input;
    while let Some((byte, behind)) = next(rest) {
        bytes.push(byte)?;
        rest = behind;
    }
    if rest.is_empty() {
        Ok(())
    } else {
        Err(CaseError::Malformed)
    }
}

// The byte that the front stands for, and what is after it.
fn next(input: &[u8]) -> Option<(u8, &[u8])>
    ensures { IfSome result (λ found. length found.1.now < length input.now) }
{
    match input.split_first()? {
        (b'\\', rest) => escaped(rest),
        (byte, rest) => Some((*byte, rest)),
    }
}

// The byte that the front after a backslash stands for, and what is after it.
fn escaped(input: &[u8]) -> Option<(u8, &[u8])>
    ensures { IfSome result (λ found. length found.1.now < length input.now) }
{
    match input.split_first()? {
        (b'x', digits) => byte_of(digits),
        (letter, rest) => Some((plain(*letter)?, rest)),
    }
}

// The byte of two digits.
fn byte_of(digits: &[u8]) -> Option<(u8, &[u8])>
    ensures { IfSome result (λ found. length found.1.now < length digits.now) }
{
    let [high, low, ..] = digits else {
        return None;
    };
    Some((hex(*high)? << 4 | hex(*low)?, &digits[2..]))
}

fn plain(letter: u8) -> Option<u8> {
    match letter {
        b'n' => Some(b'\n'),
        b'r' => Some(b'\r'),
        b't' => Some(b'\t'),
        b'\\' => Some(b'\\'),
        _ => None,
    }
}

fn hex(digit: u8) -> Option<u8> {
    match digit {
        b'0'..=b'9' => Some(digit - b'0'),
        b'a'..=b'f' => Some(digit - b'a' + 10),
        _ => None,
    }
}
