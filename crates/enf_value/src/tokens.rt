//! The tokens of signatures and policies, each read where it begins.
ghost use Rattle.std.specs.Prelude.{◌≡◌, ◌<◌, ◌≤◌, ◌+◌, ◌-◌, ◌∷◌, [], false, true, IfOk};
ghost use Rattle.std.specs.Prelude.{IfSome, IfNone, drop, length, slice_index};
ghost use Rattle.enf_value.specs.machine.TokenViews.{IsProper, BeginsToken, IsMarkAt, IsTokenAt, begins_value};
ghost use Rattle.enf_value.specs.machine.TokenViews.{placed_of, token_of};
ghost use Rattle.enf_value.specs.meaning.Tokens.{is_blank, mark_text, tokens_at, is_word_start};

use crate::names::ByteKind;
use crate::reading::read_value;
use enf_data::limits::MOST_FILE_BYTES;
use enf_data::memory::NoMemory;
use enf_data::places::Place;
use enf_data::texts::TextValue;
use enf_data::values::Value;
use std::alloc::Global;

/// A token of one or two bytes that is no word, number or text.
#[derive(Clone, Copy, Debug, PartialEq, Eq)]
pub enum Mark {
    OpenParen,
    CloseParen,
    Comma,
    Semicolon,
    Colon,
    Dot,
    OpenBracket,
    CloseBracket,
    Star,
    Equal,
    Less,
    AtMost,
    Arrow,
    Plus,
    Minus,
    PlusMinus,
}

/// A token. A word is a name or a reserved word. A number stands with its value, and with a minus apart from it.
/// Where no token begins, or one with a fault, it is wrong.
#[derive(Debug, Drop)]
pub enum Token<'a> {
    Word(&'a [u8]),
    Digits(u64),
    Negative(u64),
    Text(TextValue),
    Mark(Mark),
    Wrong,
}

/// A token, where it begins, and the place after it.
#[derive(Debug, Drop)]
pub struct PlacedToken<'a> {
    pub token: Token<'a>,
    pub place: Place,
    pub end: usize,
}

/// The next token at a place or after it; none where blanks and comments alone are left. After a wrong token there
/// is none.
pub fn next_token(
    alloc: Global,
    bytes: &[u8],
    at: usize,
) -> Result<Option<PlacedToken<'_>>, NoMemory>
    requires short { length bytes.now ≤ MOST_FILE_BYTES }
    requires at { at ≤ length bytes.now }
    ensures some { IfOk result
        (λ found. IfSome found (λ next. tokens_at bytes.now at ≡ placed_of next ∷ tokens_at bytes.now next.end)) }
    ensures proper { IfOk result (λ found. IfSome found (λ next. IsProper (token_of next.token))) }
    ensures within { IfOk result
        (λ found. IfSome found (λ next. (at < next.end) × (next.end ≤ length bytes.now))) }
    ensures placed { IfOk result (λ found. IfSome found (λ next. next.place < length bytes.now)) }
    ensures none { IfOk result (λ found. IfNone found (tokens_at bytes.now at ≡ [])) }
{
    let place = token_place(bytes, at);
    if place == bytes.len() {
        return Ok(None);
    }
    let (token, end) = token_at(alloc, bytes, place)?;
    Ok(Some(PlacedToken {
        token,
        place: place as Place,
        end,
    }))
}

fn is_blank(byte: u8) -> bool
    ensures { result ≡ is_blank byte }
{
    matches!(byte, b' ' | b'\t' | b'\r' | b'\n')
}

// The place after the blanks and comments that begin at a place.
fn token_place(bytes: &[u8], at: usize) -> usize
    requires { at ≤ length bytes.now }
    ensures from { at ≤ result }
    ensures within { result ≤ length bytes.now }
    ensures same { tokens_at bytes.now at ≡ tokens_at bytes.now result }
    ensures token { result < length bytes.now → BeginsToken (slice_index bytes.now result) }
{
    let mut place = at;
    while place < bytes.len() {
        let byte = bytes[place];
        if is_blank(byte) {
            place += 1;
        } else if byte == b'#' {
            place += 1 + ByteKind::Comment.front(&bytes[place + 1..]).len();
        } else {
            return place;
        }
    }
    place
}

fn is_word_start(byte: u8) -> bool
    ensures { result ≡ is_word_start byte }
{
    byte.is_ascii_alphabetic() || byte == b'_'
}

// Whether a number or a text would begin here.
fn begins_value(bytes: &[u8]) -> bool
    ensures { result ≡ begins_value bytes.now }
{
    matches!(bytes, [b'0'..=b'9' | b'"', ..] | [b'-', b'0'..=b'9', ..])
}

// The token that begins at a place, and the place after it.
fn token_at(alloc: Global, bytes: &[u8], place: usize) -> Result<(Token<'_>, usize), NoMemory>
    requires { place < length bytes.now }
    ensures { IfOk result (λ read. IsTokenAt bytes.now place read.0 read.1) }
{
    let rest = &bytes[place..];
    if is_word_start(bytes[place]) {
        let word = ByteKind::Word.front(rest);
        return Ok((Token::Word(word), place + word.len()));
    }
    if begins_value(rest) {
        return value_at(alloc, bytes, place);
    }
    match mark_at(rest) {
        Some(mark) => Ok((Token::Mark(mark), place + mark.len())),
        None => Ok((Token::Wrong, bytes.len())),
    }
}

// The number or the text that begins at a place, and the place after it.
fn value_at(alloc: Global, bytes: &[u8], place: usize) -> Result<(Token<'_>, usize), NoMemory>
    requires within { place < length bytes.now }
    requires begins { begins_value (drop place bytes.now) ≡ true }
    ensures { IfOk result (λ read. IsTokenAt bytes.now place read.0 read.1) }
{
    let Some((value, end)) = read_value(alloc, bytes, place)? else {
        return Ok((Token::Wrong, bytes.len()));
    };
    match value {
        Value::Text(text) => Ok((Token::Text(text), end)),
        Value::Num(number) if bytes[place] == b'-' => {
            Ok((Token::Negative(number.unsigned_abs()), end))
        }
        Value::Num(number) => Ok((Token::Digits(number.unsigned_abs()), end)),
    }
}

fn mark_at(bytes: &[u8]) -> Option<Mark>
    ensures { IsMarkAt bytes.now result }
{
    match bytes {
        [b'(', ..] => Some(Mark::OpenParen),
        [b')', ..] => Some(Mark::CloseParen),
        [b',', ..] => Some(Mark::Comma),
        [b';', ..] => Some(Mark::Semicolon),
        [b':', ..] => Some(Mark::Colon),
        [b'.', ..] => Some(Mark::Dot),
        [b'[', ..] => Some(Mark::OpenBracket),
        [b']', ..] => Some(Mark::CloseBracket),
        [b'*', ..] => Some(Mark::Star),
        [b'=', ..] => Some(Mark::Equal),
        [b'<', b'=', ..] => Some(Mark::AtMost),
        [b'<', ..] => Some(Mark::Less),
        [b'-', b'>', ..] => Some(Mark::Arrow),
        [b'-', ..] => Some(Mark::Minus),
        [b'+', b'-', ..] => Some(Mark::PlusMinus),
        [b'+', ..] => Some(Mark::Plus),
        _ => None,
    }
}

impl Mark {
    /// How many bytes it has.
    pub fn len(self) -> usize
        ensures { result ≡ length (mark_text self) }
    {
        match self {
            Mark::AtMost | Mark::Arrow | Mark::PlusMinus => 2,
            _ => 1,
        }
    }
}
