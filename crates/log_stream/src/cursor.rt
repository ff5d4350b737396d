//! The tokens of a record, each read where it is wanted, with the blanks after it.
ghost use Rattle.std.specs.Prelude.{◌≡◌, ◌<◌, ◌≤◌, ◌∷◌, [], ℕ, List, IfNone, IfOk, IfSome};
ghost use Rattle.std.specs.Prelude.{length, take_while};
ghost use Rattle.std.specs.List.{prefix_len};
ghost use Rattle.enf_value.specs.machine.ValueCalls.{is_of_kind};
ghost use Rattle.enf_value.specs.meaning.Tokens.{is_blank};
ghost use Rattle.enf_value.specs.declared.names.ByteKind.TheVariants.{Word};
ghost use Rattle.enf_data.specs.declared.values.Value.{Value as AnyValue};
ghost use Rattle.log_stream.specs.machine.RecordStates.{PutsArgument};
ghost use Rattle.log_stream.specs.meaning.LogGrammar.{LogArgument, IsLogGap, LogTokensLead, LogMark, LogName};
ghost use Rattle.log_stream.specs.meaning.LogGrammar.{IsLogTokenAt, LogTime};

use enf_data::{NoMemory, Row};
use enf_value::{ByteKind, put_value, read_digits};
use std::alloc::Global;

fn is_blank(byte: u8) -> bool
    ensures { result ≡ is_blank byte }
{
    byte <= b' ' && matches!(byte, b' ' | b'\t' | b'\r' | b'\n')
}

// The first place from here on that has no blank.
pub(crate) fn skip_blanks(bytes: &[u8], from: usize) -> usize
    requires { from ≤ length bytes.now }
    ensures gap { IsLogGap bytes.now from result }
    ensures within { result ≤ length bytes.now }
{
    let mut at = from;
    while at < bytes.len() && is_blank(bytes[at]) {
        at += 1;
    }
    at
}

// The place of the next token, where the mark stands here.
pub(crate) fn behind_mark(bytes: &[u8], at: usize, mark: u8) -> Option<usize>
    ensures some { IfSome result (λ next. LogTokensLead bytes.now at (LogMark mark ∷ []) next) }
    ensures within { IfSome result (λ next. (at < next) × (next ≤ length bytes.now)) }
    ensures none { IfNone result ((end : ℕ) → IsLogTokenAt bytes.now at end (LogMark mark) → ⊥) }
{
    if at < bytes.len() && bytes[at] == mark {
        Some(skip_blanks(bytes, at + 1))
    } else {
        None
    }
}

// The time that stands here, and the place of the next token.
pub(crate) fn time_at(bytes: &[u8], at: usize) -> Option<(u64, usize)>
    requires { at ≤ length bytes.now }
    ensures some { IfSome result (λ read. LogTokensLead bytes.now at (LogTime read.0 ∷ []) read.1) }
    ensures within { IfSome result (λ read. (at < read.1) × (read.1 ≤ length bytes.now)) }
    ensures none { IfNone result ((time end : ℕ) → IsLogTokenAt bytes.now at end (LogTime time) → ⊥) }
{
    let (time, end) = read_digits(bytes, at)?;
    Some((time, skip_blanks(bytes, end)))
}

// How many bytes of words stand at the front. Most of them are small letters.
fn word_length(bytes: &[u8]) -> usize
    ensures length { result ≡ prefix_len (is_of_kind Word) bytes.now }
    ensures within { result ≤ length bytes.now }
{
    let mut at = 0;
    while at < bytes.len() {
        let byte = bytes[at];
        if !byte.is_ascii_lowercase() {
            if !ByteKind::Word.has(byte) {
                return at;
            }
        }
        at += 1;
    }
    at
}

// The bytes of words at the front, as many as there are.
fn word_front(bytes: &[u8]) -> &[u8]
    ensures { result.now ≡ take_while (is_of_kind Word) bytes.now }
{
    &bytes[..word_length(bytes)]
}

// The name that stands here, and the place of the next token.
pub(crate) fn name_at(bytes: &[u8], at: usize) -> Option<(&[u8], usize)>
    requires { at ≤ length bytes.now }
    ensures some { IfSome result (λ read. LogTokensLead bytes.now at (LogName at read.0.now ∷ []) read.1) }
    ensures within { IfSome result (λ read. (at < read.1) × (read.1 ≤ length bytes.now)) }
    ensures none { IfNone result
        ((place end : ℕ) (name : List ℕ) → IsLogTokenAt bytes.now at end (LogName place name) → ⊥) }
{
    let name = word_front(&bytes[at..]);
    if name.is_empty() || name[0].is_ascii_digit() {
        return None;
    }
    Some((name, skip_blanks(bytes, at + name.len())))
}

// Puts the value that stands here last in a row, and gives the place of the next token.
#[inline(always)]
pub(crate) fn put_value_at(
    alloc: Global,
    bytes: &[u8],
    at: usize,
    row: &mut Row,
) -> Result<Option<usize>, NoMemory>
    requires { at ≤ length bytes.now }
    ensures some { IfOk result (λ found. IfSome found (λ next. PutsArgument bytes.now at next row.old row.new)) }
    ensures within { IfOk result (λ found. IfSome found (λ next. (at < next) × (next ≤ length bytes.now))) }
    ensures none { IfOk result (λ found. IfNone found ((place end : ℕ) (value : AnyValue)
        → IsLogTokenAt bytes.now at end (LogArgument place value) → ⊥)) }
{
    match put_value(alloc, bytes, at, row)? {
        Some(end) => Ok(Some(skip_blanks(bytes, end))),
        None => Ok(None),
    }
}
