//! The text of keys: `NAME(POSITION);` for each name that has one.
ghost use Rattle.std.specs.Prelude.{◌≡◌, ◌≤◌, [], IfOk, IfNone, IfSome, length};
ghost use Rattle.enf_value.specs.machine.TokenViews.{token_of};
ghost use Rattle.enf_value.specs.meaning.Tokens.{tokens_at};
ghost use Rattle.log_split.specs.meaning.KeyTexts.{SpellsKeys, no_keys};
ghost use Rattle.log_split.specs.machine.KeyReading.{IsKeyName, ReadsColumn, ReadsKey, ReadsMark};

use enf_data::{MOST_FILE_BYTES, NameId, NoMemory, Place};
use enf_value::{Mark, Token, next_token};
use signature::Signature;
use slices::Keys;
use std::alloc::Global;

/// Why a text is no list of keys.
#[derive(Clone, Copy, Debug, PartialEq, Eq)]
pub enum KeysRefusal {
    /// At the first token, or the end, that cannot continue a list of keys.
    Syntax { place: Place },
    /// At a name that the signature lacks.
    UnknownName { place: Place },
    /// At a name that has a key already.
    Repeated { place: Place },
    /// At a position that is no column of the name.
    Position { place: Place },
    NoMemory,
}

impl From<NoMemory> for KeysRefusal {
    fn from(_no_memory: NoMemory) -> KeysRefusal {
        KeysRefusal::NoMemory
    }
}

// A key as it is written, and the place after it.
#[derive(Drop)]
struct WrittenKey {
    name: NameId,
    column: usize,
    end: usize,
}

/// Reads the keys of the names of a signature.
pub fn read_keys(alloc: Global, signature: &Signature, bytes: &[u8]) -> Result<Keys, KeysRefusal>
    requires { length bytes.now ≤ MOST_FILE_BYTES }
    ensures { IfOk result (SpellsKeys signature.now bytes.now) }
{
    let mut columns = no_columns(alloc, signature)?;
    let mut place = 0;
    while let Some(key) = read_key(alloc, signature, &columns, bytes, place)? {
        columns[key.name.0 as usize] = Some(key.column);
        place = key.end;
    }
    Ok(Keys::from_vec(columns))
}

// No column for each name.
fn no_columns(alloc: Global, signature: &Signature) -> Result<Vec<Option<usize>>, NoMemory>
    ensures { IfOk result (λ columns. columns.items ≡ no_keys signature.now) }
{
    let mut columns = Vec::new(alloc);
    for _name in 0..signature.len() {
        columns.push(None)?;
    }
    Ok(columns)
}

// The key that begins at a place, where one does.
fn read_key(
    alloc: Global,
    signature: &Signature,
    columns: &[Option<usize>],
    bytes: &[u8],
    at: usize,
) -> Result<Option<WrittenKey>, KeysRefusal>
    requires short { length bytes.now ≤ MOST_FILE_BYTES }
    requires at { at ≤ length bytes.now }
    requires names { length columns.now ≡ length signature.now }
    ensures some { IfOk result (λ found. IfSome found (ReadsKey signature.now columns.now bytes.now at)) }
    ensures none { IfOk result (λ found. IfNone found (tokens_at bytes.now at ≡ [])) }
{
    let Some(first) = next_token(alloc, bytes, at)? else {
        return Ok(None);
    };
    let name = name_of(signature, columns, first.token, first.place)?;
    let open = read_mark(alloc, bytes, first.end, Mark::OpenParen)?;
    let (column, behind) = read_column(alloc, signature, name, bytes, open)?;
    let close = read_mark(alloc, bytes, behind, Mark::CloseParen)?;
    let end = read_mark(alloc, bytes, close, Mark::Semicolon)?;
    Ok(Some(WrittenKey { name, column, end }))
}

// The name that a token is, which has no key yet.
fn name_of(
    signature: &Signature,
    columns: &[Option<usize>],
    token: Token<'_>,
    place: Place,
) -> Result<NameId, KeysRefusal>
    requires { length columns.now ≡ length signature.now }
    ensures { IfOk result (λ name. IsKeyName signature.now columns.now (token_of token.entry) name.0) }
{
    let Token::Word(word) = token else {
        return Err(KeysRefusal::Syntax { place });
    };
    let Some(name) = signature.find(word) else {
        return Err(KeysRefusal::UnknownName { place });
    };
    if columns[name.0 as usize].is_some() {
        return Err(KeysRefusal::Repeated { place });
    }
    Ok(name)
}

// The place after the next token, which is to be this mark.
fn read_mark(alloc: Global, bytes: &[u8], at: usize, wanted: Mark) -> Result<usize, KeysRefusal>
    requires short { length bytes.now ≤ MOST_FILE_BYTES }
    requires at { at ≤ length bytes.now }
    ensures { IfOk result (ReadsMark bytes.now at wanted) }
{
    let Some(next) = next_token(alloc, bytes, at)? else {
        return Err(KeysRefusal::Syntax {
            place: bytes.len() as Place,
        });
    };
    match next.token {
        Token::Mark(mark) if mark == wanted => Ok(next.end),
        _ => Err(KeysRefusal::Syntax { place: next.place }),
    }
}

// The column of a name that the next token is, and the place after it.
fn read_column(
    alloc: Global,
    signature: &Signature,
    name: NameId,
    bytes: &[u8],
    at: usize,
) -> Result<(usize, usize), KeysRefusal>
    requires short { length bytes.now ≤ MOST_FILE_BYTES }
    requires at { at ≤ length bytes.now }
    ensures { IfOk result (λ read. ReadsColumn signature.now name.0 bytes.now at read.0 read.1) }
{
    let Some(next) = next_token(alloc, bytes, at)? else {
        return Err(KeysRefusal::Syntax {
            place: bytes.len() as Place,
        });
    };
    let Token::Digits(column) = next.token else {
        return Err(KeysRefusal::Syntax { place: next.place });
    };
    match signature.entry(name) {
        Some(entry) if column < entry.sorts.len() as u64 => Ok((column as usize, next.end)),
        _ => Err(KeysRefusal::Position { place: next.place }),
    }
}
