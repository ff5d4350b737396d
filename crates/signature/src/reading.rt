//! The reader of signatures, token by token.
ghost use Rattle.std.specs.Prelude.{◌≡◌, ◌≤◌, ◌<◌, ◌↔◌, IsTrue, List, Result, false, length};
ghost use Rattle.enf_value.specs.machine.TokenViews.{IsProper, token_of};
ghost use Rattle.signature.specs.machine.Entries.{IsNewEntry};
ghost use Rattle.signature.specs.machine.Reader.{AddsSort, IsFitPart, RefusesArrow, TakesToken, made_entry, word_sort};
ghost use Rattle.signature.specs.machine.Reader.{GivesEntries, GivesSignatureAnswer};
ghost use Rattle.signature.specs.meaning.Refusals.{AnswersSignature};
ghost use Rattle.signature.specs.declared.entries.NameEntry.{NameEntry};
ghost use Rattle.signature.specs.declared.refusals.SignatureRefusal.{SignatureRefusal};
ghost use Rattle.enf_value.specs.meaning.Tokens as AnyToken;

use crate::entries::{NameEntry, Sort, Sorts};
use crate::refusals::{SignatureLimit, SignatureRefusal};
use crate::signatures::Signature;
use enf_data::{MOST_COLUMNS, MOST_FILE_BYTES, MOST_NAME_BYTES, MOST_NAMES, Place, TextValue};
use enf_value::{Mark, Token, is_reserved, name_text, next_token};
use std::alloc::Global;

// What has come of the next entry.
#[derive(Debug, Drop)]
pub(crate) enum Part {
    Nothing,
    Name(TextValue),
    Open(TextValue),
    Sorts(TextValue, Sorts),
    Comma(TextValue, Sorts),
    Close(TextValue, Sorts),
    Mark(NameEntry),
}

fn sort_of(word: &[u8]) -> Option<Sort>
    ensures { result ≡ word_sort word.now }
{
    match word {
        b"int" => Some(Sort::Int),
        b"text" => Some(Sort::Text),
        _ => None,
    }
}

fn take_name(
    alloc: Global,
    signature: &Signature,
    token: Token<'_>,
    place: Place,
) -> Result<Part, SignatureRefusal>
    requires { IsProper (token_of token) }
    ensures { TakesToken signature.now Part.Nothing place (token_of token.entry) signature.now result }
{
    let Token::Word(word) = token else {
        return Err(SignatureRefusal::Syntax { place });
    };
    if is_reserved(word) {
        return Err(SignatureRefusal::Syntax { place });
    }
    if signature.len() == MOST_NAMES {
        let which = SignatureLimit::Names;
        return Err(SignatureRefusal::Limit { which, place });
    }
    if word.len() > MOST_NAME_BYTES {
        let which = SignatureLimit::Name;
        return Err(SignatureRefusal::Limit { which, place });
    }
    match signature.find(word) {
        Some(name) => Err(SignatureRefusal::Repeated { name, place }),
        None => Ok(Part::Name(name_text(alloc, word)?)),
    }
}

fn take_open(name: TextValue, token: Token<'_>, place: Place) -> Result<Part, SignatureRefusal>
    ensures { (entries : List NameEntry)
        → TakesToken entries (Part.Name name) place (token_of token.entry) entries result }
{
    match token {
        Token::Mark(Mark::OpenParen) => Ok(Part::Open(name)),
        _ => Err(SignatureRefusal::Syntax { place }),
    }
}

fn push_sort(
    name: TextValue,
    mut sorts: Sorts,
    word: &[u8],
    place: Place,
) -> Result<Part, SignatureRefusal>
    ensures { AddsSort name sorts place (word_sort word.now) result }
{
    let Some(sort) = sort_of(word) else {
        return Err(SignatureRefusal::Syntax { place });
    };
    match sorts.push(sort) {
        Ok(()) => Ok(Part::Sorts(name, sorts)),
        Err(_) => Err(SignatureRefusal::NoMemory),
    }
}

fn take_first_sort(
    alloc: Global,
    name: TextValue,
    token: Token<'_>,
    place: Place,
) -> Result<Part, SignatureRefusal>
    ensures { (entries : List NameEntry)
        → TakesToken entries (Part.Open name) place (token_of token.entry) entries result }
{
    match token {
        Token::Word(word) => push_sort(name, Sorts::new(alloc), word, place),
        Token::Mark(Mark::CloseParen) => Ok(Part::Close(name, Sorts::new(alloc))),
        _ => Err(SignatureRefusal::Syntax { place }),
    }
}

fn take_comma(
    name: TextValue,
    sorts: Sorts,
    token: Token<'_>,
    place: Place,
) -> Result<Part, SignatureRefusal>
    ensures { (entries : List NameEntry)
        → TakesToken entries (Part.Sorts name sorts) place (token_of token.entry) entries result }
{
    match token {
        Token::Mark(Mark::Comma) => Ok(Part::Comma(name, sorts)),
        Token::Mark(Mark::CloseParen) => Ok(Part::Close(name, sorts)),
        _ => Err(SignatureRefusal::Syntax { place }),
    }
}

fn take_sort(
    name: TextValue,
    sorts: Sorts,
    token: Token<'_>,
    place: Place,
) -> Result<Part, SignatureRefusal>
    ensures { (entries : List NameEntry)
        → TakesToken entries (Part.Comma name sorts) place (token_of token.entry) entries result }
{
    let Token::Word(word) = token else {
        return Err(SignatureRefusal::Syntax { place });
    };
    if sorts.len() == MOST_COLUMNS && sort_of(word).is_some() {
        let which = SignatureLimit::Arity;
        return Err(SignatureRefusal::Limit { which, place });
    }
    push_sort(name, sorts, word, place)
}

fn take_mark(
    alloc: Global,
    signature: &mut Signature,
    name: TextValue,
    sorts: Sorts,
    token: Token<'_>,
    place: Place,
) -> Result<Part, SignatureRefusal>
    requires { IsNewEntry signature.old (made_entry name sorts false false) }
    ensures { TakesToken signature.old (Part.Close name sorts) place (token_of token.entry) signature.new result }
{
    let (causable, suppressible) = match token {
        Token::Mark(Mark::Semicolon) => (false, false),
        Token::Mark(Mark::Plus) => (true, false),
        Token::Mark(Mark::Minus) => (false, true),
        Token::Mark(Mark::PlusMinus) => (true, true),
        _ => return Err(SignatureRefusal::Syntax { place }),
    };
    let entry = NameEntry {
        text: name,
        sorts,
        causable,
        suppressible,
    };
    if causable || suppressible {
        return Ok(Part::Mark(entry));
    }
    signature.push(alloc, entry)?;
    Ok(Part::Nothing)
}

fn take_end(
    alloc: Global,
    signature: &mut Signature,
    entry: NameEntry,
    token: Token<'_>,
    place: Place,
) -> Result<Part, SignatureRefusal>
    requires { IsNewEntry signature.old entry }
    ensures { TakesToken signature.old (Part.Mark entry) place (token_of token.entry) signature.new result }
{
    match token {
        Token::Mark(Mark::Semicolon) => {
            signature.push(alloc, entry)?;
            Ok(Part::Nothing)
        }
        _ => Err(SignatureRefusal::Syntax { place }),
    }
}

// Takes the next token: what has come of the next entry, or the refusal at the token.
pub(crate) fn take(
    alloc: Global,
    signature: &mut Signature,
    part: Part,
    token: Token<'_>,
    place: Place,
) -> Result<Part, SignatureRefusal>
    requires proper { IsProper (token_of token) }
    requires fits { IsFitPart signature.old part }
    ensures { TakesToken signature.old part place (token_of token.entry) signature.new result }
{
    match part {
        Part::Nothing => take_name(alloc, signature, token, place),
        Part::Name(name) => take_open(name, token, place),
        Part::Open(name) => take_first_sort(alloc, name, token, place),
        Part::Sorts(name, sorts) => take_comma(name, sorts, token, place),
        Part::Comma(name, sorts) => take_sort(name, sorts, token, place),
        Part::Close(name, sorts) => take_mark(alloc, signature, name, sorts, token, place),
        Part::Mark(entry) => take_end(alloc, signature, entry, token, place),
    }
}

// Whether the token is an arrow, which a signature does not have.
fn is_arrow(token: &Token<'_>) -> bool
    ensures { IsTrue result ↔ (token_of token.now ≡ AnyToken.SymbolToken Mark.Arrow) }
{
    matches!(token, Token::Mark(Mark::Arrow))
}

// The refusal of an arrow: a minus stands there, and a wrong byte after it.
fn arrow_refusal(
    alloc: Global,
    signature: &mut Signature,
    part: Part,
    place: Place,
) -> SignatureRefusal
    requires place { place < MOST_FILE_BYTES }
    requires fits { IsFitPart signature.old part }
    ensures { RefusesArrow signature.old part place result }
{
    match take(alloc, signature, part, Token::Mark(Mark::Minus), place) {
        Ok(_part) => SignatureRefusal::Syntax { place: place + 1 },
        Err(refusal) => refusal,
    }
}

// Reads a signature, up to its end or the first refusal.
pub(crate) fn read(alloc: Global, bytes: &[u8]) -> Result<Signature, SignatureRefusal>
    requires { length bytes.now ≤ MOST_FILE_BYTES }
    ensures answer { GivesSignatureAnswer bytes.now result }
    ensures only { (answer : Result (List NameEntry) SignatureRefusal) → AnswersSignature bytes.now answer
        → GivesEntries result answer }
{
    let mut signature = Signature::new(alloc);
    let mut part = Part::Nothing;
    let mut place = 0;
    while let Some(next) = next_token(alloc, bytes, place)? {
        if is_arrow(&next.token) {
            return Err(arrow_refusal(alloc, &mut signature, part, next.place));
        }
        part = take(alloc, &mut signature, part, next.token, next.place)?;
        place = next.end;
    }
    match part {
        Part::Nothing => Ok(signature),
        _ => Err(SignatureRefusal::Syntax {
            place: bytes.len() as Place,
        }),
    }
}
