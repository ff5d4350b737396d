//! The lexemes of a text, one after the other.
ghost use Rattle.std.specs.Prelude.{◌≡◌, ◌↔◌, ◌≤◌, [], IsTrue, length, IfOk, OnOk};
ghost use Rattle.policy_syntax.specs.machine.Cursor.{IsCursor, IsInRange, lexeme_ahead, behind_next, lexeme_of};
ghost use Rattle.policy_syntax.specs.machine.Cursor.{next_place};
ghost use Rattle.policy_syntax.specs.meaning.Lexemes.{lexemes, lexemes_at, next_lexeme};

use crate::lexemes::Lexeme;
use enf_data::{MOST_FILE_BYTES, NoMemory, Place};
use enf_value::next_token;
use std::alloc::Global;
use std::marker::Model;

// A place in a text, and the lexeme there. It is seen as what is left of the text.
#[derive(Drop)]
pub(crate) struct Cursor<'a> {
    alloc: Global,
    bytes: &'a [u8],
    place: Place,
    lexeme: Lexeme<'a>,
    // The place after the lexeme.
    behind: usize,
}

impl<'a> Model for Cursor<'a> {
    ghost use Rattle.policy_syntax.specs.machine.Cursor.{Ahead, IsCursor, lexeme_ahead, lexeme_of};

    ghost Value = { Ahead };

    ghost view = { λ c. lexeme_ahead (lexeme_of c.lexeme) c.place c.behind c.bytes.now };

    ghost invariant = { λ c. IsCursor (lexeme_of c.lexeme) c.place c.behind c.bytes.now };
}

// The lexeme at a place or after it, with its own place and the place after it.
fn lexeme_at(alloc: Global, bytes: &[u8], at: usize) -> Result<(Lexeme<'_>, Place, usize), NoMemory>
    requires short { length bytes.now ≤ MOST_FILE_BYTES }
    requires within { at ≤ length bytes.now }
    ensures cursor { IfOk result (λ found. IsCursor (lexeme_of found.0) found.1 found.2 bytes.now) }
    ensures rest { IfOk result (λ found.
        (lexeme_ahead (lexeme_of found.0) found.1 found.2 bytes.now).rest ≡ lexemes_at bytes.now at) }
{
    match next_token(alloc, bytes, at)? {
        Some(next) => Ok((Lexeme::of_token(next.token), next.place, next.end)),
        None => Ok((Lexeme::End, bytes.len() as Place, bytes.len())),
    }
}

impl<'a> Cursor<'a> {
    // At the first lexeme of a text.
    pub(crate) fn new(alloc: Global, bytes: &'a [u8]) -> Result<Cursor<'a>, NoMemory>
        requires { length bytes.now ≤ MOST_FILE_BYTES }
        ensures rest { IfOk result (λ cursor. cursor.rest ≡ lexemes bytes.now) }
        ensures end { IfOk result (λ cursor. cursor.end ≡ length bytes.now) }
    {
        let (lexeme, place, behind) = lexeme_at(alloc, bytes, 0)?;
        Ok(Cursor {
            alloc,
            bytes,
            place,
            lexeme,
            behind,
        })
    }

    // The lexeme.
    pub(crate) fn lexeme(&self) -> &Lexeme<'a>
        ensures { lexeme_of result.now ≡ next_lexeme self.now.rest }
    {
        &self.lexeme
    }

    // Whether it is the end.
    pub(crate) fn is_at_end(&self) -> bool
        ensures { IsTrue result ↔ (self.now.rest ≡ []) }
    {
        matches!(self.lexeme, Lexeme::End)
    }

    // Where it begins.
    pub(crate) fn place(&self) -> Place
        ensures { result ≡ next_place self.now.end self.now.rest }
    {
        self.place
    }

    // Goes to the next lexeme, and hands this one out. After the end is the end.
    pub(crate) fn advance(&mut self) -> Result<Lexeme<'a>, NoMemory>
        ensures taken { IfOk result (λ lexeme. lexeme_of lexeme ≡ next_lexeme self.old.rest) }
        ensures in_range { IfOk result (λ lexeme. IsInRange (lexeme_of lexeme)) }
        ensures rest { OnOk result (self.new.rest ≡ behind_next self.old.rest) }
        ensures end { self.new.end ≡ self.old.end }
    {
        let (lexeme, place, behind) = lexeme_at(self.alloc, self.bytes, self.behind)?;
        self.place = place;
        self.behind = behind;
        Ok(std::mem::replace(&mut self.lexeme, lexeme))
    }
}
