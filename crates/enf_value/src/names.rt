//! Words and names, and the longest front of a text that is of one kind.
ghost use Rattle.std.specs.Prelude.{◌≡◌, ◌≤◌, IfOk, IsTrue, length, take_while};
ghost use Rattle.std.specs.List.{prefix_len};
ghost use Rattle.enf_value.specs.meaning.Tokens.{is_reserved, is_word};
ghost use Rattle.enf_value.specs.machine.ValueCalls.{is_of_kind};

use enf_data::limits::MOST_NAME_BYTES;
use enf_data::memory::NoMemory;
use enf_data::texts::{TextRefusal, TextValue};
use std::alloc::Global;

/// A kind of byte.
#[derive(Clone, Copy, Debug, PartialEq, Eq)]
pub enum ByteKind {
    /// A decimal digit.
    Digit,
    /// An ASCII letter.
    Letter,
    /// What stands in a word: an ASCII letter, a digit or `_`.
    Word,
    /// What stands in a comment: each byte but a line feed.
    Comment,
    /// What is printed as it stands in a text: no control character, quote or backslash.
    Plain,
}

impl ByteKind {
    /// Whether a byte is of this kind.
    pub fn has(self, byte: u8) -> bool
        ensures { result ≡ is_of_kind self byte }
    {
        match self {
            ByteKind::Digit => byte.is_ascii_digit(),
            ByteKind::Letter => byte.is_ascii_alphabetic(),
            ByteKind::Word => byte.is_ascii_alphabetic() || byte.is_ascii_digit() || byte == b'_',
            ByteKind::Comment => byte != b'\n',
            ByteKind::Plain => byte >= b' ' && byte != b'"' && byte != b'\\',
        }
    }

    /// How many bytes of this kind stand at the front of a text.
    pub fn front_length(self, bytes: &[u8]) -> usize
        ensures length { result ≡ prefix_len (is_of_kind self) bytes.now }
        ensures within { result ≤ length bytes.now }
    {
        bytes.iter().take_while(|byte| self.has(**byte)).count()
    }

    /// The bytes of this kind at the front of a text, as many as there are.
    pub fn front(self, bytes: &[u8]) -> &[u8]
        ensures { result.now ≡ take_while (is_of_kind self) bytes.now }
    {
        &bytes[..self.front_length(bytes)]
    }
}

/// Whether a word is one of those that are no names.
pub fn is_reserved(word: &[u8]) -> bool
    ensures { result ≡ is_reserved word.now }
{
    let reserved: [&[u8]; 18] = [
        b"true",
        b"false",
        b"not",
        b"and",
        b"or",
        b"exists",
        b"forall",
        b"prev",
        b"next",
        b"once",
        b"historically",
        b"since",
        b"eventually",
        b"always",
        b"until",
        b"rule",
        b"int",
        b"text",
    ];
    reserved.contains(&word)
}

/// The text of a word.
pub fn name_text(alloc: Global, word: &[u8]) -> Result<TextValue, NoMemory>
    requires word { IsTrue (is_word word.now) }
    requires short { length word.now ≤ MOST_NAME_BYTES }
    ensures { IfOk result (λ name. name ≡ word.now) }
{
    match TextValue::from_bytes(alloc, word) {
        Ok(name) => Ok(name),
        Err(TextRefusal::NoMemory) => Err(NoMemory),
        Err(TextRefusal::TooLong) => unreachable!(),
        Err(TextRefusal::NotUtf8) => unreachable!(),
    }
}
