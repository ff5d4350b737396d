//! What stands before the lines of a saved text.
ghost use Rattle.std.specs.Prelude.{◌≡◌, ◌++◌, ℕ, List, IfNone, IfSome, Some, length};
ghost use Rattle.std.specs.Option.{option_copied};
ghost use Rattle.save_codec.specs.meaning.SaveRefusals.{HasNoHead};
ghost use Rattle.save_codec.specs.meaning.SavedTexts.{head_text, sized};
ghost use Rattle.save_codec.specs.machine.LineParts.{IsPartRead};

use crate::cursor::Cursor;

// The bytes of the signature and those of the policy, and the text of the lines.
#[derive(Clone, Copy)]
pub(crate) struct Head<'a> {
    pub signature: &'a [u8],
    pub policy: &'a [u8],
    pub text: &'a [u8],
}

impl<'a> Cursor<'a> {
    // Takes so many bytes.
    fn bytes(&mut self, count: u64) -> Option<&'a [u8]>
        ensures told { IfSome result (λ taken. (length taken.now ≡ count)
            × (self.old.rest.now ≡ taken.now ++ self.new.rest.now)) }
        ensures again { (front rest : List ℕ) → length front ≡ count → self.old.rest.now ≡ front ++ rest
            → IsPartRead (option_copied result) self.new.rest.now front rest }
    {
        if (self.rest.len() as u64) < count {
            return None;
        }
        let (front, rest) = self.rest.split_at(count as usize);
        self.rest = rest;
        Some(front)
    }

    // Takes bytes after a word and their number.
    fn sized(&mut self, word: &[u8]) -> Option<&'a [u8]>
        ensures told { IfSome result
            (λ content. self.old.rest.now ≡ sized word.now content.now ++ self.new.rest.now) }
        ensures again { (content rest : List ℕ) → self.old.rest.now ≡ sized word.now content ++ rest
            → IsPartRead (option_copied result) self.new.rest.now content rest }
    {
        if !self.take(word) {
            return None;
        }
        let count = self.spaced()?;
        if !self.take(b"\n") {
            return None;
        }
        let content = self.bytes(count)?;
        if !self.take(b"\n") {
            return None;
        }
        Some(content)
    }
}

// What the bytes begin with, where it is a head.
pub(crate) fn read_head(bytes: &[u8]) -> Option<Head<'_>>
    ensures some { IfSome result
        (λ head. bytes.now ≡ head_text head.signature.now head.policy.now ++ head.text.now) }
    ensures none { IfNone result (HasNoHead bytes.now) }
{
    let mut cursor = Cursor { rest: bytes };
    if !cursor.take(b"enfstate 1\n") {
        return None;
    }
    let signature = cursor.sized(b"signature")?;
    let policy = cursor.sized(b"policy")?;
    Some(Head {
        signature,
        policy,
        text: cursor.rest,
    })
}
