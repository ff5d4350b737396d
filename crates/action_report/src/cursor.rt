//! What is left of a line, and the parts that are taken from its front.
ghost use Rattle.std.specs.Prelude.{◌≡◌, ◌++◌, ◌<◌, ◌^◌, ℕ, List, IfOk, IfSome, IsTrue, Some};
ghost use Rattle.std.specs.Prelude.{decimal, true};
ghost use Rattle.enf_value.specs.meaning.Tokens.{is_word, spelled, EndsBefore, IsNoDigit};
ghost use Rattle.enf_data.specs.meaning.Values.{IsValue};
ghost use Rattle.enf_data.specs.declared.values.Value.{Value as AnyValue};
ghost use Rattle.action_report.specs.machine.LineParts.{EndsWord, IsFieldRead};
ghost use Rattle.action_report.specs.meaning.ReportLines.{labelled};

use enf_data::{NoMemory, Value};
use enf_value::laws::{one_token_at_place, printed_is_token};
use enf_value::{ByteKind, read_value};
use std::alloc::Global;

// What is left of a line.
#[derive(Drop)]
pub(crate) struct Cursor<'a> {
    pub rest: &'a [u8],
}

impl<'a> Cursor<'a> {
    // Takes these bytes, where they stand next, and says whether they did.
    pub fn take(&mut self, bytes: &[u8]) -> bool
        ensures { (rest : List ℕ) → self.old.rest.now ≡ bytes.now ++ rest
            → (result ≡ true) × (self.new.rest.now ≡ rest) }
    {
        match self.rest.strip_prefix(bytes) {
            Some(rest) => {
                self.rest = rest;
                true
            }
            None => false,
        }
    }

    // Takes the letters, digits and `_` that stand next.
    pub fn word(&mut self) -> &'a [u8]
        ensures { (word rest : List ℕ) → IsTrue (is_word word) → EndsWord rest
            → self.old.rest.now ≡ word ++ rest
            → (result.now ≡ word) × (self.new.rest.now ≡ rest) }
    {
        let word = ByteKind::Word.front(self.rest);
        self.rest = &self.rest[word.len()..];
        word
    }

    // Takes the number that stands next, with leading zeros too.
    pub fn number(&mut self) -> Option<u64>
        ensures { (number : ℕ) (rest : List ℕ) → number < 2 ^ 64 → IsNoDigit rest
            → self.old.rest.now ≡ decimal number ++ rest → IsFieldRead result self.new.rest.now number rest }
    {
        let digits = ByteKind::Digit.front(self.rest);
        self.rest = &self.rest[digits.len()..];
        str::from_utf8(digits).ok()?.parse().ok()
    }

    // Takes a number after a word.
    pub fn labelled(&mut self, word: &[u8]) -> Option<u64>
        ensures { (number : ℕ) (rest : List ℕ) → number < 2 ^ 64 → IsNoDigit rest
            → self.old.rest.now ≡ labelled word.now number ++ rest
            → IsFieldRead result self.new.rest.now number rest }
    {
        if !self.take(word) {
            return None;
        }
        self.number()
    }

    // Takes a number of 32 bits after a word.
    pub fn short_labelled(&mut self, word: &[u8]) -> Option<u32>
        ensures { (number : ℕ) (rest : List ℕ) → number < 2 ^ 32 → IsNoDigit rest
            → self.old.rest.now ≡ labelled word.now number ++ rest
            → IsFieldRead result self.new.rest.now number rest }
    {
        u32::try_from(self.labelled(word)?).ok()
    }

    // Takes the value that stands next.
    pub fn value(&mut self, alloc: Global) -> Result<Option<Value>, NoMemory>
        ensures value { IfOk result (λ found. IfSome found IsValue) }
        ensures again { (value : AnyValue) (rest : List ℕ) → IsValue value → EndsBefore value rest
            → self.old.rest.now ≡ spelled value ++ rest
            → IfOk result (λ found. IsFieldRead found self.new.rest.now value rest) }
    {
        printed_is_token();
        one_token_at_place();
        match read_value(alloc, self.rest, 0)? {
            Some((value, end)) => {
                self.rest = &self.rest[end..];
                Ok(Some(value))
            }
            None => Ok(None),
        }
    }
}
