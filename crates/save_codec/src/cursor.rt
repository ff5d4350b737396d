//! What is left of a text, and the parts that are taken from its front.
ghost use Rattle.std.specs.Prelude.{◌≡◌, ◌↔◌, ◌++◌, ℕ, List, IfOk, IfSome, IsTrue, decimal, false};
ghost use Rattle.std.specs.Prelude.{slice_index, true};
ghost use Rattle.std.specs.List.{AllByRecursion, flat_map};
ghost use Rattle.enf_value.specs.meaning.Tokens.{escaped, quoted, spelled, EndsBefore, IsNoDigit};
ghost use Rattle.enf_data.specs.meaning.Values.{IsValue};
ghost use Rattle.enf_data.specs.declared.values.Value.{Value as AnyValue};
ghost use Rattle.save_codec.specs.meaning.SavedTexts.{IsSmallNumber, spaced, values_text};
ghost use Rattle.save_codec.specs.machine.LineParts.{EndsValues, IsPartRead};

use enf_data::{NoMemory, Row, Value};
use enf_value::laws::{one_token_at_place, printed_is_token};
use enf_value::names::ByteKind;
use enf_value::{print_value, read_digits, read_value};
use std::alloc::Global;

// What is left of a text.
#[derive(Drop)]
pub(crate) struct Cursor<'a> {
    pub rest: &'a [u8],
}

// Whether digits that end there have no zero in front of others.
fn is_canonical(digits: &[u8], end: usize) -> bool
    ensures { IsTrue result ↔ (slice_index digits.now 0 ≡ 48 → end ≡ 1) }
{
    end == 1 || digits.first() != Some(&b'0')
}

// Whether each byte of a text is printed as it is.
fn is_plain(text: &[u8]) -> bool
    ensures { IsTrue result → flat_map escaped text.now ≡ text.now }
{
    ByteKind::Plain.front_length(text) == text.len()
}

impl<'a> Cursor<'a> {
    // Takes these bytes, where they stand next, and says whether they did.
    pub fn take(&mut self, bytes: &[u8]) -> bool
        ensures taken { IsTrue result → self.old.rest.now ≡ bytes.now ++ self.new.rest.now }
        ensures again { (rest : List ℕ) → self.old.rest.now ≡ bytes.now ++ rest
            → (result ≡ true) × (self.new.rest.now ≡ rest) }
        ensures stays { result ≡ false → self.new.rest.now ≡ self.old.rest.now }
    {
        match self.rest.strip_prefix(bytes) {
            Some(rest) => {
                self.rest = rest;
                true
            }
            None => false,
        }
    }

    // Takes the number that stands next, where it has its canonical form.
    pub fn number(&mut self) -> Option<u64>
        ensures told { IfSome result (λ number. IsSmallNumber number
            × (self.old.rest.now ≡ decimal number ++ self.new.rest.now)) }
        ensures again { (number : ℕ) (rest : List ℕ) → IsSmallNumber number → IsNoDigit rest
            → self.old.rest.now ≡ decimal number ++ rest → IsPartRead result self.new.rest.now number rest }
    {
        printed_is_token();
        one_token_at_place();
        let (number, end) = read_digits(self.rest, 0)?;
        if !is_canonical(self.rest, end) {
            return None;
        }
        self.rest = &self.rest[end..];
        Some(number)
    }

    // Takes a space and a number in its canonical form.
    pub fn spaced(&mut self) -> Option<u64>
        ensures told { IfSome result (λ number. IsSmallNumber number
            × (self.old.rest.now ≡ spaced number ++ self.new.rest.now)) }
        ensures again { (number : ℕ) (rest : List ℕ) → IsSmallNumber number → IsNoDigit rest
            → self.old.rest.now ≡ spaced number ++ rest → IsPartRead result self.new.rest.now number rest }
    {
        if !self.take(b" ") {
            return None;
        }
        self.number()
    }

    // Takes a text between quotes, where each of its bytes is printed as it is.
    fn quoted(&mut self, text: &[u8]) -> bool
        ensures taken { IsTrue result → self.old.rest.now ≡ quoted text.now ++ self.new.rest.now }
        ensures stays { result ≡ false → self.new.rest.now ≡ self.old.rest.now }
    {
        let mut ahead = Cursor { rest: self.rest };
        if !is_plain(text) || !ahead.take(b"\"") || !ahead.take(text) || !ahead.take(b"\"") {
            return false;
        }
        self.rest = ahead.rest;
        true
    }

    // Takes a value as it is printed. The bytes are room for that, which few values need.
    fn printed(&mut self, value: &Value, written: &mut Vec<u8>) -> Result<bool, NoMemory>
        ensures taken { IfOk result (λ taken. IsTrue taken
            → self.old.rest.now ≡ spelled value.now ++ self.new.rest.now) }
        ensures again { (rest : List ℕ) → self.old.rest.now ≡ spelled value.now ++ rest
            → IfOk result (λ taken. (taken ≡ true) × (self.new.rest.now ≡ rest)) }
    {
        if let Value::Text(text) = value {
            if self.quoted(text.bytes()) {
                return Ok(true);
            }
        }
        written.clear();
        print_value(value, written)?;
        Ok(self.take(written.as_slice()))
    }

    // Takes the value that stands next, where it is spelled as it is printed.
    pub fn value(&mut self, alloc: Global, written: &mut Vec<u8>) -> Result<Option<Value>, NoMemory>
        ensures told { IfOk result (λ found. IfSome found (λ value. IsValue value
            × (self.old.rest.now ≡ spelled value ++ self.new.rest.now))) }
        ensures again { (value : AnyValue) (rest : List ℕ) → IsValue value → EndsBefore value rest
            → self.old.rest.now ≡ spelled value ++ rest
            → IfOk result (λ found. IsPartRead found self.new.rest.now value rest) }
    {
        printed_is_token();
        one_token_at_place();
        match read_value(alloc, self.rest, 0)? {
            Some((value, _)) => {
                let taken = self.printed(&value, written)?;
                if !taken {
                    return Ok(None);
                }
                Ok(Some(value))
            }
            None => Ok(None),
        }
    }

    // Takes the values that stand next, each after a space.
    pub fn values(&mut self, alloc: Global, written: &mut Vec<u8>) -> Result<Option<Row>, NoMemory>
        ensures told { IfOk result (λ found. IfSome found (λ values. AllByRecursion IsValue values
            × (self.old.rest.now ≡ values_text values ++ self.new.rest.now))) }
        ensures again { (values : List AnyValue) (rest : List ℕ) → AllByRecursion IsValue values → EndsValues rest
            → self.old.rest.now ≡ values_text values ++ rest
            → IfOk result (λ found. IsPartRead found self.new.rest.now values rest) }
    {
        let mut row = Row::new(alloc);
        while self.take(b" ") {
            match self.value(alloc, written)? {
                Some(value) => row.put(value)?,
                None => return Ok(None),
            }
        }
        Ok(Some(row))
    }
}
