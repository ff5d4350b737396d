//! The line that stands at the front of a text.
ghost use Rattle.std.specs.Prelude.{◌≡◌, ◌++◌, ℕ, List, IfOk, IfSome, Option, Some, codes};
ghost use Rattle.std.specs.List.{AllByRecursion};
ghost use Rattle.enf_value.specs.meaning.Tokens.{IsNoDigit};
ghost use Rattle.enf_data.specs.meaning.Values.{IsValue};
ghost use Rattle.enf_data.specs.declared.values.Value.{Value as AnyValue};
ghost use Rattle.save_codec.specs.meaning.SavedTexts.{IsLine, IsSmallNumber, IsSmallTime, line_text, spaced};
ghost use Rattle.save_codec.specs.meaning.SavedTexts.{values_text};
ghost use Rattle.save_codec.specs.machine.LineParts.{AreDueNumbers, IsPartRead, IsReadLine};
ghost use Rattle.save_codec.specs.declared.lines.Line.{Line as AnyLine};
ghost use Rattle.save_codec.specs.declared.lines.Line.TheVariants as lines;

use crate::cursor::Cursor;
use crate::lines::Line;
use enf_data::{NoMemory, Row};
use std::alloc::Global;

impl Cursor<'_> {
    // Takes a word and a number.
    fn numbered(&mut self, word: &[u8]) -> Option<u64>
        ensures told { IfSome result (λ number. IsSmallNumber number
            × (self.old.rest.now ≡ word.now ++ (spaced number ++ self.new.rest.now))) }
        ensures again { (number : ℕ) (rest : List ℕ) → IsSmallNumber number → IsNoDigit rest
            → self.old.rest.now ≡ word.now ++ (spaced number ++ rest)
            → IsPartRead result self.new.rest.now number rest }
    {
        if !self.take(word) {
            return None;
        }
        self.spaced()
    }

    // Takes a line that has one number.
    fn single(&mut self, word: &[u8]) -> Option<u64>
        ensures told { IfSome result (λ number. IsSmallNumber number
            × (self.old.rest.now ≡ (word.now ++ (spaced number ++ codes "\n")) ++ self.new.rest.now)) }
        ensures again { (number : ℕ) (rest : List ℕ) → IsSmallNumber number
            → self.old.rest.now ≡ (word.now ++ (spaced number ++ codes "\n")) ++ rest → result ≡ Some number }
    {
        let number = self.numbered(word)?;
        if !self.take(b"\n") {
            return None;
        }
        Some(number)
    }

    // Takes the line of the last time.
    fn last(&mut self) -> Option<Option<u64>>
        ensures told { IfSome result (λ last. IsReadLine self.old.rest.now (lines.Last last) self.new.rest.now) }
        ensures again { (last : Option ℕ) (rest : List ℕ) → IsSmallTime last
            → self.old.rest.now ≡ line_text (lines.Last last) ++ rest → result ≡ Some last }
    {
        if self.take(b"last -\n") {
            return Some(None);
        }
        Some(Some(self.single(b"last")?))
    }

    // Takes the line of a kept row.
    fn row(&mut self, alloc: Global, written: &mut Vec<u8>) -> Result<Option<Line>, NoMemory>
        ensures told { IfOk result (λ found. IfSome found
            (λ line. IsReadLine self.old.rest.now line self.new.rest.now)) }
        ensures again { (window time : ℕ) (values : List AnyValue) (rest : List ℕ)
            → IsLine (lines.Row window time values)
            → self.old.rest.now ≡ line_text (lines.Row window time values) ++ rest
            → IfOk result (λ found. found ≡ Some (lines.Row window time values)) }
    {
        let Some(window) = self.numbered(b"row") else {
            return Ok(None);
        };
        let Some(time) = self.spaced() else {
            return Ok(None);
        };
        let Some(values) = self.values_line(alloc, written)? else {
            return Ok(None);
        };
        Ok(Some(Line::Row {
            window,
            time,
            values,
        }))
    }

    // Takes values and the end of their line.
    fn values_line(&mut self, alloc: Global, written: &mut Vec<u8>) -> Result<Option<Row>, NoMemory>
        ensures told { IfOk result (λ found. IfSome found (λ values. AllByRecursion IsValue values
            × (self.old.rest.now ≡ values_text values ++ (codes "\n" ++ self.new.rest.now)))) }
        ensures again { (values : List AnyValue) (rest : List ℕ) → AllByRecursion IsValue values
            → self.old.rest.now ≡ values_text values ++ (codes "\n" ++ rest)
            → IfOk result (λ found. found ≡ Some values) }
    {
        let Some(values) = self.values(alloc, written)? else {
            return Ok(None);
        };
        if !self.take(b"\n") {
            return Ok(None);
        }
        Ok(Some(values))
    }

    // Takes rule, node, origin and the window's ends.
    fn due_numbers(&mut self) -> Option<(u64, u64, u64, u64, u64)>
        ensures told { IfSome result (λ n. AreDueNumbers n.0 n.1 n.2 n.3 n.4
            × (self.old.rest.now ≡ codes "due" ++ (spaced n.0 ++ (spaced n.1 ++ (spaced n.2 ++ (spaced n.3
            ++ (spaced n.4 ++ self.new.rest.now))))))) }
        ensures again { (rule node origin low high : ℕ) (rest : List ℕ) → AreDueNumbers rule node origin low high
            → IsNoDigit rest
            → self.old.rest.now ≡ codes "due" ++ (spaced rule ++ (spaced node ++ (spaced origin ++ (spaced low
            ++ (spaced high ++ rest)))))
            → IsPartRead result self.new.rest.now (rule, node, origin, low, high) rest }
    {
        let rule = self.numbered(b"due")?;
        let node = self.spaced()?;
        let origin = self.spaced()?;
        let low = self.spaced()?;
        let high = self.spaced()?;
        Some((rule, node, origin, low, high))
    }

    // Takes the line of a pending instance.
    fn due(&mut self, alloc: Global, written: &mut Vec<u8>) -> Result<Option<Line>, NoMemory>
        ensures told { IfOk result (λ found. IfSome found
            (λ line. IsReadLine self.old.rest.now line self.new.rest.now)) }
        ensures again { (rule node origin low high : ℕ) (values : List AnyValue) (rest : List ℕ)
            → IsLine (lines.Due rule node origin low high values)
            → self.old.rest.now ≡ line_text (lines.Due rule node origin low high values) ++ rest
            → IfOk result (λ found. found ≡ Some (lines.Due rule node origin low high values)) }
    {
        let Some((rule, node, origin, low, high)) = self.due_numbers() else {
            return Ok(None);
        };
        let Some(values) = self.values_line(alloc, written)? else {
            return Ok(None);
        };
        Ok(Some(Line::Due {
            rule,
            node,
            origin,
            low,
            high,
            values,
        }))
    }

    // Takes the line of the end.
    fn end(&mut self) -> Option<Line>
        ensures told { IfSome result (λ line. IsReadLine self.old.rest.now line self.new.rest.now) }
        ensures again { (rest : List ℕ) → self.old.rest.now ≡ line_text lines.End ++ rest
            → result ≡ Some lines.End }
    {
        if !self.take(b"end\n") {
            return None;
        }
        Some(Line::End)
    }

    // Takes the line that stands next, where it has the form. The bytes are room for what is printed meanwhile.
    pub fn line(&mut self, alloc: Global, written: &mut Vec<u8>) -> Result<Option<Line>, NoMemory>
        ensures told { IfOk result (λ found. IfSome found
            (λ line. IsReadLine self.old.rest.now line self.new.rest.now)) }
        ensures again { (line : AnyLine) (rest : List ℕ) → IsLine line
            → self.old.rest.now ≡ line_text line ++ rest
            → IfOk result (λ found. found ≡ Some line) }
    {
        match self.rest.first() {
            Some(b'r') => self.row(alloc, written),
            Some(b'd') => self.due(alloc, written),
            Some(b'c') => Ok(self.single(b"clock").map(Line::Clock)),
            Some(b'l') => Ok(self.last().map(Line::Last)),
            Some(b'p') => Ok(self.single(b"position").map(Line::Position)),
            Some(b'e') => Ok(self.end()),
            _ => Ok(None),
        }
    }
}
