//! Events, taken from the front of a line.
ghost use Rattle.std.specs.Prelude.{◌≡◌, ◌++◌, ◌∷◌, [], ℕ, List, IfOk, IfSome, IsTrue, Some, true};
ghost use Rattle.enf_value.specs.meaning.Tokens.{spelled, EndsBefore, IsNoDigit};
ghost use Rattle.enf_data.specs.declared.events.Event.{Event as AnyEvent};
ghost use Rattle.enf_data.specs.declared.values.Value.{Value as AnyValue};
ghost use Rattle.log_stream.specs.meaning.LogGrammar.{spelled_event, spelled_row};
ghost use Rattle.log_stream.specs.machine.StepLimits.{FitColumns, IsDeclared};
ghost use Rattle.signature.specs.meaning.Grammar.{entry_names as names_of};
ghost use Rattle.action_report.specs.machine.LineParts.{AddsFitting, IsFieldRead, IsColumnValue, marked_values};

use crate::cursor::Cursor;
use enf_data::{Event, NoMemory, Row, Value};
use log_stream::has_sort;
use signature::{Signature, Sort};
use std::alloc::Global;

impl Cursor<'_> {
    // Takes an argument of a sort, after these bytes.
    fn argument(
        &mut self,
        alloc: Global,
        mark: &[u8],
        sort: Sort,
    ) -> Result<Option<Value>, NoMemory>
        ensures fits { IfOk result (λ found. IfSome found (IsColumnValue sort)) }
        ensures again { (value : AnyValue) (rest : List ℕ) → IsColumnValue sort value → EndsBefore value rest
            → self.old.rest.now ≡ mark.now ++ (spelled value ++ rest)
            → IfOk result (λ found. IsFieldRead found self.new.rest.now value rest) }
    {
        if !self.take(mark) {
            return Ok(None);
        }
        match self.value(alloc)? {
            Some(value) if has_sort(sort, &value) => Ok(Some(value)),
            _ => Ok(None),
        }
    }

    // Takes an argument for each column, the first of them after these bytes and the others after commas, and puts
    // them into the row. It says whether all stood there.
    fn arguments(
        &mut self,
        alloc: Global,
        mark: &[u8],
        sorts: &[Sort],
        row: &mut Row,
    ) -> Result<bool, NoMemory>
        ensures fits { IfOk result (AddsFitting sorts.now row.old row.new) }
        ensures again { (args : List AnyValue) (rest : List ℕ) → FitColumns sorts.now args → IsNoDigit rest
            → self.old.rest.now ≡ marked_values mark.now args ++ rest
            → IfOk result (λ all. (all ≡ true) × (row.new ≡ row.old ++ args) × (self.new.rest.now ≡ rest)) }
    {
        let Some((sort, others)) = sorts.split_first() else {
            return Ok(true);
        };
        let Some(value) = self.argument(alloc, mark, *sort)? else {
            return Ok(false);
        };
        match row.push(value) {
            Ok(()) => self.arguments(alloc, b",", others, row),
            Err(_value) => Err(NoMemory),
        }
    }

    // Takes arguments in parentheses, one for each column.
    fn row(&mut self, alloc: Global, sorts: &[Sort]) -> Result<Option<Row>, NoMemory>
        ensures fits { IfOk result (λ found. IfSome found (λ row. FitColumns sorts.now row)) }
        ensures again { (args : List AnyValue) (rest : List ℕ) → FitColumns sorts.now args
            → self.old.rest.now ≡ 40 ∷ spelled_row args ++ 41 ∷ rest
            → IfOk result (λ found. IsFieldRead found self.new.rest.now args rest) }
    {
        if !self.take(b"(") {
            return Ok(None);
        }
        let mut row = Row::new(alloc);
        if !self.arguments(alloc, b"", sorts, &mut row)? {
            return Ok(None);
        }
        if !self.take(b")") {
            return Ok(None);
        }
        Ok(Some(row))
    }

    // Takes an event of the signature.
    pub fn event(&mut self, alloc: Global, signature: &Signature) -> Result<Option<Event>, NoMemory>
        ensures fits { IfOk result (λ found. IfSome found (IsDeclared signature.now)) }
        ensures again { (event : AnyEvent) (rest : List ℕ) → IsDeclared signature.now event
            → self.old.rest.now ≡ spelled_event (names_of signature.now) event ++ rest
            → IfOk result (λ found. IsFieldRead found self.new.rest.now event rest) }
    {
        // that its names are words
        let _names = signature.len();
        let Some(name) = signature.find(self.word()) else {
            return Ok(None);
        };
        let Some(entry) = signature.entry(name) else {
            return Ok(None);
        };
        match self.row(alloc, entry.sorts.as_slice())? {
            Some(args) => Ok(Some(Event { name, args })),
            None => Ok(None),
        }
    }
}
