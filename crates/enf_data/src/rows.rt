//! Rows of values.
ghost use Rattle.std.specs.Prelude.{◌≡◌, ◌↔◌, IsTrue, [], ◌∷◌, ◌++◌, IfErr, OnOk, OnErr, length};
ghost use Rattle.std.specs.Prelude.{slice_get};
ghost use Rattle.std.specs.Option.{option_copied};
ghost use Rattle.enf_data.specs.meaning.Values.{row_cmp};

use crate::items::Duplicate;
use crate::memory::NoMemory;
use crate::short_lists::ShortList;
use crate::values::Value;
use std::alloc::Global;
use std::cmp::Ordering;
use std::marker::Model;

/// A list of values that grows at its end, seen as the list of them. The first two take no memory.
#[derive(Debug, PartialEq, Eq, Hash, Drop)]
pub struct Row {
    values: ShortList<Value>,
}

impl Model for Row {
    ghost use Rattle.std.specs.Prelude.{List};
    ghost use Rattle.enf_data.specs.declared.values.Value.{Value as AnyValue};

    ghost Value = { List AnyValue };

    ghost view = { λ row. row.values };

    ghost inverse = { λ values. record { values = values } };
}

impl Row {
    /// The empty row.
    pub fn new(alloc: Global) -> Row
        ensures { result ≡ [] }
    {
        Row {
            values: ShortList::new(alloc),
        }
    }

    /// The values of a vector; it takes no memory.
    pub fn from_vec(values: Vec<Value>) -> Row
        ensures { result ≡ values.items }
    {
        Row {
            values: ShortList::from_vec(values),
        }
    }

    /// Puts a value last, or hands it back where memory runs out.
    pub fn push(&mut self, value: Value) -> Result<(), Value>
        ensures ok { OnOk result (self.new ≡ self.old ++ value ∷ []) }
        ensures value_returned { IfErr result (λ back. back ≡ value) }
        ensures err { OnErr result (self.new ≡ self.old) }
    {
        self.values.push(value)
    }

    /// Puts a value last; where memory runs out, nothing changes.
    #[inline(always)]
    pub fn put(&mut self, value: Value) -> Result<(), NoMemory>
        ensures ok { OnOk result (self.new ≡ self.old ++ value ∷ []) }
        ensures err { OnErr result (self.new ≡ self.old) }
    {
        self.values.put(value)
    }

    /// The value at a place, counted from 0.
    pub fn get(&self, place: usize) -> Option<&Value>
        ensures { option_copied result ≡ slice_get self.now place }
    {
        self.as_slice().get(place)
    }

    /// How many values there are.
    pub fn len(&self) -> usize
        ensures { result ≡ length self.now }
    {
        self.as_slice().len()
    }

    /// Whether there is no value.
    pub fn is_empty(&self) -> bool
        ensures { IsTrue result ↔ (self.now ≡ []) }
    {
        self.as_slice().is_empty()
    }

    /// The values in order.
    pub fn as_slice(&self) -> &[Value]
        ensures { result.now ≡ self.now }
    {
        self.values.as_slice()
    }

    /// The lexicographic order.
    pub fn compare(&self, other: &Row) -> Ordering
        ensures { result ≡ row_cmp self.now other.now }
    {
        self.as_slice().cmp(other.as_slice())
    }
}

impl PartialOrd for Row {
    ghost use Rattle.std.specs.Ordering.{as_partial_cmp};
    ghost use Rattle.enf_data.specs.meaning.Values.{row_cmp};
    ghost use Rattle.enf_data.specs.machine.RowOrders.{row_order};

    ghost partial_cmp = { as_partial_cmp row_cmp };

    ghost laws = { row_order };

    fn partial_cmp(&self, other: &Row) -> Option<Ordering> {
        Some(self.compare(other))
    }
}

impl Ord for Row {
    ghost use Rattle.std.specs.Prelude.{refl};
    ghost use Rattle.enf_data.specs.meaning.Values.{row_cmp};
    ghost use Rattle.enf_data.specs.machine.RowOrders.{row_cmp_total, row_ties};

    ghost cmp = { row_cmp };

    ghost total = { row_cmp_total };

    ghost matches_partial_cmp = { λ x y. refl };

    ghost matches_eq = { row_ties };

    fn cmp(&self, other: &Row) -> Ordering {
        self.compare(other)
    }
}

impl Duplicate for Row {
    fn duplicate(&self, alloc: Global) -> Result<Row, NoMemory> {
        Ok(Row {
            values: self.values.duplicate(alloc)?,
        })
    }
}
