//! The look-up of a valuation in a table.
ghost use Rattle.std.specs.Prelude.{◌≡◌, ◌↔◌, IsTrue, Some, map, length};
ghost use Rattle.std.specs.Option.{option_copied, option_cmp};
ghost use Rattle.enf_data.specs.meaning.Values.{value_cmp};
ghost use Rattle.enf_data.specs.meaning.Valuations.{value_at};
ghost use Rattle.valuations.specs.machine.RowParts.{key_cmp};
ghost use Rattle.valuations.specs.machine.Tables.{IsTable, HasValuation};

use crate::scope::Lookup;
use crate::tables::Table;
use enf_data::terms::VarId;
use enf_data::values::Value;
use std::cmp::Ordering;

impl Table {
    /// Whether the valuation has for each column the value of one and the same row; it takes no memory.
    pub fn has_valuation<V: Lookup>(&self, v: &V) -> bool
        ensures has { IsTrue result ↔ HasValuation self.now (V.valuation v.now) }
        ensures table { IsTable self.now }
    {
        let columns = self.columns().as_slice();
        self.rows()
            .binary_search_by(|row| compare_to_bound(row.as_slice(), columns, v))
            .is_ok()
    }
}

fn compare_to_bound<V: Lookup>(row: &[Value], columns: &[VarId], v: &V) -> Ordering
    ensures { result ≡ key_cmp (map Some row.now) (map (value_at (V.valuation v.now)) columns.now) }
{
    for (value, column) in row.iter().zip(columns) {
        match compare_to(value, v.value(*column)) {
            Ordering::Equal => {}
            apart => return apart,
        }
    }
    row.len().cmp(&columns.len())
}

pub fn compare_to(value: &Value, bound: Option<&Value>) -> Ordering
    ensures { result ≡ option_cmp value_cmp (Some value.now) (option_copied bound.entry) }
{
    match bound {
        Some(bound) => value.compare(bound),
        None => Ordering::Greater,
    }
}
