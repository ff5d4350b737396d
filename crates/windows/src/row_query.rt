//! The row of a valuation, as a map from rows is asked for it without making the row.
ghost use Rattle.std.specs.Prelude.{◌≡◌, Some, map, length, IfNone, IfOk, IfSome, List};
ghost use Rattle.std.specs.Option.{option_copied};
ghost use Rattle.std.specs.List.{fold};
ghost use Rattle.enf_data.specs.declared.values.Value.{Value as AnyValue};
ghost use Rattle.windows.specs.machine.RowQueries.{cell_eq, cell_fed, cells, cells_eq};

use enf_data::items::Duplicate;
use enf_data::memory::NoMemory;
use enf_data::rows::Row;
use enf_data::terms::VarId;
use enf_data::values::Value;
use indexmap::Equivalent;
use std::alloc::{AllocError, Global};
use std::hash::{Hash, Hasher};
use valuations::Lookup;

// The valuation's values of the columns, in order.
pub struct RowQuery<'a, V> {
    pub columns: &'a [VarId],
    pub values: &'a V,
}

impl<V> Clone for RowQuery<'_, V> {
    fn clone(&self) -> Result<Self, AllocError> {
        Ok(*self)
    }
}

impl<V> Copy for RowQuery<'_, V> {}

impl<V: Lookup> PartialEq for RowQuery<'_, V> {
    ghost use Rattle.windows.specs.machine.RowQueries.{cells, cells_eq, cells_eq_per};

    ghost eq = { λ a b. cells_eq (cells a.columns.now (V.valuation a.values.now))
        (cells b.columns.now (V.valuation b.values.now)) };

    ghost laws = { cells_eq_per (λ q. cells q.columns.now (V.valuation q.values.now)) };

    fn eq(&self, other: &Self) -> bool {
        are_same(self.columns, self.values, other.columns, other.values)
    }
}

impl<V: Lookup> Eq for RowQuery<'_, V> {
    ghost use Rattle.windows.specs.machine.RowQueries.{cells, cells_eq_equiv};

    ghost laws = { cells_eq_equiv (λ q. cells q.columns.now (V.valuation q.values.now)) };
}

impl<V: Lookup> Hash for RowQuery<'_, V> {
    ghost use Rattle.windows.specs.machine.RowQueries.{cells, cell_fed, same_fed};
    ghost use Rattle.std.specs.Hash as fed;

    ghost hash_input = { λ q. fed.slice cell_fed (cells q.columns.now (V.valuation q.values.now)) };

    ghost respects_eq = { λ a b. same_fed (cells a.columns.now (V.valuation a.values.now))
        (cells b.columns.now (V.valuation b.values.now)) };

    fn hash<H: Hasher>(&self, state: &mut H) {
        state.write_usize(self.columns.len());
        for column in self.columns {
            hash_cell(self.values.value(*column), state);
        }
    }
}

impl<V: Lookup> Equivalent<Row> for RowQuery<'_, V> {
    ghost use Rattle.std.specs.Prelude.{map, Some};
    ghost use Rattle.windows.specs.machine.RowQueries.{cells, cells_eq, fed_as_row, eq_as_row};

    ghost equivalent = { λ q row. cells_eq (cells q.columns.now (V.valuation q.values.now)) (map Some row) };

    ghost respects_hash = { λ q row. fed_as_row (cells q.columns.now (V.valuation q.values.now)) row };

    ghost respects_eq = { λ q x y. eq_as_row (cells q.columns.now (V.valuation q.values.now)) x y };

    fn equivalent(&self, key: &Row) -> bool {
        is_row(self.columns, self.values, key.as_slice())
    }
}

// The valuation's values of the columns, where it has one of each.
pub fn row_of<V: Lookup>(alloc: Global, columns: &[VarId], v: &V) -> Result<Option<Row>, NoMemory>
    ensures some { IfOk result (λ found. IfSome found (λ row. cells columns.now (V.valuation v.now) ≡ map Some row)) }
    ensures none { IfOk result (λ found. IfNone found ((row : List AnyValue)
        → cells columns.now (V.valuation v.now) ≡ map Some row → ⊥)) }
{
    let mut values = Vec::with_capacity(alloc, columns.len())?;
    for column in columns {
        match v.value(*column) {
            Some(value) => values.push(value.duplicate(alloc)?)?,
            None => return Ok(None),
        }
    }
    Ok(Some(Row::from_vec(values)))
}

// Whether two have the same values.
fn are_same<V: Lookup>(columns: &[VarId], v: &V, others: &[VarId], w: &V) -> bool
    ensures { result ≡ cells_eq (cells columns.now (V.valuation v.now)) (cells others.now (V.valuation w.now)) }
{
    if columns.len() != others.len() {
        return false;
    }
    for (place, column) in columns.iter().enumerate() {
        if !is_same(v.value(*column), w.value(others[place])) {
            return false;
        }
    }
    true
}

// Whether the row has these values.
fn is_row<V: Lookup>(columns: &[VarId], v: &V, row: &[Value]) -> bool
    ensures { result ≡ cells_eq (cells columns.now (V.valuation v.now)) (map Some row.now) }
{
    if columns.len() != row.len() {
        return false;
    }
    for (place, column) in columns.iter().enumerate() {
        if !is_same(v.value(*column), Some(&row[place])) {
            return false;
        }
    }
    true
}

fn is_same(a: Option<&Value>, b: Option<&Value>) -> bool
    ensures { result ≡ cell_eq (option_copied a.entry) (option_copied b.entry) }
{
    match (a, b) {
        (Some(a), Some(b)) => *a == *b,
        (None, None) => true,
        _ => false,
    }
}

fn hash_cell<H: Hasher>(value: Option<&Value>, state: &mut H)
    ensures { state.new ≡ fold H.write state.old (cell_fed (option_copied value.entry)) }
{
    if let Some(value) = value {
        value.hash(state);
    }
}
