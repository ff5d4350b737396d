//! The rows for which a comparison holds, and those that agree with a valuation.
ghost use Rattle.std.specs.Prelude.{◌≡◌, ◌↔◌, IfOk, IsTrue, Contains, map, filter, length};
ghost use Rattle.std.specs.Option.{option_copied};
ghost use Rattle.enf_data.specs.meaning.Valuations.{Valuation as Bound, value_at, value_of_term};
ghost use Rattle.enf_data.specs.declared.terms.VarId.{VarId as Variable};
ghost use Rattle.valuations.specs.machine.Comparisons.{ComparesValues, compares_values, is_row_as_bound};
ghost use Rattle.valuations.specs.machine.Comparisons.{is_bound_value, IsColumnOf, operand_value, ReadsTerm};
ghost use Rattle.valuations.specs.machine.Tables.{IsTable, HasValuation, AgreesWhereBound};

use crate::cells::place_of;
use crate::scope::Lookup;
use crate::tables::Table;
use enf_data::items::Duplicate;
use enf_data::memory::NoMemory;
use enf_data::rows::Row;
use enf_data::terms::{Term, VarId};
use enf_data::values::Value;
use std::alloc::Global;

/// What a comparison asks of two values.
#[derive(Clone, Copy, Debug, PartialEq, Eq)]
pub enum Compare {
    Equal,
    Less,
    AtMost,
}

// Where a term's value stands for each row.
#[derive(Drop)]
enum Operand<'a> {
    Cell(usize),
    Fixed(&'a Value),
    Nowhere,
}

impl Table {
    /// The rows where the comparison holds; the variables of the terms are columns.
    pub fn select(
        &self,
        alloc: Global,
        left: &Term,
        right: &Term,
        kind: Compare,
    ) -> Result<Table, NoMemory>
        requires left { IsColumnOf self.now.columns left.now }
        requires right { IsColumnOf self.now.columns right.now }
        ensures table { IfOk result IsTable }
        ensures columns { IfOk result (λ t. t.columns ≡ self.now.columns) }
        ensures rows { IfOk result (λ t. (v : Bound) → HasValuation t v
            ↔ (HasValuation self.now v × ComparesValues kind (value_of_term v left.now)
            (value_of_term v right.now))) }
    {
        let columns = self.columns().as_slice();
        let rows = compared_rows(
            alloc,
            self.rows(),
            &operand_of(columns, left),
            &operand_of(columns, right),
            kind,
        )?;
        Table::from_rows(self.columns().duplicate(alloc)?, rows)
    }

    /// The rows that agree with the valuation on each column that it binds.
    pub fn rows_under<V: Lookup>(&self, alloc: Global, v: &V) -> Result<Table, NoMemory>
        ensures table { IfOk result IsTable }
        ensures columns { IfOk result (λ t. t.columns ≡ self.now.columns) }
        ensures rows { IfOk result (λ t. (w : Bound) → HasValuation t w
            ↔ (HasValuation self.now w × AgreesWhereBound self.now.columns (V.valuation v.now) w)) }
    {
        let bounds = bounds_of(alloc, self.columns().as_slice(), v)?;
        let rows = agreeing_rows(alloc, self.rows(), bounds.as_slice())?;
        Table::from_rows(self.columns().duplicate(alloc)?, rows)
    }
}

fn operand_of<'a>(columns: &[VarId], term: &'a Term) -> Operand<'a>
    ensures { ReadsTerm columns.now term.now result }
{
    match term {
        Term::Const(value) => Operand::Fixed(value),
        Term::Var(variable) => match place_of(columns, *variable) {
            Some(place) => Operand::Cell(place),
            None => Operand::Nowhere,
        },
    }
}

fn value_under<'a>(operand: &Operand<'a>, row: &'a Row) -> Option<&'a Value>
    ensures { option_copied result ≡ operand_value operand.now row.now }
{
    match operand {
        Operand::Cell(place) => row.get(*place),
        Operand::Fixed(value) => Some(*value),
        Operand::Nowhere => None,
    }
}

fn compares(kind: Compare, left: Option<&Value>, right: Option<&Value>) -> bool
    ensures { result ≡ compares_values kind (option_copied left.entry) (option_copied right.entry) }
{
    match (kind, left, right) {
        (Compare::Equal, Some(a), Some(b)) => a.compare(b).is_eq(),
        (Compare::Less, Some(Value::Num(a)), Some(Value::Num(b))) => *a < *b,
        (Compare::AtMost, Some(Value::Num(a)), Some(Value::Num(b))) => *a <= *b,
        _ => false,
    }
}

fn compared_rows(
    alloc: Global,
    rows: &[Row],
    left: &Operand,
    right: &Operand,
    kind: Compare,
) -> Result<Vec<Row>, NoMemory>
    ensures { IfOk result (λ out. out.items ≡ filter (λ row. compares_values kind
        (operand_value left.now row) (operand_value right.now row)) rows.now) }
{
    let mut out = Vec::new(alloc);
    for row in rows {
        if compares(kind, value_under(left, row), value_under(right, row)) {
            out.push(row.duplicate(alloc)?)?;
        }
    }
    Ok(out)
}

fn bounds_of<'a, V: Lookup>(
    alloc: Global,
    columns: &[VarId],
    v: &'a V,
) -> Result<Vec<Option<&'a Value>>, NoMemory>
    ensures { IfOk result (λ bounds. map option_copied bounds.items
        ≡ map (value_at (V.valuation v.now)) columns.now) }
{
    let mut bounds = Vec::with_capacity(alloc, columns.len())?;
    for column in columns {
        bounds.push(v.value(*column))?;
    }
    Ok(bounds)
}

fn is_bound_same(bound: Option<&Value>, value: &Value) -> bool
    ensures { result ≡ is_bound_value (option_copied bound.entry) value.now }
{
    match bound {
        Some(bound) => bound.compare(value).is_eq(),
        None => true,
    }
}

fn is_as_bound(bounds: &[Option<&Value>], row: &[Value]) -> bool
    ensures { result ≡ is_row_as_bound (map option_copied bounds.now) row.now }
{
    for (bound, value) in bounds.iter().zip(row) {
        if !is_bound_same(*bound, value) {
            return false;
        }
    }
    true
}

fn agreeing_rows(
    alloc: Global,
    rows: &[Row],
    bounds: &[Option<&Value>],
) -> Result<Vec<Row>, NoMemory>
    ensures { IfOk result (λ out. out.items
        ≡ filter (λ row. is_row_as_bound (map option_copied bounds.now) row) rows.now) }
{
    let mut out = Vec::new(alloc);
    for row in rows {
        if is_as_bound(bounds, row.as_slice()) {
            out.push(row.duplicate(alloc)?)?;
        }
    }
    Ok(out)
}
