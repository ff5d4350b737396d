//! Rows of valuations that go on from a scope.
ghost use Rattle.std.specs.Prelude.{◌≡◌, ◌⊎◌, Some, OnOk, IfOk, IsTrue, Contains, map};
ghost use Rattle.enf_data.specs.meaning.Valuations.{value_at};
ghost use Rattle.enf_data.specs.declared.terms.VarId.{VarId as Variable};
ghost use Rattle.valuations.specs.machine.Bindings.{bound_in};
ghost use Rattle.valuations.specs.machine.Tables.{IsTable, AgreeOnColumns};
ghost use Rattle.monitorable_guard.specs.machine.Answers.{AddsRows, IsBoundBy, IsFromRow};

use enf_data::items::Duplicate;
use enf_data::memory::NoMemory;
use enf_data::rows::Row;
use enf_data::terms::VarId;
use std::alloc::Global;
use valuations::{Frame, Lookup, Table};

// Adds the scope's row: its values of the columns.
pub fn push_row<V: Lookup>(
    alloc: Global,
    scope: &V,
    columns: &[VarId],
    out: &mut Vec<Row>,
) -> Result<(), NoMemory>
    requires { (x : Variable) → Contains columns.now x → IsBoundBy (V.valuation scope.now) x }
    ensures { OnOk result (AddsRows columns.now out.old.items out.new.items
        (λ w. AgreeOnColumns columns.now w (V.valuation scope.now))) }
{
    let row = row_of(alloc, scope, columns)?;
    out.push(row)?;
    Ok(())
}

fn row_of<V: Lookup>(alloc: Global, scope: &V, columns: &[VarId]) -> Result<Row, NoMemory>
    requires { (x : Variable) → Contains columns.now x → IsBoundBy (V.valuation scope.now) x }
    ensures { IfOk result (λ row. map Some row ≡ map (value_at (V.valuation scope.now)) columns.now) }
{
    let mut values = Vec::with_capacity(alloc, columns.len())?;
    for column in columns {
        if let Some(value) = scope.value(*column) {
            values.push(value.duplicate(alloc)?)?;
        }
    }
    Ok(Row::from_vec(values))
}

// Adds the scope's row where the test came out true.
pub fn push_if(
    alloc: Global,
    test: bool,
    scope: &Frame<'_>,
    columns: &[VarId],
    out: &mut Vec<Row>,
) -> Result<(), NoMemory>
    requires { (x : Variable) → Contains columns.now x → IsBoundBy (bound_in scope.now) x }
    ensures { OnOk result (AddsRows columns.now out.old.items out.new.items
        (λ w. IsTrue test × AgreeOnColumns columns.now w (bound_in scope.now))) }
{
    if test {
        push_row(alloc, scope, columns, out)
    } else {
        Ok(())
    }
}

// Adds a row for each row of the table: the scope's values of the columns, and that row's.
pub fn push_rows<'a>(
    alloc: Global,
    table: &'a Table,
    scope: &'a Frame<'a>,
    columns: &[VarId],
    out: &mut Vec<Row>,
) -> Result<(), NoMemory>
    requires table { IsTable table.now }
    requires within { (x : Variable) → Contains columns.now x
        → IsBoundBy (bound_in scope.now) x ⊎ Contains table.now.columns x }
    ensures { OnOk result (AddsRows columns.now out.old.items out.new.items
        (IsFromRow table.now (bound_in scope.now) columns.now)) }
{
    for row in table.rows() {
        let inner = Frame::Row(&*scope, table.columns().as_slice(), row.as_slice());
        push_row(alloc, &inner, columns, out)?;
    }
    Ok(())
}
