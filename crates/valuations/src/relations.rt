//! The operations of relations on tables.
ghost use Rattle.std.specs.Prelude.{◌≡◌, ◌↔◌, ◌⊎◌, ◌++◌, IfOk, OnOk, Contains, map};
ghost use Rattle.enf_data.specs.meaning.Membership.{HasNoRepeats};
ghost use Rattle.enf_data.specs.meaning.Valuations.{Valuation as Bound};
ghost use Rattle.enf_data.specs.declared.terms.VarId.{VarId as Variable};
ghost use Rattle.valuations.specs.machine.RowParts.{row_part};
ghost use Rattle.valuations.specs.machine.Tables.{IsTable, HasValuation, columns_unshared, AreSameColumns};
ghost use Rattle.valuations.specs.machine.Tables.{AgreeOnColumns};

use crate::cells::{append_part, new_columns, places_of, shared_columns};
use crate::joining::{in_order, joined_rows, single_rows};
use crate::tables::Table;
use enf_data::items::{Duplicate, Items};
use enf_data::memory::NoMemory;
use enf_data::rows::Row;
use enf_data::terms::{VarId, Vars};
use std::alloc::Global;

impl Table {
    /// The natural join: the columns of this table, then the other's further ones.
    pub fn join(&self, alloc: Global, other: &Table) -> Result<Table, NoMemory>
        ensures table { IfOk result IsTable }
        ensures columns { IfOk result (λ t. t.columns
            ≡ self.now.columns ++ columns_unshared self.now.columns other.now.columns) }
        ensures rows { IfOk result (λ t. (v : Bound)
            → HasValuation t v ↔ (HasValuation self.now v × HasValuation other.now v)) }
    {
        let columns = self.columns().as_slice();
        let others = other.columns().as_slice();
        let shared = shared_columns(alloc, columns, others)?;
        let further = new_columns(alloc, columns, others)?;
        let left = places_of(alloc, columns, shared.as_slice())?;
        let right = places_of(alloc, others, shared.as_slice())?;
        let rest = places_of(alloc, others, further.as_slice())?;
        let order = in_order(alloc, other.rows(), right.as_slice())?;
        let rows = joined_rows(
            alloc,
            self.rows(),
            left.as_slice(),
            order.as_slice(),
            right.as_slice(),
            rest.as_slice(),
        )?;
        Table::from_rows(joined_columns(alloc, columns, further.as_slice())?, rows)
    }

    /// The rows that have no partner in the other table, whose columns are among those of this one.
    pub fn antijoin(&self, alloc: Global, other: &Table) -> Result<Table, NoMemory>
        requires { (x : Variable) → Contains other.now.columns x → Contains self.now.columns x }
        ensures table { IfOk result IsTable }
        ensures columns { IfOk result (λ t. t.columns ≡ self.now.columns) }
        ensures rows { IfOk result (λ t. (v : Bound)
            → HasValuation t v ↔ (HasValuation self.now v × (HasValuation other.now v → ⊥))) }
    {
        let columns = self.columns().as_slice();
        let others = other.columns().as_slice();
        let left = places_of(alloc, columns, others)?;
        let right = places_of(alloc, others, others)?;
        let order = in_order(alloc, other.rows(), right.as_slice())?;
        let rows = single_rows(
            alloc,
            self.rows(),
            left.as_slice(),
            order.as_slice(),
            right.as_slice(),
        )?;
        Table::from_rows(self.columns().duplicate(alloc)?, rows)
    }

    /// The rows of both tables, which have the same columns, in the order of this one's.
    pub fn union(&self, alloc: Global, other: &Table) -> Result<Table, NoMemory>
        requires { AreSameColumns self.now.columns other.now.columns }
        ensures table { IfOk result IsTable }
        ensures columns { IfOk result (λ t. t.columns ≡ self.now.columns) }
        ensures rows { IfOk result (λ t. (v : Bound)
            → HasValuation t v ↔ (HasValuation self.now v ⊎ HasValuation other.now v)) }
    {
        let places = places_of(alloc, other.columns().as_slice(), self.columns().as_slice())?;
        let mut rows = Vec::new(alloc);
        push_copies(alloc, self.rows(), &mut rows)?;
        push_parts(alloc, other.rows(), places.as_slice(), &mut rows)?;
        Table::from_rows(self.columns().duplicate(alloc)?, rows)
    }

    /// Just these columns, in this order; they are distinct columns of the table.
    pub fn project(&self, alloc: Global, columns: &Vars) -> Result<Table, NoMemory>
        requires distinct { HasNoRepeats columns.now }
        requires within { (x : Variable) → Contains columns.now x → Contains self.now.columns x }
        ensures table { IfOk result IsTable }
        ensures columns { IfOk result (λ t. t.columns ≡ columns.now) }
        ensures rows { IfOk result (λ t. (v : Bound)
            → HasValuation t v ↔ ((w : Bound) × HasValuation self.now w × AgreeOnColumns columns.now v w)) }
    {
        let places = places_of(alloc, self.columns().as_slice(), columns.as_slice())?;
        let mut rows = Vec::new(alloc);
        push_parts(alloc, self.rows(), places.as_slice(), &mut rows)?;
        Table::from_rows(columns.duplicate(alloc)?, rows)
    }
}

fn joined_columns(alloc: Global, front: &[VarId], back: &[VarId]) -> Result<Vars, NoMemory>
    ensures { IfOk result (λ columns. columns ≡ front.now ++ back.now) }
{
    let mut columns = Vec::from_slice(alloc, front)?;
    columns.extend_from_slice(back)?;
    Ok(Items::from_vec(columns))
}

fn push_copies(alloc: Global, rows: &[Row], out: &mut Vec<Row>) -> Result<(), NoMemory>
    ensures { OnOk result (out.new.items ≡ out.old.items ++ rows.now) }
{
    for row in rows {
        out.push(row.duplicate(alloc)?)?;
    }
    Ok(())
}

fn push_parts(
    alloc: Global,
    rows: &[Row],
    places: &[usize],
    out: &mut Vec<Row>,
) -> Result<(), NoMemory>
    ensures { OnOk result (out.new.items
        ≡ out.old.items ++ map (λ row. row_part row places.now) rows.now) }
{
    for row in rows {
        let mut part = Row::new(alloc);
        append_part(alloc, row, places, &mut part)?;
        out.push(part)?;
    }
    Ok(())
}
