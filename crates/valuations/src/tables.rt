//! Tables: columns and rows.
ghost use Rattle.std.specs.Prelude.{◌≡◌, ◌↔◌, [], ◌∷◌, List, IsTrue, IfOk, All, Contains, length};
ghost use Rattle.std.specs.Prelude.{slice_get};
ghost use Rattle.std.specs.List.Sorted.{IsStrictlySortedBy};
ghost use Rattle.std.specs.Option.{option_copied};
ghost use Rattle.enf_data.specs.meaning.Membership.{HasNoRepeats};
ghost use Rattle.enf_data.specs.declared.values.Value.{Value as AnyValue};
ghost use Rattle.enf_data.specs.meaning.Values.{row_cmp};

use enf_data::items::Duplicate;
use enf_data::memory::NoMemory;
use enf_data::rows::Row;
use enf_data::terms::{VarId, Vars};
use std::alloc::Global;
use std::marker::Model;

/// A finite set of valuations of the same variables: distinct columns, and rows that strictly rise, each with a
/// value for each column.
#[derive(Debug, Drop)]
pub struct Table {
    columns: Vars,
    rows: Vec<Row>,
}

impl Model for Table {
    ghost use Rattle.valuations.specs.machine.Tables.{Relation, IsTable, relation_code};

    ghost Value = { Relation };

    ghost coded = { relation_code };

    ghost view = { λ t. record { columns = t.columns; rows = t.rows.items } };

    ghost invariant = { λ t. IsTable (record { columns = t.columns; rows = t.rows.items }) };
}

impl Table {
    ghost use Rattle.valuations.specs.machine.Tables.{Relation, IsTable};

    /// No column and one row: the valuation that binds nothing.
    pub fn unit(alloc: Global) -> Result<Table, NoMemory>
        ensures table { IfOk result IsTable }
        ensures unit { IfOk result (λ t. t ≡ record { columns = []; rows = [] ∷ [] }) }
    {
        let mut rows = Vec::new(alloc);
        rows.push(Row::new(alloc))?;
        Ok(Table {
            columns: Vars::new(alloc),
            rows,
        })
    }

    /// The rows in order, each once.
    pub fn from_rows(columns: Vars, rows: Vec<Row>) -> Result<Table, NoMemory>
        requires distinct { HasNoRepeats columns }
        requires fits { All (λ row. length row ≡ length columns) rows.items }
        ensures table { IfOk result IsTable }
        ensures columns { IfOk result (λ t. t.columns ≡ columns) }
        ensures rows { IfOk result (λ t. (row : List AnyValue)
            → Contains t.rows row ↔ Contains rows.items row) }
    {
        if do_rise(rows.as_slice()) {
            return Ok(Table { columns, rows });
        }
        let mut rows = rows;
        rows.sort_unstable_by(|a, b| a.compare(b));
        rows.dedup_by(|a, b| a.compare(b).is_eq());
        Ok(Table { columns, rows })
    }

    /// Whether the row is there.
    pub fn has(&self, row: &Row) -> bool
        ensures has { IsTrue result ↔ Contains self.now.rows row.now }
        ensures table { IsTable self.now }
    {
        self.rows
            .binary_search_by(|candidate| candidate.compare(row))
            .is_ok()
    }

    /// How many rows there are.
    pub fn len(&self) -> usize
        ensures len { result ≡ length self.now.rows }
        ensures table { IsTable self.now }
    {
        self.rows.len()
    }

    /// Whether there is no row.
    pub fn is_empty(&self) -> bool
        ensures empty { IsTrue result ↔ (self.now.rows ≡ []) }
        ensures table { IsTable self.now }
    {
        self.rows.is_empty()
    }

    /// The row at a place, counted from 0.
    pub fn row(&self, place: usize) -> Option<&Row>
        ensures row { option_copied result ≡ slice_get self.now.rows place }
        ensures table { IsTable self.now }
    {
        self.rows.get(place)
    }

    /// The columns in order.
    pub fn columns(&self) -> &Vars
        ensures columns { result.now ≡ self.now.columns }
        ensures table { IsTable self.now }
    {
        &self.columns
    }

    /// The rows in order, moved out.
    pub fn into_rows(self) -> Vec<Row>
        ensures rows { result.items ≡ self.rows }
        ensures table { IsTable self }
    {
        self.rows
    }

    /// The rows in order.
    pub fn rows(&self) -> &[Row]
        ensures rows { result.now ≡ self.now.rows }
        ensures table { IsTable self.now }
    {
        self.rows.as_slice()
    }
}

// Whether each row is before those after it.
fn do_rise(rows: &[Row]) -> bool
    ensures { IsTrue result → IsStrictlySortedBy row_cmp rows.now }
{
    rows.is_sorted_by(|a, b| a.compare(b).is_lt())
}

impl Duplicate for Table {
    fn duplicate(&self, alloc: Global) -> Result<Table, NoMemory> {
        let mut rows = Vec::with_capacity(alloc, self.rows.len())?;
        for row in &self.rows {
            rows.push(row.duplicate(alloc)?)?;
        }
        let columns = self.columns.duplicate(alloc)?;
        Ok(Table { columns, rows })
    }
}
