//! The rows that a window gives, of those that agree with a valuation where it binds: no other row is copied.
ghost use Rattle.std.specs.Prelude.{◌≡◌, ◌↔◌, ◌⊎◌, ℕ, List, All, Some, IfSome, IsTrue, OnOk, Contains};
ghost use Rattle.std.specs.Prelude.{length, slice_get};
ghost use Rattle.std.specs.Option.{option_copied};
ghost use Rattle.enf_data.specs.meaning.Membership.{IsIn};
ghost use Rattle.enf_data.specs.declared.values.Value.{Value as AnyValue};
ghost use Rattle.valuations.specs.machine.Tables.{IsTable};
ghost use Rattle.windows.specs.machine.RowIndexes.{IsIndexOf};
ghost use Rattle.windows.specs.machine.WindowEntries.{GivesRow, GivesRowAt, GivesSomeRow, IsSomeIn, rows_of};
ghost use Rattle.windows.specs.machine.RowQueries.{are_cells_as_bound, cells, is_cell_as_bound, SurvivesUnder};
ghost use Rattle.windows.specs.machine.Windows.{AreTables};

use crate::entries::{Entries, is_given};
use crate::row_index::RowIndex;
use crate::row_query::RowQuery;
use crate::surviving_rows::Surviving;
use crate::times::Times;
use enf_data::intervals::Interval;
use enf_data::items::Duplicate;
use enf_data::memory::NoMemory;
use enf_data::rows::Row;
use enf_data::terms::VarId;
use enf_data::values::Value;
use std::alloc::Global;
use valuations::{Lookup, Table};

// Whether the value is the bound one, where one is bound.
fn is_as_bound(bound: Option<&Value>, value: &Value) -> bool
    ensures { result ≡ is_cell_as_bound (option_copied bound.entry) value.now }
{
    match bound {
        Some(bound) => *bound == *value,
        None => true,
    }
}

// Whether the row has the valuation's value of each column that it binds.
pub fn are_as_bound<V: Lookup>(columns: &[VarId], v: &V, row: &[Value]) -> bool
    ensures { result ≡ are_cells_as_bound (cells columns.now (V.valuation v.now)) row.now }
{
    for (column, value) in columns.iter().zip(row) {
        if !is_as_bound(v.value(*column), value) {
            return false;
        }
    }
    true
}

// Whether the row survives, agrees, and has a time at a distance in the interval.
pub fn is_given_under<V: Lookup>(
    row: &Row,
    times: &Times,
    query: RowQuery<'_, V>,
    surviving: &Surviving<'_>,
    interval: Interval,
    now: u64,
) -> bool
    ensures given { IsTrue result ↔ (IsSomeIn interval now times.now
        × SurvivesUnder surviving.now (cells query.entry.columns.now (V.valuation query.entry.values.now)) row.now) }
    ensures tables { IsSomeIn interval now times.now → AreTables surviving.now }
{
    let is_given = is_given(row, times, surviving, interval, now);
    is_given && are_as_bound(query.columns, query.values, row.as_slice())
}

// Puts those rows last that survive, agree, and have a time at a distance in the interval.
fn push_given_under<V: Lookup>(
    alloc: Global,
    entries: &Entries,
    query: RowQuery<'_, V>,
    surviving: &Surviving<'_>,
    interval: Interval,
    now: u64,
    out: &mut Vec<Row>,
) -> Result<(), NoMemory>
    ensures rows { OnOk result ((row : List AnyValue) → Contains out.new.items row ↔ (Contains out.old.items row
        ⊎ GivesRow interval now
        (SurvivesUnder surviving.now (cells query.entry.columns.now (V.valuation query.entry.values.now)))
        entries.now.entries row)) }
    ensures tables { OnOk result (GivesSomeRow interval now entries.now.entries → AreTables surviving.now) }
{
    for (row, times) in entries.iter() {
        if is_given_under(row, times, query, surviving, interval, now) {
            out.push(row.duplicate(alloc)?)?;
        }
    }
    Ok(())
}

// Puts the row at the place last, where it survives, agrees, and has such a time.
fn push_at<V: Lookup>(
    entries: &Entries,
    place: usize,
    query: RowQuery<'_, V>,
    surviving: &Surviving<'_>,
    interval: Interval,
    now: u64,
    out: &mut Vec<Row>,
) -> Result<(), NoMemory>
    ensures { OnOk result ((row : List AnyValue) → Contains out.new.items row ↔ (Contains out.old.items row
        ⊎ GivesRowAt interval now
        (SurvivesUnder surviving.now (cells query.entry.columns.now (V.valuation query.entry.values.now)))
        entries.now.entries place row)) }
{
    let Some((row, times)) = entries.get_index(place) else {
        return Ok(());
    };
    if !is_given_under(row, times, query, surviving, interval, now) {
        return Ok(());
    }
    let alloc = *out.allocator();
    out.push(row.duplicate(alloc)?)?;
    Ok(())
}

// So with the rows at these places, which are those of all that agree.
fn push_found<V: Lookup>(
    entries: &Entries,
    places: &[usize],
    query: RowQuery<'_, V>,
    surviving: &Surviving<'_>,
    interval: Interval,
    now: u64,
    out: &mut Vec<Row>,
) -> Result<(), NoMemory>
    requires { (place : ℕ) (row : List AnyValue) (times : List ℕ)
        → slice_get entries.now.entries place ≡ Some (row, times)
        → IsTrue (are_cells_as_bound (cells query.columns.now (V.valuation query.values.now)) row)
        → Contains places.now place }
    ensures { OnOk result ((row : List AnyValue) → Contains out.new.items row ↔ (Contains out.old.items row
        ⊎ GivesRow interval now
        (SurvivesUnder surviving.now (cells query.entry.columns.now (V.valuation query.entry.values.now)))
        entries.now.entries row)) }
{
    for place in places {
        push_at(entries, *place, query, surviving, interval, now, out)?;
    }
    Ok(())
}

// So too, by the index where the valuation binds its columns.
pub fn push_given_by<V: Lookup>(
    entries: &Entries,
    index: &Option<RowIndex>,
    query: RowQuery<'_, V>,
    surviving: &Surviving<'_>,
    interval: Interval,
    now: u64,
    out: &mut Vec<Row>,
) -> Result<(), NoMemory>
    requires indexed { IfSome index.now (IsIndexOf query.columns.now (rows_of entries.now.entries)) }
    requires fit { All (λ e. length e.0 ≡ length query.columns.now) entries.now.entries }
    ensures rows { OnOk result ((row : List AnyValue) → Contains out.new.items row ↔ (Contains out.old.items row
        ⊎ GivesRow interval now
        (SurvivesUnder surviving.now (cells query.entry.columns.now (V.valuation query.entry.values.now)))
        entries.now.entries row)) }
    ensures tables { AreTables surviving.now }
{
    surviving.tables();
    if let Some(index) = index {
        if index.is_bound_by(query.values) {
            let places = index.places(query.values);
            return push_found(entries, places, query, surviving, interval, now, out);
        }
    }
    let alloc = *out.allocator();
    push_given_under(alloc, entries, query, surviving, interval, now, out)
}

// Puts those rows of the table last that agree.
fn push_rows_under<V: Lookup>(
    alloc: Global,
    rows: &Table,
    query: RowQuery<'_, V>,
    out: &mut Vec<Row>,
) -> Result<(), NoMemory>
    ensures table { IsTable rows.now }
    ensures rows { OnOk result ((row : List AnyValue) → Contains out.new.items row ↔ (Contains out.old.items row
        ⊎ (Contains rows.now.rows row
        × IsTrue (are_cells_as_bound (cells query.entry.columns.now (V.valuation query.entry.values.now)) row)))) }
{
    for row in rows.rows() {
        if are_as_bound(query.columns, query.values, row.as_slice()) {
            out.push(row.duplicate(alloc)?)?;
        }
    }
    Ok(())
}

// Puts those rows of the table last that agree, where 0 is in the interval.
pub fn push_now_under<V: Lookup>(
    alloc: Global,
    right: &Table,
    query: RowQuery<'_, V>,
    interval: Interval,
    out: &mut Vec<Row>,
) -> Result<(), NoMemory>
    ensures table { IsIn interval 0 → IsTable right.now }
    ensures rows { OnOk result ((row : List AnyValue) → Contains out.new.items row ↔ (Contains out.old.items row
        ⊎ (IsIn interval 0 × (Contains right.now.rows row
        × IsTrue (are_cells_as_bound (cells query.entry.columns.now (V.valuation query.entry.values.now)) row))))) }
{
    if interval.has(0) {
        push_rows_under(alloc, right, query, out)?;
    }
    Ok(())
}
