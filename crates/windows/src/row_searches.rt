//! Whether a window gives a row that agrees with a valuation where it binds: the first that is found is enough.
ghost use Rattle.std.specs.Prelude.{◌≡◌, ◌↔◌, ℕ, List, All, Some, IfSome, IsTrue, Contains, length};
ghost use Rattle.std.specs.Prelude.{slice_get};
ghost use Rattle.enf_data.specs.declared.values.Value.{Value as AnyValue};
ghost use Rattle.windows.specs.machine.RowIndexes.{IsIndexOf};
ghost use Rattle.windows.specs.machine.RowQueries.{are_cells_as_bound, cells, SurvivesUnder};
ghost use Rattle.windows.specs.machine.WindowEntries.{GivesRow, GivesRowAt, rows_of};
ghost use Rattle.windows.specs.machine.Windows.{AreTables};
ghost use Rattle.enf_data.specs.meaning.Membership.{IsIn};
ghost use Rattle.valuations.specs.machine.Tables.{IsTable};

use crate::bound_answers::{are_as_bound, is_given_under};
use crate::entries::Entries;
use crate::row_index::RowIndex;
use crate::row_query::RowQuery;
use crate::surviving_rows::Surviving;
use enf_data::intervals::Interval;
use valuations::{Lookup, Table};

// Whether the row at the place survives, agrees, and has a time at a distance in the interval.
fn is_given_at<V: Lookup>(
    entries: &Entries,
    place: usize,
    query: RowQuery<'_, V>,
    surviving: &Surviving<'_>,
    interval: Interval,
    now: u64,
) -> bool
    ensures { IsTrue result ↔ ((row : List AnyValue) × GivesRowAt interval now
        (SurvivesUnder surviving.now (cells query.entry.columns.now (V.valuation query.entry.values.now)))
        entries.now.entries place row) }
{
    match entries.get_index(place) {
        Some((row, times)) => is_given_under(row, times, query, surviving, interval, now),
        None => false,
    }
}

// Whether one of the rows at these places does, which are those of all that agree.
fn has_found<V: Lookup>(
    entries: &Entries,
    places: &[usize],
    query: RowQuery<'_, V>,
    surviving: &Surviving<'_>,
    interval: Interval,
    now: u64,
) -> bool
    requires { (place : ℕ) (row : List AnyValue) (times : List ℕ)
        → slice_get entries.now.entries place ≡ Some (row, times)
        → IsTrue (are_cells_as_bound (cells query.columns.now (V.valuation query.values.now)) row)
        → Contains places.now place }
    ensures { IsTrue result ↔ ((row : List AnyValue) × GivesRow interval now
        (SurvivesUnder surviving.now (cells query.entry.columns.now (V.valuation query.entry.values.now)))
        entries.now.entries row) }
{
    for place in places {
        if is_given_at(entries, *place, query, surviving, interval, now) {
            return true;
        }
    }
    false
}

// Whether one of all rows does.
fn has_given<V: Lookup>(
    entries: &Entries,
    query: RowQuery<'_, V>,
    surviving: &Surviving<'_>,
    interval: Interval,
    now: u64,
) -> bool
    ensures { IsTrue result ↔ ((row : List AnyValue) × GivesRow interval now
        (SurvivesUnder surviving.now (cells query.entry.columns.now (V.valuation query.entry.values.now)))
        entries.now.entries row) }
{
    for place in 0..entries.len() {
        if is_given_at(entries, place, query, surviving, interval, now) {
            return true;
        }
    }
    false
}

// So too, by the index where the valuation binds its columns.
pub fn has_given_by<V: Lookup>(
    entries: &Entries,
    index: &Option<RowIndex>,
    query: RowQuery<'_, V>,
    surviving: &Surviving<'_>,
    interval: Interval,
    now: u64,
) -> bool
    requires indexed { IfSome index.now (IsIndexOf query.columns.now (rows_of entries.now.entries)) }
    requires fit { All (λ e. length e.0 ≡ length query.columns.now) entries.now.entries }
    ensures given { IsTrue result ↔ ((row : List AnyValue) × GivesRow interval now
        (SurvivesUnder surviving.now (cells query.entry.columns.now (V.valuation query.entry.values.now)))
        entries.now.entries row) }
    ensures tables { AreTables surviving.now }
{
    surviving.tables();
    if let Some(index) = index {
        if index.is_bound_by(query.values) {
            let places = index.places(query.values);
            return has_found(entries, places, query, surviving, interval, now);
        }
    }
    has_given(entries, query, surviving, interval, now)
}

// Whether some row of the table agrees.
fn has_row_under<V: Lookup>(rows: &Table, query: RowQuery<'_, V>) -> bool
    ensures table { IsTable rows.now }
    ensures some { IsTrue result ↔ ((row : List AnyValue) × Contains rows.now.rows row
        × IsTrue (are_cells_as_bound (cells query.entry.columns.now (V.valuation query.entry.values.now)) row)) }
{
    for row in rows.rows() {
        if are_as_bound(query.columns, query.values, row.as_slice()) {
            return true;
        }
    }
    false
}

// Whether some row of the table agrees, where 0 is in the interval.
pub fn has_now_under<V: Lookup>(right: &Table, query: RowQuery<'_, V>, interval: Interval) -> bool
    ensures table { IsIn interval 0 → IsTable right.now }
    ensures some { IsTrue result ↔ (IsIn interval 0 × ((row : List AnyValue) × Contains right.now.rows row
        × IsTrue (are_cells_as_bound (cells query.entry.columns.now (V.valuation query.entry.values.now)) row))) }
{
    if !interval.has(0) {
        return false;
    }
    has_row_under(right, query)
}
