//! The values of rows at some places.
ghost use Rattle.std.specs.Prelude.{◌≡◌, [], ◌∷◌, ◌++◌, Some, IfOk, OnOk, IfSome, IfNone, All};
ghost use Rattle.std.specs.Prelude.{Contains, length, slice_get};
ghost use Rattle.std.specs.Option.{option_cmp, option_copied};
ghost use Rattle.enf_data.specs.meaning.Values.{value_cmp};
ghost use Rattle.valuations.specs.machine.RowParts.{row_key, row_part, key_cmp, ArePlaces};
ghost use Rattle.valuations.specs.machine.Tables.{columns_shared, columns_unshared};

use enf_data::items::Duplicate;
use enf_data::memory::NoMemory;
use enf_data::rows::Row;
use enf_data::terms::VarId;
use enf_data::values::Value;
use std::alloc::Global;
use std::cmp::Ordering;

// The others that are among the columns.
pub fn shared_columns(
    alloc: Global,
    columns: &[VarId],
    others: &[VarId],
) -> Result<Vec<VarId>, NoMemory>
    ensures { IfOk result (λ found. found.items ≡ columns_shared columns.now others.now) }
{
    let mut found = Vec::new(alloc);
    for other in others {
        if columns.contains(other) {
            found.push(*other)?;
        }
    }
    Ok(found)
}

// The others that are not among the columns.
pub fn new_columns(
    alloc: Global,
    columns: &[VarId],
    others: &[VarId],
) -> Result<Vec<VarId>, NoMemory>
    ensures { IfOk result (λ found. found.items ≡ columns_unshared columns.now others.now) }
{
    let mut found = Vec::new(alloc);
    for other in others {
        if !columns.contains(other) {
            found.push(*other)?;
        }
    }
    Ok(found)
}

pub fn places_of(alloc: Global, columns: &[VarId], wanted: &[VarId]) -> Result<Vec<usize>, NoMemory>
    requires { All (Contains columns.now) wanted.now }
    ensures { IfOk result (λ places. ArePlaces columns.now wanted.now places.items) }
{
    let mut places = Vec::with_capacity(alloc, wanted.len())?;
    for variable in wanted {
        if let Some(place) = place_of(columns, *variable) {
            places.push(place)?;
        }
    }
    Ok(places)
}

pub fn place_of(columns: &[VarId], wanted: VarId) -> Option<usize>
    ensures some { IfSome result (λ place. slice_get columns.now place ≡ Some wanted) }
    ensures none { IfNone result (Contains columns.now wanted → ⊥) }
{
    for (place, column) in columns.iter().enumerate() {
        if *column == wanted {
            return Some(place);
        }
    }
    None
}

pub fn compare_keys(a: &Row, left: &[usize], b: &Row, right: &[usize]) -> Ordering
    requires { length left.now ≡ length right.now }
    ensures { result ≡ key_cmp (row_key a.now left.now) (row_key b.now right.now) }
{
    for (at, other) in left.iter().zip(right) {
        match compare_cells(a.get(*at), b.get(*other)) {
            Ordering::Equal => {}
            apart => return apart,
        }
    }
    Ordering::Equal
}

pub fn append_part(
    alloc: Global,
    row: &Row,
    places: &[usize],
    out: &mut Row,
) -> Result<(), NoMemory>
    ensures { OnOk result (out.new ≡ out.old ++ row_part row.now places.now) }
{
    for place in places {
        if let Some(value) = row.get(*place) {
            push_copy(alloc, value, out)?;
        }
    }
    Ok(())
}

pub fn push_copy(alloc: Global, value: &Value, out: &mut Row) -> Result<(), NoMemory>
    ensures { OnOk result (out.new ≡ out.old ++ value.now ∷ []) }
{
    let copy = value.duplicate(alloc)?;
    match out.push(copy) {
        Ok(()) => Ok(()),
        Err(_value) => Err(NoMemory),
    }
}

fn compare_cells(a: Option<&Value>, b: Option<&Value>) -> Ordering
    ensures { result ≡ option_cmp value_cmp (option_copied a.entry) (option_copied b.entry) }
{
    match (a, b) {
        (Some(a), Some(b)) => a.compare(b),
        (Some(_), None) => Ordering::Greater,
        (None, Some(_)) => Ordering::Less,
        (None, None) => Ordering::Equal,
    }
}
