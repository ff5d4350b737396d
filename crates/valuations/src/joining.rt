//! The natural join, and the rows without a partner.
ghost use Rattle.std.specs.Prelude.{◌≡◌, ◌↔◌, ◌++◌, ◌∷◌, [], List, map, IfOk, OnOk, All};
ghost use Rattle.std.specs.Prelude.{Contains, length};
ghost use Rattle.enf_data.specs.declared.values.Value.{Value as AnyValue};
ghost use Rattle.valuations.specs.machine.RowParts.{row_key, row_part, IsInKeyOrder, AreJoinedRows, AreSingleRows};
ghost use Rattle.valuations.specs.machine.RowParts.{shown_rows};

use crate::cells::{append_part, compare_keys};
use enf_data::items::Duplicate;
use enf_data::memory::NoMemory;
use enf_data::rows::Row;
use std::alloc::Global;
use std::cmp::Ordering;

// The rows in the order of their values at the places.
pub fn in_order<'a>(
    alloc: Global,
    rows: &'a [Row],
    places: &[usize],
) -> Result<Vec<&'a Row>, NoMemory>
    ensures order { IfOk result (λ order. IsInKeyOrder places.now order.items) }
    ensures rows { IfOk result (λ order. (row : List AnyValue)
        → Contains (shown_rows order.items) row ↔ Contains rows.now row) }
{
    let mut order = Vec::with_capacity(alloc, rows.len())?;
    for row in rows {
        order.push(row)?;
    }
    order.sort_unstable_by(|a, b| compare_keys(a, places, b, places));
    Ok(order)
}

// Those of the rows in order that have at the right places what the row has at the left ones.
pub fn partners<'s, 'a>(
    order: &'s [&'a Row],
    right: &[usize],
    row: &Row,
    left: &[usize],
) -> &'s [&'a Row]
    requires order { IsInKeyOrder right.now order.now }
    requires same { length right.now ≡ length left.now }
    ensures { (other : List AnyValue) → Contains (shown_rows result.now) other
        ↔ (Contains (shown_rows order.now) other × (row_key other right.now ≡ row_key row.now left.now)) }
{
    let from = order.partition_point(|other| compare_keys(other, right, row, left).is_lt());
    let rest = &order[from..];
    let count = rest.partition_point(|other| compare_keys(other, right, row, left).is_le());
    &rest[..count]
}

// Each of the rows joined with each of its partners.
pub fn joined_rows(
    alloc: Global,
    rows: &[Row],
    left: &[usize],
    order: &[&Row],
    right: &[usize],
    rest: &[usize],
) -> Result<Vec<Row>, NoMemory>
    requires order { IsInKeyOrder right.now order.now }
    requires same { length right.now ≡ length left.now }
    ensures { IfOk result (λ out. AreJoinedRows left.now right.now rest.now rows.now (shown_rows order.now)
        out.items) }
{
    let mut joined = Vec::new(alloc);
    for row in rows {
        push_joined(
            alloc,
            row,
            partners(order, right, row, left),
            rest,
            &mut joined,
        )?;
    }
    Ok(joined)
}

fn push_joined(
    alloc: Global,
    row: &Row,
    partners: &[&Row],
    rest: &[usize],
    out: &mut Vec<Row>,
) -> Result<(), NoMemory>
    ensures { OnOk result (out.new.items
        ≡ out.old.items ++ map (λ other. row.now ++ row_part other rest.now) (shown_rows partners.now)) }
{
    for other in partners {
        let mut joined = row.duplicate(alloc)?;
        append_part(alloc, other, rest, &mut joined)?;
        out.push(joined)?;
    }
    Ok(())
}

// The rows without a partner.
pub fn single_rows(
    alloc: Global,
    rows: &[Row],
    left: &[usize],
    order: &[&Row],
    right: &[usize],
) -> Result<Vec<Row>, NoMemory>
    requires order { IsInKeyOrder right.now order.now }
    requires same { length right.now ≡ length left.now }
    ensures { IfOk result (λ out. AreSingleRows left.now right.now rows.now (shown_rows order.now)
        out.items) }
{
    let mut single = Vec::new(alloc);
    for row in rows {
        if partners(order, right, row, left).is_empty() {
            single.push(row.duplicate(alloc)?)?;
        }
    }
    Ok(single)
}
