//! The rows of a window that agree with the rows of a table of some of its columns.
ghost use Rattle.std.specs.Prelude.{◌≡◌, ◌↔◌, ◌⊎◌, List, All, IfOk, IfSome, OnOk, Contains, length};
ghost use Rattle.enf_data.specs.declared.terms.VarId.{VarId as AnyVariable};
ghost use Rattle.enf_data.specs.declared.values.Value.{Value as AnyValue};
ghost use Rattle.enf_data.specs.meaning.Valuations.{Valuation as Bound};
ghost use Rattle.valuations.specs.machine.Tables.{HasValuation, IsTable};
ghost use Rattle.windows.specs.machine.RowIndexes.{IsIndexOf};
ghost use Rattle.windows.specs.machine.RowParts.{GivesPart, GivesSomePart};
ghost use Rattle.windows.specs.machine.WindowEntries.{rows_of};

use crate::bound_answers::push_given_by;
use crate::entries::Entries;
use crate::row_index::RowIndex;
use crate::row_query::RowQuery;
use crate::since::SinceWindow;
use crate::surviving_rows::Surviving;
use enf_data::intervals::Interval;
use enf_data::items::Duplicate;
use enf_data::memory::NoMemory;
use enf_data::rows::Row;
use enf_data::terms::VarId;
use std::alloc::Global;
use valuations::{Frame, Table, Valuation};

impl SinceWindow {
    ghost use Rattle.windows.specs.machine.Windows.{WindowKeeps};

    /// Those of `rows` that agree with a row of the table, whose columns are some of its own: one look-up for each row
    /// of the table, where rows are looked up by these columns.
    pub fn rows_of_parts(&self, alloc: Global, parts: &Table) -> Result<Table, NoMemory>
        requires { (x : AnyVariable) → Contains parts.now.columns x → Contains self.now.columns x }
        ensures table { IfOk result IsTable }
        ensures columns { IfOk result (λ t. t.columns ≡ self.now.columns) }
        ensures rows { IfOk result (λ t. (v : Bound) → HasValuation t v
            ↔ (WindowKeeps self.now self.now.last v × HasValuation parts.now v)) }
    {
        let to_the_end = Interval {
            low: 0,
            high: self.interval.high,
        };
        let mut rows = Vec::new(alloc);
        push_parts(
            &self.entries,
            &self.index,
            self.columns.as_slice(),
            parts,
            to_the_end,
            self.last,
            &mut rows,
        )?;
        Table::from_rows(self.columns.duplicate(alloc)?, rows)
    }
}

// Puts those rows last that agree with a row of the table and have a time at a distance in the interval.
fn push_parts(
    entries: &Entries,
    index: &Option<RowIndex>,
    columns: &[VarId],
    parts: &Table,
    interval: Interval,
    now: u64,
    out: &mut Vec<Row>,
) -> Result<(), NoMemory>
    requires indexed { IfSome index.now (IsIndexOf columns.now (rows_of entries.now.entries)) }
    requires fit { All (λ e. length e.0 ≡ length columns.now) entries.now.entries }
    ensures rows { OnOk result ((row : List AnyValue) → Contains out.new.items row ↔ (Contains out.old.items row
        ⊎ GivesSomePart interval now columns.now entries.now.entries parts.now.columns parts.now.rows row)) }
    ensures table { IsTable parts.now }
{
    let of = parts.columns().as_slice();
    for part in parts.rows() {
        push_part(entries, index, columns, of, part, interval, now, out)?;
    }
    Ok(())
}

// So with those that agree with a row of these columns.
fn push_part(
    entries: &Entries,
    index: &Option<RowIndex>,
    columns: &[VarId],
    of: &[VarId],
    part: &Row,
    interval: Interval,
    now: u64,
    out: &mut Vec<Row>,
) -> Result<(), NoMemory>
    requires indexed { IfSome index.now (IsIndexOf columns.now (rows_of entries.now.entries)) }
    requires fit { All (λ e. length e.0 ≡ length columns.now) entries.now.entries }
    ensures { OnOk result ((row : List AnyValue) → Contains out.new.items row ↔ (Contains out.old.items row
        ⊎ GivesPart interval now columns.now entries.now.entries of.now part.now row)) }
{
    let alloc = *out.allocator();
    let nothing = Valuation::empty(alloc);
    let below = Frame::Whole(&nothing);
    let values = Frame::Row(&below, of, part.as_slice());
    let query = RowQuery {
        columns,
        values: &values,
    };
    push_given_by(entries, index, query, &Surviving::All, interval, now, out)
}
