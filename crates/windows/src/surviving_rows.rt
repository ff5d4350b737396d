//! Which rows survive a step.
ghost use Rattle.std.specs.Prelude.{◌↔◌, IsTrue};
ghost use Rattle.windows.specs.machine.WindowEntries.{RowSurvives};
ghost use Rattle.windows.specs.machine.Windows.{AreTables};

use enf_data::rows::Row;
use valuations::Table;

/// The rows that survive a step: all, those of a table, or all but those of a table.
#[derive(Clone, Copy, Debug)]
pub enum Surviving<'a> {
    All,
    Only(&'a Table),
    AllBut(&'a Table),
}

impl Surviving<'_> {
    // What it is told by is a table.
    pub(crate) fn tables(&self)
        ensures { AreTables self.now }
    {
        match self {
            Surviving::All => {}
            Surviving::Only(rows) | Surviving::AllBut(rows) => {
                let _rows = rows.rows();
            }
        }
    }

    // Whether the row survives.
    pub(crate) fn has(&self, row: &Row) -> bool
        ensures has { IsTrue result ↔ RowSurvives self.now row.now }
        ensures tables { AreTables self.now }
    {
        match self {
            Surviving::All => true,
            Surviving::Only(rows) => rows.has(row),
            Surviving::AllBut(rows) => !rows.has(row),
        }
    }
}
