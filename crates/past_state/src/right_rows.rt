//! The rows that are right at a step, which what is made of them shares.
ghost use Rattle.std.specs.Prelude.{◌≡◌, IfOk};
ghost use Rattle.valuations.specs.machine.Tables.{IsTable};

use enf_data::items::Duplicate;
use enf_data::memory::NoMemory;
use enf_data::rows::Row;
use std::alloc::Global;
use std::marker::Model;
use std::rc::Rc;
use valuations::Table;

/// A table that its copies share.
#[derive(Debug, Drop)]
pub struct RightRows {
    table: Rc<Table>,
}

impl Model for RightRows {
    ghost use Rattle.valuations.specs.machine.Tables.{Relation, relation_code};

    ghost Value = { Relation };

    ghost coded = { relation_code };

    ghost view = { λ right. right.table.value };
}

impl RightRows {
    /// The table, in memory of its own.
    pub fn of(alloc: Global, table: Table) -> Result<RightRows, NoMemory>
        ensures { IfOk result (λ right. right ≡ table) }
    {
        let table = Rc::new(alloc, table)?;
        Ok(RightRows { table })
    }

    /// The table.
    pub fn table(&self) -> &Table
        ensures { result.now ≡ self.now }
    {
        &*self.table
    }

    /// The table, which is copied where others share it.
    pub fn into_table(self, alloc: Global) -> Result<Table, NoMemory>
        ensures { IfOk result (λ table. table ≡ self) }
    {
        match Rc::try_unwrap(self.table) {
            Ok(table) => Ok(table),
            Err(shared) => shared.duplicate(alloc),
        }
    }

    /// Its rows, given away: copies of them where others share the table.
    pub fn into_rows(self, alloc: Global) -> Result<Vec<Row>, NoMemory>
        ensures rows { IfOk result (λ rows. rows.items ≡ self.rows) }
        ensures table { IsTable self }
    {
        if self.table.is_empty() {
            return Ok(Vec::new(alloc));
        }
        match Rc::try_unwrap(self.table) {
            Ok(table) => Ok(table.into_rows()),
            Err(shared) => Ok(shared.duplicate(alloc)?.into_rows()),
        }
    }
}

impl Duplicate for RightRows {
    fn duplicate(&self, _alloc: Global) -> Result<RightRows, NoMemory> {
        let table = self.table.clone()?;
        Ok(RightRows { table })
    }
}
