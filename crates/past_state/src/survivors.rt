//! Which rows survive a step, by tables that are owned.
ghost use Rattle.past_state.specs.machine.Survivors.{IsViewOf};

use valuations::Table;
use windows::Surviving;

/// The rows that survive a step: all, those of a table, or all but those of a table.
#[derive(Debug, Drop)]
pub enum Survivors {
    All,
    Only(Table),
    AllBut(Table),
}

impl Survivors {
    /// The rows that survive, by reference, as windows ask for them.
    pub fn as_surviving(&self) -> Surviving<'_>
        ensures { IsViewOf self.now result }
    {
        match self {
            Survivors::All => Surviving::All,
            Survivors::Only(rows) => Surviving::Only(rows),
            Survivors::AllBut(rows) => Surviving::AllBut(rows),
        }
    }
}
