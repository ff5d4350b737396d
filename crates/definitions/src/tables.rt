//! What defined names say.
ghost use Rattle.std.specs.Prelude.{◌≡◌};
ghost use Rattle.std.specs.Option.{option_copied, option_map};
ghost use Rattle.definitions.specs.machine.StoredTables.{meant_of, table_of};

use enf_data::events::NameId;
use enf_data::items::Items;
use enf_data::terms::Vars;
use enf_formula::Formula;

/// What a defined name says of its parameters, in a formula that is unfolded.
#[derive(Debug, Drop)]
pub struct Meant {
    pub params: Vars,
    pub formula: Formula,
}

/// What the names from `first` on say.
#[derive(Debug, Drop)]
pub struct Table {
    pub first: u32,
    pub meanings: Items<Meant>,
}

impl Table {
    /// What a name says, where it is defined.
    pub fn get(&self, name: NameId) -> Option<&Meant>
        ensures { option_map meant_of (option_copied result) ≡ table_of self.now name }
    {
        let place = name.0.checked_sub(self.first)?;
        self.meanings.get(place as usize)
    }
}
