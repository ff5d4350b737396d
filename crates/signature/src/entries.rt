//! Names with their columns and marks.
ghost use Rattle.std.specs.Prelude.{◌≡◌, IfOk};

use enf_data::{Duplicate, Items, NoMemory, TextValue};
use std::alloc::Global;

/// What a column holds.
#[derive(Clone, Copy, Debug, PartialEq, Eq)]
pub enum Sort {
    Int,
    Text,
}

impl Duplicate for Sort {
    fn duplicate(&self, _alloc: Global) -> Result<Sort, NoMemory> {
        Ok(*self)
    }
}

/// A list of sorts.
pub type Sorts = Items<Sort>;

/// A name, the sorts of its columns, and whether its events may be caused or suppressed.
#[derive(Debug, PartialEq, Eq, Drop)]
pub struct NameEntry {
    pub text: TextValue,
    pub sorts: Sorts,
    pub causable: bool,
    pub suppressible: bool,
}

impl Duplicate for NameEntry {
    fn duplicate(&self, alloc: Global) -> Result<NameEntry, NoMemory> {
        Ok(NameEntry {
            text: self.text.duplicate(alloc)?,
            sorts: self.sorts.duplicate(alloc)?,
            causable: self.causable,
            suppressible: self.suppressible,
        })
    }
}
