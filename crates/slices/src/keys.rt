//! Which argument of an event is its key.
ghost use Rattle.std.specs.Prelude.{◌≡◌, []};
ghost use Rattle.std.specs.Option.{option_copied};
ghost use Rattle.slices.specs.machine.StoredKeys.{keying_of};
ghost use Rattle.slices.specs.meaning.Slices.{event_key};

use enf_data::events::{Event, NameId};
use enf_data::values::Value;
use std::alloc::Global;
use std::marker::Model;

/// Which argument, counted from 0, is the key of the events of each name. A name without one is shared.
#[derive(Drop)]
pub struct Keys {
    columns: Vec<Option<usize>>,
}

impl Model for Keys {
    ghost use Rattle.std.specs.Prelude.{ℕ, List, Option};

    ghost Value = { List (Option ℕ) };

    ghost view = { λ keys. keys.columns.items };
}

impl Keys {
    /// All names are shared.
    pub fn new(alloc: Global) -> Keys
        ensures { result ≡ [] }
    {
        Keys {
            columns: Vec::new(alloc),
        }
    }

    /// The keys of the names in turn, from the first name on; names behind them are shared. It takes no memory.
    pub fn from_vec(columns: Vec<Option<usize>>) -> Keys
        ensures { result ≡ columns.items }
    {
        Keys { columns }
    }

    /// The argument that is the key of the name's events.
    pub fn column(&self, name: NameId) -> Option<usize>
        ensures { result ≡ keying_of self.now name }
    {
        match self.columns.get(name.0 as usize) {
            Some(column) => *column,
            None => None,
        }
    }

    /// The key of an event: none where its name is shared, or it has no such argument.
    pub fn key_of<'a>(&self, event: &'a Event) -> Option<&'a Value>
        ensures { option_copied result ≡ event_key (keying_of self.now) event.now }
    {
        match self.column(event.name) {
            Some(column) => event.args.as_slice().get(column),
            None => None,
        }
    }
}
