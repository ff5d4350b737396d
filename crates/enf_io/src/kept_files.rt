//! Files in memory.
ghost use Rattle.std.specs.Prelude.{◌≡◌, ◌≢◌, OnOk, OnErr, IfOk, List, [], ℕ, map, string_bytes};
ghost use Rattle.std.specs.Option.{option_map};
ghost use Rattle.enf_io.specs.meaning.Files.{FileBytes};
ghost use Rattle.enf_io.specs.machine.KeptFiles.{contents_in, front_of};

use crate::devices::NoMemory;
use std::alloc::Global;
use std::collections::BTreeMap;
use std::marker::Model;

// Bytes under names.
#[derive(Drop)]
pub(crate) struct KeptFiles {
    files: BTreeMap<String, Vec<u8>>,
    alloc: Global,
}

impl Model for KeptFiles {
    ghost Value = { List (List ℕ × List ℕ) };

    ghost view = { λ f. map (λ e. (string_bytes e.0, e.1.items)) f.files.entries };
}

impl KeptFiles {
    pub(crate) fn new(alloc: Global) -> KeptFiles
        ensures { result ≡ [] }
    {
        KeptFiles {
            files: BTreeMap::new(alloc),
            alloc,
        }
    }

    // Makes these bytes the contents under the name.
    pub(crate) fn put(&mut self, name: &str, bytes: Vec<u8>) -> Result<(), NoMemory>
        ensures held { OnOk result (contents_in self.new name.now ≡ FileBytes bytes.items) }
        ensures others { OnOk result ((other : List ℕ) → other ≢ name.now
            → contents_in self.new other ≡ contents_in self.old other) }
        ensures no_memory { OnErr result (self.new ≡ self.old) }
    {
        let name = String::from_str(self.alloc, name)?;
        self.files.insert(name, bytes)?;
        Ok(())
    }

    // The contents under the name, or the first of them.
    pub(crate) fn front(&self, name: &str, most: usize) -> Result<Option<Vec<u8>>, NoMemory>
        ensures { IfOk result (λ front. option_map (λ bytes. bytes.items) front
            ≡ front_of most (contents_in self.now name.now)) }
    {
        match self.files.get(name) {
            Some(bytes) => {
                let front = &bytes[..most.min(bytes.len())];
                Ok(Some(Vec::from_slice(self.alloc, front)?))
            }
            None => Ok(None),
        }
    }
}
