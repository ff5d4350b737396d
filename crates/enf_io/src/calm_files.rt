//! Files over memory.
ghost use Rattle.std.specs.Prelude.{◌≡◌, ◌≢◌, ◌++◌, ◌∷◌, OnOk, OnErr, IfErr, IfOk, IsErrOf, List};
ghost use Rattle.std.specs.Prelude.{[], ℕ, Ok, map, string_bytes};
ghost use Rattle.enf_io.specs.meaning.Files.{NoFile, FileBytes, with_contents, FileView};
ghost use Rattle.enf_io.specs.meaning.FileCalls.{GivesContents, ReadsFile, WritesFile};
ghost use Rattle.enf_io.specs.machine.CalmDevices.{CalmContents, calm_files, contents_under};

use crate::devices::{Files, IoRefusal, NoMemory};
use crate::kept_files::KeptFiles;
use std::alloc::Global;
use std::marker::Model;

/// Keeps bytes under names, and has a fault only at a read of a name that it does not have.
#[derive(Drop)]
pub struct CalmFiles {
    files: KeptFiles,
    missed: Vec<String>,
    alloc: Global,
}

impl Model for CalmFiles {
    ghost Value = { CalmContents };

    ghost view = { λ f. record {
      files = f.files;
      missed = map string_bytes f.missed.items;
    } };
}

impl CalmFiles {
    pub fn new(alloc: Global) -> CalmFiles
        ensures files { result.files ≡ [] }
        ensures missed { result.missed ≡ [] }
    {
        CalmFiles {
            files: KeptFiles::new(alloc),
            missed: Vec::new(alloc),
            alloc,
        }
    }

    /// Makes these bytes the contents under the name.
    pub fn put(&mut self, name: &str, bytes: Vec<u8>) -> Result<(), NoMemory>
        ensures held { OnOk result (contents_under self.new name.now ≡ FileBytes bytes.items) }
        ensures others { OnOk result ((other : List ℕ) → other ≢ name.now
            → contents_under self.new other ≡ contents_under self.old other) }
        ensures missed { self.new.missed ≡ self.old.missed }
        ensures no_memory { OnErr result (self.new ≡ self.old) }
    {
        self.files.put(name, bytes)
    }

    fn note_miss(&mut self, name: &str) -> Result<(), NoMemory>
        ensures files { self.new.files ≡ self.old.files }
        ensures missed { OnOk result (self.new.missed ≡ self.old.missed ++ name.now ∷ []) }
        ensures no_memory { OnErr result (self.new ≡ self.old) }
    {
        self.missed.push(String::from_str(self.alloc, name)?)?;
        Ok(())
    }
}

impl Files for CalmFiles {
    ghost seen = { calm_files };

    fn read(&mut self, name: &str, most: usize) -> Result<Vec<u8>, IoRefusal>
        ensures seen { ReadsFile name.now most result (calm_files self.old) (calm_files self.new) }
        ensures files { self.new.files ≡ self.old.files }
        ensures failed { IsErrOf result IoRefusal.Failed
            → self.new.missed ≡ self.old.missed ++ name.now ∷ [] }
        ensures ok { OnOk result (self.new ≡ self.old) }
        ensures no_memory { IsErrOf result IoRefusal.NoMemory → self.new ≡ self.old }
    {
        match self.files.front(name, most)? {
            Some(front) => Ok(front),
            None => {
                self.note_miss(name)?;
                Err(IoRefusal::Failed)
            }
        }
    }

    fn draw(&mut self, _name: &str) -> Result<u64, IoRefusal>
        ensures told { result ≡ Ok 0 }
        ensures same { self.new ≡ self.old }
    {
        Ok(0)
    }

    fn write(&mut self, name: &str, bytes: &[u8]) -> Result<(), IoRefusal>
        ensures contents { OnOk result (contents_under self.new
            ≡ with_contents name.now (FileBytes bytes.now) (contents_under self.old)) }
        ensures no_memory { IfErr result (λ refusal. refusal ≡ IoRefusal.NoMemory) }
        ensures refused { OnErr result (self.new ≡ self.old) }
        ensures missed { self.new.missed ≡ self.old.missed }
    {
        let copy = Vec::from_slice(self.alloc, bytes)?;
        self.put(name, copy)?;
        Ok(())
    }
}
