//! Files over memory of which some calls fail.
ghost use Rattle.std.specs.Prelude.{◌≡◌, ◌≢◌, ◌==◌, OnOk, OnErr, IfOk, IsErrOf, List, [], None, Some};
ghost use Rattle.std.specs.Prelude.{ℕ, Ok, true, false};
ghost use Rattle.std.specs.List.{list_any};
ghost use Rattle.enf_io.specs.meaning.FileCalls.{faults_after, ReadsFile, WritesFile};
ghost use Rattle.enf_io.specs.meaning.Files.{one_more, FileBytes, with_contents, FileView};
ghost use Rattle.enf_io.specs.machine.KeptFiles.{contents_in};
ghost use Rattle.enf_io.specs.machine.MemDevices.{MemContents, mem_file_front, is_failing, mem_files};

use crate::devices::{Files, IoRefusal, NoMemory};
use crate::kept_files::KeptFiles;
use std::alloc::Global;
use std::marker::Model;

/// Keeps bytes under names, and fails the calls whose numbers it was given. A fault counts for every name.
#[derive(Drop)]
pub struct MemFiles {
    files: KeptFiles,
    failing: Vec<u64>,
    calls: u64,
    read_faults: u64,
    write_faults: u64,
    alloc: Global,
}

impl Model for MemFiles {
    ghost Value = { MemContents };

    ghost view = { λ f. record {
      files = f.files;
      failing = f.failing.items;
      calls = f.calls;
      read_faults = f.read_faults;
      write_faults = f.write_faults;
    } };
}

impl MemFiles {
    /// `failing` has the numbers of the reads and writes that fail, counted together from 0.
    pub fn new(alloc: Global, failing: Vec<u64>) -> MemFiles
        ensures { result ≡ record {
          files = [];
          failing = failing.items;
          calls = 0;
          read_faults = 0;
          write_faults = 0;
        } }
    {
        MemFiles {
            files: KeptFiles::new(alloc),
            failing,
            calls: 0,
            read_faults: 0,
            write_faults: 0,
            alloc,
        }
    }

    /// Makes these bytes the contents under the name. It is no call of those that may fail.
    pub fn put(&mut self, name: &str, bytes: Vec<u8>) -> Result<(), NoMemory>
        ensures held { OnOk result (contents_in self.new.files name.now ≡ FileBytes bytes.items) }
        ensures others { OnOk result ((other : List ℕ) → other ≢ name.now
            → contents_in self.new.files other ≡ contents_in self.old.files other) }
        ensures rest { self.new ≡ record self.old { files = self.new.files } }
        ensures no_memory { OnErr result (self.new ≡ self.old) }
    {
        self.files.put(name, bytes)
    }

    // Whether the call that begins is to fail; it counts as a call.
    fn begin_call(&mut self) -> bool
        ensures fails { result ≡ is_failing self.old }
        ensures after { self.new ≡ record self.old { calls = one_more self.old.calls } }
    {
        let fails = self.failing.contains(&self.calls);
        self.calls = self.calls.saturating_add(1);
        fails
    }
}

impl Files for MemFiles {
    ghost seen = { mem_files };

    fn read(&mut self, name: &str, most: usize) -> Result<Vec<u8>, IoRefusal>
        ensures ok { IfOk result (λ bytes. mem_file_front self.old name.now most ≡ Some bytes.items) }
        ensures failed { IsErrOf result IoRefusal.Failed → mem_file_front self.old name.now most ≡ None }
        ensures after { self.new ≡ record self.old {
          calls = one_more self.old.calls;
          read_faults = faults_after result self.old.read_faults;
        } }
        ensures seen { ReadsFile name.now most result (mem_files self.old) (mem_files self.new) }
    {
        if !self.begin_call() {
            if let Some(front) = self.files.front(name, most)? {
                return Ok(front);
            }
        }
        self.read_faults = self.read_faults.saturating_add(1);
        Err(IoRefusal::Failed)
    }

    fn draw(&mut self, _name: &str) -> Result<u64, IoRefusal>
        ensures told { result ≡ Ok 0 }
        ensures same { self.new ≡ self.old }
    {
        Ok(0)
    }

    fn write(&mut self, name: &str, bytes: &[u8]) -> Result<(), IoRefusal>
        ensures ok { OnOk result (is_failing self.old ≡ false) }
        ensures failed { IsErrOf result IoRefusal.Failed → is_failing self.old ≡ true }
        ensures contents { OnOk result (contents_in self.new.files
            ≡ with_contents name.now (FileBytes bytes.now) (contents_in self.old.files)) }
        ensures refused { OnErr result (self.new.files ≡ self.old.files) }
        ensures rest { self.new ≡ record self.old {
          files = self.new.files;
          calls = one_more self.old.calls;
          write_faults = faults_after result self.old.write_faults;
        } }
    {
        if self.begin_call() {
            self.write_faults = self.write_faults.saturating_add(1);
            return Err(IoRefusal::Failed);
        }
        let copy = Vec::from_slice(self.alloc, bytes)?;
        self.files.put(name, copy)?;
        Ok(())
    }
}
