//! What the adapters call: a reader, a writer and the files of std, each call once. std tells of a call which bytes
//! it moves, and nothing of its errors; so each trait here names the calls themselves, as a relation between what
//! was before a call, its answer, and what is after it. Code that is generic over the trait gets that relation by
//! one call and by nothing else. Each impl hands on its call, and that it does no more is not proved.
ghost use Rattle.std.specs.Prelude.{◌≡◌, ◌≤◌, List, ℕ, Option, Result, IfOk, ⊤, length};
ghost use Rattle.std.specs.Io.{ReadsAtMost, WritesAtMost};
ghost use Rattle.std.specs.Io.KnownBytes.{ReadConsumes, WriteAppends};
ghost use Rattle.std.specs.declared.vec.Vec.{Vec as AnyVec};
ghost use Rattle.std.specs.declared.alloc.Global.{Global as AnyGlobal};
ghost use Rattle.std.specs.declared.io.Error.{Error};

use std::alloc::Global;
use std::fs::OpenFile;
use std::io::{ErrorKind, Read, Write};
use std::random::RandomSource;
use std::{fs, io};

/// A reader whose calls are told apart. Each reader of std is one.
pub trait ReadOnce {
    ghost left: { Self → Option (List ℕ) };

    ghost read_gives: { Self → List ℕ → Result ℕ Error → Self → Type 0 };

    /// As `Read::read`, called once.
    fn read_once(&mut self, buf: &mut [u8]) -> io::Result<usize>
        ensures bound { ReadsAtMost result buf.new }
        ensures bytes { ReadConsumes (left self.old) (left self.new) result buf.new }
        ensures once { read_gives self.old buf.new result self.new };
}

impl<R: Read> ReadOnce for R {
    ghost left = { R.remaining };

    ghost read_gives = { λ before buf answer after.
        ReadConsumes (R.remaining before) (R.remaining after) answer buf };

    fn read_once(&mut self, buf: &mut [u8]) -> io::Result<usize> {
        self.read(buf)
    }
}

/// A writer whose calls are told apart. Each writer of std is one.
pub trait WriteOnce {
    ghost held: { Self → Option (List ℕ) };

    ghost write_gives: { Self → List ℕ → Result ℕ Error → Self → Type 0 };

    /// As `Write::write`, called once.
    fn write_once(&mut self, bytes: &[u8]) -> io::Result<usize>
        ensures bound { WritesAtMost result bytes.now }
        ensures bytes { WriteAppends (held self.old) (held self.new) result bytes.now }
        ensures once { write_gives self.old bytes.now result self.new };
}

impl<W: Write> WriteOnce for W {
    ghost held = { W.contents };

    ghost write_gives = { λ before bytes answer after.
        WriteAppends (W.contents before) (W.contents after) answer bytes };

    fn write_once(&mut self, bytes: &[u8]) -> io::Result<usize> {
        self.write(bytes)
    }
}

/// A file that was opened, whose calls are told apart. A call takes the file, and code that is generic over the trait
/// cannot copy one: so a file that was opened has one call. Each file of std is one.
pub trait FileOnce {
    ghost read_gives: { Self → ℕ → Result (AnyVec ℕ AnyGlobal) Error → Type 0 };

    ghost write_gives: { Self → List ℕ → Result ⊤ Error → Type 0 };

    /// The bytes from here on, or the first `most` where there are more.
    fn read_front_once(self, alloc: Global, most: usize) -> io::Result<Vec<u8>>
        ensures within { IfOk result (λ bytes. length bytes.items ≤ most) }
        ensures once { read_gives self most result };

    /// As `Write::write_all`, called once, and then as `File::sync_all`, so that an answer Ok says that the device has
    /// the bytes. What cannot be synced, as a pipe, is not.
    fn write_all_once(self, bytes: &[u8]) -> io::Result<()>
        ensures once { write_gives self bytes.now result };
}

impl<F: Read + Write + OpenFile + Drop> FileOnce for F {
    ghost read_gives = { λ file most answer. IfOk answer (λ bytes. length bytes.items ≤ most) };

    ghost write_gives = { λ file bytes answer. ⊤ };

    // Reads no further than `most` bytes, however long the file is.
    fn read_front_once(mut self, alloc: Global, most: usize) -> io::Result<Vec<u8>> {
        let mut bytes = Vec::new(alloc);
        let mut front = Read::by_ref(&mut self).take(most as u64);
        io::copy(&mut front, &mut bytes)?;
        bytes.truncate(most);
        Ok(bytes)
    }

    fn write_all_once(mut self, bytes: &[u8]) -> io::Result<()> {
        self.write_all(bytes)?;
        match self.sync_all() {
            // The system's answer for what has no device to sync.
            Err(error) if error.kind() == ErrorKind::InvalidInput => Ok(()),
            answer => answer,
        }
    }
}

/// Files by path whose openings are told apart. The files of a runtime are such.
pub trait FilesOnce {
    type File: FileOnce + Drop;

    ghost open_gives: { Self → List ℕ → Result Self.File Error → Self → Type 0 };

    ghost create_gives: { Self → List ℕ → Result Self.File Error → Self → Type 0 };

    ghost draw_gives: { Self → Result ℕ Error → Self → Type 0 };

    /// As `fs::open`, called once.
    fn open_once(&mut self, name: &str) -> io::Result<Self::File>
        ensures once { open_gives self.old name.now result self.new };

    /// As `fs::create`, called once.
    fn create_once(&mut self, name: &str) -> io::Result<Self::File>
        ensures once { create_gives self.old name.now result self.new };

    /// A number from the system's source of random ones, by one call.
    fn draw_once(&mut self) -> io::Result<u64>
        ensures once { draw_gives self.old result self.new };
}

/// The files of a runtime.
#[derive(Drop)]
pub struct RuntimeFiles<'a, R> {
    pub(crate) rt: &'a R,
}

impl<'a, R: std::rt::Files + RandomSource> FilesOnce for RuntimeFiles<'a, R> {
    type File = R::File;

    ghost open_gives = { λ before name answer after. ⊤ };

    ghost create_gives = { λ before name answer after. ⊤ };

    ghost draw_gives = { λ before answer after. ⊤ };

    fn open_once(&mut self, name: &str) -> io::Result<R::File> {
        fs::open(self.rt, name)
    }

    fn create_once(&mut self, name: &str) -> io::Result<R::File> {
        fs::create(self.rt, name)
    }

    fn draw_once(&mut self) -> io::Result<u64> {
        let mut bytes = [0; 8];
        self.rt.fill_bytes(&mut bytes)?;
        Ok(u64::from_le_bytes(bytes))
    }
}
