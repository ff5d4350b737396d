//! What the program asks of a device.
ghost use Rattle.std.specs.Prelude.{◌≡◌, List, ℕ, ◌<◌, length};
ghost use Rattle.enf_io.specs.meaning.Exchange.{Stream};
ghost use Rattle.enf_io.specs.machine.StreamCalls.{Flushes, Reads, Writes};
ghost use Rattle.enf_io.specs.meaning.Files.{FileView};
ghost use Rattle.enf_io.specs.meaning.FileCalls.{ReadsFile, WritesFile};
ghost use Rattle.enf_io.specs.machine.FileDraws.{Draws};

use std::alloc::{AllocError, AllocFailed};

/// Why a device did not do what it was asked.
#[derive(Clone, Copy, Debug, PartialEq, Eq)]
pub enum IoRefusal {
    Failed,
    NoMemory,
}

/// Memory ran out.
#[derive(Clone, Copy, Debug, PartialEq, Eq)]
pub struct NoMemory;

impl From<AllocError> for NoMemory {
    fn from(_error: AllocError) -> NoMemory {
        NoMemory
    }
}

impl<T: Drop> From<AllocFailed<T>> for NoMemory {
    fn from(_refused: AllocFailed<T>) -> NoMemory {
        NoMemory
    }
}

impl From<NoMemory> for IoRefusal {
    ghost use Rattle.enf_io.specs.declared.devices.IoRefusal.{IoRefusal};

    ghost from_gives = { λ _ refusal. refusal ≡ IoRefusal.NoMemory };

    fn from(_error: NoMemory) -> IoRefusal {
        IoRefusal::NoMemory
    }
}

impl From<AllocError> for IoRefusal {
    ghost use Rattle.enf_io.specs.declared.devices.IoRefusal.{IoRefusal};

    ghost from_gives = { λ _ refusal. refusal ≡ IoRefusal.NoMemory };

    fn from(_error: AllocError) -> IoRefusal {
        IoRefusal::NoMemory
    }
}

impl<T: Drop> From<AllocFailed<T>> for IoRefusal {
    ghost use Rattle.enf_io.specs.declared.devices.IoRefusal.{IoRefusal};

    ghost from_gives = { λ _ refusal. refusal ≡ IoRefusal.NoMemory };

    fn from(_refused: AllocFailed<T>) -> IoRefusal {
        IoRefusal::NoMemory
    }
}

/// Where bytes go. A call that is refused gives none.
pub trait Sink {
    ghost seen: { Self → Stream };

    /// Gives the front of `bytes`, and answers how many of them were taken.
    fn write(&mut self, bytes: &[u8]) -> Result<usize, IoRefusal>
        ensures { Writes bytes.now result (seen self.old) (seen self.new) };
}

/// Where the log comes from, and its answer goes. A call that is refused takes no byte and gives none.
pub trait Gate: Sink {
    /// Puts the next bytes of the input at the front of `buf`, and answers how many. 0 is the end.
    fn read(&mut self, buf: &mut [u8]) -> Result<usize, IoRefusal>
        requires { 0 < length buf.old }
        ensures { Reads buf.new result (Self.seen self.old) (Self.seen self.new) };

    /// Hands on what is held back of the bytes given. Where that fails, for want of memory too, it is a fault.
    fn flush(&mut self) -> Result<(), IoRefusal>
        ensures { Flushes result (Self.seen self.old) (Self.seen self.new) };
}

/// Files by name.
pub trait Files {
    ghost seen: { Self → FileView };

    /// The contents under a name, or their first `most` bytes where there are more. A missing file is a fault.
    fn read(&mut self, name: &str, most: usize) -> Result<Vec<u8>, IoRefusal>
        ensures { ReadsFile name.now most result (seen self.old) (seen self.new) };

    /// A number that nobody outside knows, for what is to be done with what the name gave; devices over memory tell 0.
    /// A draw that fails is a fault at a read under the name.
    fn draw(&mut self, name: &str) -> Result<u64, IoRefusal>
        ensures { Draws name.now result (seen self.old) (seen self.new) };

    /// Makes these bytes the contents under a name.
    fn write(&mut self, name: &str, bytes: &[u8]) -> Result<(), IoRefusal>
        ensures { WritesFile name.now bytes.now result (seen self.old) (seen self.new) };
}
