//! A sink over memory.
ghost use Rattle.std.specs.Prelude.{◌≡◌, ◌++◌, OnOk, OnErr, IfErr, IfOk, List, [], ℕ, length};
ghost use Rattle.enf_io.specs.machine.CalmDevices.{calm_stream, given_alone};
ghost use Rattle.enf_io.specs.meaning.Exchange.{Stream};
ghost use Rattle.enf_io.specs.machine.StreamCalls.{Writes};

use crate::devices::{IoRefusal, Sink};
use std::alloc::Global;
use std::marker::Model;

/// Keeps the bytes that it is given, and has no faults.
#[derive(Drop)]
pub struct CalmSink {
    given: Vec<u8>,
}

impl Model for CalmSink {
    ghost Value = { List ℕ };

    ghost view = { λ s. s.given.items };
}

impl CalmSink {
    pub fn new(alloc: Global) -> CalmSink
        ensures { result ≡ [] }
    {
        CalmSink {
            given: Vec::new(alloc),
        }
    }

    /// What was given so far.
    pub fn given(&self) -> &[u8]
        ensures { result.now ≡ self.now }
    {
        self.given.as_slice()
    }
}

impl Sink for CalmSink {
    ghost seen = { λ s. calm_stream (given_alone s) };

    fn write(&mut self, bytes: &[u8]) -> Result<usize, IoRefusal>
        ensures whole { IfOk result (λ count. count ≡ length bytes.now) }
        ensures given { OnOk result (self.new ≡ self.old ++ bytes.now) }
        ensures no_memory { IfErr result (λ refusal. refusal ≡ IoRefusal.NoMemory) }
        ensures refused { OnErr result (self.new ≡ self.old) }
    {
        self.given.extend_from_slice(bytes)?;
        Ok(bytes.len())
    }
}
