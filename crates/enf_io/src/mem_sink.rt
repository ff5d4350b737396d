//! A sink over memory whose writes follow turns.
ghost use Rattle.std.specs.Prelude.{◌≡◌, IfOk, IsErrOf, [], None, Some, length};
ghost use Rattle.enf_io.specs.machine.MemDevices.{MemOutput, after_write, mem_output};
ghost use Rattle.enf_io.specs.meaning.Exchange.{Stream};
ghost use Rattle.enf_io.specs.machine.StreamCalls.{Writes};
ghost use Rattle.enf_io.specs.machine.Turns.{next_turn, write_by};

use crate::devices::{IoRefusal, Sink};
use crate::turns::{Turn, Turns};
use std::alloc::Global;
use std::marker::Model;

/// Keeps the bytes that its turns let it take.
#[derive(Drop)]
pub struct MemSink {
    given: Vec<u8>,
    turns: Turns,
    write_faults: u64,
}

impl Model for MemSink {
    ghost Value = { MemOutput };

    ghost view = { λ s. record {
      given = s.given.items;
      turns = s.turns;
      write_faults = s.write_faults;
    } };
}

impl MemSink {
    /// The k-th write follows the k-th turn; later writes take all.
    pub fn new(alloc: Global, writes: Vec<Turn>) -> MemSink
        ensures { result ≡ record { given = []; turns = writes.items; write_faults = 0 } }
    {
        MemSink {
            given: Vec::new(alloc),
            turns: Turns::new(writes),
            write_faults: 0,
        }
    }

    /// What was given so far.
    pub fn given(&self) -> &[u8]
        ensures { result.now ≡ self.now.given }
    {
        self.given.as_slice()
    }
}

impl Sink for MemSink {
    ghost seen = { mem_output };

    fn write(&mut self, bytes: &[u8]) -> Result<usize, IoRefusal>
        ensures ok { IfOk result
            (λ count. write_by (next_turn self.old.turns) (length bytes.now) ≡ Some count) }
        ensures failed { IsErrOf result IoRefusal.Failed
            → write_by (next_turn self.old.turns) (length bytes.now) ≡ None }
        ensures after { self.new ≡ after_write result bytes.now self.old }
        ensures seen { Writes bytes.now result (mem_output self.old) (mem_output self.new) }
    {
        match self.turns.next().of_write(bytes.len()) {
            Some(count) => {
                self.given.extend_from_slice(&bytes[..count])?;
                self.turns.pass();
                Ok(count)
            }
            None => {
                self.turns.pass();
                self.write_faults = self.write_faults.saturating_add(1);
                Err(IoRefusal::Failed)
            }
        }
    }
}
