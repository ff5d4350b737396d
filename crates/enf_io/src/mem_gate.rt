//! A gate over memory whose reads and writes follow turns.
ghost use Rattle.std.specs.Prelude.{◌≡◌, ◌<◌, ◌≤◌, IfOk, IsErrOf, List, [], None, Some, length, take};
ghost use Rattle.std.specs.Prelude.{min, Ok};
ghost use Rattle.enf_io.specs.machine.MemDevices.{MemExchange, after_read, after_write, mem_stream, mem_input_left};
ghost use Rattle.enf_io.specs.meaning.Exchange.{Stream};
ghost use Rattle.enf_io.specs.machine.StreamCalls.{Flushes, Reads, Writes};
ghost use Rattle.enf_io.specs.machine.Turns.{next_turn, read_by, write_by};

use crate::devices::{Gate, IoRefusal, Sink};
use crate::mem_sink::MemSink;
use crate::turns::{Turn, Turns};
use std::alloc::Global;
use std::marker::Model;

/// Gives its input, and keeps what it is given, as its turns let it.
#[derive(Drop)]
pub struct MemGate {
    input: Vec<u8>,
    taken: usize,
    marks: Vec<(u64, u64)>,
    turns: Turns,
    read_faults: u64,
    output: MemSink,
}

impl Model for MemGate {
    ghost Value = { MemExchange };

    ghost view = { λ g. record {
      input = g.input.items;
      taken = g.taken;
      marks = g.marks.items;
      turns = g.turns;
      read_faults = g.read_faults;
      output = g.output;
    } };

    ghost invariant = { λ g. g.taken ≤ length g.input.items };
}

impl MemGate {
    /// The k-th read or write follows the k-th turn of its kind; later ones do all that they can.
    pub fn new(alloc: Global, input: Vec<u8>, reads: Vec<Turn>, writes: Vec<Turn>) -> MemGate
        ensures { result ≡ record {
          input = input.items;
          taken = 0;
          marks = [];
          turns = reads.items;
          read_faults = 0;
          output = record { given = []; turns = writes.items; write_faults = 0 };
        } }
    {
        MemGate {
            input,
            taken: 0,
            marks: Vec::new(alloc),
            turns: Turns::new(reads),
            read_faults: 0,
            output: MemSink::new(alloc, writes),
        }
    }

    /// What was given so far.
    pub fn given(&self) -> &[u8]
        ensures { result.now ≡ self.now.output.given }
    {
        self.output.given()
    }

    /// How many bytes had been taken and given when each read began.
    pub fn marks(&self) -> &[(u64, u64)]
        ensures { result.now ≡ self.now.marks }
    {
        self.marks.as_slice()
    }
}

impl Gate for MemGate {
    fn read(&mut self, buf: &mut [u8]) -> Result<usize, IoRefusal>
        requires { 0 < length buf.old }
        ensures ok { IfOk result (λ count. read_by (next_turn self.old.turns)
            (min (length (mem_input_left self.old)) (length buf.old)) ≡ Some count) }
        ensures front { IfOk result (λ count. take count buf.new ≡ take count (mem_input_left self.old)) }
        ensures failed { IsErrOf result IoRefusal.Failed → read_by (next_turn self.old.turns)
            (min (length (mem_input_left self.old)) (length buf.old)) ≡ None }
        ensures after { self.new ≡ after_read result self.old }
        ensures seen { Reads buf.new result (mem_stream self.old) (mem_stream self.new) }
    {
        self.marks
            .push((self.taken as u64, self.output.given().len() as u64))?;
        let turn = self.turns.next();
        self.turns.pass();
        let rest = &self.input[self.taken..];
        match turn.of_read(rest.len().min(buf.len())) {
            Some(count) => {
                buf[..count].copy_from_slice(&rest[..count]);
                self.taken += count;
                Ok(count)
            }
            None => {
                self.read_faults = self.read_faults.saturating_add(1);
                Err(IoRefusal::Failed)
            }
        }
    }
    // Nothing is held back.
    fn flush(&mut self) -> Result<(), IoRefusal>
        ensures same { self.new ≡ self.old }
        ensures ok { result ≡ Ok tt }
    {
        Ok(())
    }
}

impl Sink for MemGate {
    ghost seen = { mem_stream };

    fn write(&mut self, bytes: &[u8]) -> Result<usize, IoRefusal>
        ensures ok { IfOk result
            (λ count. write_by (next_turn self.old.output.turns) (length bytes.now) ≡ Some count) }
        ensures failed { IsErrOf result IoRefusal.Failed
            → write_by (next_turn self.old.output.turns) (length bytes.now) ≡ None }
        ensures after { self.new
            ≡ record self.old { output = after_write result bytes.now self.old.output } }
        ensures seen { Writes bytes.now result (mem_stream self.old) (mem_stream self.new) }
    {
        self.output.write(bytes)
    }
}
