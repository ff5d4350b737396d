//! A gate over memory.
ghost use Rattle.std.specs.Prelude.{◌≡◌, ◌++◌, OnOk, OnErr, IfErr, IfOk, List, [], ℕ, ◌<◌, ◌≤◌};
ghost use Rattle.std.specs.Prelude.{length, take, drop, min, Ok};
ghost use Rattle.std.specs.Vec.Iter.{into_iter_items};
ghost use Rattle.enf_io.specs.meaning.Exchange.{Exchange, input_left, Stream};
ghost use Rattle.enf_io.specs.machine.StreamCalls.{Flushes, with_taken, with_read_mark, Reads, Writes};
ghost use Rattle.enf_io.specs.meaning.ExchangeGrowth.{with_given};
ghost use Rattle.enf_io.specs.machine.CalmDevices.{CalmExchange, calm_stream, within_piece};

use crate::calm_sink::CalmSink;
use crate::devices::{Gate, IoRefusal, Sink};
use std::alloc::Global;
use std::marker::Model;
use std::vec::IntoIter;

/// Gives its input in pieces of set sizes, keeps what it is given, and has no faults.
#[derive(Drop)]
pub struct CalmGate {
    input: Vec<u8>,
    taken: usize,
    pieces: IntoIter<usize>,
    marks: Vec<(u64, u64)>,
    output: CalmSink,
}

impl Model for CalmGate {
    ghost Value = { CalmExchange };

    ghost view = { λ g. record {
      exchange = record { input = g.input.items; taken = g.taken; given = g.output; marks = g.marks.items };
      pieces = into_iter_items g.pieces;
    } };

    ghost invariant = { λ g. g.taken ≤ length g.input.items };
}

impl CalmGate {
    /// `pieces` has the most bytes that each read gives, 0 counting as 1; later reads give all that fits.
    pub fn new(alloc: Global, input: Vec<u8>, pieces: Vec<usize>) -> CalmGate
        ensures exchange { result.exchange
            ≡ record { input = input.items; taken = 0; given = []; marks = [] } }
        ensures pieces { result.pieces ≡ pieces.items }
    {
        CalmGate {
            input,
            taken: 0,
            pieces: pieces.into_iter(),
            marks: Vec::new(alloc),
            output: CalmSink::new(alloc),
        }
    }

    /// What was given so far.
    pub fn given(&self) -> &[u8]
        ensures { result.now ≡ self.now.exchange.given }
    {
        self.output.given()
    }

    /// How many bytes had been taken and given when each read began.
    pub fn marks(&self) -> &[(u64, u64)]
        ensures { result.now ≡ self.now.exchange.marks }
    {
        self.marks.as_slice()
    }
}

impl Gate for CalmGate {
    fn read(&mut self, buf: &mut [u8]) -> Result<usize, IoRefusal>
        requires { 0 < length buf.old }
        ensures count { IfOk result (λ count. count ≡ within_piece self.old.pieces
            (min (length (input_left self.old.exchange)) (length buf.old))) }
        ensures front { IfOk result
            (λ count. take count buf.new ≡ take count (input_left self.old.exchange)) }
        ensures exchange { IfOk result
            (λ count. self.new.exchange ≡ with_taken count (with_read_mark self.old.exchange)) }
        ensures pieces { OnOk result (self.new.pieces ≡ drop 1 self.old.pieces) }
        ensures no_memory { IfErr result (λ refusal. refusal ≡ IoRefusal.NoMemory) }
        ensures refused { OnErr result (self.new ≡ self.old) }
    {
        self.marks
            .push((self.taken as u64, self.output.given().len() as u64))?;
        let most = self.pieces.next().map_or(usize::MAX, |size| size.max(1));
        let rest = &self.input[self.taken..];
        let count = most.min(rest.len()).min(buf.len());
        buf[..count].copy_from_slice(&rest[..count]);
        self.taken += count;
        Ok(count)
    }
    // Nothing is held back.
    fn flush(&mut self) -> Result<(), IoRefusal>
        ensures same { self.new ≡ self.old }
        ensures ok { result ≡ Ok tt }
    {
        Ok(())
    }
}

impl Sink for CalmGate {
    ghost seen = { λ g. calm_stream g.exchange };

    fn write(&mut self, bytes: &[u8]) -> Result<usize, IoRefusal>
        ensures whole { IfOk result (λ count. count ≡ length bytes.now) }
        ensures given { OnOk result (self.new.exchange ≡ with_given bytes.now self.old.exchange) }
        ensures no_memory { IfErr result (λ refusal. refusal ≡ IoRefusal.NoMemory) }
        ensures refused { OnErr result (self.new ≡ self.old) }
        ensures pieces { self.new.pieces ≡ self.old.pieces }
    {
        self.output.write(bytes)
    }
}
