//! Runs over a gate that holds back what it is given, and lacks memory at a write or fails at a flush.
ghost use Rattle.std.specs.Prelude.{◌≡◌, Ok, Some};
ghost use Rattle.enf_io.specs.meaning.Exchange.{Stream};
ghost use Rattle.enf_io.specs.machine.StreamCalls.{Flushes, Reads, Writes};

use super::calm::{DELETED_AT_35, ERASE, SIGNATURE, files_of, words_of};
use enf_io::calm_gate::CalmGate;
use enf_io::calm_sink::CalmSink;
use enf_io::devices::{Gate, IoRefusal, NoMemory, Sink};
use enf_run::refusals::Status;
use enf_run::run::run;
use std::alloc::Global;
use std::test::Fail;

// How many bytes the gate takes at most at a write.
const MOST_TAKEN: usize = 4;

/// A gate over memory that takes a few bytes a write and holds them back until it is flushed. The write with a number
/// finds no memory, and of the flushes with something to hand on the one with a number fails.
#[derive(Drop)]
struct HoldingGate {
    gate: CalmGate,
    held: usize,
    late_reads: u64,
    write_faults: u64,
    lacking: usize,
    failing: usize,
}

impl Sink for HoldingGate {
    ghost seen = { λ g. record {
      told = Some g.gate.exchange;
      read_faults = 0;
      write_faults = g.write_faults;
      held = g.held;
      late_reads = g.late_reads;
    } };

    fn write(&mut self, bytes: &[u8]) -> Result<usize, IoRefusal> {
        if self.lacking == 0 {
            return Err(IoRefusal::NoMemory);
        }
        self.lacking -= 1;
        let count = bytes.len().min(MOST_TAKEN);
        self.gate.write(&bytes[..count])?;
        self.held = self.held.saturating_add(count);
        Ok(count)
    }
}

impl Gate for HoldingGate {
    fn read(&mut self, buf: &mut [u8]) -> Result<usize, IoRefusal> {
        if self.held > 0 {
            self.late_reads = self.late_reads.saturating_add(1);
        }
        self.gate.read(buf)
    }

    fn flush(&mut self) -> Result<(), IoRefusal> {
        if self.held == 0 {
            return Ok(());
        }
        if self.failing == 0 {
            self.write_faults = self.write_faults.saturating_add(1);
            return Err(IoRefusal::Failed);
        }
        self.failing -= 1;
        self.held = 0;
        Ok(())
    }
}

const LOG: &[u8] = b"@5 request(\"a\"); @40;";

const ANSWER: &[u8] = b"@5 request(\"a\");\n+35 delete(\"a\");\n@40;\n";

// What a call comes to on the log and `erase`, where the first read takes so many bytes, and this write finds no memory
// and this flush fails.
#[derive(Drop)]
struct Held {
    status: Status,
    gate: HoldingGate,
    report: CalmSink,
}

fn ran_holding(
    alloc: Global,
    line: &str,
    cut: usize,
    lacking: usize,
    failing: usize,
) -> Result<Held, NoMemory> {
    let words = words_of(alloc, line)?;
    let mut files = files_of(alloc, SIGNATURE, ERASE)?;
    let pieces = Vec::from_slice(alloc, &[cut])?;
    let mut gate = HoldingGate {
        gate: CalmGate::new(alloc, Vec::from_slice(alloc, LOG)?, pieces),
        held: 0,
        late_reads: 0,
        write_faults: 0,
        lacking,
        failing,
    };
    let mut report = CalmSink::new(alloc);
    let status = run(alloc, &words, &mut gate, &mut files, &mut report);
    Ok(Held {
        status,
        gate,
        report,
    })
}

#[test]
fn all_is_handed_on_before_each_read_and_at_the_end(rt: HostRuntime) -> Result<(), Fail> {
    for cut in 1..LOG.len() {
        let held = ran_holding(rt.alloc(), "enforce sig pol", cut, 99, 9)?;
        assert!(rt; held.status == Status::Done, "cut after {cut}");
        assert!(rt;
            held.gate.gate.given() == ANSWER,
            "cut after {cut}: the output"
        );
        assert!(rt;
            held.gate.held == 0 && held.gate.late_reads == 0,
            "cut after {cut}: what is held"
        );
    }
    Ok(())
}

#[test]
fn a_flush_that_fails_ends_the_run(rt: HostRuntime) -> Result<(), Fail> {
    for (name, cut, failing, output, report) in [
        (
            "before the lines of actions",
            21,
            0,
            b"@5 request(\"a\");\n+35 delete(\"a\");\n".as_slice(),
            b"".as_slice(),
        ),
        ("before the last read", 21, 1, ANSWER, DELETED_AT_35),
        (
            "before the second read",
            16,
            0,
            b"@5 request(\"a\");\n",
            b"",
        ),
    ] {
        let held = ran_holding(rt.alloc(), "enforce sig pol", cut, 99, failing)?;
        assert!(rt; held.status == Status::WriteFault, "{name}");
        assert!(rt; held.gate.gate.given() == output, "{name}: the output");
        assert!(rt; held.report.given() == report, "{name}: the report");
    }
    Ok(())
}

#[test]
fn all_is_handed_on_where_memory_runs_out(rt: HostRuntime) -> Result<(), Fail> {
    for (line, output) in [
        ("enforce sig pol", b"@5 r".as_slice()),
        ("check sig pol", b"rule"),
        ("audit sig pol", b"viol"),
        ("gen 1 2", b"@6 d"),
        ("drill 1 2", b"step"),
    ] {
        let handed = ran_holding(rt.alloc(), line, LOG.len(), 1, 9)?;
        assert!(rt; handed.status == Status::NoMemory, "{line}");
        assert!(rt; handed.gate.gate.given() == output, "{line}: the output");
        assert!(rt; handed.gate.held == 0, "{line}: what is held");
        let failed = ran_holding(rt.alloc(), line, LOG.len(), 1, 0)?;
        assert!(rt;
            failed.status == Status::WriteFault,
            "{line}: a flush fails"
        );
    }
    Ok(())
}
