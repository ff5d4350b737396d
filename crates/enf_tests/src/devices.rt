//! Devices over memory with ample memory, and the adapters over std.
use crate::found::Found;
use enf_io::adapters::{StdFiles, StdGate, StdSink};
use enf_io::calm_files::CalmFiles;
use enf_io::calm_gate::CalmGate;
use enf_io::calm_sink::CalmSink;
use enf_io::devices::{Files, Gate, Sink};
use enf_io::mem_files::MemFiles;
use enf_io::writing::write_all;
use std::alloc::Global;
use std::io::{ErrorKind, Read, Write};
use std::test::Fail;
use std::{fs, io};

#[test]
fn a_calm_gate_gives_its_pieces(rt: HostRuntime) -> Result<(), Fail> {
    let mut found = Found::new(rt.alloc());
    find_pieces(rt.alloc(), &mut found)?;
    assert_eq!(rt; found.text(), b"@3 |g|o();||all|@3 go();\n|".as_slice());
    Ok(())
}

fn find_pieces(alloc: Global, found: &mut Found) -> Result<(), Fail> {
    let pieces = vec![in alloc; 3, 0]?;
    let input = Vec::from_slice(alloc, b"@3 go();")?;
    let mut gate = CalmGate::new(alloc, input, pieces);
    read_all(&mut gate, found);
    found.written(write_all(&mut gate, b"@3 go();\n"));
    found.bytes(gate.given());
    Ok(())
}

fn read_all<G: Gate>(gate: &mut G, found: &mut Found) {
    let mut buf = [0; 6];
    for _ in 0..4 {
        found.read(gate.read(&mut buf), &buf);
    }
}

#[test]
fn calm_files_are_read_by_name(rt: HostRuntime) -> Result<(), Fail> {
    let mut found = Found::new(rt.alloc());
    find_calm_files(rt.alloc(), &mut found)?;
    assert_eq!(rt;
        found.text(),
        b"yes|go|failed|saved|@1;|all|rule hold|".as_slice()
    );
    Ok(())
}

fn find_calm_files(alloc: Global, found: &mut Found) -> Result<(), Fail> {
    let bytes = Vec::from_slice(alloc, b"go();")?;
    let mut files = CalmFiles::new(alloc);
    found.holds(files.put("sig", bytes).is_ok());
    found.file(files.read("sig", 2));
    found.file(files.read("log", 2));
    found.saved(files.write("log", b"@1;"));
    found.file(files.read("log", 100));
    let mut sink = CalmSink::new(alloc);
    found.written(write_all(&mut sink, b"rule hold"));
    found.bytes(sink.given());
    Ok(())
}

#[test]
fn mem_files_fail_by_number(rt: HostRuntime) -> Result<(), Fail> {
    let mut found = Found::new(rt.alloc());
    find_mem_files(rt.alloc(), &mut found)?;
    assert_eq!(rt; found.text(), b"yes|go|failed|saved|@1|".as_slice());
    Ok(())
}

fn find_mem_files(alloc: Global, found: &mut Found) -> Result<(), Fail> {
    let failing = vec![in alloc; 1]?;
    let bytes = Vec::from_slice(alloc, b"go();")?;
    let mut files = MemFiles::new(alloc, failing);
    found.holds(files.put("sig", bytes).is_ok());
    found.file(files.read("sig", 2));
    found.saved(files.write("log", b"@1;"));
    found.saved(files.write("log", b"@1;"));
    found.file(files.read("log", 2));
    Ok(())
}

// Takes at most two bytes a turn, and fails once after so many turns.
#[derive(Drop)]
struct Stutter {
    taken: Vec<u8>,
    turns: u32,
    kind: ErrorKind,
}

impl Write for Stutter {
    fn write(&mut self, buf: &[u8]) -> io::Result<usize> {
        if self.turns == 0 {
            self.turns = 9;
            return Err(io::Error::from(self.kind));
        }
        self.turns -= 1;
        let count = buf.len().min(2);
        self.taken.extend_from_slice(&buf[..count])?;
        Ok(count)
    }

    fn flush(&mut self) -> io::Result<()> {
        Ok(())
    }
}

fn stutter_after(alloc: Global, turns: u32, kind: ErrorKind) -> Stutter {
    Stutter {
        taken: Vec::new(alloc),
        turns,
        kind,
    }
}

#[test]
fn a_fault_says_how_much_went_out(rt: HostRuntime) {
    let mut found = Found::new(rt.alloc());
    let mut output = stutter_after(rt.alloc(), 2, ErrorKind::BrokenPipe);
    write_twice(&mut output, &mut found);
    found.bytes(&output.taken);
    assert_eq!(rt; found.text(), b"fault after|4|all|@3 go();\n|".as_slice());
}

fn write_twice(output: &mut Stutter, found: &mut Found) {
    let mut sink = StdSink::new(output);
    found.written(write_all(&mut sink, b"@3 go();\n"));
    found.written(write_all(&mut sink, b"o();\n"));
}

#[test]
fn a_gate_over_std_holds_back_until_a_flush(rt: HostRuntime) {
    for kind in [ErrorKind::BrokenPipe, ErrorKind::OutOfMemory] {
        let mut found = Found::new(rt.alloc());
        let mut output = stutter_after(rt.alloc(), 2, kind);
        flush_thrice(rt.alloc(), &mut output, &mut found);
        found.bytes(&output.taken);
        assert_eq!(rt;
            found.text(),
            b"all|all|failed|saved|saved|@3 go();\n@4;\n|".as_slice()
        );
    }
}

// What a flush that failed has left, for want of memory too, is handed on by the next one, once.
fn flush_thrice(alloc: Global, output: &mut Stutter, found: &mut Found) {
    let mut gate = StdGate::new(alloc, b"".as_slice(), output);
    found.written(write_all(&mut gate, b"@3 go();\n"));
    found.written(write_all(&mut gate, b"@4;\n"));
    found.saved(gate.flush());
    found.saved(gate.flush());
    found.saved(gate.flush());
}

// Takes all that it is given, and counts its calls.
#[derive(Drop)]
struct Counting {
    calls: u64,
    bytes: u64,
}

impl Write for Counting {
    fn write(&mut self, buf: &[u8]) -> io::Result<usize> {
        self.calls = self.calls.saturating_add(1);
        self.bytes = self.bytes.saturating_add(buf.len() as u64);
        Ok(buf.len())
    }

    fn flush(&mut self) -> io::Result<()> {
        Ok(())
    }
}

#[test]
fn a_full_gate_over_std_hands_on_in_few_calls(rt: HostRuntime) -> Result<(), Fail> {
    let mut found = Found::new(rt.alloc());
    let mut output = Counting { calls: 0, bytes: 0 };
    fill_gate(rt.alloc(), &mut output, &mut found)?;
    found.number(output.calls);
    found.number(output.bytes);
    assert_eq!(rt; found.text(), b"all|all|all|saved|all|3|160000|".as_slice());
    Ok(())
}

// The third piece finds no room, and the last is longer than what may be held back.
fn fill_gate(alloc: Global, output: &mut Counting, found: &mut Found) -> Result<(), Fail> {
    let piece = vec![in alloc; b'a'; 30_000]?;
    let long = vec![in alloc; b'a'; 70_000]?;
    let mut gate = StdGate::new(alloc, b"".as_slice(), output);
    for _ in 0..3 {
        found.written(write_all(&mut gate, &piece));
    }
    found.saved(gate.flush());
    found.written(write_all(&mut gate, &long));
    Ok(())
}

#[test]
fn want_of_memory_is_no_fault(rt: HostRuntime) {
    let mut found = Found::new(rt.alloc());
    let mut sink = StdSink::new(stutter_after(rt.alloc(), 1, ErrorKind::OutOfMemory));
    found.written(write_all(&mut sink, b"rule"));
    assert_eq!(rt; found.text(), b"no memory after|2|".as_slice());
}

#[test]
fn a_writer_that_takes_nothing_has_failed(rt: HostRuntime) {
    let mut found = Found::new(rt.alloc());
    let mut room = [0; 2];
    let mut sink = StdSink::new(room.as_mut_slice());
    found.read(sink.write(b"rule"), b"rule");
    found.read(sink.write(b""), b"rule");
    found.read(sink.write(b"le"), b"rule");
    assert_eq!(rt; found.text(), b"ru||failed|".as_slice());
}

#[test]
fn a_gate_over_std_reads_its_reader(rt: HostRuntime) {
    let mut found = Found::new(rt.alloc());
    let mut gate = StdGate::new(rt.alloc(), b"@3;go()".as_slice(), io::empty());
    read_all(&mut gate, &mut found);
    assert_eq!(rt; found.text(), b"@3;go(|)|||".as_slice());
}

// Reads what is inside, and is interrupted before each read of it.
#[derive(Drop)]
struct Startled<'a> {
    left: &'a [u8],
    was_interrupted: bool,
}

impl Read for Startled<'_> {
    fn read(&mut self, buf: &mut [u8]) -> io::Result<usize> {
        self.was_interrupted = !self.was_interrupted;
        if self.was_interrupted {
            return Err(io::Error::from(ErrorKind::Interrupted));
        }
        self.left.read(buf)
    }
}

#[test]
fn what_was_interrupted_is_done_again(rt: HostRuntime) {
    let mut found = Found::new(rt.alloc());
    let input = Startled {
        left: b"@3;go()",
        was_interrupted: false,
    };
    let mut gate = StdGate::new(rt.alloc(), input, io::empty());
    read_all(&mut gate, &mut found);
    let mut output = stutter_after(rt.alloc(), 2, ErrorKind::Interrupted);
    write_twice(&mut output, &mut found);
    found.bytes(&output.taken);
    assert_eq!(rt;
        found.text(),
        b"@3;go(|)|||all|all|@3 go();\no();\n|".as_slice()
    );
}

#[test]
fn files_of_std_are_read_by_path(rt: HostRuntime) {
    let mut found = Found::new(rt.alloc());
    let mut files = StdFiles::new(&rt);
    found.saved(files.write("enf_io_test.txt", b"rule hold"));
    found.file(files.read("enf_io_test.txt", 4));
    found.file(files.read("enf_io_test.txt", 100));
    found.holds(fs::remove_file(&rt, "enf_io_test.txt").is_ok());
    found.file(files.read("enf_io_test.txt", 4));
    found.saved(files.write("", b"rule"));
    found.holds(files.draw("enf_io_test.txt").is_ok());
    assert_eq!(rt;
        found.text(),
        b"saved|rule|rule hold|yes|failed|failed|yes|".as_slice()
    );
}
