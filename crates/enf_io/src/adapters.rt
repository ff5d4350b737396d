//! Gates, sinks and files over the readers, writers and files of std. They tell no bytes, only their counts. Each
//! call of theirs is one call of the reader, the writer or the files inside, done again where that was interrupted: an
//! error of it is handed on and counted. But a gate holds back what it is given, and hands it on in few calls.
ghost use Rattle.std.specs.Prelude.{◌≡◌, ◌<◌, ◌≤◌, ◌++◌, ℕ, List, [], Option, Err, Ok, IfOk, IfErr, OnErr, length};
ghost use Rattle.std.specs.Prelude.{drop, IsTrue, IsFalse, ◌+◌, ◌↔◌};
ghost use Rattle.std.specs.Io.{ReadsAtMost, WritesAtMost};
ghost use Rattle.std.specs.Io.KnownBytes.{append_known, Keeps, ReadConsumes, WriteAppends};
ghost use Rattle.enf_io.specs.meaning.FileCalls.{faults_after, ReadsFile, WritesFile};
ghost use Rattle.enf_io.specs.machine.FileDraws.{Draws};
ghost use Rattle.enf_io.specs.meaning.Exchange.{Stream};
ghost use Rattle.enf_io.specs.machine.StreamCalls.{Flushes, Reads, Writes, count_taken};
ghost use Rattle.enf_io.specs.meaning.Files.{FileView};
ghost use Rattle.enf_io.specs.declared.adapters.TheConstants.{MOST_HELD_BYTES};
ghost use Rattle.enf_io.specs.machine.Adapters.{AdaptedFiles, AdaptedOutput, AdaptedPair, AsksOpened, GivesPiece};
ghost use Rattle.enf_io.specs.machine.Adapters.{FlushesHeld, HandsOn, IsOneCall, adapted, adapted_write, flush_answer};
ghost use Rattle.enf_io.specs.machine.Adapters.{untold_files, untold_output, untold_pair, with_held};
ghost use Rattle.enf_io.specs.machine.Adapters.{FailsBy, ReadsAgain, WritesAgain};

use crate::devices::{Files, Gate, IoRefusal, Sink};
use crate::outside::{FileOnce, FilesOnce, ReadOnce, RuntimeFiles, WriteOnce};
use std::alloc::Global;
use std::io;
use std::io::ErrorKind;
use std::marker::Model;
use std::random::RandomSource;

/// A sink over a writer. Each write goes to the writer as it comes, so take one that keeps nothing back.
#[derive(Drop)]
pub struct StdSink<O: WriteOnce> {
    output: O,
    write_faults: u64,
    // Whether a write failed where it would have had to wait.
    would_block: bool,
}

impl<O: WriteOnce> Model for StdSink<O> {
    ghost Value = { AdaptedOutput O };

    ghost view = { λ s. record { writer = s.output; write_faults = s.write_faults } };
}

impl<O: WriteOnce> StdSink<O> {
    pub fn new(output: O) -> StdSink<O>
        ensures { result ≡ record { writer = output; write_faults = 0 } }
    {
        StdSink {
            output,
            write_faults: 0,
            would_block: false,
        }
    }
}

impl<O: WriteOnce> Sink for StdSink<O> {
    ghost seen = { untold_output };

    #[inline(always)]
    fn write(&mut self, bytes: &[u8]) -> Result<usize, IoRefusal>
        ensures once { IsOneCall
            (λ answer. WritesAgain O.write_gives self.old.writer bytes.now answer self.new.writer)
            (adapted_write bytes.now) result }
        ensures bytes { WriteAppends (O.held self.old.writer) (O.held self.new.writer) result bytes.now }
        ensures seen { Writes bytes.now result (untold_output self.old) (untold_output self.new) }
    {
        let answer = write_again(&mut self.output, bytes);
        self.would_block |= fails_by(ErrorKind::WouldBlock, &answer);
        counted(some_of(bytes, answer), &mut self.write_faults)
    }
}

/// How many bytes a gate over std holds back at most.
pub const MOST_HELD_BYTES: usize = 65_536;

/// A gate over a reader and a writer. What it is given it holds back until it is full or flushed, and then hands it on
/// to the writer, so take one that keeps nothing back. Where there is no memory for that, each write goes to the writer
/// as it comes.
#[derive(Drop)]
pub struct StdGate<I: ReadOnce, O: WriteOnce> {
    input: I,
    read_faults: u64,
    // Whether a read failed where it would have had to wait.
    would_block: bool,
    output: StdSink<O>,
    held: Vec<u8>,
    // At how many reads something was held back.
    late_reads: u64,
}

impl<I: ReadOnce, O: WriteOnce> Model for StdGate<I, O> {
    ghost Value = { AdaptedPair I O };

    ghost view = { λ g. record {
      reader = g.input;
      read_faults = g.read_faults;
      output = g.output;
      held = g.held.items;
      late_reads = g.late_reads;
    } };

    ghost invariant = { λ g. length g.held.items ≤ MOST_HELD_BYTES };
}

impl<I: ReadOnce, O: WriteOnce> StdGate<I, O> {
    pub fn new(alloc: Global, input: I, output: O) -> StdGate<I, O>
        ensures reader { result.reader ≡ input }
        ensures read_faults { result.read_faults ≡ 0 }
        ensures output { result.output ≡ record { writer = output; write_faults = 0 } }
        ensures held { result.held ≡ [] }
        ensures late { result.late_reads ≡ 0 }
    {
        StdGate {
            input,
            read_faults: 0,
            would_block: false,
            output: StdSink::new(output),
            held: Vec::new(alloc),
            late_reads: 0,
        }
    }

    /// Whether a read failed where it would have had to wait.
    pub fn input_would_block(&self) -> bool {
        self.would_block
    }

    /// Whether a write failed where it would have had to wait.
    pub fn output_would_block(&self) -> bool {
        self.output.would_block
    }
}

impl<I: ReadOnce, O: WriteOnce> Gate for StdGate<I, O> {
    fn read(&mut self, buf: &mut [u8]) -> Result<usize, IoRefusal>
        requires { 0 < length buf.old }
        ensures once { IsOneCall
            (λ answer. ReadsAgain I.read_gives self.old.reader buf.new answer self.new.reader) adapted result }
        ensures bytes { ReadConsumes (I.left self.old.reader) (I.left self.new.reader) result buf.new }
        ensures output { self.new.output ≡ self.old.output }
        ensures held { self.new.held ≡ self.old.held }
        ensures seen { Reads buf.new result (untold_pair self.old) (untold_pair self.new) }
    {
        if !self.held.is_empty() {
            self.late_reads = self.late_reads.saturating_add(1);
        }
        let answer = read_again(&mut self.input, buf);
        self.would_block |= fails_by(ErrorKind::WouldBlock, &answer);
        counted(answer, &mut self.read_faults)
    }

    fn flush(&mut self) -> Result<(), IoRefusal>
        ensures calls { FlushesHeld (WritesAgain O.write_gives) result self.old.held self.new.held
            self.old.output.writer self.new.output.writer }
        ensures bytes { Keeps (with_held O.held self.old) (with_held O.held self.new) }
        ensures reader { self.new.reader ≡ self.old.reader }
        ensures seen { Flushes result (untold_pair self.old) (untold_pair self.new) }
    {
        let handed = hand_on(&mut self.output, &mut self.held);
        flushed(handed, &mut self.output)
    }
}

impl<I: ReadOnce, O: WriteOnce> Sink for StdGate<I, O> {
    ghost seen = { untold_pair };

    #[inline(always)]
    fn write(&mut self, bytes: &[u8]) -> Result<usize, IoRefusal>
        ensures calls { GivesPiece (WritesAgain O.write_gives) bytes.now result self.old.held self.new.held
            self.old.output.writer self.new.output.writer }
        ensures bytes { WriteAppends (with_held O.held self.old) (with_held O.held self.new) result bytes.now }
        ensures few { length self.new.held ≤ MOST_HELD_BYTES }
        ensures reader { self.new.reader ≡ self.old.reader }
        ensures seen { Writes bytes.now result (untold_pair self.old) (untold_pair self.new) }
    {
        if keep(bytes, &mut self.held) {
            return Ok(bytes.len());
        }
        write_on(bytes, &mut self.output, &mut self.held)
    }
}

// Keeps a piece behind what is held back, where there is room.
#[inline(always)]
fn keep(bytes: &[u8], held: &mut Vec<u8>) -> bool
    requires { length held.old.items ≤ MOST_HELD_BYTES }
    ensures kept { IsTrue result → held.new.items ≡ held.old.items ++ bytes.now }
    ensures left { IsFalse result → held.new.items ≡ held.old.items }
    ensures few { length held.new.items ≤ MOST_HELD_BYTES }
{
    bytes.len() <= MOST_HELD_BYTES - held.len() && held.extend_from_slice(bytes).is_ok()
}

// Gives a piece to the writer past what is held back; it may be kept in its turn.
#[inline(never)]
fn write_on<O: WriteOnce>(
    bytes: &[u8],
    output: &mut StdSink<O>,
    held: &mut Vec<u8>,
) -> Result<usize, IoRefusal>
    requires { length held.old.items ≤ MOST_HELD_BYTES }
    ensures calls { GivesPiece (WritesAgain O.write_gives) bytes.now result held.old.items held.new.items
        output.old.writer output.new.writer }
    ensures bytes { WriteAppends (append_known (O.held output.old.writer) held.old.items)
        (append_known (O.held output.new.writer) held.new.items) result bytes.now }
    ensures few { length held.new.items ≤ MOST_HELD_BYTES }
    ensures within { IfOk result (λ count. count ≤ length bytes.now) }
    ensures some { IfOk result (λ count. 0 < length bytes.now → 0 < count) }
    ensures held { length held.new.items ≤ length held.old.items + count_taken result }
    ensures counted { output.new.write_faults ≡ faults_after result output.old.write_faults }
{
    hand_on(output, held)?;
    if keep(bytes, held) {
        return Ok(bytes.len());
    }
    output.write(bytes)
}

// Hands on what is held back, in as many turns as the writer needs.
fn hand_on<O: WriteOnce>(output: &mut StdSink<O>, held: &mut Vec<u8>) -> Result<(), IoRefusal>
    ensures calls { HandsOn (WritesAgain O.write_gives) result held.old.items held.new.items
        output.old.writer output.new.writer }
    ensures bytes { Keeps (append_known (O.held output.old.writer) held.old.items)
        (append_known (O.held output.new.writer) held.new.items) }
    ensures some_left { OnErr result (0 < length held.new.items) }
    ensures part { length held.new.items ≤ length held.old.items }
    ensures counted { output.new.write_faults ≡ faults_after result output.old.write_faults }
{
    let mut written = 0;
    while written < held.len() {
        match output.write(&held[written..]) {
            Ok(count) => written += count,
            Err(refusal) => {
                let_go(held, written);
                return Err(refusal);
            }
        }
    }
    held.clear();
    Ok(())
}

// Answers a flush. Of what was held back some is not handed on at a refusal, whatever the cause: so each is a fault of
// the flush, and want of memory, which was not counted as one, is counted here.
fn flushed<O: WriteOnce>(
    handed: Result<(), IoRefusal>,
    output: &mut StdSink<O>,
) -> Result<(), IoRefusal>
    ensures told { result ≡ flush_answer handed }
    ensures writer { output.new.writer ≡ output.old.writer }
    ensures counted { (before : ℕ) → output.old.write_faults ≡ faults_after handed before →
        output.new.write_faults ≡ faults_after result before }
{
    match handed {
        Ok(()) => Ok(()),
        Err(IoRefusal::Failed) => Err(IoRefusal::Failed),
        Err(IoRefusal::NoMemory) => {
            output.write_faults = output.write_faults.saturating_add(1);
            Err(IoRefusal::Failed)
        }
    }
}

// Lets the first bytes go.
fn let_go(bytes: &mut Vec<u8>, count: usize)
    requires { count ≤ length bytes.old.items }
    ensures { bytes.new.items ≡ drop count bytes.old.items }
{
    let left = bytes.len() - count;
    bytes.copy_within(count.., 0);
    bytes.truncate(left);
}

/// The files of a runtime, by path. A fault at one of them counts for every name.
pub type StdFiles<'a, R> = AdaptedFiles<RuntimeFiles<'a, R>>;

/// Files over those of the outside. A fault at one of them counts for every name.
#[derive(Drop)]
pub struct AdaptedFiles<F: FilesOnce> {
    alloc: Global,
    files: F,
    read_faults: u64,
    write_faults: u64,
}

impl<F: FilesOnce> Model for AdaptedFiles<F> {
    ghost Value = { AdaptedFiles F };

    ghost view = { λ f. record { files = f.files; read_faults = f.read_faults; write_faults = f.write_faults } };
}

impl<'a, R: std::rt::Files + RandomSource + AllocGlobal> AdaptedFiles<RuntimeFiles<'a, R>> {
    pub fn new(rt: &'a R) -> StdFiles<'a, R>
        ensures { result ≡ record { files = record { rt = rt.entry }; read_faults = 0; write_faults = 0 } }
    {
        AdaptedFiles {
            alloc: rt.alloc(),
            files: RuntimeFiles { rt },
            read_faults: 0,
            write_faults: 0,
        }
    }
}

impl<F: FilesOnce> Files for AdaptedFiles<F> {
    ghost seen = { untold_files };

    fn read(&mut self, name: &str, most: usize) -> Result<Vec<u8>, IoRefusal>
        ensures once { IsOneCall (λ answer. AsksOpened
            (λ opened. F.open_gives self.old.files name.now opened self.new.files)
            (λ file answer. F.File.read_gives file most answer) answer) adapted result }
        ensures reads { self.new.read_faults ≡ faults_after result self.old.read_faults }
        ensures writes { self.new.write_faults ≡ self.old.write_faults }
        ensures seen { ReadsFile name.now most result (untold_files self.old) (untold_files self.new) }
    {
        let answer = read_front(&mut self.files, self.alloc, name, most);
        counted(answer, &mut self.read_faults)
    }

    fn draw(&mut self, _name: &str) -> Result<u64, IoRefusal>
        ensures once { IsOneCall (λ answer. F.draw_gives self.old.files answer self.new.files) adapted result }
        ensures reads { self.new.read_faults ≡ faults_after result self.old.read_faults }
        ensures writes { self.new.write_faults ≡ self.old.write_faults }
        ensures seen { Draws _name.now result (untold_files self.old) (untold_files self.new) }
    {
        let answer = self.files.draw_once();
        counted(answer, &mut self.read_faults)
    }

    fn write(&mut self, name: &str, bytes: &[u8]) -> Result<(), IoRefusal>
        ensures once { IsOneCall (λ answer. AsksOpened
            (λ opened. F.create_gives self.old.files name.now opened self.new.files)
            (λ file answer. F.File.write_gives file bytes.now answer) answer) adapted result }
        ensures reads { self.new.read_faults ≡ self.old.read_faults }
        ensures writes { self.new.write_faults ≡ faults_after result self.old.write_faults }
        ensures seen { WritesFile name.now bytes.now result (untold_files self.old) (untold_files self.new) }
    {
        let answer = write_whole(&mut self.files, name, bytes);
        counted(answer, &mut self.write_faults)
    }
}

fn read_front<F: FilesOnce>(
    files: &mut F,
    alloc: Global,
    name: &str,
    most: usize,
) -> io::Result<Vec<u8>>
    ensures within { IfOk result (λ bytes. length bytes.items ≤ most) }
    ensures once { AsksOpened (λ opened. F.open_gives files.old name.now opened files.new)
        (λ file answer. F.File.read_gives file most answer) result }
{
    match files.open_once(name) {
        Ok(file) => file.read_front_once(alloc, most),
        Err(error) => Err(error),
    }
}

fn write_whole<F: FilesOnce>(files: &mut F, name: &str, bytes: &[u8]) -> io::Result<()>
    ensures { AsksOpened (λ opened. F.create_gives files.old name.now opened files.new)
        (λ file answer. F.File.write_gives file bytes.now answer) result }
{
    match files.create_once(name) {
        Ok(file) => file.write_all_once(bytes),
        Err(error) => Err(error),
    }
}

/// How often a call that was interrupted is done again at most.
pub const MOST_INTERRUPTS: u64 = u64::MAX;

// Reads, and again where the call was interrupted.
fn read_again<I: ReadOnce>(input: &mut I, buf: &mut [u8]) -> io::Result<usize>
    ensures bound { ReadsAtMost result buf.new }
    ensures bytes { ReadConsumes (I.left input.old) (I.left input.new) result buf.new }
    ensures once { ReadsAgain I.read_gives input.old buf.new result input.new }
{
    for _count in 0..MOST_INTERRUPTS {
        let answer = input.read_once(buf);
        if !fails_by(ErrorKind::Interrupted, &answer) {
            return answer;
        }
    }
    input.read_once(buf)
}

// Writes, and again where the call was interrupted.
fn write_again<O: WriteOnce>(output: &mut O, bytes: &[u8]) -> io::Result<usize>
    ensures bound { WritesAtMost result bytes.now }
    ensures bytes { WriteAppends (O.held output.old) (O.held output.new) result bytes.now }
    ensures once { WritesAgain O.write_gives output.old bytes.now result output.new }
{
    for _count in 0..MOST_INTERRUPTS {
        let answer = output.write_once(bytes);
        if !fails_by(ErrorKind::Interrupted, &answer) {
            return answer;
        }
    }
    output.write_once(bytes)
}

// Whether a call answers with an error of this kind.
fn fails_by(kind: ErrorKind, answer: &io::Result<usize>) -> bool
    ensures { IsTrue result ↔ FailsBy kind answer.now }
{
    match answer {
        Ok(_) => false,
        Err(error) => error.kind() == kind,
    }
}

// A writer that takes nothing of a piece has failed.
#[inline(always)]
fn some_of(bytes: &[u8], answer: io::Result<usize>) -> io::Result<usize>
    ensures adapted { adapted result ≡ adapted_write bytes.now answer }
    ensures some { IfOk result (λ count. 0 < length bytes.now → 0 < count) }
    ensures same { IfOk result (λ count. answer ≡ Ok count) }
{
    match answer {
        Ok(0) if !bytes.is_empty() => Err(io::Error::from(ErrorKind::WriteZero)),
        other => other,
    }
}

// Counts an error of the outside, which running out of memory is not.
#[inline(always)]
fn counted<T>(answer: io::Result<T>, faults: &mut u64) -> Result<T, IoRefusal>
    ensures adapted { result ≡ adapted answer }
    ensures counted { faults.new ≡ faults_after result faults.old }
{
    match answer {
        Ok(value) => Ok(value),
        Err(error) if error.kind() == ErrorKind::OutOfMemory => Err(IoRefusal::NoMemory),
        Err(_) => {
            *faults = faults.saturating_add(1);
            Err(IoRefusal::Failed)
        }
    }
}
