//! Runs over files that can tell no random number.
ghost use Rattle.std.specs.Prelude.{◌≡◌, None, false};
ghost use Rattle.enf_io.specs.meaning.FileCalls.{ReadsFile, WritesFile, faults_after};
ghost use Rattle.enf_io.specs.machine.FileDraws.{Draws};
ghost use Rattle.enf_io.specs.meaning.Files.{FileView};

use super::calm::{ERASE, Outcome, SIGNATURE, files_of, words_of};
use enf_io::calm_files::CalmFiles;
use enf_io::calm_gate::CalmGate;
use enf_io::calm_sink::CalmSink;
use enf_io::devices::{Files, IoRefusal, NoMemory};
use enf_run::refusals::Status;
use enf_run::run::run;
use std::alloc::Global;
use std::test::Fail;

/// Files over memory at which each draw is refused.
#[derive(Drop)]
struct UndrawnFiles {
    files: CalmFiles,
    refusal: IoRefusal,
    read_faults: u64,
    write_faults: u64,
}

impl Files for UndrawnFiles {
    ghost seen = { λ f. record {
      contents = None;
      is_calm = false;
      read_faults = λ _. f.read_faults;
      write_faults = λ _. f.write_faults;
    } };

    fn read(&mut self, name: &str, most: usize) -> Result<Vec<u8>, IoRefusal> {
        counted(self.files.read(name, most), &mut self.read_faults)
    }

    fn draw(&mut self, _name: &str) -> Result<u64, IoRefusal> {
        counted(Err(self.refusal), &mut self.read_faults)
    }

    fn write(&mut self, name: &str, bytes: &[u8]) -> Result<(), IoRefusal> {
        counted(self.files.write(name, bytes), &mut self.write_faults)
    }
}

// Counts a fault.
fn counted<T>(answer: Result<T, IoRefusal>, faults: &mut u64) -> Result<T, IoRefusal>
    ensures same { result ≡ answer }
    ensures counted { faults.new ≡ faults_after result faults.old }
{
    match answer {
        Ok(value) => Ok(value),
        Err(IoRefusal::NoMemory) => Err(IoRefusal::NoMemory),
        Err(IoRefusal::Failed) => {
            *faults = faults.saturating_add(1);
            Err(IoRefusal::Failed)
        }
    }
}

fn ran_undrawn(alloc: Global, line: &str, refusal: IoRefusal) -> Result<Outcome, NoMemory> {
    let words = words_of(alloc, line)?;
    let mut files = UndrawnFiles {
        files: files_of(alloc, SIGNATURE, ERASE)?,
        refusal,
        read_faults: 0,
        write_faults: 0,
    };
    let mut gate = CalmGate::new(alloc, Vec::from_slice(alloc, b"@5;")?, Vec::new(alloc));
    let mut report = CalmSink::new(alloc);
    let status = run(alloc, &words, &mut gate, &mut files, &mut report);
    Ok(Outcome {
        status,
        output: Vec::from_slice(alloc, gate.given())?,
        report: Vec::from_slice(alloc, report.given())?,
    })
}

#[test]
fn where_no_number_can_be_drawn_no_log_is_read(rt: HostRuntime) -> Result<(), Fail> {
    for line in ["enforce sig pol", "audit sig pol"] {
        let failed = ran_undrawn(rt.alloc(), line, IoRefusal::Failed)?;
        failed.assert_is(&rt, line, Status::ReadFault, b"", b"read fault\n");
        let lacking = ran_undrawn(rt.alloc(), line, IoRefusal::NoMemory)?;
        lacking.assert_is(&rt, line, Status::NoMemory, b"", b"no memory\n");
    }
    let checked = ran_undrawn(rt.alloc(), "check sig pol", IoRefusal::Failed)?;
    assert!(rt; checked.status == Status::Done, "a check draws none");
    Ok(())
}
