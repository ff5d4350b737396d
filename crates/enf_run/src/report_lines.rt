//! The line that says on the report why a run ends, the last thing there. It takes no memory.
ghost use Rattle.std.specs.Prelude.{◌≡◌, ◌++◌, codes, decimal};
ghost use Rattle.std.specs.List.{flat_map};
ghost use Rattle.enf_run.specs.machine.RunEndings.{EndsRunWith, ReportsRefusal, WritesText};
ghost use Rattle.enf_run.specs.meaning.Reports.{SaysNoMemory};

use crate::endings::{Cut, Ending};
use crate::refusals::{Refusal, Status};
use enf_io::devices::Sink;
use enf_io::writing::write_all;
use itoa::Buffer;

/// Says on the report why a run ends, and answers its status. A fault in writing that line leaves
/// the status as it is, running out of memory makes it its own. A write fault has no line.
pub fn report_ending<R: Sink>(ending: &Ending, report: &mut R) -> Status
    ensures { EndsRunWith ending.now (R.seen report.old) (R.seen report.new) result }
{
    match ending {
        Ending::Refused(refusal) => report_refusal(refusal, report),
        Ending::Cut(Cut::WriteFault) => Status::WriteFault,
        Ending::Cut(Cut::NoMemory) => report_no_memory(report),
    }
}

fn report_refusal<R: Sink>(refusal: &Refusal, report: &mut R) -> Status
    ensures { ReportsRefusal refusal.now (R.seen report.old) (R.seen report.new) result }
{
    match refusal.write(report) {
        Ok(()) | Err(Cut::WriteFault) => refusal.status(),
        Err(Cut::NoMemory) => Status::NoMemory,
    }
}

// What becomes of this line changes nothing: it is the last thing that a run does.
fn report_no_memory<R: Sink>(report: &mut R) -> Status
    ensures status { result ≡ Status.NoMemory }
    ensures line { SaysNoMemory (R.seen report.old) (R.seen report.new) }
{
    match write_pieces(&[b"no memory\n"], report) {
        Ok(()) | Err(Cut::WriteFault | Cut::NoMemory) => Status::NoMemory,
    }
}

/// What is said of a place.
pub fn write_at<R: Sink>(what: &[u8], place: u32, report: &mut R) -> Result<(), Cut>
    ensures { WritesText (what.now ++ decimal place ++ codes "\n") result
        (R.seen report.old) (R.seen report.new) }
{
    let mut digits = Buffer::new();
    write_pieces(&[what, digits.format(place).as_bytes(), b"\n"], report)
}

/// The pieces, one after another.
pub fn write_pieces<R: Sink>(pieces: &[&[u8]], report: &mut R) -> Result<(), Cut>
    ensures { WritesText (flat_map (λ piece. piece.now) pieces.now) result
        (R.seen report.old) (R.seen report.new) }
{
    for piece in pieces {
        write_all(report, piece)?;
    }
    Ok(())
}
