//! A generated log, and its way out in pieces.
ghost use Rattle.std.specs.Prelude.{◌≡◌, ◌≤◌, IfErr, OnOk};
ghost use Rattle.enf_io.specs.meaning.ExchangeGrowth.{Gave};
ghost use Rattle.log_gen.specs.meaning.GeneratedLogs.{generated_text};
ghost use Rattle.enf_run.specs.machine.RunEndings.{write_faults_behind, CutsText};

use crate::endings::Cut;
use enf_io::devices::Sink;
use enf_io::writing::write_all;
use log_gen::{Generator, MOST_START, MOST_STEPS};
use std::alloc::Global;

// A piece is given once it has so many bytes.
const PIECE_BYTES: usize = 16_384;

/// Gives the log of so many steps.
pub fn give_log<S: Sink>(alloc: Global, start: u32, steps: u32, sink: &mut S) -> Result<(), Cut>
    requires start { start ≤ MOST_START }
    requires steps { steps ≤ MOST_STEPS }
    ensures whole { OnOk result
        (Gave (generated_text start steps) (S.seen sink.old).told (S.seen sink.new).told) }
    ensures cut { IfErr result (λ cut.
        CutsText (generated_text start steps) (S.seen sink.old).told (S.seen sink.new).told cut) }
    ensures writes { (S.seen sink.new).write_faults ≡
        write_faults_behind result (S.seen sink.old).write_faults }
    ensures reads { (S.seen sink.new).read_faults ≡ (S.seen sink.old).read_faults }
    ensures late { (S.seen sink.new).late_reads ≡ (S.seen sink.old).late_reads }
{
    let mut log = Generator::new(alloc, start, steps)?;
    let mut piece = Vec::new(alloc);
    while log.append_line(&mut piece)? {
        if piece.len() >= PIECE_BYTES {
            write_all(sink, &piece)?;
            piece.clear();
        }
    }
    Ok(write_all(sink, &piece)?)
}
