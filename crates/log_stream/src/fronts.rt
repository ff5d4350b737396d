//! What begins at a place in the bytes of a log.
ghost use Rattle.std.specs.Prelude.{◌≤◌, drop, length};
ghost use Rattle.log_stream.specs.machine.EndScans.{FindsFront, IsScanned};

use crate::cursor::skip_blanks;
use crate::limits::MOST_RECORD_BYTES;
use crate::scanning::{Scan, Scanned, scan_from};

// What begins after the blanks at a place: a record and where it ends, one that is too long, or one that is not
// whole, with where the scan for its end stands.
#[derive(Clone, Copy, Debug)]
pub(crate) enum Front {
    Whole { begin: usize, end: usize },
    TooLong,
    Pending { begin: usize, scan: Scan },
}

// What begins at a place, after which so many bytes were scanned before.
pub(crate) fn front_at(bytes: &[u8], from: usize, scanned: usize, scan: Scan) -> Front
    requires within { from ≤ length bytes.now }
    requires scanned { IsScanned (drop from bytes.now) scanned scan }
    ensures { FindsFront bytes.now from result }
{
    let begin = skip_blanks(bytes, from);
    let most = MOST_RECORD_BYTES.min(bytes.len() - begin);
    match scan_from(&bytes[begin..begin + most], scanned, scan) {
        Scanned::Ends(length) => Front::Whole {
            begin,
            end: begin + length,
        },
        Scanned::Open(_) if most == MOST_RECORD_BYTES => Front::TooLong,
        Scanned::Open(scan) => Front::Pending { begin, scan },
    }
}
