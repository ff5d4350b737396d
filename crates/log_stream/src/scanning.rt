//! Where a record ends: at the first semicolon outside of texts.
ghost use Rattle.std.specs.Prelude.{◌<◌, ◌≤◌, drop, length};
ghost use Rattle.log_stream.specs.machine.EndScans.{Scans, ScanMoves};

use memchr::memchr2;

/// Where a scan stands: outside of texts, inside one, or after a backslash in one.
#[derive(Clone, Copy, Debug, PartialEq, Eq)]
pub enum Scan {
    Outside,
    Inside,
    Escaped,
}

// What a scan found: the place after the end of the record, or where the scan stands at the end of the bytes.
#[derive(Clone, Copy, Debug)]
pub(crate) enum Scanned {
    Ends(usize),
    Open(Scan),
}

// The first byte at which a scan turns: the end of the record, another place of the scan, or none. Each with the
// number of bytes up to and with that byte.
#[derive(Clone, Copy, Debug)]
pub(crate) enum Move {
    Ends(usize),
    To(Scan, usize),
    Stays,
}

fn first_move(bytes: &[u8], scan: Scan) -> Move
    requires { 0 < length bytes.now }
    ensures { ScanMoves scan bytes.now result }
{
    match scan {
        Scan::Outside => match memchr2(b';', b'"', bytes) {
            Some(at) if bytes[at] == b';' => Move::Ends(at + 1),
            Some(at) => Move::To(Scan::Inside, at + 1),
            None => Move::Stays,
        },
        Scan::Inside => match memchr2(b'"', b'\\', bytes) {
            Some(at) if bytes[at] == b'"' => Move::To(Scan::Outside, at + 1),
            Some(at) => Move::To(Scan::Escaped, at + 1),
            None => Move::Stays,
        },
        Scan::Escaped => Move::To(Scan::Inside, 1),
    }
}

// Looks for the end of a record in the bytes from a place on.
pub(crate) fn scan_from(bytes: &[u8], from: usize, scan: Scan) -> Scanned
    requires { from ≤ length bytes.now }
    ensures { Scans scan (drop from bytes.now) from result }
{
    let mut at = from;
    let mut place = scan;
    while at < bytes.len() {
        match first_move(&bytes[at..], place) {
            Move::Ends(passed) => return Scanned::Ends(at + passed),
            Move::To(next, passed) => {
                at += passed;
                place = next;
            }
            Move::Stays => return Scanned::Open(place),
        }
    }
    Scanned::Open(place)
}
