//! Bytes given in full to a sink, however few of them each turn takes.
ghost use Rattle.std.specs.Prelude.{◌≡◌};
ghost use Rattle.enf_io.specs.machine.StreamCalls.{WritesAll, refused_after};

use crate::devices::{IoRefusal, Sink};

/// Why some bytes were not written; `written` is how many of the first ones were.
#[derive(Clone, Copy, Debug, PartialEq, Eq)]
pub enum WriteRefusal {
    WriteFault { written: usize },
    NoMemory { written: usize },
}

/// Gives all the bytes, in as many turns as the sink or gate needs.
#[inline(always)]
pub fn write_all<S: Sink>(sink: &mut S, bytes: &[u8]) -> Result<(), WriteRefusal>
    ensures { WritesAll bytes.now result (S.seen sink.old) (S.seen sink.new) }
{
    let mut written = 0;
    while written < bytes.len() {
        match sink.write(&bytes[written..]) {
            Ok(count) => written += count,
            Err(refusal) => return Err(refused_after(written, refusal)),
        }
    }
    Ok(())
}

fn refused_after(written: usize, refusal: IoRefusal) -> WriteRefusal
    ensures { result ≡ refused_after written refusal }
{
    match refusal {
        IoRefusal::Failed => WriteRefusal::WriteFault { written },
        IoRefusal::NoMemory => WriteRefusal::NoMemory { written },
    }
}
