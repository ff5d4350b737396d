//! What streams give, and why it is refused.
ghost use Rattle.std.specs.Prelude.{◌≡◌};
ghost use Rattle.stream_mux.specs.declared.records.MuxRefusal.TheVariants.{NoMemory as OutOfMemory};

use enf_data::NoMemory;
use log_stream::LogItem;

/// What a stream gives: an item, which also says that the stream gives nothing below its time any more, or its end.
#[derive(Drop)]
pub enum Offer {
    Item(LogItem),
    End,
}

/// What a stream gives, with the number of the stream.
#[derive(Drop)]
pub struct Tagged {
    pub stream: u32,
    pub offer: Offer,
}

/// Why a record of a stream is refused.
#[derive(Clone, Copy, Debug, PartialEq, Eq)]
pub enum MuxRefusal {
    /// There is no stream of that number.
    NoStream { stream: u32 },
    /// The stream was closed.
    Closed { stream: u32 },
    /// The time is below that of an earlier record of the stream.
    FallingStream { stream: u32, mark: u64, given: u64 },
    /// There was no memory.
    NoMemory,
}

impl From<NoMemory> for MuxRefusal {
    ghost from_gives = { λ _ refusal. refusal ≡ OutOfMemory };

    fn from(_no_memory: NoMemory) -> MuxRefusal {
        MuxRefusal::NoMemory
    }
}
