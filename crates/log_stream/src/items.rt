//! What a log has, and why a record of it is refused.
ghost use Rattle.std.specs.Prelude.{◌≡◌};
ghost use Rattle.log_stream.specs.declared.items.LogRefusal.TheVariants.{NoMemory as OutOfMemory};

use enf_data::{EventSet, NoMemory, Place};
use trace_meaning::kinds::StepKind;

/// A record of a log: a step, or a tick, which says that all times below its own are over.
#[derive(Drop)]
pub enum LogItem {
    Step {
        kind: StepKind,
        time: u64,
        events: EventSet,
    },
    Tick {
        time: u64,
    },
}

/// Which records are read: those of a system, or those of an enforced log as well, which has inserted steps.
#[derive(Clone, Copy, Debug, PartialEq, Eq)]
pub enum LogMode {
    Input,
    TraceLog,
}

/// What is at the front of the bytes so far.
#[derive(Drop)]
pub enum Found {
    Item(LogItem),
    /// No whole record yet.
    Pending,
}

/// Why a record is refused. Places are counted from 0 within the record.
#[derive(Clone, Copy, Debug, PartialEq, Eq)]
pub enum LogRefusal {
    /// At the first token that cannot continue a record.
    BadRecord { place: Place },
    /// At a name that the signature lacks.
    UnknownName { place: Place },
    /// At a name with another number of arguments.
    Arity { place: Place },
    /// At an argument of another sort.
    SortClash { place: Place },
    /// The record does not end within 65,536 bytes.
    TooLong,
    /// The time passes the greatest of its kind.
    TimeTooLarge,
    /// The log ended within a record.
    Truncated,
    /// There was no memory.
    NoMemory,
}

impl From<NoMemory> for LogRefusal {
    ghost from_gives = { λ _ refusal. refusal ≡ OutOfMemory };

    fn from(_no_memory: NoMemory) -> LogRefusal {
        LogRefusal::NoMemory
    }
}
