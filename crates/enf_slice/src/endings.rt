//! Why a run ends before it is done.
use crate::refusals::Refusal;
use enf_data::NoMemory;
use enf_io::devices::IoRefusal;
use enf_io::writing::WriteRefusal;
use std::alloc::AllocError;

/// Why a run ends before it is done.
#[derive(Clone, Copy, Debug)]
pub enum Ending {
    Refused(Refusal),
    WriteFault,
    NoMemory,
}

impl From<NoMemory> for Ending {
    fn from(_no_memory: NoMemory) -> Ending {
        Ending::NoMemory
    }
}

impl From<AllocError> for Ending {
    fn from(_error: AllocError) -> Ending {
        Ending::NoMemory
    }
}

impl From<Refusal> for Ending {
    fn from(refusal: Refusal) -> Ending {
        Ending::Refused(refusal)
    }
}

impl From<WriteRefusal> for Ending {
    fn from(refusal: WriteRefusal) -> Ending {
        match refusal {
            WriteRefusal::WriteFault { .. } => Ending::WriteFault,
            WriteRefusal::NoMemory { .. } => Ending::NoMemory,
        }
    }
}

// A read of the log or of a file.
impl From<IoRefusal> for Ending {
    fn from(refusal: IoRefusal) -> Ending {
        match refusal {
            IoRefusal::Failed => Ending::Refused(Refusal::ReadFault),
            IoRefusal::NoMemory => Ending::NoMemory,
        }
    }
}
