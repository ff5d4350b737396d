//! Why the parts of a run end before they are done, and how one becomes another.
ghost use Rattle.std.specs.Prelude.{◌≡◌};
ghost use Rattle.enf_run.specs.declared.endings.Cut.TheVariants.{NoMemory as OutOfMemory};
ghost use Rattle.enf_run.specs.declared.endings.Ending.TheVariants as ending;
ghost use Rattle.enf_run.specs.declared.refusals.Refusal.TheVariants as refused;

use crate::refusals::{PolicyRefusal, Refusal, SignatureRefusal, StateRefusal};
use enf_data::memory::NoMemory;
use enf_io::devices::IoRefusal;
use enf_io::writing::WriteRefusal;
use std::alloc::AllocError;

/// Why output ends before it is whole.
#[derive(Clone, Copy, Debug)]
pub enum Cut {
    WriteFault,
    NoMemory,
}

impl From<NoMemory> for Cut {
    ghost from_gives = { λ _ cut. cut ≡ OutOfMemory };

    fn from(_no_memory: NoMemory) -> Cut {
        Cut::NoMemory
    }
}

impl From<AllocError> for Cut {
    ghost from_gives = { λ _ cut. cut ≡ OutOfMemory };

    fn from(_error: AllocError) -> Cut {
        Cut::NoMemory
    }
}

impl From<WriteRefusal> for Cut {
    ghost use Rattle.enf_run.specs.machine.RunEndings.{cut_after};

    ghost from_gives = { λ refusal cut. cut ≡ cut_after refusal };

    fn from(refusal: WriteRefusal) -> Cut {
        match refusal {
            WriteRefusal::WriteFault { .. } => Cut::WriteFault,
            WriteRefusal::NoMemory { .. } => Cut::NoMemory,
        }
    }
}

// A write of a file.
impl From<IoRefusal> for Cut {
    ghost use Rattle.enf_run.specs.machine.RunEndings.{cut_after_file};

    ghost from_gives = { λ refusal cut. cut ≡ cut_after_file refusal };

    fn from(refusal: IoRefusal) -> Cut {
        match refusal {
            IoRefusal::Failed => Cut::WriteFault,
            IoRefusal::NoMemory => Cut::NoMemory,
        }
    }
}

/// Why a file gives nothing: what it holds is refused, or it was not read.
#[derive(Debug, Drop)]
pub enum FileEnding<W> {
    Refused(W),
    NotRead(IoRefusal),
}

impl<W> From<NoMemory> for FileEnding<W> {
    ghost use Rattle.enf_run.specs.declared.endings.FileEnding.TheVariants.{NotRead};
    ghost use Rattle.enf_io.specs.declared.devices.IoRefusal.TheVariants.{NoMemory as OutOfRoom};

    ghost from_gives = { λ _ end. end ≡ NotRead OutOfRoom };

    fn from(_no_memory: NoMemory) -> FileEnding<W> {
        FileEnding::NotRead(IoRefusal::NoMemory)
    }
}

impl<W> From<IoRefusal> for FileEnding<W> {
    ghost use Rattle.enf_run.specs.declared.endings.FileEnding.TheVariants.{NotRead as NotReadSo};

    ghost from_gives = { λ refusal end. end ≡ NotReadSo refusal };

    fn from(refusal: IoRefusal) -> FileEnding<W> {
        FileEnding::NotRead(refusal)
    }
}

/// How the work of a run ends that is done: an audit may find that the log violates the policy.
#[derive(Clone, Copy, Debug)]
pub enum Finish {
    Done,
    Violated,
}

/// Why a run ends before it is done.
#[derive(Debug, Drop)]
pub enum Ending {
    Refused(Refusal),
    Cut(Cut),
}

impl From<NoMemory> for Ending {
    ghost from_gives = { λ _ end. end ≡ ending.Cut OutOfMemory };

    fn from(_no_memory: NoMemory) -> Ending {
        Ending::Cut(Cut::NoMemory)
    }
}

impl From<Refusal> for Ending {
    ghost from_gives = { λ refusal end. end ≡ ending.Refused refusal };

    fn from(refusal: Refusal) -> Ending {
        Ending::Refused(refusal)
    }
}

impl From<Cut> for Ending {
    ghost from_gives = { λ cut end. end ≡ ending.Cut cut };

    fn from(cut: Cut) -> Ending {
        Ending::Cut(cut)
    }
}

impl From<IoRefusal> for Ending {
    ghost use Rattle.enf_run.specs.machine.RunEndings.{ending_after_read};

    ghost from_gives = { λ refusal end. end ≡ ending_after_read refusal };

    fn from(refusal: IoRefusal) -> Ending {
        match refusal {
            IoRefusal::Failed => Ending::Refused(Refusal::ReadFault),
            IoRefusal::NoMemory => Ending::Cut(Cut::NoMemory),
        }
    }
}

impl From<FileEnding<SignatureRefusal>> for Ending {
    ghost use Rattle.enf_run.specs.machine.RunEndings.{ending_after_file};

    ghost from_gives = { λ end ending. ending ≡ ending_after_file refused.Signature end };

    fn from(end: FileEnding<SignatureRefusal>) -> Ending {
        match end {
            FileEnding::Refused(why) => Ending::Refused(Refusal::Signature(why)),
            FileEnding::NotRead(why) => Ending::from(why),
        }
    }
}

impl From<FileEnding<StateRefusal>> for Ending {
    ghost use Rattle.enf_run.specs.machine.RunEndings.{ending_after_file};

    ghost from_gives = { λ end ending. ending ≡ ending_after_file refused.State end };

    fn from(end: FileEnding<StateRefusal>) -> Ending {
        match end {
            FileEnding::Refused(why) => Ending::Refused(Refusal::State(why)),
            FileEnding::NotRead(why) => Ending::from(why),
        }
    }
}

impl From<FileEnding<PolicyRefusal>> for Ending {
    ghost use Rattle.enf_run.specs.machine.RunEndings.{ending_after_file};

    ghost from_gives = { λ end ending. ending ≡ ending_after_file refused.Policy end };

    fn from(end: FileEnding<PolicyRefusal>) -> Ending {
        match end {
            FileEnding::Refused(why) => Ending::Refused(Refusal::Policy(why)),
            FileEnding::NotRead(why) => Ending::from(why),
        }
    }
}
