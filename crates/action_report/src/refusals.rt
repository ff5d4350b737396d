//! Why bytes are no report line.
ghost use Rattle.std.specs.Prelude.{◌≡◌};
ghost use Rattle.action_report.specs.declared.refusals.ReportRefusal.TheVariants.{NoMemory as OutOfMemory};

use enf_data::NoMemory;

/// Why no action is read.
#[derive(Clone, Copy, Debug, PartialEq, Eq)]
pub enum ReportRefusal {
    /// The bytes are the line of no action.
    Syntax,
    /// There was no memory.
    NoMemory,
}

impl From<NoMemory> for ReportRefusal {
    ghost from_gives = { λ _ refusal. refusal ≡ OutOfMemory };

    fn from(_no_memory: NoMemory) -> ReportRefusal {
        ReportRefusal::NoMemory
    }
}
