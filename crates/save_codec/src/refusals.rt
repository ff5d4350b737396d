//! Why bytes are no saved state.
ghost use Rattle.std.specs.Prelude.{◌≡◌};
ghost use Rattle.save_codec.specs.declared.refusals.StateRefusal.TheVariants.{NoMemory as OutOfMemory};

use enf_data::NoMemory;

/// Why no state is read. Lines are counted from 1 at that of the clock; what is before it is line 0.
#[derive(Clone, Copy, Debug, PartialEq, Eq)]
pub enum StateRefusal {
    /// At the first line that has not the form.
    Syntax { line: u64 },
    /// The bytes of the signature or those of the policy are others.
    OtherPolicy,
    /// At the first line that breaks a bound.
    Inconsistent { line: u64 },
    /// There was no memory.
    NoMemory,
}

impl From<NoMemory> for StateRefusal {
    ghost from_gives = { λ _ refusal. refusal ≡ OutOfMemory };

    fn from(_no_memory: NoMemory) -> StateRefusal {
        StateRefusal::NoMemory
    }
}
