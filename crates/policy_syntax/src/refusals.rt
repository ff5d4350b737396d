//! Why the first pass refuses a text.
ghost use Rattle.std.specs.Prelude.{◌≡◌};
ghost use Rattle.policy_syntax.specs.declared.refusals.SyntaxRefusal.TheVariants.{NoMemory as OutOfMemory};

use enf_data::{NoMemory, Place};

/// Why the first pass refuses a text.
#[derive(Clone, Copy, Debug, PartialEq, Eq)]
pub enum SyntaxRefusal {
    /// At the first token, or the end, that cannot continue a policy.
    Syntax { place: Place },
    /// At the first token past a limit.
    Limit { place: Place },
    /// There was no memory.
    NoMemory,
}

impl From<NoMemory> for SyntaxRefusal {
    ghost from_gives = { λ _ refusal. refusal ≡ OutOfMemory };

    fn from(_no_memory: NoMemory) -> SyntaxRefusal {
        SyntaxRefusal::NoMemory
    }
}
