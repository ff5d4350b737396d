//! Why a text is no signature.
ghost use Rattle.std.specs.Prelude.{◌≡◌};
ghost use Rattle.signature.specs.declared.refusals.SignatureRefusal.TheVariants.{NoMemory as OutOfMemory};

use enf_data::{NameId, NoMemory, Place};

/// Which limit a signature passes.
#[derive(Clone, Copy, Debug, PartialEq, Eq)]
pub enum SignatureLimit {
    /// More than 256 names.
    Names,
    /// More than 8 columns.
    Arity,
    /// A name of more than 64 bytes.
    Name,
}

/// Why a text is no signature.
#[derive(Clone, Copy, Debug, PartialEq, Eq)]
pub enum SignatureRefusal {
    /// At the first token, or the end, that cannot continue a signature.
    Syntax { place: Place },
    /// At the second declaration of a name.
    Repeated { name: NameId, place: Place },
    /// At the first token past a limit.
    Limit { which: SignatureLimit, place: Place },
    /// There was no memory.
    NoMemory,
}

impl From<NoMemory> for SignatureRefusal {
    ghost from_gives = { λ _ refusal. refusal ≡ OutOfMemory };

    fn from(_no_memory: NoMemory) -> SignatureRefusal {
        SignatureRefusal::NoMemory
    }
}
