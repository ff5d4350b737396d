//! What is answered for a formula that is to be made true or false.
use enf_data::events::NameId;
use enf_data::memory::NoMemory;
use enf_data::places::Place;
use rank_check::RankRefusal;

/// Why a formula cannot be made true or false, with the place of the formula that is refused: what the definitions
/// answer. The code says it by a `TypeRefusal`, since it can run out of memory too.
#[derive(Clone, Copy, Debug, PartialEq, Eq)]
pub enum Refusal {
    Unguarded { place: Place },
    NotEnforceable { place: Place },
}

/// Why a policy is not accepted: the first refusal of a rule, or that its plans cannot work together.
#[derive(Clone, Copy, Debug, PartialEq, Eq)]
pub enum TypeRefusal {
    Unguarded { place: Place },
    NotEnforceable { place: Place },
    RoleClash { name: NameId },
    Untriggered { place: Place },
    Cyclic { name: NameId },
    NoMemory,
}

impl From<RankRefusal> for TypeRefusal {
    ghost use Rattle.std.specs.Prelude.{◌≡◌};
    ghost use Rattle.enforce_types.specs.machine.TypedPolicies.{type_refusal_of_plans};

    ghost from_gives = { λ why refusal. refusal ≡ type_refusal_of_plans why };

    fn from(why: RankRefusal) -> TypeRefusal {
        match why {
            RankRefusal::RoleClash { name } => TypeRefusal::RoleClash { name },
            RankRefusal::Untriggered { place } => TypeRefusal::Untriggered { place },
            RankRefusal::Cyclic { name } => TypeRefusal::Cyclic { name },
            RankRefusal::NoMemory => TypeRefusal::NoMemory,
        }
    }
}

impl From<NoMemory> for TypeRefusal {
    ghost use Rattle.std.specs.Prelude.{◌≡◌};
    ghost use Rattle.enforce_types.specs.declared.refusals.TypeRefusal.TheVariants.{NoMemory as OutOfMemory};

    ghost from_gives = { λ _ refusal. refusal ≡ OutOfMemory };

    fn from(_error: NoMemory) -> TypeRefusal {
        TypeRefusal::NoMemory
    }
}
