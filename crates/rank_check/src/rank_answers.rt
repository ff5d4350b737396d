//! What is answered for the plans of a policy.
use enf_data::events::NameId;
use enf_data::memory::NoMemory;
use enf_data::places::Place;

/// What a policy does to the events of a name.
#[derive(Clone, Copy, Debug, PartialEq, Eq)]
pub enum Role {
    Free,
    Caused,
    Suppressed,
}

/// Why the plans of a policy cannot work together.
#[derive(Clone, Copy, Debug, PartialEq, Eq)]
pub enum RankRefusal {
    RoleClash { name: NameId },
    Untriggered { place: Place },
    Cyclic { name: NameId },
    NoMemory,
}

impl From<NoMemory> for RankRefusal {
    ghost use Rattle.std.specs.Prelude.{◌≡◌};
    ghost use Rattle.rank_check.specs.declared.rank_answers.RankRefusal.TheVariants.{NoMemory as OutOfMemory};

    ghost from_gives = { λ _ refusal. refusal ≡ OutOfMemory };

    fn from(_error: NoMemory) -> RankRefusal {
        RankRefusal::NoMemory
    }
}
