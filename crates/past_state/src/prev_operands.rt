//! What a `prev` asks of its operand.
ghost use Rattle.std.specs.Prelude.{◌≡◌};

use crate::shared_guard::SharedGuard;
use enf_data::items::Duplicate;
use enf_data::memory::NoMemory;
use std::alloc::Global;

/// The operand of a `prev`, as it is asked at each step.
#[derive(Debug, Drop)]
pub enum Operand {
    /// It is asked for all its rows.
    Whole(SharedGuard),
    /// None of its rows goes, and this guard is asked for those that come.
    Growing(SharedGuard),
}

impl Operand {
    ghost use Rattle.past_state.specs.machine.Newcomers.{guard_in};

    /// The guard that is asked.
    pub fn guard(&self) -> &SharedGuard
        ensures { result.now ≡ guard_in self.now }
    {
        match self {
            Operand::Whole(guard) => guard,
            Operand::Growing(guard) => guard,
        }
    }
}

impl Duplicate for Operand {
    fn duplicate(&self, alloc: Global) -> Result<Operand, NoMemory> {
        match self {
            Operand::Whole(guard) => Ok(Operand::Whole(guard.duplicate(alloc)?)),
            Operand::Growing(guard) => Ok(Operand::Growing(guard.duplicate(alloc)?)),
        }
    }
}
