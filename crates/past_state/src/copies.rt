//! Copies of what is kept, which share the guards.
ghost use Rattle.std.specs.Prelude.{◌≡◌, IfOk};

use crate::left_sides::Left;
use crate::memories::Memory;
use crate::operators::{OperatorState, OperatorStates};
use enf_data::items::Duplicate;
use enf_data::memory::NoMemory;
use std::alloc::{AllocError, Global};

impl Duplicate for Left {
    fn duplicate(&self, alloc: Global) -> Result<Left, NoMemory> {
        match self {
            Left::All => Ok(Left::All),
            Left::Denied(guard) => Ok(Left::Denied(guard.duplicate(alloc)?)),
            Left::ByRow(guard) => Ok(Left::ByRow(guard.duplicate(alloc)?)),
        }
    }
}

impl Duplicate for Memory {
    fn duplicate(&self, alloc: Global) -> Result<Memory, NoMemory> {
        match self {
            Memory::Prev { slot, operand } => {
                let slot = slot.duplicate(alloc)?;
                let operand = operand.duplicate(alloc)?;
                Ok(Memory::Prev { slot, operand })
            }
            Memory::Once { window, right } => {
                let window = window.duplicate(alloc)?;
                let right = right.duplicate(alloc)?;
                Ok(Memory::Once { window, right })
            }
            Memory::Since {
                window,
                left,
                left_tables,
                right,
            } => {
                let window = window.duplicate(alloc)?;
                let left = left.duplicate(alloc)?;
                let left_tables = *left_tables;
                let right = right.duplicate(alloc)?;
                Ok(Memory::Since {
                    window,
                    left,
                    left_tables,
                    right,
                })
            }
        }
    }
}

impl Clone for OperatorStates {
    ghost use Rattle.std.specs.Prelude.{◌≡◌};

    ghost is_clone = { λ operators copy. copy.items.items ≡ operators.items.items };

    fn clone(&self) -> Result<OperatorStates, AllocError> {
        let alloc = *self.items.allocator();
        match copy_of(alloc, self.items.as_slice()) {
            Ok(items) => Ok(OperatorStates { items }),
            Err(NoMemory) => Err(AllocError),
        }
    }
}

fn copy_of(alloc: Global, operators: &[OperatorState]) -> Result<Vec<OperatorState>, NoMemory>
    ensures { IfOk result (λ copy. copy.items ≡ operators.now) }
{
    let mut copy = Vec::with_capacity(alloc, operators.len())?;
    for operator in operators {
        copy.push(OperatorState {
            taken: operator.taken,
            memory: operator.memory.duplicate(alloc)?,
        })?;
    }
    Ok(copy)
}
