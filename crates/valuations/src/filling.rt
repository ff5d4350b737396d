//! Valuations that frames stand for.
ghost use Rattle.std.specs.Prelude.{◌≡◌, IfOk, OnOk};
ghost use Rattle.valuations.specs.machine.Bindings.{bound_in, filled_from_row, valuation_part};

use crate::{Frame, Valuation};
use enf_data::items::Duplicate;
use enf_data::memory::NoMemory;
use enf_data::terms::VarId;
use enf_data::values::Value;
use std::alloc::Global;

/// The valuation that the frame stands for, in memory of its own.
pub fn valuation_in(alloc: Global, v: &Frame<'_>) -> Result<Valuation, NoMemory>
    ensures { IfOk result (λ w. w ≡ bound_in v.now) }
{
    match v {
        Frame::Whole(whole) => whole.duplicate(alloc),
        Frame::Part(below, variables) => part_in(alloc, below, variables),
        Frame::Row(below, columns, row) => {
            let mut filling = valuation_in(alloc, below)?;
            fill(alloc, columns, row, &mut filling)?;
            Ok(filling)
        }
    }
}

// Binds each column that has no value yet to the row's value.
fn fill(
    alloc: Global,
    columns: &[VarId],
    row: &[Value],
    filling: &mut Valuation,
) -> Result<(), NoMemory>
    ensures { OnOk result (filling.new ≡ filled_from_row filling.old columns.now row.now) }
{
    for (column, value) in columns.iter().zip(row) {
        if filling.get(*column).is_none() {
            filling.bind(*column, value.duplicate(alloc)?)?;
        }
    }
    Ok(())
}

// What the frame binds of these variables.
fn part_in(alloc: Global, v: &Frame<'_>, variables: &[VarId]) -> Result<Valuation, NoMemory>
    ensures { IfOk result (λ w. w ≡ valuation_part (bound_in v.now) variables.now) }
{
    let mut part = Valuation::empty(alloc);
    for variable in variables {
        if part.get(*variable).is_none() {
            if let Some(value) = v.get(*variable) {
                part.bind(*variable, value.duplicate(alloc)?)?;
            }
        }
    }
    Ok(part)
}
