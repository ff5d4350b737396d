//! Windows are told by which columns the guards look their rows up. That is for speed alone: what is kept and answered
//! stays the same, whatever they are told.
ghost use Rattle.std.specs.Prelude.{◌≡◌};

use crate::guards::PlacedGuard;
use crate::left_sides::Left;
use crate::memories::Memory;
use crate::operator_answers::place_of;
use crate::operators::OperatorState;
use enf_data::items::Duplicate;
use enf_data::memory::NoMemory;
use enf_data::terms::Vars;
use monitorable_guard::Look;
use std::alloc::Global;

// Tells each window by which columns the guards and the operands of other operators look its rows up.
pub fn index_looks(
    alloc: Global,
    operators: &mut Vec<OperatorState>,
    guards: &[PlacedGuard],
) -> Result<(), NoMemory>
    ensures { operators.new.items ≡ operators.old.items }
{
    let places = index_operands(alloc, operators)?;
    let mut looks = Vec::new(alloc);
    for placed in guards {
        placed.guard.add_looks(alloc, placed.start, &mut looks)?;
    }
    index_each(operators, places.as_slice(), looks)
}

// Tells those that operands look up, and gives the numbers of the outermost operators, the first one's last.
fn index_operands(alloc: Global, operators: &mut Vec<OperatorState>) -> Result<Vec<usize>, NoMemory>
    ensures { operators.new.items ≡ operators.old.items }
{
    let mut places = Vec::new(alloc);
    for place in 0..operators.len() {
        let taken = operators[place].taken;
        let looks = operators[place].memory.looks(alloc)?;
        index_each(operators, places.as_slice(), looks)?;
        index_denied(alloc, operators, place)?;
        places.truncate(places.len().saturating_sub(taken));
        places.push(place)?;
    }
    Ok(places)
}

fn index_each(
    operators: &mut Vec<OperatorState>,
    places: &[usize],
    looks: Vec<Look>,
) -> Result<(), NoMemory>
    ensures { operators.new.items ≡ operators.old.items }
{
    for look in looks {
        index_one(operators, places, look)?;
    }
    Ok(())
}

fn index_one(
    operators: &mut Vec<OperatorState>,
    places: &[usize],
    look: Look,
) -> Result<(), NoMemory>
    ensures { operators.new.items ≡ operators.old.items }
{
    if look.operator >= places.len() {
        return Ok(());
    }
    let place = place_of(places, look.operator);
    if place < operators.len() {
        operators[place].memory.index_by(look.columns)?;
    }
    Ok(())
}

// Tells a window by which columns it lets rows go.
fn index_denied(
    alloc: Global,
    operators: &mut Vec<OperatorState>,
    place: usize,
) -> Result<(), NoMemory>
    ensures { operators.new.items ≡ operators.old.items }
{
    if place >= operators.len() {
        return Ok(());
    }
    if let Some(columns) = operators[place].memory.denied_columns(alloc)? {
        operators[place].memory.index_by(columns)?;
    }
    Ok(())
}

impl Memory {
    // By which columns its operands look for rows of their outermost operators.
    fn looks(&self, alloc: Global) -> Result<Vec<Look>, NoMemory> {
        let mut looks = Vec::new(alloc);
        match self {
            Memory::Prev { operand, .. } => operand
                .guard()
                .guard()
                .add_looks(alloc, 0, &mut looks)?,
            Memory::Once { right, .. } => right.guard().add_looks(alloc, 0, &mut looks)?,
            Memory::Since {
                left,
                left_tables,
                right,
                ..
            } => {
                left.add_looks(alloc, &mut looks)?;
                right.guard().add_looks(alloc, *left_tables, &mut looks)?;
            }
        }
        Ok(looks)
    }

    // The columns of the rows by which a left side lets rows go.
    fn denied_columns(&self, alloc: Global) -> Result<Option<Vars>, NoMemory> {
        if let Memory::Since { left, .. } = self {
            if let Left::Denied(guard) = left {
                return Ok(Some(guard.guard().columns().duplicate(alloc)?));
            }
        }
        Ok(None)
    }

    // Looks rows up by these columns.
    fn index_by(&mut self, columns: Vars) -> Result<(), NoMemory>
        ensures { self.new ≡ self.old }
    {
        match self {
            Memory::Prev { .. } => Ok(()),
            Memory::Once { window, .. } => window.index_by(columns),
            Memory::Since { window, .. } => window.index_by(columns),
        }
    }
}

impl Left {
    fn add_looks(&self, alloc: Global, looks: &mut Vec<Look>) -> Result<(), NoMemory> {
        match self {
            Left::All => Ok(()),
            Left::Denied(guard) => guard.guard().add_looks(alloc, 0, looks),
            Left::ByRow(guard) => guard.guard().add_looks(alloc, 0, looks),
        }
    }
}
