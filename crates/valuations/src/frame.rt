//! Values of variables over others that stay where they are.
ghost use Rattle.std.specs.Prelude.{◌≡◌};
ghost use Rattle.std.specs.Option.{option_copied};
ghost use Rattle.enf_data.specs.meaning.Valuations.{value_at};
ghost use Rattle.valuations.specs.machine.Bindings.{bound_in};
ghost use Rattle.valuations.specs.machine.Tables.{row_cell};

use crate::scope::Lookup;
use crate::valuation::Valuation;
use enf_data::terms::VarId;
use enf_data::values::Value;

/// Values of variables that stand elsewhere. One that is made over another takes no memory, and leaves the other as
/// it is.
#[derive(Drop)]
pub enum Frame<'a> {
    /// Those of a valuation.
    Whole(&'a Valuation),
    /// Another's, of these variables alone.
    Part(&'a Frame<'a>, &'a [VarId]),
    /// Another's, and a row's of those columns that it does not bind.
    Row(&'a Frame<'a>, &'a [VarId], &'a [Value]),
}

impl<'a> Frame<'a> {
    /// The value of a variable, where it is bound.
    pub fn get(&self, variable: VarId) -> Option<&'a Value>
        ensures { option_copied result ≡ value_at (bound_in self.now) variable }
    {
        match self {
            Frame::Whole(v) => v.get(variable),
            Frame::Part(below, variables) => {
                if variables.contains(&variable) {
                    below.get(variable)
                } else {
                    None
                }
            }
            Frame::Row(below, columns, row) => match below.get(variable) {
                Some(value) => Some(value),
                None => cell_of(columns, row, variable),
            },
        }
    }
}

// The row's value of the variable, where it is a column.
fn cell_of<'a>(columns: &[VarId], row: &'a [Value], variable: VarId) -> Option<&'a Value>
    ensures { option_copied result ≡ row_cell columns.now row.now variable }
{
    for (column, value) in columns.iter().zip(row) {
        if *column == variable {
            return Some(value);
        }
    }
    None
}

impl Lookup for Frame<'_> {
    ghost valuation = { bound_in };

    fn value(&self, variable: VarId) -> Option<&Value> {
        self.get(variable)
    }
}
