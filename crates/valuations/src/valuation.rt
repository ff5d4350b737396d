//! Valuations of variables.
ghost use Rattle.std.specs.Prelude.{◌≡◌, OnOk, OnErr, None, slice_get};
ghost use Rattle.std.specs.Option.{option_copied, option_map};
ghost use Rattle.enf_data.specs.meaning.Valuations.{value_at, bindings, no_values};
ghost use Rattle.valuations.specs.machine.Bindings.{binding_place, with_value};

use enf_data::items::Duplicate;
use enf_data::memory::NoMemory;
use enf_data::terms::VarId;
use enf_data::values::Value;
use std::alloc::Global;
use std::marker::Model;

/// A finite map from variables to values.
#[derive(Debug, Drop)]
pub struct Valuation {
    bindings: Vec<(VarId, Value)>,
}

impl Model for Valuation {
    ghost use Rattle.std.specs.Prelude.{T};
    ghost use Rattle.enf_data.specs.meaning.Valuations.{Valuation as Bound, variable_cmp};
    ghost use Rattle.enf_data.specs.machine.Codes.{valuation_code};
    ghost use Rattle.std.specs.FinMap as map;

    ghost Value = { Bound };

    ghost coded = { valuation_code };

    ghost view = { λ v. map.from_sorted v.bindings.items };

    ghost invariant = { λ v. T (map.is_sorted variable_cmp v.bindings.items) };
}

impl Valuation {
    /// Binds nothing.
    pub fn empty(alloc: Global) -> Valuation
        ensures { result ≡ no_values }
    {
        Valuation {
            bindings: Vec::new(alloc),
        }
    }

    /// Binds one more variable.
    pub fn bind(&mut self, var: VarId, value: Value) -> Result<(), NoMemory>
        requires { value_at self.old var ≡ None }
        ensures ok { OnOk result (self.new ≡ with_value self.old var value) }
        ensures err { OnErr result (self.new ≡ self.old) }
    {
        let place = place_in(self.bindings.as_slice(), var);
        // many are kept for long, each with few bindings
        self.bindings.reserve_exact(1)?;
        self.bindings.insert(place, (var, value))?;
        Ok(())
    }

    /// The value of a variable, where it is bound.
    pub fn get(&self, var: VarId) -> Option<&Value>
        ensures { option_copied result ≡ value_at self.now var }
    {
        for binding in &self.bindings {
            if binding.0 == var {
                return Some(&binding.1);
            }
        }
        None
    }

    /// Each variable that is bound, with its value, in rising number.
    pub fn bindings(&self) -> &[(VarId, Value)]
        ensures { result.now ≡ bindings self.now }
    {
        self.bindings.as_slice()
    }
}

impl Duplicate for Valuation {
    fn duplicate(&self, alloc: Global) -> Result<Valuation, NoMemory> {
        let mut bindings = Vec::with_capacity(alloc, self.bindings.len())?;
        for (variable, value) in &self.bindings {
            bindings.push((*variable, value.duplicate(alloc)?))?;
        }
        Ok(Valuation { bindings })
    }
}

fn place_in(bindings: &[(VarId, Value)], var: VarId) -> usize
    ensures { result ≡ binding_place var bindings.now }
{
    let mut place = 0;
    while place < bindings.len() && bindings[place].0 < var {
        place += 1;
    }
    place
}
