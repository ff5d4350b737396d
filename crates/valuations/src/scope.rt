//! Values of variables by reference, and what tells the values of variables.
ghost use Rattle.std.specs.Prelude.{◌≡◌, OnOk, OnErr};
ghost use Rattle.std.specs.Option.{option_copied};
ghost use Rattle.enf_data.specs.meaning.Valuations.{Valuation as Bound, value_at};
ghost use Rattle.valuations.specs.machine.Bindings.{with_value, bound_in};

use crate::frame::Frame;
use crate::valuation::Valuation;
use enf_data::memory::NoMemory;
use enf_data::terms::VarId;
use enf_data::values::Value;
use std::alloc::Global;
use std::marker::Model;

/// What tells the values of variables.
pub trait Lookup {
    ghost valuation: { Self → Bound };

    /// The value of a variable, where it has one.
    fn value(&self, variable: VarId) -> Option<&Value>
        ensures { option_copied result ≡ value_at (valuation self.now) variable };
}

impl Lookup for Valuation {
    ghost valuation = { λ v. v };

    fn value(&self, variable: VarId) -> Option<&Value> {
        self.get(variable)
    }
}

/// A frame, and more variables bound to values that stand elsewhere.
#[derive(Drop)]
pub struct Scope<'a> {
    below: &'a Frame<'a>,
    // a later binding of a variable hides an earlier one
    bindings: Vec<(VarId, &'a Value)>,
}

impl<'a> Model for Scope<'a> {
    ghost use Rattle.enf_data.specs.meaning.Valuations.{Valuation as Bound};
    ghost use Rattle.enf_data.specs.machine.Codes.{valuation_code};
    ghost use Rattle.valuations.specs.machine.Bindings.{bound_by, bound_in};

    ghost Value = { Bound };

    ghost coded = { valuation_code };

    ghost view = { λ scope. bound_by (bound_in scope.below.now) scope.bindings.items };
}

impl<'a> Scope<'a> {
    /// Binds what the frame binds; it takes no memory.
    pub fn over(alloc: Global, below: &'a Frame<'a>) -> Scope<'a>
        ensures { result ≡ bound_in below.now }
    {
        Scope {
            below,
            bindings: Vec::new(alloc),
        }
    }

    /// Binds a variable, or binds it anew.
    pub fn bind(&mut self, variable: VarId, value: &'a Value) -> Result<(), NoMemory>
        ensures ok { OnOk result (self.new ≡ with_value self.old variable value.now) }
        ensures err { OnErr result (self.new ≡ self.old) }
    {
        self.bindings.push((variable, value))?;
        Ok(())
    }

    /// The value of a variable, where it is bound.
    pub fn get(&self, variable: VarId) -> Option<&'a Value>
        ensures { option_copied result ≡ value_at self.now variable }
    {
        let mut place = self.bindings.len();
        while place > 0 {
            place -= 1;
            let binding = self.bindings[place];
            if binding.0 == variable {
                return Some(binding.1);
            }
        }
        self.below.get(variable)
    }
}

impl Lookup for Scope<'_> {
    ghost valuation = { λ scope. scope };

    fn value(&self, variable: VarId) -> Option<&Value> {
        self.get(variable)
    }
}
