//! Variables and terms.

use crate::items::{Duplicate, Items};
use crate::memory::NoMemory;
use crate::values::Value;
use std::alloc::Global;

/// A variable of a rule, numbered in the order of binding.
#[derive(Clone, Copy, Debug, PartialEq, Eq, PartialOrd, Ord, Hash)]
pub struct VarId(pub u32);

impl Duplicate for VarId {
    fn duplicate(&self, _alloc: Global) -> Result<VarId, NoMemory> {
        Ok(*self)
    }
}

/// A variable or a value.
#[derive(Debug, PartialEq, Eq, Drop)]
pub enum Term {
    Var(VarId),
    Const(Value),
}

impl Duplicate for Term {
    fn duplicate(&self, alloc: Global) -> Result<Term, NoMemory> {
        match self {
            Term::Var(variable) => Ok(Term::Var(*variable)),
            Term::Const(value) => Ok(Term::Const(value.duplicate(alloc)?)),
        }
    }
}

/// A list of terms.
pub type Terms = Items<Term>;

/// A list of variables.
pub type Vars = Items<VarId>;
