//! Copies of formulas.
ghost use Rattle.std.specs.Prelude.{◌≡◌, IfOk};
ghost use Rattle.enf_formula.specs.machine.FormulaViews.{tree_of};

use crate::formulas::Formula;
use enf_data::items::Duplicate;
use enf_data::memory::NoMemory;
use std::alloc::Global;

impl Formula {
    /// An equal formula.
    pub fn duplicate(&self, alloc: Global) -> Result<Formula, NoMemory>
        ensures { IfOk result (λ copy. tree_of copy ≡ tree_of self.now) }
    {
        match self {
            Formula::True(p) => Ok(Formula::True(*p)),
            Formula::False(p) => Ok(Formula::False(*p)),
            Formula::Atom(p, name, terms) => {
                Ok(Formula::Atom(*p, *name, terms.duplicate(alloc)?))
            }
            Formula::Equal(p, s, t) => {
                Ok(Formula::Equal(*p, s.duplicate(alloc)?, t.duplicate(alloc)?))
            }
            Formula::Less(p, s, t) => {
                Ok(Formula::Less(*p, s.duplicate(alloc)?, t.duplicate(alloc)?))
            }
            Formula::AtMost(p, s, t) => {
                Ok(Formula::AtMost(*p, s.duplicate(alloc)?, t.duplicate(alloc)?))
            }
            Formula::Not(p, f) => {
                let f = Box::new(alloc, f.duplicate(alloc)?)?;
                Ok(Formula::Not(*p, f))
            }
            Formula::And(p, f, g) => {
                let f = Box::new(alloc, f.duplicate(alloc)?)?;
                let g = Box::new(alloc, g.duplicate(alloc)?)?;
                Ok(Formula::And(*p, f, g))
            }
            Formula::Or(p, f, g) => {
                let f = Box::new(alloc, f.duplicate(alloc)?)?;
                let g = Box::new(alloc, g.duplicate(alloc)?)?;
                Ok(Formula::Or(*p, f, g))
            }
            Formula::Implies(p, f, g) => {
                let f = Box::new(alloc, f.duplicate(alloc)?)?;
                let g = Box::new(alloc, g.duplicate(alloc)?)?;
                Ok(Formula::Implies(*p, f, g))
            }
            Formula::Exists(p, xs, f) => {
                let xs = xs.duplicate(alloc)?;
                let f = Box::new(alloc, f.duplicate(alloc)?)?;
                Ok(Formula::Exists(*p, xs, f))
            }
            Formula::Forall(p, xs, f) => {
                let xs = xs.duplicate(alloc)?;
                let f = Box::new(alloc, f.duplicate(alloc)?)?;
                Ok(Formula::Forall(*p, xs, f))
            }
            Formula::Prev(p, interval, f) => {
                let f = Box::new(alloc, f.duplicate(alloc)?)?;
                Ok(Formula::Prev(*p, *interval, f))
            }
            Formula::Next(p, interval, f) => {
                let f = Box::new(alloc, f.duplicate(alloc)?)?;
                Ok(Formula::Next(*p, *interval, f))
            }
            Formula::Once(p, interval, f) => {
                let f = Box::new(alloc, f.duplicate(alloc)?)?;
                Ok(Formula::Once(*p, *interval, f))
            }
            Formula::Historically(p, interval, f) => {
                let f = Box::new(alloc, f.duplicate(alloc)?)?;
                Ok(Formula::Historically(*p, *interval, f))
            }
            Formula::Since(p, interval, f, g) => {
                let f = Box::new(alloc, f.duplicate(alloc)?)?;
                let g = Box::new(alloc, g.duplicate(alloc)?)?;
                Ok(Formula::Since(*p, *interval, f, g))
            }
            Formula::Eventually(p, interval, f) => {
                let f = Box::new(alloc, f.duplicate(alloc)?)?;
                Ok(Formula::Eventually(*p, *interval, f))
            }
            Formula::Always(p, interval, f) => {
                let f = Box::new(alloc, f.duplicate(alloc)?)?;
                Ok(Formula::Always(*p, *interval, f))
            }
            Formula::Until(p, interval, f, g) => {
                let f = Box::new(alloc, f.duplicate(alloc)?)?;
                let g = Box::new(alloc, g.duplicate(alloc)?)?;
                Ok(Formula::Until(*p, *interval, f, g))
            }
        }
    }
}
