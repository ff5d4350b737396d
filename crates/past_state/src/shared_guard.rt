//! Guards that the copies of what is kept share.
ghost use Rattle.std.specs.Prelude.{◌≡◌, [], IfOk};
ghost use Rattle.enf_formula.specs.machine.FormulaViews.{tree_of};
ghost use Rattle.monitorable_guard.specs.machine.Evaluation.{AreOpen};
ghost use Rattle.valuations.specs.machine.Tables.{IsTable};

use crate::right_rows::RightRows;
use enf_data::items::Duplicate;
use enf_data::memory::NoMemory;
use monitorable_guard::Guard;
use std::alloc::Global;
use std::marker::Model;
use std::rc::Rc;
use valuations::Table;

/// A guard that its copies share, with its rows where it has none.
#[derive(Debug, Drop)]
pub struct SharedGuard {
    guard: Rc<Guard>,
    none: RightRows,
}

impl Model for SharedGuard {
    ghost use Rattle.std.specs.Prelude.{◌≡◌, []};
    ghost use Rattle.enf_formula.specs.machine.FormulaViews.{tree_of};
    ghost use Rattle.monitorable_guard.specs.machine.Evaluation.{AreOpen};
    ghost use Rattle.monitorable_guard.specs.machine.Guards.{BoundFormula, bound_formula_code};
    ghost use Rattle.valuations.specs.machine.Tables.{IsTable};

    ghost Value = { BoundFormula };

    ghost coded = { bound_formula_code };

    ghost view = { λ shared. shared.guard.value };

    ghost invariant = { λ shared. IsTable shared.none × (shared.none.rows ≡ [])
        × AreOpen (tree_of shared.guard.value.formula) shared.guard.value.bound shared.none.columns };
}

impl SharedGuard {
    /// The guard, in memory of its own.
    pub fn new(alloc: Global, guard: Guard) -> Result<SharedGuard, NoMemory>
        ensures { IfOk result (λ shared. shared ≡ guard) }
    {
        let none = none_of(alloc, &guard)?;
        let guard = Rc::new(alloc, guard)?;
        Ok(SharedGuard { guard, none })
    }

    /// The guard.
    pub fn guard(&self) -> &Guard
        ensures { result.now ≡ self.now }
    {
        &*self.guard
    }

    /// Its rows where it has none; no memory is taken for them.
    pub fn no_rows(&self, alloc: Global) -> Result<RightRows, NoMemory>
        ensures table { IfOk result IsTable }
        ensures none { IfOk result (λ right. right.rows ≡ []) }
        ensures columns { IfOk result (λ right. AreOpen (tree_of self.now.formula) self.now.bound right.columns) }
    {
        self.none.duplicate(alloc)
    }
}

impl Duplicate for SharedGuard {
    fn duplicate(&self, alloc: Global) -> Result<SharedGuard, NoMemory> {
        let guard = self.guard.clone()?;
        let none = self.none.duplicate(alloc)?;
        Ok(SharedGuard { guard, none })
    }
}

// The rows of the guard where it has none.
fn none_of(alloc: Global, guard: &Guard) -> Result<RightRows, NoMemory>
    ensures table { IfOk result IsTable }
    ensures none { IfOk result (λ right. right.rows ≡ []) }
    ensures columns { IfOk result (λ right. AreOpen (tree_of guard.now.formula) guard.now.bound right.columns) }
{
    let columns = guard.columns().duplicate(alloc)?;
    let rows = Table::from_rows(columns, Vec::new(alloc))?;
    RightRows::of(alloc, rows)
}
