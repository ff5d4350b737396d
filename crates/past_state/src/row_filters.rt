//! The rows under which a guard holds: all, or those of a table.
ghost use Rattle.std.specs.Prelude.{◌≡◌, ◌↔◌, ◌⊎◌, [], IfOk, IsTrue, Contains, length};
ghost use Rattle.enf_formula.specs.machine.FormulaViews.{tree_of};
ghost use Rattle.enf_formula.specs.meaning.Satisfaction.{IsFree, AreFreeVariables};
ghost use Rattle.enf_data.specs.meaning.Membership.{HasNoRepeats};
ghost use Rattle.enf_data.specs.meaning.Valuations.{Valuation as Bound, BindsColumns, valuation_of};
ghost use Rattle.enf_data.specs.declared.terms.VarId.{VarId as Variable};
ghost use Rattle.monitorable_guard.specs.machine.Evaluation.{FitOperators};
ghost use Rattle.monitorable_guard.specs.machine.PresentMeaning.{HoldsNow, outermost};
ghost use Rattle.enf_formula.specs.machine.FormulaShape.{BindsFresh};
ghost use Rattle.past_state.specs.machine.OperandQueries.{AllComeFrom};
ghost use Rattle.valuations.specs.machine.Tables.{IsTable, HasValuation, AgreeOnColumns};

use crate::right_rows::RightRows;
use crate::shared_guard::SharedGuard;
use enf_data::items::Duplicate;
use enf_data::memory::NoMemory;
use enf_data::rows::Row;
use enf_data::terms::VarId;
use monitorable_guard::laws::free_variables_decide_now;
use monitorable_guard::{Past, StepEvents};
use std::alloc::Global;
use valuations::{Frame, Table, Valuation};

// The rows under which a guard with no variable bound holds.
pub fn all_rows<P: Past>(
    alloc: Global,
    guard: &SharedGuard,
    events: &StepEvents<'_>,
    past: &P,
) -> Result<Table, NoMemory>
    requires bound { guard.now.bound ≡ [] }
    requires fresh { BindsFresh (tree_of guard.now.formula)
        (λ x. Contains guard.now.bound x ⊎ IsFree x (tree_of guard.now.formula)) }
    requires tabled { FitOperators (outermost (tree_of guard.now.formula)) (P.tables past.now) }
    ensures table { IfOk result IsTable }
    ensures free { IfOk result (λ t. AreFreeVariables (tree_of guard.now.formula) t.columns) }
    ensures rows { IfOk result (λ t. (v : Bound) → BindsColumns v t.columns
        → HasValuation t v ↔ HoldsNow events.now (P.tables past.now) v (tree_of guard.now.formula)) }
    ensures known { IfOk result
        (AllComeFrom events.now (P.tables past.now) (tree_of guard.now.formula)) }
{
    let guard = guard.guard();
    guard.evaluate_at(alloc, events, past, &Valuation::empty(alloc))
}

// Those rows as what is made of them shares them. Where the guard needs an event that is not there, none is made.
pub fn right_rows<P: Past>(
    alloc: Global,
    guard: &SharedGuard,
    events: &StepEvents<'_>,
    past: &P,
) -> Result<RightRows, NoMemory>
    requires bound { guard.now.bound ≡ [] }
    requires fresh { BindsFresh (tree_of guard.now.formula)
        (λ x. Contains guard.now.bound x ⊎ IsFree x (tree_of guard.now.formula)) }
    requires tabled { FitOperators (outermost (tree_of guard.now.formula)) (P.tables past.now) }
    ensures table { IfOk result IsTable }
    ensures free { IfOk result (λ t. AreFreeVariables (tree_of guard.now.formula) t.columns) }
    ensures rows { IfOk result (λ t. (v : Bound) → BindsColumns v t.columns
        → HasValuation t v ↔ HoldsNow events.now (P.tables past.now) v (tree_of guard.now.formula)) }
    ensures known { IfOk result
        (AllComeFrom events.now (P.tables past.now) (tree_of guard.now.formula)) }
{
    if guard.guard().lacks_event(events.set().as_slice()) {
        return guard.no_rows(alloc);
    }
    let rows = all_rows(alloc, guard, events, past)?;
    RightRows::of(alloc, rows)
}

// Of the rows, whose columns are the guard's bound variables and all that are free in it, those under which it holds.
pub fn surviving_rows<P: Past>(
    alloc: Global,
    rows: &Table,
    guard: &SharedGuard,
    events: &StepEvents<'_>,
    past: &P,
) -> Result<Table, NoMemory>
    requires bound { guard.now.bound ≡ rows.now.columns }
    requires free { (x : Variable) → IsFree x (tree_of guard.now.formula) → Contains rows.now.columns x }
    requires fresh { BindsFresh (tree_of guard.now.formula)
        (λ x. Contains guard.now.bound x ⊎ IsFree x (tree_of guard.now.formula)) }
    requires tabled { FitOperators (outermost (tree_of guard.now.formula)) (P.tables past.now) }
    ensures table { IfOk result IsTable }
    ensures columns { IfOk result (λ t. t.columns ≡ rows.now.columns) }
    ensures rows { IfOk result (λ t. (v : Bound) → HasValuation t v
        ↔ (HasValuation rows.now v × HoldsNow events.now (P.tables past.now) v (tree_of guard.now.formula))) }
{
    let columns = rows.columns();
    let mut surviving = Vec::new(alloc);
    for row in rows.rows() {
        if holds_under(alloc, columns.as_slice(), row, guard, events, past)? {
            surviving.push(row.duplicate(alloc)?)?;
        }
    }
    Table::from_rows(columns.duplicate(alloc)?, surviving)
}

// Whether the guard holds under the row.
fn holds_under<P: Past>(
    alloc: Global,
    columns: &[VarId],
    row: &Row,
    guard: &SharedGuard,
    events: &StepEvents<'_>,
    past: &P,
) -> Result<bool, NoMemory>
    requires distinct { HasNoRepeats columns.now }
    requires fits { length row.now ≡ length columns.now }
    requires bound { guard.now.bound ≡ columns.now }
    requires free { (x : Variable) → IsFree x (tree_of guard.now.formula) → Contains columns.now x }
    requires fresh { BindsFresh (tree_of guard.now.formula)
        (λ x. Contains guard.now.bound x ⊎ IsFree x (tree_of guard.now.formula)) }
    requires tabled { FitOperators (outermost (tree_of guard.now.formula)) (P.tables past.now) }
    ensures { IfOk result (λ holds. (w : Bound) → AgreeOnColumns columns.now (valuation_of columns.now row.now) w
        → IsTrue holds ↔ HoldsNow events.now (P.tables past.now) w (tree_of guard.now.formula)) }
{
    free_variables_decide_now();
    let none = Valuation::empty(alloc);
    let whole = Frame::Whole(&none);
    let scope = Frame::Row(&whole, columns, row.as_slice());
    guard.guard().holds(alloc, events, past, &scope)
}
