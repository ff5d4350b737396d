//! What the left side of a `since` asks of the rows that are kept.
ghost use Rattle.std.specs.Prelude.{◌≡◌, ◌↔◌, Contains, IfOk, IsTrue};
ghost use Rattle.enf_data.specs.declared.terms.VarId.{VarId as Variable};
ghost use Rattle.enf_data.specs.meaning.Valuations.{Valuation as Bound};
ghost use Rattle.valuations.specs.machine.Tables.{HasValuation};
ghost use Rattle.windows.specs.machine.Windows.{WindowKeeps};

use crate::row_filters::{all_rows, surviving_rows};
use crate::shared_guard::SharedGuard;
use crate::survivors::Survivors;
use enf_data::events::Event;
use enf_data::memory::NoMemory;
use monitorable_guard::{Past, StepEvents};
use std::alloc::Global;
use valuations::Table;
use windows::SinceWindow;

/// The left side of a `since`, as it is asked at each step.
#[derive(Debug, Drop)]
pub enum Left {
    /// It is `true`.
    All,
    /// It is the negation of this guard, which can be asked for all its rows, over some of the window's columns.
    Denied(SharedGuard),
    /// It is asked under each row that is kept.
    ByRow(SharedGuard),
}

impl Left {
    ghost use Rattle.past_state.specs.machine.LeftSides.{CanAskLeft, AreSurvivors};

    /// Which of the rows that the window keeps survive a step with these events, from its outermost operators on the
    /// past.
    pub fn survivors<P: Past>(
        &self,
        alloc: Global,
        window: &SinceWindow,
        events: &StepEvents<'_>,
        past: &P,
    ) -> Result<Survivors, NoMemory>
        requires { CanAskLeft window.now.columns (P.tables past.now) self.now }
        ensures { IfOk result (AreSurvivors events.now (P.tables past.now) self.now window.now) }
    {
        if self.keeps_all(events.set().as_slice()) {
            return Ok(Survivors::All);
        }
        match self {
            Left::All => Ok(Survivors::All),
            Left::Denied(guard) => {
                let denied = all_rows(alloc, guard, events, past)?;
                let failing = failing_rows(alloc, denied, window)?;
                Ok(Survivors::AllBut(failing))
            }
            Left::ByRow(guard) => {
                let kept = window.rows(alloc)?;
                let rows = surviving_rows(alloc, &kept, guard, events, past)?;
                Ok(Survivors::Only(rows))
            }
        }
    }
}

impl Left {
    ghost use Rattle.past_state.specs.machine.UntouchedSteps.{KeepsAllRows};

    /// Whether all rows survive a step with these events: what lets them go needs an event that is not there.
    pub fn keeps_all(&self, events: &[Event]) -> bool
        ensures { IsTrue result → KeepsAllRows events.now self.now }
    {
        match self {
            Left::All => true,
            Left::Denied(guard) => guard.guard().lacks_event(events),
            Left::ByRow(_) => false,
        }
    }
}

// The rows of the window that agree with a row of the table, by a look-up for each of these; where the table has the
// columns of the window, it serves as it is.
fn failing_rows(alloc: Global, denied: Table, window: &SinceWindow) -> Result<Table, NoMemory>
    requires { (x : Variable) → Contains denied.columns x → Contains window.now.columns x }
    ensures columns { IfOk result (λ t. t.columns ≡ window.now.columns) }
    ensures rows { IfOk result (λ t. (v : Bound) → WindowKeeps window.now window.now.last v
        → HasValuation t v ↔ HasValuation denied v) }
{
    if *denied.columns() != *window.columns() {
        return window.rows_of_parts(alloc, &denied);
    }
    Ok(denied)
}
