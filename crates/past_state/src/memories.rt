//! What is kept for an operator on the past.
ghost use Rattle.std.specs.Prelude.{IfOk, IsTrue, List, OnOk};
ghost use Rattle.enf_data.specs.declared.events.Event.{Event as AnyEvent};

use crate::left_sides::Left;
use crate::operator_answers::LazyTables;
use crate::prev_operands::Operand;
use crate::right_rows::RightRows;
use crate::row_filters::right_rows;
use crate::shared_guard::SharedGuard;
use crate::survivors::Survivors;
use enf_data::events::Event;
use enf_data::memory::NoMemory;
use monitorable_guard::StepEvents;
use prev_rows::LastRows;
use std::alloc::Global;
use windows::SinceWindow;

/// What is kept for an operator on the past, and the guards that it asks at each step. `historically` keeps the
/// window of `once` of the denial.
#[derive(Debug, Drop)]
pub enum Memory {
    Prev {
        slot: LastRows,
        operand: Operand,
    },
    Once {
        window: SinceWindow,
        right: SharedGuard,
    },
    Since {
        window: SinceWindow,
        left: Left,
        left_tables: usize,
        right: SharedGuard,
    },
}

/// What a step brings to an operator: the rows that are right at it, and which of the kept rows survive it.
#[derive(Debug, Drop)]
pub struct StepTables {
    pub surviving: Survivors,
    pub right: RightRows,
}

impl Memory {
    ghost use Rattle.past_state.specs.machine.Memories.{CanStep, AreStepTables, FitMemory, IsUpToTimeOf, IsCommittedTo};
    ghost use Rattle.past_state.specs.machine.Memories.{IsSameMemory, columns_of};
    ghost use Rattle.past_state.specs.machine.UntouchedSteps.{IsUntouched, nothing_brought};

    /// What a step with these events brings, from the outermost operators of the operands.
    pub fn step_tables(
        &self,
        alloc: Global,
        events: &StepEvents<'_>,
        past: &LazyTables<'_>,
    ) -> Result<StepTables, NoMemory>
        requires { CanStep past.now self.now }
        ensures { IfOk result (AreStepTables events.now past.now self.now) }
    {
        match self {
            Memory::Prev { operand, .. } => {
                let right = right_rows(alloc, operand.guard(), events, past)?;
                let surviving = Survivors::All;
                Ok(StepTables { surviving, right })
            }
            Memory::Once { right, .. } => {
                let right = right_rows(alloc, right, events, past)?;
                let surviving = Survivors::All;
                Ok(StepTables { surviving, right })
            }
            Memory::Since {
                window,
                left,
                left_tables,
                right,
            } => {
                let behind = past.behind(*left_tables);
                let right = right_rows(alloc, right, events, &behind)?;
                let surviving = left.survivors(alloc, window, events, past)?;
                Ok(StepTables { surviving, right })
            }
        }
    }

    /// Makes the step the last one. Once memory has run out, it answers no more calls but drop.
    pub fn commit(&mut self, alloc: Global, time: u64, tables: StepTables) -> Result<(), NoMemory>
        requires later { IsUpToTimeOf time self.old }
        requires fits { FitMemory self.old tables }
        ensures ok { OnOk result (IsCommittedTo self.old time tables self.new) }
        ensures kind { IsSameMemory self.old self.new }
    {
        let StepTables { surviving, right } = tables;
        match self {
            Memory::Prev { slot, operand } => match operand {
                Operand::Whole(_) => {
                    let rows = right.into_table(alloc)?;
                    slot.commit(alloc, time, rows)
                }
                Operand::Growing(_) => slot.grow(alloc, time, right.table()),
            },
            Memory::Once { window, .. } => window.commit_rows(
                time,
                &surviving.as_surviving(),
                right.into_rows(alloc)?,
            ),
            Memory::Since { window, .. } => window.commit_rows(
                time,
                &surviving.as_surviving(),
                right.into_rows(alloc)?,
            ),
        }
    }

    /// Whether a step with these events brings no row and lets none go: each of its operands needs an event that is
    /// not there.
    pub fn is_untouched(&self, events: &[Event]) -> bool
        ensures { IsTrue result → IsUntouched events.now self.now }
    {
        match self {
            Memory::Prev { slot, operand } => {
                slot.is_bare() && operand.guard().guard().lacks_event(events)
            }
            Memory::Once { right, .. } => right.guard().lacks_event(events),
            Memory::Since { left, right, .. } => {
                right.guard().lacks_event(events) && left.keeps_all(events)
            }
        }
    }

    /// Makes such a step the last one. Once memory has run out, it answers no more calls but drop.
    pub fn pass(&mut self, alloc: Global, time: u64) -> Result<(), NoMemory>
        requires later { IsUpToTimeOf time self.old }
        requires untouched { (events : List AnyEvent) × IsUntouched events self.old }
        ensures ok { OnOk result (IsCommittedTo self.old time (nothing_brought (columns_of self.old)) self.new) }
        ensures kind { IsSameMemory self.old self.new }
    {
        match self {
            Memory::Prev { slot, .. } => slot.pass(alloc, time),
            Memory::Once { window, .. } => window.pass(time),
            Memory::Since { window, .. } => window.pass(time),
        }
    }
}
