//! The operators on the past of guards, from the inside out.
ghost use Rattle.std.specs.Prelude.{[], IfOk, IsTrue, List, OnOk};
ghost use Rattle.enf_data.specs.declared.events.Event.{Event as AnyEvent};
ghost use Rattle.past_state.specs.machine.LazyTables.{CanAskEach, tables_at};
ghost use Rattle.past_state.specs.machine.OperatorRuns.{AreOrderedOperators, AreUpToTimeOf, Runs, AllMemoriesFit};
ghost use Rattle.past_state.specs.machine.OperatorRuns.{AllCommitted, AreSameKinds};
ghost use Rattle.past_state.specs.machine.UntouchedSteps.{AreUntouched, idle_tables};

use crate::memories::{Memory, StepTables};
use crate::operator_answers::LazyTables;
use enf_data::events::Event;
use enf_data::memory::NoMemory;
use monitorable_guard::StepEvents;
use std::alloc::Global;
use std::rc::Rc;

/// An operator on the past, with how many tables it takes: those of the outermost operators of its operands.
#[derive(Debug, Drop)]
pub struct OperatorState {
    pub taken: usize,
    pub memory: Memory,
}

/// The operators of guards, from the inside out.
#[derive(Debug, Drop)]
pub struct OperatorStates {
    pub items: Vec<OperatorState>,
}

/// What a step brings to each operator, and the numbers of the outermost operators, the first one's last.
#[derive(Debug, Drop)]
pub struct Ran {
    pub steps: Vec<StepTables>,
    pub places: Vec<usize>,
}

/// Evaluates the operators at a step, each after those of its operands.
pub fn run(
    alloc: Global,
    operators: &[OperatorState],
    time: u64,
    events: &StepEvents<'_>,
) -> Result<Ran, NoMemory>
    requires ordered { AreOrderedOperators operators.now }
    requires later { AreUpToTimeOf time operators.now }
    ensures runs { IfOk result (λ ran. Runs events.now time [] operators.now ran.steps.items
        (tables_at operators.now ran.steps.items time ran.places.items)) }
    ensures asked { IfOk result (λ ran. CanAskEach operators.now ran.steps.items time ran.places.items) }
{
    let mut steps = Vec::with_capacity(alloc, operators.len())?;
    let mut places = Vec::with_capacity(alloc, operators.len())?;
    for operator in operators {
        let past = LazyTables::of(operators, steps.as_slice(), places.as_slice(), time);
        let step = operator.memory.step_tables(alloc, events, &past)?;
        places.truncate(places.len() - operator.taken);
        places.push(steps.len())?;
        steps.push(step)?;
    }
    Ok(Ran { steps, places })
}

/// Makes the step the last one of each operator, in a copy where others share them.
pub fn commit_shared(
    operators: &mut Rc<OperatorStates>,
    time: u64,
    steps: Vec<StepTables>,
) -> Result<(), NoMemory>
    requires later { AreUpToTimeOf time operators.old.value.items.items }
    requires fits { AllMemoriesFit operators.old.value.items.items steps.items }
    ensures ok { OnOk result (AllCommitted time operators.old.value.items.items steps.items
        operators.new.value.items.items) }
    ensures kinds { AreSameKinds operators.old.value.items.items operators.new.value.items.items }
{
    let operators = Rc::make_mut(operators)?;
    commit_each(&mut operators.items, time, steps)
}

// Makes the step the last one of each operator, where nothing shares them.
fn commit_each(
    operators: &mut Vec<OperatorState>,
    time: u64,
    steps: Vec<StepTables>,
) -> Result<(), NoMemory>
    requires later { AreUpToTimeOf time operators.old.items }
    requires fits { AllMemoriesFit operators.old.items steps.items }
    ensures ok { OnOk result (AllCommitted time operators.old.items steps.items operators.new.items) }
    ensures kinds { AreSameKinds operators.old.items operators.new.items }
{
    let alloc = *steps.allocator();
    let mut place = 0;
    for step in steps {
        operators[place].memory.commit(alloc, time, step)?;
        place += 1;
    }
    Ok(())
}

/// Whether a step with these events brings no row to any operator and lets none go.
pub fn are_untouched(operators: &[OperatorState], events: &[Event]) -> bool
    ensures { IsTrue result → AreUntouched events.now operators.now }
{
    for operator in operators {
        if !operator.memory.is_untouched(events) {
            return false;
        }
    }
    true
}

/// Makes such a step the last one of each operator, in a copy where others share them.
#[inline(never)]
pub fn pass_shared(operators: &mut Rc<OperatorStates>, time: u64) -> Result<(), NoMemory>
    requires later { AreUpToTimeOf time operators.old.value.items.items }
    requires untouched { (events : List AnyEvent) × AreUntouched events operators.old.value.items.items }
    ensures ok { OnOk result (AllCommitted time operators.old.value.items.items
        (idle_tables operators.old.value.items.items) operators.new.value.items.items) }
    ensures kinds { AreSameKinds operators.old.value.items.items operators.new.value.items.items }
{
    let operators = Rc::make_mut(operators)?;
    pass_each(&mut operators.items, time)
}

// Makes such a step the last one of each operator, where nothing shares them.
fn pass_each(operators: &mut Vec<OperatorState>, time: u64) -> Result<(), NoMemory>
    requires later { AreUpToTimeOf time operators.old.items }
    requires untouched { (events : List AnyEvent) × AreUntouched events operators.old.items }
    ensures ok { OnOk result (AllCommitted time operators.old.items (idle_tables operators.old.items)
        operators.new.items) }
    ensures kinds { AreSameKinds operators.old.items operators.new.items }
{
    let alloc = *operators.allocator();
    for place in 0..operators.len() {
        operators[place].memory.pass(alloc, time)?;
    }
    Ok(())
}
