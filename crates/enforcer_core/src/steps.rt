//! The steps that an enforcer gives, and its refusals.
ghost use Rattle.enforcer_core.specs.declared.steps.StepRefusal.TheVariants.{NoMemory as OutOfMemory};
ghost use Rattle.enforcer_core.specs.machine.Answers.{refused_as};
ghost use Rattle.std.specs.Prelude.{◌≡◌, ◌↔◌, ◌++◌, ◌∷◌, [], IfOk, IfSome, IsTrue, length};

use choice_step::Actions;
use enf_data::Event;
use enf_data::event_sets::EventSet;
use enf_data::memory::NoMemory;
use std::marker::Model;
use std::slice;
use trace_meaning::kinds::StepKind;

/// A step that is emitted, with the actions that made it, in their order.
#[derive(Drop)]
pub struct OutStep {
    pub kind: StepKind,
    pub time: u64,
    pub events: EventSet,
    pub actions: Actions,
}

/// A list of steps that are emitted. One alone takes no memory.
#[derive(Drop)]
pub struct OutSteps {
    steps: Kept,
}

// One step by itself, or as many as there are.
#[derive(Drop)]
pub(crate) enum Kept {
    One(OutStep),
    Many(Vec<OutStep>),
}

impl Model for OutSteps {
    ghost use Rattle.std.specs.Prelude.{List};
    ghost use Rattle.enforcer_core.specs.declared.steps.OutStep.{OutStep};
    ghost use Rattle.enforcer_core.specs.machine.MadeSteps.{kept_steps};
    ghost use Rattle.std.specs.Coded.{codes};
    ghost use Rattle.enforcer_core.specs.contracts.steps.OutStep as step;

    ghost Value = { List OutStep };

    ghost coded = { Prim.hlevel (codes, step.the_row.coded) };

    ghost view = { λ s. kept_steps s.steps };
}

impl OutSteps {
    /// The steps of a vector; it takes no memory.
    pub fn from_vec(steps: Vec<OutStep>) -> OutSteps
        ensures { result ≡ steps.items }
    {
        OutSteps {
            steps: Kept::Many(steps),
        }
    }

    // One step alone; it takes no memory.
    pub(crate) fn one(step: OutStep) -> OutSteps
        ensures { result ≡ step ∷ [] }
    {
        OutSteps {
            steps: Kept::One(step),
        }
    }

    // Steps, and one more after them.
    pub(crate) fn and_last(mut steps: Vec<OutStep>, last: OutStep) -> Result<OutSteps, NoMemory>
        ensures { IfOk result (λ all. all ≡ steps.items ++ last ∷ []) }
    {
        if steps.is_empty() {
            return Ok(OutSteps::one(last));
        }
        steps.push(last)?;
        Ok(OutSteps::from_vec(steps))
    }

    /// How many steps there are.
    pub fn len(&self) -> usize
        ensures { result ≡ length self.now }
    {
        self.as_slice().len()
    }

    /// Whether there is no step.
    pub fn is_empty(&self) -> bool
        ensures { IsTrue result ↔ (self.now ≡ []) }
    {
        self.as_slice().is_empty()
    }

    /// Memory that the events of one step alone took.
    pub fn into_room(self) -> Option<Vec<Event>>
        ensures { IfSome result (λ room. room.items ≡ []) }
    {
        match self.steps {
            Kept::One(step) => step.events.into_room(),
            Kept::Many(_) => None,
        }
    }

    /// The steps in order.
    pub fn as_slice(&self) -> &[OutStep]
        ensures { result.now ≡ self.now }
    {
        match &self.steps {
            Kept::One(step) => slice::from_ref(step),
            Kept::Many(steps) => steps.as_slice(),
        }
    }
}

/// What one call lets out.
#[derive(Drop)]
pub struct StepOut {
    pub steps: OutSteps,
}

/// Why a step was not taken.
#[derive(Clone, Copy, Debug, PartialEq, Eq)]
pub enum StepRefusal {
    /// The given time is below the clock.
    Falling { clock: u64, given: u64 },
    /// An earlier call ran out of memory.
    Stopped,
    NoMemory,
}

// Why a call is not taken.
#[derive(Clone, Copy, Debug, PartialEq, Eq)]
pub(crate) enum Untaken {
    Falling { clock: u64, given: u64 },
    Stopped,
}

impl From<Untaken> for StepRefusal {
    ghost from_gives = { λ untaken refusal. refusal ≡ refused_as untaken };

    fn from(untaken: Untaken) -> StepRefusal {
        match untaken {
            Untaken::Falling { clock, given } => StepRefusal::Falling { clock, given },
            Untaken::Stopped => StepRefusal::Stopped,
        }
    }
}

impl From<NoMemory> for StepRefusal {
    ghost from_gives = { λ _ refusal. refusal ≡ OutOfMemory };

    fn from(_no_memory: NoMemory) -> StepRefusal {
        StepRefusal::NoMemory
    }
}
