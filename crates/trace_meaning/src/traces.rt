//! Traces, step by step.
ghost use Rattle.std.specs.Prelude.{◌≡◌, ◌≤◌, [], ◌∷◌, ◌++◌, length, slice_get, IsTrue};
ghost use Rattle.std.specs.Prelude.{◌↔◌, IfErr, OnOk, OnErr};
ghost use Rattle.std.specs.Option.{option_copied};
ghost use Rattle.enf_data.specs.meaning.Data.{IsTrace};
ghost use Rattle.trace_meaning.specs.meaning.Traces.{last_time};

use enf_data::steps::Step;
use std::alloc::Global;
use std::marker::Model;

/// A list of steps without repeats, whose times never fall.
#[derive(Drop)]
pub struct Trace {
    steps: Vec<Step>,
}

impl Model for Trace {
    ghost use Rattle.std.specs.Prelude.{List};
    ghost use Rattle.enf_data.specs.meaning.Data.{IsTrace};
    ghost use Rattle.enf_data.specs.declared.steps.Step.{Step as Seen};

    ghost Value = { List Seen };

    ghost view = { λ t. t.steps.items };

    ghost invariant = { λ t. IsTrace t.steps.items };
}

impl Trace {
    /// The trace without a step.
    pub fn new(alloc: Global) -> Trace
        ensures { result ≡ [] }
    {
        Trace {
            steps: Vec::new(alloc),
        }
    }

    /// Puts a step last, or hands it back where memory runs out.
    pub fn push(&mut self, step: Step) -> Result<(), Step>
        requires { last_time self.old ≤ step.time }
        ensures ok { OnOk result (self.new ≡ self.old ++ step ∷ []) }
        ensures value_returned { IfErr result (λ back. back ≡ step) }
        ensures err { OnErr result (self.new ≡ self.old) }
        ensures trace { IsTrace self.new }
    {
        let _events = step.events.as_slice();
        self.steps.push(step).map_err(|failed| failed.value)
    }

    /// The step at a position, counted from 0.
    pub fn get(&self, position: usize) -> Option<&Step>
        ensures { option_copied result ≡ slice_get self.now position }
    {
        self.steps.get(position)
    }

    /// How many steps there are.
    pub fn len(&self) -> usize
        ensures { result ≡ length self.now }
    {
        self.steps.len()
    }

    /// Whether there is no step.
    pub fn is_empty(&self) -> bool
        ensures { IsTrue result ↔ (self.now ≡ []) }
    {
        self.steps.is_empty()
    }

    /// The steps in order.
    pub fn as_slice(&self) -> &[Step]
        ensures steps { result.now ≡ self.now }
        ensures trace { IsTrace self.now }
    {
        self.steps.as_slice()
    }
}
