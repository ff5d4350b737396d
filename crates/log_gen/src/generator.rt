//! A generated log, step by step.
ghost use Rattle.std.specs.Prelude.{◌≡◌, ◌++◌, ◌+◌, ◌<◌, ◌≤◌, IfOk, OnOk, OnErr, Ok, true};
ghost use Rattle.std.specs.Prelude.{false};
ghost use Rattle.enf_value.specs.machine.ValueCalls.{AppendsPart};
ghost use Rattle.log_gen.specs.machine.Generators.{AnswersStep, Progress, generated_line};
ghost use Rattle.log_gen.specs.meaning.GeneratedLogs.{first_draw, generated_step, generated_text, time_before};
ghost use Rattle.log_gen.specs.meaning.Samples.{sample_entries};

use crate::draws::Draws;
use crate::events::draw_events;
use crate::samples::sample_signature;
use enf_data::{NoMemory, Step};
use log_stream::write_step;
use signature::Signature;
use std::alloc::Global;
use std::marker::Model;
use trace_meaning::StepKind;

/// The greatest start.
pub const MOST_START: u32 = 2_147_483_647;

/// The greatest number of steps.
pub const MOST_STEPS: u32 = 1_000_000;

// A step that was drawn, and the draws that come after it.
#[derive(Drop)]
struct Ahead {
    step: Step,
    draws: Draws,
}

/// A log that is being generated, step by step.
#[derive(Drop)]
pub struct Generator {
    start: u32,
    made: u32,
    steps: u32,
    time: u64,
    draws: Draws,
    signature: Signature,
    alloc: Global,
}

impl Model for Generator {
    ghost use Rattle.log_gen.specs.machine.Generators.{Progress, IsUnderWay};

    ghost Value = { Progress };

    ghost view = { λ g. record { start = g.start; made = g.made; steps = g.steps } };

    ghost invariant = { λ g. IsUnderWay g.start g.made g.steps g.time g.draws g.signature };
}

impl Generator {
    /// A log of so many steps, of which none was made.
    pub fn new(alloc: Global, start: u32, steps: u32) -> Result<Generator, NoMemory>
        requires start { start ≤ MOST_START }
        requires steps { steps ≤ MOST_STEPS }
        ensures { IfOk result (λ log. log ≡ record { start = start; made = 0; steps = steps }) }
    {
        Ok(Generator {
            start,
            made: 0,
            steps,
            time: 0,
            draws: Draws::new(start),
            signature: read_sample(alloc)?,
            alloc,
        })
    }

    /// The sample signature, which gives the names of the events their numbers.
    pub fn signature(&self) -> &Signature
        ensures { result.now ≡ sample_entries }
    {
        &self.signature
    }

    /// Makes the next step, where there is one. Where memory runs out, it is still the next.
    pub fn next_step(&mut self) -> Result<Option<Step>, NoMemory>
        ensures answer { IfOk result (λ step. AnswersStep self.old step self.new) }
        ensures left { OnErr result (self.old.made < self.old.steps) }
        ensures no_memory { OnErr result (self.new ≡ self.old) }
    {
        if self.made == self.steps {
            return Ok(None);
        }
        let Ahead { step, draws } = self.look_ahead()?;
        self.go_on(step.time, draws);
        Ok(Some(step))
    }

    /// Makes the next step and appends its line, and answers whether there was one. Where memory runs out, a front of
    /// the line is appended, and the step is still the next.
    pub fn append_line(&mut self, out: &mut Vec<u8>) -> Result<bool, NoMemory>
        ensures line { result ≡ Ok true
            → out.new.items ≡ out.old.items ++ generated_line self.old.start self.old.made }
        ensures made { result ≡ Ok true → self.new ≡ record self.old { made = self.old.made + 1 } }
        ensures more { result ≡ Ok true → self.old.made < self.old.steps }
        ensures done { result ≡ Ok false → self.old.made ≡ self.old.steps }
        ensures rest { result ≡ Ok false → out.new.items ≡ out.old.items }
        ensures whole { result ≡ Ok false → self.new ≡ self.old }
        ensures left { OnErr result (self.old.made < self.old.steps) }
        ensures no_memory { OnErr result (self.new ≡ self.old) }
        ensures part { OnErr result (AppendsPart (generated_line self.old.start self.old.made)
            out.old.items out.new.items) }
    {
        if self.made == self.steps {
            return Ok(false);
        }
        let Ahead { step, draws } = self.look_ahead()?;
        write_step(
            &self.signature,
            StepKind::System,
            step.time,
            &step.events,
            out,
        )?;
        self.go_on(step.time, draws);
        Ok(true)
    }

    // The step that comes next.
    fn look_ahead(&self) -> Result<Ahead, NoMemory>
        requires { self.now.made < self.now.steps }
        ensures step { IfOk result (λ ahead. ahead.step ≡ generated_step self.now.start self.now.made) }
        ensures draws { IfOk result (λ ahead. ahead.draws
            ≡ record { start = self.now.start; made = first_draw self.now.start (self.now.made + 1) }) }
    {
        let mut draws = self.draws.again();
        let time = self.time + draws.next() % 8;
        let events = draw_events(self.alloc, &mut draws)?;
        Ok(Ahead {
            step: Step { time, events },
            draws,
        })
    }

    // One step more was made, at this time, and these draws come after it.
    fn go_on(&mut self, time: u64, draws: Draws)
        requires more { self.old.made < self.old.steps }
        requires time { time ≡ time_before self.old.start (self.old.made + 1) }
        requires draws { draws
            ≡ record { start = self.old.start; made = first_draw self.old.start (self.old.made + 1) } }
        ensures { self.new ≡ record self.old { made = self.old.made + 1 } }
    {
        self.draws = draws;
        self.time = time;
        self.made += 1;
    }
}

/// Appends the log of so many steps; where memory runs out, a front of it is appended.
pub fn generate(alloc: Global, start: u32, steps: u32, out: &mut Vec<u8>) -> Result<(), NoMemory>
    requires start { start ≤ MOST_START }
    requires steps { steps ≤ MOST_STEPS }
    ensures ok { OnOk result (out.new.items ≡ out.old.items ++ generated_text start steps) }
    ensures err { OnErr result (AppendsPart (generated_text start steps) out.old.items out.new.items) }
{
    let mut log = Generator::new(alloc, start, steps)?;
    while log.append_line(out)? {}
    Ok(())
}

fn read_sample(alloc: Global) -> Result<Signature, NoMemory>
    ensures { IfOk result (λ signature. signature ≡ sample_entries) }
{
    match Signature::read(alloc, sample_signature()) {
        Ok(signature) => Ok(signature),
        Err(_refusal) => Err(NoMemory),
    }
}
