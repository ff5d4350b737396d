//! A drill: a generated log is enforced under the sample policy, step by step as it is generated. What is emitted is
//! counted and let go, so that no more is held than an enforcer holds.
ghost use Rattle.std.specs.Prelude.{◌≡◌, ◌++◌, ◌+◌, ◌*◌, ◌∷◌, ◌<◌, ◌≤◌, ◌^◌, ℕ};
ghost use Rattle.std.specs.Prelude.{[], IfErr, IfOk, OnOk, false, if◌then◌else◌, length};
ghost use Rattle.choice_step.specs.meaning.Follows.{is_inserted};
ghost use Rattle.enforce_types.specs.meaning.Elab.{ArePlanned};
ghost use Rattle.enforce_types.specs.machine.TypedPolicies.{typed_of};
ghost use Rattle.enforcer_core.specs.machine.MadeSteps.{acted_step, acted_steps};
ghost use Rattle.enforcer_core.specs.machine.StepMemory.{most_positions};
ghost use Rattle.log_gen.specs.meaning.Samples.{sample_entries, sample_rules};
ghost use Rattle.trace_meaning.specs.meaning.Traces.{StepRecord, most_time};
ghost use Rattle.trace_meaning.specs.declared.kinds.StepKind.TheVariants.{System};
ghost use Rattle.enf_run.specs.machine.DrillRuns.{TallyAtMost, FinishesDrill, IsNewDrill, TakesCounted};
ghost use Rattle.enf_run.specs.machine.DrillRuns.{tally_with, SampleDrillFinds};
ghost use Rattle.enf_run.specs.meaning.Reports.{count_text, drill_line, is_cause, is_suppression};
ghost use Rattle.enf_run.specs.meaning.Reports.{is_system};
ghost use Rattle.enf_run.specs.machine.RunEndings.{WritesText};
ghost use Rattle.enf_run.specs.meaning.Headline.{all_formulas};

use crate::endings::Cut;
use crate::log_run::enforcer_laws;
use enf_data::{NoMemory, Step};
use enf_io::devices::Sink;
use enf_io::writing::write_all;
use enf_value::print_bytes;
use enforce_types::laws::accepted_is_not_refused;
use enforce_types::{TypeRefusal, TypedPolicy};
use enforcer_core::{Enforcer, OutStep};
use formula_reader::PolicyRefusal;
use itoa::Buffer;
use log_gen::{Generator, MOST_START, MOST_STEPS, sample_policy};
use obligations::{Action, LiteralKind};
use signature::Signature;
use std::alloc::Global;
use trace_meaning::StepKind;

/// What was emitted, counted: steps of the log and inserted ones, and the actions that caused an event or suppressed
/// one.
#[derive(Clone, Copy, Debug)]
pub struct Tally {
    pub steps: u128,
    pub inserted: u128,
    pub caused: u128,
    pub suppressed: u128,
}

/// What a drill finds: what was emitted in all, and how many rows were kept and how many instances were pending after
/// the log, before the rest was served.
#[derive(Clone, Copy, Debug)]
pub struct Drilled {
    pub tally: Tally,
    pub kept: usize,
    pub pending: usize,
}

/// An enforcer of the sample policy, and what was emitted so far.
#[derive(Drop)]
pub struct Drill {
    enforcer: Enforcer,
    tally: Tally,
}

/// Gives the line of what a drill found.
pub fn give_drill<S: Sink>(alloc: Global, found: &Drilled, sink: &mut S) -> Result<(), Cut>
    ensures { WritesText (drill_line found.now) result (S.seen sink.old) (S.seen sink.new) }
{
    let mut line = Vec::new(alloc);
    append_line(found, &mut line)?;
    Ok(write_all(sink, &line)?)
}

/// Enforces the generated log of so many steps.
pub fn drill_log(alloc: Global, start: u32, steps: u32) -> Result<Drilled, NoMemory>
    requires start { start ≤ MOST_START }
    requires steps { steps ≤ MOST_STEPS }
    ensures { IfOk result (SampleDrillFinds start steps) }
{
    let mut log = Generator::new(alloc, start, steps)?;
    let mut drill = Drill::new(alloc, log.signature())?;
    drill.run(alloc, &mut log)
}

impl Drill {
    // A drill in which nothing was emitted.
    fn new(alloc: Global, signature: &Signature) -> Result<Drill, NoMemory>
        requires { signature.now ≡ sample_entries }
        ensures { IfOk result IsNewDrill }
    {
        let policy = typed_sample(alloc, signature)?;
        Ok(Drill {
            enforcer: Enforcer::new(alloc, policy)?,
            tally: Tally {
                steps: 0,
                inserted: 0,
                caused: 0,
                suppressed: 0,
            },
        })
    }

    // Enforces the whole log.
    fn run(&mut self, alloc: Global, log: &mut Generator) -> Result<Drilled, NoMemory>
        requires new { IsNewDrill self.old }
        requires begins { log.old.made ≡ 0 }
        requires steps { log.old.steps ≤ MOST_STEPS }
        ensures { IfOk result (SampleDrillFinds log.old.start log.old.steps) }
    {
        enforcer_laws();
        while let Some(step) = log.next_step()? {
            self.take(alloc, step)?;
        }
        self.finish(alloc)
    }

    // Enforces a step more, and counts what is emitted for it.
    fn take(&mut self, alloc: Global, step: Step) -> Result<(), NoMemory>
        requires time { step.time ≤ most_time System }
        requires room { self.old.enforcer.position < most_positions }
        requires counts { TallyAtMost (2 ^ 126) self.old.tally }
        ensures { OnOk result (TakesCounted self.old (StepRecord step) self.new) }
    {
        match self.enforcer.step(alloc, step.time, step.events) {
            Ok(out) => {
                self.tally.count(out.steps.as_slice());
                Ok(())
            }
            // The times of a generated log never fall.
            Err(_refusal) => Err(NoMemory),
        }
    }

    // Counts what is kept and pending, and what is emitted where all that is pending is served.
    fn finish(&mut self, alloc: Global) -> Result<Drilled, NoMemory>
        requires goes_on { self.old.enforcer.stopped ≡ false }
        requires room { self.old.enforcer.position < most_positions }
        requires counts { TallyAtMost (2 ^ 126) self.old.tally }
        ensures { IfOk result (FinishesDrill self.old) }
    {
        let state = self.enforcer.snapshot(alloc)?;
        match self.enforcer.drain(alloc) {
            Ok(out) => {
                self.tally.count(out.steps.as_slice());
                Ok(Drilled {
                    tally: self.tally,
                    kept: state.kept.len(),
                    pending: state.pending.len(),
                })
            }
            // No time is given, so none falls.
            Err(_refusal) => Err(NoMemory),
        }
    }
}

// The plans of the sample policy.
fn typed_sample(alloc: Global, signature: &Signature) -> Result<TypedPolicy, NoMemory>
    requires { signature.now ≡ sample_entries }
    ensures { IfOk result (λ typed. ArePlanned sample_entries (all_formulas sample_rules)
        (typed_of typed).plans (typed_of typed).guards) }
{
    accepted_is_not_refused();
    let policy = match formula_reader::read_policy(alloc, signature, sample_policy()) {
        Ok(policy) => policy,
        Err(why) => {
            prove!(matches!(why, PolicyRefusal::NoMemory));
            return Err(NoMemory);
        }
    };
    match TypedPolicy::of(alloc, signature, &policy) {
        Ok(typed) => Ok(typed),
        Err(why) => {
            prove!(matches!(why, TypeRefusal::NoMemory));
            Err(NoMemory)
        }
    }
}

impl Tally {
    // Counts steps that were emitted, and their actions.
    fn count(&mut self, out: &[OutStep])
        requires { TallyAtMost (2 ^ 126) self.old }
        ensures counted { self.new ≡ tally_with self.old (acted_steps out.now) }
        ensures few { (most : ℕ) → TallyAtMost most self.old
            → TallyAtMost (most + length out.now * 2 ^ 63) self.new }
    {
        for step in out {
            self.count_step(step);
        }
    }

    fn count_step(&mut self, step: &OutStep)
        requires { TallyAtMost (2 ^ 127) self.old }
        ensures counted { self.new ≡ tally_with self.old (acted_step step.now ∷ []) }
        ensures few { (most : ℕ) → TallyAtMost most self.old → TallyAtMost (most + 2 ^ 63) self.new }
    {
        self.count_kind(step.kind);
        let actions = step.actions.as_slice();
        self.caused += actions.iter().filter(|action| is_cause(action)).count() as u128;
        self.suppressed += actions
            .iter()
            .filter(|action| is_suppression(action))
            .count() as u128;
    }

    fn count_kind(&mut self, kind: StepKind)
        requires { TallyAtMost (2 ^ 127) self.old }
        ensures { self.new ≡ record self.old {
          steps = self.old.steps + (if is_system kind then 1 else 0);
          inserted = self.old.inserted + (if is_inserted kind then 1 else 0);
        } }
    {
        match kind {
            StepKind::System => self.steps += 1,
            StepKind::Inserted => self.inserted += 1,
        }
    }
}

fn is_cause(action: &Action) -> bool
    ensures { result ≡ is_cause action.now.kind }
{
    match action.kind {
        LiteralKind::Cause => true,
        LiteralKind::Suppress => false,
    }
}

fn is_suppression(action: &Action) -> bool
    ensures { result ≡ is_suppression action.now.kind }
{
    match action.kind {
        LiteralKind::Cause => false,
        LiteralKind::Suppress => true,
    }
}

fn append_line(found: &Drilled, line: &mut Vec<u8>) -> Result<(), NoMemory>
    ensures { OnOk result (line.new.items ≡ line.old.items ++ drill_line found.now) }
{
    append_count(b"steps ", found.tally.steps, line)?;
    append_count(b" inserted ", found.tally.inserted, line)?;
    append_count(b" caused ", found.tally.caused, line)?;
    append_count(b" suppressed ", found.tally.suppressed, line)?;
    append_count(b" kept ", found.kept as u128, line)?;
    append_count(b" pending ", found.pending as u128, line)?;
    print_bytes(b"\n", line)
}

fn append_count(name: &[u8], count: u128, line: &mut Vec<u8>) -> Result<(), NoMemory>
    ensures { OnOk result (line.new.items ≡ line.old.items ++ count_text name.now count) }
{
    let mut digits = Buffer::new();
    print_bytes(name, line)?;
    print_bytes(digits.format(count).as_bytes(), line)
}
