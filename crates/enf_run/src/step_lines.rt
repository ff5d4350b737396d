//! The canonical lines of steps, and those of their actions, and their way out.
ghost use Rattle.std.specs.Prelude.{◌≡◌, ◌<◌, IfErr, OnErr, OnOk, length};
ghost use Rattle.std.specs.List.{flat_map};
ghost use Rattle.enforcer_core.specs.machine.MadeSteps.{acted_step, acted_steps};
ghost use Rattle.choice_step.specs.meaning.ActedSteps.{out_step};
ghost use Rattle.action_report.specs.meaning.ReportLines.{action_line};
ghost use Rattle.formula_reader.specs.machine.StoredRules.{policy_rules_of};
ghost use Rattle.log_stream.specs.meaning.LogGrammar.{line_of};
ghost use Rattle.signature.specs.meaning.Grammar.{entry_names as names_of};
ghost use Rattle.enf_run.specs.machine.LineCuts.{CutsSteps, GivesSteps};
ghost use Rattle.enf_run.specs.machine.RunEndings.{FlushesAfter, FlushesGate, WritesText, write_faults_behind};
ghost use Rattle.enf_run.specs.meaning.LogRuns.{seen_of};

use crate::endings::Cut;
use action_report::write_action;
use enf_io::devices::{Gate, Sink};
use enf_io::writing::write_all;
use enforcer_core::steps::OutStep;
use formula_reader::Policy;
use log_stream::write_step;
use obligations::Action;
use signature::Signature;

/// The names that lines are written with: those of the events, and those of the rules and their variables.
#[derive(Clone, Copy)]
pub struct Names<'a> {
    pub signature: &'a Signature,
    pub policy: &'a Policy,
}

/// Gives the line of each step to the gate, as one piece, and after it those of its actions to the report, each as one
/// piece. By then the gate holds nothing back. They are made in `line`.
#[inline(always)]
pub fn write_steps<G: Gate, R: Sink>(
    names: &Names<'_>,
    steps: &[OutStep],
    line: &mut Vec<u8>,
    gate: &mut G,
    report: &mut R,
) -> Result<(), Cut>
    ensures whole { OnOk result
        (GivesSteps names.now.signature.now (policy_rules_of names.now.policy.now) (acted_steps steps.now)
        (seen_of (G.seen gate.old) (R.seen report.old)) (seen_of (G.seen gate.new) (R.seen report.new))) }
    ensures cut { IfErr result (λ cut.
        CutsSteps names.now.signature.now (policy_rules_of names.now.policy.now) (acted_steps steps.now) cut
        (seen_of (G.seen gate.old) (R.seen report.old)) (seen_of (G.seen gate.new) (R.seen report.new))) }
    ensures late { (G.seen gate.new).late_reads ≡ (G.seen gate.old).late_reads }
{
    for step in steps {
        write_line(names.signature, step, line, gate)?;
        hand_on_for(step.actions.as_slice(), gate)?;
        write_actions(names, step.actions.as_slice(), line, report)?;
    }
    Ok(())
}

// Hands on what the gate holds back, where lines of actions come next on the report.
#[inline(always)]
fn hand_on_for<G: Gate>(actions: &[Action], gate: &mut G) -> Result<(), Cut>
    ensures told { (G.seen gate.new).told ≡ (G.seen gate.old).told }
    ensures whole { OnOk result (0 < length actions.now → (G.seen gate.new).held ≡ 0) }
    ensures held { OnErr result (0 < (G.seen gate.new).held) }
    ensures writes { (G.seen gate.new).write_faults ≡ write_faults_behind result (G.seen gate.old).write_faults }
    ensures reads { (G.seen gate.new).read_faults ≡ (G.seen gate.old).read_faults }
    ensures late { (G.seen gate.new).late_reads ≡ (G.seen gate.old).late_reads }
{
    if actions.is_empty() {
        return Ok(());
    }
    hand_on(gate)
}

/// Hands on what the gate holds back.
pub fn hand_on<G: Gate>(gate: &mut G) -> Result<(), Cut>
    ensures { FlushesGate result (G.seen gate.old) (G.seen gate.new) }
{
    Ok(gate.flush()?)
}

/// Hands on what the gate holds back after output that ended so, where memory ran out too. Where that fails the write
/// has failed.
pub fn hand_on_after<G: Gate>(given: Result<(), Cut>, gate: &mut G) -> Result<(), Cut>
    ensures { FlushesAfter given result (G.seen gate.old) (G.seen gate.new) }
{
    match given {
        Ok(()) => hand_on(gate),
        Err(Cut::NoMemory) => {
            hand_on(gate)?;
            Err(Cut::NoMemory)
        }
        Err(Cut::WriteFault) => Err(Cut::WriteFault),
    }
}

#[inline(always)]
fn write_line<G: Sink>(
    signature: &Signature,
    step: &OutStep,
    line: &mut Vec<u8>,
    gate: &mut G,
) -> Result<(), Cut>
    ensures { WritesText (line_of (names_of signature.now) (out_step (acted_step step.now))) result
        (G.seen gate.old) (G.seen gate.new) }
{
    line.clear();
    write_step(signature, step.kind, step.time, &step.events, line)?;
    write_all(gate, line)?;
    Ok(())
}

#[inline(always)]
fn write_actions<R: Sink>(
    names: &Names<'_>,
    actions: &[Action],
    line: &mut Vec<u8>,
    report: &mut R,
) -> Result<(), Cut>
    ensures { WritesText
        (flat_map (action_line names.now.signature.now (policy_rules_of names.now.policy.now)) actions.now) result
        (R.seen report.old) (R.seen report.new) }
{
    for action in actions {
        write_report_line(names, action, line, report)?;
    }
    Ok(())
}

#[inline(always)]
fn write_report_line<R: Sink>(
    names: &Names<'_>,
    action: &Action,
    line: &mut Vec<u8>,
    report: &mut R,
) -> Result<(), Cut>
    ensures { WritesText
        (action_line names.now.signature.now (policy_rules_of names.now.policy.now) action.now) result
        (R.seen report.old) (R.seen report.new) }
{
    line.clear();
    write_action(names.signature, names.policy, action, line)?;
    write_all(report, line)?;
    Ok(())
}
