//! The top call: all that the program does.
ghost use Rattle.std.specs.Prelude.{◌≡◌, ◌<◌, ◌≤◌, ◌^◌, ℕ, List, IfErr, IfOk, Ok, OnOk, length};
ghost use Rattle.std.specs.Prelude.{map, string_bytes};
ghost use Rattle.std.specs.Option.{option_map};
ghost use Rattle.enf_io.specs.meaning.Files.{FileView};
ghost use Rattle.enf_io.specs.meaning.Exchange.{Stream};
ghost use Rattle.enf_run.specs.meaning.Calls.{call_of, devices_of, IsAuditForm, IsCheckForm, IsDrillForm};
ghost use Rattle.enf_run.specs.meaning.Calls.{IsEnforceForm, IsGenerateForm};
ghost use Rattle.enf_run.specs.meaning.Outcomes.{Dues, RunOutcome};
ghost use Rattle.enf_run.specs.machine.FileReads.{HoldsPolicy, HoldsSignature};
ghost use Rattle.enf_run.specs.meaning.HandedOn.{HandsOnAll};
ghost use Rattle.enf_run.specs.meaning.Headline.{Headline, all_formulas};
ghost use Rattle.enf_run.specs.machine.CommandForms.{states_of};
ghost use Rattle.enf_run.specs.machine.LogRunEnds.{conclusion_of, RunsLogSo};
ghost use Rattle.enf_run.specs.machine.FormOutcomes.{AuditOutcome, CheckOutcome, DrillOutcome, EnforceOutcome};
ghost use Rattle.enf_run.specs.machine.FormOutcomes.{GenerateOutcome};
ghost use Rattle.enf_run.specs.machine.EnforceTurns.{IsNewLog};
ghost use Rattle.enf_run.specs.machine.RunEndings.{Concludes, HandsOnWork};
ghost use Rattle.enf_run.specs.meaning.LogRuns.{seen_of};
ghost use Rattle.enf_run.specs.meaning.Sources.{SpellsSignature};
ghost use Rattle.enf_run.specs.machine.LogStarts.{BeginsLog, EndsStart, typed_bounds};
ghost use Rattle.enf_data.specs.declared.limits.TheConstants.{MOST_FILE_BYTES};
ghost use Rattle.enforce_types.specs.meaning.PolicyRefusals.{IsTyped};
ghost use Rattle.enforce_types.specs.meaning.Elab.{is_causable, is_suppressible, ArePlanned};
ghost use Rattle.enforce_types.specs.machine.PolicyLaws.{KeepsToSignature};
ghost use Rattle.enforce_types.specs.machine.TypedPolicies.{WorkTogether, typed_of};
ghost use Rattle.enforcer_core.specs.machine.LawfulChanges.{Permits};
ghost use Rattle.enforcer_core.specs.machine.Enforcers.{enforcer_plans};
ghost use Rattle.signature.specs.meaning.Refusals.{AnswersSignature};
ghost use Rattle.formula_reader.specs.meaning.Resolution.{Rule};
ghost use Rattle.formula_reader.specs.machine.StoredRules.{policy_rules_of};

use crate::audits::{audit_log, finish_of, write_verdict};
use crate::checks::give_check;
use crate::drills::{drill_log, give_drill};
use crate::endings::{Ending, Finish};
use crate::files::{read_policy, read_policy_with_seed, read_signature, read_state};
use crate::generated_log::give_log;
use crate::intake::{Judged, Verdict};
use crate::log_run::{Enforcement, enforce_log};
use crate::refusals::{Refusal, Status};
use crate::report_lines::report_ending;
use crate::saved_state::{Sources, save_where_asked};
use crate::step_lines::{Names, hand_on_after};
use crate::words::{Form, States, form_of};
use enf_data::Seed;
use enf_io::devices::{Files, Gate, Sink};
use enforce_types::TypedPolicy;
use enforce_types::laws::{plans_are_well_formed, policy_has_one_answer};
use enforcer_core::laws::kept_can_be_taken_up;
use log_gen::{MOST_START, MOST_STEPS};
use obligations::laws::{pending_can_be, pending_is_one};
use save_codec::laws::one_state;
use signature::Signature;
use std::alloc::Global;
use trace_audit::laws::{verdict_is_of_policy, verdict_is_one};

/// Does what the words ask for: `enforce SIG POLICY` takes the log from the gate and gives the enforced log to it,
/// with `--resume FILE` after it from a state on that was saved, and with `--save FILE` it saves the state at the end
/// of the input, in place of giving what is still owed then; `check SIG POLICY` gives what is to be said of the policy,
/// `audit SIG POLICY` takes a whole log and gives the verdict on it, `gen START N` gives a generated log,
/// `drill START N` enforces one and gives counts. The report says each action that `enforce` takes, and why a run ends
/// early.
pub fn run<G: Gate, F: Files, R: Sink>(
    alloc: Global,
    words: &[String],
    gate: &mut G,
    files: &mut F,
    report: &mut R,
) -> Status
    // What holds at each status, by the form of the words.
    ensures outcome { RunOutcome (call_of words.now
        (devices_of gate.old (G.seen gate.old) (F.seen files.old) (R.seen report.old))
        (devices_of gate.new (G.seen gate.new) (F.seen files.new) (R.seen report.new))) result }

    // Where each status must come by the form of the words, unless the run breaks off by a fault or running out of
    // memory.
    ensures due { Dues (call_of words.now
        (devices_of gate.old (G.seen gate.old) (F.seen files.old) (R.seen report.old))
        (devices_of gate.new (G.seen gate.new) (F.seen files.new) (R.seen report.new))) result }

    // What is held back of what the gate was given, at each read and at the end.
    ensures handed_on { HandsOnAll (G.seen gate.old) (G.seen gate.new) result }

    // What has become of a log that was enforced under an accepted policy, where files and gate tell.
    ensures headline { Headline (map string_bytes words.now) (F.seen files.old) (F.seen files.new)
        (G.seen gate.old) (G.seen gate.new) (R.seen report.old) (R.seen report.new) result }
{
    signature::laws::one_answer();
    formula_reader::laws::one_text_answer();
    log_stream::laws::one_answer();
    formula_reader::laws::read_is_well_formed();
    enforce_types::laws::accepted_is_not_refused();
    plans_are_well_formed();
    policy_has_one_answer();
    save_codec::laws::one_text();
    save_codec::laws::one_answer();
    verdict_is_one();
    match perform(alloc, words, gate, files, report) {
        Ok(Finish::Done) => Status::Done,
        Ok(Finish::Violated) => Status::Violated,
        Err(ending) => report_ending(&ending, report),
    }
}

// Does what the words ask for, but for the line on the report that says why it ends early.
fn perform<G: Gate, F: Files, R: Sink>(
    alloc: Global,
    words: &[String],
    gate: &mut G,
    files: &mut F,
    report: &mut R,
) -> Result<Finish, Ending>
    ensures outcome { (after : Stream) (status : Status) → Concludes result (R.seen report.new) after status →
        RunOutcome (call_of words.now
        (devices_of gate.old (G.seen gate.old) (F.seen files.old) (R.seen report.old))
        (devices_of gate.new (G.seen gate.new) (F.seen files.new) after)) status }
    ensures handed { HandsOnWork (G.seen gate.old) (G.seen gate.new) result }
{
    match form_of(words) {
        Some(
            Form::Enforce {
                signature,
                policy,
                resume,
                save,
            },
        ) => {
            let states = States { resume, save };
            enforce(alloc, signature, policy, states, gate, files, report)
        }
        Some(Form::Check { signature, policy }) => check(alloc, signature, policy, gate, files),
        Some(Form::Audit { signature, policy }) => audit(alloc, signature, policy, gate, files),
        Some(Form::Generate { start, steps }) => generate(alloc, start, steps, gate),
        Some(Form::Drill { start, steps }) => drill(alloc, start, steps, gate),
        None => Err(Ending::Refused(Refusal::Words)),
    }
}

// Enforces the policy on the log that the gate gives, and saves the state at its end where a file is named for it.
fn enforce<G: Gate, F: Files, R: Sink>(
    alloc: Global,
    signature_file: &str,
    policy_file: &str,
    states: States<'_>,
    gate: &mut G,
    files: &mut F,
    report: &mut R,
) -> Result<Finish, Ending>
    ensures outcome { (words : List (List ℕ)) (after : Stream) (status : Status) →
        IsEnforceForm (states_of (option_map (λ file. file.now) states.entry.resume)
        (option_map (λ file. file.now) states.entry.save)) words signature_file.now policy_file.now →
        Concludes result (R.seen report.new) after status → EnforceOutcome (record {
          words = words;
          before = devices_of gate.old (G.seen gate.old) (F.seen files.old) (R.seen report.old);
          after = devices_of gate.new (G.seen gate.new) (F.seen files.new) after;
        }) status }
    ensures handed { HandsOnWork (G.seen gate.old) (G.seen gate.new) result }
{
    let read = read_signature(alloc, files, signature_file)?;
    let accepted = read_policy_with_seed(alloc, files, policy_file, &read.signature)?;
    let typed = accepted.typed;
    let seed = accepted.seed;
    let names = Names {
        signature: &read.signature,
        policy: &accepted.policy,
    };
    let signature = read.bytes.as_slice();
    let policy = accepted.bytes.as_slice();
    let sources = Sources { signature, policy };
    enforce_accepted(
        alloc, &names, sources, typed, seed, states, gate, files, report,
    )
}

// Enforces an accepted policy of which the signature and the policy were read from these sources.
fn enforce_accepted<G: Gate, F: Files, R: Sink>(
    alloc: Global,
    names: &Names<'_>,
    sources: Sources<'_>,
    typed: TypedPolicy,
    seed: Seed,
    states: States<'_>,
    gate: &mut G,
    files: &mut F,
    report: &mut R,
) -> Result<Finish, Ending>
    requires spells { SpellsSignature sources.signature.now names.now.signature.now }
    requires typed { IsTyped names.now.signature.now (all_formulas (policy_rules_of names.now.policy.now))
        (typed_of typed) }
    requires kept { KeepsToSignature names.now.signature.now (typed_of typed).plans (typed_of typed).guards }
    ensures outcome { (words : List (List ℕ)) (signature policy : List ℕ) (after : Stream) (status : Status) →
        IsEnforceForm (states_of (option_map (λ file. file.now) states.entry.resume)
        (option_map (λ file. file.now) states.entry.save)) words signature policy →
        HoldsSignature (F.seen files.old).contents signature sources.entry.signature.now names.now.signature.now →
        HoldsPolicy (F.seen files.old).contents policy sources.entry.policy.now names.now.signature.now
        (policy_rules_of names.now.policy.now) →
        Concludes result (R.seen report.new) after status → EnforceOutcome (record {
          words = words;
          before = devices_of gate.old (G.seen gate.old) (F.seen files.old) (R.seen report.old);
          after = devices_of gate.new (G.seen gate.new) (F.seen files.new) after;
        }) status }
    ensures handed { HandsOnWork (G.seen gate.old) (G.seen gate.new) result }
{
    policy_has_one_answer();
    pending_is_one();
    kept_can_be_taken_up();
    let mut log = begin_log(
        alloc,
        files,
        seed,
        states.resume,
        sources,
        names.signature,
        typed,
    )?;
    run_log(
        alloc,
        names,
        sources,
        states.save,
        &mut log,
        gate,
        files,
        report,
    )?;
    Ok(Finish::Done)
}

// A log of which nothing was taken yet, to be enforced from nothing on; or from a state, where the file of one is
// named.
fn begin_log<F: Files>(
    alloc: Global,
    files: &mut F,
    seed: Seed,
    resume: Option<&str>,
    sources: Sources<'_>,
    signature: &Signature,
    typed: TypedPolicy,
) -> Result<Enforcement, Ending>
    requires short { length sources.signature.now ≤ MOST_FILE_BYTES }
    requires spells { AnswersSignature sources.signature.now (Ok signature.now) }
    ensures begun { (rules : List Rule) →
        ArePlanned signature.now (all_formulas rules) (typed_of typed).plans (typed_of typed).guards →
        IfOk result (BeginsLog (option_map (λ file. file.now) resume.entry) (F.seen files.old).contents signature.now
        rules sources.entry.signature.now sources.entry.policy.now typed) }
    ensures same { OnOk result (F.seen files.new ≡ F.seen files.old) }
    ensures ends { IfErr result (EndsStart (option_map (λ file. file.now) resume.entry) sources.entry.signature.now
        sources.entry.policy.now (typed_bounds signature.now (typed_of typed)) (F.seen files.old) (F.seen files.new)) }
{
    policy_has_one_answer();
    one_state();
    pending_can_be();
    pending_is_one();
    // Its clause says that they are well-formed.
    let _plans = typed.plans();
    let Some(file) = resume else {
        return Ok(Enforcement::new(alloc, seed, signature, typed)?);
    };
    let state = read_state(alloc, files, file, sources, &typed)?;
    Ok(Enforcement::resumed(alloc, seed, signature, typed, state)?)
}

// Enforces the log from where the enforcer stands, and saves the state at its end where a file is named for it.
fn run_log<G: Gate, F: Files, R: Sink>(
    alloc: Global,
    names: &Names<'_>,
    sources: Sources<'_>,
    save: Option<&str>,
    log: &mut Enforcement,
    gate: &mut G,
    files: &mut F,
    report: &mut R,
) -> Result<(), Ending>
    requires new { IsNewLog names.now.signature.now log.old }
    requires permits { Permits (is_causable names.now.signature.now) (is_suppressible names.now.signature.now)
        (enforcer_plans log.old.enforcer) }
    requires together { WorkTogether (typed_of log.old.enforcer.policy) }
    ensures ran { RunsLogSo (option_map (λ file. file.now) save.entry) sources.entry.signature.now
        sources.entry.policy.now names.now.signature.now (policy_rules_of names.now.policy.now) log.old.enforcer
        (F.seen files.old)
        (F.seen files.new)
        (seen_of (G.seen gate.old) (R.seen report.old)) (seen_of (G.seen gate.new) (R.seen report.new)) result }
    ensures handed { HandsOnWork (G.seen gate.old) (G.seen gate.new) result }
{
    let saves = save.is_some();
    let judged = enforce_log(alloc, names, saves, log, gate, report)?;
    conclude(judged)?;
    save_where_asked(alloc, save, sources, log.enforcer(), files)?;
    Ok(())
}

// Gives what is to be said of the policy.
fn check<G: Gate, F: Files>(
    alloc: Global,
    signature_file: &str,
    policy_file: &str,
    gate: &mut G,
    files: &mut F,
) -> Result<Finish, Ending>
    ensures outcome { (words : List (List ℕ)) (report after : Stream) (status : Status) →
        IsCheckForm words signature_file.now policy_file.now →
        Concludes result report after status → CheckOutcome (record {
          words = words;
          before = devices_of gate.old (G.seen gate.old) (F.seen files.old) report;
          after = devices_of gate.new (G.seen gate.new) (F.seen files.new) after;
        }) status }
    ensures handed { HandsOnWork (G.seen gate.old) (G.seen gate.new) result }
{
    let read = read_signature(alloc, files, signature_file)?;
    let accepted = read_policy(alloc, files, policy_file, &read.signature)?;
    let rules = accepted.policy.rules.as_slice();
    let given = give_check(alloc, &read.signature, rules, &accepted.typed, gate);
    hand_on_after(given, gate)?;
    Ok(Finish::Done)
}

// Audits the log that the gate gives, and gives the verdict on it.
fn audit<G: Gate, F: Files>(
    alloc: Global,
    signature_file: &str,
    policy_file: &str,
    gate: &mut G,
    files: &mut F,
) -> Result<Finish, Ending>
    ensures outcome { (words : List (List ℕ)) (report after : Stream) (status : Status) →
        IsAuditForm words signature_file.now policy_file.now →
        Concludes result report after status → AuditOutcome (record {
          words = words;
          before = devices_of gate.old (G.seen gate.old) (F.seen files.old) report;
          after = devices_of gate.new (G.seen gate.new) (F.seen files.new) after;
        }) status }
    ensures handed { HandsOnWork (G.seen gate.old) (G.seen gate.new) result }
{
    verdict_is_of_policy();
    let read = read_signature(alloc, files, signature_file)?;
    let accepted = read_policy_with_seed(alloc, files, policy_file, &read.signature)?;
    let audited = audit_log(alloc, accepted.seed, &read.signature, &accepted.typed, gate)?;
    conclude(audited.judged)?;
    let given = write_verdict(audited.found, &accepted.policy, gate);
    hand_on_after(given, gate)?;
    Ok(finish_of(audited.found))
}

// Gives the generated log of so many steps.
fn generate<G: Gate>(alloc: Global, start: u32, steps: u32, gate: &mut G) -> Result<Finish, Ending>
    requires start { start ≤ MOST_START }
    requires steps { steps ≤ MOST_STEPS }
    ensures outcome { (words : List (List ℕ)) (files : FileView) (report after : Stream) (status : Status) →
        IsGenerateForm words start steps → Concludes result report after status → GenerateOutcome (record {
          words = words;
          before = devices_of gate.old (G.seen gate.old) files report;
          after = devices_of gate.new (G.seen gate.new) files after;
        }) status }
    ensures handed { HandsOnWork (G.seen gate.old) (G.seen gate.new) result }
{
    let given = give_log(alloc, start, steps, gate);
    hand_on_after(given, gate)?;
    Ok(Finish::Done)
}

// Enforces the generated log of so many steps, and gives what was found.
fn drill<G: Gate>(alloc: Global, start: u32, steps: u32, gate: &mut G) -> Result<Finish, Ending>
    requires start { start ≤ MOST_START }
    requires steps { steps ≤ MOST_STEPS }
    ensures outcome { (words : List (List ℕ)) (files : FileView) (report after : Stream) (status : Status) →
        IsDrillForm words start steps → Concludes result report after status → DrillOutcome (record {
          words = words;
          before = devices_of gate.old (G.seen gate.old) files report;
          after = devices_of gate.new (G.seen gate.new) files after;
        }) status }
    ensures handed { HandsOnWork (G.seen gate.old) (G.seen gate.new) result }
{
    let found = drill_log(alloc, start, steps)?;
    let given = give_drill(alloc, &found, gate);
    hand_on_after(given, gate)?;
    Ok(Finish::Done)
}

// What the judgement of the log makes of a run.
fn conclude(judged: Judged) -> Result<(), Refusal>
    requires { judged.accepted < 2 ^ 63 }
    ensures { result ≡ conclusion_of judged.accepted judged.verdict }
{
    match judged.verdict {
        Verdict::Accepted => Ok(()),
        Verdict::Fault => Err(Refusal::ReadFault),
        Verdict::Refused(why) => Err(Refusal::Record {
            number: judged.accepted + 1,
            why,
        }),
    }
}
