//! The lines that say what was done and for what.
ghost use Rattle.std.specs.Prelude.{◌≡◌, ◌++◌, OnErr, OnOk, slice_get};
ghost use Rattle.enf_value.specs.machine.ValueCalls.{AppendsPart};
ghost use Rattle.formula_reader.specs.meaning.Resolution.{variable_text};
ghost use Rattle.formula_reader.specs.machine.StoredRules.{policy_rules_of};
ghost use Rattle.action_report.specs.meaning.ReportLines.{action_line, binding_text, bindings_text, cause_text};
ghost use Rattle.action_report.specs.meaning.ReportLines.{kind_text, rule_name, rule_variable_names, when_text};
ghost use Rattle.action_report.specs.meaning.ReportLines.{labelled};

use enf_data::{NoMemory, TextValue, Value, VarId};
use enf_value::{print_byte, print_bytes, print_number, print_value};
use formula_reader::policies::Policy;
use log_stream::print_event;
use obligations::{Action, LiteralKind};
use signature::Signature;

/// Appends the line of an action; where memory runs out, a front of it is appended. Of a name or a rule that is not
/// there nothing is printed.
#[inline(always)]
pub fn write_action(
    signature: &Signature,
    policy: &Policy,
    action: &Action,
    out: &mut Vec<u8>,
) -> Result<(), NoMemory>
    ensures ok { OnOk result (out.new.items
        ≡ out.old.items ++ action_line signature.now (policy_rules_of policy.now) action.now) }
    ensures err { OnErr result (AppendsPart (action_line signature.now (policy_rules_of policy.now) action.now)
        out.old.items out.new.items) }
{
    print_bytes(kind_word(action.kind), out)?;
    print_event(signature, &action.event, out)?;
    print_when(action, out)?;
    print_cause(rule_name(policy, action.rule), action, out)?;
    print_bindings(
        variables_of(policy, action.rule),
        action.valuation.bindings(),
        out,
    )?;
    print_byte(b'\n', out)
}

fn kind_word(kind: LiteralKind) -> &'static [u8]
    ensures { result.now ≡ kind_text kind }
{
    match kind {
        LiteralKind::Cause => b"cause",
        LiteralKind::Suppress => b"suppress",
    }
}

/// The name of the rule with this number; nothing, where there is none.
pub fn rule_name(policy: &Policy, rule: u32) -> &[u8]
    ensures { result.now ≡ rule_name (slice_get (policy_rules_of policy.now) rule) }
{
    match policy.rules.get(rule as usize) {
        Some(rule) => rule.name.bytes(),
        None => &[],
    }
}

// The names of a rule's variables, by their numbers.
pub(crate) fn variables_of(policy: &Policy, rule: u32) -> &[TextValue]
    ensures { result.now ≡ rule_variable_names (slice_get (policy_rules_of policy.now) rule) }
{
    match policy.rules.get(rule as usize) {
        Some(rule) => rule.vars.as_slice(),
        None => &[],
    }
}

#[inline(always)]
fn print_labelled(word: &[u8], number: u64, out: &mut Vec<u8>) -> Result<(), NoMemory>
    ensures ok { OnOk result (out.new.items ≡ out.old.items ++ labelled word.now number) }
    ensures err { OnErr result (AppendsPart (labelled word.now number) out.old.items out.new.items) }
{
    print_bytes(word, out)?;
    print_number(number, out)
}

#[inline(always)]
fn print_when(action: &Action, out: &mut Vec<u8>) -> Result<(), NoMemory>
    ensures ok { OnOk result (out.new.items ≡ out.old.items ++ when_text action.now) }
    ensures err { OnErr result (AppendsPart (when_text action.now) out.old.items out.new.items) }
{
    print_labelled(b" at ", action.time, out)?;
    print_labelled(b" step ", action.position, out)
}

#[inline(always)]
fn print_cause(name: &[u8], action: &Action, out: &mut Vec<u8>) -> Result<(), NoMemory>
    ensures ok { OnOk result (out.new.items ≡ out.old.items ++ cause_text name.now action.now) }
    ensures err { OnErr result (AppendsPart (cause_text name.now action.now) out.old.items out.new.items) }
{
    print_bytes(b" rule ", out)?;
    print_bytes(name, out)?;
    print_labelled(b" node ", u64::from(action.node), out)?;
    print_labelled(b" leaf ", u64::from(action.leaf), out)?;
    print_labelled(b" origin ", action.origin, out)
}

#[inline(always)]
fn print_bindings(
    vars: &[TextValue],
    bindings: &[(VarId, Value)],
    out: &mut Vec<u8>,
) -> Result<(), NoMemory>
    ensures ok { OnOk result (out.new.items ≡ out.old.items ++ bindings_text vars.now bindings.now) }
    ensures err { OnErr result (AppendsPart (bindings_text vars.now bindings.now) out.old.items out.new.items) }
{
    for binding in bindings {
        print_binding(vars, binding.0, &binding.1, out)?;
    }
    Ok(())
}

// A variable and its value after a space.
fn print_binding(
    vars: &[TextValue],
    variable: VarId,
    value: &Value,
    out: &mut Vec<u8>,
) -> Result<(), NoMemory>
    ensures ok { OnOk result (out.new.items ≡ out.old.items ++ binding_text vars.now (variable, value.now)) }
    ensures err { OnErr result (AppendsPart (binding_text vars.now (variable, value.now))
        out.old.items out.new.items) }
{
    print_byte(b' ', out)?;
    print_bytes(variable_name(vars, variable), out)?;
    print_byte(b'=', out)?;
    print_value(value, out)
}

pub(crate) fn variable_name(vars: &[TextValue], variable: VarId) -> &[u8]
    ensures { result.now ≡ variable_text vars.now variable }
{
    match vars.get(variable.0 as usize) {
        Some(name) => name.bytes(),
        None => &[],
    }
}
