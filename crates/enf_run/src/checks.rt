//! What is to be said of a policy, and its way out, a line a piece.
ghost use Rattle.std.specs.Prelude.{map};
ghost use Rattle.formula_reader.specs.machine.StoredRules.{rule_of};
ghost use Rattle.enf_run.specs.meaning.Outcomes.{check_text, horizon_line, mark_line, role_line, role_lines};
ghost use Rattle.enf_run.specs.meaning.Outcomes.{rule_lines};
ghost use Rattle.enf_run.specs.machine.FormOutcomes.{rule_line};
ghost use Rattle.enf_run.specs.machine.RunEndings.{WritesText};

use crate::endings::Cut;
use crate::files::text_of_name;
use crate::report_lines::write_pieces;
use enf_data::NameId;
use enf_io::devices::Sink;
use enf_io::writing::write_all;
use enf_value::print_bytes;
use enforce_types::TypedPolicy;
use formula_reader::{Rule, print_rule};
use itoa::Buffer;
use rank_check::Role;
use signature::Signature;
use std::alloc::Global;

/// Gives the canonical text of each rule, the mark, the horizon, and the role of each name that has one.
pub fn give_check<S: Sink>(
    alloc: Global,
    signature: &Signature,
    rules: &[Rule],
    typed: &TypedPolicy,
    sink: &mut S,
) -> Result<(), Cut>
    ensures { WritesText (check_text signature.now (map rule_of rules.now) typed.now.ranked) result
        (S.seen sink.old) (S.seen sink.new) }
{
    give_rules(alloc, signature, rules, sink)?;
    give_mark(typed.is_transparent(), sink)?;
    give_horizon(typed.horizon(), sink)?;
    give_roles(signature, typed, sink)
}

fn give_rules<S: Sink>(
    alloc: Global,
    signature: &Signature,
    rules: &[Rule],
    sink: &mut S,
) -> Result<(), Cut>
    ensures { WritesText (rule_lines signature.now (map rule_of rules.now)) result
        (S.seen sink.old) (S.seen sink.new) }
{
    let mut line = Vec::new(alloc);
    for rule in rules {
        give_rule(signature, rule, &mut line, sink)?;
    }
    Ok(())
}

// The line is made in a buffer of its caller.
fn give_rule<S: Sink>(
    signature: &Signature,
    rule: &Rule,
    line: &mut Vec<u8>,
    sink: &mut S,
) -> Result<(), Cut>
    ensures { WritesText (rule_line signature.now (rule_of rule.now)) result
        (S.seen sink.old) (S.seen sink.new) }
{
    line.clear();
    print_rule(signature, rule, line)?;
    print_bytes(b"\n", line)?;
    Ok(write_all(sink, line)?)
}

fn give_mark<S: Sink>(is_transparent: bool, sink: &mut S) -> Result<(), Cut>
    ensures { WritesText (mark_line is_transparent) result (S.seen sink.old) (S.seen sink.new) }
{
    if is_transparent {
        write_pieces(&[b"transparent yes\n"], sink)
    } else {
        write_pieces(&[b"transparent no\n"], sink)
    }
}

fn give_horizon<S: Sink>(horizon: u64, sink: &mut S) -> Result<(), Cut>
    ensures { WritesText (horizon_line horizon) result (S.seen sink.old) (S.seen sink.new) }
{
    let mut digits = Buffer::new();
    write_pieces(
        &[b"horizon ", digits.format(horizon).as_bytes(), b"\n"],
        sink,
    )
}

fn give_roles<S: Sink>(signature: &Signature, typed: &TypedPolicy, sink: &mut S) -> Result<(), Cut>
    ensures { WritesText (role_lines signature.now typed.now.ranked.roles) result
        (S.seen sink.old) (S.seen sink.new) }
{
    for number in 0..signature.len() {
        let name = NameId(number);
        give_role(typed.role(name), text_of_name(signature, name), sink)?;
    }
    Ok(())
}

fn give_role<S: Sink>(role: Role, name: &[u8], sink: &mut S) -> Result<(), Cut>
    ensures { WritesText (role_line role name.now) result (S.seen sink.old) (S.seen sink.new) }
{
    match role {
        Role::Free => Ok(()),
        Role::Caused => write_pieces(&[b"cause ", name, b"\n"], sink),
        Role::Suppressed => write_pieces(&[b"suppress ", name, b"\n"], sink),
    }
}
