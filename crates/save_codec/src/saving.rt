//! The text of a state.
ghost use Rattle.std.specs.Prelude.{◌≡◌, ◌∷◌, ◌++◌, All, IfOk, OnOk, map};
ghost use Rattle.enf_data.specs.meaning.Values.{IsValue};
ghost use Rattle.save_codec.specs.meaning.SavedTexts.{IsTextOfLines, head_text, line_text, lines_text, sized};
ghost use Rattle.save_codec.specs.meaning.SavedTexts.{values_text, due_line, lines_of, row_line, saved_text};
ghost use Rattle.save_codec.specs.machine.StoredStates.{HasSmallNumbers, IsStoredInstance, IsStoredRow};

use crate::lines::{
    print_due, print_last, print_numbered, print_row, print_spaced, print_spaced_value,
};
use crate::snapshots::Snapshot;
use enf_data::{NoMemory, Value, VarId};
use enf_value::{print_byte, print_bytes};
use obligations::Instance;
use past_state::KeptRow;
use std::alloc::Global;

/// The saved text of a state, with the bytes of the signature and of the policy under which it came about. It has the
/// form of such texts where the numbers are small enough for that.
pub fn save(
    alloc: Global,
    signature: &[u8],
    policy: &[u8],
    snapshot: &Snapshot,
) -> Result<Vec<u8>, NoMemory>
    ensures text { IfOk result (λ text. text.items ≡ saved_text signature.now policy.now snapshot.now) }
    ensures form { IfOk result (λ text. HasSmallNumbers snapshot.now
        → IsTextOfLines text.items signature.now policy.now (lines_of snapshot.now)) }
{
    let mut text = Vec::new(alloc);
    print_head(signature, policy, &mut text)?;
    print_numbered(b"clock", snapshot.clock, &mut text)?;
    print_last(snapshot.last, &mut text)?;
    print_numbered(b"position", snapshot.position, &mut text)?;
    print_rows(snapshot.kept.as_slice(), &mut text)?;
    print_instances(snapshot.pending.as_slice(), &mut text)?;
    print_bytes(b"end\n", &mut text)?;
    Ok(text)
}

fn print_head(signature: &[u8], policy: &[u8], out: &mut Vec<u8>) -> Result<(), NoMemory>
    ensures { OnOk result (out.new.items ≡ out.old.items ++ head_text signature.now policy.now) }
{
    print_bytes(b"enfstate 1\n", out)?;
    print_sized(b"signature", signature, out)?;
    print_sized(b"policy", policy, out)
}

// Appends the number of some bytes after a word, and then the bytes.
fn print_sized(word: &[u8], bytes: &[u8], out: &mut Vec<u8>) -> Result<(), NoMemory>
    ensures { OnOk result (out.new.items ≡ out.old.items ++ sized word.now bytes.now) }
{
    print_bytes(word, out)?;
    print_spaced(bytes.len() as u64, out)?;
    print_byte(b'\n', out)?;
    print_bytes(bytes, out)?;
    print_byte(b'\n', out)
}

fn print_rows(rows: &[KeptRow], out: &mut Vec<u8>) -> Result<(), NoMemory>
    ensures text { OnOk result (out.new.items ≡ out.old.items ++ lines_text (map row_line rows.now)) }
    ensures rows { OnOk result (All IsStoredRow rows.now) }
{
    for row in rows {
        print_row(u64::from(row.window), row.time, row.row.as_slice(), out)?;
    }
    Ok(())
}

fn print_instances(instances: &[Instance], out: &mut Vec<u8>) -> Result<(), NoMemory>
    ensures text { OnOk result (out.new.items ≡ out.old.items ++ lines_text (map due_line instances.now)) }
    ensures instances { OnOk result (All IsStoredInstance instances.now) }
{
    for instance in instances {
        print_instance(instance, out)?;
    }
    Ok(())
}

fn print_instance(instance: &Instance, out: &mut Vec<u8>) -> Result<(), NoMemory>
    ensures text { OnOk result (out.new.items ≡ out.old.items ++ line_text (due_line instance.now)) }
    ensures instance { OnOk result (IsStoredInstance instance.now) }
{
    print_due(
        u64::from(instance.rule),
        u64::from(instance.node),
        instance.origin,
        instance.low,
        instance.high,
        out,
    )?;
    print_bound(instance.valuation.bindings(), out)?;
    print_byte(b'\n', out)
}

// Appends the values of variables, each after a space.
fn print_bound(bindings: &[(VarId, Value)], out: &mut Vec<u8>) -> Result<(), NoMemory>
    ensures text { OnOk result (out.new.items
        ≡ out.old.items ++ values_text (map (λ binding. binding.1) bindings.now)) }
    ensures values { OnOk result (All (λ binding. IsValue binding.1) bindings.now) }
{
    for binding in bindings {
        print_spaced_value(&binding.1, out)?;
    }
    Ok(())
}
