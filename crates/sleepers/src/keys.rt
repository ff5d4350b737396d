//! Numbers by which the patterns are found of which an event is.
ghost use Rattle.std.specs.Prelude.{◌≡◌, ◌↔◌, IsTrue, Contains, IfOk, OnOk, None, Some, cond, fold};
ghost use Rattle.std.specs.Option.{option_copied};
ghost use Rattle.sleepers.specs.machine.PatternKeys.{arg_writes, fixed_of, pattern_key, masked_values, shape_of};
ghost use Rattle.sleepers.specs.machine.PatternKeys.{args_writes};
ghost use Rattle.sleepers.specs.machine.NotedGroups.{IsContainedIn};
ghost use Rattle.enf_data.specs.machine.SeededHashes.{seeded_write};

use crate::patterns::Pattern;
use enf_data::{Event, Items, NameId, NoMemory, Seed, SeededHasher, Value};
use std::alloc::Global;
use std::hash::{BuildHasher, Hasher};

/// A name, and which of its arguments are fixed.
#[derive(Debug, Drop)]
pub struct Shape {
    pub name: NameId,
    pub fixed: Items<bool>,
}

// The number of a pattern from the seed on. Others may have it too.
pub(crate) fn key_of(seed: Seed, pattern: &Pattern) -> u64
    ensures { result ≡ pattern_key seed pattern.now.name pattern.now.args }
{
    let mut state = seed.build_hasher();
    state.write_u32(pattern.name.0);
    feed_all(pattern.args.as_slice(), &mut state);
    state.finish()
}

// The number of the pattern of which the event is and of which just these arguments are fixed.
pub(crate) fn key_at(seed: Seed, event: &Event, fixed: &[bool]) -> u64
    ensures { result ≡ pattern_key seed event.now.name (masked_values fixed.now event.now.args) }
{
    let mut state = seed.build_hasher();
    state.write_u32(event.name.0);
    feed_fixed(event.args.as_slice(), fixed, &mut state);
    state.finish()
}

fn feed_all(args: &[Option<Value>], state: &mut SeededHasher)
    ensures { state.new ≡ fold seeded_write state.old (args_writes args.now) }
{
    let Some((arg, others)) = args.split_first() else {
        return;
    };
    feed(arg.as_ref(), state);
    feed_all(others, state);
}

fn feed_fixed(values: &[Value], fixed: &[bool], state: &mut SeededHasher)
    ensures { state.new ≡ fold seeded_write state.old (args_writes (masked_values fixed.now values.now)) }
{
    let Some((is_fixed, others)) = fixed.split_first() else {
        return;
    };
    let Some((value, other_values)) = values.split_first() else {
        return;
    };
    feed(if *is_fixed { Some(value) } else { None }, state);
    feed_fixed(other_values, others, state);
}

fn feed(arg: Option<&Value>, state: &mut SeededHasher)
    ensures { state.new ≡ fold seeded_write state.old (arg_writes (option_copied arg.entry)) }
{
    match arg {
        None => state.write_u8(0),
        Some(Value::Num(number)) => state.write_i64(*number),
        Some(Value::Text(text)) => state.write(text.bytes()),
    }
}

// Notes the shape of the pattern, if it is not there.
pub(crate) fn note_shape(
    alloc: Global,
    shapes: &mut Vec<Shape>,
    pattern: &Pattern,
) -> Result<(), NoMemory>
    ensures ok { OnOk result (Contains shapes.new.items (shape_of pattern.now)) }
    ensures kept { IsContainedIn shapes.old.items shapes.new.items }
{
    if has_shape(shapes.as_slice(), pattern) {
        return Ok(());
    }
    let shape = made_shape(alloc, pattern)?;
    shapes.push(shape)?;
    Ok(())
}

fn has_shape(shapes: &[Shape], pattern: &Pattern) -> bool
    ensures { IsTrue result → Contains shapes.now (shape_of pattern.now) }
{
    for shape in shapes {
        if is_shape(shape, pattern) {
            return true;
        }
    }
    false
}

fn is_shape(shape: &Shape, pattern: &Pattern) -> bool
    ensures { IsTrue result → shape.now ≡ shape_of pattern.now }
{
    shape.name.0 == pattern.name.0 && are_fixed(shape.fixed.as_slice(), pattern.args.as_slice())
}

fn are_fixed(fixed: &[bool], args: &[Option<Value>]) -> bool
    ensures { IsTrue result → fixed.now ≡ fixed_of args.now }
{
    let Some((is_fixed, others)) = fixed.split_first() else {
        return args.is_empty();
    };
    let Some((arg, other_args)) = args.split_first() else {
        return false;
    };
    *is_fixed == arg.is_some() && are_fixed(others, other_args)
}

fn made_shape(alloc: Global, pattern: &Pattern) -> Result<Shape, NoMemory>
    ensures { IfOk result (λ shape. shape ≡ shape_of pattern.now) }
{
    let args = pattern.args.as_slice();
    let mut fixed = Vec::new(alloc);
    for arg in args {
        fixed.push(arg.is_some())?;
    }
    Ok(Shape {
        name: pattern.name,
        fixed: Items::from_vec(fixed),
    })
}
