//! Patterns of atoms, and of two sides.
ghost use Rattle.std.specs.Prelude.{◌≡◌, IfOk, map};
ghost use Rattle.enf_data.specs.meaning.Valuations.{value_of_term};
ghost use Rattle.valuations.specs.machine.Bindings.{bound_in};
ghost use Rattle.wake_patterns.specs.machine.WakePatterns as waking;

use enf_data::events::NameId;
use enf_data::items::{Duplicate, Items};
use enf_data::memory::NoMemory;
use enf_data::terms::{Term, Terms};
use enf_data::values::Value;
use sleepers::{Pattern, Patterns};
use std::alloc::Global;
use valuations::Frame;
use valuations::arguments::value_in;

/// Patterns of the one side and of the other, where both have some.
pub fn of_both(
    patterns: Option<Patterns>,
    others: Option<Patterns>,
) -> Result<Option<Patterns>, NoMemory>
    ensures { IfOk result (λ found. found ≡ waking.patterns_of_both patterns others) }
{
    let (Some(patterns), Some(others)) = (patterns, others) else {
        return Ok(None);
    };
    let mut all = patterns.into_vec();
    let mut others = others.into_vec();
    all.append(&mut others)?;
    Ok(Some(Items::from_vec(all)))
}

/// Of two alternatives the one that has patterns, or the one of which more is fixed.
pub fn narrower(patterns: Option<Patterns>, others: Option<Patterns>) -> Option<Patterns>
    ensures { result ≡ waking.narrower patterns others }
{
    match (patterns, others) {
        (Some(patterns), Some(others)) => {
            if least_fixed(patterns.as_slice()) < least_fixed(others.as_slice()) {
                Some(others)
            } else {
                Some(patterns)
            }
        }
        (Some(patterns), None) => Some(patterns),
        (None, others) => others,
    }
}

// The fewest arguments that are fixed in one of the patterns.
fn least_fixed(patterns: &[Pattern]) -> usize
    ensures { result ≡ waking.least_fixed patterns.now }
{
    let Some((pattern, others)) = patterns.split_first() else {
        return usize::MAX;
    };
    fixed_count(pattern).min(least_fixed(others))
}

fn fixed_count(pattern: &Pattern) -> usize
    ensures { result ≡ waking.fixed_count pattern.now }
{
    pattern
        .args
        .as_slice()
        .iter()
        .filter(|arg| arg.is_some())
        .count()
}

// The pattern of an atom, alone.
pub fn one_pattern(
    alloc: Global,
    name: NameId,
    terms: &Terms,
    v: &Frame<'_>,
) -> Result<Option<Patterns>, NoMemory>
    ensures { IfOk result (λ found. found ≡ waking.patterns_of_one (bound_in v.now) name terms.now) }
{
    // most have no other beside them
    let mut patterns = Vec::with_capacity(alloc, 1)?;
    patterns.push(pattern_of(alloc, name, terms, v)?)?;
    Ok(Some(Items::from_vec(patterns)))
}

// The pattern of an atom.
pub fn pattern_of(
    alloc: Global,
    name: NameId,
    terms: &Terms,
    v: &Frame<'_>,
) -> Result<Pattern, NoMemory>
    ensures { IfOk result (λ pattern. pattern ≡ waking.pattern_of (bound_in v.now) name terms.now) }
{
    let args = fixed_in(alloc, terms.as_slice(), v)?;
    Ok(Pattern { name, args })
}

// The value of each term that has one.
fn fixed_in(alloc: Global, terms: &[Term], v: &Frame<'_>) -> Result<Items<Option<Value>>, NoMemory>
    ensures { IfOk result (λ args. args ≡ map (value_of_term (bound_in v.now)) terms.now) }
{
    let mut args = Vec::with_capacity(alloc, terms.len())?;
    for term in terms {
        args.push(fixed_at(alloc, term, v)?)?;
    }
    Ok(Items::from_vec(args))
}

fn fixed_at(alloc: Global, term: &Term, v: &Frame<'_>) -> Result<Option<Value>, NoMemory>
    ensures { IfOk result (λ fixed. fixed ≡ value_of_term (bound_in v.now) term.now) }
{
    match value_in(term, v) {
        Some(value) => Ok(Some(value.duplicate(alloc)?)),
        None => Ok(None),
    }
}
