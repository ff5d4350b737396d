//! The patterns of the events without which guards and tests fail, or hold.
ghost use Rattle.std.specs.Prelude.{◌≡◌, IfOk};
ghost use Rattle.enf_formula.specs.machine.FormulaViews.{tree_of};
ghost use Rattle.valuations.specs.machine.Bindings.{bound_in};
ghost use Rattle.wake_patterns.specs.machine.WakePatterns as waking;

use crate::known_truths::known_truth;
use crate::patterns::{narrower, of_both, one_pattern};
use enf_data::items::Items;
use enf_data::memory::NoMemory;
use enf_formula::Formula;
use sleepers::Patterns;
use std::alloc::Global;
use valuations::Frame;

// Without an event of these the guard or test holds nowhere.
#[cycle(deciding)]
pub fn fails_without(
    alloc: Global,
    formula: &Formula,
    v: &Frame<'_>,
) -> Result<Option<Patterns>, NoMemory>
    ensures { IfOk result (λ found. found ≡ waking.fails_without (bound_in v.now) (tree_of formula.now)) }
{
    match formula {
        Formula::Atom(_, name, terms) => one_pattern(alloc, *name, terms, v),
        Formula::Not(_, g) => holds_without(alloc, g, v),
        Formula::And(_, g, h) => Ok(narrower(
            fails_without(alloc, g, v)?,
            fails_without(alloc, h, v)?,
        )),
        Formula::Or(_, g, h) => of_both(fails_without(alloc, g, v)?, fails_without(alloc, h, v)?),
        Formula::Implies(_, g, h) => {
            of_both(holds_without(alloc, g, v)?, fails_without(alloc, h, v)?)
        }
        Formula::Exists(_, _, g) => fails_without(alloc, g, v),
        _ => Ok(if_known(alloc, false, known_truth(formula, v))),
    }
}

// Without an event of these the guard or test holds.
#[cycle(deciding)]
pub fn holds_without(
    alloc: Global,
    formula: &Formula,
    v: &Frame<'_>,
) -> Result<Option<Patterns>, NoMemory>
    ensures { IfOk result (λ found. found ≡ waking.holds_without (bound_in v.now) (tree_of formula.now)) }
{
    match formula {
        Formula::Not(_, g) => fails_without(alloc, g, v),
        Formula::And(_, g, h) => of_both(holds_without(alloc, g, v)?, holds_without(alloc, h, v)?),
        Formula::Or(_, g, h) => Ok(narrower(
            holds_without(alloc, g, v)?,
            holds_without(alloc, h, v)?,
        )),
        Formula::Implies(_, g, h) => Ok(narrower(
            fails_without(alloc, g, v)?,
            holds_without(alloc, h, v)?,
        )),
        Formula::Forall(_, _, g) => holds_without(alloc, g, v),
        _ => Ok(if_known(alloc, true, known_truth(formula, v))),
    }
}

// Without an event of these the guard or test does not hold, where it did not hold at the step before.
pub fn fails_still(
    alloc: Global,
    formula: &Formula,
    v: &Frame<'_>,
) -> Result<Option<Patterns>, NoMemory>
    ensures { IfOk result (λ found. found ≡ waking.fails_still (bound_in v.now) (tree_of formula.now)) }
{
    match formula {
        Formula::And(_, g, h) => match fails_without(alloc, formula, v)? {
            Some(patterns) => Ok(Some(patterns)),
            None => of_both(fails_still(alloc, g, v)?, fails_still(alloc, h, v)?),
        },
        Formula::Or(_, g, h) => of_both(fails_still(alloc, g, v)?, fails_still(alloc, h, v)?),
        Formula::Exists(_, _, g) => fails_still(alloc, g, v),
        Formula::Once(_, interval, g) | Formula::Since(_, interval, _, g) => {
            if interval.low > 0 {
                return Ok(None);
            }
            fails_still(alloc, g, v)
        }
        _ => fails_without(alloc, formula, v),
    }
}

// No pattern where the truth is known to be the one that is wanted; else each step is looked at.
fn if_known(alloc: Global, wanted: bool, truth: Option<bool>) -> Option<Patterns>
    ensures { result ≡ waking.if_known wanted truth }
{
    match (wanted, truth) {
        (true, Some(true)) | (false, Some(false)) => Some(Items::from_vec(Vec::new(alloc))),
        _ => None,
    }
}
