//! The names whose events trigger a guard.
ghost use Rattle.std.specs.Prelude.{◌≡◌, IfOk, is_some};
ghost use Rattle.std.specs.Option.{option_map};
ghost use Rattle.enf_formula.specs.machine.FormulaViews.{tree_of};
ghost use Rattle.plan_terms.specs.meaning.Plans.{triggers as trigger_names};

use enf_data::events::NameId;
use enf_data::memory::NoMemory;
use enf_formula::Formula;
use std::alloc::Global;

/// The names of which one has an event wherever the formula holds, or none: of `and` those of the first side that has
/// some, of `or` those of both sides.
pub fn triggers(alloc: Global, formula: &Formula) -> Result<Option<Vec<NameId>>, NoMemory>
    ensures { IfOk result (λ names. option_map (λ all. all.items) names ≡ trigger_names (tree_of formula.now)) }
{
    match formula {
        Formula::Atom(_, name, _) => {
            let mut names = Vec::new(alloc);
            names.push(*name)?;
            Ok(Some(names))
        }
        Formula::And(_, g, h) => match triggers(alloc, g)? {
            Some(names) => Ok(Some(names)),
            None => triggers(alloc, h),
        },
        Formula::Or(_, g, h) => {
            let Some(mut names) = triggers(alloc, g)? else {
                return Ok(None);
            };
            let Some(others) = triggers(alloc, h)? else {
                return Ok(None);
            };
            names.extend_from_slice(others.as_slice())?;
            Ok(Some(names))
        }
        Formula::Exists(_, _, g) => triggers(alloc, g),
        Formula::True(_)
        | Formula::False(_)
        | Formula::Equal(_, _, _)
        | Formula::Less(_, _, _)
        | Formula::AtMost(_, _, _)
        | Formula::Not(_, _)
        | Formula::Implies(_, _, _)
        | Formula::Forall(_, _, _)
        | Formula::Prev(_, _, _)
        | Formula::Next(_, _, _)
        | Formula::Once(_, _, _)
        | Formula::Historically(_, _, _)
        | Formula::Since(_, _, _, _)
        | Formula::Eventually(_, _, _)
        | Formula::Always(_, _, _)
        | Formula::Until(_, _, _, _) => Ok(None),
    }
}

/// Whether it has triggers.
pub fn has_triggers(formula: &Formula) -> bool
    ensures { result ≡ is_some (trigger_names (tree_of formula.now)) }
{
    match formula {
        Formula::Atom(_, _, _) => true,
        Formula::And(_, g, h) => has_triggers(g) || has_triggers(h),
        Formula::Or(_, g, h) => has_triggers(g) && has_triggers(h),
        Formula::Exists(_, _, g) => has_triggers(g),
        Formula::True(_)
        | Formula::False(_)
        | Formula::Equal(_, _, _)
        | Formula::Less(_, _, _)
        | Formula::AtMost(_, _, _)
        | Formula::Not(_, _)
        | Formula::Implies(_, _, _)
        | Formula::Forall(_, _, _)
        | Formula::Prev(_, _, _)
        | Formula::Next(_, _, _)
        | Formula::Once(_, _, _)
        | Formula::Historically(_, _, _)
        | Formula::Since(_, _, _, _)
        | Formula::Eventually(_, _, _)
        | Formula::Always(_, _, _)
        | Formula::Until(_, _, _, _) => false,
    }
}
