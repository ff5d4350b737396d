//! The names that guards look for.
ghost use Rattle.std.specs.Prelude.{◌≡◌, ◌↔◌, ◌++◌, IfOk, IsTrue, OnOk, Contains};
ghost use Rattle.enf_formula.specs.machine.FormulaViews.{tree_of};
ghost use Rattle.enf_formula.specs.machine.Agreement.{names_in_formula};
ghost use Rattle.enf_data.specs.declared.events.NameId.{NameId as AnyName};
ghost use Rattle.past_state.specs.machine.Past.{guard_names};

use crate::guards::PlacedGuard;
use enf_data::events::NameId;
use enf_data::memory::NoMemory;
use enf_formula::Formula;
use std::alloc::Global;
use std::marker::Model;

/// The names that guards look for, each found by a search.
#[derive(Debug, Drop)]
pub struct GuardNames {
    rising: Vec<NameId>,
}

impl Model for GuardNames {
    ghost use Rattle.std.specs.Prelude.{List};
    ghost use Rattle.std.specs.List.Sorted.{IsSortedByKey};
    ghost use Rattle.std.specs.Ordering.{nat_cmp};
    ghost use Rattle.enf_data.specs.declared.events.NameId.{NameId};

    ghost Value = { List NameId };

    ghost view = { λ names. names.rising.items };

    ghost invariant = { λ names. IsSortedByKey (λ (name : NameId). name.0) nat_cmp names.rising.items };
}

impl GuardNames {
    /// Those of the guards, in rising order.
    pub fn of(alloc: Global, guards: &[PlacedGuard]) -> Result<GuardNames, NoMemory>
        ensures { IfOk result (λ names. (name : AnyName)
            → Contains names name ↔ Contains (guard_names guards.now) name) }
    {
        let mut rising = all_names(alloc, guards)?;
        rising.sort_unstable_by_key(|name| name.0);
        Ok(GuardNames { rising })
    }

    /// Whether the name is one of them; it takes no memory.
    pub fn has(&self, name: NameId) -> bool
        ensures { IsTrue result ↔ Contains self.now name }
    {
        self.rising
            .binary_search_by_key(&name.0, |own| own.0)
            .is_ok()
    }
}

// In the order of the guards, each as often as it stands there.
fn all_names(alloc: Global, guards: &[PlacedGuard]) -> Result<Vec<NameId>, NoMemory>
    ensures { IfOk result (λ names. names.items ≡ guard_names guards.now) }
{
    let mut names = Vec::new(alloc);
    for placed in guards {
        push_names(placed.guard.formula(), &mut names)?;
    }
    Ok(names)
}

// Puts the names that the formula looks for last.
fn push_names(formula: &Formula, out: &mut Vec<NameId>) -> Result<(), NoMemory>
    ensures { OnOk result (out.new.items ≡ out.old.items ++ names_in_formula (tree_of formula.now)) }
{
    match formula {
        Formula::True(_)
        | Formula::False(_)
        | Formula::Equal(_, _, _)
        | Formula::Less(_, _, _)
        | Formula::AtMost(_, _, _) => Ok(()),
        Formula::Atom(_, name, _) => Ok(out.push(*name)?),
        Formula::Not(_, f)
        | Formula::Exists(_, _, f)
        | Formula::Forall(_, _, f)
        | Formula::Prev(_, _, f)
        | Formula::Next(_, _, f)
        | Formula::Once(_, _, f)
        | Formula::Historically(_, _, f)
        | Formula::Eventually(_, _, f)
        | Formula::Always(_, _, f) => push_names(f, out),
        Formula::And(_, f, g)
        | Formula::Or(_, f, g)
        | Formula::Implies(_, f, g)
        | Formula::Since(_, _, f, g)
        | Formula::Until(_, _, f, g) => {
            push_names(f, out)?;
            push_names(g, out)
        }
    }
}
