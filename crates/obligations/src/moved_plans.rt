//! What an action on a name can move of a plan.
ghost use Rattle.std.specs.Prelude.{◌≡◌, ◌⊎◌, ◌<◌, IsTrue, false, length, map};
ghost use Rattle.std.specs.List.{list_any};
ghost use Rattle.enf_formula.specs.machine.Agreement.{names_in_formula};
ghost use Rattle.enf_formula.specs.machine.FormulaViews.{tree_of};
ghost use Rattle.plan_terms.specs.machine.StoredPlans.{plan_of};
ghost use Rattle.obligations.specs.machine.MovedPlans.{AnswersOwn, IgnoresIn, IsUnmovedIn, KeepsFalse};
ghost use Rattle.obligations.specs.machine.MovedPlans.{KeepsTrue, LeavesRestIn, SuppressesOwn, SuppressesWith};
ghost use Rattle.obligations.specs.machine.MovedPlans.{IgnoresAllOf, IsUnmovedOf, is_same_name};
ghost use Rattle.obligations.specs.machine.UnreadNames.{Ignores};
ghost use Rattle.obligations.specs.declared.literals.LiteralKind.TheVariants as of_kind;

use crate::guarded_rows::suppressed;
use crate::instances::Instance;
use crate::literals::LiteralKind;
use crate::pending_parts::node_in;
use enf_data::events::NameId;
use enf_data::terms::Term;
use enf_formula::Formula;
use plan_terms::Plan;

// Whether what the formula held for before an action on the name it holds for after it.
fn keeps_true(formula: &Formula, kind: LiteralKind, name: NameId) -> bool
    ensures { IsTrue result → KeepsTrue kind name (tree_of formula.now) }
{
    match kind {
        LiteralKind::Cause => formula.asks_only(true, name),
        LiteralKind::Suppress => formula.asks_only(false, name),
    }
}

// Whether what the formula holds for after an action on the name it held for before it.
fn keeps_false(formula: &Formula, kind: LiteralKind, name: NameId) -> bool
    ensures { IsTrue result → KeepsFalse kind name (tree_of formula.now) }
{
    match kind {
        LiteralKind::Cause => formula.asks_only(false, name),
        LiteralKind::Suppress => formula.asks_only(true, name),
    }
}

// Whether a leaf that causes events of the other name stays met after an action on the name.
fn stays_caused(other: NameId, kind: LiteralKind, name: NameId) -> bool
    ensures { IsTrue result → kind ≡ of_kind.Suppress → other ≡ name → ⊥ }
{
    match kind {
        LiteralKind::Cause => true,
        LiteralKind::Suppress => other.0 != name.0,
    }
}

// Whether a leaf that suppresses events of the other name stays met after an action on the name.
fn stays_suppressed(other: NameId, kind: LiteralKind, name: NameId) -> bool
    ensures { IsTrue result → kind ≡ of_kind.Cause → other ≡ name → ⊥ }
{
    match kind {
        LiteralKind::Cause => other.0 != name.0,
        LiteralKind::Suppress => true,
    }
}

/// Whether the plan misses nothing after an action on the name where it missed nothing before it: none of its leaves
/// wants the contrary, each of its tests holds still, and none of its guards has a row more.
pub fn is_unmoved(plan: &Plan, kind: LiteralKind, name: NameId) -> bool
    ensures { IsTrue result → IsUnmovedIn kind name (plan_of plan.now) }
{
    match plan {
        Plan::Cause { name: other, .. } => stays_caused(*other, kind, name),
        Plan::Suppress { name: other, .. } => stays_suppressed(*other, kind, name),
        Plan::TestOr { test, body, .. } => keeps_true(test, kind, name)
            && is_unmoved(body, kind, name),
        Plan::Guarded { test, body, .. } => keeps_false(test, kind, name)
            && is_unmoved(body, kind, name),
        Plan::Eventually { body, .. } | Plan::Always { body, .. } | Plan::Next { body, .. } => {
            is_unmoved(body, kind, name)
        }
        Plan::Both { left, right, .. }
        | Plan::Either { left, right, .. }
        | Plan::Until { left, right, .. } => {
            is_unmoved(left, kind, name) && is_unmoved(right, kind, name)
        }
    }
}

// Whether the formula looks for the name.
fn looks_for(formula: &Formula, name: NameId) -> bool
    ensures { result ≡ list_any (is_same_name name) (names_in_formula (tree_of formula.now)) }
{
    match formula {
        Formula::True(_)
        | Formula::False(_)
        | Formula::Equal(_, _, _)
        | Formula::Less(_, _, _)
        | Formula::AtMost(_, _, _) => false,
        Formula::Atom(_, other, _) => other.0 == name.0,
        Formula::Not(_, f)
        | Formula::Exists(_, _, f)
        | Formula::Forall(_, _, f)
        | Formula::Prev(_, _, f)
        | Formula::Next(_, _, f)
        | Formula::Once(_, _, f)
        | Formula::Historically(_, _, f)
        | Formula::Eventually(_, _, f)
        | Formula::Always(_, _, f) => looks_for(f, name),
        Formula::And(_, f, g)
        | Formula::Or(_, f, g)
        | Formula::Implies(_, f, g)
        | Formula::Since(_, _, f, g)
        | Formula::Until(_, _, f, g) => looks_for(f, name) || looks_for(g, name),
    }
}

/// Whether no guard or test of the plan looks for the name.
pub fn ignores(plan: &Plan, name: NameId) -> bool
    ensures { IsTrue result → IgnoresIn name (plan_of plan.now) }
{
    match plan {
        Plan::Cause { .. } | Plan::Suppress { .. } => true,
        Plan::TestOr { test, body, .. } | Plan::Guarded { test, body, .. } => {
            !looks_for(test, name) && ignores(body, name)
        }
        Plan::Eventually { body, .. } | Plan::Always { body, .. } | Plan::Next { body, .. } => {
            ignores(body, name)
        }
        Plan::Both { left, right, .. }
        | Plan::Either { left, right, .. }
        | Plan::Until { left, right, .. } => ignores(left, name) && ignores(right, name),
    }
}

/// Whether no guard or test of the node of an instance looks for one of the names.
pub fn ignores_all(plans: &[Plan], instance: &Instance, names: &[NameId]) -> bool
    ensures ignores { IsTrue result → IgnoresAllOf (map plan_of plans.now) names.now instance.now }
    ensures some { result ≡ false → 0 < length names.now }
{
    if names.is_empty() {
        return true;
    }
    let Some(node) = node_in(plans, instance) else {
        return true;
    };
    for name in names {
        if !ignores(node, *name) {
            return false;
        }
    }
    true
}

/// Whether an instance that misses nothing misses nothing after an action on the name, told by its node.
pub fn stays_met(plans: &[Plan], instance: &Instance, kind: LiteralKind, name: NameId) -> bool
    ensures { IsTrue result → IsUnmovedOf (map plan_of plans.now) kind name instance.now }
{
    match node_in(plans, instance) {
        Some(node) => is_unmoved(node, kind, name),
        None => true,
    }
}

// Whether the conjunction looks for the name in one atom alone, which has these terms.
fn answers_own(formula: &Formula, name: NameId, terms: &[Term]) -> bool
    ensures { IsTrue result → AnswersOwn name terms.now (tree_of formula.now) }
{
    match formula {
        Formula::Atom(_, other, own) => other.0 == name.0 && own.as_slice() == terms,
        Formula::And(_, f, g) => {
            if looks_for(g, name) {
                return !looks_for(f, name) && answers_own(g, name, terms);
            }
            answers_own(f, name, terms)
        }
        _ => false,
    }
}

// Whether below tests that do not look for the name the plan suppresses the events of the name with these terms.
fn suppresses_with(plan: &Plan, name: NameId, terms: &[Term]) -> bool
    ensures { IsTrue result → SuppressesWith name terms.now (plan_of plan.now) }
{
    match plan {
        Plan::Suppress {
            name: other,
            terms: own,
            ..
        } => other.0 == name.0 && own.as_slice() == terms,
        Plan::TestOr { test, body, .. } => {
            !looks_for(test, name) && suppresses_with(body, name, terms)
        }
        _ => false,
    }
}

// Whether under each row of the guard the body suppresses just that event of the name for which the guard holds.
fn suppresses_own(test: &Formula, body: &Plan, name: NameId) -> bool
    ensures { IsTrue result → SuppressesOwn name (tree_of test.now) (plan_of body.now) }
{
    match suppressed(body) {
        Some((_, terms)) => answers_own(test, name, terms) && suppresses_with(body, name, terms),
        None => false,
    }
}

// Whether what a guarded body misses is after an action on the name the rest of what it missed, as far as its guard
// has a part in it.
fn guard_leaves_rest(test: &Formula, body: &Plan, kind: LiteralKind, name: NameId) -> bool
    ensures { IsTrue result → Ignores name (tree_of test.now)
        ⊎ ((kind ≡ of_kind.Suppress) × SuppressesOwn name (tree_of test.now) (plan_of body.now)) }
{
    if !looks_for(test, name) {
        return true;
    }
    match kind {
        LiteralKind::Cause => false,
        LiteralKind::Suppress => suppresses_own(test, body, name),
    }
}

/// Whether what the plan misses after an action on the name is the rest of what it missed, where it has no choices:
/// no guard or test looks for the name, or the action takes out what such a guard holds for.
pub fn leaves_rest(plan: &Plan, kind: LiteralKind, name: NameId) -> bool
    ensures { IsTrue result → LeavesRestIn kind name (plan_of plan.now) }
{
    match plan {
        Plan::Cause { name: other, .. } => stays_caused(*other, kind, name),
        Plan::Suppress { name: other, .. } => stays_suppressed(*other, kind, name),
        Plan::TestOr { test, body, .. } => !looks_for(test, name) && leaves_rest(body, kind, name),
        Plan::Guarded { test, body, .. } => {
            guard_leaves_rest(test, body, kind, name) && leaves_rest(body, kind, name)
        }
        Plan::Eventually { body, .. } | Plan::Always { body, .. } | Plan::Next { body, .. } => {
            leaves_rest(body, kind, name)
        }
        Plan::Both { left, right, .. }
        | Plan::Either { left, right, .. }
        | Plan::Until { left, right, .. } => {
            leaves_rest(left, kind, name) && leaves_rest(right, kind, name)
        }
    }
}
