//! Nodes that are met before any trigger.
ghost use Rattle.std.specs.Prelude.{◌≡◌, IfNone, IfSome, map};
ghost use Rattle.std.specs.List.{AllByRecursion};
ghost use Rattle.enf_formula.specs.machine.FormulaViews.{tree_of};
ghost use Rattle.plan_terms.specs.machine.WellFormed.{IsNumberedPlan};
ghost use Rattle.plan_terms.specs.machine.StoredPlans.{plan_of};
ghost use Rattle.plan_terms.specs.meaning.Plans.{triggers};
ghost use Rattle.rank_check.specs.meaning.AcceptedPlans.{AllIsTriggered};
ghost use Rattle.rank_check.specs.meaning.Refusals.{IsFirstPlace};
ghost use Rattle.rank_check.specs.machine.PlanWalks.{bare_behind, bare_place, first_place, visits};

use enf_data::places::Place;
use enf_formula::Formula;
use plan_terms::Plan;
use plan_terms::triggers::has_triggers;

// The place of the first node, by plans and then in pre-order, that is met before any trigger.
pub fn first_untriggered(plans: &[Plan]) -> Option<Place>
    requires { AllByRecursion IsNumberedPlan (map plan_of plans.now) }
    ensures found { IfSome result (IsFirstPlace (map plan_of plans.now)) }
    ensures none { IfNone result (AllIsTriggered (map plan_of plans.now)) }
{
    for plan in plans {
        if let Some(place) = first_in(plan, true) {
            return Some(place);
        }
    }
    None
}

// That in a plan, where the last start before it is without triggers or not.
#[tactic(auto, using(crate::proofs::BareLemmas::first_of_both))]
fn first_in(plan: &Plan, is_bare: bool) -> Option<Place>
    ensures { result ≡ first_place (visits is_bare (plan_of plan.now)) }
{
    if let Some(place) = place_of(plan, is_bare) {
        return Some(place);
    }
    match plan {
        Plan::Cause { .. } | Plan::Suppress { .. } => None,
        Plan::TestOr { body, .. } | Plan::Eventually { body, .. } | Plan::Next { body, .. } => {
            first_in(body, is_bare)
        }
        Plan::Guarded { test, body, .. } => first_in(body, stays_bare(is_bare, test)),
        Plan::Always { body, .. } => first_in(body, true),
        Plan::Both { left, right, .. } | Plan::Either { left, right, .. } => {
            match first_in(left, is_bare) {
                Some(place) => Some(place),
                None => first_in(right, is_bare),
            }
        }
        Plan::Until { left, right, .. } => match first_in(left, true) {
            Some(place) => Some(place),
            None => first_in(right, is_bare),
        },
    }
}

// The place of a node that needs a trigger and has none.
fn place_of(plan: &Plan, is_bare: bool) -> Option<Place>
    ensures { result ≡ bare_place (plan_of plan.now, is_bare) }
{
    match plan {
        Plan::Cause { place, .. }
        | Plan::Eventually { place, .. }
        | Plan::Until { place, .. }
        | Plan::Next { place, .. } => is_bare.then_some(*place),
        Plan::Suppress { .. }
        | Plan::Both { .. }
        | Plan::Either { .. }
        | Plan::TestOr { .. }
        | Plan::Guarded { .. }
        | Plan::Always { .. } => None,
    }
}

// Whether a start that was without triggers is so after a guard.
fn stays_bare(is_bare: bool, test: &Formula) -> bool
    ensures { result ≡ bare_behind is_bare (triggers (tree_of test.now)) }
{
    is_bare && !has_triggers(test)
}
