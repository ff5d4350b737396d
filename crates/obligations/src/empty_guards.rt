//! Plans whose guard holds nowhere at a step, told without its rows.
ghost use Rattle.std.specs.Prelude.{IsTrue, List, [], ℕ};
ghost use Rattle.enf_formula.specs.machine.FormulaViews.{tree_of};
ghost use Rattle.enf_data.specs.meaning.Valuations.{Valuation};
ghost use Rattle.enf_data.specs.declared.steps.Step.{Step};
ghost use Rattle.plan_terms.specs.machine.StoredPlans.{plan_of};
ghost use Rattle.obligations.specs.machine.PresentStep.{IsNowOf};
ghost use Rattle.obligations.specs.meaning.Obligations.{Begun};
ghost use Rattle.obligations.specs.machine.TriggeredNodes.{HoldsNowhere};

use crate::present_events::PresentEvents;
use crate::present_step::Now;
use enf_formula::Formula;
use plan_terms::Plan;

// Whether the guard of the plan needs an event that the step does not have, so that the plan begins nothing.
pub fn is_asleep(plan: &Plan, now: &Now<'_>) -> bool
    ensures { IsTrue result → (trace : List Step) → IsNowOf now.now trace → (rule : ℕ) (v : Valuation)
        → Begun trace rule (plan_of plan.now) v [] }
{
    match plan {
        Plan::Guarded { test, .. } => lacks_event(test, now.events),
        _ => false,
    }
}

// Whether the formula needs an event that is not among these: both sides of an `and` do as soon as one does, and an
// `or` where both do. One that needs no event is not looked at any further.
fn lacks_event(formula: &Formula, events: &PresentEvents<'_>) -> bool
    ensures { IsTrue result → HoldsNowhere events.now (tree_of formula.now) }
{
    match formula {
        Formula::Atom(_, name, _) => !events.may_have(*name),
        Formula::And(_, g, h) => lacks_event(g, events) || lacks_event(h, events),
        Formula::Or(_, g, h) => lacks_event(g, events) && lacks_event(h, events),
        Formula::Exists(_, _, g) => lacks_event(g, events),
        _ => false,
    }
}
