//! The events that a formula needs: that with which it begins, and those without which it holds nowhere.
ghost use Rattle.std.specs.Prelude.{◌≡◌, Contains, IfSome, IsTrue};
ghost use Rattle.enf_data.specs.declared.events.Event.{Event as AnyEvent};
ghost use Rattle.enf_formula.specs.machine.FormulaViews.{tree_of};
ghost use Rattle.monitorable_guard.specs.machine.NeededEvents.{BeginsWithEvent, HoldsForNone};

use crate::guard_rows::are_variables;
use enf_data::events::{Event, NameId};
use enf_data::terms::VarId;
use enf_formula::Formula;

// Whether the formula needs an event that is not among these: both sides of an `and` do as soon as one does, and an
// `or` where both do. One that needs no event is not looked at any further.
pub fn lacks_event(formula: &Formula, events: &[Event]) -> bool
    ensures { IsTrue result → HoldsForNone events.now (tree_of formula.now) }
{
    match formula {
        Formula::Atom(_, name, _) => !has_named(events, *name),
        Formula::And(_, g, h) => lacks_event(g, events) || lacks_event(h, events),
        Formula::Or(_, g, h) => lacks_event(g, events) && lacks_event(h, events),
        Formula::Exists(_, _, g) => lacks_event(g, events),
        _ => false,
    }
}

// Whether an event has the name.
fn has_named(events: &[Event], name: NameId) -> bool
    ensures { (event : AnyEvent) → Contains events.now event → event.name ≡ name → IsTrue result }
{
    for event in events {
        if event.name == name {
            return true;
        }
    }
    false
}

// The name of the event with which the formula begins, where its terms are the columns.
pub fn event_of_columns(formula: &Formula, columns: &[VarId]) -> Option<NameId>
    ensures { IfSome result (λ name. BeginsWithEvent name columns.now (tree_of formula.now)) }
{
    match formula {
        Formula::Atom(_, name, terms) => {
            if are_variables(terms.as_slice(), columns) {
                Some(*name)
            } else {
                None
            }
        }
        Formula::And(_, g, _) => event_of_columns(g, columns),
        _ => None,
    }
}
