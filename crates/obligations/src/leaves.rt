//! What leaves of plans miss.
ghost use Rattle.std.specs.Prelude.{◌≡◌, ◌↔◌, ◌++◌, ◌∷◌, [], IfOk, IsSome, IsTrue, OnOk, Option};
ghost use Rattle.std.specs.Prelude.{Some, Contains};
ghost use Rattle.std.specs.Option.{option_to_list};
ghost use Rattle.enf_formula.specs.meaning.Satisfaction.{IsEventAmong};
ghost use Rattle.enf_data.specs.meaning.Valuations.{value_at, values_of_terms};
ghost use Rattle.enf_data.specs.declared.terms.Term.TheVariants.{Var as Variable};
ghost use Rattle.enf_data.specs.declared.terms.VarId.{VarId as AnyVariable};
ghost use Rattle.valuations.specs.machine.Bindings.{bound_in};
ghost use Rattle.obligations.specs.meaning.Obligations.{LiteralUnless, OfEvent, cause_literal, suppress_literal};
ghost use Rattle.obligations.specs.declared.literals.Literal.{Literal as AnyLiteral};

use crate::literals::{Literal, LiteralKind};
use crate::present_events::PresentEvents;
use enf_data::Event;
use enf_data::events::NameId;
use enf_data::memory::NoMemory;
use enf_data::terms::{Term, Terms};
use std::alloc::Global;
use valuations::Frame;
use valuations::arguments::{arguments_in, compare_to_terms};

// How many events are looked over at most. The set is asked for an event among more.
const MOST_LOOKED_OVER: usize = 16;

// The event that a leaf speaks of.
fn event_of(alloc: Global, name: NameId, terms: &Terms, v: &Frame<'_>) -> Result<Event, NoMemory>
    requires { (x : AnyVariable) → Contains terms.now (Variable x)
        → IsSome (value_at (bound_in v.now) x) }
    ensures name { IfOk result (λ event. event.name ≡ name) }
    ensures args { IfOk result (λ event. values_of_terms (bound_in v.now) terms.now ≡ Some event.args) }
{
    let args = arguments_in(alloc, terms.as_slice(), v)?;
    Ok(Event { name, args })
}

// Whether the event that a leaf speaks of is there. It is made only where it is one of many.
#[inline(always)]
pub fn is_there(
    alloc: Global,
    name: NameId,
    terms: &Terms,
    v: &Frame<'_>,
    events: &PresentEvents<'_>,
) -> Result<bool, NoMemory>
    requires { (x : AnyVariable) → Contains terms.now (Variable x)
        → IsSome (value_at (bound_in v.now) x) }
    ensures { IfOk result (λ there. IsTrue there
        ↔ IsEventAmong events.now name (values_of_terms (bound_in v.now) terms.now)) }
{
    match events.listed() {
        Some(few) if few.len() <= MOST_LOOKED_OVER => {
            Ok(is_among(few, name, terms.as_slice(), v))
        }
        _ => is_in_set(alloc, name, terms, v, events),
    }
}

// Whether the event that a leaf speaks of is one of many, by a look into their table.
fn is_in_set(
    alloc: Global,
    name: NameId,
    terms: &Terms,
    v: &Frame<'_>,
    events: &PresentEvents<'_>,
) -> Result<bool, NoMemory>
    requires { (x : AnyVariable) → Contains terms.now (Variable x)
        → IsSome (value_at (bound_in v.now) x) }
    ensures { IfOk result (λ there. IsTrue there
        ↔ IsEventAmong events.now name (values_of_terms (bound_in v.now) terms.now)) }
{
    let event = event_of(alloc, name, terms, v)?;
    Ok(events.contains(&event))
}

// Whether the event of the name with the values of the terms is among the events; it takes no memory.
fn is_among(events: &[Event], name: NameId, terms: &[Term], v: &Frame<'_>) -> bool
    ensures { IsTrue result ↔ IsEventAmong events.now name (values_of_terms (bound_in v.now) terms.now) }
{
    for event in events {
        if is_event(event, name, terms, v) {
            return true;
        }
    }
    false
}

// Whether it is the event of the name with the values of the terms.
fn is_event(event: &Event, name: NameId, terms: &[Term], v: &Frame<'_>) -> bool
    ensures { IsTrue result ↔ ((event.now.name ≡ name)
        × (values_of_terms (bound_in v.now) terms.now ≡ Some event.now.args)) }
{
    event.name == name && has_arguments(event, terms, v)
}

// Whether its arguments are the values of the terms. It stands apart, as most events differ in their names.
#[inline(never)]
fn has_arguments(event: &Event, terms: &[Term], v: &Frame<'_>) -> bool
    ensures { IsTrue result ↔ (values_of_terms (bound_in v.now) terms.now ≡ Some event.now.args) }
{
    compare_to_terms(event.args.as_slice(), terms, v).is_eq()
}

// What a leaf misses that wants an event to be there.
pub fn cause_missing(
    alloc: Global,
    node: u32,
    name: NameId,
    terms: &Terms,
    v: &Frame<'_>,
    events: &PresentEvents<'_>,
) -> Result<Option<Literal>, NoMemory>
    requires { (x : AnyVariable) → Contains terms.now (Variable x)
        → IsSome (value_at (bound_in v.now) x) }
    ensures { IfOk result (λ found. OfEvent name (values_of_terms (bound_in v.now) terms.now)
        (λ event. LiteralUnless (Contains events.now event) (cause_literal event node) (option_to_list found))) }
{
    if is_there(alloc, name, terms, v, events)? {
        return Ok(None);
    }
    let event = event_of(alloc, name, terms, v)?;
    Ok(Some(Literal {
        kind: LiteralKind::Cause,
        event,
        leaf: node,
    }))
}

// What a leaf misses that wants an event not to be there.
pub fn suppress_missing(
    alloc: Global,
    node: u32,
    name: NameId,
    terms: &Terms,
    v: &Frame<'_>,
    events: &PresentEvents<'_>,
) -> Result<Option<Literal>, NoMemory>
    requires { (x : AnyVariable) → Contains terms.now (Variable x)
        → IsSome (value_at (bound_in v.now) x) }
    ensures { IfOk result (λ found. OfEvent name (values_of_terms (bound_in v.now) terms.now)
        (λ event. LiteralUnless (Contains events.now event → ⊥) (suppress_literal event node)
        (option_to_list found))) }
{
    if !is_there(alloc, name, terms, v, events)? {
        return Ok(None);
    }
    let event = event_of(alloc, name, terms, v)?;
    Ok(Some(Literal {
        kind: LiteralKind::Suppress,
        event,
        leaf: node,
    }))
}

// Puts what a leaf misses last that wants an event to be there.
pub fn push_cause(
    alloc: Global,
    node: u32,
    name: NameId,
    terms: &Terms,
    v: &Frame<'_>,
    events: &PresentEvents<'_>,
    out: &mut Vec<Literal>,
) -> Result<(), NoMemory>
    requires { (x : AnyVariable) → Contains terms.now (Variable x)
        → IsSome (value_at (bound_in v.now) x) }
    ensures { OnOk result ((found : Option AnyLiteral) × OfEvent name (values_of_terms (bound_in v.now) terms.now)
        (λ event. LiteralUnless (Contains events.now event) (cause_literal event node) (option_to_list found))
        × (out.new.items ≡ out.old.items ++ option_to_list found)) }
{
    if is_there(alloc, name, terms, v, events)? {
        return Ok(());
    }
    push_literal(alloc, LiteralKind::Cause, node, name, terms, v, out)
}

// Puts what a leaf misses last that wants an event not to be there.
pub fn push_suppress(
    alloc: Global,
    node: u32,
    name: NameId,
    terms: &Terms,
    v: &Frame<'_>,
    events: &PresentEvents<'_>,
    out: &mut Vec<Literal>,
) -> Result<(), NoMemory>
    requires { (x : AnyVariable) → Contains terms.now (Variable x)
        → IsSome (value_at (bound_in v.now) x) }
    ensures { OnOk result ((found : Option AnyLiteral) × OfEvent name (values_of_terms (bound_in v.now) terms.now)
        (λ event. LiteralUnless (Contains events.now event → ⊥) (suppress_literal event node)
        (option_to_list found))
        × (out.new.items ≡ out.old.items ++ option_to_list found)) }
{
    if !is_there(alloc, name, terms, v, events)? {
        return Ok(());
    }
    push_literal(alloc, LiteralKind::Suppress, node, name, terms, v, out)
}

// Puts the literal last of the event that a leaf speaks of.
fn push_literal(
    alloc: Global,
    kind: LiteralKind,
    leaf: u32,
    name: NameId,
    terms: &Terms,
    v: &Frame<'_>,
    out: &mut Vec<Literal>,
) -> Result<(), NoMemory>
    requires { (x : AnyVariable) → Contains terms.now (Variable x)
        → IsSome (value_at (bound_in v.now) x) }
    ensures { OnOk result (OfEvent name (values_of_terms (bound_in v.now) terms.now)
        (λ event. out.new.items ≡ out.old.items ++ record { kind = kind; event = event; leaf = leaf } ∷ [])) }
{
    let args = arguments_in(alloc, terms.as_slice(), v)?;
    let event = Event { name, args };
    out.push(Literal { kind, event, leaf })?;
    Ok(())
}
