//! What is done at a step for what was found there.
ghost use Rattle.std.specs.Prelude.{◌≡◌, ◌<◌, ◌≤◌, ◌++◌, ◌∷◌, ℕ, List, [], Contains, IfOk, IsTrue, OnOk};
ghost use Rattle.std.specs.Prelude.{drop, false, length};
ghost use Rattle.choice_step.specs.machine.Situations.{CanDecideSituation, SituationLeads, situation_plans};
ghost use Rattle.choice_step.specs.machine.StillToAsk.{AreWanted, AsksMovedAgain, IsMissedAtRoot, IsUnaskedAt};
ghost use Rattle.choice_step.specs.machine.StillToAsk.{LeavesOthers, PassesUnmoved, RootIsMet, RootLeavesRest, Spoils};
ghost use Rattle.choice_step.specs.machine.Turns.{GoesStale, IsMetAfter, RousesEach, caused_first, events_caused};
ghost use Rattle.choice_step.specs.machine.WantedActions.{IsWantedFrom};
ghost use Rattle.choice_step.specs.meaning.ActedSteps.{Applies};
ghost use Rattle.enf_data.specs.declared.events.Event.{Event as AnyEvent};
ghost use Rattle.enf_data.specs.meaning.Membership.{HasNoRepeats};
ghost use Rattle.obligations.specs.declared.literals.Literal.{Literal as AnyLiteral};
ghost use Rattle.obligations.specs.machine.Leaves.{ChangesEvents};
ghost use Rattle.past_state.specs.machine.Past.{guard_names};
ghost use Rattle.pending.specs.machine.AskedEntries.{AskingList, AsksMoved};

use crate::actions::{Action, Actions};
use crate::changing::Changing;
use crate::first_missing::{Missed, is_wanted, root_action};
use crate::situation::Situation;
use crate::unasked::Unasked;
use enf_data::events::NameId;
use enf_data::items::Duplicate;
use enf_data::memory::NoMemory;
use obligations::laws::{pending_exists, unread_stays_met};
use obligations::moved_plans::{is_unmoved, leaves_rest, stays_met};
use obligations::{Literal, LiteralKind};
use pending::Asking;
use pending::laws::sleepers_stay;
use std::alloc::Global;

// Does an action. If a guard looks for its name, the name is stale, and whom the action may move is to be asked again.
pub fn act(
    alloc: Global,
    situation: &Situation<'_>,
    action: Action,
    events: &mut Changing,
    unasked: &mut Unasked<'_>,
    stale: &mut Vec<NameId>,
    actions: &mut Actions,
) -> Result<(), NoMemory>
    requires can { CanDecideSituation situation.now }
    requires wanted { (given : List AnyEvent) × IsWantedFrom (situation_plans situation.now)
        situation.now.pending.now.instances situation.now.past.now given events.old action }
    requires kept { IsUnaskedAt situation.now events.old actions.old unasked.old }
    ensures distinct { OnOk result (HasNoRepeats events.old) }
    ensures applies { OnOk result (Applies action.kind action.event events.old events.new) }
    ensures pushed { OnOk result (actions.new ≡ actions.old ++ action ∷ []) }
    ensures kept { OnOk result (IsUnaskedAt situation.now events.new actions.new unasked.new) }
    ensures from { unasked.new.from ≡ unasked.old.from }
    ensures spared { OnOk result ((Contains (guard_names situation.now.past.now.guards) action.event.name → ⊥)
        → unasked.new ≡ unasked.old) }
    ensures stale { OnOk result (Spoils (guard_names situation.now.past.now.guards) action.event.name
        stale.old.items stale.new.items) }
{
    unread_stays_met();
    sleepers_stay();
    pending_exists();
    let kind = action.kind;
    let name = action.event.name;
    apply(alloc, events, &action)?;
    push(alloc, actions, action)?;
    if !situation.past.looks_for(name) {
        return Ok(());
    }
    spoil(stale, name)?;
    ask_again(situation, kind, name, unasked, actions)?;
    Ok(())
}

// Does the actions for what a root misses, one after another, as long as it misses the rest of that and nobody before
// it misses anything. A root that missed one action alone counts as met then, though others are asked before it.
pub fn act_for(
    alloc: Global,
    situation: &Situation<'_>,
    missed: Missed,
    events: &mut Changing,
    unasked: &mut Unasked<'_>,
    stale: &mut Vec<NameId>,
    actions: &mut Actions,
) -> Result<(), NoMemory>
    requires can { CanDecideSituation situation.now }
    requires missed { (given : List AnyEvent)
        × IsMissedAtRoot situation.now given events.old missed.rule missed.literals.items }
    requires wanted { (0 < length missed.literals.items) × AreWanted events.old missed.literals.items }
    requires first { (unasked.old.asking.ahead ≡ []) × (missed.rule ≤ unasked.old.from) }
    requires kept { IsUnaskedAt situation.now events.old actions.old unasked.old }
    ensures acts { OnOk result ((given : List AnyEvent)
        → IsMissedAtRoot situation.now given events.old missed.rule missed.literals.items
        → SituationLeads situation.now given events.old actions.old events.new actions.new) }
    ensures more { OnOk result (length actions.old < length actions.new) }
    ensures kept { OnOk result (IsUnaskedAt situation.now events.new actions.new unasked.new) }
    ensures stale { OnOk result (GoesStale (guard_names situation.now.past.now.guards) stale.old.items events.old
        stale.new.items events.new) }
    ensures met { OnOk result (stale.new.items ≡ [] → IsMetAfter situation.now events.new missed.rule) }
{
    let Missed { rule, mut literals } = missed;
    let first = literals.remove(0);
    let kind = first.kind;
    let name = first.event.name;
    if !act_one(
        alloc, situation, rule, first, events, unasked, stale, actions,
    )? {
        if !literals.is_empty() {
            return Ok(());
        }
        if !leaves_root(situation, rule, kind, name) {
            return Ok(());
        }
        unasked.met(rule);
        return Ok(());
    }
    let rest = literals.as_slice();
    act_on(
        alloc, situation, rule, rest, events, unasked, stale, actions,
    )?;
    Ok(())
}

// Does those for the rest, where it is still wanted.
fn act_on(
    alloc: Global,
    situation: &Situation<'_>,
    rule: usize,
    literals: &[Literal],
    events: &mut Changing,
    unasked: &mut Unasked<'_>,
    stale: &mut Vec<NameId>,
    actions: &mut Actions,
) -> Result<(), NoMemory>
    requires can { CanDecideSituation situation.now }
    requires missed { (given : List AnyEvent) × IsMissedAtRoot situation.now given events.old rule literals.now }
    requires first { (unasked.old.asking.ahead ≡ []) × (rule ≤ unasked.old.from) }
    requires kept { IsUnaskedAt situation.now events.old actions.old unasked.old }
    ensures acts { OnOk result ((given : List AnyEvent)
        → IsMissedAtRoot situation.now given events.old rule literals.now
        → SituationLeads situation.now given events.old actions.old events.new actions.new) }
    ensures kept { OnOk result (IsUnaskedAt situation.now events.new actions.new unasked.new) }
    ensures stale { OnOk result (GoesStale (guard_names situation.now.past.now.guards) stale.old.items events.old
        stale.new.items events.new) }
    ensures met { OnOk result (stale.new.items ≡ [] → IsMetAfter situation.now events.new rule) }
{
    for literal in literals {
        if !is_wanted(literal, events) {
            continue;
        }
        let copy = copy_of(alloc, literal)?;
        if !act_one(
            alloc, situation, rule, copy, events, unasked, stale, actions,
        )? {
            return Ok(());
        }
    }
    unasked.met(rule);
    Ok(())
}

fn copy_of(alloc: Global, literal: &Literal) -> Result<Literal, NoMemory>
    ensures { IfOk result (λ copy. copy ≡ literal.now) }
{
    let event = literal.event.duplicate(alloc)?;
    Ok(Literal {
        kind: literal.kind,
        event,
        leaf: literal.leaf,
    })
}

// Does the action for a literal that a root misses. It answers whether the root misses the rest after it, and nobody
// before it misses anything.
fn act_one(
    alloc: Global,
    situation: &Situation<'_>,
    rule: usize,
    literal: Literal,
    events: &mut Changing,
    unasked: &mut Unasked<'_>,
    stale: &mut Vec<NameId>,
    actions: &mut Actions,
) -> Result<bool, NoMemory>
    requires can { CanDecideSituation situation.now }
    requires missed { (given : List AnyEvent) × (rest : List AnyLiteral)
        × IsMissedAtRoot situation.now given events.old rule (literal ∷ rest) }
    requires wanted { ChangesEvents literal.kind literal.event events.old }
    requires first { (unasked.old.asking.ahead ≡ []) × (rule ≤ unasked.old.from) }
    requires kept { IsUnaskedAt situation.now events.old actions.old unasked.old }
    ensures acts { OnOk result ((given : List AnyEvent) (rest : List AnyLiteral)
        → IsMissedAtRoot situation.now given events.old rule (literal ∷ rest)
        → SituationLeads situation.now given events.old actions.old events.new actions.new) }
    ensures more { OnOk result (length actions.old < length actions.new) }
    ensures kept { OnOk result (IsUnaskedAt situation.now events.new actions.new unasked.new) }
    ensures from { unasked.new.from ≡ unasked.old.from }
    ensures stale { OnOk result (GoesStale (guard_names situation.now.past.now.guards) stale.old.items events.old
        stale.new.items events.new) }
    ensures on { IfOk result (λ on. IsTrue on → (unasked.new.asking.ahead ≡ [])
        × ((given : List AnyEvent) (rest : List AnyLiteral)
        → IsMissedAtRoot situation.now given events.old rule (literal ∷ rest)
        → IsMissedAtRoot situation.now given events.new rule rest)) }
    ensures last { OnOk result ((given : List AnyEvent)
        → IsMissedAtRoot situation.now given events.old rule (literal ∷ [])
        → RootLeavesRest situation.now literal.kind literal.event.name rule → RootIsMet situation.now events.new rule) }
    ensures spoilt { IfOk result (λ on. on ≡ false → 0 < length stale.new.items) }
{
    unread_stays_met();
    let kind = literal.kind;
    let name = literal.event.name;
    let time = situation.time;
    let action = root_action(alloc, rule as u32, literal, time, situation.position);
    act(alloc, situation, action, events, unasked, stale, actions)?;
    let on = goes_on(situation, rule, kind, name, unasked)?;
    Ok(on)
}

// Whether after an action on the name the root of a rule misses the rest of what it missed, and nobody before it misses
// anything, as nobody did.
fn goes_on(
    situation: &Situation<'_>,
    rule: usize,
    kind: LiteralKind,
    name: NameId,
    unasked: &mut Unasked<'_>,
) -> Result<bool, NoMemory>
    ensures from { unasked.new.from ≡ unasked.old.from }
    ensures again { unasked.new.again.items ≡ unasked.old.again.items }
    ensures told { unasked.new.roused ≡ unasked.old.roused }
    ensures passes { OnOk result (PassesUnmoved (situation_plans situation.now) kind name unasked.old.asking
        unasked.new.asking) }
    ensures on { IfOk result (λ on. IsTrue on → LeavesOthers situation.now kind name rule unasked.new) }
    ensures looked { IfOk result (λ on. on ≡ false
        → Contains (guard_names situation.now.past.now.guards) name) }
    ensures spared { OnOk result ((Contains (guard_names situation.now.past.now.guards) name → ⊥)
        → unasked.new ≡ unasked.old) }
{
    if !situation.past.looks_for(name) {
        return Ok(true);
    }
    if unasked.first_root() < rule {
        return Ok(false);
    }
    if !leaves_root(situation, rule, kind, name) {
        return Ok(false);
    }
    let all = pass_unmoved(situation, kind, name, &mut unasked.asking)?;
    Ok(all)
}

// Whether after an action on the name the root of a rule misses the rest of what it missed.
fn leaves_root(situation: &Situation<'_>, rule: usize, kind: LiteralKind, name: NameId) -> bool
    ensures { IsTrue result → RootLeavesRest situation.now kind name rule }
{
    match situation.plans.get(rule) {
        Some(plan) => leaves_rest(plan, kind, name),
        None => false,
    }
}

// Passes those that an action on the name leaves met, as they were, and answers whether those are all.
fn pass_unmoved(
    situation: &Situation<'_>,
    kind: LiteralKind,
    name: NameId,
    asking: &mut Asking<'_>,
) -> Result<bool, NoMemory>
    ensures passes { OnOk result (PassesUnmoved (situation_plans situation.now) kind name asking.old asking.new) }
    ensures all { IfOk result (λ all. IsTrue all → asking.new.ahead ≡ []) }
{
    while let Some(instance) = asking.next() {
        if !stays_met(situation.plans, instance, kind, name) {
            return Ok(false);
        }
        asking.met()?;
    }
    Ok(true)
}

// Adds the event of an action to the step, or takes it out.
#[inline(always)]
fn apply(alloc: Global, events: &mut Changing, action: &Action) -> Result<(), NoMemory>
    requires { ChangesEvents action.now.kind action.now.event events.old }
    ensures distinct { OnOk result (HasNoRepeats events.old) }
    ensures applies { OnOk result (Applies action.now.kind action.now.event events.old events.new) }
{
    match action.kind {
        LiteralKind::Cause => {
            let event = action.event.duplicate(alloc)?;
            events.add(event)
        }
        LiteralKind::Suppress => events.take_out(&action.event),
    }
}

// From now on the name is stale.
fn spoil(stale: &mut Vec<NameId>, name: NameId) -> Result<(), NoMemory>
    ensures kept { Spoils [] name stale.old.items stale.new.items }
    ensures has { OnOk result (Contains stale.new.items name) }
{
    for other in stale.as_slice() {
        if is_same(*other, name) {
            return Ok(());
        }
    }
    stale.push(name)?;
    Ok(())
}

fn is_same(one: NameId, other: NameId) -> bool
    ensures { IsTrue result → one ≡ other }
{
    one.0 == other.0
}

// Those are to be asked again that the last of the actions may move, or that sleep and one of the actions wakes.
fn ask_again(
    situation: &Situation<'_>,
    kind: LiteralKind,
    name: NameId,
    unasked: &mut Unasked<'_>,
    actions: &Actions,
) -> Result<(), NoMemory>
    requires { unasked.old.roused ≤ length actions.now }
    ensures from { unasked.new.from ≡ unasked.old.from }
    ensures again { (rule : ℕ) → Contains unasked.old.again.items rule → Contains unasked.new.again.items rule }
    ensures told { OnOk result (unasked.new.roused ≡ length actions.now) }
    ensures rouses { OnOk result ((between : AskingList)
        × RousesEach (events_caused (drop unasked.old.roused actions.now)) unasked.old.asking between
        × AsksMoved (situation_plans situation.now) kind name between unasked.new.asking) }
    ensures roots { OnOk result (AsksMovedAgain situation.now kind name unasked.new.from unasked.new.again.items) }
{
    rouse(unasked, actions.as_slice())?;
    unasked.asking.ask_moved(situation.plans, kind, name)?;
    ask_roots(situation, kind, name, unasked)?;
    Ok(())
}

// Tells those that sleep of the events that were added since they were told.
fn rouse(unasked: &mut Unasked<'_>, actions: &[Action]) -> Result<(), NoMemory>
    requires { unasked.old.roused ≤ length actions.now }
    ensures from { unasked.new.from ≡ unasked.old.from }
    ensures again { unasked.new.again.items ≡ unasked.old.again.items }
    ensures told { OnOk result (unasked.new.roused ≡ length actions.now) }
    ensures rouses { OnOk result (RousesEach (events_caused (drop unasked.old.roused actions.now))
        unasked.old.asking unasked.new.asking) }
{
    while unasked.roused < actions.len() {
        let action = &actions[unasked.roused];
        rouse_by(&mut unasked.asking, action)?;
        unasked.roused += 1;
    }
    Ok(())
}

// Tells those that sleep of the event of an action, if it was added.
fn rouse_by(asking: &mut Asking<'_>, action: &Action) -> Result<(), NoMemory>
    ensures { OnOk result (RousesEach (caused_first action.now.kind action.now.event []) asking.old asking.new) }
{
    match action.kind {
        LiteralKind::Cause => asking.rouse(&action.event)?,
        LiteralKind::Suppress => {}
    }
    Ok(())
}

// Those of the roots are to be asked again that were asked and that an action on the name may move.
fn ask_roots(
    situation: &Situation<'_>,
    kind: LiteralKind,
    name: NameId,
    unasked: &mut Unasked<'_>,
) -> Result<(), NoMemory>
    ensures asking { unasked.new.asking ≡ unasked.old.asking }
    ensures from { unasked.new.from ≡ unasked.old.from }
    ensures told { unasked.new.roused ≡ unasked.old.roused }
    ensures kept { (rule : ℕ) → Contains unasked.old.again.items rule → Contains unasked.new.again.items rule }
    ensures moved { OnOk result (AsksMovedAgain situation.now kind name unasked.new.from unasked.new.again.items) }
{
    let plans = situation.plans;
    for rule in 0..plans.len() {
        if rule >= unasked.from {
            return Ok(());
        }
        let plan = &plans[rule];
        if is_unmoved(plan, kind, name) {
            continue;
        }
        unasked.ask_again(rule)?;
    }
    Ok(())
}

// Puts an action last. Most steps have one at most, which takes the memory of one.
#[inline(always)]
fn push(alloc: Global, actions: &mut Actions, action: Action) -> Result<(), NoMemory>
    ensures { OnOk result (actions.new ≡ actions.old ++ action ∷ []) }
{
    if actions.is_empty() {
        let mut one = Vec::with_capacity(alloc, 1)?;
        one.push_reserved(action);
        *actions = Actions::from_vec(one);
        return Ok(());
    }
    match actions.push(action) {
        Ok(()) => Ok(()),
        Err(_action) => Err(NoMemory),
    }
}
