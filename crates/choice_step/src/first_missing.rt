//! Who is the first at a step that misses something, and what is to be done for that one.
ghost use Rattle.std.specs.Prelude.{◌≡◌, ◌↔◌, ◌<◌, ◌≤◌, ◌⊎◌, List, [], Contains, IfOk, IsTrue, OnOk, Some, length};
ghost use Rattle.std.specs.Prelude.{slice_get};
ghost use Rattle.std.specs.List.{AllByRecursion};
ghost use Rattle.choice_step.specs.meaning.Choice.{Waiting, action_at, action_at_root};
ghost use Rattle.choice_step.specs.machine.RuleTriggers.{GainsNoSuppressed};
ghost use Rattle.choice_step.specs.machine.Situations.{CanDecideSituation, situation_plans};
ghost use Rattle.choice_step.specs.machine.StillToAsk.{FirstRootsAreMet, InstancesAreMet, IsAskingIn, IsDecidedAt};
ghost use Rattle.choice_step.specs.machine.StillToAsk.{IsFirstNext, IsNextAt, IsNextOf, IsNowOfSituation, IsOfInstance};
ghost use Rattle.choice_step.specs.machine.StillToAsk.{IsUnasked, RootIgnoresAll, RootIsMet, WillHold};
ghost use Rattle.enf_data.specs.declared.events.Event.{Event as AnyEvent};
ghost use Rattle.obligations.specs.machine.Leaves.{ChangesEvents};
ghost use Rattle.obligations.specs.machine.PlanClasses.{IsPlain};
ghost use Rattle.plan_terms.specs.meaning.Plans.{nodes};
ghost use Rattle.plan_terms.specs.machine.StoredPlans.{plan_of};

use crate::changing::Changing;
use crate::situation::Situation;
use crate::unasked::Unasked;
use enf_data::items::Duplicate;
use enf_data::memory::NoMemory;
use obligations::laws::{fresh_can_be_asked, pending_exists, stale_now_stands, unwoken_is_idle};
use obligations::missing_literals::{first_missing, first_missing_of, lack};
use obligations::moved_plans::ignores_all;
use obligations::pending_parts::is_forced;
use obligations::plain_plans::is_plain;
use obligations::{Action, Instance, Literal, LiteralKind, Now};
use pending::Asking;
use pending::laws::sleepers_stay;
use plan_terms::Plan;
use std::alloc::Global;
use valuations::{Frame, Valuation};

// What is to be done next at a step for the first that misses something: an action, or those for what the root of a
// rule misses. Or its order and its tables are to be made anew, as whoever is next looks for a stale name. Or nothing
// is missing.
#[derive(Drop)]
pub enum Next {
    Act(Box<Action>),
    ActFor(Missed),
    Renew,
    Done,
}

// All that the root of a rule without choices misses, which is something.
#[derive(Drop)]
pub struct Missed {
    pub rule: usize,
    pub literals: Vec<Literal>,
}

// What is to be done for the first that misses something at the step. Whoever is asked and misses nothing goes from
// those that are still to be asked.
pub fn find(
    alloc: Global,
    situation: &Situation<'_>,
    now: &Now<'_>,
    unasked: &mut Unasked<'_>,
) -> Result<Next, NoMemory>
    requires can { CanDecideSituation situation.now }
    requires now { IsNowOfSituation situation.now now.now }
    requires fewer { GainsNoSuppressed (situation_plans situation.now) now.now.ordered.now now.now.events.now }
    requires kept { (told : List AnyEvent) × IsUnasked situation.now now.now.events.now told unasked.old }
    ensures kept { OnOk result ((told : List AnyEvent) → IsUnasked situation.now now.now.events.now told unasked.old
        → IsUnasked situation.now now.now.events.now told unasked.new) }
    ensures told { unasked.new.roused ≡ unasked.old.roused }
    ensures next { IfOk result (IsNextAt situation.now now.now
        (IsDecidedAt situation.now now.now.events.now now.now.stale.now)) }
    ensures first { IfOk result (IsFirstNext unasked.new) }
{
    match find_waiting(alloc, situation, now, &mut unasked.asking)? {
        Next::Done => {}
        next => return Ok(next),
    }
    if !now.stale.is_empty() {
        return Ok(Next::Renew);
    }
    find_root(alloc, situation, now, unasked)
}

// What is to be done for the first of the pending instances that misses something.
fn find_waiting(
    alloc: Global,
    situation: &Situation<'_>,
    now: &Now<'_>,
    asking: &mut Asking<'_>,
) -> Result<Next, NoMemory>
    requires can { CanDecideSituation situation.now }
    requires now { IsNowOfSituation situation.now now.now }
    requires kept { (told : List AnyEvent) × IsAskingIn situation.now now.now.events.now told asking.old }
    ensures kept { OnOk result ((told : List AnyEvent) → IsAskingIn situation.now now.now.events.now told asking.old
        → IsAskingIn situation.now now.now.events.now told asking.new) }
    ensures next { IfOk result (IsNextAt situation.now now.now (asking.new.ahead ≡ [])) }
    ensures waits { IfOk result IsOfInstance }
{
    stale_now_stands();
    fresh_can_be_asked();
    sleepers_stay();
    pending_exists();
    while let Some(instance) = asking.next() {
        if !ignores_all(situation.plans, instance, now.stale) {
            return Ok(Next::Renew);
        }
        let forced = is_forced(instance, now.time, situation.inserted);
        let Some(literal) = first_missing_of(alloc, instance, situation.plans, now, forced)? else {
            asking.met()?;
            continue;
        };
        let action = action_of_instance(alloc, instance, literal, now.time, now.position)?;
        let apart = boxed(alloc, action)?;
        return Ok(Next::Act(apart));
    }
    Ok(Next::Done)
}

// What is to be done for the first of the roots that misses something, where no pending instance does.
fn find_root(
    alloc: Global,
    situation: &Situation<'_>,
    now: &Now<'_>,
    unasked: &mut Unasked<'_>,
) -> Result<Next, NoMemory>
    requires can { CanDecideSituation situation.now }
    requires now { IsNowOfSituation situation.now now.now }
    requires fewer { GainsNoSuppressed (situation_plans situation.now) now.now.ordered.now now.now.events.now }
    requires fresh { now.now.stale.now ≡ [] }
    requires kept { (told : List AnyEvent) × IsUnasked situation.now now.now.events.now told unasked.old }
    requires none { unasked.old.asking.ahead ≡ [] }
    ensures kept { OnOk result ((told : List AnyEvent) → IsUnasked situation.now now.now.events.now told unasked.old
        → IsUnasked situation.now now.now.events.now told unasked.new) }
    ensures told { unasked.new.roused ≡ unasked.old.roused }
    ensures next { IfOk result (IsNextAt situation.now now.now
        (IsDecidedAt situation.now now.now.events.now now.now.stale.now)) }
    ensures first { IfOk result (IsFirstNext unasked.new) }
{
    sleepers_stay();
    pending_exists();
    loop {
        let rule = next_root(situation, now, unasked);
        if rule >= situation.plans.len() {
            return Ok(Next::Done);
        }
        match ask_root(alloc, situation, now, rule)? {
            Next::Done => unasked.met(rule),
            next => return Ok(next),
        }
    }
}

// The first root that is to be asked: one again, or the next that the step can wake.
fn next_root(situation: &Situation<'_>, now: &Now<'_>, unasked: &mut Unasked<'_>) -> usize
    requires can { CanDecideSituation situation.now }
    requires now { IsNowOfSituation situation.now now.now }
    requires fewer { GainsNoSuppressed (situation_plans situation.now) now.now.ordered.now now.now.events.now }
    requires fresh { now.now.stale.now ≡ [] }
    requires kept { (told : List AnyEvent) × IsUnasked situation.now now.now.events.now told unasked.old }
    ensures kept { (told : List AnyEvent) → IsUnasked situation.now now.now.events.now told unasked.old
        → IsUnasked situation.now now.now.events.now told unasked.new }
    ensures told { unasked.new.roused ≡ unasked.old.roused }
    ensures asking { unasked.new.asking ≡ unasked.old.asking }
    ensures again { unasked.new.again ≡ unasked.old.again }
    ensures ahead { unasked.old.from ≤ unasked.new.from }
    ensures there { (result ≡ unasked.new.from) ⊎ Contains unasked.new.again.items result }
    ensures within { result ≤ unasked.new.from }
    ensures before { WillHold situation.now now.now.events.now (FirstRootsAreMet situation.now result) }
{
    stale_now_stands();
    unwoken_is_idle();
    let again = unasked.first_root();
    if again < unasked.from {
        return again;
    }
    let all = now.ordered.set().as_slice();
    let next = situation.wakes.next_awake(unasked.from, all, now.ordered);
    unasked.from = next;
    next
}

// What is to be done for the root of a rule, which is the first to be asked, or that it misses nothing.
fn ask_root(
    alloc: Global,
    situation: &Situation<'_>,
    now: &Now<'_>,
    rule: usize,
) -> Result<Next, NoMemory>
    requires can { CanDecideSituation situation.now }
    requires now { IsNowOfSituation situation.now now.now }
    requires fresh { now.now.stale.now ≡ [] }
    requires waiting { WillHold situation.now now.now.events.now (InstancesAreMet situation.now) }
    requires before { WillHold situation.now now.now.events.now (FirstRootsAreMet situation.now rule) }
    requires within { rule < length situation.now.plans.now }
    ensures next { IfOk result (IsNextAt situation.now now.now (RootIsMet situation.now now.now.events.now rule)) }
    ensures rule { IfOk result (IsNextOf rule) }
{
    stale_now_stands();
    sleepers_stay();
    pending_exists();
    let plan = &situation.plans[rule];
    if is_plain(plan) {
        return ask_plain(alloc, situation, now, rule, plan);
    }
    let nothing = Valuation::empty(alloc);
    let Some(literal) = first_missing(alloc, plan, &Frame::Whole(&nothing), now)? else {
        return Ok(Next::Done);
    };
    let action = root_action(alloc, rule as u32, literal, now.time, now.position);
    let apart = boxed(alloc, action)?;
    Ok(Next::Act(apart))
}

// The same, where its plan has no choices.
#[inline(always)]
pub fn ask_plain(
    alloc: Global,
    situation: &Situation<'_>,
    now: &Now<'_>,
    rule: usize,
    plan: &Plan,
) -> Result<Next, NoMemory>
    requires can { CanDecideSituation situation.now }
    requires now { IsNowOfSituation situation.now now.now }
    requires ignores { RootIgnoresAll situation.now rule now.now.stale.now }
    requires waiting { WillHold situation.now now.now.events.now (InstancesAreMet situation.now) }
    requires before { WillHold situation.now now.now.events.now (FirstRootsAreMet situation.now rule) }
    requires there { slice_get (situation_plans situation.now) rule ≡ Some (plan_of plan.now) }
    requires plain { AllByRecursion IsPlain (nodes (plan_of plan.now)) }
    ensures next { IfOk result (IsNextAt situation.now now.now (RootIsMet situation.now now.now.events.now rule)) }
    ensures rule { IfOk result (IsNextOf rule) }
{
    stale_now_stands();
    fresh_can_be_asked();
    let nothing = Valuation::empty(alloc);
    let literals = lack(alloc, plan, &nothing, now)?;
    if literals.is_empty() {
        return Ok(Next::Done);
    }
    Ok(Next::ActFor(Missed { rule, literals }))
}

// Whether a guard looks for the name of the first event that is missed.
pub fn is_looked_for(situation: &Situation<'_>, missed: &Missed) -> bool {
    match missed.literals.first() {
        Some(literal) => situation.past.looks_for(literal.event.name),
        None => false,
    }
}

// Whether an event that is to be caused is absent, or one that is to be suppressed there.
pub fn is_wanted(literal: &Literal, events: &Changing) -> bool
    ensures { IsTrue result ↔ ChangesEvents literal.now.kind literal.now.event events.now }
{
    match literal.kind {
        LiteralKind::Cause => !events.contains(&literal.event),
        LiteralKind::Suppress => events.contains(&literal.event),
    }
}

// An action in memory of its own, so that what is to be done next is small.
fn boxed(alloc: Global, action: Action) -> Result<Box<Action>, NoMemory>
    ensures { IfOk result (λ boxed. boxed.value ≡ action) }
{
    let Ok(boxed) = Box::new(alloc, action) else {
        return Err(NoMemory);
    };
    Ok(boxed)
}

// The action for a pending instance that misses a literal.
#[inline(always)]
fn action_of_instance(
    alloc: Global,
    instance: &Instance,
    literal: Literal,
    time: u64,
    position: u64,
) -> Result<Action, NoMemory>
    ensures { IfOk result (λ action. action ≡ action_at time position (Waiting instance.now) literal) }
{
    let valuation = instance.valuation.duplicate(alloc)?;
    Ok(Action {
        kind: literal.kind,
        event: literal.event,
        time,
        position,
        rule: instance.rule,
        node: instance.node,
        leaf: literal.leaf,
        origin: instance.origin,
        valuation,
    })
}

// The action for the root of a rule that misses a literal.
#[inline(always)]
pub fn root_action(alloc: Global, rule: u32, literal: Literal, time: u64, position: u64) -> Action
    ensures { result ≡ action_at_root time position rule literal }
{
    Action {
        kind: literal.kind,
        event: literal.event,
        time,
        position,
        rule,
        node: 0,
        leaf: literal.leaf,
        origin: position,
        valuation: Valuation::empty(alloc),
    }
}
