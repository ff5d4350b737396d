//! The choice loop: what is added at a step and taken out, so that nothing is missing there.
ghost use Rattle.std.specs.Prelude.{◌≡◌, ◌<◌, ◌≤◌, List, [], false, IfOk, IsTrue, None, OnOk, length, map};
ghost use Rattle.choice_step.specs.machine.RuleTriggers.{GainsNoSuppressed};
ghost use Rattle.choice_step.specs.machine.Situations.{CanDecideSituation, SituationFinds, SituationLeads};
ghost use Rattle.choice_step.specs.machine.Situations.{situation_plans};
ghost use Rattle.choice_step.specs.machine.StepChoices.{CanDecide, IsChoice, step_situation};
ghost use Rattle.choice_step.specs.machine.StillToAsk.{AreWanted, IsDecidedAt, IsFirstNext, IsForSome, IsMissedAtRoot};
ghost use Rattle.choice_step.specs.machine.StillToAsk.{IsNextFor, IsUnasked, IsUnaskedAt};
ghost use Rattle.choice_step.specs.machine.Turns.{EndsWith, IsForLast, NoneIsWoken};
ghost use Rattle.enf_data.specs.declared.events.Event.{Event as AnyEvent};
ghost use Rattle.enf_formula.specs.machine.Agreement.{HaveSameEvents};
ghost use Rattle.obligations.specs.machine.FreshGuards.{HaveSameFreshEvents};
ghost use Rattle.past_state.specs.machine.Past.{AreTablesAtStep, GuardsWillHold, guard_names};
ghost use Rattle.past_state.specs.machine.ValueSources.{AreKnown};
ghost use Rattle.plan_terms.specs.machine.StoredPlans.{plan_of};
ghost use Rattle.plan_terms.specs.machine.WakingNames.{waking_names};

use crate::actions::Actions;
use crate::apply_actions::{act, act_for};
use crate::asked_again::{act_alone, find_again};
use crate::changing::Changing;
use crate::first_missing::{Missed, Next, find, is_looked_for};
use crate::laws::actions_are_justified;
use crate::rule_triggers::Wakes;
use crate::situation::Situation;
use crate::unasked::Unasked;
use enf_data::event_sets::EventSet;
use enf_data::events::NameId;
use enf_data::items::Duplicate;
use enf_data::memory::NoMemory;
use monitorable_guard::StepEvents;
use obligations::laws::{pending_exists, unwoken_is_idle};
use obligations::{Now, PresentEvents};
use past_state::laws::unread_tables_stay;
use past_state::{PastState, Tables};
use pending::Pending;
use pending::laws::sleepers_stay;
use plan_terms::Plan;
use std::alloc::Global;

/// What is done at a step: its events at the end, the actions that led to them in their order, and the tables of the
/// past at the step with these events.
#[derive(Drop)]
pub struct Choice {
    pub events: EventSet,
    pub actions: Actions,
    pub tables: Tables,
}

// What is left of a round of the loop: the events, the tables of the past at those with which it began, and whether
// nothing is missing, where they are the tables at its end too.
#[derive(Drop)]
struct Round {
    events: EventSet,
    tables: Tables,
    ended: bool,
}

// What the first look of a round shows: what is to be done, the tables of the past, and whether that is for the root
// of a rule without choices after which no rule is woken.
#[derive(Drop)]
struct Seen {
    next: Next,
    tables: Tables,
    last: bool,
}

/// Runs the choice loop at a step at this time and position, which begins with these events: as long as one of the
/// pending instances or of the roots of rules misses something, it acts for the first that does. At an inserted step
/// those instances are forced whose window ends at the step's time.
pub fn choose(
    alloc: Global,
    plans: &[Plan],
    pending: &Pending,
    past: &PastState,
    time: u64,
    position: u64,
    events: EventSet,
    inserted: bool,
) -> Result<Choice, NoMemory>
    requires can { CanDecide (step_situation plans.now pending.now past.now time position inserted) }
    ensures chosen { IfOk result
        (IsChoice (step_situation plans.now pending.now past.now time position inserted) events) }
{
    let wakes = Wakes::of(alloc, plans)?;
    choose_with(
        alloc, &wakes, plans, pending, past, time, position, events, inserted,
    )
}

/// Decides a step with what wakes the rules, which is made once for the plans.
pub fn choose_with(
    alloc: Global,
    wakes: &Wakes,
    plans: &[Plan],
    pending: &Pending,
    past: &PastState,
    time: u64,
    position: u64,
    events: EventSet,
    inserted: bool,
) -> Result<Choice, NoMemory>
    requires wakes { wakes.now ≡ map waking_names (map plan_of plans.now) }
    requires can { CanDecide (step_situation plans.now pending.now past.now time position inserted) }
    ensures chosen { IfOk result
        (IsChoice (step_situation plans.now pending.now past.now time position inserted) events) }
{
    actions_are_justified();
    sleepers_stay();
    pending_exists();
    // Its clause says that no event stands twice.
    let _given = events.as_slice();
    let situation = Situation {
        plans,
        wakes,
        pending,
        past,
        time,
        position,
        inserted,
    };
    let asking = pending.asking(alloc, events.as_slice(), time, inserted)?;
    let mut unasked = Unasked::of(alloc, asking);
    let mut events = events;
    let mut actions = Actions::new(alloc);
    loop {
        let again = find_again(alloc, &situation, &events, &mut unasked)?;
        if let Some(missed) = again {
            let acted = act_alone(
                alloc,
                &situation,
                missed,
                events,
                &mut unasked,
                &mut actions,
            )?;
            events = acted;
            continue;
        }
        let Round {
            events: after,
            tables,
            ended,
        } = go_round(alloc, &situation, events, &mut unasked, &mut actions)?;
        if ended {
            return Ok(Choice {
                events: after,
                actions,
                tables,
            });
        }
        events = after;
    }
}

// A round of the loop, with the tables of the past at its events. What a root without choices misses, which a guard looks
// for or after which no rule is woken, is all that is done in its round.
fn go_round(
    alloc: Global,
    situation: &Situation<'_>,
    events: EventSet,
    unasked: &mut Unasked<'_>,
    actions: &mut Actions,
) -> Result<Round, NoMemory>
    requires can { CanDecideSituation situation.now }
    requires kept { IsUnaskedAt situation.now events actions.old unasked.old }
    ensures acts { IfOk result (λ round. SituationLeads situation.now events events actions.old round.events
        actions.new) }
    ensures more { IfOk result (λ round. round.ended ≡ false → length actions.old < length actions.new) }
    ensures kept { IfOk result (λ round. IsUnaskedAt situation.now round.events actions.new unasked.new) }
    ensures ended { IfOk result (λ round. IsTrue round.ended → EndsWith situation.now round.events round.tables) }
{
    unread_tables_stay();
    let Seen { next, tables, last } = look(alloc, situation, &events, unasked)?;
    match next {
        Next::Act(action) => {
            let first = Next::Act(action);
            act_on_from(alloc, situation, events, tables, first, unasked, actions)
        }
        Next::ActFor(missed) => {
            if !last && !is_looked_for(situation, &missed) {
                let first = Next::ActFor(missed);
                return act_on_from(alloc, situation, events, tables, first, unasked, actions);
            }
            let mut present = Changing::of(alloc, situation.pending.seed(), events);
            let ended = act_last(
                alloc,
                situation,
                missed,
                last,
                &mut present,
                unasked,
                actions,
            )?;
            Ok(Round {
                events: present.into_set(),
                tables,
                ended,
            })
        }
        Next::Renew => Ok(Round {
            events,
            tables,
            ended: false,
        }),
        Next::Done => Ok(Round {
            events,
            tables,
            ended: true,
        }),
    }
}

// Does that and what is to be done after it, as long as the tables serve.
fn act_on_from(
    alloc: Global,
    situation: &Situation<'_>,
    events: EventSet,
    tables: Tables,
    first: Next,
    unasked: &mut Unasked<'_>,
    actions: &mut Actions,
) -> Result<Round, NoMemory>
    requires can { CanDecideSituation situation.now }
    requires are { AreTablesAtStep situation.now.past.now situation.now.time events tables }
    requires hold { GuardsWillHold situation.now.past.now situation.now.time events tables }
    requires known { AreKnown situation.now.past.now events tables }
    requires next { IsNextFor situation.now events events [] (IsDecidedAt situation.now events []) first }
    requires first { IsFirstNext unasked.old first }
    requires acts { IsForSome first }
    requires kept { IsUnaskedAt situation.now events actions.old unasked.old }
    ensures acts { IfOk result (λ round. SituationLeads situation.now events events actions.old round.events
        actions.new) }
    ensures more { IfOk result (λ round. round.ended ≡ false → length actions.old < length actions.new) }
    ensures kept { IfOk result (λ round. IsUnaskedAt situation.now round.events actions.new unasked.new) }
    ensures ended { IfOk result (λ round. IsTrue round.ended → EndsWith situation.now round.events round.tables) }
{
    unread_tables_stay();
    let given = events.duplicate(alloc)?;
    let mut present = Changing::of(alloc, situation.pending.seed(), events);
    let ended = go_on(
        alloc,
        situation,
        &given,
        &tables,
        first,
        &mut present,
        unasked,
        actions,
    )?;
    Ok(Round {
        events: present.into_set(),
        tables,
        ended,
    })
}

// The first look of a round.
fn look(
    alloc: Global,
    situation: &Situation<'_>,
    events: &EventSet,
    unasked: &mut Unasked<'_>,
) -> Result<Seen, NoMemory>
    requires can { CanDecideSituation situation.now }
    requires kept { (told : List AnyEvent) × IsUnasked situation.now events.now told unasked.old }
    ensures kept { OnOk result ((told : List AnyEvent) → IsUnasked situation.now events.now told unasked.old
        → IsUnasked situation.now events.now told unasked.new) }
    ensures told { unasked.new.roused ≡ unasked.old.roused }
    ensures next { IfOk result (λ seen. IsNextFor situation.now events.now events.now []
        (IsDecidedAt situation.now events.now []) seen.next) }
    ensures first { IfOk result (λ seen. IsFirstNext unasked.new seen.next) }
    ensures last { IfOk result (λ seen. IsTrue seen.last
        → IsForLast situation.now events.now unasked.new.from seen.next) }
    ensures are { IfOk result (λ seen. AreTablesAtStep situation.now.past.now situation.now.time events.now
        seen.tables) }
    ensures hold { IfOk result (λ seen. GuardsWillHold situation.now.past.now situation.now.time events.now
        seen.tables) }
    ensures known { IfOk result (λ seen. AreKnown situation.now.past.now events.now seen.tables) }
{
    let ordered = StepEvents::of(alloc, events)?;
    let tables = situation.past.tables_at(alloc, situation.time, &ordered)?;
    let gone = EventSet::new(alloc);
    let present = PresentEvents::of(events, &gone);
    let next = find_next(alloc, situation, &ordered, &tables, &present, &[], unasked)?;
    let last = is_last(situation, &next, unasked.from, &ordered);
    Ok(Seen { next, tables, last })
}

// Whether what is to be done is for the root that was asked last, and the step wakes no rule after it.
fn is_last(situation: &Situation<'_>, next: &Next, from: usize, ordered: &StepEvents<'_>) -> bool
    ensures { IsTrue result → IsForLast situation.now ordered.now from next.now }
{
    match next {
        Next::ActFor(missed) => {
            let rules = situation.plans.len();
            if missed.rule != from || from >= rules {
                return false;
            }
            let all = ordered.set().as_slice();
            situation.wakes.next_awake(from + 1, all, ordered) >= rules
        }
        Next::Act(_) | Next::Renew | Next::Done => false,
    }
}

// Acts for what a root misses. It answers whether nothing is missing, where no rule after it is woken, and no guard
// looks for a name that was acted on.
fn act_last(
    alloc: Global,
    situation: &Situation<'_>,
    missed: Missed,
    last: bool,
    present: &mut Changing,
    unasked: &mut Unasked<'_>,
    actions: &mut Actions,
) -> Result<bool, NoMemory>
    requires can { CanDecideSituation situation.now }
    requires missed { (given : List AnyEvent)
        × IsMissedAtRoot situation.now given present.old missed.rule missed.literals.items }
    requires wanted { (0 < length missed.literals.items) × AreWanted present.old missed.literals.items }
    requires first { (unasked.old.asking.ahead ≡ []) × (missed.rule ≤ unasked.old.from) }
    requires kept { IsUnaskedAt situation.now present.old actions.old unasked.old }
    requires last { IsTrue last → NoneIsWoken situation.now present.old missed.rule }
    ensures acts { OnOk result ((given : List AnyEvent)
        → IsMissedAtRoot situation.now given present.old missed.rule missed.literals.items
        → SituationLeads situation.now given present.old actions.old present.new actions.new) }
    ensures more { OnOk result (length actions.old < length actions.new) }
    ensures kept { OnOk result (IsUnaskedAt situation.now present.new actions.new unasked.new) }
    ensures nothing { IfOk result (λ ended. IsTrue ended → SituationFinds situation.now present.new None) }
    ensures same { IfOk result (λ ended. IsTrue ended
        → HaveSameEvents (guard_names situation.now.past.now.guards) present.old present.new) }
{
    unwoken_is_idle();
    let mut stale = Vec::new(alloc);
    act_for(
        alloc, situation, missed, present, unasked, &mut stale, actions,
    )?;
    if !last {
        return Ok(false);
    }
    Ok(stale.is_empty())
}

// Does what is to be done first, and acts for the next that misses something, again and again, with the tables and
// with the order of the events with which the round began. It answers whether nothing is missing, and no guard looks for a name that was acted on.
#[inline(never)]
fn go_on(
    alloc: Global,
    situation: &Situation<'_>,
    given: &EventSet,
    tables: &Tables,
    first: Next,
    present: &mut Changing,
    unasked: &mut Unasked<'_>,
    actions: &mut Actions,
) -> Result<bool, NoMemory>
    requires can { CanDecideSituation situation.now }
    requires are { AreTablesAtStep situation.now.past.now situation.now.time given.now tables.now }
    requires hold { GuardsWillHold situation.now.past.now situation.now.time given.now tables.now }
    requires known { AreKnown situation.now.past.now given.now tables.now }
    requires same { present.old ≡ given.now }
    requires next { IsNextFor situation.now given.now given.now [] (IsDecidedAt situation.now given.now []) first }
    requires first { IsFirstNext unasked.old first }
    requires acts { IsForSome first }
    requires kept { IsUnaskedAt situation.now given.now actions.old unasked.old }
    ensures acts { OnOk result (SituationLeads situation.now given.now given.now actions.old present.new
        actions.new) }
    ensures more { OnOk result (length actions.old < length actions.new) }
    ensures kept { OnOk result (IsUnaskedAt situation.now present.new actions.new unasked.new) }
    ensures nothing { IfOk result (λ ended. IsTrue ended → SituationFinds situation.now present.new None) }
    ensures same { IfOk result (λ ended. IsTrue ended
        → HaveSameEvents (guard_names situation.now.past.now.guards) given.now present.new) }
{
    // Its clause says that no event stands twice.
    let _given = given.as_slice();
    let ordered = StepEvents::of(alloc, given)?;
    let mut stale = Vec::new(alloc);
    let mut next = first;
    loop {
        match next {
            Next::Act(action) => {
                act(
                    alloc,
                    situation,
                    Box::into_inner(action),
                    present,
                    unasked,
                    &mut stale,
                    actions,
                )?;
            }
            Next::ActFor(missed) => {
                act_for(
                    alloc, situation, missed, present, unasked, &mut stale, actions,
                )?;
            }
            Next::Renew => return Ok(false),
            Next::Done => return Ok(true),
        }
        let now = present.present();
        next = find_next(
            alloc,
            situation,
            &ordered,
            tables,
            &now,
            stale.as_slice(),
            unasked,
        )?;
    }
}

// What is to be done for the first that misses something, with the order and the tables of other events.
#[inline(always)]
fn find_next(
    alloc: Global,
    situation: &Situation<'_>,
    ordered: &StepEvents<'_>,
    tables: &Tables,
    events: &PresentEvents<'_>,
    stale: &[NameId],
    unasked: &mut Unasked<'_>,
) -> Result<Next, NoMemory>
    requires can { CanDecideSituation situation.now }
    requires are { AreTablesAtStep situation.now.past.now situation.now.time ordered.now tables.now }
    requires hold { GuardsWillHold situation.now.past.now situation.now.time ordered.now tables.now }
    requires known { AreKnown situation.now.past.now ordered.now tables.now }
    requires same { HaveSameFreshEvents stale.now (guard_names situation.now.past.now.guards) ordered.now events.now }
    requires fewer { GainsNoSuppressed (situation_plans situation.now) ordered.now events.now }
    requires kept { (told : List AnyEvent) × IsUnasked situation.now events.now told unasked.old }
    ensures kept { OnOk result ((told : List AnyEvent) → IsUnasked situation.now events.now told unasked.old
        → IsUnasked situation.now events.now told unasked.new) }
    ensures told { unasked.new.roused ≡ unasked.old.roused }
    ensures next { IfOk result (IsNextFor situation.now ordered.now events.now stale.now
        (IsDecidedAt situation.now events.now stale.now)) }
    ensures first { IfOk result (IsFirstNext unasked.new) }
{
    let now = Now {
        time: situation.time,
        position: situation.position,
        events,
        ordered,
        tables,
        stale,
    };
    find(alloc, situation, &now, unasked)
}
