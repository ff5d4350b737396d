//! Roots that are asked again, each by the events for which it looks.
ghost use Rattle.std.specs.Prelude.{◌≡◌, ◌<◌, ◌≤◌, List, [], IfOk, IfSome, IsTrue, OnOk, length, slice_get};
ghost use Rattle.std.specs.List.{AllByRecursion};
ghost use Rattle.choice_step.specs.machine.Situations.{CanDecideSituation, SituationLeads, situation_plans};
ghost use Rattle.choice_step.specs.machine.StillToAsk.{AreWanted, FirstRootsAreMet, InstancesAreMet};
ghost use Rattle.choice_step.specs.machine.StillToAsk.{IsAskedAlone, IsMissedAgain, IsMissedAtRoot, IsNextFor, IsNextOf};
ghost use Rattle.choice_step.specs.machine.StillToAsk.{IsUnasked, IsUnaskedAt, RootIgnoresAll, RootIsMet, WillHold};
ghost use Rattle.enf_data.specs.declared.events.Event.{Event as AnyEvent};
ghost use Rattle.obligations.specs.machine.FreshGuards.{HaveSameFreshEvents};
ghost use Rattle.obligations.specs.machine.PlanClasses.{IsPlain};
ghost use Rattle.past_state.specs.machine.Past.{AreTablesAtStep, GuardsWillHold, guard_names};
ghost use Rattle.past_state.specs.machine.ValueSources.{AreKnown};
ghost use Rattle.plan_terms.specs.machine.StoredPlans.{plan_of};
ghost use Rattle.plan_terms.specs.meaning.Plans.{nodes};

use crate::actions::Actions;
use crate::apply_actions::act_for;
use crate::changing::Changing;
use crate::first_missing::{Missed, Next, ask_plain, is_looked_for};
use crate::own_events::{OwnEvents, count_of, names_of};
use crate::situation::Situation;
use crate::unasked::Unasked;
use enf_data::event_sets::EventSet;
use enf_data::events::NameId;
use enf_data::memory::NoMemory;
use monitorable_guard::StepEvents;
use obligations::plain_plans::is_plain;
use obligations::{Now, PresentEvents};
use past_state::Tables;
use pending::Asking;
use plan_terms::Plan;
use std::alloc::Global;

// To put so few events in order costs no more than to look for those of a root.
const FEW_EVENTS: usize = 16;

// To ask so many roots that miss nothing costs less than to put all events in order.
const MOST_ASKED: usize = 4;

// To copy a greater part of the events, as one of so many, costs too much where the root misses nothing.
const OWN_PART: usize = 4;

// With more names to compare each event with, it costs more to look for those of a root.
const MOST_NAMES: usize = 16;

// What the first root misses that is to be asked again, where nobody is pending to be asked. It answers none where all
// events are to be put in order: where they are few, where roots enough were asked that miss nothing, and where the order
// serves others too. The roots that miss nothing go from those that are to be asked.
#[inline(always)]
pub fn find_again(
    alloc: Global,
    situation: &Situation<'_>,
    events: &EventSet,
    unasked: &mut Unasked<'_>,
) -> Result<Option<Missed>, NoMemory>
    requires can { CanDecideSituation situation.now }
    requires kept { (told : List AnyEvent) × IsUnasked situation.now events.now told unasked.old }
    ensures kept { OnOk result ((told : List AnyEvent) → IsUnasked situation.now events.now told unasked.old
        → IsUnasked situation.now events.now told unasked.new) }
    ensures told { unasked.new.roused ≡ unasked.old.roused }
    ensures missed { IfOk result (λ found. IfSome found (IsMissedAgain situation.now events.now unasked.new)) }
{
    if events.len() <= FEW_EVENTS {
        return Ok(None);
    }
    find_alone(alloc, situation, events, unasked)
}

// The same, for however many events.
#[inline(never)]
fn find_alone(
    alloc: Global,
    situation: &Situation<'_>,
    events: &EventSet,
    unasked: &mut Unasked<'_>,
) -> Result<Option<Missed>, NoMemory>
    requires can { CanDecideSituation situation.now }
    requires kept { (told : List AnyEvent) × IsUnasked situation.now events.now told unasked.old }
    ensures kept { OnOk result ((told : List AnyEvent) → IsUnasked situation.now events.now told unasked.old
        → IsUnasked situation.now events.now told unasked.new) }
    ensures told { unasked.new.roused ≡ unasked.old.roused }
    ensures missed { IfOk result (λ found. IfSome found (IsMissedAgain situation.now events.now unasked.new)) }
{
    if !none_waits(&unasked.asking) {
        return Ok(None);
    }
    for _ in 0..MOST_ASKED {
        let rule = unasked.first_root();
        if rule >= situation.plans.len() {
            return Ok(None);
        }
        if rule >= unasked.from {
            return Ok(None);
        }
        let found = ask_alone(alloc, situation, events, rule)?;
        match found {
            Next::Done => unasked.met(rule),
            Next::ActFor(missed) => {
                return Ok(if_alone(situation, missed, unasked.again.len()));
            }
            _ => return Ok(None),
        }
    }
    Ok(None)
}

// What is missed, but where no guard looks for it and others of so many are to be asked after it: for these all events
// stay in order then.
fn if_alone(situation: &Situation<'_>, missed: Missed, again: usize) -> Option<Missed>
    ensures { IfSome result (λ kept. kept ≡ missed) }
{
    if again > 1 && !is_looked_for(situation, &missed) {
        return None;
    }
    Some(missed)
}

// Whether nobody is pending to be asked.
fn none_waits(asking: &Asking<'_>) -> bool
    ensures { IsTrue result → asking.now.ahead ≡ [] }
{
    match asking.next() {
        Some(_) => false,
        None => true,
    }
}

// What the root of a rule misses, which is the first to be asked, or that it misses nothing, or that all events are to
// be put in order.
fn ask_alone(
    alloc: Global,
    situation: &Situation<'_>,
    events: &EventSet,
    rule: usize,
) -> Result<Next, NoMemory>
    requires can { CanDecideSituation situation.now }
    requires waiting { WillHold situation.now events.now (InstancesAreMet situation.now) }
    requires before { WillHold situation.now events.now (FirstRootsAreMet situation.now rule) }
    requires within { rule < length situation.now.plans.now }
    ensures { IfOk result (IsAskedAlone situation.now events.now rule) }
{
    let plan = &situation.plans[rule];
    if !is_plain(plan) {
        return Ok(Next::Renew);
    }
    let names = names_of(alloc, plan)?;
    if names.len() > MOST_NAMES {
        return Ok(Next::Renew);
    }
    let looked_for = names.as_slice();
    let all = events.as_slice();
    if count_of(alloc, looked_for, all)? > all.len() / OWN_PART {
        return Ok(Next::Renew);
    }
    let own = OwnEvents::of(alloc, situation.pending.seed(), looked_for, all)?;
    let stale = own.others.as_slice();
    let ordered = StepEvents::of(alloc, &own.events)?;
    let tables = situation.past.tables_at(alloc, situation.time, &ordered)?;
    let gone = EventSet::new(alloc);
    let present = PresentEvents::of(events, &gone);
    let next = ask_in(
        alloc, situation, &ordered, &tables, &present, stale, rule, plan,
    )?;
    Ok(next)
}

// What the root of a rule misses, which is the first to be asked, or that it misses nothing, with the order and the tables
// of the events for which it looks.
fn ask_in(
    alloc: Global,
    situation: &Situation<'_>,
    ordered: &StepEvents<'_>,
    tables: &Tables,
    events: &PresentEvents<'_>,
    stale: &[NameId],
    rule: usize,
    plan: &Plan,
) -> Result<Next, NoMemory>
    requires can { CanDecideSituation situation.now }
    requires are { AreTablesAtStep situation.now.past.now situation.now.time ordered.now tables.now }
    requires hold { GuardsWillHold situation.now.past.now situation.now.time ordered.now tables.now }
    requires known { AreKnown situation.now.past.now ordered.now tables.now }
    requires same { HaveSameFreshEvents stale.now (guard_names situation.now.past.now.guards) ordered.now events.now }
    requires ignores { RootIgnoresAll situation.now rule stale.now }
    requires waiting { WillHold situation.now events.now (InstancesAreMet situation.now) }
    requires before { WillHold situation.now events.now (FirstRootsAreMet situation.now rule) }
    requires there { slice_get (situation_plans situation.now) rule ≡ Some (plan_of plan.now) }
    requires plain { AllByRecursion IsPlain (nodes (plan_of plan.now)) }
    ensures next { IfOk result (IsNextFor situation.now ordered.now events.now stale.now
        (RootIsMet situation.now events.now rule)) }
    ensures rule { IfOk result (IsNextOf rule) }
{
    let now = Now {
        time: situation.time,
        position: situation.position,
        events,
        ordered,
        tables,
        stale,
    };
    ask_plain(alloc, situation, &now, rule, plan)
}

// Does the actions for what a root misses, of which at least the first.
#[inline(never)]
pub fn act_alone(
    alloc: Global,
    situation: &Situation<'_>,
    missed: Missed,
    events: EventSet,
    unasked: &mut Unasked<'_>,
    actions: &mut Actions,
) -> Result<EventSet, NoMemory>
    requires can { CanDecideSituation situation.now }
    requires missed { IsMissedAtRoot situation.now events events missed.rule missed.literals.items }
    requires wanted { (0 < length missed.literals.items) × AreWanted events missed.literals.items }
    requires first { (unasked.old.asking.ahead ≡ []) × (missed.rule ≤ unasked.old.from) }
    requires kept { IsUnaskedAt situation.now events actions.old unasked.old }
    ensures acts { IfOk result (λ after. SituationLeads situation.now events events actions.old after actions.new) }
    ensures more { OnOk result (length actions.old < length actions.new) }
    ensures kept { IfOk result (λ after. IsUnaskedAt situation.now after actions.new unasked.new) }
{
    let mut present = Changing::of(alloc, situation.pending.seed(), events);
    let mut stale = Vec::new(alloc);
    act_for(
        alloc,
        situation,
        missed,
        &mut present,
        unasked,
        &mut stale,
        actions,
    )?;
    Ok(present.into_set())
}
