//! Deadlines, and what is owed by them, with ample memory.
ghost use Rattle.std.specs.Prelude.{◌≡◌, ◌≤◌, ◌^◌, OnOk, length, map};
ghost use Rattle.obligations.specs.machine.FreshGuards.{guards_now};
ghost use Rattle.obligations.specs.machine.PlanClasses.{PlansStand};
ghost use Rattle.obligations.specs.machine.AskablePlans.{CanAskRoots};
ghost use Rattle.obligations.specs.declared.present_step.TheConstants.{MOST_TIME};
ghost use Rattle.past_state.specs.machine.Guards.{AreCopies};
ghost use Rattle.plan_terms.specs.machine.StoredPlans.{plan_of};

use crate::found::Found;
use deadline_queue::{DeadlineQueue, NotThere};
use enf_data::{Event, EventSet, MOST_FILE_BYTES, NameId, Row, TextValue, Value};
use enforce_types::TypedPolicy;
use enforcer_core::laws::takes_are_few;
use enforcer_core::{Enforcer, StepOut, StepRefusal};
use formula_reader::read_policy;
use monitorable_guard::StepEvents;
use obligations::begin::take;
use obligations::laws::well_formed_can_be_asked;
use obligations::missing_literals::{lack, lack_pending};
use obligations::{Now, PresentEvents};
use past_state::{PastState, Tables};
use pending::Pending;
use plan_terms::Plan;
use signature::Signature;
use std::alloc::Global;
use std::test::Fail;
use valuations::Valuation;

#[test]
fn queues(rt: HostRuntime) -> Result<(), Fail> {
    let mut queue = DeadlineQueue::new(rt.alloc());
    queue.add(35)?;
    let taken = (queue.take_one(35), queue.take_one(35));
    assert_eq!(rt; taken, (Ok(()), Err(NotThere)));
    Ok(())
}

#[test]
fn a_deadline_is_served(rt: HostRuntime) -> Result<(), Fail> {
    let mut found = Found::new(rt.alloc());
    find_served(rt.alloc(), &mut found)?;
    // A step; the clock and a time below it; the step that a tick passes; and nothing is left.
    assert_eq!(rt; found.text(), b"1|9|7|1|0|".as_slice());
    Ok(())
}

#[test]
fn what_is_owed(rt: HostRuntime) -> Result<(), Fail> {
    let mut found = Found::new(rt.alloc());
    find_owed(rt.alloc(), &erase(rt.alloc())?, &mut found)?;
    // Nothing is missed and one instance is begun; it is pending, and misses one literal where it is forced.
    assert_eq!(rt; found.text(), b"0|1|1|1|".as_slice());
    Ok(())
}

fn erase(alloc: Global) -> Result<TypedPolicy, Fail> {
    let Ok(signature) = Signature::read(alloc, b"request(text); delete(text) +;") else {
        return Err("a signature".into());
    };
    let rule = b"rule erase: forall u. request(u) -> eventually[0,30] delete(u);";
    let Ok(policy) = read_policy(alloc, &signature, rule) else {
        return Err("a policy".into());
    };
    match TypedPolicy::of(alloc, &signature, &policy) {
        Ok(typed) => Ok(typed),
        Err(_) => Err("a policy with plans".into()),
    }
}

fn request(alloc: Global) -> Result<EventSet, Fail> {
    let text = TextValue::from_bytes(alloc, b"u")?;
    let args = Row::from_vec(vec![in alloc; Value::Text(text)]?);
    let mut events = EventSet::new(alloc);
    events.insert(Event {
        name: NameId(0),
        args,
    })?;
    Ok(events)
}

fn find_served(alloc: Global, found: &mut Found) -> Result<(), Fail> {
    let mut enforcer = Enforcer::new(alloc, erase(alloc)?)?;
    let events = request(alloc)?;
    find_steps(alloc, &mut enforcer, events, found)
}

fn find_steps(
    alloc: Global,
    enforcer: &mut Enforcer,
    events: EventSet,
    found: &mut Found,
) -> Result<(), Fail>
    requires { (enforcer.old.position ≡ 0) × (enforcer.old.clock ≡ 0) }
{
    let stepped = take_first(alloc, enforcer, events)?;
    found.number(stepped.steps.len() as u64);
    let Err(StepRefusal::Falling { clock, given }) = enforcer.step(alloc, 7, EventSet::new(alloc))
    else {
        return Err("a time below the clock".into());
    };
    found.number(clock);
    found.number(given);
    let passed = pass_deadline(alloc, enforcer)?;
    found.number(passed.steps.len() as u64);
    let Ok(drained) = enforcer.drain(alloc) else {
        return Err("a drain".into());
    };
    found.number(drained.steps.len() as u64);
    Ok(())
}

fn take_first(alloc: Global, enforcer: &mut Enforcer, events: EventSet) -> Result<StepOut, Fail>
    requires { enforcer.old.position ≡ 0 }
    ensures { OnOk result (enforcer.new.position ≤ 10) }
{
    takes_are_few();
    match enforcer.step(alloc, 9, events) {
        Ok(stepped) => Ok(stepped),
        Err(_refusal) => Err("a step".into()),
    }
}

fn pass_deadline(alloc: Global, enforcer: &mut Enforcer) -> Result<StepOut, Fail>
    requires { enforcer.old.position ≤ 10 }
    ensures { OnOk result (enforcer.new.position ≤ 51) }
{
    takes_are_few();
    match enforcer.tick(alloc, 40) {
        Ok(passed) => Ok(passed),
        Err(_refusal) => Err("a tick".into()),
    }
}

fn find_owed(alloc: Global, typed: &TypedPolicy, found: &mut Found) -> Result<(), Fail> {
    let events = request(alloc)?;
    find_at(alloc, typed, &events, found)
}

fn find_at(
    alloc: Global,
    typed: &TypedPolicy,
    events: &EventSet,
    found: &mut Found,
) -> Result<(), Fail> {
    let past = PastState::new(alloc, typed.guards())?;
    let ordered = StepEvents::of(alloc, events)?;
    let tables = past.tables_at(alloc, 5, &ordered)?;
    find_over(alloc, typed, &ordered, &tables, found)
}

fn find_over(
    alloc: Global,
    typed: &TypedPolicy,
    ordered: &StepEvents<'_>,
    tables: &Tables,
    found: &mut Found,
) -> Result<(), Fail>
    requires { AreCopies typed.now.guards tables.now.guards }
{
    well_formed_can_be_asked();
    let gone = EventSet::new(alloc);
    let events = PresentEvents::of(ordered.set(), &gone);
    let now = Now {
        time: 5,
        position: 0,
        events: &events,
        ordered,
        tables,
        stale: &[],
    };
    find_begun(alloc, typed.plans(), &now, found)?;
    find_pending(alloc, typed.plans(), &now, found)
}

fn find_begun(alloc: Global, plans: &[Plan], now: &Now<'_>, found: &mut Found) -> Result<(), Fail>
    requires roots { CanAskRoots (guards_now now.now) (map plan_of plans.now) }
    requires in_time { now.now.time ≤ MOST_TIME }
{
    let Some(plan) = plans.first() else {
        return Err("a plan".into());
    };
    let nothing = Valuation::empty(alloc);
    found.number(lack(alloc, plan, &nothing, now)?.len() as u64);
    found.number(take(alloc, 0, plan, &nothing, now)?.len() as u64);
    Ok(())
}

fn find_pending(alloc: Global, plans: &[Plan], now: &Now<'_>, found: &mut Found) -> Result<(), Fail>
    requires roots { CanAskRoots (guards_now now.now) (map plan_of plans.now) }
    requires named { PlansStand (map plan_of plans.now) }
    requires few { length plans.now ≤ 2 ^ 32 }
    requires in_time { now.now.time ≤ MOST_TIME }
{
    let mut pending = Pending::new(alloc);
    pending.progress(alloc, plans, now, false)?;
    let list = pending.to_list(alloc)?;
    found.number(list.as_slice().len() as u64);
    let Some(instance) = list.as_slice().first() else {
        return Err("an instance".into());
    };
    found.number(lack_pending(alloc, instance, plans, now, true)?.len() as u64);
    Ok(())
}
