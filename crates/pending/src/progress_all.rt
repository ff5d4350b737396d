//! A step over what is pending.
ghost use Rattle.std.specs.Prelude.{◌≡◌, ◌+◌, ◌-◌, ◌<◌, ◌≤◌, ◌^◌, ℕ, ◌++◌, ◌∷◌};
ghost use Rattle.std.specs.Prelude.{[], Contains, cond, false, true, drop, IfOk, List, OnErr, OnOk, length, map};
ghost use Rattle.enf_data.specs.declared.steps.Step.{Step};
ghost use Rattle.obligations.specs.machine.PresentStep.{IsNowOf};
ghost use Rattle.obligations.specs.machine.Progress.{BecomesOne};
ghost use Rattle.obligations.specs.machine.Successors.{ComesOf};
ghost use Rattle.std.specs.List.{AllByRecursion};
ghost use Rattle.deadline_queue.specs.machine.Queues.{IsDeadlineQueue, held_count};
ghost use Rattle.plan_terms.specs.machine.StoredPlans.{plan_of};
ghost use Rattle.obligations.specs.machine.FreshGuards.{guards_now};
ghost use Rattle.obligations.specs.machine.PlanClasses.{PlansStand};
ghost use Rattle.obligations.specs.machine.AskablePlans.{CanAskOf, CanAskRoots};
ghost use Rattle.obligations.specs.machine.Deadlines.{count_due};
ghost use Rattle.obligations.specs.declared.present_step.TheConstants.{MOST_TIME};
ghost use Rattle.pending.specs.machine.EntrySteps.{EntryBecomes, CarriesPending, WalksEntries};
ghost use Rattle.pending.specs.machine.Moments as moments;
ghost use Rattle.pending.specs.machine.PendingEntries.{ArePendingEntries, FitsStep, entries_from, items_of};
ghost use Rattle.sleepers.specs.machine.Entries.{HasOneMoreEntry, IsAllBut, IsAsleep, IsFreePlace};
ghost use Rattle.sleepers.specs.machine.EntrySteps.{CanPutIn, PutsInEntries};
ghost use Rattle.sleepers.specs.declared.entries.Entry.{Entry as AnyEntry};
ghost use Rattle.obligations.specs.declared.instances.Instance.{Instance as AnyInstance};

use crate::deadlines::{hold, let_go};
use crate::entries::{entry_behind, put_begun, until_at};
use crate::moments::step_moment;
use deadline_queue::DeadlineQueue;
use enf_data::items::Duplicate;
use enf_data::memory::NoMemory;
use obligations::instances::Instances;
use obligations::progress_one::{Outcome, begun_by_roots, outcome_of};
use obligations::{Instance, Now, PresentEvents};
use plan_terms::Plan;
use sleepers::{Beginning, Entry, Sleepers};
use std::alloc::Global;

// What is awake at a step becomes what it becomes: those that go are taken out, and what is begun is answered, for them
// and last by the roots of the rules.
pub fn carry(
    alloc: Global,
    plans: &[Plan],
    now: &Now<'_>,
    inserted: bool,
    number: u64,
    sleepers: &mut Sleepers<Instance>,
    deadlines: &mut DeadlineQueue,
) -> Result<Vec<Entry<Instance>>, NoMemory>
    requires roots { CanAskRoots (guards_now now.now) (map plan_of plans.now) }
    requires named { PlansStand (map plan_of plans.now) }
    requires asked { AllByRecursion (CanAskOf (guards_now now.now) (map plan_of plans.now))
        (items_of sleepers.old.entries) }
    requires few { length plans.now ≤ 2 ^ 32 }
    requires in_time { now.now.time ≤ MOST_TIME }
    requires queue { IsDeadlineQueue deadlines.old }
    requires held { (deadline : ℕ) → held_count deadlines.old deadline
        ≡ count_due (map plan_of plans.now) (items_of sleepers.old.entries) deadline }
    ensures carries { IfOk result (λ more. CarriesPending now.now (map plan_of plans.now) inserted number
        sleepers.old.entries sleepers.new.entries more.items) }
    ensures kept { (steps : ℕ) → ArePendingEntries steps sleepers.old.entries
        → ArePendingEntries steps sleepers.new.entries }
    ensures held { OnOk result ((deadline : ℕ) → held_count deadlines.new deadline
        ≡ count_due (map plan_of plans.now) (items_of sleepers.new.entries) deadline) }
    ensures queue { IsDeadlineQueue deadlines.new }
{
    let later = number_for_pending(number);
    let mut more = carry_awake(alloc, plans, now, inserted, later, sleepers, deadlines)?;
    let roots = begun_by_roots(alloc, plans, now)?;
    put_begun(alloc, plans, now.time, &[], number, roots, &mut more)?;
    Ok(more)
}

// The number of what a step begins for what was pending: a later step has a lower one, so that it comes first.
fn number_for_pending(number: u64) -> u64
    ensures { result ≡ 2 ^ 64 - 1 - number }
{
    u64::MAX - number
}

// Each that is awake at the step becomes what it becomes: those that go are taken out, and what is begun for all of
// them at one beginning is answered.
fn carry_awake(
    alloc: Global,
    plans: &[Plan],
    now: &Now<'_>,
    inserted: bool,
    later: u64,
    sleepers: &mut Sleepers<Instance>,
    deadlines: &mut DeadlineQueue,
) -> Result<Vec<Entry<Instance>>, NoMemory>
    requires named { PlansStand (map plan_of plans.now) }
    requires asked { AllByRecursion (CanAskOf (guards_now now.now) (map plan_of plans.now))
        (items_of sleepers.old.entries) }
    requires in_time { now.now.time ≤ MOST_TIME }
    requires queue { IsDeadlineQueue deadlines.old }
    requires held { (deadline : ℕ) → held_count deadlines.old deadline
        ≡ count_due (map plan_of plans.now) (items_of sleepers.old.entries) deadline }
    ensures walks { IfOk result (λ more. (first : List (AnyEntry AnyInstance))
        × IsAllBut (IsAsleep now.now.events.now (moments.step_moment inserted now.now.time)) sleepers.old.entries first
        × WalksEntries now.now (map plan_of plans.now) inserted later sleepers.old.entries first
        sleepers.new.entries [] more.items) }
    ensures kept { (steps : ℕ) → ArePendingEntries steps sleepers.old.entries
        → ArePendingEntries steps sleepers.new.entries }
    ensures held { OnOk result ((deadline : ℕ) → held_count deadlines.new deadline
        ≡ count_due (map plan_of plans.now) (items_of sleepers.new.entries) deadline) }
    ensures queue { IsDeadlineQueue deadlines.new }
{
    wake(alloc, now.events, step_moment(inserted, now.time), sleepers)?;
    let mut more = Vec::new(alloc);
    while let Some(entry) = sleepers.peek() {
        let stays = carry_entry(alloc, plans, entry, now, inserted, later, &mut more)?;
        settle(plans, stays, sleepers, deadlines);
    }
    Ok(more)
}

// Wakes those that the events of a step wake, or its moment.
fn wake(
    alloc: Global,
    events: &PresentEvents<'_>,
    moment: u64,
    sleepers: &mut Sleepers<Instance>,
) -> Result<(), NoMemory>
    ensures ok { OnOk result (IsAllBut (IsAsleep events.now moment) sleepers.old.entries sleepers.new.ahead) }
    ensures entries { sleepers.new.entries ≡ sleepers.old.entries }
{
    if let Some(listed) = events.listed() {
        return sleepers.wake(alloc, listed, moment);
    }
    let set = events.to_set(alloc)?;
    sleepers.wake(alloc, set.as_slice(), moment)
}

// Whether an entry stays. What is begun for it is put last.
fn carry_entry(
    alloc: Global,
    plans: &[Plan],
    entry: &Entry<Instance>,
    now: &Now<'_>,
    inserted: bool,
    later: u64,
    into: &mut Vec<Entry<Instance>>,
) -> Result<bool, NoMemory>
    requires named { PlansStand (map plan_of plans.now) }
    requires asked { CanAskOf (guards_now now.now) (map plan_of plans.now) entry.now.item }
    requires in_time { now.now.time ≤ MOST_TIME }
    ensures { IfOk result (λ stays. (more : List (AnyEntry AnyInstance))
        × EntryBecomes now.now (map plan_of plans.now) inserted later
        (record { entry = entry.now; stays = stays; begun = more })
        × (into.new.items ≡ into.old.items ++ more)) }
{
    let outcome = outcome_in(alloc, plans, entry, now, inserted)?;
    put_begun(
        alloc,
        plans,
        now.time,
        entry.place.as_slice(),
        later,
        outcome.begun,
        into,
    )?;
    Ok(outcome.stays)
}

// What the instance of an entry becomes. Where it stays, but would wait until another moment if it were filed now, since
// its window has begun, it goes with the entry and is the first of what is begun.
fn outcome_in(
    alloc: Global,
    plans: &[Plan],
    entry: &Entry<Instance>,
    now: &Now<'_>,
    inserted: bool,
) -> Result<Outcome, NoMemory>
    requires named { PlansStand (map plan_of plans.now) }
    requires asked { CanAskOf (guards_now now.now) (map plan_of plans.now) entry.now.item }
    requires in_time { now.now.time ≤ MOST_TIME }
    ensures after { IfOk result (λ o. (trace : List Step) → IsNowOf now.now trace
        → BecomesOne (map plan_of plans.now) inserted entry.now.item trace
        (cond o.stays (entry.now.item ∷ []) [] ++ o.begun.items)) }
    ensures asked { IfOk result (λ o. AllByRecursion
        (CanAskOf (guards_now now.now) (map plan_of plans.now)) o.begun.items) }
    ensures come { IfOk result (λ o. (j : AnyInstance)
        → Contains (cond o.stays (entry.now.item ∷ []) [] ++ o.begun.items) j
        → ComesOf now.now (map plan_of plans.now) inserted entry.now.item j) }
{
    let outcome = outcome_of(alloc, plans, &entry.item, now, inserted)?;
    if outcome.stays && entry.end != until_at(now.time, &entry.item) {
        let begun = behind(alloc, &entry.item, outcome.begun)?;
        return Ok(Outcome {
            stays: false,
            begun,
        });
    }
    Ok(outcome)
}

// An instance, and others behind it.
fn behind(
    alloc: Global,
    instance: &Instance,
    others: Vec<Instance>,
) -> Result<Vec<Instance>, NoMemory>
    ensures { IfOk result (λ all. all.items ≡ instance.now ∷ others.items) }
{
    let mut others = others;
    let mut all = Vec::with_capacity(alloc, others.len() + 1)?;
    all.push(instance.duplicate(alloc)?)?;
    all.append(&mut others)?;
    Ok(all)
}

// Passes the entry at which the walk stands, or takes it out with its deadline.
fn settle(
    plans: &[Plan],
    stays: bool,
    sleepers: &mut Sleepers<Instance>,
    deadlines: &mut DeadlineQueue,
)
    requires queue { IsDeadlineQueue deadlines.old }
    requires held { (deadline : ℕ) → held_count deadlines.old deadline
        ≡ count_due (map plan_of plans.now) (items_of sleepers.old.entries) deadline }
    ensures ahead { sleepers.new.ahead ≡ drop 1 sleepers.old.ahead }
    ensures stays { stays ≡ true → sleepers.new.entries ≡ sleepers.old.entries }
    ensures goes { stays ≡ false → (entry : AnyEntry AnyInstance)
        → sleepers.old.ahead ≡ entry ∷ sleepers.new.ahead
        → HasOneMoreEntry entry sleepers.new.entries sleepers.old.entries }
    ensures kept { (steps : ℕ) → ArePendingEntries steps sleepers.old.entries
        → ArePendingEntries steps sleepers.new.entries }
    ensures held { (deadline : ℕ) → held_count deadlines.new deadline
        ≡ count_due (map plan_of plans.now) (items_of sleepers.new.entries) deadline }
    ensures queue { IsDeadlineQueue deadlines.new }
{
    if stays {
        sleepers.pass();
        return;
    }
    if let Some(entry) = sleepers.take() {
        let_go(plans, &entry.item, deadlines);
    }
}

// How many instances can be pending at most.
const MOST_PENDING: usize = 0x4000_0000_0000_0000;

// Puts entries in that were begun, and holds their deadlines.
pub fn put_each(
    plans: &[Plan],
    more: Vec<Entry<Instance>>,
    sleepers: &mut Sleepers<Instance>,
    deadlines: &mut DeadlineQueue,
) -> Result<(), NoMemory>
    requires can { CanPutIn more.items sleepers.old.entries }
    requires queue { IsDeadlineQueue deadlines.old }
    requires held { (deadline : ℕ) → held_count deadlines.old deadline
        ≡ count_due (map plan_of plans.now) (items_of sleepers.old.entries) deadline }
    ensures puts { OnOk result (PutsInEntries more.items sleepers.old.entries sleepers.new.entries) }
    ensures kept { (steps : ℕ) → ArePendingEntries steps sleepers.old.entries
        → AllByRecursion (FitsStep steps) more.items
        → ArePendingEntries steps sleepers.new.entries }
    ensures held { OnOk result ((deadline : ℕ) → held_count deadlines.new deadline
        ≡ count_due (map plan_of plans.now) (items_of sleepers.new.entries) deadline) }
    ensures queue { IsDeadlineQueue deadlines.new }
{
    if more.is_empty() {
        return Ok(());
    }
    for entry in more {
        put_one(plans, entry, sleepers, deadlines)?;
    }
    Ok(())
}

// Puts the instances of a list in, filed at this time, as begun at the first beginning, and holds their deadlines. They
// go in from the last to the first: what was begun later ends later mostly, and a tree finds what comes before all that
// it has at once.
pub fn put_listed(
    alloc: Global,
    plans: &[Plan],
    time: u64,
    list: Instances,
    sleepers: &mut Sleepers<Instance>,
    deadlines: &mut DeadlineQueue,
) -> Result<(), NoMemory>
    requires none { sleepers.old.entries ≡ [] }
    requires queue { IsDeadlineQueue deadlines.old }
    requires held { (deadline : ℕ) → held_count deadlines.old deadline
        ≡ count_due (map plan_of plans.now) (items_of sleepers.old.entries) deadline }
    ensures entries { OnOk result (sleepers.new.entries ≡ entries_from (map plan_of plans.now) time [] 0 0 list) }
    ensures kept { OnOk result (ArePendingEntries 1 sleepers.new.entries) }
    ensures held { OnOk result ((deadline : ℕ) → held_count deadlines.new deadline
        ≡ count_due (map plan_of plans.now) (items_of sleepers.new.entries) deadline) }
    ensures queue { IsDeadlineQueue deadlines.new }
{
    let mut instances = list.into_vec();
    while let Some(instance) = instances.pop() {
        let among = instances.len() as u64;
        let beginning = Beginning { number: 0, among };
        let entry = entry_behind(alloc, plans, time, &[], beginning, instance)?;
        put_one(plans, entry, sleepers, deadlines)?;
    }
    Ok(())
}

// Puts an entry in, and holds its deadline.
fn put_one(
    plans: &[Plan],
    entry: Entry<Instance>,
    sleepers: &mut Sleepers<Instance>,
    deadlines: &mut DeadlineQueue,
) -> Result<(), NoMemory>
    requires free { IsFreePlace entry.place sleepers.old.entries }
    requires queue { IsDeadlineQueue deadlines.old }
    requires held { (deadline : ℕ) → held_count deadlines.old deadline
        ≡ count_due (map plan_of plans.now) (items_of sleepers.old.entries) deadline }
    ensures puts { OnOk result (HasOneMoreEntry entry sleepers.old.entries sleepers.new.entries) }
    ensures err { OnErr result (sleepers.new.entries ≡ sleepers.old.entries) }
    ensures held { OnOk result ((deadline : ℕ) → held_count deadlines.new deadline
        ≡ count_due (map plan_of plans.now) (items_of sleepers.new.entries) deadline) }
    ensures queue { IsDeadlineQueue deadlines.new }
{
    if MOST_PENDING <= sleepers.len() {
        return Err(NoMemory);
    }
    hold(plans, &entry.item, deadlines)?;
    sleepers.put(entry)
}
