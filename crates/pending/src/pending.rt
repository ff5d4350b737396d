//! Lists of pending instances, of which a step looks at those that it wakes.
ghost use Rattle.std.specs.Prelude.{◌≡◌, ◌+◌, ◌-◌, ◌<◌, ◌≤◌, ◌^◌, ◌++◌, ◌∷◌, IfOk, IsFalse, List, OnOk, []};
ghost use Rattle.std.specs.Prelude.{length, map};
ghost use Rattle.std.specs.List.{AllByRecursion};
ghost use Rattle.enf_data.specs.declared.steps.Step.{Step};
ghost use Rattle.trace_meaning.specs.meaning.Traces.{last_time};
ghost use Rattle.plan_terms.specs.meaning.Plans.{Plan as AnyPlan};
ghost use Rattle.plan_terms.specs.machine.StoredPlans.{plan_of};
ghost use Rattle.sleepers.specs.machine.Entries.{AllButThose, shown};
ghost use Rattle.obligations.specs.machine.PresentStep.{IsNowOf};
ghost use Rattle.obligations.specs.machine.FreshGuards.{guards_now};
ghost use Rattle.obligations.specs.machine.Progress.{AreServed};
ghost use Rattle.obligations.specs.machine.Successors.{NowLeads};
ghost use Rattle.obligations.specs.machine.UnmetGoals.{AreUnmet};
ghost use Rattle.obligations.specs.meaning.Pending.{PendingAfter};
ghost use Rattle.obligations.specs.machine.PlanClasses.{PlansStand};
ghost use Rattle.obligations.specs.machine.AskablePlans.{CanAskOf, CanAskRoots};
ghost use Rattle.deadline_queue.specs.machine.Queues.{IsLeastOf};
ghost use Rattle.obligations.specs.declared.present_step.TheConstants.{MOST_TIME};
ghost use Rattle.pending.specs.machine.AskedEntries.{BeginsAsking};
ghost use Rattle.pending.specs.machine.Moments as moments;
ghost use Rattle.pending.specs.machine.PendingLists.{IsPendingListOf};
ghost use Rattle.pending.specs.machine.Waits.{SleepsNow};

use crate::asking::Asking;
use crate::entries::items_in;
use crate::laws::sleepers_stay;
use crate::moments::step_moment;
use crate::progress_all::{carry, put_each, put_listed};
use deadline_queue::DeadlineQueue;
use enf_data::Event;
use enf_data::items::Duplicate;
use enf_data::memory::NoMemory;
use enf_data::seeds::Seed;
use obligations::instances::Instances;
use obligations::laws::pending_exists;
use obligations::{Instance, Now};
use plan_terms::Plan;
use sleepers::Sleepers;
use sleepers::laws::steps_go_in_order;
use std::alloc::Global;
use std::marker::Model;

/// Pending instances in the order in which they were begun, with the deadlines among the ends of their windows, and
/// each with the events and the moment that it waits for.
#[derive(Drop)]
pub struct Pending {
    sleepers: Sleepers<Instance>,
    deadlines: DeadlineQueue,
    // How many steps were carried over: the number of the next beginning.
    steps: u64,
}

impl Model for Pending {
    ghost use Rattle.deadline_queue.specs.machine.Queues.{IsDeadlineQueue, held_deadlines};
    ghost use Rattle.pending.specs.machine.PendingEntries.{ArePendingEntries, all_listed, items_of};
    ghost use Rattle.pending.specs.machine.PendingLists.{PendingList, pending_code};

    ghost Value = { PendingList };

    ghost coded = { pending_code };

    ghost view = { λ p. record {
      instances = items_of p.sleepers.entries;
      deadlines = held_deadlines p.deadlines;
      listed = all_listed p.sleepers.entries;
    } };

    ghost invariant = { λ p. IsDeadlineQueue p.deadlines × ArePendingEntries p.steps p.sleepers.entries };
}

impl Pending {
    /// Nothing is pending.
    pub fn new(alloc: Global) -> Pending
        ensures instances { result.instances ≡ [] }
        ensures kept { (plans : List AnyPlan) → IsPendingListOf plans result }
    {
        Pending::seeded(alloc, Seed::known())
    }

    /// So too, with a seed for the hashes by which what an event wakes is found.
    pub fn seeded(alloc: Global, seed: Seed) -> Pending
        ensures instances { result.instances ≡ [] }
        ensures kept { (plans : List AnyPlan) → IsPendingListOf plans result }
    {
        let sleepers = Sleepers::new(alloc, seed);
        let deadlines = DeadlineQueue::new(alloc);
        Pending {
            sleepers,
            deadlines,
            steps: 0,
        }
    }

    /// Those of a list, with the deadlines that they have and what they wait for at a time. Each of them may wait as at
    /// another time; then it is looked at once more.
    pub fn from_list(
        alloc: Global,
        plans: &[Plan],
        time: u64,
        list: Instances,
    ) -> Result<Pending, NoMemory>
        ensures instances { IfOk result (λ p. p.instances ≡ list) }
        ensures kept { IfOk result (IsPendingListOf (map plan_of plans.now)) }
    {
        Pending::seeded_from(alloc, Seed::known(), plans, time, list)
    }

    /// So too, with a seed for the hashes by which what an event wakes is found.
    pub fn seeded_from(
        alloc: Global,
        seed: Seed,
        plans: &[Plan],
        time: u64,
        list: Instances,
    ) -> Result<Pending, NoMemory>
        ensures instances { IfOk result (λ p. p.instances ≡ list) }
        ensures kept { IfOk result (IsPendingListOf (map plan_of plans.now)) }
    {
        let mut sleepers = Sleepers::new(alloc, seed);
        let mut deadlines = DeadlineQueue::new(alloc);
        put_listed(alloc, plans, time, list, &mut sleepers, &mut deadlines)?;
        Ok(Pending {
            sleepers,
            deadlines,
            steps: 1,
        })
    }

    /// The seed of the hashes.
    pub fn seed(&self) -> Seed {
        self.sleepers.seed()
    }

    /// How many instances there are.
    pub fn len(&self) -> usize
        ensures { result ≡ length self.now.instances }
    {
        self.sleepers.len()
    }

    /// The instances in order, as a list of their own.
    pub fn to_list(&self, alloc: Global) -> Result<Instances, NoMemory>
        ensures { IfOk result (λ list. list ≡ self.now.instances) }
    {
        let entries = self.sleepers.in_order(alloc)?;
        let instances = items_in(alloc, entries.as_slice())?;
        duplicates(alloc, instances.as_slice())
    }

    /// Those are still to be asked at a step of this time with these events that do not sleep there. At the end of its
    /// window an instance is awake where the step is inserted.
    pub fn asking(
        &self,
        alloc: Global,
        events: &[Event],
        time: u64,
        inserted: bool,
    ) -> Result<Asking<'_>, NoMemory>
        ensures { IfOk result (BeginsAsking events.now (moments.step_moment inserted time) self.now.listed) }
    {
        let agenda = self
            .sleepers
            .agenda(alloc, events, step_moment(inserted, time))?;
        Ok(Asking::of(alloc, &self.sleepers, agenda))
    }

    /// Whether some may be awake at a step of this time with these events. Else all sleep.
    pub fn may_wake(&self, events: &[Event], time: u64, inserted: bool) -> bool
        ensures { IsFalse result
            → AllButThose (SleepsNow events.now (moments.step_moment inserted time)) self.now.listed [] }
    {
        self.sleepers.may_wake(events, step_moment(inserted, time))
    }

    /// The least of the deadlines.
    pub fn least_deadline(&self) -> Option<u64>
        ensures { IsLeastOf self.now.deadlines result }
    {
        self.deadlines.least()
    }

    /// Each instance becomes what it becomes after the step, in its place, and what the roots of the rules begin
    /// comes last, where the goals of the instances were not met before the step, as it is with what is pending after a
    /// trace (`obligations::laws::pending_is_unmet`). At an inserted step those are served whose deadline it is: nothing
    /// is asked of them. Once memory has run out, it is fit to be dropped.
    pub fn progress(
        &mut self,
        alloc: Global,
        plans: &[Plan],
        now: &Now<'_>,
        inserted: bool,
    ) -> Result<(), NoMemory>
        requires roots { CanAskRoots (guards_now now.now) (map plan_of plans.now) }
        requires named { PlansStand (map plan_of plans.now) }
        requires instances { AllByRecursion (CanAskOf (guards_now now.now) (map plan_of plans.now))
            self.old.instances }
        requires keeps { IsPendingListOf (map plan_of plans.now) self.old }
        requires few { length plans.now ≤ 2 ^ 32 }
        requires in_time { now.now.time ≤ MOST_TIME }
        ensures goes { OnOk result ((trace : List Step) (step : Step) → IsNowOf now.now (trace ++ step ∷ [])
            → last_time trace ≤ step.time → AreUnmet (map plan_of plans.now) trace self.old.instances
            → AreServed (map plan_of plans.now) inserted (trace ++ step ∷ []) self.old.instances
            → PendingAfter (map plan_of plans.now) (trace ++ step ∷ []) self.old.instances self.new.instances) }
        ensures leads { OnOk result (NowLeads now.now (map plan_of plans.now) inserted
            self.old.instances self.new.instances) }
        ensures keeps { OnOk result (IsPendingListOf (map plan_of plans.now) self.new) }
        ensures instances { OnOk result (AllByRecursion
            (CanAskOf (guards_now now.now) (map plan_of plans.now)) self.new.instances) }
    {
        sleepers_stay();
        pending_exists();
        steps_go_in_order::<Instance>();
        let number = self.steps;
        let next = beginning_behind(number)?;
        self.steps = next;
        let more = carry(
            alloc,
            plans,
            now,
            inserted,
            number,
            &mut self.sleepers,
            &mut self.deadlines,
        )?;
        put_each(plans, more, &mut self.sleepers, &mut self.deadlines)
    }
}

// The number of the beginning after one.
fn beginning_behind(number: u64) -> Result<u64, NoMemory>
    ensures { IfOk result (λ next. (next ≡ number + 1) × (number < 2 ^ 64 - 1)) }
{
    match number.checked_add(1) {
        Some(next) => Ok(next),
        None => Err(NoMemory),
    }
}

// Copies of instances.
fn duplicates(alloc: Global, instances: &[&Instance]) -> Result<Instances, NoMemory>
    ensures { IfOk result (λ copies. copies ≡ shown instances.now) }
{
    let mut copies = Vec::with_capacity(alloc, instances.len())?;
    for instance in instances {
        copies.push(instance.duplicate(alloc)?)?;
    }
    Ok(Instances::from_vec(copies))
}
