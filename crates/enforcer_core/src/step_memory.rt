//! What is remembered of the steps that were emitted.
ghost use Rattle.std.specs.Prelude.{◌≡◌, ◌+◌, ◌^◌, ◌<◌, ◌≤◌, ℕ, [], IfOk, IsTrue, OnErr};
ghost use Rattle.std.specs.Prelude.{OnOk, length, map};
ghost use Rattle.choice_step.specs.machine.RuleTriggers.{AllSleep};
ghost use Rattle.choice_step.specs.meaning.Follows.{is_inserted as is_of_deadline};
ghost use Rattle.plan_terms.specs.machine.StoredPlans.{plan_of};
ghost use Rattle.obligations.specs.declared.present_step.TheConstants.{MOST_TIME};
ghost use Rattle.past_state.specs.machine.GuardPlaces.{placed_guard};
ghost use Rattle.past_state.specs.machine.UntouchedSteps.{AreUntouched};
ghost use Rattle.obligations.specs.machine.Successors.{LeadsAt};
ghost use Rattle.obligations.specs.machine.AskablePlans.{CanAskOf};
ghost use Rattle.pending.specs.machine.PendingLists.{IsPendingListOf, listed_instances};
ghost use Rattle.past_state.specs.machine.Past.{GuardsWillHold};
ghost use Rattle.std.specs.List.{AllByRecursion};
ghost use Rattle.trace_meaning.specs.meaning.Traces.{StepRecord, Tick, most_time};
ghost use Rattle.trace_meaning.specs.declared.kinds.StepKind.TheVariants.{System};
ghost use Rattle.enforcer_core.specs.machine.MadeSteps.{acted_steps};
ghost use Rattle.enforcer_core.specs.machine.Enforcers.{policy_plans};
ghost use Rattle.enforcer_core.specs.machine.EnforcerInvariant.{IsServing, enforcing_at};
ghost use Rattle.enforcer_core.specs.machine.PassedDeadlines.{IsLeastPassed, LetsOut, NoneIsLeft, PassesDeadlines};
ghost use Rattle.enforcer_core.specs.machine.StepMemory.{AreFactsOf, CanAskRemembered, CanDecideAt, IsDecided, IsIdle};
ghost use Rattle.enforcer_core.specs.machine.StepMemory.{PendingLeadsTo, most_inserted, most_positions};

use crate::laws::step_laws;
use crate::plan_facts::PlanFacts;
use crate::steps::{OutStep, OutSteps};
use choice_step::idle_steps::asleep_is_idle;
use choice_step::laws::decided_misses_nothing;
use choice_step::{Actions, Choice, Wakes, choose_with};
use enf_data::Event;
use enf_data::event_sets::EventSet;
use enf_data::memory::NoMemory;
use enforce_types::TypedPolicy;
use monitorable_guard::StepEvents;
use obligations::laws::{
    now_stands, pending_exists, pending_is_enough, pending_is_unmet, pending_was_begun, traces_grow,
};
use obligations::{Now, PresentEvents};
use past_state::{PastState, Tables};
use pending::Pending;
use plan_terms::Plan;
use std::alloc::Global;
use trace_meaning::kinds::StepKind;
use trace_meaning::laws::trace_grows;

// What the guards remember of the steps that were emitted, what they left pending, how many they are, and the time of
// the last one.
#[derive(Drop)]
pub(crate) struct Remembered {
    pub(crate) past: PastState,
    pub(crate) pending: Pending,
    pub(crate) position: u64,
    pub(crate) last: Option<u64>,
}

// Steps that were emitted at deadlines, and the time below which all is over after them.
#[derive(Drop)]
pub(crate) struct Passed {
    pub(crate) steps: Vec<OutStep>,
    pub(crate) clock: u64,
}

// How many events are looked at one by one at most, to find out that a step does nothing.
const MOST_LOOKED_AT: usize = 8;

// How many steps one call inserts at most: no memory holds a longer list.
const MOST_INSERTED: usize = (1 << 62) - 2;

impl Remembered {
    // Decides a step of a kind at a time, which has these events to begin with, and remembers it. Once memory has run
    // out, it is fit to be dropped.
    #[inline(always)]
    pub(crate) fn decide(
        &mut self,
        alloc: Global,
        facts: &PlanFacts,
        plans: &[Plan],
        kind: StepKind,
        time: u64,
        events: EventSet,
    ) -> Result<OutStep, NoMemory>
        requires facts { AreFactsOf (map plan_of plans.now) facts.now }
        requires can { CanDecideAt (map plan_of plans.now) self.old time }
        requires room { self.old.position + 1 < 2 ^ 64 }
        requires in_time { time ≤ MOST_TIME }
        ensures decided { IfOk result (λ o. IsDecided (map plan_of plans.now) self.old kind time events o self.new) }
        ensures can { OnOk result
            ((later : ℕ) → time ≤ later → CanDecideAt (map plan_of plans.now) self.new later) }
    {
        traces_grow();
        trace_grows();
        pending_is_unmet();
        asleep_is_idle();
        let inserted = is_inserted(kind);
        if self.is_idle(&facts.wakes, events.as_slice(), time, inserted) {
            self.past.pass(time)?;
            self.position += 1;
            self.last = Some(time);
            return Ok(OutStep {
                kind,
                time,
                events,
                actions: Actions::new(alloc),
            });
        }
        // By `?` it has a place of its own, so that the step above is made where it goes.
        let step = self.decide_awake(alloc, facts, plans, kind, time, events)?;
        Ok(step)
    }

    // Whether no rule is woken by the events, they touch nothing that is remembered of the past, and none of what is
    // pending waits for events of their names or for the time. An inserted step, at which something is served, is not
    // looked at.
    #[inline(always)]
    fn is_idle(&self, wakes: &Wakes, events: &[Event], time: u64, inserted: bool) -> bool
        requires kept { listed_instances self.now.pending.listed ≡ self.now.pending.instances }
        ensures { IsTrue result → IsIdle wakes.now self.now inserted time events.now }
    {
        if inserted {
            return false;
        }
        if !self.changes_nothing(wakes, events) {
            return false;
        }
        if self.pending.len() == 0 {
            return true;
        }
        if self.pending.may_wake(events, time, inserted) {
            return false;
        }
        true
    }

    // Whether the events wake no rule and touch nothing that is remembered of the past, which is not looked for among
    // many.
    #[inline(always)]
    fn changes_nothing(&self, wakes: &Wakes, events: &[Event]) -> bool
        ensures asleep { IsTrue result → AllSleep wakes.now events.now }
        ensures untouched { IsTrue result → AreUntouched events.now self.now.past.operators }
    {
        (events.len() <= MOST_LOOKED_AT || self.past.is_empty())
            && wakes.all_sleep(events)
            && self.past.is_untouched(events)
    }

    // Decides a step at which the rules are asked, and remembers it.
    #[inline(never)]
    fn decide_awake(
        &mut self,
        alloc: Global,
        facts: &PlanFacts,
        plans: &[Plan],
        kind: StepKind,
        time: u64,
        events: EventSet,
    ) -> Result<OutStep, NoMemory>
        requires facts { AreFactsOf (map plan_of plans.now) facts.now }
        requires can { CanDecideAt (map plan_of plans.now) self.old time }
        requires room { self.old.position + 1 < 2 ^ 64 }
        requires in_time { time ≤ MOST_TIME }
        ensures decided { IfOk result (λ o. IsDecided (map plan_of plans.now) self.old kind time events o self.new) }
        ensures can { OnOk result
            ((later : ℕ) → time ≤ later → CanDecideAt (map plan_of plans.now) self.new later) }
    {
        traces_grow();
        trace_grows();
        decided_misses_nothing();
        pending_was_begun();
        let inserted = is_inserted(kind);
        let Choice {
            events,
            actions,
            tables,
        } = choose_with(
            alloc,
            &facts.wakes,
            plans,
            &self.pending,
            &self.past,
            time,
            self.position,
            events,
            inserted,
        )?;
        // Its clause says that no event stands twice.
        let _given = events.as_slice();
        self.progress(alloc, facts, plans, time, &events, &tables, inserted)?;
        self.past.commit(time, &events, tables)?;
        self.position += 1;
        self.last = Some(time);
        Ok(OutStep {
            kind,
            time,
            events,
            actions,
        })
    }

    // Inserts a step at each deadline that is passed, least first; where no time is given, all are.
    #[inline(always)]
    pub(crate) fn pass(
        &mut self,
        alloc: Global,
        facts: &PlanFacts,
        policy: &TypedPolicy,
        clock: u64,
        until: Option<u64>,
    ) -> Result<Passed, NoMemory>
        requires facts { AreFactsOf (policy_plans policy.now) facts.now }
        requires serves { IsServing (enforcing_at policy.now self.old clock) }
        requires room { self.old.position < most_positions }
        ensures passes { IfOk result (λ passed. PassesDeadlines until (enforcing_at policy.now self.old clock)
            (acted_steps passed.steps.items) (enforcing_at policy.now self.new passed.clock)) }
        ensures none_left { IfOk result (λ passed. NoneIsLeft until
            (enforcing_at policy.now self.new passed.clock)) }
        ensures few { IfOk result (λ passed. length passed.steps.items ≤ most_inserted) }
        ensures nothing { IfOk result (λ passed. NoneIsLeft until (enforcing_at policy.now self.old clock)
            → passed.steps.items ≡ []) }
        ensures memory { OnErr result (NoneIsLeft until (enforcing_at policy.now self.old clock) → ⊥) }
    {
        step_laws();
        if self.passed(until).is_none() {
            return Ok(Passed {
                steps: Vec::new(alloc),
                clock,
            });
        }
        self.pass_each(alloc, facts, policy, clock, until)
    }

    // Inserts a step at each deadline that is passed, by a look at each; where no time is given, all are.
    #[inline(never)]
    fn pass_each(
        &mut self,
        alloc: Global,
        facts: &PlanFacts,
        policy: &TypedPolicy,
        clock: u64,
        until: Option<u64>,
    ) -> Result<Passed, NoMemory>
        requires facts { AreFactsOf (policy_plans policy.now) facts.now }
        requires serves { IsServing (enforcing_at policy.now self.old clock) }
        requires room { self.old.position < most_positions }
        ensures passes { IfOk result (λ passed. PassesDeadlines until (enforcing_at policy.now self.old clock)
            (acted_steps passed.steps.items) (enforcing_at policy.now self.new passed.clock)) }
        ensures none_left { IfOk result (λ passed. NoneIsLeft until
            (enforcing_at policy.now self.new passed.clock)) }
        ensures few { IfOk result (λ passed. length passed.steps.items ≤ most_inserted) }
        ensures memory { OnErr result (NoneIsLeft until (enforcing_at policy.now self.old clock) → ⊥) }
    {
        step_laws();
        let plans = policy.plans();
        let mut steps = Vec::new(alloc);
        let mut behind = clock;
        while let Some(deadline) = self.passed(until) {
            if steps.len() >= MOST_INSERTED {
                return Err(NoMemory);
            }
            let none = EventSet::new(alloc);
            let step = self.decide(alloc, facts, plans, StepKind::Inserted, deadline, none)?;
            steps.push(step)?;
            behind = deadline + 1;
        }
        Ok(Passed {
            steps,
            clock: behind,
        })
    }

    // The least deadline, where it is passed.
    fn passed(&self, until: Option<u64>) -> Option<u64>
        ensures { IsLeastPassed self.now.pending.deadlines until result }
    {
        let least = self.pending.least_deadline()?;
        match until {
            Some(time) if time <= least => None,
            Some(_) | None => Some(least),
        }
    }

    // Lets out what a tick passes.
    pub(crate) fn let_pass(
        &mut self,
        alloc: Global,
        facts: &PlanFacts,
        policy: &TypedPolicy,
        clock: u64,
        time: u64,
    ) -> Result<OutSteps, NoMemory>
        requires facts { AreFactsOf (policy_plans policy.now) facts.now }
        requires serves { IsServing (enforcing_at policy.now self.old clock) }
        requires room { self.old.position < most_positions }
        requires not_over { clock ≤ time }
        ensures out { IfOk result (λ out. LetsOut (enforcing_at policy.now self.old clock) (Tick time)
            (acted_steps out) (enforcing_at policy.now self.new time)) }
        ensures nothing { IfOk result (λ out. NoneIsLeft (Some time) (enforcing_at policy.now self.old clock)
            → out ≡ []) }
        ensures memory { OnErr result (NoneIsLeft (Some time) (enforcing_at policy.now self.old clock) → ⊥) }
    {
        step_laws();
        let Passed { steps, clock: _ } = self.pass(alloc, facts, policy, clock, Some(time))?;
        Ok(OutSteps::from_vec(steps))
    }

    // Lets out what a step of the system passes, and then the step.
    pub(crate) fn let_out(
        &mut self,
        alloc: Global,
        facts: &PlanFacts,
        policy: &TypedPolicy,
        clock: u64,
        time: u64,
        events: EventSet,
    ) -> Result<OutSteps, NoMemory>
        requires facts { AreFactsOf (policy_plans policy.now) facts.now }
        requires serves { IsServing (enforcing_at policy.now self.old clock) }
        requires room { self.old.position < most_positions }
        requires not_over { clock ≤ time }
        requires in_time { time ≤ most_time System }
        ensures { IfOk result (λ out. LetsOut (enforcing_at policy.now self.old clock)
            (StepRecord (record { time = time; events = events })) (acted_steps out)
            (enforcing_at policy.now self.new time)) }
    {
        step_laws();
        if self.passed(Some(time)).is_some() {
            let out = self.let_out_behind(alloc, facts, policy, clock, time, events)?;
            return Ok(out);
        }
        // Their clauses say that the horizon is bounded, and that no event stands twice.
        let _horizon = policy.horizon();
        let _given = events.as_slice();
        let plans = policy.plans();
        let step = self.decide(alloc, facts, plans, StepKind::System, time, events)?;
        Ok(OutSteps::one(step))
    }

    // Lets out what a step of the system passes, where a deadline is passed, and then the step.
    #[inline(never)]
    fn let_out_behind(
        &mut self,
        alloc: Global,
        facts: &PlanFacts,
        policy: &TypedPolicy,
        clock: u64,
        time: u64,
        events: EventSet,
    ) -> Result<OutSteps, NoMemory>
        requires facts { AreFactsOf (policy_plans policy.now) facts.now }
        requires serves { IsServing (enforcing_at policy.now self.old clock) }
        requires room { self.old.position < most_positions }
        requires not_over { clock ≤ time }
        requires in_time { time ≤ most_time System }
        ensures { IfOk result (λ out. LetsOut (enforcing_at policy.now self.old clock)
            (StepRecord (record { time = time; events = events })) (acted_steps out)
            (enforcing_at policy.now self.new time)) }
    {
        step_laws();
        // Their clauses say that the horizon is bounded, and that no event stands twice.
        let _horizon = policy.horizon();
        let _given = events.as_slice();
        let Passed { steps, .. } = self.pass_each(alloc, facts, policy, clock, Some(time))?;
        let plans = policy.plans();
        let step = self.decide(alloc, facts, plans, StepKind::System, time, events)?;
        let out = OutSteps::and_last(steps, step)?;
        Ok(out)
    }

    // What is pending becomes what it becomes after the step.
    fn progress(
        &mut self,
        alloc: Global,
        facts: &PlanFacts,
        plans: &[Plan],
        time: u64,
        events: &EventSet,
        tables: &Tables,
        inserted: bool,
    ) -> Result<(), NoMemory>
        requires facts { AreFactsOf (map plan_of plans.now) facts.now }
        requires can { CanAskRemembered (map plan_of plans.now) self.old }
        requires guards { tables.now.guards ≡ self.old.past.guards }
        requires hold { GuardsWillHold self.old.past time events.now tables.now }
        requires in_time { time ≤ MOST_TIME }
        ensures past { self.new.past ≡ self.old.past }
        ensures position { self.new.position ≡ self.old.position }
        ensures last { self.new.last ≡ self.old.last }
        ensures goes { OnOk result (PendingLeadsTo (map plan_of plans.now) self.old inserted time events.now
            self.new.pending.instances) }
        ensures leads { OnOk result (LeadsAt events.now time self.old.position (map plan_of plans.now) inserted
            self.old.pending.instances self.new.pending.instances) }
        ensures deadlines { OnOk result (IsPendingListOf (map plan_of plans.now) self.new.pending) }
        ensures instances { OnOk result (AllByRecursion
            (CanAskOf (map placed_guard self.old.past.guards) (map plan_of plans.now)) self.new.pending.instances) }
    {
        pending_exists();
        pending_is_enough();
        traces_grow();
        if self.looks_at_now(facts) {
            return Ok(());
        }
        let ordered = StepEvents::of(alloc, events)?;
        self.progress_over(alloc, plans, time, &ordered, tables, inserted)
    }

    // Whether nothing is pending and no plan looks ahead.
    fn looks_at_now(&self, facts: &PlanFacts) -> bool
        ensures { IsTrue result → (self.now.pending.instances ≡ []) × IsTrue facts.now.looks_at_now }
    {
        self.pending.len() == 0 && facts.looks_at_now
    }

    // What is pending becomes what it becomes after the step, over its events in their order.
    fn progress_over(
        &mut self,
        alloc: Global,
        plans: &[Plan],
        time: u64,
        ordered: &StepEvents<'_>,
        tables: &Tables,
        inserted: bool,
    ) -> Result<(), NoMemory>
        requires can { CanAskRemembered (map plan_of plans.now) self.old }
        requires guards { tables.now.guards ≡ self.old.past.guards }
        requires hold { GuardsWillHold self.old.past time ordered.now tables.now }
        requires in_time { time ≤ MOST_TIME }
        ensures past { self.new.past ≡ self.old.past }
        ensures position { self.new.position ≡ self.old.position }
        ensures last { self.new.last ≡ self.old.last }
        ensures goes { OnOk result (PendingLeadsTo (map plan_of plans.now) self.old inserted time ordered.now
            self.new.pending.instances) }
        ensures leads { OnOk result (LeadsAt ordered.now time self.old.position (map plan_of plans.now) inserted
            self.old.pending.instances self.new.pending.instances) }
        ensures deadlines { OnOk result (IsPendingListOf (map plan_of plans.now) self.new.pending) }
        ensures instances { OnOk result (AllByRecursion
            (CanAskOf (map placed_guard self.old.past.guards) (map plan_of plans.now)) self.new.pending.instances) }
    {
        now_stands();
        pending_is_unmet();
        let gone = EventSet::new(alloc);
        let events = PresentEvents::of(ordered.set(), &gone);
        let now = Now {
            time,
            position: self.position,
            events: &events,
            ordered,
            tables,
            stale: &[],
        };
        self.pending.progress(alloc, plans, &now, inserted)
    }
}

fn is_inserted(kind: StepKind) -> bool
    ensures { result ≡ is_of_deadline kind }
{
    matches!(kind, StepKind::Inserted)
}
