//! The enforcer.
ghost use Rattle.std.specs.Prelude.{◌≡◌, ◌≢◌, ◌≤◌, ◌<◌, ◌+◌, ℕ, List, [], ◌∷◌, false};
ghost use Rattle.std.specs.Prelude.{All, Contains, IfOk, IfErr, Err, length};
ghost use Rattle.enforce_types.specs.machine.TypedPolicies.{WorkTogether, typed_of};
ghost use Rattle.enf_data.specs.declared.steps.Step.{Step};
ghost use Rattle.deadline_queue.specs.machine.Queues.{IsLeastOf};
ghost use Rattle.trace_meaning.specs.meaning.Traces.{StepRecord, Tick, most_time};
ghost use Rattle.trace_meaning.specs.declared.kinds.StepKind.TheVariants.{System};
ghost use Rattle.enforcer_core.specs.machine.Answers.{Admits, IsNewEnforcer, Leaves, RefusesCall, RefusesDrain};
ghost use Rattle.enforcer_core.specs.machine.EnforcerSteps.{EnforcerDrains, EnforcerTakes};
ghost use Rattle.enforcer_core.specs.machine.MadeSteps.{acted_steps};
ghost use Rattle.enforcer_core.specs.machine.Stands.{DrainsNothing, IsJustifiedFrom, LeavesAlone, Stands};
ghost use Rattle.enforcer_core.specs.machine.StepMemory.{most_positions};
ghost use Rattle.enforcer_core.specs.machine.Snapshots.{CanBeTakenUp, IsKeptOf, IsTakenUpFrom, SavesTrace, StandsAgain};

use crate::laws::{all_are_justified, lawful_are_left_alone, step_laws};
use crate::plan_facts::PlanFacts;
use crate::step_memory::{Passed, Remembered};
use crate::steps::{OutSteps, StepOut, StepRefusal, Untaken};
use enf_data::event_sets::EventSet;
use enf_data::memory::NoMemory;
use enf_data::seeds::Seed;
use enforce_types::TypedPolicy;
use obligations::instances::Instances;
use obligations::laws::{pending_is_enough, well_formed_can_be_asked};
use past_state::PastState;
use past_state::laws::operators_are_nodes;
use pending::Pending;
use plan_terms::laws::{found_node_inherits, nodes_have_scopes};
use save_codec::Snapshot;
use std::alloc::Global;
use std::marker::Model;

/// An enforcer of a policy, seen as the policy, what its guards remember, what is pending, how many steps were emitted,
/// the time of the last one, the clock and whether it is stopped.
#[derive(Drop)]
pub struct Enforcer {
    policy: TypedPolicy,
    facts: PlanFacts,
    remembered: Remembered,
    clock: u64,
    // a call that runs out of memory leaves this set
    stopped: bool,
}

impl Model for Enforcer {
    ghost use Rattle.enforcer_core.specs.machine.Enforcers.{Enforcing, policy_plans};
    ghost use Rattle.enforcer_core.specs.machine.EnforcerInvariant.{IsEnforcing};
    ghost use Rattle.pending.specs.machine.PendingLists.{pending_code};
    ghost use Rattle.past_state.specs.machine.PastCodes.{past_code};
    ghost use Rattle.std.specs.Coded.{codes};
    ghost use Rattle.enforcer_core.specs.machine.StepMemory.{AreFactsOf};
    ghost use Rattle.enforce_types.specs.contracts.typed_policy.TypedPolicy as typed;

    ghost Value = { Enforcing };

    ghost coded = { Prim.hlevel (codes, typed.the_row.coded, past_code, pending_code) };

    ghost view = { λ e. record {
      policy = e.policy;
      past = e.remembered.past;
      pending = e.remembered.pending;
      position = e.remembered.position;
      last = e.remembered.last;
      clock = e.clock;
      stopped = e.stopped;
    } };

    ghost invariant = { λ e. IsEnforcing (record {
      policy = e.policy;
      past = e.remembered.past;
      pending = e.remembered.pending;
      position = e.remembered.position;
      last = e.remembered.last;
      clock = e.clock;
      stopped = e.stopped;
    }) × AreFactsOf (policy_plans e.policy) e.facts };
}

impl Enforcer {
    /// An enforcer of a policy, with clock 0, which stands for the trace without a step.
    pub fn new(alloc: Global, policy: TypedPolicy) -> Result<Enforcer, NoMemory>
        ensures made { IfOk result (IsNewEnforcer policy) }
        ensures together { IfOk result (λ enforcer. WorkTogether (typed_of enforcer.policy)) }
        ensures stands { IfOk result (λ enforcer. Stands enforcer []) }
    {
        Enforcer::seeded(alloc, Seed::known(), policy)
    }

    /// So too, where a stranger chooses the events: who does not know the seed cannot choose such as take it long.
    pub fn seeded(alloc: Global, seed: Seed, policy: TypedPolicy) -> Result<Enforcer, NoMemory>
        ensures made { IfOk result (IsNewEnforcer policy) }
        ensures together { IfOk result (λ enforcer. WorkTogether (typed_of enforcer.policy)) }
        ensures stands { IfOk result (λ enforcer. Stands enforcer []) }
    {
        well_formed_can_be_asked();
        // Its clause says that the horizon is bounded.
        let _horizon = policy.horizon();
        let facts = PlanFacts::of(alloc, policy.plans())?;
        let past = PastState::seeded(alloc, seed, policy.guards())?;
        let pending = Pending::seeded(alloc, seed);
        Ok(Enforcer {
            policy,
            facts,
            remembered: Remembered {
                past,
                pending,
                position: 0,
                last: None,
            },
            clock: 0,
            stopped: false,
        })
    }

    /// An enforcer of a policy that goes on from what was kept of one.
    pub fn from_snapshot(
        alloc: Global,
        policy: TypedPolicy,
        snapshot: Snapshot,
    ) -> Result<Enforcer, NoMemory>
        requires bounds { CanBeTakenUp policy snapshot }
        ensures taken_up { IfOk result (IsTakenUpFrom policy snapshot) }
        ensures together { IfOk result (λ enforcer. WorkTogether (typed_of enforcer.policy)) }
        ensures stands { IfOk result (StandsAgain policy snapshot) }
    {
        Enforcer::seeded_from(alloc, Seed::known(), policy, snapshot)
    }

    /// So too, with a seed.
    pub fn seeded_from(
        alloc: Global,
        seed: Seed,
        policy: TypedPolicy,
        snapshot: Snapshot,
    ) -> Result<Enforcer, NoMemory>
        requires bounds { CanBeTakenUp policy snapshot }
        ensures taken_up { IfOk result (IsTakenUpFrom policy snapshot) }
        ensures together { IfOk result (λ enforcer. WorkTogether (typed_of enforcer.policy)) }
        ensures stands { IfOk result (StandsAgain policy snapshot) }
    {
        well_formed_can_be_asked();
        nodes_have_scopes();
        found_node_inherits();
        // Its clause says that the horizon is bounded.
        let _horizon = policy.horizon();
        let Snapshot {
            clock,
            last,
            position,
            kept,
            pending,
        } = snapshot;
        let facts = PlanFacts::of(alloc, policy.plans())?;
        let past = PastState::seeded_from(alloc, seed, policy.guards(), last, kept)?;
        let pending = Pending::seeded_from(alloc, seed, policy.plans(), clock, pending)?;
        Ok(Enforcer {
            policy,
            facts,
            remembered: Remembered {
                past,
                pending,
                position,
                last,
            },
            clock,
            stopped: false,
        })
    }

    /// The time below which all is over.
    pub fn clock(&self) -> u64
        ensures { result ≡ self.now.clock }
    {
        self.clock
    }

    /// The least deadline of what is pending.
    pub fn next_deadline(&self) -> Option<u64>
        ensures { IsLeastOf self.now.pending.deadlines result }
    {
        self.remembered.pending.least_deadline()
    }

    /// The instances that are pending, in their order.
    pub fn pending(&self, alloc: Global) -> Result<Instances, NoMemory>
        ensures { IfOk result (λ list. list ≡ self.now.pending.instances) }
    {
        self.remembered.pending.to_list(alloc)
    }

    /// How many instances are pending.
    pub fn pending_count(&self) -> usize
        ensures { result ≡ length self.now.pending.instances }
    {
        self.remembered.pending.len()
    }

    /// Whether an earlier call ran out of memory; each later call is then refused.
    pub fn is_stopped(&self) -> bool
        ensures { result ≡ self.now.stopped }
    {
        self.stopped
    }

    /// What is kept of it between two steps.
    pub fn snapshot(&self, alloc: Global) -> Result<Snapshot, NoMemory>
        requires goes_on { self.now.stopped ≡ false }
        ensures kept { IfOk result (IsKeptOf self.now) }
        ensures saves { IfOk result (SavesTrace self.now) }
    {
        operators_are_nodes();
        let kept = self.remembered.past.kept(alloc)?;
        let pending = self.remembered.pending.to_list(alloc)?;
        Ok(Snapshot {
            clock: self.clock,
            last: self.remembered.last,
            position: self.remembered.position,
            kept,
            pending,
        })
    }

    /// The policy that it keeps.
    pub fn into_policy(self) -> TypedPolicy
        ensures { result ≡ self.policy }
    {
        self.policy
    }

    /// Takes a step of the system at a time up to 10^15. First it inserts a step at each deadline below that time,
    /// least first; then it gives the step as the policy wants it.
    pub fn step(
        &mut self,
        alloc: Global,
        time: u64,
        events: EventSet,
    ) -> Result<StepOut, StepRefusal>
        requires in_time { time ≤ most_time System }
        requires room { self.old.position < most_positions }
        ensures takes { IfOk result (λ made. EnforcerTakes self.old
            (StepRecord (record { time = time; events = events })) made self.new) }
        ensures refused { IfErr result (λ why. RefusesCall self.old time why × Leaves why self.old self.new) }
        ensures justified { IfOk result
            (λ out. IsJustifiedFrom self.old
            (StepRecord (record { time = time; events = events }) ∷ []) (acted_steps out.steps)) }
        ensures transparent { IfOk result
            (λ out. LeavesAlone self.old
            (StepRecord (record { time = time; events = events }) ∷ []) time (acted_steps out.steps)) }
    {
        all_are_justified();
        lawful_are_left_alone();
        // Its clause says that no event stands twice.
        let _given = events.as_slice();
        self.admit(time)?;
        self.stopped = true;
        let steps = self
            .remembered
            .let_out(alloc, &self.facts, &self.policy, self.clock, time, events)?;
        self.clock = time;
        self.stopped = false;
        Ok(StepOut { steps })
    }

    /// Takes a tick at a time up to 10^15, which says that all below it is over: it inserts a step at each deadline
    /// below that time, least first. Where there is none it takes no memory.
    pub fn tick(&mut self, alloc: Global, time: u64) -> Result<StepOut, StepRefusal>
        requires in_time { time ≤ most_time System }
        requires room { self.old.position < most_positions }
        ensures takes { IfOk result (λ made. EnforcerTakes self.old (Tick time) made self.new) }
        ensures refused { IfErr result (λ why. RefusesCall self.old time why × Leaves why self.old self.new) }
        ensures nothing { IfOk result (λ out. ((deadline : ℕ) → Contains self.old.pending.deadlines deadline
            → time ≤ deadline) → out.steps ≡ []) }
        ensures no_memory { ((deadline : ℕ) → Contains self.old.pending.deadlines deadline → time ≤ deadline)
            → result ≢ Err StepRefusal.NoMemory }
        ensures justified { IfOk result
            (λ out. IsJustifiedFrom self.old (Tick time ∷ []) (acted_steps out.steps)) }
        ensures transparent { IfOk result
            (λ out. LeavesAlone self.old (Tick time ∷ []) time (acted_steps out.steps)) }
    {
        all_are_justified();
        lawful_are_left_alone();
        self.admit(time)?;
        self.stopped = true;
        let steps = self
            .remembered
            .let_pass(alloc, &self.facts, &self.policy, self.clock, time)?;
        self.clock = time;
        self.stopped = false;
        Ok(StepOut { steps })
    }

    /// Lets out what is still owed to the steps that were taken: it inserts a step at each deadline, least first, until
    /// none is left. The policy is then satisfied, whatever comes.
    pub fn drain(&mut self, alloc: Global) -> Result<StepOut, StepRefusal>
        requires room { self.old.position < most_positions }
        ensures drains { IfOk result (λ made. EnforcerDrains self.old made self.new) }
        ensures refused { IfErr result (λ why. RefusesDrain self.old why × Leaves why self.old self.new) }
        ensures nothing { IfOk result (λ out. self.old.pending.deadlines ≡ [] → out.steps ≡ []) }
        ensures latest { IfOk result (λ out. (last : ℕ)
            → ((deadline : ℕ) → Contains self.old.pending.deadlines deadline → deadline ≤ last)
            → All (λ o. o.step.time ≤ last + (typed_of self.old.policy).ranked.horizon) (acted_steps out.steps)) }
        ensures horizon { IfOk result (λ _. (trace : List Step) → Stands self.old trace
            → self.new.clock ≤ self.old.clock + (typed_of self.old.policy).ranked.horizon + 1) }
        ensures justified { IfOk result (λ out. IsJustifiedFrom self.old [] (acted_steps out.steps)) }
        ensures transparent { IfOk result (λ out. DrainsNothing self.old (acted_steps out.steps)) }
    {
        step_laws();
        pending_is_enough();
        all_are_justified();
        lawful_are_left_alone();
        if self.stopped {
            return Err(StepRefusal::Stopped);
        }
        self.stopped = true;
        let Passed { steps, clock } = self
            .remembered
            .pass(alloc, &self.facts, &self.policy, self.clock, None)?;
        self.clock = clock;
        self.stopped = false;
        Ok(StepOut {
            steps: OutSteps::from_vec(steps),
        })
    }

    // Whether a call at this time is taken.
    fn admit(&self, time: u64) -> Result<(), Untaken>
        ensures { Admits self.now time result }
    {
        if self.stopped {
            return Err(Untaken::Stopped);
        }
        if time < self.clock {
            return Err(Untaken::Falling {
                clock: self.clock,
                given: time,
            });
        }
        Ok(())
    }
}
