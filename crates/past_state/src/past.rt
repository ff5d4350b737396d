//! What the operators on the past of guards remember.
ghost use Rattle.std.specs.Prelude.{◌≡◌, ◌↔◌, ◌≤◌, ℕ, List, [], None, IfOk, OnOk, All, Contains};
ghost use Rattle.std.specs.Prelude.{IsTrue};
ghost use Rattle.enf_data.specs.declared.events.Event.{Event as AnyEvent};
ghost use Rattle.valuations.specs.machine.Bindings.{bound_in};
ghost use Rattle.valuations.specs.machine.Tables.{IsTable};

use crate::guards::PlacedGuard;
use crate::kept_rows::KeptRows;
use crate::laws::{steps_stand, tables_are_known};
use crate::memories::StepTables;
use crate::names::GuardNames;
use crate::operator_answers::LazyTables;
use crate::operators::{OperatorStates, are_untouched, commit_shared, pass_shared, run};
use enf_data::event_sets::EventSet;
use enf_data::events::{Event, NameId};
use enf_data::memory::NoMemory;
use enf_data::seeds::Seed;
use monitorable_guard::laws::present_is_satisfied;
use monitorable_guard::{Guard, Rows, StepEvents};
use std::alloc::Global;
use std::marker::Model;
use std::rc::Rc;
use valuations::{Frame, Table, Valuation};

/// What the operators on the past of some guards remember of the steps up to the last one.
#[derive(Drop)]
pub struct PastState {
    pub(crate) guards: Rc<Vec<PlacedGuard>>,
    pub(crate) operators: Rc<OperatorStates>,
    // the names that the guards look for
    pub(crate) names: GuardNames,
}

impl Model for PastState {
    ghost use Rattle.std.specs.Prelude.{◌↔◌, Contains};
    ghost use Rattle.enf_data.specs.declared.events.NameId.{NameId};
    ghost use Rattle.past_state.specs.machine.Past.{Past, IsPast, guard_names};
    ghost use Rattle.past_state.specs.machine.PastCodes.{past_code};

    ghost Value = { Past };

    ghost coded = { past_code };

    ghost view = { λ s. record { guards = s.guards.value.items; operators = s.operators.value.items.items } };

    ghost invariant = { λ s. IsPast (record {
      guards = s.guards.value.items;
      operators = s.operators.value.items.items;
    }) × ((name : NameId) → Contains s.names name ↔ Contains (guard_names s.guards.value.items) name) };
}

/// The tables of the operators on the past of those guards at a step.
#[derive(Drop)]
pub struct Tables {
    guards: Rc<Vec<PlacedGuard>>,
    operators: Rc<OperatorStates>,
    time: u64,
    steps: Vec<StepTables>,
    // the numbers of the guards' outermost operators, the first one's last
    places: Vec<usize>,
}

impl Model for Tables {
    ghost use Rattle.past_state.specs.machine.LazyTables.{CanAskEach, tables_at};
    ghost use Rattle.past_state.specs.machine.Past.{PastTables, ArePastTables};
    ghost use Rattle.past_state.specs.machine.PastCodes.{tables_code};

    ghost Value = { PastTables };

    ghost coded = { tables_code };

    ghost view = { λ t. record {
      guards = t.guards.value.items;
      steps = t.steps.items;
      stack = tables_at t.operators.value.items.items t.steps.items t.time t.places.items;
    } };

    ghost invariant = { λ t. ArePastTables (record {
      guards = t.guards.value.items;
      steps = t.steps.items;
      stack = tables_at t.operators.value.items.items t.steps.items t.time t.places.items;
    }) × CanAskEach t.operators.value.items.items t.steps.items t.time t.places.items };
}

impl PastState {
    ghost use Rattle.enf_data.specs.declared.steps.Step.{Step};
    ghost use Rattle.past_state.specs.machine.Past.{AreTablesAtStep, PastStands, TablesWillStand, CommittedWillStand};
    ghost use Rattle.past_state.specs.machine.Past.{GuardsWillHold, PastCommitted, guard_names};
    ghost use Rattle.past_state.specs.machine.Guards.{AreCopies, IsFreshGuard};
    ghost use Rattle.past_state.specs.machine.ValueSources.{AreKnown};
    ghost use Rattle.past_state.specs.machine.MemoryTimes.{AreAtLast};
    ghost use Rattle.past_state.specs.machine.OperatorRuns.{AreUpToTimeOf, AllMemoriesFit};
    ghost use Rattle.past_state.specs.machine.StoredRows.{AreStoredRows};
    ghost use Rattle.past_state.specs.machine.UntouchedSteps.{AreUntouched, PassedWillStand};

    /// One window or slot for each operator on the past, before the first step. No quantifier in a guard binds a
    /// variable in scope.
    pub fn new(alloc: Global, guards: &[Guard]) -> Result<PastState, NoMemory>
        requires { All IsFreshGuard guards.now }
        ensures guards { IfOk result (λ p. AreCopies guards.now p.guards) }
        ensures last { IfOk result (AreAtLast None) }
        ensures exact { IfOk result (λ p. AreStoredRows p []) }
        ensures up_to { IfOk result (λ p. (time : ℕ) → AreUpToTimeOf time p.operators) }
        ensures stands { IfOk result (PastStands []) }
    {
        PastState::seeded(alloc, Seed::known(), guards)
    }

    /// So too, with a seed for the hashes by which rows are found.
    pub fn seeded(alloc: Global, seed: Seed, guards: &[Guard]) -> Result<PastState, NoMemory>
        requires { All IsFreshGuard guards.now }
        ensures guards { IfOk result (λ p. AreCopies guards.now p.guards) }
        ensures last { IfOk result (AreAtLast None) }
        ensures exact { IfOk result (λ p. AreStoredRows p []) }
        ensures up_to { IfOk result (λ p. (time : ℕ) → AreUpToTimeOf time p.operators) }
        ensures stands { IfOk result (PastStands []) }
    {
        PastState::seeded_from(alloc, seed, guards, None, KeptRows::new(alloc))
    }

    /// The tables at a step with these events at this time, which is not before the last one.
    pub fn tables(&self, alloc: Global, time: u64, events: &EventSet) -> Result<Tables, NoMemory>
        requires { AreUpToTimeOf time self.now.operators }
        ensures are { IfOk result (AreTablesAtStep self.now time events.now) }
        ensures stand { IfOk result (TablesWillStand self.now time events.now) }
        ensures hold { IfOk result (GuardsWillHold self.now time events.now) }
        ensures known { IfOk result (AreKnown self.now events.now) }
    {
        let events = StepEvents::of(alloc, events)?;
        self.tables_at(alloc, time, &events)
    }

    /// The tables at a step with events that were put in order once for it.
    pub fn tables_at(
        &self,
        alloc: Global,
        time: u64,
        events: &StepEvents<'_>,
    ) -> Result<Tables, NoMemory>
        requires { AreUpToTimeOf time self.now.operators }
        ensures are { IfOk result (AreTablesAtStep self.now time events.now) }
        ensures stand { IfOk result (TablesWillStand self.now time events.now) }
        ensures hold { IfOk result (GuardsWillHold self.now time events.now) }
        ensures known { IfOk result (AreKnown self.now events.now) }
    {
        present_is_satisfied();
        steps_stand();
        tables_are_known();
        let ran = run(alloc, self.operators.items.as_slice(), time, events)?;
        Ok(Tables {
            guards: self.guards.clone()?,
            operators: self.operators.clone()?,
            time,
            steps: ran.steps,
            places: ran.places,
        })
    }

    /// Whether no guard has an operator on the past: then nothing is remembered, and it stands for each trace.
    pub fn is_empty(&self) -> bool
        ensures none { IsTrue result ↔ (self.now.operators ≡ []) }
        ensures stands { IsTrue result → (trace : List Step) → PastStands trace self.now }
    {
        self.operators.items.is_empty()
    }

    /// Whether a step with these events brings nothing that is remembered of the past, and takes nothing away.
    pub fn is_untouched(&self, events: &[Event]) -> bool
        ensures { IsTrue result → AreUntouched events.now self.now.operators }
    {
        are_untouched(self.operators.items.as_slice(), events)
    }

    /// Makes such a step the last one, as `commit` does. Once memory has run out, it is fit to be dropped.
    #[inline(always)]
    pub fn pass(&mut self, time: u64) -> Result<(), NoMemory>
        requires later { AreUpToTimeOf time self.old.operators }
        requires untouched { (events : List AnyEvent) × AreUntouched events self.old.operators }
        ensures guards { self.new.guards ≡ self.old.guards }
        ensures up_to { OnOk result ((later : ℕ) → time ≤ later → AreUpToTimeOf later self.new.operators) }
        ensures stands { OnOk result (PassedWillStand self.old time self.new) }
    {
        steps_stand();
        if self.is_empty() {
            return Ok(());
        }
        pass_shared(&mut self.operators, time)
    }

    /// Whether a guard looks for events of the name, at a step or before it.
    pub fn looks_for(&self, name: NameId) -> bool
        ensures { IsTrue result ↔ Contains (guard_names self.now.guards) name }
    {
        self.names.has(name)
    }

    /// Makes the step of these tables the last one. Once memory has run out, its guards are as they were, and nothing
    /// is said of what it remembers: it is fit to be dropped.
    pub fn commit(&mut self, time: u64, events: &EventSet, tables: Tables) -> Result<(), NoMemory>
        requires later { AreUpToTimeOf time self.old.operators }
        requires are { AreTablesAtStep self.old time events.now tables }
        ensures guards { self.new.guards ≡ self.old.guards }
        ensures ok { OnOk result (PastCommitted self.old time tables.steps self.new) }
        ensures up_to { OnOk result ((later : ℕ) → time ≤ later
            → AreUpToTimeOf later self.new.operators) }
        ensures stands { OnOk result (CommittedWillStand self.old time events.now tables self.new) }
    {
        steps_stand();
        // where no other tables share the operators, they are written in place
        let Tables {
            operators,
            steps,
            ..
        } = tables;
        drop(operators);
        commit_shared(&mut self.operators, time, steps)
    }
}

impl Tables {
    ghost use Rattle.std.specs.Prelude.{◌<◌, length, drop};
    ghost use Rattle.past_state.specs.machine.ValueSources.{IsKnownOfGuard};
    ghost use Rattle.past_state.specs.machine.Past.{BindsBound, HasOpenColumns, AreEvaluated, AreSatisfied, IsTestOf};
    ghost use Rattle.past_state.specs.machine.Past.{IsEvaluated, IsSatisfied, AreEvaluatedIn, HasColumnsOf};

    /// The guard's rows at the step, with the valuation's values of the bound variables. The columns are those free
    /// variables that are not bound, in rising variable number.
    pub fn rows(
        &self,
        alloc: Global,
        guard: u32,
        events: &EventSet,
        v: &Valuation,
    ) -> Result<Table, NoMemory>
        requires within { guard < length self.now.guards }
        requires binds { BindsBound self.now.guards guard v.now }
        ensures table { IfOk result IsTable }
        ensures columns { IfOk result (HasOpenColumns self.now guard) }
        ensures evaluated { IfOk result (AreEvaluated self.now guard events.now v.now) }
        ensures satisfied { IfOk result (AreSatisfied self.now guard events.now v.now) }
        ensures known { IfOk result (IsKnownOfGuard self.now guard events.now v.now) }
    {
        let events = StepEvents::of(alloc, events)?;
        self.rows_under(alloc, guard, &events, &Frame::Whole(v))
    }

    /// The guard's rows at events that were put in order once for the step, under values that stay where they are.
    pub fn rows_under(
        &self,
        alloc: Global,
        guard: u32,
        events: &StepEvents<'_>,
        v: &Frame<'_>,
    ) -> Result<Table, NoMemory>
        requires within { guard < length self.now.guards }
        requires binds { BindsBound self.now.guards guard (bound_in v.now) }
        ensures table { IfOk result IsTable }
        ensures columns { IfOk result (HasOpenColumns self.now guard) }
        ensures evaluated { IfOk result (AreEvaluated self.now guard events.now (bound_in v.now)) }
        ensures satisfied { IfOk result (AreSatisfied self.now guard events.now (bound_in v.now)) }
        ensures known { IfOk result (IsKnownOfGuard self.now guard events.now (bound_in v.now)) }
    {
        present_is_satisfied();
        let placed = &self.guards[guard as usize];
        let past = self.behind(placed.start);
        placed.guard.evaluate_under(alloc, events, &past, v)
    }

    /// The guard's rows at such events and under such values, where rows that are the arguments of events stay where
    /// they are.
    #[inline(always)]
    pub fn told_under<'t>(
        &'t self,
        alloc: Global,
        guard: u32,
        events: &'t StepEvents<'_>,
        v: &Frame<'_>,
    ) -> Result<Rows<'t>, NoMemory>
        requires within { guard < length self.now.guards }
        requires binds { BindsBound self.now.guards guard (bound_in v.now) }
        ensures table { IfOk result IsTable }
        ensures columns { IfOk result (HasOpenColumns self.now guard) }
        ensures evaluated { IfOk result (AreEvaluated self.now guard events.now (bound_in v.now)) }
        ensures satisfied { IfOk result (AreSatisfied self.now guard events.now (bound_in v.now)) }
        ensures known { IfOk result (IsKnownOfGuard self.now guard events.now (bound_in v.now)) }
    {
        present_is_satisfied();
        let placed = &self.guards[guard as usize];
        let past = self.behind(placed.start);
        placed.guard.rows_under(alloc, events, &past, v)
    }

    /// Those of the guard's rows that are in a table of some of their columns: the guard is asked under each row of
    /// this table.
    pub fn rows_in(
        &self,
        alloc: Global,
        guard: u32,
        events: &StepEvents<'_>,
        v: &Frame<'_>,
        within: &Table,
    ) -> Result<Table, NoMemory>
        requires within { guard < length self.now.guards }
        requires binds { BindsBound self.now.guards guard (bound_in v.now) }
        requires table { IsTable within.now }
        requires columns { HasColumnsOf within.now self.now.guards guard }
        ensures table { IfOk result IsTable }
        ensures columns { IfOk result (HasOpenColumns self.now guard) }
        ensures evaluated { IfOk result (AreEvaluatedIn within.now self.now guard events.now (bound_in v.now)) }
        ensures known { IfOk result (IsKnownOfGuard self.now guard events.now (bound_in v.now)) }
    {
        let placed = &self.guards[guard as usize];
        let past = self.behind(placed.start);
        placed.guard.evaluate_in(alloc, events, &past, v, within)
    }

    /// Whether the valuation satisfies the guard, all of whose free variables are bound, at the step.
    pub fn holds(
        &self,
        alloc: Global,
        guard: u32,
        events: &EventSet,
        v: &Valuation,
    ) -> Result<bool, NoMemory>
        requires within { guard < length self.now.guards }
        requires binds { BindsBound self.now.guards guard v.now }
        requires test { IsTestOf self.now.guards guard }
        ensures evaluated { IfOk result (IsEvaluated self.now guard events.now v.now) }
        ensures satisfied { IfOk result (IsSatisfied self.now guard events.now v.now) }
    {
        let events = StepEvents::of(alloc, events)?;
        self.holds_under(alloc, guard, &events, &Frame::Whole(v))
    }

    /// Whether values that stay where they are satisfy the guard, at events that were put in order once for the step;
    /// no table is made of the guard.
    pub fn holds_under(
        &self,
        alloc: Global,
        guard: u32,
        events: &StepEvents<'_>,
        v: &Frame<'_>,
    ) -> Result<bool, NoMemory>
        requires within { guard < length self.now.guards }
        requires binds { BindsBound self.now.guards guard (bound_in v.now) }
        requires test { IsTestOf self.now.guards guard }
        ensures evaluated { IfOk result (IsEvaluated self.now guard events.now (bound_in v.now)) }
        ensures satisfied { IfOk result (IsSatisfied self.now guard events.now (bound_in v.now)) }
    {
        present_is_satisfied();
        let placed = &self.guards[guard as usize];
        let past = self.behind(placed.start);
        placed.guard.holds(alloc, events, &past, v)
    }

    // The operators after the first ones.
    fn behind(&self, start: usize) -> LazyTables<'_>
        requires { start ≤ length self.now.stack }
        ensures { result ≡ drop start self.now.stack }
    {
        LazyTables::of(
            self.operators.items.as_slice(),
            self.steps.as_slice(),
            self.places.as_slice(),
            self.time,
        )
        .behind(start)
    }
}
