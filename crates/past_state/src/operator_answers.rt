//! Questions to operators on the past at a step, each answered by a look-up in what is kept.
ghost use Rattle.std.specs.Prelude.{◌≡◌, ◌↔◌, ◌≤◌, ◌<◌, ◌∷◌, [], IsTrue, IfOk, drop, get_or};
ghost use Rattle.std.specs.Prelude.{length, reverse};
ghost use Rattle.enf_data.specs.meaning.Valuations.{Valuation as Bound};
ghost use Rattle.valuations.specs.machine.Tables.{AgreesWhereBound, HasValuation, IsTable};
ghost use Rattle.monitorable_guard.specs.machine.Evaluation.{FirstHasUnder};
ghost use Rattle.past_state.specs.machine.LazyTables.{CanAskEach, tables_at};

use crate::memories::{Memory, StepTables};
use crate::operators::OperatorState;
use enf_data::memory::NoMemory;
use monitorable_guard::Past;
use std::alloc::Global;
use std::marker::Model;
use valuations::{Lookup, Table};

/// Operators that are asked at a step, each by its number; the first one's stands last.
#[derive(Drop)]
pub struct LazyTables<'a> {
    operators: &'a [OperatorState],
    steps: &'a [StepTables],
    places: &'a [usize],
    time: u64,
}

impl<'a> Model for LazyTables<'a> {
    ghost use Rattle.std.specs.Prelude.{List};
    ghost use Rattle.valuations.specs.machine.Tables.{Relation};
    ghost use Rattle.past_state.specs.machine.LazyTables.{CanAskEach, tables_at};

    ghost Value = { List Relation };

    ghost view = { λ asked. tables_at asked.operators.now asked.steps.now asked.time asked.places.now };

    ghost invariant = { λ asked. CanAskEach asked.operators.now asked.steps.now asked.time asked.places.now };
}

impl<'a> LazyTables<'a> {
    /// The operators with these numbers, at a step at this time that brings these tables.
    pub fn of(
        operators: &'a [OperatorState],
        steps: &'a [StepTables],
        places: &'a [usize],
        time: u64,
    ) -> LazyTables<'a>
        requires { CanAskEach operators.now steps.now time places.now }
        ensures { result ≡ tables_at operators.now steps.now time places.now }
    {
        LazyTables {
            operators,
            steps,
            places,
            time,
        }
    }

    /// Those after the first ones.
    pub fn behind(&self, count: usize) -> LazyTables<'a>
        requires { count ≤ length self.now }
        ensures { result ≡ drop count self.now }
    {
        LazyTables {
            operators: self.operators,
            steps: self.steps,
            places: &self.places[..self.places.len() - count],
            time: self.time,
        }
    }
}

impl Past for LazyTables<'_> {
    ghost tables = { λ asked. asked };

    fn count(&self) -> usize {
        self.places.len()
    }

    fn has<V: Lookup>(&self, operator: usize, v: &V) -> bool {
        let place = place_of(self.places, operator);
        let memory = &self.operators[place].memory;
        memory.answers(self.time, &self.steps[place], v)
    }

    fn rows_under<V: Lookup>(
        &self,
        alloc: Global,
        operator: usize,
        v: &V,
    ) -> Result<Table, NoMemory> {
        let place = place_of(self.places, operator);
        let memory = &self.operators[place].memory;
        memory.rows_under(alloc, self.time, &self.steps[place], v)
    }

    fn has_some<V: Lookup>(&self, alloc: Global, operator: usize, v: &V) -> Result<bool, NoMemory> {
        let place = place_of(self.places, operator);
        let memory = &self.operators[place].memory;
        memory.has_some(alloc, self.time, &self.steps[place], v)
    }
}

// The number that stands at this place from the end.
pub fn place_of(places: &[usize], operator: usize) -> usize
    requires { operator < length places.now }
    ensures { result ≡ get_or (reverse places.now) operator result }
{
    places[places.len() - 1 - operator]
}

impl Memory {
    ghost use Rattle.past_state.specs.machine.LazyTables.{CanAnswer};
    ghost use Rattle.past_state.specs.machine.Memories.{memory_given};

    /// Whether the valuation is among the rows of the operator at the step.
    pub fn answers<V: Lookup>(&self, time: u64, tables: &StepTables, v: &V) -> bool
        requires { CanAnswer self.now time tables.now }
        ensures { IsTrue result ↔ HasValuation (memory_given self.now time tables.now) (V.valuation v.now) }
    {
        let surviving = tables.surviving.as_surviving();
        match self {
            Memory::Prev { slot, .. } => slot.answers(time, v),
            Memory::Once { window, .. } => window.answers(
                time,
                &surviving,
                tables.right.table(),
                v,
            ),
            Memory::Since { window, .. } => window.answers(
                time,
                &surviving,
                tables.right.table(),
                v,
            ),
        }
    }

    /// Those of the rows of the operator at the step that agree with the valuation on each column that it binds.
    pub fn rows_under<V: Lookup>(
        &self,
        alloc: Global,
        time: u64,
        tables: &StepTables,
        v: &V,
    ) -> Result<Table, NoMemory>
        requires { CanAnswer self.now time tables.now }
        ensures table { IfOk result IsTable }
        ensures columns { IfOk result (λ t. t.columns ≡ (memory_given self.now time tables.now).columns) }
        ensures rows { IfOk result (λ t. (w : Bound) → HasValuation t w
            ↔ (HasValuation (memory_given self.now time tables.now) w
            × AgreesWhereBound (memory_given self.now time tables.now).columns (V.valuation v.now) w)) }
    {
        let surviving = tables.surviving.as_surviving();
        match self {
            Memory::Prev { slot, .. } => slot.rows_under(alloc, time, v),
            Memory::Once { window, .. } => {
                window.rows_under(alloc, time, &surviving, tables.right.table(), v)
            }
            Memory::Since { window, .. } => {
                window.rows_under(alloc, time, &surviving, tables.right.table(), v)
            }
        }
    }
    /// Whether there is such a row: of a window the first that is found is enough.
    pub fn has_some<V: Lookup>(
        &self,
        alloc: Global,
        time: u64,
        tables: &StepTables,
        v: &V,
    ) -> Result<bool, NoMemory>
        requires { CanAnswer self.now time tables.now }
        ensures { IfOk result (λ some. IsTrue some
            ↔ FirstHasUnder (memory_given self.now time tables.now ∷ []) (V.valuation v.now)) }
    {
        let surviving = tables.surviving.as_surviving();
        match self {
            Memory::Prev { .. } => {
                let rows = self.rows_under(alloc, time, tables, v)?;
                Ok(!rows.is_empty())
            }
            Memory::Once { window, .. } => Ok(window.has_some(
                time,
                &surviving,
                tables.right.table(),
                v,
            )),
            Memory::Since { window, .. } => Ok(window.has_some(
                time,
                &surviving,
                tables.right.table(),
                v,
            )),
        }
    }
}
