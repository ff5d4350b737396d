//! How a guard asks for the past.
ghost use Rattle.std.specs.Prelude.{ℕ, ◌≡◌, ◌↔◌, ◌<◌, IsTrue, IfOk, List, Contains, drop, length};
ghost use Rattle.valuations.specs.machine.Tables.{Relation, IsTable};
ghost use Rattle.monitorable_guard.specs.machine.Evaluation.{FirstGivesUnder, FirstHasUnder};
ghost use Rattle.monitorable_guard.specs.machine.PresentMeaning.{FirstHas};
ghost use Rattle.monitorable_guard.specs.machine.Reordering.{renumbered};

use enf_data::memory::NoMemory;
use std::alloc::Global;
use valuations::{Lookup, Table};

/// The tables of a guard's outermost operators on the past, in pre-order; that of a `historically` has the valuations
/// under which it fails.
pub trait Past {
    ghost tables: { Self → List Relation };

    /// How many tables there are.
    fn count(&self) -> usize
        ensures { result ≡ length (tables self.now) };

    /// Whether the valuation is in the operator's table.
    fn has<V: Lookup>(&self, operator: usize, v: &V) -> bool
        requires { operator < length (tables self.now) }
        ensures { IsTrue result ↔ FirstHas (drop operator (tables self.now)) (V.valuation v.now) };

    /// The rows of the operator's table that agree with the valuation on each column that it binds.
    fn rows_under<V: Lookup>(
        &self,
        alloc: Global,
        operator: usize,
        v: &V,
    ) -> Result<Table, NoMemory>
        requires { operator < length (tables self.now) }
        ensures table { IfOk result IsTable }
        ensures rows { IfOk result (FirstGivesUnder (drop operator (tables self.now)) (V.valuation v.now)) };

    /// Whether there is a row that agrees with the valuation on each column that it binds: asked of these rows, where
    /// it is not known otherwise.
    fn has_some<V: Lookup>(&self, alloc: Global, operator: usize, v: &V) -> Result<bool, NoMemory>
        requires { operator < length (tables self.now) }
        ensures { IfOk result (λ some. IsTrue some
            ↔ FirstHasUnder (drop operator (tables self.now)) (V.valuation v.now)) }
    {
        let rows = self.rows_under(alloc, operator, v)?;
        Ok(!rows.is_empty())
    }
}

/// Tables that are there as a list.
#[derive(Drop)]
pub struct PastTables<'a> {
    pub tables: &'a [Table],
}

impl Past for PastTables<'_> {
    ghost tables = { λ past. past.tables.now };

    fn count(&self) -> usize {
        self.tables.len()
    }

    fn has<V: Lookup>(&self, operator: usize, v: &V) -> bool {
        self.tables[operator].has_valuation(v)
    }

    fn rows_under<V: Lookup>(
        &self,
        alloc: Global,
        operator: usize,
        v: &V,
    ) -> Result<Table, NoMemory> {
        self.tables[operator].rows_under(alloc, v)
    }
}

/// Tables in another order: that of an operator is the one at its number.
#[derive(Drop)]
pub struct Renumbered<'a, P: Past> {
    pub past: &'a P,
    pub numbers: &'a [usize],
    ghost within: { (n : ℕ) → Contains numbers.now n → n < length (P.tables past.now) },
}

impl<P: Past> Past for Renumbered<'_, P> {
    ghost tables = { λ past. renumbered past.numbers.now (P.tables past.past.now) };

    fn count(&self) -> usize {
        self.numbers.len()
    }

    fn has<V: Lookup>(&self, operator: usize, v: &V) -> bool {
        self.past.has(self.numbers[operator], v)
    }

    fn rows_under<V: Lookup>(
        &self,
        alloc: Global,
        operator: usize,
        v: &V,
    ) -> Result<Table, NoMemory> {
        self.past.rows_under(alloc, self.numbers[operator], v)
    }

    fn has_some<V: Lookup>(&self, alloc: Global, operator: usize, v: &V) -> Result<bool, NoMemory> {
        self.past.has_some(alloc, self.numbers[operator], v)
    }
}
