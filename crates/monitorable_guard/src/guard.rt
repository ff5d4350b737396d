//! Guards: formulas that can be evaluated over finite tables, with the variables that are bound.
ghost use Rattle.std.specs.Prelude.{◌≡◌, ◌↔◌, ◌⊎◌, List, IfOk, IfErr, IfSome, OnOk, IsTrue, Contains};
ghost use Rattle.enf_data.specs.declared.terms.VarId.{VarId as AnyVariable};
ghost use Rattle.enf_data.specs.meaning.Valuations.{Valuation as Bound};
ghost use Rattle.valuations.specs.machine.Bindings.{bound_in};
ghost use Rattle.valuations.specs.machine.Tables.{IsTable, Relation};
ghost use Rattle.monitorable_guard.specs.machine.Evaluation.{AreOpen, CanEvaluate, HasKnownValues, AreHoldingRows};
ghost use Rattle.monitorable_guard.specs.machine.Evaluation.{AreHoldingRowsIn, IsOpenIn};
ghost use Rattle.enf_formula.specs.machine.FormulaViews.{tree_of};
ghost use Rattle.enf_formula.specs.meaning.Satisfaction.{IsFree};
ghost use Rattle.enf_formula.specs.machine.FormulaShape.{BindsFresh};
ghost use Rattle.monitorable_guard.specs.meaning.Safety.{FreeWithin, Safe, IsTest};
ghost use Rattle.monitorable_guard.specs.machine.PresentMeaning.{HoldsNow};
ghost use Rattle.monitorable_guard.specs.machine.NeededEvents.{HoldsForNone};
ghost use Rattle.monitorable_guard.specs.machine.Guards.{RefusesGuard};

use crate::asked::Asked;
use crate::conditions::{fits, is_fresh};
use crate::evaluation::{Present, holds, rows_in};
use crate::events::StepEvents;
use crate::guard_rows::{Rows, are_variables, told};
use crate::looks::{Look, add_looks};
use crate::needed_events::lacks_event;
use crate::operators::{are_bound, open_beside};
use crate::order::asked_under;
use crate::past_tables::{Past, PastTables, Renumbered};
use crate::safety::is_safe;
use crate::scopes::{is_free_within, with_free};
use crate::told_rows::rows_told;
use enf_data::event_sets::EventSet;
use enf_data::events::Event;
use enf_data::items::Duplicate;
use enf_data::memory::NoMemory;
use enf_data::places::Place;
use enf_data::terms::Vars;
use enf_formula::Formula;
use std::alloc::Global;
use std::marker::Model;
use valuations::{Frame, Table, Valuation};

/// Why a formula is no guard.
#[derive(Clone, Copy, Debug, PartialEq, Eq)]
pub enum GuardRefusal {
    Unguarded { place: Place },
    NoMemory,
}

impl From<NoMemory> for GuardRefusal {
    ghost use Rattle.std.specs.Prelude.{◌≡◌};
    ghost use Rattle.monitorable_guard.specs.declared.guard.GuardRefusal.TheVariants.{NoMemory as OutOfMemory};

    ghost from_gives = { λ _ refusal. refusal ≡ OutOfMemory };

    fn from(_error: NoMemory) -> GuardRefusal {
        GuardRefusal::NoMemory
    }
}

/// A formula that can be evaluated over finite tables with these variables bound.
#[derive(Debug, Drop)]
pub struct Guard {
    formula: Formula,
    bound: Vars,
    // the free variables that are not bound: the columns of each evaluation
    columns: Vars,
    asked: Asked,
}

impl Model for Guard {
    ghost use Rattle.std.specs.Prelude.{Contains};
    ghost use Rattle.enf_formula.specs.machine.FormulaViews.{tree_of};
    ghost use Rattle.monitorable_guard.specs.machine.Evaluation.{AreOpen};
    ghost use Rattle.monitorable_guard.specs.machine.Guards.{BoundFormula, bound_formula_code};
    ghost use Rattle.monitorable_guard.specs.machine.Reordering.{IsReordered, only_formula};
    ghost use Rattle.monitorable_guard.specs.meaning.Safety.{Safe};

    ghost Value = { BoundFormula };

    ghost coded = { bound_formula_code };

    ghost view = { λ g. record { formula = g.formula; bound = g.bound } };

    ghost invariant = { λ g. Safe (tree_of g.formula) (Contains g.bound)
        × AreOpen (tree_of g.formula) g.bound g.columns
        × IsReordered (only_formula 0 (tree_of g.formula)) (tree_of g.asked.formula) g.asked.numbers.items
        × Safe (tree_of g.asked.formula) (Contains g.bound) };
}

impl Guard {
    /// The guard, exactly where the formula can be evaluated with these variables bound.
    pub fn of(alloc: Global, formula: Formula, bound: &Vars) -> Result<Guard, GuardRefusal>
        ensures ok { IfOk result (λ g. (g.formula ≡ formula) × (g.bound ≡ bound.now)) }
        ensures safe { OnOk result (Safe (tree_of formula) (Contains bound.now)) }
        ensures refused { IfErr result (RefusesGuard (tree_of formula) bound.now) }
    {
        if is_safe(alloc, &formula, bound.as_slice())? {
            let columns = open_beside(alloc, &formula, bound.as_slice())?;
            let asked = asked_under(alloc, &formula, bound.as_slice())?;
            let bound = bound.duplicate(alloc)?;
            Ok(Guard {
                formula,
                bound,
                columns,
                asked,
            })
        } else {
            Err(GuardRefusal::Unguarded {
                place: formula.place(),
            })
        }
    }

    /// The formula.
    pub fn formula(&self) -> &Formula
        ensures formula { result.now ≡ self.now.formula }
        ensures safe { Safe (tree_of self.now.formula) (Contains self.now.bound) }
    {
        &self.formula
    }

    /// The variables that are bound.
    pub fn bound(&self) -> &Vars
        ensures bound { result.now ≡ self.now.bound }
        ensures safe { Safe (tree_of self.now.formula) (Contains self.now.bound) }
    {
        &self.bound
    }

    /// The free variables that are not bound, in rising variable number: the columns of each evaluation.
    pub fn columns(&self) -> &Vars
        ensures { AreOpen (tree_of self.now.formula) self.now.bound result.now }
    {
        &self.columns
    }

    /// Whether it needs an event that is not among these: then it holds nowhere.
    pub fn lacks_event(&self, events: &[Event]) -> bool
        ensures { IsTrue result → HoldsForNone events.now (tree_of self.now.formula) }
    {
        lacks_event(self.formula(), events)
    }

    /// Adds by which columns it looks for rows of its outermost operators on the past, where so many stand before them.
    pub fn add_looks(
        &self,
        alloc: Global,
        start: usize,
        looks: &mut Vec<Look>,
    ) -> Result<(), NoMemory> {
        add_looks(alloc, &self.asked, self.bound.as_slice(), start, looks)
    }

    /// Whether no quantifier of the formula binds a variable that is bound or free in it.
    pub fn is_fresh(&self, alloc: Global) -> Result<bool, NoMemory>
        ensures { IfOk result (λ fresh. IsTrue fresh ↔ BindsFresh (tree_of self.now.formula)
            (λ x. Contains self.now.bound x ⊎ IsFree x (tree_of self.now.formula))) }
    {
        let scope = with_free(alloc, self.bound().as_slice(), self.formula())?;
        is_fresh(alloc, self.formula(), scope.as_slice())
    }

    /// Whether it can be evaluated with these tables of its outermost operators on the past and this valuation.
    pub fn can_evaluate(
        &self,
        alloc: Global,
        past: &[Table],
        v: &Valuation,
    ) -> Result<bool, NoMemory>
        ensures { IfOk result (λ can. IsTrue can ↔ CanEvaluate (tree_of self.now.formula)
            self.now.bound past.now v.now) }
    {
        if self.is_fresh(alloc)? && fits(alloc, self.formula(), past)? {
            Ok(are_bound(self.bound().as_slice(), v))
        } else {
            Ok(false)
        }
    }

    /// The rows over the free variables that are not bound, under which the formula holds at a step with these events
    /// and with these tables of its outermost operators on the past, and with the valuation's values of the bound
    /// variables. The columns are in rising variable number. Each value of a row is one of the events, of the tables,
    /// of the formula's constants or of the bound variables.
    pub fn evaluate(
        &self,
        alloc: Global,
        events: &EventSet,
        past: &[Table],
        v: &Valuation,
    ) -> Result<Table, NoMemory>
        requires { CanEvaluate (tree_of self.now.formula) self.now.bound past.now v.now }
        ensures table { IfOk result IsTable }
        ensures columns { IfOk result (λ t. AreOpen (tree_of self.now.formula) self.now.bound
            t.columns) }
        ensures rows { IfOk result
            (AreHoldingRows events.now past.now (tree_of self.now.formula) self.now.bound v.now) }
        ensures known { IfOk result
            (HasKnownValues events.now past.now (tree_of self.now.formula) self.now.bound v.now) }
    {
        let events = StepEvents::of(alloc, events)?;
        self.evaluate_at(alloc, &events, &PastTables { tables: past }, v)
    }

    /// The rows of the formula over any past, at events that were put in order once for a step.
    pub fn evaluate_at<P: Past>(
        &self,
        alloc: Global,
        events: &StepEvents<'_>,
        past: &P,
        v: &Valuation,
    ) -> Result<Table, NoMemory>
        requires { CanEvaluate (tree_of self.now.formula) self.now.bound (P.tables past.now) v.now }
        ensures table { IfOk result IsTable }
        ensures columns { IfOk result (λ t. AreOpen (tree_of self.now.formula) self.now.bound
            t.columns) }
        ensures rows { IfOk result (AreHoldingRows events.now (P.tables past.now)
            (tree_of self.now.formula) self.now.bound v.now) }
        ensures known { IfOk result (HasKnownValues events.now (P.tables past.now)
            (tree_of self.now.formula) self.now.bound v.now) }
    {
        self.evaluate_under(alloc, events, past, &Frame::Whole(v))
    }

    /// The rows of the formula over any past, under a frame of values.
    pub fn evaluate_under<P: Past>(
        &self,
        alloc: Global,
        events: &StepEvents<'_>,
        past: &P,
        v: &Frame<'_>,
    ) -> Result<Table, NoMemory>
        requires { CanEvaluate (tree_of self.now.formula) self.now.bound (P.tables past.now)
            (bound_in v.now) }
        ensures table { IfOk result IsTable }
        ensures columns { IfOk result (λ t. AreOpen (tree_of self.now.formula) self.now.bound
            t.columns) }
        ensures rows { IfOk result (AreHoldingRows events.now (P.tables past.now)
            (tree_of self.now.formula) self.now.bound (bound_in v.now)) }
        ensures known { IfOk result (HasKnownValues events.now (P.tables past.now)
            (tree_of self.now.formula) self.now.bound (bound_in v.now)) }
    {
        let scope = Frame::Part(v, self.bound().as_slice());
        let past = &Renumbered {
            past,
            numbers: self.asked.numbers.as_slice(),
        };
        // so many that a usize counts them
        let _tables = past.count();
        let present = Present { events, past };
        let columns = self.columns().duplicate(alloc)?;
        rows_told(alloc, &present, &self.asked.formula, &scope, columns)
    }

    /// Those of the rows of the formula under a frame that are in a table of some of their columns: it is asked under
    /// each row of this table.
    pub fn evaluate_in<P: Past>(
        &self,
        alloc: Global,
        events: &StepEvents<'_>,
        past: &P,
        v: &Frame<'_>,
        within: &Table,
    ) -> Result<Table, NoMemory>
        requires can { CanEvaluate (tree_of self.now.formula) self.now.bound (P.tables past.now)
            (bound_in v.now) }
        requires table { IsTable within.now }
        requires within { (x : AnyVariable) → Contains within.now.columns x
            → IsOpenIn (tree_of self.now.formula) self.now.bound x }
        ensures table { IfOk result IsTable }
        ensures columns { IfOk result (λ t. AreOpen (tree_of self.now.formula) self.now.bound
            t.columns) }
        ensures rows { IfOk result (AreHoldingRowsIn within.now events.now (P.tables past.now)
            (tree_of self.now.formula) self.now.bound (bound_in v.now)) }
        ensures known { IfOk result (HasKnownValues events.now (P.tables past.now)
            (tree_of self.now.formula) self.now.bound (bound_in v.now)) }
    {
        let scope = Frame::Part(v, self.bound().as_slice());
        let past = &Renumbered {
            past,
            numbers: self.asked.numbers.as_slice(),
        };
        // so many that a usize counts them
        let _tables = past.count();
        let present = Present { events, past };
        let columns = self.columns().duplicate(alloc)?;
        rows_in(
            alloc,
            &present,
            &self.asked.formula,
            within,
            &scope,
            columns,
        )
    }

    /// The rows of the formula under a frame, where the arguments of the events of an atom stay where they are, if
    /// its terms are the columns.
    pub fn rows_under<'r, P: Past>(
        &'r self,
        alloc: Global,
        events: &'r StepEvents<'_>,
        past: &P,
        v: &Frame<'_>,
    ) -> Result<Rows<'r>, NoMemory>
        requires { CanEvaluate (tree_of self.now.formula) self.now.bound (P.tables past.now)
            (bound_in v.now) }
        ensures table { IfOk result IsTable }
        ensures columns { IfOk result (λ t. AreOpen (tree_of self.now.formula) self.now.bound
            t.columns) }
        ensures rows { IfOk result (AreHoldingRows events.now (P.tables past.now)
            (tree_of self.now.formula) self.now.bound (bound_in v.now)) }
        ensures known { IfOk result (HasKnownValues events.now (P.tables past.now)
            (tree_of self.now.formula) self.now.bound (bound_in v.now)) }
    {
        if let Some(rows) = self.told_by(events) {
            return Ok(rows);
        }
        Ok(Rows::of(self.evaluate_under(alloc, events, past, v)?))
    }

    // The rows of an atom whose terms are the columns: the arguments of its events, where they are rows of a table.
    fn told_by<'r>(&'r self, events: &'r StepEvents<'_>) -> Option<Rows<'r>>
        ensures table { IfSome result IsTable }
        ensures columns { IfSome result (λ t. AreOpen (tree_of self.now.formula) self.now.bound
            t.columns) }
        ensures rows { IfSome result (λ t. (tables : List Relation) (v : Bound)
            → AreHoldingRows events.now tables (tree_of self.now.formula) self.now.bound v t) }
        ensures known { IfSome result (λ t. (tables : List Relation) (v : Bound)
            → HasKnownValues events.now tables (tree_of self.now.formula) self.now.bound v t) }
    {
        let Formula::Atom(_, name, terms) = self.formula() else {
            return None;
        };
        let columns = self.columns().as_slice();
        if are_variables(terms.as_slice(), columns) {
            told(columns, events.named(*name))
        } else {
            None
        }
    }

    /// Whether the formula holds at a step, where all its free variables are bound. No table is made of it, and memory
    /// is taken for the rows below a quantifier alone.
    pub fn holds<P: Past>(
        &self,
        alloc: Global,
        events: &StepEvents<'_>,
        past: &P,
        v: &Frame<'_>,
    ) -> Result<bool, NoMemory>
        requires can { CanEvaluate (tree_of self.now.formula) self.now.bound (P.tables past.now)
            (bound_in v.now) }
        requires test { FreeWithin (tree_of self.now.formula) (Contains self.now.bound) }
        ensures { IfOk result (λ holds. IsTrue holds ↔ HoldsNow events.now (P.tables past.now)
            (bound_in v.now) (tree_of self.now.formula)) }
    {
        let scope = Frame::Part(v, self.bound().as_slice());
        let past = &Renumbered {
            past,
            numbers: self.asked.numbers.as_slice(),
        };
        // so many that a usize counts them
        let _tables = past.count();
        let present = Present { events, past };
        holds(alloc, &present, &self.asked.formula, 0, &scope)
    }
}

/// Whether the formula is safe with all its free variables bound.
pub fn is_test(alloc: Global, formula: &Formula, bound: &Vars) -> Result<bool, NoMemory>
    ensures { IfOk result (λ test. IsTrue test
        ↔ IsTest (tree_of formula.now) (Contains bound.now)) }
{
    if is_safe(alloc, formula, bound.as_slice())? {
        is_free_within(alloc, formula, bound.as_slice())
    } else {
        Ok(false)
    }
}
