//! What is kept for the operators on the past of a formula, before the first step.
ghost use Rattle.std.specs.Prelude.{◌≡◌, [], ◌∷◌, ◌⊎◌, ◌++◌, IfOk, IfSome, All, ℕ, length};
ghost use Rattle.std.specs.Prelude.{reverse, Contains};
ghost use Rattle.enf_formula.specs.machine.FormulaViews.{tree_of};
ghost use Rattle.enf_formula.specs.meaning.Satisfaction.{AreFreeVariables, IsFree};
ghost use Rattle.enf_data.specs.declared.terms.VarId.{VarId as Variable};
ghost use Rattle.monitorable_guard.specs.machine.PresentMeaning.{outermost};
ghost use Rattle.monitorable_guard.specs.meaning.Safety.{Safe, NoneBound, BoundOrFreeIn, denial};
ghost use Rattle.enf_formula.specs.machine.FormulaShape.{BindsFresh};
ghost use Rattle.past_state.specs.machine.KeepableOperators.{IsFreshFormula, CanKeep, IsAlone, PushesFor};
ghost use Rattle.past_state.specs.machine.LeftSides.{AsksLeft};
ghost use Rattle.past_state.specs.machine.Memories.{IsFor};
ghost use Rattle.past_state.specs.machine.Newcomers.{AsksOperand, AsksRight};
ghost use Rattle.past_state.specs.meaning.KeptRows.{operators};
ghost use Rattle.enf_formula.specs.meaning.Satisfaction as tree;

use crate::left_sides::Left;
use crate::memories::Memory;
use crate::newcomers::{growth, newcomers};
use crate::operators::OperatorState;
use crate::prev_operands::Operand;
use crate::shared_guard::SharedGuard;
use enf_data::intervals::Interval;
use enf_data::memory::NoMemory;
use enf_data::seeds::Seed;
use enf_data::terms::Vars;
use enf_formula::Formula;
use monitorable_guard::laws::safe_with_listed;
use monitorable_guard::{Guard, GuardRefusal};
use prev_rows::LastRows;
use std::alloc::Global;
use windows::{PrevSlot, SinceWindow};

// Puts the operators of the formula last, each after those of its operands, and counts the outermost ones.
#[cycle(pushing)]
pub fn push_operators(
    alloc: Global,
    formula: &Formula,
    out: &mut Vec<OperatorState>,
) -> Result<usize, NoMemory>
    requires { All CanKeep (operators (tree_of formula.now)) }
    ensures count { IfOk result (λ count. count ≡ length (outermost (tree_of formula.now))) }
    ensures pushed { IfOk result (λ _. PushesFor (reverse (operators (tree_of formula.now)))
        out.old.items out.new.items) }
{
    match formula {
        Formula::True(_)
        | Formula::False(_)
        | Formula::Atom(_, _, _)
        | Formula::Equal(_, _, _)
        | Formula::Less(_, _, _)
        | Formula::AtMost(_, _, _)
        | Formula::Next(_, _, _)
        | Formula::Eventually(_, _, _)
        | Formula::Always(_, _, _)
        | Formula::Until(_, _, _, _) => Ok(0),
        Formula::Not(_, f) | Formula::Exists(_, _, f) | Formula::Forall(_, _, f) => {
            push_operators(alloc, f, out)
        }
        Formula::And(_, f, g) => push_both(alloc, f, g, out),
        Formula::Or(_, f, g) => push_both(alloc, f, g, out),
        Formula::Implies(_, f, g) => push_both(alloc, f, g, out),
        Formula::Prev(_, interval, f) => {
            let taken = push_operators(alloc, f, out)?;
            push_one(taken, prev_memory(alloc, *interval, f)?, out)
        }
        Formula::Once(_, interval, f) => {
            let taken = push_operators(alloc, f, out)?;
            push_one(taken, once_memory(alloc, *interval, f)?, out)
        }
        Formula::Historically(_, interval, f) => {
            let taken = push_operators(alloc, f, out)?;
            push_one(taken, historically_memory(alloc, *interval, f)?, out)
        }
        Formula::Since(_, interval, f, g) => {
            let right = push_operators(alloc, g, out)?;
            let left = push_operators(alloc, f, out)?;
            let memory = since_memory(alloc, *interval, f, g, left)?;
            push_one(left + right, memory, out)
        }
    }
}

// Puts the operators of two formulas last, which are the operands of one.
#[cycle(pushing)]
fn push_both(
    alloc: Global,
    f: &Formula,
    g: &Formula,
    out: &mut Vec<OperatorState>,
) -> Result<usize, NoMemory>
    requires left { All CanKeep (operators (tree_of f.now)) }
    requires right { All CanKeep (operators (tree_of g.now)) }
    ensures count { IfOk result (λ count. count
        ≡ length (outermost (tree_of f.now) ++ outermost (tree_of g.now))) }
    ensures pushed { IfOk result (λ _. PushesFor
        (reverse (operators (tree_of f.now) ++ operators (tree_of g.now))) out.old.items out.new.items) }
{
    let right = push_operators(alloc, g, out)?;
    let left = push_operators(alloc, f, out)?;
    Ok(left + right)
}

fn push_one(taken: usize, memory: Memory, out: &mut Vec<OperatorState>) -> Result<usize, NoMemory>
    ensures one { IfOk result (λ count. count ≡ 1) }
    ensures pushed { IfOk result (λ _. out.new.items
        ≡ out.old.items ++ record { taken = taken; memory = memory } ∷ []) }
{
    out.push(OperatorState { taken, memory })?;
    Ok(1)
}

fn prev_memory(alloc: Global, interval: Interval, operand: &Formula) -> Result<Memory, NoMemory>
    requires fresh { IsFreshFormula (tree_of operand.now) }
    requires safe { Safe (tree_of operand.now) NoneBound }
    ensures { IfOk result (λ m. (place : ℕ) → IsFor (tree.Prev place interval (tree_of operand.now)) m) }
{
    let columns = operand.free_vars(alloc)?;
    let operand = operand_of(alloc, operand, &columns)?;
    let slot = LastRows::of(Seed::known(), PrevSlot::new(interval, columns));
    Ok(Memory::Prev { slot, operand })
}

// What is asked at each step for the rows of the operand of `prev`.
fn operand_of(alloc: Global, operand: &Formula, columns: &Vars) -> Result<Operand, NoMemory>
    requires fresh { IsFreshFormula (tree_of operand.now) }
    requires safe { Safe (tree_of operand.now) NoneBound }
    requires columns { AreFreeVariables (tree_of operand.now) columns.now }
    ensures { IfOk result (AsksOperand (tree_of operand.now)) }
{
    safe_with_listed();
    match growth(alloc, operand, columns)? {
        Some(guard) => Ok(Operand::Growing(guard)),
        None => {
            let guard = shared_guard_of(alloc, operand, &Vars::new(alloc))?;
            Ok(Operand::Whole(guard))
        }
    }
}

fn once_memory(alloc: Global, interval: Interval, operand: &Formula) -> Result<Memory, NoMemory>
    requires fresh { IsFreshFormula (tree_of operand.now) }
    requires safe { Safe (tree_of operand.now) NoneBound }
    ensures { IfOk result (λ m. (place : ℕ) → IsFor (tree.Once place interval (tree_of operand.now)) m) }
{
    let columns = operand.free_vars(alloc)?;
    let right = right_of(alloc, interval, operand, &columns)?;
    let window = SinceWindow::new(alloc, interval, columns);
    Ok(Memory::Once { window, right })
}

// What is asked at each step for the rows of the operand of `once`.
fn right_of(
    alloc: Global,
    interval: Interval,
    operand: &Formula,
    columns: &Vars,
) -> Result<SharedGuard, NoMemory>
    requires fresh { IsFreshFormula (tree_of operand.now) }
    requires safe { Safe (tree_of operand.now) NoneBound }
    requires columns { AreFreeVariables (tree_of operand.now) columns.now }
    ensures { IfOk result (AsksRight interval (tree_of operand.now)) }
{
    safe_with_listed();
    match newcomers(alloc, interval, operand, columns)? {
        Some(guard) => Ok(guard),
        None => shared_guard_of(alloc, operand, &Vars::new(alloc)),
    }
}

fn historically_memory(
    alloc: Global,
    interval: Interval,
    operand: &Formula,
) -> Result<Memory, NoMemory>
    requires fresh { IsFreshFormula (denial (tree_of operand.now)) }
    requires safe { Safe (denial (tree_of operand.now)) NoneBound }
    ensures { IfOk result (λ m. (place : ℕ) → IsFor (tree.Historically place interval (tree_of operand.now)) m) }
{
    once_memory(alloc, interval, &denial_of(alloc, operand)?)
}

fn since_memory(
    alloc: Global,
    interval: Interval,
    left: &Formula,
    right: &Formula,
    left_tables: usize,
) -> Result<Memory, NoMemory>
    requires counted { left_tables ≡ length (outermost (tree_of left.now)) }
    requires fresh_right { IsFreshFormula (tree_of right.now) }
    requires fresh_left { BindsFresh (tree_of left.now) (λ x. IsFree x (tree_of right.now)) }
    requires within { (x : Variable) → IsFree x (tree_of left.now) → IsFree x (tree_of right.now) }
    requires safe_right { Safe (tree_of right.now) NoneBound }
    requires safe_left { Safe (tree_of left.now) (BoundOrFreeIn NoneBound (tree_of right.now)) }
    ensures { IfOk result (λ m. (place : ℕ)
        → IsFor (tree.Since place interval (tree_of left.now) (tree_of right.now)) m) }
{
    safe_with_listed();
    let columns = right.free_vars(alloc)?;
    let left = left_of(alloc, left, &columns)?;
    let right = shared_guard_of(alloc, right, &Vars::new(alloc))?;
    let window = SinceWindow::new(alloc, interval, columns);
    Ok(Memory::Since {
        window,
        left,
        left_tables,
        right,
    })
}

// How the left side of a `since` is asked of rows of these columns.
fn left_of(alloc: Global, left: &Formula, columns: &Vars) -> Result<Left, NoMemory>
    requires safe { Safe (tree_of left.now) (Contains columns.now) }
    requires fresh { BindsFresh (tree_of left.now)
        (λ x. Contains columns.now x ⊎ IsFree x (tree_of left.now)) }
    ensures { IfOk result (AsksLeft (tree_of left.now) columns.now) }
{
    match left {
        Formula::True(_) => Ok(Left::All),
        Formula::Not(_, denied) => match guard_alone(alloc, denied)? {
            Some(guard) => Ok(Left::Denied(SharedGuard::new(alloc, guard)?)),
            None => Ok(Left::ByRow(shared_guard_of(alloc, left, columns)?)),
        },
        _ => Ok(Left::ByRow(shared_guard_of(alloc, left, columns)?)),
    }
}

// The guard of the formula with nothing bound, where it is one.
pub fn guard_alone(alloc: Global, formula: &Formula) -> Result<Option<Guard>, NoMemory>
    ensures { IfOk result (λ found. IfSome found (IsAlone (tree_of formula.now))) }
{
    match Guard::of(alloc, formula.duplicate(alloc)?, &Vars::new(alloc)) {
        Ok(guard) => Ok(Some(guard)),
        Err(GuardRefusal::NoMemory) => Err(NoMemory),
        Err(GuardRefusal::Unguarded { .. }) => Ok(None),
    }
}

// What `once` takes in the place of `historically`.
fn denial_of(alloc: Global, formula: &Formula) -> Result<Formula, NoMemory>
    ensures { IfOk result (λ f. tree_of f ≡ denial (tree_of formula.now)) }
{
    match formula {
        Formula::Not(_, h) => h.duplicate(alloc),
        Formula::Implies(place, a, b) => {
            let denied = Box::new(
                alloc,
                Formula::Not(*place, Box::new(alloc, b.duplicate(alloc)?)?),
            )?;
            let a = Box::new(alloc, a.duplicate(alloc)?)?;
            Ok(Formula::And(*place, a, denied))
        }
        _ => {
            let denied = Box::new(alloc, formula.duplicate(alloc)?)?;
            Ok(Formula::Not(formula.place(), denied))
        }
    }
}

// A guard of the formula for what is kept, whose copies share it.
fn shared_guard_of(alloc: Global, formula: &Formula, bound: &Vars) -> Result<SharedGuard, NoMemory>
    requires { Safe (tree_of formula.now) (Contains bound.now) }
    ensures formula { IfOk result (λ g. tree_of g.formula ≡ tree_of formula.now) }
    ensures bound { IfOk result (λ g. g.bound ≡ bound.now) }
{
    SharedGuard::new(alloc, guard_of(alloc, formula, bound)?)
}

// The guard of a formula that can be evaluated with these variables bound.
pub fn guard_of(alloc: Global, formula: &Formula, bound: &Vars) -> Result<Guard, NoMemory>
    requires { Safe (tree_of formula.now) (Contains bound.now) }
    ensures formula { IfOk result (λ g. tree_of g.formula ≡ tree_of formula.now) }
    ensures bound { IfOk result (λ g. g.bound ≡ bound.now) }
{
    match Guard::of(alloc, formula.duplicate(alloc)?, bound) {
        Ok(guard) => Ok(guard),
        Err(GuardRefusal::NoMemory) => Err(NoMemory),
        Err(GuardRefusal::Unguarded { .. }) => unreachable!(),
    }
}
