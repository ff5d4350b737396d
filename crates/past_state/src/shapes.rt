//! What the windows and slots keep rows of, by their numbers, and whether rows can be kept in them.
ghost use Rattle.std.specs.Prelude.{◌≡◌, ◌↔◌, ◌∷◌, ◌++◌, [], List, Some, All, IfErr, IfOk};
ghost use Rattle.std.specs.Prelude.{IfNone, IfSome, IsTrue, OnOk, map};
ghost use Rattle.std.specs.Option.{option_copied};
ghost use Rattle.enf_formula.specs.machine.FormulaViews.{tree_of};
ghost use Rattle.enf_formula.specs.meaning.Satisfaction.{AreFreeVariables};
ghost use Rattle.enf_data.specs.declared.terms.VarId.{VarId as Variable};
ghost use Rattle.past_state.specs.meaning.RowBounds.{AreWithinBounds, numbered_operators};
ghost use Rattle.past_state.specs.machine.Guards.{tree_in};
ghost use Rattle.past_state.specs.meaning.KeptRows.{all_operators, operators, kept_operand, IsRowBefore};
ghost use Rattle.past_state.specs.machine.WindowShapes.{AreOfOne, RowCanFollow, FitsIn, HasItsColumns};
ghost use Rattle.past_state.specs.machine.WindowShapes.{IsFirstOutOfBounds, TimeJoins, TimeJoinsIn, numbered_operator};
ghost use Rattle.past_state.specs.machine.WindowShapes.{operator_of};

use crate::kept_rows::KeptRow;
use enf_data::intervals::Interval;
use enf_data::memory::NoMemory;
use enf_data::terms::Vars;
use enf_formula::Formula;
use monitorable_guard::Guard;
use std::alloc::Global;
use std::cmp::Ordering;

/// What a window or slot keeps rows of: the operator on the past, the number of the guard in which it stands, and the
/// variables whose values a row has, in rising number.
#[derive(Drop)]
pub struct WindowShape<'a> {
    pub guard: usize,
    pub operator: &'a Formula,
    pub columns: Vars,
}

/// The place of the first of some rows with which those up to it cannot be kept.
#[derive(Clone, Copy, Debug, PartialEq, Eq)]
pub struct RowOutOfBounds {
    pub row: usize,
}

/// The windows and slots of guards, in the order in which rows number them.
pub fn window_shapes<'a>(
    alloc: Global,
    guards: &'a [Guard],
) -> Result<Vec<WindowShape<'a>>, NoMemory>
    ensures operators { IfOk result (λ shapes. map numbered_operator shapes.items
        ≡ numbered_operators 0 (map tree_in guards.now)) }
    ensures windows { IfOk result (λ shapes. map operator_of shapes.items
        ≡ all_operators (map tree_in guards.now)) }
    ensures columns { IfOk result (λ shapes. All HasItsColumns shapes.items) }
{
    let mut shapes = Vec::new(alloc);
    for (number, guard) in guards.iter().enumerate() {
        push_shapes(alloc, number, guard.formula(), &mut shapes)?;
    }
    Ok(shapes)
}

// Puts those of the operators of a formula last, each in front of those of its operands.
fn push_shapes<'a>(
    alloc: Global,
    guard: usize,
    formula: &'a Formula,
    out: &mut Vec<WindowShape<'a>>,
) -> Result<(), NoMemory>
    ensures operators { OnOk result (map numbered_operator out.new.items
        ≡ map numbered_operator out.old.items ++ map (λ o. (guard, o)) (operators (tree_of formula.now))) }
    ensures columns { OnOk result (All HasItsColumns out.old.items → All HasItsColumns out.new.items) }
{
    match formula {
        Formula::True(_)
        | Formula::False(_)
        | Formula::Atom(_, _, _)
        | Formula::Equal(_, _, _)
        | Formula::Less(_, _, _)
        | Formula::AtMost(_, _, _)
        | Formula::Next(_, _, _)
        | Formula::Eventually(_, _, _)
        | Formula::Always(_, _, _)
        | Formula::Until(_, _, _, _) => Ok(()),
        Formula::Not(_, f) | Formula::Exists(_, _, f) | Formula::Forall(_, _, f) => {
            push_shapes(alloc, guard, f, out)
        }
        Formula::And(_, f, g) | Formula::Or(_, f, g) | Formula::Implies(_, f, g) => {
            push_shapes(alloc, guard, f, out)?;
            push_shapes(alloc, guard, g, out)
        }
        Formula::Prev(_, _, f) | Formula::Once(_, _, f) | Formula::Historically(_, _, f) => {
            push_shape(alloc, guard, formula, f, out)?;
            push_shapes(alloc, guard, f, out)
        }
        Formula::Since(_, _, f, g) => {
            push_shape(alloc, guard, formula, g, out)?;
            push_shapes(alloc, guard, f, out)?;
            push_shapes(alloc, guard, g, out)
        }
    }
}

// Puts that of an operator last, whose rows have the values of the free variables of this operand.
fn push_shape<'a>(
    alloc: Global,
    guard: usize,
    operator: &'a Formula,
    operand: &Formula,
    out: &mut Vec<WindowShape<'a>>,
) -> Result<(), NoMemory>
    ensures operators { OnOk result (map numbered_operator out.new.items
        ≡ map numbered_operator out.old.items ++ (guard, tree_of operator.now) ∷ []) }
    ensures columns { OnOk result (((columns : List Variable) → AreFreeVariables (tree_of operand.now) columns
        → AreFreeVariables (kept_operand (tree_of operator.now)) columns) → All HasItsColumns out.old.items
        → All HasItsColumns out.new.items) }
{
    let columns = operand.free_vars(alloc)?;
    out.push(WindowShape {
        guard,
        operator,
        columns,
    })?;
    Ok(())
}

/// Whether rows can be kept in these windows and slots at the last time, by one look at each; it takes no memory.
pub fn check_rows(
    shapes: &[WindowShape<'_>],
    last: Option<u64>,
    rows: &[KeptRow],
) -> Result<(), RowOutOfBounds>
    requires columns { All HasItsColumns shapes.now }
    ensures within { OnOk result (AreWithinBounds (map operator_of shapes.now) last rows.now) }
    ensures first { IfErr result (λ e. IsFirstOutOfBounds (map operator_of shapes.now) last rows.now e.row) }
{
    match last {
        Some(last) => check_each(shapes, last, rows),
        None if rows.is_empty() => Ok(()),
        None => Err(RowOutOfBounds { row: 0 }),
    }
}

fn check_each(shapes: &[WindowShape<'_>], last: u64, rows: &[KeptRow]) -> Result<(), RowOutOfBounds>
    requires columns { All HasItsColumns shapes.now }
    ensures within { OnOk result (AreWithinBounds (map operator_of shapes.now) (Some last) rows.now) }
    ensures first { IfErr result
        (λ e. IsFirstOutOfBounds (map operator_of shapes.now) (Some last) rows.now e.row) }
{
    let mut before = None;
    for (place, row) in rows.iter().enumerate() {
        if !can_follow(shapes, last, before, row) {
            return Err(RowOutOfBounds { row: place });
        }
        before = Some(row);
    }
    Ok(())
}

// Whether a row can be kept with those up to the one before it.
fn can_follow(
    shapes: &[WindowShape<'_>],
    last: u64,
    before: Option<&KeptRow>,
    row: &KeptRow,
) -> bool
    requires columns { All HasItsColumns shapes.now }
    ensures { IsTrue result ↔ RowCanFollow (map operator_of shapes.now) last (option_copied before.entry) row.now }
{
    match before {
        None => fits_in(shapes, last, true, row),
        Some(before) => match is_other_behind(before, row) {
            Some(alone) => fits_in(shapes, last, alone, row),
            None => false,
        },
    }
}

// Whether a row is of other values than the one before it, if it comes after that.
fn is_other_behind(before: &KeptRow, row: &KeptRow) -> Option<bool>
    ensures none { IfNone result (IsRowBefore before.now row.now → ⊥) }
    ensures behind { IfSome result (λ _. IsRowBefore before.now row.now) }
    ensures other { IfSome result (λ other. IsTrue other ↔ (AreOfOne before.now row.now → ⊥)) }
{
    if before.window < row.window {
        return Some(true);
    }
    if row.window < before.window {
        return None;
    }
    match before.row.compare(&row.row) {
        Ordering::Less => Some(true),
        Ordering::Equal => {
            if before.time < row.time {
                return Some(false);
            }
            None
        }
        Ordering::Greater => None,
    }
}

// Whether a row is for one of the windows and slots, and its time can come after earlier ones.
fn fits_in(shapes: &[WindowShape<'_>], last: u64, alone: bool, row: &KeptRow) -> bool
    requires columns { All HasItsColumns shapes.now }
    ensures { IsTrue result ↔ FitsIn (map operator_of shapes.now) last (IsTrue alone) row.now }
{
    match shapes.get(row.window as usize) {
        Some(shape) => {
            row.row.len() == shape.columns.len() && joins(shape.operator, last, alone, row.time)
        }
        None => false,
    }
}

// Whether an operator can keep a time after earlier ones of the same values, where it is alone or not.
fn joins(operator: &Formula, last: u64, alone: bool, time: u64) -> bool
    ensures { IsTrue result ↔ TimeJoins (tree_of operator.now) last (IsTrue alone) time }
{
    match operator {
        Formula::Prev(_, _, _) => time == last,
        Formula::Once(_, interval, _) => joins_in(interval, last, alone, time),
        Formula::Historically(_, interval, _) => joins_in(interval, last, alone, time),
        Formula::Since(_, interval, _, _) => joins_in(interval, last, alone, time),
        _ => false,
    }
}

fn joins_in(interval: &Interval, last: u64, alone: bool, time: u64) -> bool
    ensures { IsTrue result ↔ TimeJoinsIn interval.now last (IsTrue alone) time }
{
    if last < time {
        return false;
    }
    let age = last - time;
    match interval.high {
        None => alone,
        Some(high) => age <= high && (alone || age < interval.low),
    }
}
