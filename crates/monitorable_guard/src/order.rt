//! The order in which a guard asks conjuncts: what is only tested first, then what the events of the step give, then
//! look-ups in the past, and whole tables of the past last.
ghost use Rattle.std.specs.Prelude.{◌≡◌, ◌↔◌, ◌<◌, ◌+◌, ◌++◌, ◌^◌, List, Option};
ghost use Rattle.std.specs.Prelude.{IfOk, OnOk, Contains, get_or, length};
ghost use Rattle.enf_data.specs.declared.terms.VarId.{VarId as Variable};
ghost use Rattle.enf_formula.specs.machine.FormulaViews.{tree_of};
ghost use Rattle.enf_formula.specs.meaning.Satisfaction as tree;
ghost use Rattle.monitorable_guard.specs.declared.order.Conjunct.{Conjunct as AnyConjunct};
ghost use Rattle.monitorable_guard.specs.machine.AskingOrder.{placed_conjuncts, total_size};
ghost use Rattle.monitorable_guard.specs.machine.PresentMeaning.{outermost};
ghost use Rattle.monitorable_guard.specs.machine.Reordering.{AreSafeInTurn, EachPlaced, IsReordered, PlacedFormula};
ghost use Rattle.monitorable_guard.specs.machine.Reordering.{conjuncts_from, only_formula};
ghost use Rattle.monitorable_guard.specs.meaning.Safety.{BoundOrFreeIn, Safe, SafeBelow};

use crate::asked::Asked;
use crate::operators::{counted, operators};
use crate::safety::is_safe;
use crate::scopes::{is_free_within, is_in, with_free};
use enf_data::memory::NoMemory;
use enf_data::places::Place;
use enf_data::terms::{Term, VarId};
use enf_formula::Formula;
use std::alloc::Global;

// A conjunct, and how many outermost operators on the past stand before its own.
#[derive(Drop)]
pub(crate) struct Conjunct<'f> {
    formula: &'f Formula,
    first: usize,
}

// What conjuncts are asked as, and the variables that are bound after them.
#[derive(Drop)]
struct Turned {
    asked: Asked,
    scope: Vec<VarId>,
}

// What a formula lists where some variables are bound, the less the earlier.
#[derive(Clone, Copy, PartialEq, Eq, PartialOrd, Ord)]
enum Reach {
    Test,
    Assignment,
    FoundEvents,
    Events,
    FoundRows,
    Table,
}

// The formula as it is asked with these variables bound.
pub fn asked_under(alloc: Global, formula: &Formula, bound: &[VarId]) -> Result<Asked, NoMemory>
    requires { Safe (tree_of formula.now) (Contains bound.now) }
    ensures same { IfOk result (λ a. IsReordered (only_formula 0 (tree_of formula.now)) (tree_of a.formula)
        a.numbers.items) }
    ensures safe { IfOk result (λ a. Safe (tree_of a.formula) (Contains bound.now)) }
{
    // so many that a usize counts them
    let _count = counted(formula)?;
    ordered(alloc, formula, 0, bound)
}

// The formula with its conjuncts in the order in which they are asked; it can be evaluated where the given one can.
#[cycle(ordering)]
pub fn ordered(
    alloc: Global,
    formula: &Formula,
    first: usize,
    bound: &[VarId],
) -> Result<Asked, NoMemory>
    requires room { first + length (outermost (tree_of formula.now)) < 2 ^ 64 }
    requires safe { (above : Option (List Variable)) × SafeBelow above (tree_of formula.now) (Contains bound.now) }
    ensures same { IfOk result (λ a. IsReordered (only_formula first (tree_of formula.now)) (tree_of a.formula)
        a.numbers.items) }
    ensures safe { IfOk result (λ a. (above : Option (List Variable))
        → SafeBelow above (tree_of formula.now) (Contains bound.now)
        → SafeBelow above (tree_of a.formula) (Contains bound.now)) }
{
    match formula {
        Formula::And(_, _, _) => {
            let all = conjuncts(alloc, formula, first)?;
            let turn = in_turn(alloc, all, bound)?;
            let turned = ordered_turn(alloc, turn.as_slice(), bound)?;
            Ok(turned.asked)
        }
        Formula::Or(place, g, h) => ordered_either(alloc, *place, g, h, first, bound),
        Formula::Implies(place, g, h) => ordered_condition(alloc, *place, g, h, first, bound),
        Formula::Not(place, g) => {
            let part = ordered(alloc, g, first, bound)?;
            Asked::not(alloc, *place, part)
        }
        Formula::Exists(place, xs, g) => {
            let part = ordered(alloc, g, first, bound)?;
            Asked::exists(alloc, *place, xs, part)
        }
        Formula::Forall(place, xs, g) => {
            let part = ordered(alloc, g, first, bound)?;
            Asked::forall(alloc, *place, xs, part)
        }
        _ => Asked::given(alloc, formula, first),
    }
}

#[cycle(ordering)]
fn ordered_either(
    alloc: Global,
    place: Place,
    g: &Formula,
    h: &Formula,
    first: usize,
    bound: &[VarId],
) -> Result<Asked, NoMemory>
    requires room { first + length (outermost (tree_of g.now) ++ outermost (tree_of h.now)) < 2 ^ 64 }
    requires left { Safe (tree_of g.now) (Contains bound.now) }
    requires right { Safe (tree_of h.now) (Contains bound.now) }
    ensures same { IfOk result (λ a. IsReordered (only_formula first (tree.Or place (tree_of g.now) (tree_of h.now)))
        (tree_of a.formula) a.numbers.items) }
    ensures safe { IfOk result (λ a. (above : Option (List Variable))
        → SafeBelow above (tree.Or place (tree_of g.now) (tree_of h.now)) (Contains bound.now)
        → SafeBelow above (tree_of a.formula) (Contains bound.now)) }
{
    let left = ordered(alloc, g, first, bound)?;
    let right = ordered(alloc, h, first + operators(g), bound)?;
    Asked::or(alloc, place, left, right)
}

// The second part is asked where the first one holds, so that its variables are bound too.
#[cycle(ordering)]
fn ordered_condition(
    alloc: Global,
    place: Place,
    g: &Formula,
    h: &Formula,
    first: usize,
    bound: &[VarId],
) -> Result<Asked, NoMemory>
    requires room { first + length (outermost (tree_of g.now) ++ outermost (tree_of h.now)) < 2 ^ 64 }
    requires left { Safe (tree_of g.now) (Contains bound.now) }
    requires right { Safe (tree_of h.now) (BoundOrFreeIn (Contains bound.now) (tree_of g.now)) }
    ensures same { IfOk result (λ a. IsReordered
        (only_formula first (tree.Implies place (tree_of g.now) (tree_of h.now)))
        (tree_of a.formula) a.numbers.items) }
    ensures safe { IfOk result (λ a. (above : Option (List Variable))
        → SafeBelow above (tree.Implies place (tree_of g.now) (tree_of h.now)) (Contains bound.now)
        → SafeBelow above (tree_of a.formula) (Contains bound.now)) }
{
    let left = ordered(alloc, g, first, bound)?;
    let scope = with_free(alloc, bound, g)?;
    let right = ordered(alloc, h, first + operators(g), scope.as_slice())?;
    Asked::implies(alloc, place, left, right)
}

// The conjunction of those in turn, each ordered in itself under the variables of those before it.
#[cycle(ordering)]
fn ordered_turn(alloc: Global, turn: &[Conjunct<'_>], bound: &[VarId]) -> Result<Turned, NoMemory>
    requires some { 0 < length turn.now }
    requires room { EachPlaced (placed_conjuncts turn.now) (λ p. p.first + length (outermost p.formula) < 2 ^ 64) }
    requires safe { AreSafeInTurn (Contains bound.now) (placed_conjuncts turn.now) }
    ensures same { IfOk result (λ t. IsReordered (placed_conjuncts turn.now) (tree_of t.asked.formula)
        t.asked.numbers.items) }
    ensures safe { IfOk result (λ t. Safe (tree_of t.asked.formula) (Contains bound.now)) }
    ensures scope { IfOk result (λ t. (x : Variable) → Contains t.scope.items x
        ↔ BoundOrFreeIn (Contains bound.now) (tree_of t.asked.formula) x) }
{
    let before = turn.len() - 1;
    let last = &turn[before];
    if before == 0 {
        let asked = ordered(alloc, last.formula, last.first, bound)?;
        let scope = with_free(alloc, bound, &asked.formula)?;
        return Ok(Turned { asked, scope });
    }
    let left = ordered_turn(alloc, &turn[..before], bound)?;
    let right = ordered(alloc, last.formula, last.first, left.scope.as_slice())?;
    let scope = with_free(alloc, left.scope.as_slice(), &right.formula)?;
    let place = left.asked.formula.place();
    let asked = Asked::and(alloc, place, left.asked, right)?;
    Ok(Turned { asked, scope })
}

// The conjuncts of a formula.
fn conjuncts<'f>(
    alloc: Global,
    formula: &'f Formula,
    first: usize,
) -> Result<Vec<Conjunct<'f>>, NoMemory>
    requires { first + length (outermost (tree_of formula.now)) < 2 ^ 64 }
    ensures { IfOk result (λ all. placed_conjuncts all.items ≡ conjuncts_from first (tree_of formula.now)) }
{
    let mut all = Vec::new(alloc);
    add_conjuncts(formula, first, &mut all)?;
    Ok(all)
}

// Adds the conjuncts of a formula.
fn add_conjuncts<'f>(
    formula: &'f Formula,
    first: usize,
    all: &mut Vec<Conjunct<'f>>,
) -> Result<(), NoMemory>
    requires { first + length (outermost (tree_of formula.now)) < 2 ^ 64 }
    ensures { OnOk result (placed_conjuncts all.new.items
        ≡ placed_conjuncts all.old.items ++ conjuncts_from first (tree_of formula.now)) }
{
    if let Formula::And(_, g, h) = formula {
        add_conjuncts(g, first, all)?;
        return add_conjuncts(h, first + operators(g), all);
    }
    all.push(Conjunct { formula, first })?;
    Ok(())
}

// The conjuncts in the order in which they are asked: always the least that can be asked.
fn in_turn<'f>(
    alloc: Global,
    conjuncts: Vec<Conjunct<'f>>,
    bound: &[VarId],
) -> Result<Vec<Conjunct<'f>>, NoMemory>
    requires { AreSafeInTurn (Contains bound.now) (placed_conjuncts conjuncts.items) }
    ensures safe { IfOk result (λ turn. AreSafeInTurn (Contains bound.now) (placed_conjuncts turn.items)) }
    ensures same { IfOk result (λ turn. (p : PlacedFormula) → Contains (placed_conjuncts turn.items) p
        ↔ Contains (placed_conjuncts conjuncts.entry.items) p) }
    ensures size { IfOk result (λ turn. total_size (placed_conjuncts turn.items)
        ≡ total_size (placed_conjuncts conjuncts.entry.items)) }
{
    let mut left = conjuncts;
    let mut scope = Vec::from_slice(alloc, bound)?;
    let mut turn = Vec::with_capacity(alloc, left.len())?;
    let mut from = 0;
    while !left.is_empty() {
        let next = next_place(alloc, left.as_slice(), scope.as_slice(), from)?;
        from = next;
        let conjunct = left.remove(next);
        scope = with_free(alloc, scope.as_slice(), conjunct.formula)?;
        turn.push(conjunct)?;
    }
    Ok(turn)
}

// The place of the one that is asked next: of those that can be, one of least reach. After the first it looks where the
// last one was, since conjuncts of the same variables mostly stand together.
fn next_place(
    alloc: Global,
    left: &[Conjunct<'_>],
    scope: &[VarId],
    from: usize,
) -> Result<usize, NoMemory>
    requires some { 0 < length left.now }
    requires safe { AreSafeInTurn (Contains scope.now) (placed_conjuncts left.now) }
    ensures within { IfOk result (λ place. place < length left.now) }
    ensures ready { IfOk result (λ place. (other : AnyConjunct)
        → Safe (tree_of (get_or left.now place other).formula.now) (Contains scope.now)) }
{
    let mut next = 0;
    let mut least = reach_of(alloc, left[0].formula, scope)?;
    for step in 0..left.len() {
        // Nothing is less, and most of many events of the same variables come to this.
        if least == Reach::Test {
            return Ok(next);
        }
        let place = from.wrapping_add(step) % left.len();
        let formula = left[place].formula;
        let reach = reach_of(alloc, formula, scope)?;
        if reach < least && is_safe(alloc, formula, scope)? {
            next = place;
            least = reach;
        }
    }
    Ok(next)
}

// What the formula lists with these variables bound: a guess that the order alone rests on, and no truth.
fn reach_of(alloc: Global, formula: &Formula, bound: &[VarId]) -> Result<Reach, NoMemory> {
    if is_free_within(alloc, formula, bound)? {
        return Ok(Reach::Test);
    }
    match formula {
        Formula::Equal(_, _, _) => Ok(Reach::Assignment),
        Formula::Atom(_, _, terms) => Ok(events_reach(terms.as_slice(), bound)),
        Formula::And(_, g, h) => Ok(reach_of(alloc, g, bound)?.min(reach_of(alloc, h, bound)?)),
        Formula::Or(_, g, h) => Ok(reach_of(alloc, g, bound)?.max(reach_of(alloc, h, bound)?)),
        Formula::Exists(_, _, g) => reach_of(alloc, g, bound),
        _ => rows_reach(alloc, formula, bound),
    }
}

// The events of a name are found by the first term where it has a value.
fn events_reach(terms: &[Term], bound: &[VarId]) -> Reach {
    match terms.first() {
        Some(Term::Const(_)) => Reach::FoundEvents,
        Some(Term::Var(x)) if is_in(*x, bound) => Reach::FoundEvents,
        _ => Reach::Events,
    }
}

// The rows of a table of the past are found by any of its columns that has a value.
fn rows_reach(alloc: Global, formula: &Formula, bound: &[VarId]) -> Result<Reach, NoMemory> {
    let free = formula.free_vars(alloc)?;
    for x in free.as_slice() {
        if is_in(*x, bound) {
            return Ok(Reach::FoundRows);
        }
    }
    Ok(Reach::Table)
}
