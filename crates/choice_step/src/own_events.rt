//! The events of a step for which a plan looks.
ghost use Rattle.std.specs.Prelude.{◌≡◌, ◌⊎◌, ◌++◌, Contains, IfOk, IsFalse, IsTrue, OnOk};
ghost use Rattle.choice_step.specs.machine.OwnEvents.{AreDivided, IsMarked, looked_for};
ghost use Rattle.enf_data.specs.declared.events.NameId.{NameId as Name};
ghost use Rattle.enf_formula.specs.machine.Agreement.{names_in_formula};
ghost use Rattle.enf_formula.specs.machine.FormulaViews.{tree_of};
ghost use Rattle.plan_terms.specs.machine.StoredPlans.{plan_of};

use crate::changing::put_last;
use enf_data::event_sets::EventSet;
use enf_data::events::NameId;
use enf_data::items::Duplicate;
use enf_data::memory::NoMemory;
use enf_data::seeds::Seed;
use enf_data::{Event, MOST_NAMES};
use enf_formula::Formula;
use plan_terms::Plan;
use std::alloc::Global;

// The events of a step that have some names, and the names of the others, each once where it is one of a signature.
#[derive(Drop)]
pub struct OwnEvents {
    pub events: EventSet,
    pub others: Vec<NameId>,
}

impl OwnEvents {
    // Copies of those of the names, and the names of the others. A seed is for hashes, as a stranger chooses the events.
    pub fn of(
        alloc: Global,
        seed: Seed,
        names: &[NameId],
        events: &[Event],
    ) -> Result<OwnEvents, NoMemory>
        ensures { IfOk result (λ own. AreDivided names.now events.now own.events own.others.items) }
    {
        let mut own = EventSet::new(alloc);
        let mut others = Vec::new(alloc);
        let mut told = Marks::none(alloc)?;
        for event in events {
            if told.has(event.name) {
                continue;
            }
            if is_one_of(event.name, names) {
                let copy = event.duplicate(alloc)?;
                put_last(seed, copy, &mut own)?;
                continue;
            }
            others.push(event.name)?;
            told.put(event.name);
        }
        Ok(OwnEvents {
            events: own,
            others,
        })
    }
}

// How many of the events have one of the names.
pub fn count_of(alloc: Global, names: &[NameId], events: &[Event]) -> Result<usize, NoMemory> {
    let mut wanted = Marks::none(alloc)?;
    for name in names {
        wanted.put(*name);
    }
    Ok(events.iter().filter(|event| wanted.has(event.name)).count())
}

// Marks of names, by their numbers. Of those that no signature has there are none.
#[derive(Drop)]
struct Marks {
    marks: Vec<bool>,
}

impl Marks {
    // No name is marked.
    fn none(alloc: Global) -> Result<Marks, NoMemory>
        ensures { IfOk result (λ none. (name : Name) → IsMarked none.marks.items name → ⊥) }
    {
        Ok(Marks {
            marks: vec![in alloc; false; MOST_NAMES as usize]?,
        })
    }

    // Whether the name is marked.
    fn has(&self, name: NameId) -> bool
        ensures { IsTrue result → IsMarked self.now.marks.items name }
    {
        let place = name.0 as usize;
        place < self.marks.len() && self.marks[place]
    }

    // Marks the name, where it has a mark.
    fn put(&mut self, name: NameId)
        ensures { (other : Name) → IsMarked self.new.marks.items other
            → (name ≡ other) ⊎ IsMarked self.old.marks.items other }
    {
        let place = name.0 as usize;
        if place < self.marks.len() {
            self.marks[place] = true;
        }
    }
}

// Whether the name is one of some.
fn is_one_of(name: NameId, names: &[NameId]) -> bool
    ensures { IsFalse result → Contains names.now name → ⊥ }
{
    for other in names {
        if other.0 == name.0 {
            return true;
        }
    }
    false
}

// The names for which the guards and tests of a plan look.
pub fn names_of(alloc: Global, plan: &Plan) -> Result<Vec<NameId>, NoMemory>
    ensures { IfOk result (λ names. names.items ≡ looked_for (plan_of plan.now)) }
{
    let mut names = Vec::new(alloc);
    push_names(plan, &mut names)?;
    Ok(names)
}

// Puts the names for which the guards and tests of the plan look last.
fn push_names(plan: &Plan, out: &mut Vec<NameId>) -> Result<(), NoMemory>
    ensures { OnOk result (out.new.items ≡ out.old.items ++ looked_for (plan_of plan.now)) }
{
    match plan {
        Plan::Cause { .. } | Plan::Suppress { .. } => Ok(()),
        Plan::TestOr { test, body, .. } | Plan::Guarded { test, body, .. } => {
            push_names_in(test, out)?;
            push_names(body, out)
        }
        Plan::Eventually { body, .. } | Plan::Always { body, .. } | Plan::Next { body, .. } => {
            push_names(body, out)
        }
        Plan::Both { left, right, .. }
        | Plan::Either { left, right, .. }
        | Plan::Until { left, right, .. } => {
            push_names(left, out)?;
            push_names(right, out)
        }
    }
}

// Puts the names for which the formula looks last.
fn push_names_in(formula: &Formula, out: &mut Vec<NameId>) -> Result<(), NoMemory>
    ensures { OnOk result (out.new.items ≡ out.old.items ++ names_in_formula (tree_of formula.now)) }
{
    match formula {
        Formula::True(_)
        | Formula::False(_)
        | Formula::Equal(_, _, _)
        | Formula::Less(_, _, _)
        | Formula::AtMost(_, _, _) => Ok(()),
        Formula::Atom(_, name, _) => Ok(out.push(*name)?),
        Formula::Not(_, f)
        | Formula::Exists(_, _, f)
        | Formula::Forall(_, _, f)
        | Formula::Prev(_, _, f)
        | Formula::Next(_, _, f)
        | Formula::Once(_, _, f)
        | Formula::Historically(_, _, f)
        | Formula::Eventually(_, _, f)
        | Formula::Always(_, _, f) => push_names_in(f, out),
        Formula::And(_, f, g)
        | Formula::Or(_, f, g)
        | Formula::Implies(_, f, g)
        | Formula::Since(_, _, f, g)
        | Formula::Until(_, _, f, g) => {
            push_names_in(f, out)?;
            push_names_in(g, out)
        }
    }
}
