//! Which rules the events of a step can wake.
ghost use Rattle.std.specs.Prelude.{◌≡◌, ◌≤◌, ◌<◌, ℕ, All, IfOk, IsTrue, Some, map, slice_get};
ghost use Rattle.std.specs.Option.{option_map};
ghost use Rattle.choice_step.specs.machine.RuleTriggers.{AllSleep, HasNoneOf, IsAway};
ghost use Rattle.plan_terms.specs.machine.StoredPlans.{plan_of};
ghost use Rattle.plan_terms.specs.machine.WakingNames.{waking_names};

use crate::woken_rules::{Woken, always_awake, by_name, first_named, least_from};
use enf_data::Event;
use enf_data::events::NameId;
use enf_data::items::Items;
use enf_data::memory::NoMemory;
use monitorable_guard::StepEvents;
use plan_terms::{Plan, waking};
use std::alloc::Global;
use std::marker::Model;

/// The names that wake the rules of a policy: a rule that has such misses something only at a step with an event of one
/// of them. It is made once for the plans.
#[derive(Drop)]
pub struct Wakes {
    names: Items<Option<Vec<NameId>>>,
    // the numbers of the rules that have none, and the others by their names
    always: Vec<usize>,
    by_name: Vec<Woken>,
}

impl Model for Wakes {
    ghost use Rattle.std.specs.Prelude.{List, Option, map};
    ghost use Rattle.std.specs.Option.{option_map};
    ghost use Rattle.enf_data.specs.declared.events.NameId.{NameId};
    ghost use Rattle.choice_step.specs.machine.RuleTriggers.{AreAllIn};

    ghost Value = { List (Option (List NameId)) };

    ghost view = { λ w. map (option_map (λ names. names.items)) w.names };

    ghost invariant = { λ w.
        AreAllIn (map (option_map (λ names. names.items)) w.names) w.always.items w.by_name.items };
}

impl Wakes {
    /// Those of the roots of the plans.
    pub fn of(alloc: Global, plans: &[Plan]) -> Result<Wakes, NoMemory>
        ensures { IfOk result (λ wakes. wakes ≡ map waking_names (map plan_of plans.now)) }
    {
        let names = all_names(alloc, plans)?;
        let always = always_awake(alloc, names.as_slice())?;
        let woken = by_name(alloc, names.as_slice())?;
        Ok(Wakes {
            names: Items::from_vec(names),
            always,
            by_name: woken,
        })
    }

    /// Whether each rule has names that wake it, and none of the events is of one of them.
    #[inline(always)]
    pub fn all_sleep(&self, events: &[Event]) -> bool
        ensures { IsTrue result → AllSleep self.now events.now }
    {
        for names in self.names.as_slice() {
            if !is_asleep(names, events) {
                return false;
            }
        }
        true
    }

    // The first of the rules from one on that the step can wake, or one after them all; all are its events.
    #[inline(always)]
    pub(crate) fn next_awake(&self, from: usize, all: &[Event], events: &StepEvents<'_>) -> usize
        requires same { all.now ≡ events.now }
        ensures behind { from ≤ result }
        ensures asleep { (rule : ℕ) → from ≤ rule → rule < result
            → HasNoneOf (slice_get self.now rule) events.now }
    {
        if all.len() > MOST_SEARCHED || self.names.len() < FEW_RULES {
            return self.next_by_rule(from, all, events);
        }
        self.next_by_name(from, all)
    }

    // The first of the rules from one on that the step can wake, by a search for the name of each event.
    fn next_by_name(&self, from: usize, all: &[Event]) -> usize
        ensures behind { from ≤ result }
        ensures asleep { (rule : ℕ) → from ≤ rule → rule < result
            → HasNoneOf (slice_get self.now rule) all.now }
    {
        let last = self.names.len();
        if last < from {
            return from;
        }
        let first = first_named(self.by_name.as_slice(), all, from, last);
        least_from(self.always.as_slice(), from, first)
    }

    // The first of the rules from one on that the step can wake, by a look at each rule.
    fn next_by_rule(&self, from: usize, all: &[Event], events: &StepEvents<'_>) -> usize
        requires same { all.now ≡ events.now }
        ensures behind { from ≤ result }
        ensures asleep { (rule : ℕ) → from ≤ rule → rule < result
            → HasNoneOf (slice_get self.now rule) events.now }
    {
        let mut rule = from;
        while rule < self.names.len() && self.sleeps(rule, all, events) {
            rule += 1;
        }
        rule
    }

    // Whether the rule of that number has names that wake it, and the step no event of them; all are its events.
    fn sleeps(&self, rule: usize, all: &[Event], events: &StepEvents<'_>) -> bool
        requires same { all.now ≡ events.now }
        ensures { IsTrue result → HasNoneOf (slice_get self.now rule) events.now }
    {
        match self.names.get(rule) {
            Some(Some(names)) => has_none_of(names.as_slice(), all, events),
            Some(None) | None => false,
        }
    }
}

// The names that wake the plans.
fn all_names(alloc: Global, plans: &[Plan]) -> Result<Vec<Option<Vec<NameId>>>, NoMemory>
    ensures { IfOk result (λ all. map (option_map (λ names. names.items)) all.items
        ≡ map waking_names (map plan_of plans.now)) }
{
    let mut all = Vec::with_capacity(alloc, plans.len())?;
    for plan in plans {
        all.push(waking::waking_names(alloc, plan)?)?;
    }
    Ok(all)
}

// Whether there are names, and no event is of one of them.
fn is_asleep(names: &Option<Vec<NameId>>, events: &[Event]) -> bool
    ensures { IsTrue result → HasNoneOf (Some (option_map (λ all. all.items) names.now)) events.now }
{
    match names {
        Some(names) => are_away(names.as_slice(), events),
        None => false,
    }
}

// Whether no event is of one of the names.
fn are_away(names: &[NameId], events: &[Event]) -> bool
    ensures { IsTrue result → All (IsAway events.now) names.now }
{
    for name in names {
        if !none_named(*name, events) {
            return false;
        }
    }
    true
}

// Whether the step has no event of the names.
fn has_none_of(names: &[NameId], all: &[Event], events: &StepEvents<'_>) -> bool
    requires same { all.now ≡ events.now }
    ensures { IsTrue result → HasNoneOf (Some (Some names.now)) events.now }
{
    for name in names {
        if !is_away(*name, all, events) {
            return false;
        }
    }
    true
}

// How many events of a step are searched one after another at most.
const MOST_SEARCHED: usize = 8;

// Fewer rules are looked at one after another.
const FEW_RULES: usize = 8;

// Whether the step has no event of the name.
fn is_away(name: NameId, all: &[Event], events: &StepEvents<'_>) -> bool
    requires same { all.now ≡ events.now }
    ensures { IsTrue result → IsAway events.now name }
{
    if all.len() > MOST_SEARCHED {
        return events.named(name).is_empty();
    }
    none_named(name, all)
}

// Whether none of the events has the name.
fn none_named(name: NameId, events: &[Event]) -> bool
    ensures { IsTrue result → All (λ event. event.name ≡ name → ⊥) events.now }
{
    for event in events {
        if event.name == name {
            return false;
        }
    }
    true
}
