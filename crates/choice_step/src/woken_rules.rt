//! Which rules the events of a step wake, found by their names.
ghost use Rattle.std.specs.Prelude.{◌≡◌, ◌≤◌, ◌⊎◌, ◌++◌, ℕ, List, None, Some, OnOk, IfOk, Contains, map};
ghost use Rattle.std.specs.Prelude.{slice_get};
ghost use Rattle.std.specs.List.Sorted.{IsSortedByKey};
ghost use Rattle.std.specs.Option.{option_map};
ghost use Rattle.std.specs.Ordering.{nat_cmp};
ghost use Rattle.enf_data.specs.declared.events.Event.{Event as AnyEvent};
ghost use Rattle.enf_data.specs.declared.events.NameId.{NameId as AnyName};
ghost use Rattle.choice_step.specs.machine.RuleTriggers.{woken_number, woken_by};
ghost use Rattle.choice_step.specs.declared.woken_rules.Woken.{Woken as AnyWoken};

use enf_data::Event;
use enf_data::events::NameId;
use enf_data::memory::NoMemory;
use std::alloc::Global;

// A name, and a rule that its events wake.
#[derive(Clone, Copy, Debug)]
pub struct Woken {
    pub name: NameId,
    pub rule: usize,
}

// The rules that have no names, which each step wakes.
pub fn always_awake(alloc: Global, wakes: &[Option<Vec<NameId>>]) -> Result<Vec<usize>, NoMemory>
    ensures { IfOk result (λ rules. (rule : ℕ)
        → slice_get (map (option_map (λ names. names.items)) wakes.now) rule ≡ Some None
        → Contains rules.items rule) }
{
    let mut rules = Vec::new(alloc);
    for rule in 0..wakes.len() {
        if wakes[rule].is_some() {
            continue;
        }
        rules.push(rule)?;
    }
    Ok(rules)
}

// The others with their names, in the order of these.
pub fn by_name(alloc: Global, wakes: &[Option<Vec<NameId>>]) -> Result<Vec<Woken>, NoMemory>
    ensures order { IfOk result (λ woken. IsSortedByKey woken_number nat_cmp woken.items) }
    ensures all { IfOk result (λ woken. (rule : ℕ) (names : List AnyName) (name : AnyName)
        → slice_get (map (option_map (λ names. names.items)) wakes.now) rule ≡ Some (Some names)
        → Contains names name → Contains woken.items (record { name = name; rule = rule })) }
{
    let mut woken = Vec::new(alloc);
    for rule in 0..wakes.len() {
        let Some(names) = &wakes[rule] else {
            continue;
        };
        push_woken(names.as_slice(), rule, &mut woken)?;
    }
    woken.sort_unstable_by_key(|entry| entry.name.0);
    Ok(woken)
}

// Puts the rule last with each of the names.
fn push_woken(names: &[NameId], rule: usize, out: &mut Vec<Woken>) -> Result<(), NoMemory>
    ensures { OnOk result (out.new.items ≡ out.old.items ++ map (woken_by rule) names.now) }
{
    for name in names {
        out.push(Woken { name: *name, rule })?;
    }
    Ok(())
}

// The least of the rules from one on that one of the events wakes, if it is below the last one given.
pub fn first_named(woken: &[Woken], events: &[Event], from: usize, last: usize) -> usize
    requires order { IsSortedByKey woken_number nat_cmp woken.now }
    requires ordered { from ≤ last }
    ensures within { (from ≤ result) × (result ≤ last) }
    ensures least { (event : AnyEvent) → Contains events.now event → (entry : AnyWoken) → Contains woken.now entry
        → entry.name ≡ event.name → from ≤ entry.rule → result ≤ entry.rule }
{
    let mut first = last;
    for event in events {
        first = least_woken(of_name(woken, event.name), from, first);
    }
    first
}

// The entries of a name.
fn of_name(woken: &[Woken], name: NameId) -> &[Woken]
    requires { IsSortedByKey woken_number nat_cmp woken.now }
    ensures { (entry : AnyWoken) → Contains woken.now entry → entry.name ≡ name → Contains result.now entry }
{
    let from = woken.partition_point(|entry| entry.name.0.cmp(&name.0).is_lt());
    let rest = &woken[from..];
    let count = rest.partition_point(|entry| entry.name.0.cmp(&name.0).is_le());
    &rest[..count]
}

// The least of the rules from one on, if it is below the last one given.
pub fn least_from(rules: &[usize], from: usize, last: usize) -> usize
    requires { from ≤ last }
    ensures within { (from ≤ result) × (result ≤ last) }
    ensures least { (rule : ℕ) → Contains rules.now rule → from ≤ rule → result ≤ rule }
    ensures there { (result ≡ last) ⊎ Contains rules.now result }
{
    let mut least = last;
    for rule in rules {
        if *rule < from || least <= *rule {
            continue;
        }
        least = *rule;
    }
    least
}

// The least of the rules of entries from one on, if it is below the last one given.
fn least_woken(woken: &[Woken], from: usize, last: usize) -> usize
    requires { from ≤ last }
    ensures within { (from ≤ result) × (result ≤ last) }
    ensures least { (entry : AnyWoken) → Contains woken.now entry → from ≤ entry.rule → result ≤ entry.rule }
{
    let mut least = last;
    for entry in woken {
        if entry.rule < from || least <= entry.rule {
            continue;
        }
        least = entry.rule;
    }
    least
}
