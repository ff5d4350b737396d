//! Which groups of entries a step wakes.
ghost use Rattle.std.specs.Prelude.{◌≡◌, ◌⊎◌, ◌≤◌, ℕ, [], true, false, Contains, IfOk, IsFalse, List, OnOk, Option};
ghost use Rattle.std.specs.List.{AllByRecursion};
ghost use Rattle.enf_data.specs.meaning.Membership.{HasNoRepeats};
ghost use Rattle.sleepers.specs.machine.PatternKeys.{pattern_key, shape_of};
ghost use Rattle.sleepers.specs.machine.NotedGroups.{IsGroupFound, IsNoted, IsContainedIn, IsWithinBut, KeepsAll};
ghost use Rattle.sleepers.specs.machine.NotedGroups.{KeepsOthers, PatternsSleep, awake_from};
ghost use Rattle.sleepers.specs.machine.Patterns.{MatchesPattern};
ghost use Rattle.sleepers.specs.declared.patterns.Pattern.{Pattern as AnyPattern};
ghost use Rattle.sleepers.specs.declared.keys.Shape.{Shape as AnyShape};
ghost use Rattle.enf_data.specs.declared.events.Event.{Event as AnyEvent};

use crate::keys::{Shape, key_at, key_of, note_shape};
use crate::pairs::Pairs;
use crate::patterns::{Pattern, Patterns};
use enf_data::{Event, NameId, NoMemory, Seed};
use std::alloc::Global;
use std::marker::Model;

/// Groups by the patterns of events and the times that wake their entries.
#[derive(Debug, Drop)]
pub struct Index {
    by_pattern: Pairs,
    by_end: Pairs,
    shapes: Vec<Shape>,
    // Whether all groups are noted.
    is_begun: bool,
    // of the keys of patterns
    seed: Seed,
}

impl Model for Index {
    ghost use Rattle.sleepers.specs.machine.NotedGroups.{Noted};

    ghost Value = { Noted };

    ghost view = { λ i. record {
      patterns = i.by_pattern;
      ends = i.by_end;
      shapes = i.shapes.items;
      is_begun = i.is_begun;
      seed = i.seed;
    } };
}

impl Index {
    // No group. It takes no memory.
    pub(crate) fn new(alloc: Global, seed: Seed) -> Index
        ensures { result.is_begun ≡ false }
    {
        Index {
            by_pattern: Pairs::new(alloc),
            by_end: Pairs::new(alloc),
            shapes: Vec::new(alloc),
            is_begun: false,
            seed,
        }
    }

    // The seed of the keys.
    pub(crate) fn seed(&self) -> Seed {
        self.seed
    }

    // Whether all groups are noted.
    pub(crate) fn is_begun(&self) -> bool
        ensures { result ≡ self.now.is_begun }
    {
        self.is_begun
    }

    // From now on all groups are noted.
    pub(crate) fn begin(&mut self)
        ensures { self.new ≡ record {
          patterns = self.old.patterns;
          ends = self.old.ends;
          shapes = self.old.shapes;
          is_begun = true;
          seed = self.old.seed;
        } }
    {
        self.is_begun = true;
    }

    // Notes a group under each of the patterns, and under the end.
    pub(crate) fn note(
        &mut self,
        alloc: Global,
        group: usize,
        patterns: &Option<Patterns>,
        end: u64,
    ) -> Result<(), NoMemory>
        ensures ok { OnOk result (IsGroupFound self.new group patterns.now end) }
        ensures kept { KeepsAll self.old self.new }
    {
        self.by_end.add(awake_from(patterns, end), group)?;
        match patterns {
            Some(patterns) => self.note_each(alloc, group, patterns.as_slice()),
            None => Ok(()),
        }
    }

    fn note_each(
        &mut self,
        alloc: Global,
        group: usize,
        patterns: &[Pattern],
    ) -> Result<(), NoMemory>
        ensures ok { OnOk result (AllByRecursion (IsNoted self.new group) patterns.now) }
        ensures kept { KeepsAll self.old self.new }
    {
        for pattern in patterns {
            self.note_pattern(alloc, group, pattern)?;
        }
        Ok(())
    }

    fn note_pattern(
        &mut self,
        alloc: Global,
        group: usize,
        pattern: &Pattern,
    ) -> Result<(), NoMemory>
        ensures ok { OnOk result (IsNoted self.new group pattern.now) }
        ensures kept { KeepsAll self.old self.new }
    {
        note_shape(alloc, &mut self.shapes, pattern)?;
        self.by_pattern.add(key_of(self.seed, pattern), group)
    }

    // Lets go of a group that was noted under these, where groups are noted.
    pub(crate) fn let_go(&mut self, group: usize, patterns: &Option<Patterns>, end: u64)
        ensures { KeepsOthers group self.old self.new }
    {
        if !self.is_begun {
            return;
        }
        self.by_end.remove(awake_from(patterns, end), group);
        if let Some(patterns) = patterns {
            remove_each(&mut self.by_pattern, self.seed, group, patterns.as_slice());
        }
    }

    // The last of the groups that were noted under the same end.
    pub(crate) fn candidate(&self, patterns: &Option<Patterns>, end: u64) -> Option<usize> {
        self.by_end.last(awake_from(patterns, end))
    }

    // The groups that a step can wake, each once, and it may be others.
    pub(crate) fn find(
        &self,
        alloc: Global,
        events: &[Event],
        time: u64,
    ) -> Result<Vec<usize>, NoMemory>
        ensures once { IfOk result (λ found. HasNoRepeats found.items) }
        ensures all { IfOk result (λ found. (group : ℕ) (patterns : Option (List AnyPattern)) (end : ℕ)
            → IsGroupFound self.now group patterns end
            → Contains found.items group ⊎ PatternsSleep events.now time patterns end) }
    {
        let mut found = Vec::new(alloc);
        self.by_end.find_up_to(time, &mut found)?;
        self.find_each(events, &mut found)?;
        keep_each_once(&mut found);
        Ok(found)
    }

    // Whether an event has the name of a pattern, or the time can wake some group.
    pub(crate) fn may_wake(&self, events: &[Event], time: u64) -> bool
        ensures { IsFalse result → (group : ℕ) (patterns : Option (List AnyPattern)) (end : ℕ)
            → IsGroupFound self.now group patterns end → PatternsSleep events.now time patterns end }
    {
        if !self.by_end.is_above(time) {
            return true;
        }
        has_name_of(self.shapes.as_slice(), events)
    }

    // Adds the groups that are noted under a pattern of which one of the events is, and it may be others.
    pub(crate) fn find_each(&self, events: &[Event], found: &mut Vec<usize>) -> Result<(), NoMemory>
        ensures ok { OnOk result ((group : ℕ) (pattern : AnyPattern) → IsNoted self.now group pattern
            → (event : _) → Contains events.now event → MatchesPattern pattern event
            → Contains found.new.items group) }
        ensures kept { IsContainedIn found.old.items found.new.items }
    {
        for event in events {
            find_event(
                &self.by_pattern,
                self.seed,
                self.shapes.as_slice(),
                event,
                found,
            )?;
        }
        Ok(())
    }
}

// Adds the groups under patterns of which the event is.
fn find_event(
    by_pattern: &Pairs,
    seed: Seed,
    shapes: &[Shape],
    event: &Event,
    found: &mut Vec<usize>,
) -> Result<(), NoMemory>
    ensures ok { OnOk result ((group : ℕ) (pattern : AnyPattern) → Contains shapes.now (shape_of pattern)
        → Contains by_pattern.now (pattern_key seed pattern.name pattern.args, group) → MatchesPattern pattern event.now
        → Contains found.new.items group) }
    ensures kept { IsContainedIn found.old.items found.new.items }
{
    for shape in shapes {
        find_shape(by_pattern, seed, shape, event, found)?;
    }
    Ok(())
}

fn find_shape(
    by_pattern: &Pairs,
    seed: Seed,
    shape: &Shape,
    event: &Event,
    found: &mut Vec<usize>,
) -> Result<(), NoMemory>
    ensures ok { OnOk result ((group : ℕ) (pattern : AnyPattern) → shape.now ≡ shape_of pattern
        → Contains by_pattern.now (pattern_key seed pattern.name pattern.args, group) → MatchesPattern pattern event.now
        → Contains found.new.items group) }
    ensures kept { IsContainedIn found.old.items found.new.items }
{
    if shape.name.0 != event.name.0 {
        return Ok(());
    }
    let key = key_at(seed, event, shape.fixed.as_slice());
    by_pattern.find(key, key, found)
}

// Whether an event has the name of a shape.
fn has_name_of(shapes: &[Shape], events: &[Event]) -> bool
    ensures { IsFalse result → (shape : AnyShape) → Contains shapes.now shape
        → (event : AnyEvent) → Contains events.now event → event.name ≡ shape.name → ⊥ }
{
    for event in events {
        if is_named_in(shapes, event.name) {
            return true;
        }
    }
    false
}

// Whether a shape has the name.
fn is_named_in(shapes: &[Shape], name: NameId) -> bool
    ensures { IsFalse result → (shape : AnyShape) → Contains shapes.now shape → name ≡ shape.name → ⊥ }
{
    for shape in shapes {
        if shape.name.0 == name.0 {
            return true;
        }
    }
    false
}

// Leaves of numbers each once.
pub(crate) fn keep_each_once(numbers: &mut Vec<usize>)
    ensures once { HasNoRepeats numbers.new.items }
    ensures same { IsContainedIn numbers.old.items numbers.new.items }
    ensures among { IsContainedIn numbers.new.items numbers.old.items }
{
    numbers.sort_unstable();
    numbers.dedup();
}

fn remove_each(by_pattern: &mut Pairs, seed: Seed, group: usize, patterns: &[Pattern])
    ensures { IsWithinBut group by_pattern.old by_pattern.new }
{
    for pattern in patterns {
        by_pattern.remove(key_of(seed, pattern), group);
    }
}

fn awake_from(patterns: &Option<Patterns>, end: u64) -> u64
    ensures { result ≡ awake_from patterns.now end }
{
    match patterns {
        Some(_) => end,
        None => 0,
    }
}
