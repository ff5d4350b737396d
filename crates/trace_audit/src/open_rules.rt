//! Rules at positions for which something is still asked, each of which sleeps until a step can change that.
ghost use Rattle.std.specs.Prelude.{◌≡◌, ◌⊎◌, ◌++◌, [], ◌∷◌, IfOk, List, None, OnErr, OnOk, Some};
ghost use Rattle.std.specs.Prelude.{length, set, slice_get, ◌<◌};
ghost use Rattle.trace_audit.specs.declared.open_rules.OpenRule.{OpenRule as AnyOpenRule};
ghost use Rattle.trace_audit.specs.machine.Moments.{moment_of};
ghost use Rattle.trace_audit.specs.machine.OpenRules.{AreAmongRules, AreForSlots, HasOneMoreRule, TakesAhead};
ghost use Rattle.trace_audit.specs.machine.OpenRules.{TakesAwake, open_in, slot_place};

use crate::present_step::Present;
use crate::residuals::Residual;
use crate::verdicts::RuleAt;
use crate::waking::wakes_of;
use enf_data::memory::NoMemory;
use enf_data::seeds::Seed;
use sleepers::{Beginning, Entry, Place, Sleepers};
use std::alloc::Global;
use std::marker::Model;

// What is still asked for a rule at a position.
#[derive(Drop)]
pub struct OpenRule<'p> {
    pub at: RuleAt,
    pub rest: Residual<'p>,
}

// Open rules, seen as the list of them, in any order.
#[derive(Drop)]
pub struct OpenRules<'p> {
    // Each rule stands in a slot of its own.
    slots: Vec<Option<OpenRule<'p>>>,
    // Slots that may be free.
    free: Vec<usize>,
    // The slots of the rules, by what wakes these.
    sleepers: Sleepers<usize>,
}

impl<'p> Model for OpenRules<'p> {
    ghost use Rattle.std.specs.Coded.{codes};
    ghost use Rattle.std.specs.Prelude.{List, []};
    ghost use Rattle.plan_terms.specs.contracts.plans.Plan as plan;
    ghost use Rattle.trace_audit.specs.contracts.residuals.Residual as residual;
    ghost use Rattle.trace_audit.specs.declared.open_rules.OpenRule.{OpenRule};
    ghost use Rattle.trace_audit.specs.machine.OpenRules.{AreForSlots, open_in};
    ghost use mir.Syntax.{named};

    ghost Value = { List OpenRule };

    ghost coded = { Prim.hlevel (
      codes,
      plan.the_row.coded,
      (residual.the_row (record { mir = named 0; lft = [] })).coded,
    ) };

    ghost view = { λ r. open_in r.slots.items };

    ghost invariant = { λ r. AreForSlots r.slots.items r.sleepers.entries };
}

impl<'p> OpenRules<'p> {
    // No rule is open. What an event wakes is found by hashes from the seed on.
    pub fn new(alloc: Global, seed: Seed) -> OpenRules<'p>
        ensures { result ≡ [] }
    {
        let slots = Vec::new(alloc);
        let sleepers = Sleepers::new(alloc, seed);
        OpenRules {
            slots,
            free: Vec::new(alloc),
            sleepers,
        }
    }

    // What stands in the slots.
    pub fn slots(&self) -> &[Option<OpenRule<'p>>]
        ensures { open_in result.now ≡ self.now }
    {
        self.slots.as_slice()
    }

    // Puts a rule in. Without memory the others stay.
    pub fn put(&mut self, alloc: Global, item: OpenRule<'p>) -> Result<(), NoMemory>
        ensures ok { OnOk result (HasOneMoreRule item.entry self.old self.new) }
        ensures err { OnErr result (self.new ≡ self.old) }
    {
        let wakes = wakes_of(alloc, &item.rest)?;
        let slot = free_slot(&mut self.slots, &mut self.free)?;
        self.sleepers.put(Entry {
            place: place_of_slot(alloc, slot)?,
            patterns: wakes.patterns,
            end: wakes.end,
            item: slot,
        })?;
        self.slots[slot] = Some(item);
        Ok(())
    }

    // Takes those out that do not sleep at the step. Once memory has run out, some are lost.
    pub fn take_awake(
        &mut self,
        alloc: Global,
        now: &Present<'_>,
    ) -> Result<Vec<OpenRule<'p>>, NoMemory>
        ensures ok { IfOk result (λ awake. TakesAwake (moment_of now.now) self.old awake.items self.new) }
        ensures among { AreAmongRules self.old self.new }
    {
        self.sleepers
            .wake(alloc, now.events.set().as_slice(), now.time)?;
        take_ahead(alloc, &mut self.slots, &mut self.free, &mut self.sleepers)
    }
}

// A slot in which no rule stands.
fn free_slot(
    slots: &mut Vec<Option<OpenRule<'_>>>,
    free: &mut Vec<usize>,
) -> Result<usize, NoMemory>
    ensures free { IfOk result (λ slot. slice_get slots.new.items slot ≡ Some None) }
    ensures more { (slots.new.items ≡ slots.old.items) ⊎ (slots.new.items ≡ slots.old.items ++ None ∷ []) }
{
    if let Some(slot) = free.pop() {
        if let Some(None) = slots.get(slot) {
            return Ok(slot);
        }
    }
    let slot = slots.len();
    slots.push(None)?;
    Ok(slot)
}

// Where the entry for a slot stands.
fn place_of_slot(alloc: Global, slot: usize) -> Result<Place, NoMemory>
    ensures { IfOk result (λ place. place ≡ slot_place slot) }
{
    let mut beginnings = Vec::with_capacity(alloc, 1)?;
    beginnings.push(Beginning {
        number: slot as u64,
        among: 0,
    })?;
    Ok(Place::from_vec(beginnings))
}

// Takes the rules out whose entries a walk has in front of it.
fn take_ahead<'p>(
    alloc: Global,
    slots: &mut Vec<Option<OpenRule<'p>>>,
    free: &mut Vec<usize>,
    sleepers: &mut Sleepers<usize>,
) -> Result<Vec<OpenRule<'p>>, NoMemory>
    requires kept { AreForSlots slots.old.items sleepers.old.entries }
    ensures kept { AreForSlots slots.new.items sleepers.new.entries }
    ensures takes { IfOk result (λ awake. TakesAhead slots.old.items sleepers.old.entries sleepers.old.ahead
        awake.items slots.new.items sleepers.new.entries) }
    ensures among { AreAmongRules (open_in slots.old.items) (open_in slots.new.items) }
{
    let mut awake = Vec::new(alloc);
    while let Some(entry) = sleepers.take() {
        take_out(entry.item, slots, &mut awake)?;
        note_free(free, entry.item);
    }
    Ok(awake)
}

// Takes a rule out of its slot and puts it last. Without memory it is lost.
fn take_out<'p>(
    slot: usize,
    slots: &mut Vec<Option<OpenRule<'p>>>,
    awake: &mut Vec<OpenRule<'p>>,
) -> Result<(), NoMemory>
    requires { slot < length slots.old.items }
    ensures slots { slots.new.items ≡ set slots.old.items slot None }
    ensures awake { OnOk result ((item : AnyOpenRule) → slice_get slots.old.items slot ≡ Some (Some item)
        → awake.new.items ≡ awake.old.items ++ item ∷ []) }
{
    if let Some(item) = slots[slot].take() {
        awake.push(item)?;
    }
    Ok(())
}

// Notes that a slot is free. Without memory it is not used again.
fn note_free(free: &mut Vec<usize>, slot: usize) {
    let _noted = free.push(slot);
}
