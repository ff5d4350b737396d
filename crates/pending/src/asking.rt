//! Who is still to be asked at a step, of those that are pending.
ghost use Rattle.std.specs.Prelude.{◌≡◌, ◌⊎◌, ◌++◌, ◌∷◌, [], Contains, IfSome, IsFalse};
ghost use Rattle.std.specs.Prelude.{IsNone, OnOk};
ghost use Rattle.std.specs.Prelude.{◌<◌, IsTrue, length, map};
ghost use Rattle.std.specs.List.{HoldsAt};
ghost use Rattle.sleepers.specs.declared.entries.Entry.{Entry as AnyEntry};
ghost use Rattle.sleepers.specs.machine.Agendas.{HaveOwnPlaces};
ghost use Rattle.sleepers.specs.machine.Entries.{ArePlaced, shown};
ghost use Rattle.sleepers.specs.machine.NotedGroups.{IsContainedIn};
ghost use Rattle.obligations.specs.declared.instances.Instance.{Instance as AnyInstance};
ghost use Rattle.obligations.specs.machine.MovedPlans.{IsUnmovedOf};
ghost use Rattle.pending.specs.machine.AskedEntries.{AreOfNodes, AsksMoved, GoesBack, IsFirstAhead, IsOfNode};
ghost use Rattle.pending.specs.machine.AskedEntries.{PassesFirst, RousesAsking, entries_asked};
ghost use Rattle.plan_terms.specs.machine.StoredPlans.{plan_of};

use enf_data::Event;
use enf_data::events::NameId;
use enf_data::memory::NoMemory;
use obligations::moved_plans::stays_met;
use obligations::{Instance, LiteralKind};
use plan_terms::Plan;
use sleepers::{Agenda, Entry, Sleepers};
use std::alloc::Global;
use std::marker::Model;

/// A node of the plan of a rule.
#[derive(Clone, Copy, Debug)]
pub struct RuleNode {
    pub rule: u32,
    pub node: u32,
}

/// Those of a node that were asked and missed nothing.
#[derive(Drop)]
pub struct AskedOf<'a> {
    pub at: RuleNode,
    pub entries: Vec<&'a Entry<Instance>>,
}

/// Who is still to be asked at a step, in the order in which they were begun, and who was asked and missed nothing.
#[derive(Drop)]
pub struct Asking<'a> {
    sleepers: &'a Sleepers<Instance>,
    agenda: Agenda<'a, Instance>,
    asked: Vec<AskedOf<'a>>,
    alloc: Global,
}

impl<'a> Model for Asking<'a> {
    ghost use Rattle.pending.specs.machine.AskedEntries.{AreAskedOf, AreOfNodes, AskingList, asking_code};
    ghost use Rattle.pending.specs.machine.AskedEntries.{entries_asked};

    ghost Value = { AskingList };

    ghost coded = { asking_code };

    ghost view = { λ a. record {
      all = a.sleepers.now.entries;
      ahead = a.agenda;
      asked = entries_asked a.asked.items;
    } };

    ghost invariant = { λ a. AreAskedOf a.sleepers.now.entries a.agenda (entries_asked a.asked.items)
        × AreOfNodes a.asked.items };
}

impl<'a> Asking<'a> {
    // Those of an agenda are still to be asked.
    pub(crate) fn of(
        alloc: Global,
        sleepers: &'a Sleepers<Instance>,
        agenda: Agenda<'a, Instance>,
    ) -> Asking<'a>
        requires placed { ArePlaced sleepers.now.entries }
        requires among { IsContainedIn agenda sleepers.now.entries }
        ensures { result ≡ record { all = sleepers.now.entries; ahead = agenda.entry; asked = [] } }
    {
        Asking {
            sleepers,
            agenda,
            asked: Vec::new(alloc),
            alloc,
        }
    }

    /// The first that is still to be asked.
    pub fn next(&self) -> Option<&'a Instance>
        ensures none { IsNone result → self.now.ahead ≡ [] }
        ensures some { IfSome result (λ instance. IsFirstAhead self.now instance.now) }
    {
        let entry = self.agenda.next()?;
        Some(&entry.item)
    }

    /// The first that was still to be asked was asked, and misses nothing.
    pub fn met(&mut self) -> Result<(), NoMemory>
        ensures { OnOk result (PassesFirst self.old self.new) }
    {
        let Some(entry) = self.agenda.next() else {
            return Ok(());
        };
        note(self.alloc, &mut self.asked, entry)?;
        self.agenda.pass();
        Ok(())
    }

    /// An event was added to the step: those whom it wakes are to be asked.
    pub fn rouse(&mut self, event: &Event) -> Result<(), NoMemory>
        ensures { OnOk result (RousesAsking event.now self.old self.new) }
    {
        self.sleepers.rouse(event, &mut self.agenda)
    }

    /// An action on the name was done: those that were asked are to be asked again whose nodes it may move.
    pub fn ask_moved(
        &mut self,
        plans: &[Plan],
        kind: LiteralKind,
        name: NameId,
    ) -> Result<(), NoMemory>
        ensures { OnOk result (AsksMoved (map plan_of plans.now) kind name self.old self.new) }
    {
        put_back(&mut self.asked, plans, kind, name, &mut self.agenda)
    }
}

// Notes that the instance of an entry was asked.
fn note<'a>(
    alloc: Global,
    asked: &mut Vec<AskedOf<'a>>,
    entry: &'a Entry<Instance>,
) -> Result<(), NoMemory>
    requires { AreOfNodes asked.old.items }
    ensures has { OnOk result (Contains (entries_asked asked.new.items) entry.now) }
    ensures kept { IsContainedIn (entries_asked asked.old.items) (entries_asked asked.new.items) }
    ensures among { IsContainedIn (entries_asked asked.new.items) (entry.now ∷ entries_asked asked.old.items) }
    ensures nodes { AreOfNodes asked.new.items }
{
    let node = RuleNode {
        rule: entry.item.rule,
        node: entry.item.node,
    };
    let Some(at) = group_of(asked.as_slice(), node) else {
        let entries = vec![in alloc; entry]?;
        asked.push(AskedOf { at: node, entries })?;
        return Ok(());
    };
    let Some(group) = asked.get_mut(at) else {
        return Ok(());
    };
    group.entries.push(entry)?;
    Ok(())
}

// The first group of a node.
fn group_of(asked: &[AskedOf<'_>], node: RuleNode) -> Option<usize>
    ensures { IfSome result (λ at. (at < length asked.now) × HoldsAt (λ group. group.at ≡ node) asked.now at) }
{
    for at in 0..asked.len() {
        if is_node(asked[at].at, node) {
            return Some(at);
        }
    }
    None
}

fn is_node(one: RuleNode, other: RuleNode) -> bool
    ensures same { IsTrue result → one ≡ other }
    ensures apart { IsFalse result → one ≡ other → ⊥ }
{
    one.rule == other.rule && one.node == other.node
}

// Puts those that were asked back into an agenda whose nodes an action on the name may move.
fn put_back<'a>(
    asked: &mut Vec<AskedOf<'a>>,
    plans: &[Plan],
    kind: LiteralKind,
    name: NameId,
    agenda: &mut Agenda<'a, Instance>,
) -> Result<(), NoMemory>
    requires places { HaveOwnPlaces (agenda.old ++ entries_asked asked.old.items) }
    requires nodes { AreOfNodes asked.old.items }
    ensures kept { OnOk result (IsContainedIn agenda.old agenda.new) }
    ensures among { IsContainedIn agenda.new (agenda.old ++ entries_asked asked.old.items) }
    ensures fewer { IsContainedIn (entries_asked asked.new.items) (entries_asked asked.old.items) }
    ensures asked { OnOk result ((x : AnyEntry AnyInstance) → Contains (entries_asked asked.old.items) x
        → Contains agenda.new x ⊎ (Contains (entries_asked asked.new.items) x
        × IsUnmovedOf (map plan_of plans.now) kind name x.item)) }
    ensures nodes { AreOfNodes asked.new.items }
{
    for at in 0..asked.len() {
        let Some(group) = asked.get_mut(at) else {
            continue;
        };
        put_group_back(group, plans, kind, name, agenda)?;
    }
    Ok(())
}

// Puts those of a group back, if an action on the name may move their node.
fn put_group_back<'a>(
    group: &mut AskedOf<'a>,
    plans: &[Plan],
    kind: LiteralKind,
    name: NameId,
    agenda: &mut Agenda<'a, Instance>,
) -> Result<(), NoMemory>
    requires places { HaveOwnPlaces (agenda.old ++ shown group.old.entries.items) }
    requires nodes { IsOfNode group.old }
    ensures node { group.new.at ≡ group.old.at }
    ensures kept { OnOk result (IsContainedIn agenda.old agenda.new) }
    ensures among { IsContainedIn agenda.new (agenda.old ++ shown group.old.entries.items) }
    ensures fewer { IsContainedIn (shown group.new.entries.items) (shown group.old.entries.items) }
    ensures goes { OnOk result (GoesBack (IsUnmovedOf (map plan_of plans.now) kind name) group.old group.new
        agenda.new) }
{
    let Some(first) = group.entries.first() else {
        return Ok(());
    };
    if stays_met(plans, &first.item, kind, name) {
        return Ok(());
    }
    agenda.put_each(group.entries.as_slice())?;
    group.entries.clear();
    Ok(())
}
