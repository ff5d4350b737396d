//! Names on cycles of edges, and ranks where there are none.
ghost use Rattle.std.specs.Prelude.{◌≡◌, ◌↔◌, suc, ◌<◌, ◌≤◌, false, length, IfNone, IfOk, IfSome};
ghost use Rattle.std.specs.Prelude.{IsTrue};
ghost use Rattle.enf_data.specs.declared.events.NameId.{NameId as Name};
ghost use Rattle.rank_check.specs.meaning.Ranked.{EndsIn, IsRank};
ghost use Rattle.rank_check.specs.meaning.AcceptedPlans.{IsOnCycle};
ghost use Rattle.rank_check.specs.machine.EdgeTables.{IsRankWithin, AddsEdges, IsClosure, HasEdge};
ghost use Rattle.rank_check.specs.meaning.Horizon.{greatest, rank_in};
ghost use Rattle.rank_check.specs.meaning.Refusals.{IsFirstName};

use crate::edges::Edges;
use enf_data::events::NameId;
use enf_data::memory::NoMemory;
use std::alloc::Global;

// The first name, in the order of declaration, that is on a cycle of edges.
pub fn first_on_cycle(alloc: Global, edges: &Edges) -> Result<Option<NameId>, NoMemory>
    ensures found { IfOk result (λ first. IfSome first (IsFirstName (IsOnCycle (HasEdge edges.now)))) }
    ensures none { IfOk result (λ first. IfNone first ((name : Name) → IsOnCycle (HasEdge edges.now) name → ⊥)) }
{
    let closed = closure(alloc, edges)?;
    Ok(first_to_itself(&closed))
}

// The first name from which an edge leads to itself.
fn first_to_itself(edges: &Edges) -> Option<NameId>
    ensures found { IfSome result (IsFirstName (λ name. HasEdge edges.now name name)) }
    ensures none { IfNone result ((name : Name) → HasEdge edges.now name name → ⊥) }
{
    for number in 0..edges.names() {
        let name = NameId(number);
        if edges.has(name, name) {
            return Some(name);
        }
    }
    None
}

// An edge wherever a chain of edges leads.
fn closure(alloc: Global, edges: &Edges) -> Result<Edges, NoMemory>
    ensures { IfOk result (IsClosure edges.now) }
{
    let mut closed = edges.duplicate(alloc)?;
    for number in 0..edges.names() {
        lead_through(&mut closed, NameId(number));
    }
    Ok(closed)
}

// From each name with an edge to the one between, edges to all to which that one has an edge.
fn lead_through(edges: &mut Edges, between: NameId)
    ensures { AddsEdges (λ a b. HasEdge edges.old a between × HasEdge edges.old between b) edges.old edges.new }
{
    for number in 0..edges.names() {
        let from = NameId(number);
        if edges.has(from, between) {
            lead_on(edges, from, between);
        }
    }
}

// From the first name, edges to all to which the one between has an edge.
fn lead_on(edges: &mut Edges, from: NameId, between: NameId)
    ensures { AddsEdges (λ a b. (from ≡ a) × HasEdge edges.old between b) edges.old edges.new }
{
    for number in 0..edges.names() {
        let to = NameId(number);
        if edges.has(between, to) {
            edges.add(from, to);
        }
    }
}

// The rank of each name, by number: the length of the longest chain of edges that ends in it.
pub fn ranks_of(alloc: Global, edges: &Edges) -> Result<Vec<u32>, NoMemory>
    requires { (name : Name) → IsOnCycle (HasEdge edges.now) name → ⊥ }
    ensures count { IfOk result (λ ranks. length ranks.items ≡ edges.now.width) }
    ensures ranks { IfOk result (λ ranks. (name : Name)
        → IsRank (HasEdge edges.now) name (rank_in ranks.items name)) }
    ensures small { IfOk result (λ ranks. greatest ranks.items ≤ edges.now.width) }
{
    let mut ranks = vec![in alloc; 0; edges.names() as usize]?;
    for most in 0..edges.names() {
        if !raise(edges, ranks.as_mut_slice(), most) {
            return Ok(ranks);
        }
    }
    Ok(ranks)
}

// From the lengths of the longest chains of at most so many edges to those of one edge more: whether any is longer.
fn raise(edges: &Edges, ranks: &mut [u32], most: u32) -> bool
    requires count { length ranks.old ≡ edges.now.width }
    requires few { most < edges.now.width }
    requires within { (name : Name) → IsRankWithin (HasEdge edges.now) most name (rank_in ranks.old name) }
    ensures within { (name : Name) → IsRankWithin (HasEdge edges.now) (suc most) name (rank_in ranks.new name) }
    ensures none { result ≡ false → (name : Name) → EndsIn (HasEdge edges.now) (suc most) name → ⊥ }
{
    let mut is_longer = false;
    for number in 0..edges.names() {
        if is_reached(edges, ranks, most, NameId(number)) {
            ranks[number as usize] = most + 1;
            is_longer = true;
        }
    }
    is_longer
}

// Whether an edge comes from a name of at least this rank.
fn is_reached(edges: &Edges, ranks: &[u32], least: u32, name: NameId) -> bool
    requires { length ranks.now ≡ edges.now.width }
    ensures { IsTrue result ↔ ((from : Name) × (least ≤ rank_in ranks.now from) × HasEdge edges.now from name) }
{
    for number in 0..edges.names() {
        if ranks[number as usize] >= least && edges.has(NameId(number), name) {
            return true;
        }
    }
    false
}
