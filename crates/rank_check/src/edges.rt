//! Edges between names, as a square of marks.
ghost use Rattle.std.specs.Prelude.{◌≡◌, ◌↔◌, ◌+◌, ◌*◌, ◌<◌, ◌≤◌, IfOk, IsTrue};
ghost use Rattle.rank_check.specs.machine.EdgeTables.{AddsEdges, HasEdge};
ghost use Rattle.enf_data.specs.declared.events.NameId.{NameId as Name};

use enf_data::MOST_NAMES;
use enf_data::events::NameId;
use enf_data::memory::NoMemory;
use std::alloc::Global;
use std::marker::Model;

// Edges between so many names, as one mark for each pair of them.
#[derive(Debug, Drop)]
pub struct Edges {
    names: u32,
    marks: Vec<bool>,
}

impl Model for Edges {
    ghost use Rattle.std.specs.Prelude.{◌≡◌, ◌*◌, ◌≤◌, length};
    ghost use Rattle.enf_data.specs.declared.limits.TheConstants.{MOST_NAMES};
    ghost use Rattle.rank_check.specs.machine.EdgeTables.{EdgeTable};

    ghost Value = { EdgeTable };

    ghost view = { λ e. record { width = e.names; marks = e.marks.items } };

    ghost invariant = { λ e. (e.names ≤ MOST_NAMES) × (length e.marks.items ≡ e.names * e.names) };
}

impl Edges {
    // No edges.
    pub fn new(alloc: Global, names: u32) -> Result<Edges, NoMemory>
        requires { names ≤ MOST_NAMES }
        ensures width { IfOk result (λ edges. edges.width ≡ names) }
        ensures none { IfOk result (λ edges. (from to : Name) → HasEdge edges from to → ⊥) }
    {
        let count = names as usize * names as usize;
        Ok(Edges {
            names,
            marks: vec![in alloc; false; count]?,
        })
    }

    // A copy of the edges.
    pub fn duplicate(&self, alloc: Global) -> Result<Edges, NoMemory>
        ensures { IfOk result (λ edges. edges ≡ self.now) }
    {
        Ok(Edges {
            names: self.names,
            marks: Vec::from_slice(alloc, self.marks.as_slice())?,
        })
    }

    // Over how many names the edges are.
    pub fn names(&self) -> u32
        ensures { result ≡ self.now.width }
    {
        self.names
    }

    // Whether an edge leads from the one name to the other.
    pub fn has(&self, from: NameId, to: NameId) -> bool
        ensures { IsTrue result ↔ HasEdge self.now from to }
    {
        from.0 < self.names && to.0 < self.names && self.marks[place_of(self.names, from, to)]
    }

    // Puts an edge from the one name to the other, where both are among the names.
    pub fn add(&mut self, from: NameId, to: NameId)
        ensures { AddsEdges (λ a b. (from ≡ a) × (to ≡ b)) self.old self.new }
    {
        if from.0 < self.names && to.0 < self.names {
            let place = place_of(self.names, from, to);
            self.marks[place] = true;
        }
    }
}

// The place of the mark of two names.
fn place_of(names: u32, from: NameId, to: NameId) -> usize
    requires few { names ≤ MOST_NAMES }
    requires from_below { from.0 < names }
    requires to_below { to.0 < names }
    ensures { result ≡ from.0 * names + to.0 }
{
    from.0 as usize * names as usize + to.0 as usize
}
