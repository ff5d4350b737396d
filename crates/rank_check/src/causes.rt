//! Which events are caused below which triggers.
ghost use Rattle.std.specs.Prelude.{◌≡◌, ◌↔◌, Contains, IfOk, OnOk, map};
ghost use Rattle.enf_formula.specs.machine.FormulaViews.{tree_of};
ghost use Rattle.enf_data.specs.declared.events.NameId.{NameId as Name};
ghost use Rattle.plan_terms.specs.machine.StoredPlans.{plan_of};
ghost use Rattle.rank_check.specs.machine.Limits.{ArePlansWithinLimits};
ghost use Rattle.rank_check.specs.machine.EdgeTables.{AddsEdges, HasEdge};
ghost use Rattle.rank_check.specs.meaning.AcceptedPlans.{Edge};
ghost use Rattle.plan_terms.specs.meaning.Plans.{triggers as names_of};
ghost use Rattle.rank_check.specs.machine.PlanWalks.{Causes, met_behind, bare_behind};

use crate::edges::Edges;
use enf_data::events::NameId;
use enf_data::memory::NoMemory;
use enf_formula::Formula;
use plan_terms::Plan;
use plan_terms::triggers::triggers;
use std::alloc::Global;

// The edges of plans over so many names: from each trigger of a path to what is caused on the path below.
pub fn edges_of(alloc: Global, plans: &[Plan], names: u32) -> Result<Edges, NoMemory>
    requires { ArePlansWithinLimits names (map plan_of plans.now) }
    ensures width { IfOk result (λ edges. edges.width ≡ names) }
    ensures edges { IfOk result (λ edges. (from to : Name)
        → HasEdge edges from to ↔ Edge (map plan_of plans.now) from to) }
{
    let mut edges = Edges::new(alloc, names)?;
    let mut met = Vec::new(alloc);
    for plan in plans {
        add_causes(alloc, plan, true, &mut met, &mut edges)?;
    }
    Ok(edges)
}

// Puts the edges to what is caused in a plan. The last start before it is without triggers or not, and the starts
// before it have met these.
fn add_causes(
    alloc: Global,
    plan: &Plan,
    is_bare: bool,
    met: &mut Vec<NameId>,
    edges: &mut Edges,
) -> Result<(), NoMemory>
    ensures met { OnOk result (met.new.items ≡ met.old.items) }
    ensures edges { OnOk result (AddsEdges (Causes is_bare met.old.items (plan_of plan.now)) edges.old edges.new) }
{
    match plan {
        Plan::Cause { name, .. } => {
            add_each(met.as_slice(), *name, edges);
            Ok(())
        }
        Plan::Suppress { .. } => Ok(()),
        Plan::TestOr { body, .. } | Plan::Eventually { body, .. } | Plan::Next { body, .. } => {
            add_causes(alloc, body, is_bare, met, edges)
        }
        Plan::Always { body, .. } => add_causes(alloc, body, true, met, edges),
        Plan::Guarded { test, body, .. } => {
            let before = met.len();
            let stays_bare = meet(alloc, test, is_bare, met)?;
            add_causes(alloc, body, stays_bare, met, edges)?;
            met.truncate(before);
            Ok(())
        }
        Plan::Both { left, right, .. } | Plan::Either { left, right, .. } => {
            add_causes(alloc, left, is_bare, met, edges)?;
            add_causes(alloc, right, is_bare, met, edges)
        }
        Plan::Until { left, right, .. } => {
            add_causes(alloc, left, true, met, edges)?;
            add_causes(alloc, right, is_bare, met, edges)
        }
    }
}

// Puts an edge from each of the names to one.
fn add_each(met: &[NameId], to: NameId, edges: &mut Edges)
    ensures { AddsEdges (λ a b. Contains met.now a × (to ≡ b)) edges.old edges.new }
{
    for from in met {
        edges.add(*from, to);
    }
}

// Puts the triggers of a guard last, where the last start is without any. Whether it is so after the guard.
fn meet(
    alloc: Global,
    test: &Formula,
    is_bare: bool,
    met: &mut Vec<NameId>,
) -> Result<bool, NoMemory>
    ensures bare { IfOk result (λ answer. answer ≡ bare_behind is_bare (names_of (tree_of test.now))) }
    ensures met { OnOk result (met.new.items
        ≡ met_behind is_bare met.old.items (names_of (tree_of test.now))) }
{
    if !is_bare {
        return Ok(false);
    }
    let Some(names) = triggers(alloc, test)? else {
        return Ok(true);
    };
    met.extend_from_slice(names.as_slice())?;
    Ok(false)
}
