//! Whether the plans of a policy can work together.
ghost use Rattle.std.specs.Prelude.{IfErr, IfOk, OnOk, map};
ghost use Rattle.std.specs.List.{AllByRecursion};
ghost use Rattle.plan_terms.specs.machine.WellFormed.{IsNumberedPlan};
ghost use Rattle.plan_terms.specs.machine.StoredPlans.{plan_of};
ghost use Rattle.rank_check.specs.machine.Limits.{ArePlansWithinLimits};
ghost use Rattle.rank_check.specs.meaning.Ranked.{AreRanked};
ghost use Rattle.rank_check.specs.meaning.AcceptedPlans.{AreAccepted};
ghost use Rattle.rank_check.specs.meaning.Refusals.{RefusesPlans};

use crate::causes::edges_of;
use crate::chains::{first_on_cycle, ranks_of};
use crate::rank_answers::RankRefusal;
use crate::ranked::Ranks;
use crate::roles::roles_of;
use crate::untriggered_nodes::first_untriggered;
use plan_terms::Plan;
use std::alloc::Global;

/// The ranks and roles of so many names under plans, or why the plans cannot work together: the first of a name that is
/// both caused and suppressed, a node that is met before any trigger, and a name on a cycle.
pub fn check(alloc: Global, plans: &[Plan], names: u32) -> Result<Ranks, RankRefusal>
    requires fit { ArePlansWithinLimits names (map plan_of plans.now) }
    // Equal subtrees of a plan are told apart by their numbers.
    requires numbered { AllByRecursion IsNumberedPlan (map plan_of plans.now) }
    ensures refused { IfErr result (RefusesPlans (map plan_of plans.now)) }
    ensures accepted { OnOk result (AreAccepted (map plan_of plans.now)) }
    ensures ranked { IfOk result (AreRanked (map plan_of plans.now)) }
{
    let roles = match roles_of(alloc, plans, names)? {
        Ok(roles) => roles,
        Err(name) => return Err(RankRefusal::RoleClash { name }),
    };
    if let Some(place) = first_untriggered(plans) {
        return Err(RankRefusal::Untriggered { place });
    }
    let edges = edges_of(alloc, plans, names)?;
    if let Some(name) = first_on_cycle(alloc, &edges)? {
        return Err(RankRefusal::Cyclic { name });
    }
    let ranks = ranks_of(alloc, &edges)?;
    Ok(Ranks::of(plans, ranks, roles))
}
