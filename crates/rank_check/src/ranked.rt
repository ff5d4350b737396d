//! What is known of accepted plans: the ranks and roles of names, the horizon and the transparent mark.
ghost use Rattle.std.specs.Prelude.{◌≡◌, ◌≤◌, map};
ghost use Rattle.std.specs.List.{AllByRecursion, flat_map};
ghost use Rattle.plan_terms.specs.meaning.Plans.{nodes};
ghost use Rattle.plan_terms.specs.machine.StoredPlans.{plan_of};
ghost use Rattle.rank_check.specs.meaning.Horizon.{greatest, horizon_of, rank_in};
ghost use Rattle.plan_terms.specs.machine.WellFormed.{EndsInTime, IsSmallPlan};
ghost use Rattle.rank_check.specs.meaning.Ranked.{role_in};
ghost use Rattle.rank_check.specs.meaning.AcceptedPlans.{is_transparent as are_transparent};

use crate::horizon::{MOST_HORIZON, horizon, rank_of};
use crate::rank_answers::Role;
use crate::transparent::is_transparent;
use enf_data::MOST_NAMES;
use enf_data::events::NameId;
use plan_terms::Plan;
use std::marker::Model;

/// What is known of plans that are accepted.
#[derive(Debug, Drop)]
pub struct Ranks {
    ranks: Vec<u32>,
    roles: Vec<Role>,
    horizon: u64,
    is_transparent: bool,
}

impl Model for Ranks {
    ghost use Rattle.std.specs.Prelude.{◌≤◌};
    ghost use Rattle.rank_check.specs.meaning.Ranked.{Ranked};
    ghost use Rattle.rank_check.specs.declared.horizon.TheConstants.{MOST_HORIZON};

    ghost Value = { Ranked };

    ghost view = { λ r. record {
      ranks = r.ranks.items;
      roles = r.roles.items;
      horizon = r.horizon;
      transparent = r.is_transparent;
    } };

    ghost invariant = { λ r. r.horizon ≤ MOST_HORIZON };
}

impl Ranks {
    // What is known by ranks and roles of the names of plans.
    pub(crate) fn of(plans: &[Plan], ranks: Vec<u32>, roles: Vec<Role>) -> Ranks
        requires ranks { greatest ranks.items ≤ MOST_NAMES }
        requires small { AllByRecursion IsSmallPlan (map plan_of plans.now) }
        requires ends { AllByRecursion EndsInTime (flat_map nodes (map plan_of plans.now)) }
        ensures ranks { result.ranks ≡ ranks.items }
        ensures roles { result.roles ≡ roles.items }
        ensures horizon { result.horizon ≡ horizon_of ranks.items (map plan_of plans.now) }
        ensures transparent { result.transparent ≡ are_transparent (map plan_of plans.now) }
    {
        Ranks {
            horizon: horizon(plans, ranks.as_slice()),
            is_transparent: is_transparent(plans),
            ranks,
            roles,
        }
    }

    /// The length of the longest chain of edges that ends in the name.
    pub fn rank(&self, name: NameId) -> u32
        ensures { result ≡ rank_in self.now.ranks name }
    {
        rank_of(name, self.ranks.as_slice())
    }

    /// What the policy does to events of the name.
    pub fn role(&self, name: NameId) -> Role
        ensures { result ≡ role_in self.now.roles name }
    {
        match self.roles.get(name.0 as usize) {
            Some(role) => *role,
            None => Role::Free,
        }
    }

    /// The horizon in units of time: one more than the greatest class of a node with a deadline, times the greatest
    /// end of such a node's interval.
    pub fn horizon(&self) -> u64
        ensures value { result ≡ self.now.horizon }
        ensures bounded { result ≤ MOST_HORIZON }
    {
        self.horizon
    }

    /// Whether the plans are transparent: of the two sides of an Either at most one has a future node, and neither the
    /// body of an Eventually nor the right side of an Until has one.
    pub fn is_transparent(&self) -> bool
        ensures { result ≡ self.now.transparent }
    {
        self.is_transparent
    }
}
