//! The names whose events wake a plan.
ghost use Rattle.std.specs.Prelude.{◌≡◌, IfOk};
ghost use Rattle.std.specs.Option.{option_map};
ghost use Rattle.plan_terms.specs.machine.StoredPlans.{plan_of};
ghost use Rattle.plan_terms.specs.machine.WakingNames.{waking_names as names_that_wake};

use crate::plans::Plan;
use crate::triggers::triggers;
use enf_data::events::NameId;
use enf_data::memory::NoMemory;
use std::alloc::Global;

/// The names of which one has an event wherever the plan misses or begins something, or none: what it suppresses, and
/// below a guard with triggers these.
pub fn waking_names(alloc: Global, plan: &Plan) -> Result<Option<Vec<NameId>>, NoMemory>
    ensures { IfOk result (λ names. option_map (λ all. all.items) names ≡ names_that_wake (plan_of plan.now)) }
{
    match plan {
        Plan::Suppress { name, .. } => {
            let mut names = Vec::new(alloc);
            names.push(*name)?;
            Ok(Some(names))
        }
        Plan::Both { left, right, .. } | Plan::Either { left, right, .. } => {
            let Some(mut names) = waking_names(alloc, left)? else {
                return Ok(None);
            };
            let Some(others) = waking_names(alloc, right)? else {
                return Ok(None);
            };
            names.extend_from_slice(others.as_slice())?;
            Ok(Some(names))
        }
        Plan::TestOr { body, .. } => waking_names(alloc, body),
        Plan::Guarded { test, body, .. } => match triggers(alloc, test)? {
            Some(names) => Ok(Some(names)),
            None => waking_names(alloc, body),
        },
        Plan::Cause { .. }
        | Plan::Eventually { .. }
        | Plan::Always { .. }
        | Plan::Until { .. }
        | Plan::Next { .. } => Ok(None),
    }
}
