//! The horizon: a bound by classes and interval ends.
ghost use Rattle.std.specs.Prelude.{◌≡◌, ◌+◌, ◌*◌, ◌≤◌, ◌-◌, max, min, length, map};
ghost use Rattle.std.specs.List.{AllByRecursion, flat_map};
ghost use Rattle.plan_terms.specs.meaning.Plans.{nodes};
ghost use Rattle.plan_terms.specs.machine.StoredPlans.{plan_of};
ghost use Rattle.rank_check.specs.meaning.Horizon.{greatest, horizon_of, rank_in, plan_size as size_of};
ghost use Rattle.plan_terms.specs.machine.WellFormed.{EndsInTime, IsSmallPlan};
ghost use Rattle.rank_check.specs.machine.Surveys.{IsSurvey};

use enf_data::events::NameId;
use enf_data::{MOST_NAMES, MOST_NODES};
use plan_terms::Plan;

/// The greatest horizon, in units of time: a class is at most 257 * 401 + 400, by the limits on names and nodes, and
/// the end of an interval at most 1,000,000,000.
pub const MOST_HORIZON: u64 = 103_458_000_000_000;

// One above all ranks, and one above all sizes of plans: what classes are measured by.
#[derive(Clone, Copy)]
struct Scale {
    above: u64,
    step: u64,
}

// What one pass over nodes finds: how many they are, the least rank of a name that they cause, and over those with
// deadlines the greatest class and the greatest end.
#[derive(Clone, Copy)]
struct Survey {
    size: u64,
    least: u64,
    class: u64,
    end: u64,
}

// The horizon in units of time: one more than the greatest class of a node with a deadline, times the greatest end of
// such a node's interval.
pub fn horizon(plans: &[Plan], ranks: &[u32]) -> u64
    requires ranks { greatest ranks.now ≤ MOST_NAMES }
    requires small { AllByRecursion IsSmallPlan (map plan_of plans.now) }
    requires ends { AllByRecursion EndsInTime (flat_map nodes (map plan_of plans.now)) }
    ensures value { result ≡ horizon_of ranks.now (map plan_of plans.now) }
    ensures bounded { result ≤ MOST_HORIZON }
{
    let scale = Scale {
        above: u64::from(greatest_rank(ranks)) + 1,
        step: u64::from(greatest_size(plans)) + 1,
    };
    let mut class = 0;
    let mut end = 0;
    for plan in plans {
        let found = survey_of(plan, ranks, scale);
        class = class.max(found.class);
        end = end.max(found.end);
    }
    (class + 1) * end
}

fn greatest_rank(ranks: &[u32]) -> u32
    ensures { result ≡ greatest ranks.now }
{
    let mut most = 0;
    for rank in ranks {
        most = most.max(*rank);
    }
    most
}

fn greatest_size(plans: &[Plan]) -> u32
    requires { AllByRecursion IsSmallPlan (map plan_of plans.now) }
    ensures { result ≡ greatest (map size_of (map plan_of plans.now)) }
{
    let mut most = 0;
    for plan in plans {
        most = most.max(plan.size());
    }
    most
}

// One pass over the nodes of a plan.
fn survey_of(plan: &Plan, ranks: &[u32], scale: Scale) -> Survey
    requires size { IsSmallPlan (plan_of plan.now) }
    requires above { scale.above ≤ MOST_NAMES + 1 }
    requires step { scale.step ≤ MOST_NODES + 1 }
    ensures found { IsSurvey scale.above scale.step ranks.now (nodes (plan_of plan.now)) result }
    ensures least { result.least ≤ scale.above }
    ensures class { result.class ≤ scale.above * scale.step + result.size }
{
    match plan {
        Plan::Cause { name, .. } => Survey {
            least: scale.above.min(u64::from(rank_of(*name, ranks))),
            ..leaf(scale)
        },
        Plan::Suppress { .. } => leaf(scale),
        Plan::TestOr { body, .. } | Plan::Guarded { body, .. } | Plan::Always { body, .. } => {
            survey_of(body, ranks, scale).with_node()
        }
        Plan::Both { left, right, .. } | Plan::Either { left, right, .. } => {
            let first = survey_of(left, ranks, scale);
            first.joined(survey_of(right, ranks, scale)).with_node()
        }
        Plan::Eventually { high, body, .. } | Plan::Next { high, body, .. } => {
            survey_of(body, ranks, scale)
                .with_node()
                .with_deadline(*high, scale)
        }
        Plan::Until {
            high,
            left,
            right,
            ..
        } => {
            let first = survey_of(left, ranks, scale);
            let both = first.joined(survey_of(right, ranks, scale));
            both.with_node().with_deadline(*high, scale)
        }
    }
}

// A node that causes nothing and owes nothing later.
fn leaf(scale: Scale) -> Survey
    ensures { result ≡ record { size = 1; least = scale.above; class = 0; end = 0 } }
{
    Survey {
        size: 1,
        least: scale.above,
        class: 0,
        end: 0,
    }
}

// The rank of a name in a list by name.
pub fn rank_of(name: NameId, ranks: &[u32]) -> u32
    ensures { result ≡ rank_in ranks.now name }
{
    match ranks.get(name.0 as usize) {
        Some(rank) => *rank,
        None => 0,
    }
}

impl Survey {
    // With one node more, that causes nothing itself.
    fn with_node(self) -> Survey
        requires { self.size ≤ MOST_NODES }
        ensures { result ≡ record self { size = self.size + 1 } }
    {
        Survey {
            size: self.size + 1,
            ..self
        }
    }

    // With the nodes of a second survey.
    fn joined(self, other: Survey) -> Survey
        requires { self.size + other.size ≤ MOST_NODES }
        ensures { result ≡ record {
          size = self.size + other.size;
          least = min self.least other.least;
          class = max self.class other.class;
          end = max self.end other.end;
        } }
    {
        Survey {
            size: self.size + other.size,
            least: self.least.min(other.least),
            class: self.class.max(other.class),
            end: self.end.max(other.end),
        }
    }

    // Where the first of the nodes has a deadline.
    fn with_deadline(self, high: u64, scale: Scale) -> Survey
        requires size { self.size ≤ MOST_NODES }
        requires above { scale.above ≤ MOST_NAMES + 1 }
        requires step { scale.step ≤ MOST_NODES + 1 }
        requires least { self.least ≤ scale.above }
        ensures { result ≡ record self {
          class = max ((scale.above - self.least) * scale.step + self.size) self.class;
          end = max high self.end;
        } }
    {
        let class = (scale.above - self.least) * scale.step + self.size;
        Survey {
            class: class.max(self.class),
            end: high.max(self.end),
            ..self
        }
    }
}
