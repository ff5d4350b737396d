//! What can be read off a plan: its nodes, and whether it looks ahead.
ghost use Rattle.std.specs.Prelude.{◌≡◌, ◌<◌, ◌^◌, length};
ghost use Rattle.std.specs.List.{find};
ghost use Rattle.std.specs.Option.{option_copied, option_map};
ghost use Rattle.plan_terms.specs.machine.StoredPlans.{plan_of};
ghost use Rattle.plan_terms.specs.meaning.Plans.{nodes, has_number, has_future, node_number};

use crate::plans::Plan;

impl Plan {
    /// Its number.
    pub fn node(&self) -> u32
        ensures { result ≡ node_number (plan_of self.now) }
    {
        match self {
            Plan::Cause { node, .. }
            | Plan::Suppress { node, .. }
            | Plan::Both { node, .. }
            | Plan::Either { node, .. }
            | Plan::TestOr { node, .. }
            | Plan::Guarded { node, .. }
            | Plan::Eventually { node, .. }
            | Plan::Always { node, .. }
            | Plan::Until { node, .. }
            | Plan::Next { node, .. } => *node,
        }
    }

    /// The first node in pre-order that has the number, where one has it.
    pub fn at(&self, node: u32) -> Option<&Plan>
        ensures { option_map plan_of (option_copied result)
            ≡ find (has_number node) (nodes (plan_of self.now)) }
    {
        if self.node() == node {
            return Some(self);
        }
        match self {
            Plan::Cause { .. } | Plan::Suppress { .. } => None,
            Plan::TestOr { body, .. }
            | Plan::Guarded { body, .. }
            | Plan::Eventually { body, .. }
            | Plan::Always { body, .. }
            | Plan::Next { body, .. } => body.at(node),
            Plan::Both { left, right, .. }
            | Plan::Either { left, right, .. }
            | Plan::Until { left, right, .. } => match left.at(node) {
                Some(found) => Some(found),
                None => right.at(node),
            },
        }
    }

    /// How many nodes it has.
    pub fn size(&self) -> u32
        requires { length (nodes (plan_of self.now)) < 2 ^ 32 }
        ensures { result ≡ length (nodes (plan_of self.now)) }
    {
        match self {
            Plan::Cause { .. } | Plan::Suppress { .. } => 1,
            Plan::TestOr { body, .. }
            | Plan::Guarded { body, .. }
            | Plan::Eventually { body, .. }
            | Plan::Always { body, .. }
            | Plan::Next { body, .. } => body.size() + 1,
            Plan::Both { left, right, .. }
            | Plan::Either { left, right, .. }
            | Plan::Until { left, right, .. } => left.size() + right.size() + 1,
        }
    }

    /// Whether some node is `Eventually`, `Always`, `Until` or `Next`.
    pub fn has_future(&self) -> bool
        ensures { result ≡ has_future (plan_of self.now) }
    {
        match self {
            Plan::Cause { .. } | Plan::Suppress { .. } => false,
            Plan::Eventually { .. }
            | Plan::Always { .. }
            | Plan::Until { .. }
            | Plan::Next { .. } => true,
            Plan::TestOr { body, .. } | Plan::Guarded { body, .. } => body.has_future(),
            Plan::Both { left, right, .. } | Plan::Either { left, right, .. } => {
                left.has_future() || right.has_future()
            }
        }
    }
}
