//! Numbers of nodes, guards and tests, which are given once plans are made.
ghost use Rattle.std.specs.Prelude.{◌≡◌, ◌+◌, ◌<◌, ◌^◌};
ghost use Rattle.enforce_types.specs.meaning.Elab.{node_count, guard_count, renumber};
ghost use Rattle.plan_terms.specs.machine.StoredPlans.{plan_of};

use plan_terms::Plan;

/// The numbers of the next node, and of the next guard or test.
#[derive(Clone, Copy, Debug)]
pub struct Numbers {
    pub node: u32,
    pub guard: u32,
}

// Numbers the nodes of a plan in pre-order, and its guards and tests. It gives the numbers after them.
pub fn number(plan: &mut Plan, from: Numbers) -> Numbers
    requires nodes_fit { from.node + node_count (plan_of plan.old) < 2 ^ 32 }
    requires guards_fit { from.guard + guard_count (plan_of plan.old) < 2 ^ 32 }
    ensures plan { plan_of plan.new ≡ renumber from.node from.guard (plan_of plan.old) }
    ensures nodes { result.node ≡ from.node + node_count (plan_of plan.old) }
    ensures guards { result.guard ≡ from.guard + guard_count (plan_of plan.old) }
{
    let below = Numbers {
        node: from.node + 1,
        guard: from.guard,
    };
    match plan {
        Plan::Cause { node, .. } => {
            *node = from.node;
            below
        }
        Plan::Suppress { node, .. } => {
            *node = from.node;
            below
        }
        Plan::Both { node, left, right } => {
            *node = from.node;
            let behind = number(left, below);
            number(right, behind)
        }
        Plan::Either { node, left, right } => {
            *node = from.node;
            let behind = number(left, below);
            number(right, behind)
        }
        Plan::Until {
            node,
            left,
            right,
            ..
        } => {
            *node = from.node;
            let behind = number(left, below);
            number(right, behind)
        }
        Plan::TestOr {
            node,
            guard,
            body,
            ..
        } => {
            *node = from.node;
            *guard = from.guard;
            number(body, behind_guard(below))
        }
        Plan::Guarded {
            node,
            guard,
            body,
            ..
        } => {
            *node = from.node;
            *guard = from.guard;
            number(body, behind_guard(below))
        }
        Plan::Eventually { node, body, .. } => {
            *node = from.node;
            number(body, below)
        }
        Plan::Always { node, body, .. } => {
            *node = from.node;
            number(body, below)
        }
        Plan::Next { node, body, .. } => {
            *node = from.node;
            number(body, below)
        }
    }
}

fn behind_guard(numbers: Numbers) -> Numbers
    requires { numbers.guard + 1 < 2 ^ 32 }
    ensures { result ≡ record { node = numbers.node; guard = numbers.guard + 1 } }
{
    Numbers {
        node: numbers.node,
        guard: numbers.guard + 1,
    }
}
