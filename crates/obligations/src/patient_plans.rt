//! Plans that miss nothing where they are begun, whatever the step.
ghost use Rattle.std.specs.Prelude.{IsTrue};
ghost use Rattle.plan_terms.specs.machine.StoredPlans.{plan_of};
ghost use Rattle.obligations.specs.machine.PlanClasses.{IsPatient};

use plan_terms::Plan;

// Whether the plan misses nothing where it is begun, as what it wants is wanted later. No guard is asked.
pub fn is_patient(plan: &Plan) -> bool
    ensures { IsTrue result → IsPatient (plan_of plan.now) }
{
    match plan {
        Plan::Cause { .. } | Plan::Suppress { .. } => false,
        Plan::Both { left, right, .. } => is_patient(left) && is_patient(right),
        Plan::Either { left, right, .. } => is_patient(left) || is_patient(right),
        Plan::TestOr { body, .. } | Plan::Guarded { body, .. } => is_patient(body),
        Plan::Eventually { .. } | Plan::Next { .. } => true,
        Plan::Always { low, body, .. } => *low > 0 || is_patient(body),
        Plan::Until { left, .. } => is_patient(left),
    }
}
