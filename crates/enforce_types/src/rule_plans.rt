//! Plans for the rules of a policy.
ghost use Rattle.std.specs.Prelude.{◌≡◌, ◌+◌, ◌<◌, ◌≤◌, ◌^◌, ◌++◌, ◌∷◌, [], All};
ghost use Rattle.std.specs.Prelude.{IfErr, IfOk, OnOk, length, map};
ghost use Rattle.enf_formula.specs.machine.FormulaShape.{formula_size};
ghost use Rattle.plan_terms.specs.meaning.Plans.{guards_of_plan};
ghost use Rattle.plan_terms.specs.machine.GuardProperties.{guards_of};
ghost use Rattle.plan_terms.specs.machine.WellFormed.{GuardsAreSafe};
ghost use Rattle.enforce_types.specs.meaning.Elab.{node_count, guard_count, renumber, ArePlanned};
ghost use Rattle.enforce_types.specs.meaning.PolicyRefusals.{IsFirstRefusal};
ghost use Rattle.enforce_types.specs.machine.OperandAnswers.{GivesRefusal};
ghost use Rattle.formula_reader.specs.machine.StoredRules.{stored_rule_formulas};
ghost use Rattle.plan_terms.specs.machine.StoredPlans.{plan_of};
ghost use Rattle.enf_data.specs.declared.limits.TheConstants.{MOST_NODES, MOST_RULES};

use crate::elaboration::up;
use crate::guards::collect;
use crate::node_numbers::{Numbers, number};
use crate::refusals::TypeRefusal;
use enf_data::memory::NoMemory;
use enf_data::terms::Vars;
use formula_reader::Rule;
use monitorable_guard::Guard;
use plan_terms::Plan;
use signature::Signature;
use std::alloc::Global;

/// The plans of rules, with their guards and tests at the numbers of these.
#[derive(Debug, Drop)]
pub struct RulePlans {
    pub plans: Vec<Plan>,
    pub guards: Vec<Guard>,
}

impl RulePlans {
    fn new(alloc: Global) -> RulePlans
        ensures plans { result.plans.items ≡ [] }
        ensures guards { result.guards.items ≡ [] }
    {
        RulePlans {
            plans: Vec::new(alloc),
            guards: Vec::new(alloc),
        }
    }

    // Puts a plan last, numbered after those that are there.
    fn push(&mut self, alloc: Global, mut plan: Plan) -> Result<(), NoMemory>
        requires safe { GuardsAreSafe (plan_of plan) [] }
        requires nodes_fit { node_count (plan_of plan) < 2 ^ 32 }
        requires guards_fit { length self.old.guards.items + guard_count (plan_of plan) < 2 ^ 32 }
        ensures plans { OnOk result (map plan_of self.new.plans.items ≡ map plan_of self.old.plans.items
            ++ renumber 0 (length self.old.guards.items) (plan_of plan) ∷ []) }
        ensures guards { OnOk result (guards_of self.new.guards.items
            ≡ guards_of self.old.guards.items ++ guards_of_plan (plan_of plan) []) }
    {
        let guard = self.guards.len() as u32;
        collect(alloc, &plan, &Vars::new(alloc), &mut self.guards)?;
        number(&mut plan, Numbers { node: 0, guard });
        self.plans.push(plan)?;
        Ok(())
    }
}

/// The plans of rules, or the first refusal.
pub fn plan_rules(
    alloc: Global,
    signature: &Signature,
    rules: &[Rule],
) -> Result<RulePlans, TypeRefusal>
    requires few_rules { length rules.now ≤ MOST_RULES }
    requires few_nodes { All (λ f. formula_size f ≤ MOST_NODES) (stored_rule_formulas rules.now) }
    ensures planned { IfOk result (λ made. ArePlanned signature.now (stored_rule_formulas rules.now)
        (map plan_of made.plans.items) (guards_of made.guards.items)) }
    ensures refused { IfErr result
        (GivesRefusal (IsFirstRefusal signature.now (stored_rule_formulas rules.now))) }
{
    let none = Vars::new(alloc);
    let mut made = RulePlans::new(alloc);
    for rule in rules {
        let plan = up(alloc, signature, &rule.formula, &none)?;
        made.push(alloc, plan)?;
    }
    Ok(made)
}
