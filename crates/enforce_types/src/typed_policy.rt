//! Policies whose rules have plans that can work together.
ghost use Rattle.std.specs.Prelude.{◌≡◌, ◌≤◌, All, IfErr, IfOk};
ghost use Rattle.enforce_types.specs.meaning.PolicyRefusals.{IsTyped, RefusesPolicy};
ghost use Rattle.enforce_types.specs.machine.PolicyLaws.{KeepsToSignature};
ghost use Rattle.enforce_types.specs.machine.TypedPolicies.{typed_of};
ghost use Rattle.formula_reader.specs.machine.StoredRules.{stored_rule_formulas, policy_rules_of};
ghost use Rattle.formula_reader.specs.machine.WellFormedPolicies.{IsWellFormedPolicy};
ghost use Rattle.plan_terms.specs.machine.WellFormed.{GuardBindsFresh, AreWellFormed};
ghost use Rattle.plan_terms.specs.machine.GuardProperties.{guard_of};
ghost use Rattle.plan_terms.specs.machine.IntervalEnds.{AllEndLater};
ghost use Rattle.rank_check.specs.meaning.Ranked.{AreRanked, role_in};
ghost use Rattle.rank_check.specs.meaning.AcceptedPlans.{AreAccepted};

use crate::refusals::TypeRefusal;
use crate::rule_plans::{RulePlans, plan_rules};
use enf_data::events::NameId;
use formula_reader::Policy;
use monitorable_guard::Guard;
use plan_terms::Plan;
use rank_check::{MOST_HORIZON, Ranks, Role, check};
use signature::Signature;
use std::alloc::Global;
use std::marker::Model;

/// A policy that is accepted: its plans with their guards and tests, and what is known of them together.
#[derive(Debug, Drop)]
pub struct TypedPolicy {
    made: RulePlans,
    ranks: Ranks,
}

impl Model for TypedPolicy {
    ghost use Rattle.enforce_types.specs.machine.TypedPolicies.{StoredTyped, WorkTogether, typed_of};
    ghost use Rattle.monitorable_guard.specs.machine.Guards.{bound_formula_code};
    ghost use Rattle.std.specs.Coded.{codes};
    ghost use Rattle.plan_terms.specs.contracts.plans.Plan as plan;

    ghost Value = { StoredTyped };

    ghost coded = { Prim.hlevel (codes, plan.the_row.coded, bound_formula_code) };

    ghost view = { λ t. record { plans = t.made.plans.items; guards = t.made.guards.items; ranked = t.ranks } };

    ghost invariant = { λ t. WorkTogether (typed_of (record {
      plans = t.made.plans.items;
      guards = t.made.guards.items;
      ranked = t.ranks;
    })) };
}

impl TypedPolicy {
    /// The policy with its plans, or the first refusal: of the rules in their order, and then of the plans together.
    pub fn of(
        alloc: Global,
        signature: &Signature,
        policy: &Policy,
    ) -> Result<TypedPolicy, TypeRefusal>
        // So is each policy that was read under the signature.
        requires { IsWellFormedPolicy signature.now (policy_rules_of policy.now) }
        ensures typed { IfOk result (λ made. IsTyped signature.now (stored_rule_formulas policy.now.rules)
            (typed_of made)) }
        // The names that it causes can be caused, and those that it suppresses can be suppressed, with terms for their
        // columns.
        ensures kept { IfOk result
            (λ made. KeepsToSignature signature.now (typed_of made).plans (typed_of made).guards) }
        ensures refused { IfErr result (RefusesPolicy signature.now (stored_rule_formulas policy.now.rules)) }
    {
        let made = plan_rules(alloc, signature, policy.rules.as_slice())?;
        let ranks = check(alloc, &made.plans, signature.len())?;
        Ok(TypedPolicy { made, ranks })
    }

    /// The plans, in rule order: what they and the guards are, whatever the signature, and that the ranks, the roles,
    /// the horizon and the transparent mark are theirs.
    pub fn plans(&self) -> &[Plan]
        ensures plans { result.now ≡ self.now.plans }
        ensures formed { AreWellFormed (typed_of self.now).plans (typed_of self.now).guards }
        ensures later { AllEndLater (typed_of self.now).plans }
        ensures accepted { AreAccepted (typed_of self.now).plans }
        ensures ranked { AreRanked (typed_of self.now).plans (typed_of self.now).ranked }
    {
        &self.made.plans
    }

    /// The guards and tests, at their numbers: no quantifier in one binds a variable in scope.
    pub fn guards(&self) -> &[Guard]
        ensures guards { result.now ≡ self.now.guards }
        ensures fresh { All (λ guard. GuardBindsFresh (guard_of guard)) self.now.guards }
    {
        &self.made.guards
    }

    /// Whether the plans are transparent: of the two sides of an Either at most one has a future node, and neither the
    /// body of an Eventually nor the right side of an Until has one.
    pub fn is_transparent(&self) -> bool
        ensures { result ≡ self.now.ranked.transparent }
    {
        self.ranks.is_transparent()
    }

    /// The horizon in units of time: one more than the greatest class of a node with a deadline, times the greatest
    /// end of such a node's interval.
    pub fn horizon(&self) -> u64
        ensures value { result ≡ self.now.ranked.horizon }
        ensures bounded { result ≤ MOST_HORIZON }
    {
        self.ranks.horizon()
    }

    /// What the policy does to events of the name.
    pub fn role(&self, name: NameId) -> Role
        ensures { result ≡ role_in self.now.ranked.roles name }
    {
        self.ranks.role(name)
    }
}
