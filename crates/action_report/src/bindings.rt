//! The bindings that a line tells.
ghost use Rattle.std.specs.Prelude.{◌≡◌, ◌++◌, [], ℕ, List, IfOk, IfSome, Some, codes, map, slice_get};
ghost use Rattle.std.specs.Prelude.{true};
ghost use Rattle.std.specs.List.{AllByRecursion};
ghost use Rattle.enf_data.specs.meaning.Valuations.{Valuation as Bound, bindings as bindings_of};
ghost use Rattle.enf_value.specs.meaning.Tokens.{IsNoDigit};
ghost use Rattle.enf_data.specs.meaning.Values.{IsValue};
ghost use Rattle.enf_data.specs.declared.terms.VarId.{VarId as AnyVariable};
ghost use Rattle.enf_data.specs.declared.values.Value.{Value as AnyValue};
ghost use Rattle.formula_reader.specs.machine.StoredRules.{policy_rules_of};
ghost use Rattle.plan_terms.specs.machine.StoredPlans.{plan_of};
ghost use Rattle.plan_terms.specs.machine.WellFormed.{IsScopedPlan};
ghost use Rattle.action_report.specs.meaning.ReportLines.{bindings_text, rule_variable_names};
ghost use Rattle.action_report.specs.machine.LineParts.{AddsBindings, IsRising, TellsBindings};
ghost use Rattle.action_report.specs.machine.ReportedActions.{BindsJust, StandIn};

use crate::cursor::Cursor;
use crate::lines::{variable_name, variables_of};
use crate::reading::Cause;
use crate::scopes::scope_of;
use enf_data::{NoMemory, TextValue, VarId};
use formula_reader::policies::Policy;
use plan_terms::Plan;
use plan_terms::laws::nodes_have_scopes;
use std::alloc::Global;
use valuations::Valuation;

impl Cursor<'_> {
    // Takes what stands before the value of a variable.
    fn variable(&mut self, name: &[u8]) -> bool
        ensures { (rest : List ℕ) → self.old.rest.now ≡ codes " " ++ (name.now ++ (codes "=" ++ rest))
            → (result ≡ true) × (self.new.rest.now ≡ rest) }
    {
        self.take(b" ") && self.take(name) && self.take(b"=")
    }

    // Takes the binding of each of these variables, and puts them after those of the valuation. It says whether all
    // stood there.
    fn bindings(
        &mut self,
        alloc: Global,
        vars: &[TextValue],
        scope: &[VarId],
        valuation: &mut Valuation,
    ) -> Result<bool, NoMemory>
        requires { IsRising (bindings_of valuation.old) scope.now }
        ensures binds { IfOk result (AddsBindings scope.now (bindings_of valuation.old) (bindings_of valuation.new)) }
        ensures again { (values : List (AnyVariable × AnyValue)) (rest : List ℕ)
            → map (λ binding. binding.0) values ≡ scope.now
            → AllByRecursion (λ binding. IsValue binding.1) values
            → IsNoDigit rest → self.old.rest.now ≡ bindings_text vars.now values ++ rest
            → IfOk result (λ all. (all ≡ true)
            × (bindings_of valuation.new ≡ bindings_of valuation.old ++ values) × (self.new.rest.now ≡ rest)) }
    {
        let Some((variable, others)) = scope.split_first() else {
            return Ok(true);
        };
        if !self.variable(variable_name(vars, *variable)) {
            return Ok(false);
        }
        let Some(value) = self.value(alloc)? else {
            return Ok(false);
        };
        valuation.bind(*variable, value)?;
        self.bindings(alloc, vars, others, valuation)
    }
}

// The valuation that a line tells after the numbers, where these name nodes of a plan.
pub(crate) fn read_valuation(
    alloc: Global,
    policy: &Policy,
    plans: &[Plan],
    cause: Cause,
    cursor: &mut Cursor<'_>,
) -> Result<Option<Valuation>, NoMemory>
    requires { AllByRecursion (λ plan. IsScopedPlan plan []) (map plan_of plans.now) }
    ensures told { IfOk result (λ found. IfSome found (TellsBindings (map plan_of plans.now) cause)) }
    ensures again { (scope : List AnyVariable) (v : Bound) (rest : List ℕ)
        → StandIn (map plan_of plans.now) cause.rule cause.node cause.leaf scope
        → BindsJust scope v → IsNoDigit rest
        → cursor.old.rest.now
        ≡ bindings_text (rule_variable_names (slice_get (policy_rules_of policy.now) cause.rule)) (bindings_of v) ++
        rest
        → IfOk result (λ found. found ≡ Some v) }
{
    nodes_have_scopes();
    let Some(scope) = scope_of(alloc, plans, cause.rule, cause.node, cause.leaf)? else {
        return Ok(None);
    };
    let mut valuation = Valuation::empty(alloc);
    let vars = variables_of(policy, cause.rule);
    if !cursor.bindings(alloc, vars, scope.as_slice(), &mut valuation)? {
        return Ok(None);
    }
    Ok(Some(valuation))
}
