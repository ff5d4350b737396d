//! The instances of lines, where they keep the bounds of states.
ghost use Rattle.std.specs.Prelude.{◌≡◌, ◌↔◌, ◌∷◌, ◌++◌, ◌<◌, ◌≤◌, ◌^◌, [], IfErr};
ghost use Rattle.std.specs.Prelude.{IfNone, IfOk, IfSome, IsTrue, OnOk, Some, slice_get};
ghost use Rattle.enf_data.specs.meaning.Valuations.{no_values};
ghost use Rattle.valuations.specs.machine.Bindings.{filled_from_row};
ghost use Rattle.plan_terms.specs.meaning.Plans.{Plan as AnyPlan};
ghost use Rattle.plan_terms.specs.meaning.Scopes.{future_in};
ghost use Rattle.obligations.specs.machine.Parts.{node_with_scope};
ghost use Rattle.save_codec.specs.meaning.SavedBounds.{RuleTells, SaveSetting};
ghost use Rattle.save_codec.specs.machine.BoundJudgements.{AreInstancesOf, AreDuesWithin, IsJudge, IsFoundNode};
ghost use Rattle.save_codec.specs.machine.BoundJudgements.{IsUnfit, JudgesLine};
ghost use Rattle.save_codec.specs.meaning.ToldSorts.{FitTold};

use crate::judging::{Judge, Unfit, item_at};
use crate::limits::MOST_STATE_TIME;
use crate::parts::DueLine;
use crate::pending_bounds::can_wait;
use enf_data::{NoMemory, Value, VarId};
use obligations::scopes::{FutureNode, future_node};
use obligations::{Instance, Instances};
use plan_terms::laws::nodes_have_scopes;
use std::alloc::Global;
use valuations::filling::valuation_in;
use valuations::{Frame, Valuation};

// An operator on the future, if its numbers name one.
#[derive(Drop)]
pub(crate) struct Named<'a> {
    pub rule: u32,
    pub node: u32,
    pub found: Option<FutureNode<'a>>,
}

// The numbers of rule and node, where they have 32 bits.
fn numbers_of(due: &DueLine) -> Option<(u32, u32)>
    ensures some { IfSome result (λ n. (n.0 ≡ due.now.rule) × (n.1 ≡ due.now.node)
        × (due.now.rule < 2 ^ 32) × (due.now.node < 2 ^ 32)) }
    ensures none { IfNone result (due.now.rule < 2 ^ 32 → due.now.node < 2 ^ 32 → ⊥) }
{
    match (u32::try_from(due.rule), u32::try_from(due.node)) {
        (Ok(rule), Ok(node)) => Some((rule, node)),
        _ => None,
    }
}

fn is_early(due: &DueLine) -> bool
    ensures { IsTrue result ↔ ((due.now.low ≤ MOST_STATE_TIME) × (due.now.high ≤ MOST_STATE_TIME)) }
{
    due.low <= MOST_STATE_TIME && due.high <= MOST_STATE_TIME
}

fn bound(alloc: Global, scope: &[VarId], values: &[Value]) -> Result<Valuation, NoMemory>
    ensures { IfOk result (λ v. v ≡ filled_from_row no_values scope.now values.now) }
{
    let nothing = Valuation::empty(alloc);
    let whole = Frame::Whole(&nothing);
    valuation_in(alloc, &Frame::Row(&whole, scope, values))
}

fn put(instance: Instance, instances: &mut Vec<Instance>) -> Result<(), NoMemory>
    ensures { OnOk result (instances.new.items ≡ instances.old.items ++ instance ∷ []) }
{
    instances.push(instance)?;
    Ok(())
}

impl<'a> Judge<'a> {
    // Whether these are values for the variables, of the sorts that the plan of the rule tells.
    fn fit_rule(&self, rule: u32, variables: &[VarId], values: &[Value]) -> bool
        ensures { (s : SaveSetting) (plan : AnyPlan) → IsJudge s self.now → slice_get s.plans rule ≡ Some plan
            → IsTrue result ↔ FitTold (RuleTells s.entries s.plans rule) variables.now values.now }
    {
        match item_at(self.rules.as_slice(), rule as usize) {
            Some(known) => known.fit(variables, values),
            None => false,
        }
    }

    // What two numbers name.
    fn named(&self, alloc: Global, rule: u32, node: u32) -> Result<Named<'a>, NoMemory>
        ensures numbers { IfOk result (λ named. (named.rule ≡ rule) × (named.node ≡ node)) }
        ensures named { (s : SaveSetting) → IsJudge s self.now → IfOk result (IsFoundNode s) }
    {
        let found = future_node(alloc, self.plans, rule, node)?;
        Ok(Named { rule, node, found })
    }

    // Turns to other numbers. Most lines have those of the line before them.
    fn turn(
        &self,
        alloc: Global,
        rule: u32,
        node: u32,
        named: &mut Named<'a>,
    ) -> Result<(), NoMemory>
        ensures numbers { OnOk result ((named.new.rule ≡ rule) × (named.new.node ≡ node)) }
        ensures named { (s : SaveSetting) → IsJudge s self.now → IsFoundNode s named.old
            → IsFoundNode s named.new }
    {
        if named.rule != rule || named.node != node {
            *named = self.named(alloc, rule, node)?;
        }
        Ok(())
    }

    // The instance of a line for this node, where it keeps the bounds.
    fn instance_at(
        &self,
        alloc: Global,
        clock: u64,
        position: u64,
        due: &DueLine,
        found: &FutureNode<'_>,
    ) -> Result<Option<Instance>, NoMemory>
        requires rule { due.now.rule < 2 ^ 32 }
        requires node { due.now.node < 2 ^ 32 }
        ensures { (s : SaveSetting) → IsJudge s self.now
            → future_in s.plans due.now.rule due.now.node ≡ Some (node_with_scope found.now)
            → IfOk result (JudgesLine s clock position due.now) }
    {
        nodes_have_scopes();
        if !is_early(due) {
            return Ok(None);
        }
        let rule = due.rule as u32;
        if !self.fit_rule(rule, found.scope.as_slice(), due.values.as_slice()) {
            return Ok(None);
        }
        let valuation = bound(alloc, found.scope.as_slice(), due.values.as_slice())?;
        let instance = Instance {
            rule,
            node: due.node as u32,
            valuation,
            origin: due.origin,
            low: due.low,
            high: due.high,
        };
        if !can_wait(found.node, clock, position, &instance) {
            return Ok(None);
        }
        Ok(Some(instance))
    }

    // The instance of a line, where it keeps the bounds.
    fn instance(
        &self,
        alloc: Global,
        clock: u64,
        position: u64,
        due: &DueLine,
        named: &mut Named<'a>,
    ) -> Result<Option<Instance>, NoMemory>
        ensures judges { (s : SaveSetting) → IsJudge s self.now → IsFoundNode s named.old
            → IfOk result (JudgesLine s clock position due.now) }
        ensures named { (s : SaveSetting) → IsJudge s self.now → IsFoundNode s named.old
            → IsFoundNode s named.new }
    {
        let Some((rule, node)) = numbers_of(due) else {
            return Ok(None);
        };
        self.turn(alloc, rule, node, named)?;
        match &named.found {
            Some(found) => self.instance_at(alloc, clock, position, due, found),
            None => Ok(None),
        }
    }

    // The instances of lines, where they keep the bounds.
    pub fn instances(
        &self,
        alloc: Global,
        clock: u64,
        position: u64,
        dues: &[DueLine],
    ) -> Result<Instances, Unfit>
        ensures ok { (s : SaveSetting) → IsJudge s self.now
            → IfOk result (AreInstancesOf s clock position dues.now) }
        ensures err { (s : SaveSetting) → IsJudge s self.now
            → IfErr result (IsUnfit (AreDuesWithin s clock position) dues.now) }
    {
        let mut instances = Vec::new(alloc);
        let mut named = self.named(alloc, 0, 0)?;
        for (place, due) in dues.iter().enumerate() {
            match self.instance(alloc, clock, position, due, &mut named)? {
                Some(instance) => put(instance, &mut instances)?,
                None => return Err(Unfit::At(place)),
            }
        }
        Ok(Instances::from_vec(instances))
    }
}
