//! Rules at positions that are followed until it is known whether they hold.
ghost use Rattle.std.specs.Prelude.{◌≡◌, ◌↔◌, ◌≤◌, ◌^◌, IsTrue, List, OnErr, OnOk, [], length};
ghost use Rattle.std.specs.Prelude.{map};
ghost use Rattle.std.specs.List.{AllByRecursion};
ghost use Rattle.enf_formula.specs.meaning.Satisfaction.{Formula};
ghost use Rattle.enf_data.specs.meaning.Valuations.{no_values};
ghost use Rattle.enf_data.specs.declared.steps.Step.{Step};
ghost use Rattle.plan_terms.specs.machine.StoredPlans.{plan_of};
ghost use Rattle.trace_meaning.specs.meaning.Traces.{most_time};
ghost use Rattle.trace_meaning.specs.declared.kinds.StepKind.TheVariants.{Inserted};
ghost use Rattle.trace_audit.specs.machine.AskablePlans.{CanEvaluatePlan};
ghost use Rattle.trace_audit.specs.machine.Judgements.{NothingElse, BeginsRules, RulesCanGoOn, FollowsAsked};
ghost use Rattle.trace_audit.specs.machine.Judgements.{FollowsOneAsked, IsFirstWith, IsRuleBeforeAny, IsJudged};
ghost use Rattle.trace_audit.specs.machine.Judgements.{JudgesStep, PutsIn};
ghost use Rattle.past_state.specs.machine.GuardPlaces.{guards_at};
ghost use Rattle.trace_audit.specs.machine.Moments.{audit_moment, moment_of};
ghost use Rattle.trace_audit.specs.machine.Residuals.{ResidualCanGoOn};
ghost use Rattle.trace_audit.specs.declared.verdicts.RuleAt.{RuleAt as AnyRuleAt};

use crate::evaluation::{evaluate, progress};
use crate::open_rules::{OpenRule, OpenRules};
use crate::present_step::Present;
use crate::residuals::{Residual, is_met_at_end};
use crate::verdicts::RuleAt;
use enf_data::memory::NoMemory;
use monitorable_guard::StepEvents;
use past_state::Tables;
use plan_terms::Plan;
use std::alloc::Global;
use valuations::{Frame, Valuation};

// What is still asked, and the first rule that is known to be broken.
#[derive(Drop)]
pub struct Followed<'p> {
    pub asked: OpenRules<'p>,
    pub broken: Option<RuleAt>,
}

// Whether it comes before another one, if there is one.
fn is_before(at: RuleAt, other: Option<RuleAt>) -> bool
    ensures { IsTrue result ↔ IsRuleBeforeAny at other }
{
    match other {
        None => true,
        Some(other) => {
            at.position < other.position || (at.position == other.position && at.rule < other.rule)
        }
    }
}

// Follows what is open over the step: what sleeps stays as it is. What comes after a broken rule need not be followed.
fn follow_each<'p>(
    alloc: Global,
    now: &Present<'_>,
    followed: &mut Followed<'p>,
) -> Result<(), NoMemory>
    requires can { RulesCanGoOn (guards_at now.now.tables.now) followed.old.asked }
    requires in_time { now.now.time ≤ most_time Inserted }
    ensures follows { OnOk result (FollowsAsked (moment_of now.now) followed.old followed.new) }
    ensures can { RulesCanGoOn (guards_at now.now.tables.now) followed.new.asked }
{
    let awake = followed.asked.take_awake(alloc, now)?;
    for item in awake {
        follow(alloc, item, now, followed)?;
    }
    Ok(())
}

fn follow<'p>(
    alloc: Global,
    item: OpenRule<'p>,
    now: &Present<'_>,
    followed: &mut Followed<'p>,
) -> Result<(), NoMemory>
    requires can { ResidualCanGoOn (guards_at now.now.tables.now) item.rest }
    requires others { RulesCanGoOn (guards_at now.now.tables.now) followed.old.asked }
    requires in_time { now.now.time ≤ most_time Inserted }
    ensures follows { OnOk result (FollowsOneAsked (moment_of now.now) item.entry followed.old followed.new) }
    ensures can { RulesCanGoOn (guards_at now.now.tables.now) followed.new.asked }
{
    if !is_before(item.at, followed.broken) {
        return Ok(());
    }
    let rest = progress(alloc, item.rest, now)?;
    put_in(alloc, item.at, rest, followed)
}

fn put_in<'p>(
    alloc: Global,
    at: RuleAt,
    rest: Residual<'p>,
    followed: &mut Followed<'p>,
) -> Result<(), NoMemory>
    ensures ok { OnOk result (PutsIn at rest.entry followed.old followed.new) }
    ensures err { OnErr result (followed.new.asked ≡ followed.old.asked) }
{
    match rest {
        Residual::Met => {}
        Residual::Failed => followed.broken = Some(at),
        rest => followed.asked.put(alloc, OpenRule { at, rest })?,
    }
    Ok(())
}

// Asks each rule at the step, as long as none is known to be broken.
fn begin_each<'p>(
    alloc: Global,
    plans: &'p [Plan],
    now: &Present<'_>,
    followed: &mut Followed<'p>,
) -> Result<(), NoMemory>
    requires roots { AllByRecursion (λ plan. CanEvaluatePlan (guards_at now.now.tables.now) plan no_values)
        (map plan_of plans.now) }
    requires few { length plans.now ≤ 2 ^ 32 }
    requires others { RulesCanGoOn (guards_at now.now.tables.now) followed.old.asked }
    requires in_time { now.now.time ≤ most_time Inserted }
    ensures begins { OnOk result (BeginsRules (moment_of now.now) (map plan_of plans.now) (length plans.now)
        followed.old followed.new) }
    ensures can { RulesCanGoOn (guards_at now.now.tables.now) followed.new.asked }
{
    let none = Valuation::empty(alloc);
    for (rule, plan) in plans.iter().enumerate() {
        let at = RuleAt {
            rule: rule as u32,
            position: now.position,
        };
        if !is_before(at, followed.broken) {
            return Ok(());
        }
        let rest = evaluate(alloc, plan, &Frame::Whole(&none), now)?;
        put_in(alloc, at, rest, followed)?;
    }
    Ok(())
}

// Follows what is asked over a step, and asks each rule there.
pub fn follow_step<'p>(
    alloc: Global,
    plans: &'p [Plan],
    time: u64,
    position: u64,
    events: &StepEvents<'_>,
    tables: &Tables,
    followed: &mut Followed<'p>,
) -> Result<(), NoMemory>
    requires roots { AllByRecursion (λ plan. CanEvaluatePlan (guards_at tables.now) plan no_values)
        (map plan_of plans.now) }
    requires few { length plans.now ≤ 2 ^ 32 }
    requires can { RulesCanGoOn (guards_at tables.now) followed.old.asked }
    requires in_time { time ≤ most_time Inserted }
    ensures takes { OnOk result (JudgesStep (audit_moment time position events.now tables.now) (map plan_of plans.now)
        followed.old followed.new) }
    ensures can { RulesCanGoOn (guards_at tables.now) followed.new.asked }
{
    let now = Present {
        time,
        position,
        events,
        tables,
    };
    follow_each(alloc, &now, followed)?;
    begin_each(alloc, plans, &now, followed)
}

// The first of a broken rule and of what stands in a slot, where the trace ends.
fn first_with(slot: &Option<OpenRule<'_>>, broken: Option<RuleAt>) -> Option<RuleAt>
    ensures { IsFirstWith slot.now broken result }
{
    let Some(item) = slot else {
        return broken;
    };
    if !is_before(item.at, broken) {
        return broken;
    }
    if is_met_at_end(&item.rest) {
        return broken;
    }
    Some(item.at)
}

// The first broken rule where the trace ends.
pub fn first_broken(asked: &OpenRules<'_>, broken: Option<RuleAt>) -> Option<RuleAt>
    ensures { (policy : List Formula) (trace : List Step) (end : AnyRuleAt)
        → IsJudged policy trace (length trace) end NothingElse asked.now broken
        → IsJudged policy trace (length trace) end NothingElse [] result }
{
    let mut first = broken;
    for slot in asked.slots() {
        first = first_with(slot, first);
    }
    first
}
