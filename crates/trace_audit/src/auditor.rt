//! Auditors, which take a trace step by step.
ghost use Rattle.std.specs.Prelude.{◌≡◌, ◌+◌, ◌≤◌, ◌<◌, ◌^◌, [], IfOk, List, OnOk, length};
ghost use Rattle.enf_data.specs.declared.steps.Step.{Step};
ghost use Rattle.enforce_types.specs.machine.TypedPolicies.{typed_of};
ghost use Rattle.trace_meaning.specs.meaning.Traces.{last_time, most_time};
ghost use Rattle.trace_meaning.specs.declared.kinds.StepKind.TheVariants.{Inserted};
ghost use Rattle.trace_audit.specs.machine.Auditors.{Audits, HasTaken, IsNewAuditor, AuditsSome, audited_rules};
ghost use Rattle.trace_audit.specs.meaning.Verdicts.{IsVerdict};
ghost use Rattle.plan_terms.specs.machine.StoredPlans.{formulas_for};

use crate::followed_rules::{Followed, first_broken, follow_step};
use crate::open_rules::OpenRules;
use crate::verdicts::{RuleAt, Verdict};
use enf_data::event_sets::EventSet;
use enf_data::memory::NoMemory;
use enf_data::seeds::Seed;
use enf_formula::laws::dependence;
use enforce_types::TypedPolicy;
use monitorable_guard::StepEvents;
use past_state::PastState;
use std::alloc::Global;
use std::marker::Model;
use trace_meaning::Trace;
use trace_meaning::laws::{last_time_of_trace, trace_grows};

/// An auditor of a policy, which takes a trace step by step and keeps of it what its guards remember, and what is still
/// asked for rules at positions whose windows are open.
#[derive(Drop)]
pub struct Auditor<'p> {
    policy: &'p TypedPolicy,
    past: PastState,
    position: u64,
    last: u64,
    followed: Followed<'p>,
}

impl<'p> Model for Auditor<'p> {
    ghost use Rattle.trace_audit.specs.machine.Auditors.{Auditing, IsAuditing};
    ghost use Rattle.past_state.specs.machine.PastCodes.{past_code};
    ghost use Rattle.std.specs.Coded.{codes};
    ghost use Rattle.std.specs.Prelude.{[]};
    ghost use mir.Syntax.{named};
    ghost use Rattle.enforce_types.specs.contracts.typed_policy.TypedPolicy as typed;
    ghost use Rattle.plan_terms.specs.contracts.plans.Plan as plan;
    ghost use Rattle.trace_audit.specs.contracts.residuals.Residual as residual;

    ghost Value = { Auditing };

    ghost coded = { Prim.hlevel (
      codes,
      typed.the_row.coded,
      past_code,
      plan.the_row.coded,
      (residual.the_row (record { mir = named 0; lft = [] })).coded,
    ) };

    ghost view = { λ a. record {
      policy = a.policy.now;
      past = a.past;
      position = a.position;
      last = a.last;
      asked = a.followed.asked;
      broken = a.followed.broken;
    } };

    ghost invariant = { λ a. IsAuditing (record {
      policy = a.policy.now;
      past = a.past;
      position = a.position;
      last = a.last;
      asked = a.followed.asked;
      broken = a.followed.broken;
    }) };
}

impl<'p> Auditor<'p> {
    /// An auditor of the policy that has taken no step.
    pub fn new(alloc: Global, policy: &'p TypedPolicy) -> Result<Auditor<'p>, NoMemory>
        ensures made { IfOk result (IsNewAuditor policy.now) }
        ensures stands { IfOk result (λ auditor. Audits auditor []) }
    {
        Auditor::seeded(alloc, Seed::known(), policy)
    }

    /// So too, where a stranger chooses the events: who does not know the seed cannot choose such as take it long.
    pub fn seeded(
        alloc: Global,
        seed: Seed,
        policy: &'p TypedPolicy,
    ) -> Result<Auditor<'p>, NoMemory>
        ensures made { IfOk result (IsNewAuditor policy.now) }
        ensures stands { IfOk result (λ auditor. Audits auditor []) }
    {
        let past = PastState::seeded(alloc, seed, policy.guards())?;
        Ok(Auditor {
            policy,
            past,
            position: 0,
            last: 0,
            followed: Followed {
                asked: OpenRules::new(alloc, seed),
                broken: None,
            },
        })
    }

    /// Takes a step, whose time is not before that of the last one. Once memory has run out, it stands for no trace:
    /// it is fit to be dropped.
    pub fn step(&mut self, alloc: Global, time: u64, events: &EventSet) -> Result<(), NoMemory>
        requires stands { AuditsSome self.old }
        requires later { self.old.last ≤ time }
        requires in_time { time ≤ most_time Inserted }
        requires room { self.old.position + 1 < 2 ^ 64 }
        ensures { OnOk result (HasTaken self.old time events.now self.new) }
    {
        dependence();
        trace_grows();
        // Its clause says that no event stands twice.
        let _given = events.as_slice();
        let ordered = StepEvents::of(alloc, events)?;
        let tables = self.past.tables_at(alloc, time, &ordered)?;
        follow_step(
            alloc,
            self.policy.plans(),
            time,
            self.position,
            &ordered,
            &tables,
            &mut self.followed,
        )?;
        drop(ordered);
        self.past.commit(time, events, tables)?;
        self.position += 1;
        self.last = time;
        Ok(())
    }

    /// The verdict on the steps that were taken, where no other one comes.
    pub fn verdict(&self) -> Verdict
        ensures { (trace : List Step) → Audits self.now trace → IsVerdict (audited_rules self.now) trace result }
    {
        match first_broken(&self.followed.asked, self.followed.broken) {
            None => Verdict::Holds,
            Some(RuleAt { rule, position }) => Verdict::Fails { rule, position },
        }
    }
}

/// The verdict on a whole trace, whose times are at most those of inserted steps.
pub fn audit(alloc: Global, policy: &TypedPolicy, trace: &Trace) -> Result<Verdict, NoMemory>
    requires in_time { last_time trace.now ≤ most_time Inserted }
    requires few { length trace.now < 2 ^ 63 }
    ensures { IfOk result (IsVerdict (formulas_for (typed_of policy.now).plans) trace.now) }
{
    last_time_of_trace();
    let mut auditor = Auditor::new(alloc, policy)?;
    for step in trace.as_slice() {
        auditor.step(alloc, step.time, &step.events)?;
    }
    Ok(auditor.verdict())
}
