//! Which names are caused and which suppressed.
ghost use Rattle.std.specs.Prelude.{◌≡◌, ◌↔◌, ◌<◌, ◌++◌, Contains, IfErr, IfOk, OnOk, length, map};
ghost use Rattle.std.specs.List.{flat_map};
ghost use Rattle.plan_terms.specs.machine.StoredPlans.{plan_of};
ghost use Rattle.rank_check.specs.meaning.Ranked.{role_in, NameHasRole};
ghost use Rattle.rank_check.specs.meaning.Refusals.{IsFirstName};
ghost use Rattle.plan_terms.specs.meaning.Plans.{NothingClashes, caused_below, suppressed_below, Clashes};
ghost use Rattle.rank_check.specs.machine.Roles.{role_for, IsMarkedName, AreNamesBelow};
ghost use Rattle.enf_data.specs.declared.events.NameId.{NameId as Name};

use crate::rank_answers::Role;
use enf_data::events::NameId;
use enf_data::memory::NoMemory;
use plan_terms::Plan;
use std::alloc::Global;

// The names that are caused in the plans, in pre-order.
pub fn caused(alloc: Global, plans: &[Plan]) -> Result<Vec<NameId>, NoMemory>
    ensures { IfOk result (λ names. names.items ≡ flat_map caused_below (map plan_of plans.now)) }
{
    let mut names = Vec::new(alloc);
    for plan in plans {
        add_caused(plan, &mut names)?;
    }
    Ok(names)
}

// The names that are suppressed in the plans, in pre-order.
pub fn suppressed(alloc: Global, plans: &[Plan]) -> Result<Vec<NameId>, NoMemory>
    ensures { IfOk result (λ names. names.items
        ≡ flat_map suppressed_below (map plan_of plans.now)) }
{
    let mut names = Vec::new(alloc);
    for plan in plans {
        add_suppressed(plan, &mut names)?;
    }
    Ok(names)
}

// Puts the names that a plan causes last.
fn add_caused(plan: &Plan, names: &mut Vec<NameId>) -> Result<(), NoMemory>
    ensures { OnOk result (names.new.items
        ≡ names.old.items ++ caused_below (plan_of plan.now)) }
{
    match plan {
        Plan::Cause { name, .. } => Ok(names.push(*name)?),
        Plan::Suppress { .. } => Ok(()),
        Plan::TestOr { body, .. }
        | Plan::Guarded { body, .. }
        | Plan::Eventually { body, .. }
        | Plan::Always { body, .. }
        | Plan::Next { body, .. } => add_caused(body, names),
        Plan::Both { left, right, .. }
        | Plan::Either { left, right, .. }
        | Plan::Until { left, right, .. } => {
            add_caused(left, names)?;
            add_caused(right, names)
        }
    }
}

// Puts the names that a plan suppresses last.
fn add_suppressed(plan: &Plan, names: &mut Vec<NameId>) -> Result<(), NoMemory>
    ensures { OnOk result (names.new.items
        ≡ names.old.items ++ suppressed_below (plan_of plan.now)) }
{
    match plan {
        Plan::Suppress { name, .. } => Ok(names.push(*name)?),
        Plan::Cause { .. } => Ok(()),
        Plan::TestOr { body, .. }
        | Plan::Guarded { body, .. }
        | Plan::Eventually { body, .. }
        | Plan::Always { body, .. }
        | Plan::Next { body, .. } => add_suppressed(body, names),
        Plan::Both { left, right, .. }
        | Plan::Either { left, right, .. }
        | Plan::Until { left, right, .. } => {
            add_suppressed(left, names)?;
            add_suppressed(right, names)
        }
    }
}

// The role of each of so many names, or the first that is both caused and suppressed.
pub fn roles_of(
    alloc: Global,
    plans: &[Plan],
    names: u32,
) -> Result<Result<Vec<Role>, NameId>, NoMemory>
    requires { AreNamesBelow names (map plan_of plans.now) }
    ensures clash { IfOk result (λ r. IfErr r (IsFirstName (Clashes (map plan_of plans.now)))) }
    ensures clear { IfOk result (λ r. OnOk r (NothingClashes (map plan_of plans.now))) }
    ensures roles { IfOk result (λ r. IfOk r (λ roles. (name : Name)
        → NameHasRole (map plan_of plans.now) name (role_in roles.items name))) }
{
    let causes = caused(alloc, plans)?;
    let causes = marks_of(alloc, causes.as_slice(), names)?;
    let suppresses = suppressed(alloc, plans)?;
    let suppresses = marks_of(alloc, suppresses.as_slice(), names)?;
    let mut roles = Vec::new(alloc);
    for number in 0..names {
        let place = number as usize;
        let Some(role) = role_at(causes[place], suppresses[place]) else {
            return Ok(Err(NameId(number)));
        };
        roles.push(role)?;
    }
    Ok(Ok(roles))
}

// Which of so many names are in a list, by name.
fn marks_of(alloc: Global, listed: &[NameId], names: u32) -> Result<Vec<bool>, NoMemory>
    requires { (name : Name) → Contains listed.now name → name.0 < names }
    ensures count { IfOk result (λ marks. length marks.items ≡ names) }
    ensures marks { IfOk result (λ marks. (name : Name)
        → IsMarkedName marks.items name ↔ Contains listed.now name) }
{
    let mut marks = vec![in alloc; false; names as usize]?;
    for name in listed {
        marks[name.0 as usize] = true;
    }
    Ok(marks)
}

// The role of a name, unless it has both.
fn role_at(is_caused: bool, is_suppressed: bool) -> Option<Role>
    ensures { result ≡ role_for is_caused is_suppressed }
{
    match (is_caused, is_suppressed) {
        (true, true) => None,
        (true, false) => Some(Role::Caused),
        (false, true) => Some(Role::Suppressed),
        (false, false) => Some(Role::Free),
    }
}
