//! Plans and what they stand for, tables and slots with ample memory.
ghost use Rattle.std.specs.Prelude.{◌≤◌, length};
ghost use Rattle.formula_reader.specs.machine.StoredRules.{policy_rules_of};
ghost use Rattle.formula_reader.specs.machine.WellFormedPolicies.{IsWellFormedPolicy};

use crate::found::Found;
use enf_data::{Duplicate, Interval, Items, MOST_FILE_BYTES, Row, Value, VarId, Vars};
use enforce_types::TypedPolicy;
use formula_reader::{Policy, Rule, print_rule, read_policy};
use log_gen::{sample_policy, sample_signature};
use plan_terms::{Plan, formula_of};
use signature::Signature;
use std::alloc::Global;
use std::test::Fail;
use valuations::{Table, Valuation};
use windows::PrevSlot;

// a node of each kind
const CANONICAL: &[u8] =
    b"rule r: forall u. (request(u) -> ((next[0,5] (consent(u) or delete(u))) and \
    ((always[0,9] (not use(u))) or ((not use(u)) until[1,7] (eventually[2,30] delete(u))))));";

#[test]
fn plans(rt: HostRuntime) -> Result<(), Fail> {
    let mut found = Found::new(rt.alloc());
    find_plans(rt.alloc(), &mut found)?;
    let wanted: &[u8] =
        b"rule r: forall u. (request(u) -> ((next[0,5] (consent(u) or delete(u))) and \
        ((always[0,9] (not use(u))) or ((not use(u)) until[1,7] (eventually[2,30] delete(u))))));|";
    assert_eq!(rt; found.text(), wanted);
    Ok(())
}

fn find_plans(alloc: Global, found: &mut Found) -> Result<(), Fail> {
    let read = Signature::read(
        alloc,
        b"request(text); consent(text); use(text) -; delete(text) +;",
    );
    let Ok(signature) = read else {
        return Err("a signature".into());
    };
    find_policy(alloc, &signature, CANONICAL, found)
}

fn find_policy(
    alloc: Global,
    signature: &Signature,
    text: &[u8],
    found: &mut Found,
) -> Result<(), Fail>
    requires { length text.now ≤ MOST_FILE_BYTES }
{
    let Ok(policy) = read_policy(alloc, signature, text) else {
        return Err("a policy".into());
    };
    find_typed(alloc, signature, &policy, found)
}

fn find_typed(
    alloc: Global,
    signature: &Signature,
    policy: &Policy,
    found: &mut Found,
) -> Result<(), Fail>
    requires { IsWellFormedPolicy signature.now (policy_rules_of policy.now) }
{
    let Ok(typed) = TypedPolicy::of(alloc, signature, policy) else {
        return Err("a policy with plans".into());
    };
    for (rule, plan) in policy.rules.as_slice().iter().zip(typed.plans()) {
        find_meant(alloc, signature, rule, plan, found)?;
    }
    Ok(())
}

// The rule that the plan stands for.
fn find_meant(
    alloc: Global,
    signature: &Signature,
    rule: &Rule,
    plan: &Plan,
    found: &mut Found,
) -> Result<(), Fail> {
    let meant = Rule {
        name: rule.name.duplicate(alloc)?,
        formula: formula_of(alloc, plan)?,
        vars: rule.vars.duplicate(alloc)?,
        place: 0,
    };
    find_printed(alloc, signature, &meant, found)
}

fn find_printed(
    alloc: Global,
    signature: &Signature,
    rule: &Rule,
    found: &mut Found,
) -> Result<(), Fail> {
    let mut text = Vec::new(alloc);
    print_rule(signature, rule, &mut text)?;
    found.bytes(&text);
    Ok(())
}

// what the plans of the sample policy stand for
const SAMPLE: &[u8] =
    b"rule consent: forall u. ((use(u) and (not (once[0,*] consent(u)))) -> (not use(u)));|\
    rule erase: forall u. (request(u) -> (eventually[0,30] delete(u)));|\
    rule hold: forall u. (lock(u) -> ((not use(u)) until[0,10] unlock(u)));|";

#[test]
fn the_sample_policy_is_accepted(rt: HostRuntime) -> Result<(), Fail> {
    let mut found = Found::new(rt.alloc());
    find_sample(rt.alloc(), &mut found)?;
    assert_eq!(rt; found.text(), SAMPLE);
    Ok(())
}

fn find_sample(alloc: Global, found: &mut Found) -> Result<(), Fail> {
    let Ok(signature) = Signature::read(alloc, sample_signature()) else {
        return Err("a signature".into());
    };
    find_policy(alloc, &signature, sample_policy(), found)
}

#[test]
fn tables_and_valuations(rt: HostRuntime) -> Result<(), Fail> {
    let alloc = rt.alloc();
    let mut v = Valuation::empty(alloc);
    v.bind(VarId(3), Value::Num(7))?;
    let rows = vec![in alloc; Row::from_vec(vec![in alloc; Value::Num(7)]?)]?;
    let table = Table::from_rows(Items::from_vec(vec![in alloc; VarId(3)]?), rows)?;
    assert!(rt; table.duplicate(alloc)?.has_valuation(&v.duplicate(alloc)?));
    Ok(())
}

#[test]
fn slots(rt: HostRuntime) -> Result<(), Fail> {
    let alloc = rt.alloc();
    let always = Interval { low: 0, high: None };
    let mut slot = PrevSlot::new(always, Vars::new(alloc));
    let before = slot.answer(alloc, 3)?.len();
    slot.commit(3, Table::unit(alloc)?);
    let after = slot.answer(alloc, 4)?.len();
    assert_eq!(rt; (before, after), (0, 1));
    Ok(())
}
