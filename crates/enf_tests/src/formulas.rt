//! Policies, traces and generated logs with ample memory.
ghost use Rattle.std.specs.Prelude.{◌≤◌, length};

use crate::found::Found;
use enf_data::{EventSet, MOST_FILE_BYTES, Step};
use enf_formula::Formula;
use formula_reader::{Rule, print_rule, read_policy};
use log_gen::generate;
use signature::Signature;
use std::alloc::Global;
use std::test::Fail;
use trace_meaning::Trace;

#[test]
fn policies(rt: HostRuntime) -> Result<(), Fail> {
    let mut found = Found::new(rt.alloc());
    find_policy(rt.alloc(), &mut found)?;
    let wanted: &[u8] =
        b"rule r: forall x, y. (once[2,5] ((level(x,y) or (x < -7)) and (not (y = \"z\"))));|2|yes|";
    assert_eq!(rt; found.text(), wanted);
    Ok(())
}

fn find_policy(alloc: Global, found: &mut Found) -> Result<(), Fail> {
    let read = Signature::read(alloc, b"level(int, text); alarm() +;");
    let Ok(signature) = read else {
        return Err("a signature".into());
    };
    find_rules(
        alloc,
        &signature,
        b"rule r: forall x, y. (once[2,5] ((level(x,y) or (x < -7)) and (not (y = \"z\"))));",
        found,
    )
}

fn find_rules(
    alloc: Global,
    signature: &Signature,
    text: &[u8],
    found: &mut Found,
) -> Result<(), Fail>
    requires { length text.now ≤ MOST_FILE_BYTES }
{
    let Ok(policy) = read_policy(alloc, signature, text) else {
        return Err("a policy".into());
    };
    for rule in policy.rules.as_slice() {
        find_rule(alloc, signature, rule, found)?;
    }
    Ok(())
}

fn find_rule(
    alloc: Global,
    signature: &Signature,
    rule: &Rule,
    found: &mut Found,
) -> Result<(), Fail> {
    let mut text = Vec::new(alloc);
    print_rule(signature, rule, &mut text)?;
    found.bytes(&text);
    if let Formula::Forall(_, _, body) = &rule.formula {
        find_body(alloc, body, found)?;
    }
    Ok(())
}

fn find_body(alloc: Global, body: &Formula, found: &mut Found) -> Result<(), Fail> {
    let free = body.free_vars(alloc)?;
    found.number(free.len() as u64);
    let copy = body.duplicate(alloc)?;
    found.holds(copy.is_past());
    Ok(())
}

#[test]
fn traces(rt: HostRuntime) {
    let alloc = rt.alloc();
    let mut trace = Trace::new(alloc);
    let events = EventSet::new(alloc);
    let pushed = trace.push(Step { time: 4, events });
    assert!(rt; pushed.is_ok());
}

#[test]
fn generated_logs(rt: HostRuntime) -> Result<(), Fail> {
    let mut text = Vec::new(rt.alloc());
    generate(rt.alloc(), 1, 2, &mut text)?;
    let wanted =
        b"@6 delete(\"u11\") consent(\"u11\");\n@8 use(\"u6\") lock(\"u15\") lock(\"u12\");\n";
    assert_eq!(rt; text.as_slice(), wanted.as_slice());
    Ok(())
}
