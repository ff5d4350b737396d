//! The examples, and a generated log: these are the bytes of the files in examples/ and tests/generated/.
use super::calm::{SIGNATURE, checked, enforced};
use enf_run::refusals::Status;
use std::test::Fail;

const DATA_SIGNATURE: &[u8] = b"consent(text);
revoke(text);
request(text);
breach(text);
answer(text);
use(text) -;
delete(text) +;
notice(text) +;
reminder(text) +;
";

const DATA_POLICY: &[u8] = b"\
# A person's data is used with consent alone, which a withdrawal or a deletion ends.
rule consent: forall person. use(person) -> (not (revoke(person) or delete(person))) since[0,*] consent(person);
# A request is answered by a deletion within 30 days, and until then the data is not used.
rule erase: forall person. request(person) -> (not use(person)) until[0,30] delete(person);
# Who is concerned by a breach has notice of it within 3 days.
rule tell: forall person. breach(person) -> eventually[0,3] notice(person);
# A notice that has no answer within a week is followed by a reminder.
rule remind: forall person. notice(person) -> eventually[1,7] (reminder(person) or answer(person));
";

const DATA_LOG: &[u8] = b"@1 consent(\"ann\") consent(\"bob\");
@3 use(\"ann\") use(\"eve\");
@5 request(\"ann\");
@6 use(\"ann\") use(\"bob\");
@9 revoke(\"bob\");
@10 use(\"bob\") breach(\"bob\") breach(\"cat\");
@16 answer(\"bob\");
@40 use(\"ann\");
@41 consent(\"ann\");
@42 use(\"ann\");
";

const DATA_ENFORCED: &[u8] = b"@1 consent(\"ann\") consent(\"bob\");
@3 use(\"ann\");
@5 request(\"ann\");
@6 use(\"bob\");
@9 revoke(\"bob\");
@10 breach(\"bob\") breach(\"cat\");
+13 notice(\"bob\") notice(\"cat\");
@16 answer(\"bob\");
+20 reminder(\"cat\");
+35 delete(\"ann\");
@40;
@41 consent(\"ann\");
@42 use(\"ann\");
";

const DATA_REPORT: &[u8] = b"\
suppress use(\"eve\") at 3 step 1 rule consent node 0 leaf 1 origin 1
suppress use(\"ann\") at 6 step 3 rule erase node 1 leaf 2 origin 2 person=\"ann\"
suppress use(\"bob\") at 10 step 5 rule consent node 0 leaf 1 origin 5
cause notice(\"bob\") at 13 step 6 rule tell node 1 leaf 2 origin 5 person=\"bob\"
cause notice(\"cat\") at 13 step 6 rule tell node 1 leaf 2 origin 5 person=\"cat\"
cause reminder(\"cat\") at 20 step 8 rule remind node 1 leaf 3 origin 6 person=\"cat\"
cause delete(\"ann\") at 35 step 9 rule erase node 1 leaf 3 origin 2 person=\"ann\"
suppress use(\"ann\") at 40 step 10 rule consent node 0 leaf 1 origin 10
";

const DATA_CHECKED: &[u8] = b"\
rule consent: forall person. (use(person) -> ((not (revoke(person) or delete(person))) since[0,*] consent(person)));
rule erase: forall person. (request(person) -> ((not use(person)) until[0,30] delete(person)));
rule tell: forall person. (breach(person) -> (eventually[0,3] notice(person)));
rule remind: forall person. (notice(person) -> (eventually[1,7] (reminder(person) or answer(person))));
transparent yes
horizon 420
suppress use
cause delete
cause notice
cause reminder
";

const REMINDER_POLICY: &[u8] =
    b"# A notice is followed by another one within a week, and so on for ever.
rule remind: forall person. notice(person) -> eventually[1,7] notice(person);
";

const ACCESS_SIGNATURE: &[u8] = b"login(text);
ban(text);
lift(text);
approve(text,text);
enter(text,text) -;
logout(text) +;
";

const ACCESS_POLICY: &[u8] = b"# Who enters a door is logged in.
rule session: forall person, door. enter(person,door) -> (not logout(person)) since[0,*] login(person);
# Who is banned enters no door until the ban is lifted.
rule banned: forall person, door. enter(person,door) -> not ((not lift(person)) since[0,*] ban(person));
# The vault takes two persons: another one has approved it in the last 5 minutes.
rule two: forall person. enter(person,\"vault\")
    -> exists other. (once[0,5] approve(other,person)) and not other = person;
# A login ends after 30 minutes in which no door was entered.
rule idle: forall person. login(person) or (exists door. enter(person,door))
    -> eventually[1,30] (logout(person) or exists door. enter(person,door));
";

const ACCESS_LOG: &[u8] = b"@1 login(\"ada\") login(\"bob\");
@2 enter(\"ada\",\"lab\") enter(\"eve\",\"lab\");
@5 approve(\"ada\",\"ada\") enter(\"ada\",\"vault\");
@6 approve(\"bob\",\"ada\");
@8 enter(\"ada\",\"vault\");
@9 ban(\"bob\");
@10 enter(\"bob\",\"lab\");
@20 lift(\"bob\");
@21 enter(\"bob\",\"lab\");
@40 enter(\"ada\",\"lab\");
@60 login(\"ada\");
@61 enter(\"ada\",\"lab\") enter(\"bob\",\"lab\");
";

const ACCESS_ENFORCED: &[u8] = b"@1 login(\"ada\") login(\"bob\");
@2 enter(\"ada\",\"lab\");
@5 approve(\"ada\",\"ada\");
@6 approve(\"bob\",\"ada\");
@8 enter(\"ada\",\"vault\");
@9 ban(\"bob\");
@10;
@20 lift(\"bob\");
@21 enter(\"bob\",\"lab\");
+38 logout(\"ada\");
@40;
+51 logout(\"bob\");
@60 login(\"ada\");
@61 enter(\"ada\",\"lab\");
+91 logout(\"ada\");
";

const ACCESS_REPORT: &[u8] = b"\
suppress enter(\"eve\",\"lab\") at 2 step 1 rule session node 0 leaf 1 origin 1
suppress enter(\"ada\",\"vault\") at 5 step 2 rule two node 0 leaf 1 origin 2
suppress enter(\"bob\",\"lab\") at 10 step 6 rule banned node 0 leaf 1 origin 6
cause logout(\"ada\") at 38 step 9 rule idle node 1 leaf 3 origin 4 person=\"ada\"
suppress enter(\"ada\",\"lab\") at 40 step 10 rule session node 0 leaf 1 origin 10
cause logout(\"bob\") at 51 step 11 rule idle node 1 leaf 3 origin 8 person=\"bob\"
suppress enter(\"bob\",\"lab\") at 61 step 13 rule session node 0 leaf 1 origin 13
cause logout(\"ada\") at 91 step 14 rule idle node 1 leaf 3 origin 13 person=\"ada\"
";

const FALLING_LOG: &[u8] = b"@1 login(\"ada\");
@7 enter(\"ada\",\"lab\");
@5 login(\"bob\");
";

const FALLING_ENFORCED: &[u8] = b"@1 login(\"ada\");
@7 enter(\"ada\",\"lab\");
+37 logout(\"ada\");
";

const FALLING_REPORT: &[u8] = b"\
cause logout(\"ada\") at 37 step 2 rule idle node 1 leaf 3 origin 1 person=\"ada\"
record 3: time 5 is below 7
";

const SAFETY_SIGNATURE: &[u8] = b"open(text);
close(text);
stop(text);
fault(text);
acknowledge(text);
start(text) -;
alarm(text) +;
";

const SAFETY_POLICY: &[u8] = b"# A machine whose cover was opened is not started until it is closed.
rule interlock: forall machine. start(machine) -> not ((not close(machine)) since[0,*] open(machine));
# A fault raises the alarm after 5 seconds, unless it was acknowledged by then.
rule raise: forall machine. fault(machine) -> eventually[0,5] (alarm(machine) or acknowledge(machine));
# After a stop a machine rests for 10 seconds.
rule rest: forall machine. stop(machine) -> always[0,10] not start(machine);
";

const SAFETY_LOG: &[u8] = b"@1 start(\"press\");
@3 open(\"press\");
@4 start(\"press\");
@6 close(\"press\");
@7 start(\"press\");
@10 fault(\"saw\") fault(\"drill\");
@12 acknowledge(\"saw\");
@20 stop(\"press\");
@25 start(\"press\") start(\"saw\");
@31 start(\"press\");
@33 fault(\"press\");
";

const SAFETY_ENFORCED: &[u8] = b"@1 start(\"press\");
@3 open(\"press\");
@4;
@6 close(\"press\");
@7 start(\"press\");
@10 fault(\"saw\") fault(\"drill\");
@12 acknowledge(\"saw\");
+15 alarm(\"drill\");
@20 stop(\"press\");
@25 start(\"saw\");
@31 start(\"press\");
@33 fault(\"press\");
+38 alarm(\"press\");
";

const SAFETY_REPORT: &[u8] = b"\
suppress start(\"press\") at 4 step 2 rule interlock node 0 leaf 1 origin 2
cause alarm(\"drill\") at 15 step 7 rule raise node 1 leaf 3 origin 5 machine=\"drill\"
suppress start(\"press\") at 25 step 9 rule rest node 1 leaf 2 origin 8 machine=\"press\"
cause alarm(\"press\") at 38 step 12 rule raise node 1 leaf 3 origin 11 machine=\"press\"
";

const GENERATED_POLICY: &[u8] = b"rule raise: forall user. lock(user) -> alarm();
";

const GENERATED_LOG: &[u8] = b"@6 delete(\"u11\") consent(\"u11\");
@8 use(\"u6\") lock(\"u15\") lock(\"u12\");
@9 lock(\"u15\") use(\"u14\") consent(\"u2\");
@16 use(\"u6\") consent(\"u9\") use(\"u8\");
@20 lock(\"u6\");
@23 lock(\"u5\") consent(\"u8\") delete(\"u4\");
@28 use(\"u14\") request(\"u11\") use(\"u2\");
@29;
";

const GENERATED_ENFORCED: &[u8] = b"@6 delete(\"u11\") consent(\"u11\");
@8 use(\"u6\") lock(\"u15\") lock(\"u12\") alarm();
@9 lock(\"u15\") use(\"u14\") consent(\"u2\") alarm();
@16 use(\"u6\") consent(\"u9\") use(\"u8\");
@20 lock(\"u6\") alarm();
@23 lock(\"u5\") consent(\"u8\") delete(\"u4\") alarm();
@28 use(\"u14\") request(\"u11\") use(\"u2\");
@29;
";

const GENERATED_REPORT: &[u8] = b"\
cause alarm() at 8 step 1 rule raise node 0 leaf 1 origin 1
cause alarm() at 9 step 2 rule raise node 0 leaf 1 origin 2
cause alarm() at 20 step 4 rule raise node 0 leaf 1 origin 4
cause alarm() at 23 step 5 rule raise node 0 leaf 1 origin 5
";

#[test]
fn the_examples_are_enforced(rt: HostRuntime) -> Result<(), Fail> {
    let alloc = rt.alloc();
    for (name, signature, policy, log, output, report) in [
        (
            "data",
            DATA_SIGNATURE,
            DATA_POLICY,
            DATA_LOG,
            DATA_ENFORCED,
            DATA_REPORT,
        ),
        (
            "access",
            ACCESS_SIGNATURE,
            ACCESS_POLICY,
            ACCESS_LOG,
            ACCESS_ENFORCED,
            ACCESS_REPORT,
        ),
        (
            "safety",
            SAFETY_SIGNATURE,
            SAFETY_POLICY,
            SAFETY_LOG,
            SAFETY_ENFORCED,
            SAFETY_REPORT,
        ),
        (
            "generated",
            SIGNATURE,
            GENERATED_POLICY,
            GENERATED_LOG,
            GENERATED_ENFORCED,
            GENERATED_REPORT,
        ),
    ] {
        let outcome = enforced(alloc, signature, policy, log, Vec::new(alloc))?;
        outcome.assert_is(&rt, name, Status::Done, output, report);
    }
    Ok(())
}

#[test]
fn the_example_of_a_falling_time_is_refused(rt: HostRuntime) -> Result<(), Fail> {
    let pieces = Vec::new(rt.alloc());
    let outcome = enforced(
        rt.alloc(),
        ACCESS_SIGNATURE,
        ACCESS_POLICY,
        FALLING_LOG,
        pieces,
    )?;
    outcome.assert_is(
        &rt,
        "falling",
        Status::Record,
        FALLING_ENFORCED,
        FALLING_REPORT,
    );
    Ok(())
}

#[test]
fn the_examples_are_checked(rt: HostRuntime) -> Result<(), Fail> {
    let alloc = rt.alloc();
    for (name, policy, status, output, report) in [
        (
            "data",
            DATA_POLICY,
            Status::Done,
            DATA_CHECKED,
            b"".as_slice(),
        ),
        (
            "reminder",
            REMINDER_POLICY,
            Status::Files,
            b"",
            b"policy: cyclic notice\n",
        ),
    ] {
        let outcome = checked(alloc, DATA_SIGNATURE, policy)?;
        outcome.assert_is(&rt, name, status, output, report);
    }
    Ok(())
}
