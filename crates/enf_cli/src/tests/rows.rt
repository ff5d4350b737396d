//! Worked runs, with the bytes that they are to give.
use super::calm::{CONSENT, DELETED_AT_35, ERASE, RAISE, RAISED_AT_1, SIGNATURE, enforced};
use super::checking::{DATA_POLICY, DATA_SIGNATURE};
use enf_run::refusals::Status;
use std::test::Fail;

#[test]
fn raise_adds_the_alarm_once(rt: HostRuntime) -> Result<(), Fail> {
    let alloc = rt.alloc();
    for (name, log, want, report) in [
        ("empty", b"".as_slice(), b"".as_slice(), b"".as_slice()),
        (
            "raise",
            b"@1 request(\"a\");",
            b"@1 request(\"a\") alarm();\n",
            RAISED_AT_1,
        ),
        ("equal times", b"@1; @1; @2;", b"@1;\n@1;\n@2;\n", b""),
        ("blanks and ticks", b" \t>1;\r\n @ 1 ;>2; ", b"@1;\n", b""),
        (
            "already there",
            b"@1 request(\"a\") alarm();\n@2 alarm() request(\"b\");\n",
            b"@1 request(\"a\") alarm();\n@2 alarm() request(\"b\");\n",
            b"",
        ),
        (
            "two requests",
            b"@1 request(\"a\") request(\"b\");",
            b"@1 request(\"a\") request(\"b\") alarm();\n",
            RAISED_AT_1,
        ),
        (
            "a repeat",
            b"@3 request(\"a\") request(\"a\") delete(\"a\");",
            b"@3 request(\"a\") delete(\"a\") alarm();\n",
            b"cause alarm() at 3 step 0 rule raise node 0 leaf 1 origin 0\n",
        ),
        (
            "the least and the most",
            b"@007 request(\"\");@1000000000000000;",
            b"@7 request(\"\") alarm();\n@1000000000000000;\n",
            b"cause alarm() at 7 step 0 rule raise node 0 leaf 1 origin 0\n",
        ),
    ] {
        let outcome = enforced(alloc, SIGNATURE, RAISE, log, Vec::new(alloc))?;
        outcome.assert_is(&rt, name, Status::Done, want, report);
    }
    Ok(())
}

#[test]
fn rules_act_in_the_order_of_the_policy(rt: HostRuntime) -> Result<(), Fail> {
    let alloc = rt.alloc();
    let log = b"@1 lock(\"x\") request(\"a\");";
    for (name, policy, want, report) in [
        (
            "no rule",
            b"".as_slice(),
            b"@1 lock(\"x\") request(\"a\");\n".as_slice(),
            b"".as_slice(),
        ),
        (
            "the alarm first",
            b"rule a: forall u. request(u) -> alarm(); rule b: forall u. lock(u) -> ping();",
            b"@1 lock(\"x\") request(\"a\") alarm() ping();\n",
            b"cause alarm() at 1 step 0 rule a node 0 leaf 1 origin 0\n\
              cause ping() at 1 step 0 rule b node 0 leaf 1 origin 0\n",
        ),
        (
            "the ping first",
            b"rule b: forall u. lock(u) -> ping();\nrule a: forall u. request(u) -> alarm();",
            b"@1 lock(\"x\") request(\"a\") ping() alarm();\n",
            b"cause ping() at 1 step 0 rule b node 0 leaf 1 origin 0\n\
              cause alarm() at 1 step 0 rule a node 0 leaf 1 origin 0\n",
        ),
        (
            "written otherwise",
            b"# why\nrule a:forall every_one.((request(every_one))->(alarm( )));",
            b"@1 lock(\"x\") request(\"a\") alarm();\n",
            b"cause alarm() at 1 step 0 rule a node 0 leaf 1 origin 0\n",
        ),
    ] {
        let outcome = enforced(alloc, SIGNATURE, policy, log, Vec::new(alloc))?;
        outcome.assert_is(&rt, name, Status::Done, want, report);
    }
    Ok(())
}

const RAISED_AND_BARRED: &[u8] = b"cause alarm() at 1 step 0 rule raise node 0 leaf 1 origin 0
suppress use(\"x\") at 1 step 0 rule bar node 0 leaf 1 origin 0
";

#[test]
fn what_is_barred_goes(rt: HostRuntime) -> Result<(), Fail> {
    let alloc = rt.alloc();
    for (name, policy, log, want, report) in [
        (
            "consent missing",
            CONSENT,
            b"@1 use(\"a\");".as_slice(),
            b"@1;\n".as_slice(),
            b"suppress use(\"a\") at 1 step 0 rule consent node 0 leaf 1 origin 0\n".as_slice(),
        ),
        (
            "consent at the same step",
            CONSENT,
            b"@1 use(\"a\") consent(\"a\");",
            b"@1 use(\"a\") consent(\"a\");\n",
            b"",
        ),
        (
            "consent before, and another's",
            CONSENT,
            b"@1 consent(\"a\"); @9 use(\"a\") use(\"b\") note(\"a\");",
            b"@1 consent(\"a\");\n@9 use(\"a\") note(\"a\");\n",
            b"suppress use(\"b\") at 9 step 1 rule consent node 0 leaf 1 origin 1\n",
        ),
        (
            "equal times",
            CONSENT,
            b"@1; @1; @2;",
            b"@1;\n@1;\n@2;\n",
            b"",
        ),
        (
            "raise and bar",
            b"rule raise: forall u. request(u) -> alarm(); rule bar: alarm() -> not use(\"x\");",
            b"@1 request(\"a\") use(\"x\");",
            b"@1 request(\"a\") alarm();\n",
            RAISED_AND_BARRED,
        ),
        (
            "an earlier rule is woken",
            b"rule bar: alarm() -> not use(\"x\"); rule raise: forall u. request(u) -> alarm();",
            b"@1 request(\"a\") use(\"x\");",
            b"@1 request(\"a\") alarm();\n",
            RAISED_AND_BARRED,
        ),
    ] {
        let outcome = enforced(alloc, SIGNATURE, policy, log, Vec::new(alloc))?;
        outcome.assert_is(&rt, name, Status::Done, want, report);
    }
    Ok(())
}

const SOON: &[u8] = b"rule soon: forall u. request(u) -> next[0,10] delete(u);";

const HOLD: &[u8] = b"rule hold: forall u. lock(u) -> (not use(u)) until[0,10] unlock(u);";

const CHOICE: &[u8] =
    b"rule choice: forall u. request(u) -> (eventually[0,5] delete(u)) or once[0,*] consent(u);";

const EITHER: &[u8] =
    b"rule either: forall u. request(u) -> (eventually[0,5] unlock(u)) or delete(u);";

#[test]
fn what_is_owed_is_served_at_its_deadline(rt: HostRuntime) -> Result<(), Fail> {
    let alloc = rt.alloc();
    for (name, policy, log, want, report) in [
        (
            "a step behind it",
            ERASE,
            b"@5 request(\"a\"); @40;".as_slice(),
            b"@5 request(\"a\");\n+35 delete(\"a\");\n@40;\n".as_slice(),
            DELETED_AT_35,
        ),
        (
            "served in time",
            ERASE,
            b"@5 request(\"a\");\n@35;\n@35 delete(\"a\");\n@36;\n",
            b"@5 request(\"a\");\n@35;\n@35 delete(\"a\");\n@36;\n",
            b"",
        ),
        (
            "the end of the log",
            ERASE,
            b"@5 request(\"a\");",
            b"@5 request(\"a\");\n+35 delete(\"a\");\n",
            DELETED_AT_35,
        ),
        (
            "a tick behind it",
            ERASE,
            b"@5 request(\"a\"); >35; >36; @36;",
            b"@5 request(\"a\");\n+35 delete(\"a\");\n@36;\n",
            DELETED_AT_35,
        ),
        (
            "two at once",
            ERASE,
            b"@5 request(\"b\") request(\"a\"); @40;",
            b"@5 request(\"b\") request(\"a\");\n+35 delete(\"a\") delete(\"b\");\n@40;\n",
            b"cause delete(\"a\") at 35 step 1 rule erase node 1 leaf 2 origin 0 u=\"a\"\n\
              cause delete(\"b\") at 35 step 1 rule erase node 1 leaf 2 origin 0 u=\"b\"\n",
        ),
        (
            "two, one after the other",
            ERASE,
            b"@5 request(\"b\"); @6 request(\"a\"); @40;",
            b"@5 request(\"b\");\n@6 request(\"a\");\n+35 delete(\"b\");\n+36 delete(\"a\");\n@40;\n",
            b"cause delete(\"b\") at 35 step 2 rule erase node 1 leaf 2 origin 0 u=\"b\"\n\
              cause delete(\"a\") at 36 step 3 rule erase node 1 leaf 2 origin 1 u=\"a\"\n",
        ),
        (
            "nothing owed",
            ERASE,
            b"@1; @1; @2;",
            b"@1;\n@1;\n@2;\n",
            b"",
        ),
        (
            "served at once, and a repeat",
            ERASE,
            b"@3 request(\"a\") request(\"a\") delete(\"a\");",
            b"@3 request(\"a\") delete(\"a\");\n",
            b"",
        ),
        (
            "by the next step",
            SOON,
            b"@5 request(\"a\"); @15;",
            b"@5 request(\"a\");\n@15 delete(\"a\");\n",
            b"cause delete(\"a\") at 15 step 1 rule soon node 1 leaf 2 origin 0 u=\"a\"\n",
        ),
        (
            "a next step that is late",
            SOON,
            b"@5 request(\"a\"); @16;",
            b"@5 request(\"a\");\n+15 delete(\"a\");\n@16;\n",
            b"cause delete(\"a\") at 15 step 1 rule soon node 1 leaf 2 origin 0 u=\"a\"\n",
        ),
        (
            "barred until it is lifted",
            HOLD,
            b"@1 lock(\"a\"); @3 use(\"a\"); @20 use(\"a\");",
            b"@1 lock(\"a\");\n@3;\n+11 unlock(\"a\");\n@20 use(\"a\");\n",
            b"suppress use(\"a\") at 3 step 1 rule hold node 1 leaf 2 origin 0 u=\"a\"\n\
              cause unlock(\"a\") at 11 step 2 rule hold node 1 leaf 3 origin 0 u=\"a\"\n",
        ),
        (
            "consented, so nothing owed",
            CHOICE,
            b"@1 consent(\"a\");\n@2 request(\"a\");\n@9;\n",
            b"@1 consent(\"a\");\n@2 request(\"a\");\n@9;\n",
            b"",
        ),
        (
            "the other side holds already",
            EITHER,
            b"@1 request(\"a\") delete(\"a\");\n@9;\n",
            b"@1 request(\"a\") delete(\"a\");\n@9;\n",
            b"",
        ),
        (
            "not consented",
            CHOICE,
            b"@2 request(\"a\"); @9;",
            b"@2 request(\"a\");\n+7 delete(\"a\");\n@9;\n",
            b"cause delete(\"a\") at 7 step 1 rule choice node 2 leaf 3 origin 0 u=\"a\"\n",
        ),
    ] {
        let outcome = enforced(alloc, SIGNATURE, policy, log, Vec::new(alloc))?;
        outcome.assert_is(&rt, name, Status::Done, want, report);
    }
    Ok(())
}

const DATA_LOG: &[u8] = b"@1 consent(\"ann\") collect(\"ann\",\"mail\");
@2 use(\"ann\",\"mail\") use(\"bob\",\"mail\");
@3 share(\"ann\",\"acme\") request(\"bob\");
@4 lock(\"ann\") breach(250);
@6 use(\"ann\",\"mail\") revoke(\"ann\");
@9 notify(\"bob\",\"received\") share(\"ann\",\"terms\");
@20 use(\"ann\",\"mail\");
@40 login(\"ann\");
";

const DATA_ENFORCED: &[u8] = b"@1 consent(\"ann\") collect(\"ann\",\"mail\");
@2 use(\"ann\",\"mail\") notify(\"ann\",\"terms\");
@3 request(\"bob\");
@4 lock(\"ann\") breach(250) alarm();
@6 revoke(\"ann\");
+7 report(250);
+8 notify(\"bob\",\"received\");
@9 notify(\"bob\",\"received\") share(\"ann\",\"terms\");
+14 unlock(\"ann\");
@20;
+33 delete(\"bob\");
@40 login(\"ann\");
";

const DATA_REPORT: &[u8] = b"\
cause notify(\"ann\",\"terms\") at 2 step 1 rule welcome node 1 leaf 2 origin 0 u=\"ann\"
suppress use(\"bob\",\"mail\") at 2 step 1 rule consent node 0 leaf 1 origin 1
suppress share(\"ann\",\"acme\") at 3 step 2 rule share node 0 leaf 1 origin 2
cause alarm() at 4 step 3 rule breach node 0 leaf 1 origin 3
suppress use(\"ann\",\"mail\") at 6 step 4 rule hold node 1 leaf 3 origin 3 u=\"ann\"
cause report(250) at 7 step 5 rule authority node 1 leaf 2 origin 3 n=250
cause notify(\"bob\",\"received\") at 8 step 6 rule answer node 2 leaf 3 origin 2 u=\"bob\"
cause unlock(\"ann\") at 14 step 8 rule hold node 1 leaf 4 origin 3 u=\"ann\"
suppress use(\"ann\",\"mail\") at 20 step 9 rule consent node 0 leaf 1 origin 9
cause delete(\"bob\") at 33 step 10 rule erase node 1 leaf 2 origin 2 u=\"bob\"
";

#[test]
fn twelve_rules_work_together(rt: HostRuntime) -> Result<(), Fail> {
    let pieces = Vec::new(rt.alloc());
    let outcome = enforced(rt.alloc(), DATA_SIGNATURE, DATA_POLICY, DATA_LOG, pieces)?;
    outcome.assert_is(
        &rt,
        "twelve rules",
        Status::Done,
        DATA_ENFORCED,
        DATA_REPORT,
    );
    Ok(())
}

#[test]
fn a_guard_may_have_a_column_of_numbers(rt: HostRuntime) -> Result<(), Fail> {
    let alloc = rt.alloc();
    let signature = b"request(int); alarm() +;";
    let outcome = enforced(alloc, signature, RAISE, b"@1 request(5);", Vec::new(alloc))?;
    let want = b"@1 request(5) alarm();\n";
    outcome.assert_is(&rt, "numbers", Status::Done, want, RAISED_AT_1);
    Ok(())
}

#[test]
fn a_refused_file_leaves_the_gate_alone(rt: HostRuntime) -> Result<(), Fail> {
    let alloc = rt.alloc();
    for (signature, policy, report) in [
        (
            b"request(text) alarm();".as_slice(),
            RAISE,
            b"signature: syntax at 14\n".as_slice(),
        ),
        (
            b"request(text); request(int);",
            RAISE,
            b"signature: repeated request at 15\n",
        ),
        (
            b"a(int,int,int,int,int,int,int,int,int);",
            RAISE,
            b"signature: limit at 34\n",
        ),
        (SIGNATURE, b"rule r alarm();", b"policy: syntax at 7\n"),
        (
            SIGNATURE,
            b"rule r: forall u. foo(u) -> alarm();",
            b"policy: unknown name at 18\n",
        ),
        (SIGNATURE, b"rule r: alarm(1);", b"policy: arity at 8\n"),
        (
            SIGNATURE,
            b"rule r: request(5) -> alarm();",
            b"policy: sort at 16\n",
        ),
        (
            SIGNATURE,
            b"rule r: forall u. request(u) -> delete(v);",
            b"policy: free variable at 39\n",
        ),
        (
            SIGNATURE,
            b"rule r: forall u. exists u. request(u);",
            b"policy: rebound at 25\n",
        ),
        (
            b"request(text); alarm();",
            RAISE,
            b"policy: not enforceable at 22\n",
        ),
        (
            SIGNATURE,
            b"rule bar: alarm() -> not use(\"x\"); rule r: forall u. request(u) -> consent(u);",
            b"policy: not enforceable at 53\n",
        ),
    ] {
        let outcome = enforced(alloc, signature, policy, b"@1;", Vec::new(alloc))?;
        outcome.assert_is(&rt, "a refused file", Status::Files, b"", report);
    }
    Ok(())
}

#[test]
fn a_refused_record_keeps_those_before_it(rt: HostRuntime) -> Result<(), Fail> {
    let alloc = rt.alloc();
    for (name, log, output, report) in [
        (
            "a name",
            b"@1 foo();".as_slice(),
            b"".as_slice(),
            b"record 1: unknown name at 3\n".as_slice(),
        ),
        ("no event", b"@1 x y;", b"", b"record 1: bad at 5\n"),
        (
            "two arguments",
            b"@1 request(\"a\",\"b\");",
            b"",
            b"record 1: arity at 3\n",
        ),
        (
            "a number",
            b"@1 request(5);",
            b"",
            b"record 1: sort at 11\n",
        ),
        ("no end", b"@1 request(\"a\"", b"", b"record 1: truncated\n"),
        (
            "a late time",
            b"@1000000000000001;",
            b"",
            b"record 1: time too large\n",
        ),
        (
            "falling time",
            b"@9; @7;",
            b"@9;\n",
            b"record 2: time 7 is below 9\n",
        ),
        (
            "falling time, with something owed",
            b"@5 request(\"a\"); @2;",
            b"@5 request(\"a\");\n+35 delete(\"a\");\n",
            b"cause delete(\"a\") at 35 step 1 rule erase node 1 leaf 2 origin 0 u=\"a\"\n\
              record 2: time 2 is below 5\n",
        ),
        (
            "a tick",
            b"@1; >5; @3;",
            b"@1;\n",
            b"record 3: time 3 is below 5\n",
        ),
        (
            "in the middle",
            b"@1 request(\"a\"); @2 foo(); @3 request(\"b\");",
            b"@1 request(\"a\");\n+31 delete(\"a\");\n",
            b"cause delete(\"a\") at 31 step 1 rule erase node 1 leaf 2 origin 0 u=\"a\"\n\
              record 2: unknown name at 3\n",
        ),
    ] {
        let outcome = enforced(alloc, SIGNATURE, ERASE, log, Vec::new(alloc))?;
        outcome.assert_is(&rt, name, Status::Record, output, report);
    }
    Ok(())
}

#[test]
fn pieces_make_no_difference(rt: HostRuntime) -> Result<(), Fail> {
    let alloc = rt.alloc();
    let log = b"@1 request(\"a\");\n";
    let pieces = vec![in alloc; 1; log.len()]?;
    let outcome = enforced(alloc, SIGNATURE, RAISE, log, pieces)?;
    outcome.assert_is(
        &rt,
        "pieces",
        Status::Done,
        b"@1 request(\"a\") alarm();\n",
        RAISED_AT_1,
    );
    Ok(())
}

#[test]
fn a_log_that_obeys_a_transparent_policy_passes_unchanged(rt: HostRuntime) -> Result<(), Fail> {
    let alloc = rt.alloc();
    let signature = b"request(text); unlock(text) +; delete(text) +;";
    let policy = b"rule either: forall u. request(u) -> (eventually[0,5] unlock(u)) or delete(u);";
    for (name, log) in [
        (
            "a side that holds now",
            b"@1 request(\"a\") delete(\"a\");\n@9;\n".as_slice(),
        ),
        (
            "a side that holds in time",
            b"@1 request(\"a\");\n@6 unlock(\"a\");\n@9;\n",
        ),
    ] {
        let outcome = enforced(alloc, signature, policy, log, Vec::new(alloc))?;
        outcome.assert_is(&rt, name, Status::Done, log, b"");
    }
    Ok(())
}
