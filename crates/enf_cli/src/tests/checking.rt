//! What `check` writes, and what is refused of policies by both commands.
use super::calm::{ERASE, Outcome, SIGNATURE, check_words, checked, enforced, files_of};
use enf_io::calm_sink::CalmSink;
use enf_io::devices::NoMemory;
use enf_io::mem_gate::MemGate;
use enf_io::turns::Turn;
use enf_run::refusals::Status;
use enf_run::run::run;
use std::alloc::Global;
use std::test::Fail;

const ERASE_CHECKED: &[u8] =
    b"rule erase: forall u. (request(u) -> (eventually[0,30] delete(u)));\n\
      transparent yes\nhorizon 210\ncause delete\n";

/// A signature for twelve rules on the data of persons.
pub const DATA_SIGNATURE: &[u8] =
    b"consent(text); revoke(text); request(text); collect(text,text);\n\
      use(text,text) -; share(text,text) -; delete(text) +; notify(text,text) +;\n\
      lock(text); unlock(text) +; breach(int); alarm() +; report(int) +; login(text);\n";

/// The twelve rules.
pub const DATA_POLICY: &[u8] =
    b"rule consent: forall u, p. use(u,p) -> (not revoke(u)) since[0,*] consent(u);
rule purpose: forall u, p. use(u,p) -> once[0,365] collect(u,p);
rule share: forall u, q. share(u,q) -> once[0,*] notify(u,q);
rule erase: forall u. request(u) -> eventually[0,30] delete(u);
rule erased: forall u, p. use(u,p) -> not once[0,*] delete(u);
rule welcome: forall u. consent(u) -> next[0,5] notify(u,\"terms\");
rule hold: forall u. lock(u) -> (forall p. not use(u,p)) until[0,10] unlock(u);
rule quiet: forall u. request(u) -> always[1,30] forall q. not share(u,q);
rule breach: forall n. breach(n) -> alarm();
rule authority: forall n. breach(n) and 100 < n -> eventually[0,3] report(n);
rule answer: forall u. request(u) -> (eventually[0,5] notify(u,\"received\")) or delete(u);
rule silence: forall u, q. share(u,q) -> not prev[0,1] share(u,q);
";

const DATA_CHECKED: &[u8] =
    b"rule consent: forall u, p. (use(u,p) -> ((not revoke(u)) since[0,*] consent(u)));
rule purpose: forall u, p. (use(u,p) -> (once[0,365] collect(u,p)));
rule share: forall u, q. (share(u,q) -> (once[0,*] notify(u,q)));
rule erase: forall u. (request(u) -> (eventually[0,30] delete(u)));
rule erased: forall u, p. (use(u,p) -> (not (once[0,*] delete(u))));
rule welcome: forall u. (consent(u) -> (next[0,5] notify(u,\"terms\")));
rule hold: forall u. (lock(u) -> ((forall p. (not use(u,p))) until[0,10] unlock(u)));
rule quiet: forall u. (request(u) -> (always[1,30] (forall q. (not share(u,q)))));
rule breach: forall n. (breach(n) -> alarm());
rule authority: forall n. ((breach(n) and (100 < n)) -> (eventually[0,3] report(n)));
rule answer: forall u. (request(u) -> ((eventually[0,5] notify(u,\"received\")) or delete(u)));
rule silence: forall u, q. (share(u,q) -> (not (prev[0,1] share(u,q))));
transparent yes
horizon 330
suppress use
suppress share
cause delete
cause notify
cause unlock
cause alarm
cause report
";

#[test]
fn policies_are_checked(rt: HostRuntime) -> Result<(), Fail> {
    let alloc = rt.alloc();
    for (name, signature, policy, output) in [
        (
            "no rule",
            SIGNATURE,
            b"".as_slice(),
            b"transparent yes\nhorizon 0\n".as_slice(),
        ),
        ("erase", SIGNATURE, ERASE, ERASE_CHECKED),
        (
            "two deadlines",
            SIGNATURE,
            b"rule two: forall u. request(u) -> (eventually[0,5] delete(u)) or eventually[0,5] unlock(u);",
            b"rule two: forall u. (request(u) -> ((eventually[0,5] delete(u)) or (eventually[0,5] unlock(u))));\n\
              transparent no\nhorizon 50\ncause delete\ncause unlock\n",
        ),
        (
            "barred",
            SIGNATURE,
            b"rule bar: alarm() -> not use(\"x\");",
            b"rule bar: alarm() -> (not use(\"x\"));\ntransparent yes\nhorizon 0\nsuppress use\n",
        ),
        ("twelve rules", DATA_SIGNATURE, DATA_POLICY, DATA_CHECKED),
    ] {
        let outcome = checked(alloc, signature, policy)?;
        outcome.assert_is(&rt, name, Status::Done, output, b"");
    }
    Ok(())
}

#[test]
fn a_refused_policy_has_one_line(rt: HostRuntime) -> Result<(), Fail> {
    let alloc = rt.alloc();
    for (policy, report) in [
        (
            b"rule a: ping() -> eventually[1,5] pong(); rule b: pong() -> eventually[1,5] ping();".as_slice(),
            b"policy: cyclic ping\n".as_slice(),
        ),
        (
            b"rule r: eventually[1,5] alarm();",
            b"policy: untriggered at 8\n",
        ),
        (b"rule r: forall x. x = x;", b"policy: unguarded at 8\n"),
        (
            b"rule a: forall u. request(u) -> note(u); rule b: forall u. lock(u) -> not note(u);",
            b"policy: role clash note\n",
        ),
        (
            b"rule r: forall u. request(u) -> consent(u);",
            b"policy: not enforceable at 18\n",
        ),
        (
            b"rule r: forall u. request(u) -> next[2,9] delete(u);",
            b"policy: not enforceable at 32\n",
        ),
        (
            b"rule r: forall u. request(u) -> delete(v);",
            b"policy: free variable at 39\n",
        ),
        (b"rule r: request(5) -> alarm();", b"policy: sort at 16\n"),
        (b"rule r alarm();", b"policy: syntax at 7\n"),
    ] {
        let by_check = checked(alloc, SIGNATURE, policy)?;
        by_check.assert_is(&rt, "by check", Status::Files, b"", report);
        let by_enforce = enforced(alloc, SIGNATURE, policy, b"@1;", Vec::new(alloc))?;
        by_enforce.assert_is(&rt, "by enforce", Status::Files, b"", report);
    }
    Ok(())
}

// Checks `erase` over a gate that takes what is given in these turns.
fn checked_in_turns(alloc: Global, writes: &[Turn]) -> Result<Outcome, NoMemory> {
    let words = check_words(alloc)?;
    let mut files = files_of(alloc, SIGNATURE, ERASE)?;
    let writes = Vec::from_slice(alloc, writes)?;
    let mut gate = MemGate::new(alloc, Vec::new(alloc), Vec::new(alloc), writes);
    let mut report = CalmSink::new(alloc);
    let status = run(alloc, &words, &mut gate, &mut files, &mut report);
    Ok(Outcome {
        status,
        output: Vec::from_slice(alloc, gate.given())?,
        report: Vec::from_slice(alloc, report.given())?,
    })
}

#[test]
fn a_write_fault_ends_a_check(rt: HostRuntime) -> Result<(), Fail> {
    let alloc = rt.alloc();
    for (name, writes, output) in [
        ("at once", [Turn::Fail].as_slice(), b"".as_slice()),
        (
            "within the mark",
            &[Turn::All, Turn::Take(4), Turn::Fail],
            &ERASE_CHECKED[..72],
        ),
    ] {
        let outcome = checked_in_turns(alloc, writes)?;
        outcome.assert_is(&rt, name, Status::WriteFault, output, b"");
    }
    Ok(())
}
