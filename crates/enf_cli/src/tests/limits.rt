//! Texts of exactly the length or number that is allowed, and of one more.
use super::calm::{RAISE, SIGNATURE, enforced};
use enf_io::devices::NoMemory;
use enf_run::refusals::Status;
use std::alloc::Global;
use std::test::Fail;

const MOST_BYTES: usize = 1_048_576;

const LETTERS: &[u8; 26] = b"abcdefghijklmnopqrstuvwxyz";

#[test]
fn files_have_their_limit(rt: HostRuntime) -> Result<(), Fail> {
    let alloc = rt.alloc();
    let most = vec![in alloc; b'a'; MOST_BYTES]?;
    let more = vec![in alloc; b'a'; MOST_BYTES + 1]?;
    for (name, signature, policy, report) in [
        (
            "a signature of the limit",
            most.as_slice(),
            RAISE,
            b"signature: limit at 0\n".as_slice(),
        ),
        (
            "a longer signature",
            more.as_slice(),
            RAISE,
            b"signature: too long\n",
        ),
        (
            "a policy of the limit",
            SIGNATURE,
            most.as_slice(),
            b"policy: syntax at 0\n",
        ),
        (
            "a longer policy",
            SIGNATURE,
            more.as_slice(),
            b"policy: too long\n",
        ),
    ] {
        let outcome = enforced(alloc, signature, policy, b"", Vec::new(alloc))?;
        outcome.assert_is(&rt, name, Status::Files, b"", report);
    }
    Ok(())
}

// So many rules that all cause the alarm, with names of two letters.
fn rules(alloc: Global, count: usize) -> Result<Vec<u8>, NoMemory> {
    let mut policy = Vec::new(alloc);
    for place in 0..count {
        policy.extend_from_slice(b"rule ")?;
        policy.push(LETTERS[place / 26 % 26])?;
        policy.push(LETTERS[place % 26])?;
        policy.extend_from_slice(b": forall u. request(u) -> alarm();\n")?;
    }
    Ok(policy)
}

#[test]
fn a_policy_has_at_most_64_rules(rt: HostRuntime) -> Result<(), Fail> {
    let alloc = rt.alloc();
    let log = b"@1 request(\"a\");";
    let alarm = b"@1 request(\"a\") alarm();\n";
    let most = enforced(alloc, SIGNATURE, &rules(alloc, 64)?, log, Vec::new(alloc))?;
    let report = b"cause alarm() at 1 step 0 rule aa node 0 leaf 1 origin 0\n";
    most.assert_is(&rt, "64 rules", Status::Done, alarm, report);
    let more = enforced(alloc, SIGNATURE, &rules(alloc, 65)?, log, Vec::new(alloc))?;
    more.assert_is(
        &rt,
        "65 rules",
        Status::Files,
        b"",
        b"policy: limit at 2688\n",
    );
    Ok(())
}

// `@1`, so many blanks, `;`.
fn record_with_blanks(alloc: Global, count: usize) -> Result<Vec<u8>, NoMemory> {
    let mut log = Vec::from_slice(alloc, b"@1")?;
    log.extend_from_slice(&vec![in alloc; b' '; count]?)?;
    log.push(b';')?;
    Ok(log)
}

#[test]
fn a_record_has_its_limit(rt: HostRuntime) -> Result<(), Fail> {
    let alloc = rt.alloc();
    for (name, blanks, status, output, report) in [
        (
            "65,536 bytes",
            65_533,
            Status::Done,
            b"@1;\n".as_slice(),
            b"".as_slice(),
        ),
        (
            "65,537 bytes",
            65_534,
            Status::Record,
            b"",
            b"record 1: too long\n",
        ),
    ] {
        let log = record_with_blanks(alloc, blanks)?;
        let outcome = enforced(alloc, SIGNATURE, RAISE, &log, Vec::new(alloc))?;
        outcome.assert_is(&rt, name, status, output, report);
    }
    Ok(())
}
