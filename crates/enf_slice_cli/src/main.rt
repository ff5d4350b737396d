//! `enf-slice` stands before enforcers that each have a slice of a log: it says whether a policy is sliced by a key,
//! and splits a log. `enf_slice::run` does all of it; `main` makes the standard streams and the files and ends with
//! the status that it answers.
#![tactic(auto)]

use enf_io::adapters::{StdFiles, StdGate, StdSink};
use enf_slice::run::run;
use std::env;
use std::process::ExitCode;

fn main(rt: HostRuntime) -> ExitCode {
    let mut gate = StdGate::new(rt.alloc(), rt.stdin(), rt.stdout());
    let mut files = StdFiles::new(&rt);
    let mut report = StdSink::new(rt.stderr());
    let mut words = Vec::new(rt.alloc());
    // A word that is not UTF-8 matches no form, as no words do not.
    if let Ok(all) = env::args(&rt) {
        for word in all.skip(1) {
            if words.push(word).is_err() {
                return ExitCode::from(6);
            }
        }
    }
    let status = run(rt.alloc(), &words, &mut gate, &mut files, &mut report);
    ExitCode::from(status.code())
}
