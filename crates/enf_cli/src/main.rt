//! `enf` stands before a system's effects: it reads a signature, a policy and a log, and gives the
//! log with the events that the policy wants, so that no rule is violated. `enf_run::run` does all of it;
//! `main` makes the standard streams and the files and ends with the status that it answers.
#![tactic(auto)]

#[cfg(test)]
mod tests;

use enf_io::adapters::{StdFiles, StdGate, StdSink};
use enf_io::writing::write_all;
use enf_run::report_lines::report_ending;
use enf_run::run::run;
use enf_run::words::command_words;
use std::process::ExitCode;

fn main(rt: HostRuntime) -> ExitCode {
    let mut gate = StdGate::new(rt.alloc(), rt.stdin(), rt.stdout());
    let mut files = StdFiles::new(&rt);
    let mut report = StdSink::new(rt.stderr());
    let status = match command_words(&rt) {
        Ok(words) => run(rt.alloc(), &words, &mut gate, &mut files, &mut report),
        Err(ending) => report_ending(&ending, &mut report),
    };
    // What the report says last is proved; this says more of the fault.
    if gate.input_would_block() {
        let _told = write_all(
            &mut report,
            b"the log would block: enf reads a stream that waits\n",
        );
    }
    if gate.output_would_block() {
        let _told = write_all(
            &mut report,
            b"the output would block: enf writes to a stream that waits\n",
        );
    }
    ExitCode::from(status.code())
}
