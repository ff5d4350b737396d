//! `run`: all that the program does, from the words, the files and the log to what is given and reported.
//! It stands on every crate below: `enforcer_core` decides steps, `log_stream` reads logs, `action_report` writes the
//! report, `save_codec` the states.
#![tactic(auto)]

mod audits;
mod checks;
mod drills;
pub mod endings;
mod files;
mod generated_log;
mod intake;
mod log_run;
pub mod refusals;
pub mod report_lines;
pub mod run;
mod saved_state;
mod step_lines;
pub mod two_run_laws;
pub mod words;
pub mod worked_cases;

pub use refusals::Status;
