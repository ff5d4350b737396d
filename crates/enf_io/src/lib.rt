//! The devices of the program: a gate for the log and its answer, files by name, and a sink for the report.
//! Each is a trait over what is seen of it: what it tells of its bytes, and its counts of faults. The calm forms
//! over memory never fail, and the others over memory fail in set turns; both tell all. The adapters over std's
//! readers, writers and files tell only their counts. It stands on std alone.
#![tactic(auto)]

pub mod adapters;
pub mod calm_files;
pub mod calm_gate;
pub mod calm_sink;
pub mod devices;
mod kept_files;
pub mod mem_files;
pub mod mem_gate;
pub mod mem_sink;
pub mod outside;
pub mod turns;
pub mod writing;
