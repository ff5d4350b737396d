//! What `enf-slice` does: it says whether a policy can be enforced slice by slice, and splits a log into a stream for
//! each slice. It stands on log_split, which splits, on slices, which knows what policies are sliced, on formula_reader
//! and signature, which read policies and signatures, and on enf_io, which has the devices.
#![tactic(auto)]

mod endings;
pub mod refusals;
pub mod run;

pub use refusals::Status;
