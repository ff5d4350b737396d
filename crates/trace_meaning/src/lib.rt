//! What it means that a trace satisfies a policy, that what is emitted is a lawful change of what came in, and
//! that a trace can still be continued well: definitions, with worked cases and laws. It stands on the
//! satisfaction of `enf_formula`, and has the types of steps and traces.
#![tactic(auto)]

pub mod kinds;
pub mod laws;
pub mod traces;
pub mod worked_cases;

pub use enf_data::steps::Step;
pub use kinds::StepKind;
pub use traces::Trace;
