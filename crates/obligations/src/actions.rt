//! What is done at a step.
use crate::literals::LiteralKind;
use enf_data::Event;
use valuations::Valuation;

/// An event that is added or taken out at a step: the step's time and its position in the output, the leaf that wants
/// it, and the node for which it is done, with its rule, its origin and the values of the variables in scope there. The
/// root of a rule is node 0, begun at the step itself.
#[derive(Debug, Drop)]
pub struct Action {
    pub kind: LiteralKind,
    pub event: Event,
    pub time: u64,
    pub position: u64,
    pub rule: u32,
    pub node: u32,
    pub leaf: u32,
    pub origin: u64,
    pub valuation: Valuation,
}
