//! What a leaf of a plan misses.
use enf_data::Event;

/// An event is missing, or one is there that must not be.
#[derive(Clone, Copy, Debug, PartialEq, Eq)]
pub enum LiteralKind {
    Cause,
    Suppress,
}

/// An event that a leaf of a plan wants caused or suppressed, with the leaf's number.
#[derive(Debug, Drop)]
pub struct Literal {
    pub kind: LiteralKind,
    pub event: Event,
    pub leaf: u32,
}
