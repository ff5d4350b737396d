//! What an audit finds.

/// Whether a trace satisfies a policy, and else the least position at which it does not, with the first rule that does
/// not hold there. Positions and rules are counted from 0.
#[derive(Debug, Clone, Copy)]
pub enum Verdict {
    Holds,
    Fails { rule: u32, position: u64 },
}

// A rule at a position.
#[derive(Debug, Clone, Copy)]
pub struct RuleAt {
    pub rule: u32,
    pub position: u64,
}
