//! The limits of policies, each once.

/// The greatest number of rules.
pub const MOST_RULES: usize = enf_data::MOST_RULES;

/// The greatest number of nodes of a rule.
pub const MOST_NODES: u32 = enf_data::MOST_NODES;

/// The greatest level of a token.
pub const MOST_LEVEL: u32 = 40;

/// The greatest number of variables in scope.
pub const MOST_VARIABLES: u32 = 16;

/// The greatest end of an interval.
pub const MOST_INTERVAL_END: u64 = enf_data::MOST_INTERVAL_END;
