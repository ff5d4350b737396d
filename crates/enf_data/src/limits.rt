//! The limits of texts and of policies, each once.

/// The greatest number of bytes of a signature, and of a policy.
pub const MOST_FILE_BYTES: usize = 1_048_576;

/// The greatest number of bytes of a name.
pub const MOST_NAME_BYTES: usize = 64;

/// The greatest number of names of a signature.
pub const MOST_NAMES: u32 = 256;

/// The greatest number of columns of a name.
pub const MOST_COLUMNS: usize = 8;

/// The greatest number of bytes of a text.
pub const MOST_TEXT_BYTES: usize = 1024;

/// The greatest number of rules of a policy.
pub const MOST_RULES: usize = 64;

/// The greatest number of nodes of a rule.
pub const MOST_NODES: u32 = 400;

/// The greatest end of an interval, in units of time.
pub const MOST_INTERVAL_END: u64 = 1_000_000_000;
