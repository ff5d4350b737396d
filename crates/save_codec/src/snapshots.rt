//! What is kept of a run that has stopped.
use obligations::Instances;
use past_state::KeptRows;

/// A state between two steps: the clock, the time of the last step where there was one, the position of the next step,
/// what the windows and slots keep, and what is pending.
#[derive(Debug, Drop)]
pub struct Snapshot {
    pub clock: u64,
    pub last: Option<u64>,
    pub position: u64,
    pub kept: KeptRows,
    pub pending: Instances,
}
