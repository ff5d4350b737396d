//! Steps that are looked at.
use monitorable_guard::StepEvents;
use past_state::Tables;

// The step that is looked at: its time, its position in the trace, its events, and the tables of the guards' operators
// on the past.
#[derive(Drop)]
pub struct Present<'a> {
    pub time: u64,
    pub position: u64,
    pub events: &'a StepEvents<'a>,
    pub tables: &'a Tables,
}
