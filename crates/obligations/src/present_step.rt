//! Steps that are being decided.
use crate::present_events::PresentEvents;
use enf_data::events::NameId;
use monitorable_guard::StepEvents;
use past_state::Tables;

/// The greatest time of a step that is decided.
pub const MOST_TIME: u64 = 4_000_000_000_000_000;

/// A step that is being decided: its time, its position in the output, its events, and the tables of the guards'
/// operators on the past. In order, and by the tables, the events may differ in those of names that no guard reads,
/// and of stale names: no guard that looks for such a name is asked.
#[derive(Drop)]
pub struct Now<'a> {
    pub time: u64,
    pub position: u64,
    pub events: &'a PresentEvents<'a>,
    pub ordered: &'a StepEvents<'a>,
    pub tables: &'a Tables,
    pub stale: &'a [NameId],
}
