//! Steps, as windows and slots keep them.

use valuations::Table;

/// A time, with the rows of the step at it.
#[derive(Debug, Drop)]
pub struct LastStep {
    pub time: u64,
    pub rows: Table,
}
