//! Intervals of differences of times.
ghost use Rattle.std.specs.Prelude.{◌↔◌, IsTrue};
ghost use Rattle.enf_data.specs.meaning.Membership.{IsIn};

/// The differences from `low` to `high`, both included; all from `low` on where there is no `high`.
#[derive(Clone, Copy, Debug, PartialEq, Eq)]
pub struct Interval {
    pub low: u64,
    pub high: Option<u64>,
}

impl Interval {
    /// Whether the difference is in the interval.
    pub fn has(&self, difference: u64) -> bool
        ensures { IsTrue result ↔ IsIn self.now difference }
    {
        self.low <= difference && self.high.is_none_or(|high| difference <= high)
    }
}
