//! Moments: a time at steps of the system, and after it the time at the step that is inserted there.
ghost use Rattle.std.specs.Prelude.{◌≡◌};
ghost use Rattle.pending.specs.machine.Moments as moments;

/// The number of a moment, as far as numbers go.
pub fn step_moment(inserted: bool, time: u64) -> u64
    ensures { result ≡ moments.step_moment inserted time }
{
    time.saturating_mul(2).saturating_add(u64::from(inserted))
}
