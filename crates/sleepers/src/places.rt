//! Places, and which of two comes first.
ghost use Rattle.std.specs.Prelude.{◌≡◌, ◌↔◌};
ghost use Rattle.std.specs.declared.cmp.Ordering.TheVariants.{Less};
ghost use Rattle.sleepers.specs.machine.Places.{IsPlaceBefore, beginning_cmp, place_cmp};

use enf_data::Items;
use std::cmp::Ordering;

/// A number that tells when something was begun, and which it is of those that were begun with it.
#[derive(Clone, Copy, Debug)]
pub struct Beginning {
    pub number: u64,
    pub among: u64,
}

/// The beginnings by which an entry came to be, each of which goes on from those in front of it.
pub type Place = Items<Beginning>;

impl Beginning {
    /// Which of two beginnings comes first.
    pub fn compare(self, other: Beginning) -> Ordering
        ensures { result ≡ beginning_cmp self other }
    {
        match self.number.cmp(&other.number) {
            Ordering::Equal => self.among.cmp(&other.among),
            apart => apart,
        }
    }
}

/// Which of two places comes first.
pub fn compare(place: &[Beginning], other: &[Beginning]) -> Ordering
    ensures order { result ≡ place_cmp place.now other.now }
    ensures before { (result ≡ Less) ↔ IsPlaceBefore place.now other.now }
{
    let Some((beginning, rest)) = place.split_first() else {
        return if other.is_empty() {
            Ordering::Equal
        } else {
            Ordering::Less
        };
    };
    let Some((other_beginning, others)) = other.split_first() else {
        return Ordering::Greater;
    };
    match beginning.compare(*other_beginning) {
        Ordering::Equal => compare(rest, others),
        apart => apart,
    }
}
