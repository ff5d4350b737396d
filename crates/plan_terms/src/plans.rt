//! Trees of plans.
use enf_data::events::NameId;
use enf_data::places::Place;
use enf_data::terms::{Terms, Vars};
use enf_formula::Formula;

/// How a formula is made true: by causing and suppressing events, now or within an interval of times. Each node has
/// its number in the plan, and where it has one the place of the formula's principal token. A test and a guard have
/// their number over the policy. Intervals are of differences of times, both ends included; that of `Next` begins at 0.
#[derive(Debug, Drop)]
pub enum Plan {
    Cause {
        node: u32,
        place: Place,
        name: NameId,
        terms: Terms,
    },
    Suppress {
        node: u32,
        place: Place,
        name: NameId,
        terms: Terms,
    },
    Both {
        node: u32,
        left: Box<Plan>,
        right: Box<Plan>,
    },
    Either {
        node: u32,
        left: Box<Plan>,
        right: Box<Plan>,
    },
    TestOr {
        node: u32,
        guard: u32,
        test: Box<Formula>,
        body: Box<Plan>,
    },
    Guarded {
        node: u32,
        vars: Vars,
        guard: u32,
        test: Box<Formula>,
        body: Box<Plan>,
    },
    Eventually {
        node: u32,
        place: Place,
        low: u64,
        high: u64,
        body: Box<Plan>,
    },
    Always {
        node: u32,
        place: Place,
        low: u64,
        high: u64,
        body: Box<Plan>,
    },
    Until {
        node: u32,
        place: Place,
        low: u64,
        high: u64,
        left: Box<Plan>,
        right: Box<Plan>,
    },
    Next {
        node: u32,
        place: Place,
        high: u64,
        body: Box<Plan>,
    },
}
