//! The situation in which a step is decided.
use crate::rule_triggers::Wakes;
use past_state::PastState;
use pending::Pending;
use plan_terms::Plan;

// A step at which it is asked who misses something: the plans of the rules and what wakes them, what is pending, what
// is remembered of the steps before, its time and position, and whether it is inserted.
#[derive(Drop)]
pub struct Situation<'a> {
    pub plans: &'a [Plan],
    pub wakes: &'a Wakes,
    pub pending: &'a Pending,
    pub past: &'a PastState,
    pub time: u64,
    pub position: u64,
    pub inserted: bool,
}
