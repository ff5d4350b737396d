//! Trees of formulas.
use enf_data::events::NameId;
use enf_data::intervals::Interval;
use enf_data::places::Place;
use enf_data::terms::{Term, Terms, Vars};

/// A formula of metric first-order temporal logic. Each node has the place of its principal token.
#[derive(Debug, Drop)]
pub enum Formula {
    True(Place),
    False(Place),
    Atom(Place, NameId, Terms),
    Equal(Place, Term, Term),
    Less(Place, Term, Term),
    AtMost(Place, Term, Term),
    Not(Place, Box<Formula>),
    And(Place, Box<Formula>, Box<Formula>),
    Or(Place, Box<Formula>, Box<Formula>),
    Implies(Place, Box<Formula>, Box<Formula>),
    Exists(Place, Vars, Box<Formula>),
    Forall(Place, Vars, Box<Formula>),
    Prev(Place, Interval, Box<Formula>),
    Next(Place, Interval, Box<Formula>),
    Once(Place, Interval, Box<Formula>),
    Historically(Place, Interval, Box<Formula>),
    Since(Place, Interval, Box<Formula>, Box<Formula>),
    Eventually(Place, Interval, Box<Formula>),
    Always(Place, Interval, Box<Formula>),
    Until(Place, Interval, Box<Formula>, Box<Formula>),
}
