//! What is in the way of a cut.
ghost use Rattle.std.specs.Prelude.{◌≡◌};
ghost use Rattle.slices.specs.machine.FirstHindrances.{earlier_of};

use enf_data::places::Place;

/// Why a rule cannot be cut by a key.
#[derive(Clone, Copy, Debug, PartialEq, Eq)]
pub enum Why {
    /// At a rule: no variable of a `forall` at its top is the key of an event.
    NoKey,
    /// At an event: its key is not the key variable.
    OtherKey,
    /// At a quantifier: it binds the key variable again.
    Bound,
    /// At `prev` or `next`.
    Neighbour,
    /// At an operand of an operator: steps at which nothing of the key happens matter for it.
    Operand,
    /// At what a rule says of its variables: it may fail where nothing of the key happens.
    Rule,
}

/// A place of a policy, and why it is in the way; where several reasons stand at one place, it is one of these.
#[derive(Clone, Copy, Debug, PartialEq, Eq)]
pub struct Hindrance {
    pub place: Place,
    pub why: Why,
}

// The earlier one of two, where there are two.
pub fn earlier(one: Option<Hindrance>, other: Option<Hindrance>) -> Option<Hindrance>
    ensures { result ≡ earlier_of one other }
{
    match (one, other) {
        (None, other) => other,
        (one, None) => one,
        (Some(h), Some(g)) => { if h.place <= g.place { Some(h) } else { Some(g) } }
    }
}
