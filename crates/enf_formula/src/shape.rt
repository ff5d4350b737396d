//! What can be read off a formula: its place, its size, whether it looks ahead, how it asks for events of a name.
ghost use Rattle.std.specs.Prelude.{◌≡◌, ◌↔◌, ◌<◌, ◌^◌, IsTrue};
ghost use Rattle.enf_formula.specs.machine.FormulaViews.{tree_of};
ghost use Rattle.enf_formula.specs.machine.FormulaShape.{is_past as looks_back, formula_size};
ghost use Rattle.enf_formula.specs.machine.Polarity.{AsksOnly};
ghost use Rattle.enf_formula.specs.meaning.Satisfaction.{formula_place};

use crate::formulas::Formula;
use enf_data::events::NameId;
use enf_data::places::Place;

impl Formula {
    /// The place of its principal token.
    pub fn place(&self) -> Place
        ensures { result ≡ formula_place (tree_of self.now) }
    {
        match self {
            Formula::True(place)
            | Formula::False(place)
            | Formula::Atom(place, _, _)
            | Formula::Equal(place, _, _)
            | Formula::Less(place, _, _)
            | Formula::AtMost(place, _, _)
            | Formula::Not(place, _)
            | Formula::And(place, _, _)
            | Formula::Or(place, _, _)
            | Formula::Implies(place, _, _)
            | Formula::Exists(place, _, _)
            | Formula::Forall(place, _, _)
            | Formula::Prev(place, _, _)
            | Formula::Next(place, _, _)
            | Formula::Once(place, _, _)
            | Formula::Historically(place, _, _)
            | Formula::Since(place, _, _, _)
            | Formula::Eventually(place, _, _)
            | Formula::Always(place, _, _)
            | Formula::Until(place, _, _, _) => *place,
        }
    }

    /// How many nodes it has.
    pub fn size(&self) -> u32
        requires { formula_size (tree_of self.now) < 2 ^ 32 }
        ensures { result ≡ formula_size (tree_of self.now) }
    {
        match self {
            Formula::True(_)
            | Formula::False(_)
            | Formula::Atom(_, _, _)
            | Formula::Equal(_, _, _)
            | Formula::Less(_, _, _)
            | Formula::AtMost(_, _, _) => 1,
            Formula::Not(_, f)
            | Formula::Exists(_, _, f)
            | Formula::Forall(_, _, f)
            | Formula::Prev(_, _, f)
            | Formula::Next(_, _, f)
            | Formula::Once(_, _, f)
            | Formula::Historically(_, _, f)
            | Formula::Eventually(_, _, f)
            | Formula::Always(_, _, f) => f.size() + 1,
            Formula::And(_, f, g)
            | Formula::Or(_, f, g)
            | Formula::Implies(_, f, g)
            | Formula::Since(_, _, f, g)
            | Formula::Until(_, _, f, g) => f.size() + g.size() + 1,
        }
    }

    /// Whether no `next`, `eventually`, `always` or `until` stands in it.
    pub fn is_past(&self) -> bool
        ensures { result ≡ looks_back (tree_of self.now) }
    {
        match self {
            Formula::True(_)
            | Formula::False(_)
            | Formula::Atom(_, _, _)
            | Formula::Equal(_, _, _)
            | Formula::Less(_, _, _)
            | Formula::AtMost(_, _, _) => true,
            Formula::Next(_, _, _)
            | Formula::Eventually(_, _, _)
            | Formula::Always(_, _, _)
            | Formula::Until(_, _, _, _) => false,
            Formula::Not(_, f)
            | Formula::Exists(_, _, f)
            | Formula::Forall(_, _, f)
            | Formula::Prev(_, _, f)
            | Formula::Once(_, _, f)
            | Formula::Historically(_, _, f) => f.is_past(),
            Formula::And(_, f, g)
            | Formula::Or(_, f, g)
            | Formula::Implies(_, f, g)
            | Formula::Since(_, _, f, g) => f.is_past() && g.is_past(),
        }
    }

    /// Whether it asks events of the name only to be there (`there`), or only to be away.
    pub fn asks_only(&self, there: bool, name: NameId) -> bool
        ensures { IsTrue result → AsksOnly there name (tree_of self.now) }
    {
        match self {
            Formula::True(_)
            | Formula::False(_)
            | Formula::Equal(_, _, _)
            | Formula::Less(_, _, _)
            | Formula::AtMost(_, _, _) => true,
            Formula::Atom(_, other, _) => there || other.0 != name.0,
            Formula::Not(_, f) => f.asks_only(!there, name),
            Formula::Exists(_, _, f)
            | Formula::Forall(_, _, f)
            | Formula::Prev(_, _, f)
            | Formula::Next(_, _, f)
            | Formula::Once(_, _, f)
            | Formula::Historically(_, _, f)
            | Formula::Eventually(_, _, f)
            | Formula::Always(_, _, f) => f.asks_only(there, name),
            Formula::And(_, f, g)
            | Formula::Or(_, f, g)
            | Formula::Since(_, _, f, g)
            | Formula::Until(_, _, f, g) => f.asks_only(there, name) && g.asks_only(there, name),
            Formula::Implies(_, f, g) => f.asks_only(!there, name) && g.asks_only(there, name),
        }
    }
}
