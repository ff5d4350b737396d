//! Syntax trees of policies: names and variables are texts, and each node has its place.
use enf_data::{Interval, Items, Place, TextValue, Value};

/// A variable or a value, with the place of its token.
#[derive(Debug, Drop)]
pub enum SyntaxTerm {
    Variable(Place, TextValue),
    Constant(Place, Value),
}

/// A list of terms.
pub type SyntaxTerms = Items<SyntaxTerm>;

/// A variable of a quantifier, with the place of its token.
#[derive(Debug, Drop)]
pub struct Binding {
    pub place: Place,
    pub name: TextValue,
}

/// A list of variables.
pub type Bindings = Items<Binding>;

/// A formula. Each node has the place of its principal token: its operator, quantifier, comparison sign, event
/// name, `true` or `false`. One quantifier word with its variables is one node.
#[derive(Debug, Drop)]
pub enum SyntaxFormula {
    True(Place),
    False(Place),
    Atom(Place, TextValue, SyntaxTerms),
    Equal(Place, SyntaxTerm, SyntaxTerm),
    Less(Place, SyntaxTerm, SyntaxTerm),
    AtMost(Place, SyntaxTerm, SyntaxTerm),
    Not(Place, Box<SyntaxFormula>),
    And(Place, Box<SyntaxFormula>, Box<SyntaxFormula>),
    Or(Place, Box<SyntaxFormula>, Box<SyntaxFormula>),
    Implies(Place, Box<SyntaxFormula>, Box<SyntaxFormula>),
    Exists(Place, Bindings, Box<SyntaxFormula>),
    Forall(Place, Bindings, Box<SyntaxFormula>),
    Prev(Place, Interval, Box<SyntaxFormula>),
    Next(Place, Interval, Box<SyntaxFormula>),
    Once(Place, Interval, Box<SyntaxFormula>),
    Historically(Place, Interval, Box<SyntaxFormula>),
    Since(Place, Interval, Box<SyntaxFormula>, Box<SyntaxFormula>),
    Eventually(Place, Interval, Box<SyntaxFormula>),
    Always(Place, Interval, Box<SyntaxFormula>),
    Until(Place, Interval, Box<SyntaxFormula>, Box<SyntaxFormula>),
}

/// A rule, with the place of its word `rule`.
#[derive(Debug, Drop)]
pub struct SyntaxRule {
    pub place: Place,
    pub name: TextValue,
    pub formula: SyntaxFormula,
}

/// A list of rules.
pub type SyntaxRules = Items<SyntaxRule>;

/// A policy.
#[derive(Debug, Drop)]
pub struct SyntaxPolicy {
    pub rules: SyntaxRules,
}
