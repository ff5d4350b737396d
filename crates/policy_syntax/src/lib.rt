//! The first pass of the policy reader: from the text of a policy to a syntax tree with places. Names are not yet
//! looked up. It stands on enf_value, which has the tokens.
#![tactic(auto)]

mod cursor;
pub mod laws;
mod lexemes;
mod limits;
mod parts;
mod reader;
pub mod refusals;
pub mod trees;
pub mod worked_cases;

pub use lexemes::{Infix, Prefix, Quantifier, Sign};
pub use limits::{MOST_INTERVAL_END, MOST_LEVEL, MOST_NODES, MOST_RULES, MOST_VARIABLES};
pub use reader::read_syntax;
pub use refusals::SyntaxRefusal;
pub use trees::{
    Binding, Bindings, SyntaxFormula, SyntaxPolicy, SyntaxRule, SyntaxRules, SyntaxTerm,
    SyntaxTerms,
};
