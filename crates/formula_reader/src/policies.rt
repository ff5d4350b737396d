//! Rules and policies, and why a text is none.
ghost use Rattle.std.specs.Prelude.{◌≡◌};
ghost use Rattle.formula_reader.specs.declared.policies.PolicyRefusal.TheVariants.{NoMemory as OutOfMemory};

use enf_data::{Items, NoMemory, Place, TextValue};
use enf_formula::Formula;
use policy_syntax::SyntaxRefusal;
use std::alloc::{AllocError, AllocFailed};

/// The name of each variable of a rule, at the variable's number.
pub type VarNames = Items<TextValue>;

/// A rule: its formula, with the place of its word `rule`.
#[derive(Debug, Drop)]
pub struct Rule {
    pub name: TextValue,
    pub formula: Formula,
    pub vars: VarNames,
    pub place: Place,
}

/// A list of rules.
pub type Rules = Items<Rule>;

/// A policy.
#[derive(Debug, Drop)]
pub struct Policy {
    pub rules: Rules,
}

/// Why a text is no policy under a signature.
#[derive(Clone, Copy, Debug, PartialEq, Eq)]
pub enum PolicyRefusal {
    /// At the first token, or the end, that cannot continue a policy.
    Syntax { place: Place },
    /// At an event name that the signature lacks.
    UnknownName { place: Place },
    /// At an event name with another number of terms.
    Arity { place: Place },
    /// At a term whose sort is not the one wanted.
    SortClash { place: Place },
    /// At a variable that is not in scope.
    FreeVariable { place: Place },
    /// At a variable of a quantifier that is already in scope.
    Rebound { place: Place },
    /// At the first token past a limit.
    Limit { place: Place },
    /// There was no memory.
    NoMemory,
}

impl From<NoMemory> for PolicyRefusal {
    ghost from_gives = { λ _ refusal. refusal ≡ OutOfMemory };

    fn from(_no_memory: NoMemory) -> PolicyRefusal {
        PolicyRefusal::NoMemory
    }
}

impl From<SyntaxRefusal> for PolicyRefusal {
    ghost use Rattle.formula_reader.specs.meaning.PolicyAnswers.{of_first_pass};

    ghost from_gives = { λ first refusal. refusal ≡ of_first_pass first };

    fn from(first: SyntaxRefusal) -> PolicyRefusal {
        match first {
            SyntaxRefusal::Syntax { place } => PolicyRefusal::Syntax { place },
            SyntaxRefusal::Limit { place } => PolicyRefusal::Limit { place },
            SyntaxRefusal::NoMemory => PolicyRefusal::NoMemory,
        }
    }
}

impl From<AllocError> for PolicyRefusal {
    ghost from_gives = { λ _ refusal. refusal ≡ OutOfMemory };

    fn from(_error: AllocError) -> PolicyRefusal {
        PolicyRefusal::NoMemory
    }
}

impl<T: Drop> From<AllocFailed<T>> for PolicyRefusal {
    ghost from_gives = { λ _ refusal. refusal ≡ OutOfMemory };

    fn from(_error: AllocFailed<T>) -> PolicyRefusal {
        PolicyRefusal::NoMemory
    }
}
