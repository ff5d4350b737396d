//! What stands in the place of variables.
ghost use Rattle.std.specs.Prelude.{◌≡◌, IfOk, map};
ghost use Rattle.std.specs.Option.{option_copied, unwrap_or};
ghost use Rattle.enf_data.specs.declared.terms.Term.TheVariants.{Var as Variable};
ghost use Rattle.count_guard.specs.machine.StoredCopies.{substitution_of, last_term};
ghost use Rattle.count_guard.specs.meaning.FormulaCopies.{term_given};

use enf_data::items::Duplicate;
use enf_data::memory::NoMemory;
use enf_data::terms::{Term, Terms, VarId};
use std::alloc::Global;

/// The term in the place of each variable. One that is made over another takes no memory, and leaves the other as it
/// is.
#[derive(Drop)]
pub enum Given<'a> {
    /// Each variable's is itself.
    Own,
    /// Another's, with these terms in the places of these variables.
    With(&'a Given<'a>, &'a [VarId], &'a [Term]),
}

impl Given<'_> {
    /// The term in the place of a variable, where it is not the variable itself.
    pub fn get(&self, variable: VarId) -> Option<&Term>
        ensures { unwrap_or (option_copied result) (Variable variable) ≡ substitution_of self.now variable }
    {
        match self {
            Given::Own => None,
            Given::With(outer, xs, terms) => match last_in(xs, terms, variable) {
                Some(term) => Some(term),
                None => outer.get(variable),
            },
        }
    }

    /// What stands in the place of a term.
    pub fn term(&self, alloc: Global, term: &Term) -> Result<Term, NoMemory>
        ensures { IfOk result (λ copy. copy ≡ term_given (substitution_of self.now) term.now) }
    {
        match term {
            Term::Var(variable) => match self.get(*variable) {
                Some(given) => given.duplicate(alloc),
                None => Ok(Term::Var(*variable)),
            },
            Term::Const(value) => Ok(Term::Const(value.duplicate(alloc)?)),
        }
    }

    /// What stands in the places of terms.
    pub fn terms(&self, alloc: Global, terms: &[Term]) -> Result<Terms, NoMemory>
        ensures { IfOk result (λ copy. copy ≡ map (term_given (substitution_of self.now)) terms.now) }
    {
        let mut copies = Vec::with_capacity(alloc, terms.len())?;
        for term in terms {
            copies.push(self.term(alloc, term)?)?;
        }
        Ok(Terms::from_vec(copies))
    }

    /// What stands in the places of two terms.
    pub fn pair(&self, alloc: Global, left: &Term, right: &Term) -> Result<(Term, Term), NoMemory>
        ensures left { IfOk result (λ sides. sides.0 ≡ term_given (substitution_of self.now) left.now) }
        ensures right { IfOk result (λ sides. sides.1 ≡ term_given (substitution_of self.now) right.now) }
    {
        let left = self.term(alloc, left)?;
        let right = self.term(alloc, right)?;
        Ok((left, right))
    }
}

// The last term that stands in the place of the variable.
fn last_in<'a>(xs: &[VarId], terms: &'a [Term], variable: VarId) -> Option<&'a Term>
    ensures { option_copied result ≡ last_term xs.now terms.now variable None }
{
    let mut found = None;
    for (x, term) in xs.iter().zip(terms) {
        if *x == variable {
            found = Some(term);
        }
    }
    found
}
