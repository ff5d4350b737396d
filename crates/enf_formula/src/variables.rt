//! The free variables of a formula.
ghost use Rattle.std.specs.Prelude.{◌≡◌, Contains, IfOk, OnOk};
ghost use Rattle.std.specs.List.Sorted.{IsStrictlySortedBy};
ghost use Rattle.enf_data.specs.meaning.Valuations.{variable_cmp};
ghost use Rattle.enf_data.specs.declared.terms.Term.TheVariants.{Var as Variable};
ghost use Rattle.enf_formula.specs.machine.FormulaViews.{tree_of};
ghost use Rattle.enf_formula.specs.machine.Variables.{AddsVariables};
ghost use Rattle.enf_formula.specs.meaning.Satisfaction.{AreFreeVariables, IsFree};

use crate::formulas::Formula;
use enf_data::memory::NoMemory;
use enf_data::terms::{Term, VarId, Vars};
use std::alloc::Global;
use std::collections::BTreeSet;

impl Formula {
    /// The free variables in rising order, each once.
    pub fn free_vars(&self, alloc: Global) -> Result<Vars, NoMemory>
        ensures { IfOk result (AreFreeVariables (tree_of self.now)) }
    {
        let mut found = BTreeSet::new(alloc);
        self.gather(alloc, &mut found)?;
        listed(alloc, &found)
    }

    // Adds the free variables.
    fn gather(&self, alloc: Global, found: &mut BTreeSet<VarId>) -> Result<(), NoMemory>
        ensures { OnOk result
            (AddsVariables (λ x. IsFree x (tree_of self.now)) found.old.keys found.new.keys) }
    {
        match self {
            Formula::True(_) | Formula::False(_) => Ok(()),
            Formula::Atom(_, _, terms) => add_all(terms.as_slice(), found),
            Formula::Equal(_, s, t) | Formula::Less(_, s, t) | Formula::AtMost(_, s, t) => {
                add_term(s, found)?;
                add_term(t, found)
            }
            Formula::Not(_, f)
            | Formula::Prev(_, _, f)
            | Formula::Next(_, _, f)
            | Formula::Once(_, _, f)
            | Formula::Historically(_, _, f)
            | Formula::Eventually(_, _, f)
            | Formula::Always(_, _, f) => f.gather(alloc, found),
            Formula::And(_, f, g)
            | Formula::Or(_, f, g)
            | Formula::Implies(_, f, g)
            | Formula::Since(_, _, f, g)
            | Formula::Until(_, _, f, g) => {
                f.gather(alloc, found)?;
                g.gather(alloc, found)
            }
            Formula::Exists(_, xs, f) | Formula::Forall(_, xs, f) => {
                let mut inner = BTreeSet::new(alloc);
                f.gather(alloc, &mut inner)?;
                let inner = listed(alloc, &inner)?;
                add_unbound(inner.as_slice(), xs.as_slice(), found)
            }
        }
    }
}

// The variables of a set in rising order.
fn listed(alloc: Global, found: &BTreeSet<VarId>) -> Result<Vars, NoMemory>
    ensures same { IfOk result (λ xs. xs ≡ found.now.keys) }
    ensures rising { IfOk result (IsStrictlySortedBy variable_cmp) }
{
    let xs = found.iter().copied().collect(alloc)?;
    Ok(Vars::from_vec(xs))
}

// Adds a variable.
fn add(x: VarId, found: &mut BTreeSet<VarId>) -> Result<(), NoMemory>
    ensures { OnOk result (AddsVariables (λ y. y ≡ x) found.old.keys found.new.keys) }
{
    let Ok(_) = found.insert(x) else {
        return Err(NoMemory);
    };
    Ok(())
}

// Adds a term that is a variable.
fn add_term(term: &Term, found: &mut BTreeSet<VarId>) -> Result<(), NoMemory>
    ensures { OnOk result
        (AddsVariables (λ y. term.now ≡ Variable y) found.old.keys found.new.keys) }
{
    match term {
        Term::Var(x) => add(*x, found),
        Term::Const(_) => Ok(()),
    }
}

// Adds the terms that are variables.
fn add_all(terms: &[Term], found: &mut BTreeSet<VarId>) -> Result<(), NoMemory>
    ensures { OnOk result
        (AddsVariables (λ y. Contains terms.now (Variable y)) found.old.keys found.new.keys) }
{
    for term in terms {
        add_term(term, found)?;
    }
    Ok(())
}

// Adds the variables that are not bound.
fn add_unbound(xs: &[VarId], bound: &[VarId], found: &mut BTreeSet<VarId>) -> Result<(), NoMemory>
    ensures { OnOk result
        (AddsVariables (λ y. Contains xs.now y × (Contains bound.now y → ⊥)) found.old.keys found.new.keys) }
{
    for x in xs {
        if bound.contains(x) {
            continue;
        }
        add(*x, found)?;
    }
    Ok(())
}
