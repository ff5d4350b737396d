//! The variables of a rule, as far as the rule was read.
ghost use Rattle.std.specs.Prelude.{◌≡◌, ◌≢◌, ◌∷◌, ◌++◌, [], length, slice_get, None, Some};
ghost use Rattle.std.specs.Prelude.{IfErr, IfOk, OnOk};
ghost use Rattle.formula_reader.specs.machine.PointPasses.{IsFreshVariables, known_in, term_with, variable_with};
ghost use Rattle.formula_reader.specs.machine.PointPasses.{with_sort};
ghost use Rattle.formula_reader.specs.meaning.Resolution.{is_named, variable_numbered, syntax_term_place};
ghost use Rattle.formula_reader.specs.meaning.SortRefusals.{binder_refusal, sort_of_term};
ghost use Rattle.formula_reader.specs.declared.policies.PolicyRefusal.TheVariants.{FreeVariable as Free};
ghost use Rattle.formula_reader.specs.declared.policies.PolicyRefusal.TheVariants.{NoMemory as OutOfMemory};

use crate::policies::PolicyRefusal;
use enf_data::{Duplicate, NoMemory, Term, TextValue, Value, VarId};
use policy_syntax::{Binding, SyntaxTerm};
use signature::Sort;
use std::alloc::Global;

/// The variables that a rule has bound so far, at their numbers, and those of them that are in scope.
#[derive(Drop)]
pub struct Variables {
    pub names: Vec<TextValue>,
    pub sorts: Vec<Option<Sort>>,
    pub scope: Vec<VarId>,
}

impl Variables {
    /// No variables.
    pub fn new(alloc: Global) -> Variables
        ensures { IsFreshVariables result }
    {
        Variables {
            names: Vec::new(alloc),
            sorts: Vec::new(alloc),
            scope: Vec::new(alloc),
        }
    }

    /// The variable in scope with a name.
    pub fn find(&self, name: &TextValue) -> Option<VarId>
        ensures { result ≡ variable_with self.now name.now }
    {
        self.scope
            .iter()
            .copied()
            .find(|variable| self.has_name(*variable, name))
    }

    fn has_name(&self, variable: VarId, name: &TextValue) -> bool
        ensures { result ≡ is_named name.now (slice_get self.now.names.items variable.0) }
    {
        match self.names.get(variable.0 as usize) {
            Some(other) => other.bytes() == name.bytes(),
            None => false,
        }
    }

    /// What a term stands for.
    pub fn resolve(&self, alloc: Global, term: &SyntaxTerm) -> Result<Term, PolicyRefusal>
        ensures value { IfOk result (λ resolved. term_with self.now term.now ≡ Some resolved) }
        ensures free { IfErr result (λ refusal. refusal ≢ OutOfMemory → term_with self.now term.now ≡ None) }
        ensures refused { IfErr result (λ refusal. refusal ≢ OutOfMemory → refusal
            ≡ Free (syntax_term_place term.now)) }
    {
        match term {
            SyntaxTerm::Variable(place, name) => match self.find(name) {
                Some(variable) => Ok(Term::Var(variable)),
                None => Err(PolicyRefusal::FreeVariable { place: *place }),
            },
            SyntaxTerm::Constant(_, value) => Ok(Term::Const(value.duplicate(alloc)?)),
        }
    }

    /// The sort of a term, where it is known.
    pub fn sort_of(&self, term: &Term) -> Option<Sort>
        ensures { result ≡ sort_of_term (known_in self.now.sorts.items) (Some term.now) }
    {
        match term {
            Term::Var(variable) => self.sorts.get(variable.0 as usize).copied().flatten(),
            Term::Const(Value::Num(_)) => Some(Sort::Int),
            Term::Const(Value::Text(_)) => Some(Sort::Text),
        }
    }

    /// Gives a term a sort, where one is known and the term is a variable without one.
    pub fn give(&mut self, term: &Term, sort: Option<Sort>)
        ensures sorts { self.new.sorts.items ≡ with_sort self.old.sorts.items (Some term.now) sort }
        ensures names { self.new.names ≡ self.old.names }
        ensures scope { self.new.scope ≡ self.old.scope }
    {
        let (Term::Var(variable), Some(sort)) = (term, sort) else {
            return;
        };
        let number = variable.0 as usize;
        if let Some(None) = self.sorts.get(number) {
            self.sorts[number] = Some(sort);
        }
    }

    /// Binds a variable, which is in scope from then on.
    pub fn bind(&mut self, alloc: Global, binding: &Binding) -> Result<VarId, PolicyRefusal>
        ensures value { IfOk result (λ variable. variable ≡ variable_numbered (length self.old.names.items)) }
        ensures new { OnOk result (variable_with self.old binding.now.name ≡ None) }
        ensures names { OnOk result (self.new.names.items ≡ self.old.names.items ++ binding.now.name ∷ []) }
        ensures sorts { OnOk result (self.new.sorts.items ≡ self.old.sorts.items ++ None ∷ []) }
        ensures scope { OnOk result
            (self.new.scope.items ≡ self.old.scope.items ++ variable_numbered (length self.old.names.items) ∷ []) }
        ensures refused { IfErr result (λ refusal. refusal ≢ OutOfMemory
            → binder_refusal binding.now.place (variable_with self.old binding.now.name) ≡ Some refusal) }
    {
        if self.find(&binding.name).is_some() {
            return Err(PolicyRefusal::Rebound {
                place: binding.place,
            });
        }
        let variable = self.next()?;
        self.names.push(binding.name.duplicate(alloc)?)?;
        self.sorts.push(None)?;
        self.scope.push(variable)?;
        Ok(variable)
    }

    // The next variable's number. Names of 2^32 variables fit no memory.
    fn next(&self) -> Result<VarId, NoMemory>
        ensures { IfOk result (λ variable. variable ≡ variable_numbered (length self.now.names.items)) }
    {
        match u32::try_from(self.names.len()) {
            Ok(number) => Ok(VarId(number)),
            Err(_) => Err(NoMemory),
        }
    }
}
