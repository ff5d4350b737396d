//! The sorts of a rule's variables, as far as its plan tells them.
ghost use Rattle.std.specs.Prelude.{◌↔◌, Contains, IsTrue, OnOk};
ghost use Rattle.enf_formula.specs.machine.FormulaViews.{tree_of};
ghost use Rattle.enf_data.specs.declared.terms.VarId.{VarId as Variable};
ghost use Rattle.plan_terms.specs.machine.StoredPlans.{plan_of};
ghost use Rattle.save_codec.specs.machine.KnownSorts.{HasBesides, Knows, Learns};
ghost use Rattle.save_codec.specs.meaning.ToldSorts.{AtomTells, FitTold, FitsTold, FormulaTells, PlanTells, SidesTell};
ghost use Rattle.save_codec.specs.meaning.ToldSorts.{TermTells, TermsTell};
ghost use Rattle.signature.specs.declared.entries.Sort.{Sort as AnySort};

use enf_data::{NameId, NoMemory, Term, Value, VarId};
use enf_formula::Formula;
use plan_terms::Plan;
use signature::{Signature, Sort};
use std::alloc::Global;

// The variables that are known to be of each sort.
#[derive(Drop)]
pub(crate) struct Known {
    pub ints: Vec<VarId>,
    pub texts: Vec<VarId>,
}

fn is_in(list: &[VarId], variable: VarId) -> bool
    ensures { IsTrue result ↔ Contains list.now variable }
{
    list.contains(&variable)
}

fn add(variable: VarId, list: &mut Vec<VarId>) -> Result<(), NoMemory>
    ensures { OnOk result (HasBesides variable list.old.items list.new.items) }
{
    if !is_in(list.as_slice(), variable) {
        list.push(variable)?;
    }
    Ok(())
}

impl Known {
    pub fn nothing(alloc: Global) -> Known
        ensures { (x : Variable) (sort : AnySort) → Knows result x sort → ⊥ }
    {
        Known {
            ints: Vec::new(alloc),
            texts: Vec::new(alloc),
        }
    }

    // Notes that a term is of a sort, where it is a variable.
    fn note(&mut self, term: &Term, sort: Sort) -> Result<(), NoMemory>
        ensures { OnOk result (Learns (TermTells term.now sort) self.old self.new) }
    {
        match (term, sort) {
            (Term::Var(variable), Sort::Int) => add(*variable, &mut self.ints),
            (Term::Var(variable), Sort::Text) => add(*variable, &mut self.texts),
            (Term::Const(_), _) => Ok(()),
        }
    }

    // Notes that both sides of a comparison are numbers.
    fn note_sides(&mut self, s: &Term, t: &Term) -> Result<(), NoMemory>
        ensures { OnOk result (Learns (SidesTell s.now t.now) self.old self.new) }
    {
        self.note(s, Sort::Int)?;
        self.note(t, Sort::Int)
    }

    // Notes the columns of terms.
    fn note_columns(&mut self, terms: &[Term], columns: &[Sort]) -> Result<(), NoMemory>
        ensures { OnOk result (Learns (TermsTell terms.now columns.now) self.old self.new) }
    {
        let Some((term, terms)) = terms.split_first() else {
            return Ok(());
        };
        let Some((column, columns)) = columns.split_first() else {
            return Ok(());
        };
        self.note(term, *column)?;
        self.note_columns(terms, columns)
    }

    fn note_atom(
        &mut self,
        signature: &Signature,
        name: NameId,
        terms: &[Term],
    ) -> Result<(), NoMemory>
        ensures { OnOk result (Learns (AtomTells signature.now name terms.now) self.old self.new) }
    {
        match signature.entry(name) {
            Some(entry) => self.note_columns(terms, entry.sorts.as_slice()),
            None => Ok(()),
        }
    }

    fn note_formula(&mut self, signature: &Signature, formula: &Formula) -> Result<(), NoMemory>
        ensures { OnOk result (Learns (FormulaTells signature.now (tree_of formula.now)) self.old self.new) }
    {
        match formula {
            Formula::True(_) | Formula::False(_) | Formula::Equal(_, _, _) => Ok(()),
            Formula::Atom(_, name, terms) => self.note_atom(signature, *name, terms.as_slice()),
            Formula::Less(_, s, t) | Formula::AtMost(_, s, t) => self.note_sides(s, t),
            Formula::Not(_, f)
            | Formula::Exists(_, _, f)
            | Formula::Forall(_, _, f)
            | Formula::Prev(_, _, f)
            | Formula::Next(_, _, f)
            | Formula::Once(_, _, f)
            | Formula::Historically(_, _, f)
            | Formula::Eventually(_, _, f)
            | Formula::Always(_, _, f) => self.note_formula(signature, f),
            Formula::And(_, f, g)
            | Formula::Or(_, f, g)
            | Formula::Implies(_, f, g)
            | Formula::Since(_, _, f, g)
            | Formula::Until(_, _, f, g) => {
                self.note_formula(signature, f)?;
                self.note_formula(signature, g)
            }
        }
    }

    // Notes what a plan tells.
    pub fn note_plan(&mut self, signature: &Signature, plan: &Plan) -> Result<(), NoMemory>
        ensures { OnOk result (Learns (PlanTells signature.now (plan_of plan.now)) self.old self.new) }
    {
        match plan {
            Plan::Cause { name, terms, .. } | Plan::Suppress { name, terms, .. } => {
                self.note_atom(signature, *name, terms.as_slice())
            }
            Plan::TestOr { test, body, .. } | Plan::Guarded { test, body, .. } => {
                self.note_formula(signature, test)?;
                self.note_plan(signature, body)
            }
            Plan::Eventually { body, .. } | Plan::Always { body, .. } | Plan::Next { body, .. } => {
                self.note_plan(signature, body)
            }
            Plan::Both { left, right, .. }
            | Plan::Either { left, right, .. }
            | Plan::Until { left, right, .. } => {
                self.note_plan(signature, left)?;
                self.note_plan(signature, right)
            }
        }
    }

    // Whether a value has each sort that is known of a variable.
    fn fits(&self, variable: VarId, value: &Value) -> bool
        ensures { IsTrue result ↔ FitsTold (Knows self.now) variable value.now }
    {
        match value {
            Value::Num(_) => !is_in(self.texts.as_slice(), variable),
            Value::Text(_) => !is_in(self.ints.as_slice(), variable),
        }
    }

    // Whether these are values for the variables, each of the sorts that are known.
    pub fn fit(&self, variables: &[VarId], values: &[Value]) -> bool
        ensures { IsTrue result ↔ FitTold (Knows self.now) variables.now values.now }
    {
        match (variables.split_first(), values.split_first()) {
            (None, None) => true,
            (Some((variable, variables)), Some((value, values))) => {
                self.fits(*variable, value) && self.fit(variables, values)
            }
            (None, Some(_)) | (Some(_), None) => false,
        }
    }
}
