//! The second pass of the reader: from a syntax tree to the tree under a signature.
ghost use Rattle.std.specs.Prelude.{◌≡◌, ◌≢◌, ◌∷◌, ◌++◌, [], length, map, List, Result, None};
ghost use Rattle.std.specs.Prelude.{Some, IfErr, IfOk, OnErr, OnOk};
ghost use Rattle.policy_syntax.specs.machine.StoredTrees.{syntax_tree_of, policy_rule_of as syntax_rule_of};
ghost use Rattle.policy_syntax.specs.machine.StoredTrees.{policy_syntax_rules as syntax_rules_of};
ghost use Rattle.formula_reader.specs.machine.PointPasses.{BindsQuantified, PassesPoints, IsRefusedPass, body_in};
ghost use Rattle.formula_reader.specs.machine.PointPasses.{both_in, arguments_with, binders_with, formula_with};
ghost use Rattle.formula_reader.specs.machine.PointPasses.{pass_with, points_with, points_of_atom, points_of_both};
ghost use Rattle.formula_reader.specs.machine.PointPasses.{points_of_bound, points_of_equal, points_of_ordered};
ghost use Rattle.formula_reader.specs.machine.PointPasses.{term_with, terms_with, use_with};
ghost use Rattle.formula_reader.specs.meaning.Resolution.{ThisSort, entry_named, bound_names, binding_names};
ghost use Rattle.formula_reader.specs.meaning.Resolution.{bound_variables_from, name_in, rule_in, rules_in};
ghost use Rattle.formula_reader.specs.meaning.Resolution.{Rule as PureRule};
ghost use Rattle.formula_reader.specs.machine.StoredRules.{rule_of};
ghost use Rattle.formula_reader.specs.machine.CallAnswers.{CallGivesPolicy, GivesResolutionAnswer, policy_answer_of};
ghost use Rattle.formula_reader.specs.meaning.PolicyAnswers.{IsResolutionAnswer};
ghost use Rattle.formula_reader.specs.meaning.SortRefusals.{sort_clash, policy_refusal, rule_refusal};
ghost use Rattle.formula_reader.specs.declared.policies.PolicyRefusal.{PolicyRefusal as RefusalOfPolicy};
ghost use Rattle.formula_reader.specs.declared.policies.PolicyRefusal.TheVariants.{NoMemory as OutOfMemory};
ghost use Rattle.formula_reader.specs.declared.policies.PolicyRefusal.TheVariants.{UnknownName as Unknown};
ghost use Rattle.enf_formula.specs.machine.FormulaViews as tree;
ghost use Rattle.formula_reader.specs.meaning.Resolution as want;

use crate::policies::{Policy, PolicyRefusal, Rule, Rules, VarNames};
use crate::variables::Variables;
use enf_data::{Duplicate, NameId, Place, Term, TextValue, Vars};
use enf_formula::Formula;
use enf_value::Terms;
use policy_syntax::{Binding, SyntaxFormula, SyntaxPolicy, SyntaxRule, SyntaxTerm};
use signature::{NameEntry, Signature, Sort};
use std::alloc::Global;

// Resolves formulas under a signature.
#[derive(Clone, Copy)]
struct Resolver<'a> {
    alloc: Global,
    signature: &'a Signature,
}

// The refusal of a sort that is not the one wanted.
fn check_sort(place: Place, known: Option<Sort>, wanted: Option<Sort>) -> Result<(), PolicyRefusal>
    ensures ok { OnOk result (sort_clash place known wanted ≡ None) }
    ensures err { IfErr result (λ refusal. sort_clash place known wanted ≡ Some refusal) }
{
    match (known, wanted) {
        (Some(Sort::Int), Some(Sort::Text)) | (Some(Sort::Text), Some(Sort::Int)) => {
            Err(PolicyRefusal::SortClash { place })
        }
        _ => Ok(()),
    }
}

fn place_of(term: &SyntaxTerm) -> Place
    ensures { result ≡ want.syntax_term_place term.now }
{
    match term {
        SyntaxTerm::Variable(place, _) | SyntaxTerm::Constant(place, _) => *place,
    }
}

impl Resolver<'_> {
    // A term that is to have a sort.
    fn resolve_term(
        &self,
        variables: &mut Variables,
        term: &SyntaxTerm,
        sort: Sort,
    ) -> Result<Term, PolicyRefusal>
        ensures value { IfOk result (λ resolved. term_with variables.old term.now ≡ Some resolved) }
        ensures ok { OnOk result (PassesPoints self.now.signature.now variables.old variables.new
            (use_with variables.old term.now (ThisSort sort) ∷ []) []) }
        ensures err { IfErr result (λ refusal. IsRefusedPass refusal (pass_with self.now.signature.now variables.old
            (use_with variables.old term.now (ThisSort sort) ∷ []))) }
    {
        let resolved = variables.resolve(self.alloc, term)?;
        check_sort(place_of(term), variables.sort_of(&resolved), Some(sort))?;
        variables.give(&resolved, Some(sort));
        Ok(resolved)
    }

    // The sides of `<` or `<=`.
    fn resolve_ordered(
        &self,
        variables: &mut Variables,
        left: &SyntaxTerm,
        right: &SyntaxTerm,
    ) -> Result<(Term, Term), PolicyRefusal>
        ensures left { IfOk result (λ sides. term_with variables.old left.now ≡ Some sides.0) }
        ensures right { IfOk result (λ sides. term_with variables.old right.now ≡ Some sides.1) }
        ensures ok { OnOk result (PassesPoints self.now.signature.now variables.old variables.new
            (points_of_ordered variables.old left.now right.now) []) }
        ensures err { IfErr result (λ refusal. IsRefusedPass refusal (pass_with self.now.signature.now variables.old
            (points_of_ordered variables.old left.now right.now))) }
    {
        let left = self.resolve_term(variables, left, Sort::Int)?;
        let right = self.resolve_term(variables, right, Sort::Int)?;
        Ok((left, right))
    }

    // The sides of `=`: where the sort of one is known, the other gets it.
    fn resolve_equal(
        &self,
        variables: &mut Variables,
        left: &SyntaxTerm,
        right: &SyntaxTerm,
    ) -> Result<(Term, Term), PolicyRefusal>
        ensures left { IfOk result (λ sides. term_with variables.old left.now ≡ Some sides.0) }
        ensures right { IfOk result (λ sides. term_with variables.old right.now ≡ Some sides.1) }
        ensures ok { OnOk result (PassesPoints self.now.signature.now variables.old variables.new
            (points_of_equal variables.old left.now right.now) []) }
        ensures err { IfErr result (λ refusal. IsRefusedPass refusal (pass_with self.now.signature.now variables.old
            (points_of_equal variables.old left.now right.now))) }
    {
        let resolved_left = variables.resolve(self.alloc, left)?;
        let resolved_right = variables.resolve(self.alloc, right)?;
        let left_sort = variables.sort_of(&resolved_left);
        let right_sort = variables.sort_of(&resolved_right);
        check_sort(place_of(right), right_sort, left_sort)?;
        variables.give(&resolved_right, left_sort);
        variables.give(&resolved_left, right_sort);
        Ok((resolved_left, resolved_right))
    }

    // The arguments of an event whose columns have these sorts.
    fn resolve_arguments(
        &self,
        variables: &mut Variables,
        terms: &[SyntaxTerm],
        sorts: &[Sort],
    ) -> Result<Terms, PolicyRefusal>
        requires { length sorts.now ≡ length terms.now }
        ensures value { IfOk result (λ resolved. terms_with variables.old terms.now ≡ Some resolved) }
        ensures ok { OnOk result (PassesPoints self.now.signature.now variables.old variables.new
            (arguments_with variables.old sorts.now terms.now) []) }
        ensures err { IfErr result (λ refusal. IsRefusedPass refusal (pass_with self.now.signature.now variables.old
            (arguments_with variables.old sorts.now terms.now))) }
    {
        let mut resolved = Vec::with_capacity(self.alloc, terms.len())?;
        for (index, term) in terms.iter().enumerate() {
            resolved.push(self.resolve_term(variables, term, sorts[index])?)?;
        }
        Ok(Terms::from_vec(resolved))
    }

    // An event name with its terms.
    fn resolve_atom(
        &self,
        variables: &mut Variables,
        place: Place,
        name: &TextValue,
        terms: &[SyntaxTerm],
    ) -> Result<(NameId, Terms), PolicyRefusal>
        ensures name { IfOk result (λ atom. name_in self.now.signature.now name.now ≡ Some atom.0) }
        ensures terms { IfOk result (λ atom. terms_with variables.old terms.now ≡ Some atom.1) }
        ensures ok { OnOk result (PassesPoints self.now.signature.now variables.old variables.new
            (points_of_atom self.now.signature.now variables.old place name.now terms.now) []) }
        ensures err { IfErr result (λ refusal. IsRefusedPass refusal (pass_with self.now.signature.now variables.old
            (points_of_atom self.now.signature.now variables.old place name.now terms.now))) }
    {
        let (number, entry) = self.find_name(place, name)?;
        if entry.sorts.len() != terms.len() {
            return Err(PolicyRefusal::Arity { place });
        }
        let terms = self.resolve_arguments(variables, terms, entry.sorts.as_slice())?;
        Ok((number, terms))
    }

    // A name of the signature, with its entry.
    fn find_name(
        &self,
        place: Place,
        name: &TextValue,
    ) -> Result<(NameId, &NameEntry), PolicyRefusal>
        ensures number { IfOk result (λ found. name_in self.now.signature.now name.now ≡ Some found.0) }
        ensures entry { IfOk result (λ found. entry_named self.now.signature.now name.now ≡ Some found.1.now) }
        ensures err { IfErr result (λ refusal. refusal ≡ Unknown place) }
        ensures absent { OnErr result (entry_named self.now.signature.now name.now ≡ None) }
    {
        let Some(number) = self.signature.find(name.bytes()) else {
            return Err(PolicyRefusal::UnknownName { place });
        };
        match self.signature.entry(number) {
            Some(entry) => Ok((number, entry)),
            None => Err(PolicyRefusal::UnknownName { place }),
        }
    }

    // The variables of a quantifier, which are bound in turn.
    fn bind_all(
        &self,
        variables: &mut Variables,
        bindings: &[Binding],
    ) -> Result<Vars, PolicyRefusal>
        ensures value { IfOk result
            (λ bound. bound ≡ bound_variables_from (length variables.old.names.items) bindings.now) }
        ensures ok { OnOk result (BindsQuantified self.now.signature.now variables.old variables.new bindings.now) }
        ensures err { IfErr result (λ refusal. IsRefusedPass refusal (pass_with self.now.signature.now variables.old
            (binders_with variables.old bindings.now))) }
    {
        let mut bound = Vec::with_capacity(self.alloc, bindings.len())?;
        for binding in bindings {
            bound.push(variables.bind(self.alloc, binding)?)?;
        }
        Ok(Vars::from_vec(bound))
    }

    #[cycle(formulas)]
    fn resolve_formula(
        &self,
        variables: &mut Variables,
        formula: &SyntaxFormula,
    ) -> Result<Formula, PolicyRefusal>
        ensures value { IfOk result (λ resolved.
            formula_with self.now.signature.now variables.old (syntax_tree_of formula.now)
            ≡ Some (tree.tree_of resolved)) }
        ensures ok { OnOk result (PassesPoints self.now.signature.now variables.old variables.new
            (points_with self.now.signature.now variables.old (syntax_tree_of formula.now))
            (bound_names (syntax_tree_of formula.now))) }
        ensures err { IfErr result (λ refusal. IsRefusedPass refusal (pass_with self.now.signature.now variables.old
            (points_with self.now.signature.now variables.old (syntax_tree_of formula.now)))) }
    {
        match formula {
            SyntaxFormula::True(place) => Ok(Formula::True(*place)),
            SyntaxFormula::False(place) => Ok(Formula::False(*place)),
            SyntaxFormula::Atom(place, name, terms) => {
                let (name, terms) = self.resolve_atom(variables, *place, name, terms.as_slice())?;
                Ok(Formula::Atom(*place, name, terms))
            }
            SyntaxFormula::Equal(place, s, t) => {
                let (s, t) = self.resolve_equal(variables, s, t)?;
                Ok(Formula::Equal(*place, s, t))
            }
            SyntaxFormula::Less(place, s, t) => {
                let (s, t) = self.resolve_ordered(variables, s, t)?;
                Ok(Formula::Less(*place, s, t))
            }
            SyntaxFormula::AtMost(place, s, t) => {
                let (s, t) = self.resolve_ordered(variables, s, t)?;
                Ok(Formula::AtMost(*place, s, t))
            }
            SyntaxFormula::Not(place, f) => {
                let f = self.resolve_boxed(variables, f)?;
                Ok(Formula::Not(*place, f))
            }
            SyntaxFormula::And(place, f, g) => {
                let (f, g) = self.resolve_both(variables, f, g)?;
                Ok(Formula::And(*place, f, g))
            }
            SyntaxFormula::Or(place, f, g) => {
                let (f, g) = self.resolve_both(variables, f, g)?;
                Ok(Formula::Or(*place, f, g))
            }
            SyntaxFormula::Implies(place, f, g) => {
                let (f, g) = self.resolve_both(variables, f, g)?;
                Ok(Formula::Implies(*place, f, g))
            }
            SyntaxFormula::Exists(place, bindings, f) => {
                let (vars, f) = self.resolve_bound(variables, bindings.as_slice(), f)?;
                Ok(Formula::Exists(*place, vars, f))
            }
            SyntaxFormula::Forall(place, bindings, f) => {
                let (vars, f) = self.resolve_bound(variables, bindings.as_slice(), f)?;
                Ok(Formula::Forall(*place, vars, f))
            }
            SyntaxFormula::Prev(place, interval, f) => {
                let f = self.resolve_boxed(variables, f)?;
                Ok(Formula::Prev(*place, *interval, f))
            }
            SyntaxFormula::Next(place, interval, f) => {
                let f = self.resolve_boxed(variables, f)?;
                Ok(Formula::Next(*place, *interval, f))
            }
            SyntaxFormula::Once(place, interval, f) => {
                let f = self.resolve_boxed(variables, f)?;
                Ok(Formula::Once(*place, *interval, f))
            }
            SyntaxFormula::Historically(place, interval, f) => {
                let f = self.resolve_boxed(variables, f)?;
                Ok(Formula::Historically(*place, *interval, f))
            }
            SyntaxFormula::Since(place, interval, f, g) => {
                let (f, g) = self.resolve_both(variables, f, g)?;
                Ok(Formula::Since(*place, *interval, f, g))
            }
            SyntaxFormula::Eventually(place, interval, f) => {
                let f = self.resolve_boxed(variables, f)?;
                Ok(Formula::Eventually(*place, *interval, f))
            }
            SyntaxFormula::Always(place, interval, f) => {
                let f = self.resolve_boxed(variables, f)?;
                Ok(Formula::Always(*place, *interval, f))
            }
            SyntaxFormula::Until(place, interval, f, g) => {
                let (f, g) = self.resolve_both(variables, f, g)?;
                Ok(Formula::Until(*place, *interval, f, g))
            }
        }
    }

    #[cycle(formulas)]
    fn resolve_boxed(
        &self,
        variables: &mut Variables,
        formula: &SyntaxFormula,
    ) -> Result<Box<Formula>, PolicyRefusal>
        ensures value { IfOk result (λ resolved.
            formula_with self.now.signature.now variables.old (syntax_tree_of formula.now) ≡ Some
            (tree.tree_of resolved.value)) }
        ensures ok { OnOk result (PassesPoints self.now.signature.now variables.old variables.new
            (points_with self.now.signature.now variables.old (syntax_tree_of formula.now))
            (bound_names (syntax_tree_of formula.now))) }
        ensures err { IfErr result (λ refusal. IsRefusedPass refusal (pass_with self.now.signature.now variables.old
            (points_with self.now.signature.now variables.old (syntax_tree_of formula.now)))) }
    {
        let resolved = self.resolve_formula(variables, formula)?;
        Ok(Box::new(self.alloc, resolved)?)
    }

    // Two operands in turn.
    #[cycle(formulas)]
    #[tactic(auto, using(crate::proofs::PointsInTurn::both_operands))]
    fn resolve_both(
        &self,
        variables: &mut Variables,
        left: &SyntaxFormula,
        right: &SyntaxFormula,
    ) -> Result<(Box<Formula>, Box<Formula>), PolicyRefusal>
        ensures value { IfOk result (λ operands.
            both_in self.now.signature.now variables.old (syntax_tree_of left.now) (syntax_tree_of right.now)
            ≡ Some (tree.tree_of operands.0.value, tree.tree_of operands.1.value)) }
        ensures ok { OnOk result (PassesPoints self.now.signature.now variables.old variables.new
            (points_of_both self.now.signature.now variables.old (syntax_tree_of left.now) (syntax_tree_of right.now))
            (bound_names (syntax_tree_of left.now) ++ bound_names (syntax_tree_of right.now))) }
        ensures err { IfErr result (λ refusal. IsRefusedPass refusal (pass_with self.now.signature.now variables.old
            (points_of_both self.now.signature.now variables.old (syntax_tree_of left.now)
            (syntax_tree_of right.now)))) }
    {
        let left = self.resolve_boxed(variables, left)?;
        let right = self.resolve_boxed(variables, right)?;
        Ok((left, right))
    }

    // A quantifier's variables, and the formula in which they are in scope.
    #[cycle(formulas)]
    #[tactic(auto, using(crate::proofs::PointsInTurn::bound_operand))]
    fn resolve_bound(
        &self,
        variables: &mut Variables,
        bindings: &[Binding],
        formula: &SyntaxFormula,
    ) -> Result<(Vars, Box<Formula>), PolicyRefusal>
        ensures vars { IfOk result
            (λ bound. bound.0 ≡ bound_variables_from (length variables.old.names.items) bindings.now) }
        ensures value { IfOk result
            (λ bound. body_in self.now.signature.now variables.old bindings.now (syntax_tree_of formula.now)
            ≡ Some (tree.tree_of bound.1.value)) }
        ensures ok { OnOk result (PassesPoints self.now.signature.now variables.old variables.new
            (points_of_bound self.now.signature.now variables.old bindings.now (syntax_tree_of formula.now))
            (binding_names bindings.now ++ bound_names (syntax_tree_of formula.now))) }
        ensures err { IfErr result (λ refusal. IsRefusedPass refusal (pass_with self.now.signature.now variables.old
            (points_of_bound self.now.signature.now variables.old bindings.now (syntax_tree_of formula.now)))) }
    {
        let outside = variables.scope.len();
        let vars = self.bind_all(variables, bindings)?;
        let body = self.resolve_boxed(variables, formula)?;
        variables.scope.truncate(outside);
        Ok((vars, body))
    }

    // A rule, whose variables are numbered anew.
    #[tactic(auto, using(crate::proofs::PassedRules::one_rule))]
    fn resolve_rule(&self, rule: &SyntaxRule) -> Result<Rule, PolicyRefusal>
        ensures value { IfOk result
            (λ resolved. rule_in self.now.signature.now (syntax_rule_of rule.now) ≡ Some (rule_of resolved)) }
        ensures ok { OnOk result (rule_refusal self.now.signature.now (syntax_rule_of rule.now) ≡ None) }
        ensures err { IfErr result (λ refusal. refusal ≢ OutOfMemory
            → rule_refusal self.now.signature.now (syntax_rule_of rule.now) ≡ Some refusal) }
    {
        let mut variables = Variables::new(self.alloc);
        let formula = self.resolve_formula(&mut variables, &rule.formula)?;
        let name = rule.name.duplicate(self.alloc)?;
        let Variables { names, .. } = variables;
        Ok(Rule {
            name,
            formula,
            vars: VarNames::from_vec(names),
            place: rule.place,
        })
    }

    fn resolve_rules(&self, rules: &[SyntaxRule]) -> Result<Rules, PolicyRefusal>
        ensures value { IfOk result
            (λ resolved. rules_in self.now.signature.now (map syntax_rule_of rules.now)
            ≡ Some (map rule_of resolved)) }
        ensures ok { OnOk result (policy_refusal self.now.signature.now (map syntax_rule_of rules.now) ≡ None) }
        ensures err { IfErr result (λ refusal. refusal ≢ OutOfMemory
            → policy_refusal self.now.signature.now (map syntax_rule_of rules.now) ≡ Some refusal) }
    {
        let mut resolved = Vec::with_capacity(self.alloc, rules.len())?;
        for rule in rules {
            resolved.push(self.resolve_rule(rule)?)?;
        }
        Ok(Rules::from_vec(resolved))
    }
}

/// The policy of a syntax tree under a signature, or the first refusal in the order of the text.
#[tactic(auto, using(crate::proofs::CallAnswers::all_rules))]
pub fn resolve(
    alloc: Global,
    signature: &Signature,
    policy: &SyntaxPolicy,
) -> Result<Policy, PolicyRefusal>
    // The tree's answer, unless there is no memory.
    ensures answer { GivesResolutionAnswer signature.now (syntax_rules_of policy.now) (policy_answer_of result) }
    // No other answer than the tree's.
    ensures only { (answer : Result (List PureRule) RefusalOfPolicy) → IsResolutionAnswer signature.now
        (syntax_rules_of policy.now) answer
        → CallGivesPolicy (policy_answer_of result) answer }
{
    let resolver = Resolver { alloc, signature };
    let rules = resolver.resolve_rules(policy.rules.as_slice())?;
    Ok(Policy { rules })
}
