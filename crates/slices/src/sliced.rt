//! Whether rules are of one key, and what is in the way.
ghost use Rattle.std.specs.Prelude.{◌≡◌, ◌↔◌, IsTrue, Some, IfNone, OnSome};
ghost use Rattle.enf_data.specs.declared.terms.Term.TheVariants.{Var as Variable};
ghost use Rattle.enf_formula.specs.machine.FormulaViews.{tree_of};
ghost use Rattle.enf_formula.specs.meaning.Satisfaction.{formula_place};
ghost use Rattle.slices.specs.declared.hindrances.Why.TheVariants.{OtherKey as Other, Rule as WholeRule};
ghost use Rattle.slices.specs.machine.FirstHindrances.{IsFirstAnswer};
ghost use Rattle.slices.specs.machine.StoredKeys.{keying_of};
ghost use Rattle.slices.specs.meaning.SlicedRules.{HasKeyTerm, IsInTheWay, IsOperandInTheWay, IsBoundInTheWay};
ghost use Rattle.slices.specs.meaning.SlicedRules.{key_variable, key_variable_of, variable_among, or_else};
ghost use Rattle.slices.specs.meaning.SlicedRules.{IsSlicedRule, IsRuleInTheWay, HoldsForOthers};

use crate::hindrances::{Hindrance, Why, earlier};
use crate::keys::Keys;
use crate::verdicts::{Absence, Verdict, known};
use enf_data::events::NameId;
use enf_data::places::Place;
use enf_data::terms::{Term, VarId, Vars};
use enf_formula::Formula;

// Whether the key of the name's events is this variable, where it has one.
fn has_key_term(keys: &Keys, name: NameId, terms: &[Term], x: VarId) -> bool
    ensures { IsTrue result ↔ HasKeyTerm (keying_of keys.now name) terms.now x }
{
    match keys.column(name) {
        None => true,
        Some(column) => match terms.get(column) {
            Some(Term::Var(y)) => y.0 == x.0,
            _ => false,
        },
    }
}

// At an atom.
fn at_atom(keys: &Keys, place: Place, name: NameId, terms: &[Term], x: VarId) -> Option<Hindrance>
    ensures { IsFirstAnswer (λ h. (h ≡ record { place = place; why = Other })
        × (HasKeyTerm (keying_of keys.now name) terms.now x → ⊥)) result }
{
    if has_key_term(keys, name, terms, x) {
        None
    } else {
        Some(Hindrance {
            place,
            why: Why::OtherKey,
        })
    }
}

// At a quantifier.
fn at_binder(place: Place, xs: &Vars, x: VarId) -> Option<Hindrance>
    ensures { IsFirstAnswer (IsBoundInTheWay place xs.now x) result }
{
    if xs.as_slice().contains(&x) {
        Some(Hindrance {
            place,
            why: Why::Bound,
        })
    } else {
        None
    }
}

// At an operand that is to have this verdict.
fn at_operand(keys: &Keys, operand: &Formula, wanted: Verdict) -> Option<Hindrance>
    ensures { IsFirstAnswer (IsOperandInTheWay (keying_of keys.now) (tree_of operand.now) wanted) result }
{
    if known(Absence::AtStep, keys, operand) == wanted {
        None
    } else {
        Some(Hindrance {
            place: operand.place(),
            why: Why::Operand,
        })
    }
}

// The first that is in the way of a formula of the key that the variable has.
fn in_the_way(keys: &Keys, x: VarId, formula: &Formula) -> Option<Hindrance>
    ensures { IsFirstAnswer (IsInTheWay (keying_of keys.now) x (tree_of formula.now)) result }
{
    match formula {
        Formula::True(_)
        | Formula::False(_)
        | Formula::Equal(_, _, _)
        | Formula::Less(_, _, _)
        | Formula::AtMost(_, _, _) => None,
        Formula::Atom(place, name, terms) => at_atom(keys, *place, *name, terms.as_slice(), x),
        Formula::Not(_, f) => in_the_way(keys, x, f),
        Formula::And(_, f, g) | Formula::Or(_, f, g) | Formula::Implies(_, f, g) => {
            earlier(in_the_way(keys, x, f), in_the_way(keys, x, g))
        }
        Formula::Exists(place, xs, f) | Formula::Forall(place, xs, f) => {
            earlier(at_binder(*place, xs, x), in_the_way(keys, x, f))
        }
        Formula::Prev(place, _, f) | Formula::Next(place, _, f) => {
            let here = Some(Hindrance {
                place: *place,
                why: Why::Neighbour,
            });
            earlier(here, in_the_way(keys, x, f))
        }
        Formula::Once(_, _, f) | Formula::Eventually(_, _, f) => earlier(
            at_operand(keys, f, Verdict::Fails),
            in_the_way(keys, x, f),
        ),
        Formula::Historically(_, _, f) | Formula::Always(_, _, f) => earlier(
            at_operand(keys, f, Verdict::Holds),
            in_the_way(keys, x, f),
        ),
        Formula::Since(_, _, f, g) | Formula::Until(_, _, f, g) => {
            let left = earlier(at_operand(keys, f, Verdict::Holds), in_the_way(keys, x, f));
            let right = earlier(at_operand(keys, g, Verdict::Fails), in_the_way(keys, x, g));
            earlier(left, right)
        }
    }
}

// The variable, where it is one of these.
fn if_among(xs: &Vars, x: VarId) -> Option<VarId>
    ensures { result ≡ variable_among xs.now (Some (Variable x)) }
{
    if xs.as_slice().contains(&x) {
        Some(x)
    } else {
        None
    }
}

// The term, where it is one of these variables.
fn term_among(xs: &Vars, term: &Term) -> Option<VarId>
    ensures { result ≡ variable_among xs.now (Some term.now) }
{
    match term {
        Term::Var(x) => if_among(xs, *x),
        Term::Const(_) => None,
    }
}

// Of the variables the one at the key argument of an atom.
fn key_variable_of_atom(keys: &Keys, xs: &Vars, name: NameId, terms: &[Term]) -> Option<VarId>
    ensures { result ≡ key_variable_of xs.now (keying_of keys.now name) terms.now }
{
    match keys.column(name) {
        Some(column) => match terms.get(column) {
            Some(term) => term_among(xs, term),
            None => None,
        },
        None => None,
    }
}

// The first of two variables, where there are two.
fn or_next(one: Option<VarId>, other: Option<VarId>) -> Option<VarId>
    ensures { result ≡ or_else one other }
{
    match one {
        Some(x) => Some(x),
        None => other,
    }
}

// Of the variables the first one that is the key of an atom.
fn first_key(keys: &Keys, xs: &Vars, formula: &Formula) -> Option<VarId>
    ensures { result ≡ key_variable (keying_of keys.now) xs.now (tree_of formula.now) }
{
    match formula {
        Formula::True(_)
        | Formula::False(_)
        | Formula::Equal(_, _, _)
        | Formula::Less(_, _, _)
        | Formula::AtMost(_, _, _) => None,
        Formula::Atom(_, name, terms) => key_variable_of_atom(keys, xs, *name, terms.as_slice()),
        Formula::Not(_, f)
        | Formula::Exists(_, _, f)
        | Formula::Forall(_, _, f)
        | Formula::Prev(_, _, f)
        | Formula::Next(_, _, f)
        | Formula::Once(_, _, f)
        | Formula::Historically(_, _, f)
        | Formula::Eventually(_, _, f)
        | Formula::Always(_, _, f) => first_key(keys, xs, f),
        Formula::And(_, f, g)
        | Formula::Or(_, f, g)
        | Formula::Implies(_, f, g)
        | Formula::Since(_, _, f, g)
        | Formula::Until(_, _, f, g) => or_next(first_key(keys, xs, f), first_key(keys, xs, g)),
    }
}

// At what a rule says of its variables.
fn at_body(keys: &Keys, body: &Formula) -> Option<Hindrance>
    ensures { IsFirstAnswer (λ h. (h ≡ record { place = formula_place (tree_of body.now); why = WholeRule })
        × (HoldsForOthers (keying_of keys.now) (tree_of body.now) → ⊥)) result }
{
    let at_step = known(Absence::AtStep, keys, body);
    let in_trace = known(Absence::InTrace, keys, body);
    if at_step == Verdict::Holds && in_trace == Verdict::Holds {
        None
    } else {
        Some(Hindrance {
            place: body.place(),
            why: Why::Rule,
        })
    }
}

/// The first that is in the way of a rule's cut, or that the rule is of one key.
pub fn rule_hindrance(keys: &Keys, rule: &Formula) -> Option<Hindrance>
    ensures first { IsFirstAnswer (IsRuleInTheWay (keying_of keys.now) (tree_of rule.now)) result }
    ensures none { IfNone result (IsSlicedRule (keying_of keys.now) (tree_of rule.now)) }
    ensures some { OnSome result (IsSlicedRule (keying_of keys.now) (tree_of rule.now) → ⊥) }
{
    let no_key = Some(Hindrance {
        place: rule.place(),
        why: Why::NoKey,
    });
    match rule {
        Formula::Forall(_, xs, body) => match first_key(keys, xs, body) {
            Some(x) => earlier(at_body(keys, body), in_the_way(keys, x, body)),
            None => no_key,
        },
        _ => no_key,
    }
}
