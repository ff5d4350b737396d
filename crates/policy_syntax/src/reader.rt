//! The reader of policies: formulas by recursive descent, a function for each nonterminal of the grammar.
ghost use Rattle.std.specs.Prelude.{◌≡◌, ◌≢◌, ◌+◌, ◌≤◌, List, [], ◌∷◌, Result, false};
ghost use Rattle.std.specs.Prelude.{length, IfOk};
ghost use Rattle.std.specs.Str.{bytes_eq};
ghost use Rattle.policy_syntax.specs.machine.Automaton.{Operand, and_on, formula_on, infix_on, stack_item, or_on};
ghost use Rattle.policy_syntax.specs.machine.PartOutcomes.{ReadsPart, JudgesRule};
ghost use Rattle.policy_syntax.specs.meaning.Lexemes.{Prefix as AnyPrefix, Quantifier as AnyQuantifier};
ghost use Rattle.policy_syntax.specs.meaning.Lexemes.{Symbol as AnySymbol, Truth as AnyTruth, next_lexeme};
ghost use Rattle.policy_syntax.specs.machine.Cursor.{lexeme_of};
ghost use Rattle.policy_syntax.specs.meaning.Phrases.{infix_tree, prefix_tree, quantifier_tree, truth_tree};
ghost use Rattle.policy_syntax.specs.machine.PhraseReading.{AndRead, FormulaRead, InfixRead, OrRead, PrimaryRead};
ghost use Rattle.policy_syntax.specs.machine.PhraseReading.{RuleRead, UnaryRead, begins_inner, has_name, is_name_of};
ghost use Rattle.policy_syntax.specs.machine.CallAnswers.{CallGivesSyntax, GivesSyntaxAnswer, syntax_answer_of};
ghost use Rattle.policy_syntax.specs.meaning.Refusals.{IsSyntaxAnswer};
ghost use Rattle.policy_syntax.specs.meaning.Trees.{PolicyRule};
ghost use Rattle.policy_syntax.specs.machine.StoredTrees.{syntax_tree_of, policy_rule_of};

use crate::cursor::Cursor;
use crate::lexemes::{Infix, Lexeme, Prefix, Quantifier, Symbol};
use crate::limits::{MOST_LEVEL, MOST_RULES, MOST_VARIABLES};
use crate::parts::{Depth, Parts};
use crate::refusals::SyntaxRefusal;
use crate::trees::{Bindings, SyntaxFormula, SyntaxPolicy, SyntaxRule, SyntaxRules};
use enf_data::{Interval, MOST_FILE_BYTES, NoMemory, Place};
use std::alloc::Global;

/// Reads the syntax tree of a policy, up to its end or the first refusal.
pub fn read_syntax(alloc: Global, bytes: &[u8]) -> Result<SyntaxPolicy, SyntaxRefusal>
    requires { length bytes.now ≤ MOST_FILE_BYTES }
    ensures answer { GivesSyntaxAnswer bytes.now (syntax_answer_of result) }
    ensures only { (answer : Result (List PolicyRule) SyntaxRefusal)
        → IsSyntaxAnswer bytes.now answer → CallGivesSyntax (syntax_answer_of result) answer }
{
    let mut parts = Parts {
        alloc,
        cursor: Cursor::new(alloc, bytes)?,
        nodes: 0,
    };
    let mut rules = SyntaxRules::new(alloc);
    while !parts.cursor.is_at_end() {
        let rule = read_rule(&mut parts, &rules)?;
        if rules.push(rule).is_err() {
            return Err(SyntaxRefusal::NoMemory);
        }
    }
    Ok(SyntaxPolicy { rules })
}

fn read_rule(parts: &mut Parts<'_>, rules: &SyntaxRules) -> Result<SyntaxRule, SyntaxRefusal>
    requires { parts.old.cursor.rest ≢ [] }
    ensures read { IfOk result (λ rule. RuleRead parts.old.cursor.rest parts.new.cursor.rest (policy_rule_of rule)) }
    ensures few { IfOk result (λ rule. length rules.now + 1 ≤ MOST_RULES) }
    ensures judged { JudgesRule rules.now parts.old parts.new result }
{
    if !parts.is_at(Symbol::Rule) {
        return Err(parts.syntax());
    }
    if rules.len() >= MOST_RULES {
        return Err(parts.limit());
    }
    let place = parts.take_symbol(Symbol::Rule, 0)?;
    parts.nodes = 0;
    if is_used(parts.cursor.lexeme(), rules) {
        return Err(parts.syntax());
    }
    let (_, name) = parts.name(0)?;
    parts.take_symbol(Symbol::Colon, 0)?;
    let formula = formula(parts, Depth { level: 0, scope: 0 })?;
    parts.take_symbol(Symbol::Semicolon, 0)?;
    Ok(SyntaxRule {
        place,
        name,
        formula,
    })
}

// Whether the lexeme is the name of a rule.
fn is_used(lexeme: &Lexeme<'_>, rules: &SyntaxRules) -> bool
    ensures { result ≡ is_name_of (lexeme_of lexeme.now) rules.now }
{
    match lexeme {
        Lexeme::Name(name) => has_name(rules.as_slice(), name),
        _ => false,
    }
}

fn has_name(rules: &[SyntaxRule], name: &[u8]) -> bool
    ensures { result ≡ has_name rules.now name.now }
{
    rules.iter().any(|rule| is_named(rule, name))
}

fn is_named(rule: &SyntaxRule, name: &[u8]) -> bool
    ensures { result ≡ bytes_eq name.now rule.now.name }
{
    name == rule.name.bytes()
}

#[cycle(formulas)]
fn formula(parts: &mut Parts<'_>, depth: Depth) -> Result<SyntaxFormula, SyntaxRefusal>
    requires level { depth.level ≤ MOST_LEVEL + 1 }
    requires scope { depth.scope ≤ MOST_VARIABLES }
    ensures read { IfOk result (λ f.
        FormulaRead depth.level depth.scope parts.old.cursor.rest parts.new.cursor.rest (syntax_tree_of f)) }
    ensures follows { ReadsPart (formula_on depth.level depth.scope []) [] parts.old parts.new result }
{
    let left = disjunction(parts, depth)?;
    if !parts.is_at(Symbol::Arrow) {
        return Ok(left);
    }
    let place = parts.take_node(depth.level)?;
    let right = formula(parts, depth.deeper())?;
    let left = boxed(parts.alloc, left)?;
    Ok(SyntaxFormula::Implies(place, left, boxed(parts.alloc, right)?))
}

#[cycle(formulas)]
fn disjunction(parts: &mut Parts<'_>, depth: Depth) -> Result<SyntaxFormula, SyntaxRefusal>
    requires level { depth.level ≤ MOST_LEVEL + 1 }
    requires scope { depth.scope ≤ MOST_VARIABLES }
    ensures read { IfOk result (λ f.
        OrRead depth.level depth.scope parts.old.cursor.rest parts.new.cursor.rest (syntax_tree_of f)) }
    ensures follows { ReadsPart (or_on depth.level depth.scope []) [] parts.old parts.new result }
{
    let left = conjunction(parts, depth)?;
    if !parts.is_at(Symbol::Or) {
        return Ok(left);
    }
    let place = parts.take_node(depth.level)?;
    let right = disjunction(parts, depth.deeper())?;
    let left = boxed(parts.alloc, left)?;
    Ok(SyntaxFormula::Or(place, left, boxed(parts.alloc, right)?))
}

#[cycle(formulas)]
fn conjunction(parts: &mut Parts<'_>, depth: Depth) -> Result<SyntaxFormula, SyntaxRefusal>
    requires level { depth.level ≤ MOST_LEVEL + 1 }
    requires scope { depth.scope ≤ MOST_VARIABLES }
    ensures read { IfOk result (λ f.
        AndRead depth.level depth.scope parts.old.cursor.rest parts.new.cursor.rest (syntax_tree_of f)) }
    ensures follows { ReadsPart (and_on depth.level depth.scope []) [] parts.old parts.new result }
{
    let left = infix(parts, depth)?;
    if !parts.is_at(Symbol::And) {
        return Ok(left);
    }
    let place = parts.take_node(depth.level)?;
    let right = conjunction(parts, depth.deeper())?;
    let left = boxed(parts.alloc, left)?;
    Ok(SyntaxFormula::And(place, left, boxed(parts.alloc, right)?))
}

// `since` and `until` do not associate.
#[cycle(formulas)]
fn infix(parts: &mut Parts<'_>, depth: Depth) -> Result<SyntaxFormula, SyntaxRefusal>
    requires level { depth.level ≤ MOST_LEVEL + 1 }
    requires scope { depth.scope ≤ MOST_VARIABLES }
    ensures read { IfOk result (λ f.
        InfixRead depth.level depth.scope parts.old.cursor.rest parts.new.cursor.rest (syntax_tree_of f)) }
    ensures follows { ReadsPart (infix_on depth.level depth.scope []) [] parts.old parts.new result }
{
    let left = unary(parts, depth)?;
    let Lexeme::Infix(operator) = *parts.cursor.lexeme() else {
        return Ok(left);
    };
    let place = parts.take_node(depth.level)?;
    let interval = parts.interval(depth)?;
    let right = unary(parts, depth.deeper())?;
    let formula = joined(parts.alloc, operator, place, interval, left, right)?;
    Ok(formula)
}

#[cycle(formulas)]
fn unary(parts: &mut Parts<'_>, depth: Depth) -> Result<SyntaxFormula, SyntaxRefusal>
    requires level { depth.level ≤ MOST_LEVEL + 1 }
    requires scope { depth.scope ≤ MOST_VARIABLES }
    ensures read { IfOk result (λ f.
        UnaryRead depth.level depth.scope parts.old.cursor.rest parts.new.cursor.rest (syntax_tree_of f)) }
    ensures follows { ReadsPart (stack_item Operand depth.level depth.scope ∷ []) [] parts.old parts.new result }
{
    if parts.is_at(Symbol::Not) {
        return negation(parts, depth);
    }
    if parts.is_at(Symbol::OpenParen) {
        return parenthesis(parts, depth);
    }
    match *parts.cursor.lexeme() {
        Lexeme::Prefix(operator) => prefixed(parts, operator, depth),
        Lexeme::Quantifier(quantifier) => quantified(parts, quantifier, depth),
        _ => bare(parts, depth),
    }
}

#[cycle(formulas)]
fn negation(parts: &mut Parts<'_>, depth: Depth) -> Result<SyntaxFormula, SyntaxRefusal>
    requires level { depth.level ≤ MOST_LEVEL + 1 }
    requires scope { depth.scope ≤ MOST_VARIABLES }
    requires at { next_lexeme parts.old.cursor.rest ≡ AnySymbol Symbol.Not }
    ensures read { IfOk result (λ f.
        UnaryRead depth.level depth.scope parts.old.cursor.rest parts.new.cursor.rest (syntax_tree_of f)) }
    ensures follows { ReadsPart (stack_item Operand depth.level depth.scope ∷ []) [] parts.old parts.new result }
{
    let place = parts.take_node(depth.level)?;
    let operand = unary(parts, depth.deeper())?;
    Ok(SyntaxFormula::Not(place, boxed(parts.alloc, operand)?))
}

#[cycle(formulas)]
fn prefixed(
    parts: &mut Parts<'_>,
    operator: Prefix,
    depth: Depth,
) -> Result<SyntaxFormula, SyntaxRefusal>
    requires level { depth.level ≤ MOST_LEVEL + 1 }
    requires scope { depth.scope ≤ MOST_VARIABLES }
    requires at { next_lexeme parts.old.cursor.rest ≡ AnyPrefix operator }
    ensures read { IfOk result (λ f.
        UnaryRead depth.level depth.scope parts.old.cursor.rest parts.new.cursor.rest (syntax_tree_of f)) }
    ensures follows { ReadsPart (stack_item Operand depth.level depth.scope ∷ []) [] parts.old parts.new result }
{
    let place = parts.take_node(depth.level)?;
    let interval = parts.interval(depth.deeper())?;
    let operand = unary(parts, depth.deeper())?;
    let operand = boxed(parts.alloc, operand)?;
    Ok(with_prefix(operator, place, interval, operand))
}

#[cycle(formulas)]
fn quantified(
    parts: &mut Parts<'_>,
    quantifier: Quantifier,
    depth: Depth,
) -> Result<SyntaxFormula, SyntaxRefusal>
    requires level { depth.level ≤ MOST_LEVEL + 1 }
    requires scope { depth.scope ≤ MOST_VARIABLES }
    requires at { next_lexeme parts.old.cursor.rest ≡ AnyQuantifier quantifier }
    ensures read { IfOk result (λ f.
        UnaryRead depth.level depth.scope parts.old.cursor.rest parts.new.cursor.rest (syntax_tree_of f)) }
    ensures follows { ReadsPart (stack_item Operand depth.level depth.scope ∷ []) [] parts.old parts.new result }
{
    let place = parts.take_node(depth.level)?;
    let bindings = parts.bindings(depth.deeper())?;
    let inner = depth.deeper().with_variables(bindings.len());
    parts.take_symbol(Symbol::Dot, inner.level)?;
    let operand = formula(parts, inner)?;
    let operand = boxed(parts.alloc, operand)?;
    Ok(with_quantifier(quantifier, place, bindings, operand))
}

#[cycle(formulas)]
fn parenthesis(parts: &mut Parts<'_>, depth: Depth) -> Result<SyntaxFormula, SyntaxRefusal>
    requires level { depth.level ≤ MOST_LEVEL + 1 }
    requires scope { depth.scope ≤ MOST_VARIABLES }
    requires at { next_lexeme parts.old.cursor.rest ≡ AnySymbol Symbol.OpenParen }
    ensures read { IfOk result (λ f.
        UnaryRead depth.level depth.scope parts.old.cursor.rest parts.new.cursor.rest (syntax_tree_of f)) }
    ensures follows { ReadsPart (stack_item Operand depth.level depth.scope ∷ []) [] parts.old parts.new result }
{
    parts.take_symbol(Symbol::OpenParen, depth.level)?;
    let inner = formula(parts, depth.deeper())?;
    parts.take_symbol(Symbol::CloseParen, depth.level + 1)?;
    Ok(inner)
}

// Reads a primary that is no formula in parentheses.
fn bare(parts: &mut Parts<'_>, depth: Depth) -> Result<SyntaxFormula, SyntaxRefusal>
    requires scope { depth.scope ≤ MOST_VARIABLES }
    requires at { begins_inner (next_lexeme parts.old.cursor.rest) ≡ false }
    ensures read { IfOk result (λ f.
        PrimaryRead depth.level depth.scope parts.old.cursor.rest parts.new.cursor.rest (syntax_tree_of f)) }
    ensures follows { ReadsPart (stack_item Operand depth.level depth.scope ∷ []) [] parts.old parts.new result }
{
    match *parts.cursor.lexeme() {
        Lexeme::Truth(value) => truth(parts, value, depth),
        Lexeme::Name(_) => parts.named(depth),
        _ => {
            let left = parts.term(depth)?;
            parts.comparison(left, depth)
        }
    }
}

fn truth(parts: &mut Parts<'_>, value: bool, depth: Depth) -> Result<SyntaxFormula, SyntaxRefusal>
    requires scope { depth.scope ≤ MOST_VARIABLES }
    requires at { next_lexeme parts.old.cursor.rest ≡ AnyTruth value }
    ensures read { IfOk result (λ f.
        PrimaryRead depth.level depth.scope parts.old.cursor.rest parts.new.cursor.rest (syntax_tree_of f)) }
    ensures follows { ReadsPart (stack_item Operand depth.level depth.scope ∷ []) [] parts.old parts.new result }
{
    let place = parts.take_node(depth.level)?;
    Ok(constant(value, place))
}

fn constant(value: bool, place: Place) -> SyntaxFormula
    ensures { syntax_tree_of result ≡ truth_tree value place }
{
    if value {
        SyntaxFormula::True(place)
    } else {
        SyntaxFormula::False(place)
    }
}

// The formula of both sides, each in memory of its own.
fn joined(
    alloc: Global,
    operator: Infix,
    place: Place,
    interval: Interval,
    left: SyntaxFormula,
    right: SyntaxFormula,
) -> Result<SyntaxFormula, NoMemory>
    ensures { IfOk result (λ f. syntax_tree_of f
        ≡ infix_tree operator place interval (syntax_tree_of left) (syntax_tree_of right)) }
{
    let left = boxed(alloc, left)?;
    let right = boxed(alloc, right)?;
    Ok(with_infix(operator, place, interval, left, right))
}

fn with_infix(
    operator: Infix,
    place: Place,
    interval: Interval,
    left: Box<SyntaxFormula>,
    right: Box<SyntaxFormula>,
) -> SyntaxFormula
    ensures { syntax_tree_of result
        ≡ infix_tree operator place interval (syntax_tree_of left.value) (syntax_tree_of right.value) }
{
    match operator {
        Infix::Since => SyntaxFormula::Since(place, interval, left, right),
        Infix::Until => SyntaxFormula::Until(place, interval, left, right),
    }
}

fn with_prefix(
    operator: Prefix,
    place: Place,
    interval: Interval,
    operand: Box<SyntaxFormula>,
) -> SyntaxFormula
    ensures { syntax_tree_of result ≡ prefix_tree operator place interval (syntax_tree_of operand.value) }
{
    match operator {
        Prefix::Prev => SyntaxFormula::Prev(place, interval, operand),
        Prefix::Next => SyntaxFormula::Next(place, interval, operand),
        Prefix::Once => SyntaxFormula::Once(place, interval, operand),
        Prefix::Historically => SyntaxFormula::Historically(place, interval, operand),
        Prefix::Eventually => SyntaxFormula::Eventually(place, interval, operand),
        Prefix::Always => SyntaxFormula::Always(place, interval, operand),
    }
}

fn with_quantifier(
    quantifier: Quantifier,
    place: Place,
    bindings: Bindings,
    operand: Box<SyntaxFormula>,
) -> SyntaxFormula
    ensures { syntax_tree_of result ≡ quantifier_tree quantifier place bindings (syntax_tree_of operand.value) }
{
    match quantifier {
        Quantifier::Exists => SyntaxFormula::Exists(place, bindings, operand),
        Quantifier::Forall => SyntaxFormula::Forall(place, bindings, operand),
    }
}

fn boxed(alloc: Global, formula: SyntaxFormula) -> Result<Box<SyntaxFormula>, NoMemory>
    ensures { IfOk result (λ kept. kept.value ≡ formula) }
{
    match Box::new(alloc, formula) {
        Ok(kept) => Ok(kept),
        Err(_) => Err(NoMemory),
    }
}
