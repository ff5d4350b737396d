//! The parts of a policy that hold no formula: names, terms, lists of them, and intervals.
ghost use Rattle.std.specs.Prelude.{◌≡◌, ◌≢◌, ◌↔◌, ℕ, List, [], ◌∷◌, ◌+◌, ◌≤◌};
ghost use Rattle.std.specs.Prelude.{false, true, length, IfOk, IsTrue};
ghost use Rattle.std.specs.Result.{IfErr};
ghost use Rattle.policy_syntax.specs.machine.Automaton.{BehindArgument, BehindConstant, BehindName, BehindVariable};
ghost use Rattle.policy_syntax.specs.machine.Automaton.{BoundVariable, CloseInterval, NextArgument, OpenInterval};
ghost use Rattle.policy_syntax.specs.machine.Automaton.{Operand, SecondEnd, stack_item};
ghost use Rattle.policy_syntax.specs.machine.PartOutcomes.{Bars, BarsSymbol, Continues, ReadsPart, JudgesLexeme};
ghost use Rattle.policy_syntax.specs.machine.PartOutcomes.{RefusesFrom, end_refusal, level_refusal};
ghost use Rattle.policy_syntax.specs.machine.PartOutcomes.{name_lexeme_refusal, node_refusal, term_refusal};
ghost use Rattle.policy_syntax.specs.machine.PartOutcomes.{next_lexeme_of, next_place_of};
ghost use Rattle.policy_syntax.specs.meaning.Grammar.{end_lexeme};
ghost use Rattle.policy_syntax.specs.meaning.Phrases.{sign_tree};
ghost use Rattle.policy_syntax.specs.meaning.Lexemes.{DigitsLexeme, NameLexeme, PlacedLexeme, Symbol as AnySymbol};
ghost use Rattle.policy_syntax.specs.meaning.Lexemes.{next_lexeme};
ghost use Rattle.policy_syntax.specs.machine.Cursor.{IsInRange, is_constant, is_end_lexeme, lexeme_of, next_place};
ghost use Rattle.policy_syntax.specs.meaning.Trees.{IsShortName};
ghost use Rattle.policy_syntax.specs.machine.PhraseReading.{ArgumentsRead, IntervalRead, IsConstantLexeme};
ghost use Rattle.policy_syntax.specs.machine.PhraseReading.{IsLexemeTaken, PrimaryRead, TermRead, TermsRead};
ghost use Rattle.policy_syntax.specs.machine.PhraseReading.{VariablesRead};
ghost use Rattle.policy_syntax.specs.machine.StoredTrees.{syntax_tree_of};

use crate::cursor::Cursor;
use crate::lexemes::{Lexeme, Sign, Symbol};
use crate::limits::{MOST_INTERVAL_END, MOST_LEVEL, MOST_NODES, MOST_VARIABLES};
use crate::refusals::SyntaxRefusal;
use crate::trees::{Binding, Bindings, SyntaxFormula, SyntaxTerm, SyntaxTerms};
use enf_data::{Interval, MOST_NAME_BYTES, NoMemory, Place, TextValue, Value};
use std::alloc::Global;

// How deep a token stands: its level, and how many variables are in scope.
#[derive(Clone, Copy)]
pub(crate) struct Depth {
    pub(crate) level: u32,
    pub(crate) scope: u32,
}

impl Depth {
    // One level deeper.
    pub(crate) fn deeper(self) -> Depth
        requires { self.level ≤ MOST_LEVEL }
        ensures { result ≡ record { level = self.level + 1; scope = self.scope } }
    {
        Depth {
            level: self.level + 1,
            scope: self.scope,
        }
    }

    // With some variables more in scope.
    pub(crate) fn with_variables(self, count: usize) -> Depth
        requires { self.scope + count ≤ MOST_VARIABLES }
        ensures { result ≡ record { level = self.level; scope = self.scope + count } }
    {
        Depth {
            level: self.level,
            scope: self.scope + count as u32,
        }
    }
}

// The parts of a policy, read one after the other.
#[derive(Drop)]
pub(crate) struct Parts<'a> {
    pub(crate) alloc: Global,
    pub(crate) cursor: Cursor<'a>,
    // How many nodes of the rule begin before the cursor.
    pub(crate) nodes: u32,
}

impl<'a> Parts<'a> {
    // The refusal of a lexeme that cannot stand here.
    pub(crate) fn syntax(&self) -> SyntaxRefusal
        ensures { result ≡ SyntaxRefusal.Syntax (next_place self.now.cursor.end self.now.cursor.rest) }
    {
        SyntaxRefusal::Syntax {
            place: self.cursor.place(),
        }
    }

    // The refusal of a lexeme that passes a limit.
    pub(crate) fn limit(&self) -> SyntaxRefusal
        ensures { result ≡ SyntaxRefusal.Limit (next_place self.now.cursor.end self.now.cursor.rest) }
    {
        SyntaxRefusal::Limit {
            place: self.cursor.place(),
        }
    }

    // Whether a word or mark stands here.
    pub(crate) fn is_at(&self, symbol: Symbol) -> bool
        ensures { IsTrue result ↔ (next_lexeme self.now.cursor.rest ≡ AnySymbol symbol) }
    {
        match self.cursor.lexeme() {
            Lexeme::Symbol(found) => *found == symbol,
            _ => false,
        }
    }

    // Takes the lexeme, which stands at a level.
    pub(crate) fn take(&mut self, level: u32) -> Result<(Place, Lexeme<'a>), SyntaxRefusal>
        requires { is_end_lexeme (next_lexeme self.old.cursor.rest) ≡ false }
        ensures taken { IfOk result (λ taken.
            IsLexemeTaken level (lexeme_of taken.1) taken.0 self.old.cursor self.new.cursor) }
        ensures lexeme { IfOk result (λ taken. lexeme_of taken.1 ≡ next_lexeme self.old.cursor.rest) }
        ensures in_range { IfOk result (λ taken. IsInRange (lexeme_of taken.1)) }
        ensures nodes { self.new.nodes ≡ self.old.nodes }
        ensures barred { IfErr result (Bars (level_refusal (next_place_of self.old) level)) }
    {
        if level > MOST_LEVEL {
            return Err(self.limit());
        }
        let place = self.cursor.place();
        Ok((place, self.cursor.advance()?))
    }

    // Takes a word or a mark.
    pub(crate) fn take_symbol(&mut self, symbol: Symbol, level: u32) -> Result<Place, SyntaxRefusal>
        ensures taken { IfOk result (λ place. IsLexemeTaken level (AnySymbol symbol) place self.old.cursor
            self.new.cursor) }
        ensures nodes { self.new.nodes ≡ self.old.nodes }
        ensures barred { IfErr result (BarsSymbol symbol (next_place_of self.old) level (next_lexeme_of self.old)) }
    {
        if !self.is_at(symbol) {
            return Err(self.syntax());
        }
        let (place, _) = self.take(level)?;
        Ok(place)
    }

    // Counts a node. Past the limit its place is refused.
    fn count_node(&mut self, place: Place) -> Result<(), SyntaxRefusal>
        ensures cursor { self.new.cursor ≡ self.old.cursor }
        ensures nodes { IfOk result (λ _. self.new.nodes ≡ self.old.nodes + 1) }
        ensures few { IfOk result (λ _. self.new.nodes ≤ MOST_NODES) }
        ensures many { IfErr result (λ refusal.
            (refusal ≡ SyntaxRefusal.Limit place) × (MOST_NODES ≤ self.old.nodes)) }
    {
        if self.nodes >= MOST_NODES {
            return Err(SyntaxRefusal::Limit { place });
        }
        self.nodes += 1;
        Ok(())
    }

    // Takes a lexeme that is the principal one of a node.
    pub(crate) fn take_node(&mut self, level: u32) -> Result<Place, SyntaxRefusal>
        requires { is_end_lexeme (next_lexeme self.old.cursor.rest) ≡ false }
        ensures taken { IfOk result (λ place.
            IsLexemeTaken level (next_lexeme self.old.cursor.rest) place self.old.cursor self.new.cursor) }
        ensures nodes { IfOk result (λ _. self.new.nodes ≡ self.old.nodes + 1) }
        ensures few { IfOk result (λ _. self.new.nodes ≤ MOST_NODES) }
        ensures barred { IfErr result (Bars (node_refusal (next_place_of self.old) level self.old.nodes)) }
    {
        let place = self.cursor.place();
        self.count_node(place)?;
        self.take(level)?;
        Ok(place)
    }

    // Takes a name.
    pub(crate) fn name(&mut self, level: u32) -> Result<(Place, TextValue), SyntaxRefusal>
        ensures taken { IfOk result (λ taken. IsLexemeTaken level (NameLexeme taken.1) taken.0 self.old.cursor
            self.new.cursor) }
        ensures short { IfOk result (λ taken. IsShortName taken.1) }
        ensures nodes { self.new.nodes ≡ self.old.nodes }
        ensures barred { IfErr result (Bars (name_lexeme_refusal (next_place_of self.old) level
            (next_lexeme_of self.old))) }
    {
        let Lexeme::Name(name) = *self.cursor.lexeme() else {
            return Err(self.syntax());
        };
        if name.len() > MOST_NAME_BYTES {
            return Err(self.limit());
        }
        let text = name_text(self.alloc, name)?;
        let (place, _) = self.take(level)?;
        Ok((place, text))
    }

    // Takes a variable that a quantifier binds.
    fn binding(&mut self, depth: Depth) -> Result<Binding, SyntaxRefusal>
        ensures taken { IfOk result (λ binding.
            IsLexemeTaken depth.level (NameLexeme binding.name) binding.place self.old.cursor self.new.cursor) }
        ensures scope { IfOk result (λ _. depth.scope + 1 ≤ MOST_VARIABLES) }
        ensures follows { ReadsPart (stack_item BoundVariable depth.level (depth.scope + 1) ∷ [])
            (stack_item BehindVariable depth.level (depth.scope + 1) ∷ []) self.old self.new result }
    {
        let Lexeme::Name(_) = self.cursor.lexeme() else {
            return Err(self.syntax());
        };
        if depth.scope >= MOST_VARIABLES {
            return Err(self.limit());
        }
        let (place, name) = self.name(depth.level)?;
        Ok(Binding { place, name })
    }

    // Takes variables with commas between them.
    pub(crate) fn bindings(&mut self, depth: Depth) -> Result<Bindings, SyntaxRefusal>
        ensures read { IfOk result (λ bindings.
            VariablesRead depth.level depth.scope self.old.cursor.rest self.new.cursor.rest bindings) }
        ensures scope { IfOk result (λ bindings. depth.scope + length bindings ≤ MOST_VARIABLES) }
        ensures ends { IfOk result (λ _. next_lexeme_of self.new ≢ AnySymbol Symbol.Comma) }
        ensures follows { IfOk result (λ bindings. Continues
            (stack_item BoundVariable depth.level (depth.scope + 1) ∷ [])
            (stack_item BehindVariable depth.level (depth.scope + length bindings) ∷ []) self.old self.new) }
        ensures refused { IfErr result (RefusesFrom (stack_item BoundVariable depth.level (depth.scope + 1) ∷ [])
            self.old) }
    {
        let mut inner = depth;
        let mut bindings = Bindings::new(self.alloc);
        'variables: loop {
            let binding = self.binding(inner)?;
            inner.scope += 1;
            if bindings.push(binding).is_err() {
                return Err(SyntaxRefusal::NoMemory);
            }
            if !self.is_at(Symbol::Comma) {
                return Ok(bindings);
            }
            self.take_symbol(Symbol::Comma, inner.level)?;
        }
    }

    // Takes a term.
    pub(crate) fn term(&mut self, depth: Depth) -> Result<SyntaxTerm, SyntaxRefusal>
        requires { depth.scope ≤ MOST_VARIABLES }
        ensures read { IfOk result (λ term.
            TermRead depth.level depth.scope self.old.cursor.rest self.new.cursor.rest term) }
        ensures nodes { self.new.nodes ≡ self.old.nodes }
        ensures taken { IfOk result (λ _.
            (place : ℕ) × IsLexemeTaken depth.level (next_lexeme_of self.old) place self.old.cursor self.new.cursor) }
        ensures judged { JudgesLexeme (term_refusal (next_place_of self.old) depth.level (next_lexeme_of self.old))
            result }
    {
        if let Lexeme::Name(_) = self.cursor.lexeme() {
            let (place, name) = self.name(depth.level)?;
            return Ok(SyntaxTerm::Variable(place, name));
        }
        if !begins_constant(self.cursor.lexeme()) {
            return Err(self.syntax());
        }
        let (place, lexeme) = self.take(depth.level)?;
        Ok(SyntaxTerm::Constant(place, constant(lexeme)))
    }

    // Takes terms with commas between them.
    fn terms(&mut self, depth: Depth) -> Result<SyntaxTerms, SyntaxRefusal>
        requires { depth.scope ≤ MOST_VARIABLES }
        ensures read { IfOk result (λ terms.
            TermsRead depth.level depth.scope self.old.cursor.rest self.new.cursor.rest terms) }
        ensures ends { IfOk result (λ _. next_lexeme_of self.new ≢ AnySymbol Symbol.Comma) }
        ensures follows { ReadsPart (stack_item NextArgument depth.level depth.scope ∷ [])
            (stack_item BehindArgument depth.level depth.scope ∷ []) self.old self.new result }
    {
        let mut terms = SyntaxTerms::new(self.alloc);
        'terms: loop {
            let term = self.term(depth)?;
            if terms.push(term).is_err() {
                return Err(SyntaxRefusal::NoMemory);
            }
            if !self.is_at(Symbol::Comma) {
                return Ok(terms);
            }
            self.take_symbol(Symbol::Comma, depth.level)?;
        }
    }

    // Takes the terms of an event, whose name has a place, with the parentheses around them.
    fn arguments(&mut self, name: Place, depth: Depth) -> Result<SyntaxTerms, SyntaxRefusal>
        requires level { depth.level ≤ MOST_LEVEL }
        requires scope { depth.scope ≤ MOST_VARIABLES }
        requires at { next_lexeme_of self.old ≡ AnySymbol Symbol.OpenParen }
        ensures read { IfOk result (λ terms.
            ArgumentsRead depth.level depth.scope self.old.cursor.rest self.new.cursor.rest terms) }
        ensures follows { ReadsPart (stack_item (BehindName name) depth.level depth.scope ∷ []) [] self.old self.new
            result }
    {
        self.count_node(name)?;
        self.take_symbol(Symbol::OpenParen, depth.level)?;
        let depth = depth.deeper();
        if self.is_at(Symbol::CloseParen) {
            self.take_symbol(Symbol::CloseParen, depth.level)?;
            return Ok(SyntaxTerms::new(self.alloc));
        }
        let terms = self.terms(depth)?;
        self.take_symbol(Symbol::CloseParen, depth.level)?;
        Ok(terms)
    }

    // Takes an event or a comparison, which begins with a name.
    pub(crate) fn named(&mut self, depth: Depth) -> Result<SyntaxFormula, SyntaxRefusal>
        requires { depth.scope ≤ MOST_VARIABLES }
        ensures read { IfOk result (λ f.
            PrimaryRead depth.level depth.scope self.old.cursor.rest self.new.cursor.rest (syntax_tree_of f)) }
        ensures follows { (name : List ℕ) → next_lexeme_of self.old ≡ NameLexeme name
            → ReadsPart (stack_item Operand depth.level depth.scope ∷ []) [] self.old self.new result }
    {
        let (place, name) = self.name(depth.level)?;
        if !self.is_at(Symbol::OpenParen) {
            return self.comparison(SyntaxTerm::Variable(place, name), depth);
        }
        let arguments = self.arguments(place, depth)?;
        Ok(SyntaxFormula::Atom(place, name, arguments))
    }

    // Takes a comparison sign and the term after it.
    pub(crate) fn comparison(
        &mut self,
        left: SyntaxTerm,
        depth: Depth,
    ) -> Result<SyntaxFormula, SyntaxRefusal>
        requires { depth.scope ≤ MOST_VARIABLES }
        ensures read { IfOk result (λ f.
            (before : List PlacedLexeme) → TermRead depth.level depth.scope before self.old.cursor.rest left
            → PrimaryRead depth.level depth.scope before self.new.cursor.rest (syntax_tree_of f)) }
        ensures follows { ReadsPart (stack_item BehindConstant depth.level depth.scope ∷ []) [] self.old self.new
            result }
    {
        let Lexeme::Sign(sign) = *self.cursor.lexeme() else {
            return Err(self.syntax());
        };
        let place = self.take_node(depth.level)?;
        let right = self.term(depth)?;
        Ok(compared(sign, place, left, right))
    }

    // Takes an interval.
    pub(crate) fn interval(&mut self, depth: Depth) -> Result<Interval, SyntaxRefusal>
        requires { depth.scope ≤ MOST_VARIABLES }
        ensures read { IfOk result (λ interval.
            IntervalRead depth.level depth.scope self.old.cursor.rest self.new.cursor.rest interval) }
        ensures follows { (operand : ℕ) → ReadsPart (stack_item (OpenInterval operand) depth.level depth.scope ∷
            [])
            (stack_item Operand operand depth.scope ∷ []) self.old self.new result }
    {
        self.take_symbol(Symbol::OpenBracket, depth.level)?;
        let (_, low) = self.interval_end(0, depth.level)?;
        self.take_symbol(Symbol::Comma, depth.level)?;
        let high = self.second_end(low, depth.level)?;
        self.take_symbol(Symbol::CloseBracket, depth.level)?;
        Ok(Interval { low, high })
    }

    // Takes an end of an interval, which is no less than some number.
    fn interval_end(&mut self, least: u64, level: u32) -> Result<(Place, u64), SyntaxRefusal>
        ensures taken { IfOk result (λ end. IsLexemeTaken level (DigitsLexeme end.1) end.0 self.old.cursor
            self.new.cursor) }
        ensures low { IfOk result (λ end. least ≤ end.1) }
        ensures high { IfOk result (λ end. end.1 ≤ MOST_INTERVAL_END) }
        ensures nodes { self.new.nodes ≡ self.old.nodes }
        ensures barred { IfErr result (Bars (end_refusal (next_place_of self.old) level least
            (next_lexeme_of self.old))) }
    {
        let Lexeme::Digits(end) = *self.cursor.lexeme() else {
            return Err(self.syntax());
        };
        if end < least {
            return Err(self.syntax());
        }
        if end > MOST_INTERVAL_END {
            return Err(self.limit());
        }
        let (place, _) = self.take(level)?;
        Ok((place, end))
    }

    // Takes the second end of an interval, or the star in its place.
    fn second_end(&mut self, low: u64, level: u32) -> Result<Option<u64>, SyntaxRefusal>
        ensures taken { IfOk result (λ high.
            (place : ℕ) × IsLexemeTaken level (end_lexeme high) place self.old.cursor self.new.cursor) }
        ensures follows { (operand scope : ℕ) → scope ≤ MOST_VARIABLES
            → ReadsPart (stack_item (SecondEnd operand low) level scope ∷ [])
            (stack_item (CloseInterval operand) level scope ∷ []) self.old self.new result }
    {
        if self.is_at(Symbol::Star) {
            self.take_symbol(Symbol::Star, level)?;
            return Ok(None);
        }
        let (_, high) = self.interval_end(low, level)?;
        Ok(Some(high))
    }
}

fn compared(sign: Sign, place: Place, left: SyntaxTerm, right: SyntaxTerm) -> SyntaxFormula
    ensures { syntax_tree_of result ≡ sign_tree sign place left right }
{
    match sign {
        Sign::Equal => SyntaxFormula::Equal(place, left, right),
        Sign::Less => SyntaxFormula::Less(place, left, right),
        Sign::AtMost => SyntaxFormula::AtMost(place, left, right),
    }
}

fn begins_constant(lexeme: &Lexeme<'_>) -> bool
    ensures { result ≡ is_constant (lexeme_of lexeme.now) }
{
    match lexeme {
        Lexeme::Digits(_) | Lexeme::Negative(_) | Lexeme::Text(_) => true,
        _ => false,
    }
}

fn constant(lexeme: Lexeme<'_>) -> Value
    requires constant { is_constant (lexeme_of lexeme) ≡ true }
    requires in_range { IsInRange (lexeme_of lexeme) }
    ensures { IsConstantLexeme (lexeme_of lexeme.entry) result }
{
    match lexeme {
        Lexeme::Digits(value) => Value::Num(value as i64),
        Lexeme::Negative(value) => Value::Num(0i64.saturating_sub_unsigned(value)),
        Lexeme::Text(text) => Value::Text(text),
        _ => unreachable!(),
    }
}

fn name_text(alloc: Global, name: &[u8]) -> Result<TextValue, NoMemory>
    ensures { IfOk result (λ text. text ≡ name.now) }
{
    match TextValue::from_bytes(alloc, name) {
        Ok(text) => Ok(text),
        Err(_) => Err(NoMemory),
    }
}
