//! The tokens of policies by what they are for.
ghost use Rattle.std.specs.Prelude.{◌≡◌};
ghost use Rattle.enf_value.specs.machine.TokenViews.{token_of};
ghost use Rattle.std.specs.Str.{bytes_eq};
ghost use Rattle.policy_syntax.specs.meaning.Lexemes.{infix_of, lexeme_of_mark, lexeme_of_temporal, lexeme_of_token};
ghost use Rattle.policy_syntax.specs.meaning.Lexemes.{lexeme_of_word, prefix_of, quantifier_of, symbol_of, truth_of};
ghost use Rattle.policy_syntax.specs.machine.Cursor.{lexeme_of};

use enf_data::TextValue;
use enf_value::{Mark, Token};

/// A quantifier.
#[derive(Clone, Copy, Debug, PartialEq, Eq)]
pub enum Quantifier {
    Exists,
    Forall,
}

/// A temporal operator before its operand.
#[derive(Clone, Copy, Debug, PartialEq, Eq)]
pub enum Prefix {
    Prev,
    Next,
    Once,
    Historically,
    Eventually,
    Always,
}

/// A temporal operator between its operands.
#[derive(Clone, Copy, Debug, PartialEq, Eq)]
pub enum Infix {
    Since,
    Until,
}

/// A comparison sign.
#[derive(Clone, Copy, Debug, PartialEq, Eq)]
pub enum Sign {
    Equal,
    Less,
    AtMost,
}

/// A word or a mark that stands for itself.
#[derive(Clone, Copy, Debug, PartialEq, Eq)]
pub enum Symbol {
    Rule,
    Not,
    And,
    Or,
    Arrow,
    OpenParen,
    CloseParen,
    OpenBracket,
    CloseBracket,
    Comma,
    Semicolon,
    Colon,
    Dot,
    Star,
}

// A token of a policy, or its end.
#[derive(Debug, Drop)]
pub(crate) enum Lexeme<'a> {
    Symbol(Symbol),
    Truth(bool),
    Prefix(Prefix),
    Infix(Infix),
    Quantifier(Quantifier),
    Sign(Sign),
    Name(&'a [u8]),
    Digits(u64),
    Negative(u64),
    Text(TextValue),
    End,
    /// What has no use in a policy.
    Other,
}

impl<'a> Lexeme<'a> {
    // The lexeme that a token is.
    pub(crate) fn of_token(token: Token<'a>) -> Lexeme<'a>
        ensures { lexeme_of result ≡ lexeme_of_token (token_of token.entry) }
    {
        match token {
            Token::Word(word) => word_lexeme(word),
            Token::Digits(value) => Lexeme::Digits(value),
            Token::Negative(value) => Lexeme::Negative(value),
            Token::Text(text) => Lexeme::Text(text),
            Token::Mark(mark) => mark_lexeme(mark),
            Token::Wrong => Lexeme::Other,
        }
    }
}

fn word_lexeme(word: &[u8]) -> Lexeme<'_>
    ensures { lexeme_of result ≡ lexeme_of_word word.now }
{
    if let Some(symbol) = symbol_of(word) {
        Lexeme::Symbol(symbol)
    } else if let Some(value) = truth_of(word) {
        Lexeme::Truth(value)
    } else if let Some(quantifier) = quantifier_of(word) {
        Lexeme::Quantifier(quantifier)
    } else {
        temporal_lexeme(word)
    }
}

// The lexeme of a word that is none of first-order logic.
fn temporal_lexeme(word: &[u8]) -> Lexeme<'_>
    ensures { lexeme_of result ≡ lexeme_of_temporal word.now }
{
    if let Some(operator) = prefix_of(word) {
        Lexeme::Prefix(operator)
    } else if let Some(operator) = infix_of(word) {
        Lexeme::Infix(operator)
    } else if is_spelled(word, b"int") || is_spelled(word, b"text") {
        Lexeme::Other
    } else {
        Lexeme::Name(word)
    }
}

fn is_spelled(word: &[u8], spelling: &[u8]) -> bool
    ensures { result ≡ bytes_eq word.now spelling.now }
{
    word == spelling
}

fn symbol_of(word: &[u8]) -> Option<Symbol>
    ensures { result ≡ symbol_of word.now }
{
    if is_spelled(word, b"rule") {
        Some(Symbol::Rule)
    } else if is_spelled(word, b"not") {
        Some(Symbol::Not)
    } else if is_spelled(word, b"and") {
        Some(Symbol::And)
    } else if is_spelled(word, b"or") {
        Some(Symbol::Or)
    } else {
        None
    }
}

fn truth_of(word: &[u8]) -> Option<bool>
    ensures { result ≡ truth_of word.now }
{
    if is_spelled(word, b"true") {
        Some(true)
    } else if is_spelled(word, b"false") {
        Some(false)
    } else {
        None
    }
}

fn quantifier_of(word: &[u8]) -> Option<Quantifier>
    ensures { result ≡ quantifier_of word.now }
{
    if is_spelled(word, b"exists") {
        Some(Quantifier::Exists)
    } else if is_spelled(word, b"forall") {
        Some(Quantifier::Forall)
    } else {
        None
    }
}

fn prefix_of(word: &[u8]) -> Option<Prefix>
    ensures { result ≡ prefix_of word.now }
{
    if is_spelled(word, b"prev") {
        Some(Prefix::Prev)
    } else if is_spelled(word, b"next") {
        Some(Prefix::Next)
    } else if is_spelled(word, b"once") {
        Some(Prefix::Once)
    } else if is_spelled(word, b"historically") {
        Some(Prefix::Historically)
    } else if is_spelled(word, b"eventually") {
        Some(Prefix::Eventually)
    } else if is_spelled(word, b"always") {
        Some(Prefix::Always)
    } else {
        None
    }
}

fn infix_of(word: &[u8]) -> Option<Infix>
    ensures { result ≡ infix_of word.now }
{
    if is_spelled(word, b"since") {
        Some(Infix::Since)
    } else if is_spelled(word, b"until") {
        Some(Infix::Until)
    } else {
        None
    }
}

fn mark_lexeme(mark: Mark) -> Lexeme<'static>
    ensures { lexeme_of result ≡ lexeme_of_mark mark }
{
    match mark {
        Mark::OpenParen => Lexeme::Symbol(Symbol::OpenParen),
        Mark::CloseParen => Lexeme::Symbol(Symbol::CloseParen),
        Mark::Comma => Lexeme::Symbol(Symbol::Comma),
        Mark::Semicolon => Lexeme::Symbol(Symbol::Semicolon),
        Mark::Colon => Lexeme::Symbol(Symbol::Colon),
        Mark::Dot => Lexeme::Symbol(Symbol::Dot),
        Mark::OpenBracket => Lexeme::Symbol(Symbol::OpenBracket),
        Mark::CloseBracket => Lexeme::Symbol(Symbol::CloseBracket),
        Mark::Star => Lexeme::Symbol(Symbol::Star),
        Mark::Equal => Lexeme::Sign(Sign::Equal),
        Mark::Less => Lexeme::Sign(Sign::Less),
        Mark::AtMost => Lexeme::Sign(Sign::AtMost),
        Mark::Arrow => Lexeme::Symbol(Symbol::Arrow),
        Mark::Plus | Mark::Minus | Mark::PlusMinus => Lexeme::Other,
    }
}
