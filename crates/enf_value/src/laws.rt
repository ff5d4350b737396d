//! Laws of tokens, each the contract of a function with an empty body.
ghost use Rattle.std.specs.Prelude.{◌≡◌, ◌∷◌, ◌++◌, [], codes};
ghost use Rattle.enf_value.specs.machine.Laws.{OneCut, PrintedIsCut, SpelledIsRead, TextsAreCut, PrintedIsToken};
ghost use Rattle.enf_value.specs.machine.Laws.{OneTokenAtPlace, TokenIsLongest};
ghost use Rattle.enf_value.specs.meaning.Tokens.{tokens};
ghost use Rattle.enf_value.specs.meaning.Tokens as token;
ghost use Rattle.enf_value.specs.declared.tokens.Mark.TheVariants as mark;

/// What is printed for a value is read again as that value, whatever follows that does not lengthen a number.
pub fn printed_is_token()
    ensures { PrintedIsToken }
{}

/// No two tokens begin at one place, and a token stands for one value.
pub fn one_token_at_place()
    ensures { OneTokenAtPlace }
{}

/// No longer piece of the bytes is a token.
pub fn token_is_longest()
    ensures { TokenIsLongest }
{}

/// A text is cut into tokens, each spelled at its place and as long as it can be, with blanks and comments alone
/// between them.
pub fn texts_are_cut()
    ensures { TextsAreCut }
{}

/// It is cut so in one way only.
pub fn one_cut()
    ensures { OneCut }
{}

/// The canonical spelling of a token, before bytes that do not go on with it, is cut as that token.
pub fn spelled_is_read()
    ensures { SpelledIsRead }
{}

/// What is printed of tokens, with a blank between two where one would go on with the other, is cut into these tokens.
pub fn printed_is_cut()
    ensures { PrintedIsCut }
{}

/// Worked cases of tokens.
pub fn worked_cases()
    ensures longest { tokens (codes "a1+-5;")
        ≡ (0, token.WordToken (codes "a1")) ∷ (2, token.SymbolToken mark.PlusMinus)
        ∷ (4, token.NumberToken 5) ∷ (5, token.SymbolToken mark.Semicolon) ∷ [] }
    ensures apart { tokens (codes "+ -") ≡ (0, token.SymbolToken mark.Plus) ∷ (2, token.SymbolToken mark.Minus) ∷
        [] }
    ensures minus { tokens (codes "<-5 --> 007")
        ≡ (0, token.SymbolToken mark.Less) ∷ (1, token.NegativeToken 5) ∷ (4, token.SymbolToken mark.Minus)
        ∷ (5, token.SymbolToken mark.Arrow) ∷ (8, token.NumberToken 7) ∷ [] }
    ensures comment { tokens (codes "a #(" ++ 10 ∷ codes ")#;")
        ≡ (0, token.WordToken (codes "a")) ∷ (5, token.SymbolToken mark.CloseParen) ∷ [] }
    ensures least { tokens (codes "-9223372036854775808") ≡ (0, token.NegativeToken 9223372036854775808) ∷ [] }
    ensures too_great { tokens (codes "a 9223372036854775808 b") ≡ (0, token.WordToken (codes "a"))
        ∷ (2, token.WrongToken) ∷ [] }
    ensures text { tokens (34 ∷ codes "a#" ++ 92 ∷ 110 ∷ 34 ∷ codes "b")
        ≡ (0, token.TextToken (codes "a#" ++ 10 ∷ [])) ∷ (6, token.WordToken (codes "b")) ∷ [] }
    ensures no_quote { tokens (codes "a" ++ 34 ∷ codes "b c") ≡ (0, token.WordToken (codes "a"))
        ∷ (1, token.WrongToken) ∷ [] }
    ensures wrong_escape { tokens (34 ∷ 92 ∷ codes "x" ++ 34 ∷ []) ≡ (0, token.WrongToken) ∷ [] }
    ensures wrong_byte { tokens (codes "!;") ≡ (0, token.WrongToken) ∷ [] }
{}
