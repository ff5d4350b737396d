//! Laws of the grammar, each the contract of a function with an empty body.
ghost use Rattle.std.specs.Prelude.{◌≡◌, ◌∷◌, [], codes, false, true};
ghost use Rattle.enf_value.specs.meaning.Tokens.{SymbolToken, WordToken, WrongToken, token_kinds};
ghost use Rattle.signature.specs.meaning.Grammar.{entries_tokens, signature_tokens};
ghost use Rattle.signature.specs.machine.Laws.{OneSignatureAnswer, OneEntryList};
ghost use Rattle.enf_value.specs.declared.tokens.Mark.TheVariants as mark;
ghost use Rattle.signature.specs.declared.entries.Sort.TheVariants as sort;

/// Tokens are those of at most one list of entries.
pub fn one_tree()
    ensures { OneEntryList }
{}

/// Each text has exactly one answer.
pub fn one_answer()
    ensures { OneSignatureAnswer }
{}

/// Worked cases of the grammar.
pub fn worked_cases()
    ensures no_arrow { signature_tokens (codes "a->b")
        ≡ (0, WordToken (codes "a")) ∷ (1, SymbolToken mark.Minus) ∷ (2, WrongToken) ∷ [] }
    ensures no_column { token_kinds (signature_tokens (codes "alarm()+;"))
        ≡ entries_tokens (record { text = codes "alarm"; sorts = []; causable = true; suppressible = false } ∷ []) }
    ensures two_columns { token_kinds (signature_tokens (codes "request(text, int);"))
        ≡ entries_tokens (record {
          text = codes "request";
          sorts = sort.Text ∷ sort.Int ∷ [];
          causable = false;
          suppressible = false;
        } ∷ []) }
{}
