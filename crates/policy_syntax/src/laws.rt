//! Laws of the grammar, each the contract of a function with an empty body.
ghost use Rattle.std.specs.Prelude.{◌≡◌, ℕ, [], List};
ghost use Rattle.policy_syntax.specs.meaning.Grammar.{PolicyFits, policy_fold, spell, IsPolicyText};
ghost use Rattle.policy_syntax.specs.meaning.Phrases.{RulePhrase};
ghost use Rattle.policy_syntax.specs.meaning.Lexemes.{PlacedLexeme};
ghost use Rattle.policy_syntax.specs.machine.Laws.{OneSyntaxAnswer, TextsAreWritable, WrittenHasLevels, WrittenIsRead};
ghost use Rattle.policy_syntax.specs.meaning.Trees.{PolicyRule};

use enf_value::laws::texts_are_cut;

/// A list of lexemes with their places is spelled by the phrases of one policy at most, whatever its limits, and a text
/// is a policy of one list of rules at most.
pub fn one_tree()
    ensures phrases { (placed : List PlacedLexeme) (rules others : List RulePhrase) → PolicyFits rules
        → PolicyFits others
        → policy_fold spell rules [] ≡ placed → policy_fold spell others [] ≡ placed → rules ≡ others }
    ensures rules { (bytes : List ℕ) (rules others : List PolicyRule)
        → IsPolicyText bytes rules → IsPolicyText bytes others → rules ≡ others }
{}

/// The names, values and variables of the rules of a text are such that the rules can be written.
pub fn texts_are_writable()
    ensures { TextsAreWritable }
{
    texts_are_cut();
}

/// The lexemes that are written for a rule within the limits, with parentheses round each operand that is neither an
/// event nor `true` nor `false`, none of them at a level above the limit, are read as that rule but for its places.
/// Whatever their levels, they are the lexemes of a policy, at the levels at which they are written.
pub fn written_is_read()
    ensures read { WrittenIsRead }
    ensures levels { WrittenHasLevels }
{}

/// Each text has exactly one answer.
pub fn one_answer()
    ensures { OneSyntaxAnswer }
{}
