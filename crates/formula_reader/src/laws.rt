//! Laws of the second pass, each the contract of a function with an empty body.
ghost use Rattle.std.specs.Prelude.{◌≡◌, ◌↔◌, ℕ, [], List, None, Result, Some};
ghost use Rattle.std.specs.Option.{option_map};
ghost use Rattle.std.specs.List.{AllByRecursion};
ghost use Rattle.policy_syntax.specs.meaning.Grammar.{IsPolicyText};
ghost use Rattle.policy_syntax.specs.meaning.Trees.{PolicyRule as SyntaxRule};
ghost use Rattle.signature.specs.declared.entries.NameEntry.{NameEntry};
ghost use Rattle.formula_reader.specs.meaning.PolicyAnswers.{IsResolutionAnswer, IsPolicyAnswer};
ghost use Rattle.enf_value.specs.machine.PrintedTokens.{placed_from, printed_tokens};
ghost use Rattle.enf_value.specs.meaning.Tokens.{tokens};
ghost use Rattle.formula_reader.specs.meaning.RuleText.{rule_text};
ghost use Rattle.formula_reader.specs.machine.TextPieces.{IsRuleText, rule_pieces};
ghost use Rattle.formula_reader.specs.meaning.Resolution.{Point, points, Rule, rule_in};
ghost use Rattle.formula_reader.specs.machine.BareRules.{bare_refusal, bare_resolved};
ghost use Rattle.policy_syntax.specs.machine.BareTrees.{bare_rule};
ghost use Rattle.formula_reader.specs.meaning.SortRefusals.{first_point_refusal, policy_refusal, rule_refusal};
ghost use Rattle.formula_reader.specs.machine.Laws.{PrintedIsRead, TextsHaveLevels, ReadIsWellFormed};
ghost use Rattle.formula_reader.specs.machine.RefusalPlaces.{IsLeastRefusal, IsLeastInRules, PlacesRise, RefusalStands};
ghost use Rattle.formula_reader.specs.machine.RefusalPlaces.{StandsInRules};
ghost use Rattle.formula_reader.specs.machine.WrittenBack.{rule_back, plain_rule};
ghost use Rattle.formula_reader.specs.declared.policies.PolicyRefusal.{PolicyRefusal};

use enf_value::laws::printed_is_cut;
use policy_syntax::laws::{texts_are_writable, written_is_read};

/// The rules of a syntax tree have exactly one answer under a signature.
pub fn one_answer()
    ensures { (entries : List NameEntry) (rules : List SyntaxRule) →
        (answer : Result (List Rule) PolicyRefusal) × IsResolutionAnswer entries rules answer
        × ((other : Result (List Rule) PolicyRefusal) → IsResolutionAnswer entries rules other → other ≡ answer) }
{}

/// A text has exactly one answer under a signature.
pub fn one_text_answer()
    ensures { (entries : List NameEntry) (bytes : List ℕ) →
        (answer : Result (List Rule) PolicyRefusal) × IsPolicyAnswer entries bytes answer
        × ((other : Result (List Rule) PolicyRefusal) → IsPolicyAnswer entries bytes other → other ≡ answer) }
{
    policy_syntax::laws::one_answer();
}

/// What a text is read as is a policy of the signature: its rules are closed, and keep to the limits and to the names
/// of the signature with their numbers of columns.
pub fn read_is_well_formed()
    ensures { ReadIsWellFormed }
{
    texts_are_writable();
}

/// Where the places of the points of a rule rise, the first refusal is the one that stands at the least place.
pub fn first_by_place()
    ensures least { (entries : List NameEntry) (points : List Point) (refusal : PolicyRefusal) → PlacesRise points
        → (first_point_refusal entries [] points ≡ Some refusal) ↔ IsLeastRefusal entries points refusal }
    ensures none { (entries : List NameEntry) (points : List Point) (refusal : PolicyRefusal)
        → first_point_refusal entries [] points ≡ None → RefusalStands entries [] points refusal → ⊥ }
{}

/// Of the rules of a text the second pass answers the refusal that stands at the least place.
pub fn first_of_text()
    ensures least { (entries : List NameEntry) (bytes : List ℕ) (rules : List SyntaxRule) (refusal : PolicyRefusal)
        → IsPolicyText bytes rules
        → (policy_refusal entries rules ≡ Some refusal) ↔ IsLeastInRules entries rules refusal }
    ensures none { (entries : List NameEntry) (rules : List SyntaxRule) (refusal : PolicyRefusal)
        → policy_refusal entries rules ≡ None → StandsInRules entries rules refusal → ⊥ }
    ensures rises { (entries : List NameEntry) (bytes : List ℕ) (rules : List SyntaxRule) → IsPolicyText bytes rules
        → AllByRecursion (λ (rule : SyntaxRule). PlacesRise (points entries [] [] rule.formula)) rules }
{}

/// The canonical text of a rule is spelled by these tokens, with a blank for each blank.
pub fn text_is_spelled()
    ensures { (entries : List NameEntry) (rule : Rule)
        → printed_tokens (rule_pieces entries rule) ≡ rule_text entries rule }
{}

/// The canonical text of a rule is cut into these tokens at their places, where its names are words and its values and
/// ends are within their limits.
pub fn text_is_cut()
    ensures { (entries : List NameEntry) (rule : Rule) → IsRuleText entries rule
        → tokens (rule_text entries rule) ≡ placed_from 0 (rule_pieces entries rule) }
{
    printed_is_cut();
}

/// A rule under a signature, written back by its texts, is the rule of the syntax tree that it came from, but for the
/// places of its variables and terms.
pub fn rule_is_written_back()
    ensures { (entries : List NameEntry) (rule : SyntaxRule) (resolved : Rule)
        → rule_in entries rule ≡ Some resolved
        → rule_back entries resolved ≡ plain_rule rule }
{}

/// The second pass does not look at places: a rule at other places is refused for the same cause, or is the same rule
/// but for its places.
pub fn places_stand_in_the_answer_alone()
    ensures refused { (entries : List NameEntry) (rule : SyntaxRule)
        → rule_refusal entries (bare_rule rule) ≡ option_map bare_refusal (rule_refusal entries rule) }
    ensures resolved { (entries : List NameEntry) (rule : SyntaxRule)
        → rule_in entries (bare_rule rule) ≡ option_map bare_resolved (rule_in entries rule) }
{}

/// The canonical text of a rule of a policy, where none of its tokens is at a level above the limit, is a policy of one
/// rule, which is that rule but for its places.
pub fn printed_is_read()
    ensures levels { TextsHaveLevels }
    ensures read { PrintedIsRead }
{
    printed_is_cut();
    texts_are_writable();
    written_is_read();
}
