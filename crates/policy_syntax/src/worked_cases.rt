//! Worked cases of the grammar and of its refusals, each a clause of a function with an empty body.
ghost use Rattle.std.specs.Prelude.{◌≡◌, ◌≢◌, [], ◌∷◌, codes, false, true};
ghost use Rattle.policy_syntax.specs.machine.Cases.{HasLimitAt, HasSyntaxAt, HasTree, comparison};
ghost use Rattle.policy_syntax.specs.machine.Cases.{implication_to_the_right, precedence, with_name, with_nots};
ghost use Rattle.policy_syntax.specs.machine.Cases.{prefix_binds_tighter, quantifier_in_parentheses};
ghost use Rattle.policy_syntax.specs.machine.Cases.{quantifier_reaches, since_behind_a_quantifier, two_rules};
ghost use Rattle.policy_syntax.specs.meaning.Lexemes.{DigitsLexeme, lexemes};
ghost use Rattle.policy_syntax.specs.meaning.Refusals.{kinds_behind, is_below_first, nodes_behind, rule_names};
ghost use Rattle.policy_syntax.specs.meaning.Refusals.{rules_behind, wants_end};

/// Texts with their trees: `and` before `or` before `->`, each to the right; a quantifier reaches as far as it can,
/// over the `since` after it too; `since` and `until` bind tighter than `and`, and prefix operators tighter still.
pub fn trees()
    ensures implication_to_the_right { HasTree (codes "rule r: a() -> b() -> c();") implication_to_the_right }
    ensures precedence { HasTree (codes "rule r: a() -> b() or c() and d();") precedence }
    ensures quantifier_reaches { HasTree (codes "rule r: forall x. a(x) and b();") quantifier_reaches }
    ensures quantifier_in_parentheses { HasTree (codes "rule r: (forall x. a(x)) and b();") quantifier_in_parentheses }
    ensures since_behind_a_quantifier { HasTree (codes "rule r: forall x. a() since[0,1] b() since[0,*] c();")
        since_behind_a_quantifier }
    ensures prefix_binds_tighter { HasTree (codes "rule r: not once[2,5] a() until[0,1] b();") prefix_binds_tighter }
    ensures comparison { HasTree (codes "rule r: exists x, y. x <= y and y = 7;") comparison }
    ensures two_rules { HasTree (codes "rule r: true; rule s: false;") two_rules }
{}

/// What stands after a lexeme: names of rules, how many rules and nodes, and whether an interval's end is wanted.
pub fn counts()
    ensures names { rule_names (kinds_behind (lexemes (codes "rule r: a(); rule s: true; rule")))
        ≡ codes "s" ∷ codes "r" ∷ [] }
    ensures rules { rules_behind (kinds_behind (lexemes (codes "rule r: a(); rule s: true; rule"))) ≡ 3 }
    ensures an_event_is_a_node { nodes_behind (kinds_behind (lexemes (codes "rule r: a("))) ≡ 1 }
    ensures a_name_is_none { nodes_behind (kinds_behind (lexemes (codes "rule r: a"))) ≡ 0 }
    ensures a_sign_is_a_node { nodes_behind (kinds_behind (lexemes (codes "rule r: x = y"))) ≡ 1 }
    ensures one_quantifier_is_a_node { nodes_behind
        (kinds_behind (lexemes (codes "rule r: forall x, y. not a() and true"))) ≡ 5 }
    ensures for_each_rule_anew { nodes_behind (kinds_behind (lexemes (codes "rule r: a(); rule s: b()"))) ≡ 1 }
    ensures first_end { wants_end (kinds_behind (lexemes (codes "rule r: once["))) ≡ true }
    ensures second_end { wants_end (kinds_behind (lexemes (codes "rule r: once[3,"))) ≡ true }
    ensures no_end { wants_end (kinds_behind (lexemes (codes "rule r: a(3,"))) ≡ false }
    ensures below { is_below_first (kinds_behind (lexemes (codes "rule r: once[3,"))) (DigitsLexeme 2) ≡ true }
    ensures not_below { is_below_first (kinds_behind (lexemes (codes "rule r: once[3,"))) (DigitsLexeme 3) ≡ false }
{}

/// Refused texts, with the place of the first refusal: Syntax where no policy goes on so, at the end where none ends
/// so, at a rule's name that stands twice and at an end of an interval below the first; and Limit.
pub fn refusals()
    ensures no_colon { HasSyntaxAt (codes "rule r alarm();") 7 }
    ensures a_reserved_word { HasSyntaxAt (codes "rule and: a();") 5 }
    ensures an_event_as_a_term { HasSyntaxAt (codes "rule r: x = p(y);") 13 }
    ensures an_event_in_an_event { HasSyntaxAt (codes "rule r: forall x. p(q(x));") 21 }
    ensures no_interval { HasSyntaxAt (codes "rule r: a() since b();") 18 }
    ensures no_operator { HasSyntaxAt (codes "rule r: a() b();") 12 }
    ensures the_end { HasSyntaxAt (codes "rule r: a()") 11 }
    ensures a_name_twice { HasSyntaxAt (codes "rule r: a(); rule r: b();") 18 }
    ensures backwards { HasSyntaxAt (codes "rule r: once[5,3] a();") 15 }
    ensures no_i64 { HasSyntaxAt (codes "rule r: x = 9223372036854775808;") 12 }
    ensures a_great_end { HasLimitAt (codes "rule r: once[0,1000000001] a();") 15 }
    ensures variable_17 { HasLimitAt (codes "rule r: forall a,b,c,d,e,f,g,h,i,j,k,l,m,n,o,p,q. a();") 47 }
    ensures level_41 { HasLimitAt (with_nots 41 (codes "alarm();")) 172 }
    ensures syntax_before_a_limit { HasSyntaxAt (with_nots 41 (codes ");")) 172 }
    ensures byte_65 { HasLimitAt (with_name 65) 5 }
{}
