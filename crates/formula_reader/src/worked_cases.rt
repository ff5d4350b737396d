//! Worked cases of the second pass and of the canonical text, each a clause of a function with an empty body.
ghost use Rattle.std.specs.Prelude.{◌≡◌, ◌++◌, ◌∷◌, [], None, Some, codes, pos};
ghost use Rattle.enf_formula.specs.machine.Variables.{bound_variables, numbered_variables, IsScopedFormula};
ghost use Rattle.enf_data.specs.declared.terms.Term.TheVariants.{Const};
ghost use Rattle.enf_data.specs.declared.values.Value.TheVariants.{Num, Text as TextConstant};
ghost use Rattle.policy_syntax.specs.meaning.Trees.{AndTree, AtMostTree, EqualTree, ExistsTree, ForallTree};
ghost use Rattle.policy_syntax.specs.meaning.Trees.{ImpliesTree, LessTree, NotTree, OrTree};
ghost use Rattle.formula_reader.specs.machine.Cases.{HasTextLevels, HasNoRefusal, IsRuleRefused, HasFormulaText};
ghost use Rattle.formula_reader.specs.machine.Cases.{ResolvesTo, bind_x, bind_y, go_atom, syntax_letter, lost_atom};
ghost use Rattle.formula_reader.specs.machine.Cases.{name_num, name_two, num_atom, syntax_one, rule_of_tree, said_go};
ghost use Rattle.formula_reader.specs.machine.Cases.{said_num, reader_case_entries, from_two_on, exists_x, once_up_to};
ghost use Rattle.formula_reader.specs.machine.Cases.{two_atom, txt_atom, variable_id, variable_term, from_two_to_five};
ghost use Rattle.formula_reader.specs.machine.Cases.{syntax_x, name_none, syntax_y};
ghost use Rattle.formula_reader.specs.meaning.Resolution.{bound_names};
ghost use Rattle.formula_reader.specs.meaning.SortRefusals.{policy_refusal};
ghost use Rattle.formula_reader.specs.machine.WellFormedPolicies.{IsPolicyFormula};
ghost use Rattle.enf_formula.specs.meaning.Satisfaction as tree;
ghost use Rattle.formula_reader.specs.declared.policies.PolicyRefusal.TheVariants as refused;

/// Event names, and variables in their scopes.
pub fn names()
    ensures known { HasNoRefusal (go_atom 1 []) }
    ensures unknown { IsRuleRefused (lost_atom 1 []) (refused.UnknownName 1) }
    ensures too_few { IsRuleRefused (num_atom 1 []) (refused.Arity 1) }
    ensures too_many { IsRuleRefused (num_atom 1 (syntax_one 2 ∷ syntax_one 3 ∷ [])) (refused.Arity 1) }
    // forall x. num(x)
    ensures bound { HasNoRefusal (ForallTree 1 (bind_x 2 ∷ []) (num_atom 3 (syntax_x 4 ∷ []))) }
    // forall x. num(y)
    ensures free { IsRuleRefused (ForallTree 1 (bind_x 2 ∷ []) (num_atom 3 (syntax_y 4 ∷ [])))
        (refused.FreeVariable 4) }
    // (forall x. num(x)) and num(x)
    ensures out_of_scope { IsRuleRefused (AndTree 5 (ForallTree 1 (bind_x 2 ∷ []) (num_atom 3 (syntax_x 4 ∷ [])))
        (num_atom 6 (syntax_x 7 ∷ [])))
        (refused.FreeVariable 7) }
    // forall x. exists x. go()
    ensures bound_again { IsRuleRefused (ForallTree 1 (bind_x 2 ∷ []) (ExistsTree 3 (bind_x 4 ∷ []) (go_atom 5 [])))
        (refused.Rebound 4) }
    // exists x, x. go()
    ensures bound_twice { IsRuleRefused (ExistsTree 1 (bind_x 2 ∷ bind_x 3 ∷ []) (go_atom 4 []))
        (refused.Rebound 3) }
    // (exists x. num(x)) or (exists x. txt(x))
    ensures side_by_side { HasNoRefusal (OrTree 5 (ExistsTree 1 (bind_x 2 ∷ []) (num_atom 3 (syntax_x 4 ∷ [])))
        (ExistsTree 6 (bind_x 7 ∷ []) (txt_atom 8 (syntax_x 9 ∷ [])))) }
{}

/// The sorts of terms.
pub fn sorts()
    ensures constant { IsRuleRefused (num_atom 1 (syntax_letter 2 ∷ [])) (refused.SortClash 2) }
    ensures second_column { IsRuleRefused (two_atom 1 (syntax_one 2 ∷ syntax_one 3 ∷ [])) (refused.SortClash 3) }
    // forall x. num(x) and txt(x)
    ensures later_place { IsRuleRefused (ForallTree 1 (bind_x 2 ∷ [])
        (AndTree 5 (num_atom 3 (syntax_x 4 ∷ [])) (txt_atom 6 (syntax_x 7 ∷ []))))
        (refused.SortClash 7) }
    // forall x. two(x,x)
    ensures within_an_event { IsRuleRefused (ForallTree 1 (bind_x 2 ∷ [])
        (two_atom 3 (syntax_x 4 ∷ syntax_x 5 ∷ [])))
        (refused.SortClash 5) }
    ensures less_wants_int { IsRuleRefused (LessTree 2 (syntax_letter 1) (syntax_one 3)) (refused.SortClash 1) }
    ensures at_most_wants_int { IsRuleRefused (AtMostTree 2 (syntax_one 1) (syntax_letter 3)) (refused.SortClash 3) }
    // forall x. x < 1 and txt(x)
    ensures less_gives_int { IsRuleRefused (ForallTree 1 (bind_x 2 ∷ [])
        (AndTree 6 (LessTree 4 (syntax_x 3) (syntax_one 5)) (txt_atom 7 (syntax_x 8 ∷ []))))
        (refused.SortClash 8) }
    ensures equal_constants { IsRuleRefused (EqualTree 2 (syntax_one 1) (syntax_letter 3)) (refused.SortClash 3) }
    // forall x, y. x = y and (num(x) and txt(y)): neither sort is known at `=`, and nothing is wanted
    ensures equal_unknown { HasNoRefusal (ForallTree 1 (bind_x 2 ∷ bind_y 3 ∷ [])
        (AndTree 7 (EqualTree 5 (syntax_x 4) (syntax_y 6))
        (AndTree 10 (num_atom 8 (syntax_x 9 ∷ [])) (txt_atom 11 (syntax_y 12 ∷ []))))) }
    // forall x, y. num(x) and (x = y and txt(y)): y gets the sort of x
    ensures equal_gives_the_right { IsRuleRefused (ForallTree 1 (bind_x 2 ∷ bind_y 3 ∷ [])
        (AndTree 6 (num_atom 4 (syntax_x 5 ∷ [])) (AndTree 10 (EqualTree 8 (syntax_x 7) (syntax_y 9))
        (txt_atom 11 (syntax_y 12 ∷ []))))) (refused.SortClash 12) }
    // forall x, y. num(y) and (x = y and txt(x)): x gets the sort of y
    ensures equal_gives_the_left { IsRuleRefused (ForallTree 1 (bind_x 2 ∷ bind_y 3 ∷ [])
        (AndTree 6 (num_atom 4 (syntax_y 5 ∷ [])) (AndTree 10 (EqualTree 8 (syntax_x 7) (syntax_y 9))
        (txt_atom 11 (syntax_x 12 ∷ []))))) (refused.SortClash 12) }
{}

/// The first of several refusals, and the tree where there is none.
pub fn answers()
    // lost() and num("a")
    ensures first { IsRuleRefused (AndTree 2 (lost_atom 1 []) (num_atom 3 (syntax_letter 4 ∷ [])))
        (refused.UnknownName 1) }
    // num("a") and lost()
    ensures in_order { IsRuleRefused (AndTree 3 (num_atom 1 (syntax_letter 2 ∷ [])) (lost_atom 4 []))
        (refused.SortClash 2) }
    ensures rules_in_order { policy_refusal reader_case_entries
        (rule_of_tree (go_atom 1 []) ∷ rule_of_tree (lost_atom 2 []) ∷ rule_of_tree (num_atom 3 []) ∷ [])
        ≡ Some (refused.UnknownName 2) }
    ensures no_rule { policy_refusal reader_case_entries [] ≡ None }
    // exists x. num(x) and (exists y. two(x,y)): variables by the order of their binding
    ensures numbered { ResolvesTo (ExistsTree 1 (bind_x 2 ∷ [])
        (AndTree 5 (num_atom 3 (syntax_x 4 ∷ [])) (ExistsTree 6 (bind_y 7 ∷ [])
        (two_atom 8 (syntax_x 9 ∷ syntax_y 10 ∷ [])))))
        (tree.Exists 1 (variable_id 0 ∷ []) (tree.And 5 (tree.Atom 3 name_num (variable_term 0 ∷ []))
        (tree.Exists 6 (variable_id 1 ∷ []) (tree.Atom 8 name_two (variable_term 0 ∷ variable_term 1 ∷ []))))) }
    // (exists x. num(x)) or (exists x. num(x)): two variables
    ensures numbered_side_by_side { ResolvesTo (OrTree 5
        (ExistsTree 1 (bind_x 2 ∷ []) (num_atom 3 (syntax_x 4 ∷ [])))
        (ExistsTree 6 (bind_x 7 ∷ []) (num_atom 8 (syntax_x 9 ∷ []))))
        (tree.Or 5 (tree.Exists 1 (variable_id 0 ∷ []) (tree.Atom 3 name_num (variable_term 0 ∷ [])))
        (tree.Exists 6 (variable_id 1 ∷ []) (tree.Atom 8 name_num (variable_term 1 ∷ [])))) }
    ensures named { bound_names (OrTree 5 (ExistsTree 1 (bind_x 2 ∷ bind_y 3 ∷ []) (go_atom 4 []))
        (ExistsTree 6 (bind_x 7 ∷ []) (go_atom 8 [])))
        ≡ codes "x" ∷ codes "y" ∷ codes "x" ∷ [] }
{}

/// Canonical texts.
pub fn texts()
    ensures atom { HasFormulaText (tree.Atom 0 name_two (variable_term 0 ∷ Const (TextConstant (codes "a")) ∷ []))
        (codes "two(x,\"a\")") }
    ensures no_terms { HasFormulaText said_go (codes "go()") }
    ensures comparison { HasFormulaText (tree.AtMost 0 (variable_term 0) (Const (Num (pos 1)))) (codes "x <= 1") }
    ensures not_atom { HasFormulaText (tree.Not 0 said_go) (codes "not go()") }
    ensures not_comparison { HasFormulaText (tree.Not 0 (tree.Equal 0 (variable_term 0) (variable_term 1)))
        (codes "not (x = y)") }
    ensures not_not { HasFormulaText (tree.Not 0 (tree.Not 0 (tree.True 0))) (codes "not (not true)") }
    ensures grouped_left { HasFormulaText (tree.Implies 0 (tree.And 0 said_go said_num) (tree.False 0))
        (codes "(go() and num(x)) -> false") }
    ensures grouped_right { HasFormulaText (tree.Or 0 said_go (tree.Or 0 said_num said_go))
        (codes "go() or (num(x) or go())") }
    ensures quantified { HasFormulaText (tree.Forall 0 (variable_id 0 ∷ variable_id 1 ∷ [])
        (tree.Less 0 (variable_term 0) (variable_term 1)))
        (codes "forall x, y. (x < y)") }
    ensures quantified_atom { HasFormulaText (tree.Exists 0 (variable_id 0 ∷ []) said_num) (codes "exists x. num(x)") }
    ensures timed { HasFormulaText (tree.Once 0 from_two_to_five said_go) (codes "once[2,5] go()") }
    ensures timed_for_ever { HasFormulaText (tree.Since 0 from_two_on said_go (tree.Not 0 said_go))
        (codes "go() since[2,*] (not go())") }
{}

/// The levels of the tokens of canonical texts.
pub fn levels()
    // rule r: go() -> (go() -> go());
    ensures right_operands { HasTextLevels (tree.Implies 0 said_go (tree.Implies 0 said_go said_go))
        (0 ∷ 0 ∷ 0 ∷ 0 ∷ 0 ∷ 1 ∷ 0 ∷ 1 ∷ 2 ∷ 2 ∷ 3 ∷ 2 ∷ 3 ∷ 3 ∷ 4 ∷ 2 ∷ 0 ∷ []) }
    // rule r: go() since[2,*] (not go());
    ensures interval { HasTextLevels (tree.Since 0 from_two_on said_go (tree.Not 0 said_go))
        (0 ∷ 0 ∷ 0 ∷ 0 ∷ 0 ∷ 1 ∷ 0 ∷ 0 ∷ 0 ∷ 0 ∷ 0 ∷ 0 ∷ 1 ∷ 2 ∷ 3
        ∷ 3 ∷ 4 ∷ 2 ∷ 0 ∷ []) }
    // rule r: forall x. (num(x) and (once[2,5] go()));
    ensures nested { HasTextLevels (tree.Forall 0 (variable_id 0 ∷ [])
        (tree.And 0 said_num (tree.Once 0 from_two_to_five said_go)))
        (0 ∷ 0 ∷ 0 ∷ 0 ∷ 1 ∷ 1 ∷ 1 ∷ 2 ∷ 2 ∷ 3 ∷ 3 ∷ 2 ∷ 3 ∷ 4 ∷ 5 ∷ 5 ∷ 5 ∷ 5 ∷ 5
        ∷ 5 ∷ 5 ∷ 6 ∷ 4 ∷ 2 ∷ 0 ∷ []) }
{}

/// What a policy that was read is.
pub fn well_formed()
    // exists x. num(x)
    ensures scoped { IsScopedFormula (exists_x said_num) [] }
    // num(x)
    ensures free { IsScopedFormula said_num [] → ⊥ }
    // exists x. exists x. go(), with one number for both
    ensures bound_again { IsScopedFormula (exists_x (exists_x said_go)) [] → ⊥ }
    ensures bound_twice { IsScopedFormula (tree.Exists 0 (variable_id 0 ∷ variable_id 0 ∷ []) said_go) [] → ⊥ }
    // the number above comes first
    ensures falling { IsScopedFormula (tree.Exists 0 (variable_id 1 ∷ variable_id 0 ∷ []) said_go) [] → ⊥ }
    // (exists x. go()) or (exists y. go()), numbered on
    ensures numbered { bound_variables (tree.Or 0 (exists_x said_go) (tree.Exists 0 (variable_id 1 ∷ []) said_go))
        ≡ numbered_variables 0 2 }
    ensures arity { IsPolicyFormula reader_case_entries 0 said_num }
    ensures too_few { IsPolicyFormula reader_case_entries 0 (tree.Atom 0 name_two (variable_term 0 ∷ [])) → ⊥ }
    ensures unknown { IsPolicyFormula reader_case_entries 0 (tree.Atom 0 name_none []) → ⊥ }
    ensures last_end { IsPolicyFormula reader_case_entries 0 (once_up_to 1000000000) }
    ensures end_too_great { IsPolicyFormula reader_case_entries 0 (once_up_to 1000000001) → ⊥ }
    ensures backwards { IsPolicyFormula reader_case_entries 0 (once_up_to 1) → ⊥ }
    ensures sixteen_in_scope { IsPolicyFormula reader_case_entries 15 (exists_x said_go) }
    ensures seventeen_in_scope { IsPolicyFormula reader_case_entries 16 (exists_x said_go) → ⊥ }
{}
