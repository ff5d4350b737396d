//! Worked cases of definitions, each a clause of a function with an empty body.
ghost use Rattle.std.specs.Prelude.{◌≡◌, [], ◌∷◌, pos};
ghost use Rattle.count_guard.specs.machine.Cases.{case_variable, differ_of, atom_of_p, p_1_p_2, some_q_of};
ghost use Rattle.definitions.specs.machine.Cases.{defined_atom, defines_many, defines_one, defines_over};
ghost use Rattle.definitions.specs.machine.Cases.{defines_too_soon, name_many, name_one, name_over, name_too_soon};
ghost use Rattle.definitions.specs.machine.Cases.{variable_of_rule};
ghost use Rattle.definitions.specs.meaning.DefinedNames.{SatDefined};
ghost use Rattle.definitions.specs.meaning.UnfoldedFormulas.{rule_unfolded};
ghost use Rattle.enf_data.specs.meaning.Valuations.{no_values};
ghost use Rattle.enf_formula.specs.machine.Cases.{empty_step, number_term, p_1_q_1};
ghost use Rattle.enf_formula.specs.meaning.Satisfaction as tree;

/// Unfolded rules.
pub fn unfolded_rules()
    ensures replaced { rule_unfolded (defines_one ∷ []) (tree.Forall 1 (case_variable 5 ∷ [])
        (defined_atom 9 name_one (variable_of_rule 5 ∷ [])))
        ≡ tree.Forall 1 (case_variable 0 ∷ []) (atom_of_p 9 0) }
    ensures over_another { rule_unfolded (defines_over ∷ defines_one ∷ [])
        (tree.Exists 1 (case_variable 5 ∷ case_variable 6 ∷ [])
        (defined_atom 9 name_over (variable_of_rule 6 ∷ variable_of_rule 5 ∷ [])))
        ≡ tree.Exists 1 (case_variable 0 ∷ case_variable 1 ∷ []) (tree.And 9 (atom_of_p 9 0) (some_q_of 9 1 2)) }
    ensures counted { rule_unfolded (defines_many ∷ defines_one ∷ []) (tree.Not 1 (defined_atom 9 name_many []))
        ≡ tree.Not 1 (tree.Exists 9 (case_variable 0 ∷ case_variable 1 ∷ [])
        (tree.And 9 (atom_of_p 9 0) (tree.And 9 (atom_of_p 9 1) (differ_of 9 0 1)))) }
    ensures numbered_on { rule_unfolded (defines_over ∷ defines_one ∷ [])
        (tree.Exists 1 (case_variable 0 ∷ []) (tree.And 2
        (defined_atom 9 name_over (variable_of_rule 0 ∷ variable_of_rule 0 ∷ [])) (some_q_of 4 0 1)))
        ≡ tree.Exists 1 (case_variable 0 ∷ []) (tree.And 2 (tree.And 9 (atom_of_p 9 0) (some_q_of 9 0 1)) (some_q_of 4 0 2)) }
    ensures no_later_one { rule_unfolded (defines_one ∷ defines_too_soon ∷ [])
        (tree.Exists 1 (case_variable 0 ∷ []) (defined_atom 9 name_too_soon (variable_of_rule 0 ∷ [])))
        ≡ tree.Exists 1 (case_variable 0 ∷ []) (defined_atom 9 name_one (variable_of_rule 0 ∷ [])) }
{}

/// When atoms of defined names hold.
pub fn defined_atoms()
    ensures there { SatDefined (defines_one ∷ []) p_1_q_1 0 no_values
        (defined_atom 0 name_one (number_term (pos 1) ∷ [])) }
    ensures other_value { SatDefined (defines_one ∷ []) p_1_q_1 0 no_values
        (defined_atom 0 name_one (number_term (pos 2) ∷ [])) → ⊥ }
    ensures two { SatDefined (defines_many ∷ defines_one ∷ []) p_1_p_2 0 no_values (defined_atom 0 name_many []) }
    ensures none { SatDefined (defines_many ∷ defines_one ∷ []) empty_step 0 no_values (defined_atom 0 name_many [])
        → ⊥ }
    ensures no_later_one { SatDefined (defines_one ∷ defines_too_soon ∷ []) p_1_q_1 0 no_values
        (defined_atom 0 name_too_soon (number_term (pos 1) ∷ [])) → ⊥ }
{}
