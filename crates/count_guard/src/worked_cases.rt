//! Worked cases of copies and counts, each a clause of a function with an empty body.
ghost use Rattle.std.specs.Prelude.{◌≡◌, [], ◌∷◌};
ghost use Rattle.enf_data.specs.declared.terms.Term.TheVariants.{Var};
ghost use Rattle.enf_formula.specs.machine.Cases.{empty_step};
ghost use Rattle.enf_formula.specs.meaning.Satisfaction as tree;
ghost use Rattle.count_guard.specs.declared.counting.CountKind.TheVariants as kinds;
ghost use Rattle.count_guard.specs.machine.Cases.{case_variable, equal_of, atom_of_p, q_of, some_q_of, differ_of};
ghost use Rattle.count_guard.specs.machine.Cases.{p_1_p_2, p_1_twice, p_with, once_p_with};
ghost use Rattle.count_guard.specs.meaning.CountFormulas.{after_count, count_as};
ghost use Rattle.count_guard.specs.meaning.DifferentLists.{IsCount};
ghost use Rattle.count_guard.specs.meaning.FormulaCopies.{copy_of, with_term};

/// The formulas of counts.
pub fn formulas()
    ensures at_least_2 { count_as kinds.AtLeast 2 (case_variable 0 ∷ []) (atom_of_p 0 0) 5 7
        ≡ tree.Exists 7 (case_variable 5 ∷ case_variable 6 ∷ [])
        (tree.And 7 (atom_of_p 7 5) (tree.And 7 (atom_of_p 7 6) (differ_of 7 5 6))) }
    ensures at_least_3 { count_as kinds.AtLeast 3 (case_variable 0 ∷ []) (atom_of_p 0 0) 5 7
        ≡ tree.Exists 7 (case_variable 5 ∷ case_variable 6 ∷ case_variable 7 ∷ [])
        (tree.And 7 (atom_of_p 7 5) (tree.And 7 (atom_of_p 7 6) (tree.And 7 (differ_of 7 5 6)
        (tree.And 7 (atom_of_p 7 7) (tree.And 7 (differ_of 7 5 7) (differ_of 7 6 7)))))) }
    ensures at_most_1 { count_as kinds.AtMost 1 (case_variable 0 ∷ []) (atom_of_p 0 0) 5 7
        ≡ tree.Not 7 (tree.Exists 7 (case_variable 5 ∷ case_variable 6 ∷ [])
        (tree.And 7 (atom_of_p 7 5) (tree.And 7 (atom_of_p 7 6) (differ_of 7 5 6)))) }
    ensures exactly_1 { count_as kinds.Exactly 1 (case_variable 0 ∷ []) (atom_of_p 0 0) 5 7
        ≡ tree.And 7 (tree.Exists 7 (case_variable 5 ∷ []) (atom_of_p 7 5))
        (tree.Not 7 (tree.Exists 7 (case_variable 6 ∷ case_variable 7 ∷ [])
        (tree.And 7 (atom_of_p 7 6) (tree.And 7 (atom_of_p 7 7) (differ_of 7 6 7))))) }
    ensures two_counted { count_as kinds.AtLeast 2 (case_variable 0 ∷ case_variable 1 ∷ []) (q_of 0 0 1) 5 7
        ≡ tree.Exists 7 (case_variable 5 ∷ case_variable 6 ∷ case_variable 7 ∷ case_variable 8 ∷ [])
        (tree.And 7 (q_of 7 5 6) (tree.And 7 (q_of 7 7 8)
        (tree.Not 7 (tree.And 7 (equal_of 7 5 7) (equal_of 7 6 8))))) }
    ensures bound_anew { count_as kinds.AtLeast 2 (case_variable 0 ∷ []) (some_q_of 0 0 1) 5 7
        ≡ tree.Exists 7 (case_variable 5 ∷ case_variable 6 ∷ [])
        (tree.And 7 (some_q_of 7 5 7) (tree.And 7 (some_q_of 7 6 8) (differ_of 7 5 6))) }
    ensures not_captured { copy_of 7 (with_term (case_variable 0) (Var (case_variable 5)) Var) 6 (some_q_of 0 0 5)
        ≡ some_q_of 7 5 6 }
    ensures unused { after_count kinds.Exactly 1 (case_variable 0 ∷ []) (some_q_of 0 0 1) 5 ≡ 11 }
{}

/// How many lists of values there are.
pub fn counts()
    ensures two { IsCount kinds.AtLeast 2 1 (p_with p_1_p_2) }
    ensures not_three { IsCount kinds.AtLeast 3 1 (p_with p_1_p_2) → ⊥ }
    ensures two_at_most { IsCount kinds.AtMost 2 1 (p_with p_1_p_2) }
    ensures more_than_one { IsCount kinds.AtMost 1 1 (p_with p_1_p_2) → ⊥ }
    ensures exactly_two { IsCount kinds.Exactly 2 1 (p_with p_1_p_2) }
    ensures not_exactly_one { IsCount kinds.Exactly 1 1 (p_with p_1_p_2) → ⊥ }
    ensures none_at_all { IsCount kinds.AtMost 1 1 (p_with empty_step) }
    ensures one_value_twice { IsCount kinds.AtLeast 2 1 (once_p_with p_1_twice) → ⊥ }
{}
