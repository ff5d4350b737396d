//! Worked cases of safety, each a clause of a function with an empty body.
ghost use Rattle.std.specs.Prelude.{[], ◌∷◌};
ghost use Rattle.enf_formula.specs.machine.Cases.{variable_x, formula_p, formula_p_x, formula_q_x, interval_from};
ghost use Rattle.monitorable_guard.specs.machine.Cases.{IsSafe, IsSafeUnderX, guard_case_y, guard_term_x, guard_term_y};
ghost use Rattle.monitorable_guard.specs.machine.Cases.{three, formula_q_y, formula_p_x_y, below_three};
ghost use Rattle.enf_formula.specs.meaning.Satisfaction as tree;

/// Formulas that can be evaluated.
pub fn safe()
    ensures constant { IsSafe (tree.Equal 0 guard_term_x three) }
    ensures turned { IsSafe (tree.Equal 0 three guard_term_x) }
    ensures copied { IsSafeUnderX (tree.Equal 0 guard_term_y guard_term_x) }
    ensures compared { IsSafeUnderX below_three }
    ensures left_first { IsSafe (tree.And 0 formula_p_x below_three) }
    ensures denied_right { IsSafe (tree.And 0 formula_p_x (tree.Not 0 formula_q_x)) }
    ensures same_variables { IsSafe (tree.Or 0 formula_p_x formula_q_x) }
    ensures each { IsSafe (tree.Forall 0 (variable_x ∷ []) (tree.Implies 0 formula_p_x formula_q_x)) }
    ensures none { IsSafe (tree.Forall 0 (variable_x ∷ []) (tree.Not 0 formula_p_x)) }
    ensures nested { IsSafe (tree.Forall 0 (variable_x ∷ []) (tree.Forall 0 (guard_case_y ∷ [])
        (tree.Implies 0 formula_p_x_y formula_q_y))) }
    ensures since { IsSafe (tree.Since 0 (interval_from 0) below_three formula_p_x) }
    ensures historically_denied { IsSafeUnderX (tree.Historically 0 (interval_from 0)
        (tree.Not 0 formula_p_x)) }
    ensures historically_condition { IsSafeUnderX (tree.Historically 0 (interval_from 0)
        (tree.Implies 0 formula_p_x formula_q_x)) }
{}

/// Formulas that cannot, as they stand.
pub fn not_safe()
    ensures open_denial { IsSafe (tree.Not 0 formula_p_x) → ⊥ }
    ensures open_equality { IsSafe (tree.Equal 0 guard_term_x guard_term_y) → ⊥ }
    ensures itself { IsSafe (tree.Equal 0 guard_term_x guard_term_x) → ⊥ }
    ensures open_comparison { IsSafe below_three → ⊥ }
    ensures right_first { IsSafe (tree.And 0 below_three formula_p_x) → ⊥ }
    ensures other_variables { IsSafe (tree.Or 0 formula_p_x formula_q_y) → ⊥ }
    ensures open_condition { IsSafe (tree.Implies 0 formula_p formula_p_x) → ⊥ }
    ensures each_value { IsSafe (tree.Forall 0 (variable_x ∷ []) formula_p_x) → ⊥ }
    ensures range_too_small { IsSafe (tree.Forall 0 (variable_x ∷ guard_case_y ∷ [])
        (tree.Implies 0 formula_p_x formula_q_y)) → ⊥ }
    ensures once_by_itself { IsSafeUnderX (tree.Once 0 (interval_from 0) below_three) → ⊥ }
    ensures open_history { IsSafe (tree.Historically 0 (interval_from 0) formula_p_x) → ⊥ }
    ensures history_by_itself { IsSafeUnderX (tree.Historically 0 (interval_from 0) formula_p_x) → ⊥ }
    ensures since_left { IsSafe (tree.Since 0 (interval_from 0) formula_q_y formula_p_x) → ⊥ }
    ensures future { IsSafe (tree.Eventually 0 (interval_from 0) formula_p) → ⊥ }
{}
