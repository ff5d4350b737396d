//! Worked cases of satisfaction, each a clause of a function with an empty body.
ghost use Rattle.std.specs.Prelude.{pos, negsuc, [], ◌∷◌};
ghost use Rattle.enf_formula.specs.machine.Cases.{HoldsUnbound, FailsUnbound, HoldsFor3, FailsFor3, interval_between};
ghost use Rattle.enf_formula.specs.machine.Cases.{interval_from, two_steps, broken_after, broken_before, q_p_at_4};
ghost use Rattle.enf_formula.specs.machine.Cases.{p_1_q_1, p_1_q_1_p_a, p_1_q_2, empty_step, variable_x, number_term};
ghost use Rattle.enf_formula.specs.machine.Cases.{text_term, formula_p, formula_q, formula_p_x, formula_q_x};
ghost use Rattle.enf_formula.specs.meaning.Satisfaction as tree;

/// The operators on the past.
pub fn past()
    ensures prev_ends { HoldsFor3 two_steps 1 (λ interval. tree.Prev 0 interval formula_q) }
    ensures once_ends { HoldsFor3 two_steps 1 (λ interval. tree.Once 0 interval formula_q) }
    ensures since_ends { HoldsFor3 two_steps 1
        (λ interval. tree.Since 0 interval formula_p formula_q) }
    ensures historically_ends { FailsFor3 two_steps 1
        (λ interval. tree.Historically 0 interval formula_p) }
    ensures since_unbroken { HoldsUnbound broken_after 1 (tree.Since 0 (interval_from 0) formula_p formula_q) }
    ensures since_broken_once { FailsUnbound broken_after 3
        (tree.Since 0 (interval_from 0) formula_p formula_q) }
    ensures since_broken_now { FailsUnbound broken_after 2 (tree.Since 0 (interval_from 0) formula_p formula_q) }
    ensures since_at_once { HoldsUnbound two_steps 0 (tree.Since 0 (interval_between 0 0) formula_p formula_q) }
    ensures historically_one_lacks { FailsUnbound broken_after 3
        (tree.Historically 0 (interval_between 0 2) formula_p) }
    ensures prev_at_one_time { HoldsUnbound q_p_at_4 1 (tree.Prev 0 (interval_between 0 0) formula_q) }
    ensures since_at_one_time { HoldsUnbound q_p_at_4 1
        (tree.Since 0 (interval_between 0 0) formula_p formula_q) }
    ensures later_at_one_time { FailsUnbound q_p_at_4 0 (tree.Once 0 (interval_between 0 0) formula_p) }
    ensures prev_at_first { FailsUnbound two_steps 0 (tree.Prev 0 (interval_from 0) (tree.True 0)) }
    ensures once_with_no_past { FailsUnbound two_steps 0 (tree.Once 0 (interval_from 1) (tree.True 0)) }
    ensures historically_with_no_past { HoldsUnbound two_steps 0
        (tree.Historically 0 (interval_from 1) (tree.False 0)) }
{}

/// The operators on the future.
pub fn future()
    ensures next_ends { HoldsFor3 two_steps 0 (λ interval. tree.Next 0 interval formula_p) }
    ensures eventually_ends { HoldsFor3 two_steps 0
        (λ interval. tree.Eventually 0 interval formula_p) }
    ensures until_ends { HoldsFor3 two_steps 0
        (λ interval. tree.Until 0 interval formula_q formula_p) }
    ensures always_ends { FailsFor3 two_steps 0 (λ interval. tree.Always 0 interval formula_q) }
    ensures until_unbroken { HoldsUnbound broken_before 2 (tree.Until 0 (interval_from 0) formula_p formula_q) }
    ensures until_broken_once { FailsUnbound broken_before 0
        (tree.Until 0 (interval_from 0) formula_p formula_q) }
    ensures until_broken_now { FailsUnbound broken_before 1
        (tree.Until 0 (interval_from 0) formula_p formula_q) }
    ensures always_one_lacks { FailsUnbound broken_before 0 (tree.Always 0 (interval_between 0 2) formula_p) }
    ensures next_at_one_time { HoldsUnbound q_p_at_4 0 (tree.Next 0 (interval_between 0 0) formula_p) }
    ensures earlier_at_one_time { FailsUnbound q_p_at_4 1 (tree.Eventually 0 (interval_between 0 0) formula_q) }
    ensures next_at_last { FailsUnbound two_steps 1 (tree.Next 0 (interval_from 0) (tree.True 0)) }
    ensures eventually_at_last { FailsUnbound two_steps 1 (tree.Eventually 0 (interval_from 1) (tree.True 0)) }
    ensures until_at_last { FailsUnbound two_steps 1 (tree.Until 0 (interval_from 0) formula_p formula_q) }
    ensures until_at_once { HoldsUnbound two_steps 1 (tree.Until 0 (interval_between 0 0) formula_q formula_p) }
    ensures always_at_last { HoldsUnbound two_steps 1 (tree.Always 0 (interval_from 1) (tree.False 0)) }
    ensures eventually_on_no_step { FailsUnbound [] 0 (tree.Eventually 0 (interval_from 0) (tree.True 0)) }
    ensures always_on_no_step { HoldsUnbound [] 0 (tree.Always 0 (interval_from 0) (tree.False 0)) }
{}

/// Quantifiers over all values, and comparisons.
pub fn first_order()
    ensures each_p_has_q { HoldsUnbound p_1_q_1 0
        (tree.Forall 0 (variable_x ∷ []) (tree.Implies 0 formula_p_x formula_q_x)) }
    ensures one_p_lacks_q { FailsUnbound p_1_q_1_p_a 0
        (tree.Forall 0 (variable_x ∷ []) (tree.Implies 0 formula_p_x formula_q_x)) }
    ensures some_p { HoldsUnbound p_1_q_1 0 (tree.Exists 0 (variable_x ∷ []) formula_p_x) }
    ensures no_p { FailsUnbound empty_step 0 (tree.Exists 0 (variable_x ∷ []) formula_p_x) }
    ensures some_value_lacks_p { HoldsUnbound p_1_q_1 0
        (tree.Exists 0 (variable_x ∷ []) (tree.Not 0 formula_p_x)) }
    ensures not_each_value { FailsUnbound p_1_q_1 0 (tree.Forall 0 (variable_x ∷ []) formula_p_x) }
    ensures inner_binding_counts { HoldsUnbound p_1_q_2 0
        (tree.Exists 0 (variable_x ∷ []) (tree.And 0 formula_p_x (tree.Exists 0 (variable_x ∷ []) formula_q_x))) }
    ensures one_binding_for_both { FailsUnbound p_1_q_2 0
        (tree.Exists 0 (variable_x ∷ []) (tree.And 0 formula_p_x formula_q_x)) }
    ensures same { HoldsUnbound empty_step 0 (tree.Equal 0 (number_term (pos 3)) (number_term (pos 3))) }
    ensures not_same { FailsUnbound empty_step 0 (tree.Equal 0 (number_term (pos 3)) (text_term (51 ∷ []))) }
    ensures less { HoldsUnbound empty_step 0 (tree.Less 0 (number_term (negsuc 0)) (number_term (pos 0))) }
    ensures not_less { FailsUnbound empty_step 0 (tree.Less 0 (number_term (pos 3)) (number_term (pos 3))) }
    ensures at_most { HoldsUnbound empty_step 0 (tree.AtMost 0 (number_term (pos 3)) (number_term (pos 3))) }
    ensures not_at_most { FailsUnbound empty_step 0 (tree.AtMost 0 (number_term (pos 4)) (number_term (pos 3))) }
    ensures same_texts { HoldsUnbound empty_step 0 (tree.Equal 0 (text_term (97 ∷ [])) (text_term (97 ∷ []))) }
    ensures texts_have_no_order { FailsUnbound empty_step 0
        (tree.AtMost 0 (text_term (97 ∷ [])) (text_term (97 ∷ []))) }
{}
