//! Worked cases of the definitions, each a clause of a function with an empty body.
ghost use Rattle.std.specs.Prelude.{◌≡◌, [], ◌∷◌};
ghost use Rattle.enf_formula.specs.machine.Cases.{formula_p_x, formula_q_x, interval_between};
ghost use Rattle.enf_formula.specs.meaning.Satisfaction as tree;
ghost use Rattle.slices.specs.declared.hindrances.Why.TheVariants.{Neighbour, OtherKey};
ghost use Rattle.slices.specs.machine.Cases.{is_key_1, p_has_key, p_and_q_have_keys, two_keys, p_1_alone};
ghost use Rattle.slices.specs.machine.Cases.{p_1_and_shared, log_of_2, for_each_p, for_each_q, twice_in_the_way};
ghost use Rattle.slices.specs.machine.Cases.{other_key_before, x_is_1, once_not_p_x};
ghost use Rattle.slices.specs.meaning.SlicedLogs.{slice_of_log};
ghost use Rattle.slices.specs.meaning.SlicedRules.{IsFirstHindrance, IsRuleInTheWay, IsSlicedRule};
ghost use Rattle.slices.specs.meaning.Slices.{origin, slice_of};
ghost use Rattle.trace_meaning.specs.meaning.Traces.{Tick};

/// Slices, rules of one key, and what is in the way of others.
pub fn slicing()
    ensures shared_stays { slice_of p_has_key is_key_1 two_keys ≡ p_1_and_shared }
    ensures other_key_goes { slice_of p_and_q_have_keys is_key_1 two_keys ≡ p_1_alone }
    ensures comes_from_the_last { origin p_has_key is_key_1 two_keys 1 ≡ 3 }
    ensures ticks_where_left_out { slice_of_log p_has_key is_key_1 log_of_2 ≡ Tick 1 ∷ Tick 4 ∷ [] }
    ensures answered_in_time { IsSlicedRule p_and_q_have_keys
        (for_each_p (tree.Eventually 0 (interval_between 0 3) formula_q_x)) }
    ensures asks_what_is_shared { IsSlicedRule p_has_key
        (for_each_p (tree.Once 0 (interval_between 0 3) formula_q_x)) }
    ensures none_before { IsSlicedRule p_and_q_have_keys
        (for_each_p (tree.Historically 0 (interval_between 1 3) (tree.Not 0 formula_q_x))) }
    ensures all_before { IsSlicedRule p_and_q_have_keys
        (for_each_p (tree.Historically 0 (interval_between 1 3) formula_q_x)) → ⊥ }
    ensures the_step_before { IsSlicedRule p_and_q_have_keys
        (for_each_p (tree.Prev 0 (interval_between 0 3) formula_q_x)) → ⊥ }
    ensures wanted_by_what_is_shared { IsSlicedRule p_has_key
        (for_each_q (tree.Once 0 (interval_between 0 3) formula_p_x)) → ⊥ }
    ensures no_key { IsSlicedRule p_has_key (for_each_q formula_q_x) → ⊥ }
    ensures first_in_the_way { IsFirstHindrance (IsRuleInTheWay p_and_q_have_keys twice_in_the_way)
        (record { place = 7; why = Neighbour }) }
    ensures second_in_the_way { IsFirstHindrance (IsRuleInTheWay p_and_q_have_keys twice_in_the_way)
        (record { place = 9; why = OtherKey }) → ⊥ }
    ensures holds_by_another_key { tree.Sat other_key_before 1 x_is_1 once_not_p_x }
    ensures fails_without_it { tree.Sat (slice_of p_has_key is_key_1 other_key_before) 0 x_is_1 once_not_p_x → ⊥ }
{}
