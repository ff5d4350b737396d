//! Worked cases of the definitions, each a clause of a function with an empty body.
ghost use Rattle.std.specs.Prelude.{◌≡◌, [], ◌∷◌, None, Some};
ghost use Rattle.enf_data.specs.meaning.Valuations.{no_values};
ghost use Rattle.enf_formula.specs.machine.Cases.{event_p_of, event_q, event_q_of, formula_p, formula_p_x, formula_q};
ghost use Rattle.enf_formula.specs.machine.Cases.{formula_q_x, interval_between, interval_from, variable_x};
ghost use Rattle.plan_terms.specs.machine.Cases.{cause_p, each_soon, plan_cause_q_x, x_is};
ghost use Rattle.sleepers.specs.machine.Patterns.{HasNone, MatchesPattern};
ghost use Rattle.wake_patterns.specs.machine.Cases.{goal_of_past, no_q, p_alone, p_open, q_alone, q_fixed, q_open};
ghost use Rattle.wake_patterns.specs.machine.Cases.{value_one, value_two, x_below_two};
ghost use Rattle.wake_patterns.specs.machine.WakePatterns.{early_patterns, fails_without, holds_without, narrower};
ghost use Rattle.wake_patterns.specs.machine.WakePatterns.{waiting_patterns, wake_patterns};
ghost use Rattle.enf_formula.specs.meaning.Satisfaction as formula;
ghost use Rattle.plan_terms.specs.meaning.Plans as plan;

/// Events and patterns: q(1) and q of anything.
pub fn patterns()
    ensures fixed { MatchesPattern (q_fixed value_one) (event_q_of value_one) }
    ensures another_value { MatchesPattern (q_fixed value_one) (event_q_of value_two) → ⊥ }
    ensures open { MatchesPattern q_open (event_q_of value_two) }
    ensures another_name { MatchesPattern q_open (event_p_of value_one) → ⊥ }
    ensures no_argument { MatchesPattern q_open event_q → ⊥ }
    ensures none_there { HasNone (q_fixed value_one ∷ []) (event_q_of value_two ∷ event_p_of value_one ∷ []) }
    ensures one_there { HasNone (q_fixed value_two ∷ q_fixed value_one ∷ []) (event_q_of value_one ∷ []) → ⊥ }
{}

/// What wakes guards and tests.
pub fn guards()
    ensures first_that_has_some { fails_without no_values (formula.And 0 (formula.True 0) formula_p_x)
        ≡ Some (p_open ∷ []) }
    ensures first_of_two_alike { fails_without no_values (formula.And 0 formula_q_x formula_p_x)
        ≡ Some (q_open ∷ []) }
    ensures both { fails_without no_values (formula.Or 0 formula_p_x formula_q_x)
        ≡ Some (p_open ∷ q_open ∷ []) }
    ensures not_one_alone { fails_without no_values (formula.Or 0 formula_p_x (formula.True 0)) ≡ None }
    ensures within_exists { fails_without no_values (formula.Exists 0 (variable_x ∷ []) formula_q_x)
        ≡ Some (q_open ∷ []) }
    ensures denied { fails_without no_values (formula.Not 0 formula_p) ≡ None }
    ensures denied_holds { holds_without no_values (formula.Not 0 formula_p) ≡ Some (p_alone ∷ []) }
    ensures event_does_not_hold { holds_without no_values formula_p ≡ None }
{}

/// Which of two alternatives is taken: the one of which more is fixed.
pub fn alternatives()
    ensures fixed { narrower (Some (p_open ∷ [])) (Some (q_fixed value_one ∷ [])) ≡ Some (q_fixed value_one ∷ []) }
    ensures fixed_first { narrower (Some (q_fixed value_one ∷ [])) (Some (p_open ∷ []))
        ≡ Some (q_fixed value_one ∷ []) }
    ensures alike { narrower (Some (p_open ∷ [])) (Some (q_open ∷ [])) ≡ Some (p_open ∷ []) }
    ensures each_counts { narrower (Some (q_fixed value_one ∷ p_open ∷ [])) (Some (q_fixed value_two ∷ []))
        ≡ Some (q_fixed value_two ∷ []) }
    ensures no_event { narrower (Some (q_fixed value_one ∷ [])) (Some []) ≡ Some [] }
    ensures only_one { narrower (Some (p_open ∷ [])) None ≡ Some (p_open ∷ []) }
    ensures only_the_other { narrower None (Some (p_open ∷ [])) ≡ Some (p_open ∷ []) }
    ensures beside_a_narrower_one { wake_patterns (x_is value_one)
        (plan.EventuallyPlan 0 0 0 9 (plan.Both 1 (cause_p 2) plan_cause_q_x)) ≡ Some (q_fixed value_one ∷ []) }
{}

/// What is decided once for all, of the comparison of x with 2.
pub fn constants()
    ensures holds { holds_without (x_is value_one) x_below_two ≡ Some [] }
    ensures may_not_fail { fails_without (x_is value_one) x_below_two ≡ None }
    ensures fails { fails_without (x_is value_two) x_below_two ≡ Some [] }
    ensures not_bound { fails_without no_values x_below_two ≡ None }
    ensures not_bound_holds { holds_without no_values x_below_two ≡ None }
    ensures beside_an_event { fails_without (x_is value_one) (formula.And 0 x_below_two formula_p) ≡ Some (p_alone ∷ []) }
    ensures goal { wake_patterns (x_is value_two)
        (plan.EventuallyPlan 0 0 0 9 (plan.TestOr 1 0 x_below_two (cause_p 2))) ≡ Some (p_alone ∷ []) }
    ensures never_missed { wake_patterns (x_is value_one)
        (plan.AlwaysPlan 0 0 0 9 (plan.TestOr 1 0 x_below_two no_q)) ≡ Some [] }
{}

/// What wakes operators on the future.
pub fn wakings()
    ensures bound { wake_patterns (x_is value_one) (plan.EventuallyPlan 0 0 0 9 plan_cause_q_x)
        ≡ Some (q_fixed value_one ∷ []) }
    ensures not_bound { wake_patterns no_values (plan.EventuallyPlan 0 0 0 9 plan_cause_q_x)
        ≡ Some (q_open ∷ []) }
    ensures no_event_for_what_is_not_to_be { wake_patterns no_values (plan.EventuallyPlan 0 0 0 9 no_q) ≡ None }
    ensures no_event_for_a_test { wake_patterns no_values
        (plan.EventuallyPlan 0 0 0 9 (plan.TestOr 1 0 (formula.True 0) (cause_p 2))) ≡ None }
    ensures goal_and_side { wake_patterns no_values (plan.UntilPlan 0 0 0 10 no_q (cause_p 2))
        ≡ Some (p_alone ∷ q_alone ∷ []) }
    ensures always { wake_patterns no_values (plan.AlwaysPlan 0 0 0 9 no_q) ≡ Some (q_alone ∷ []) }
    ensures always_is_looked_at { wake_patterns no_values (plan.AlwaysPlan 0 0 0 9 (cause_p 1)) ≡ None }
    ensures guard { wake_patterns no_values (plan.AlwaysPlan 0 0 0 9 each_soon) ≡ Some (p_open ∷ []) }
    ensures early { early_patterns no_values (plan.EventuallyPlan 0 0 3 9 (cause_p 1)) ≡ Some [] }
    ensures early_side { early_patterns no_values (plan.UntilPlan 0 0 3 10 no_q (cause_p 2)) ≡ Some (q_alone ∷ []) }
    ensures next { wake_patterns no_values (plan.NextPlan 0 0 10 (cause_p 1)) ≡ None }
{}

/// What wakes goals over the past, that is of q(): what q() was there for at an earlier step was met there.
pub fn past_goals()
    ensures once { waiting_patterns no_values (goal_of_past 0 (formula.Once 0 (interval_from 0) formula_q))
        ≡ Some (q_alone ∷ p_alone ∷ []) }
    ensures within { waiting_patterns no_values (goal_of_past 0 (formula.Once 0 (interval_between 0 5) formula_q))
        ≡ Some (q_alone ∷ p_alone ∷ []) }
    ensures not_of_the_step { waiting_patterns no_values
        (goal_of_past 0 (formula.Once 0 (interval_between 1 5) formula_q)) ≡ None }
    ensures later_window { waiting_patterns no_values
        (goal_of_past 3 (formula.Once 0 (interval_from 0) formula_q)) ≡ None }
    ensures one_of_two { waiting_patterns no_values
        (goal_of_past 0 (formula.And 0 (formula.Once 0 (interval_from 0) formula_q) formula_p))
        ≡ Some (p_alone ∷ p_alone ∷ []) }
    ensures both { waiting_patterns no_values (goal_of_past 0 (formula.And 0
        (formula.Once 0 (interval_from 0) formula_q) (formula.Once 0 (interval_from 0) formula_p)))
        ≡ Some (q_alone ∷ p_alone ∷ p_alone ∷ []) }
    ensures since { waiting_patterns no_values
        (goal_of_past 0 (formula.Since 0 (interval_from 0) formula_p formula_q)) ≡ Some (q_alone ∷ p_alone ∷ []) }
    ensures nothing_known { wake_patterns no_values (goal_of_past 0 (formula.Once 0 (interval_from 0) formula_q))
        ≡ None }
{}

/// What wakes goals over the past that have parts, or stand in an Until.
pub fn past_goals_of_parts()
    ensures either { waiting_patterns no_values
        (goal_of_past 0 (formula.Or 0 (formula.Once 0 (interval_from 0) formula_q) formula_p))
        ≡ Some (q_alone ∷ p_alone ∷ p_alone ∷ []) }
    ensures one_in_another { waiting_patterns no_values (goal_of_past 0 (formula.Once 0 (interval_from 0)
        (formula.Once 0 (interval_between 0 5) formula_q))) ≡ Some (q_alone ∷ p_alone ∷ []) }
    ensures an_earlier_one_in_another { waiting_patterns no_values (goal_of_past 0 (formula.Once 0 (interval_from 0)
        (formula.Once 0 (interval_between 1 5) formula_q))) ≡ None }
    ensures denied { waiting_patterns no_values
        (goal_of_past 0 (formula.Not 0 (formula.Once 0 (interval_from 0) formula_q))) ≡ None }
    ensures step_before { waiting_patterns no_values
        (goal_of_past 0 (formula.Prev 0 (interval_from 0) formula_q)) ≡ None }
    ensures beside_an_event { waiting_patterns no_values (plan.EventuallyPlan 0 0 0 9 (plan.Both 1
        (plan.TestOr 2 0 (formula.Once 0 (interval_from 0) formula_q) no_q) (cause_p 4))) ≡ Some (p_alone ∷ []) }
    ensures until_goal { waiting_patterns no_values (plan.UntilPlan 0 0 0 10 no_q
        (plan.TestOr 2 0 (formula.Once 0 (interval_from 0) formula_q) (cause_p 3)))
        ≡ Some (q_alone ∷ p_alone ∷ q_alone ∷ []) }
    ensures until_later { waiting_patterns no_values (plan.UntilPlan 0 0 3 10 no_q
        (plan.TestOr 2 0 (formula.Once 0 (interval_from 0) formula_q) (cause_p 3))) ≡ None }
{}
