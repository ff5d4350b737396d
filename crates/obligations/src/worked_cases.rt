//! Worked cases of the definitions, each a clause of a function with an empty body.
ghost use Rattle.std.specs.Prelude.{◌≡◌, [], ◌∷◌, None, Some, true, false};
ghost use Rattle.enf_data.specs.meaning.Valuations.{no_values};
ghost use Rattle.enf_formula.specs.machine.Cases.{at_time, event_p, event_q, formula_p, formula_p_x, formula_q};
ghost use Rattle.enf_formula.specs.machine.Cases.{name_p, name_q, variable_x};
ghost use Rattle.obligations.specs.meaning.Obligations.{Begun, IsNeeded, Missing, cause_literal, suppress_literal};
ghost use Rattle.obligations.specs.machine.BoundCases.{CannotWait, window_from_to, next_q, soon_q, throughout_q};
ghost use Rattle.obligations.specs.meaning.PendingBounds.{CanWait};
ghost use Rattle.obligations.specs.machine.Cases.{at_5, always_p, bar_q, each_q, false_test, true_test, next_p};
ghost use Rattle.obligations.specs.machine.Cases.{no_q_until_p, p_of_1, q_of_1, q_of_2, soon_p, two_and_one, waiting};
ghost use Rattle.obligations.specs.machine.Cases.{PlanBegins, begun_at_5, begun_then, each_next, next_for, value_1};
ghost use Rattle.obligations.specs.machine.Cases.{second_at_5, then_at, value_2, WaitingMisses, WaitingBecomes};
ghost use Rattle.obligations.specs.machine.Cases.{WaitingOwes, PlanPends, IsRightAtOnce, IsRightThen, at_once_for};
ghost use Rattle.obligations.specs.machine.Cases.{bar_p_where, then_for};
ghost use Rattle.obligations.specs.machine.MovedPlans.{IsUnmovedIn, LeavesRestIn};
ghost use Rattle.enf_formula.specs.meaning.Satisfaction as tree;
ghost use Rattle.plan_terms.specs.machine.Cases.{cause_p, each_soon, soon_q_x};
ghost use Rattle.obligations.specs.meaning.Pending.{IsClean, IsReady, NoneIsOver, Pend};
ghost use Rattle.plan_terms.specs.meaning.Scopes.{future_in};
ghost use Rattle.trace_meaning.specs.declared.kinds.StepKind.TheVariants.{Inserted, System};
ghost use Rattle.obligations.specs.declared.literals.LiteralKind.TheVariants as kind;
ghost use Rattle.plan_terms.specs.meaning.Plans as plan;

/// What leaves and connectives miss.
pub fn missing_now()
    ensures cause_absent { Missing (at_5 []) (cause_p 3) no_values (cause_literal event_p 3 ∷ []) }
    ensures cause_present { Missing (at_5 (event_p ∷ [])) (cause_p 3) no_values [] }
    ensures cause_another_there { Missing (at_5 (event_q ∷ [])) (cause_p 3) no_values [] → ⊥ }
    ensures suppress_present { Missing (at_5 (event_q ∷ [])) (bar_q 3) no_values (suppress_literal event_q 3 ∷ []) }
    ensures suppress_absent { Missing (at_5 []) (bar_q 3) no_values [] }
    ensures suppress_nothing_there { Missing (at_5 []) (bar_q 3) no_values (suppress_literal event_q 3 ∷ []) → ⊥ }
    ensures both { Missing (at_5 (event_q ∷ [])) (plan.Both 0 (cause_p 1) (bar_q 2)) no_values
        (cause_literal event_p 1 ∷ suppress_literal event_q 2 ∷ []) }
    ensures both_not_the_first_alone { Missing (at_5 (event_q ∷ [])) (plan.Both 0 (cause_p 1) (bar_q 2)) no_values
        (cause_literal event_p 1 ∷ []) → ⊥ }
    ensures left_side_holds { Missing (at_5 (event_p ∷ event_q ∷ [])) (plan.Either 0 (cause_p 1) (bar_q 2))
        no_values [] }
    ensures right_side_holds { Missing (at_5 []) (plan.Either 0 (cause_p 1) (bar_q 2)) no_values [] }
    ensures no_side_holds { Missing (at_5 (event_q ∷ [])) (plan.Either 0 (cause_p 1) (bar_q 2)) no_values
        (suppress_literal event_q 2 ∷ []) }
    ensures not_the_left_side { Missing (at_5 (event_q ∷ [])) (plan.Either 0 (cause_p 1) (bar_q 2)) no_values
        (cause_literal event_p 1 ∷ []) → ⊥ }
    ensures test_holds { Missing (at_5 []) (plan.TestOr 0 0 true_test (cause_p 1)) no_values [] }
    ensures test_holds_all_the_same { Missing (at_5 []) (plan.TestOr 0 0 true_test (cause_p 1)) no_values
        (cause_literal event_p 1 ∷ []) → ⊥ }
    ensures test_fails { Missing (at_5 []) (plan.TestOr 0 0 false_test (cause_p 1)) no_values
        (cause_literal event_p 1 ∷ []) }
{}

/// What the rows of a guard miss, in rising order.
pub fn missing_of_rows()
    ensures in_order { Missing (at_5 two_and_one) (each_q 0) no_values
        (cause_literal q_of_1 1 ∷ cause_literal q_of_2 1 ∷ []) }
    ensures not_falling { Missing (at_5 two_and_one) (each_q 0) no_values
        (cause_literal q_of_2 1 ∷ cause_literal q_of_1 1 ∷ []) → ⊥ }
    ensures one_is_there { Missing (at_5 (q_of_1 ∷ two_and_one)) (each_q 0) no_values (cause_literal q_of_2 1 ∷ []) }
    ensures no_row { Missing (at_5 []) (each_q 0) no_values [] }
    ensures one_row { Missing (at_5 (p_of_1 ∷ [])) (each_q 0) no_values (cause_literal q_of_1 1 ∷ []) }
    ensures one_row_met { Missing (at_5 (p_of_1 ∷ q_of_1 ∷ [])) (each_q 0) no_values [] }
{}

/// What the rows of a guard begin, in rising order.
pub fn begun_of_rows()
    ensures in_order { PlanBegins (at_5 two_and_one) (each_next 0) (next_for value_1 ∷ next_for value_2 ∷ []) }
    ensures not_falling { PlanBegins (at_5 two_and_one) (each_next 0) (next_for value_2 ∷ next_for value_1 ∷ [])
        → ⊥ }
    ensures no_row { PlanBegins (at_5 []) (each_next 0) [] }
{}

/// What operators on the future miss where they are begun.
pub fn missing_ahead()
    ensures eventually { Missing (at_5 []) (soon_p 0 0) no_values [] }
    ensures next { Missing (at_5 []) (next_p 0) no_values [] }
    ensures always_from_now { Missing (at_5 []) (always_p 0 0) no_values (cause_literal event_p 1 ∷ []) }
    ensures always_not_nothing { Missing (at_5 []) (always_p 0 0) no_values [] → ⊥ }
    ensures always_from_later { Missing (at_5 []) (always_p 0 1) no_values [] }
    ensures until_right_holds { Missing (at_5 (event_p ∷ event_q ∷ [])) (no_q_until_p 0 0) no_values [] }
    ensures until_right_too_early { Missing (at_5 (event_p ∷ event_q ∷ [])) (no_q_until_p 0 1) no_values
        (suppress_literal event_q 1 ∷ []) }
    ensures until_left { Missing (at_5 (event_q ∷ [])) (no_q_until_p 0 0) no_values
        (suppress_literal event_q 1 ∷ []) }
    ensures until_not_right { Missing (at_5 (event_q ∷ [])) (no_q_until_p 0 0) no_values
        (cause_literal event_p 2 ∷ []) → ⊥ }
{}

/// What is begun.
pub fn begun()
    ensures leaf { PlanBegins (at_5 (event_p ∷ [])) (cause_p 0) [] }
    ensures suppress { PlanBegins (at_5 []) (bar_q 0) [] }
    ensures eventually { PlanBegins (at_5 []) (soon_p 0 0) (begun_at_5 0 5 15 ∷ []) }
    ensures eventually_met { PlanBegins (at_5 (event_p ∷ [])) (soon_p 0 0) [] }
    ensures eventually_not_left_open { PlanBegins (at_5 (event_p ∷ [])) (soon_p 0 0) (begun_at_5 0 5 15 ∷ [])
        → ⊥ }
    ensures eventually_too_early { PlanBegins (at_5 (event_p ∷ [])) (soon_p 0 1) (begun_at_5 0 6 15 ∷ []) }
    ensures next { PlanBegins (at_5 (event_p ∷ [])) (next_p 0) (begun_at_5 0 5 15 ∷ []) }
    ensures always { PlanBegins (at_5 (event_p ∷ [])) (always_p 0 0) (begun_at_5 0 5 15 ∷ []) }
    ensures always_from_later { PlanBegins (at_5 []) (always_p 0 1) (begun_at_5 0 6 15 ∷ []) }
    ensures until { PlanBegins (at_5 []) (no_q_until_p 0 0) (begun_at_5 0 5 15 ∷ []) }
    ensures until_met { PlanBegins (at_5 (event_p ∷ [])) (no_q_until_p 0 0) [] }
    ensures until_too_early { PlanBegins (at_5 (event_p ∷ [])) (no_q_until_p 0 1) (begun_at_5 0 6 15 ∷ []) }
    ensures test_holds { PlanBegins (at_5 []) (plan.TestOr 0 0 true_test (soon_p 1 0)) [] }
    ensures test_fails { PlanBegins (at_5 []) (plan.TestOr 0 0 false_test (soon_p 1 0)) (begun_at_5 1 5 15 ∷ []) }
{}

/// In which order instances are begun, by which rule, and where.
pub fn begun_in_order()
    ensures both { PlanBegins (at_5 []) (plan.Both 0 (next_p 1) (next_p 3))
        (begun_at_5 1 5 15 ∷ begun_at_5 3 5 15 ∷ []) }
    ensures both_not_turned { PlanBegins (at_5 []) (plan.Both 0 (next_p 1) (next_p 3))
        (begun_at_5 3 5 15 ∷ begun_at_5 1 5 15 ∷ []) → ⊥ }
    ensures always_before_its_body { PlanBegins (at_5 []) (plan.AlwaysPlan 0 0 0 10 (next_p 1))
        (begun_at_5 0 5 15 ∷ begun_at_5 1 5 15 ∷ []) }
    ensures always_not_behind_it { PlanBegins (at_5 []) (plan.AlwaysPlan 0 0 0 10 (next_p 1))
        (begun_at_5 1 5 15 ∷ begun_at_5 0 5 15 ∷ []) → ⊥ }
    ensures until_before_its_left_side { PlanBegins (at_5 []) (plan.UntilPlan 0 0 0 10 (next_p 1) (cause_p 3))
        (begun_at_5 0 5 15 ∷ begun_at_5 1 5 15 ∷ []) }
    ensures eventually_met_by_what_waits { PlanBegins (at_5 []) (plan.EventuallyPlan 0 0 0 10 (next_p 1))
        (begun_at_5 1 5 15 ∷ []) }
    ensures until_met_by_what_waits { PlanBegins (at_5 []) (plan.UntilPlan 0 0 0 10 (cause_p 1) (next_p 2))
        (begun_at_5 2 5 15 ∷ []) }
    ensures until_not_itself { PlanBegins (at_5 []) (plan.UntilPlan 0 0 0 10 (cause_p 1) (next_p 2))
        (begun_at_5 0 5 15 ∷ begun_at_5 2 5 15 ∷ []) → ⊥ }
    ensures under_its_rule_at_its_position { Begun (then_at 4 []) 1 (next_p 0) no_values
        (record { rule = 1; node = 0; valuation = no_values; origin = 1; low = 4; high = 14 } ∷ []) }
{}

/// Which side of an alternative is begun.
pub fn begun_sides()
    ensures present_right { PlanBegins (at_5 (event_p ∷ [])) (plan.Either 0 (next_p 1) (cause_p 3)) [] }
    ensures present_left { PlanBegins (at_5 (event_p ∷ [])) (plan.Either 0 (cause_p 1) (next_p 2)) [] }
    ensures left_passed_over { PlanBegins (at_5 []) (plan.Either 0 (cause_p 1) (next_p 2)) (begun_at_5 2 5 15 ∷ []) }
    ensures right_passed_over { PlanBegins (at_5 []) (plan.Either 0 (next_p 1) (cause_p 3)) (begun_at_5 1 5 15 ∷ []) }
    ensures right_first { PlanBegins (at_5 []) (plan.Either 0 (next_p 1) (next_p 3)) (begun_at_5 3 5 15 ∷ []) }
    ensures not_left_first { PlanBegins (at_5 []) (plan.Either 0 (next_p 1) (next_p 3)) (begun_at_5 1 5 15 ∷ [])
        → ⊥ }
    ensures right_misses { PlanBegins (at_5 []) (plan.Either 0 (next_p 1) (always_p 3 0)) (begun_at_5 1 5 15 ∷ []) }
    ensures both_miss { PlanBegins (at_5 []) (plan.Either 0 (cause_p 1) (always_p 2 0)) [] }
{}

/// What a pending instance misses, where its window is from 3 to 6.
pub fn pending_misses()
    ensures eventually_waits { WaitingMisses (then_at 4 []) (soon_p 0 2) false [] }
    ensures eventually_forced { WaitingMisses (then_at 6 []) (soon_p 0 2) true (cause_literal event_p 1 ∷ []) }
    ensures eventually_not_forced { WaitingMisses (then_at 6 []) (soon_p 0 2) false (cause_literal event_p 1 ∷ [])
        → ⊥ }
    ensures next_at_once { WaitingMisses (then_at 2 []) (next_p 0) false (cause_literal event_p 1 ∷ []) }
    ensures always_first { WaitingMisses (then_at 3 []) (always_p 0 2) false (cause_literal event_p 1 ∷ []) }
    ensures always_last { WaitingMisses (then_at 6 []) (always_p 0 2) false (cause_literal event_p 1 ∷ []) }
    ensures always_too_early { WaitingMisses (then_at 2 []) (always_p 0 2) false [] }
    ensures always_too_late { WaitingMisses (then_at 7 []) (always_p 0 2) false [] }
    ensures until_right_in_window { WaitingMisses (then_at 3 (event_p ∷ event_q ∷ [])) (no_q_until_p 0 2) false [] }
    ensures until_right_at_the_end { WaitingMisses (then_at 6 (event_p ∷ event_q ∷ [])) (no_q_until_p 0 2) false [] }
    ensures until_right_too_early { WaitingMisses (then_at 2 (event_p ∷ event_q ∷ [])) (no_q_until_p 0 2) false
        (suppress_literal event_q 1 ∷ []) }
    ensures until_left { WaitingMisses (then_at 4 (event_q ∷ [])) (no_q_until_p 0 2) false
        (suppress_literal event_q 1 ∷ []) }
    ensures until_forced { WaitingMisses (then_at 6 []) (no_q_until_p 0 2) true (cause_literal event_p 2 ∷ []) }
    ensures until_forced_right_alone { WaitingMisses (then_at 6 (event_q ∷ [])) (no_q_until_p 0 2) true
        (cause_literal event_p 2 ∷ []) }
    ensures until_forced_not_both { WaitingMisses (then_at 6 (event_q ∷ [])) (no_q_until_p 0 2) true
        (suppress_literal event_q 1 ∷ cause_literal event_p 2 ∷ []) → ⊥ }
    ensures next_there { WaitingMisses (then_at 2 (event_p ∷ [])) (next_p 0) false [] }
    ensures until_not_forced { WaitingMisses (then_at 6 []) (no_q_until_p 0 2) false [] }
    ensures until_forced_met { WaitingMisses (then_at 6 (event_p ∷ event_q ∷ [])) (no_q_until_p 0 2) true [] }
    ensures until_forced_not_left { WaitingMisses (then_at 6 (event_p ∷ event_q ∷ [])) (no_q_until_p 0 2) true
        (suppress_literal event_q 1 ∷ []) → ⊥ }
{}

/// What a pending instance becomes, where its window is from 3 to 6.
pub fn pending_becomes()
    ensures eventually_waits { WaitingBecomes (then_at 4 []) (soon_p 0 2) (waiting 0 3 6 ∷ []) }
    ensures eventually_met_first { WaitingBecomes (then_at 3 (event_p ∷ [])) (soon_p 0 2) [] }
    ensures eventually_met_last { WaitingBecomes (then_at 6 (event_p ∷ [])) (soon_p 0 2) [] }
    ensures eventually_too_early { WaitingBecomes (then_at 2 (event_p ∷ [])) (soon_p 0 2) (waiting 0 3 6 ∷ []) }
    ensures eventually_not_met_early { WaitingBecomes (then_at 2 (event_p ∷ [])) (soon_p 0 2) [] → ⊥ }
    ensures next_is_over { WaitingBecomes (then_at 2 (event_p ∷ [])) (next_p 0) [] }
    ensures always_too_early { WaitingBecomes (then_at 2 []) (always_p 0 2) (waiting 0 3 6 ∷ []) }
    ensures always_stays_to_the_end { WaitingBecomes (then_at 6 (event_p ∷ [])) (always_p 0 2) (waiting 0 3 6 ∷ []) }
    ensures always_is_over { WaitingBecomes (then_at 7 []) (always_p 0 2) [] }
    ensures until_met_first { WaitingBecomes (then_at 3 (event_p ∷ [])) (no_q_until_p 0 2) [] }
    ensures until_met_last { WaitingBecomes (then_at 6 (event_p ∷ [])) (no_q_until_p 0 2) [] }
    ensures until_too_early { WaitingBecomes (then_at 2 (event_p ∷ [])) (no_q_until_p 0 2) (waiting 0 3 6 ∷ []) }
    ensures until_waits { WaitingBecomes (then_at 4 []) (no_q_until_p 0 2) (waiting 0 3 6 ∷ []) }
    ensures always_stays_from_the_start { WaitingBecomes (then_at 3 (event_p ∷ [])) (always_p 0 2)
        (waiting 0 3 6 ∷ []) }
    ensures always_not_dropped { WaitingBecomes (then_at 6 (event_p ∷ [])) (always_p 0 2) [] → ⊥ }
    ensures until_not_left_open { WaitingBecomes (then_at 3 (event_p ∷ [])) (no_q_until_p 0 2)
        (waiting 0 3 6 ∷ []) → ⊥ }
    ensures until_not_met_early { WaitingBecomes (then_at 2 (event_p ∷ [])) (no_q_until_p 0 2) [] → ⊥ }
    ensures next_does_not_stay { WaitingBecomes (then_at 2 (event_p ∷ [])) (next_p 0) (waiting 0 3 6 ∷ []) → ⊥ }
{}

/// What it becomes where the body itself begins something.
pub fn pending_begins()
    ensures eventually_met { WaitingBecomes (then_at 3 []) (plan.EventuallyPlan 0 0 2 10 (next_p 1))
        (begun_then 1 3 13 ∷ []) }
    ensures eventually_too_early { WaitingBecomes (then_at 2 []) (plan.EventuallyPlan 0 0 2 10 (next_p 1))
        (waiting 0 3 6 ∷ []) }
    ensures always_first { WaitingBecomes (then_at 3 []) (plan.AlwaysPlan 0 0 2 10 (next_p 1))
        (waiting 0 3 6 ∷ begun_then 1 3 13 ∷ []) }
    ensures always_not_behind_it { WaitingBecomes (then_at 3 []) (plan.AlwaysPlan 0 0 2 10 (next_p 1))
        (begun_then 1 3 13 ∷ waiting 0 3 6 ∷ []) → ⊥ }
    ensures always_too_early { WaitingBecomes (then_at 2 []) (plan.AlwaysPlan 0 0 2 10 (next_p 1))
        (waiting 0 3 6 ∷ []) }
    ensures until_waits { WaitingBecomes (then_at 4 []) (plan.UntilPlan 0 0 2 10 (next_p 1) (cause_p 3))
        (waiting 0 3 6 ∷ begun_then 1 4 14 ∷ []) }
    ensures until_met { WaitingBecomes (then_at 4 []) (plan.UntilPlan 0 0 2 10 (cause_p 1) (next_p 2))
        (begun_then 2 4 14 ∷ []) }
    ensures next { WaitingBecomes (then_at 2 []) (plan.NextPlan 0 0 10 (next_p 1)) (begun_then 1 2 12 ∷ []) }
{}

/// What a pending instance is still owed by the positions from one on, where its window is from 3 to 6.
pub fn residuals()
    ensures eventually_at_the_end { WaitingOwes (then_at 6 (event_p ∷ [])) (soon_p 0 2) 1 }
    ensures eventually_too_late { WaitingOwes (then_at 7 (event_p ∷ [])) (soon_p 0 2) 1 → ⊥ }
    ensures eventually_behind { WaitingOwes (then_at 6 (event_p ∷ [])) (soon_p 0 2) 2 → ⊥ }
    ensures eventually_at_the_start { WaitingOwes (then_at 3 (event_p ∷ [])) (soon_p 0 2) 1 }
    ensures eventually_too_early { WaitingOwes (then_at 2 (event_p ∷ [])) (soon_p 0 2) 1 → ⊥ }
    ensures always_at_the_start { WaitingOwes (then_at 3 []) (always_p 0 2) 1 → ⊥ }
    ensures always_too_early { WaitingOwes (then_at 2 []) (always_p 0 2) 1 }
    ensures until_too_early { WaitingOwes (then_at 2 (event_p ∷ [])) (no_q_until_p 0 2) 1 → ⊥ }
    ensures always_at_the_end { WaitingOwes (then_at 6 (event_p ∷ [])) (always_p 0 2) 1 }
    ensures always_broken { WaitingOwes (then_at 6 []) (always_p 0 2) 1 → ⊥ }
    ensures always_is_over { WaitingOwes (then_at 7 []) (always_p 0 2) 1 }
    ensures until_at_once { WaitingOwes (then_at 3 (event_p ∷ event_q ∷ [])) (no_q_until_p 0 2) 1 }
    ensures until_never { WaitingOwes (then_at 4 []) (no_q_until_p 0 2) 1 → ⊥ }
    ensures next_at_the_end { WaitingOwes (then_at 6 (event_p ∷ [])) (next_p 0) 1 }
    ensures next_too_late { WaitingOwes (then_at 7 (event_p ∷ [])) (next_p 0) 1 → ⊥ }
    ensures next_needs_a_position { WaitingOwes (then_at 6 (event_p ∷ [])) (next_p 0) 2 → ⊥ }
{}

/// What is pending after a trace.
pub fn pending()
    ensures nothing_at_first { PlanPends [] (soon_p 0 0) [] }
    ensures begun { PlanPends (at_5 []) (soon_p 0 0) (begun_at_5 0 5 15 ∷ []) }
    ensures kept_before_begun { PlanPends (at_time 1 [] ∷ at_5 []) (soon_p 0 0)
        (waiting 0 1 11
        ∷ record { rule = 0; node = 0; valuation = no_values; origin = 1; low = 5; high = 15 } ∷ []) }
    ensures met { PlanPends (at_5 (event_p ∷ [])) (soon_p 0 0) [] }
    ensures two_rules { Pend (next_p 0 ∷ always_p 0 1 ∷ []) (at_5 [])
        (begun_at_5 0 5 15 ∷ second_at_5 0 6 15 ∷ []) }
    ensures rules_not_turned { Pend (next_p 0 ∷ always_p 0 1 ∷ []) (at_5 [])
        (second_at_5 0 6 15 ∷ begun_at_5 0 5 15 ∷ []) → ⊥ }
{}

/// Where a trace is clean and no deadline is over: under p(), under p() within ten units, and under p() always.
pub fn clean()
    ensures nothing_missing { IsClean (cause_p 0 ∷ []) (at_5 (event_p ∷ [])) }
    ensures something_missing { IsClean (cause_p 0 ∷ []) (at_5 []) → ⊥ }
    ensures no_step { IsClean (cause_p 0 ∷ []) [] }
    ensures at_the_deadline { NoneIsOver (soon_p 0 0 ∷ []) (begun_at_5 0 5 15 ∷ []) 15 }
    ensures past_the_deadline { NoneIsOver (soon_p 0 0 ∷ []) (begun_at_5 0 5 15 ∷ []) 16 → ⊥ }
    ensures no_deadline { NoneIsOver (always_p 0 0 ∷ []) (begun_at_5 0 5 15 ∷ []) 16 }
    ensures ready { IsReady (cause_p 0 ∷ []) (at_5 (event_p ∷ [])) 5 }
    ensures not_ready_before { IsReady (cause_p 0 ∷ []) (at_5 (event_p ∷ [])) 4 → ⊥ }
{}

/// Where a trace of two steps is clean, of which the first left something pending that is due by time 11: p() at the next
/// position, and p() within ten units.
pub fn clean_with_pending()
    ensures next_met { IsClean (next_p 0 ∷ []) (then_at 2 (event_p ∷ [])) }
    ensures next_missed { IsClean (next_p 0 ∷ []) (then_at 2 []) → ⊥ }
    ensures waits_at_the_deadline { IsClean (soon_p 0 0 ∷ []) (then_at 11 []) }
    ensures waits_past_the_deadline { IsClean (soon_p 0 0 ∷ []) (then_at 12 []) → ⊥ }
{}

/// Actions at the first step, for the roots of rules.
pub fn justified_at_once()
    ensures absent { IsRightAtOnce [] (at_once_for kind.Cause event_p 0 0) }
    ensures there { IsRightAtOnce (event_p ∷ []) (at_once_for kind.Cause event_p 0 0) → ⊥ }
    ensures to_be_absent { IsRightAtOnce (event_q ∷ []) (at_once_for kind.Suppress event_q 1 0) }
    ensures not_there { IsRightAtOnce [] (at_once_for kind.Suppress event_q 1 0) → ⊥ }
    ensures another_rule { IsRightAtOnce (event_q ∷ []) (at_once_for kind.Cause event_p 1 0) → ⊥ }
    ensures another_event { IsRightAtOnce [] (at_once_for kind.Cause event_q 0 0) → ⊥ }
    ensures another_leaf { IsRightAtOnce [] (at_once_for kind.Cause event_p 0 1) → ⊥ }
    ensures no_rule { IsRightAtOnce [] (at_once_for kind.Cause event_p 2 0) → ⊥ }
{}

/// Actions at a later step, for an operator that was begun at time 5 and has to be met by time 15.
pub fn justified_later()
    ensures at_the_deadline { IsRightThen (at_5 []) Inserted 15 (then_for 15 0 1 0) }
    ensures before_it { IsRightThen (at_5 []) Inserted 14 (then_for 14 0 1 0) → ⊥ }
    ensures at_a_step_of_the_system { IsRightThen (at_5 []) System 15 (then_for 15 0 1 0) → ⊥ }
    ensures met_in_time { IsRightThen (at_5 (event_p ∷ [])) Inserted 15 (then_for 15 0 1 0) → ⊥ }
    ensures another_origin { IsRightThen (at_5 []) Inserted 15 (then_for 15 0 1 1) → ⊥ }
    ensures leaf_for_node { IsRightThen (at_5 []) Inserted 15 (then_for 15 1 1 0) → ⊥ }
    ensures node_for_leaf { IsRightThen (at_5 []) Inserted 15 (then_for 15 0 0 0) → ⊥ }
    ensures another_time { IsRightThen (at_5 []) Inserted 15 (then_for 16 0 1 0) → ⊥ }
{}

/// Steps that are inserted after one at time 5: for p() within ten units, and for p() always in ten units.
pub fn needed()
    ensures at_the_deadline { IsNeeded (soon_p 0 0 ∷ []) (at_5 []) 15 }
    ensures before_it { IsNeeded (soon_p 0 0 ∷ []) (at_5 []) 14 → ⊥ }
    ensures met_in_time { IsNeeded (soon_p 0 0 ∷ []) (at_5 (event_p ∷ [])) 15 → ⊥ }
    ensures no_deadline { IsNeeded (always_p 0 0 ∷ []) (at_5 []) 15 → ⊥ }
    ensures no_rule { IsNeeded [] (at_5 []) 15 → ⊥ }
{}

/// Plans that an action on p(..) does not move.
pub fn unmoved_plans()
    ensures fewer_rows { IsUnmovedIn kind.Suppress name_p (bar_p_where formula_p_x) }
    ensures more_rows { IsUnmovedIn kind.Cause name_p (bar_p_where formula_p_x) → ⊥ }
    ensures more_rows_denied { IsUnmovedIn kind.Suppress name_p (bar_p_where (tree.Not 0 formula_p_x)) → ⊥ }
    ensures fewer_rows_denied { IsUnmovedIn kind.Cause name_p (plan.Guarded 0 [] 0 (tree.Not 0 formula_p) (bar_q 1)) }
    ensures caused { IsUnmovedIn kind.Cause name_p (cause_p 0) }
    ensures not_caused_any_more { IsUnmovedIn kind.Suppress name_p (cause_p 0) → ⊥ }
    ensures test_holds_still { IsUnmovedIn kind.Cause name_p (plan.TestOr 0 0 formula_p (bar_q 1)) }
    ensures test_fails_now { IsUnmovedIn kind.Suppress name_p (plan.TestOr 0 0 formula_p (bar_q 1)) → ⊥ }
{}

/// Plans that miss, after p(..) were suppressed, the rest of what they missed.
pub fn left_plans()
    ensures own { LeavesRestIn kind.Suppress name_p (bar_p_where formula_p_x) }
    ensures own_of_two { LeavesRestIn kind.Suppress name_p
        (bar_p_where (tree.And 0 formula_p_x (tree.Not 0 formula_q))) }
    ensures looked_for_twice { LeavesRestIn kind.Suppress name_p (bar_p_where (tree.And 0 formula_p_x formula_p_x))
        → ⊥ }
    ensures not_looked_for { LeavesRestIn kind.Suppress name_p (bar_p_where formula_q) }
    ensures not_where_caused { LeavesRestIn kind.Cause name_p (bar_p_where formula_p_x) → ⊥ }
    ensures another_suppressed { LeavesRestIn kind.Suppress name_q (bar_p_where formula_q) → ⊥ }
{}

/// Which instances can be pending at a clock, after so many steps, and which numbers name an operator on the future.
pub fn bounds()
    ensures waits { CanWait soon_q 10 3 (window_from_to 2 7 10) }
    ensures over { CannotWait soon_q 11 3 (window_from_to 2 7 10) }
    ensures no_deadline { CanWait throughout_q 11 3 (window_from_to 2 7 10) }
    ensures wider { CannotWait soon_q 10 3 (window_from_to 2 7 11) }
    ensures narrower { CannotWait soon_q 9 3 (window_from_to 2 7 9) }
    ensures too_early { CannotWait soon_q 0 3 (window_from_to 2 1 4) }
    ensures not_begun { CannotWait soon_q 10 2 (window_from_to 2 7 10) }
    ensures newly { CanWait next_q 10 3 (window_from_to 2 6 11) }
    ensures earlier { CannotWait next_q 10 4 (window_from_to 2 6 11) }
    ensures ahead { future_in (each_soon ∷ []) 0 1 ≡ Some (soon_q_x, variable_x ∷ []) }
    ensures not_ahead { future_in (each_soon ∷ []) 0 0 ≡ None }
    ensures no_node { future_in (each_soon ∷ []) 0 3 ≡ None }
    ensures no_rule { future_in (each_soon ∷ []) 1 1 ≡ None }
{}
