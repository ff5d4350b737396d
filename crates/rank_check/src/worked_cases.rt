//! Worked cases of roles, triggers, ranks and the mark, each a clause of a function with an empty body.
ghost use Rattle.std.specs.Prelude.{◌≡◌, [], ◌∷◌, map, true, false, None, Some};
ghost use Rattle.enf_data.specs.meaning.Valuations.{no_values};
ghost use Rattle.enf_formula.specs.machine.Cases.{empty_step, name_p, name_q, formula_p, formula_q, variable_x};
ghost use Rattle.trace_meaning.specs.meaning.Traces.{Good};
ghost use Rattle.plan_terms.specs.machine.Cases.{each_soon, soon_q_x};
ghost use Rattle.plan_terms.specs.meaning.Owed.{IsLost, IsOwed};
ghost use Rattle.plan_terms.specs.meaning.Plans.{formula_for, triggers, Clashes, IsCaused, IsSuppressed};
ghost use Rattle.rank_check.specs.machine.Cases.{two_in_turn, three_in_turn, then_always_q, no_p_until_q, next_no_p};
ghost use Rattle.rank_check.specs.machine.Cases.{at_last_q_soon, no_p_until_q_soon, q_soon, q_soon_or_later, in_a_row};
ghost use Rattle.rank_check.specs.machine.Cases.{q_until_p, both_ways, name_r, guarded_twice, then_always_guarded};
ghost use Rattle.rank_check.specs.meaning.AcceptedPlans.{IsOnCycle, Edge, IsUntriggered, AllIsTriggered};
ghost use Rattle.rank_check.specs.meaning.AcceptedPlans.{is_transparent};
ghost use Rattle.rank_check.specs.meaning.Ranked.{IsRank};
ghost use Rattle.rank_check.specs.meaning.Horizon.{class_of, horizon_of};
ghost use Rattle.rank_check.specs.meaning.Refusals.{IsFirstPlace};
ghost use Rattle.plan_terms.specs.meaning.Plans as plan;

/// Names that clash, nodes without a trigger, and edges.
pub fn paths()
    ensures clash { Clashes (both_ways ∷ []) name_q }
    ensures two_plans { Clashes (plan.CausePlan 0 1 name_q [] ∷ plan.SuppressPlan 0 1 name_q [] ∷ []) name_q }
    ensures root { IsUntriggered (plan.EventuallyPlan 0 8 1 5 (plan.CausePlan 1 9 name_q []))
        (plan.EventuallyPlan 0 8 1 5 (plan.CausePlan 1 9 name_q [])) }
    ensures below_always { IsUntriggered then_always_q (plan.CausePlan 2 6 name_q []) }
    ensures left_of_until { IsUntriggered q_until_p (plan.CausePlan 1 5 name_q []) }
    ensures edge { Edge (each_soon ∷ []) name_p name_q }
    ensures cycle_of_two { IsOnCycle (Edge two_in_turn) name_p }
    ensures cycle_of_three { IsOnCycle (Edge three_in_turn) name_p }
{}

/// Of two guards on a path the first alone triggers, but each start has its own.
pub fn guards_on_paths()
    ensures first_guard { Edge (guarded_twice ∷ []) name_p name_r }
    ensures not_the_second { Edge (guarded_twice ∷ []) name_q name_r → ⊥ }
    ensures earlier_start { Edge (then_always_guarded ∷ []) name_p name_r }
    ensures later_start { Edge (then_always_guarded ∷ []) name_q name_r }
    ensures not_backwards { Edge (each_soon ∷ []) name_q name_p → ⊥ }
    ensures triggered { IsUntriggered each_soon soon_q_x → ⊥ }
    ensures each_is_triggered { AllIsTriggered (then_always_guarded ∷ []) }
    ensures first_untriggered { IsFirstPlace (then_always_guarded ∷ then_always_q ∷ []) 6 }
{}

/// Ranks of names that follow from each other, and that a name on a cycle has none.
pub fn ranks()
    ensures first { IsRank (Edge in_a_row) name_p 0 }
    ensures second { IsRank (Edge in_a_row) name_q 1 }
    ensures third { IsRank (Edge in_a_row) name_r 2 }
    ensures no_cycle { IsOnCycle (Edge in_a_row) name_r → ⊥ }
    ensures on_a_cycle { IsRank (Edge two_in_turn) name_p 1 → ⊥ }
{}

/// Classes, horizons and the transparent mark.
pub fn horizons()
    ensures class { class_of (0 ∷ 1 ∷ []) (each_soon ∷ []) soon_q_x ≡ 6 }
    ensures eventually { horizon_of (0 ∷ 1 ∷ []) (each_soon ∷ []) ≡ 210 }
    ensures until { horizon_of (0 ∷ 1 ∷ []) (no_p_until_q ∷ []) ≡ 90 }
    ensures nothing_caused { horizon_of (0 ∷ 0 ∷ []) (next_no_p ∷ []) ≡ 30 }
    ensures two_rules { horizon_of (0 ∷ 1 ∷ []) (each_soon ∷ no_p_until_q ∷ []) ≡ 270 }
    ensures no_deadline { horizon_of (0 ∷ 0 ∷ []) (then_always_q ∷ []) ≡ 0 }
    ensures marked { is_transparent (each_soon ∷ no_p_until_q ∷ next_no_p ∷ []) ≡ true }
    ensures one_side_ahead { is_transparent (plan.Either 0 soon_q_x (plan.CausePlan 3 8 name_q []) ∷ []) ≡ true }
    ensures two_sides_ahead { is_transparent (plan.Either 0 soon_q_x soon_q_x ∷ []) ≡ false }
    ensures body_ahead { is_transparent (plan.EventuallyPlan 0 1 0 5 soon_q_x ∷ []) ≡ false }
    ensures right_ahead { is_transparent (plan.UntilPlan 0 1 0 5 (plan.CausePlan 1 2 name_q []) soon_q_x ∷ [])
        ≡ false }
    ensures left_ahead { is_transparent (plan.UntilPlan 0 1 0 5 soon_q_x (plan.CausePlan 1 2 name_q []) ∷ [])
        ≡ true }
    ensures always_ahead { is_transparent (plan.AlwaysPlan 0 1 0 5 soon_q_x ∷ []) ≡ true }
{}

/// Without the mark a node can be owed and lost though the trace can be continued well: where it looks ahead as one of
/// two such sides, as a body, and as a right side.
pub fn without_the_mark()
    ensures lost { IsLost empty_step 5 q_soon no_values 0 }
    ensures side_not_marked { is_transparent q_soon_or_later ≡ false }
    ensures side_owed { IsOwed q_soon_or_later empty_step 5 0 q_soon no_values 0 }
    ensures side_good { Good (map formula_for q_soon_or_later) empty_step 5 }
    ensures body_not_marked { is_transparent at_last_q_soon ≡ false }
    ensures body_owed { IsOwed at_last_q_soon empty_step 5 0 q_soon no_values 0 }
    ensures body_good { Good (map formula_for at_last_q_soon) empty_step 5 }
    ensures right_not_marked { is_transparent no_p_until_q_soon ≡ false }
    ensures right_owed { IsOwed no_p_until_q_soon empty_step 5 0 q_soon no_values 0 }
    ensures right_good { Good (map formula_for no_p_until_q_soon) empty_step 5 }
{}
