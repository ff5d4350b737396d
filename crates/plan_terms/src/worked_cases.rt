//! Worked cases of plans, each a clause of a function with an empty body.
ghost use Rattle.std.specs.Prelude.{◌≡◌, [], ◌∷◌, true, false, length, pos, Some, None};
ghost use Rattle.std.specs.List.{list_any};
ghost use Rattle.enf_formula.specs.machine.Cases.{variable_x, name_p, name_q, formula_p, formula_p_x, formula_q};
ghost use Rattle.enf_formula.specs.machine.Cases.{interval_between, empty_step, p_1_q_1, two_steps};
ghost use Rattle.plan_terms.specs.machine.Cases.{node_numbers, node_with, plan_cause_q_x, each_soon, soon_q_x};
ghost use Rattle.plan_terms.specs.machine.Cases.{guards_soon, IsLostNow, IsOwedBy, IsOwedSoon, MovesTo, MovesFor};
ghost use Rattle.plan_terms.specs.machine.Cases.{cause_p, plan_cause_q, wait, choice, wait_and_choice, twice_one};
ghost use Rattle.plan_terms.specs.machine.Cases.{plan_terms_y, guarded_each, p_y, some_p};
ghost use Rattle.plan_terms.specs.meaning.Plans.{NothingClashes, all_guards, triggers, nodes, has_deadline, is_future};
ghost use Rattle.plan_terms.specs.meaning.Plans.{formula_for};
ghost use Rattle.plan_terms.specs.machine.WellFormed.{GuardsAreListed, GuardsAreSafe, GuardBindsFresh, EndsInTime};
ghost use Rattle.plan_terms.specs.machine.WellFormed.{AreWellFormed, IsNumberedPlan, IsScopedPlan};
ghost use Rattle.plan_terms.specs.machine.IntervalEnds.{AllEndLater, EndsLater};
ghost use Rattle.plan_terms.specs.machine.NameBounds.{LooksBelow};
ghost use Rattle.plan_terms.specs.machine.WakingNames.{waking_names};
ghost use Rattle.enf_formula.specs.machine.Agreement.{names_in_formula};
ghost use Rattle.plan_terms.specs.machine.NamedNodes.{scope_at};
ghost use Rattle.enf_data.specs.declared.terms.Term.TheVariants.{Var};
ghost use Rattle.enf_data.specs.declared.values.Value.TheVariants.{Num};
ghost use Rattle.enf_formula.specs.meaning.Satisfaction as tree;
ghost use Rattle.plan_terms.specs.meaning.Plans as plan;

/// Nodes and their numbers.
pub fn numbered_nodes()
    ensures in_pre_order { node_numbers wait_and_choice ≡ 0 ∷ 1 ∷ 2 ∷ 3 ∷ 4 ∷ 5 ∷ 6 ∷ 7 ∷ [] }
    ensures counted { length (nodes each_soon) ≡ 3 }
    ensures root { node_with 0 each_soon ≡ Some each_soon }
    ensures below { node_with 2 each_soon ≡ Some plan_cause_q_x }
    ensures right_side { node_with 4 wait_and_choice ≡ Some (choice 4) }
    ensures none { node_with 3 each_soon ≡ None }
    ensures first_of_two { node_with 1 twice_one ≡ Some (plan.CausePlan 1 3 name_p []) }
    ensures numbered { IsNumberedPlan each_soon }
    ensures not_numbered { IsNumberedPlan twice_one → ⊥ }
    ensures not_from_0 { IsNumberedPlan (wait 1) → ⊥ }
{}

/// Plans that look ahead.
pub fn looking_ahead()
    ensures below_a_guard { list_any is_future (nodes each_soon) ≡ true }
    ensures on_one_side { list_any is_future (nodes wait_and_choice) ≡ true }
    ensures now { list_any is_future (nodes (choice 0)) ≡ false }
    ensures with_deadline { list_any has_deadline (nodes each_soon) ≡ true }
    ensures without_deadline { list_any has_deadline (nodes (plan.AlwaysPlan 0 1 0 5 (choice 1))) ≡ false }
{}

/// The formulas that plans stand for.
pub fn formulas()
    ensures guarded { formula_for each_soon ≡ tree.Forall 0 (variable_x ∷ [])
        (tree.Implies 0 formula_p_x (tree.Eventually 5 (interval_between 0 30)
        (tree.Atom 7 name_q (Var variable_x ∷ [])))) }
    ensures both { formula_for wait_and_choice ≡ tree.And 0 (formula_for (wait 1)) (formula_for (choice 4)) }
    ensures until { formula_for (wait 1) ≡ tree.Until 4 (interval_between 1 10)
        (tree.Not 0 (tree.Atom 3 name_p [])) (tree.Atom 6 name_q []) }
    ensures choice { formula_for (choice 0) ≡ tree.Or 0 (tree.Atom 8 name_p [])
        (tree.Or 0 formula_p (tree.Atom 9 name_q [])) }
    ensures next { formula_for (plan.NextPlan 0 5 30 plan_cause_q_x)
        ≡ tree.Next 5 (interval_between 0 30) (formula_for plan_cause_q_x) }
    ensures always { formula_for (plan.AlwaysPlan 0 5 1 30 plan_cause_q_x)
        ≡ tree.Always 5 (interval_between 1 30) (formula_for plan_cause_q_x) }
{}

/// The variables in scope at a node, and plans whose variables are in scope where they stand.
pub fn scopes()
    ensures root { scope_at 0 each_soon ≡ Some [] }
    ensures below_guard { scope_at 1 each_soon ≡ Some (variable_x ∷ []) }
    ensures below_two { scope_at 2 (guarded_each (plan_terms_y ∷ []) p_y)
        ≡ Some (variable_x ∷ plan_terms_y ∷ []) }
    ensures no_node { scope_at 3 each_soon ≡ None }
    ensures scoped { IsScopedPlan each_soon [] }
    ensures scoped_twice { IsScopedPlan (guarded_each (plan_terms_y ∷ []) p_y) [] }
    ensures not_in_scope { IsScopedPlan soon_q_x [] → ⊥ }
    ensures bound_again { IsScopedPlan (guarded_each (variable_x ∷ []) formula_p_x) [] → ⊥ }
    ensures bound_twice { IsScopedPlan (plan.Guarded 0 (variable_x ∷ variable_x ∷ []) 0 formula_p_x plan_cause_q_x)
        [] → ⊥ }
    ensures falling { IsScopedPlan (plan.Guarded 0 (plan_terms_y ∷ variable_x ∷ []) 0 formula_p_x plan_cause_q_x)
        [] → ⊥ }
    ensures guard_not_in_scope { IsScopedPlan (plan.Guarded 0 (variable_x ∷ []) 0 p_y plan_cause_q_x) [] → ⊥ }
    ensures test_not_in_scope { IsScopedPlan (plan.TestOr 0 0 formula_p_x (plan.CausePlan 1 2 name_q [])) [] → ⊥ }
{}

/// Guards and tests at their numbers, that can be evaluated where they stand.
pub fn guards()
    ensures those { all_guards (guarded_each (plan_terms_y ∷ []) p_y ∷ each_soon ∷ [])
        ≡ (formula_p_x, []) ∷ (p_y, variable_x ∷ []) ∷ (formula_p_x, []) ∷ [] }
    ensures listed { GuardsAreListed guards_soon each_soon [] }
    ensures second { GuardsAreListed ((formula_p_x, []) ∷ (p_y, variable_x ∷ []) ∷ [])
        (guarded_each (plan_terms_y ∷ []) p_y) [] }
    ensures not_listed { GuardsAreListed [] each_soon [] → ⊥ }
    ensures another_test { GuardsAreListed ((formula_p, []) ∷ []) each_soon [] → ⊥ }
    ensures more_in_scope { GuardsAreListed ((formula_p_x, variable_x ∷ []) ∷ []) each_soon [] → ⊥ }
    ensures another_number { GuardsAreListed guards_soon
        (plan.Guarded 0 (variable_x ∷ []) 1 formula_p_x plan_cause_q_x) []
        → ⊥ }
    ensures safe { GuardsAreSafe each_soon [] }
    ensures tells_nothing { GuardsAreSafe (plan.Guarded 0 (variable_x ∷ []) 0 formula_p plan_cause_q_x) [] → ⊥ }
    ensures no_test { GuardsAreSafe (plan.TestOr 0 0 formula_p_x plan_cause_q_x) [] → ⊥ }
    ensures looks_ahead { GuardsAreSafe
        (plan.TestOr 0 0 (tree.Eventually 0 (interval_between 0 5) formula_p) plan_cause_q_x) [] → ⊥ }
    ensures fresh { GuardBindsFresh (some_p plan_terms_y, variable_x ∷ []) }
    ensures bound_in_scope { GuardBindsFresh (some_p variable_x, variable_x ∷ []) → ⊥ }
    ensures bound_and_free { GuardBindsFresh (tree.And 0 formula_p_x (some_p variable_x), []) → ⊥ }
{}

/// The names that trigger a guard, and those that it looks for.
pub fn names_of_guards()
    ensures atom { triggers formula_p ≡ Some (name_p ∷ []) }
    ensures first_side { triggers (tree.And 0 formula_p formula_q) ≡ Some (name_p ∷ []) }
    ensures second_side { triggers (tree.And 0 (tree.True 0) formula_q) ≡ Some (name_q ∷ []) }
    ensures either_side { triggers (tree.Or 0 formula_p formula_q) ≡ Some (name_p ∷ name_q ∷ []) }
    ensures one_side_alone { triggers (tree.Or 0 formula_p (tree.True 0)) ≡ None }
    ensures some { triggers (tree.Exists 0 (variable_x ∷ []) formula_p) ≡ Some (name_p ∷ []) }
    ensures denied { triggers (tree.Not 0 formula_p) ≡ None }
    ensures looked_for { names_in_formula (tree.And 0 formula_q (tree.Not 0 formula_p)) ≡ name_q ∷ name_p ∷ [] }
    ensures below { LooksBelow 1 (formula_p_x, []) }
    ensures not_below { LooksBelow 0 (formula_p_x, []) → ⊥ }
{}

/// The names that wake a plan.
pub fn names_that_wake()
    ensures suppressed { waking_names (plan.SuppressPlan 0 0 name_q []) ≡ Some (name_q ∷ []) }
    ensures caused { waking_names (cause_p 0) ≡ None }
    ensures both_sides { waking_names
        (plan.Both 0 (plan.SuppressPlan 1 0 name_p []) (plan.SuppressPlan 2 0 name_q []))
        ≡ Some (name_p ∷ name_q ∷ []) }
    ensures one_of_both { waking_names (plan.Both 0 (plan.SuppressPlan 1 0 name_p []) (plan_cause_q 2)) ≡ None }
    ensures either_side { waking_names
        (plan.Either 0 (plan.SuppressPlan 1 0 name_q []) (plan.SuppressPlan 2 0 name_p []))
        ≡ Some (name_q ∷ name_p ∷ []) }
    ensures tested { waking_names (plan.TestOr 0 0 formula_p (plan.SuppressPlan 1 0 name_q [])) ≡ Some (name_q ∷ []) }
    ensures triggered { waking_names each_soon ≡ Some (name_p ∷ []) }
    ensures bare { waking_names (plan.Guarded 0 [] 0 (tree.Not 0 formula_p) (plan.SuppressPlan 1 0 name_q []))
        ≡ Some (name_q ∷ []) }
    ensures bare_cause { waking_names (plan.Guarded 0 [] 0 (tree.Not 0 formula_p) (plan_cause_q 1)) ≡ None }
    ensures ahead { waking_names soon_q_x ≡ None }
{}

/// Intervals that end in time, for each operator on the future.
pub fn ends()
    ensures last { EndsInTime (plan.AlwaysPlan 0 1 0 1000000000 plan_cause_q_x) }
    ensures one_point { EndsInTime (plan.UntilPlan 0 1 7 7 plan_cause_q_x plan_cause_q_x) }
    ensures eventually { EndsInTime (plan.EventuallyPlan 0 1 0 1000000001 plan_cause_q_x) → ⊥ }
    ensures always { EndsInTime (plan.AlwaysPlan 0 1 0 1000000001 plan_cause_q_x) → ⊥ }
    ensures until { EndsInTime (plan.UntilPlan 0 1 0 1000000001 plan_cause_q_x plan_cause_q_x) → ⊥ }
    ensures next { EndsInTime (plan.NextPlan 0 1 1000000001 plan_cause_q_x) → ⊥ }
    ensures eventually_falls { EndsInTime (plan.EventuallyPlan 0 1 5 4 plan_cause_q_x) → ⊥ }
    ensures always_falls { EndsInTime (plan.AlwaysPlan 0 1 5 4 plan_cause_q_x) → ⊥ }
    ensures until_falls { EndsInTime (plan.UntilPlan 0 1 5 4 plan_cause_q_x plan_cause_q_x) → ⊥ }
{}

/// Intervals that do not end at once, for each operator on the future.
pub fn ends_later()
    ensures at_1 { EndsLater (plan.NextPlan 0 1 1 plan_cause_q_x) }
    ensures eventually { EndsLater (plan.EventuallyPlan 0 1 0 0 plan_cause_q_x) → ⊥ }
    ensures always { EndsLater (plan.AlwaysPlan 0 1 0 0 plan_cause_q_x) → ⊥ }
    ensures until { EndsLater (plan.UntilPlan 0 1 0 0 plan_cause_q_x plan_cause_q_x) → ⊥ }
    ensures next { EndsLater (plan.NextPlan 0 1 0 plan_cause_q_x) → ⊥ }
    ensures all { AllEndLater (each_soon ∷ wait_and_choice ∷ []) }
    ensures one_ends_at_once { AllEndLater
        (each_soon ∷ plan.AlwaysPlan 0 1 0 5 (plan.NextPlan 1 2 0 plan_cause_q_x) ∷ []) → ⊥ }
{}

/// Plans with their guards.
pub fn well_formed()
    ensures none { AreWellFormed [] [] }
    ensures one { AreWellFormed (each_soon ∷ []) guards_soon }
    ensures guard_of_none { AreWellFormed [] guards_soon → ⊥ }
    ensures not_numbered { AreWellFormed (twice_one ∷ []) [] → ⊥ }
    ensures clash { NothingClashes
        (plan.Both 0 (plan.CausePlan 1 3 name_q []) (plan.SuppressPlan 2 5 name_q []) ∷ []) → ⊥ }
{}

/// What a node leads to at a position: sides, and the bodies of tests, guards and `next`.
pub fn moves_now()
    ensures both_left { MovesTo two_steps (plan.Both 0 (cause_p 1) (plan_cause_q 2)) 0 (cause_p 1) 0 }
    ensures both_right { MovesTo two_steps (plan.Both 0 (cause_p 1) (plan_cause_q 2)) 0 (plan_cause_q 2) 0 }
    ensures both_elsewhere { MovesTo two_steps (plan.Both 0 (cause_p 1) (plan_cause_q 2)) 0 (cause_p 1) 1 → ⊥ }
    ensures either_left { MovesTo empty_step (plan.Either 0 (cause_p 1) (plan_cause_q 2)) 0 (cause_p 1) 0 }
    ensures either_right { MovesTo empty_step (plan.Either 0 (cause_p 1) (plan_cause_q 2)) 0 (plan_cause_q 2) 0 }
    ensures right_side_holds { MovesTo two_steps (plan.Either 0 (cause_p 1) (plan_cause_q 2)) 0 (cause_p 1) 0 → ⊥ }
    ensures left_side_holds { MovesTo two_steps (plan.Either 0 (cause_p 1) (plan_cause_q 2)) 1 (plan_cause_q 2) 1
        → ⊥ }
    ensures side_looks_ahead { MovesTo two_steps (plan.Either 0 (plan.EventuallyPlan 1 0 0 10 (plan_cause_q 2))
        (cause_p 3)) 0
        (cause_p 3) 0 }
    ensures test_fails { MovesTo two_steps (plan.TestOr 0 0 formula_p (plan_cause_q 1)) 0 (plan_cause_q 1) 0 }
    ensures test_holds { MovesTo two_steps (plan.TestOr 0 0 formula_p (plan_cause_q 1)) 1 (plan_cause_q 1) 1 → ⊥ }
    ensures guard_holds { MovesFor p_1_q_1 (Num (pos 1)) }
    ensures guard_fails { MovesFor p_1_q_1 (Num (pos 2)) → ⊥ }
    ensures next { MovesTo two_steps (plan.NextPlan 0 0 10 (cause_p 1)) 0 (cause_p 1) 1 }
    ensures next_at_last { MovesTo two_steps (plan.NextPlan 0 0 10 (cause_p 1)) 1 (cause_p 1) 2 → ⊥ }
    ensures leaf { MovesTo two_steps (cause_p 0) 0 (cause_p 0) 0 → ⊥ }
    ensures other_leaf { MovesTo two_steps (plan.SuppressPlan 0 0 name_q []) 0 (plan.SuppressPlan 0 0 name_q []) 0
        → ⊥ }
{}

/// What a node with a window leads to, from the first of two steps on.
pub fn moves_ahead()
    ensures always_first { MovesTo two_steps (plan.AlwaysPlan 0 0 3 5 (cause_p 1)) 0 (cause_p 1) 1 }
    ensures always_last { MovesTo two_steps (plan.AlwaysPlan 0 0 1 3 (cause_p 1)) 0 (cause_p 1) 1 }
    ensures always_before { MovesTo two_steps (plan.AlwaysPlan 0 0 4 6 (cause_p 1)) 0 (cause_p 1) 1 → ⊥ }
    ensures always_past { MovesTo two_steps (plan.AlwaysPlan 0 0 0 2 (cause_p 1)) 0 (cause_p 1) 1 → ⊥ }
    ensures eventually_at_once { MovesTo two_steps (plan.EventuallyPlan 0 0 0 5 (cause_p 1)) 0 (cause_p 1) 0 }
    ensures eventually_not_met { MovesTo two_steps (plan.EventuallyPlan 0 0 0 5 (cause_p 1)) 0 (cause_p 1) 1 }
    ensures eventually_was_met { MovesTo two_steps (plan.EventuallyPlan 0 0 0 5 (plan_cause_q 1)) 0 (plan_cause_q 1) 1
        → ⊥ }
    ensures eventually_met_too_early { MovesTo two_steps (plan.EventuallyPlan 0 0 1 5 (plan_cause_q 1)) 0
        (plan_cause_q 1) 1 }
    ensures eventually_past { MovesTo two_steps (plan.EventuallyPlan 0 0 0 2 (cause_p 1)) 0 (cause_p 1) 1 → ⊥ }
    ensures until_not_met { MovesTo two_steps (plan.UntilPlan 0 0 0 5 (plan_cause_q 1) (cause_p 2)) 0 (cause_p 2) 1 }
    ensures until_was_met { MovesTo two_steps (plan.UntilPlan 0 0 0 5 (cause_p 1) (plan_cause_q 2)) 0 (plan_cause_q 2)
        1 → ⊥ }
    ensures left_side_until_then { MovesTo two_steps (plan.UntilPlan 0 0 0 5 (plan_cause_q 1) (cause_p 2)) 0
        (plan_cause_q 1) 0 }
    ensures left_side_no_longer { MovesTo two_steps (plan.UntilPlan 0 0 0 5 (plan_cause_q 1) (cause_p 2)) 0
        (plan_cause_q 1) 1 → ⊥ }
    ensures left_side_before { MovesTo two_steps (plan.UntilPlan 0 0 3 5 (cause_p 1) (plan_cause_q 2)) 0 (cause_p 1) 0 }
    ensures left_side_past { MovesTo two_steps (plan.UntilPlan 0 0 0 2 (plan_cause_q 1) (cause_p 2)) 0 (plan_cause_q 1)
        1 → ⊥ }
{}

/// What is lost.
pub fn lost()
    ensures absent { IsLostNow two_steps 3 (cause_p 0) 0 }
    ensures present { IsLostNow two_steps 3 (plan_cause_q 0) 0 → ⊥ }
    ensures not_to_be_there { IsLostNow two_steps 3 (plan.SuppressPlan 0 0 name_q []) 0 }
    ensures to_come { IsLostNow two_steps 3 (cause_p 0) 2 → ⊥ }
    ensures last_moment { IsLostNow two_steps 5 (plan.EventuallyPlan 0 0 0 2 (plan_cause_q 1)) 1 → ⊥ }
    ensures too_late { IsLostNow two_steps 6 (plan.EventuallyPlan 0 0 0 2 (plan_cause_q 1)) 1 }
{}

/// What is owed: the roots of the rules at each position, and what they lead to.
pub fn owed()
    ensures root { IsOwedBy 1 (plan_cause_q 0) 1 }
    ensures another_rule { IsOwedBy 0 (plan_cause_q 0) 1 → ⊥ }
    ensures no_rule { IsOwedBy 2 (plan_cause_q 0) 1 → ⊥ }
    ensures behind_the_trace { IsOwedBy 1 (plan_cause_q 0) 2 → ⊥ }
    ensures below_a_guard { IsOwedSoon p_1_q_1 soon_q_x (Num (pos 1)) 0 }
    ensures two_moves { IsOwedSoon p_1_q_1 plan_cause_q_x (Num (pos 1)) 0 }
    ensures not_a_root { IsOwedSoon empty_step soon_q_x (Num (pos 1)) 0 → ⊥ }
{}
