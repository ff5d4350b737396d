//! Worked cases of plans and refusals, each a clause of a function with an empty body. In them q can be caused and p
//! suppressed.
ghost use Rattle.std.specs.Prelude.{◌≡◌, [], ◌∷◌, pos};
ghost use Rattle.enf_formula.specs.machine.Cases.{variable_x, name_p, name_q, interval_between, interval_from};
ghost use Rattle.enf_data.specs.declared.terms.Term.TheVariants.{Var};
ghost use Rattle.enf_data.specs.declared.values.Value.TheVariants.{Num};
ghost use Rattle.plan_terms.specs.machine.Cases.{cause_q_x_y, each_soon, guards_soon};
ghost use Rattle.enforce_types.specs.machine.Cases.{MadeTrue, MadeFalse, TrueBy, FalseBy, not_enforceable_at};
ghost use Rattle.enforce_types.specs.machine.Cases.{unguarded_at, var_y, p_at, q_at, p_x_at, q_x_at, p_x_y_at, once_p};
ghost use Rattle.enforce_types.specs.machine.Cases.{once_q, within_5, text_entries, p_leaf, p_x_leaf, q_leaf, q_x_leaf};
ghost use Rattle.enforce_types.specs.machine.Cases.{text_a, int_and_text_entries, number_is_a, one_p, other_since};
ghost use Rattle.enforce_types.specs.machine.Cases.{x_is_a};
ghost use Rattle.plan_terms.specs.machine.WellFormed.{GuardsAreListed};
ghost use Rattle.plan_terms.specs.meaning.Plans.{guards_of_plan};
ghost use Rattle.enforce_types.specs.meaning.Elab.{renumber, renumber_all};
ghost use Rattle.enforce_types.specs.machine.PolicyLaws.{KeepsToSignature};
ghost use Rattle.enforce_types.specs.machine.VariableSorts.{HasVarSorts, TraceFits};
ghost use Rattle.enf_formula.specs.meaning.Satisfaction as tree;
ghost use Rattle.plan_terms.specs.meaning.Plans as plan;

/// Formulas that are made true.
pub fn made_true()
    ensures atom { TrueBy (q_at 1) (q_leaf 1) }
    ensures atom_refused { MadeTrue (p_at 1) (not_enforceable_at 1) }
    ensures not { TrueBy (tree.Not 1 (p_at 2)) (p_leaf 2) }
    ensures and { TrueBy (tree.And 2 (q_at 1) (tree.Not 3 (p_at 4))) (plan.Both 0 (q_leaf 1) (p_leaf 4)) }
    ensures and_first { MadeTrue (tree.And 2 (p_at 1) (p_at 3)) (not_enforceable_at 1) }
    ensures eventually { TrueBy (within_5 1 (q_at 2)) (plan.EventuallyPlan 0 1 0 5 (q_leaf 2)) }
    ensures always { TrueBy (tree.Always 1 (interval_between 2 5) (q_at 2)) (plan.AlwaysPlan 0 1 2 5 (q_leaf 2)) }
    ensures until { TrueBy (tree.Until 2 (interval_between 0 5) (tree.Not 1 (p_at 1)) (q_at 3))
        (plan.UntilPlan 0 2 0 5 (p_leaf 1) (q_leaf 3)) }
    ensures until_first { MadeTrue (tree.Until 2 (interval_between 0 5) (p_at 1) (p_at 3)) (not_enforceable_at 1) }
    ensures next { TrueBy (tree.Next 1 (interval_between 0 5) (q_at 2)) (plan.NextPlan 0 1 5 (q_leaf 2)) }
    ensures next_later { MadeTrue (tree.Next 1 (interval_between 2 9) (q_at 2)) (not_enforceable_at 1) }
    ensures no_end { MadeTrue (tree.Eventually 1 (interval_from 0) (q_at 2)) (not_enforceable_at 1) }
    ensures end_at_once { MadeTrue (tree.Always 1 (interval_between 0 0) (p_at 2)) (not_enforceable_at 1) }
    ensures constant { MadeTrue (tree.True 1) (not_enforceable_at 1) }
    ensures some { MadeTrue (tree.Exists 1 (variable_x ∷ []) (q_x_at 2)) (not_enforceable_at 1) }
    ensures past { MadeTrue once_q (not_enforceable_at 20) }
{}

/// Formulas that are made false.
pub fn made_false()
    ensures atom { FalseBy (p_at 1) (p_leaf 1) }
    ensures atom_refused { MadeFalse (q_at 1) (not_enforceable_at 1) }
    ensures not { FalseBy (tree.Not 1 (q_at 2)) (q_leaf 2) }
    ensures and_first_is_test { FalseBy (tree.And 2 once_q (p_at 3))
        (plan.TestOr 0 0 (tree.Not 20 once_q) (p_leaf 3)) }
    ensures and_second_is_test { FalseBy (tree.And 2 (p_at 3) once_q)
        (plan.TestOr 0 0 (tree.Not 20 once_q) (p_leaf 3)) }
    ensures or { FalseBy (tree.Or 2 (p_at 1) (p_at 3)) (plan.Both 0 (p_leaf 1) (p_leaf 3)) }
    ensures implies { FalseBy (tree.Implies 2 (q_at 1) (p_at 3)) (plan.Both 0 (q_leaf 1) (p_leaf 3)) }
    ensures some { FalseBy (tree.Exists 1 (variable_x ∷ []) (p_x_at 2))
        (plan.Guarded 0 (variable_x ∷ []) 0 (p_x_at 2) (p_x_leaf 2)) }
    ensures eventually { FalseBy (within_5 1 (p_at 2)) (plan.AlwaysPlan 0 1 0 5 (p_leaf 2)) }
    ensures always { FalseBy (tree.Always 1 (interval_between 2 5) (p_at 2)) (plan.EventuallyPlan 0 1 2 5 (p_leaf 2)) }
    ensures until { MadeFalse (tree.Until 2 (interval_between 0 5) (p_at 1) (p_at 3)) (not_enforceable_at 2) }
    ensures next { MadeFalse (tree.Next 1 (interval_between 0 5) (p_at 2)) (not_enforceable_at 1) }
    ensures each { MadeFalse (tree.Forall 1 (variable_x ∷ []) (p_x_at 2)) (not_enforceable_at 1) }
{}

/// One of two formulas: the right side is tried first, and a test is asked before both are changed.
pub fn one_of_two()
    ensures left_test { TrueBy (tree.Or 2 once_p (q_at 3)) (plan.TestOr 0 0 once_p (q_leaf 3)) }
    ensures right_test { TrueBy (tree.Or 2 (q_at 3) once_p) (plan.TestOr 0 0 once_p (q_leaf 3)) }
    ensures left_is_asked { TrueBy (tree.Or 2 (q_at 1) (q_at 3)) (plan.TestOr 0 0 (q_at 1) (q_leaf 3)) }
    ensures either { TrueBy (tree.Or 4 (within_5 1 (q_at 2)) (q_at 5))
        (plan.Either 0 (plan.EventuallyPlan 0 1 0 5 (q_leaf 2)) (q_leaf 5)) }
    ensures left_refused { MadeTrue (tree.Or 4 (within_5 1 (p_at 2)) (q_at 5)) (not_enforceable_at 2) }
    ensures right_refused { MadeTrue (tree.Or 4 (q_at 5) (within_5 1 (p_at 2))) (not_enforceable_at 2) }
    ensures both_refused { MadeTrue (tree.Or 4 (within_5 1 (p_at 2)) once_p) (not_enforceable_at 2) }
    ensures right_is_first { MadeTrue (tree.Or 4 once_p (within_5 1 (p_at 2))) (not_enforceable_at 2) }
{}

/// Implications without a quantifier.
pub fn implications()
    ensures guarded { TrueBy (tree.Implies 2 (p_at 1) (q_at 3)) (plan.Guarded 0 [] 0 (p_at 1) (q_leaf 3)) }
    ensures guarded_by_both { TrueBy (tree.Implies 2 (p_at 1) once_q)
        (plan.Guarded 0 [] 0 (tree.And 2 (p_at 1) (tree.Not 20 once_q)) (p_leaf 1)) }
    ensures either { TrueBy (tree.Implies 4 (within_5 1 (p_at 2)) (q_at 5))
        (plan.Either 0 (plan.AlwaysPlan 0 1 0 5 (p_leaf 2)) (q_leaf 5)) }
    ensures test { TrueBy (tree.Implies 4 (within_5 1 (p_at 2)) once_q)
        (plan.TestOr 0 0 once_q (plan.AlwaysPlan 0 1 0 5 (p_leaf 2))) }
    ensures left_refused { MadeTrue (tree.Implies 4 (within_5 1 (q_at 2)) (q_at 5)) (not_enforceable_at 2) }
    ensures right_refused { MadeTrue (tree.Implies 4 (p_at 1) (within_5 5 (p_at 6))) (not_enforceable_at 6) }
    ensures both_refused { MadeTrue (tree.Implies 4 (q_at 1) once_q) (not_enforceable_at 1) }
{}

/// Quantified formulas.
pub fn quantified()
    ensures guarded { TrueBy (tree.Forall 1 (variable_x ∷ []) (tree.Implies 3 (p_x_at 2) (within_5 4 (q_x_at 5))))
        (plan.Guarded 0 (variable_x ∷ []) 0 (p_x_at 2) (plan.EventuallyPlan 0 4 0 5 (q_x_leaf 5))) }
    ensures nested { TrueBy
        (tree.Forall 1 (variable_x ∷ []) (tree.Forall 2 (var_y ∷ []) (tree.Implies 4 (p_x_y_at 3) (q_x_at 5))))
        (plan.Guarded 0 (variable_x ∷ var_y ∷ []) 0 (p_x_y_at 3) (q_x_leaf 5)) }
    ensures none { TrueBy (tree.Forall 1 (variable_x ∷ []) (tree.Not 2 (p_x_at 3)))
        (plan.Guarded 0 (variable_x ∷ []) 0 (p_x_at 3) (p_x_leaf 3)) }
    ensures none_refused { MadeTrue (tree.Forall 1 (variable_x ∷ []) (tree.Not 2 (q_x_at 3))) (not_enforceable_at 3) }
    ensures none_unguarded { MadeTrue (tree.Forall 1 (variable_x ∷ []) (tree.Not 2 (within_5 3 (p_x_at 4))))
        (unguarded_at 1) }
    ensures no_range { MadeTrue (tree.Forall 1 (variable_x ∷ []) (tree.Equal 2 (Var variable_x) (Var variable_x)))
        (unguarded_at 1) }
    ensures range_too_small { MadeTrue (tree.Forall 1 (variable_x ∷ []) (tree.Implies 3 (p_at 2) (q_x_at 4)))
        (unguarded_at 1) }
    ensures first_of_nested { MadeTrue
        (tree.Forall 1 (variable_x ∷ []) (tree.Forall 2 (var_y ∷ []) (p_x_y_at 3))) (unguarded_at 1) }
    ensures refused_before_unguarded { MadeTrue
        (tree.Forall 1 (variable_x ∷ []) (tree.Implies 3 (p_at 2) (within_5 4 (p_x_at 5)))) (not_enforceable_at 5) }
{}

/// Numbers of nodes, guards and tests, and the variables in scope at these.
pub fn numbers()
    ensures sides { renumber 0 4 (plan.Both 0 (plan.TestOr 0 0 once_p (q_leaf 3)) (plan.TestOr 0 0 once_q (q_leaf 5)))
        ≡ plan.Both 0 (plan.TestOr 1 4 once_p (plan.CausePlan 2 3 name_q []))
        (plan.TestOr 3 5 once_q (plan.CausePlan 4 5 name_q [])) }
    ensures rules { renumber_all 0 (plan.TestOr 0 0 once_p (q_leaf 3) ∷ plan.TestOr 0 0 once_q (q_leaf 5) ∷ [])
        ≡ plan.TestOr 0 0 once_p (plan.CausePlan 1 3 name_q [])
        ∷ plan.TestOr 0 1 once_q (plan.CausePlan 1 5 name_q []) ∷ [] }
    ensures scopes { guards_of_plan (plan.Guarded 0 (variable_x ∷ []) 0 (p_x_at 2)
        (plan.TestOr 0 0 once_p (q_leaf 3))) []
        ≡ (p_x_at 2, []) ∷ (once_p, variable_x ∷ []) ∷ [] }
    ensures listed { GuardsAreListed ((p_x_at 2, []) ∷ (once_p, variable_x ∷ []) ∷ [])
        (renumber 0 0 (plan.Guarded 0 (variable_x ∷ []) 0 (p_x_at 2) (plan.TestOr 0 0 once_p (q_leaf 3)))) [] }
{}

/// Plans that keep to a signature: what they change may be changed so, with a term for each column, and their guards
/// look for its names.
pub fn keeping_to_signature()
    ensures kept { KeepsToSignature text_entries (each_soon ∷ []) guards_soon }
    ensures not_causable { KeepsToSignature text_entries (plan.CausePlan 0 1 name_p (Var variable_x ∷ []) ∷ []) []
        → ⊥ }
    ensures not_suppressible { KeepsToSignature text_entries
        (plan.SuppressPlan 0 1 name_q (Var variable_x ∷ []) ∷ []) [] → ⊥ }
    ensures no_term { KeepsToSignature text_entries (q_leaf 1 ∷ []) [] → ⊥ }
    ensures two_terms { KeepsToSignature text_entries (cause_q_x_y ∷ []) [] → ⊥ }
    ensures no_name { KeepsToSignature [] [] guards_soon → ⊥ }
{}

/// Sorts of formulas and of traces. The two sides of an equation may be of different sorts where neither was found
/// before it in the text.
pub fn sorts()
    ensures constant { HasVarSorts int_and_text_entries x_is_a }
    ensures clash { HasVarSorts int_and_text_entries number_is_a → ⊥ }
    ensures found_behind { HasVarSorts int_and_text_entries other_since }
    ensures no_name { HasVarSorts [] (p_x_at 1) → ⊥ }
    ensures trace { TraceFits int_and_text_entries (one_p (Num (pos 7))) }
    ensures no_number { TraceFits int_and_text_entries (one_p text_a) → ⊥ }
    ensures no_entry { TraceFits [] (one_p text_a) → ⊥ }
{}
