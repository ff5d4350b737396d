//! Worked cases of verdicts at the last position of a trace, each a clause of a function with an empty body.
ghost use Rattle.std.specs.Prelude.{[], ◌∷◌};
ghost use Rattle.enf_formula.specs.machine.Cases.{formula_p, formula_q};
ghost use Rattle.trace_audit.specs.machine.Cases.{one_step, p_always_later, q_later, q_next, q_now, q_until_q_later};
ghost use Rattle.trace_audit.specs.meaning.Verdicts.{IsVerdict};
ghost use Rattle.trace_audit.specs.declared.verdicts.Verdict.TheVariants.{Fails, Holds};

/// What needs a position that does not exist fails, what speaks of all such positions holds.
pub fn where_the_trace_ends()
    ensures no_rule { IsVerdict [] one_step Holds }
    ensures no_step { IsVerdict (q_next ∷ []) [] Holds }
    ensures next { IsVerdict (q_next ∷ []) one_step (Fails 0 0) }
    ensures eventually { IsVerdict (q_later ∷ []) one_step (Fails 0 0) }
    ensures until { IsVerdict (q_until_q_later ∷ []) one_step (Fails 0 0) }
    ensures always { IsVerdict (p_always_later ∷ []) one_step Holds }
    ensures at_once { IsVerdict (q_now ∷ []) one_step Holds }
    ensures first_rule { IsVerdict (formula_q ∷ formula_p ∷ q_next ∷ []) one_step (Fails 1 0) }
    ensures not_a_later_rule { IsVerdict (formula_q ∷ formula_p ∷ q_next ∷ []) one_step (Fails 2 0) → ⊥ }
    ensures not_held { IsVerdict (q_next ∷ []) one_step Holds → ⊥ }
{}
