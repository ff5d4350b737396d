//! Worked cases of the definitions, each a clause of a function with an empty body.
ghost use Rattle.std.specs.Prelude.{[], ◌∷◌};
ghost use Rattle.enf_formula.specs.machine.Cases.{event_p, event_q, at_time};
ghost use Rattle.trace_meaning.specs.machine.Cases.{IsLawful, IsUnlawful, IsNeverLawful, recorded_at, may_cause};
ghost use Rattle.trace_meaning.specs.machine.Cases.{may_suppress, system_at, inserted_at, q_at_1, q_then_p};
ghost use Rattle.trace_meaning.specs.machine.Cases.{policy_p_in_time};
ghost use Rattle.trace_meaning.specs.meaning.Traces.{Continuation, Good, Cause, Suppress, from_nothing, Tick};
ghost use Rattle.trace_meaning.specs.meaning.Traces.{NeverFall};
ghost use Rattle.trace_meaning.specs.machine.Enforced.{GoodPrefix, Enforced, KeepsUp};

/// Changes of the records' own steps.
pub fn changes()
    ensures a_tick_between { IsLawful
        (recorded_at 1 (event_q ∷ []) ∷ Tick 2 ∷ recorded_at 3 (event_p ∷ []) ∷ [])
        (system_at 1 (event_q ∷ []) [] ∷ system_at 3 (event_p ∷ []) [] ∷ []) }
    ensures caused { IsLawful (recorded_at 1 (event_q ∷ []) ∷ [])
        (system_at 1 (event_q ∷ event_p ∷ []) (Cause event_p ∷ []) ∷ []) }
    ensures suppressed { IsLawful (recorded_at 1 (event_q ∷ event_p ∷ []) ∷ [])
        (system_at 1 (event_p ∷ []) (Suppress event_q ∷ []) ∷ []) }
    ensures caused_in_front { IsNeverLawful (recorded_at 1 (event_q ∷ []) ∷ [])
        (system_at 1 (event_p ∷ event_q ∷ []) (Cause event_p ∷ []) ∷ []) }
    ensures order_not_kept { IsNeverLawful (recorded_at 1 (event_p ∷ event_q ∷ []) ∷ [])
        (system_at 1 (event_q ∷ event_p ∷ []) [] ∷ []) }
    ensures changed_twice { IsNeverLawful (recorded_at 1 (event_q ∷ []) ∷ [])
        (system_at 1 (event_q ∷ []) (Suppress event_q ∷ Cause event_q ∷ []) ∷ []) }
    ensures caused_though_there { IsNeverLawful (recorded_at 1 (event_p ∷ []) ∷ [])
        (system_at 1 (event_p ∷ []) (Cause event_p ∷ []) ∷ []) }
    ensures not_causable { IsUnlawful (recorded_at 1 [] ∷ [])
        (system_at 1 (event_q ∷ []) (Cause event_q ∷ []) ∷ []) }
    ensures not_suppressible { IsUnlawful (recorded_at 1 (event_p ∷ []) ∷ [])
        (system_at 1 [] (Suppress event_p ∷ []) ∷ []) }
    ensures left_out { IsNeverLawful (recorded_at 1 (event_p ∷ []) ∷ []) [] }
    ensures another_time { IsNeverLawful (recorded_at 1 (event_p ∷ []) ∷ [])
        (system_at 2 (event_p ∷ []) [] ∷ []) }
    ensures falling { IsNeverLawful (recorded_at 3 [] ∷ recorded_at 2 [] ∷ [])
        (system_at 3 [] [] ∷ system_at 2 [] [] ∷ []) }
{}

/// Inserted steps.
pub fn insertions()
    ensures between { IsLawful
        (recorded_at 1 (event_q ∷ []) ∷ Tick 4 ∷ recorded_at 4 [] ∷ [])
        (system_at 1 (event_q ∷ []) [] ∷ inserted_at 3 (event_p ∷ []) (Cause event_p ∷ [])
        ∷ system_at 4 [] [] ∷ []) }
    ensures system_at_the_same_time { IsNeverLawful (recorded_at 3 [] ∷ [])
        (inserted_at 3 (event_p ∷ []) (Cause event_p ∷ []) ∷ system_at 3 [] [] ∷ []) }
    ensures behind_a_step_at_the_same_time { IsLawful (recorded_at 3 [] ∷ [])
        (system_at 3 [] [] ∷ inserted_at 3 (event_p ∷ []) (Cause event_p ∷ []) ∷ []) }
    ensures with_a_suppress { IsNeverLawful []
        (inserted_at 3 [] (Cause event_p ∷ Suppress event_p ∷ []) ∷ []) }
    ensures with_an_event_of_its_own { IsNeverLawful []
        (inserted_at 3 (event_p ∷ []) [] ∷ []) }
{}

/// Clocks, continuations and good prefixes, and what is owed so far and in all.
pub fn continuing()
    ensures from_any_clock { NeverFall 2 (recorded_at 2 [] ∷ Tick 5 ∷ recorded_at 5 [] ∷ []) }
    ensures behind_a_tick { NeverFall 0 (Tick 5 ∷ recorded_at 4 [] ∷ []) → ⊥ }
    ensures from_its_time { Continuation q_at_1 3 q_then_p }
    ensures from_a_later_time { Continuation q_at_1 4 q_then_p → ⊥ }
    ensures from_no_front { Continuation (at_time 1 (event_p ∷ []) ∷ []) 0 q_then_p → ⊥ }
    ensures good_at_the_last_moment { Good policy_p_in_time q_at_1 3 }
    ensures good_prefix { GoodPrefix policy_p_in_time q_at_1 }
    ensures too_late { Good policy_p_in_time q_at_1 4 → ⊥ }
    ensures keeps_up { KeepsUp may_cause may_suppress policy_p_in_time from_nothing
        (recorded_at 1 (event_q ∷ []) ∷ Tick 3 ∷ []) (system_at 1 (event_q ∷ []) [] ∷ []) }
    ensures keeps_up_no_more { KeepsUp may_cause may_suppress policy_p_in_time from_nothing
        (recorded_at 1 (event_q ∷ []) ∷ Tick 4 ∷ []) (system_at 1 (event_q ∷ []) [] ∷ []) → ⊥ }
    ensures not_all_that_is_owed { Enforced may_cause may_suppress policy_p_in_time from_nothing
        (recorded_at 1 (event_q ∷ []) ∷ Tick 3 ∷ []) (system_at 1 (event_q ∷ []) [] ∷ []) → ⊥ }
    ensures all_that_is_owed { Enforced may_cause may_suppress policy_p_in_time
        (record { trace = q_at_1; clock = 2 }) []
        (inserted_at 3 (event_p ∷ []) (Cause event_p ∷ []) ∷ []) }
{}
