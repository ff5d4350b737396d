//! Worked cases of the choice loop, each a clause of a function with an empty body.
ghost use Rattle.std.specs.Prelude.{[], ◌∷◌, true, false};
ghost use Rattle.enf_formula.specs.machine.Cases.{event_p, event_q};
ghost use Rattle.obligations.specs.machine.Cases.{at_once_for, p_of_1, q_of_1, then_for};
ghost use Rattle.choice_step.specs.machine.Cases.{AreRightAtOnce, AreRightThen, CausesNumbers, acted_at, is_number};
ghost use Rattle.choice_step.specs.machine.Cases.{Chooses, ChoosesDue, ChoosesDueAndAlways, ChoosesDueAndRoot};
ghost use Rattle.choice_step.specs.machine.Cases.{ChoosesDueTwice, ChoosesFed, ChoosesSide, ChoosesWoken, GoesForBoth};
ghost use Rattle.choice_step.specs.machine.Cases.{GoesForNext, p_by_5_and_q_by_3, p_at_5, DrainsInTime, GoesFor};
ghost use Rattle.choice_step.specs.machine.Cases.{due_at_5, empty_at_0, event_r, for_due, for_leaf, for_root};
ghost use Rattle.choice_step.specs.machine.Cases.{for_second_at, for_second_root, p_by_5, p_is_there, p_where_no_q};
ghost use Rattle.choice_step.specs.machine.Cases.{q_at_3, q_at_7, q_at_15, q_is_not, second_due_at_3, served_at_5};
ghost use Rattle.choice_step.specs.machine.Cases.{served_at_6};
ghost use Rattle.choice_step.specs.machine.Laws.{EntriesFall};
ghost use Rattle.choice_step.specs.meaning.Follows.{IsLeastDeadline};
ghost use Rattle.trace_meaning.specs.meaning.Traces.{StepRecord, Tick};
ghost use Rattle.trace_meaning.specs.declared.kinds.StepKind.TheVariants.{Inserted, System};
ghost use Rattle.obligations.specs.declared.literals.LiteralKind.TheVariants as kind;

use crate::laws::follows_is_one;
use obligations::laws::pending_is_one;
use obligations::worked_cases::{justified_at_once, justified_later, missing_of_rows, needed};

/// What is done at a step of the system.
pub fn choices()
    ensures nothing_missing { Chooses (p_is_there ∷ []) (event_p ∷ []) [] (event_p ∷ []) }
    ensures nothing_needless { Chooses (p_is_there ∷ []) (event_p ∷ []) (for_root kind.Cause event_p 0 ∷ [])
        (event_p ∷ event_p ∷ []) → ⊥ }
    ensures caused_last { Chooses (p_is_there ∷ []) (event_q ∷ []) (for_root kind.Cause event_p 0 ∷ [])
        (event_q ∷ event_p ∷ []) }
    ensures suppressed { Chooses (q_is_not ∷ []) (event_q ∷ event_p ∷ [])
        (for_root kind.Suppress event_q 0 ∷ [])
        (event_p ∷ []) }
    ensures by_rules_in_order { Chooses (p_is_there ∷ q_is_not ∷ []) (event_q ∷ [])
        (for_root kind.Cause event_p 0 ∷ for_root kind.Suppress event_q 1 ∷ []) (event_p ∷ []) }
    ensures not_in_another_order { Chooses (p_is_there ∷ q_is_not ∷ []) (event_q ∷ [])
        (for_root kind.Suppress event_q 1 ∷ for_root kind.Cause event_p 0 ∷ []) (event_p ∷ []) → ⊥ }
    ensures not_too_early { Chooses (p_is_there ∷ []) [] [] [] → ⊥ }
{}

/// What is done for one event that is wanted twice, and which events are left where one is taken out.
pub fn choices_of_events()
    ensures owed_twice { Chooses (p_is_there ∷ p_is_there ∷ []) []
        (for_root kind.Cause event_p 0 ∷ []) (event_p ∷ []) }
    ensures order_is_kept { Chooses (q_is_not ∷ []) (event_r ∷ event_q ∷ event_p ∷ [])
        (for_root kind.Suppress event_q 0 ∷ []) (event_r ∷ event_p ∷ []) }
    ensures no_neighbour_is_dropped { Chooses (q_is_not ∷ []) (event_r ∷ event_q ∷ event_p ∷ [])
        (for_root kind.Suppress event_q 0 ∷ []) (event_r ∷ []) → ⊥ }
    ensures test_falls { Chooses (q_is_not ∷ p_where_no_q ∷ []) (event_q ∷ [])
        (for_root kind.Suppress event_q 0 ∷ for_leaf kind.Cause event_p 1 1 ∷ []) (event_p ∷ []) }
{
    follows_is_one();
}

/// An earlier rule that a later one wakes is asked again before all others.
pub fn woken_choices()
    ensures from_the_start { ChoosesWoken
        (for_root kind.Cause event_q 1 ∷ for_leaf kind.Cause event_p 0 1 ∷ for_root kind.Cause event_r 2 ∷ [])
        (event_q ∷ event_p ∷ event_r ∷ []) }
    ensures not_behind_the_others { ChoosesWoken
        (for_root kind.Cause event_q 1 ∷ for_root kind.Cause event_r 2 ∷ for_leaf kind.Cause event_p 0 1 ∷ [])
        (event_q ∷ event_r ∷ event_p ∷ []) → ⊥ }
    ensures not_left_asleep { ChoosesWoken (for_root kind.Cause event_q 1 ∷ for_root kind.Cause event_r 2 ∷ [])
        (event_q ∷ event_r ∷ []) → ⊥ }
{
    follows_is_one();
}

/// What is done at an inserted step, and what a step of the system leaves to it.
pub fn forced_choices()
    ensures forced { ChoosesDue true [] (for_due ∷ []) (event_p ∷ []) }
    ensures pending_before_roots { ChoosesDueAndRoot (for_due ∷ for_second_root ∷ []) (event_p ∷ event_q ∷ []) }
    ensures not_roots_first { ChoosesDueAndRoot (for_second_root ∷ for_due ∷ [])
        (event_q ∷ event_p ∷ []) → ⊥ }
    ensures not_at_a_system_step { ChoosesDue false [] [] [] }
    ensures as_they_were_begun { ChoosesDueTwice (for_due ∷ for_second_at 5 1 ∷ []) (event_p ∷ event_q ∷ []) }
    ensures not_the_later_first { ChoosesDueTwice (for_second_at 5 1 ∷ for_due ∷ [])
        (event_q ∷ event_p ∷ []) → ⊥ }
{
    follows_is_one();
}

/// An event that is caused gives a guard a row at the same step.
pub fn fed_choices()
    ensures fed { ChoosesFed (for_root kind.Cause p_of_1 1 ∷ for_leaf kind.Cause q_of_1 0 1 ∷ [])
        (p_of_1 ∷ q_of_1 ∷ []) }
    ensures not_left_unfed { ChoosesFed (for_root kind.Cause p_of_1 1 ∷ []) (p_of_1 ∷ []) → ⊥ }
{
    follows_is_one();
    missing_of_rows();
}

/// What is pending and is not forced takes part in an inserted step, before the roots do.
pub fn choices_of_pending()
    ensures takes_part { ChoosesDueAndAlways (for_due ∷ for_second_at 5 1 ∷ []) (event_p ∷ event_q ∷ []) }
    ensures not_left_out { ChoosesDueAndAlways (for_due ∷ []) (event_p ∷ []) → ⊥ }
{
    follows_is_one();
}

/// Which lists of numbers are below others.
pub fn lower_numbers()
    ensures first { EntriesFall (1 ∷ 0 ∷ []) (0 ∷ 5 ∷ []) }
    ensures behind { EntriesFall (2 ∷ 1 ∷ []) (2 ∷ 0 ∷ []) }
    ensures not_above { EntriesFall (1 ∷ 5 ∷ []) (2 ∷ 0 ∷ []) → ⊥ }
    ensures not_the_same { EntriesFall (2 ∷ 1 ∷ []) (2 ∷ 1 ∷ []) → ⊥ }
{}

/// Of two deadlines that pass the lesser is served first, whatever the order of the rules.
pub fn deadlines_in_order()
    ensures least { IsLeastDeadline p_by_5_and_q_by_3 (due_at_5 ∷ second_due_at_3 ∷ []) 3 }
    ensures not_the_first_rules { IsLeastDeadline p_by_5_and_q_by_3 (due_at_5 ∷ second_due_at_3 ∷ []) 5 → ⊥ }
    ensures both { GoesForBoth (StepRecord empty_at_0.step ∷ Tick 6 ∷ [])
        (empty_at_0 ∷ q_at_3 ∷ p_at_5 ∷ []) }
    ensures not_one_alone { GoesForBoth (StepRecord empty_at_0.step ∷ Tick 6 ∷ [])
        (empty_at_0 ∷ q_at_3 ∷ []) → ⊥ }
    ensures not_turned { GoesForBoth (StepRecord empty_at_0.step ∷ Tick 6 ∷ [])
        (empty_at_0 ∷ p_at_5 ∷ q_at_3 ∷ []) → ⊥ }
{
    follows_is_one();
}

/// What an inserted step begins is served too.
pub fn deadlines_of_inserted()
    ensures served { GoesForNext (StepRecord empty_at_0.step ∷ Tick 16 ∷ [])
        (empty_at_0 ∷ served_at_5 ∷ q_at_15 ∷ []) }
    ensures not_left_open { GoesForNext (StepRecord empty_at_0.step ∷ Tick 16 ∷ [])
        (empty_at_0 ∷ served_at_5 ∷ []) → ⊥ }
    ensures not_before { GoesForNext (StepRecord empty_at_0.step ∷ Tick 15 ∷ [])
        (empty_at_0 ∷ served_at_5 ∷ q_at_15 ∷ []) → ⊥ }
{
    follows_is_one();
}

/// Deadlines that pass, and such as do not.
pub fn deadlines()
    ensures not_at_its_time { GoesFor (StepRecord empty_at_0.step ∷ Tick 5 ∷ []) (empty_at_0 ∷ []) }
    ensures too_early { GoesFor (StepRecord empty_at_0.step ∷ Tick 5 ∷ [])
        (empty_at_0 ∷ served_at_5 ∷ []) → ⊥ }
    ensures behind_it { GoesFor (StepRecord empty_at_0.step ∷ Tick 6 ∷ []) (empty_at_0 ∷ served_at_5 ∷ []) }
    ensures not_left_out { GoesFor (StepRecord empty_at_0.step ∷ Tick 6 ∷ []) (empty_at_0 ∷ []) → ⊥ }
    ensures before_the_step { GoesFor (StepRecord empty_at_0.step ∷ StepRecord q_at_7.step ∷ [])
        (empty_at_0 ∷ served_at_5 ∷ q_at_7 ∷ []) }
    ensures not_behind_the_step { GoesFor (StepRecord empty_at_0.step ∷ StepRecord q_at_7.step ∷ [])
        (empty_at_0 ∷ q_at_7 ∷ served_at_5 ∷ []) → ⊥ }
    ensures drained { DrainsInTime (served_at_5 ∷ []) }
    ensures nothing_left_out { DrainsInTime [] → ⊥ }
    ensures not_a_unit_late { DrainsInTime (served_at_6 ∷ []) → ⊥ }
    ensures not_later { IsLeastDeadline (p_by_5 ∷ []) (due_at_5 ∷ []) 6 → ⊥ }
{
    follows_is_one();
    pending_is_one();
}

/// What meets the one side of a choice, though it was caused for the other, leaves nothing owed of this.
pub fn choices_of_sides()
    ensures met { ChoosesSide (for_leaf kind.Cause event_p 0 5 ∷ []) (event_q ∷ event_p ∷ []) }
    ensures not_owed { ChoosesSide (for_leaf kind.Cause event_p 0 5 ∷ for_leaf kind.Cause event_r 0 6 ∷ [])
        (event_q ∷ event_p ∷ event_r ∷ []) → ⊥ }
{
    follows_is_one();
}

/// What is emitted, each action for the rule that it serves, and each inserted step needed.
pub fn justified_steps()
    ensures for_its_rule { AreRightAtOnce [] (acted_at System 5 (event_p ∷ [])
        (at_once_for kind.Cause event_p 0 0 ∷ []) ∷ []) }
    ensures for_another_rule { AreRightAtOnce (event_q ∷ []) (acted_at System 5 (event_q ∷ event_p ∷ [])
        (at_once_for kind.Cause event_p 1 0 ∷ []) ∷ []) → ⊥ }
    ensures unchanged { AreRightAtOnce (event_p ∷ []) (acted_at System 5 (event_p ∷ []) [] ∷ []) }
    ensures no_record { AreRightThen (acted_at System 15 [] [] ∷ []) → ⊥ }
    ensures no_step { AreRightAtOnce [] [] → ⊥ }
    ensures at_the_deadline { AreRightThen (acted_at Inserted 15 (event_p ∷ []) (then_for 15 0 1 0 ∷ []) ∷ []) }
    ensures needless { AreRightThen (acted_at Inserted 14 [] [] ∷ []) → ⊥ }
{
    justified_at_once();
    justified_later();
    needed();
}

/// What a leaf causes passes a test where the values of its variables do.
pub fn fitting_causes()
    ensures of_numbers { CausesNumbers is_number }
    ensures not_of_all { CausesNumbers (λ value. true) → ⊥ }
{}
