//! Worked cases of what has to be kept, and of what a past state can be made of, each a clause of a function with an
//! empty body.
ghost use Rattle.std.specs.Prelude.{◌≡◌, [], ◌∷◌, None, Some};
ghost use Rattle.enf_formula.specs.meaning.Satisfaction.{Historically, Not, Once, HoldsAnywhere};
ghost use Rattle.past_state.specs.machine.Cases.{IsKeptIn, IsNotKeptIn, at_third, IsKeptBy, IsNotKeptBy, p_of_x};
ghost use Rattle.past_state.specs.machine.Cases.{q_since_p, IsKeptInWindow, IsNotKeptInWindow, nothing_then_p};
ghost use Rattle.past_state.specs.machine.Cases.{p_then_nothing};
ghost use Rattle.past_state.specs.machine.RestoringCases.{CanBeKept, CaseRowsDoNotFit, CaseRowsFit, CaseRowsFitBoth};
ghost use Rattle.past_state.specs.machine.RestoringCases.{first_window_row, second_window_row, two_number_row, once_in};
ghost use Rattle.past_state.specs.machine.RestoringCases.{prev_p};
ghost use Rattle.past_state.specs.machine.WindowShapes.{IsFirstOutOfBounds};
ghost use Rattle.past_state.specs.meaning.RowBounds.{numbered_operators};
ghost use Rattle.windows.specs.machine.Cases.{case_from, case_within};

/// At time 3, of rows that are right at the times 0 and 2.
pub fn kept()
    ensures far_enough { IsKeptIn (case_within 2 5) HoldsAnywhere 0 }
    ensures near { IsKeptIn (case_within 2 5) HoldsAnywhere 2 }
    ensures latest_of_the_far { IsKeptIn (case_within 1 5) HoldsAnywhere 2 }
    ensures earlier_of_the_far { IsNotKeptIn (case_within 1 5) HoldsAnywhere 0 }
    ensures at_the_end { IsKeptIn (case_within 2 3) HoldsAnywhere 0 }
    ensures past_the_end { IsNotKeptIn (case_within 2 2) HoldsAnywhere 0 }
    ensures earliest { IsKeptIn (case_from 1) HoldsAnywhere 0 }
    ensures later { IsNotKeptIn (case_from 1) HoldsAnywhere 2 }
    ensures died { IsNotKeptIn (case_within 2 5) at_third 0 }
    ensures lived { IsKeptIn (case_within 2 5) at_third 2 }
    ensures never_right { IsNotKeptIn (case_within 0 5) HoldsAnywhere 3 }
{}

/// For one operator over p(x), of p(1) at the times 0 and 3, and p(2) at time 2.
pub fn kept_by_operators()
    ensures last_position { IsKeptBy prev_p 1 3 }
    ensures another_number { IsNotKeptBy prev_p 2 3 }
    ensures with_the_last_time { IsNotKeptBy prev_p 1 0 }
    ensures of_the_denial { IsKeptBy (Historically 0 (case_within 0 5) (Not 0 p_of_x)) 1 3 }
    ensures the_latest { IsNotKeptBy (Historically 0 (case_within 0 5) (Not 0 p_of_x)) 1 0 }
    ensures where_it_fails { IsKeptBy (Historically 0 (case_within 0 5) p_of_x) 1 2 }
    ensures not_where_it_holds { IsNotKeptBy (Historically 0 (case_within 0 5) p_of_x) 1 3 }
    ensures far_of_once { IsKeptBy (Once 0 (case_within 2 5) p_of_x) 1 0 }
    ensures right_side_of_since { IsKeptBy q_since_p 1 3 }
    ensures died { IsNotKeptBy q_since_p 2 2 }
{}

/// In the windows of two guards: those of `once` and the `prev` in it, and that of the second guard.
pub fn kept_in_windows()
    ensures outer { IsKeptInWindow p_then_nothing 0 }
    ensures not_of_the_inner { IsNotKeptInWindow p_then_nothing 1 }
    ensures inner { IsKeptInWindow nothing_then_p 1 }
    ensures not_of_the_outer { IsNotKeptInWindow nothing_then_p 0 }
    ensures second_guard { IsKeptInWindow nothing_then_p 2 }
    ensures no_other { IsNotKeptInWindow nothing_then_p 3 }
{}

/// Of which rows a past state can be made: where 9 is the last time, and before the first step.
pub fn bounds()
    ensures far_and_near { CaseRowsFit (once_in (case_within 3 8))
        (first_window_row 1 2 ∷ first_window_row 1 8 ∷ []) }
    ensures two_far { CaseRowsDoNotFit (once_in (case_within 3 8))
        (first_window_row 1 2 ∷ first_window_row 1 5 ∷ []) }
    ensures far_of_two_rows { CaseRowsFit (once_in (case_within 3 8))
        (first_window_row 1 2 ∷ first_window_row 2 5 ∷ []) }
    ensures at_the_end { CaseRowsFit (once_in (case_within 3 8)) (first_window_row 1 1 ∷ []) }
    ensures past_the_end { CaseRowsDoNotFit (once_in (case_within 3 8)) (first_window_row 1 0 ∷ []) }
    ensures without_end { CaseRowsFit (once_in (case_from 3)) (first_window_row 1 0 ∷ []) }
    ensures two_without_end { CaseRowsDoNotFit (once_in (case_from 3))
        (first_window_row 1 0 ∷ first_window_row 1 8 ∷ []) }
    ensures after_the_last { CaseRowsDoNotFit (once_in (case_within 3 8)) (first_window_row 1 10 ∷ []) }
    ensures prev_at_the_last { CaseRowsFit prev_p (first_window_row 1 9 ∷ first_window_row 2 9 ∷ []) }
    ensures prev_earlier { CaseRowsDoNotFit prev_p (first_window_row 1 8 ∷ []) }
    ensures too_long { CaseRowsDoNotFit (once_in (case_within 3 8)) (two_number_row 5 ∷ []) }
    ensures no_such_window { CaseRowsDoNotFit (once_in (case_within 3 8)) (second_window_row 1 5 ∷ []) }
    ensures out_of_order { CaseRowsDoNotFit (once_in (case_within 3 8))
        (first_window_row 2 5 ∷ first_window_row 1 5 ∷ []) }
    ensures by_row_first { CaseRowsFit (once_in (case_within 3 8))
        (first_window_row 1 8 ∷ first_window_row 2 2 ∷ []) }
    ensures not_by_time_first { CaseRowsDoNotFit (once_in (case_within 3 8))
        (first_window_row 2 2 ∷ first_window_row 1 8 ∷ []) }
    ensures in_two_windows { CaseRowsFitBoth (once_in (case_within 3 8))
        (first_window_row 2 2 ∷ second_window_row 2 5 ∷ []) }
    ensures columns_of_the_right_side { CaseRowsFit q_since_p (first_window_row 1 8 ∷ []) }
    ensures twice { CaseRowsDoNotFit (once_in (case_within 3 8)) (first_window_row 1 5 ∷ first_window_row 1 5 ∷ []) }
    ensures no_rows { CanBeKept (once_in (case_within 3 8)) None [] }
    ensures before_the_first_step { CanBeKept (once_in (case_within 3 8)) None (first_window_row 1 0 ∷ []) → ⊥ }
{}

/// The operators of the first and the third of three guards, and the first row that is out of bounds, where 9 is the
/// last time and before the first step.
pub fn windows()
    ensures by_number { numbered_operators 0 (once_in (case_within 3 8) ∷ p_of_x ∷ prev_p ∷ [])
        ≡ (0, once_in (case_within 3 8)) ∷ (2, prev_p) ∷ [] }
    ensures second_far { IsFirstOutOfBounds (once_in (case_within 3 8) ∷ []) (Some 9)
        (first_window_row 1 2 ∷ first_window_row 1 5 ∷ first_window_row 1 6 ∷ []) 1 }
    ensures not_the_third { IsFirstOutOfBounds (once_in (case_within 3 8) ∷ []) (Some 9)
        (first_window_row 1 2 ∷ first_window_row 1 5 ∷ first_window_row 1 6 ∷ []) 2 → ⊥ }
    ensures none_before_the_first_step { IsFirstOutOfBounds (prev_p ∷ []) None (first_window_row 1 9 ∷ []) 0 }
{}
