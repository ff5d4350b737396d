//! Worked cases of the definitions, each a clause of a function with an empty body.
ghost use Rattle.std.specs.Prelude.{[], ◌∷◌, None};
ghost use Rattle.windows.specs.machine.Cases.{IsGiven, IsNotGiven, IsGivenFor3, case_within, case_from, entry};
ghost use Rattle.windows.specs.machine.Cases.{right_at_0, again_at_2, at_0_and_2, both_at_4, right_now};
ghost use Rattle.windows.specs.machine.Cases.{IsKeptByEntries, IsNotKeptByEntries, IsRemembered, IsNotRemembered};
ghost use Rattle.windows.specs.machine.Cases.{IsKeptWith1, IsNotKeptWith1, dies_at_once, right_at_3, window_at_last};
ghost use Rattle.windows.specs.machine.Cases.{with_1, IsGivenBy, IsNotGivenBy, last_at};
ghost use Rattle.windows.specs.machine.Windows.{StandsForSteps};

/// What committed steps and the present one answer.
pub fn windows()
    ensures ends { IsGivenFor3 3 right_at_0 1 }
    ensures from_on { IsGiven (case_from 3) 3 right_at_0 1 }
    ensures below_from_on { IsNotGiven (case_from 4) 3 right_at_0 1 }
    ensures another_row { IsNotGiven (case_from 0) 3 right_at_0 2 }
    ensures at_one_time { IsGiven (case_within 0 0) 4 both_at_4 1 }
    ensures earliest { IsGiven (case_within 3 3) 3 at_0_and_2 1 }
    ensures latest { IsGiven (case_within 1 1) 3 at_0_and_2 1 }
    ensures at_neither { IsNotGiven (case_within 2 2) 3 at_0_and_2 1 }
    ensures died { IsNotGiven (case_within 2 5) 3 again_at_2 1 }
    ensures came_again { IsGiven (case_within 0 1) 3 again_at_2 1 }
    ensures lived { IsGiven (case_within 2 5) 3 again_at_2 2 }
    ensures right_now { IsGiven (case_within 0 0) 3 right_now 1 }
    ensures right_now_without_0 { IsNotGiven (case_from 1) 3 right_now 1 }
    ensures dies_now { IsNotGiven (case_from 0) 3
        (entry 0 [] (1 ∷ []) ∷ entry 3 (2 ∷ []) [] ∷ []) 1 }
    ensures no_step { IsNotGiven (case_from 0) 3 [] 1 }
{}

/// What has to be kept of committed steps.
pub fn kept()
    ensures at_the_end { IsKeptByEntries (case_within 1 3) 3 right_at_0 1 0 }
    ensures past_the_end { IsNotKeptByEntries (case_within 0 2) 3 right_at_0 1 0 }
    ensures not_far_enough_yet { IsKeptByEntries (case_within 5 9) 3 right_at_0 1 0 }
    ensures another_row { IsNotKeptByEntries (case_within 1 3) 3 right_at_0 2 0 }
    ensures another_time { IsNotKeptByEntries (case_within 1 3) 3 right_at_0 1 3 }
    ensures without_end_the_earliest { IsKeptByEntries (case_from 1) 3 at_0_and_2 1 0 }
    ensures without_end_no_later { IsNotKeptByEntries (case_from 1) 3 at_0_and_2 1 2 }
    ensures the_latest_that_is_far { IsKeptByEntries (case_within 1 5) 3 at_0_and_2 1 2 }
    ensures no_earlier_that_is_far { IsNotKeptByEntries (case_within 1 5) 3 at_0_and_2 1 0 }
    ensures one_that_is_far { IsKeptByEntries (case_within 2 5) 3 at_0_and_2 1 0 }
    ensures and_one_that_is_not { IsKeptByEntries (case_within 2 5) 3 at_0_and_2 1 2 }
    ensures died { IsNotKeptByEntries (case_within 2 5) 3 again_at_2 1 0 }
    ensures came_again { IsKeptByEntries (case_within 2 5) 3 again_at_2 1 2 }
    ensures lived { IsKeptByEntries (case_within 2 5) 3 again_at_2 2 0 }
    ensures at_one_time { IsKeptByEntries (case_within 0 0) 4 both_at_4 1 4 }
    ensures dies_at_once { IsNotKeptByEntries (case_within 0 0) 4 dies_at_once 1 4 }
    ensures low_past_high { IsKeptByEntries (case_within 5 2) 3 at_0_and_2 1 2 }
    ensures no_step { IsNotKeptByEntries (case_from 0) 3 [] 1 0 }
{}

/// What a window with one row remembers, and keeps, and for which steps it stands.
pub fn remembered()
    ensures near_end { IsRemembered (case_within 2 4) 3 5 1 }
    ensures far_end { IsRemembered (case_within 2 4) 3 7 1 }
    ensures too_near { IsNotRemembered (case_within 2 4) 3 4 1 }
    ensures too_far { IsNotRemembered (case_within 2 4) 3 8 1 }
    ensures another_row { IsNotRemembered (case_within 2 4) 3 5 2 }
    ensures kept_at_once { IsKeptWith1 (case_within 2 4) 3 3 1 }
    ensures kept_to_the_end { IsKeptWith1 (case_within 2 4) 3 7 1 }
    ensures not_past_the_end { IsNotKeptWith1 (case_within 2 4) 3 8 1 }
    ensures without_end { IsKeptWith1 (case_from 2) 3 1000 1 }
    ensures stands { StandsForSteps (with_1 (case_within 2 4) 3) right_at_3 }
    ensures not_by_another_time { StandsForSteps (window_at_last 3 (with_1 (case_within 2 4) 2)) right_at_3 → ⊥ }
    ensures not_without_steps { StandsForSteps (with_1 (case_within 2 4) 3) [] → ⊥ }
{}

/// What the last step gives.
pub fn slots()
    ensures near_end { IsGivenBy (case_within 3 5) 3 (last_at 0 (1 ∷ [])) 1 }
    ensures far_end { IsGivenBy (case_within 1 3) 3 (last_at 0 (1 ∷ [])) 1 }
    ensures too_near { IsNotGivenBy (case_within 4 6) 3 (last_at 0 (1 ∷ [])) 1 }
    ensures too_far { IsNotGivenBy (case_within 0 2) 3 (last_at 0 (1 ∷ [])) 1 }
    ensures from_on { IsGivenBy (case_from 3) 3 (last_at 0 (1 ∷ [])) 1 }
    ensures at_one_time { IsGivenBy (case_within 0 0) 4 (last_at 4 (1 ∷ [])) 1 }
    ensures another_row { IsNotGivenBy (case_from 0) 3 (last_at 0 (2 ∷ [])) 1 }
    ensures before_the_first { IsNotGivenBy (case_from 0) 3 None 1 }
{}
