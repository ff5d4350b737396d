//! Worked cases of the definitions, each a clause of a function with an empty body.
ghost use Rattle.std.specs.Prelude.{◌≡◌, ℕ, [], ◌∷◌, ◌++◌};
ghost use Rattle.sleepers.specs.machine.Cases.{begun_anew, ended, sleeper, wakeful};
ghost use Rattle.sleepers.specs.machine.Entries.{AllButThose, IsAllBut, IsAsleep};
ghost use Rattle.sleepers.specs.machine.Groups.{by_place};
ghost use Rattle.sleepers.specs.machine.Places.{ArePlacesInOrder, IsPlaceBefore, beginning_at};
ghost use Rattle.sleepers.specs.machine.EntrySteps.{IsStep, PutsInEntries};

/// Which of two places comes first: that of an earlier beginning, and a front before what goes on with it.
pub fn places()
    ensures earlier { IsPlaceBefore (beginning_at 1 4 ∷ []) (beginning_at 2 0 ∷ []) }
    ensures begun_with_it { IsPlaceBefore (beginning_at 2 0 ∷ []) (beginning_at 2 1 ∷ []) }
    ensures front { IsPlaceBefore (beginning_at 2 0 ∷ []) (beginning_at 2 0 ∷ beginning_at 9 5 ∷ []) }
    ensures goes_on { IsPlaceBefore (beginning_at 2 0 ∷ beginning_at 9 5 ∷ []) (beginning_at 2 1 ∷ []) }
    ensures not_itself { IsPlaceBefore (beginning_at 2 0 ∷ []) (beginning_at 2 0 ∷ []) → ⊥ }
    ensures not_its_front { IsPlaceBefore (beginning_at 2 0 ∷ beginning_at 9 5 ∷ []) (beginning_at 2 0 ∷ [])
        → ⊥ }
    ensures falling { ArePlacesInOrder ((beginning_at 2 0 ∷ []) ∷ (beginning_at 1 0 ∷ []) ∷ []) → ⊥ }
    ensures repeated { ArePlacesInOrder ((beginning_at 2 0 ∷ []) ∷ (beginning_at 2 0 ∷ []) ∷ []) → ⊥ }
{}

/// All of a list but the ones.
pub fn all_but_ones()
    ensures others { AllButThose (λ (n : ℕ). n ≡ 1) (3 ∷ 1 ∷ 3 ∷ []) (3 ∷ 3 ∷ []) }
    ensures left_out { AllButThose (λ (n : ℕ). n ≡ 1) (3 ∷ 1 ∷ []) [] → ⊥ }
    ensures too_many { AllButThose (λ (n : ℕ). n ≡ 1) (3 ∷ 1 ∷ []) (3 ∷ 1 ∷ []) → ⊥ }
    ensures any_order { IsAllBut (λ (n : ℕ). n ≡ 1) (3 ∷ 1 ∷ 2 ∷ []) (2 ∷ 3 ∷ []) }
    ensures twice { IsAllBut (λ (n : ℕ). n ≡ 1) (1 ∷ 3 ∷ []) (3 ∷ 3 ∷ []) → ⊥ }
    ensures none { IsAllBut (λ (n : ℕ). n ≡ 1) (1 ∷ 3 ∷ []) [] → ⊥ }
{}

/// What sleeps without an event: it is awake from its end on, and without patterns always.
pub fn without_events()
    ensures before { IsAsleep [] 4 (sleeper (beginning_at 1 0 ∷ []) 5) }
    ensures at_its_end { IsAsleep [] 5 (sleeper (beginning_at 1 0 ∷ []) 5) → ⊥ }
    ensures no_patterns { IsAsleep [] 4 (wakeful (beginning_at 1 0 ∷ []) 5) → ⊥ }
{}

/// A step at which an entry ends, one is begun for it, and one anew.
pub fn steps()
    ensures step { IsStep 2 10 (IsAsleep [] 5) (ended.entry ∷ []) (ended ∷ []) [] begun_anew }
    ensures puts_in { PutsInEntries (ended.begun ++ begun_anew) [] (ended.begun ++ begun_anew) }
    ensures not_made_twice { IsStep 1 10 (IsAsleep [] 5) (ended.entry ∷ []) (ended ∷ []) [] begun_anew → ⊥ }
    ensures not_while_asleep { IsStep 2 10 (IsAsleep [] 4) (ended.entry ∷ []) (ended ∷ []) [] begun_anew → ⊥ }
    ensures in_order { by_place (begun_anew ++ ended.begun) ≡ ended.begun ++ begun_anew }
{}
