//! Worked cases of the definitions, each a clause of a function with an empty body.
ghost use Rattle.std.specs.Prelude.{◌≡◌, [], ◌∷◌};
ghost use Rattle.plan_terms.specs.machine.Cases.{each_soon};
ghost use Rattle.rank_check.specs.machine.Cases.{then_always_q};
ghost use Rattle.enforcer_core.specs.machine.Cases.{due_by};
ghost use Rattle.enforcer_core.specs.machine.Reach.{CountsFall, class_counts, count_of_class, reach_of};

/// Up to when something can be owed under `each_soon`, whose only interval ends after 30 and is of class 6, and how
/// many of a class are pending.
pub fn reaches()
    ensures nothing { reach_of (0 ∷ 1 ∷ []) (each_soon ∷ []) [] ≡ 0 }
    ensures one { reach_of (0 ∷ 1 ∷ []) (each_soon ∷ []) (due_by 31 ∷ []) ≡ 211 }
    ensures the_greatest { reach_of (0 ∷ 1 ∷ []) (each_soon ∷ [])
        (due_by 31 ∷ due_by 40 ∷ due_by 35 ∷ []) ≡ 220 }
    ensures no_deadline { reach_of (0 ∷ 0 ∷ []) (then_always_q ∷ []) (due_by 31 ∷ []) ≡ 0 }
    ensures counted { count_of_class (0 ∷ 1 ∷ []) (each_soon ∷ []) 6 (due_by 31 ∷ due_by 40 ∷ []) ≡ 2 }
    ensures of_no_other_class { count_of_class (0 ∷ 1 ∷ []) (each_soon ∷ []) 5 (due_by 31 ∷ []) ≡ 0 }
    ensures by_class { class_counts (0 ∷ 1 ∷ []) (each_soon ∷ []) (due_by 31 ∷ due_by 40 ∷ [])
        ≡ 2 ∷ 0 ∷ 0 ∷ 0 ∷ 0 ∷ 0 ∷ 0 ∷ [] }
    ensures fewer { CountsFall (0 ∷ 1 ∷ []) (each_soon ∷ []) (due_by 31 ∷ due_by 31 ∷ []) (due_by 40 ∷ []) }
    ensures as_many { CountsFall (0 ∷ 1 ∷ []) (each_soon ∷ []) (due_by 31 ∷ []) (due_by 40 ∷ []) → ⊥ }
{}
