//! Worked cases of the definitions, each a clause of a function with an empty body.
ghost use Rattle.std.specs.Prelude.{◌≡◌, [], ◌∷◌, None, Some};
ghost use Rattle.deadline_queue.specs.machine.Queues.{HoldsOneMore, IsLeastOf, IsDeadlineQueue, held_deadlines};
ghost use Rattle.deadline_queue.specs.machine.Queues.{held_count};

/// Queues, and lists of pairs that are none.
pub fn queues()
    ensures empty { IsDeadlineQueue [] }
    ensures rising { IsDeadlineQueue ((3, 2) ∷ (5, 1) ∷ []) }
    ensures falling { IsDeadlineQueue ((5, 1) ∷ (3, 2) ∷ []) → ⊥ }
    ensures repeated { IsDeadlineQueue ((3, 2) ∷ (3, 1) ∷ []) → ⊥ }
    ensures held_no_more { IsDeadlineQueue ((3, 0) ∷ []) → ⊥ }
{}

/// How often a deadline is held, and the least.
pub fn deadlines()
    ensures held { held_count ((3, 2) ∷ (5, 1) ∷ []) 3 ≡ 2 }
    ensures not_held { held_count ((3, 2) ∷ (5, 1) ∷ []) 4 ≡ 0 }
    ensures entries { held_deadlines ((3, 2) ∷ (5, 1) ∷ []) ≡ 3 ∷ 3 ∷ 5 ∷ [] }
    ensures another { HoldsOneMore 4 ((3, 2) ∷ []) ((3, 2) ∷ (4, 1) ∷ []) }
    ensures once_more { HoldsOneMore 3 ((3, 2) ∷ []) ((3, 3) ∷ []) }
    ensures not_the_same { HoldsOneMore 3 ((3, 2) ∷ []) ((3, 2) ∷ []) → ⊥ }
    ensures least { IsLeastOf (3 ∷ 3 ∷ 5 ∷ []) (Some 3) }
    ensures none { IsLeastOf [] None }
    ensures not_the_greatest { IsLeastOf (3 ∷ 3 ∷ 5 ∷ []) (Some 5) → ⊥ }
{}
