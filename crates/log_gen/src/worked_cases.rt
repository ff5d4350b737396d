//! Cases of the definitions that the eye can check, each the contract of a function with an empty body.
ghost use Rattle.std.specs.Prelude.{◌≡◌, ◌∷◌, [], codes, map};
ghost use Rattle.log_gen.specs.meaning.GeneratedLogs.{draw, generated_step};
ghost use Rattle.log_gen.specs.machine.Generators.{generated_line};

/// The first draws from 1.
pub fn first_draws()
    ensures first { map (draw 1) (0 ∷ 1 ∷ 2 ∷ 3 ∷ 4 ∷ 5 ∷ 6 ∷ [])
        ≡ 16838 ∷ 5758 ∷ 10113 ∷ 17515 ∷ 31051 ∷ 5627 ∷ 23010 ∷ [] }
    ensures later { map (draw 1) (7 ∷ 8 ∷ 9 ∷ 10 ∷ 11 ∷ 12 ∷ 13 ∷ [])
        ≡ 7419 ∷ 16212 ∷ 4086 ∷ 2749 ∷ 12767 ∷ 9084 ∷ 12060 ∷ [] }
{}

/// The first lines from 1.
pub fn first_lines()
    ensures first { generated_line 1 0 ≡ codes "@6 delete(\"u11\") consent(\"u11\");\n" }
    ensures second { generated_line 1 1 ≡ codes "@8 use(\"u6\") lock(\"u15\") lock(\"u12\");\n" }
{}
