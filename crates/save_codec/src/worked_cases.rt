//! Worked cases of saved texts.
ghost use Rattle.std.specs.Prelude.{◌≡◌, ◌∷◌, ◌++◌, [], None, Some, codes, false, true};
ghost use Rattle.save_codec.specs.meaning.SavedBounds.{IsFirstUnfitLine, AreLinesWithin};
ghost use Rattle.save_codec.specs.machine.Cases.{save_case_beginning, going, late, save_case_setting, stepless};
ghost use Rattle.save_codec.specs.machine.Cases.{windowless};
ghost use Rattle.save_codec.specs.meaning.SavedTexts.{line_follows, lines_of, saved_text};
ghost use Rattle.save_codec.specs.meaning.SaveRefusals.{IsFault};
ghost use Rattle.save_codec.specs.declared.lines.Line.TheVariants as line;

/// The text of a state before the first step, and of one with a kept row and a pending instance.
pub fn texts()
    ensures beginning { saved_text [] [] save_case_beginning
        ≡ codes "enfstate 1\nsignature 0\n\npolicy 0\n\nclock 0\nlast -\nposition 0\nend\n" }
    ensures going { saved_text (codes "a();") [] going
        ≡ codes "enfstate 1\nsignature 4\na();\npolicy 0\n\nclock 6\nlast 5\nposition 3\nrow 0 4 7 "
        ++ 34 ∷ 92 ∷ 34 ∷ 34 ∷ codes "\ndue 1 2 0 5 9 " ++ 34 ∷ 97 ∷ 34 ∷ codes "\nend\n" }
{}

/// Which lines follow one another: the numbers in their order, then rows, instances and the end.
pub fn lines()
    ensures first { line_follows None (line.Last None) ≡ false }
    ensures numbers { line_follows (Some (line.Clock 5)) (line.Position 1) ≡ false }
    ensures due { line_follows (Some (line.Position 1)) (line.Due 0 1 0 5 35 []) ≡ true }
    ensures row { line_follows (Some (line.Due 0 1 0 5 35 [])) (line.Row 0 5 []) ≡ false }
    ensures end { line_follows (Some line.End) line.End ≡ false }
{}

/// Bytes that begin with no head, and states that break the bounds, each with its first line that does.
pub fn refused()
    ensures head { IsFault (codes "enfstate 2\n") 0 }
    ensures beginning { AreLinesWithin save_case_setting (lines_of save_case_beginning) }
    ensures late { IsFirstUnfitLine save_case_setting (lines_of late) 2 }
    ensures stepless { IsFirstUnfitLine save_case_setting (lines_of stepless) 3 }
    ensures windowless { IsFirstUnfitLine save_case_setting (lines_of windowless) 4 }
{}
