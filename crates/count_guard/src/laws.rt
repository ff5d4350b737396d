//! Laws of copies and counts, each the contract of a function with an empty body.
ghost use Rattle.count_guard.specs.machine.Laws.{CopiesHoldAlike, CountsHoldAsSaid, FreeInCopies, FreeInCounts};

/// A copy of a formula has its meaning.
pub fn copies()
    ensures { CopiesHoldAlike }
{}

/// The formula of a count says what it counts.
pub fn counts()
    ensures { CountsHoldAsSaid }
{}

/// The free variables of copies, and of the formulas of counts.
pub fn free_variables()
    ensures copies { FreeInCopies }
    ensures counts { FreeInCounts }
{}
