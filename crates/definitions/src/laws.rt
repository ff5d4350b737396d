//! Laws of definitions, each the contract of a function with an empty body.
ghost use Rattle.definitions.specs.machine.Laws.{PlainFormulasHoldAlike, UnfoldedRulesHoldAlike};

/// A rule holds under definitions where its unfolded rule holds.
pub fn rules()
    ensures { UnfoldedRulesHoldAlike }
{}

/// Without definitions a formula holds where it is satisfied.
pub fn plain()
    ensures { PlainFormulasHoldAlike }
{}
