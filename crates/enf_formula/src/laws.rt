//! Laws of satisfaction, each the contract of a function with an empty body.
ghost use Rattle.std.specs.Prelude.{ℕ, List};
ghost use Rattle.enf_data.specs.declared.steps.Step.{Step};
ghost use Rattle.enf_data.specs.declared.intervals.Interval.{Interval};
ghost use Rattle.enf_data.specs.declared.terms.VarId.{VarId};
ghost use Rattle.enf_formula.specs.meaning.Satisfaction.{Formula, Sat};
ghost use Rattle.enf_formula.specs.machine.Laws.{IsStable, AreEquivalent, FreeVariablesDecide, NamesDecide};
ghost use Rattle.enf_formula.specs.machine.Laws.{PastDecides};
ghost use Rattle.enf_formula.specs.machine.Polarity.{MoreEventsKeep};
ghost use Rattle.enf_data.specs.meaning.Valuations.{Valuation};
ghost use Rattle.enf_formula.specs.meaning.Satisfaction as tree;

/// A formula holds where its denial is false.
pub fn is_classical()
    ensures { (trace : List Step) (i : ℕ) (v : Valuation) (f : Formula)
        → IsStable (Sat trace i v f) }
{}

/// The connectives are those of classical logic.
pub fn connectives()
    ensures or { (p : ℕ) (f g : Formula)
        → AreEquivalent (tree.Or p f g)
        (tree.Not p (tree.And p (tree.Not p f) (tree.Not p g))) }
    ensures implies { (p : ℕ) (f g : Formula)
        → AreEquivalent (tree.Implies p f g) (tree.Or p (tree.Not p f) g) }
    ensures forall { (p : ℕ) (xs : List VarId) (f : Formula)
        → AreEquivalent (tree.Forall p xs f) (tree.Not p (tree.Exists p xs (tree.Not p f))) }
    ensures not_not { (p : ℕ) (f : Formula) → AreEquivalent (tree.Not p (tree.Not p f)) f }
{}

/// The operators that are defined by others are these abbreviations.
pub fn abbreviations()
    ensures once { (p : ℕ) (interval : Interval) (f : Formula)
        → AreEquivalent (tree.Once p interval f) (tree.Since p interval (tree.True p) f) }
    ensures historically { (p : ℕ) (interval : Interval) (f : Formula)
        → AreEquivalent (tree.Historically p interval f)
        (tree.Not p (tree.Once p interval (tree.Not p f))) }
    ensures eventually { (p : ℕ) (interval : Interval) (f : Formula)
        → AreEquivalent (tree.Eventually p interval f) (tree.Until p interval (tree.True p) f) }
    ensures always { (p : ℕ) (interval : Interval) (f : Formula)
        → AreEquivalent (tree.Always p interval f)
        (tree.Not p (tree.Eventually p interval (tree.Not p f))) }
{}

/// Satisfaction depends on the values of the free variables alone, on the times of the steps and their events of the
/// formula's names alone, and that of a formula that does not look ahead on the steps up to its position alone.
pub fn dependence()
    ensures values { FreeVariablesDecide }
    ensures names { NamesDecide }
    ensures steps { PastDecides }
{}

/// A formula that asks events of a name only to be there holds still with more of them, and one that asks them only to
/// be away holds still with fewer.
pub fn polarity()
    ensures { MoreEventsKeep }
{}
