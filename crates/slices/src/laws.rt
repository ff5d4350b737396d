//! Laws of slices, each the contract of a function with an empty body.
ghost use Rattle.slices.specs.machine.Laws.{SlicesComeFromTraces, SlicesAreTraces, NothingIsInTheWay, HoldsByKeys};
ghost use Rattle.slices.specs.machine.Laws.{TruthStays, HoldsWhereLeftOut, HoldsForOtherKeys, SlicesDecide};
ghost use Rattle.slices.specs.machine.Laws.{MergesSatisfy, SlicesAreGood, LogsHaveSlicedSteps};
ghost use Rattle.slices.specs.machine.Laws.{ChangesMerge, GoodLogsStayGood, StepsMerge, MergesAreEnforced};
ghost use Rattle.slices.specs.machine.Laws.{MissingIsUnseen, OrderIsUnseen, SplitIsUnseen, ChangesStayOnce};

/// The steps of a slice.
pub fn slices()
    ensures steps { SlicesComeFromTraces }
    ensures traces { SlicesAreTraces }
{}

/// What is in the way of a cut.
pub fn hindrances()
    ensures { NothingIsInTheWay }
{}

/// The truth of a rule for a key.
pub fn truth()
    ensures by_keys { HoldsByKeys }
    ensures stays { TruthStays }
    ensures left_out { HoldsWhereLeftOut }
    ensures others { HoldsForOtherKeys }
{}

/// Policies on slices, and on what is merged of them.
pub fn policies()
    ensures slices { SlicesDecide }
    ensures merged { MergesSatisfy }
    ensures good { SlicesAreGood }
{}

/// Slices of logs, and changes of what is in them.
pub fn logs()
    ensures steps { LogsHaveSlicedSteps }
    ensures good { GoodLogsStayGood }
    ensures changes { ChangesMerge }
{}

/// What was done in slices, made in the whole.
pub fn merges()
    ensures steps { StepsMerge }
    ensures once { ChangesStayOnce }
    ensures enforced { MergesAreEnforced }
{}

/// What no slice sees, and so what may differ in a merge.
pub fn unseen()
    ensures missing { MissingIsUnseen }
    ensures order { OrderIsUnseen }
    ensures split { SplitIsUnseen }
{}
