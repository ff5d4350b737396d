//! Laws of what windows answer, each the contract of a function with an empty body.
ghost use Rattle.windows.specs.machine.AnswerLaws.{AllAreGiven, AmongAreGiven, OutsideAreGiven, LastIsGiven};
ghost use Rattle.windows.specs.machine.AnswerLaws.{GivenIsKept, GivenLastIsKept};
ghost use Rattle.windows.specs.machine.Laws.{NothingAtFirst, OneStepMore, RememberedIsKept, CommittedStands};
ghost use Rattle.windows.specs.machine.Laws.{AnsweredIsWalked, LeastIsChosen};

/// What a list of steps answers, step by step.
pub fn step_by_step()
    ensures nothing { NothingAtFirst }
    ensures more { OneStepMore }
{}

/// What a window remembers it has kept, for which steps it stands after a commit, and what it answers then.
pub fn windows_stand()
    ensures kept { RememberedIsKept }
    ensures committed { CommittedStands }
    ensures answered { AnsweredIsWalked }
{}

/// Of the times that the rows of a valuation have in a window none could be left out.
pub fn rows_are_chosen()
    ensures { LeastIsChosen }
{}

/// What windows and slots answer at a step, as tables that functions determine.
pub fn rows_are_given()
    ensures all { AllAreGiven }
    ensures among { AmongAreGiven }
    ensures outside { OutsideAreGiven }
    ensures last { LastIsGiven }
    ensures kept { GivenIsKept }
    ensures last_kept { GivenLastIsKept }
{}
