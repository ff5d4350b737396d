//! Laws of ranks and of the transparent mark, each the contract of a function that does nothing.
ghost use Rattle.rank_check.specs.machine.Laws.{HasOneRank, ZeroHasNoEdge, RankIsOneMore, EdgesRise, CyclesHaveNoRank};
ghost use Rattle.rank_check.specs.machine.Laws.{AllHaveRanks, AcceptedPlansStay, ArePlansAnswered, OneReason};
ghost use Rattle.rank_check.specs.machine.TransparencyLaws.{DeadlinesAreNotLost, OwedNodesAreNotLost, OwedNodesHold};
ghost use Rattle.rank_check.specs.machine.TransparencyLaws.{RootsAreNotLost, RootsHold};

use enf_formula::laws::is_classical;
use plan_terms::laws::{nodes_stand_in_plans, number_is_place, owed_stays_owed};

/// The rank of a name is 0 where no edge ends in it, and else one more than the greatest rank of a name from which an
/// edge comes; a name on a cycle has none.
pub fn ranks_by_recursion()
    ensures one { HasOneRank }
    ensures zero { ZeroHasNoEdge }
    ensures one_more { RankIsOneMore }
    ensures rise { EdgesRise }
    ensures cycles { CyclesHaveNoRank }
{}

/// Where a test tells the edges between so many names, and no name is on a cycle, each name has a rank.
pub fn all_have_ranks()
    ensures { AllHaveRanks }
{}

/// Plans are accepted, or refused for one reason alone.
pub fn plans_have_one_answer()
    ensures answered { ArePlansAnswered }
    ensures accepted { AcceptedPlansStay }
    ensures one { OneReason }
{}

/// Where a trace goes on to satisfy the formulas of the plans, each rule's root holds there at each position of the
/// trace. Under transparent plans so does each node that is owed and looks ahead.
pub fn owed_nodes_hold()
    ensures roots { RootsHold }
    ensures owed { OwedNodesHold }
{
    is_classical();
    owed_stays_owed();
}

/// While a trace can be continued well no rule's root is lost at a position of it, nor, under transparent plans, an
/// operator on the future that is owed.
pub fn owed_nodes_are_not_lost()
    ensures roots { RootsAreNotLost }
    ensures owed { OwedNodesAreNotLost }
    ensures deadlines { DeadlinesAreNotLost }
{
    nodes_stand_in_plans();
    number_is_place();
    owed_nodes_hold();
}
