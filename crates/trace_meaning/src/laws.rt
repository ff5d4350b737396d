//! Laws of records, traces, lawful change and good prefixes, each the contract of a function with an empty body.
ghost use Rattle.trace_meaning.specs.machine.Laws.{RecordsJoin, ClockJoins, ClockRises, TraceGrows, LastIsTheNew};
ghost use Rattle.trace_meaning.specs.machine.Laws.{LastIsAtTheEnd, NoneIsLater, OrderOfAny, WithinJoins, LawfulJoins};
ghost use Rattle.trace_meaning.specs.machine.Laws.{SatisfyingIsGood, GoodFromEarlier, GoodFromLonger, FrontIsGood};
ghost use Rattle.trace_meaning.specs.machine.Laws.{GoodIsTrace};

/// Records one after another.
pub fn records_join()
    ensures never_fall { RecordsJoin }
    ensures clock { ClockJoins }
    ensures rises { ClockRises }
{}

/// A trace with one step more.
pub fn trace_grows()
    ensures trace { TraceGrows }
    ensures last { LastIsTheNew }
{}

/// The last time of a trace.
pub fn last_time_of_trace()
    ensures at_the_end { LastIsAtTheEnd }
    ensures none_later { NoneIsLater }
{}

/// Lawful changes one after another.
pub fn lawful_joins()
    ensures order { OrderOfAny }
    ensures within { WithinJoins }
    ensures lawful { LawfulJoins }
{}

/// What can be continued well.
pub fn good()
    ensures satisfying { SatisfyingIsGood }
    ensures earlier { GoodFromEarlier }
    ensures longer { GoodFromLonger }
    ensures front { FrontIsGood }
    ensures is_trace { GoodIsTrace }
{}
