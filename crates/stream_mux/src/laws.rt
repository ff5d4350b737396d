//! Laws of merged streams, each the contract of a function with an empty body.
ghost use Rattle.stream_mux.specs.machine.Laws.{MergesAreOrdered, MergesKeepStreams, OneMerge, InterleavingsMergeAlike};
ghost use Rattle.stream_mux.specs.machine.Laws.{FreshMuxesStand, RefusesByHistory, ReleasedGoFirst};
ghost use Rattle.stream_mux.specs.machine.Laws.{SentNeverFalls, SentStepsAreReleased};
ghost use Rattle.stream_mux.specs.machine.TagLaws.{EndsStandBehindTags, NoColonIsBad, NoNumberIsBad, NoSemicolonIsBad};
ghost use Rattle.stream_mux.specs.machine.TagLaws.{RecordsStandBehindTags};

/// The merge has the steps of each stream in their order, and is the one list in its order that has them. So it does
/// not depend on how the records of the streams came among one another.
pub fn merges()
    ensures ordered { MergesAreOrdered }
    ensures streams { MergesKeepStreams }
    ensures one { OneMerge }
    ensures alike { InterleavingsMergeAlike }
{}

/// What is released stays the front of the merge, and is what is sent but for ticks, at times that never fall.
pub fn releases()
    ensures first { ReleasedGoFirst }
    ensures sent { SentStepsAreReleased }
    ensures never_fall { SentNeverFalls }
{}

/// A new `Mux` stands for no record, and each refuses what the rules refuse after the records for which it stands.
pub fn muxes()
    ensures fresh { FreshMuxesStand }
    ensures refusals { RefusesByHistory }
{}

/// Behind the tag of a stream stands what the grammar of a log has there, or the end of the stream.
pub fn tags()
    ensures records { RecordsStandBehindTags }
    ensures ends { EndsStandBehindTags }
    ensures no_number { NoNumberIsBad }
    ensures no_colon { NoColonIsBad }
    ensures no_semicolon { NoSemicolonIsBad }
{}
