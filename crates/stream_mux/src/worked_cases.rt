//! Worked cases of the definitions, each a clause of a function with an empty body.
ghost use Rattle.std.specs.Prelude.{◌≡◌, [], ◌∷◌, Err, None, Ok, Some, codes, false, true};
ghost use Rattle.trace_meaning.specs.declared.kinds.StepKind.TheVariants.{System, Inserted};
ghost use Rattle.log_stream.specs.declared.items.LogItem.TheVariants.{Tick};
ghost use Rattle.log_stream.specs.declared.items.LogRefusal.TheVariants.{TimeTooLarge, UnknownName};
ghost use Rattle.log_stream.specs.machine.Cases.{written};
ghost use Rattle.log_stream.specs.meaning.LogGrammar.{Line, LogMark, LogTime, TickLine};
ghost use Rattle.stream_mux.specs.declared.records.MuxRefusal.TheVariants.{NoStream, Closed, FallingStream};
ghost use Rattle.stream_mux.specs.meaning.MergedStreams.{AreInMergeOrder, AreTaken, is_before, mark_after, may_go};
ghost use Rattle.stream_mux.specs.meaning.MergedStreams.{merge_of};
ghost use Rattle.stream_mux.specs.meaning.MergedStreams.{offer_refusal, open_marks, released, sent, waiting_steps};
ghost use Rattle.stream_mux.specs.machine.Cases.{bare_step, gives_end, gives_step, gives_tick, otherwise_mixed};
ghost use Rattle.stream_mux.specs.machine.Cases.{step_from};
ghost use Rattle.stream_mux.specs.machine.Cases.{two_streams};
ghost use Rattle.stream_mux.specs.meaning.TaggedGrammar.{EndOf, IsBadTagged, IsTaggedForm, IsTaggedSpelled, RecordOf};
ghost use Rattle.stream_mux.specs.meaning.TaggedGrammar.{judged_tagged, tagged_tokens};

/// Marks, and what is refused after which records, the last one first.
pub fn refusals()
    ensures mark { mark_after two_streams 1 ≡ 50 }
    ensures no_mark { mark_after (gives_step 0 5 ∷ []) 1 ≡ 0 }
    ensures end_is_no_time { mark_after (gives_end 0 ∷ gives_step 0 5 ∷ []) 0 ≡ 5 }
    ensures open { open_marks 2 (gives_end 1 ∷ gives_step 0 5 ∷ []) ≡ Some 5 ∷ None ∷ [] }
    ensures taken { AreTaken 2 two_streams }
    ensures not_taken { AreTaken 2 (gives_step 0 4 ∷ gives_step 0 5 ∷ []) → ⊥ }
    ensures falling { offer_refusal 2 (gives_step 0 5 ∷ []) (gives_step 0 4) ≡ Some (FallingStream 0 5 4) }
    ensures same_time { offer_refusal 2 (gives_step 0 5 ∷ []) (gives_step 0 5) ≡ None }
    ensures other_stream { offer_refusal 2 (gives_step 0 5 ∷ []) (gives_step 1 4) ≡ None }
    ensures after_tick { offer_refusal 2 (gives_tick 0 5 ∷ []) (gives_step 0 4) ≡ Some (FallingStream 0 5 4) }
    ensures closed { offer_refusal 2 (gives_end 0 ∷ gives_step 0 5 ∷ []) (gives_step 0 4) ≡ Some (Closed 0) }
    ensures closed_twice { offer_refusal 2 (gives_end 0 ∷ []) (gives_end 0) ≡ Some (Closed 0) }
    ensures no_stream { offer_refusal 2 [] (gives_end 2) ≡ Some (NoStream 2) }
{}

/// Merges: by time, by stream, and of one stream as they came.
pub fn merges()
    ensures times { merge_of two_streams ≡ step_from 1 3 ∷ step_from 0 5 ∷ step_from 0 40 ∷ [] }
    ensures other_order { merge_of otherwise_mixed ≡ merge_of two_streams }
    ensures same_time { merge_of (gives_step 0 3 ∷ gives_step 1 3 ∷ []) ≡ step_from 0 3 ∷ step_from 1 3 ∷ [] }
    ensures not_as_they_came { AreInMergeOrder (step_from 1 3 ∷ step_from 0 3 ∷ []) → ⊥ }
    ensures twice { merge_of (gives_step 1 3 ∷ gives_step 1 3 ∷ []) ≡ step_from 1 3 ∷ step_from 1 3 ∷ [] }
    ensures nobody_first { is_before (step_from 1 3) (step_from 1 3) ≡ false }
{}

/// What is released, and what waits.
pub fn releases()
    ensures held_back { released 2 (gives_step 0 5 ∷ []) ≡ [] }
    ensures at_the_mark { released 2 (gives_step 1 3 ∷ gives_step 0 5 ∷ []) ≡ step_from 1 3 ∷ [] }
    ensures waits { waiting_steps 2 (gives_step 1 3 ∷ gives_step 0 5 ∷ []) ≡ step_from 0 5 ∷ [] }
    ensures later_stream_may_tie { may_go 2 (gives_tick 1 5 ∷ gives_step 0 5 ∷ []) (step_from 0 5) ≡ true }
    ensures earlier_stream_may_tie { may_go 2 (gives_tick 0 5 ∷ gives_step 1 5 ∷ []) (step_from 1 5) ≡ false }
    ensures closed_holds_none { released 2 (gives_end 1 ∷ gives_step 0 5 ∷ []) ≡ step_from 0 5 ∷ [] }
{}

/// What is sent: the worked logs, and where a tick is.
pub fn sends()
    ensures first { sent 2 two_streams ≡ bare_step 3 ∷ bare_step 5 ∷ bare_step 40 ∷ [] }
    ensures mixed { sent 2 otherwise_mixed ≡ sent 2 two_streams }
    ensures before_refusal { sent 2 (gives_step 0 5 ∷ []) ≡ [] }
    ensures at_refusal { waiting_steps 2 (gives_step 0 5 ∷ []) ≡ step_from 0 5 ∷ [] }
    ensures least_mark { sent 2 (gives_tick 1 7 ∷ gives_tick 0 10 ∷ []) ≡ Tick 7 ∷ [] }
    ensures later_mark { sent 2 (gives_tick 1 9 ∷ gives_tick 1 7 ∷ gives_tick 0 10 ∷ []) ≡ Tick 7 ∷ Tick 9 ∷ [] }
    ensures no_tick_at_a_step { sent 1 (gives_step 0 4 ∷ []) ≡ bare_step 4 ∷ [] }
    ensures no_tick_at_0 { sent 1 (gives_tick 0 0 ∷ []) ≡ [] }
    ensures no_tick_twice { sent 1 (gives_tick 0 4 ∷ gives_tick 0 4 ∷ []) ≡ Tick 4 ∷ [] }
    ensures none_open { sent 1 (gives_end 0 ∷ gives_tick 0 4 ∷ []) ≡ Tick 4 ∷ [] }
    ensures end_moves_time { sent 2 (gives_end 1 ∷ gives_tick 0 4 ∷ []) ≡ Tick 4 ∷ [] }
{}

/// What is written behind tags, and what it says.
pub fn tags()
    ensures tokens { tagged_tokens (RecordOf 0 (TickLine 3))
        ≡ LogTime 0 ∷ LogMark 58 ∷ LogMark 62 ∷ LogTime 3 ∷ LogMark 59 ∷ [] }
    ensures greatest { IsTaggedForm (EndOf 4294967295 2) }
    ensures too_great { IsTaggedForm (EndOf 4294967296 2) → ⊥ }
    ensures no_inserted { IsTaggedForm (RecordOf 0 (Line Inserted 1 [])) → ⊥ }
    ensures tick { judged_tagged [] (RecordOf 1 (TickLine 3)) ≡ Ok (gives_tick 1 3) }
    ensures late { judged_tagged [] (RecordOf 1 (TickLine 1000000000000001)) ≡ Err TimeTooLarge }
    ensures end { judged_tagged [] (EndOf 1 2) ≡ Ok (gives_end 1) }
    ensures place { judged_tagged [] (RecordOf 0 (Line System 1 (written 5 (codes "a") [] ∷ [])))
        ≡ Err (UnknownName 5) }
{}

/// Blanks stand between tokens, and a token that cannot continue is bad at its place, which is counted from the tag on.
pub fn tag_texts()
    ensures end { IsTaggedSpelled (codes "1: end ;") (EndOf 1 3) }
    ensures no_tag { IsBadTagged (codes "@1;") 0 }
    ensures no_colon { IsBadTagged (codes "1 @2;") 2 }
{}
