//! Cases of the definitions that the eye can check, each the contract of a function with an empty body.
ghost use Rattle.std.specs.Prelude.{◌≡◌, ◌∷◌, [], codes, pos, Err, None, Ok, Some};
ghost use Rattle.enf_data.specs.declared.values.Value.TheVariants.{Num, Text};
ghost use Rattle.trace_meaning.specs.declared.kinds.StepKind.TheVariants.{System, Inserted};
ghost use Rattle.log_stream.specs.machine.Cases.{arg, event, sample, written};
ghost use Rattle.log_stream.specs.meaning.LogGrammar.{judged_record, step_line, IsPending, IsTruncated, behind_blanks};
ghost use Rattle.log_stream.specs.meaning.LogGrammar.{record_length, IsBadRecord, IsRecordSpelled, Line, TickLine};
ghost use Rattle.log_stream.specs.declared.items.LogItem.TheVariants.{Step, Tick};
ghost use Rattle.log_stream.specs.declared.items.LogMode.TheVariants.{Input};
ghost use Rattle.log_stream.specs.declared.items.LogRefusal.TheVariants.{Arity, SortClash, TimeTooLarge, UnknownName};
ghost use Rattle.log_stream.specs.declared.limits.TheConstants.{MOST_EVENTS, MOST_RECORD_BYTES};

/// The limits, as numbers.
pub fn limits()
    ensures record_bytes { MOST_RECORD_BYTES ≡ 65536 }
    ensures events { MOST_EVENTS ≡ 2048 }
{}

/// Where records begin and end.
pub fn ends()
    ensures first { record_length (codes "@1 a(); @2;") ≡ Some 7 }
    ensures none { record_length (codes "@1 a()") ≡ None }
    ensures parenthesis { record_length (codes "@1 a(;);") ≡ Some 6 }
    ensures inside { record_length (64 ∷ 34 ∷ 59 ∷ 34 ∷ 59 ∷ []) ≡ Some 5 }
    ensures escaped { record_length (34 ∷ 92 ∷ 34 ∷ 59 ∷ 34 ∷ 59 ∷ []) ≡ Some 6 }
    ensures escaped_semicolon { record_length (34 ∷ 92 ∷ 59 ∷ 34 ∷ 59 ∷ []) ≡ Some 5 }
    ensures open { record_length (34 ∷ 92 ∷ 34 ∷ 59 ∷ []) ≡ None }
    ensures blanks { behind_blanks (32 ∷ 10 ∷ 9 ∷ 13 ∷ 64 ∷ 32 ∷ []) ≡ 64 ∷ 32 ∷ [] }
{}

/// What is written passes, with its repeats left out, or has a first refusal: the time before the events, each event
/// before the next, and in an event its name before the number of its arguments before their sorts.
pub fn judgement()
    ensures passes { judged_record sample (Line System 7 (written 3 (codes "ping") [] ∷ []))
        ≡ Ok (Step System 7 (event 0 [] ∷ [])) }
    ensures repeats { judged_record sample
        (Line System 7 (written 3 (codes "ping") [] ∷ written 10 (codes "ping") [] ∷ []))
        ≡ Ok (Step System 7 (event 0 [] ∷ [])) }
    ensures unknown { judged_record sample (Line System 7
        (written 3 (codes "pong") [] ∷ written 10 (codes "two") [] ∷ []))
        ≡ Err (UnknownName 3) }
    ensures reserved { judged_record sample (Line System 7 (written 3 (codes "int") [] ∷ []))
        ≡ Err (UnknownName 3) }
    ensures arity { judged_record sample (Line System 7 (written 3 (codes "two") (arg 7 (Text []) ∷ []) ∷ []))
        ≡ Err (Arity 3) }
    ensures sort { judged_record sample (Line System 7 (written 3 (codes "two")
        (arg 7 (Num (pos 1)) ∷ arg 9 (Num (pos 2)) ∷ []) ∷ []))
        ≡ Err (SortClash 9) }
    ensures late { judged_record sample (Line System 1000000000000001 (written 3 (codes "pong") [] ∷ []))
        ≡ Err TimeTooLarge }
    ensures inserted { judged_record sample (Line Inserted 1000000000000001 [])
        ≡ Ok (Step Inserted 1000000000000001 []) }
    ensures tick { judged_record sample (TickLine 1000000000000000) ≡ Ok (Tick 1000000000000000) }
    ensures late_tick { judged_record sample (TickLine 1000000000000001) ≡ Err TimeTooLarge }
{}

/// Blanks stand between tokens, and a token that cannot continue a record is bad at its place.
pub fn syntax()
    ensures spelled { IsRecordSpelled Input (codes "@1 ;") (Line System 1 []) }
    ensures inserted { IsBadRecord Input (codes "+1;") 0 }
    ensures no_time { IsBadRecord Input (codes "@;") 1 }
{}

/// The canonical line of a step.
pub fn line()
    ensures { step_line (codes "ping" ∷ codes "two" ∷ []) System 7
        (event 1 (Num (pos 5) ∷ Text (codes "a") ∷ []) ∷ event 0 [] ∷ [])
        ≡ 64 ∷ 55 ∷ 32 ∷ 116 ∷ 119 ∷ 111 ∷ 40 ∷ 53 ∷ 44 ∷ 34 ∷ 97 ∷ 34 ∷ 41
        ∷ 32 ∷ 112 ∷ 105 ∷ 110 ∷ 103 ∷ 40 ∷ 41 ∷ 59 ∷ 10 ∷ [] }
{}

/// Less than a record is pending, and truncated at the end of a log where it was begun.
pub fn pending()
    ensures begun { IsTruncated (codes " @1") }
    ensures blanks { IsPending (32 ∷ 10 ∷ []) }
{}
