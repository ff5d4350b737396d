//! The limits of the definitions, which are those of the code, what is said of small policies and of a drill, fronts of
//! a report, and numbers in it.
ghost use Rattle.std.specs.Prelude.{◌≡◌, ◌≢◌, ◌∷◌, ◌++◌, [], codes};
ghost use Rattle.enf_run.specs.meaning.LogRuns.{IsFrontOfPieces};
ghost use Rattle.enf_run.specs.machine.Cases.{erase, erase_ranked, other_ranked};
ghost use Rattle.enf_run.specs.meaning.Outcomes.{check_text};
ghost use Rattle.enf_run.specs.meaning.Reports.{drill_line};
ghost use Rattle.enf_run.specs.meaning.Headline.{most_log_bytes};
ghost use Rattle.enf_run.specs.meaning.Readings.{most_read_bytes};
ghost use Rattle.enf_run.specs.machine.TwoRunHeadlines.{AreNumberedLines};
ghost use Rattle.enf_run.specs.declared.files.TheConstants.{MOST_STATE_BYTES};
ghost use Rattle.enf_run.specs.declared.intake.TheConstants.{MOST_LOG_BYTES, MOST_READ_BYTES};
ghost use Rattle.log_gen.specs.meaning.Samples.{sample_entries};
ghost use Rattle.enf_data.specs.declared.limits.TheConstants.{MOST_COLUMNS, MOST_FILE_BYTES, MOST_NAME_BYTES};
ghost use Rattle.enf_data.specs.declared.limits.TheConstants.{MOST_NAMES, MOST_TEXT_BYTES};
ghost use Rattle.policy_syntax.specs.declared.limits.TheConstants.{MOST_INTERVAL_END, MOST_LEVEL, MOST_NODES};
ghost use Rattle.policy_syntax.specs.declared.limits.TheConstants.{MOST_RULES, MOST_VARIABLES};
ghost use Rattle.save_codec.specs.declared.limits.TheConstants.{MOST_STATE_TIME};

/// The limits of logs.
pub fn limits()
    ensures log { MOST_LOG_BYTES ≡ most_log_bytes }
    ensures read { MOST_READ_BYTES ≡ most_read_bytes }
{}

/// The limits of signatures.
pub fn limits_of_signatures()
    ensures file_bytes { MOST_FILE_BYTES ≡ 1048576 }
    ensures name_bytes { MOST_NAME_BYTES ≡ 64 }
    ensures names { MOST_NAMES ≡ 256 }
    ensures columns { MOST_COLUMNS ≡ 8 }
    ensures text_bytes { MOST_TEXT_BYTES ≡ 1024 }
{}

/// The limits of policies.
pub fn limits_of_policies()
    ensures rules { MOST_RULES ≡ 64 }
    ensures nodes { MOST_NODES ≡ 400 }
    ensures level { MOST_LEVEL ≡ 40 }
    ensures variables { MOST_VARIABLES ≡ 16 }
    ensures interval_end { MOST_INTERVAL_END ≡ 1000000000 }
{}

/// The limits of states.
pub fn limits_of_states()
    ensures file_bytes { MOST_STATE_BYTES ≡ 268435456 }
    ensures times { MOST_STATE_TIME ≡ 2000000000000000 }
{}

/// What `check` says of a rule and of none: roles stand in the order of the signature, and a name that is left alone
/// has none.
pub fn checked()
    ensures erase { check_text sample_entries (erase ∷ []) erase_ranked
        ≡ codes "rule erase: forall u. (request(u) -> (eventually[0,30] delete(u)));\n"
        ++ codes "transparent yes\nhorizon 210\ncause delete\n" }
    ensures other { check_text sample_entries [] other_ranked
        ≡ codes "transparent no\nhorizon 0\nsuppress consent\ncause use\n" }
    ensures order { check_text sample_entries [] other_ranked
        ≢ codes "transparent no\nhorizon 0\ncause use\nsuppress consent\n" }
{}

/// The line of a drill.
pub fn drilled()
    ensures { drill_line (record {
      tally = record { steps = 2; inserted = 1; caused = 2; suppressed = 1 };
      kept = 1;
      pending = 20;
    }) ≡ codes "steps 2 inserted 1 caused 2 suppressed 1 kept 1 pending 20\n" }
{}

/// What a report that was cut may have: of the last piece something may be missing, and of no other.
pub fn fronts()
    ensures all { IsFrontOfPieces (codes "ab" ∷ codes "cd" ∷ []) (codes "abcd") [] }
    ensures within_the_last { IsFrontOfPieces (codes "ab" ∷ codes "cd" ∷ []) (codes "abc") (codes "d") }
    ensures without_the_last { IsFrontOfPieces (codes "ab" ∷ codes "cd" ∷ []) (codes "ab") (codes "cd") }
    ensures not_within_another { IsFrontOfPieces (codes "ab" ∷ codes "cd" ∷ []) (codes "a") (codes "bcd") → ⊥ }
    ensures nothing_of_one { IsFrontOfPieces (codes "ab" ∷ []) [] (codes "ab") }
{}

/// The line that refuses the first record, where two records stand before it: what is cut of it is cut of both.
pub fn numbered()
    ensures whole { AreNumberedLines 2 1 (codes "record 1: too long\n") (codes "record 3: too long\n") }
    ensures within_the_words { AreNumberedLines 2 1 (codes "record 1: too") (codes "record 3: too") }
    ensures in_front_of_them { AreNumberedLines 2 1 (codes "reco") [] }
    ensures not_as_it_was { AreNumberedLines 2 1 (codes "record 1: too long\n") (codes "record 1: too long\n") → ⊥ }
    ensures not_left_out { AreNumberedLines 2 1 (codes "record 1: too long\n") [] → ⊥ }
{}
