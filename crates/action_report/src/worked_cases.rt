//! Worked cases of report lines.
ghost use Rattle.std.specs.Prelude.{◌≡◌, ◌∷◌, ◌++◌, [], codes};
ghost use Rattle.enf_data.specs.meaning.Valuations.{no_values};
ghost use Rattle.obligations.specs.declared.literals.LiteralKind.TheVariants.{Cause, Suppress};
ghost use Rattle.action_report.specs.machine.Cases.{report_case_a, report_case_action, report_case_entries};
ghost use Rattle.action_report.specs.machine.Cases.{report_case_event, report_case_rules, report_case_valuation};
ghost use Rattle.action_report.specs.meaning.ReportLines.{action_line};

/// Lines of each kind: what the root of a rule wants, and what one of its nodes does for a value.
pub fn lines()
    ensures root { action_line report_case_entries report_case_rules
        (report_case_action Suppress (report_case_event 0 (report_case_a ∷ [])) 1 0 0 0 1 0 no_values)
        ≡ codes "suppress use(" ++ 34 ∷ 97 ∷ 34 ∷ codes ") at 1 step 0 rule consent node 0 leaf 1 origin 0\n" }
    ensures no_argument { action_line report_case_entries report_case_rules
        (report_case_action Cause (report_case_event 2 []) 1 0 2 0 1 0 no_values)
        ≡ codes "cause alarm() at 1 step 0 rule raise node 0 leaf 1 origin 0\n" }
    ensures bound { action_line report_case_entries report_case_rules
        (report_case_action Cause (report_case_event 1 (report_case_a ∷ [])) 9 1 1 1 2 0 report_case_valuation)
        ≡ codes "cause delete(" ++ 34 ∷ 97 ∷ 34 ∷ codes ") at 9 step 1 rule erase node 1 leaf 2 origin 0 u="
        ++ 34 ∷ 97 ∷ 34 ∷ 10 ∷ [] }
{}
