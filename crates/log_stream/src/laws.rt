//! Laws of the grammar of logs, each the contract of a function.
ghost use Rattle.std.specs.Prelude.{◌≡◌, ℕ, List, Option, Result};
ghost use Rattle.signature.specs.declared.entries.NameEntry.{NameEntry};
ghost use Rattle.log_stream.specs.meaning.LogGrammar.{IsRecordAnswer, IsLog};
ghost use Rattle.log_stream.specs.machine.LogReaders.{AreWholeRecords};
ghost use Rattle.log_stream.specs.machine.Laws.{StepLineIsRead};
ghost use Rattle.log_stream.specs.declared.items.LogItem.{LogItem};
ghost use Rattle.log_stream.specs.declared.items.LogMode.{LogMode};
ghost use Rattle.log_stream.specs.declared.items.LogRefusal.{LogRefusal};

use enf_value::laws::{one_token_at_place, printed_is_token};

/// The bytes of a record have one answer at most: one item or one refusal.
pub fn one_answer()
    ensures { (entries : List NameEntry) (mode : LogMode) (bytes : List ℕ) (answer other : Result LogItem LogRefusal)
        → IsRecordAnswer entries mode bytes answer → IsRecordAnswer entries mode bytes other → answer ≡ other }
{
    one_token_at_place();
}

/// Bytes have one list of whole records, however they came.
pub fn one_list_of_records()
    ensures { (entries : List NameEntry) (mode : LogMode) (bytes : List ℕ) (items others : List LogItem)
        → AreWholeRecords entries mode bytes items
        → AreWholeRecords entries mode bytes others → items ≡ others }
{
    one_token_at_place();
}

/// A log has one list of records and one refusal at most.
pub fn one_log()
    ensures { (entries : List NameEntry) (mode : LogMode) (bytes : List ℕ) (items others : List LogItem)
        (refusal other : Option LogRefusal) → IsLog entries mode bytes items refusal
        → IsLog entries mode bytes others other → (items ≡ others) × (refusal ≡ other) }
{
    one_token_at_place();
}

/// The line of a step within the limits is read again as that step, whatever follows it.
pub fn line_is_read_again()
    ensures { StepLineIsRead }
{
    printed_is_token();
}
