//! Laws of report lines, each the contract of a function.
ghost use Rattle.action_report.specs.machine.Laws.{OneActionOfLine};

use enf_value::laws::{one_token_at_place, printed_is_token};

/// A line is that of one action alone.
pub fn one_action_of_line()
    ensures { OneActionOfLine }
{
    printed_is_token();
    one_token_at_place();
}
