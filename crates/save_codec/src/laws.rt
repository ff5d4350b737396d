//! Laws of saved texts, each the contract of a function.
ghost use Rattle.save_codec.specs.machine.Laws.{FrontKeeps, OneSaveAnswer, OneState, OneText, SavedIsText};
ghost use Rattle.save_codec.specs.machine.Laws.{SoundKeepsBounds};

use enf_value::laws::{one_token_at_place, printed_is_token};
use plan_terms::laws::nodes_have_scopes;

/// Bytes are a saved text in one way at most.
pub fn one_text()
    ensures { OneText }
{
    printed_is_token();
    one_token_at_place();
}

/// What is saved is a text of the grammar, where the numbers are below 2^63 and the values are those of the program.
pub fn saved_is_text()
    ensures { SavedIsText }
{}

/// A text is that of one state at most, where what is pending can be so.
pub fn one_state()
    ensures { OneState }
{
    printed_is_token();
    one_token_at_place();
    nodes_have_scopes();
}

/// Bytes have one answer at most, a state or a refusal; a front of lines that keep the bounds keeps them.
pub fn one_answer()
    ensures front { FrontKeeps }
    ensures answer { OneSaveAnswer }
{
    printed_is_token();
    one_token_at_place();
    nodes_have_scopes();
}

/// A state keeps its bounds line by line, where its numbers, rows and instances do.
pub fn sound_keeps_bounds()
    ensures { SoundKeepsBounds }
{
    nodes_have_scopes();
}
