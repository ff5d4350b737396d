//! What holds of generated logs, as the contract of a function.
ghost use Rattle.log_gen.specs.machine.Laws.{IsReadAsGenerated};

/// The text of a generated log is a log without a refusal under the sample signature, and is read as its steps.
pub fn text_is_read()
    ensures { IsReadAsGenerated }
{
    log_stream::laws::line_is_read_again();
}
