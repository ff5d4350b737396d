//! A signature and a policy to go with generated logs.
ghost use Rattle.std.specs.Prelude.{◌≡◌, Ok};
ghost use Rattle.formula_reader.specs.meaning.PolicyAnswers.{IsPolicyAnswer};
ghost use Rattle.log_gen.specs.machine.SampleTexts.{policy_text, signature_text};
ghost use Rattle.log_gen.specs.meaning.Samples.{sample_entries, sample_rules};
ghost use Rattle.signature.specs.meaning.Refusals.{AnswersSignature};

/// The text of the sample signature.
pub fn sample_signature() -> &'static [u8]
    ensures text { result.now ≡ signature_text }
    ensures read { AnswersSignature signature_text (Ok sample_entries) }
{
    b"request(text); consent(text); use(text) -; delete(text) +; unlock(text) +;\n\
      lock(text); note(text) +-; alarm() +; ping() +; pong() +;\n"
}

/// The text of the sample policy.
pub fn sample_policy() -> &'static [u8]
    ensures text { result.now ≡ policy_text }
    ensures read { IsPolicyAnswer sample_entries policy_text (Ok sample_rules) }
{
    b"rule consent: forall u. use(u) -> once[0,*] consent(u);\n\
      rule erase: forall u. request(u) -> eventually[0,30] delete(u);\n\
      rule hold: forall u. lock(u) -> (not use(u)) until[0,10] unlock(u);\n"
}
