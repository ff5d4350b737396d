//! The words of the command line.
ghost use Rattle.std.specs.Prelude.{◌≡◌, ◌==◌, ℕ, ◌⊎◌, ◌∷◌, [], IfErr, IfSome, IfNone};
ghost use Rattle.std.specs.Prelude.{slice_index};
ghost use Rattle.enf_run.specs.meaning.Calls.{IsNumberWord, texts_of};
ghost use Rattle.enf_run.specs.machine.CommandForms.{MatchNone, MatchesForm};
ghost use Rattle.enf_run.specs.declared.endings.Cut.TheVariants.{NoMemory as OutOfMemory};
ghost use Rattle.enf_run.specs.declared.refusals.Refusal.TheVariants.{Words};
ghost use Rattle.enf_run.specs.declared.endings.Ending.TheVariants as ending;

use crate::endings::Ending;
use crate::refusals::Refusal;
use enf_data::memory::NoMemory;
use log_gen::{MOST_START, MOST_STEPS};
use std::env::{Env, FillError};

// The greatest number of digits that a number is written with.
const MOST_DIGITS: usize = 10;

/// The files that the words name for states: that from which a run starts, and that to which it saves.
#[derive(Clone, Copy, Debug)]
pub struct States<'a> {
    pub resume: Option<&'a str>,
    pub save: Option<&'a str>,
}

/// What the words ask for.
#[derive(Clone, Copy, Debug)]
pub enum Form<'a> {
    /// `enforce SIG POLICY`, and after it `--resume FILE` where a state is resumed, and `--save FILE` where one is
    /// saved
    Enforce {
        signature: &'a str,
        policy: &'a str,
        resume: Option<&'a str>,
        save: Option<&'a str>,
    },
    /// `check SIG POLICY`
    Check {
        signature: &'a str,
        policy: &'a str,
    },
    /// `audit SIG POLICY`
    Audit {
        signature: &'a str,
        policy: &'a str,
    },
    /// `gen START N`
    Generate {
        start: u32,
        steps: u32,
    },
    /// `drill START N`
    Drill {
        start: u32,
        steps: u32,
    },
}

/// The words after the program's name, which need not be UTF-8. A word that is not matches no form.
pub fn command_words(rt: &HostRuntime) -> Result<Vec<String>, Ending>
    ensures { IfErr result (λ why. (why ≡ ending.Refused Words) ⊎ (why ≡ ending.Cut OutOfMemory)) }
{
    let mut words = Vec::new(rt.alloc());
    for place in 1..usize::MAX {
        let Some(bytes) = command_word(rt, place)? else {
            break;
        };
        let Ok(word) = String::from_utf8(bytes) else {
            return Err(Ending::Refused(Refusal::Words));
        };
        let Ok(()) = words.push(word) else {
            return Err(NoMemory.into());
        };
    }
    Ok(words)
}

// The bytes of a word, where there is one at the place: the buffer is doubled until it fits.
fn command_word(rt: &HostRuntime, place: usize) -> Result<Option<Vec<u8>>, NoMemory> {
    let mut size = 256_usize;
    for _ in 0..usize::BITS {
        let mut buffer = vec![in rt.alloc(); 0; size]?;
        match rt.arg(place, &mut buffer) {
            Ok(length) => {
                buffer.truncate(length);
                return Ok(Some(buffer));
            }
            Err(FillError::NotPresent) => return Ok(None),
            Err(FillError::TooLong) => size = size.saturating_add(size),
        }
    }
    Err(NoMemory)
}

/// The form that the words match.
pub fn form_of(words: &[String]) -> Option<Form<'_>>
    ensures some { IfSome result (λ form. MatchesForm (texts_of words.now) form) }
    ensures none { IfNone result (MatchNone (texts_of words.now)) }
{
    match words {
        [command, first, second] => {
            form_of_three(command.as_str(), first.as_str(), second.as_str())
        }
        [command, signature, policy, option, file] => form_of_five(
            command.as_str(),
            signature.as_str(),
            policy.as_str(),
            option.as_str(),
            file.as_str(),
        ),
        [command, signature, policy, resume, state, save, file] => form_of_seven(
            command.as_str(),
            signature.as_str(),
            policy.as_str(),
            resume.as_str(),
            state.as_str(),
            save.as_str(),
            file.as_str(),
        ),
        _ => None,
    }
}

// A form with a command and two words.
fn form_of_three<'a>(command: &str, first: &'a str, second: &'a str) -> Option<Form<'a>>
    ensures some { IfSome result (λ form. MatchesForm (command.now ∷ first.now ∷ second.now ∷ []) form) }
    ensures none { IfNone result (MatchNone (command.now ∷ first.now ∷ second.now ∷ [])) }
{
    match command {
        "enforce" => Some(Form::Enforce {
            signature: first,
            policy: second,
            resume: None,
            save: None,
        }),
        "check" => Some(Form::Check {
            signature: first,
            policy: second,
        }),
        "audit" => Some(Form::Audit {
            signature: first,
            policy: second,
        }),
        "gen" => Some(Form::Generate {
            start: read_number(first, MOST_START)?,
            steps: read_number(second, MOST_STEPS)?,
        }),
        "drill" => Some(Form::Drill {
            start: read_number(first, MOST_START)?,
            steps: read_number(second, MOST_STEPS)?,
        }),
        _ => None,
    }
}

// A form that names a file for the state after two others.
fn form_of_five<'a>(
    command: &str,
    signature: &'a str,
    policy: &'a str,
    option: &str,
    file: &'a str,
) -> Option<Form<'a>>
    ensures some { IfSome result (λ form. MatchesForm
        (command.now ∷ signature.now ∷ policy.now ∷ option.now ∷ file.now ∷ []) form) }
    ensures none { IfNone result
        (MatchNone (command.now ∷ signature.now ∷ policy.now ∷ option.now ∷ file.now ∷ [])) }
{
    match (command, option) {
        ("enforce", "--resume") => Some(Form::Enforce {
            signature,
            policy,
            resume: Some(file),
            save: None,
        }),
        ("enforce", "--save") => Some(Form::Enforce {
            signature,
            policy,
            resume: None,
            save: Some(file),
        }),
        _ => None,
    }
}

// A form that names a file to resume from and one to save to after two others.
fn form_of_seven<'a>(
    command: &str,
    signature: &'a str,
    policy: &'a str,
    resume: &str,
    state: &'a str,
    save: &str,
    file: &'a str,
) -> Option<Form<'a>>
    ensures some { IfSome result
        (λ form. MatchesForm (command.now ∷ signature.now ∷ policy.now ∷ resume.now ∷ state.now
        ∷ save.now ∷ file.now ∷ []) form) }
    ensures none { IfNone result (MatchNone (command.now ∷ signature.now ∷ policy.now ∷ resume.now ∷ state.now
        ∷ save.now ∷ file.now ∷ [])) }
{
    match (command, resume, save) {
        ("enforce", "--resume", "--save") => Some(Form::Enforce {
            signature,
            policy,
            resume: Some(state),
            save: Some(file),
        }),
        _ => None,
    }
}

// The number that one to ten digits write, where it is within the limit.
fn read_number(word: &str, most: u32) -> Option<u32>
    ensures some { IfSome result (λ number. IsNumberWord most word.now number) }
    ensures none { IfNone result ((number : ℕ) → IsNumberWord most word.now number → ⊥) }
{
    if word.len() > MOST_DIGITS || begins_with_plus(word.as_bytes()) {
        return None;
    }
    let number = word.parse().ok()?;
    (number <= most).then_some(number)
}

// `parse` takes a plus in front of a number.
fn begins_with_plus(bytes: &[u8]) -> bool
    ensures { result ≡ (slice_index bytes.now 0 == 43) }
{
    bytes.first() == Some(&b'+')
}
