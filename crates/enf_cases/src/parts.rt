//! Parts of inputs that several kinds have.
ghost use Rattle.std.specs.Prelude.{◌<◌, ◌≤◌, IfOk, IfSome, length};

use crate::case::CaseError;
use enf_data::{Interval, Items, MOST_FILE_BYTES, VarId, Vars};
use enf_formula::Formula;
use formula_reader::{Rule, read_policy};
use log_stream::{LogMode, LogReader};
use signature::Signature;
use std::alloc::Global;

/// What stands beside a name in a table.
pub fn find<T: Copy>(table: &[(&[u8], T)], name: &[u8]) -> Option<T> {
    for (other, item) in table {
        if *other == name {
            return Some(*item);
        }
    }
    None
}

/// What stands before the first of these bytes, and what stands after it.
pub fn cut(bytes: &[u8], mark: u8) -> Option<(&[u8], &[u8])>
    ensures { IfSome result (λ parts. length parts.1.now < length bytes.now) }
{
    let end = bytes.iter().position(|byte| *byte == mark)?;
    Some((&bytes[..end], &bytes[end + 1..]))
}

/// What stands before the first such byte, and what stands after it.
pub fn cut_at(bytes: &[u8], mark: u8) -> Result<(&[u8], &[u8]), CaseError> {
    cut(bytes, mark).ok_or(CaseError::Malformed)
}

/// The parts of an input, with a byte 1 between them.
pub fn two(input: &[u8]) -> Result<(&[u8], &[u8]), CaseError> {
    cut_at(input, 1)
}

pub fn three(input: &[u8]) -> Result<(&[u8], &[u8], &[u8]), CaseError> {
    let (first, rest) = two(input)?;
    let (second, third) = two(rest)?;
    Ok((first, second, third))
}

/// What stands before the first blank, and what stands after it.
pub fn word(bytes: &[u8]) -> Result<(&[u8], &[u8]), CaseError> {
    cut_at(bytes, b' ')
}

/// A number of digits alone.
pub fn read_number(bytes: &[u8]) -> Result<u64, CaseError> {
    match str::from_utf8(bytes) {
        Ok(digits) => digits.parse::<u64>().map_err(|_| CaseError::Malformed),
        Err(_) => Err(CaseError::Malformed),
    }
}

/// A number of digits alone, below 2^32.
pub fn read_count(bytes: &[u8]) -> Result<u32, CaseError> {
    let number = read_number(bytes)?;
    u32::try_from(number).map_err(|_| CaseError::Malformed)
}

/// The interval `LOW HIGH` at the front, where HIGH may be `*`, and what stands after it and a blank.
pub fn read_interval(bytes: &[u8]) -> Result<(Interval, &[u8]), CaseError> {
    let (low, rest) = word(bytes)?;
    let (high, rest) = word(rest)?;
    Ok((interval_of(low, high)?, rest))
}

fn interval_of(low: &[u8], high: &[u8]) -> Result<Interval, CaseError> {
    let low = read_number(low)?;
    let high = match high {
        b"*" => None,
        digits => Some(read_number(digits)?),
    };
    Ok(Interval { low, high })
}

/// Variables by their numbers, each of one digit.
pub fn read_variables(alloc: Global, digits: &[u8]) -> Result<Vars, CaseError> {
    let mut variables = Vec::new(alloc);
    for digit in digits {
        variables.push(read_variable(*digit)?)?;
    }
    Ok(Items::from_vec(variables))
}

/// A variable by its number, of one digit.
pub fn read_variable(digit: u8) -> Result<VarId, CaseError> {
    if digit.is_ascii_digit() {
        Ok(VarId(u32::from(digit - b'0')))
    } else {
        Err(CaseError::Malformed)
    }
}

/// The bytes themselves, where a file may have so many.
pub fn within_limit(bytes: &[u8]) -> Result<&[u8], CaseError>
    ensures { IfOk result (λ text. length text.now ≤ MOST_FILE_BYTES) }
{
    if bytes.len() <= MOST_FILE_BYTES {
        Ok(bytes)
    } else {
        Err(CaseError::Malformed)
    }
}

/// The signature that the bytes spell.
pub fn read_signature(alloc: Global, bytes: &[u8]) -> Result<Signature, CaseError> {
    let text = within_limit(bytes)?;
    Signature::read(alloc, text).map_err(|_| CaseError::Malformed)
}

/// A reader of a log under a signature, which was fed the log.
pub fn open_log(alloc: Global, signature: &[u8], log: &[u8]) -> Result<LogReader, CaseError> {
    let signature = read_signature(alloc, signature)?;
    let mut reader = LogReader::new(alloc, signature, LogMode::Input);
    reader.feed(log)?;
    Ok(reader)
}

/// The formula of a policy's only rule under a signature, or what stands below its first `exists`.
pub fn read_formula(alloc: Global, signature: &[u8], text: &[u8]) -> Result<Formula, CaseError> {
    let signature = read_signature(alloc, signature)?;
    formula_under(alloc, &signature, text)
}

fn formula_under(alloc: Global, signature: &Signature, text: &[u8]) -> Result<Formula, CaseError> {
    let text = within_limit(text)?;
    match read_policy(alloc, signature, text) {
        Ok(policy) => formula_of(alloc, policy.rules.as_slice()),
        Err(_) => Err(CaseError::Malformed),
    }
}

fn formula_of(alloc: Global, rules: &[Rule]) -> Result<Formula, CaseError> {
    let [rule] = rules else {
        return Err(CaseError::Malformed);
    };
    match &rule.formula {
        Formula::Exists(_, _, inner) => Ok(inner.duplicate(alloc)?),
        whole => Ok(whole.duplicate(alloc)?),
    }
}
