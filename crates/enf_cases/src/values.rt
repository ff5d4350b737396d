//! Values: what is read at the front of an input, and how it is printed.
ghost use Rattle.std.specs.Prelude.{◌≤◌, length};

use crate::case::CaseError;
use crate::output::Output;
use enf_data::{Duplicate, Value};
use enf_value::read_value;
use std::alloc::Global;

/// The value of the token at the front, as it is printed, and the place after it, or `none`.
pub fn answer_value(alloc: Global, bytes: &[u8], out: &mut Output) -> Result<(), CaseError> {
    match read_value(alloc, bytes, 0)? {
        Some((value, end)) => print_read(alloc, &value, end, out),
        None => {
            out.bytes(b"none");
            Ok(())
        }
    }
}

fn print_read(alloc: Global, value: &Value, end: usize, out: &mut Output) -> Result<(), CaseError> {
    out.value(&value.duplicate(alloc)?);
    out.bytes(b" to ");
    out.number(end as u64);
    Ok(())
}

/// The value of the token at a place, and the place after it.
pub fn read_at(alloc: Global, bytes: &[u8], at: usize) -> Result<(Value, usize), CaseError>
    requires { at ≤ length bytes.now }
{
    match read_value(alloc, bytes, at)? {
        Some(read) => Ok(read),
        None => Err(CaseError::Malformed),
    }
}
