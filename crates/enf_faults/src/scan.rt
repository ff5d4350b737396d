//! Where records and lines end, and which step a line of the report is about.
use enf_io::devices::NoMemory;
use std::alloc::Global;

// Where a byte stands.
#[derive(Clone, Copy, PartialEq, Eq)]
enum Within {
    Nothing,
    Text,
    Escape,
}

impl Within {
    // Where the next byte stands.
    fn after(self, byte: u8) -> Within {
        match (self, byte) {
            (Within::Nothing, b'"') => Within::Text,
            (Within::Text, b'"') => Within::Nothing,
            (Within::Text, b'\\') => Within::Escape,
            (Within::Escape, _) => Within::Text,
            _ => self,
        }
    }
}

/// The places after the records of a log: each ends with a `;` that stands in no text.
pub fn record_ends(alloc: Global, log: &[u8]) -> Result<Vec<usize>, NoMemory> {
    let mut ends = Vec::new(alloc);
    let mut within = Within::Nothing;
    for (place, byte) in log.iter().enumerate() {
        if within == Within::Nothing && *byte == b';' {
            ends.push(place.saturating_add(1))?;
        }
        within = within.after(*byte);
    }
    Ok(ends)
}

/// How many lines are whole.
pub fn whole_lines(bytes: &[u8]) -> usize {
    bytes.iter().filter(|byte| **byte == b'\n').count()
}

/// The first so many lines, or all where there are fewer.
pub fn first_lines(bytes: &[u8], count: usize) -> &[u8] {
    let mut left = count;
    for (place, byte) in bytes.iter().enumerate() {
        if left == 0 {
            return bytes.get(..place).unwrap_or(bytes);
        }
        if *byte == b'\n' {
            left = left.saturating_sub(1);
        }
    }
    bytes
}

/// The numbers of the steps that the lines of a report are about.
pub fn steps_of(alloc: Global, report: &[u8]) -> Result<Vec<usize>, NoMemory> {
    let mut steps = Vec::new(alloc);
    for line in report.split(|byte| *byte == b'\n') {
        if let Some(step) = step_of(line) {
            steps.push(step)?;
        }
    }
    Ok(steps)
}

// The number after ` step ` in a line, where that stands in no text.
fn step_of(line: &[u8]) -> Option<usize> {
    let mut within = Within::Nothing;
    for (place, byte) in line.iter().enumerate() {
        if within == Within::Nothing {
            if let Some(rest) = line
                .get(place..)
                .and_then(|rest| rest.strip_prefix(b" step "))
            {
                return Some(number_at(rest));
            }
        }
        within = within.after(*byte);
    }
    None
}

// The number that the bytes begin with.
fn number_at(bytes: &[u8]) -> usize {
    bytes
        .iter()
        .take_while(|byte| byte.is_ascii_digit())
        .fold(0_usize, |number, byte| {
            number
                .saturating_mul(10)
                .saturating_add(usize::from(byte.saturating_sub(b'0')))
        })
}
