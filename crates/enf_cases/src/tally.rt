//! How many cases hold, and which do not.
use std::io;
use std::io::Write;

/// How many lines were read, how many of their cases hold, and how many do not.
#[derive(Drop)]
pub struct Tally {
    lines: u64,
    held: u64,
    failed: u64,
}

impl Tally {
    pub fn new() -> Tally {
        Tally {
            lines: 0,
            held: 0,
            failed: 0,
        }
    }

    /// Counts a line that was read.
    pub fn line(&mut self) {
        self.lines = self.lines.saturating_add(1);
    }

    /// Counts the case of the last line, and writes it where the answer is not the wanted one.
    pub fn case<W: Write>(
        &mut self,
        line: &str,
        answer: &[u8],
        wanted: Option<&[u8]>,
        output: &mut W,
    ) -> io::Result<()> {
        if wanted == Some(answer) {
            self.held = self.held.saturating_add(1);
            return Ok(());
        }
        self.failed = self.failed.saturating_add(1);
        write_failed(self.lines, line, answer, output)
    }

    /// Writes how many cases hold, and how many do not, where there are any.
    pub fn write<W: Write>(&self, output: &mut W) -> io::Result<()> {
        let Tally { held, failed, .. } = self;
        match failed {
            0 => writeln!(output, "{held} cases hold"),
            _ => writeln!(output, "{held} cases hold, {failed} cases do not hold"),
        }
    }
}

fn write_failed<W: Write>(
    number: u64,
    line: &str,
    answer: &[u8],
    output: &mut W,
) -> io::Result<()> {
    write!(output, "line {number}: {line}\nanswered: ")?;
    output.write_all(answer)?;
    output.write_all(b"\n")
}
