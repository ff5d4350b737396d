//! The rows that were tried.
use crate::runs::Left;
use enf_io::devices::NoMemory;
use std::alloc::Global;
use std::io;
use std::io::Write;

/// How many rows hold, and the text of those that do not.
#[derive(Drop)]
pub struct Table {
    held: u64,
    failed: u64,
    text: Vec<u8>,
    alloc: Global,
}

impl Table {
    pub fn new(alloc: Global) -> Table {
        Table {
            held: 0,
            failed: 0,
            text: Vec::new(alloc),
            alloc,
        }
    }

    /// Takes up a row: what was done, at which place, what it left, and whether that is as wanted.
    pub fn row(
        &mut self,
        what: &str,
        place: usize,
        left: &Left,
        holds: bool,
    ) -> Result<(), NoMemory> {
        if holds {
            self.held = self.held.saturating_add(1);
            return Ok(());
        }
        self.failed = self.failed.saturating_add(1);
        let status = left.status;
        let head = format!(in self.alloc; "{what} {place}: status {status:?}\n")?;
        self.text.extend_from_slice(head.as_bytes())?;
        self.text.extend_from_slice(&left.output)?;
        self.text.extend_from_slice(&left.report)?;
        Ok(())
    }

    /// Writes the rows that do not hold, and how many do.
    pub fn write<W: Write>(&self, output: &mut W) -> io::Result<()> {
        output.write_all(&self.text)?;
        let Table { held, failed, .. } = self;
        match failed {
            0 => writeln!(output, "{held} rows hold"),
            _ => writeln!(output, "{held} rows hold, {failed} rows do not hold"),
        }
    }
}
