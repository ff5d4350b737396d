//! The lines of a text by their kinds.
ghost use Rattle.std.specs.Prelude.{◌≡◌, ◌++◌, [], None, OnOk};
ghost use Rattle.save_codec.specs.meaning.SavedBounds.{clock_behind_line, due_in, last_behind_line};
ghost use Rattle.save_codec.specs.meaning.SavedBounds.{position_behind_line, row_in};

use crate::lines::Line;
use enf_data::{NoMemory, Row};
use std::alloc::Global;

// What the line of a kept row says.
#[derive(Drop)]
pub(crate) struct RowLine {
    pub window: u64,
    pub time: u64,
    pub values: Row,
}

// What the line of a pending instance says.
#[derive(Drop)]
pub(crate) struct DueLine {
    pub rule: u64,
    pub node: u64,
    pub origin: u64,
    pub low: u64,
    pub high: u64,
    pub values: Row,
}

// What the lines of a text say.
#[derive(Drop)]
pub(crate) struct LineParts {
    pub clock: u64,
    pub last: Option<u64>,
    pub position: u64,
    pub rows: Vec<RowLine>,
    pub dues: Vec<DueLine>,
}

impl LineParts {
    // What no line says.
    pub fn nothing(alloc: Global) -> LineParts
        ensures numbers { (result.clock ≡ 0) × (result.last ≡ None) × (result.position ≡ 0) }
        ensures items { (result.rows.items ≡ []) × (result.dues.items ≡ []) }
    {
        LineParts {
            clock: 0,
            last: None,
            position: 0,
            rows: Vec::new(alloc),
            dues: Vec::new(alloc),
        }
    }

    // Puts what one more line says.
    pub fn put(&mut self, line: Line) -> Result<(), NoMemory>
        ensures clock { OnOk result (self.new.clock ≡ clock_behind_line self.old.clock line) }
        ensures last { OnOk result (self.new.last ≡ last_behind_line self.old.last line) }
        ensures position { OnOk result (self.new.position ≡ position_behind_line self.old.position line) }
        ensures rows { OnOk result (self.new.rows.items ≡ self.old.rows.items ++ row_in line) }
        ensures dues { OnOk result (self.new.dues.items ≡ self.old.dues.items ++ due_in line) }
    {
        match line {
            Line::Row {
                window,
                time,
                values,
            } => self.rows.push(RowLine {
                window,
                time,
                values,
            })?,
            Line::Due {
                rule,
                node,
                origin,
                low,
                high,
                values,
            } => self.dues.push(DueLine {
                rule,
                node,
                origin,
                low,
                high,
                values,
            })?,
            Line::Clock(time) => self.clock = time,
            Line::Last(time) => self.last = time,
            Line::Position(number) => self.position = number,
            Line::End => {}
        }
        Ok(())
    }
}
