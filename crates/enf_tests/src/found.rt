//! What a test finds, as one text.
use enf_data::NoMemory;
use enf_io::devices::IoRefusal;
use enf_io::writing::WriteRefusal;
use enf_value::{print_bytes, print_number};
use std::alloc::Global;

/// What a test finds, as one text, with `|` after each answer.
#[derive(Drop)]
pub struct Found {
    text: Vec<u8>,
    is_whole: bool,
}

impl Found {
    pub fn new(alloc: Global) -> Found {
        Found {
            text: Vec::new(alloc),
            is_whole: true,
        }
    }

    /// The text, where memory sufficed.
    pub fn text(&self) -> &[u8] {
        if self.is_whole {
            &self.text
        } else {
            b"no memory"
        }
    }

    pub fn bytes(&mut self, bytes: &[u8]) {
        let printed = print_bytes(bytes, &mut self.text);
        self.note(printed);
        let parted = print_bytes(b"|", &mut self.text);
        self.note(parted);
    }

    pub fn number(&mut self, number: u64) {
        let printed = print_number(number, &mut self.text);
        self.note(printed);
        self.bytes(b"");
    }

    /// `yes` or `no`.
    pub fn holds(&mut self, holds: bool) {
        self.bytes(if holds { b"yes".as_slice() } else { b"no" });
    }

    /// The bytes that were read into the buffer.
    pub fn read(&mut self, count: Result<usize, IoRefusal>, buf: &[u8]) {
        match count {
            Ok(count) => self.bytes(&buf[..count.min(buf.len())]),
            Err(refusal) => self.bytes(refusal_text(refusal)),
        }
    }

    /// The bytes of a file.
    pub fn file(&mut self, read: Result<Vec<u8>, IoRefusal>) {
        match read {
            Ok(bytes) => self.bytes(&bytes),
            Err(refusal) => self.bytes(refusal_text(refusal)),
        }
    }

    /// Whether a file was written.
    pub fn saved(&mut self, saved: Result<(), IoRefusal>) {
        match saved {
            Ok(()) => self.bytes(b"saved"),
            Err(refusal) => self.bytes(refusal_text(refusal)),
        }
    }

    /// Whether all was written, or how much.
    pub fn written(&mut self, written: Result<(), WriteRefusal>) {
        match written {
            Ok(()) => self.bytes(b"all"),
            Err(WriteRefusal::WriteFault { written }) => {
                self.bytes(b"fault after");
                self.number(written as u64);
            }
            Err(WriteRefusal::NoMemory { written }) => {
                self.bytes(b"no memory after");
                self.number(written as u64);
            }
        }
    }

    fn note(&mut self, printed: Result<(), NoMemory>) {
        self.is_whole = self.is_whole && printed.is_ok();
    }
}

fn refusal_text(refusal: IoRefusal) -> &'static [u8] {
    match refusal {
        IoRefusal::Failed => b"failed",
        IoRefusal::NoMemory => b"no memory",
    }
}
