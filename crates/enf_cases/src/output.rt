//! What is printed for a case.
use crate::case::CaseError;
use enf_data::{EventSet, NoMemory, Place, Value};
use enf_value::{print_bytes, print_number, print_value};
use formula_reader::{Rule, print_rule};
use log_stream::write_step;
use signature::Signature;
use std::alloc::Global;
use trace_meaning::StepKind;

/// What is printed for a case. Running out of memory is noted, and told in place of the rest.
#[derive(Drop)]
pub struct Output {
    text: Vec<u8>,
    is_whole: bool,
}

impl Output {
    pub fn new(alloc: Global) -> Output {
        Output {
            text: Vec::new(alloc),
            is_whole: true,
        }
    }

    /// What was printed, or why there is no answer.
    pub fn text(&self, answered: Result<(), CaseError>) -> &[u8] {
        match answered {
            Ok(()) if self.is_whole => &self.text,
            Ok(()) => CaseError::NoMemory.text(),
            Err(error) => error.text(),
        }
    }

    /// Notes that there was no memory.
    pub fn no_memory(&mut self) {
        self.is_whole = false;
    }

    pub fn bytes(&mut self, bytes: &[u8]) {
        let printed = print_bytes(bytes, &mut self.text);
        self.note(printed);
    }

    pub fn number(&mut self, number: u64) {
        let printed = print_number(number, &mut self.text);
        self.note(printed);
    }

    pub fn value(&mut self, value: &Value) {
        let printed = print_value(value, &mut self.text);
        self.note(printed);
    }

    pub fn rule(&mut self, signature: &Signature, rule: &Rule) {
        let printed = print_rule(signature, rule, &mut self.text);
        self.note(printed);
    }

    /// The line of a step, without its line feed, and a blank.
    pub fn step(&mut self, names: &Signature, kind: StepKind, time: u64, events: &EventSet) {
        let printed = write_step(names, kind, time, events, &mut self.text);
        self.note(printed);
        self.text.pop();
        self.bytes(b" ");
    }

    /// What is refused, and its place.
    pub fn place(&mut self, what: &[u8], place: Place) {
        self.bytes(what);
        self.bytes(b" at ");
        self.number(place.into());
    }

    fn note(&mut self, printed: Result<(), NoMemory>) {
        self.is_whole = self.is_whole && printed.is_ok();
    }
}
