//! Signatures: the entries that are read, or the refusal.
use crate::case::CaseError;
use crate::output::Output;
use crate::parts::within_limit;
use enf_data::NameId;
use signature::{NameEntry, Signature, SignatureLimit, SignatureRefusal, Sort};
use std::alloc::Global;

/// The entries as `name(sort,sort) mark`, with `; ` between them, or the refusal with its place.
pub fn answer(alloc: Global, input: &[u8], out: &mut Output) -> Result<(), CaseError> {
    let text = within_limit(input)?;
    match Signature::read(alloc, text) {
        Ok(signature) => print_entries(&signature, out),
        Err(refusal) => print_refusal(refusal, out),
    }
    Ok(())
}

fn print_entries(signature: &Signature, out: &mut Output) {
    out.number(signature.len().into());
    out.bytes(b" names");
    for number in 0..signature.len() {
        out.bytes(if number == 0 { b": " } else { b"; " });
        if let Some(entry) = signature.entry(NameId(number)) {
            print_entry(entry, out);
        }
    }
}

fn print_entry(entry: &NameEntry, out: &mut Output) {
    out.bytes(entry.text.bytes());
    out.bytes(b"(");
    print_sorts(entry.sorts.as_slice(), out);
    out.bytes(match (entry.causable, entry.suppressible) {
        (false, false) => b")".as_slice(),
        (true, false) => b") +",
        (false, true) => b") -",
        (true, true) => b") +-",
    });
}

fn print_sorts(sorts: &[Sort], out: &mut Output) {
    let mut mark = b"".as_slice();
    for sort in sorts {
        out.bytes(mark);
        out.bytes(match sort {
            Sort::Int => b"int".as_slice(),
            Sort::Text => b"text",
        });
        mark = b",";
    }
}

fn print_refusal(refusal: SignatureRefusal, out: &mut Output) {
    match refusal {
        SignatureRefusal::Syntax { place } => out.place(b"syntax", place),
        SignatureRefusal::Repeated { place, .. } => out.place(b"repeated", place),
        SignatureRefusal::Limit { which, place } => out.place(limit_name(which), place),
        SignatureRefusal::NoMemory => out.no_memory(),
    }
}

fn limit_name(limit: SignatureLimit) -> &'static [u8] {
    match limit {
        SignatureLimit::Names => b"too many names",
        SignatureLimit::Arity => b"too many columns",
        SignatureLimit::Name => b"name too long",
    }
}
