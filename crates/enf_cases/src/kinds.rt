//! The kinds of cases, by name.
use crate::case::CaseError;
use crate::enforcing::Told;
use crate::evaluations::Asking;
use crate::output::Output;
use crate::parts::find;
use crate::running::Way;
use crate::{
    audits, enforcing, evaluations, guards, holds, logs, long_runs, past, policies, reports, saved,
    signatures, tables, typing, values, window_runs,
};
use log_stream::LogMode;
use std::alloc::Global;

/// What a case asks for.
#[derive(Clone, Copy)]
pub enum Kind {
    Value,
    Signature,
    Policy,
    Check,
    Enforced(Told),
    Log(LogMode),
    Table,
    Tables,
    Guard,
    Evaluate(Asking),
    Window,
    RestoredWindow,
    Past(Way),
    Holds,
    Report,
    Audit,
    Saved,
    Long,
}

static KINDS: [(&[u8], Kind); 25] = [
    (b"value", Kind::Value),
    (b"signature", Kind::Signature),
    (b"policy", Kind::Policy),
    (b"check", Kind::Check),
    (b"steps", Kind::Enforced(Told::Steps)),
    (b"pending", Kind::Enforced(Told::Pending)),
    (b"resumed", Kind::Enforced(Told::Resumed)),
    (b"log", Kind::Log(LogMode::Input)),
    (b"trace", Kind::Log(LogMode::TraceLog)),
    (b"table", Kind::Table),
    (b"tables", Kind::Tables),
    (b"guard", Kind::Guard),
    (b"evaluate", Kind::Evaluate(Asking::Valuation)),
    (b"asked", Kind::Evaluate(Asking::Frame)),
    (b"window", Kind::Window),
    (b"restored", Kind::RestoredWindow),
    (b"past", Kind::Past(Way::Committed)),
    (b"kept", Kind::Past(Way::Kept)),
    (b"shared", Kind::Past(Way::Shared)),
    (b"again", Kind::Past(Way::Again)),
    (b"holds", Kind::Holds),
    (b"report", Kind::Report),
    (b"audit", Kind::Audit),
    (b"saved", Kind::Saved),
    (b"long", Kind::Long),
];

/// The kind of this name.
pub fn kind_of(name: &[u8]) -> Result<Kind, CaseError> {
    find(&KINDS, name).ok_or(CaseError::UnknownKind)
}

/// Prints the answer to an input of the kind.
pub fn answer_kind(
    alloc: Global,
    kind: Kind,
    input: &[u8],
    out: &mut Output,
) -> Result<(), CaseError> {
    match kind {
        Kind::Value => values::answer_value(alloc, input, out),
        Kind::Signature => signatures::answer(alloc, input, out),
        Kind::Policy => policies::answer(alloc, input, out),
        Kind::Check => typing::answer(alloc, input, out),
        Kind::Enforced(told) => enforcing::answer(alloc, told, input, out),
        Kind::Log(mode) => logs::answer(alloc, mode, input, out),
        Kind::Table => tables::answer(alloc, input, out),
        Kind::Tables => tables::answer_counts(alloc, out),
        Kind::Guard => guards::answer(alloc, input, out),
        Kind::Evaluate(asking) => evaluations::answer(alloc, asking, input, out),
        Kind::Window => window_runs::answer(alloc, false, input, out),
        Kind::RestoredWindow => window_runs::answer(alloc, true, input, out),
        Kind::Past(way) => past::answer(alloc, way, input, out),
        Kind::Holds => holds::answer(alloc, input, out),
        Kind::Report => reports::answer(alloc, input, out),
        Kind::Audit => audits::answer(alloc, input, out),
        Kind::Saved => saved::answer(alloc, input, out),
        Kind::Long => long_runs::answer(alloc, input, out),
    }
}
