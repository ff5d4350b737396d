//! Tables of the values that terms have where they are the arguments of events.
ghost use Rattle.std.specs.Prelude.{◌≡◌, ◌↔◌, ◌⊎◌, Contains, IfOk, OnOk};
ghost use Rattle.enf_data.specs.declared.terms.Term.TheVariants.{Var as Variable};
ghost use Rattle.enf_data.specs.declared.terms.VarId.{VarId as AnyVariable};
ghost use Rattle.enf_data.specs.meaning.Membership.{HasNoRepeats};
ghost use Rattle.enf_data.specs.meaning.Valuations.{Valuation as Bound};
ghost use Rattle.monitorable_guard.specs.machine.Answers.{AddsRows, IsBoundBy, IsMatchOf, IsMatchOfName};
ghost use Rattle.valuations.specs.machine.Bindings.{bound_in};
ghost use Rattle.valuations.specs.machine.Tables.{HasValuation, IsTable};

use crate::atoms::gather_match;
use enf_data::Event;
use enf_data::events::NameId;
use enf_data::memory::NoMemory;
use enf_data::rows::Row;
use enf_data::terms::{Term, VarId, Vars};
use std::alloc::Global;
use valuations::{Frame, Table};

/// The values of the columns under which the terms are the arguments of one of the events of the name, where the frame
/// has the values of the other variables.
pub fn table_of_events<'a>(
    alloc: Global,
    events: &'a [Event],
    name: NameId,
    terms: &[Term],
    v: &'a Frame<'a>,
    columns: Vars,
) -> Result<Table, NoMemory>
    requires distinct { HasNoRepeats columns }
    requires within { (x : AnyVariable) → Contains columns x
        → IsBoundBy (bound_in v.now) x ⊎ Contains terms.now (Variable x) }
    ensures table { IfOk result IsTable }
    ensures columns { IfOk result (λ t. t.columns ≡ columns) }
    ensures rows { IfOk result (λ t. (w : Bound) → HasValuation t w
        ↔ IsMatchOfName events.now name terms.now (bound_in v.now) columns w) }
{
    let mut found = Vec::new(alloc);
    gather_named(
        alloc,
        events,
        name,
        terms,
        v,
        columns.as_slice(),
        &mut found,
    )?;
    Table::from_rows(columns, found)
}

// Adds a row for each valuation under which the terms are the arguments of one of the events of the name.
fn gather_named<'a>(
    alloc: Global,
    events: &'a [Event],
    name: NameId,
    terms: &[Term],
    v: &'a Frame<'a>,
    columns: &[VarId],
    out: &mut Vec<Row>,
) -> Result<(), NoMemory>
    requires { (x : AnyVariable) → Contains columns.now x
        → IsBoundBy (bound_in v.now) x ⊎ Contains terms.now (Variable x) }
    ensures { OnOk result (AddsRows columns.now out.old.items out.new.items
        (IsMatchOfName events.now name terms.now (bound_in v.now) columns.now)) }
{
    for event in events {
        gather_if_named(alloc, event, name, terms, v, columns, out)?;
    }
    Ok(())
}

// Adds the row of the event, where it is of the name.
fn gather_if_named<'a>(
    alloc: Global,
    event: &'a Event,
    name: NameId,
    terms: &[Term],
    v: &'a Frame<'a>,
    columns: &[VarId],
    out: &mut Vec<Row>,
) -> Result<(), NoMemory>
    requires { (x : AnyVariable) → Contains columns.now x
        → IsBoundBy (bound_in v.now) x ⊎ Contains terms.now (Variable x) }
    ensures { OnOk result (AddsRows columns.now out.old.items out.new.items
        (λ w. (event.now.name ≡ name) × IsMatchOf terms.now event.now.args (bound_in v.now) columns.now w)) }
{
    if event.name == name {
        gather_match(alloc, terms, event.args.as_slice(), v, columns, out)
    } else {
        Ok(())
    }
}
