//! The events of a generated step.
ghost use Rattle.std.specs.Prelude.{◌≡◌, ◌+◌, ◌*◌, ◌<◌, ◌^◌, ◌%◌, ◌++◌, IfOk, OnOk, []};
ghost use Rattle.std.specs.Prelude.{codes, decimal};
ghost use Rattle.log_gen.specs.machine.Generators.{Drawn};
ghost use Rattle.log_gen.specs.meaning.GeneratedLogs.{draw, drawn_event, drawn_events, drawn_number, event_count};
ghost use Rattle.log_stream.specs.meaning.LogGrammar.{with_event_put, with_events_put};

use crate::draws::Draws;
use enf_data::{Event, EventSet, NameId, NoMemory, Row, TextValue, Value};
use enf_value::{print_bytes, print_number};
use std::alloc::Global;

// A step's events: a draw says how many are drawn, and a repeat is left out.
pub(crate) fn draw_events(alloc: Global, draws: &mut Draws) -> Result<EventSet, NoMemory>
    requires { draws.old.made + 1 < 2 ^ 31 }
    ensures events { IfOk result (λ events. events
        ≡ with_events_put [] (drawn_events draws.old.start (draws.old.made + 1)
        (draw draws.old.start draws.old.made % 4))) }
    ensures after { OnOk result (draws.new ≡ record {
      start = draws.old.start;
      made = draws.old.made + 1 + 2 * (draw draws.old.start draws.old.made % 4);
    }) }
{
    let count = draws.next() % 4;
    let mut events = EventSet::new(alloc);
    for _ in 0..count {
        let event = draw_event(alloc, draws)?;
        put_event(&mut events, event)?;
    }
    Ok(events)
}

fn put_event(events: &mut EventSet, event: Event) -> Result<(), NoMemory>
    ensures { OnOk result (events.new ≡ with_event_put events.old event) }
{
    match events.insert(event) {
        Ok(_is_new) => Ok(()),
        Err(_event) => Err(NoMemory),
    }
}

// An event of two draws: its name, and then its text.
fn draw_event(alloc: Global, draws: &mut Draws) -> Result<Event, NoMemory>
    requires { draws.old.made + 1 < 2 ^ 32 }
    ensures event { IfOk result (λ event. event ≡ drawn_event
        (draw draws.old.start draws.old.made) (draw draws.old.start (draws.old.made + 1))) }
    ensures after { OnOk result (draws.new ≡ record {
      start = draws.old.start;
      made = draws.old.made + 2;
    }) }
{
    let name = drawn_name(draws.next());
    let user = drawn_user(alloc, draws.next())?;
    let mut args = Row::new(alloc);
    args.push(user).map_err(|_value| NoMemory)?;
    Ok(Event { name, args })
}

// `request`, `consent`, `use`, `delete` and `lock` have these numbers in the sample signature.
fn drawn_name(draw: u64) -> NameId
    ensures { result.0 ≡ drawn_number draw }
{
    match draw % 5 {
        0 => NameId(0),
        1 => NameId(1),
        2 => NameId(2),
        3 => NameId(3),
        _ => NameId(5),
    }
}

// One of the texts `u0` to `u15`.
fn drawn_user(alloc: Global, draw: u64) -> Result<Value, NoMemory>
    ensures { IfOk result (λ user. user ≡ Value.Text (codes "u" ++ decimal (draw % 16))) }
{
    let mut text = Vec::new(alloc);
    print_bytes(b"u", &mut text)?;
    print_number(draw % 16, &mut text)?;
    let user = TextValue::from_bytes(alloc, &text).map_err(|_refusal| NoMemory)?;
    Ok(Value::Text(user))
}
