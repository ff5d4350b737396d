//! What goes out at a record: the steps that nothing can come before any more, and a tick.
ghost use Rattle.std.specs.Prelude.{◌≡◌, ◌++◌, ◌≤◌, ℕ, List, IfOk, OnOk, max, length};
ghost use Rattle.std.specs.Option.{option_map};
ghost use Rattle.stream_mux.specs.meaning.MergedStreams.{StreamStep, greatest_time, tick_above};
ghost use Rattle.stream_mux.specs.machine.MuxQueues.{AreLinedUp, GivesUpTo};
ghost use Rattle.stream_mux.specs.machine.Turns.{time_of_turn};

use crate::turns::Turn;
use crate::waiting::{Waiting, time_of};
use enf_data::NoMemory;
use log_stream::LogItem;

// Gives the steps that are not behind the bound, in their order.
pub fn release(
    waiting: &mut Waiting,
    bound: Option<Turn>,
    given: &mut Vec<LogItem>,
) -> Result<(), NoMemory>
    ensures gives { (steps : List StreamStep) → AreLinedUp waiting.old steps
        → OnOk result (GivesUpTo bound steps given.old.items given.new.items waiting.new) }
    ensures streams { length waiting.new ≡ length waiting.old }
{
    while let Some(item) = waiting.take_up_to(bound) {
        given.push(item)?;
    }
    Ok(())
}

// The greatest of a time and those of items.
pub fn greatest_of(greatest: u64, items: &[LogItem]) -> u64
    ensures { result ≡ max greatest (greatest_time items.now) }
{
    let mut greatest = greatest;
    for item in items {
        greatest = greatest.max(time_of(item));
    }
    greatest
}

// Gives a tick at the bound, where that is above the greatest time, and answers the greatest time then.
pub fn tick(greatest: u64, bound: Option<Turn>, given: &mut Vec<LogItem>) -> Result<u64, NoMemory>
    ensures given { OnOk result
        (given.new.items ≡ given.old.items ++ tick_above greatest (option_map time_of_turn bound)) }
    ensures greatest { IfOk result (λ time. time ≡ max greatest (greatest_time
        (tick_above greatest (option_map time_of_turn bound)))) }
{
    let Some(turn) = bound else {
        return Ok(greatest);
    };
    if turn.time <= greatest {
        return Ok(greatest);
    }
    given.push(LogItem::Tick { time: turn.time })?;
    Ok(turn.time)
}
