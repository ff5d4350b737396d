//! The steps that wait, a queue for each stream.
ghost use Rattle.std.specs.Prelude.{◌≡◌, ◌<◌, ◌++◌, ◌∷◌, ℕ, [], IfNone, IfOk, IfSome, OnErr, OnOk, IsTrue, length};
ghost use Rattle.std.specs.Prelude.{slice_set};
ghost use Rattle.std.specs.Prelude.{replicate};
ghost use Rattle.stream_mux.specs.meaning.MergedStreams.{shown_time, is_step};
ghost use Rattle.stream_mux.specs.machine.MuxQueues.{TakesFirst, HoldsBack, front_time, is_up_to_turn, put_behind};

use crate::tree::TurnTree;
use crate::turns::{Turn, is_before};
use enf_data::NoMemory;
use log_stream::LogItem;
use std::alloc::Global;
use std::collections::VecDeque;
use std::marker::Model;

// For how many items a queue keeps room, however few it has.
const MOST_SPARE: usize = 64;

/// Queues of steps, with the turns of those that are in front.
#[derive(Drop)]
pub struct Waiting {
    queues: Vec<VecDeque<LogItem>>,
    fronts: TurnTree,
}

impl Model for Waiting {
    ghost use Rattle.std.specs.Prelude.{List, map, ◌≡◌};
    ghost use Rattle.log_stream.specs.declared.items.LogItem.{LogItem};
    ghost use Rattle.stream_mux.specs.machine.MuxQueues.{front_time};

    ghost Value = { List (List LogItem) };

    ghost view = { λ w. map (λ queue. queue.items) w.queues.items };

    ghost invariant = { λ w. w.fronts ≡ map (λ queue. front_time queue.items) w.queues.items };
}

// The time that an item shows.
pub fn time_of(item: &LogItem) -> u64
    ensures { result ≡ shown_time item.now }
{
    match item {
        LogItem::Step { time, .. } => *time,
        LogItem::Tick { time } => *time,
    }
}

// Whether an item is a step.
pub fn is_step(item: &LogItem) -> bool
    ensures { result ≡ is_step item.now }
{
    matches!(item, LogItem::Step { .. })
}

// The time of the item in front.
fn time_in_front(queue: &VecDeque<LogItem>) -> Option<u64>
    ensures { result ≡ front_time queue.now.items }
{
    match queue.front() {
        Some(item) => Some(time_of(item)),
        None => None,
    }
}

// Whether a turn is not behind a bound.
fn is_up_to_turn(bound: Option<Turn>, turn: Turn) -> bool
    ensures { result ≡ is_up_to_turn bound turn }
{
    match bound {
        Some(bound) => !is_before(bound, turn),
        None => true,
    }
}

// Gives memory back where a queue has room for many more items than it has.
fn give_room_back(queue: &mut VecDeque<LogItem>)
    ensures { queue.new.items ≡ queue.old.items }
{
    let room = queue.capacity();
    if room > MOST_SPARE && queue.len() < room / 4 {
        queue.shrink_to(room / 2);
    }
}

impl Waiting {
    // Nothing waits.
    pub fn new(alloc: Global, streams: u32) -> Result<Waiting, NoMemory>
        ensures { IfOk result (λ waiting. waiting ≡ replicate streams []) }
    {
        let mut queues = Vec::new(alloc);
        for _ in 0..streams {
            queues.push(VecDeque::new(alloc))?;
        }
        Ok(Waiting {
            queues,
            fronts: TurnTree::new(alloc, streams)?,
        })
    }

    // Puts an item at the end of the queue of a stream.
    pub fn put(&mut self, stream: u32, item: LogItem) -> Result<(), NoMemory>
        requires { stream < length self.old }
        ensures ok { OnOk result (self.new ≡ put_behind stream item self.old) }
        ensures err { OnErr result (self.new ≡ self.old) }
    {
        let time = time_of(&item);
        let queue = &mut self.queues[stream as usize];
        let front = time_in_front(queue);
        queue.push_back(item)?;
        if front.is_none() {
            self.fronts.set_time(stream, Some(time));
        }
        Ok(())
    }

    // Takes the item of the first turn, where it is not behind the bound.
    pub fn take_up_to(&mut self, bound: Option<Turn>) -> Option<LogItem>
        ensures some { IfSome result (λ item. TakesFirst bound self.old item self.new) }
        ensures none { IfNone result (self.new ≡ self.old) }
        ensures held { IfNone result (HoldsBack bound self.old) }
        ensures streams { length self.new ≡ length self.old }
    {
        let turn = match self.fronts.first() {
            Some(turn) => turn,
            None => return None,
        };
        if !is_up_to_turn(bound, turn) {
            return None;
        }
        let queue = &mut self.queues[turn.stream as usize];
        let Some(item) = queue.pop_front() else {
            unreachable!()
        };
        give_room_back(queue);
        let front = time_in_front(queue);
        self.fronts.set_time(turn.stream, front);
        Some(item)
    }
}
