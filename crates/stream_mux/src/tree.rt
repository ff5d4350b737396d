//! The first of many turns, found without a look at all of them.
ghost use Rattle.std.specs.Prelude.{◌≡◌, ◌<◌, ◌*◌, ◌/◌, ◌≤◌, ℕ, None, IfOk, slice_get, slice_set, length, drop};
ghost use Rattle.std.specs.Prelude.{replicate};
ghost use Rattle.stream_mux.specs.machine.Turns.{IsFirstTurn, AreWonBut, IsWon};
ghost use Rattle.stream_mux.specs.declared.turns.Turn.{Turn as AnyTurn};

use crate::turns::{Turn, earlier, turn_of};
use enf_data::NoMemory;
use std::alloc::Global;
use std::marker::Model;

/// At most one time of each stream, seen as the list of them. A change of one costs as many comparisons as the tree has
/// levels.
#[derive(Debug, Drop)]
pub struct TurnTree {
    count: usize,
    nodes: Vec<Option<Turn>>,
}

impl Model for TurnTree {
    ghost use Rattle.std.specs.Prelude.{List, ℕ, Option};
    ghost use Rattle.stream_mux.specs.machine.Turns.{IsTurnTree, times_of_nodes};

    ghost Value = { List (Option ℕ) };

    ghost view = { λ t. times_of_nodes t.count t.nodes.items };

    ghost invariant = { λ t. IsTurnTree t.count t.nodes.items };
}

impl TurnTree {
    // No stream has a time.
    pub fn new(alloc: Global, streams: u32) -> Result<TurnTree, NoMemory>
        ensures { IfOk result (λ tree. tree ≡ replicate streams None) }
    {
        let count = streams as usize;
        Ok(TurnTree {
            count,
            nodes: vec![in alloc; None; 2 * count]?,
        })
    }

    // The time of a stream.
    pub fn time_of(&self, stream: u32) -> Option<Option<u64>>
        ensures { result ≡ slice_get self.now stream }
    {
        let turn = self.nodes.get(self.count + stream as usize)?;
        match turn {
            Some(turn) => Some(Some(turn.time)),
            None => Some(None),
        }
    }

    // Gives a stream this time, or none.
    pub fn set_time(&mut self, stream: u32, time: Option<u64>)
        requires { stream < length self.old }
        ensures { self.new ≡ slice_set self.old stream time }
    {
        let place = self.count + stream as usize;
        self.nodes[place] = turn_of(stream, time);
        play_up(&mut self.nodes, self.count, place);
    }

    // The first turn.
    pub fn first(&self) -> Option<Turn>
        ensures { IsFirstTurn self.now result }
    {
        match self.nodes.get(1) {
            Some(turn) => *turn,
            None => None,
        }
    }
}

// Makes each node above a place the earlier of the two below it.
fn play_up(nodes: &mut [Option<Turn>], count: usize, place: usize)
    requires size { length nodes.old ≡ 2 * count }
    requires within { place < 2 * count }
    requires below { AreWonBut count (place / 2) nodes.old }
    ensures won { (at : ℕ) → 1 ≤ at → at < count → IsWon nodes.new at }
    ensures leaves { drop count nodes.new ≡ drop count nodes.old }
{
    let mut at = place;
    while at > 1 {
        at /= 2;
        nodes[at] = earlier(nodes[2 * at], nodes[2 * at + 1]);
    }
}
