//! What each call of a device over memory is to do, in turn.
ghost use Rattle.std.specs.Prelude.{◌≡◌, ◌≤◌, IfSome, List, drop};
ghost use Rattle.enf_io.specs.machine.Turns.{next_turn, read_by, write_by};
ghost use Rattle.enf_io.specs.declared.turns.Turn.{Turn as AnyTurn};

use std::marker::Model;

/// What a call does: all that it can, at most so many bytes, or nothing but fail.
#[derive(Clone, Copy, Debug, PartialEq, Eq)]
pub enum Turn {
    All,
    Take(usize),
    Fail,
}

impl Turn {
    // How much a read gives that could give so much.
    pub(crate) fn of_read(self, room: usize) -> Option<usize>
        ensures answer { result ≡ read_by self room }
        ensures within { IfSome result (λ count. count ≤ room) }
    {
        match self {
            Turn::All => Some(room),
            Turn::Take(0) if room > 0 => None,
            Turn::Take(most) => Some(most.min(room)),
            Turn::Fail => None,
        }
    }

    // How many of so many bytes a write takes.
    pub(crate) fn of_write(self, count: usize) -> Option<usize>
        ensures answer { result ≡ write_by self count }
        ensures within { IfSome result (λ taken. taken ≤ count) }
    {
        match self {
            Turn::All => Some(count),
            Turn::Take(0) => None,
            Turn::Take(most) => Some(most.min(count)),
            Turn::Fail => None,
        }
    }
}

// The turns that are left.
#[derive(Drop)]
pub(crate) struct Turns {
    list: Vec<Turn>,
    passed: usize,
}

impl Model for Turns {
    ghost Value = { List AnyTurn };

    ghost view = { λ t. drop t.passed t.list.items };
}

impl Turns {
    pub(crate) fn new(list: Vec<Turn>) -> Turns
        ensures { result ≡ list.items }
    {
        Turns { list, passed: 0 }
    }

    pub(crate) fn next(&self) -> Turn
        ensures { result ≡ next_turn self.now }
    {
        match self.list.get(self.passed) {
            Some(turn) => *turn,
            None => Turn::All,
        }
    }

    pub(crate) fn pass(&mut self)
        ensures { self.new ≡ drop 1 self.old }
    {
        if self.passed < self.list.len() {
            self.passed += 1;
        }
    }
}
