//! The draws that a generated log is made of.
ghost use Rattle.std.specs.Prelude.{◌≡◌, ◌+◌, ◌<◌, ◌^◌};
ghost use Rattle.log_gen.specs.machine.Generators.{Drawn};
ghost use Rattle.log_gen.specs.meaning.GeneratedLogs.{draw, state_after};

use std::marker::Model;

// Draws from a start. The state is below 2^31.
#[derive(Drop)]
pub(crate) struct Draws {
    start: u32,
    made: u64,
    state: u64,
}

impl Model for Draws {
    ghost use Rattle.log_gen.specs.machine.Generators.{Drawn};
    ghost use Rattle.log_gen.specs.meaning.GeneratedLogs.{state_after};
    ghost use Rattle.std.specs.Prelude.{◌≡◌, ◌<◌};

    ghost Value = { Drawn };

    ghost view = { λ d. record { start = d.start; made = d.made } };

    ghost invariant = { λ d. (d.start < 2147483648) × (d.state ≡ state_after d.start d.made) };
}

impl Draws {
    pub(crate) fn new(start: u32) -> Draws
        requires { start < 2147483648 }
        ensures { result ≡ record { start = start; made = 0 } }
    {
        Draws {
            start,
            made: 0,
            state: u64::from(start),
        }
    }

    // A copy of the draws, which goes on as they do.
    pub(crate) fn again(&self) -> Draws
        ensures { result ≡ self.now }
    {
        Draws {
            start: self.start,
            made: self.made,
            state: self.state,
        }
    }

    pub(crate) fn next(&mut self) -> u64
        requires { self.old.made < 2 ^ 32 }
        ensures draw { result ≡ draw self.old.start self.old.made }
        ensures after { self.new ≡ record { start = self.old.start; made = self.old.made + 1 } }
    {
        self.state = (self.state * 1_103_515_245 + 12_345) % 2_147_483_648;
        self.made += 1;
        self.state / 65_536
    }
}
