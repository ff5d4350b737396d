//! Turns of streams: the one with the least time comes first, and at one time that of the least stream.
ghost use Rattle.std.specs.Prelude.{◌≡◌};
ghost use Rattle.stream_mux.specs.machine.Turns.{earlier_turn, is_earlier, turn_at};
ghost use Rattle.stream_mux.specs.declared.turns.Turn.{Turn as AnyTurn};

/// A time of a stream.
#[derive(Clone, Copy, Debug)]
pub struct Turn {
    pub time: u64,
    pub stream: u32,
}

// The turn of a stream, where it has a time.
pub fn turn_of(stream: u32, time: Option<u64>) -> Option<Turn>
    ensures { result ≡ turn_at stream time }
{
    match time {
        Some(time) => Some(Turn { time, stream }),
        None => None,
    }
}

// Whether a turn is before another one.
pub fn is_before(turn: Turn, other: Turn) -> bool
    ensures { result ≡ is_earlier turn other }
{
    turn.time < other.time || (turn.time == other.time && turn.stream < other.stream)
}

// The earlier of two turns.
pub fn earlier(turn: Option<Turn>, other: Option<Turn>) -> Option<Turn>
    ensures { result ≡ earlier_turn turn other }
{
    let Some(first) = turn else {
        return other;
    };
    let Some(second) = other else {
        return turn;
    };
    if is_before(second, first) {
        other
    } else {
        turn
    }
}
