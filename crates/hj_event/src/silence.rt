ghost use Rattle.std.specs.Prelude.{◌≡◌, ◌<◌, ◌^◌};
ghost use Rattle.hj_msg.specs.Quiet.{other_side};
ghost use Rattle.hj_event.specs.Events.{no_silence, rows_in_silence, silence_at, quiet_side, silence_behind};

use hj_base::Side;
use std::marker::Model;

/// Which side is silent, and how many rows of the other side have arrived since an arrival or a quiet event of it.
#[derive(Drop)]
pub(crate) struct Silence {
    side: Side,
    rows: u64,
}

impl Model for Silence {
    ghost use Rattle.hj_event.specs.Events.{Silence as Silent};

    ghost Value = { Silent };

    ghost view = { λ s. record { side = s.side; rows = s.rows } };
}

impl Silence {
    /// Makes the silence before any row has arrived.
    pub(crate) fn new() -> Self
        ensures { result ≡ no_silence }
    {
        Silence {
            side: Side::Left,
            rows: 0,
        }
    }

    /// Counts a row that arrives on `side`. Returns the other side where it has a quiet event by that: `quiet` rows have arrived
    /// in its silence.
    #[inline(always)]
    pub(crate) fn arrive(&mut self, side: Side, quiet: u32) -> Option<Side>
        requires { self.old.rows < 2 ^ 63 }
        ensures quiet { result ≡ quiet_side quiet (silence_at self.old side) }
        ensures behind { self.new ≡ silence_behind (quiet_side quiet (silence_at self.old side)) (silence_at self.old side) }
    {
        self.rows = self.rows_of(side) + 1;
        self.side = other(side);
        if self.rows != u64::from(quiet) {
            return None;
        }
        self.rows = 0;
        Some(self.side)
    }

    /// Returns how many rows of `side` have arrived in the silence of the other one.
    #[inline(always)]
    fn rows_of(&self, side: Side) -> u64
        ensures { result ≡ rows_in_silence self.now side }
    {
        match (self.side, side) {
            (Side::Left, Side::Right) | (Side::Right, Side::Left) => self.rows,
            (Side::Left, Side::Left) | (Side::Right, Side::Right) => 0,
        }
    }
}

/// Returns the other side.
#[inline(always)]
fn other(side: Side) -> Side
    ensures { result ≡ other_side side }
{
    match side {
        Side::Left => Side::Right,
        Side::Right => Side::Left,
    }
}
