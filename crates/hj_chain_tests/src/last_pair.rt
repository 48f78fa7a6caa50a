//! The numbers of a pair, and a drain that keeps those of the last one.

use crate::rows::Row;
use hj_msg::{Drain, Drained, Pair};

/// Returns the numbers of the left row and of the right one.
pub(crate) fn numbers(pair: Option<Pair<Row>>) -> Option<(u64, u64)> {
    let pair = pair?;
    Some((pair.left_no.0, pair.right_no.0))
}

/// Keeps the numbers of as many pairs as there is room for: of the last one, with how many there were.
#[derive(Drop)]
pub(crate) struct LastPair {
    pub(crate) last: Option<(u64, u64)>,
    pub(crate) kept: u64,
    room: u64,
    pub(crate) refused: u64,
}

impl Drain<Row> for LastPair {
    ghost use Rattle.hj_msg.specs.Drain.{CountsRefused};

    ghost takes = { λ old pair answer new. Unit {0} };

    ghost refusals = { λ d. d.refused };

    fn pair(&mut self, pair: Pair<Row>) -> Drained
        ensures takes { Unit {0} }
        ensures refusals { CountsRefused result self.old.refused self.new.refused }
    {
        if self.kept >= self.room {
            self.refused = self.refused.saturating_add(1);
            return Drained::Refused;
        }
        self.last = numbers(Some(pair));
        self.kept += 1;
        Drained::Kept
    }
}

/// Makes a list of no pairs yet, with room for this many.
pub(crate) fn room_for(room: u64) -> LastPair {
    LastPair {
        last: None,
        kept: 0,
        room,
        refused: 0,
    }
}
