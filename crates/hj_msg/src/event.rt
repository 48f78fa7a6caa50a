ghost use Rattle.std.specs.Prelude.{◌≡◌, IfOk};
ghost use Rattle.hj_msg.specs.Met.{pair_of};

use crate::Partner;
use hj_base::{EventNo, Memory, Share, Side};

/// Something that happens on the two streams, in one order over both: a row comes into the window of its side, or
/// leaves it, or a side is told to be quiet.
#[derive(Debug, Drop)]
pub enum Event<P> {
    /// A row of a side arrives.
    Arrive {
        no: EventNo,
        side: Side,
        row: P,
    },
    /// The row of a side that arrived under the number `of` expires.
    Expire {
        no: EventNo,
        side: Side,
        of: EventNo,
    },
    /// No row of a side came for a while: all of its rows that are numbered below this event have arrived. Changes no
    /// window.
    Quiet {
        no: EventNo,
        side: Side,
    },
}

impl<P> Event<P> {
    ghost use Rattle.std.specs.Prelude.{◌≡◌};
    ghost use Rattle.hj_msg.specs.Driver.{port_of};

    /// Returns the port of the chain on which its message is put.
    #[inline(always)]
    pub fn port(&self) -> Side
        ensures { result ≡ port_of self.now }
    {
        match self {
            Event::Arrive { side, .. } | Event::Quiet { side, .. } => *side,
            Event::Expire {
                side: Side::Left,
                ..
            } => Side::Right,
            Event::Expire {
                side: Side::Right,
                ..
            } => Side::Left,
        }
    }
}

/// Two rows that are joined, each with the number of its arrival.
#[derive(Debug, Drop)]
pub struct Pair<P> {
    pub left_no: EventNo,
    pub right_no: EventNo,
    pub left: P,
    pub right: P,
}

impl<P: Share + Drop> Pair<P> {
    /// Makes the pair of a row of `side`, which arrived under this number, and of a partner that was found for it, with rows of its own.
    #[inline(always)]
    pub fn of(no: EventNo, side: Side, row: &P, partner: &Partner<P>) -> Result<Self, Memory>
        ensures { IfOk result (λ pair. pair ≡ pair_of side no row.now partner.now) }
    {
        let row = row.share()?;
        let other = partner.row.share()?;
        Ok(match side {
            Side::Left => Pair {
                left_no: no,
                right_no: partner.no,
                left: row,
                right: other,
            },
            Side::Right => Pair {
                left_no: partner.no,
                right_no: no,
                left: other,
                right: row,
            },
        })
    }
}
