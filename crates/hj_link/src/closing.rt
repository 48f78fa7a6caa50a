//! Links whose two ends were handed in.
ghost use Rattle.std.specs.Prelude.{◌≡◌};
ghost use Rattle.hj_base.specs.Link.{Agrees, AgreesOneWay};
ghost use Rattle.hj_link.specs.Rule.{journal_of};
ghost use Rattle.hj_link.specs.Seen.{LinkSeen, WaySeen, closed, closed_way, link_of, one_way_of};

use crate::ends::{LeftEnd, Receiver, RightEnd, Sender};
use crate::opening::{JoinedSeat, join};
use std::marker::Model;

/// A link that goes both ways whose two ends were handed in.
#[derive(Drop)]
pub struct Closed<M: Drop> {
    joined: JoinedSeat<M>,
}

impl<M: Drop> Model for Closed<M> {
    ghost Value = { LinkSeen M };

    ghost view = { λ c. closed c.joined.capacities.rightwards (journal_of c.joined.left) (journal_of c.joined.right) };

    ghost invariant = { λ c. Agrees c.joined.capacities.rightwards (link_of (journal_of c.joined.left) (journal_of c.joined.right)) };
}

/// Takes in both ends of a link, whose journals then agree.
pub fn close<M: Drop>(left: LeftEnd<M>, right: RightEnd<M>) -> Closed<M>
    requires { left.link ≡ right.link }
    ensures journals { result ≡ closed left.capacity left.journal right.journal }
    ensures agree { Agrees result.capacity result.link }
{
    Closed {
        joined: join(left.end, right.end),
    }
}

/// A link in one direction whose two ends were handed in.
#[derive(Drop)]
pub struct ClosedWay<M: Drop> {
    joined: JoinedSeat<M>,
}

impl<M: Drop> Model for ClosedWay<M> {
    ghost Value = { WaySeen M };

    ghost view = { λ c. closed_way c.joined.capacities.rightwards (journal_of c.joined.left) (journal_of c.joined.right) };

    ghost invariant = { λ c. AgreesOneWay c.joined.capacities.rightwards (one_way_of (journal_of c.joined.left) (journal_of c.joined.right)) };
}

/// Takes in both ends of a link, whose journals then agree.
pub fn close_way<M: Drop>(sender: Sender<M>, receiver: Receiver<M>) -> ClosedWay<M>
    requires { sender.link ≡ receiver.link }
    ensures journals { result ≡ closed_way sender.capacity sender.journal receiver.journal }
    ensures agree { AgreesOneWay result.capacity result.way }
{
    ClosedWay {
        joined: join(sender.end, receiver.end),
    }
}
