//! The ends of the links and queues of a chain.
ghost use Rattle.std.specs.Prelude.{◌≡◌, ◌+◌, ◌*◌, ◌<◌, ◌≤◌, All, length, IfOk};
ghost use Rattle.std.specs.List.{AllZip};
ghost use Rattle.hj_base.specs.Link.{Agrees, AgreesOneWay};
ghost use Rattle.hj_crew.specs.Links.{AreEndsOfNew, AreLinked, closed_links, closed_queues};
ghost use Rattle.hj_crew.specs.Room.{IsRoomOf};

use crate::links::{close_all, make_all};
use crate::ran::Ran;
use hj_base::Memory;
use hj_link::{
    Closed, ClosedWay, LeftEnd, Receiver, RightEnd, Sender, close, close_way, duplex, one_way,
};
use hj_msg::{Fin, Msg, Report};
use std::alloc::Global;

/// The ends of the links of a chain, each list from left to right, and of the queues of its cores'
/// reports.
#[derive(Drop)]
pub(crate) struct ChainEnds<P: Drop> {
    pub(crate) left: Vec<LeftEnd<Msg<P>>>,
    pub(crate) right: Vec<RightEnd<Msg<P>>>,
    pub(crate) senders: Vec<Sender<Report<P>>>,
    pub(crate) receivers: Vec<Receiver<Report<P>>>,
}

impl<P: Drop> ChainEnds<P> {
    ghost use Rattle.hj_crew.specs.Ends.{AreNew};

    /// Makes the ends of new links and queues for this many cores, with room for what a chain puts that has at most
    /// `flight` events outstanding. The last right end, behind those of the cores, stands beside them.
    pub(crate) fn new(
        alloc: Global,
        cores: u16,
        flight: u16,
    ) -> Result<(Self, RightEnd<Msg<P>>), Memory>
        requires { (0 < flight) × (flight ≤ 256) }
        ensures { IfOk result (λ ends. AreNew cores (2 * flight + 2) ends.0 ends.1) }
    {
        let cores = usize::from(cores);
        let capacity = 2 * usize::from(flight) + 2;
        let (left, mut right) = make_links(alloc, cores + 1, capacity)?;
        let (senders, receivers) = make_queues(alloc, cores, capacity)?;
        let Some(last) = right.pop() else {
            unreachable!()
        };
        let ends = ChainEnds {
            left,
            right,
            senders,
            receivers,
        };
        Ok((ends, last))
    }

    /// Closes the links and queues of a run with at most `flight` events outstanding, which ended
    /// so, into lists that have room for them.
    pub(crate) fn close(
        self,
        flight: u16,
        ended: Fin,
        links: Vec<Closed<Msg<P>>>,
        queues: Vec<ClosedWay<Report<P>>>,
    ) -> Ran<P>
        requires linked { AreLinked self.left.items self.right.items }
        requires queued { AreLinked self.senders.items self.receivers.items }
        requires links_room { IsRoomOf (length self.left.items) links }
        requires queues_room { IsRoomOf (length self.senders.items) queues }
        ensures links { result.links ≡ closed_links self.left.items self.right.items }
        ensures queues { result.queues ≡ closed_queues self.senders.items self.receivers.items }
        ensures links_agree { All (λ link. Agrees link.capacity link.link) result.links }
        ensures queues_agree { All (λ queue. AgreesOneWay queue.capacity queue.way) result.queues }
        ensures flight { result.flight ≡ flight }
        ensures ended { result.ended ≡ ended }
    {
        Ran {
            links: close_links(self.left, self.right, links),
            queues: close_queues(self.senders, self.receivers, queues),
            flight,
            ended,
        }
    }
}

// What makes or closes a link is passed within a closure, since it is a function of another crate.

/// Makes this many links with room for so many messages, and returns their left ends, and the right ones in the same order.
fn make_links<M: Drop>(
    alloc: Global,
    count: usize,
    capacity: usize,
) -> Result<(Vec<LeftEnd<M>>, Vec<RightEnd<M>>), Memory>
    requires { (0 < capacity) × (capacity ≤ 514) }
    ensures count { IfOk result (λ ends. length ends.0.items ≡ count) }
    ensures new { IfOk result (λ ends. AllZip (AreEndsOfNew capacity) ends.0.items ends.1.items) }
{
    make_all(alloc, count, || duplex(alloc, capacity))
}

/// Makes this many queues with room for so many messages, and returns their senders, and the receivers in the same order.
fn make_queues<M: Drop>(
    alloc: Global,
    count: usize,
    capacity: usize,
) -> Result<(Vec<Sender<M>>, Vec<Receiver<M>>), Memory>
    requires { (0 < capacity) × (capacity ≤ 514) }
    ensures count { IfOk result (λ ends. length ends.0.items ≡ count) }
    ensures new { IfOk result (λ ends. AllZip (AreEndsOfNew capacity) ends.0.items ends.1.items) }
{
    make_all(alloc, count, || one_way(alloc, capacity))
}

/// Closes the links of these ends, into a list that has room for them.
fn close_links<M: Drop>(
    left: Vec<LeftEnd<M>>,
    right: Vec<RightEnd<M>>,
    links: Vec<Closed<M>>,
) -> Vec<Closed<M>>
    requires linked { AreLinked left.items right.items }
    requires room { IsRoomOf (length left.items) links }
    ensures links { result.items ≡ closed_links left.items right.items }
    ensures agree { All (λ link. Agrees link.capacity link.link) result.items }
{
    close_all(left, right, links, |left, right| close(left, right))
}

/// Closes the queues of these ends, into a list that has room for them.
fn close_queues<M: Drop>(
    senders: Vec<Sender<M>>,
    receivers: Vec<Receiver<M>>,
    queues: Vec<ClosedWay<M>>,
) -> Vec<ClosedWay<M>>
    requires linked { AreLinked senders.items receivers.items }
    requires room { IsRoomOf (length senders.items) queues }
    ensures queues { result.items ≡ closed_queues senders.items receivers.items }
    ensures agree { All (λ queue. AgreesOneWay queue.capacity queue.way) result.items }
{
    close_all(
        senders,
        receivers,
        queues,
        |sender, receiver| close_way(sender, receiver),
    )
}
