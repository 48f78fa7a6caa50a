//! The ends of links, and how links are made.
ghost use Rattle.std.specs.Prelude.{◌≡◌, ◌+◌, ◌<◌, ◌≤◌, ◌∷◌, ◌++◌, [], map, option_to_list, Some, IfOk, IfErr, OnOk, OnErr, IsSome, IfSome, IfNone, MatchBool, MatchOption};
ghost use Rattle.hj_base.specs.Journals.{put, taken};
ghost use Rattle.hj_link.specs.Rule.{journal_of};
ghost use Rattle.hj_link.specs.Steps.{own};
ghost use Rattle.hj_link.specs.Seen.{EndSeen, KeepsLink, HasPut};

use crate::endpoints::{Endpoint, OnLeft, OnRight};
use crate::halves::{PuttingHalf, TakingHalf, Unused};
use crate::incoming::IncomingWay;
use crate::opening::open;
use crate::outgoing::OutgoingWay;
use crate::ring::Ring;
use crate::steps::SeatedEnd;
use crate::table::Capacities;
use hj_base::{Full, Memory};
use std::alloc::Global;
use std::marker::Model;

/// An end of a link. None of its calls waits or takes memory.
#[derive(Drop)]
pub struct LinkEnd<M: Drop, D: Endpoint, O: PuttingHalf<M>, I: TakingHalf<M>> {
    pub(crate) end: SeatedEnd<M, D>,
    outgoing: O,
    incoming: I,
}

/// The left end of a link that goes both ways.
pub type LeftEnd<M> = LinkEnd<M, OnLeft, OutgoingWay, IncomingWay>;

/// The right end of a link that goes both ways.
pub type RightEnd<M> = LinkEnd<M, OnRight, OutgoingWay, IncomingWay>;

/// The end of a link in one direction that puts.
pub type Sender<M> = LinkEnd<M, OnLeft, OutgoingWay, Unused>;

/// The end of a link in one direction that takes.
pub type Receiver<M> = LinkEnd<M, OnRight, Unused, IncomingWay>;

impl<M: Drop, D: Endpoint, O: PuttingHalf<M>, I: TakingHalf<M>> Model for LinkEnd<M, D, O, I> {
    ghost Value = { EndSeen M };

    ghost view = { λ e. record {
      link = e.end.link;
      capacity = e.end.me.0.capacities.rightwards;
      journal = journal_of (own D.is_left e.end.me);
      room = O.room e.outgoing;
      ready = I.ready e.incoming;
      full_looks = (own D.is_left e.end.me).full_looks;
      empty_looks = (own D.is_left e.end.me).empty_looks;
    } };

    ghost invariant = { λ e. O.outgoes D.is_left e.end.me e.outgoing × I.incomes D.is_left e.end.me e.incoming };
}

impl<M: Drop, D: Endpoint, I: TakingHalf<M>> LinkEnd<M, D, OutgoingWay, I> {
    /// Returns whether the next put finds room. If it doesn't, the direction into which it puts was full at a step of this call.
    #[inline(always)]
    pub fn room(&mut self) -> bool
        ensures link { KeepsLink self.old self.new }
        ensures journal { self.new.journal ≡ self.old.journal }
        ensures room { MatchBool result (0 < self.new.room) ((self.old.room ≡ 0) × (self.new.room ≡ 0)) }
        ensures full { MatchBool result (self.new.full_looks ≡ self.old.full_looks) (self.new.full_looks ≡ self.old.full_looks + 1) }
        ensures known { 0 < self.old.room → self.new.room ≡ self.old.room }
        ensures takes { (self.new.ready ≡ self.old.ready) × (self.new.empty_looks ≡ self.old.empty_looks) }
    {
        self.outgoing.room(&mut self.end)
    }

    /// Puts a message under a turn. Hands it back only if the direction was full at a step of this call.
    #[inline(always)]
    pub fn put(&mut self, turn: u64, message: M) -> Result<(), Full<M>>
        ensures link { KeepsLink self.old self.new }
        ensures put { OnOk result ((self.new.journal ≡ self.old.journal ++ put turn message ∷ []) × (self.new.full_looks ≡ self.old.full_looks)) }
        ensures room { OnOk result (0 < self.old.room → self.new.room + 1 ≡ self.old.room) }
        ensures back { IfErr result (λ full. full.0 ≡ message) }
        ensures same { OnErr result (self.new.journal ≡ self.old.journal) }
        ensures full { OnErr result ((self.old.room ≡ 0) × (self.new.room ≡ 0) × (self.new.full_looks ≡ self.old.full_looks + 1)) }
        ensures takes { (self.new.ready ≡ self.old.ready) × (self.new.empty_looks ≡ self.old.empty_looks) }
    {
        if !self.room() {
            return Err(Full(message));
        }
        if I::TAKES {
            self.put_there(turn, message);
        } else {
            self.put_apart(turn, message);
        }
        Ok(())
    }

    /// Puts a message under a turn, if there is one. Hands it back only if the direction was full at a step of this call.
    #[inline(always)]
    pub fn put_some(&mut self, turn: u64, message: Option<M>) -> Option<M>
        ensures link { KeepsLink self.old self.new }
        ensures put { IfNone result ((self.new.journal ≡ self.old.journal ++ map (put turn) (option_to_list message)) × (self.new.full_looks ≡ self.old.full_looks)) }
        ensures room { MatchOption result (IsSome message → 0 < self.old.room → self.new.room + 1 ≡ self.old.room)
            (λ back. (self.old.room ≡ 0) × (self.new.room ≡ 0)) }
        ensures back { IfSome result (λ back. (message ≡ Some back) × (self.new.journal ≡ self.old.journal) × (self.new.full_looks ≡ self.old.full_looks + 1)) }
        ensures takes { (self.new.ready ≡ self.old.ready) × (self.new.empty_looks ≡ self.old.empty_looks) }
    {
        match self.put(turn, message?) {
            Ok(()) => None,
            Err(Full(back)) => Some(back),
        }
    }

    // Puts a message under a turn. There is room for it.
    #[inline(always)]
    fn put_there(&mut self, turn: u64, message: M)
        requires { 0 < self.old.room }
        ensures { HasPut turn message self.old self.new }
    {
        self.outgoing.put(&mut self.end, turn, message);
    }

    // Does what `put_there` does. Called, since what goes one way may be large.
    #[inline(never)]
    fn put_apart(&mut self, turn: u64, message: M)
        requires { 0 < self.old.room }
        ensures { HasPut turn message self.old self.new }
    {
        self.put_there(turn, message);
    }
}

impl<M: Drop, D: Endpoint, O: PuttingHalf<M>> LinkEnd<M, D, O, IncomingWay> {
    /// Takes the oldest message of the other end, under a turn. None only if there was none at a step of this call.
    #[inline(always)]
    pub fn take(&mut self, turn: u64) -> Option<M>
        ensures link { KeepsLink self.old self.new }
        ensures taken { IfSome result (λ message. (self.new.journal ≡ self.old.journal ++ taken turn message ∷ []) × (self.new.empty_looks ≡ self.old.empty_looks)) }
        ensures ready { 0 < self.old.ready → self.new.ready + 1 ≡ self.old.ready }
        ensures same { IfNone result (self.new.journal ≡ self.old.journal) }
        ensures empty { IfNone result ((self.old.ready ≡ 0) × (self.new.ready ≡ 0) × (self.new.empty_looks ≡ self.old.empty_looks + 1)) }
        ensures puts { (self.new.room ≡ self.old.room) × (self.new.full_looks ≡ self.old.full_looks) }
    {
        if !self.incoming.ready(&mut self.end) {
            return None;
        }
        Some(self.incoming.take(&mut self.end, turn))
    }
}

/// Makes a link that goes both ways, with room for 1 to 514 messages in each direction. It takes all the memory that
/// the link ever takes.
pub fn duplex<M: Drop>(alloc: Global, capacity: usize) -> Result<(LeftEnd<M>, RightEnd<M>), Memory>
    requires { (0 < capacity) × (capacity ≤ 514) }
    ensures link { IfOk result (λ ends. ends.0.link ≡ ends.1.link) }
    ensures capacity { IfOk result (λ ends. (ends.0.capacity ≡ capacity) × (ends.1.capacity ≡ capacity)) }
    ensures room { IfOk result (λ ends. (ends.0.room ≡ capacity) × (ends.1.room ≡ capacity)) }
    ensures ready { IfOk result (λ ends. (ends.0.ready ≡ 0) × (ends.1.ready ≡ 0)) }
    ensures journals { IfOk result (λ ends. (ends.0.journal ≡ []) × (ends.1.journal ≡ [])) }
    ensures full_looks { IfOk result (λ ends. (ends.0.full_looks ≡ 0) × (ends.1.full_looks ≡ 0)) }
    ensures empty_looks { IfOk result (λ ends. (ends.0.empty_looks ≡ 0) × (ends.1.empty_looks ≡ 0)) }
{
    let capacities = Capacities {
        rightwards: capacity,
        leftwards: capacity,
    };
    let link = open(alloc, capacities)?;
    let rightwards = Ring::new(0, capacity);
    let leftwards = Ring::new(capacity, capacity);
    let left = LinkEnd {
        end: link.left,
        outgoing: OutgoingWay::new(rightwards),
        incoming: IncomingWay::new(leftwards),
    };
    let right = LinkEnd {
        end: link.right,
        outgoing: OutgoingWay::new(leftwards),
        incoming: IncomingWay::new(rightwards),
    };
    Ok((left, right))
}

/// Makes a link in one direction, with room for 1 to 514 messages. It takes all the memory that the link ever takes.
pub fn one_way<M: Drop>(alloc: Global, capacity: usize) -> Result<(Sender<M>, Receiver<M>), Memory>
    requires { (0 < capacity) × (capacity ≤ 514) }
    ensures link { IfOk result (λ ends. ends.0.link ≡ ends.1.link) }
    ensures capacity { IfOk result (λ ends. (ends.0.capacity ≡ capacity) × (ends.1.capacity ≡ capacity)) }
    ensures room { IfOk result (λ ends. (ends.0.room ≡ capacity) × (ends.1.ready ≡ 0)) }
    ensures journals { IfOk result (λ ends. (ends.0.journal ≡ []) × (ends.1.journal ≡ [])) }
    ensures looks { IfOk result (λ ends. (ends.0.full_looks ≡ 0) × (ends.1.empty_looks ≡ 0)) }
{
    let capacities = Capacities {
        rightwards: capacity,
        leftwards: 0,
    };
    let link = open(alloc, capacities)?;
    let ring = Ring::new(0, capacity);
    let sender = LinkEnd {
        end: link.left,
        outgoing: OutgoingWay::new(ring),
        incoming: Unused,
    };
    let receiver = LinkEnd {
        end: link.right,
        outgoing: Unused,
        incoming: IncomingWay::new(ring),
    };
    Ok((sender, receiver))
}
