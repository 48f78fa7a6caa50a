//! What an end keeps of the direction into which it puts. No call here waits or takes memory.
ghost use Rattle.std.specs.Prelude.{◌≡◌, ◌+◌, ◌<◌, ◌≤◌, ◌∷◌, ◌++◌, [], MatchBool};
ghost use Rattle.hj_base.specs.Journals.{put};
ghost use Rattle.hj_link.specs.Rule.{journal_of};
ghost use Rattle.hj_link.specs.Steps.{own};
ghost use Rattle.hj_link.specs.Halves.{Outgoes, KeepsTakes};

use crate::endpoints::Endpoint;
use crate::ring::Ring;
use crate::steps::SeatedEnd;

/// The direction into which an end puts.
#[derive(Drop)]
pub struct OutgoingWay {
    pub ring: Ring,
    // the puts, and the takes that were seen, modulo 2^64
    pub puts: u64,
    pub seen_takes: u64,
    // how many more puts need no look at the takes
    pub room: u64,
}

impl OutgoingWay {
    pub(crate) fn new(ring: Ring) -> OutgoingWay
        requires { ring.capacity ≤ 514 }
        ensures { (result.ring ≡ ring) × (result.puts ≡ 0) × (result.seen_takes ≡ 0) × (result.room ≡ ring.capacity) }
    {
        OutgoingWay {
            ring,
            puts: 0,
            seen_takes: 0,
            room: ring.capacity as u64,
        }
    }

    fn look<M: Drop, D: Endpoint>(&mut self, end: &mut SeatedEnd<M, D>)
        requires half { Outgoes D.is_left end.old.me self.old }
        requires none { self.old.room ≡ 0 }
        ensures half { Outgoes D.is_left end.new.me self.new }
        ensures takes { KeepsTakes D.is_left end.old end.new }
        ensures journal { journal_of (own D.is_left end.new.me) ≡ journal_of (own D.is_left end.old.me) }
        ensures full { self.new.room ≡ 0 → (own D.is_left end.new.me).full_looks ≡ (own D.is_left end.old.me).full_looks + 1 }
        ensures some { 0 < self.new.room → (own D.is_left end.new.me).full_looks ≡ (own D.is_left end.old.me).full_looks }
    {
        let takes = end.look_for_room();
        self.room = takes.wrapping_sub(self.seen_takes);
        self.seen_takes = takes;
    }

    // Returns whether the next put finds room. If it doesn't, the direction was full at a step of this call.
    #[inline(always)]
    pub(crate) fn room<M: Drop, D: Endpoint>(&mut self, end: &mut SeatedEnd<M, D>) -> bool
        requires { Outgoes D.is_left end.old.me self.old }
        ensures half { Outgoes D.is_left end.new.me self.new }
        ensures takes { KeepsTakes D.is_left end.old end.new }
        ensures journal { journal_of (own D.is_left end.new.me) ≡ journal_of (own D.is_left end.old.me) }
        ensures room { MatchBool result (0 < self.new.room) ((self.old.room ≡ 0) × (self.new.room ≡ 0)) }
        ensures full { MatchBool result ((own D.is_left end.new.me).full_looks ≡ (own D.is_left end.old.me).full_looks) ((own D.is_left end.new.me).full_looks ≡ (own D.is_left end.old.me).full_looks + 1) }
        ensures known { 0 < self.old.room → self.new.room ≡ self.old.room }
    {
        if self.room == 0 {
            self.look(end);
        }
        self.room > 0
    }

    // Puts a message under a turn. There is room for it.
    #[inline(always)]
    pub(crate) fn put<M: Drop, D: Endpoint>(
        &mut self,
        end: &mut SeatedEnd<M, D>,
        turn: u64,
        message: M,
    )
        requires half { Outgoes D.is_left end.old.me self.old }
        requires room { 0 < self.old.room }
        ensures half { Outgoes D.is_left end.new.me self.new }
        ensures takes { KeepsTakes D.is_left end.old end.new }
        ensures put { journal_of (own D.is_left end.new.me) ≡ journal_of (own D.is_left end.old.me) ++ put turn message ∷ [] }
        ensures looks { (own D.is_left end.new.me).full_looks ≡ (own D.is_left end.old.me).full_looks }
        ensures room { self.new.room + 1 ≡ self.old.room }
    {
        let puts = self.puts.wrapping_add(1);
        let slot = self.ring.first + self.ring.next;
        end.put(slot, puts, turn, message);
        self.puts = puts;
        self.room -= 1;
        self.ring = self.ring.following();
    }
}
