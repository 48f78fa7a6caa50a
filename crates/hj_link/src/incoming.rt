//! What an end keeps of the direction from which it takes. No call here waits or takes memory.
ghost use Rattle.std.specs.Prelude.{◌≡◌, ◌+◌, ◌<◌, ◌∷◌, ◌++◌, [], MatchBool};
ghost use Rattle.hj_base.specs.Journals.{taken};
ghost use Rattle.hj_link.specs.Rule.{journal_of};
ghost use Rattle.hj_link.specs.Steps.{own};
ghost use Rattle.hj_link.specs.Halves.{Incomes, KeepsPuts};

use crate::endpoints::Endpoint;
use crate::ring::Ring;
use crate::steps::SeatedEnd;

/// The direction from which an end takes.
#[derive(Drop)]
pub struct IncomingWay {
    pub ring: Ring,
    // the takes, modulo 2^64
    pub takes: u64,
    // how many more takes need no look at the puts
    pub ready: u64,
}

impl IncomingWay {
    pub(crate) fn new(ring: Ring) -> IncomingWay
        ensures { (result.ring ≡ ring) × (result.takes ≡ 0) × (result.ready ≡ 0) }
    {
        IncomingWay {
            ring,
            takes: 0,
            ready: 0,
        }
    }

    fn look<M: Drop, D: Endpoint>(&mut self, end: &mut SeatedEnd<M, D>)
        requires half { Incomes D.is_left end.old.me self.old }
        requires none { self.old.ready ≡ 0 }
        ensures half { Incomes D.is_left end.new.me self.new }
        ensures puts { KeepsPuts D.is_left end.old end.new }
        ensures journal { journal_of (own D.is_left end.new.me) ≡ journal_of (own D.is_left end.old.me) }
        ensures empty { self.new.ready ≡ 0 → (own D.is_left end.new.me).empty_looks ≡ (own D.is_left end.old.me).empty_looks + 1 }
        ensures some { 0 < self.new.ready → (own D.is_left end.new.me).empty_looks ≡ (own D.is_left end.old.me).empty_looks }
    {
        let puts = end.look_for_message();
        self.ready = puts.wrapping_sub(self.takes);
    }

    // Returns whether the next take finds a message. If it doesn't, there was none at a step of this call.
    #[inline(always)]
    pub(crate) fn ready<M: Drop, D: Endpoint>(&mut self, end: &mut SeatedEnd<M, D>) -> bool
        requires { Incomes D.is_left end.old.me self.old }
        ensures half { Incomes D.is_left end.new.me self.new }
        ensures puts { KeepsPuts D.is_left end.old end.new }
        ensures journal { journal_of (own D.is_left end.new.me) ≡ journal_of (own D.is_left end.old.me) }
        ensures ready { MatchBool result (0 < self.new.ready) ((self.old.ready ≡ 0) × (self.new.ready ≡ 0)) }
        ensures empty { MatchBool result ((own D.is_left end.new.me).empty_looks ≡ (own D.is_left end.old.me).empty_looks) ((own D.is_left end.new.me).empty_looks ≡ (own D.is_left end.old.me).empty_looks + 1) }
        ensures known { 0 < self.old.ready → self.new.ready ≡ self.old.ready }
    {
        if self.ready == 0 {
            self.look(end);
        }
        self.ready > 0
    }

    // Takes the oldest message, under a turn. There is one.
    #[inline(always)]
    pub(crate) fn take<M: Drop, D: Endpoint>(&mut self, end: &mut SeatedEnd<M, D>, turn: u64) -> M
        requires half { Incomes D.is_left end.old.me self.old }
        requires some { 0 < self.old.ready }
        ensures half { Incomes D.is_left end.new.me self.new }
        ensures puts { KeepsPuts D.is_left end.old end.new }
        ensures taken { journal_of (own D.is_left end.new.me) ≡ journal_of (own D.is_left end.old.me) ++ taken turn result ∷ [] }
        ensures looks { (own D.is_left end.new.me).empty_looks ≡ (own D.is_left end.old.me).empty_looks }
        ensures ready { self.new.ready + 1 ≡ self.old.ready }
    {
        let takes = self.takes.wrapping_add(1);
        let slot = self.ring.first + self.ring.next;
        let message = end.take(slot, takes, turn);
        self.takes = takes;
        self.ready -= 1;
        self.ring = self.ring.following();
        message
    }
}
