ghost use Rattle.hj_base.specs.Journals.{put};
ghost use Rattle.hj_link.specs.Seen.{KeepsLink};
ghost use Rattle.hj_msg.specs.declared.message.Report.TheVariants.{NoMemory};
ghost use Rattle.hj_worker.specs.Seen.{first_end};
ghost use Rattle.std.specs.Prelude.{◌≡◌, ◌≢◌, ◌+◌, ◌-◌, ◌^◌, ◌<◌, ◌==◌, ◌↔◌, ◌∷◌, ◌++◌, [], true, false, min, length, None, Contains};

use crate::answers::{Place, Turn};
use crate::ends::WorkerEnds;
use crate::hand::Hand;
use crate::station::Station;
use hj_base::{CoreNo, Gate, Memory, Share, Side};
use hj_core::Core;
use hj_link::{LeftEnd, RightEnd, Sender};
use hj_msg::{Join, Msg, Report, Store};
use std::marker::Model;
use std::mem;

/// A core between its two links, with the queue of its reports. It handles one message a turn.
#[derive(Drop)]
pub struct Worker<P: Drop, J: Join<P>, S: Store<P, J>> {
    station: Station<P, J, S>,
    taken: u64,
    calls: u64,
}

impl<P: Drop, J: Join<P>, S: Store<P, J>> Model for Worker<P, J, S> {
    ghost use Rattle.hj_core.specs.Contents.{state_of};
    ghost use Rattle.hj_worker.specs.Hands.{in_hand};
    ghost use Rattle.hj_worker.specs.Seen.{WorkerSeen, journals_of};
    ghost use Rattle.hj_worker.specs.Standing.{Stands};

    ghost Value = { WorkerSeen P J };

    ghost view = { λ w. record {
      join = w.station.core.join;
      place = w.station.core.place;
      cores = w.station.core.cores;
      state = state_of S.entries w.station.core;
      ends = w.station.ends;
      hand = in_hand w.station.hand;
      taken = w.taken;
      calls = w.calls;
    } };

    ghost invariant = { λ w. Stands (J.predicate w.station.core.join) w.station.core.place w.station.core.cores (state_of S.entries w.station.core) (journals_of w.station.ends) w.taken w.station.hand };
}

/// The ends of a worker, handed back.
#[derive(Drop)]
pub struct Parts<P: Drop> {
    /// The place of its core.
    pub place: CoreNo,
    /// The right end of the link to the left.
    pub left: RightEnd<Msg<P>>,
    /// The left end of the link to the right.
    pub right: LeftEnd<Msg<P>>,
    pub reports: Sender<Report<P>>,
}

impl<P: Share + Drop, J: Join<P> + Drop, S: Store<P, J> + Drop> Worker<P, J, S> {
    ghost use Rattle.std.specs.Prelude.{List};
    ghost use Rattle.hj_base.specs.declared.numbers.Side.TheVariants.{Left as OnLeft, Right as OnRight};
    ghost use Rattle.hj_base.specs.Journals.{puts};
    ghost use Rattle.hj_msg.specs.declared.message.Msg.{Msg as Message};
    ghost use Rattle.hj_msg.specs.declared.message.Report.TheVariants.{Ended};
    ghost use Rattle.hj_msg.specs.Core.{empty_state};
    ghost use Rattle.hj_msg.specs.Turns.{Turns, TakesTurns};
    ghost use Rattle.hj_core.specs.Contents.{state_of};
    ghost use Rattle.hj_worker.specs.declared.answers.Place.{Place as Places};
    ghost use Rattle.hj_worker.specs.Outgoing.{Outgoing, entries_in};
    ghost use Rattle.hj_worker.specs.Hands.{unput, refused};
    ghost use Rattle.hj_worker.specs.Seen.{first_end, full_looks, has_ended, journals_of};
    ghost use Rattle.hj_worker.specs.Turning.{FindsNone, StaysItself, IsUnmoved, PutsOn, TurnsOn};

    /// Makes the worker of a core that has handled nothing, over ends that have taken and put nothing.
    pub fn new(
        core: Core<P, J, S>,
        left: RightEnd<Msg<P>>,
        right: LeftEnd<Msg<P>>,
        reports: Sender<Report<P>>,
    ) -> Self
        requires core { state_of S.entries core ≡ empty_state }
        requires left { left.journal ≡ [] }
        requires right { right.journal ≡ [] }
        requires reports { reports.journal ≡ [] }
        ensures { result ≡ record {
          join = core.join;
          place = core.place;
          cores = core.cores;
          state = empty_state;
          ends = record { left = left; right = right; reports = reports };
          hand = unput [];
          taken = 0;
          calls = 0;
        } }
    {
        Worker {
            station: Station {
                core,
                ends: WorkerEnds {
                    left,
                    right,
                    reports,
                },
                hand: Hand::Nothing,
            },
            taken: 0,
            calls: 0,
        }
    }

    /// Puts what is in hand. With nothing in hand, takes a message, handles it, and puts what its core sends and
    /// reports of it.
    pub fn turn<G: Gate>(&mut self, gate: &G) -> Turn
        requires { self.old.taken ≢ 2 ^ 64 - 1 }
        ensures itself { StaysItself self.old self.new }
        ensures calls { self.new.calls ≡ min (self.old.calls + 1) (2 ^ 64 - 1) }
        ensures no_memory { (message : Message P) → self.old.hand ≡ refused message → (result ≡ Turn.NoMemory) × IsUnmoved self.old self.new }
        ensures in_hand { (items : List (Outgoing P)) → self.old.hand ≡ unput items → 0 < length items → PutsOn items self.old result self.new }
        ensures goes_on { self.old.hand ≡ unput [] → has_ended self.old.state ≡ false → TurnsOn (J.predicate self.old.join) (first_end self.old.calls) self.old result self.new }

        // when each answer comes
        ensures did { result ≡ Turn.Did → entries_in (journals_of self.old.ends) < entries_in (journals_of self.new.ends) }
        ensures idle { result ≡ Turn.Idle → (self.old.hand ≡ unput []) × FindsNone OnLeft self.old.ends self.new.ends × FindsNone OnRight self.old.ends self.new.ends }
        ensures blocked { (place : Places) → result ≡ Turn.Blocked place → full_looks place self.new.ends ≡ full_looks place self.old.ends + 1 }
        ensures ended { (result ≡ Turn.Ended) ↔ ((self.old.hand ≡ unput []) × (has_ended self.old.state ≡ true)) }
        ensures ended_reported { result ≡ Turn.Ended → Contains (puts self.new.ends.reports.journal) Ended }
        ensures ended_stays { result ≡ Turn.Ended → IsUnmoved self.old self.new }
    {
        let calls = self.calls;
        self.calls = calls.saturating_add(1);
        gate.pass(self.station.core.place(), calls);
        match &self.station.hand {
            Hand::Nothing => {
                if self.station.core.ended() {
                    Turn::Ended
                } else {
                    self.handle_next(first_look(calls))
                }
            }
            Hand::Rest(_) => self.put_rest(),
            Hand::Refused(_) => Turn::NoMemory,
        }
    }

    /// Returns whether it took 2^64 - 1 messages, and so has no number left for a turn.
    pub fn spent(&self) -> bool
        ensures { result ≡ (self.now.taken == 2 ^ 64 - 1) }
    {
        self.taken == u64::MAX
    }

    /// Hands back its ends. What is in hand is dropped.
    pub fn parts(self) -> Parts<P>
        ensures place { result.place.0 ≡ self.place }
        ensures ends { (result.left ≡ self.ends.left) × (result.right ≡ self.ends.right) × (result.reports ≡ self.ends.reports) }
        ensures turns { (turns : Turns P) × TakesTurns (J.predicate self.join) self.place self.cores turns result.left.journal result.right.journal result.reports.journal
            × (self.hand ≡ unput [] ↔ turns.cut ≡ None) }
        ensures ended { Contains (puts result.reports.journal) Ended → self.hand ≡ unput [] }
    {
        Parts {
            place: self.station.core.place(),
            left: self.station.ends.left,
            right: self.station.ends.right,
            reports: self.station.ends.reports,
        }
    }

    /// Puts what is in hand, under the number of the message that was taken last.
    fn put_rest(&mut self) -> Turn
        requires { (items : List (Outgoing P)) × (self.old.hand ≡ unput items) × (0 < length items) }
        ensures itself { StaysItself self.old self.new }
        ensures calls { self.new.calls ≡ self.old.calls }
        ensures in_hand { (items : List (Outgoing P)) → self.old.hand ≡ unput items → 0 < length items → PutsOn items self.old result self.new }
    {
        let Hand::Rest(sends) = mem::replace(&mut self.station.hand, Hand::Nothing) else {
            unreachable!()
        };
        match self.station.ends.put_all(self.taken - 1, sends) {
            None => Turn::Did,
            Some(unput) => {
                self.station.hand = Hand::Rest(unput.sends);
                Turn::Blocked(unput.place)
            }
        }
    }

    /// Takes a message and handles it, if there is room for a report. Looks at the link on the side `first`, then at
    /// the other one.
    fn handle_next(&mut self, first: Side) -> Turn
        requires hand { self.old.hand ≡ unput [] }
        requires open { has_ended self.old.state ≡ false }
        requires number { self.old.taken ≢ 2 ^ 64 - 1 }
        ensures itself { StaysItself self.old self.new }
        ensures calls { self.new.calls ≡ self.old.calls }
        ensures goes_on { TurnsOn (J.predicate self.old.join) first self.old result self.new }
    {
        if !self.station.ends.reports.room() {
            return Turn::Blocked(Place::Reports);
        }
        let number = self.taken;
        let Some(message) = self.station.ends.take(number, first) else {
            return Turn::Idle;
        };
        self.taken = number + 1;
        match self.station.handle(number, message) {
            Ok(()) => Turn::Did,
            Err(Memory) => {
                report_no_memory(&mut self.station.ends.reports, number);
                Turn::NoMemory
            }
        }
    }
}

/// Reports under a turn that memory ran out. There is room for it.
#[cold]
fn report_no_memory<P: Drop>(reports: &mut Sender<Report<P>>, turn: u64)
    requires { 0 < reports.old.room }
    ensures link { KeepsLink reports.old reports.new }
    ensures put { reports.new.journal ≡ reports.old.journal ++ put turn NoMemory ∷ [] }
{
    let Ok(()) = reports.put(turn, Report::NoMemory) else {
        unreachable!()
    };
}

/// Returns the side of the link at which a call looks first, after `calls` earlier ones.
#[inline(always)]
fn first_look(calls: u64) -> Side
    ensures { result ≡ first_end calls }
{
    if calls % 2 == 0 {
        Side::Left
    } else {
        Side::Right
    }
}
