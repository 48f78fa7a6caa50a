//! The calling thread of a run: what it does in a round, between the feed, the chain and the outlet.
ghost use Rattle.std.specs.Prelude.{◌<◌, ◌≤◌, [], length};
ghost use Rattle.hj_msg.specs.declared.feed.Given.{Given as Answer};

use crate::desk::Desk;
use crate::outlet::Outlet;
use crate::step::DeskStep;
use hj_base::{CoreNo, Share, Side};
use hj_msg::{Drained, Feed, Fin};

/// How many messages, reports or events in a row are handled at one place.
const BATCH: u32 = 64;

/// What came of a round.
#[derive(Clone, Copy, Debug, PartialEq, Eq)]
pub enum Round {
    /// Something was taken or put.
    GotOn,
    /// There was nothing to take, and nothing that may be put now.
    Waits,
    /// The run has ended.
    Over(Fin),
}

/// What the calling thread has of a run.
#[derive(Drop)]
pub struct Caller<P: Drop, F, O> {
    pub desk: Desk<P>,
    /// Where the events come from.
    pub feed: F,
    /// What becomes of the reports.
    pub outlet: O,
    /// How many reports are still to come of the rows that were put.
    pub awaited: u64,
}

impl<P: Share + Drop, F: Feed<P>, O: Outlet<P>> Caller<P, F, O> {
    ghost use Rattle.hj_msg.specs.declared.drain.Drained.TheVariants.{Kept};
    ghost use Rattle.hj_desk.specs.Desk.{Stands};
    ghost use Rattle.hj_desk.specs.Caller.{Goes, GoesRound, GoesOnAsking};

    /// Does one round: takes what came out of the chain and what the cores reported, gives what is due, and
    /// puts events. Waits for the feed only if all that was put has left the chain, every report of it was taken, and all
    /// that is due was given.
    pub fn round(&mut self) -> Round
        requires stands { Stands self.old.desk (F.state self.old.feed) }
        requires few { length self.old.desk.reports.items ≤ 64 }
        ensures { GoesRound F.gives F.state O.gave O.rests result self.old self.new }
    {
        let at_left = self.receive_from(Side::Left);
        let at_right = self.receive_from(Side::Right);
        let collected = self.collect_all();
        if self.desk.release(&mut self.outlet) == Drained::Refused {
            return Round::Over(Fin::Refused);
        }
        if let Some(fin) = self.desk.end() {
            return Round::Over(fin);
        }
        let put = self.admit_all();
        if at_left || at_right || collected || put {
            Round::GotOn
        } else {
            Round::Waits
        }
    }

    /// Takes the messages that wait at a port, and returns whether there was one.
    fn receive_from(&mut self, port: Side) -> bool
        ensures { Goes F.gives F.state O.gave self.old [] Kept self.new }
    {
        for taken in 0..BATCH {
            if self.desk.receive(port) != DeskStep::Did {
                return taken > 0;
            }
        }
        true
    }

    /// Takes the reports of all cores that wait in their queues, and returns whether there was one.
    fn collect_all(&mut self) -> bool
        requires stands { Stands self.old.desk (F.state self.old.feed) }
        requires few { length self.old.desk.reports.items ≤ 64 }
        ensures { Goes F.gives F.state O.gave self.old [] Kept self.new }
    {
        let mut collected = false;
        for place in 0..self.desk.cores() {
            if self.collect_from(CoreNo(place)) {
                collected = true;
            }
        }
        collected
    }

    /// Takes the reports of a core that wait in its queue, and returns whether there was one.
    fn collect_from(&mut self, core: CoreNo) -> bool
        requires stands { Stands self.old.desk (F.state self.old.feed) }
        requires in_range { core.0 < length self.old.desk.reports.items }
        ensures { Goes F.gives F.state O.gave self.old [] Kept self.new }
    {
        for taken in 0..BATCH {
            if self.desk.collect(core, &mut self.outlet) != DeskStep::Did {
                return taken > 0;
            }
            self.awaited = self.awaited.saturating_sub(1);
        }
        true
    }

    /// Puts events one after another, as long as that may be done, and returns whether it put one.
    fn admit_all(&mut self) -> bool
        requires { Stands self.old.desk (F.state self.old.feed) }
        ensures { GoesOnAsking F.gives F.state O.gave self.old self.new }
    {
        for put in 0..BATCH {
            if !self.admit_next() {
                return put > 0;
            }
        }
        true
    }

    /// Puts the next event, or the closes if none is to come, and returns whether it did.
    #[inline(always)]
    fn admit_next(&mut self) -> bool
        requires { Stands self.old.desk (F.state self.old.feed) }
        ensures { GoesOnAsking F.gives F.state O.gave self.old self.new }
    {
        if !self.knows_next() {
            return false;
        }
        let reports = self.desk.reports_of_next();
        if self.desk.admit() != DeskStep::Did {
            return false;
        }
        self.awaited = self.awaited.saturating_add(reports);
        true
    }

    /// Returns whether it is known what is to be put next. Asks the feed for it if that needn't wait or nothing else is
    /// to be done.
    #[inline(always)]
    fn knows_next(&mut self) -> bool
        ensures { GoesOnAsking F.gives F.state O.gave self.old self.new }
    {
        if !self.desk.is_unasked() {
            return true;
        }
        if !self.feed.is_ready() && !self.is_quiet() {
            return false;
        }
        self.desk.ask(&mut self.feed);
        true
    }

    /// Returns whether all that was put has left the chain, and every report of it was taken.
    #[inline(always)]
    fn is_quiet(&self) -> bool {
        self.awaited == 0 && self.desk.outstanding() == 0
    }
}
