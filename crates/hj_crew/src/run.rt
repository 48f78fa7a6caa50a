//! Runs of a chain on threads, between a feed and a drain or any other outlet.
ghost use Rattle.std.specs.Prelude.{◌≡◌, IfOk, OnErr};
ghost use Rattle.hj_base.specs.declared.numbers.Side.TheVariants.{Left, Right};
ghost use Rattle.hj_msg.specs.Feed.{IsFresh};
ghost use Rattle.hj_msg.specs.ReadyStores.{AreReadyOn};
ghost use Rattle.hj_crew.specs.Begun.{IsManned};
ghost use Rattle.hj_crew.specs.Input.{MayBegin};
ghost use Rattle.hj_crew.specs.Ran.{RunsOnThreads};
ghost use Rattle.hj_crew.specs.RanRaw.{RunsRaw};
ghost use Rattle.hj_crew.specs.Room.{IsRoomFor};
ghost use Rattle.hj_crew.specs.RunsCrew.{RunsCrew};

use crate::begun::{BegunRun, Returned};
use crate::closing::close_crew;
use crate::making::Crew;
use crate::plan::{CrewPlan, CrewSize, Stores};
use crate::ran::Ran;
use crate::room::Room;
use hj_base::{Gate, Memory, Share};
use hj_desk::{Caller, OrderedOutlet, Outlet, RawOutlet};
use hj_msg::{Drain, Feed, Join, Store};
use hj_raw::RawDrain;
use std::alloc::Global;
use std::sync::Wait;
use std::thread::Threads;
use std::time::Clock;

/// What a chain of cores joins.
#[derive(Drop)]
pub struct JoinInput<'j, J, S, F> {
    /// Says which rows match. Each core gets a share of it.
    pub join: &'j J,
    /// For the rows of each stream. The caller makes them for this join. They are empty.
    pub stores: Stores<S>,
    /// Gives the events, in the order of their numbers. It hasn't given one yet.
    pub feed: F,
}

impl<T: Threads + Wait + Clock + Sync, G: Gate + Sync> CrewPlan<'_, T, G> {
    /// Runs a chain of cores between a feed and a drain, on threads. The calling thread drives the
    /// chain at its two ends, and as many threads as the plan says, no more than there are cores, turn its
    /// cores. The calling thread stands for as many of them as the plan says. Where a thread can't be
    /// started, the calling thread turns its cores too.
    ///
    /// - `alloc` gives the memory.
    /// - `input` says which rows match, where they are kept and where the events come from.
    /// - `drain` gets the pairs, one at a time, in the order of the sequential join of these events.
    ///
    /// The feed and the drain come back with every answer.
    ///
    /// - `Ok` has the run: its links, from left to right, and the queues of the cores' reports, whose
    ///   journals tell what was put and taken at them, and how it ended. With `Done` the feed has
    ///   stopped, and the drain kept all pairs of the join. With `Refused` the drain refused the last
    ///   pair that it got. With `Memory` memory ran out within the run, in whichever thread. With these
    ///   two the drain got the first pairs of the join, and kept all but the refused one.
    /// - `Err(Memory)`: memory ran out for what is made before the first thread starts. No thread was
    ///   started, the feed gave no event, and the drain got no pair.
    ///
    /// Every thread that was started has ended when the call returns. No clause says that it returns.
    pub fn run_threads<
        P: Share + Send + Drop,
        J: Join<P> + Send + Drop,
        S: Store<P, J> + Send + Drop,
        F: Feed<P> + Drop,
        D: Drain<P> + Drop,
    >(
        &self,
        alloc: Global,
        input: JoinInput<'_, J, S, F>,
        drain: D,
    ) -> (Result<Ran<P>, Memory>, F, D)
        requires { MayBegin S.entries S.suits input.join.now self.now.size.chain.cores input.stores (F.state input.feed) }
        ensures runs { IfOk result.0 (RunsOnThreads F.gives F.state D.takes (J.predicate input.entry.join.now)
            self.now.size.chain.cores self.now.size.chain.flight input.entry.feed result.1 drain result.2) }
        ensures memory { OnErr result.0 ((result.1 ≡ input.entry.feed) × (result.2 ≡ drain)) }
    {
        let outlet = OrderedOutlet::new(alloc, drain);
        let (ran, feed, outlet) = self.run_between(alloc, input, outlet);
        (ran, feed, outlet.drain)
    }

    /// Runs a chain of cores between a feed and a drain, on threads, as `run_threads` does, but gives the pairs as they are met, in
    /// whatever order the cores' reports were taken, and between them the marks that tell what is complete.
    ///
    /// - `alloc` and `input` are those of `run_threads`.
    /// - `drain` gets the raw items of the reports: of each its pairs, by ascending partner, and then the mark up to which all pairs have
    ///   come, if it is there and isn't what it was before.
    ///
    /// The feed and the drain come back with every answer.
    ///
    /// - `Ok` has the run. With `Done` the feed has stopped, and the drain kept all items, the last of which is the mark past every number.
    ///   With `Refused` the drain refused the last item that it got. With `Memory` memory ran out within the run. With these two the drain
    ///   got the first items, and kept all but the refused one.
    /// - `Err(Memory)`: memory ran out for what is made before the first thread starts. No thread was started, the feed gave no event, and
    ///   the drain got no item.
    ///
    /// Every thread that was started has ended when the call returns. No clause says that it returns.
    pub fn run_raw<
        P: Share + Send + Drop,
        J: Join<P> + Send + Drop,
        S: Store<P, J> + Send + Drop,
        F: Feed<P> + Drop,
        D: RawDrain<P> + Drop,
    >(
        &self,
        alloc: Global,
        input: JoinInput<'_, J, S, F>,
        drain: D,
    ) -> (Result<Ran<P>, Memory>, F, D)
        requires { MayBegin S.entries S.suits input.join.now self.now.size.chain.cores input.stores (F.state input.feed) }
        ensures runs { IfOk result.0 (RunsRaw F.gives F.state D.takes (J.predicate input.entry.join.now)
            self.now.size.chain.cores self.now.size.chain.flight input.entry.feed result.1 drain result.2) }
        ensures memory { OnErr result.0 ((result.1 ≡ input.entry.feed) × (result.2 ≡ drain)) }
    {
        let outlet = RawOutlet::new(alloc, drain);
        let (ran, feed, outlet) = self.run_between(alloc, input, outlet);
        (ran, feed, outlet.drain)
    }

    /// Runs a chain of cores between a feed and an outlet, on threads, as `run_threads` does, but whatever becomes of the reports is the
    /// outlet's.
    ///
    /// - `alloc` and `input` are those of `run_threads`.
    /// - `outlet` gets the reports, in the order in which the calling thread takes them. It wasn't given one yet.
    ///
    /// The feed and the outlet come back with every answer.
    ///
    /// - `Ok` has the run. The outlet gave what is due of the reports that this run took. With `Done` the feed has stopped, each core's end
    ///   was reported, and nothing more is due.
    /// - `Err(Memory)`: memory ran out for what is made before the first thread starts. No thread was started, the feed gave no event, and
    ///   the outlet got no report.
    ///
    /// Every thread that was started has ended when the call returns. No clause says that it returns.
    pub fn run_between<
        P: Share + Send + Drop,
        J: Join<P> + Send + Drop,
        S: Store<P, J> + Send + Drop,
        F: Feed<P> + Drop,
        O: Outlet<P> + Drop,
    >(
        &self,
        alloc: Global,
        input: JoinInput<'_, J, S, F>,
        outlet: O,
    ) -> (Result<Ran<P>, Memory>, F, O)
        requires { MayBegin S.entries S.suits input.join.now self.now.size.chain.cores input.stores (F.state input.feed) }
        ensures runs { IfOk result.0 (RunsCrew F.gives F.state O.gave O.rests (J.predicate input.entry.join.now)
            self.now.size.chain.cores self.now.size.chain.flight input.entry.feed result.1 outlet result.2) }
        ensures memory { OnErr result.0 ((result.1 ≡ input.entry.feed) × (result.2 ≡ outlet)) }
    {
        let JoinInput { join, stores, feed } = input;
        let Ok((crew, room)) = crew_and_room(alloc, self.size, join, stores) else {
            return (Err(Memory), feed, outlet);
        };
        let (ran, feed, outlet) = self.run_crew(crew, room, feed, outlet);
        (Ok(ran), feed, outlet)
    }

    /// Lets the crew of a chain run until the run has ended, and closes it.
    fn run_crew<
        P: Share + Send + Drop,
        J: Join<P> + Send + Drop,
        S: Store<P, J> + Send + Drop,
        F: Feed<P> + Drop,
        O: Outlet<P> + Drop,
    >(&self, crew: Crew<P, J, S>, room: Room<P, J, S>, feed: F, outlet: O) -> (Ran<P>, F, O)
        requires crew { (join : J) × IsManned join self.now.size crew }
        requires room { IsRoomFor self.now.size.chain.cores room }
        requires fresh { IsFresh (F.state feed) }
        ensures { (join : J) → IsManned join self.now.size crew → RunsCrew F.gives F.state O.gave O.rests
            (J.predicate join) self.now.size.chain.cores self.now.size.chain.flight feed result.1 outlet result.2 result.0 }
    {
        let begun = BegunRun {
            caller: Caller {
                desk: crew.desk,
                feed,
                outlet,
                awaited: 0,
            },
            teams: crew.teams,
            own: crew.own,
            done: crew.done,
        };
        let Returned { caller, teams, fin } = begun.run_to_end(self, crew.signals.as_slice());
        let Caller {
            desk,
            feed,
            outlet,
            ..
        } = caller;
        let ran = close_crew(desk, teams, self.size.chain, fin, room);
        (ran, feed, outlet)
    }
}

/// Makes the crew of a chain over these stores, and room for the end of its run.
fn crew_and_room<P: Share + Drop, J: Join<P> + Drop, S: Store<P, J> + Drop>(
    alloc: Global,
    size: CrewSize,
    join: &J,
    stores: Stores<S>,
) -> Result<(Crew<P, J, S>, Room<P, J, S>), Memory>
    requires left { AreReadyOn S.entries S.suits Left join.now size.chain.cores stores.left.items }
    requires right { AreReadyOn S.entries S.suits Right join.now size.chain.cores stores.right.items }
    ensures crew { IfOk result (λ made. IsManned join.now size made.0) }
    ensures room { IfOk result (λ made. IsRoomFor size.chain.cores made.1) }
{
    let room = Room::new(alloc, size.chain.cores)?;
    let crew = Crew::new(alloc, size, join, stores)?;
    Ok((crew, room))
}
