ghost use Rattle.std.specs.Prelude.{◌≡◌, ◌≢◌, ◌↔◌, true, ◌+◌, ◌<◌, ◌≤◌, ◌++◌, [], ◌∷◌, ℕ, false, List, length, map, replicate, option_to_list, Some, All, IfOk, IfSome, IfNone, IsPermutation, OnErr, OnOk};
ghost use Rattle.hj_base.specs.declared.numbers.Side.TheVariants.{Left, Right};
ghost use Rattle.hj_msg.specs.declared.event.Event.{Event};
ghost use Rattle.hj_chain.specs.declared.actor.Actor.{Actor as Actors};
ghost use Rattle.hj_msg.specs.Core.{empty_state};
ghost use Rattle.hj_msg.specs.Feed.{IsFresh, Answers, FeedState, GoesOver};
ghost use Rattle.hj_msg.specs.GoesOn.{GoesOnWith};
ghost use Rattle.hj_core.specs.Contents.{state_of};
ghost use Rattle.hj_chain.specs.Placed.{ArePlaced, IsOneMore};
ghost use Rattle.hj_chain.specs.Chain.{FeedAnswer, empty_chain, if_there};
ghost use Rattle.hj_collect.specs.Collector.{nothing_taken};
ghost use Rattle.hj_chain.specs.Reached.{StandsFor, next_pair};
ghost use Rattle.hj_chain.specs.Progress.{IsDone};
ghost use Rattle.hj_chain.specs.Steps.{at_port, GoesWith, Gathers, HasRoom, IsGoing, MakesStep, RunsSchedule, StandsFurther, Steps, StepsTo, Tells, was_asked};

use self::surroundings::Surroundings;
use crate::links::Links;
use crate::reports::Reports;
use crate::{Actor, NotNow, Stepped};
use hj_base::{CoreNo, Gate, Memory, OpenGate, Share, Side};
use hj_collect::{Collector, Ordered};
use hj_core::Core;
use hj_driver::{Closing, Driver};
use hj_msg::{Feed, Given, Join, Msg, Pair, Store};
use std::alloc::Global;
use std::marker::Model;
use std::mem;

mod looks;
mod serial;
mod surroundings;
mod sweep;
mod turns;

/// A chain of cores, with the driver at its ends. Its actors make their steps one at a time, in whatever order they are asked
/// to, so that any interleaving of a run can be played.
#[derive(Drop)]
pub struct Chain<P, J: Join<P>, S: Store<P, J>> {
    join: J,
    driver: Driver,
    next: Option<Given<P>>,
    links: Links<P>,
    cores: Vec<Core<P, J, S>>,
    reports: Reports<P>,
    collector: Collector,
    kept: Ordered<P>,
    over: bool,
}

impl<P, J: Join<P>, S: Store<P, J>> Model for Chain<P, J, S> {
    ghost use Rattle.std.specs.Prelude.{◌≡◌, ◌≤◌, length, map};
    ghost use Rattle.hj_core.specs.Contents.{state_of};
    ghost use Rattle.hj_chain.specs.Chain.{Contents, capacity};
    ghost use Rattle.hj_chain.specs.Placed.{ArePlaced};

    ghost Value = { Contents P J };

    ghost view = { λ c. record {
      join = c.join;
      state = record {
        driver = c.driver;
        next = c.next;
        links = c.links;
        cores = map (state_of S.entries) c.cores.items;
        reports = c.reports.queues;
        over = c.over;
      };
      collector = c.collector;
      kept = c.kept;
    } };

    ghost invariant = { λ c. record {
      placed : ArePlaced c.join (length c.cores.items) 0 c.cores.items;
      few : length c.cores.items ≤ 64;
      flight : 1 ≤ c.driver.flight;
      capacity : c.reports.capacity ≡ capacity c.driver.flight;
    } };
}

impl<P: Share + Drop, J: Join<P> + Drop, S: Store<P, J> + Drop> Chain<P, J, S> {
    ghost use Rattle.hj_msg.specs.declared.feed.Given.{Given};
    ghost use Rattle.hj_chain.specs.Chain.{Contents};

    /// Makes the empty chain of as many cores as there are stores of each stream, with at most `flight` events
    /// outstanding, from 1 to 256. It asks the feed for the first event. Where memory runs out the feed was not
    /// asked.
    pub fn new<F: Feed<P>>(
        alloc: Global,
        join: J,
        left: Vec<S>,
        right: Vec<S>,
        flight: u16,
        feed: &mut F,
    ) -> Result<Self, Memory>
        requires cores { (1 ≤ length left.items) × (length left.items ≤ 64) × (length right.items ≡ length left.items) }
        requires flight { (1 ≤ flight) × (flight ≤ 256) }
        requires left_empty { All (λ store. S.entries store ≡ []) left.items }
        requires right_empty { All (λ store. S.entries store ≡ []) right.items }
        requires left_suits { All (λ store. S.suits store Left join) left.items }
        requires right_suits { All (λ store. S.suits store Right join) right.items }
        requires fresh { IsFresh (F.state feed.old) }
        ensures begins { IfOk result (λ chain. (first : Given P) × (chain ≡ record { join = join; state = empty_chain (length left.items) flight first; collector = nothing_taken (length left.items); kept = [] }) × F.gives feed.old first feed.new) }
        ensures goes { IfOk result (λ chain. GoesWith J.predicate chain (F.state feed.new)) }
        ensures refused { OnErr result (feed.new ≡ feed.old) }
    {
        let cores = placed_cores(alloc, &join, left, right)?;
        Self::of_cores(alloc, join, cores, flight, feed)
    }

    /// Makes the same of cores that hold nothing, each at its place.
    fn of_cores<F: Feed<P>>(
        alloc: Global,
        join: J,
        cores: Vec<Core<P, J, S>>,
        flight: u16,
        feed: &mut F,
    ) -> Result<Self, Memory>
        requires cores { (1 ≤ length cores.items) × (length cores.items ≤ 64) }
        requires placed { ArePlaced join (length cores.items) 0 cores.items }
        requires empty { map (state_of S.entries) cores.items ≡ replicate (length cores.items) empty_state }
        requires flight { (1 ≤ flight) × (flight ≤ 256) }
        requires fresh { IsFresh (F.state feed.old) }
        ensures begins { IfOk result (λ chain. (first : Given P) × (chain ≡ record { join = join; state = empty_chain (length cores.items) flight first; collector = nothing_taken (length cores.items); kept = [] }) × F.gives feed.old first feed.new) }
        ensures goes { IfOk result (λ chain. GoesWith J.predicate chain (F.state feed.new)) }
        ensures refused { OnErr result (feed.new ≡ feed.old) }
    {
        let count = cores.len();
        let around = Surroundings::new(alloc, count, flight)?;
        let kept = Ordered::new(alloc);
        Ok(Chain {
            join,
            driver: around.driver,
            next: Some(feed.next()),
            links: around.links,
            cores,
            reports: around.reports,
            collector: around.collector,
            kept,
            over: false,
        })
    }

    /// Makes a step of an actor, if it is enabled. A step that puts an event into the chain asks the feed for the next one where
    /// that is there; else the driver's next step asks, and puts nothing.
    #[inline(always)]
    pub fn step<F: Feed<P>>(&mut self, actor: Actor, feed: &mut F) -> Stepped
        requires { GoesWith J.predicate self.old (F.state feed.old) }
        ensures step { Steps F.gives F.ready (J.predicate self.old.join) actor self.old.state feed.old result self.new.state feed.new }
        ensures answers { was_asked actor self.old.state.next (F.ready feed.old) result ≡ true → IfSome self.new.state.next (λ given. Answers given (F.state feed.old) (F.state feed.new)) }
        ensures join { self.new.join ≡ self.old.join }
        ensures gathers { Gathers actor self.old result self.new }
        ensures room { HasRoom self.new.state }
        ensures goes { GoesWith J.predicate self.new (F.state feed.new) }
        ensures stands { (schedule : List Actors) (events : List (Event P)) (given : ℕ) → StandsFor J.predicate self.old schedule events given → result ≡ Stepped.Did
            → StandsFurther F.gives J.predicate (schedule ++ actor ∷ []) events given feed.old self.new feed.new }
        ensures stays { (schedule : List Actors) (events : List (Event P)) (given : ℕ) → StandsFor J.predicate self.old schedule events given → result ≢ Stepped.Did
            → StandsFor J.predicate self.new schedule events given }
    {
        if self.over {
            return Stepped::NotEnabled(NotNow::Over);
        }
        self.step_past(actor, feed, &OpenGate, 0)
    }

    /// Makes a step of an actor, if it is enabled, as `step` does, where memory didn't run out in an earlier one. A core passes the
    /// gate before its step, with the number of steps that were made before.
    #[inline(always)]
    fn step_past<F: Feed<P>, G: Gate>(
        &mut self,
        actor: Actor,
        feed: &mut F,
        gate: &G,
        made: u64,
    ) -> Stepped
        requires goes { GoesWith J.predicate self.old (F.state feed.old) }
        requires going { self.old.state.over ≡ false }
        ensures { MakesStep F.gives F.ready F.state J.predicate actor self.old feed.old result self.new feed.new }
    {
        match actor {
            Actor::Admit => self.admit(feed),
            Actor::PortLeft => self.receive(Side::Left),
            Actor::PortRight => self.receive(Side::Right),
            Actor::Core(core, end) => self.turn(core, end, gate, made),
            Actor::Collect(core) => self.collect(core),
        }
    }

    /// Makes the steps of a schedule in their order. An actor that isn't enabled is passed over. What it takes from the feed keeps
    /// well-formed events well formed.
    pub fn run<F: Feed<P>>(&mut self, schedule: &[Actor], feed: &mut F) -> Stepped
        requires { GoesWith J.predicate self.old (F.state feed.old) }
        ensures runs { RunsSchedule F.gives F.ready J.predicate schedule.now self.old feed.old result self.new feed.new }
        ensures join { self.new.join ≡ self.old.join }
        ensures goes { GoesWith J.predicate self.new (F.state feed.new) }
        ensures fed { (before taken : List (Event P)) → GoesOnWith before (F.state feed.old) → GoesOver F.gives feed.old taken feed.new → GoesOnWith (before ++ taken) (F.state feed.new) }
    {
        for actor in schedule {
            if self.step(*actor, feed) == Stepped::Memory {
                return Stepped::Memory;
            }
        }
        Stepped::Did
    }

    /// Gives the next pair, in the order of the sequential join: None where none of the pairs that are kept is within the
    /// punctuation, and where memory ran out in a step. It takes no memory.
    #[inline(always)]
    pub fn pair(&mut self) -> Option<Pair<P>>
        requires { (feed : FeedState) × GoesWith J.predicate self.old feed }
        ensures pair { (schedule : List Actors) (events : List (Event P)) (given : ℕ) (stands : StandsFor J.predicate self.old schedule events given) → result ≡ next_pair stands }
        ensures stands { (schedule : List Actors) (events : List (Event P)) (given : ℕ) → StandsFor J.predicate self.old schedule events given
            → StandsFor J.predicate self.new schedule events (given + length (option_to_list result)) }
        ensures goes { (feed : FeedState) → GoesWith J.predicate self.old feed → GoesWith J.predicate self.new feed }
        ensures kept { IfSome result (λ pair. IsPermutation self.old.kept (pair ∷ self.new.kept)) }
        ensures others { self.new ≡ record self.old { kept = self.new.kept } }
        ensures unchanged { IfNone result (self.new ≡ self.old) }
    {
        if self.over {
            return None;
        }
        self.kept.next_due(&self.collector)
    }

    /// Returns whether the chain is done: the driver took both closes, and of each core the report of its end was
    /// collected. The run is complete then, and where no pair is to be given, all pairs of the sequential join were.
    pub fn done(&self) -> bool
        requires { (feed : FeedState) × GoesWith J.predicate self.now feed }
        ensures { (result ≡ true) ↔ IsDone self.now.state }
    {
        self.driver.finished() && self.collector.ended()
    }

    /// Makes the driver's step: it asks the feed where no answer is known, or puts the next event, or the closes.
    // Called, so that the sweep around it stays small enough for its other steps to be compiled into it.
    #[inline(never)]
    fn admit<F: Feed<P>>(&mut self, feed: &mut F) -> Stepped
        requires goes { GoesWith J.predicate self.old (F.state feed.old) }
        requires going { self.old.state.over ≡ false }
        ensures step { Steps F.gives F.ready (J.predicate self.old.join) Actor.Admit self.old.state feed.old result self.new.state feed.new }
        ensures answers { was_asked Actor.Admit self.old.state.next (F.ready feed.old) result ≡ true → IfSome self.new.state.next (λ given. Answers given (F.state feed.old) (F.state feed.new)) }
        ensures others { self.new ≡ record self.old { state = self.new.state } }
        ensures goes { GoesWith J.predicate self.new (F.state feed.new) }
    {
        let Some(given) = &self.next else {
            self.next = Some(feed.next());
            return Stepped::Did;
        };
        let Given::Event(event) = given else {
            return self.close();
        };
        if let Some(why) = self.driver.waits(event) {
            return Stepped::NotEnabled(NotNow::Waits(why));
        }
        let Some(given) = mem::replace(&mut self.next, next_if_there(feed)) else {
            unreachable!()
        };
        let Given::Event(event) = given else {
            unreachable!()
        };
        let (port, msg) = self.driver.admit_now(event);
        self.links.put_in(port, self.cores.len(), msg);
        Stepped::Did
    }

    /// Makes the driver's step that puts the closes.
    fn close(&mut self) -> Stepped
        requires going { IsGoing J.predicate self.old }
        requires last { self.old.state.next ≡ Some Given.Stop }
        ensures step { (answer : FeedAnswer P) → StepsTo (J.predicate self.old.join) Actor.Admit answer self.old.state result self.new.state }
        ensures others { self.new ≡ record self.old { state = self.new.state } }
    {
        match self.driver.close() {
            Closing::Already => Stepped::NotEnabled(NotNow::Closed),
            Closing::Wait(count) => Stepped::NotEnabled(NotNow::Drains(count)),
            Closing::Send => {
                let cores = self.cores.len();
                self.links.put_in(Side::Left, cores, Msg::CloseL);
                self.links.put_in(Side::Right, cores, Msg::CloseR);
                Stepped::Did
            }
        }
    }

    /// Makes the driver's step that takes a message out at a port.
    #[inline(always)]
    fn receive(&mut self, port: Side) -> Stepped
        requires { IsGoing J.predicate self.old }
        ensures step { (answer : FeedAnswer P) → StepsTo (J.predicate self.old.join) (at_port port) answer self.old.state result self.new.state }
        ensures others { self.new ≡ record self.old { state = self.new.state } }
    {
        match self.links.take_out(port, self.cores.len()) {
            None => Stepped::NotEnabled(NotNow::Empty),
            Some(msg) => {
                self.driver.took(port, &msg);
                Stepped::Did
            }
        }
    }

    /// Takes a core's first report. The queue gives it up only once there is room for its pairs.
    #[inline(always)]
    fn collect(&mut self, core: CoreNo) -> Stepped
        requires { IsGoing J.predicate self.old }
        ensures step { (answer : FeedAnswer P) → StepsTo (J.predicate self.old.join) (Actor.Collect core) answer self.old.state result self.new.state }
        ensures join { self.new.join ≡ self.old.join }
        ensures gathers { Gathers (Actor.Collect core) self.old result self.new }
    {
        if usize::from(core.0) >= self.cores.len() {
            return Stepped::NotEnabled(NotNow::NoSuchCore);
        }
        self.collect_there(core)
    }

    /// Takes the first report of a core that is there, as `collect` does.
    #[inline(always)]
    fn collect_there(&mut self, core: CoreNo) -> Stepped
        requires going { IsGoing J.predicate self.old }
        requires within { core.0 < length self.old.state.cores }
        ensures step { (answer : FeedAnswer P) → StepsTo (J.predicate self.old.join) (Actor.Collect core) answer self.old.state result self.new.state }
        ensures join { self.new.join ≡ self.old.join }
        ensures gathers { Gathers (Actor.Collect core) self.old result self.new }
    {
        let place = usize::from(core.0);
        let Some(report) = self.reports.first_of(place) else {
            return Stepped::NotEnabled(NotNow::Empty);
        };
        if self.kept.keep(&self.collector, report).is_err() {
            self.over = true;
            return Stepped::Memory;
        }
        // taken before it is noted, so that its place needn't be looked for anew
        let Some(report) = self.reports.take_first(place) else {
            unreachable!()
        };
        self.collector.update_marks(core, &report);
        Stepped::Did
    }
}

/// Asks the feed for its next answer, if it is there.
#[inline(always)]
fn next_if_there<P, F: Feed<P>>(feed: &mut F) -> Option<Given<P>>
    ensures { (answer : FeedAnswer P) × (result ≡ if_there answer) × Tells F.gives F.ready F.state feed.old answer feed.new }
{
    if feed.is_ready() {
        Some(feed.next())
    } else {
        None
    }
}

/// Makes a core for each two stores, each at its place. Stores are taken from the ends of their lists, so the last
/// core is made first.
fn placed_cores<P: Share + Drop, J: Join<P> + Drop, S: Store<P, J> + Drop>(
    alloc: Global,
    join: &J,
    mut left: Vec<S>,
    mut right: Vec<S>,
) -> Result<Vec<Core<P, J, S>>, Memory>
    requires few { length left.items ≤ 64 }
    requires same { length right.items ≡ length left.items }
    requires left_empty { All (λ store. S.entries store ≡ []) left.items }
    requires right_empty { All (λ store. S.entries store ≡ []) right.items }
    requires left_suits { All (λ store. S.suits store Left join.now) left.items }
    requires right_suits { All (λ store. S.suits store Right join.now) right.items }
    ensures placed { IfOk result (λ cores. ArePlaced join.now (length left.items) 0 cores.items) }
    ensures empty { IfOk result (λ cores. map (state_of S.entries) cores.items ≡ replicate (length left.items) empty_state) }
{
    let count = left.len() as u16;
    let mut cores = Vec::with_capacity(alloc, left.len())?;
    while let Some(left_store) = left.pop() {
        let Some(right_store) = right.pop() else {
            unreachable!()
        };
        let place = CoreNo(left.len() as u16);
        push_core(
            alloc,
            &mut cores,
            join,
            left_store,
            right_store,
            place,
            count,
        )?;
    }
    cores.reverse();
    Ok(cores)
}

/// Adds the core at a place, with these stores of left and of right rows.
fn push_core<P: Share + Drop, J: Join<P> + Drop, S: Store<P, J> + Drop>(
    alloc: Global,
    made: &mut Vec<Core<P, J, S>>,
    join: &J,
    left: S,
    right: S,
    place: CoreNo,
    cores: u16,
) -> Result<(), Memory>
    requires place { place.0 < cores }
    requires most { cores ≤ 64 }
    requires left_empty { S.entries left ≡ [] }
    requires right_empty { S.entries right ≡ [] }
    requires left_suits { S.suits left Left join.now }
    requires right_suits { S.suits right Right join.now }
    ensures { OnOk result (IsOneMore (state_of S.entries) join.now place.0 cores made.old.items made.new.items) }
{
    let core = Core::new(join.share()?, left, right, place, cores, alloc);
    made.push(core)?;
    Ok(())
}
