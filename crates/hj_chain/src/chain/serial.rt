ghost use Rattle.std.specs.Prelude.{◌≡◌, ◌↔◌, ◌⊎◌, ◌+◌, ◌-◌, ◌%◌, ◌<◌, ◌≤◌, ◌++◌, true, false, ℕ, List, length, slice_get, is_none, take, drop, filter, Bool};
ghost use Rattle.hj_msg.specs.declared.event.Event.{Event};
ghost use Rattle.hj_msg.specs.Feed.{FeedState, GoesOver};
ghost use Rattle.hj_msg.specs.GoesOn.{GoesOnWith};
ghost use Rattle.hj_chain.specs.declared.actor.Actor.{Actor as Actors};
ghost use Rattle.hj_chain.specs.Chain.{admit_cause};
ghost use Rattle.hj_chain.specs.Progress.{IsDone};
ghost use Rattle.hj_chain.specs.Reached.{StandsFor};
ghost use Rattle.hj_chain.specs.Serial.{RunsAll, RunsSerially, actors, drawn_from, enabled, in_turn, is_enabled, would_wait};
ghost use Rattle.hj_chain.specs.Steps.{GoesWith};
ghost use Rattle.hj_chain.specs.Sweep.{Drains};

use super::sweep::Sweep;
use crate::{Actor, Chain, Chooser, Stepped};
use hj_base::{Gate, Lcg, Share, Side};
use hj_driver::Closing;
use hj_msg::{Drain, Drained, Feed, Fin, Given, Join, Store};

impl<P: Share + Drop, J: Join<P> + Drop, S: Store<P, J> + Drop> Chain<P, J, S> {
    /// Returns how many actors are enabled: 0 exactly where the chain is done, or memory ran out in a step.
    pub fn enabled(&self) -> u32
        ensures count { result ≡ length (enabled self.now.state) }
        ensures none { (schedule : List Actors) (events : List (Event P)) (given : ℕ) → StandsFor J.predicate self.now schedule events given
            → (result ≡ 0) ↔ (IsDone self.now.state ⊎ (self.now.state.over ≡ true)) }
    {
        let cores = self.cores.len();
        let mut count = 0;
        for place in 0..Actor::count(cores) {
            if self.is_enabled(Actor::at(place, cores)) {
                count += 1;
            }
        }
        count
    }

    /// Returns the enabled actor at a place, counted from 0 in the order of all actors: the driver's put, its left
    /// port, its right port, the left end and then the right end of each core, and then the collection of each core's
    /// reports. None exactly at or past the number of enabled ones.
    pub fn nth(&self, at: u32) -> Option<Actor>
        ensures { result ≡ slice_get (enabled self.now.state) at }
    {
        let cores = self.cores.len();
        let mut passed = 0;
        for place in 0..Actor::count(cores) {
            let actor = Actor::at(place, cores);
            if self.is_enabled(actor) {
                if passed == at {
                    return Some(actor);
                }
                passed += 1;
            }
        }
        None
    }

    /// Makes steps until all is done, one enabled actor after the other, each chosen by a rule. The pairs go to the drain in the
    /// order of the sequential join, each as soon as it is due; the first one that the drain refuses ends the run. Before each
    /// step of a core the gate is passed, with the core and the number of steps that this call made before; this number stays
    /// at 2^64 - 1 once it is there. The feed is asked for an event that isn't there yet only where nothing else is to do. What it gives
    /// keeps well-formed events well formed.
    pub fn run_serial<F: Feed<P>, D: Drain<P>, G: Gate>(
        &mut self,
        chooser: Chooser,
        feed: &mut F,
        drain: &mut D,
        gate: &G,
    ) -> Fin
        requires { GoesWith J.predicate self.old (F.state feed.old) }
        ensures runs { (schedule : List Actors) (events : List (Event P)) (given : ℕ) → StandsFor J.predicate self.old schedule events given
            → RunsSerially F.gives F.ready D.takes J.predicate chooser schedule events given self.old feed.old drain.old result self.new feed.new drain.new }
        ensures join { self.new.join ≡ self.old.join }
        ensures goes { GoesWith J.predicate self.new (F.state feed.new) }
        ensures fed { (before taken : List (Event P)) → GoesOnWith before (F.state feed.old) → GoesOver F.gives feed.old taken feed.new → GoesOnWith (before ++ taken) (F.state feed.new) }
    {
        match chooser {
            Chooser::InTurn => self.run_in_turn(feed, drain, gate),
            Chooser::Seeded(seed) => self.run_drawn(seed, feed, drain, gate),
        }
    }

    /// Makes the steps of a serial run in turn, by a sweep over the actors: each one is tried once, and makes its step if it is
    /// enabled.
    fn run_in_turn<F: Feed<P>, D: Drain<P>, G: Gate>(
        &mut self,
        feed: &mut F,
        drain: &mut D,
        gate: &G,
    ) -> Fin
        requires { GoesWith J.predicate self.old (F.state feed.old) }
        ensures { RunsAll F.gives F.ready D.takes F.state J.predicate Chooser.InTurn self.old feed.old drain.old result self.new feed.new drain.new }
    {
        if self.release(drain) == Drained::Refused {
            return Fin::Refused;
        }
        if self.over {
            return Fin::Memory;
        }
        let mut sweep = Sweep {
            before: 0,
            steps: 0,
            moved: true,
        };
        while self.try_put(feed, &mut sweep) {
            self.try_port(Side::Left, &mut sweep);
            self.try_port(Side::Right, &mut sweep);
            if !self.try_ends(gate, &mut sweep) {
                return Fin::Memory;
            }
            if let Some(fin) = self.try_reports(drain, &mut sweep) {
                return fin;
            }
        }
        Fin::Done
    }

    /// Makes the steps of a serial run whose actors a generator names that begins with this seed.
    fn run_drawn<F: Feed<P>, D: Drain<P>, G: Gate>(
        &mut self,
        seed: u64,
        feed: &mut F,
        drain: &mut D,
        gate: &G,
    ) -> Fin
        requires { GoesWith J.predicate self.old (F.state feed.old) }
        ensures { RunsAll F.gives F.ready D.takes F.state J.predicate (Chooser.Seeded seed) self.old feed.old drain.old result self.new feed.new drain.new }
    {
        let mut lcg = Lcg::new(seed);
        let mut made: u64 = 0;
        if self.release(drain) == Drained::Refused {
            return Fin::Refused;
        }
        while let Some(actor) = self.drawn(lcg.draw(), self.would_wait(feed)) {
            if self.step_past(actor, feed, gate, made) == Stepped::Memory {
                return Fin::Memory;
            }
            made = made.saturating_add(1);
            if let Actor::Collect(_) = actor {
                if self.release(drain) == Drained::Refused {
                    return Fin::Refused;
                }
            }
        }
        if self.over { Fin::Memory } else { Fin::Done }
    }

    /// Gives the pairs that are due to the drain, one after the other, up to the first one that it refuses.
    #[inline(always)]
    pub(super) fn release<D: Drain<P>>(&mut self, drain: &mut D) -> Drained
        requires { (feed : FeedState) × GoesWith J.predicate self.old feed }
        ensures { Drains D.takes J.predicate self.old drain.old result self.new drain.new }
    {
        if self.over {
            return Drained::Kept;
        }
        self.kept.give_due(&self.collector, drain)
    }

    /// Returns whether an actor is enabled.
    #[inline(always)]
    fn is_enabled(&self, actor: Actor) -> bool
        ensures { result ≡ is_enabled self.now.state actor }
    {
        if self.over {
            return false;
        }
        let cores = self.cores.len();
        match actor {
            Actor::Admit => self.may_put(),
            Actor::PortLeft => self.links.outgoing(Side::Left, cores).is_some(),
            Actor::PortRight => self.links.outgoing(Side::Right, cores).is_some(),
            Actor::Core(core, end) => {
                let place = usize::from(core.0);
                place < cores
                    && self.links.incoming_if_there(place, end).is_some()
                    && !self.reports.is_full(place)
            }
            Actor::Collect(core) => {
                let place = usize::from(core.0);
                place < cores && self.reports.first(place).is_some()
            }
        }
    }

    /// Returns whether the driver would wait for the feed.
    #[inline(always)]
    fn would_wait<F: Feed<P>>(&self, feed: &F) -> bool
        ensures { result ≡ would_wait (F.ready feed.now) self.now.state }
    {
        self.next.is_none() && !feed.is_ready()
    }

    /// Returns whether the driver may put the next event, or the closes where none is to come, or ask the feed which
    /// it is.
    #[inline(always)]
    fn may_put(&self) -> bool
        ensures { result ≡ is_none (admit_cause self.now.state.driver self.now.state.next) }
    {
        match &self.next {
            None => true,
            Some(Given::Event(event)) => self.driver.waits(event).is_none(),
            Some(Given::Stop) => self.driver.closing() == Closing::Send,
        }
    }

    /// Returns the enabled actor that a random number names; not the driver's put where it would wait, if there is
    /// another.
    pub fn drawn(&self, draw: u64, waits: bool) -> Option<Actor>
        ensures { (ready : Bool) → waits ≡ would_wait ready self.now.state → result ≡ slice_get (drawn_from ready self.now.state) (draw % length (drawn_from ready self.now.state)) }
    {
        let enabled = self.enabled();
        if enabled == 0 {
            return None;
        }
        if waits && enabled > 1 {
            return self.nth(1 + (draw % u64::from(enabled - 1)) as u32);
        }
        self.nth((draw % u64::from(enabled)) as u32)
    }

    /// Returns the first enabled actor from this place on, all the way round; the driver's put comes last where it
    /// would wait.
    #[cold]
    pub fn first_from(&self, place: usize, waits: bool) -> Option<Actor>
        requires { place ≤ length (actors (length self.now.state.cores)) }
        ensures { result ≡ slice_get (filter (is_enabled self.now.state) (in_turn (length self.now.state.cores) waits place)) 0 }
    {
        if !waits {
            return self.first_round(place, 0);
        }
        match self.first_round(place.max(1), 1) {
            None => self.first_enabled(0, 1),
            found => found,
        }
    }

    /// Returns the first enabled actor from this place on, all the way round, without the first `passed` actors.
    #[inline(always)]
    fn first_round(&self, place: usize, passed: usize) -> Option<Actor>
        requires { place ≤ length (actors (length self.now.state.cores)) }
        ensures { result ≡ slice_get (filter (is_enabled self.now.state) (drop place (actors (length self.now.state.cores)) ++ take (place - passed) (drop passed (actors (length self.now.state.cores))))) 0 }
    {
        match self.first_enabled(place, Actor::count(self.cores.len())) {
            None => self.first_enabled(passed, place),
            found => found,
        }
    }

    /// Returns the first enabled actor among those from this place on and before that one.
    #[inline(always)]
    fn first_enabled(&self, from: usize, to: usize) -> Option<Actor>
        requires { to ≤ length (actors (length self.now.state.cores)) }
        ensures { result ≡ slice_get (filter (is_enabled self.now.state) (take (to - from) (drop from (actors (length self.now.state.cores))))) 0 }
    {
        let cores = self.cores.len();
        for place in from..to {
            let actor = Actor::at(place, cores);
            if self.is_enabled(actor) {
                return Some(actor);
            }
        }
        None
    }
}
