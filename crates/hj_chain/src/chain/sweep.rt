ghost use Rattle.std.specs.Prelude.{◌≡◌, ◌⊎◌, ◌+◌, ◌*◌, ◌<◌, ◌≤◌, true, false, ℕ, Bool, length, IfSome, IfNone};
ghost use Rattle.hj_chain.specs.Chain.{Contents};
ghost use Rattle.hj_chain.specs.declared.actor.Actor.TheVariants.{Core as AtCore, Collect as AtReports};
ghost use Rattle.hj_chain.specs.Serial.{would_wait};
ghost use Rattle.hj_chain.specs.Steps.{at_port, GoesWith, IsGoing};
ghost use Rattle.hj_chain.specs.Sweep.{Collects, EndsCollecting, Puts, RunsOut, StandsThere, Sweeps, SweepsPast};

use super::Chain;
use crate::Stepped;
use hj_base::{CoreNo, Gate, Share, Side};
use hj_msg::{Drain, Drained, Feed, Fin, Join, Store};

/// How far a sweep over the actors has come.
#[derive(Clone, Copy, Debug)]
pub(super) struct Sweep {
    /// How many steps were made before this round; it stays at 2^64 - 1 once it is there.
    pub(super) before: u64,
    /// How many were made in this round: one of each of its 195 actors at most, so that this never wraps.
    pub(super) steps: u32,
    /// Whether one was made in this round.
    pub(super) moved: bool,
}

impl Sweep {
    /// Returns how many steps were made in all; it stays at 2^64 - 1 once it is there.
    #[inline(always)]
    fn made(&self) -> u64 {
        self.before.saturating_add(u64::from(self.steps))
    }

    /// Takes note of a step.
    // The sum is made where a gate asks for it: an open one never does, and most steps come to no gate.
    #[inline(always)]
    fn step(&mut self)
        ensures { self.new.moved ≡ true }
    {
        self.steps = self.steps.wrapping_add(1);
        self.moved = true;
    }
}

impl<P: Share + Drop, J: Join<P> + Drop, S: Store<P, J> + Drop> Chain<P, J, S> {
    /// Begins a round with the driver's put; where it would wait, it is passed over if a step was made in the round before. Returns
    /// false where nothing was done in that round, nor now.
    #[inline(always)]
    pub(super) fn try_put<F: Feed<P>>(&mut self, feed: &mut F, sweep: &mut Sweep) -> bool
        requires goes { GoesWith J.predicate self.old (F.state feed.old) }
        requires going { self.old.state.over ≡ false }
        ensures puts { Puts F.gives F.ready F.state J.predicate sweep.old.moved self.old feed.old result sweep.new.moved self.new feed.new }
        ensures some { 1 ≤ self.old.state.driver.flight }
    {
        let moved = sweep.moved;
        *sweep = Sweep {
            before: sweep.made(),
            steps: 0,
            moved: false,
        };
        if self.is_put_last(moved, feed) {
            return true;
        }
        match self.admit(feed) {
            Stepped::Did => {
                sweep.step();
                true
            }
            _ => moved,
        }
    }

    /// Returns whether the driver's put comes last of all: it would wait, and a step was made in the round before.
    #[inline(always)]
    fn is_put_last<F: Feed<P>>(&self, moved: bool, feed: &F) -> bool
        ensures last { result ≡ true → (moved ≡ true) × (would_wait (F.ready feed.now) self.now.state ≡ true) }
        ensures tried { result ≡ false → (would_wait (F.ready feed.now) self.now.state ≡ false) ⊎ (moved ≡ false) }
        ensures some { 1 ≤ self.now.state.driver.flight }
    {
        self.next.is_none() && moved && !feed.is_ready()
    }

    /// Tries the driver's port at an end.
    #[inline(always)]
    pub(super) fn try_port(&mut self, port: Side, sweep: &mut Sweep)
        requires { IsGoing J.predicate self.old }
        ensures going { IsGoing J.predicate self.new }
        ensures cores { length self.new.state.cores ≡ length self.old.state.cores }
        ensures sweeps { SweepsPast J.predicate (at_port port) sweep.old.moved self.old sweep.new.moved self.new }
    {
        match self.receive(port) {
            Stepped::Did => sweep.step(),
            _ => {}
        }
    }

    /// Tries the ends of each core, from the first core to the last one: its left end, and then its right end. Returns whether there
    /// was memory for their steps; where it ran out in one, no other is tried behind it.
    #[inline(always)]
    pub(super) fn try_ends<G: Gate>(&mut self, gate: &G, sweep: &mut Sweep) -> bool
        requires { IsGoing J.predicate self.old }
        ensures going { result ≡ true → IsGoing J.predicate self.new }
        ensures cores { result ≡ true → length self.new.state.cores ≡ length self.old.state.cores }
        ensures sweeps { result ≡ true → (first : ℕ) (before : Bool) (begun : Contents P J) → Sweeps J.predicate first before begun 3 sweep.old.moved self.old
            → Sweeps J.predicate first before begun (2 * length self.old.state.cores + 3) sweep.new.moved self.new }
        ensures runs_out { result ≡ false → (first : ℕ) (before : Bool) (begun : Contents P J) → Sweeps J.predicate first before begun 3 sweep.old.moved self.old → RunsOut J.predicate first before begun self.new }
    {
        for place in 0..self.cores.len() {
            let core = CoreNo(place as u16);
            if !self.try_end(core, Side::Left, gate, sweep) {
                return false;
            }
            if !self.try_end(core, Side::Right, gate, sweep) {
                return false;
            }
        }
        true
    }

    /// Tries an end of a core that is there. Returns whether there was memory for its step.
    #[inline(always)]
    fn try_end<G: Gate>(&mut self, core: CoreNo, end: Side, gate: &G, sweep: &mut Sweep) -> bool
        requires going { IsGoing J.predicate self.old }
        requires within { core.0 < length self.old.state.cores }
        ensures going { result ≡ true → IsGoing J.predicate self.new }
        ensures cores { result ≡ true → length self.new.state.cores ≡ length self.old.state.cores }
        ensures sweeps { result ≡ true → SweepsPast J.predicate (AtCore core end) sweep.old.moved self.old sweep.new.moved self.new }
        ensures runs_out { result ≡ false → (first at : ℕ) (before : Bool) (begun : Contents P J) → StandsThere self.old at (AtCore core end) → Sweeps J.predicate first before begun at sweep.old.moved self.old
            → RunsOut J.predicate first before begun self.new }
    {
        match self.turn_there(core, end, gate, sweep.made()) {
            Stepped::Memory => false,
            Stepped::NotEnabled(_) => true,
            Stepped::Did => {
                sweep.step();
                true
            }
        }
    }

    /// Tries the collection of each core's reports, from the first core to the last one; the pairs that are due behind it go to the
    /// drain. Returns how the run ends, if it ends here.
    #[inline(always)]
    pub(super) fn try_reports<D: Drain<P>>(
        &mut self,
        drain: &mut D,
        sweep: &mut Sweep,
    ) -> Option<Fin>
        requires { IsGoing J.predicate self.old }
        ensures collects { IfNone result ((first : ℕ) (before : Bool) (begun : Contents P J) (unfilled : D) → Collects D.takes J.predicate first before begun unfilled (2 * length self.old.state.cores + 3) sweep.old.moved self.old drain.old
            → Collects D.takes J.predicate first before begun unfilled (3 * length self.old.state.cores + 3) sweep.new.moved self.new drain.new) }
        ensures ends { IfSome result (λ fin. (first : ℕ) (before : Bool) (begun : Contents P J) (unfilled : D) → Collects D.takes J.predicate first before begun unfilled (2 * length self.old.state.cores + 3) sweep.old.moved self.old drain.old
            → EndsCollecting D.takes J.predicate first before begun unfilled fin self.new drain.new) }
    {
        for place in 0..self.cores.len() {
            if let Some(fin) = self.try_report(CoreNo(place as u16), drain, sweep) {
                return Some(fin);
            }
        }
        None
    }

    /// Tries the collection of the first report of a core that is there; the pairs that are due behind it go to the drain. Returns how
    /// the run ends, if it ends here.
    #[inline(always)]
    fn try_report<D: Drain<P>>(
        &mut self,
        core: CoreNo,
        drain: &mut D,
        sweep: &mut Sweep,
    ) -> Option<Fin>
        requires going { IsGoing J.predicate self.old }
        requires within { core.0 < length self.old.state.cores }
        ensures going { IfNone result (IsGoing J.predicate self.new) }
        ensures cores { IfNone result (length self.new.state.cores ≡ length self.old.state.cores) }
        ensures collects { IfNone result ((first at : ℕ) (before : Bool) (begun : Contents P J) (unfilled : D) → StandsThere self.old at (AtReports core)
            → Collects D.takes J.predicate first before begun unfilled at sweep.old.moved self.old drain.old → Collects D.takes J.predicate first before begun unfilled (at + 1) sweep.new.moved self.new drain.new) }
        ensures ends { IfSome result (λ fin. (first at : ℕ) (before : Bool) (begun : Contents P J) (unfilled : D) → StandsThere self.old at (AtReports core)
            → Collects D.takes J.predicate first before begun unfilled at sweep.old.moved self.old drain.old → EndsCollecting D.takes J.predicate first before begun unfilled fin self.new drain.new) }
    {
        match self.collect_there(core) {
            Stepped::Memory => Some(Fin::Memory),
            Stepped::NotEnabled(_) => None,
            Stepped::Did => {
                sweep.step();
                match self.release(drain) {
                    Drained::Refused => Some(Fin::Refused),
                    Drained::Kept => None,
                }
            }
        }
    }
}
