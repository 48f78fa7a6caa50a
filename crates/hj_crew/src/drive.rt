//! The calling thread of a run: its rounds, and the turns of the workers that no thread turns.
ghost use Rattle.std.specs.Prelude.{◌≤◌, length};
ghost use Rattle.std.specs.List.{AllZip};
ghost use Rattle.hj_desk.specs.Caller.{GoesRound};
ghost use Rattle.hj_desk.specs.Desk.{Stands};
ghost use Rattle.hj_crew.specs.Halt.{round_of};
ghost use Rattle.hj_crew.specs.Teams.{TeamStays};

use crate::bell::Awaits;
use crate::levels::RunContext;
use crate::load::Load;
use crate::pause::Pause;
use crate::team::{Progress, Signals, Team};
use crate::turners::RunLoad;
use hj_base::{Gate, Share};
use hj_desk::{Caller, Outlet, Round};
use hj_msg::{Feed, Fin, Join, Store};
use std::sync::Wait;
use std::sync::atomic::Ordering;
use std::time::{Clock, Instant};

/// Where the calling thread's rounds halt.
#[derive(Clone, Copy)]
pub(crate) enum Halt {
    /// The run has ended.
    Over(Fin),
    /// The run goes on, and this was seen of it.
    GoesOn(RunLoad),
}

/// What stands beside the calling thread while it makes its rounds: threads, or none.
trait Beside<T> {
    /// Returns what is seen of the run, up to which so many turns were made, where the rounds are to halt before its end.
    fn look(&self, rt: &T, load: &mut Load, turns: u64) -> Option<RunLoad>;

    /// Is told that a round got on.
    fn got_on(&mut self);

    /// Waits after a round that found nothing to do.
    fn wait(&mut self, rt: &T);
}

/// The threads that turn teams, and the calling thread's pause.
#[derive(Drop)]
struct AtWork<'s> {
    signals: &'s [Signals],
    pause: Pause<'s>,
}

impl<T: Wait + Clock> Beside<T> for AtWork<'_> {
    fn look(&self, rt: &T, load: &mut Load, turns: u64) -> Option<RunLoad> {
        if load.is_told() && self.pause.is_crowded() {
            return Some(RunLoad::Crowded);
        }
        load.end_round(rt, turns)
    }

    fn got_on(&mut self) {
        ring_teams(self.signals);
        self.pause.reset();
    }

    fn wait(&mut self, rt: &T) {
        self.pause.wait(rt, Awaits::Message);
    }
}

/// No thread: the calling thread turns all teams.
#[derive(Drop)]
struct Nobody;

impl<T: Clock> Beside<T> for Nobody {
    fn look(&self, rt: &T, load: &mut Load, turns: u64) -> Option<RunLoad> {
        match load.end_round(rt, turns) {
            Some(RunLoad::Busy(pace)) => Some(RunLoad::Busy(pace)),
            // a thread alone waits for the feed too
            _ => None,
        }
    }

    fn got_on(&mut self) {}

    fn wait(&mut self, _rt: &T) {}
}

/// Makes rounds until the run has ended, and tells how. Between them it turns the teams of its `own`. After a round that got on it
/// rings the threads, where they may wait for what it did. It waits at its own bell. Where the calling thread may take the teams
/// back, it halts before the run has ended where other programs want the processors, where there is little to do, and where its pace is
/// to be seen. Wherever it halts every thread was told to hand back its team.
pub(crate) fn drive<
    P: Share + Drop,
    J: Join<P> + Drop,
    S: Store<P, J> + Drop,
    F: Feed<P>,
    O: Outlet<P>,
    G: Gate,
    T: Wait + Clock,
>(shared: &RunContext<'_, G, T>, caller: &mut Caller<P, F, O>, own: &mut [Team<P, J, S>]) -> Halt
    requires stands { Stands caller.old.desk (F.state caller.old.feed) }
    requires few { length caller.old.desk.reports.items ≤ 64 }
    ensures goes { GoesRound F.gives F.state O.gave O.rests (round_of result) caller.old caller.new }
    ensures own { AllZip TeamStays own.old own.new }
{
    let mut threads = AtWork {
        signals: shared.signals,
        pause: Pause::new(shared.bell),
    };
    let mut load = Load::new(shared.periods);
    let halt = make_rounds(shared.rt, caller, own, shared.gate, &mut load, &mut threads);
    call_back(shared);
    halt
}

/// Makes rounds until the run has ended, and tells how. Between them it turns these teams, which are all: no thread turns one. With
/// `periods` it halts before the run has ended behind so many periods of time in which it was busy, and tells its pace in the last one.
pub(crate) fn drive_alone<
    P: Share + Drop,
    J: Join<P> + Drop,
    S: Store<P, J> + Drop,
    F: Feed<P>,
    O: Outlet<P>,
    G: Gate,
    T: Wait + Clock,
>(
    rt: &T,
    caller: &mut Caller<P, F, O>,
    teams: &mut [Team<P, J, S>],
    gate: &G,
    periods: Option<u32>,
) -> Halt
    requires stands { Stands caller.old.desk (F.state caller.old.feed) }
    requires few { length caller.old.desk.reports.items ≤ 64 }
    ensures goes { GoesRound F.gives F.state O.gave O.rests (round_of result) caller.old caller.new }
    ensures teams { AllZip TeamStays teams.old teams.new }
{
    let mut load = Load::new(periods);
    let mut nobody = Nobody;
    make_rounds(rt, caller, teams, gate, &mut load, &mut nobody)
}

/// Makes rounds until the run has ended, or what is seen of it says that they are to halt. Between them it turns the teams of the
/// calling thread's `own`.
fn make_rounds<
    P: Share + Drop,
    J: Join<P> + Drop,
    S: Store<P, J> + Drop,
    F: Feed<P>,
    O: Outlet<P>,
    G: Gate,
    T: Wait + Clock,
    B: Beside<T>,
>(
    rt: &T,
    caller: &mut Caller<P, F, O>,
    own: &mut [Team<P, J, S>],
    gate: &G,
    load: &mut Load,
    beside: &mut B,
) -> Halt
    requires stands { Stands caller.old.desk (F.state caller.old.feed) }
    requires few { length caller.old.desk.reports.items ≤ 64 }
    ensures goes { GoesRound F.gives F.state O.gave O.rests (round_of result) caller.old caller.new }
    ensures own { AllZip TeamStays own.old own.new }
{
    for _ in rt.forever() {
        if let Some(seen) = beside.look(rt, load, caller.desk.turns) {
            return Halt::GoesOn(seen);
        }
        match round_of_all(rt, caller, own, gate, load) {
            Round::Over(fin) => return Halt::Over(fin),
            Round::GotOn => beside.got_on(),
            Round::Waits => beside.wait(rt),
        }
    }
    unreachable!()
}

/// Tells every thread to hand back its team.
fn call_back<G, T>(shared: &RunContext<'_, G, T>) {
    shared.stop.store(true, Ordering::SeqCst);
    wake_all(shared.signals);
}

/// Wakes each thread.
fn wake_all(signals: &[Signals]) {
    for signals in signals {
        signals.bell.wake();
    }
}

/// Rings the threads after a round of the calling thread: it may have put messages for the teams beside its ends and its own, and made
/// room for the reports of all.
fn ring_teams(signals: &[Signals]) {
    for (place, of_team) in signals.iter().enumerate() {
        let is_beside = place == 0
            || is_callers(signals.get(place - 1))
            || is_callers(signals.get(place + 1));
        if is_beside {
            of_team.bell.ring();
        } else {
            of_team.bell.ring_for_room();
        }
    }
}

/// Returns whether what stands at a place is the calling thread's: its end of the chain, or a team that it turns.
fn is_callers(signals: Option<&Signals>) -> bool {
    match signals {
        Some(signals) => signals.leave.load(Ordering::SeqCst),
        None => true,
    }
}

/// Does one round of the calling thread, and then one of each team, where the run goes on. Notes for how long it may have waited for
/// the feed.
fn round_of_all<
    P: Share + Drop,
    J: Join<P> + Drop,
    S: Store<P, J> + Drop,
    F: Feed<P>,
    O: Outlet<P>,
    G: Gate,
    T: Clock,
>(
    rt: &T,
    caller: &mut Caller<P, F, O>,
    own: &mut [Team<P, J, S>],
    gate: &G,
    load: &mut Load,
) -> Round
    requires stands { Stands caller.old.desk (F.state caller.old.feed) }
    requires few { length caller.old.desk.reports.items ≤ 64 }
    ensures goes { GoesRound F.gives F.state O.gave O.rests result caller.old caller.new }
    ensures own { AllZip TeamStays own.old own.new }
{
    match timed_round(rt, caller, load) {
        Round::Over(fin) => Round::Over(fin),
        Round::GotOn => {
            turn_all(own, gate);
            Round::GotOn
        }
        Round::Waits => {
            if turn_all(own, gate) {
                Round::GotOn
            } else {
                Round::Waits
            }
        }
    }
}

/// Does one round of the calling thread, and notes how long that took where it may have waited for the feed.
fn timed_round<P: Share + Drop, F: Feed<P>, O: Outlet<P>, T: Clock>(
    rt: &T,
    caller: &mut Caller<P, F, O>,
    load: &mut Load,
) -> Round
    requires stands { Stands caller.old.desk (F.state caller.old.feed) }
    requires few { length caller.old.desk.reports.items ≤ 64 }
    ensures goes { GoesRound F.gives F.state O.gave O.rests result caller.old caller.new }
{
    let may_wait = caller.desk.is_unasked() && !caller.feed.is_ready();
    let begun = if may_wait {
        Instant::now(rt).ok()
    } else {
        None
    };
    let round = caller.round();
    if let Some(begun) = begun {
        load.add_wait(rt, begun);
    }
    round
}

/// Does a round of each team, and returns whether one got on.
fn turn_all<P: Share + Drop, J: Join<P> + Drop, S: Store<P, J> + Drop, G: Gate>(
    teams: &mut [Team<P, J, S>],
    gate: &G,
) -> bool
    ensures { AllZip TeamStays teams.old teams.new }
{
    let mut got_on = false;
    for team in teams.iter_mut() {
        if matches!(team.round(gate), Progress::GotOn | Progress::NoMemory) {
            got_on = true;
        }
    }
    got_on
}
