//! The workers that one thread turns.
ghost use Rattle.std.specs.List.{AllZip};
ghost use Rattle.hj_worker.specs.Turning.{StaysItself};

use crate::bell::{Awaits, Bell, Neighbours};
use crate::pause::Pause;
use hj_base::{Gate, Share};
use hj_msg::{Join, Store};
use hj_worker::{Place, Turn, Worker};
use std::sync::Wait;
use std::sync::atomic::{AtomicBool, Ordering};
use std::time::Clock;

/// How many turns a worker makes at most before the next one of its team is turned.
const TURNS: u32 = 32;

/// The workers that one thread turns, one after another.
#[derive(Drop)]
pub(crate) struct Team<P: Drop, J: Join<P>, S: Store<P, J>> {
    pub(crate) workers: Vec<Worker<P, J, S>>,
}

/// How far a round of turns came.
#[derive(Clone, Copy)]
pub(crate) enum Progress {
    /// Something may have been put, and there may be more to do at once.
    GotOn,
    /// Memory ran out at a core, which reported it. There is nothing to do now.
    NoMemory,
    /// There is nothing to do until this comes.
    Waits(Awaits),
    /// There is nothing to do any more.
    Over,
}

impl Progress {
    /// Returns the progress of two parts together.
    pub(crate) fn and(self, other: Progress) -> Progress {
        match (self, other) {
            (Progress::GotOn, _) | (_, Progress::GotOn) => Progress::GotOn,
            (Progress::NoMemory, _) | (_, Progress::NoMemory) => Progress::NoMemory,
            (Progress::Waits(Awaits::Message), Progress::Waits(other)) => Progress::Waits(other),
            (Progress::Waits(awaits), _) | (_, Progress::Waits(awaits)) => Progress::Waits(awaits),
            (Progress::Over, Progress::Over) => Progress::Over,
        }
    }
}

impl<P: Share + Drop, J: Join<P> + Drop, S: Store<P, J> + Drop> Team<P, J, S> {
    /// Turns each worker as long as it gets on, up to a bound.
    pub(crate) fn round<G: Gate>(&mut self, gate: &G) -> Progress
        ensures { AllZip StaysItself self.old.workers.items self.new.workers.items }
    {
        let mut progress = Progress::Over;
        for worker in self.workers.iter_mut() {
            progress = progress.and(turn_on(worker, gate));
        }
        progress
    }
}

/// Turns a worker as long as it gets on, up to a bound.
fn turn_on<P: Share + Drop, J: Join<P> + Drop, S: Store<P, J> + Drop, G: Gate>(
    worker: &mut Worker<P, J, S>,
    gate: &G,
) -> Progress
    ensures { StaysItself worker.old worker.new }
{
    for turns in 0..TURNS {
        if worker.spent() {
            return after(turns, Progress::Over);
        }
        match worker.turn(gate) {
            Turn::Did => (),
            last => return after(turns, left_by(last)),
        }
    }
    Progress::GotOn
}

/// Returns what there is to do after a turn.
fn left_by(turn: Turn) -> Progress {
    match turn {
        // links have room for all that may be outstanding
        Turn::Did | Turn::Blocked(Place::Link(_)) => Progress::GotOn,
        Turn::Idle => Progress::Waits(Awaits::Message),
        Turn::Blocked(Place::Reports) => Progress::Waits(Awaits::Room),
        Turn::Ended => Progress::Over,
        Turn::NoMemory => Progress::NoMemory,
    }
}

/// Turns a worker this many times and a last time, and returns how far it came; the last turn is one in which it put
/// nothing.
fn after(turns: u32, last: Progress) -> Progress {
    if turns > 0 { Progress::GotOn } else { last }
}

/// What a started thread is told.
#[derive(Drop)]
pub(crate) struct Signals {
    /// Whether the calling thread turns the team. Then a thread is to hand it back at once.
    pub(crate) leave: AtomicBool,
    /// Rings where there may be something to do.
    pub(crate) bell: Bell,
}

impl Signals {
    /// Makes those of a team that has a thread.
    pub(crate) fn new() -> Self {
        Signals {
            leave: AtomicBool::new(false),
            bell: Bell::new(),
        }
    }
}

/// What the thread of a team uses.
#[derive(Drop)]
pub(crate) struct TeamContext<'s, G, T> {
    pub(crate) rt: &'s T,
    /// Whether the threads are to hand back their teams.
    pub(crate) stop: &'s AtomicBool,
    pub(crate) signals: &'s Signals,
    pub(crate) neighbours: Neighbours<'s>,
    pub(crate) gate: &'s G,
}

impl<G: Gate, T: Wait + Clock> TeamContext<'_, G, T> {
    /// Turns a team until it is over, or is to stop or to leave. It is what a started thread does. After a round that got on it rings
    /// its neighbours, which may wait for what was put. So nothing that was put waits for a ring when it sleeps or ends.
    pub(crate) fn work<P: Share + Drop, J: Join<P> + Drop, S: Store<P, J> + Drop>(
        self,
        team: Team<P, J, S>,
    ) -> Team<P, J, S>
        ensures { AllZip StaysItself team.workers.items result.workers.items }
    {
        let mut team = team;
        let mut pause = Pause::new(&self.signals.bell);
        for _ in self.rt.forever() {
            if self.stop.load(Ordering::SeqCst) || self.signals.leave.load(Ordering::SeqCst) {
                return team;
            }
            match team.round(self.gate) {
                Progress::GotOn => {
                    self.neighbours.ring();
                    pause.reset();
                }
                Progress::NoMemory => {
                    self.neighbours.caller.ring();
                    pause.wait(self.rt, Awaits::Message);
                }
                Progress::Waits(awaits) => pause.wait(self.rt, awaits),
                Progress::Over => return team,
            }
        }
        team
    }
}
