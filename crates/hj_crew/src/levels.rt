//! The threads of a run: each is started by a level of its own, which joins it again.
ghost use Rattle.std.specs.Prelude.{◌≡◌, ◌<◌, ◌∷◌, ◌++◌, [], length, vec_capacity, vec_len};
ghost use Rattle.std.specs.Prelude.{IfErr, IfOk, IfNone, MatchOption};
ghost use Rattle.hj_crew.specs.Teams.{AppendsTeams, TeamStays};

use crate::begun::BegunRun;
use crate::bell::{Bell, Neighbours};
use crate::drive::{Halt, drive};
use crate::team::{Signals, Team, TeamContext};
use hj_base::{Gate, Share};
use hj_desk::Outlet;
use hj_msg::{Feed, Join, Store};
use std::snapshot::Snapshot;
use std::sync::Wait;
use std::sync::atomic::{AtomicBool, Ordering};
use std::thread::{Promise, PromisedHandle, Scope, Threads};
use std::time::Clock;

/// The promise of a thread: it hands back the team that it was given.
#[derive(Drop)]
struct SameTeam<T>(Snapshot<T>);

impl<P: Drop, J: Join<P>, S: Store<P, J>> Promise<Team<P, J, S>> for SameTeam<Team<P, J, S>> {
    ghost use Rattle.hj_crew.specs.Teams.{TeamStays};

    ghost kept_by = { λ promise team. TeamStays promise.0.value team };
}

/// A thread that turns a team.
type TeamThread<P, J, S> = PromisedHandle<Team<P, J, S>, SameTeam<Team<P, J, S>>>;

/// What all threads of a run use.
#[derive(Drop)]
pub(crate) struct RunContext<'s, G, T> {
    pub(crate) rt: &'s T,
    /// Whether the threads are to hand back their teams.
    pub(crate) stop: &'s AtomicBool,
    /// What the thread of each team is told.
    pub(crate) signals: &'s [Signals],
    /// The bell of the calling thread.
    pub(crate) bell: &'s Bell,
    /// How many teams, the first ones, the calling thread turns itself.
    pub(crate) kept: usize,
    /// In how many busy periods the calling thread takes the teams back and its pace is seen, where it may take them back before the run
    /// has ended.
    pub(crate) periods: Option<u32>,
    pub(crate) gate: &'s G,
}

impl<
    P: Share + Send + Drop,
    J: Join<P> + Send + Drop,
    S: Store<P, J> + Send + Drop,
    F: Feed<P>,
    O: Outlet<P>,
> BegunRun<P, J, S, F, O> {
    ghost use Rattle.hj_crew.specs.Begun.{AreGiven, CanGive};

    /// Starts a thread for the last of the teams, does so for the others, and lets the calling thread run once no team
    /// is left. Then the team comes back, behind those that are `done`. Where no thread can be made, or the calling thread
    /// is to turn the team, that goes among its `own` until then. Returns where the calling thread's rounds halted.
    pub(crate) fn start_from_last<
        's,
        E,
        G: Gate + Sync + 's,
        T: Threads + Wait + Clock + Sync + 's,
    >(&mut self, scope: &'s Scope<'s, E>, shared: &RunContext<'s, G, T>) -> Halt
    where
        P: 's,
        J: 's,
        S: 's,
        requires { CanGive F.state (length shared.now.signals.now) self.old }
        ensures { AreGiven F.gives F.state O.gave O.rests self.old result self.new }
    {
        let Some(team) = self.teams.pop() else {
            return drive(shared, &mut self.caller, self.own.as_mut_slice());
        };
        let started = shared.start(scope, self.teams.len(), team);
        let child = keep_refused(started, &mut self.own);
        let halt = self.start_from_last(scope, shared);
        let back = take_back(shared.rt, child, &mut self.own);
        self.done.push_reserved(back);
        halt
    }
}

/// Takes back a team: from its thread, once that has ended, or where it has none the last one of the calling thread's
/// `own`.
fn take_back<P: Drop, J: Join<P> + Drop, S: Store<P, J> + Drop, T: Threads>(
    rt: &T,
    child: Option<TeamThread<P, J, S>>,
    own: &mut Vec<Team<P, J, S>>,
) -> Team<P, J, S>
    requires { IfNone child (0 < length own.old.items) }
    ensures back { MatchOption child (own.old.items ≡ own.new.items ++ result ∷ [])
        (λ child. TeamStays child.promise.0.value result × (own.new.items ≡ own.old.items)) }
    ensures capacity { vec_capacity own.new ≡ vec_capacity own.old }
{
    match child {
        Some(child) => child.join(rt),
        None => {
            let Some(team) = own.pop() else {
                unreachable!()
            };
            team
        }
    }
}

/// Puts a team that no thread turns behind the calling thread's `own`.
fn keep_refused<P: Drop, J: Join<P> + Drop, S: Store<P, J> + Drop>(
    started: Result<TeamThread<P, J, S>, Team<P, J, S>>,
    own: &mut Vec<Team<P, J, S>>,
) -> Option<TeamThread<P, J, S>>
    requires { vec_len own.old < vec_capacity own.old }
    ensures given { (team : Team P J S) → IfOk started (λ child. child.promise.0.value ≡ team) → IfErr started (TeamStays team)
        → MatchOption result (AppendsTeams (team ∷ []) own.old.items own.new.items)
        (λ child. (child.promise.0.value ≡ team) × (own.new.items ≡ own.old.items)) }
    ensures capacity { vec_capacity own.new ≡ vec_capacity own.old }
{
    match started {
        Ok(child) => Some(child),
        Err(team) => {
            own.push_reserved(team);
            None
        }
    }
}

impl<'s, G: Gate + Sync + 's, T: Threads + Wait + Clock + Sync + 's> RunContext<'s, G, T> {
    /// Starts the thread of a team, which gets the signals at a place. Where none can be made, or the calling thread is to turn the
    /// team, that comes back at once.
    fn start<
        E,
        P: Share + Send + Drop + 's,
        J: Join<P> + Send + Drop + 's,
        S: Store<P, J> + Send + Drop + 's,
    >(
        &self,
        scope: &'s Scope<'s, E>,
        place: usize,
        team: Team<P, J, S>,
    ) -> Result<TeamThread<P, J, S>, Team<P, J, S>>
        requires { place < length self.now.signals.now }
        ensures started { IfOk result (λ child. child.promise.0.value ≡ team) }
        ensures refused { IfErr result (TeamStays team) }
    {
        let is_kept = place < self.kept;
        // it was set where an earlier thread of the team was refused
        self.signals[place].leave.store(is_kept, Ordering::SeqCst);
        if is_kept {
            return Err(team);
        }
        spawn(scope, self.context_at(place), team)
    }

    /// Returns what the thread of the team at a place uses.
    fn context_at(&self, place: usize) -> TeamContext<'s, G, T>
        requires { place < length self.now.signals.now }
    {
        TeamContext {
            rt: self.rt,
            stop: self.stop,
            signals: &self.signals[place],
            neighbours: self.neighbours_of(place),
            gate: self.gate,
        }
    }

    /// Returns the neighbours of the team at a place.
    fn neighbours_of(&self, place: usize) -> Neighbours<'s>
        requires { place < length self.now.signals.now }
    {
        let left = if place == 0 {
            self.bell
        } else {
            &self.signals[place - 1].bell
        };
        let right = match self.signals.get(place + 1) {
            Some(signals) => &signals.bell,
            None => self.bell,
        };
        Neighbours {
            left,
            right,
            caller: self.bell,
        }
    }
}

/// Starts a thread that turns a team with what it uses. Where none can be made, the team comes back at once, and is the calling thread's.
fn spawn<
    's,
    E,
    P: Share + Send + Drop + 's,
    J: Join<P> + Send + Drop + 's,
    S: Store<P, J> + Send + Drop + 's,
    G: Gate + Sync + 's,
    T: Wait + Clock + Sync + 's,
>(
    scope: &'s Scope<'s, E>,
    context: TeamContext<'s, G, T>,
    team: Team<P, J, S>,
) -> Result<TeamThread<P, J, S>, Team<P, J, S>>
    ensures started { IfOk result (λ child. child.promise.0.value ≡ team) }
    ensures refused { IfErr result (TeamStays team) }
{
    let signals = context.signals;
    let promise = SameTeam(Snapshot::of(&team));
    let turning = move || -> Team<P, J, S>
        ensures { TeamStays team result }
    { context.work(team) };
    match scope.spawn_with(promise, turning) {
        Ok(child) => Ok(child),
        Err(refused) => {
            signals.leave.store(true, Ordering::SeqCst);
            Err((refused.value)())
        }
    }
}
