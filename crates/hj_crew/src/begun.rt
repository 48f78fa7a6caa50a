//! What a crew does up to the end of a run: now threads turn its teams, and now the calling thread.
ghost use Rattle.std.specs.Prelude.{ℕ, length};

use crate::bell::Bell;
use crate::drive::{Halt, drive_alone};
use crate::levels::RunContext;
use crate::plan::CrewPlan;
use crate::team::{Signals, Team};
use crate::turners::{Choice, Turners};
use hj_base::{Gate, Share};
use hj_desk::{Caller, Outlet};
use hj_msg::{Feed, Fin, Join, Store};
use std::sync::Wait;
use std::sync::atomic::AtomicBool;
use std::thread;
use std::thread::{Scope, Threads};
use std::time::Clock;

/// What a run has at hand: all of it while no thread is at work.
#[derive(Drop)]
pub(crate) struct BegunRun<P: Drop, J: Join<P>, S: Store<P, J>, F, O> {
    pub(crate) caller: Caller<P, F, O>,
    pub(crate) teams: Vec<Team<P, J, S>>,
    /// Room for the teams that the calling thread turns beside threads, and for those that come back.
    pub(crate) own: Vec<Team<P, J, S>>,
    pub(crate) done: Vec<Team<P, J, S>>,
}

/// Where the rounds of a run halted, and what it has then.
#[derive(Drop)]
struct Halted<P: Drop, J: Join<P>, S: Store<P, J>, F, O> {
    halt: Halt,
    back: BegunRun<P, J, S, F, O>,
}

/// What comes back of a run.
pub(crate) struct Returned<P: Drop, J: Join<P>, S: Store<P, J>, F, O> {
    pub(crate) caller: Caller<P, F, O>,
    pub(crate) teams: Vec<Team<P, J, S>>,
    pub(crate) fin: Fin,
}

impl<
    P: Share + Send + Drop,
    J: Join<P> + Send + Drop,
    S: Store<P, J> + Send + Drop,
    F: Feed<P> + Drop,
    O: Outlet<P> + Drop,
> BegunRun<P, J, S, F, O> {
    ghost use Rattle.hj_crew.specs.Begun.{CanStart, HasHalted, HasRun};

    /// Lets the calling thread make its rounds until the run has ended, while threads turn the teams, and then now that thread itself
    /// and now threads, whichever get on faster.
    pub(crate) fn run_to_end<G: Gate + Sync, T: Threads + Wait + Clock + Sync>(
        self,
        plan: &CrewPlan<'_, T, G>,
        signals: &[Signals],
    ) -> Returned<P, J, S, F, O>
        requires { CanStart F.state (length signals.now) self }
        ensures { HasRun F.gives F.state O.gave O.rests self result }
    {
        let mut begun = self;
        let mut choice = Choice::new();
        for _ in plan.rt.forever() {
            let Halted { halt, back } = begun.run_under(plan, choice, signals);
            match halt {
                Halt::Over(fin) => {
                    return Returned {
                        caller: back.caller,
                        teams: back.teams,
                        fin,
                    };
                }
                Halt::GoesOn(seen) => choice = choice.after(seen),
            }
            begun = back;
        }
        unreachable!()
    }

    /// Lets a run go on as it was chosen until it halts.
    fn run_under<G: Gate + Sync, T: Threads + Wait + Clock + Sync>(
        self,
        plan: &CrewPlan<'_, T, G>,
        choice: Choice,
        signals: &[Signals],
    ) -> Halted<P, J, S, F, O>
        requires { CanStart F.state (length signals.now) self }
        ensures { HasHalted F.gives F.state O.gave O.rests self result.halt result.back }
    {
        match choice.turners() {
            Turners::Threads => self.run_in_scope(plan, choice.periods(), signals),
            Turners::Caller => self.run_alone(plan, choice.periods()),
        }
    }

    /// Makes what the threads of a run use, and lets them run. With `periods` they are called back behind so many busy periods of time,
    /// if the plan says that they may be.
    fn run_in_scope<G: Gate + Sync, T: Threads + Wait + Clock + Sync>(
        self,
        plan: &CrewPlan<'_, T, G>,
        periods: Option<u32>,
        signals: &[Signals],
    ) -> Halted<P, J, S, F, O>
        requires { CanStart F.state (length signals.now) self }
        ensures { HasHalted F.gives F.state O.gave O.rests self result.halt result.back }
    {
        let stop = AtomicBool::new(false);
        let bell = Bell::new();
        let shared = RunContext {
            rt: plan.rt,
            stop: &stop,
            signals,
            bell: &bell,
            kept: usize::from(plan.kept),
            periods: if plan.takes_back { periods } else { None },
            gate: plan.gate,
        };
        self.scoped(&shared)
    }

    /// Starts the threads of a run, and joins them where the calling thread's rounds halt.
    fn scoped<G: Gate + Sync, T: Threads + Wait + Clock + Sync>(
        self,
        shared: &RunContext<'_, G, T>,
    ) -> Halted<P, J, S, F, O>
        requires { CanStart F.state (length shared.now.signals.now) self }
        ensures { HasHalted F.gives F.state O.gave O.rests self result.halt result.back }
    {
        let begun = self;
        thread::scope(
            thread::scope_env(),
            shared.rt,
            move |scope| -> Halted<P, J, S, F, O>
                requires { CanStart F.state (length shared.now.signals.now) begun }
                ensures { HasHalted F.gives F.state O.gave O.rests begun result.halt result.back }
            { begun.start_all(scope, shared) },
        )
    }

    /// Starts the thread of each team, makes the calling thread's rounds, and joins the threads.
    fn start_all<'s, E, G: Gate + Sync + 's, T: Threads + Wait + Clock + Sync + 's>(
        self,
        scope: &'s Scope<'s, E>,
        shared: &RunContext<'s, G, T>,
    ) -> Halted<P, J, S, F, O>
    where
        P: 's,
        J: 's,
        S: 's,
        requires { CanStart F.state (length shared.now.signals.now) self }
        ensures { HasHalted F.gives F.state O.gave O.rests self result.halt result.back }
    {
        let mut begun = self;
        let halt = begun.start_from_last(scope, shared);
        let back = BegunRun {
            caller: begun.caller,
            teams: begun.done,
            own: begun.own,
            done: begun.teams,
        };
        Halted { halt, back }
    }

    /// Lets the calling thread turn all teams, until it halts. With `periods` it halts behind so many busy periods of time.
    fn run_alone<G: Gate, T: Wait + Clock>(
        self,
        plan: &CrewPlan<'_, T, G>,
        periods: Option<u32>,
    ) -> Halted<P, J, S, F, O>
        requires { (signals : ℕ) × CanStart F.state signals self }
        ensures { HasHalted F.gives F.state O.gave O.rests self result.halt result.back }
    {
        let mut begun = self;
        let halt = drive_alone(
            plan.rt,
            &mut begun.caller,
            begun.teams.as_mut_slice(),
            plan.gate,
            periods,
        );
        Halted { halt, back: begun }
    }
}
