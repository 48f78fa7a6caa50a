//! Runs of a chain on threads.
ghost use Rattle.std.specs.Prelude.{◌≡◌, None};
ghost use Rattle.hj_base.specs.declared.numbers.Side.TheVariants.{Left, Right};
ghost use Rattle.hj_chain_tests.specs.Rounds.{rounds_given};

use crate::rows::{Cross, Row, UNSHARED, stores};
use crate::sizes::sizes;
use hj_base::{CoreNo, EventNo, Gate, OpenGate, Side};
use hj_crew::{CrewPlan, CrewSize, JoinInput, Stores};
use hj_msg::{Drain, Drained, Event, Feed, Fin, Given, Pair};
use std::alloc::Global;
use std::hint::spin_loop;
use std::process::Abort;
use std::sync::Wait;
use std::sync::atomic::{AtomicBool, AtomicU64, Ordering};
use std::thread::Threads;
use std::time::Clock;

/// Rounds of four events: a left row and a right row come, and then both expire. Answers are there always, or never before they
/// are asked for.
#[derive(Drop)]
struct Rounds {
    ready: bool,
    /// The number of every row.
    row: u64,
    /// The live row of each side.
    left: Option<EventNo>,
    right: Option<EventNo>,
    given: u64,
    most: u64,
    stopped: bool,
}

impl Rounds {
    /// Makes this many events of rounds, with rows of this number.
    fn new(most: u64, ready: bool, row: u64) -> Self
        ensures given { result.given ≡ 0 }
        ensures none_left { result.left ≡ None }
        ensures none_right { result.right ≡ None }
    {
        Rounds {
            ready,
            row,
            left: None,
            right: None,
            given: 0,
            most,
            stopped: false,
        }
    }
}

impl Feed<Row> for Rounds {
    ghost use Rattle.hj_msg.specs.Feed.{Answers};

    ghost gives = { λ old answer new. Answers answer (rounds_given old.left old.right old.given old.most old.stopped) (rounds_given new.left new.right new.given new.most new.stopped) };

    ghost state = { λ f. rounds_given f.left f.right f.given f.most f.stopped };

    ghost ready = { λ f. f.ready };

    ghost told = { λ old answer new given. given };

    fn next(&mut self) -> Given<Row> {
        if self.given >= self.most || self.stopped {
            self.stopped = true;
            return Given::Stop;
        }
        let no = EventNo(self.given);
        self.given += 1;
        match (self.left, self.right) {
            (None, None) => {
                self.left = Some(no);
                arrival(no, Side::Left, self.row)
            }
            (Some(_), None) => {
                self.right = Some(no);
                arrival(no, Side::Right, self.row)
            }
            (Some(of), Some(_)) => {
                self.left = None;
                expiry(no, Side::Left, of)
            }
            (None, Some(of)) => {
                self.right = None;
                expiry(no, Side::Right, of)
            }
        }
    }

    fn is_ready(&self) -> bool {
        self.ready
    }
}

fn arrival(no: EventNo, side: Side, row: u64) -> Given<Row>
    ensures { result ≡ Given.Event (Event.Arrive no side (record { 0 = row })) }
{
    Given::Event(Event::Arrive {
        no,
        side,
        row: Row(row),
    })
}

fn expiry(no: EventNo, side: Side, of: EventNo) -> Given<Row>
    ensures { result ≡ Given.Event (Event.Expire no side of) }
{
    Given::Event(Event::Expire { no, side, of })
}

/// Counts the pairs, and those that aren't the next ones: the rows of round k have the numbers 4 k and 4 k + 1. It spins so often
/// at each pair.
#[derive(Drop)]
struct InTurn {
    spins: u32,
    pairs: u64,
    astray: u64,
}

impl Drain<Row> for InTurn {
    ghost use Rattle.hj_msg.specs.Drain.{CountsRefused};

    ghost takes = { λ old pair answer new. Unit {0} };

    ghost refusals = { λ d. 0 };

    fn pair(&mut self, pair: Pair<Row>) -> Drained
        ensures takes { Unit {0} }
        ensures refusals { CountsRefused result 0 0 }
    {
        for _spin in 0..self.spins {
            spin_loop();
        }
        let left = self.pairs.saturating_mul(4);
        if pair.left_no.0 != left || pair.right_no.0 != left.saturating_add(1) {
            self.astray = self.astray.saturating_add(1);
        }
        self.pairs = self.pairs.saturating_add(1);
        Drained::Kept
    }
}

/// Holds up the calls of one core now and then.
#[derive(Drop)]
pub(crate) struct SlowCore(pub(crate) u16);

impl Gate for SlowCore {
    fn pass(&self, core: CoreNo, call: u64) {
        if core.0 == self.0 && call % 7 == 3 {
            for _wait in 0..call % 50 * 100 {
                spin_loop();
            }
        }
    }
}

/// What came of a run on threads: how it ended, whether the feed was asked for all, and what the drain counted.
#[derive(Clone, Copy)]
struct Came {
    fin: Fin,
    stopped: bool,
    pairs: u64,
    astray: u64,
}

/// Runs rounds on threads, of which the calling thread turns so many teams, with a drain that spins so often at each pair.
fn run<T: Abort + Threads + Wait + Clock + Sync, G: Gate + Sync>(
    rt: &T,
    alloc: Global,
    size: CrewSize,
    kept: u16,
    rounds: Rounds,
    spins: u32,
    gate: &G,
) -> Came
    requires fresh { (rounds.given ≡ 0) × (rounds.left ≡ None) × (rounds.right ≡ None) }
{
    let plan = CrewPlan {
        rt,
        size,
        kept,
        takes_back: false,
        gate,
    };
    let input = JoinInput {
        join: &Cross,
        stores: Stores {
            left: stores(alloc, size.chain.cores).expect(rt, "memory"),
            right: stores(alloc, size.chain.cores).expect(rt, "memory"),
        },
        feed: rounds,
    };
    let drain = InTurn {
        spins,
        pairs: 0,
        astray: 0,
    };
    let (ran, feed, drain) = plan.run_threads(alloc, input, drain);
    Came {
        fin: ran.expect(rt, "memory").fin(),
        stopped: feed.stopped,
        pairs: drain.pairs,
        astray: drain.astray,
    }
}

/// Runs this many events of rounds on threads, and looks whether each pair came in its turn.
fn run_whole<T: Abort + Threads + Wait + Clock + Sync, G: Gate + Sync>(
    rt: &T,
    alloc: Global,
    size: CrewSize,
    rounds: Rounds,
    spins: u32,
    gate: &G,
)
    requires fresh { (rounds.given ≡ 0) × (rounds.left ≡ None) × (rounds.right ≡ None) }
{
    let pairs = rounds.most / 4;
    let came = run(rt, alloc, size, size.kept(rt), rounds, spins, gate);
    assert!(rt; came.fin == Fin::Done);
    assert!(rt; came.stopped);
    assert!(rt; came.pairs == pairs);
    assert!(rt; came.astray == 0);
}

/// Runs a hundred rounds whose answers are there, and ten whose answers are asked for while a core is slow.
fn come_in_turn<T: Abort + Threads + Wait + Clock + Sync>(rt: &T, alloc: Global, size: CrewSize) {
    let ready = Rounds::new(400, true, 7);
    run_whole(rt, alloc, size, ready, 0, &OpenGate);
    let asked = Rounds::new(40, false, 7);
    run_whole(rt, alloc, size, asked, 0, &SlowCore(size.chain.cores / 2));
}

/// Does so for chains of these numbers of cores, on one to eight threads.
fn all_come_in_turn<T: Abort + Threads + Wait + Clock + Sync>(rt: &T, alloc: Global, cores: &str) {
    for size in &sizes(rt, alloc, cores, "1 2 3 4 5 6 7 8", "32") {
        come_in_turn(rt, alloc, *size);
    }
}

#[test]
fn pairs_come_in_turn(rt: HostRuntime) {
    all_come_in_turn(&rt, rt.alloc(), "1 2 3 4");
}

#[test]
fn pairs_come_in_turn_from_many_cores(rt: HostRuntime) {
    all_come_in_turn(&rt, rt.alloc(), "64");
}

/// Runs ten rounds, where the calling thread is slow if two events are under way at most.
fn wake<T: Abort + Threads + Wait + Clock + Sync>(rt: &T, alloc: Global, size: CrewSize) {
    let spins = if size.chain.flight == 2 { 10_000 } else { 0 };
    let rounds = Rounds::new(40, true, 7);
    run_whole(rt, alloc, size, rounds, spins, &OpenGate);
}

/// Threads sleep and are woken at every size of a run, also while the calling thread is slow. A test that hangs fails by its limit.
#[test]
fn threads_wake_each_other(rt: HostRuntime) {
    for size in &sizes(&rt, rt.alloc(), "1 4 64", "1 2 3 4", "1 2 32 256") {
        wake(&rt, rt.alloc(), *size);
    }
}

/// Runs rounds of rows that can't be shared: memory runs out at the first row.
fn run_out<T: Abort + Threads + Wait + Clock + Sync>(rt: &T, alloc: Global, size: CrewSize) {
    let rounds = Rounds::new(400, true, UNSHARED);
    let came = run(rt, alloc, size, size.threads / 2, rounds, 0, &OpenGate);
    assert!(rt; came.fin == Fin::Memory);
    assert!(rt; came.pairs == 0);
    assert!(rt; came.astray == 0);
}

/// Shows that every thread comes back where memory runs out.
#[test]
fn threads_come_back_for_want_of_memory(rt: HostRuntime) {
    for size in &sizes(&rt, rt.alloc(), "1 4 64", "1 2 3 4", "1 32") {
        run_out(&rt, rt.alloc(), *size);
    }
}

/// Counts the turns of three cores, and notes whether each was told how many its core had before.
#[derive(Drop)]
struct CountedTurns {
    turns: [AtomicU64; 3],
    astray: AtomicBool,
}

impl Gate for CountedTurns {
    fn pass(&self, core: CoreNo, call: u64) {
        let is_next = match self.turns.get(usize::from(core.0)) {
            Some(turns) => turns.fetch_add(1, Ordering::SeqCst) == call,
            None => false,
        };
        if !is_next {
            self.astray.store(true, Ordering::SeqCst);
        }
    }
}

/// Runs ten rounds over three cores: the gate is told each turn of a core with the number of turns that the core had before.
fn tell_each_turn<T: Abort + Threads + Wait + Clock + Sync>(rt: &T, alloc: Global, size: CrewSize) {
    let gate = CountedTurns {
        turns: [AtomicU64::new(0), AtomicU64::new(0), AtomicU64::new(0)],
        astray: AtomicBool::new(false),
    };
    run_whole(rt, alloc, size, Rounds::new(40, true, 7), 0, &gate);
    assert!(rt; !gate.astray.load(Ordering::SeqCst));
    for turns in &gate.turns {
        // A turn takes one message, and each core gets those of all forty events.
        assert!(rt; turns.load(Ordering::SeqCst) >= 40);
    }
}

#[test]
fn the_gate_is_told_the_turns_of_each_core(rt: HostRuntime) {
    for size in &sizes(&rt, rt.alloc(), "3", "1 3", "32") {
        tell_each_turn(&rt, rt.alloc(), *size);
    }
}
