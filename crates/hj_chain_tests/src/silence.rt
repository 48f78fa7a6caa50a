//! A side that falls silent: its quiet events let out the pairs of the other side's rows.
ghost use Rattle.std.specs.Prelude.{◌≡◌, ◌≤◌, ◌==◌, ◌||◌};
ghost use Rattle.hj_chain.specs.Steps.{GoesWith};
ghost use Rattle.hj_msg.specs.Feed.{FeedState, IsFresh};
ghost use Rattle.hj_chain_tests.specs.SilentSide.{event_of, silence_given};
ghost use Rattle.hj_chain_tests.specs.TwoRows.{all_match};

use crate::chains::{RowChain, next_pair, step_all};
use crate::rows::{Cross, Row, stores};
use crate::sizes::sizes;
use crate::threads::SlowCore;
use hj_base::{CoreNo, EventNo, Gate, OpenGate, Side};
use hj_chain::{Actor, Chain, Chooser, Stepped};
use hj_crew::{CrewPlan, CrewSize, JoinInput, Stores};
use hj_msg::{Drain, Drained, Event, Feed, Fin, Given, Pair};
use std::alloc::Global;
use std::cell::Cell;
use std::process::Abort;
use std::sync::Wait;
use std::thread::Threads;
use std::time::Clock;

/// Returns the event of a number: the right row 0, the left rows 1, 2, 4 and 5, and the quiet events 3 and 6 of the right side.
fn event(no: u64) -> Event<Row>
    ensures { result ≡ event_of (record { 0 = 7 }) no }
{
    let row = Row(7);
    let at = EventNo(no);
    if no == 0 {
        return Event::Arrive {
            no: at,
            side: Side::Right,
            row,
        };
    }
    if no == 3 || no == 6 {
        return Event::Quiet {
            no: at,
            side: Side::Right,
        };
    }
    Event::Arrive {
        no: at,
        side: Side::Left,
        row,
    }
}

/// Returns whether fewer pairs came than the quiet events let out that were given so far.
fn is_early(given: u64, pairs: u64) -> bool {
    (given == 4 && pairs < 2) || (given == 7 && pairs < 4)
}

/// Gives these seven events. A quiet event is there as soon as it comes next; every other answer is asked for.
#[derive(Drop)]
struct SilentSide<'a> {
    given: u64,
    stopped: bool,
    /// How many pairs came so far.
    pairs: &'a Cell<u64>,
    /// How often an answer was asked for while a pair was held back that a quiet event lets out.
    early: u64,
    ghost few: { given ≤ 7 },
}

impl<'a> SilentSide<'a> {
    /// Makes a feed that has given nothing, and looks at how many pairs came.
    fn new(pairs: &'a Cell<u64>) -> Self
        ensures { IsFresh (silence_given result.given result.stopped) }
    {
        SilentSide {
            given: 0,
            stopped: false,
            pairs,
            early: 0,
        }
    }
}

impl<'a> Feed<Row> for SilentSide<'a> {
    ghost use Rattle.hj_msg.specs.Feed.{Answers};

    ghost gives = { λ old answer new. Answers answer (silence_given old.given old.stopped) (silence_given new.given new.stopped) };

    ghost state = { λ f. silence_given f.given f.stopped };

    ghost ready = { λ f. (f.given == 3) || (f.given == 6) };

    ghost told = { λ old answer new given. given };

    fn next(&mut self) -> Given<Row> {
        let early = is_early(self.given, self.pairs.get());
        self.early = self.early.saturating_add(u64::from(early));
        if self.given == 7 || self.stopped {
            self.stopped = true;
            return Given::Stop;
        }
        let no = self.given;
        self.given += 1;
        Given::Event(event(no))
    }

    fn is_ready(&self) -> bool {
        self.given == 3 || self.given == 6
    }
}

/// Counts the pairs.
#[derive(Drop)]
struct CountedPairs<'a> {
    pairs: &'a Cell<u64>,
}

impl<'a> Drain<Row> for CountedPairs<'a> {
    ghost use Rattle.hj_msg.specs.Drain.{CountsRefused};

    ghost takes = { λ old pair answer new. Unit {0} };

    ghost refusals = { λ d. 0 };

    fn pair(&mut self, _pair: Pair<Row>) -> Drained
        ensures takes { Unit {0} }
        ensures refusals { CountsRefused result 0 0 }
    {
        self.pairs.set(self.pairs.get().saturating_add(1));
        Drained::Kept
    }
}

/// Makes a chain of two cores, with room for all events of the feed.
fn two_cores(rt: &impl Abort, alloc: Global, feed: &mut SilentSide<'_>) -> RowChain
    requires { IsFresh (silence_given feed.old.given feed.old.stopped) }
    ensures { GoesWith all_match result (silence_given feed.new.given feed.new.stopped) }
{
    let left = stores(alloc, 2).expect(rt, "memory");
    let right = stores(alloc, 2).expect(rt, "memory");
    Chain::new(alloc, Cross, left, right, 8, feed).expect(rt, "memory")
}

/// Each actor of two cores but the driver's put.
const OTHERS: [Actor; 8] = [
    Actor::PortLeft,
    Actor::PortRight,
    Actor::Core(CoreNo(0), Side::Left),
    Actor::Core(CoreNo(0), Side::Right),
    Actor::Core(CoreNo(1), Side::Left),
    Actor::Core(CoreNo(1), Side::Right),
    Actor::Collect(CoreNo(0)),
    Actor::Collect(CoreNo(1)),
];

/// Handles and collects all that was put.
fn handle_all(chain: &mut RowChain, feed: &mut SilentSide<'_>)
    requires { GoesWith all_match chain.old (silence_given feed.old.given feed.old.stopped) }
    ensures { GoesWith all_match chain.new (silence_given feed.new.given feed.new.stopped) }
{
    for _round in 0..36 {
        chain.run(&OTHERS, feed);
    }
}

/// The rows 0, 1 and 2 are put, of which two are asked for.
const THREE_ROWS: &str = "\
admit: Did
admit: Did
admit: Did
admit: Did
admit: Did";

/// Puts the next event, and handles it: a quiet event, of which the driver alone is left to put the next one.
fn put_quiet(rt: &impl Abort, chain: &mut RowChain, feed: &mut SilentSide<'_>)
    requires { GoesWith all_match chain.old (silence_given feed.old.given feed.old.stopped) }
    ensures { GoesWith all_match chain.new (silence_given feed.new.given feed.new.stopped) }
{
    assert!(rt; chain.step(Actor::Admit, feed) == Stepped::Did);
    handle_all(chain, feed);
    assert!(rt; chain.enabled() == 1);
    assert!(rt; chain.nth(0) == Some(Actor::Admit));
}

/// Holds a chain to give the pairs of the left rows 1 and 2 with the right row 0 next, and no other.
fn gives_two(rt: &impl Abort, chain: &mut RowChain)
    requires { (feed : FeedState) × GoesWith all_match chain.old feed }
{
    assert!(rt; next_pair(chain) == Some((1, 0)));
    assert!(rt; next_pair(chain) == Some((2, 0)));
    assert!(rt; next_pair(chain).is_none());
}

#[test]
fn a_quiet_event_lets_pairs_out(rt: HostRuntime) {
    let pairs = Cell::new(0);
    let mut feed = SilentSide::new(&pairs);
    let mut chain = two_cores(&rt, rt.alloc(), &mut feed);
    step_all(&rt, rt.alloc(), &mut chain, &mut feed, THREE_ROWS);
    handle_all(&mut chain, &mut feed);
    assert!(rt; next_pair(&mut chain).is_none());
    put_quiet(&rt, &mut chain, &mut feed);
    gives_two(&rt, &mut chain);
    drop(chain);
}

/// Runs the chain serially: the feed is asked for no event before the pairs came that the quiet events let out.
fn runs_serially(rt: &impl Abort, alloc: Global, chooser: Chooser) {
    let pairs = Cell::new(0);
    let mut feed = SilentSide::new(&pairs);
    let mut chain = two_cores(rt, alloc, &mut feed);
    let mut drain = CountedPairs { pairs: &pairs };
    let fin = chain.run_serial(chooser, &mut feed, &mut drain, &OpenGate);
    drop(chain);
    assert!(rt; fin == Fin::Done);
    assert!(rt; pairs.get() == 4);
    assert!(rt; feed.early == 0);
}

#[test]
fn pairs_come_before_the_feed_is_asked(rt: HostRuntime) {
    runs_serially(&rt, rt.alloc(), Chooser::InTurn);
    runs_serially(&rt, rt.alloc(), Chooser::Seeded(1));
}

/// Runs the same on threads.
fn run_on_threads<T: Abort + Threads + Wait + Clock + Sync, G: Gate + Sync>(
    rt: &T,
    alloc: Global,
    size: CrewSize,
    gate: &G,
) {
    let pairs = Cell::new(0);
    let plan = CrewPlan {
        rt,
        size,
        kept: size.kept(rt),
        takes_back: false,
        gate,
    };
    let input = JoinInput {
        join: &Cross,
        stores: Stores {
            left: stores(alloc, size.chain.cores).expect(rt, "memory"),
            right: stores(alloc, size.chain.cores).expect(rt, "memory"),
        },
        feed: SilentSide::new(&pairs),
    };
    let drain = CountedPairs { pairs: &pairs };
    let (ran, feed, _drain) = plan.run_threads(alloc, input, drain);
    assert!(rt; ran.expect(rt, "memory").fin() == Fin::Done);
    assert!(rt; pairs.get() == 4);
    assert!(rt; feed.early == 0);
}

/// Runs it with the gate open, and with one core held up now and then.
fn count_on_threads<T: Abort + Threads + Wait + Clock + Sync>(
    rt: &T,
    alloc: Global,
    size: CrewSize,
) {
    run_on_threads(rt, alloc, size, &OpenGate);
    run_on_threads(rt, alloc, size, &SlowCore(size.chain.cores / 2));
}

#[test]
fn quiet_events_are_counted_on_threads(rt: HostRuntime) {
    for size in &sizes(&rt, rt.alloc(), "1 2 3 8", "1 2 3", "32") {
        count_on_threads(&rt, rt.alloc(), *size);
    }
}
