//! Steps of a chain of two cores, and serial runs of it.

ghost use Rattle.std.specs.Prelude.{◌≡◌, ◌≤◌};
ghost use Rattle.hj_msg.specs.Feed.{FeedState};
ghost use Rattle.hj_chain_tests.specs.TwoRows.{all_match, other_side, rows_given};
ghost use Rattle.hj_chain.specs.Steps.{GoesWith};

use crate::last_pair::{numbers, room_for};
use crate::lines::{halves, shows};
use crate::rows::{Cross, Row, stores};
use hj_base::{CoreNo, EventNo, Gate, Share, Side};
use hj_chain::{Actor, Chain, Chooser, Stepped};
use hj_msg::{Event, Feed, Fin, Given, Join, Store};
use hj_rows::ListStore;
use std::alloc::Global;
use std::cell::Cell;
use std::process::Abort;

fn other(side: Side) -> Side
    ensures { result ≡ other_side side }
{
    match side {
        Side::Left => Side::Right,
        Side::Right => Side::Left,
    }
}

/// Gives a row of one side, then one of the other side. Its next answer is there always, or never before it is asked.
#[derive(Drop)]
pub(crate) struct TwoRows {
    first: Side,
    ready: bool,
    given: u64,
    stopped: bool,
    ghost few: { given ≤ 2 },
}

impl Feed<Row> for TwoRows {
    ghost use Rattle.hj_msg.specs.Feed.{Answers};

    ghost gives = { λ old answer new. Answers answer (rows_given old.first old.given old.stopped) (rows_given new.first new.given new.stopped) };

    ghost state = { λ f. rows_given f.first f.given f.stopped };

    ghost ready = { λ f. f.ready };

    ghost told = { λ old answer new given. given };

    fn next(&mut self) -> Given<Row> {
        if self.given == 2 || self.stopped {
            self.stopped = true;
            return Given::Stop;
        }
        let side = if self.given == 0 {
            self.first
        } else {
            other(self.first)
        };
        let no = EventNo(self.given);
        self.given += 1;
        Given::Event(Event::Arrive {
            no,
            side,
            row: Row(7),
        })
    }

    fn is_ready(&self) -> bool {
        self.ready
    }
}

pub(crate) type RowChain = Chain<Row, Cross, ListStore<Row>>;

/// Makes a chain of this many cores before a feed that has given nothing.
pub(crate) fn chain_of(
    rt: &impl Abort,
    alloc: Global,
    cores: u16,
    flight: u16,
    feed: &mut TwoRows,
) -> RowChain
    requires cores { (1 ≤ cores) × (cores ≤ 64) }
    requires flight { (1 ≤ flight) × (flight ≤ 256) }
    requires fresh { feed.old.given ≡ 0 }
    ensures { GoesWith all_match result (rows_given feed.new.first feed.new.given feed.new.stopped) }
{
    let left = stores(alloc, cores).expect(rt, "memory");
    let right = stores(alloc, cores).expect(rt, "memory");
    Chain::new(alloc, Cross, left, right, flight, feed).expect(rt, "memory")
}

/// Makes a feed of two rows, the first one of this side, whose next answer is there always.
pub(crate) fn from(side: Side) -> TwoRows
    ensures { result.given ≡ 0 }
{
    TwoRows {
        first: side,
        ready: true,
        given: 0,
        stopped: false,
    }
}

/// Makes the same, where no answer is there before it is asked for.
fn late_from(side: Side) -> TwoRows
    ensures { result.given ≡ 0 }
{
    let mut rows = from(side);
    rows.ready = false;
    rows
}

/// Reads the actor of a word, and after it the place of a core.
fn actor(rt: &impl Abort, text: &str) -> Actor {
    let (name, place) = text.split_once(' ').unwrap_or((text, "0"));
    let core = CoreNo(place.parse::<u16>().expect(rt, "a place"));
    match name {
        "admit" => Actor::Admit,
        "port_left" => Actor::PortLeft,
        "port_right" => Actor::PortRight,
        "left" => Actor::Core(core, Side::Left),
        "right" => Actor::Core(core, Side::Right),
        "collect" => Actor::Collect(core),
        _ => panic!(rt; "no actor: {text}"),
    }
}

/// Makes the step of a line, which is an actor, and the answer of its step.
fn step<P: Share + Drop, J: Join<P> + Drop, S: Store<P, J> + Drop, F: Feed<P>>(
    rt: &impl Abort,
    alloc: Global,
    chain: &mut Chain<P, J, S>,
    feed: &mut F,
    line: &str,
)
    requires { GoesWith J.predicate chain.old (F.state feed.old) }
    ensures { GoesWith J.predicate chain.new (F.state feed.new) }
{
    let (name, want) = halves(rt, line);
    let found = chain.step(actor(rt, name), feed);
    shows(rt, alloc, line, &found, want);
}

/// Makes the steps of a table.
pub(crate) fn step_all<P: Share + Drop, J: Join<P> + Drop, S: Store<P, J> + Drop, F: Feed<P>>(
    rt: &impl Abort,
    alloc: Global,
    chain: &mut Chain<P, J, S>,
    feed: &mut F,
    steps: &str,
)
    requires { GoesWith J.predicate chain.old (F.state feed.old) }
    ensures { GoesWith J.predicate chain.new (F.state feed.new) }
{
    for line in steps.lines() {
        step(rt, alloc, chain, feed, line);
    }
}

/// Each actor of two cores.
const EACH: [Actor; 9] = [
    Actor::Admit,
    Actor::PortLeft,
    Actor::PortRight,
    Actor::Core(CoreNo(0), Side::Left),
    Actor::Core(CoreNo(0), Side::Right),
    Actor::Core(CoreNo(1), Side::Left),
    Actor::Core(CoreNo(1), Side::Right),
    Actor::Collect(CoreNo(0)),
    Actor::Collect(CoreNo(1)),
];

/// Makes the steps of a schedule in this many rounds: none meets want of memory.
fn run_rounds(
    rt: &impl Abort,
    chain: &mut RowChain,
    feed: &mut TwoRows,
    schedule: &[Actor],
    rounds: u32,
)
    requires { GoesWith all_match chain.old (rows_given feed.old.first feed.old.given feed.old.stopped) }
    ensures { GoesWith all_match chain.new (rows_given feed.new.first feed.new.given feed.new.stopped) }
{
    for _round in 0..rounds {
        assert!(rt; chain.run(schedule, feed) == Stepped::Did);
    }
}

/// Returns the numbers of the pair that is given next.
pub(crate) fn next_pair(chain: &mut RowChain) -> Option<(u64, u64)>
    requires { (feed : FeedState) × GoesWith all_match chain.old feed }
    ensures { (feed : FeedState) → GoesWith all_match chain.old feed → GoesWith all_match chain.new feed }
{
    numbers(chain.pair())
}

/// Holds a chain to be underway, with no pair that may be given.
fn gives_none(rt: &impl Abort, chain: &mut RowChain)
    requires { (feed : FeedState) × GoesWith all_match chain.old feed }
    ensures { (feed : FeedState) → GoesWith all_match chain.old feed → GoesWith all_match chain.new feed }
{
    assert!(rt; !chain.done());
    assert!(rt; next_pair(chain).is_none());
}

/// Holds a chain to be done, with this pair alone to be given.
fn gives_last(rt: &impl Abort, chain: &mut RowChain, pair: (u64, u64))
    requires { (feed : FeedState) × GoesWith all_match chain.old feed }
{
    assert!(rt; chain.done());
    assert!(rt; next_pair(chain) == Some(pair));
    assert!(rt; next_pair(chain).is_none());
}

/// After six steps AckS 1 and EndS 1 are on their way to the right, EndR 0 and S 1 to the left.
const IN_FLIGHT: &str = "\
admit: Did
admit: Did
left 0: Did
right 1: Did
left 1: Did
right 0: Did
left 1: Did
left 1: Did
left 1: NotEnabled(Empty)
right 0: Did
right 0: NotEnabled(Empty)
admit: NotEnabled(Drains(2))";

/// What is left to be done then.
const REST: [Actor; 17] = [
    Actor::PortLeft,
    Actor::PortLeft,
    Actor::PortRight,
    Actor::PortRight,
    Actor::Admit,
    Actor::Core(CoreNo(0), Side::Left),
    Actor::Core(CoreNo(1), Side::Right),
    Actor::Core(CoreNo(1), Side::Left),
    Actor::Core(CoreNo(0), Side::Right),
    Actor::PortLeft,
    Actor::PortRight,
    Actor::Collect(CoreNo(0)),
    Actor::Collect(CoreNo(0)),
    Actor::Collect(CoreNo(0)),
    Actor::Collect(CoreNo(1)),
    Actor::Collect(CoreNo(1)),
    Actor::Collect(CoreNo(1)),
];

fn meet_in_flight(rt: &impl Abort, alloc: Global, chain: &mut RowChain, feed: &mut TwoRows)
    requires { GoesWith all_match chain.old (rows_given feed.old.first feed.old.given feed.old.stopped) }
{
    step_all(rt, alloc, chain, feed, IN_FLIGHT);
    gives_none(rt, chain);
    run_rounds(rt, chain, feed, &REST, 1);
    gives_last(rt, chain, (0, 1));
}

const AT_REST: &str = "\
admit: Did
admit: Did
left 0: Did
left 1: Did
right 1: Did
right 0: Did
right 0: Did
collect 0: Did
collect 0: Did
collect 0: NotEnabled(Empty)
collect 1: Did
collect 1: Did
collect 1: NotEnabled(Empty)";

fn meet_at_rest(rt: &impl Abort, alloc: Global, chain: &mut RowChain, feed: &mut TwoRows)
    requires { GoesWith all_match chain.old (rows_given feed.old.first feed.old.given feed.old.stopped) }
{
    step_all(rt, alloc, chain, feed, AT_REST);
    // The pair was met, and is beyond the punctuation: no core reported a right row from 1 on.
    gives_none(rt, chain);
    // Two rows can't take more steps than there are in so many rounds.
    run_rounds(rt, chain, feed, &EACH, 36);
    gives_last(rt, chain, (1, 0));
}

const CAUSES: &str = "\
port_left: NotEnabled(Empty)
port_right: NotEnabled(Empty)
left 1: NotEnabled(Empty)
collect 1: NotEnabled(Empty)
left 2: NotEnabled(NoSuchCore)
collect 2: NotEnabled(NoSuchCore)
admit: Did
admit: NotEnabled(Waits(Flight(1)))
left 0: Did
left 1: Did
port_right: Did
right 0: Did
port_left: Did
admit: Did
right 1: Did
admit: NotEnabled(Drains(1))
right 0: Did
left 1: Did
left 1: Did
port_left: Did
port_right: Did
admit: Did
admit: NotEnabled(Closed)";

const LATE_EVENT: &str = "\
admit: Did
admit: Did
left 0: Did
admit: Did
right 1: Did
admit: Did
admit: NotEnabled(Drains(2))";

/// Counts the steps of each of two cores, and keeps how many steps there were before the first of them.
#[derive(Drop)]
struct Counts {
    left: Cell<u64>,
    right: Cell<u64>,
    before: Cell<Option<u64>>,
}

impl Gate for Counts {
    fn pass(&self, core: CoreNo, call: u64) {
        let count = if core.0 == 0 { &self.left } else { &self.right };
        count.set(count.get().saturating_add(1));
        if self.before.get().is_none() {
            self.before.set(Some(call));
        }
    }
}

fn no_steps() -> Counts {
    Counts {
        left: Cell::new(0),
        right: Cell::new(0),
        before: Cell::new(None),
    }
}

/// Shows that the rows meet once, whatever the rule: one takes 2 + 1 steps of the cores where it is a left one, and 1
/// + 3 where it is a right one, and the closes 2 + 2.
fn runs_serially(
    rt: &impl Abort,
    chain: &mut RowChain,
    feed: &mut TwoRows,
    chooser: Chooser,
    pair: (u64, u64),
)
    requires { GoesWith all_match chain.old (rows_given feed.old.first feed.old.given feed.old.stopped) }
{
    let mut drain = room_for(1);
    let gate = no_steps();
    let fin = chain.run_serial(chooser, feed, &mut drain, &gate);
    assert!(rt; fin == Fin::Done);
    assert!(rt; drain.last == Some(pair));
    assert!(rt; drain.kept == 1);
    assert!(rt; gate.left.get() == 5);
    assert!(rt; gate.right.get() == 6);
    assert!(rt; chain.done());
}

/// Shows that a run in turn puts the first row before any step of a core.
fn puts_first(rt: &impl Abort, chain: &mut RowChain, feed: &mut TwoRows)
    requires { GoesWith all_match chain.old (rows_given feed.old.first feed.old.given feed.old.stopped) }
{
    let mut drain = room_for(1);
    let gate = no_steps();
    chain.run_serial(Chooser::InTurn, feed, &mut drain, &gate);
    assert!(rt; gate.before.get() == Some(1));
}

/// Runs the chain with no room for the pair.
fn is_refused(rt: &impl Abort, chain: &mut RowChain, feed: &mut TwoRows)
    requires { GoesWith all_match chain.old (rows_given feed.old.first feed.old.given feed.old.stopped) }
{
    let mut drain = room_for(0);
    let fin = chain.run_serial(Chooser::InTurn, feed, &mut drain, &no_steps());
    assert!(rt; fin == Fin::Refused);
    assert!(rt; drain.refused == 1);
}

/// What is looked at of a chain.
#[derive(Clone, Copy)]
enum Look {
    MeetInFlight,
    MeetAtRest,
    Steps(&'static str),
    RunsSerially(Chooser, (u64, u64)),
    PutsFirst,
    IsRefused,
}

fn looks(rt: &impl Abort, alloc: Global, chain: &mut RowChain, feed: &mut TwoRows, look: Look)
    requires { GoesWith all_match chain.old (rows_given feed.old.first feed.old.given feed.old.stopped) }
{
    match look {
        Look::MeetInFlight => meet_in_flight(rt, alloc, chain, feed),
        Look::MeetAtRest => meet_at_rest(rt, alloc, chain, feed),
        Look::Steps(steps) => step_all(rt, alloc, chain, feed, steps),
        Look::RunsSerially(chooser, pair) => runs_serially(rt, chain, feed, chooser, pair),
        Look::PutsFirst => puts_first(rt, chain, feed),
        Look::IsRefused => is_refused(rt, chain, feed),
    }
}

/// Makes a chain of two cores before two rows, and looks at it.
fn run(rt: &impl Abort, alloc: Global, rows: TwoRows, flight: u16, look: Look)
    requires flight { (1 ≤ flight) × (flight ≤ 256) }
    requires fresh { rows.given ≡ 0 }
{
    let mut feed = rows;
    let mut chain = chain_of(rt, alloc, 2, flight, &mut feed);
    looks(rt, alloc, &mut chain, &mut feed, look);
    drop(chain);
}

#[test]
fn rows_meet_in_flight(rt: HostRuntime) {
    run(&rt, rt.alloc(), from(Side::Left), 2, Look::MeetInFlight);
}

#[test]
fn rows_meet_at_rest(rt: HostRuntime) {
    run(&rt, rt.alloc(), from(Side::Right), 2, Look::MeetAtRest);
}

#[test]
fn causes_in_their_order(rt: HostRuntime) {
    run(&rt, rt.alloc(), from(Side::Left), 1, Look::Steps(CAUSES));
}

#[test]
fn a_late_event_is_asked_for(rt: HostRuntime) {
    let rows = late_from(Side::Left);
    run(&rt, rt.alloc(), rows, 2, Look::Steps(LATE_EVENT));
}

fn serial(rt: &impl Abort, alloc: Global, rows: TwoRows, chooser: Chooser, pair: (u64, u64))
    requires { rows.given ≡ 0 }
{
    run(rt, alloc, rows, 2, Look::RunsSerially(chooser, pair));
}

#[test]
fn serial_runs(rt: HostRuntime) {
    let alloc = rt.alloc();
    serial(&rt, alloc, from(Side::Left), Chooser::InTurn, (0, 1));
    serial(&rt, alloc, from(Side::Right), Chooser::InTurn, (1, 0));
    serial(&rt, alloc, late_from(Side::Right), Chooser::InTurn, (1, 0));
    serial(&rt, alloc, from(Side::Left), Chooser::Seeded(1), (0, 1));
    serial(
        &rt,
        alloc,
        late_from(Side::Left),
        Chooser::Seeded(1),
        (0, 1),
    );
}

#[test]
fn in_turn_from_the_put_on(rt: HostRuntime) {
    run(&rt, rt.alloc(), from(Side::Left), 2, Look::PutsFirst);
}

#[test]
fn a_refused_pair_ends_the_run(rt: HostRuntime) {
    run(&rt, rt.alloc(), from(Side::Left), 2, Look::IsRefused);
}
