ghost use Rattle.std.specs.Prelude.{◌<◌, ◌≤◌};

use crate::lines::{halves, same, told};
use crate::rows::{Cross, Row, message, sent};
use hj_base::{CoreNo, Full, Gate, OpenGate};
use hj_core::Core;
use hj_link::{LeftEnd, Receiver, RightEnd, duplex, one_way};
use hj_msg::{Join, Msg, Report, Store};
use hj_rows::ListStore;
use hj_worker::Worker;
use std::alloc::Global;
use std::cell::Cell;
use std::process::Abort;

type RowWorker = Worker<Row, Cross, ListStore<Row>>;

/// The second of two cores, with the other ends of its links.
#[derive(Drop)]
struct Bench {
    worker: RowWorker,
    left: LeftEnd<Msg<Row>>,
    right: RightEnd<Msg<Row>>,
    reports: Receiver<Report<Row>>,
}

fn set_up(rt: &impl Abort, alloc: Global, capacity: usize) -> Bench
    requires { (0 < capacity) × (capacity ≤ 514) }
{
    let (left, at_left) = duplex(alloc, capacity).expect(rt, "memory");
    let (at_right, right) = duplex(alloc, capacity).expect(rt, "memory");
    let (sender, reports) = one_way(alloc, capacity).expect(rt, "memory");
    let core = Core::new(
        Cross,
        ListStore::new(alloc),
        ListStore::new(alloc),
        CoreNo(1),
        2,
        alloc,
    );
    Bench {
        worker: Worker::new(core, at_left, at_right, sender),
        left,
        right,
        reports,
    }
}

/// Makes a step at a worker: a message comes on the link to the left or on that to the right, the worker is called, or what is
/// at the other end of a link, or of the reports, is taken. Answers what came of it.
fn made(rt: &impl Abort, alloc: Global, bench: &mut Bench, step: &str, what: &str) -> String {
    match step {
        "from left" => comes(rt, alloc, bench.left.put(0, message(rt, what)), what),
        "from right" => comes(rt, alloc, bench.right.put(0, message(rt, what)), what),
        "turn" => turned(rt, alloc, bench),
        "to left" => told(rt, alloc, &bench.left.take(0)),
        "to right" => told(rt, alloc, &bench.right.take(0)),
        "reports" => told(rt, alloc, &bench.reports.take(0)),
        _ => panic!(rt; "no step: {step}"),
    }
}

/// Returns the message that was put, where there was room for it.
fn comes(rt: &impl Abort, alloc: Global, put: Result<(), Full<Msg<Row>>>, msg: &str) -> String {
    let text = if put.is_ok() { msg } else { "no room" };
    String::from_str(alloc, text).expect(rt, "memory")
}

/// Tells what the worker answers its call.
fn turned(rt: &impl Abort, alloc: Global, bench: &mut Bench) -> String {
    assert!(rt; !bench.worker.spent());
    told(rt, alloc, &bench.worker.turn(&OpenGate))
}

/// Makes the step of a line, and looks what comes of it.
fn makes(rt: &impl Abort, alloc: Global, bench: &mut Bench, line: &str) {
    let (step, what) = halves(rt, line);
    let found = made(rt, alloc, bench, step, what);
    same(rt, line, &found, what);
}

/// Makes the steps at a worker over links with so much room, and returns the place of its core once its parts are handed back. A
/// line is a step, and what comes or is wanted.
fn run(rt: &impl Abort, alloc: Global, capacity: usize, steps: &str) -> CoreNo
    requires { (0 < capacity) × (capacity ≤ 514) }
{
    let mut bench = set_up(rt, alloc, capacity);
    for line in steps.lines() {
        makes(rt, alloc, &mut bench, line);
    }
    bench.worker.parts().place
}

/// The row 3 is taken, and nothing of it can be put before what was put of row 1 is taken.
const FULL_PLACES: &str = "\
turn: Idle
from left: R 1 7
turn: Did
from left: R 3 8
turn: Blocked(Reports)
reports: Some(Handled { no: EventNo(1), side: Left, row: Row(7), partners: Partners { alloc: Global, found: Nothing } })
turn: Did
turn: Blocked(Link(Left))
to left: Some(EndR(EventNo(1)))
turn: Blocked(Link(Right))
to right: Some(R { no: EventNo(1), row: Row(7) })
turn: Did
to left: Some(EndR(EventNo(3)))
to right: Some(R { no: EventNo(3), row: Row(8) })
reports: Some(Handled { no: EventNo(3), side: Left, row: Row(8), partners: Partners { alloc: Global, found: Nothing } })
turn: Idle";

#[test]
fn full_places_block(rt: HostRuntime) {
    let place = run(&rt, rt.alloc(), 1, FULL_PLACES);
    assert!(rt; place == CoreNo(1));
}

/// A right row comes first, and a left row meets it in flight.
const IN_FLIGHT: &str = "\
from right: S 1 8
turn: Did
from left: R 0 7
turn: Did
to left: Some(S { no: EventNo(1), row: Row(8) })
to left: Some(EndR(EventNo(0)))
to right: Some(R { no: EventNo(0), row: Row(7) })
reports: Some(Handled { no: EventNo(1), side: Right, row: Row(8), partners: Partners { alloc: Global, found: Nothing } })
reports: Some(Handled { no: EventNo(0), side: Left, row: Row(7), \
partners: Partners { alloc: Global, found: One(Partner { no: EventNo(1), row: Row(8) }) } })";

#[test]
fn rows_meet_in_flight(rt: HostRuntime) {
    run(&rt, rt.alloc(), 4, IN_FLIGHT);
}

const CLOSES: &str = "\
from left: CloseL
from right: CloseR
turn: Did
to right: Some(CloseL)
reports: None
turn: Did
to left: Some(CloseR)
reports: Some(Ended)
turn: Ended
turn: Ended";

#[test]
fn ends_after_both_closes(rt: HostRuntime) {
    run(&rt, rt.alloc(), 4, CLOSES);
}

const FROM_BOTH_ENDS: &str = "\
from left: ExpS 0
from left: ExpS 1
from right: ExpR 2
turn: Did
to right: Some(ExpS(EventNo(0)))
turn: Did
to right: None
to left: Some(ExpR(EventNo(2)))
reports: None";

#[test]
fn looks_at_either_end_first(rt: HostRuntime) {
    run(&rt, rt.alloc(), 4, FROM_BOTH_ENDS);
}

/// The row 13 can't be shared.
const UNSHARED_ROW: &str = "\
from left: R 1 13
turn: NoMemory
reports: Some(NoMemory)
from left: R 3 7
turn: NoMemory
to right: None
reports: None";

#[test]
fn keeps_the_refused_message(rt: HostRuntime) {
    run(&rt, rt.alloc(), 4, UNSHARED_ROW);
}

/// Keeps what it was called with last, and counts its calls.
#[derive(Drop)]
struct NotingGate {
    last: Cell<Option<(CoreNo, u64)>>,
    passes: Cell<u64>,
}

impl Gate for NotingGate {
    fn pass(&self, core: CoreNo, call: u64) {
        self.last.set(Some((core, call)));
        self.passes.set(self.passes.get().saturating_add(1));
    }
}

/// Calls a worker, and looks what its gate was told: how many calls there were before.
fn passes(rt: &impl Abort, worker: &mut RowWorker, gate: &NotingGate, call: u64) {
    assert!(rt; !worker.spent());
    worker.turn(gate);
    assert!(rt; gate.last.get() == Some((CoreNo(1), call)));
}

#[test]
fn passes_the_gate_in_each_call(rt: HostRuntime) {
    let mut bench = set_up(&rt, rt.alloc(), 1);
    let gate = NotingGate {
        last: Cell::new(None),
        passes: Cell::new(0),
    };
    for call in 0..3 {
        passes(&rt, &mut bench.worker, &gate, call);
    }
    assert!(rt; gate.passes.get() == 3);
}

/// Shows that a worker goes to another thread where its rows, its join and its stores do.
fn sent_worker<P: Send + Sync + Drop, J: Join<P> + Send, S: Store<P, J> + Send>(
    worker: Worker<P, J, S>,
) -> Worker<P, J, S> {
    sent(worker)
}

#[test]
fn workers_are_sent(rt: HostRuntime) {
    let bench = set_up(&rt, rt.alloc(), 1);
    let worker = sent_worker(bench.worker);
    assert!(rt; !worker.spent());
}
