//! Which threads turn the cores of a chain, and how often.
use crate::cases::{EQUI, LARGE, SHORT, run};
use crate::summaries::ONE_ROW;
use hj_base::{CoreNo, Gate};
use std::alloc::Global;
use std::process::Abort;
use std::sync::Wait;
use std::sync::atomic::{AtomicBool, AtomicU64, Ordering};
use std::thread;
use std::thread::Threads;
use std::time::Clock;

/// Two left rows and the right one between them, which matches both.
const THREE_ROWS: &str = ";on l.k = r.k;1,7/3,7/;2,7/;1,7,2,7/3,7,2,7/;;0";

/// The two pairs of these rows, joined with a third stream.
const TWO_JOINS: &str = ";on l.k = r.k;1,7/3,7/;2,7/;2,1,7,2,7,3,7/3,3,7,2,7,3,7/;;0;\
left (ts int, a int, b int, c int, d int) right (ts int, k int) window left rows 10 window right rows 10 on l.b = r.k;3,7/";

/// Counts the turns of two cores.
#[derive(Drop)]
struct CountingGate {
    left: AtomicU64,
    right: AtomicU64,
}

impl Gate for CountingGate {
    fn pass(&self, core: CoreNo, _call: u64) {
        let turns = if core.0 == 0 { &self.left } else { &self.right };
        turns.fetch_add(1, Ordering::SeqCst);
    }
}

#[test]
fn turns_a_core_once_for_each_message(rt: HostRuntime) {
    let gate = CountingGate {
        left: AtomicU64::new(0),
        right: AtomicU64::new(0),
    };
    let command = "join --cores 2 --threads 0 query left right";
    run(&rt, rt.alloc(), command, THREE_ROWS, SHORT, &gate);
    // Each has the three rows and both closes; besides, the left one has the ends of two rows, the right one an acknowledgement
    // and an end.
    assert!(rt; gate.left.load(Ordering::SeqCst) == 7);
    assert!(rt; gate.right.load(Ordering::SeqCst) == 7);
}

/// Holds the first turns of some cores, from the left, until a number of cores have come to theirs, for a number of tries.
#[derive(Drop)]
struct MeetingGate {
    held: u16,
    wanted: u64,
    came: AtomicU64,
    gave_up: AtomicBool,
}

impl Gate for MeetingGate {
    fn pass(&self, core: CoreNo, call: u64) {
        if call > 0 {
            return;
        }
        self.came.fetch_add(1, Ordering::SeqCst);
        if core.0 >= self.held {
            return;
        }
        for _ in 0..1_000_000 {
            if self.came.load(Ordering::SeqCst) >= self.wanted {
                return;
            }
            thread::yield_now();
        }
        self.gave_up.store(true, Ordering::SeqCst);
    }
}

/// Shows that each core has a thread of its own, else no held turn would end before that of another core.
#[test]
fn turns_each_core_in_a_thread_of_its_own(rt: HostRuntime) {
    for (command, case, held, wanted) in [
        (
            "join --cores 2 --threads 2 query left right",
            THREE_ROWS,
            1,
            2,
        ),
        (
            "join --cores 4 --threads 4 query left right",
            THREE_ROWS,
            4,
            4,
        ),
        (EQUI, THREE_ROWS, 4, 4),
        ("gen 1 1 1 1", ONE_ROW, 4, 4),
        (
            "twice --cores 2 --threads 2 query left right second third",
            TWO_JOINS,
            1,
            2,
        ),
    ] {
        let gate = MeetingGate {
            held,
            wanted,
            came: AtomicU64::new(0),
            gave_up: AtomicBool::new(false),
        };
        run(&rt, rt.alloc(), command, case, SHORT, &gate);
        assert!(rt; !gate.gave_up.load(Ordering::SeqCst));
    }
}

/// Sums up the cores of the steps, in their order.
#[derive(Drop)]
struct OrderGate(AtomicU64);

impl Gate for OrderGate {
    fn pass(&self, core: CoreNo, _call: u64) {
        let sum = self.0.load(Ordering::SeqCst).wrapping_mul(31);
        self.0
            .store(sum.wrapping_add(u64::from(core.0)), Ordering::SeqCst);
    }
}

/// Returns the sum of the cores of all steps of three cores under these options, where the rows of a stream come by one read.
fn order_under(
    rt: &(impl Abort + Threads + Wait + Clock + Sync),
    alloc: Global,
    options: &str,
) -> u64 {
    let gate = OrderGate(AtomicU64::new(0));
    let command = format!(in alloc; "join --cores 3 --threads 0 {options} query left right");
    let command = command.expect(rt, "memory");
    run(rt, alloc, &command, THREE_ROWS, LARGE, &gate);
    gate.0.load(Ordering::SeqCst)
}

/// Shows that the seed of the schedule is handed on to the chain, and how many events may be under way.
#[test]
fn makes_its_steps_in_the_order_of_the_options(rt: HostRuntime) {
    let drawn = order_under(&rt, rt.alloc(), "--schedule 1");
    assert!(rt; order_under(&rt, rt.alloc(), "--schedule 1 --flight 32") == drawn);
    for options in ["", "--schedule 2", "--schedule 1 --flight 1"] {
        assert!(rt; order_under(&rt, rt.alloc(), options) != drawn, "{options}");
    }
}
