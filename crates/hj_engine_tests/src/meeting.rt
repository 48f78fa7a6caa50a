//! Which threads turn the cores of a join.
use crate::in_a_row::TWO_JOINS;
use crate::joins::THREE_ROWS;
use crate::runs::run;
use hj_base::{CoreNo, Gate};
use std::alloc::Global;
use std::process::Abort;
use std::sync::Wait;
use std::sync::atomic::{AtomicBool, AtomicU64, Ordering};
use std::thread::{self, Threads};
use std::time::Clock;

/// Holds the first turn of each core until all cores of its join have come to theirs, for a number of tries.
#[derive(Drop)]
struct MeetingGate {
    cores: u64,
    came: AtomicU64,
    gave_up: AtomicBool,
}

impl MeetingGate {
    /// Returns how many cores come up to the end of a join to which a core comes behind so many.
    fn all(&self, before: u64) -> u64 {
        if before < self.cores {
            self.cores
        } else {
            self.cores.saturating_mul(2)
        }
    }
}

impl Gate for MeetingGate {
    fn pass(&self, _core: CoreNo, call: u64) {
        if call > 0 {
            return;
        }
        let all = self.all(self.came.fetch_add(1, Ordering::SeqCst));
        for _ in 0..1_000_000 {
            if self.came.load(Ordering::SeqCst) >= all {
                return;
            }
            thread::yield_now();
        }
        self.gave_up.store(true, Ordering::SeqCst);
    }
}

/// Shows that each core of a case's joins has a thread of its own, else no first turn would end before that of another.
fn meets<R: Abort + Threads + Wait + Clock + Sync>(
    rt: &R,
    alloc: Global,
    cores: u64,
    way: &str,
    line: &str,
) {
    let gate = MeetingGate {
        cores,
        came: AtomicU64::new(0),
        gave_up: AtomicBool::new(false),
    };
    run(rt, alloc, way, line, &gate);
    assert!(rt; !gate.gave_up.load(Ordering::SeqCst));
}

#[test]
fn turns_each_core_in_a_thread_of_its_own(rt: HostRuntime) {
    meets(&rt, rt.alloc(), 2, "threads 2 32 2 0", THREE_ROWS);
    meets(&rt, rt.alloc(), 4, "threads 4 32 4 0", THREE_ROWS);
}

#[test]
fn turns_the_cores_of_both_joins_in_threads(rt: HostRuntime) {
    meets(&rt, rt.alloc(), 2, "threads 2 32 2 0", TWO_JOINS);
}
