//! Joins of two streams, serial and on threads.
use crate::runs::{run, run_all};
use hj_base::{CoreNo, Gate};
use std::alloc::Global;
use std::process::Abort;
use std::sync::Wait;
use std::sync::atomic::{AtomicU64, Ordering};
use std::thread::Threads;
use std::time::Clock;

/// Rows at 1, 3, .. and at 2, 4, .., of which each is joined with the one before it and the one after it.
const NEIGHBOURS: &str = "\
100;left (ts int, k int) right (ts int, k int) window left rows 1 window right rows 1 on l.k = r.k;\
1,7/3,7/5,7/7,7/9,7/11,7/13,7/15,7/17,7/19,7/21,7/23,7/25,7/27,7/29,7/31,7/33,7/35,7/37,7/39,7/;\
2,7/4,7/6,7/8,7/10,7/12,7/14,7/16,7/18,7/20,7/22,7/24,7/26,7/28,7/30,7/32,7/34,7/36,7/38,7/40,7/;\
Done { events: 78 };\
1,7,2,7/3,7,2,7/3,7,4,7/5,7,4,7/5,7,6,7/7,7,6,7/7,7,8,7/9,7,8,7/9,7,10,7/11,7,10,7/\
11,7,12,7/13,7,12,7/13,7,14,7/15,7,14,7/15,7,16,7/17,7,16,7/17,7,18,7/19,7,18,7/19,7,20,7/21,7,20,7/\
21,7,22,7/23,7,22,7/23,7,24,7/25,7,24,7/25,7,26,7/27,7,26,7/27,7,28,7/29,7,28,7/29,7,30,7/31,7,30,7/\
31,7,32,7/33,7,32,7/33,7,34,7/35,7,34,7/35,7,36,7/37,7,36,7/37,7,38,7/39,7,38,7/39,7,40,7/";

#[test]
fn joins_neighbours_one_event_at_a_time(rt: HostRuntime) {
    run_all(&rt, rt.alloc(), "serial 4 1, serial 1 1", NEIGHBOURS);
}

pub(crate) const TRADES_AND_QUOTES: &str = "\
20;left (ts int, sym text, px int, qty int) right (ts int, sym text, bid int, size int) \
window left rows 100 window right time 5000 on l.sym = r.sym and l.px within 10 of r.bid and not l.qty < r.size;\
1000,AB,100,50/1500,CD,200,10/2000,AB,105,30/3000,AB,120,80/4000,CD,195,40/6000,AB,98,60/7000,CD,207,25/9000,AB,111,90/;\
1000,AB,101,40/1200,CD,205,20/2500,AB,108,30/3500,CD,190,40/5000,AB,110,70/6000,AB,99,60/7500,CD,200,20/9000,AB,115,50/;\
Done { events: 20 };\
1000,AB,100,50,1000,AB,101,40/1000,AB,100,50,2500,AB,108,30/2000,AB,105,30,2500,AB,108,30/\
4000,CD,195,40,1200,CD,205,20/4000,CD,195,40,3500,CD,190,40/3000,AB,120,80,5000,AB,110,70/\
6000,AB,98,60,2500,AB,108,30/6000,AB,98,60,6000,AB,99,60/4000,CD,195,40,7500,CD,200,20/\
7000,CD,207,25,7500,CD,200,20/9000,AB,111,90,5000,AB,110,70/3000,AB,120,80,9000,AB,115,50/\
9000,AB,111,90,9000,AB,115,50/";

/// By one core, four and sixty-four, each in turn and by two seeds.
const CHAINS: &str =
    "serial 1 32, serial 1 32 1, serial 1 32 2, serial 4 32, serial 4 32 1, serial 4 32 2, \
serial 64 32, serial 64 32 1, serial 64 32 2";

#[test]
fn joins_trades_with_quotes_by_every_chain(rt: HostRuntime) {
    run_all(&rt, rt.alloc(), CHAINS, TRADES_AND_QUOTES);
}

/// How conditions on the last columns of two rows a side join them: by `=`, by `within`, and by neither.
const CONDITIONS: &str = "\
4;left (ts int, k int) right (ts int, n int, k int) window left rows 10 window right rows 10 on l.k = r.k;\
1,5/3,9/;2,0,7/4,0,9/;Done { events: 4 };3,9,4,0,9/
4;left (ts int, k int) right (ts int, n int, k int) window left rows 10 window right rows 10 on l.k within 2 of r.k;\
1,5/3,9/;2,0,7/4,0,9/;Done { events: 4 };1,5,2,0,7/3,9,2,0,7/3,9,4,0,9/
4;left (ts int, k int) right (ts int, n int, k int) window left rows 10 window right rows 10 on l.k < r.k;\
1,5/3,9/;2,0,7/4,0,9/;Done { events: 4 };1,5,2,0,7/1,5,4,0,9/";

#[test]
fn joins_by_each_kind_of_condition(rt: HostRuntime) {
    run_all(&rt, rt.alloc(), "serial 1 32, serial 2 32", CONDITIONS);
}

/// Two left rows and the right one between them, which matches both.
pub(crate) const THREE_ROWS: &str = "\
3;left (ts int, k int) right (ts int, k int) window left rows 10 window right rows 10 on l.k = r.k;\
1,7/3,7/;2,7/;Done { events: 3 };1,7,2,7/3,7,2,7/";

/// Counts its calls for each of two cores.
#[derive(Drop)]
struct CountingGate {
    first: AtomicU64,
    second: AtomicU64,
}

impl Gate for CountingGate {
    fn pass(&self, core: CoreNo, _call: u64) {
        let count = if core.0 == 0 {
            &self.first
        } else {
            &self.second
        };
        count.fetch_add(1, Ordering::SeqCst);
    }
}

/// Tells how often the two cores of a way pass the gate in the join of three rows.
fn passes<R: Abort + Threads + Wait + Clock + Sync>(
    rt: &R,
    alloc: Global,
    way: &str,
) -> (u64, u64) {
    let gate = CountingGate {
        first: AtomicU64::new(0),
        second: AtomicU64::new(0),
    };
    run(rt, alloc, way, THREE_ROWS, &gate);
    (
        gate.first.load(Ordering::SeqCst),
        gate.second.load(Ordering::SeqCst),
    )
}

/// Shows that each of two cores makes a step for each message, and one core alone one for each event.
#[test]
fn passes_the_gate_before_each_step_of_a_core(rt: HostRuntime) {
    assert_eq!(rt; passes(&rt, rt.alloc(), "serial 2 32"), (7, 7));
    assert_eq!(rt; passes(&rt, rt.alloc(), "serial 1 32"), (3, 0));
}

#[test]
fn joins_neighbours_on_threads_one_event_at_a_time(rt: HostRuntime) {
    let ways = "threads 4 1 4 0, threads 1 1 4 0";
    run_all(&rt, rt.alloc(), ways, NEIGHBOURS);
}

/// By one core, four and sixty-four on three threads, of which the calling thread turns no team, the first one, or all of them.
const CREWS: &str = "threads 1 32 3 0, threads 4 32 3 0, threads 64 32 3 0, threads 4 32 3 1, \
threads 1 32 3 3, threads 4 32 3 3, threads 64 32 3 3";

/// Shows that nothing changes where the calling thread turns the first team, or all of them, so that no thread is started.
#[test]
fn joins_trades_with_quotes_on_three_threads(rt: HostRuntime) {
    run_all(&rt, rt.alloc(), CREWS, TRADES_AND_QUOTES);
}
