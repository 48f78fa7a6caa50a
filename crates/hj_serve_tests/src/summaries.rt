//! Summaries of streams that are made.
use crate::cases::{LARGE, World, run_all, run_once, words_of};
use hj_base::{MemSink, OpenGate};
use hj_gen::{streams, summary};
use std::alloc::Global;
use std::process::Abort;
use std::sync::Wait;
use std::thread::Threads;
use std::time::Clock;

/// The summary of a row a side, which match.
pub const ONE_ROW: &str = ";?;?;?;events 2 pairs 1 bytes 8 mix 1416097205227/;;0";

#[test]
fn sums_up_streams_that_it_makes(rt: HostRuntime) {
    run_all(&rt, rt.alloc(), &["gen 1 1 1 1"], ONE_ROW);
    let no_row = ";?;?;?;events 0 pairs 0 bytes 0 mix 0/;;0";
    run_all(&rt, rt.alloc(), &["gen 0 1 1 1"], no_row);
    let refused = "write 1;?;?;?;;sink/;5";
    run_once(&rt, rt.alloc(), &["gen 1 1 1 1"], refused);
}

/// Returns what a command writes over a query and two streams; it ends well.
fn written(
    rt: &(impl Abort + Threads + Wait + Clock + Sync),
    alloc: Global,
    command: &str,
    query: &[u8],
    left: &[u8],
    right: &[u8],
) -> MemSink {
    let words = words_of(rt, alloc, command);
    let mut world = World::new(alloc, LARGE);
    world.add(rt, "query", query);
    world.add(rt, "left", left);
    world.add(rt, "right", right);
    let status = world.serve(rt, alloc, &words, &OpenGate);
    assert!(rt; status == 0);
    world.written()
}

/// Equal keys, over windows of 64 rows.
const SIXTY_FOUR: &str = "\
left (ts int, key int) right (ts int, key int) window left rows 64 window right rows 64 on l.key = r.key";

/// The summary of 20,000 rows a side, of 500 keys, over windows of 64 rows.
const MANY_ROWS: &str = "gen 20000 500 1 64";

/// Returns what the calling thread alone writes of the join of these rows.
fn joined_alone(rt: &(impl Abort + Threads + Wait + Clock + Sync), alloc: Global) -> MemSink {
    let made = streams(alloc, 20_000, 500, 1).expect(rt, "memory");
    written(
        rt,
        alloc,
        "join --threads 0 query left right",
        SIXTY_FOUR.as_bytes(),
        made.left.bytes(),
        made.right.bytes(),
    )
}

#[test]
fn sums_up_what_a_serial_join_writes(rt: HostRuntime) {
    let text = joined_alone(&rt, rt.alloc());
    // Of 20,000 rows of a side all but the last 64 expire.
    let line = summary(rt.alloc(), 2 * (20_000 + 20_000 - 64), text.bytes());
    let found = written(&rt, rt.alloc(), MANY_ROWS, b"", b"", b"");
    assert!(rt; found.bytes() == line.expect(&rt, "memory").bytes());
}

#[test]
fn sums_up_the_same_again(rt: HostRuntime) {
    let first = written(&rt, rt.alloc(), MANY_ROWS, b"", b"", b"");
    let again = written(&rt, rt.alloc(), MANY_ROWS, b"", b"", b"");
    assert!(rt; first.bytes() == again.bytes());
}
