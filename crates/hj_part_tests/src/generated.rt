//! Streams that a seed determines, and sums of what was joined.

use crate::texts::{case, same};
use hj_gen::{Tally, TwoStreams, streams, summary};
use std::alloc::Global;
use std::process::Abort;

/// How many rows a stream has, how many keys, the seed, and after a bar both streams.
const STREAMS: &str = "\
1 1 1 | 2,0⏎ => 1,0⏎
0 1 1 | ε => ε
3 100 1 | 2,53⏎2,70⏎2,95⏎ => 1,82⏎1,4⏎3,99⏎
2 1000000000 18446744073709551615 | 1,490332343⏎2,901017602⏎ => 2,218396424⏎3,861605236⏎";

/// Makes the streams of these three numbers.
fn made(rt: &impl Abort, alloc: Global, numbers: &str) -> TwoStreams {
    let (n, behind) = numbers.split_once(' ').expect(rt, "keys");
    let (keys, seed) = behind.split_once(' ').expect(rt, "a seed");
    let n = n.parse::<u32>().expect(rt, "a number");
    let keys = keys.parse::<u32>().expect(rt, "a number");
    let seed = seed.parse::<u64>().expect(rt, "a number");
    assert!(rt; keys > 0);
    streams(alloc, n, keys, seed).expect(rt, "memory")
}

/// Asserts that the numbers on a line make the streams on it.
fn makes(rt: &impl Abort, alloc: Global, line: &str) {
    let (numbers, behind) = line.split_once(" | ").expect(rt, "a case");
    let (left, right) = case(rt, alloc, behind);
    let two = made(rt, alloc, numbers);
    same(rt, line, two.left.bytes(), &left);
    same(rt, line, two.right.bytes(), &right);
}

#[test]
fn makes_streams(rt: HostRuntime) {
    for line in STREAMS.lines() {
        makes(&rt, rt.alloc(), line);
    }
}

/// How many events came, the lines of what they joined, and the sums.
const SUMS: &str = "\
2 | 2,0,1,0⏎ => events 2 pairs 1 bytes 8 mix 1416097205227⏎
0 | ε => events 0 pairs 0 bytes 0 mix 0⏎
5 | 1,0,1,0⏎1,0,2,0⏎ => events 5 pairs 2 bytes 16 mix 11936216673693296247⏎";

fn sums(rt: &impl Abort, alloc: Global, line: &str) {
    let (events, behind) = line.split_once(" | ").expect(rt, "a case");
    let events = events.parse::<u64>().expect(rt, "a number");
    let (text, want) = case(rt, alloc, behind);
    let found = summary(alloc, events, &text).expect(rt, "memory");
    same(rt, line, found.bytes(), &want);
}

#[test]
fn sums_up(rt: HostRuntime) {
    for line in SUMS.lines() {
        sums(&rt, rt.alloc(), line);
    }
}

#[test]
fn sums_up_pieces(rt: HostRuntime) {
    let mut tally = Tally::new();
    for piece in ["2,0", "", ",1,0\n"] {
        assert!(rt; tally.has_room(piece.len()));
        tally.take(piece.as_bytes());
    }
    let line = tally.line(rt.alloc(), 2).expect(&rt, "memory");
    let want = b"events 2 pairs 1 bytes 8 mix 1416097205227\n";
    same(&rt, "pieces", line.bytes(), want);
}
