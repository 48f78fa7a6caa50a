//! Pairs in their order.

use crate::lines::{halves, number, shows, words};
use hj_base::EventNo;
use hj_collect::{Mark, Ordered};
use hj_msg::Pair;
use std::alloc::Global;
use std::process::Abort;

/// Makes a left row and a right one, each row being its own number.
fn pair_of(rt: &impl Abort, text: &str) -> Pair<u64> {
    let (left, right) = words(rt, text);
    let (left, right) = (number(rt, left), number(rt, right));
    Pair {
        left_no: EventNo(left),
        right_no: EventNo(right),
        left,
        right,
    }
}

fn pairs_of(rt: &impl Abort, alloc: Global, text: &str) -> Vec<Pair<u64>> {
    let mut pairs = Vec::new(alloc);
    for pair in text.split(", ") {
        pairs.push(pair_of(rt, pair)).expect(rt, "memory");
    }
    pairs
}

/// Marks, the number up to which pairs may come or all, and the rows of the pair that comes.
const RELEASED: &str = "\
3: None
5: Some((1, 4))
5: Some((3, 4))
5: None
7: Some((6, 5))
7: Some((0, 7))
7: Some((7, 2))
8: None
all: Some((9, 8))
all: None";

fn mark(rt: &impl Abort, text: &str) -> Mark {
    if text == "all" {
        Mark::All
    } else {
        Mark::UpTo(EventNo(number(rt, text)))
    }
}

/// Returns the rows of a pair.
fn rows_of(pair: Option<Pair<u64>>) -> Option<(u64, u64)> {
    let pair = pair?;
    Some((pair.left, pair.right))
}

/// Lets the pair of a line out.
fn releases(rt: &impl Abort, alloc: Global, ordered: &mut Ordered<u64>, line: &str) {
    let (up_to, want) = halves(rt, line);
    let rows = rows_of(ordered.release(mark(rt, up_to)));
    shows(rt, alloc, line, &rows, want);
}

/// Adds some pairs.
fn adds(rt: &impl Abort, alloc: Global, ordered: &mut Ordered<u64>, pairs: &str) {
    ordered.add(pairs_of(rt, alloc, pairs)).expect(rt, "memory");
}

#[test]
fn pairs_come_by_their_numbers(rt: HostRuntime) {
    let mut ordered = Ordered::new(rt.alloc());
    assert!(rt; ordered.release(Mark::All).is_none());
    adds(&rt, rt.alloc(), &mut ordered, "7 2, 3 4, 9 8");
    adds(&rt, rt.alloc(), &mut ordered, "0 7, 6 5, 1 4");
    for line in RELEASED.lines() {
        releases(&rt, rt.alloc(), &mut ordered, line);
    }
}
