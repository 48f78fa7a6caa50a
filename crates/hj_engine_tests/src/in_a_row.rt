//! Two joins in a row: the pairs of the first one are the left stream of the second one.
use crate::cases::query_of;
use crate::runs::run_all;
use hj_relay::fits;
use std::alloc::Global;
use std::process::Abort;

const KEYS: &str =
    "left (ts int, k int) right (ts int, k int) window left rows 10 window right rows 10 on l.k = r.k";

const PAIRS_BY_KEY: &str =
    "left (ts int, a int, b int, c int, d int) right (ts int, k int) window left rows 10 window right rows 10 on l.b = r.k";

/// Two pairs of two left rows with a right one, and a third stream whose row both meet.
pub(crate) const TWO_JOINS: &str = "\
3;left (ts int, k int) right (ts int, k int) window left rows 10 window right rows 10 on l.k = r.k;1,7/3,7/;2,7/;\
Done { first: 3, second: 3 };2,1,7,2,7,3,7/3,3,7,2,7,3,7/;\
left (ts int, a int, b int, c int, d int) right (ts int, k int) window left rows 10 window right rows 10 on l.b = r.k;3,7/";

/// How joins of other streams end, and of texts.
const OTHERS: &str = "\
3;left (ts int, k int) right (ts int, k int) window left rows 10 window right rows 10 on l.k = r.k;1,7/3,7/;2,7/;\
Done { first: 3, second: 2 };;\
left (ts int, a int, b int, c int, d int) right (ts int, k int) window left rows 10 window right rows 10 on l.b = r.k;
3;left (ts int, k int) right (ts int, k int) window left rows 10 window right rows 10 on l.k = r.k;1,7/x,7/;2,7/;\
First(Bad { side: Left, at: 2, fault: Row(NotNumber(1)) });;\
left (ts int, a int, b int, c int, d int) right (ts int, k int) window left rows 10 window right rows 10 on l.b = r.k;3,7/
3;left (ts int, k int) right (ts int, k int) window left rows 10 window right rows 10 on l.k = r.k;1,7/3,7/;2,7/;\
Second(Bad { side: Right, at: 1, fault: Row(NotNumber(1)) });;\
left (ts int, a int, b int, c int, d int) right (ts int, k int) window left rows 10 window right rows 10 on l.b = r.k;x,7/
2;left (ts int, k int) right (ts int, k int) window left rows 10 window right rows 10 on l.k = r.k;1,7/3,7/;2,7/;\
First(TooMany);;\
left (ts int, a int, b int, c int, d int) right (ts int, k int) window left rows 10 window right rows 10 on l.b = r.k;3,7/
3;left (ts int, k int) right (ts int, k int) window left rows 10 window right rows 10 on l.k = r.k;1,7/3,7/;2,7/;\
Second(TooMany);2,1,7,2,7,3,7/3,3,7,2,7,3,7/;\
left (ts int, a int, b int, c int, d int) right (ts int, k int) window left rows 10 window right rows 10 on l.b = r.k;3,7/4,7/
3;left (ts int, t text) right (ts int, t text) window left rows 9 window right rows 9 on l.t = r.t;-1,\"a,\"\"b/\"/;-1,\"a,\"\"b/\"/;\
Done { first: 2, second: 2 };-1,-1,\"a,\"\"b/\",-1,\"a,\"\"b/\",5,\"a,\"\"b/\"/;\
left (ts int, a int, t text, b int, u text) right (ts int, t text) window left rows 9 window right rows 9 on l.u = r.t;5,\"a,\"\"b/\"/";

#[test]
fn joins_twice_on_one_thread_and_on_three(rt: HostRuntime) {
    let ways = "serial 4 32, threads 4 32 3 0";
    run_all(&rt, rt.alloc(), ways, TWO_JOINS);
    run_all(&rt, rt.alloc(), ways, OTHERS);
}

/// A pair of the longest row; `LONG` stands for 65,520 letters.
const LONG_PAIR: &str = "\
3;left (ts int, t text) right (ts int, k int) window left rows 9 window right rows 9 on l.ts = r.ts;1,LONG/;1,1000000000000000000/;\
Second(Bad { side: Left, at: 1, fault: Piece(TooLong) });;\
left (ts int, a int, t text, b int, k int) right (ts int, k int) window left rows 9 window right rows 9 on l.b = r.k;3,7/";

#[test]
fn refuses_a_pair_whose_line_is_too_long(rt: HostRuntime) {
    let long = "a".repeat(rt.alloc(), 65_520).expect(&rt, "memory");
    let table = LONG_PAIR.replace(rt.alloc(), "LONG", &long);
    run_all(&rt, rt.alloc(), "serial 1 32", &table.expect(&rt, "memory"));
}

/// Tells whether the second of two queries fits the first.
fn fit(rt: &impl Abort, alloc: Global, first: &str, second: &str) -> bool {
    fits(&query_of(rt, alloc, first), &query_of(rt, alloc, second))
}

#[test]
fn tells_which_queries_fit(rt: HostRuntime) {
    assert!(rt; fit(&rt, rt.alloc(), KEYS, PAIRS_BY_KEY));
    assert!(rt; !fit(&rt, rt.alloc(), KEYS, KEYS));
}

const NO_THIRD: &str = "\
3;left (ts int, k int) right (ts int, k int) window left rows 10 window right rows 10 on l.k = r.k;1,7/3,7/;2,7/;\
Second(SourceFault(Third));;\
left (ts int, a int, b int, c int, d int) right (ts int, k int) window left rows 10 window right rows 10 on l.b = r.k;?";

#[test]
fn tells_a_failed_read_of_the_third_stream(rt: HostRuntime) {
    run_all(&rt, rt.alloc(), "serial 2 32 3", NO_THIRD);
}
