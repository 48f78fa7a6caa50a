//! What two joins in a row write, and how they end.
use crate::cases::{run_all, run_once};

/// The second join of the calling thread alone, and that on threads.
const TWICE: [&str; 2] = [
    "twice --threads 0 query left right second third",
    "twice --threads 3 query left right second third",
];

/// Two pairs of two left rows with a right one, and a third stream. The second query's left rows are a time and the fields of a pair.
const PAIRS: &str = "\
;on l.k = r.k;1,7/3,7/;2,7/;2,1,7,2,7,3,7/3,3,7,2,7,3,7/;;0;\
left (ts int, a int, b int, c int, d int) right (ts int, k int) window left rows 10 window right rows 10 on l.b = r.k;3,7/
;on l.k = r.k;1,7/3,7/;2,7/;;;0;\
left (ts int, a int, b int, c int, d int) right (ts int, k int) window left rows 10 window right rows 10 on l.b = r.k;
;on l.k = r.k;1,7/x,7/;2,7/;;left record 2: NotNumber column 1/;3;\
left (ts int, a int, b int, c int, d int) right (ts int, k int) window left rows 10 window right rows 10 on l.b = r.k;3,7/
;on l.k = r.k;1,7/3,7/;2,7/;;third record 1: NotNumber column 1/;3;\
left (ts int, a int, b int, c int, d int) right (ts int, k int) window left rows 10 window right rows 10 on l.b = r.k;x,7/
;on l.k = r.k;1,7/3,7/;2,7/;2,1,7,2,7,3,7/3,3,7,2,7,3,7/;third record 2: TimeBack 3 2/;3;\
left (ts int, a int, b int, c int, d int) right (ts int, k int) window left rows 10 window right rows 10 on l.b = r.k;3,7/2,7/
;on l.k = r.k;1,7/3,7/;2,7/;;query: Shape/;2;on l.k = r.k;3,7/
;on l.k = r.k;1,7/3,7/;2,7/;;second query: Expected LeftWord at 0/;2;;3,7/";

#[test]
fn joins_the_pairs_of_a_join(rt: HostRuntime) {
    run_all(&rt, rt.alloc(), &TWICE, PAIRS);
}

/// Starts, reads and writes that fail.
const FAILURES: &str = "\
start query;on l.k = r.k;1,7/3,7/;2,7/;;source: query/;4;\
left (ts int, a int, b int, c int, d int) right (ts int, k int) window left rows 10 window right rows 10 on l.b = r.k;3,7/
start second;on l.k = r.k;1,7/3,7/;2,7/;;source: second query/;4;\
left (ts int, a int, b int, c int, d int) right (ts int, k int) window left rows 10 window right rows 10 on l.b = r.k;3,7/
start third;on l.k = r.k;1,7/3,7/;2,7/;;source: third/;4;\
left (ts int, a int, b int, c int, d int) right (ts int, k int) window left rows 10 window right rows 10 on l.b = r.k;3,7/
read left 1;on l.k = r.k;1,7/3,7/;2,7/;;source: left/;4;\
left (ts int, a int, b int, c int, d int) right (ts int, k int) window left rows 10 window right rows 10 on l.b = r.k;3,7/
read third 1;on l.k = r.k;1,7/3,7/;2,7/;;source: third/;4;\
left (ts int, a int, b int, c int, d int) right (ts int, k int) window left rows 10 window right rows 10 on l.b = r.k;3,7/
read third 2;on l.k = r.k;1,7/3,7/;2,7/;2,1,7,2,7,3,7/3,3,7,2,7,3,7/;source: third/;4;\
left (ts int, a int, b int, c int, d int) right (ts int, k int) window left rows 10 window right rows 10 on l.b = r.k;3,7/
write 1;on l.k = r.k;1,7/3,7/;2,7/;;sink/;5;\
left (ts int, a int, b int, c int, d int) right (ts int, k int) window left rows 10 window right rows 10 on l.b = r.k;3,7/";

#[test]
fn ends_where_the_outside_of_two_joins_fails(rt: HostRuntime) {
    run_once(&rt, rt.alloc(), &TWICE, FAILURES);
}

/// A limit holds for each of both joins: the first one has three events, the second one too.
const LIMITS: &str = "\
;on l.k = r.k;1,7/3,7/;2,7/;2,1,7,2,7,3,7/3,3,7,2,7,3,7/;;0;\
left (ts int, a int, b int, c int, d int) right (ts int, k int) window left rows 10 window right rows 10 on l.b = r.k;3,7/
;on l.k = r.k;1,7/3,7/;2,7/;2,1,7,2,7,3,7/3,3,7,2,7,3,7/;events: limit 3/;7;\
left (ts int, a int, b int, c int, d int) right (ts int, k int) window left rows 10 window right rows 10 on l.b = r.k;3,7/4,7/
;on l.k = r.k;1,7/3,7/;2,7/2,7/;;events: limit 3/;7;\
left (ts int, a int, b int, c int, d int) right (ts int, k int) window left rows 10 window right rows 10 on l.b = r.k;3,7/";

#[test]
fn numbers_the_events_of_each_join_up_to_the_limit(rt: HostRuntime) {
    let words = "twice --max-events 3 query left right second third";
    run_all(&rt, rt.alloc(), &[words], LIMITS);
}
