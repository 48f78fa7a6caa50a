//! What joins write.
use crate::cases::{ALONE, EQUI, JOIN, THREE, run_all, run_once};
use std::alloc::Global;
use std::process::Abort;
use std::sync::Wait;
use std::thread::Threads;
use std::time::Clock;

/// Joins on equal keys.
const KEYED: &str = "\
;on l.k = r.k;1,7/3,7/;2,7/;1,7,2,7/3,7,2,7/;;0
;on l.k = r.k;;;;;0
;on l.k = r.k;5,1/;5,1/;5,1,5,1/;;0
;on l.k = r.k;-2,+007/;-1,7;-2,7,-1,7/;;0
;on l.k = r.k;1,7/x,7/;2,7/;;left record 2: NotNumber column 1/;3
;on l.k = r.k;1,7/2,\"7;0,7/;1,7,0,7/;left record 2: OpenQuote/;3
;on l.k = r.k;;5,7/4,7/;;right record 2: TimeBack 5 4/;3
;on l.k = r.k;1,7//2,7,9/;;;left record 2: FieldCount 3/;3
;on l.k = r.k;1,7/;0,9223372036854775808;;right record 1: NumberRange column 2/;3
;on l.k = r.k;1,7/;?;;source: right/;4
;on l.k = r.k;?;1,7/;;source: left/;4";

#[test]
fn joins_on_equal_keys(rt: HostRuntime) {
    run_all(&rt, rt.alloc(), &[EQUI, JOIN], KEYED);
}

/// Pairs as one core meets them, with the marks between them.
const RAW: &str = "\
;on l.k = r.k;1,7/3,7/;2,7/;0,1,1,7,2,7/#0/2,1,3,7,2,7/#1/#all/;;0
;on l.k = r.k;;;#all/;;0
;on l.k = r.k;1,7/x,7/;2,7/;#all/;left record 2: NotNumber column 1/;3
;on l.k = r.k;1,7/;?;;source: right/;4";

#[test]
fn writes_pairs_as_they_are_met(rt: HostRuntime) {
    let words = "raw --cores 1 --threads 1 --flight 1 query left right";
    run_all(&rt, rt.alloc(), &[words], RAW);
}

#[test]
fn expires_rows_by_the_window(rt: HostRuntime) {
    run_all(
        &rt,
        rt.alloc(),
        &["equi 1 left right"],
        ";?;1,7/2,7/;3,7/;2,7,3,7/;;0",
    );
    run_all(
        &rt,
        rt.alloc(),
        &["equi 2 left right"],
        ";?;1,7/2,7/;3,7/;1,7,3,7/2,7,3,7/;;0",
    );
}

/// Joins under queries of their own.
const QUERIES: &str = "\
;left (ts int, k int) right (ts int, k int) window left time 5 window right rows 10 on l.k = r.k;0,7/;4,7/5,7/;0,7,4,7/;;0
;on l.k within 10 of r.k;1,-9223372036854775808/;2,9223372036854775807/;;;0
;left (ts int, name text) right (ts int, name text) window left rows 10 window right rows 10 on l.name = r.name;\
1,\"a,b\"~/2,\"say \"\"x\"\"\";3,\"a,b\"~/4,\"say \"\"x\"\"\";1,\"a,b\",3,\"a,b\"/2,\"say \"\"x\"\"\",4,\"say \"\"x\"\"\"/;;0
;left (ts int, t text) right (ts int, t text) window left rows 10 window right rows 10 on l.t = r.t;1,a\"b\"/;;;;0
;left (ts int, t text) right (ts int, t text) window left rows 10 window right rows 10 on l.t = r.t;1,a\"b/;;;left record 1: OpenQuote/;3
;left (ts int, t text) right (ts int, t text) window left rows 10 window right rows 10 on l.t = r.t;1,a~2,b/;;;left record 1: NotOneRecord/;3
;left (ts int, t text) right (ts int, t text) window left rows 10 window right rows 10 on l.t = r.t;\u{feff}1,a/;2,a/;1,a,2,a/;;0
;12ab;1,7/;1,7/;;query: BadByte at 2/;2
;left (ts int, ts int);1,7/;1,7/;;query: DoubleColumn at 14/;2
;?;1,7/;1,7/;;source: query/;4";

/// Trades, and the quotes near them.
const TRADES: &str = "\
;left (ts int, sym text, px int, qty int) right (ts int, sym text, bid int, size int) window left rows 100 window right time 5000 \
on l.sym = r.sym and l.px within 10 of r.bid and not l.qty < r.size;\
1000,AB,100,50/1500,CD,200,10/2000,AB,105,30/3000,AB,120,80/4000,CD,195,40/6000,AB,98,60/7000,CD,207,25/9000,AB,111,90/;\
1000,AB,101,40/1200,CD,205,20/2500,AB,108,30/3500,CD,190,40/5000,AB,110,70/6000,AB,99,60/7500,CD,200,20/9000,AB,115,50/;\
1000,AB,100,50,1000,AB,101,40/1000,AB,100,50,2500,AB,108,30/2000,AB,105,30,2500,AB,108,30/4000,CD,195,40,1200,CD,205,20/\
4000,CD,195,40,3500,CD,190,40/3000,AB,120,80,5000,AB,110,70/6000,AB,98,60,2500,AB,108,30/6000,AB,98,60,6000,AB,99,60/\
4000,CD,195,40,7500,CD,200,20/7000,CD,207,25,7500,CD,200,20/9000,AB,111,90,5000,AB,110,70/3000,AB,120,80,9000,AB,115,50/\
9000,AB,111,90,9000,AB,115,50/;;0";

#[test]
fn joins_under_queries(rt: HostRuntime) {
    run_all(&rt, rt.alloc(), &[JOIN, ALONE, THREE], QUERIES);
    run_all(&rt, rt.alloc(), &[JOIN, ALONE, THREE], TRADES);
}

/// The join by chains of several sizes, on threads and without.
const SETUPS: [&str; 6] = [
    "join --cores 1 --threads 3 query left right",
    "join --threads=3 --cores=4 query left right",
    "join --cores 64 --threads=3 query left right",
    "join --threads 0 query left right",
    "join --flight 1 query left right",
    "join --threads 0 --flight=256 --max-events 20 query left right",
];

/// Makes the join by the calling thread alone, in the order of steps that a seed draws.
fn joins_by_seed(rt: &(impl Abort + Threads + Wait + Clock + Sync), alloc: Global, seed: u64) {
    let command = format!(in alloc; "join query --schedule {seed} left --threads 0 right");
    run_once(rt, alloc, &[&command.expect(rt, "memory")], TRADES);
}

#[test]
fn writes_the_same_whatever_the_options(rt: HostRuntime) {
    run_once(&rt, rt.alloc(), &SETUPS, TRADES);
    for seed in 1..=20 {
        joins_by_seed(&rt, rt.alloc(), seed);
    }
}

/// Rows that each match the one before and the one behind alone.
const NEIGHBOURS: &str = "\
;left (ts int, k int) right (ts int, k int) window left rows 1 window right rows 1 on l.k = r.k;\
1,7/3,7/5,7/7,7/9,7/11,7/13,7/15,7/17,7/19,7/21,7/23,7/25,7/27,7/29,7/31,7/33,7/35,7/37,7/39,7/;\
2,7/4,7/6,7/8,7/10,7/12,7/14,7/16,7/18,7/20,7/22,7/24,7/26,7/28,7/30,7/32,7/34,7/36,7/38,7/40,7/;\
1,7,2,7/3,7,2,7/3,7,4,7/5,7,4,7/5,7,6,7/7,7,6,7/7,7,8,7/9,7,8,7/9,7,10,7/11,7,10,7/11,7,12,7/13,7,12,7/13,7,14,7/\
15,7,14,7/15,7,16,7/17,7,16,7/17,7,18,7/19,7,18,7/19,7,20,7/21,7,20,7/21,7,22,7/23,7,22,7/23,7,24,7/25,7,24,7/25,7,26,7/\
27,7,26,7/27,7,28,7/29,7,28,7/29,7,30,7/31,7,30,7/31,7,32,7/33,7,32,7/33,7,34,7/35,7,34,7/35,7,36,7/37,7,36,7/37,7,38,7/\
39,7,38,7/39,7,40,7/;;0";

#[test]
fn joins_neighbours_one_event_at_a_time(rt: HostRuntime) {
    let commands = [
        "join --flight 1 --cores 4 query left right",
        "join --flight 1 --cores 1 query left right",
    ];
    run_once(&rt, rt.alloc(), &commands, NEIGHBOURS);
}

/// Runs up to a limit of three events, and past it.
const LIMITED: &str = "\
;on l.k = r.k;1,7/3,7/;2,7/;1,7,2,7/3,7,2,7/;;0
;on l.k = r.k;1,7/3,7/4,7/;2,7/;1,7,2,7/3,7,2,7/;events: limit 3/;7
write 2;on l.k = r.k;1,7/3,7/4,7/;2,7/;1,7,2,7/;sink/;5
read left 3;on l.k = r.k;1,7/3,7/4,7/;2,7/;1,7,2,7/3,7,2,7/;source: left/;4
read left 4;on l.k = r.k;1,7/3,7/4,7/;2,7/;1,7,2,7/3,7,2,7/;events: limit 3/;7";

#[test]
fn ends_at_the_limit(rt: HostRuntime) {
    let commands = [
        "join --max-events 3 query left right",
        "join query left --cores=1 right --max-events=3",
        "join --max-events 3 --threads 2 query left right",
    ];
    run_once(&rt, rt.alloc(), &commands, LIMITED);
}

/// Records as long as may be, and longer ones; `LONG` stands for 65,533 letters.
const RECORDS: &str = "\
;left (ts int, t text) right (ts int, t text) window left rows 10 window right rows 10 on l.t = r.t;1,LONG/;;;;0
;left (ts int, t text) right (ts int, t text) window left rows 10 window right rows 10 on l.t = r.t;1,xLONG/;;;\
left record 1: TooLong/;3";

#[test]
fn bounds_a_record(rt: HostRuntime) {
    let long = "x".repeat(rt.alloc(), 65_533).expect(&rt, "memory");
    let records = RECORDS.replace(rt.alloc(), "LONG", &long);
    run_all(&rt, rt.alloc(), &[JOIN], &records.expect(&rt, "memory"));
}
