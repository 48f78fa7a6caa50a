//! Joins whose pairs are written as they are met. A line of a table is a case, and a way is `CORES FLIGHT THREADS KEPT`.
ghost use Rattle.hj_engine_tests.specs.Begun.{AreUnbegun};

use crate::cases::{Case, case_of, crew_plan, number, query_of, streams_of, unescaped};
use crate::joins::TRADES_AND_QUOTES;
use crate::runs::{is_done, is_written, start_two};
use hj_base::{MemSink, OpenGate, Outside, Sink};
use hj_engine::join_raw;
use hj_stream::Outcome;
use std::alloc::Global;
use std::process::Abort;
use std::sync::Wait;
use std::thread::Threads;
use std::time::Clock;

/// Makes the join of a case, and looks how it ends.
fn join_case<R: Abort + Threads + Wait + Clock + Sync, O: Outside, K: Sink>(
    rt: &R,
    alloc: Global,
    way: &str,
    case: Case<'_>,
    outside: &mut O,
    sink: &mut K,
)
    requires { AreUnbegun (O.state outside.old) }
{
    let query = query_of(rt, alloc, case.query);
    let limit = u64::from(number(rt, Some(case.limit)));
    let plan = crew_plan(rt, way, &OpenGate);
    start_two(rt, outside);
    let (ended, ran) = join_raw(alloc, &query, &plan, limit, outside, sink);
    drop(query);
    is_done(rt, ran);
    is_ended(rt, alloc, ended, case);
}

/// Holds an end to be that of a case.
fn is_ended(rt: &impl Abort, alloc: Global, ended: Outcome, case: Case<'_>) {
    let ended = format!(in alloc; "{ended:?}").expect(rt, "memory");
    assert_eq!(rt; ended.as_str(), case.ended);
}

/// Makes the join of a case, looks how it ends, and returns what is written.
fn joined_raw<R: Abort + Threads + Wait + Clock + Sync>(
    rt: &R,
    alloc: Global,
    way: &str,
    case: Case<'_>,
) -> MemSink {
    let mut outside = streams_of(rt, alloc, case);
    let mut sink = MemSink::new(alloc, 100);
    join_case(rt, alloc, way, case, &mut outside, &mut sink);
    drop(outside);
    sink
}

/// Three rows and what is written of their join by one core, an event at a time; and two empty streams.
const IN_TURN: &str = "\
10;left (ts int, k int) right (ts int, k int) window left rows 10 window right rows 10 on l.k = r.k;\
1,7/3,7/;2,7/;Done { events: 3 };0,1,1,7,2,7/#0/2,1,3,7,2,7/#1/#all/
10;left (ts int, k int) right (ts int, k int) window left rows 10 window right rows 10 on l.k = r.k;\
;;Done { events: 0 };#all/";

#[test]
fn writes_each_pair_and_mark_as_it_comes(rt: HostRuntime) {
    for line in IN_TURN.lines() {
        let case = case_of(&rt, line);
        let written = joined_raw(&rt, rt.alloc(), "1 1 1 0", case);
        is_written(&rt, rt.alloc(), &written, case);
    }
}

/// What was read of such a text: the pairs, each with the later and the earlier number of its rows in front, and the number behind
/// the last mark.
#[derive(Drop)]
struct Read<'a> {
    pairs: Vec<(u16, u16, &'a str)>,
    next: u32,
}

/// Reads the line of a pair: the later and the earlier number of its rows, and the line that a join has for it.
fn pair_in<'a>(rt: &impl Abort, line: &'a str) -> (u16, u16, &'a str) {
    let (left, rest) = line.split_once(',').expect(rt, "a left row");
    let (right, rows) = rest.split_once(',').expect(rt, "a right row");
    let left = number(rt, Some(left));
    let right = number(rt, Some(right));
    (left.max(right), left.min(right), rows)
}

/// Reads a line: no pair is within a mark before it, and each mark is above those before it.
fn read_line<'a>(rt: &impl Abort, read: &mut Read<'a>, line: &'a str) {
    match line.strip_prefix('#') {
        None => {
            let pair = pair_in(rt, line);
            assert!(rt; read.next <= u32::from(pair.0));
            read.pairs.push(pair).expect(rt, "memory");
        }
        Some(mark) if mark != "all" => {
            let mark = u32::from(number(rt, Some(mark)));
            assert!(rt; read.next <= mark);
            read.next = mark + 1;
        }
        Some(_) => {}
    }
}

/// Reads the pairs of a text, and puts them in order.
fn pairs_in<'a>(rt: &impl Abort, alloc: Global, text: &'a str) -> Vec<(u16, u16, &'a str)> {
    let mut read = Read {
        pairs: Vec::new(alloc),
        next: 0,
    };
    for line in text.lines() {
        read_line(rt, &mut read, line);
    }
    read.pairs.sort().expect(rt, "memory");
    read.pairs
}

/// Returns the lines that a join has for these pairs.
fn lines_of(rt: &impl Abort, alloc: Global, pairs: &[(u16, u16, &str)]) -> String {
    let mut lines = String::new(alloc);
    for (_, _, rows) in pairs {
        lines.push_str(rows).expect(rt, "memory");
        lines.push('\n').expect(rt, "memory");
    }
    lines
}

/// Shows of a join by four cores on three threads that the pairs, put in order, are the lines of the join; that behind a mark no pair
/// stands that is within it, and no mark that isn't above it; and that the mark of all is last.
#[test]
fn writes_the_lines_of_a_join_and_what_is_complete(rt: HostRuntime) {
    let case = case_of(&rt, TRADES_AND_QUOTES);
    let written = joined_raw(&rt, rt.alloc(), "4 32 3 0", case);
    let text = std::str::from_utf8(written.bytes()).expect(&rt, "text");
    assert!(rt; text.ends_with("#all\n"));
    let pairs = pairs_in(&rt, rt.alloc(), text);
    let lines = lines_of(&rt, rt.alloc(), &pairs);
    let wanted = unescaped(&rt, rt.alloc(), case.out);
    assert_eq!(rt; lines.as_str(), wanted.as_str());
}
