//! The punctuation of reports, and their pairs.

ghost use Rattle.std.specs.Prelude.{◌≡◌, ◌<◌, length};

use crate::lines::{halves, number, shows, words};
use crate::rows::Row;
use hj_base::{CoreNo, EventNo, Side};
use hj_collect::Collector;
use hj_msg::{Partner, Partners, Report};
use std::alloc::Global;
use std::process::Abort;

fn arrival(rt: &impl Abort, alloc: Global, no: &str, side: Side) -> Report<Row> {
    let no = number(rt, no);
    Report::Handled {
        no: EventNo(no),
        side,
        row: Row(no),
        partners: Partners::new(alloc),
    }
}

fn quiet(rt: &impl Abort, no: &str) -> Report<Row> {
    Report::Quiet {
        no: EventNo(number(rt, no)),
        side: Side::Left,
    }
}

/// Reads a report without partners: of a left row, of a right one or of a quiet event, that the core ended, or that memory ran out.
fn report_of(rt: &impl Abort, alloc: Global, text: &str) -> Report<Row> {
    let (name, no) = text.split_once(' ').unwrap_or((text, "-"));
    match name {
        "left" => arrival(rt, alloc, no, Side::Left),
        "right" => arrival(rt, alloc, no, Side::Right),
        "quiet" => quiet(rt, no),
        "ended" => Report::Ended,
        "memory" => Report::NoMemory,
        _ => panic!(rt; "no report: {text}"),
    }
}

/// Reads the place of a core of two.
fn core_of(rt: &impl Abort, word: &str) -> CoreNo
    ensures { result.0 < 2 }
{
    match word {
        "0" => CoreNo(0),
        "1" => CoreNo(1),
        _ => panic!(rt; "no core: {word}"),
    }
}

/// Takes a report of a core, which has no pairs.
fn takes(rt: &impl Abort, alloc: Global, collector: &mut Collector, told: &str)
    requires { length collector.old.left ≡ 2 }
    ensures { length collector.new.left ≡ 2 }
{
    assert!(rt; !collector.ended());
    let (core, report) = words(rt, told);
    let core = core_of(rt, core);
    let report = report_of(rt, alloc, report);
    let pairs = collector.take(core, &report).expect(rt, "memory");
    assert!(rt; pairs.is_empty());
}

/// Takes the report of a line, and looks at the punctuation then.
fn run_line(rt: &impl Abort, alloc: Global, collector: &mut Collector, line: &str)
    requires { length collector.old.left ≡ 2 }
    ensures { length collector.new.left ≡ 2 }
{
    let (told, mark) = halves(rt, line);
    takes(rt, alloc, collector, told);
    shows(rt, alloc, line, &collector.punctuation(), mark);
}

/// Takes the reports of a table. A line is a core, what it reports, and the punctuation then.
fn run(rt: &impl Abort, alloc: Global, collector: &mut Collector, lines: &str)
    requires { length collector.old.left ≡ 2 }
{
    for line in lines.lines() {
        run_line(rt, alloc, collector, line);
    }
}

const MARKS: &str = "\
0 left 0: None
1 left 0: None
0 right 1: None
1 right 1: Some(UpTo(EventNo(0)))
0 quiet 2: Some(UpTo(EventNo(0)))
1 quiet 2: Some(UpTo(EventNo(1)))
1 memory: Some(UpTo(EventNo(1)))
0 memory: Some(UpTo(EventNo(1)))
0 ended: Some(UpTo(EventNo(1)))
1 ended: Some(All)";

#[test]
fn punctuation_is_the_least_mark(rt: HostRuntime) {
    let mut collector = Collector::new(rt.alloc(), 2).expect(&rt, "memory");
    assert!(rt; collector.punctuation().is_none());
    run(&rt, rt.alloc(), &mut collector, MARKS);
    assert!(rt; collector.ended());
    assert!(rt; collector.stopped() == Some(CoreNo(1)));
}

fn push(rt: &impl Abort, partners: &mut Partners<Row>, no: u64, row: u64) {
    let partner = Partner {
        no: EventNo(no),
        row: Row(row),
    };
    partners.push(partner).expect(rt, "memory");
}

/// Reports the right row 5 with two partners.
fn two_partners(rt: &impl Abort, alloc: Global) -> Report<Row> {
    let mut partners = Partners::new(alloc);
    push(rt, &mut partners, 1, 10);
    push(rt, &mut partners, 4, 40);
    Report::Handled {
        no: EventNo(5),
        side: Side::Right,
        row: Row(50),
        partners,
    }
}

const TWO_PAIRS: &str = "\
[Pair { left_no: EventNo(1), right_no: EventNo(5), left: Row(10), right: Row(50) }, \
Pair { left_no: EventNo(4), right_no: EventNo(5), left: Row(40), right: Row(50) }]";

#[test]
fn report_gives_its_pairs(rt: HostRuntime) {
    let mut collector = Collector::new(rt.alloc(), 1).expect(&rt, "memory");
    let report = two_partners(&rt, rt.alloc());
    let pairs = collector.take(CoreNo(0), &report).expect(&rt, "memory");
    shows(&rt, rt.alloc(), "two partners", &pairs, TWO_PAIRS);
}
