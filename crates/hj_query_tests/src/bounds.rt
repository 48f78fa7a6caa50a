//! How large the numbers of a query may be, how deep its condition, how many its columns, and how long its text.

use crate::queries::{HEAD, WHOLE, judge, judge_all};
use crate::texts::{joined, repeated};
use std::alloc::Global;
use std::fmt::Write;
use std::process::Abort;

const SPANS: &str = "\
left rows 0 window right rows 1 on l.ts = r.ts | window out of range at 46
left rows 1 window right rows 0 on l.ts = r.ts | window out of range at 66
left rows 1 window right rows 1 on l.ts = r.ts | a query
left rows 1000000 window right rows 1 on l.ts = r.ts | a query
left rows 1 window right rows 1000000 on l.ts = r.ts | a query
left rows 1000001 window right rows 1 on l.ts = r.ts | window out of range at 46
left rows 1 window right rows 1000001 on l.ts = r.ts | window out of range at 66
left time 0 window right rows 1 on l.ts = r.ts | window out of range at 46
left rows 1 window right time 0 on l.ts = r.ts | window out of range at 66
left time 1 window right rows 1 on l.ts = r.ts | a query
left rows 1 window right time 1 on l.ts = r.ts | a query
left time 4611686018427387904 window right rows 1 on l.ts = r.ts | a query
left rows 1 window right time 4611686018427387904 on l.ts = r.ts | a query
left time 4611686018427387905 window right rows 1 on l.ts = r.ts | window out of range at 46
left rows 1 window right time 4611686018427387905 on l.ts = r.ts | window out of range at 66";

#[test]
fn bounds_the_numbers(rt: HostRuntime) {
    judge_all(
        &rt,
        rt.alloc(),
        "left (ts int) right (ts int) window ",
        SPANS,
    );
}

/// What opens and closes around a condition, how often, and what the text is.
const DEPTHS: &str = "\
( | ) | 64 | a query
( | ) | 65 | too deep at 149
not  |  | 64 | a query
not  |  | 65 | too deep at 341
not ( | ) | 32 | a query
not ( | ) | 33 | too deep at 245";

/// Makes a condition that stands inside `count` openings.
fn nested(
    rt: &impl Abort,
    alloc: Global,
    open: &str,
    close: &str,
    count: usize,
    condition: &str,
) -> String {
    let open = repeated(rt, alloc, open, count);
    let close = repeated(rt, alloc, close, count);
    joined(rt, alloc, &[&open, condition, &close])
}

/// Judges a condition that stands inside the openings of a line.
fn judge_nested(rt: &impl Abort, alloc: Global, line: &str) {
    let mut fields = line.split(" | ");
    let open = fields.next().expect(rt, "what opens");
    let close = fields.next().expect(rt, "what closes");
    let count = fields.next().expect(rt, "how often");
    let count = count.parse::<usize>().expect(rt, "a number");
    let want = fields.next().expect(rt, "what it is");
    let condition = nested(rt, alloc, open, close, count, "l.k = r.k");
    judge(rt, alloc, &[HEAD, "on ", &condition], want);
}

#[test]
fn bounds_the_depth(rt: HostRuntime) {
    for line in DEPTHS.lines() {
        judge_nested(&rt, rt.alloc(), line);
    }
}

/// Judges a condition between `count` parentheses after another one, and inside one more.
fn judge_behind(rt: &impl Abort, alloc: Global, count: usize, inside: &str, deeper: &str) {
    let front = nested(rt, alloc, "(", ")", count, "l.k = r.k");
    let back = nested(rt, alloc, "(", ")", count, "1=1");
    judge(rt, alloc, &[HEAD, "on ", &front, " and ", &back], inside);
    judge(
        rt,
        alloc,
        &[HEAD, "on ", &front, " and (", &back, ")"],
        deeper,
    );
}

// Behind what was closed the depth is what it was.
#[test]
fn depth_ends_where_it_is_closed(rt: HostRuntime) {
    judge_behind(&rt, rt.alloc(), 64, "a query", "too deep at 291");
}

/// Judges a text in which the same part stands `count` times between a beginning and an end.
fn judge_long(
    rt: &impl Abort,
    alloc: Global,
    front: &[&str],
    part: &str,
    count: usize,
    back: &str,
    want: &str,
) {
    let front = joined(rt, alloc, front);
    let middle = repeated(rt, alloc, part, count);
    judge(rt, alloc, &[&front, &middle, back], want);
}

// What isn't nested may be as long as the text.
#[test]
fn length_is_no_depth(rt: HostRuntime) {
    let on = &[HEAD, "on "];
    judge_long(
        &rt,
        rt.alloc(),
        on,
        "1=1 or 1=1 and ",
        4000,
        "1=1",
        "a query",
    );
    let on_one = &[HEAD, "on 1"];
    judge_long(&rt, rt.alloc(), on_one, "+1", 30000, "=1", "a query");
}

/// Makes `count` columns of a schema after its word.
fn columns_behind(rt: &impl Abort, alloc: Global, word: &str, count: usize) -> String {
    let mut text = joined(rt, alloc, &[word, " (ts int"]);
    for number in 1..count {
        write!(text, ", c{number} text").expect(rt, "memory");
    }
    text
}

#[test]
fn takes_256_columns(rt: HostRuntime) {
    let left = columns_behind(&rt, rt.alloc(), "left", 256);
    let right = columns_behind(&rt, rt.alloc(), ") right", 256);
    let end = ") window left rows 1 window right rows 1 on l.ts = r.ts";
    judge(&rt, rt.alloc(), &[&left, &right, end], "a query");
    // The name of the 256th column stands before it.
    let front = columns_behind(&rt, rt.alloc(), "left", 255);
    judge(
        &rt,
        rt.alloc(),
        &[&front, ", c254 int"],
        "double column at 2700",
    );
}

/// What comes after 256 columns of the left schema.
const BEHIND_MOST_COLUMNS: &str = "\
, c256 text) | too many columns at 2711
, ts 1 | too many columns at 2711
, 1 | expected ColumnName at 2711
 1 | expected CommaOrClose at 2710";

#[test]
fn refuses_more_columns(rt: HostRuntime) {
    let front = columns_behind(&rt, rt.alloc(), "left", 256);
    judge_all(&rt, rt.alloc(), &front, BEHIND_MOST_COLUMNS);
    let front = columns_behind(&rt, rt.alloc(), "left (ts int) right", 256);
    judge(
        &rt,
        rt.alloc(),
        &[&front, ", c256 text)"],
        "too many columns at 2726",
    );
}

#[test]
fn bounds_the_text(rt: HostRuntime) {
    let missing = "expected LeftWord at 65536";
    judge_long(&rt, rt.alloc(), &[], " ", 65_536, "", missing);
    let long = "text too long";
    judge_long(&rt, rt.alloc(), &[], "'", 65_537, "", long);
    judge_long(&rt, rt.alloc(), &[WHOLE], " ", 65_411, "", "a query");
    judge_long(&rt, rt.alloc(), &[WHOLE], " ", 65_411, " ", long);
}
