//! Lines of joined rows.

use crate::texts::{same, spelled};
use crate::values::{field, text_field};
use hj_emit::{fill_line, line};
use hj_value::Row;
use std::alloc::Global;
use std::process::Abort;

/// Makes a row of a number, and of the text after it if there is one.
fn row(rt: &impl Abort, alloc: Global, text: &str) -> Row {
    let (number, text) = text.split_once(' ').unwrap_or((text, ""));
    let mut row = Row::new(alloc);
    row.push(field(rt, number)).expect(rt, "memory");
    if !text.is_empty() {
        push_text(rt, &mut row, &spelled(rt, alloc, text));
    }
    row
}

fn push_text(rt: &impl Abort, row: &mut Row, text: &[u8]) {
    row.push(text_field(rt, text)).expect(rt, "memory");
}

/// Both rows, and their line.
const LINES: &str = "\
1 | 2 | 1,2⏎
-9223372036854775808 | 9223372036854775807 | -9223372036854775808,9223372036854775807⏎
1 a,b | 3 a,b | 1,\"a,b\",3,\"a,b\"⏎
2 say \"x\" | 4 say \"x\" | 2,\"say \"\"x\"\"\",4,\"say \"\"x\"\"\"⏎
0 \r | -1 a⏎b | 0,\"\r\",-1,\"a⏎b\"⏎
10 ε | 0  a\u{fc};' | 10,,0, a\u{fc};'⏎";

/// Asserts what the line of these rows is, and that `filled` ends with it too.
fn writes(
    rt: &impl Abort,
    alloc: Global,
    filled: &mut Vec<u8>,
    left: &Row,
    right: &Row,
    want: &[u8],
) {
    let written = line(alloc, left, right).expect(rt, "memory");
    same(rt, "a line", written.bytes(), want);
    let start = fill_line(filled, left, right).expect(rt, "memory");
    same(rt, "a filled line", &filled[start..], want);
}

/// Makes the rows of a case, and asserts what their line is.
fn writes_case(rt: &impl Abort, alloc: Global, filled: &mut Vec<u8>, case: &str) {
    let (left, behind) = case.split_once(" | ").expect(rt, "a case");
    let (right, want) = behind.split_once(" | ").expect(rt, "a line");
    let (left, right) = (row(rt, alloc, left), row(rt, alloc, right));
    writes(rt, alloc, filled, &left, &right, &spelled(rt, alloc, want));
}

#[test]
fn writes_lines(rt: HostRuntime) {
    let mut filled = Vec::new(rt.alloc());
    for case in LINES.lines() {
        writes_case(&rt, rt.alloc(), &mut filled, case);
    }
}

/// Asserts what the lines of a row of no fields and of a row of an empty text are.
fn writes_no_bytes(rt: &impl Abort, alloc: Global, none: &Row, empty: &Row) {
    let mut filled = Vec::new(alloc);
    writes(rt, alloc, &mut filled, none, none, b"\"\"\n");
    writes(rt, alloc, &mut filled, empty, none, b"\"\"\n");
    let start = fill_line(&mut filled, empty, empty).expect(rt, "memory");
    same(rt, "a comma", &filled[start..], b",\n");
}

#[test]
fn writes_a_record_of_no_bytes(rt: HostRuntime) {
    let none = Row::new(rt.alloc());
    let mut empty = Row::new(rt.alloc());
    push_text(&rt, &mut empty, b"");
    writes_no_bytes(&rt, rt.alloc(), &none, &empty);
}
