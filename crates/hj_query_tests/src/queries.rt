//! Which texts are queries, and the first fault of each other one.

use crate::texts::{joined, same};
use hj_query::parse;
use std::alloc::Global;
use std::process::Abort;

/// Two schemas of a time and a number, with windows of one row.
pub(crate) const HEAD: &str =
    "left (ts int, k int) right (ts int, k int) window left rows 1 window right rows 1 ";

const TEXTS: &str =
    "left (ts int, t text) right (ts int, t text) window left rows 1 window right rows 1 on ";

const SIDES: &str =
    "left (ts int, a int) right (ts int, b text) window left rows 1 window right rows 1 on ";

/// A whole query.
pub(crate) const WHOLE: &str =
    "left (ts int, k text) right (ts int) window left rows 1 window right time 5 on not (l.ts - -1 within 2 of r.ts) and l.k = 'a'";

/// Returns what a text is: a query, or its first fault as it is printed.
fn judgement(rt: &impl Abort, alloc: Global, text: &[u8]) -> String {
    match parse(alloc, text) {
        Ok(_) => String::from_str(alloc, "a query").expect(rt, "memory"),
        Err(fault) => fault.to_string(alloc).expect(rt, "memory"),
    }
}

/// Judges the text that is these parts, one after the other.
pub(crate) fn judge(rt: &impl Abort, alloc: Global, parts: &[&str], want: &str) {
    let text = joined(rt, alloc, parts);
    same(rt, &text, &judgement(rt, alloc, text.as_bytes()), want);
}

/// Judges each text of a table after a beginning. A line of a table is a text and, after a bar, what it is.
pub(crate) fn judge_all(rt: &impl Abort, alloc: Global, front: &str, table: &str) {
    for line in table.lines() {
        judge_line(rt, alloc, front, line);
    }
}

fn judge_line(rt: &impl Abort, alloc: Global, front: &str, line: &str) {
    let (text, want) = line.split_once(" | ").expect(rt, "a case");
    judge(rt, alloc, &[front, text], want);
}

/// What each beginning of the whole text is, by its length.
const FRONTS: &str = "\
0 | expected LeftWord at 0
4 | expected OpenParen at 4
6 | expected ColumnName at 6
8 | expected ColumnKind at 8
12 | expected CommaOrClose at 12
13 | expected ColumnName at 13
15 | expected ColumnKind at 15
20 | expected CommaOrClose at 20
21 | expected RightWord at 21
27 | expected OpenParen at 27
29 | expected ColumnName at 29
31 | expected ColumnKind at 31
35 | expected CommaOrClose at 35
36 | expected WindowWord at 36
43 | expected WindowSide at 43
48 | expected WindowKind at 48
53 | expected Number at 53
55 | expected WindowWord at 55
62 | expected WindowSide at 62
68 | expected WindowKind at 68
73 | expected Number at 73
75 | expected OnWord at 75
78 | expected Term at 78
82 | expected Term at 82
84 | expected Term at 84
85 | expected Dot at 85
86 | expected ColumnName at 86
88 | expected Comparison at 88
90 | expected Term at 90
92 | expected Number at 92
93 | expected Comparison at 93
100 | expected Number at 100
102 | expected OfWord at 102
105 | expected Term at 105
107 | expected Dot at 107
108 | expected ColumnName at 108
110 | expected CloseParen at 110
111 | a query
115 | expected Term at 115
117 | expected Dot at 117
118 | expected ColumnName at 118
119 | expected Comparison at 119
121 | expected Term at 121
125 | a query";

/// Judges the beginning of the whole text that a line tells.
fn judge_front(rt: &impl Abort, alloc: Global, line: &str) {
    let (length, want) = line.split_once(" | ").expect(rt, "a case");
    let length = length.parse::<usize>().expect(rt, "a length");
    let front = WHOLE.as_bytes().get(..length).expect(rt, "a front");
    same(rt, line, &judgement(rt, alloc, front), want);
}

#[test]
fn asks_for_more(rt: HostRuntime) {
    for line in FRONTS.lines() {
        judge_front(&rt, rt.alloc(), line);
    }
}

const TEXTS_THAT_BREAK_OFF: &str = "\
right (ts int) | expected LeftWord at 0
 ( | expected LeftWord at 1
left x | expected OpenParen at 5
left (1 | expected ColumnName at 6
left (ts int, 1 | expected ColumnName at 14
left (ts foo | expected ColumnKind at 9
left (k foo | expected ColumnKind at 8
left (ts int, ts foo | expected ColumnKind at 17
left (ts int . | expected CommaOrClose at 13
left (ts int) left | expected RightWord at 14
left (ts int) right (ts int) on | expected WindowWord at 29
left (ts int) right (ts int) window right | expected WindowSide at 36
left (ts int) right (ts int) window left 1 | expected WindowKind at 41
left (ts int) right (ts int) window left rows on | expected Number at 46
left (ts int) right (ts int) window left time ( | expected Number at 46
left (ts int) right (ts int) window left rows -1 | expected Number at 46
left (ts int) right (ts int) window left rows 1 on | expected WindowWord at 48
left (ts int) right (ts int) window left rows 1 window left | expected WindowSide at 55
left (ts int) right (ts int) window left rows 1 window right time 1 of | expected OnWord at 68";

#[test]
fn names_what_is_wanted(rt: HostRuntime) {
    judge_all(&rt, rt.alloc(), "", TEXTS_THAT_BREAK_OFF);
}

const FIRST_FAULTS: &str = "\
left (ts int, ts int) | double column at 14
left(ts int,ts int | double column at 12
left (ts int, a int, b text, a text ; | bad byte at 36
left (ts int, a int, b text, a text | double column at 29
left (ts int) right (ts int, ts int) | double column at 29
left (k int) | wrong first column at 6
left(k int | wrong first column at 5
left (ts text) | wrong first column at 6
left (Ts int) | wrong first column at 6
left (ts int) right (k int) | wrong first column at 21
12ab | bad byte at 2
; | bad byte at 0
left (ts int, ts int) ; | bad byte at 22
' | open text at 0
left 'a | open text at 5
left (ts int, ts int) ' | open text at 22
9223372036854775807 | expected LeftWord at 0
9223372036854775808 | number out of range at 0
99999999999999999999a | number out of range at 0";

#[test]
fn names_the_first_fault(rt: HostRuntime) {
    judge_all(&rt, rt.alloc(), "", FIRST_FAULTS);
}

const CONDITIONS: &str = "\
on (l.k=r.k) | a query
on l.k = r.k | a query
on l.k = r.z | unknown column at 93
on l.z = 'a' | unknown column at 87
on l.ts = r.k or l.z = 'a' | unknown column at 101
on l.k = 1 and not (1 = r.z) | unknown column at 108
on l.k = 'a' | wrong types at 85
on l.k = 'a' ) | wrong types at 85
on l.k = 'a' + | expected Term at 96
on l.k = 1 or 1 = 'a' and | wrong types at 96
on l.k = 1 and not (l.k = 'a') | wrong types at 102
on 'a' + 'b' = 'c' | wrong types at 85
on l.k - 'a' = 1 | wrong types at 85
on 1 = l.k + 'a' | wrong types at 85
on 'a' = 'it''s' | a query
on 'a' within 1 of 'b' | wrong types at 85
on 'a' within 1 of l.k | wrong types at 85
on l.k within 1 of 'b' | wrong types at 85
on l.k within 0 of r.k - -1 + 2 | a query
on not l.k != 1 and l.k < 2 or l.k <= 3 and (l.k > 4 or l.k >= 5) | a query
on l.k of 1 | expected Comparison at 89
on (l.k) = 1 | expected Comparison at 89
on (l.k = 1 and 2 | expected Comparison at 99
on l.k = 1 2 | expected End at 93
on l.k = 1) | expected End at 92
on l.k = 1 = 2 | expected End at 93
on l.k = 1 within 2 of 3 | expected End at 93
on (l.k = 1) + 2 = 3 | expected End at 95
on (l.k = 1 left | expected CloseParen at 94
on not and | expected Term at 89
on () = 1 | expected Term at 86
on k.k = 1 | expected Term at 85
on +1 = l.k | expected Term at 85
on l.k == 1 | expected Term at 90
on l.k = 1 and ) | expected Term at 97
on l k | expected Dot at 87
on l.1 | expected ColumnName at 87
on l.k = --1 | expected Number at 92
on 1 within - | expected Number at 94
on 1 within 2 or | expected OfWord at 96
on l.k = 9223372036854775807 | a query
on l.k = -9223372036854775807 | a query
on l.k = 9223372036854775808 | number out of range at 91
on l.k = -9223372036854775808 | number out of range at 92
on 1 = r.k + l.k | a query";

#[test]
fn judges_conditions(rt: HostRuntime) {
    judge_all(&rt, rt.alloc(), HEAD, CONDITIONS);
}

const CONDITIONS_ON_TEXTS: &str = "\
l.t = r.t | a query
l.t < 'b' | a query
'b' >= r.t | a query
l.t = 1 | wrong types at 87
l.t + 1 = 2 | wrong types at 87
l.ts = r.t | wrong types at 87
1 within 2 of r.t | wrong types at 87";

/// Each side has its own columns.
const CONDITIONS_BY_SIDE: &str = "\
l.a = r.ts | a query
r.b = 'x' | a query
l.b = 1 | unknown column at 88
r.a = 1 | unknown column at 88
l.a = r.b | wrong types at 86";

#[test]
fn judges_texts_and_sides(rt: HostRuntime) {
    judge_all(&rt, rt.alloc(), TEXTS, CONDITIONS_ON_TEXTS);
    judge_all(&rt, rt.alloc(), SIDES, CONDITIONS_BY_SIDE);
}

const SETTINGS: &str = "\
slack 5 quiet 3 on l.k = r.k | a query
slack 5 on l.k = r.k | a query
quiet 3 on l.k = r.k | a query
slack 0 quiet 00 on l.k = r.k | a query
slack 4611686018427387904 quiet 1000000 on l.k = r.k | a query
slack 4611686018427387905 on l.k = r.k | slack out of range at 88
slack 4611686018427387905 quiet 1000001 | slack out of range at 88
slack 9223372036854775807 | slack out of range at 88
slack 9223372036854775808 | number out of range at 88
quiet 1000001 on l.k = r.k | quiet out of range at 88
slack 1000001 quiet 1000001 on l.k = r.k | quiet out of range at 102
quiet 3 slack 5 on l.k = r.k | expected OnWord at 90
slack 5 slack 5 on l.k = r.k | expected OnWord at 90
quiet 3 quiet 3 on l.k = r.k | expected OnWord at 90
slack 5 quiet 3 slack 5 on l.k = r.k | expected OnWord at 98
Slack 5 on l.k = r.k | expected OnWord at 82
slack on l.k = r.k | expected Number at 88
slack quiet 3 on l.k = r.k | expected Number at 88
slack -1 on l.k = r.k | expected Number at 88
quiet 'a' on l.k = r.k | expected Number at 88
slack | expected Number at 87
slack 5 | expected OnWord at 89
slack 5 quiet | expected Number at 95
slack 5 quiet 3 | expected OnWord at 97
on l.k = r.k slack 5 | expected End at 95";

#[test]
fn judges_settings(rt: HostRuntime) {
    judge_all(&rt, rt.alloc(), HEAD, SETTINGS);
}
