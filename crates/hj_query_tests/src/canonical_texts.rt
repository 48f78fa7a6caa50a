use crate::texts::{joined, long_text, query};
use hj_query::{QueryText, print};
use std::alloc::Global;
use std::process::Abort;

const HEAD: &str =
    "left (ts int, k int)\nright (ts int, k int)\nwindow left rows 1\nwindow right time 5000\non ";

/// Returns the canonical text of the query that a text spells.
fn printed(rt: &impl Abort, alloc: Global, text: &str) -> QueryText {
    print(alloc, &query(rt, alloc, text)).expect(rt, "memory")
}

/// Prints the query that a text spells.
fn prints(rt: &impl Abort, alloc: Global, text: &str, canonical: &str) {
    let found = printed(rt, alloc, text);
    assert!(rt; found.bytes() == canonical.as_bytes(), "of {text}");
}

/// Prints the query that a text spells, and the query that the canonical text spells.
fn prints_both(rt: &impl Abort, alloc: Global, text: &str, canonical: &str) {
    prints(rt, alloc, text, canonical);
    prints(rt, alloc, canonical, canonical);
}

/// Prints the query with a condition, and the query that the canonical text spells.
fn prints_condition(rt: &impl Abort, alloc: Global, condition: &str, canonical: &str) {
    let text = joined(rt, alloc, &[HEAD, condition]);
    let want = joined(rt, alloc, &[HEAD, canonical, "\n"]);
    prints_both(rt, alloc, &text, &want);
}

/// Conditions, and how each is printed.
const CONDITIONS: &str = "\
(l.k=r.k) | l.k = r.k
l.k=1 or l.k=2 or l.k=3 | l.k = 1 or l.k = 2 or l.k = 3
(l.k=1 or l.k=2) or l.k=3 | l.k = 1 or l.k = 2 or l.k = 3
l.k=1 or (l.k=2 or l.k=3) | l.k = 1 or (l.k = 2 or l.k = 3)
(l.k=1 and l.k=2) and l.k=3 | l.k = 1 and l.k = 2 and l.k = 3
l.k=1 and (l.k=2 and l.k=3) | l.k = 1 and (l.k = 2 and l.k = 3)
(l.k=1 or l.k=2) and l.k=3 | (l.k = 1 or l.k = 2) and l.k = 3
l.k=1 and (l.k=2 or l.k=3) | l.k = 1 and (l.k = 2 or l.k = 3)
(1=2 and 3=4) or (5=6 and 7=8) | 1 = 2 and 3 = 4 or 5 = 6 and 7 = 8
not (l.k=1) | not l.k = 1
not(not(not l.k=1)) | not not not l.k = 1
(not l.k=1) and (not l.k=2) | not l.k = 1 and not l.k = 2
not (l.k=1 and l.k=2) | not (l.k = 1 and l.k = 2)
not (l.k=1 or l.k=2) or 3=4 | not (l.k = 1 or l.k = 2) or 3 = 4
l.k=r.k and not (l.k<3 or r.k>- 1) | l.k = r.k and not (l.k < 3 or r.k > -1)
not((1=2 or 3=4)and((5=6 and 7=8)and not not(9=0 or(1=1 or 2=2)))) | \
not ((1 = 2 or 3 = 4) and (5 = 6 and 7 = 8 and not not (9 = 0 or (1 = 1 or 2 = 2))))
l.k!=007 or -0<=r.ts or 0>=- 00 | l.k != 7 or 0 <= r.ts or 0 >= 0
l.k- -1+2-r.k within 05 of - 3-r.k | l.k - -1 + 2 - r.k within 5 of -3 - r.k
-9223372036854775807 within 9223372036854775807 of 9223372036854775807 | \
-9223372036854775807 within 9223372036854775807 of 9223372036854775807
''<'it''s'or''''>'a ''''b' | '' < 'it''s' or '''' > 'a ''''b'";

#[test]
fn prints_conditions(rt: HostRuntime) {
    for line in CONDITIONS.lines() {
        let (condition, canonical) = line.split_once(" | ").expect(&rt, "a case");
        prints_condition(&rt, rt.alloc(), condition, canonical);
    }
}

#[test]
fn keeps_what_stands_in_quotes(rt: HostRuntime) {
    let condition = "'\u{e9}\n(' = ''";
    prints_condition(&rt, rt.alloc(), condition, condition);
}

#[test]
fn prints_schemas_and_windows(rt: HostRuntime) {
    let text = "left(ts int,sym text , px int,qty int)right\t(ts int,\nl text,left int)
window left rows 01000000 window right time 4611686018427387904
on l.sym=r.l and(l.px within 10 of r.left)and not(l.qty<r.left)";
    let want = "left (ts int, sym text, px int, qty int)
right (ts int, l text, left int)
window left rows 1000000
window right time 4611686018427387904
on l.sym = r.l and l.px within 10 of r.left and not l.qty < r.left
";
    prints(&rt, rt.alloc(), text, want);
    let lone =
        "left (ts int)\nright (ts int)\nwindow left time 1\nwindow right rows 1\non l.ts = r.ts\n";
    prints(&rt, rt.alloc(), lone, lone);
}

// A column may have the name of a setting.
const NAMED: &str =
    "left (ts int, slack int)\nright (ts int, quiet int)\nwindow left rows 1\nwindow right rows 1\n";

/// Slack and quiet before a condition, and the lines that they are printed as, with `/` for a line feed.
const SETTINGS: &str = "\
slack 5 quiet 3 | slack 5/quiet 3/on l.slack = r.quiet/
slack 05 | slack 5/on l.slack = r.quiet/
quiet 3 | quiet 3/on l.slack = r.quiet/
slack 0 quiet 3 | quiet 3/on l.slack = r.quiet/
slack 5 quiet 0 | slack 5/on l.slack = r.quiet/
slack 0 quiet 00 | on l.slack = r.quiet/
slack 4611686018427387904 quiet 1000000 | slack 4611686018427387904/quiet 1000000/on l.slack = r.quiet/";

/// Prints the query with settings, and the query that the canonical text spells.
fn prints_settings(rt: &impl Abort, alloc: Global, settings: &str, lines: &str) {
    let lines = lines.replace(alloc, '/', "\n").expect(rt, "memory");
    let text = joined(rt, alloc, &[NAMED, settings, " on l.slack = r.quiet"]);
    let want = joined(rt, alloc, &[NAMED, &lines]);
    prints_both(rt, alloc, &text, &want);
}

#[test]
fn prints_slack_and_quiet(rt: HostRuntime) {
    for line in SETTINGS.lines() {
        let (settings, lines) = line.split_once(" | ").expect(&rt, "a case");
        prints_settings(&rt, rt.alloc(), settings, lines);
    }
}

/// Prints the query that a long text spells.
fn is_printed(rt: &impl Abort, alloc: Global, text: &str, want: &str) {
    let found = printed(rt, alloc, text);
    assert!(rt; found.bytes() == want.as_bytes());
}

/// Prints a condition of one comparison and `count` more, each after a word.
fn prints_long(rt: &impl Abort, alloc: Global, word: &str, count: usize) {
    let dense = joined(rt, alloc, &[word, "''=''"]);
    let spaced = joined(rt, alloc, &[" ", word, " '' = ''"]);
    let head = "left(ts int)right(ts int)window left rows 1 window right rows 1 on''=''";
    let lines =
        "left (ts int)\nright (ts int)\nwindow left rows 1\nwindow right rows 1\non '' = ''";
    let text = long_text(rt, alloc, head, &dense, count, "");
    let want = long_text(rt, alloc, lines, &spaced, count, "\n");
    is_printed(rt, alloc, &text, &want);
}

#[test]
fn prints_the_longest_conditions(rt: HostRuntime) {
    prints_long(&rt, rt.alloc(), "or", 9352);
    prints_long(&rt, rt.alloc(), "and", 8183);
}
