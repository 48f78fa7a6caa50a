//! Rows that expire.

ghost use Rattle.std.specs.Prelude.{◌+◌, ◌^◌, ◌<◌, ◌≤◌};

use crate::texts::{number, same};
use hj_base::Side::{Left, Right};
use hj_base::{EventNo, Side, Window};
use hj_window::{Expired, Live, Numbers};
use std::alloc::Global;
use std::fmt::Write;
use std::process::Abort;

fn letter(side: Side) -> char {
    match side {
        Left => 'L',
        Right => 'R',
    }
}

/// Appends the expiries of these rows, a blank after each.
fn push_expiries(rt: &impl Abort, text: &mut String, numbers: &Numbers) {
    for at in 0..numbers.len() {
        let (side, no) = numbers.get(at).expect(rt, "a row");
        write!(text, "-{}{} ", no.0, letter(*side)).expect(rt, "memory");
    }
}

/// Reads the numbers of rows, each before the letter of its side.
fn numbers_of(rt: &impl Abort, alloc: Global, text: &str) -> Numbers {
    let mut numbers = Numbers::new(alloc);
    for word in text.split(' ') {
        push_number(rt, &mut numbers, word);
    }
    numbers
}

fn push_number(rt: &impl Abort, numbers: &mut Numbers, word: &str) {
    let (side, no) = arrival(rt, word);
    let row = (side, EventNo(no.unsigned_abs()));
    numbers.push(row).expect(rt, "memory");
}

#[test]
fn numbers_in_their_order(rt: HostRuntime) {
    are(&rt, rt.alloc(), &Numbers::new(rt.alloc()), 0, b"");
    let numbers = numbers_of(&rt, rt.alloc(), "4R 9L 4R");
    are(&rt, rt.alloc(), &numbers, 3, b"-4R -9L -4R ");
}

/// Asserts how many rows there are, and what their expiries are.
fn are(rt: &impl Abort, alloc: Global, numbers: &Numbers, count: usize, want: &[u8]) {
    assert!(rt; numbers.len() == count);
    assert!(rt; numbers.get(count).is_none());
    let mut text = String::new(alloc);
    push_expiries(rt, &mut text, numbers);
    same(rt, "expiries", text.as_bytes(), want);
}

/// Appends the events of the arrival of this number: `+` and `-` for an arrival and an expiry, then the row's number
/// and the letter of its side, a blank after each. Returns the next number.
fn push_events(rt: &impl Abort, text: &mut String, expired: &Expired, side: Side, no: u64) -> u64
    requires { no + 2 < 2 ^ 64 }
    ensures { no + 1 ≤ result }
{
    push_expiries(rt, text, &expired.before);
    let letter = letter(side);
    write!(text, "+{no}{letter} ").expect(rt, "memory");
    match expired.after {
        Some(gone) => {
            write!(text, "-{}{letter} ", gone.0).expect(rt, "memory");
            no + 2
        }
        None => no + 1,
    }
}

/// Tells the events of these arrivals.
fn events(
    rt: &impl Abort,
    alloc: Global,
    windows: (Window, Window),
    arrivals: &[(Side, i64)],
) -> String {
    let mut live = Live::new(alloc, windows.0, windows.1);
    let mut next = 0;
    let mut text = String::new(alloc);
    for (side, time) in arrivals {
        assert!(rt; next < 1000);
        let expired = live.arrive(*side, *time, EventNo(next));
        let expired = expired.expect(rt, "memory");
        let no = next + expired.before.len() as u64;
        next = push_events(rt, &mut text, &expired, *side, no);
    }
    text
}

/// Reads a window: a number of rows, or a length of time.
fn window(rt: &impl Abort, text: &str) -> Window {
    let (kind, count) = text.split_once(' ').expect(rt, "a window");
    match kind {
        "rows" => Window::Rows(count.parse::<u32>().expect(rt, "a number")),
        "time" => Window::Time(count.parse::<u64>().expect(rt, "a number")),
        _ => panic!(rt; "no window: {text}"),
    }
}

/// Reads a time or a number, and the letter of a side after it.
fn arrival(rt: &impl Abort, word: &str) -> (Side, i64) {
    let (side, time) = match word.strip_suffix('L') {
        Some(time) => (Left, time),
        None => (Right, word.strip_suffix('R').expect(rt, "a side")),
    };
    (side, number(rt, time))
}

fn arrivals(rt: &impl Abort, alloc: Global, text: &str) -> Vec<(Side, i64)> {
    let mut arrivals = Vec::new(alloc);
    for word in text.split(' ') {
        arrivals.push(arrival(rt, word)).expect(rt, "memory");
    }
    arrivals
}

/// Lets the rows on a line arrive, and asserts what the events are.
fn expires(rt: &impl Abort, alloc: Global, line: &str) {
    let (both, behind) = line.split_once(" | ").expect(rt, "a case");
    let (rows, want) = behind.split_once(" | ").expect(rt, "events");
    let found = events_of(rt, alloc, both, rows);
    same(rt, line, found.trim_end().as_bytes(), want.as_bytes());
}

/// Tells the events of these rows.
fn events_of(rt: &impl Abort, alloc: Global, both: &str, rows: &str) -> String {
    let (left, right) = both.split_once(", ").expect(rt, "windows");
    let windows = (window(rt, left), window(rt, right));
    events(rt, alloc, windows, &arrivals(rt, alloc, rows))
}

fn expires_all(rt: &impl Abort, alloc: Global, table: &str) {
    for line in table.lines() {
        expires(rt, alloc, line);
    }
}

/// Both windows, the rows that arrive, and the events.
///
/// Two windows of rows; a row of age exactly the window's length, which is gone; both sides, in the order of arrival; trades and
/// quotes; times that fall, where a row is gone by its own age, wherever it stands; and windows that hold no row.
const IN_TURN: &str = "\
rows 1, rows 1 | 1L 2L 3R | +0L +1L -0L +3R
rows 2, rows 1 | 1L 1R 2L 2L 2R | +0L +1R +2L +3L -0L +5R -1R
time 5, rows 10 | 0L 4R 5R | +0L +1R -0L +3R
time 5, time 4 | 0R 0L 1L 1R 3R 6L | +0R +1L +2L +3R +4R -0R -1L -2L -3R +9L
rows 100, time 5000 | 1000L 1000R 1200R 1500L 2000L 2500R 3000L 3500R 4000L 5000R 6000L 6000R 7000L 7500R 9000L 9000R | \
+0L +1R +2R +3L +4L +5R +6L +7R +8L +9R -1R +11L +12R -2R +14L -5R +16R -7R +18L +19R
time 5, time 5 | 10L 3L 20R 8R 8L 13R | +0L +1L -0L -1L +4R +5R +6L -5R -6L +9R
rows 0, time 0 | 7L 7R 6R 7L | +0L -0L +2R +3R -2R -3R +6L -6L";

#[test]
fn rows_expire_in_turn(rt: HostRuntime) {
    expires_all(&rt, rt.alloc(), IN_TURN);
}

/// Ages at the ends of the numbers of 64 bits.
const AGES: &str = "\
time 18446744073709551615, rows 1 | -9223372036854775808L 9223372036854775807R | +0L -0L +2R
time 18446744073709551615, rows 1 | -9223372036854775807L 9223372036854775807R | +0L +1R
time 9223372036854775808, rows 1 | -9223372036854775808L -1R | +0L +1R
time 9223372036854775808, rows 1 | -9223372036854775808L 0R | +0L -0L +2R
time 1, rows 1 | 9223372036854775807L -9223372036854775808R | +0L +1R
time 4611686018427387904, rows 1 | -4611686018427387904L 0R | +0L -0L +2R";

#[test]
fn ages_pass_64_bits(rt: HostRuntime) {
    expires_all(&rt, rt.alloc(), AGES);
}
