ghost use Rattle.std.specs.Prelude.{◌≡◌, ◌≤◌, false};
ghost use Rattle.hj_base.specs.MemOutside.{role_at};
ghost use Rattle.hj_base.specs.Outside.{unbegun, IsOpen, ChangesOnly};
ghost use Rattle.hj_base.specs.declared.outside.Role.TheVariants as role;
ghost use Rattle.hj_event.specs.Roles.{IsInStep};

use crate::texts::{query_of, same};
use hj_base::{Got, MemOutside, Opened, Outside, Role};
use hj_event::{Merger, Next};
use hj_msg::Event;
use hj_value::SharedRow;
use std::alloc::{AllocError, Global};
use std::process::Abort;

/// What a merger is made of, and what it answers.
#[derive(Drop)]
struct Case<'a> {
    windows: &'a str,
    limit: u64,
    left: String,
    right: String,
    want: &'a str,
}

/// Both streams by windows of rows and of time, up to a limit; on a tie the left row is first; a bad record ends them. A line has
/// the windows, the limit, the streams, in which `/` stands for a line feed, and the answers.
const CASES: &str = "\
window left rows 1 window right rows 1 | 4 | 1,7/2,7/ | 3,7/ | Left 0: 1; Left 1: 2; Left 2: 0 expires; Right 3: 3; done; done;
window left rows 1 window right rows 1 | 3 | 1,7/2,7/ | 3,7/ | Left 0: 1; Left 1: 2; Left 2: 0 expires; too many; too many;
window left rows 1 window right time 2 | 100 | 1,7/3,7/4,7/ | 2,7 | \
Left 0: 1; Right 1: 2; Left 2: 3; Left 3: 0 expires; Right 4: 1 expires; Left 5: 4; Left 6: 2 expires; done; done;
window left rows 9 window right rows 9 | 100 | 5,1/ | /5,1 | Left 0: 5; Right 1: 5; done; done;
window left rows 9 window right rows 9 | 100 | 1,7/2,\"7 | 0,7/ | \
Right 0: 0; Left 1: 1; Left record 2: open quote; Left record 2: open quote;
window left rows 9 window right rows 9 | 100 |  | 5,7/4,7/ | \
Right 0: 5; Right record 2: time 4 after 5; Right record 2: time 4 after 5;
window left rows 9 window right rows 9 | 100 | x | x | Left record 1: 1 fields; Left record 1: 1 fields;";

/// Rows that are late by at most the slack are put in their place, rows of equal time as they were read. A bad record comes after
/// the rows that wait.
const LATE_CASES: &str = "\
window left rows 9 window right rows 9 slack 2 | 100 | 1,7/4,7/2,7/ | 3,7/ | \
Left 0: 1; Left 1: 2; Right 2: 3; Left 3: 4; done; done;
window left rows 9 window right rows 9 slack 2 | 100 | 5,7/2,7/ |  | \
Left 0: 5; Left record 2: time 2 after 5; Left record 2: time 2 after 5;
window left rows 9 window right rows 9 slack 2 | 100 | 5,7/3,7/ |  | Left 0: 3; Left 1: 5; done; done;
window left rows 9 window right rows 9 slack 2 | 100 |  | 4,1/6,2/4,3/5,4/6,5/x/1,7/ | \
Right 0: 4; Right 1: 4; Right 2: 5; Right 3: 6; Right 4: 6; Right record 6: 1 fields; Right record 6: 1 fields;
window left rows 9 window right rows 9 slack 4611686018427387904 | 100 | -4611686018427387904,7/0,7/-4611686018427387904,7/ |  | \
Left 0: -4611686018427387904; Left 1: -4611686018427387904; Left 2: 0; done; done;";

/// A side is quiet after every Q rows of the other one in its silence, which a row of its own ends; the row's expiry comes before
/// that. A quiet event counts for the limit.
const QUIET_CASES: &str = "\
window left rows 9 window right rows 9 quiet 2 | 7 | 1,7/2,7/3,7/4,7/ | 0,7/ | \
Right 0: 0; Left 1: 1; Left 2: 2; Right 3: quiet; Left 4: 3; Left 5: 4; Right 6: quiet; done; done;
window left rows 9 window right rows 9 quiet 2 | 6 | 1,7/2,7/3,7/4,7/ | 0,7/ | \
Right 0: 0; Left 1: 1; Left 2: 2; Right 3: quiet; Left 4: 3; Left 5: 4; too many; too many;
window left rows 9 window right rows 9 quiet 2 | 5 | 1,7/2,7/3,7/4,7/ | 0,7/ | \
Right 0: 0; Left 1: 1; Left 2: 2; Right 3: quiet; Left 4: 3; too many; too many;
window left rows 9 window right rows 9 quiet 2 | 100 | 1,7/3,7/4,7/ | 2,7/5,7/ | \
Left 0: 1; Right 1: 2; Left 2: 3; Left 3: 4; Right 4: quiet; Right 5: 5; done; done;
window left rows 1 window right time 2 quiet 2 | 100 | 1,7/2,7/3,7/ | 0,7/ | Right 0: 0; Left 1: 1; Right 2: 0 expires; \
Left 3: 2; Left 4: 1 expires; Right 5: quiet; Left 6: 3; Left 7: 3 expires; done; done;
window left rows 9 window right rows 9 quiet 1 | 100 | 1,7/ | 2,7/3,7/ | \
Left 0: 1; Right 1: quiet; Right 2: 2; Left 3: quiet; Right 4: 3; Left 5: quiet; done; done;
window left rows 9 window right rows 9 quiet 3 | 100 | 1,7/2,7/x | 9,7/ | \
Left 0: 1; Left 1: 2; Left record 3: 1 fields; Left record 3: 1 fields;";

/// Reads a line of a table.
fn case_of<'a>(rt: &impl Abort, alloc: Global, line: &'a str) -> Case<'a> {
    let mut fields = line.split(" | ");
    let windows = fields.next().expect(rt, "the windows");
    let limit = fields.next().expect(rt, "the limit");
    let left = fields.next().expect(rt, "the left stream");
    let right = fields.next().expect(rt, "the right stream");
    Case {
        windows,
        limit: limit.parse::<u64>().expect(rt, "a number"),
        left: left.replace(alloc, '/', "\n").expect(rt, "memory"),
        right: right.replace(alloc, '/', "\n").expect(rt, "memory"),
        want: fields.next().expect(rt, "the answers"),
    }
}

/// Makes the streams of a case, under `l` and `r`, of which a read gives at most `chunk` bytes.
fn contents(rt: &impl Abort, alloc: Global, case: &Case<'_>, chunk: usize) -> MemOutside
    requires { 1 ≤ chunk }
    ensures left { (role_at result role.Left).phase ≡ unbegun }
    ensures right { (role_at result role.Right).phase ≡ unbegun }
{
    let mut outside = MemOutside::new(alloc, chunk);
    let left = outside.add("l", case.left.as_bytes());
    left.expect(rt, "memory");
    let right = outside.add("r", case.right.as_bytes());
    right.expect(rt, "memory");
    outside
}

/// Makes one read of a role fail, the first one being 1.
fn fails_once(rt: &impl Abort, outside: &mut MemOutside, failing: Role, nth: u64)
    ensures left { (role_at outside.new role.Left).phase ≡ (role_at outside.old role.Left).phase }
    ensures right { (role_at outside.new role.Right).phase ≡ (role_at outside.old role.Right).phase }
{
    assert!(rt; 1 <= nth && nth <= 9);
    outside.fail_read(failing, nth).expect(rt, "memory");
}

/// Makes the read fail that is named, if one is.
fn fails(rt: &impl Abort, outside: &mut MemOutside, failing: Option<(Role, u64)>)
    ensures left { (role_at outside.new role.Left).phase ≡ (role_at outside.old role.Left).phase }
    ensures right { (role_at outside.new role.Right).phase ≡ (role_at outside.old role.Right).phase }
{
    if let Some((role, nth)) = failing {
        fails_once(rt, outside, role, nth);
    }
}

/// Starts a role, which is ready.
fn starts<O: Outside>(rt: &impl Abort, outside: &mut O, role: Role, name: &str)
    requires { (O.state outside.old role).phase ≡ unbegun }
    ensures ready { IsInStep false (O.state outside.new role) }
    ensures others { ChangesOnly role (O.state outside.old) (O.state outside.new) }
{
    let opened = outside.start(role, name);
    assert!(rt; matches!(opened, Opened::Ready));
}

/// Starts both sides, which are ready.
fn starts_both<O: Outside>(rt: &impl Abort, outside: &mut O)
    requires left { (O.state outside.old role.Left).phase ≡ unbegun }
    requires right { (O.state outside.old role.Right).phase ≡ unbegun }
    ensures left { IsInStep false (O.state outside.new role.Left) }
    ensures right { IsInStep false (O.state outside.new role.Right) }
{
    starts(rt, outside, Role::Left, "l");
    starts(rt, outside, Role::Right, "r");
}

/// The schemas of rows of two numbers.
const SCHEMAS: &str = "left (ts int, k int) right (ts int, k int) ";

/// Makes a merger of a case's streams, which has read nothing.
fn merger_of(rt: &impl Abort, alloc: Global, case: &Case<'_>) -> Merger
    ensures left { result.sides.left.reading.ended ≡ false }
    ensures right { result.sides.right.reading.ended ≡ false }
{
    let query = query_of(rt, alloc, &[SCHEMAS, case.windows, " on l.k = r.k"]);
    Merger::new(alloc, &query, case.limit).expect(rt, "memory")
}

/// Starts both sides, and makes a merger of a case's streams, which has read nothing.
fn begun<O: Outside>(rt: &impl Abort, alloc: Global, case: &Case<'_>, outside: &mut O) -> Merger
    requires left { (O.state outside.old role.Left).phase ≡ unbegun }
    requires right { (O.state outside.old role.Right).phase ≡ unbegun }
    ensures left { IsInStep result.sides.left.reading.ended (O.state outside.new role.Left) }
    ensures right { IsInStep result.sides.right.reading.ended (O.state outside.new role.Right) }
{
    starts_both(rt, outside);
    merger_of(rt, alloc, case)
}

/// Returns the next answer of a merger.
fn answer_of<O: Outside>(merger: &mut Merger, outside: &mut O) -> Next
    requires left { IsInStep merger.old.sides.left.reading.ended (O.state outside.old role.Left) }
    requires right { IsInStep merger.old.sides.right.reading.ended (O.state outside.old role.Right) }
    ensures left { IsInStep merger.new.sides.left.reading.ended (O.state outside.new role.Left) }
    ensures right { IsInStep merger.new.sides.right.reading.ended (O.state outside.new role.Right) }
{
    merger.next(outside)
}

/// Adds an answer to a text, and returns whether it is the last one.
fn puts(rt: &impl Abort, text: &mut String, answer: Next) -> bool {
    let over = !matches!(answer, Next::Event(_));
    put(text, answer).expect(rt, "memory");
    over
}

/// Returns how many reads of the left role, which is open, give four bytes.
fn fours_left<O: Outside>(outside: &mut O) -> u64
    requires { IsOpen (O.state outside.old role.Left).phase }
{
    let mut buf = [0; 16];
    let mut fours = 0u64;
    for _ in 0..20 {
        if matches!(outside.read(Role::Left, &mut buf), Got::Bytes(4)) {
            fours = fours.saturating_add(1);
        }
    }
    fours
}

/// Asks a merger that has read nothing for its first answer.
fn asks_once<O: Outside>(rt: &impl Abort, merger: &mut Merger, outside: &mut O)
    requires left { IsInStep merger.old.sides.left.reading.ended (O.state outside.old role.Left) }
    requires right { IsInStep merger.old.sides.right.reading.ended (O.state outside.old role.Right) }
    ensures { IsOpen (O.state outside.new role.Left).phase }
{
    assert!(rt; !merger.is_ready());
    let _ = answer_of(merger, outside);
}

/// Asks a merger that has read nothing for its first answer, and returns how many left rows are left to be read.
fn rows_left<O: Outside>(
    rt: &impl Abort,
    alloc: Global,
    merger: &mut Merger,
    outside: &mut O,
) -> String
    requires left { IsInStep merger.old.sides.left.reading.ended (O.state outside.old role.Left) }
    requires right { IsInStep merger.old.sides.right.reading.ended (O.state outside.old role.Right) }
{
    asks_once(rt, merger, outside);
    fours_left(outside).to_string(alloc).expect(rt, "memory")
}

/// What is asked of a merger: its answers; whether it is ready for each, and its answers; or the first one alone.
#[derive(Clone, Copy)]
enum Ask {
    Answers,
    ReadyAnswers,
    First,
}

/// Adds to a text whether a merger is ready for its next answer.
fn puts_ready(rt: &impl Abort, text: &mut String, merger: &Merger) {
    let word = if merger.is_ready() { "ready " } else { "asks " };
    text.push_str(word).expect(rt, "memory");
}

/// Adds to a text whether a merger is ready, if that is asked.
fn puts_asked(rt: &impl Abort, text: &mut String, merger: &Merger, ask: Ask) {
    if matches!(ask, Ask::ReadyAnswers) {
        puts_ready(rt, text, merger);
    }
}

/// Returns what a merger of a case answers, up to its last answer, and that one again.
fn merged<O: Outside>(
    rt: &impl Abort,
    alloc: Global,
    merger: &mut Merger,
    outside: &mut O,
    ask: Ask,
) -> String
    requires left { IsInStep merger.old.sides.left.reading.ended (O.state outside.old role.Left) }
    requires right { IsInStep merger.old.sides.right.reading.ended (O.state outside.old role.Right) }
{
    let mut text = String::new(alloc);
    let mut over = false;
    for _ in 0..12 {
        let again = over;
        puts_asked(rt, &mut text, merger, ask);
        over = puts(rt, &mut text, answer_of(merger, outside));
        if again {
            break;
        }
    }
    text
}

/// Holds what a merger answers to what is wanted of it. Of the first answer it is wanted how many left rows are left to be read.
fn answers<O: Outside>(
    rt: &impl Abort,
    alloc: Global,
    merger: &mut Merger,
    outside: &mut O,
    ask: Ask,
    want: &str,
)
    requires left { IsInStep merger.old.sides.left.reading.ended (O.state outside.old role.Left) }
    requires right { IsInStep merger.old.sides.right.reading.ended (O.state outside.old role.Right) }
{
    let text = if matches!(ask, Ask::First) {
        rows_left(rt, alloc, merger, outside)
    } else {
        merged(rt, alloc, merger, outside, ask)
    };
    same(rt, want, text.trim_end(), want);
}

/// Makes a merger of a case, and holds what it answers to what is wanted.
fn asks<O: Outside>(rt: &impl Abort, alloc: Global, case: &Case<'_>, outside: &mut O, ask: Ask)
    requires left { (O.state outside.old role.Left).phase ≡ unbegun }
    requires right { (O.state outside.old role.Right).phase ≡ unbegun }
{
    let mut merger = begun(rt, alloc, case, outside);
    answers(rt, alloc, &mut merger, outside, ask, case.want);
    drop(merger);
}

/// Merges the streams of a case, of which a read gives at most `chunk` bytes, and one fails, if it is named.
fn run(
    rt: &impl Abort,
    alloc: Global,
    case: &Case<'_>,
    chunk: usize,
    failing: Option<(Role, u64)>,
    ask: Ask,
)
    requires { 1 ≤ chunk }
{
    let mut outside = contents(rt, alloc, case, chunk);
    fails(rt, &mut outside, failing);
    asks(rt, alloc, case, &mut outside, ask);
    drop(outside);
}

/// Merges the streams of a line, read in small, middling and large portions.
fn merges(rt: &impl Abort, alloc: Global, line: &str) {
    let case = case_of(rt, alloc, line);
    run(rt, alloc, &case, 1, None, Ask::Answers);
    run(rt, alloc, &case, 3, None, Ask::Answers);
    run(rt, alloc, &case, 4_096, None, Ask::Answers);
}

/// Merges the streams of each case.
fn merges_all(rt: &impl Abort, alloc: Global, cases: &str) {
    for line in cases.lines() {
        merges(rt, alloc, line);
    }
}

#[test]
fn merges_two_streams(rt: HostRuntime) {
    merges_all(&rt, rt.alloc(), CASES);
}

#[test]
fn puts_late_rows_in_their_place(rt: HostRuntime) {
    merges_all(&rt, rt.alloc(), LATE_CASES);
}

#[test]
fn tells_of_quiet_sides(rt: HostRuntime) {
    merges_all(&rt, rt.alloc(), QUIET_CASES);
}

/// Rows that may be late by 2, and before each answer whether the merger is ready for it, where a read gives one row: the first row
/// that waits is sure, or the end is known.
const READY_BY_ROWS: &str = "\
window left rows 9 window right rows 9 slack 2 | 100 | 1,7/2,7/5,7/3,7/9,7/ |  | asks Left 0: 1; ready Left 1: 2; \
asks Left 2: 3; asks Left 3: 5; asks Left 4: 9; ready done; ready done;
window left rows 9 window right rows 9 slack 2 | 100 | 9,7/ | 1,7/4,7/2,7/ | asks Right 0: 1; asks Right 1: 2; \
asks Right 2: 4; ready Left 3: 9; ready done; ready done;";

/// The same where a read gives all rows, and where a fault is known after the rows that wait.
const READY_AT_ONCE: &str = "\
window left rows 9 window right rows 9 slack 2 | 100 | 1,7/2,7/5,7/3,7/9,7/ |  | asks Left 0: 1; ready Left 1: 2; \
ready Left 2: 3; ready Left 3: 5; asks Left 4: 9; ready done; ready done;
window left rows 9 window right rows 9 slack 2 | 100 | 5,7/4,7/x/ |  | asks Left 0: 4; ready Left 1: 5; \
ready Left record 3: 1 fields; ready Left record 3: 1 fields;";

/// Merges the streams of a line, of which a read gives at most `chunk` bytes, and looks when the merger is ready.
fn tells(rt: &impl Abort, alloc: Global, line: &str, chunk: usize)
    requires { 1 ≤ chunk }
{
    let case = case_of(rt, alloc, line);
    run(rt, alloc, &case, chunk, None, Ask::ReadyAnswers);
}

/// Merges the streams of each case so.
fn tells_all(rt: &impl Abort, alloc: Global, cases: &str, chunk: usize)
    requires { 1 ≤ chunk }
{
    for line in cases.lines() {
        tells(rt, alloc, line, chunk);
    }
}

#[test]
fn is_ready_where_the_first_row_is_sure(rt: HostRuntime) {
    tells_all(&rt, rt.alloc(), READY_BY_ROWS, 4);
    tells_all(&rt, rt.alloc(), READY_AT_ONCE, 4_096);
}

/// The role of which a read fails, which read that is, and a case.
const FAILED_READS: &str = "\
Left 1 | window left rows 9 window right rows 9 | 100 | 1,7/2,7/ | 0,7/5,7/ | Left failed; Left failed;
Right 2 | window left rows 9 window right rows 9 | 100 | 1,7/2,7/ | 0,7/5,7/ | Right 0: 0; Right failed; Right failed;
Left 3 | window left rows 9 window right rows 9 | 100 | 1,7/2,7/ | 0,7/5,7/ | \
Right 0: 0; Left 1: 1; Left 2: 2; Left failed; Left failed;
Left 3 | window left rows 9 window right rows 9 slack 2 | 100 | 1,7/4,7/2,7/ | 0,7/ | \
Right 0: 0; Left 1: 1; Left failed; Left failed;";

fn role_of(rt: &impl Abort, word: &str) -> Role {
    match word {
        "Left" => Role::Left,
        "Right" => Role::Right,
        _ => panic!(rt; "no side: {word}"),
    }
}

/// Reads which read of which role fails.
fn failing_of(rt: &impl Abort, text: &str) -> (Role, u64) {
    let (role, nth) = text.split_once(' ').expect(rt, "a number");
    (role_of(rt, role), nth.parse::<u64>().expect(rt, "a number"))
}

/// Merges the streams of a line, of which a read gives four bytes, where one read of a role fails.
fn fails_to_read(rt: &impl Abort, alloc: Global, line: &str) {
    let (failing, case) = line.split_once(" | ").expect(rt, "a case");
    let failing = failing_of(rt, failing);
    let case = case_of(rt, alloc, case);
    run(rt, alloc, &case, 4, Some(failing), Ask::Answers);
}

// A left row of the time 4 that may be late isn't sure before its third read.
#[test]
fn gives_what_was_read_before_a_failed_read(rt: HostRuntime) {
    for line in FAILED_READS.lines() {
        fails_to_read(&rt, rt.alloc(), line);
    }
}

const TEN_A_SIDE: &str =
    "window left rows 9 window right rows 9 | 100 | 1,7/1,7/1,7/1,7/1,7/1,7/1,7/1,7/1,7/1,7/ \
    | 2,7/2,7/2,7/2,7/2,7/2,7/2,7/2,7/2,7/2,7/ | 9";

/// Where a read gives one row, a merger has read one of the ten left rows for its first answer.
#[test]
fn reads_no_more_than_the_heads(rt: HostRuntime) {
    let case = case_of(&rt, rt.alloc(), TEN_A_SIDE);
    run(&rt, rt.alloc(), &case, 4, None, Ask::First);
}

/// Adds an event to a text.
fn put_event(text: &mut String, event: Event<SharedRow>) -> Result<(), AllocError> {
    match event {
        Event::Arrive { no, side, row } => {
            let no = no.0;
            let time = row.row().time();
            write!(text, "{side:?} {no}: {time}; ")
        }
        Event::Expire { no, side, of } => {
            let no = no.0;
            let of = of.0;
            write!(text, "{side:?} {no}: {of} expires; ")
        }
        Event::Quiet { no, side } => {
            let no = no.0;
            write!(text, "{side:?} {no}: quiet; ")
        }
    }
}

/// Adds an answer to a text.
fn put(text: &mut String, answer: Next) -> Result<(), AllocError> {
    match answer {
        Next::Event(event) => put_event(text, event),
        Next::Done => text.push_str("done; "),
        Next::Bad { side, at, fault } => write!(text, "{side:?} record {at}: {fault}; "),
        Next::Failed(side) => write!(text, "{side:?} failed; "),
        Next::TooMany => text.push_str("too many; "),
        Next::Memory => text.push_str("memory; "),
    }
}
