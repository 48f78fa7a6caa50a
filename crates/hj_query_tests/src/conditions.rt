use crate::texts;
use crate::texts::{long_text, query_of};
use hj_eval::{ReadyQuery, StorePlan, holds, plan};
use hj_query::Query;
use hj_value::{Field, Row, Text};
use std::alloc::Global;
use std::process::Abort;

const HEAD: &str =
    "left (ts int, k int, s text) right (ts int, k int, s text) window left rows 1 window right rows 1 on ";

/// Returns the query with this condition.
fn query(rt: &impl Abort, alloc: Global, condition: &str) -> Query {
    query_of(rt, alloc, &[HEAD, condition])
}

/// Makes a row of a time and this field.
fn short_row(rt: &impl Abort, alloc: Global, field: Field<'_>) -> Row {
    let mut row = Row::new(alloc);
    row.push(Field::Int(1)).expect(rt, "memory");
    row.push(field).expect(rt, "memory");
    row
}

/// Makes a row of a time and these fields.
fn row(rt: &impl Abort, alloc: Global, first: Field<'_>, second: Field<'_>) -> Row {
    let mut row = short_row(rt, alloc, first);
    row.push(second).expect(rt, "memory");
    row
}

fn text<'a>(rt: &impl Abort, text: &'a str) -> Field<'a> {
    Field::Text(Text::from_bytes(text.as_bytes()).expect(rt, "a text"))
}

fn number<'a>(rt: &impl Abort, text: &str) -> Field<'a> {
    Field::Int(text.parse::<i64>().expect(rt, "a number"))
}

/// Makes a row of a time and a number.
fn number_row(rt: &impl Abort, alloc: Global, k: &str) -> Row {
    short_row(rt, alloc, number(rt, k))
}

/// Makes a row of a time, a number and a text.
fn whole_row(rt: &impl Abort, alloc: Global, k: &str, s: &str) -> Row {
    row(rt, alloc, number(rt, k), text(rt, s))
}

/// Conditions, and the orders of `l.k` and `r.k` in which each holds.
const ORDERS: &str = "\
l.k = r.k | =
l.k != r.k | < >
l.k < r.k | <
l.k <= r.k | < =
l.k > r.k | >
l.k >= r.k | = >";

/// Numbers, and their order.
const PAIRS: &str = "\
-9223372036854775808 < 9223372036854775807
9223372036854775807 > -9223372036854775808
-9223372036854775808 = -9223372036854775808
9223372036854775807 = 9223372036854775807
-9223372036854775808 < -1
-9223372036854775808 < 0
9223372036854775807 > 0
-1 < 0
0 > -1
0 = 0";

/// Returns whether a condition holds of a left number and a right one.
fn holds_of(rt: &impl Abort, alloc: Global, query: &Query, left: &str, right: &str) -> bool {
    let left = number_row(rt, alloc, left);
    let right = number_row(rt, alloc, right);
    holds(query, &left, &right)
}

/// Holds what was found for a line of a table to what is wanted.
fn same(rt: &impl Abort, line: &str, found: bool, want: bool) {
    assert!(rt; found == want, "{line}");
}

/// Compares the numbers of a pair by a condition, which holds in these orders.
fn compares(rt: &impl Abort, alloc: Global, query: &Query, orders: &str, pair: &str) {
    let (left, behind) = pair.split_once(' ').expect(rt, "an order");
    let (order, right) = behind.split_once(' ').expect(rt, "a right number");
    let found = holds_of(rt, alloc, query, left, right);
    same(rt, pair, found, orders.contains(order));
}

/// Compares each pair by a condition.
fn compares_pairs(rt: &impl Abort, alloc: Global, condition: &str, orders: &str) {
    let query = query(rt, alloc, condition);
    for pair in PAIRS.lines() {
        compares(rt, alloc, &query, orders, pair);
    }
    drop(query);
}

#[test]
fn compares_numbers(rt: HostRuntime) {
    for line in ORDERS.lines() {
        let (condition, orders) = line.split_once(" | ").expect(&rt, "a case");
        compares_pairs(&rt, rt.alloc(), condition, orders);
    }
}

/// Conditions, the numbers of a left row and of a right one, and whether the condition holds of them. The left row's text is
/// `ab`, and the right one's is `b`.
const CONDITIONS: &str = "\
l.k within 10 of r.k | -9223372036854775808 9223372036854775807 false
l.k within 9223372036854775807 of r.k | -9223372036854775808 9223372036854775807 false
l.k within 9223372036854775807 of r.k | -9223372036854775808 0 false
l.k within 9223372036854775807 of r.k | -9223372036854775808 -1 true
l.k within 9223372036854775807 of r.k | 0 9223372036854775807 true
l.k within 10 of r.k | 15 5 true
l.k within 10 of r.k | 5 16 false
l.k + 1 > r.k | 9223372036854775807 9223372036854775807 true
l.k - 1 < r.k | -9223372036854775808 -9223372036854775808 true
l.k + r.k < 0 and r.k - l.k = 0 | -9223372036854775808 -9223372036854775808 true
l.k - r.k > 0 | 9223372036854775807 -9223372036854775808 true
l.k + l.k + l.k - r.k - r.k within 1 of l.k | 9223372036854775807 9223372036854775807 true
l.s = r.s or l.s >= r.s | 1 2 false
l.s < r.s and l.s <= r.s and l.s != r.s | 1 2 true
l.s > 'a' and l.s < 'ab' | 1 2 false
r.s = 'b' and not l.s = 'b' | 1 2 true
l.k = 1 and r.k = 1 | 1 2 false
l.k = 1 or r.k = 1 | 1 2 true
r.k > l.k and l.k <= r.k | 1 2 true
l.k <= r.k and r.k < l.k | 1 2 false
r.s > l.s | 1 2 true
not l.k < r.k | 1 2 false
not not r.k > l.k and l.s != r.s and l.k + r.k = 3 | 1 2 true
not r.k within 5 of l.k | 1 2 false";

/// Returns what a query says of two rows, as it is and made ready.
fn says(rt: &impl Abort, alloc: Global, query: &Query, left: &Row, right: &Row) -> (bool, bool) {
    let ready = ReadyQuery::new(alloc, query).expect(rt, "memory");
    (holds(query, left, right), ready.holds(left, right))
}

/// Returns what a condition says of two rows of these numbers, as it is and made ready.
fn says_of(rt: &impl Abort, alloc: Global, query: &Query, left: &str, right: &str) -> (bool, bool) {
    let left = whole_row(rt, alloc, left, "ab");
    let right = whole_row(rt, alloc, right, "b");
    says(rt, alloc, query, &left, &right)
}

/// Evaluates the condition of a line.
fn evaluates(rt: &impl Abort, alloc: Global, line: &str) {
    let (condition, rows) = line.split_once(" | ").expect(rt, "rows");
    let (left, behind) = rows.split_once(' ').expect(rt, "a right number");
    let (right, want) = behind.split_once(' ').expect(rt, "what is wanted");
    let want = want.parse::<bool>().expect(rt, "whether it holds");
    let query = query(rt, alloc, condition);
    let (found, ready) = says_of(rt, alloc, &query, left, right);
    drop(query);
    same(rt, line, found, want);
    same(rt, line, ready, want);
}

#[test]
fn evaluates_conditions(rt: HostRuntime) {
    for line in CONDITIONS.lines() {
        evaluates(&rt, rt.alloc(), line);
    }
}

/// Conditions that a missing value fails.
const ON_VALUES: &str = "\
l.k = r.k
l.k != r.k
r.k = 0
l.k within 5 of r.k + 0
l.s = r.s
r.s != 'a'";

/// Makes a row of a time, zero and a text.
fn zero_row(rt: &impl Abort, alloc: Global) -> Row {
    row(rt, alloc, Field::Int(0), text(rt, "b"))
}

/// Evaluates a condition on a right row that lacks its values: it fails.
fn misses_one(rt: &impl Abort, alloc: Global, condition: &str, left: &Row, missing: &Row) {
    let query = query(rt, alloc, condition);
    same(rt, condition, holds(&query, missing, missing), false);
    same(rt, condition, holds(&query, left, missing), false);
}

/// Evaluates each condition of a table on a row that lacks its values.
fn misses(rt: &impl Abort, alloc: Global, missing: &Row) {
    let whole = zero_row(rt, alloc);
    for condition in ON_VALUES.lines() {
        misses_one(rt, alloc, condition, &whole, missing);
    }
}

#[test]
fn misses_values(rt: HostRuntime) {
    misses(&rt, rt.alloc(), &Row::new(rt.alloc()));
    // A text where a number belongs, and a number where a text belongs.
    let turned = row(&rt, rt.alloc(), text(&rt, "b"), Field::Int(0));
    misses(&rt, rt.alloc(), &turned);
}

/// Returns whether a condition holds of a left row and a right row with no field.
fn holds_of_none(rt: &impl Abort, alloc: Global, query: &Query) -> bool {
    let whole = zero_row(rt, alloc);
    let none = Row::new(alloc);
    holds(query, &whole, &none)
}

#[test]
fn negates_what_misses_a_value(rt: HostRuntime) {
    let query = query(&rt, rt.alloc(), "not l.k = r.k");
    assert!(rt; holds_of_none(&rt, rt.alloc(), &query));
}

/// Returns whether a condition of one comparison and `count` more, then an end, holds of a row on both sides.
fn holds_long(rt: &impl Abort, alloc: Global, row: &Row, count: usize, end: &str) -> bool {
    let condition = long_text(rt, alloc, "1=2", " or 1=2", count, end);
    holds(&query(rt, alloc, &condition), row, row)
}

#[test]
fn evaluates_long_conditions(rt: HostRuntime) {
    let row = short_row(&rt, rt.alloc(), Field::Int(0));
    assert!(rt; !holds_long(&rt, rt.alloc(), &row, 9300, ""));
    assert!(rt; holds_long(&rt, rt.alloc(), &row, 9300, " or 1=1"));
}

/// Conditions, and the plan for each: columns of the left rows and of the right ones, and how far apart.
const PLANS: &str = "\
l.k = r.k | Equal 1 1
r.s = l.s | Equal 2 2
l.k = r.ts and l.s = r.s | Equal 1 0
r.k = l.ts and l.s = r.s | Equal 0 1
l.k within 10 of r.k | Band 1 1 10
r.ts within 0 of l.k and l.k within 5 of r.k | Band 1 0 0
l.k within 10 of r.k and l.ts = r.ts | Equal 0 0
l.k < r.k and (l.k != r.k and l.k = r.k) | Equal 1 1
(l.k = l.ts and l.ts = r.k) and l.k = r.k | Equal 0 1
l.k < r.k | Scan
l.k = r.k or l.ts = r.ts | Scan
(l.k = r.k or 1 = 2) and l.ts within 1 of r.ts | Band 0 0 1
not l.k = r.k | Scan
not l.k within 3 of r.k | Scan
l.k = r.k + 0 and l.k = 7 | Scan
l.k + 1 within 10 of r.k | Scan
l.k within 10 of l.ts | Scan";

/// Returns a plan as the table has it.
fn told(rt: &impl Abort, alloc: Global, plan: StorePlan) -> String {
    let told = match plan {
        StorePlan::Equal { left, right } => format!(in alloc; "Equal {left} {right}"),
        StorePlan::Band {
            left,
            right,
            within,
        } => format!(in alloc; "Band {left} {right} {within}"),
        StorePlan::Scan => String::from_str(alloc, "Scan"),
    };
    told.expect(rt, "memory")
}

/// Plans by the condition of a line.
fn plans(rt: &impl Abort, alloc: Global, line: &str) {
    let (condition, want) = line.split_once(" | ").expect(rt, "a case");
    let found = plan(&query(rt, alloc, condition));
    texts::same(rt, condition, &told(rt, alloc, found), want);
}

#[test]
fn plans_by_the_first_conjunct(rt: HostRuntime) {
    for line in PLANS.lines() {
        plans(&rt, rt.alloc(), line);
    }
}
