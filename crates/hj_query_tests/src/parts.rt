//! What a query is made of: its condition, its schemas and windows, its settings.

use crate::queries::{HEAD, WHOLE};
use crate::texts::query_of;
use hj_base::{Side, Window};
use hj_query::{Op, Pred, Query, Sum, Term, equi};
use hj_value::{ColumnType, Schema};
use std::process::Abort;

/// Takes what may go to other threads and be read by them.
fn crosses<T: Send + Sync + Drop>(_value: T) {}

/// Returns the operands of an `or`.
fn or_of<'a>(rt: &impl Abort, pred: &'a Pred) -> (&'a Pred, &'a Pred) {
    match pred {
        Pred::Or(left, right) => (left, right),
        _ => panic!(rt; "no or"),
    }
}

/// Returns the operands of an `and`.
fn and_of<'a>(rt: &impl Abort, pred: &'a Pred) -> (&'a Pred, &'a Pred) {
    match pred {
        Pred::And(left, right) => (left, right),
        _ => panic!(rt; "no and"),
    }
}

/// Returns the sums of a `not` of a `<`.
fn not_less_of<'a>(rt: &impl Abort, pred: &'a Pred) -> (&'a Sum, &'a Sum) {
    let Pred::Not(inner) = pred else {
        panic!(rt; "no not");
    };
    match &**inner {
        Pred::Compare(Op::Lt, left, right) => (left, right),
        _ => panic!(rt; "no comparison"),
    }
}

/// Returns whether a part of a sum is added, and its term.
fn part_of<'a>(rt: &impl Abort, sum: &'a Sum, at: usize) -> (bool, &'a Term) {
    let part = sum.rest.get(at).expect(rt, "a part");
    (part.plus, &part.term)
}

const TREE: &str = "on 1=1 or 2=2 or 3=3 and 4=4 and not l.k - 5 + r.ts < -6";

/// Looks at the condition of that text.
fn is_tree(rt: &impl Abort, pred: &Pred) {
    let (ors, ands) = or_of(rt, pred);
    assert!(rt; matches!(ors, Pred::Or(_, _)));
    let (front, last) = and_of(rt, ands);
    assert!(rt; matches!(front, Pred::And(_, _)));
    let (left, right) = not_less_of(rt, last);
    is_left_sum(rt, left);
    assert!(rt; matches!(&right.first, Term::Number(-6)));
    assert!(rt; right.rest.len() == 0);
}

#[test]
fn makes_the_tree(rt: HostRuntime) {
    is_tree(&rt, query_of(&rt, rt.alloc(), &[HEAD, TREE]).pred());
}

/// Looks at the sum of `l.k - 5 + r.ts`.
fn is_left_sum(rt: &impl Abort, sum: &Sum) {
    assert!(rt; matches!(&sum.first, Term::Column(Side::Left, 1)));
    assert!(rt; sum.rest.len() == 2);
    let (plus, term) = part_of(rt, sum, 0);
    assert!(rt; !plus && matches!(term, Term::Number(5)));
    let (plus, term) = part_of(rt, sum, 1);
    assert!(rt; plus && matches!(term, Term::Column(Side::Right, 0)));
}

/// Looks at a column of the schema of a side.
fn is_column(rt: &impl Abort, schema: &Schema, at: usize, name: &str, kind: ColumnType) {
    let column = schema.columns.get(at).expect(rt, "a column");
    assert!(rt; column.name.bytes() == name.as_bytes());
    assert!(rt; column.kind == kind);
}

/// Looks at the window of a side, and at how many columns its schema has.
fn is_side(rt: &impl Abort, query: &Query, side: Side, window: Window, columns: usize) {
    assert!(rt; query.window(side) == window);
    assert!(rt; query.schema(side).columns.len() == columns);
}

/// Looks at the windows and the schemas of the whole text.
fn is_whole(rt: &impl Abort, query: &Query) {
    is_side(rt, query, Side::Left, Window::Rows(1), 2);
    is_column(rt, query.schema(Side::Left), 1, "k", ColumnType::Text);
    is_side(rt, query, Side::Right, Window::Time(5), 1);
}

#[test]
fn keeps_schemas_and_windows(rt: HostRuntime) {
    is_whole(&rt, &query_of(&rt, rt.alloc(), &[WHOLE]));
}

/// Looks at how late a row may be, and how long a side may be silent.
fn is_set(rt: &impl Abort, query: &Query, slack: u64, quiet: u32) {
    assert!(rt; query.slack() == slack);
    assert!(rt; query.quiet() == quiet);
}

#[test]
fn keeps_slack_and_quiet(rt: HostRuntime) {
    let both = query_of(&rt, rt.alloc(), &[HEAD, "slack 5 quiet 3 on l.k = r.k"]);
    is_set(&rt, &both, 5, 3);
    let neither = query_of(&rt, rt.alloc(), &[HEAD, "on l.k = r.k"]);
    is_set(&rt, &neither, 0, 0);
}

/// Looks at a side of the query of equal keys in windows of seven rows.
fn is_keyed(rt: &impl Abort, query: &Query, side: Side) {
    is_side(rt, query, side, Window::Rows(7), 2);
    is_column(rt, query.schema(side), 1, "key", ColumnType::Int);
}

#[test]
fn makes_the_query_of_equal_keys(rt: HostRuntime) {
    let query = equi(rt.alloc(), 7).expect(&rt, "memory");
    is_keyed(&rt, &query, Side::Left);
    is_keyed(&rt, &query, Side::Right);
    is_set(&rt, &query, 0, 0);
    assert!(rt; matches!(query.pred(), Pred::Compare(Op::Eq, _, _)));
    crosses(query);
}
