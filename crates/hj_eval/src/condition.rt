ghost use Rattle.std.specs.Prelude.{◌≡◌};
ghost use Rattle.hj_query.specs.declared.pred.Pred.{Compare, Within};
ghost use Rattle.hj_eval.specs.Holds.{holds, pred_holds};
ghost use Rattle.hj_eval.specs.Values.{value_in};

use crate::row_pair::{RowPair, lone_number, sum_value};
use crate::value::{accepts, compares, is_within};
use hj_query::{Op, Pred, Query, Sum};
use hj_value::Row;

/// Asks whether the condition of a query holds for a left and a right row. Sums and distances have no bound, and texts compare
/// by their bytes. A comparison or a distance with a missing value doesn't hold; a column has none where the row lacks it,
/// or has another type there than the query's schema.
pub fn holds(query: &Query, left: &Row, right: &Row) -> bool
    ensures { result ≡ holds query.now left.now right.now }
{
    pred_holds(&RowPair { query, left, right }, query.pred())
}

/// Asks whether a condition holds. The left operands may stand as deep as the condition is long, so this keeps little on the
/// stack.
pub(crate) fn pred_holds<'a>(rows: &RowPair<'a>, pred: &'a Pred) -> bool
    ensures { result ≡ pred_holds (value_in rows.now) pred.now }
{
    match pred {
        Pred::Or(left, right) => pred_holds(rows, left) || pred_holds(rows, right),
        Pred::And(left, right) => pred_holds(rows, left) && pred_holds(rows, right),
        Pred::Not(inner) => !pred_holds(rows, inner),
        Pred::Compare(op, left, right) => comparison_holds(rows, *op, left, right),
        Pred::Within(distance, left, right) => distance_holds(rows, *distance, left, right),
    }
}

/// Asks whether two sums compare so.
fn comparison_holds<'a>(rows: &RowPair<'a>, op: Op, left: &'a Sum, right: &'a Sum) -> bool
    ensures { result ≡ pred_holds (value_in rows.now) (Compare op left.now right.now) }
{
    // Most comparisons are of two numbers that stand alone, which need no wider ones.
    match (lone_number(rows, left), lone_number(rows, right)) {
        (Some(left), Some(right)) => accepts(op, left.cmp(&right)),
        _ => values_compare(rows, op, left, right),
    }
}

/// Asks whether the values of two sums compare so.
fn values_compare<'a>(rows: &RowPair<'a>, op: Op, left: &'a Sum, right: &'a Sum) -> bool
    ensures { result ≡ pred_holds (value_in rows.now) (Compare op left.now right.now) }
{
    let Some(left) = sum_value(rows, left) else {
        return false;
    };
    match sum_value(rows, right) {
        Some(right) => compares(op, left, right),
        None => false,
    }
}

/// Asks whether two sums are numbers that differ by at most `distance`.
fn distance_holds<'a>(rows: &RowPair<'a>, distance: u64, left: &'a Sum, right: &'a Sum) -> bool
    ensures { result ≡ pred_holds (value_in rows.now) (Within distance left.now right.now) }
{
    match (lone_number(rows, left), lone_number(rows, right)) {
        (Some(left), Some(right)) => left.abs_diff(right) <= distance,
        _ => values_are_within(rows, distance, left, right),
    }
}

/// Asks whether the values of two sums are numbers that differ by at most `distance`.
fn values_are_within<'a>(rows: &RowPair<'a>, distance: u64, left: &'a Sum, right: &'a Sum) -> bool
    ensures { result ≡ pred_holds (value_in rows.now) (Within distance left.now right.now) }
{
    let Some(left) = sum_value(rows, left) else {
        return false;
    };
    match sum_value(rows, right) {
        Some(right) => is_within(distance, left, right),
        None => false,
    }
}
