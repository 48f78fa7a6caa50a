ghost use Rattle.std.specs.Prelude.{◌≡◌, List, [], true, IfSome};
ghost use Rattle.hj_query.specs.declared.sum.Term.TheVariants as terms;
ghost use Rattle.hj_value.specs.declared.field.Field.{Field};
ghost use Rattle.hj_eval.specs.Holds.{holds};
ghost use Rattle.hj_eval.specs.Plan.{better_plan, column_pair, lone_column, plan_of, MeetsPlan};

use hj_base::Side;
use hj_query::{Op, Pred, Query, Sum, Term};

/// How the rows of one side that may match a row of the other one are found. Columns are counted from 0.
#[derive(Clone, Copy, Debug, PartialEq, Eq)]
pub enum StorePlan {
    /// Rows that match have equal values in these columns.
    Equal { left: u16, right: u16 },
    /// Rows that match have numbers in these columns that differ by at most `within`.
    Band { left: u16, right: u16, within: u64 },
    /// All rows are looked at.
    Scan,
}

/// Gives the plan for a query's condition, by what is left once all `and`s at its top are taken apart, from left to right: Equal
/// by the first that compares one column of each side by `=`; else Band by the first that has `within` with one column of
/// each side; else Scan.
pub fn plan(query: &Query) -> StorePlan
    ensures plan { result ≡ plan_of query.now.pred }
    ensures met { (left right : List Field) → holds query.now left right ≡ true → MeetsPlan result left right }
{
    plan_of(query.pred())
}

/// Gives the plan for a condition. The left operands may stand as deep as the condition is long, so this keeps little on the
/// stack.
fn plan_of(pred: &Pred) -> StorePlan
    ensures { result ≡ plan_of pred.now }
{
    match pred {
        Pred::And(left, right) => better(plan_of(left), plan_of(right)),
        Pred::Compare(Op::Eq, first, second) => match column_pair(first, second) {
            Some((left, right)) => StorePlan::Equal { left, right },
            None => StorePlan::Scan,
        },
        Pred::Within(distance, first, second) => match column_pair(first, second) {
            Some((left, right)) => StorePlan::Band {
                left,
                right,
                within: *distance,
            },
            None => StorePlan::Scan,
        },
        Pred::Or(..) | Pred::Not(_) | Pred::Compare(..) => StorePlan::Scan,
    }
}

/// Gives the better of two plans; where they are alike, the first.
fn better(first: StorePlan, second: StorePlan) -> StorePlan
    ensures { result ≡ better_plan first second }
{
    match (first, second) {
        (StorePlan::Equal { .. }, _) => first,
        (_, StorePlan::Equal { .. }) => second,
        (StorePlan::Band { .. }, _) => first,
        (StorePlan::Scan, _) => second,
    }
}

/// Gives a column of the left rows and one of the right rows, where each of two sums is one column alone, and they are of both
/// sides.
pub(crate) fn column_pair(first: &Sum, second: &Sum) -> Option<(u16, u16)>
    ensures { result ≡ column_pair first.now second.now }
{
    match (lone_column(first)?, lone_column(second)?) {
        ((Side::Left, left), (Side::Right, right)) => Some((left, right)),
        ((Side::Right, right), (Side::Left, left)) => Some((left, right)),
        _ => None,
    }
}

/// Gives the column that a sum is, where it is one alone.
pub(crate) fn lone_column(sum: &Sum) -> Option<(Side, u16)>
    ensures column { result ≡ lone_column sum.now }
    ensures alone { IfSome result (λ column. sum.now ≡ record { first = terms.Column column.0 column.1; rest = [] }) }
{
    match sum.first {
        Term::Column(side, at) if sum.rest.len() == 0 => Some((side, at)),
        _ => None,
    }
}
