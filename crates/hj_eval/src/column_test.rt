ghost use Rattle.std.specs.Prelude.{◌≡◌, true, List, Some, IfSome, slice_get};
ghost use Rattle.hj_value.specs.declared.field.Field.{Field};
ghost use Rattle.hj_value.specs.declared.field.Field.TheVariants as field;
ghost use Rattle.hj_query.specs.Grammar.{columns_of};
ghost use Rattle.hj_eval.specs.Filter.{pred_on};
ghost use Rattle.hj_eval.specs.Tests.{in_turn, meets, number_holds, numbers_meet, texts_meet, AreOperands, ArePair, HasKind};

use crate::filter::Need;
use crate::store_plan::lone_column;
use crate::value::{accepts, texts_compare};
use hj_base::Side;
use hj_query::{Op, Pred, Query, Sum};
use hj_value::{ColumnType, Field, Row};

/// A column of the left rows and a column of the right rows, each counted from 0.
#[derive(Clone, Copy)]
pub struct ColumnPair {
    pub left: u16,
    pub right: u16,
    /// Whether the column of the right rows stands first.
    pub is_turned: bool,
}

/// A comparison or a distance of two columns of numbers, or that it doesn't hold.
#[derive(Clone, Copy)]
pub struct NumberTest {
    pub need: Need,
    pub columns: ColumnPair,
    pub is_negated: bool,
}

/// A comparison of two columns of texts.
#[derive(Clone, Copy)]
pub struct TextTest {
    pub op: Op,
    pub columns: ColumnPair,
}

impl NumberTest {
    /// Asks whether the test holds for a left and a right row. A comparison or a distance doesn't hold where a row has no number.
    #[inline(always)]
    pub fn holds(&self, left: &Row, right: &Row) -> bool
        ensures { result ≡ number_holds self.now left.now right.now }
    {
        let is_met = self.is_met(left, right);
        if self.is_negated { !is_met } else { is_met }
    }

    /// Asks whether the columns of a left and a right row have numbers that compare so, or differ by at most so much.
    #[inline(always)]
    fn is_met(&self, left: &Row, right: &Row) -> bool
        ensures { result ≡ numbers_meet self.now.need self.now.columns left.now right.now }
    {
        let left = left.get(usize::from(self.columns.left));
        let right = right.get(usize::from(self.columns.right));
        match (left, right) {
            (Some(Field::Int(left)), Some(Field::Int(right))) => match self.need {
                Need::Compare(Op::Eq) => left == right,
                need => self.meets(need, left, right),
            },
            _ => false,
        }
    }

    /// Asks whether two numbers, that of the left row and that of the right row, compare so, or differ by at most so much.
    // Called, so that what is compiled into a probe stays short.
    #[inline(never)]
    fn meets(&self, need: Need, left: i64, right: i64) -> bool
        ensures { result ≡ in_turn (meets need) self.now.columns.is_turned (Some (field.Int left)) (Some (field.Int right)) }
    {
        match need {
            Need::Compare(op) if self.columns.is_turned => accepts(op, right.cmp(&left)),
            Need::Compare(op) => accepts(op, left.cmp(&right)),
            Need::Within(distance) => left.abs_diff(right) <= distance,
        }
    }
}

impl TextTest {
    /// Asks whether the columns of a left and a right row have texts that compare so.
    #[inline(always)]
    pub fn holds(&self, left: &Row, right: &Row) -> bool
        ensures { result ≡ texts_meet self.now.op self.now.columns left.now right.now }
    {
        let left = left.get(usize::from(self.columns.left));
        let right = right.get(usize::from(self.columns.right));
        match (left, right) {
            (Some(Field::Text(left)), Some(Field::Text(right))) if self.columns.is_turned => {
                texts_compare(self.op, right.bytes(), left.bytes())
            }
            (Some(Field::Text(left)), Some(Field::Text(right))) => {
                texts_compare(self.op, left.bytes(), right.bytes())
            }
            _ => false,
        }
    }
}

/// Gives a condition of a query as a test of two columns of numbers, where it is one.
pub fn number_test(query: &Query, pred: &Pred) -> Option<NumberTest>
    ensures { IfSome result (λ test. (left right : List Field) → number_holds test left right ≡ pred_on query.now pred.now left right) }
{
    match pred {
        Pred::Compare(op, first, second) => {
            let columns = columns_of_kind(query, ColumnType::Int, first, second)?;
            let need = Need::Compare(*op);
            Some(NumberTest {
                need,
                columns,
                is_negated: false,
            })
        }
        Pred::Within(distance, first, second) => {
            let columns = columns_of_kind(query, ColumnType::Int, first, second)?;
            let need = Need::Within(*distance);
            Some(NumberTest {
                need,
                columns,
                is_negated: false,
            })
        }
        Pred::Not(inner) => {
            let test = number_test(query, inner)?;
            let is_negated = !test.is_negated;
            Some(NumberTest { is_negated, ..test })
        }
        Pred::Or(..) | Pred::And(..) => None,
    }
}

/// Gives a condition of a query as a test of two columns of texts, where it is one.
pub fn text_test(query: &Query, pred: &Pred) -> Option<TextTest>
    ensures { IfSome result (λ test. (left right : List Field) → texts_meet test.op test.columns left right ≡ pred_on query.now pred.now left right) }
{
    match pred {
        Pred::Compare(op, first, second) => {
            let columns = columns_of_kind(query, ColumnType::Text, first, second)?;
            Some(TextTest { op: *op, columns })
        }
        _ => None,
    }
}

/// Gives the columns that two sums are, where each is one alone, of either side, and both have this type by the query.
fn columns_of_kind(query: &Query, kind: ColumnType, first: &Sum, second: &Sum) -> Option<ColumnPair>
    ensures { IfSome result (ArePair (columns_of query.now) kind first.now second.now) }
{
    let columns = pair_of(first, second)?;
    if has_kind(query, Side::Left, columns.left, kind)
        && has_kind(query, Side::Right, columns.right, kind)
    {
        Some(columns)
    } else {
        None
    }
}

/// Gives the columns that two sums are, where each is one alone, and they are of both sides.
fn pair_of(first: &Sum, second: &Sum) -> Option<ColumnPair>
    ensures { IfSome result (AreOperands first.now second.now) }
{
    match (lone_column(first)?, lone_column(second)?) {
        ((Side::Left, left), (Side::Right, right)) => Some(ColumnPair {
            left,
            right,
            is_turned: false,
        }),
        ((Side::Right, right), (Side::Left, left)) => Some(ColumnPair {
            left,
            right,
            is_turned: true,
        }),
        _ => None,
    }
}

/// Asks whether a side has a column at a place, counted from 0, of this type.
fn has_kind(query: &Query, side: Side, at: u16, kind: ColumnType) -> bool
    ensures { result ≡ true → HasKind kind (slice_get (columns_of query.now side) at) }
{
    match query.schema(side).columns.get(usize::from(at)) {
        Some(column) => column.kind == kind,
        None => false,
    }
}
