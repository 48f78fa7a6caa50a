ghost use Rattle.std.specs.Prelude.{◌≡◌, ℕ, ◌+◌, ◌-◌, ◌^◌, Some, FitsSigned, IfSome, option_map, slice_get};
ghost use Rattle.std.specs.Int.{w64};
ghost use Rattle.hj_eval.specs.Holds.{column_value, sum_value, with_part, with_parts};
ghost use Rattle.hj_eval.specs.Values.{field_of, value_in, IsSmall, IsTotalOf};
ghost use Rattle.hj_query.specs.Grammar.{columns_of};
ghost use Rattle.hj_query.specs.Sides.{by_side};
ghost use Rattle.hj_value.specs.declared.field.Field.TheVariants as field;

use crate::value::SumValue;
use hj_base::Side;
use hj_query::{FurtherTerms, Query, SignedTerm, Sum, Term};
use hj_value::{ColumnType, Field, Row};

/// A left and a right row, under a query.
#[derive(Clone, Copy)]
pub struct RowPair<'a> {
    pub query: &'a Query,
    pub left: &'a Row,
    pub right: &'a Row,
}

/// Gives the number of a sum that is one term; None where it is no number, or has further terms.
pub fn lone_number<'a>(rows: &RowPair<'a>, sum: &'a Sum) -> Option<i64>
    ensures { IfSome result (λ number. sum_value (value_in rows.now) sum.now ≡ Some (field.Int number)) }
{
    if sum.rest.len() != 0 {
        return None;
    }
    match &sum.first {
        Term::Column(side, at) => match column_value(rows, *side, usize::from(*at))? {
            Field::Int(number) => Some(number),
            Field::Text(_) => None,
        },
        Term::Number(number) => Some(*number),
        Term::Text(_) => None,
    }
}

/// Gives the value of a sum; None where a term has none, and where a text is one of several terms.
pub fn sum_value<'a>(rows: &RowPair<'a>, sum: &'a Sum) -> Option<SumValue<'a>>
    ensures { option_map field_of result ≡ sum_value (value_in rows.now) sum.now }
{
    let first = term_value(rows, &sum.first)?;
    if sum.rest.len() == 0 {
        return Some(first);
    }
    match first {
        SumValue::Number(number) => Some(SumValue::Number(total(rows, number, &sum.rest)?)),
        SumValue::Text(_) => None,
    }
}

/// Gives a number with the terms of `rest` added to it and taken off it; None where one of them is no number.
fn total<'a>(rows: &RowPair<'a>, front: i128, rest: &'a FurtherTerms) -> Option<i128>
    requires { FitsSigned w64 front }
    ensures { option_map (λ number. field.Int number) result ≡ with_parts (value_in rows.now) (Some (field.Int front)) rest.now }
{
    let mut total = front;
    for at in 0..rest.len() {
        let Some(part) = rest.get(at) else {
            unreachable!();
        };
        total = with_part(rows, total, part)?;
    }
    Some(total)
}

/// Gives a number with a term added to it or taken off it; None where the term is no number.
fn with_part<'a>(rows: &RowPair<'a>, total: i128, part: &'a SignedTerm) -> Option<i128>
    requires { IsTotalOf (2 ^ 64 - 1) total }
    ensures value { option_map (λ number. field.Int number) result ≡ with_part (value_in rows.now) (Some (field.Int total)) part.now }
    ensures grows { (terms : ℕ) → IsTotalOf terms total → IfSome result (IsTotalOf (terms + 1)) }
{
    match term_value(rows, &part.term)? {
        SumValue::Number(number) if part.plus => Some(total + number),
        SumValue::Number(number) => Some(total - number),
        SumValue::Text(_) => None,
    }
}

/// Gives the value of a term; None for a column that isn't in its row, or has another type there.
fn term_value<'a>(rows: &RowPair<'a>, term: &'a Term) -> Option<SumValue<'a>>
    ensures value { option_map field_of result ≡ value_in rows.now term.now }
    ensures small { IfSome result IsSmall }
{
    match term {
        Term::Column(side, at) => match column_value(rows, *side, usize::from(*at))? {
            Field::Int(number) => Some(SumValue::Number(i128::from(number))),
            Field::Text(text) => Some(SumValue::Text(text.bytes())),
        },
        Term::Number(number) => Some(SumValue::Number(i128::from(*number))),
        Term::Text(text) => Some(SumValue::Text(text.bytes())),
    }
}

/// Returns the field of a side's row in a column; None where the row lacks it, or has another type there.
fn column_value<'a>(rows: &RowPair<'a>, side: Side, at: usize) -> Option<Field<'a>>
    ensures { result ≡ column_value
        (slice_get (columns_of rows.now.query.now side) at)
        (slice_get (by_side rows.now.left.now rows.now.right.now side) at) }
{
    let column = rows.query.schema(side).columns.get(at)?;
    let field = rows.of(side).get(at)?;
    match (column.kind, &field) {
        (ColumnType::Int, Field::Int(_)) | (ColumnType::Text, Field::Text(_)) => Some(field),
        _ => None,
    }
}

impl<'a> RowPair<'a> {
    /// Returns the row of a side.
    fn of(&self, side: Side) -> &'a Row
        ensures { result.now ≡ by_side self.now.left.now self.now.right.now side }
    {
        match side {
            Side::Left => self.left,
            Side::Right => self.right,
        }
    }
}
