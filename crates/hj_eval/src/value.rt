ghost use Rattle.std.specs.Prelude.{◌≡◌, Some};
ghost use Rattle.hj_eval.specs.Holds.{accepts, compares, is_within};
ghost use Rattle.hj_eval.specs.Values.{field_of};
ghost use Rattle.hj_value.specs.declared.field.Field.TheVariants as field;

use hj_query::Op;
use std::cmp::Ordering;

/// The value of a sum: a number, or the bytes of a text that stands elsewhere.
#[derive(Clone, Copy)]
pub enum SumValue<'a> {
    Number(i128),
    Text(&'a [u8]),
}

/// Asks whether two values compare so.
pub fn compares(op: Op, left: SumValue<'_>, right: SumValue<'_>) -> bool
    ensures { result ≡ compares op (Some (field_of left.entry)) (Some (field_of right.entry)) }
{
    match (left, right) {
        (SumValue::Number(left), SumValue::Number(right)) => accepts(op, left.cmp(&right)),
        (SumValue::Text(left), SumValue::Text(right)) => texts_compare(op, left, right),
        _ => false,
    }
}

/// Asks whether the bytes of two texts compare so.
pub fn texts_compare(op: Op, left: &[u8], right: &[u8]) -> bool
    ensures { result ≡ compares op (Some (field.Text left.now)) (Some (field.Text right.now)) }
{
    match op {
        Op::Eq => left == right,
        Op::Ne => left != right,
        Op::Lt | Op::Le | Op::Gt | Op::Ge => accepts(op, left.cmp(&right)),
    }
}

/// Asks whether two values in this order compare so.
pub fn accepts(op: Op, order: Ordering) -> bool
    ensures { result ≡ accepts op order }
{
    match op {
        Op::Eq => order.is_eq(),
        Op::Ne => order.is_ne(),
        Op::Lt => order.is_lt(),
        Op::Le => order.is_le(),
        Op::Gt => order.is_gt(),
        Op::Ge => order.is_ge(),
    }
}

/// Asks whether two values are numbers that differ by at most `distance`.
pub fn is_within(distance: u64, left: SumValue<'_>, right: SumValue<'_>) -> bool
    ensures { result ≡ is_within distance (Some (field_of left.entry)) (Some (field_of right.entry)) }
{
    match (left, right) {
        (SumValue::Number(left), SumValue::Number(right)) => left.abs_diff(right)
            <= u128::from(distance),
        _ => false,
    }
}
