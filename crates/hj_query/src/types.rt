ghost use Rattle.std.specs.Prelude.{◌≡◌};
ghost use Rattle.hj_query.specs.Grammar.{can_compare, can_subtract, is_int_sum, is_text, is_text_sum};
ghost use Rattle.hj_query.specs.Sides.{columns_in};

use crate::schemas::Schemas;
use crate::{Sum, Term};
use hj_value::ColumnType;

/// Returns whether two sums compare: both are numbers, or both are texts.
pub fn can_compare(schemas: &Schemas, left: &Sum, right: &Sum) -> bool
    ensures { result ≡ can_compare (columns_in schemas.now) left.now right.now }
{
    can_subtract(schemas, left, right) || is_text_sum(schemas, left) && is_text_sum(schemas, right)
}

/// Returns whether two sums have a distance: both are numbers.
pub fn can_subtract(schemas: &Schemas, left: &Sum, right: &Sum) -> bool
    ensures { result ≡ can_subtract (columns_in schemas.now) left.now right.now }
{
    is_int_sum(schemas, left) && is_int_sum(schemas, right)
}

/// Returns whether a sum is one of numbers.
fn is_int_sum(schemas: &Schemas, sum: &Sum) -> bool
    ensures { result ≡ is_int_sum (columns_in schemas.now) sum.now }
{
    if is_text(schemas, &sum.first) {
        return false;
    }
    for at in 0..sum.rest.len() {
        let Some(part) = sum.rest.get(at) else {
            unreachable!();
        };
        if is_text(schemas, &part.term) {
            return false;
        }
    }
    true
}

/// Returns whether a sum is one text.
fn is_text_sum(schemas: &Schemas, sum: &Sum) -> bool
    ensures { result ≡ is_text_sum (columns_in schemas.now) sum.now }
{
    is_text(schemas, &sum.first) && sum.rest.len() == 0
}

/// Returns whether a term is a text.
fn is_text(schemas: &Schemas, term: &Term) -> bool
    ensures { result ≡ is_text (columns_in schemas.now) term.now }
{
    match term {
        Term::Column(side, at) => match schemas.of(*side).columns.get(usize::from(*at)) {
            Some(column) => column.kind == ColumnType::Text,
            None => false,
        },
        Term::Number(_) => false,
        Term::Text(_) => true,
    }
}
