ghost use Rattle.std.specs.Prelude.{◌≡◌};
ghost use Rattle.hj_value.specs.Field.{compare_of};

use crate::Text;
use std::cmp::Ordering;

/// The value of one column; the bytes of a text stand in its row.
#[derive(Drop)]
pub enum Field<'a> {
    Int(i64),
    Text(Text<'a>),
}

/// Compares two fields: a number comes before a text, numbers go by value, texts by their bytes, of which the first
/// that differs decides.
pub fn compare(a: &Field<'_>, b: &Field<'_>) -> Ordering
    ensures { result ≡ compare_of a.now b.now }
{
    match (a, b) {
        (Field::Int(a), Field::Int(b)) => a.cmp(b),
        (Field::Int(_), Field::Text(_)) => Ordering::Less,
        (Field::Text(_), Field::Int(_)) => Ordering::Greater,
        (Field::Text(a), Field::Text(b)) => a.bytes().cmp(b.bytes()),
    }
}
