ghost use Rattle.std.specs.Prelude.{◌≡◌, ◌↔◌, ◌+◌, ◌≤◌, true, drop, length, slice_get, take};
ghost use Rattle.hj_relay.specs.Fits.{Fits, kinds};

use hj_base::Side;
use hj_query::Query;
use hj_value::{ColumnType, Columns, Schema};

/// Returns whether a second join, under the query `second`, can read the pairs of a first one, under `first`, as its left stream: the
/// left columns of `second` are a number, then columns of the types of the left columns of `first`, then of its right ones.
pub fn fits(first: &Query, second: &Query) -> bool
    ensures { (result ≡ true) ↔ Fits first.now second.now }
{
    let left = &first.schema(Side::Left).columns;
    let right = &first.schema(Side::Right).columns;
    let read = second.schema(Side::Left);
    // Every schema begins with a number, its time.
    read.columns.len() == 1 + left.len() + right.len()
        && are_at(read, 1, left)
        && are_at(read, 1 + left.len(), right)
}

/// Returns the type of the column at a place, counted from 0; None exactly at or past the length.
fn kind_at(columns: &Columns, at: usize) -> Option<ColumnType>
    ensures { result ≡ slice_get (kinds columns.now) at }
{
    match columns.get(at) {
        Some(column) => Some(column.kind),
        None => None,
    }
}

/// Returns whether two types are the same, where they are there.
fn are_same(one: Option<ColumnType>, other: Option<ColumnType>) -> bool
    ensures { (result ≡ true) ↔ (one ≡ other) }
{
    one == other
}

/// Returns whether the columns of a schema, from a place on, begin with columns of the types of others.
fn are_at(read: &Schema, from: usize, others: &Columns) -> bool
    requires { from + length others.now ≤ length read.now.columns }
    ensures { (result ≡ true) ↔ (take (length others.now) (drop from (kinds read.now.columns)) ≡ kinds others.now) }
{
    for at in 0..others.len() {
        if !are_same(kind_at(&read.columns, from + at), kind_at(others, at)) {
            return false;
        }
    }
    true
}
