ghost use Rattle.std.specs.Prelude.{◌≡◌, ◌||◌, ◌&&◌, not, true, false, None, FitsSigned, OnOk, option_and_then};
ghost use Rattle.std.specs.Int.{w64};
ghost use Rattle.std.specs.Option.{option_copied};
ghost use Rattle.std.specs.BTreeMap.Range.{range_contains, IsLeBy, IsLtBy};
ghost use Rattle.std.specs.Range.Bound.{IsForward};
ghost use Rattle.hj_msg.specs.Store.{joins};
ghost use Rattle.hj_rows.specs.NumberedRows.{rows_in};
ghost use Rattle.hj_rows.specs.Places.{joining};
ghost use Rattle.hj_index.specs.OrderedStore.{rest_of};
ghost use Rattle.hj_index.specs.OrderedIndex.{holds_key, is_key, key_cmp, key_of, number_at, stands, AreWithin, HasPlace, OrderedKey};

use hj_base::{Memory, Side};
use hj_msg::Join;
use hj_rows::{NumberedRows, is_joined};
use hj_value::{Field, Row, SharedRow};
use std::alloc::Global;
use std::collections::BTreeSet;
use std::ops::Bound;

/// A row's number in a column, and the number of its arrival.
pub(crate) type OrderedKey = (i64, u64);

/// The keys of rows, in order.
///
/// One more key may stand there: that of a row which is still to come, so that it comes without memory.
#[derive(Drop)]
pub struct OrderedIndex {
    pub(crate) keys: BTreeSet<OrderedKey>,
    /// The key that stands there for no row.
    pub(crate) reserved: Option<OrderedKey>,
}

impl OrderedIndex {
    /// Makes an index with no keys.
    pub(crate) fn new(alloc: Global) -> Self
        ensures { (key : OrderedKey) → stands result key ≡ false }
    {
        OrderedIndex {
            keys: BTreeSet::new(alloc),
            reserved: None,
        }
    }

    /// Makes a place for a key, if there is one. The place that was made before ends.
    pub(crate) fn reserve(&mut self, key: Option<OrderedKey>) -> Result<(), Memory>
        ensures same { (other : OrderedKey) → stands self.new other ≡ stands self.old other }
        ensures place { OnOk result (HasPlace self.new.keys.keys key) }
    {
        self.end_place();
        match key {
            Some(key) => self.make_place(key),
            None => Ok(()),
        }
    }

    /// Ends the place that was made.
    fn end_place(&mut self)
        ensures same { (other : OrderedKey) → stands self.new other ≡ stands self.old other }
        ensures ended { self.new.reserved ≡ None }
    {
        if let Some(reserved) = self.reserved.take() {
            self.keys.remove(&reserved);
        }
    }

    /// Makes a place for a key.
    fn make_place(&mut self, key: OrderedKey) -> Result<(), Memory>
        requires { self.old.reserved ≡ None }
        ensures same { (other : OrderedKey) → stands self.new other ≡ stands self.old other }
        ensures place { OnOk result (holds_key self.new.keys.keys key ≡ true) }
    {
        if self.keys.insert(key)? {
            self.reserved = Some(key);
        }
        Ok(())
    }

    /// Puts a key in the place that was made for it, and takes another one out, if there are such.
    #[inline(always)]
    pub(crate) fn replace(&mut self, replaced: Option<OrderedKey>, key: Option<OrderedKey>)
        requires { HasPlace self.old.keys.keys key }
        ensures { (other : OrderedKey) → stands self.new other ≡ (is_key other key || (not (is_key other replaced) && stands self.old other)) }
    {
        self.fill(key);
        if replaced != key {
            self.remove(replaced);
        }
    }

    /// Puts a key in the place that was made for it, if there is one.
    #[inline(always)]
    fn fill(&mut self, key: Option<OrderedKey>)
        requires { HasPlace self.old.keys.keys key }
        ensures { (other : OrderedKey) → stands self.new other ≡ (is_key other key || stands self.old other) }
    {
        if self.reserved == key {
            self.reserved = None;
        }
    }

    /// Takes a key out, if there is one.
    #[inline(always)]
    pub(crate) fn remove(&mut self, key: Option<OrderedKey>)
        ensures { (other : OrderedKey) → stands self.new other ≡ (not (is_key other key) && stands self.old other) }
    {
        if let Some(key) = key {
            self.keys.remove(&key);
        }
    }

    /// Returns the row for which a key stands, where it is settled and joins with a row of the other side.
    #[inline(always)]
    pub(crate) fn joining<'a, J: Join<SharedRow>>(
        &self,
        rows: &'a NumberedRows<SharedRow>,
        key: OrderedKey,
        side: Side,
        against: &SharedRow,
        join: &J,
    ) -> Option<&'a SharedRow>
        ensures { option_copied result ≡ joining (λ row. joins (J.predicate join.now) side row against.now) (rest_of (rows_in rows.now) self.now.reserved key) }
    {
        if self.reserved == Some(key) {
            return None;
        }
        let rest = rows.get(key.1)?;
        if rest.settled && is_joined(side, &rest.row, against, join) {
            Some(&rest.row)
        } else {
            None
        }
    }
}

/// Returns a column's value in a row; None where the row lacks it, or it is a text.
#[inline(always)]
pub(crate) fn number_at(row: &Row, column: u16) -> Option<i64>
    ensures { result ≡ number_at column row.now }
{
    match row.get(usize::from(column))? {
        Field::Int(number) => Some(number),
        Field::Text(_) => None,
    }
}

/// Gives the key of a row that came under a number; None where it has no number in the column.
#[inline(always)]
pub(crate) fn key_of(row: &Row, own: u16, no: u64) -> Option<OrderedKey>
    ensures { result ≡ key_of own no row.now }
{
    Some((number_at(row, own)?, no))
}

/// Finds the key of the row that came under a number, where there is one.
#[inline(always)]
pub(crate) fn key_of_held(row: &Option<SharedRow>, own: u16, no: u64) -> Option<OrderedKey>
    ensures { result ≡ option_and_then (key_of own no) row.now }
{
    match row {
        Some(row) => key_of(row.row(), own, no),
        None => None,
    }
}

/// Gives the bounds of the keys of which the number differs from another one by at most `within`.
#[inline(always)]
pub(crate) fn band(number: i64, within: u64) -> (Bound<OrderedKey>, Bound<OrderedKey>)
    ensures forward { IsForward (IsLeBy key_cmp) (IsLtBy key_cmp) result.0 result.1 }
    ensures all { (key : OrderedKey) → AreWithin within key.0 number → range_contains key_cmp result.0 result.1 key ≡ true }
    ensures only { (key : OrderedKey) → FitsSigned w64 key.0 → range_contains key_cmp result.0 result.1 key ≡ true → AreWithin within key.0 number }
{
    let first = match number.checked_sub_unsigned(within) {
        Some(low) => Bound::Included((low, 0)),
        None => Bound::Unbounded,
    };
    let last = match number.checked_add_unsigned(within) {
        Some(high) if high < i64::MAX => Bound::Excluded((high + 1, 0)),
        _ => Bound::Unbounded,
    };
    (first, last)
}
