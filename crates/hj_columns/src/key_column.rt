ghost use Rattle.std.specs.Prelude.{◌≡◌, ℕ, ◌+◌, ◌^◌, ◌%◌, ◌≤◌, ◌<◌, [], Some, length, map, slice_get, All, IfOk, OnOk, MatchOption, option_and_then};
ghost use Rattle.std.specs.Int.{bit_at};
ghost use Rattle.std.specs.Option.{option_copied};
ghost use Rattle.hj_rows.specs.NumberedRows.{places_in};
ghost use Rattle.hj_columns.specs.Columns.{filters_of, AreIn, AreLetIn, HasWholeBlocks, IsKeyColumn, Waits};

use crate::mask::within;
use hj_base::{Memory, Side};
use hj_rows::{KeyFilter, KeyRange, NumberedRows};
use std::alloc::Global;

/// The keys of rows by a filter, in the order of the rows' places, in blocks of 64. A key at an empty place or after the last one
/// is that of no row.
#[derive(Drop)]
pub struct KeyColumn<F> {
    pub(crate) filter: F,
    pub(crate) keys: Vec<u64>,
}

/// Makes columns with no keys, one for each filter.
pub(crate) fn new_columns<F: Copy + Drop>(
    alloc: Global,
    filters: &[F],
) -> Result<Vec<KeyColumn<F>>, Memory>
    ensures filters { IfOk result (λ columns. filters_of columns.items ≡ filters.now) }
    ensures empty { IfOk result (λ columns. All (λ column. column.keys.items ≡ []) columns.items) }
{
    let mut columns = Vec::with_capacity(alloc, filters.len())?;
    for filter in filters {
        columns.push(KeyColumn {
            filter: *filter,
            keys: Vec::new(alloc),
        })?;
    }
    Ok(columns)
}

/// Puts the keys of a row of `side` after the last place, where they are those of no row.
pub(crate) fn reserve_keys<P, F: KeyFilter<P>>(
    columns: &mut Vec<KeyColumn<F>>,
    rows: &NumberedRows<P>,
    side: Side,
    row: &P,
) -> Result<(), Memory>
    requires { All (IsKeyColumn (λ filter. F.key filter side) (places_in rows.now)) columns.old.items }
    ensures columns { All (IsKeyColumn (λ filter. F.key filter side) (places_in rows.now)) columns.new.items }
    ensures filters { filters_of columns.new.items ≡ filters_of columns.old.items }
    ensures wait { OnOk result (All (Waits (λ filter. F.key filter side) (places_in rows.now) row.now) columns.new.items) }
{
    let place = rows.places();
    for at in 0..columns.len() {
        let column = &mut columns[at];
        let key = column.filter.key_of(side, row);
        column.put(place, key)?;
    }
    Ok(())
}

/// Makes all keys anew, of rows of `side`.
pub(crate) fn fill<P, F: KeyFilter<P>>(
    columns: &mut Vec<KeyColumn<F>>,
    rows: &NumberedRows<P>,
    side: Side,
)
    requires { All (HasWholeBlocks (places_in rows.now)) columns.old.items }
    ensures columns { All (IsKeyColumn (λ filter. F.key filter side) (places_in rows.now)) columns.new.items }
    ensures filters { filters_of columns.new.items ≡ filters_of columns.old.items }
{
    for at in 0..columns.len() {
        let column = &mut columns[at];
        column.fill(rows, side);
    }
}

impl<F> KeyColumn<F> {
    /// Puts a key at a place, which is at most the next after all keys.
    fn put(&mut self, at: usize, key: u64) -> Result<(), Memory>
        requires room { at ≤ length self.old.keys.items }
        requires blocks { length self.old.keys.items % 64 ≡ 0 }
        ensures filter { self.new.filter ≡ self.old.filter }
        ensures before { (k : ℕ) → k < at → slice_get self.new.keys.items k ≡ slice_get self.old.keys.items k }
        ensures room { length self.old.keys.items ≤ length self.new.keys.items }
        ensures blocks { length self.new.keys.items % 64 ≡ 0 }
        ensures put { OnOk result (slice_get self.new.keys.items at ≡ Some key) }
    {
        if at >= self.keys.len() {
            self.keys.extend_from_slice(&[0; 64])?;
        }
        self.keys[at] = key;
        Ok(())
    }

    /// Makes all keys anew, of rows of `side`.
    fn fill<P>(&mut self, rows: &NumberedRows<P>, side: Side)
    where
        F: KeyFilter<P>,
        requires { HasWholeBlocks (places_in rows.now) self.old }
        ensures column { IsKeyColumn (λ filter. F.key filter side) (places_in rows.now) self.new }
        ensures filter { self.new.filter ≡ self.old.filter }
    {
        for at in 0..rows.places() {
            if let Some(row) = row_at(rows, at) {
                let key = self.filter.key_of(side, row);
                self.keys[at] = key;
            }
        }
    }
}

/// Returns the row of a place; None where it is empty, and after the last place.
#[inline(always)]
fn row_at<P>(rows: &NumberedRows<P>, at: usize) -> Option<&P>
    ensures { option_copied result ≡ option_and_then (λ row. row) (slice_get (places_in rows.now) at) }
{
    let (_, place) = rows.places.get_index(at)?;
    match place {
        Some(rest) => Some(&rest.row),
        None => None,
    }
}

/// Gives the ranges of the keys of rows of `side` that may match `against`, a row of the other side, one for each column; None
/// where no such row may.
pub(crate) fn ranges_for<P, F: KeyFilter<P>>(
    alloc: Global,
    columns: &[KeyColumn<F>],
    side: Side,
    against: &P,
) -> Result<Option<Vec<KeyRange>>, Memory>
    ensures { IfOk result (λ ranges. MatchOption ranges
        ((row : P) → AreLetIn (λ filter. F.range filter side against.now) (λ filter. F.key filter side) row columns.now → ⊥)
        (λ ranges. map (λ range. Some range) ranges.items ≡ map (λ column. F.range column.filter side against.now) columns.now)) }
{
    let mut ranges = Vec::with_capacity(alloc, columns.len())?;
    for column in columns {
        match column.filter.range_for(side, against) {
            Some(range) => ranges.push(range)?,
            None => return Ok(None),
        }
    }
    Ok(Some(ranges))
}

/// Tells which of the 64 places from `from` on have keys in all ranges, of which there is one for each column: bit k is about place
/// `from + k`.
#[inline(always)]
pub(crate) fn mask_of<F>(columns: &[KeyColumn<F>], ranges: &[KeyRange], from: usize) -> u64
    requires count { length ranges.now ≡ length columns.now }
    requires keys { All (λ column. from + 64 ≤ length column.keys.items) columns.now }
    ensures { (k : ℕ) → k < 64 → AreIn columns.now ranges.now (from + k) → bit_at result k ≡ 1 }
{
    let mut mask = u64::MAX;
    for at in 0..columns.len() {
        let column = &columns[at];
        let range = ranges[at];
        mask &= within(column.keys.as_slice(), from, range);
        if mask == 0 {
            return 0;
        }
    }
    mask
}
