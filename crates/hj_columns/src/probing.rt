ghost use Rattle.std.specs.Prelude.{◌≡◌, ◌≢◌, ℕ, ◌+◌, ◌≤◌, ◌<◌, ◌^◌, ◌*◌, ◌++◌, true, None, Some, [], All, IfOk, IfSome, OnOk, length, map, option_map, take, drop};
ghost use Rattle.std.specs.Int.{bit_at};
ghost use Rattle.hj_msg.specs.Store.{joins, settled_matches};
ghost use Rattle.hj_rows.specs.Keys.{KeepsKeys};
ghost use Rattle.hj_rows.specs.NumberedRows.{places_in, rows_in};
ghost use Rattle.hj_columns.specs.Columns.{filters_of, IsKeyColumn};
ghost use Rattle.hj_columns.specs.Probing.{as_partner, joined_at, partners_in, IsInOrder};

use crate::found_rows::FoundRows;
use crate::key_column::{KeyColumn, mask_of, ranges_for};
use hj_base::{Memory, Share, Side};
use hj_msg::{Join, Partners};
use hj_rows::{KeyFilter, KeyRange, NumberedRows, joining_row, probe_sorted};
use std::alloc::Global;

/// Puts the settled rows of `side` that join with `against`, a row of the other side, into an empty list of partners, by their keys.
pub(crate) fn probe_columns<P: Share + Drop, F: KeyFilter<P>, J: Join<P>>(
    alloc: Global,
    rows: &NumberedRows<P>,
    columns: &[KeyColumn<F>],
    side: Side,
    against: &P,
    join: &J,
    found: &mut Partners<P>,
) -> Result<(), Memory>
    requires columns { All (IsKeyColumn (λ filter. F.key filter side) (places_in rows.now)) columns.now }
    requires keeps { All (λ filter. KeepsKeys (J.predicate join.now) (F.key filter) (F.range filter)) (filters_of columns.now) }
    requires empty { found.old ≡ [] }
    ensures { OnOk result (found.new ≡ settled_matches (J.predicate join.now) side against.now (rows_in rows.now)) }
{
    let Some(ranges) = ranges_for(alloc, columns, side, against)? else {
        return Ok(());
    };
    let ranges = ranges.as_slice();
    match probe_blocks(alloc, rows, columns, ranges, side, against, join)? {
        Some(partners) => {
            *found = partners;
            Ok(())
        }
        None => probe_sorted(alloc, rows, side, against, join, found),
    }
}

/// Finds what a probe of rows of `side` asks for, each block of 64 places by its mask; None where it doesn't stand in the order of
/// numbers. There is a range of keys for each column.
fn probe_blocks<P: Share + Drop, F: KeyFilter<P>, J: Join<P>>(
    alloc: Global,
    rows: &NumberedRows<P>,
    columns: &[KeyColumn<F>],
    ranges: &[KeyRange],
    side: Side,
    against: &P,
    join: &J,
) -> Result<Option<Partners<P>>, Memory>
    requires columns { All (IsKeyColumn (λ filter. F.key filter side) (places_in rows.now)) columns.now }
    requires ranges { map (λ range. Some range) ranges.now ≡ map (λ column. F.range column.filter side against.now) columns.now }
    requires keeps { All (λ filter. KeepsKeys (J.predicate join.now) (F.key filter) (F.range filter)) (filters_of columns.now) }
    ensures { IfOk result (λ found. IfSome found (λ partners. partners ≡ settled_matches (J.predicate join.now) side against.now (rows_in rows.now))) }
{
    let partners = Partners::new(alloc);
    let mut found = FoundRows { partners, last: 0 };
    for block in 0..blocks_of(rows) {
        let from = 64 * block;
        let mask = mask_of(columns, ranges, from);
        if !probe_block(rows, from, mask, side, against, join, &mut found)? {
            return Ok(None);
        }
    }
    Ok(Some(found.partners))
}

/// Returns how many blocks of 64 places there are; the last one may have fewer.
fn blocks_of<P>(rows: &NumberedRows<P>) -> usize
    ensures enough { length (places_in rows.now) ≤ 64 * result }
    ensures most { 64 * result < length (places_in rows.now) + 64 }
    ensures few { length (places_in rows.now) < 2 ^ 63 }
{
    rows.places().div_ceil(64)
}

/// Adds what a probe finds among the 64 places from `from` on. Only those are looked at that the mask names, and no other has a row
/// that joins. Returns false where it doesn't stand in the order of numbers.
fn probe_block<P: Share + Drop, J: Join<P>>(
    rows: &NumberedRows<P>,
    from: usize,
    mask: u64,
    side: Side,
    against: &P,
    join: &J,
    found: &mut FoundRows<P>,
) -> Result<bool, Memory>
    requires room { from + 64 < 2 ^ 64 }
    requires named { (k : ℕ) → k < 64 → bit_at mask k ≡ 0 → joined_at (λ row. joins (J.predicate join.now) side row against.now) rows.now.places.entries (from + k) ≡ None }
    ensures found { IfOk result (λ in_order. in_order ≡ true → found.new.partners
        ≡ found.old.partners ++ partners_in (λ row. joins (J.predicate join.now) side row against.now) (take 64 (drop from rows.now.places.entries))) }
    ensures order { IfOk result (λ in_order. in_order ≡ true → IsInOrder found.old → IsInOrder found.new) }
{
    let mut left = mask;
    'bits: while left != 0 {
        let bit = left.trailing_zeros();
        if !probe_place(rows, from + bit as usize, side, against, join, found)? {
            return Ok(false);
        }
        left = without_bit(left, bit);
    }
    Ok(true)
}

/// Adds what a probe finds at a place; returns false where it doesn't stand in the order of numbers.
#[inline(always)]
fn probe_place<P: Share + Drop, J: Join<P>>(
    rows: &NumberedRows<P>,
    at: usize,
    side: Side,
    against: &P,
    join: &J,
    found: &mut FoundRows<P>,
) -> Result<bool, Memory>
    ensures found { IfOk result (λ in_order. in_order ≡ true → found.new.partners
        ≡ found.old.partners ++ as_partner (joined_at (λ row. joins (J.predicate join.now) side row against.now) rows.now.places.entries at)) }
    ensures order { IfOk result (λ in_order. in_order ≡ true → IsInOrder found.old → IsInOrder found.new) }
{
    match joining_at(rows, at, side, against, join) {
        Some((no, row)) => found.add(no, row.share()?),
        None => Ok(true),
    }
}

/// Returns the row of a place, under its number, where it is settled and joins with a row of the other side.
#[inline(always)]
fn joining_at<'a, P, J: Join<P>>(
    rows: &'a NumberedRows<P>,
    at: usize,
    side: Side,
    against: &P,
    join: &J,
) -> Option<(u64, &'a P)>
    ensures { option_map (λ entry. (entry.0, entry.1.now)) result
        ≡ joined_at (λ row. joins (J.predicate join.now) side row against.now) rows.now.places.entries at }
{
    let (no, place) = rows.places.get_index(at)?;
    let row = joining_row(place, side, against, join)?;
    Some((*no, row))
}

/// Clears a bit of a mask.
#[inline(always)]
fn without_bit(mask: u64, bit: u32) -> u64
    requires { bit < 64 }
    ensures cleared { bit_at result bit ≡ 0 }
    ensures others { (k : ℕ) → k < 64 → k ≢ bit → bit_at result k ≡ bit_at mask k }
    ensures less { bit_at mask bit ≡ 1 → result < mask }
{
    mask & !(1 << bit)
}
