ghost use Rattle.std.specs.Prelude.{◌≡◌, ◌+◌, ◌*◌, ◌++◌, ◌≤◌, length, vec_len, map, drop, IfOk, OnOk};
ghost use Rattle.std.specs.Fmt.{signed_decimal};
ghost use Rattle.hj_emit.specs.Cells.{cell, cells};
ghost use Rattle.hj_value.specs.declared.field.Field.TheVariants as field;

use hj_base::Memory;
use itoa::write_digits;

/// The most bytes that a number and a comma take.
const MOST_IN_CELL: usize = 21;

/// Twice as many.
const TWO_CELLS: usize = 42;

/// The most bytes that two rows of four numbers take, with a comma after each number.
const MOST_BYTES: usize = 168;

/// Makes `text` end with the numbers of two rows, with a comma after each, and returns where they start. They are written
/// from the last digit on into room that stays as it is from line to line.
#[inline(always)]
pub(crate) fn fill_numbers(text: &mut Vec<u8>, left: &[i64], right: &[i64]) -> Result<usize, Memory>
    requires few { (length left.now ≤ 4) × (length right.now ≤ 4) }
    ensures within { IfOk result (λ start. start ≤ vec_len text.new) }
    ensures fields { IfOk result (λ start. drop start text.new.items
        ≡ cells (map field.Int left.now) ++ cells (map field.Int right.now)) }
{
    if text.len() != MOST_BYTES {
        text.resize(MOST_BYTES, 0)?;
    }
    let middle = write_numbers(right, text, MOST_BYTES);
    Ok(write_numbers(left, text, middle))
}

/// Appends the numbers of two rows, with a comma after each.
#[inline(always)]
pub(crate) fn push_numbers(text: &mut Vec<u8>, left: &[i64], right: &[i64]) -> Result<(), Memory>
    requires few { (length left.now ≤ 4) × (length right.now ≤ 4) }
    ensures { OnOk result (text.new.items ≡ text.old.items ++ (cells (map field.Int left.now) ++ cells (map field.Int right.now))) }
{
    let mut bytes = [0; MOST_BYTES];
    let middle = write_numbers(right, &mut bytes, MOST_BYTES);
    let start = write_numbers(left, &mut bytes, middle);
    text.extend_from_slice(&bytes[start..])?;
    Ok(())
}

/// Appends a number and a comma.
pub(crate) fn push_number(text: &mut Vec<u8>, number: i64) -> Result<(), Memory>
    ensures { OnOk result (text.new.items ≡ text.old.items ++ cell (signed_decimal number)) }
{
    let mut bytes = [0; TWO_CELLS];
    let start = write_number(number, &mut bytes, MOST_IN_CELL);
    let end = text.len() + (MOST_IN_CELL - start);
    text.extend_from_slice(&bytes[start..start + MOST_IN_CELL])?;
    text.truncate(end);
    Ok(())
}

/// Writes numbers, with a comma after each, so that they end at `end`, and returns where they start.
#[inline(always)]
fn write_numbers(numbers: &[i64], bytes: &mut [u8], end: usize) -> usize
    requires room { 21 * length numbers.now ≤ end }
    requires within { end ≤ length bytes.old }
    ensures start { (result ≤ end) × (end ≤ result + 21 * length numbers.now) }
    ensures written { drop result bytes.new ≡ cells (map field.Int numbers.now) ++ drop end bytes.old }
{
    let mut at = end;
    let mut left = numbers.len();
    while left > 0 {
        left -= 1;
        at = write_number(numbers[left], bytes, at);
    }
    at
}

/// Writes a number and a comma, so that they end at `end`, and returns where they start.
#[inline(always)]
fn write_number(number: i64, bytes: &mut [u8], end: usize) -> usize
    requires room { 21 ≤ end }
    requires within { end ≤ length bytes.old }
    ensures start { (result ≤ end) × (end ≤ result + 21) }
    ensures written { drop result bytes.new ≡ cell (signed_decimal number) ++ drop end bytes.old }
{
    bytes[end - 1] = b',';
    let start = write_digits(number.unsigned_abs(), bytes, end - 1);
    if number >= 0 {
        return start;
    }
    bytes[start - 1] = b'-';
    start - 1
}
