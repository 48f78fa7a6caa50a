ghost use Rattle.std.specs.Prelude.{◌≡◌, ◌<◌, [], true, length, slice_index, IfOk, IfSome};
ghost use Rattle.hj_event.specs.Lines.{IsDigit, IsLineOf, TakesValue};

use super::numbers::take_int;
use super::texts::take_text;
use hj_base::Memory;
use hj_record::{COMMA, LINE_FEED};
use hj_value::{ColumnType, Field, Row, Schema};

/// Reads the row of a line at the start of some bytes: a field for each column, with commas between them and a line feed behind
/// the last. A number is of digits alone; a text stands in quotes with no quote inside, or has no quote, comma or line end. The
/// first byte is a digit. `row` is empty before. Returns how many bytes the line takes; 0 where the bytes don't begin so, and
/// then nothing is said of the row.
#[inline(always)]
pub fn read_line(schema: &Schema, bytes: &[u8], row: &mut Row) -> Result<usize, Memory>
    requires { row.old ≡ [] }
    ensures { IfOk result (λ used. 0 < used → IsLineOf schema.now.columns row.new used bytes.now) }
{
    let columns = schema.columns.len();
    if columns == 0 || !begins_with_digit(bytes) {
        return Ok(0);
    }
    let last = columns - 1;
    let mut at = 0;
    for column in 0..last {
        let Some((field, size)) = take_field(schema, column, &bytes[at..], COMMA) else {
            return Ok(0);
        };
        row.push(field)?;
        at += size;
    }
    let Some((field, size)) = take_field(schema, last, &bytes[at..], LINE_FEED) else {
        return Ok(0);
    };
    row.push(field)?;
    Ok(at + size)
}

/// Takes the field of a column from the start of some bytes, with this byte behind it. Returns it with the count of all these
/// bytes; None where the bytes don't begin so.
#[inline(always)]
fn take_field<'a>(
    schema: &Schema,
    column: usize,
    bytes: &'a [u8],
    behind: u8,
) -> Option<(Field<'a>, usize)>
    ensures { IfSome result (λ found. TakesValue schema.now.columns column found.0 found.1 behind bytes.now) }
{
    let column = schema.columns.get(column)?;
    match column.kind {
        ColumnType::Int => {
            let (value, size) = take_int(bytes, behind)?;
            Some((Field::Int(value), size))
        }
        ColumnType::Text => {
            let (text, size) = take_text(bytes, behind)?;
            Some((Field::Text(text), size))
        }
    }
}

/// Returns whether the first byte is a digit.
#[inline(always)]
fn begins_with_digit(bytes: &[u8]) -> bool
    ensures digit { result ≡ true → IsDigit (slice_index bytes.now 0) }
    ensures some { result ≡ true → 0 < length bytes.now }
{
    match bytes.first() {
        Some(first) => first.is_ascii_digit(),
        None => false,
    }
}
