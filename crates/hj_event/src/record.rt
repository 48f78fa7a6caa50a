ghost use Rattle.std.specs.Prelude.{◌≡◌, ◌≤◌, ◌-ℤ◌, int_lt, length, pos};
ghost use Rattle.hj_event.specs.Taking.{ReadsPiece, InTime, is_late};

use crate::{RecordFault, read_row};
use hj_record::{Fields, read_piece_into};
use hj_value::{Row, Schema};
use std::alloc::Global;

/// Reads the row of a piece by a schema, after rows of which the greatest time is `greatest`; None where the piece holds no
/// record. The fields of the record go into `fields`.
pub(crate) fn read_record(
    alloc: Global,
    schema: &Schema,
    slack: u64,
    greatest: Option<i64>,
    piece: &[u8],
    fields: &mut Fields,
) -> Result<Option<Row>, RecordFault>
    requires { length piece.now ≤ 65536 }
    ensures { ReadsPiece result schema.now.columns slack greatest piece.now }
{
    if !read_piece_into(piece, fields)? {
        return Ok(None);
    }
    let row = read_row(alloc, schema, fields)?;
    Ok(Some(in_time(slack, greatest, row)?))
}

/// Returns the row, unless its time is below the greatest time before it less the slack.
#[inline(always)]
fn in_time(slack: u64, greatest: Option<i64>, row: Row) -> Result<Row, RecordFault>
    ensures { InTime result slack greatest row }
{
    let time = row.time();
    match greatest {
        Some(greatest) if is_below(slack, greatest, time) => {
            Err(RecordFault::TimeBack(greatest, time))
        }
        _ => Ok(row),
    }
}

/// Returns whether a row of this time comes too late: below the greatest time before it less the slack.
#[inline(always)]
pub(crate) fn is_late(slack: u64, greatest: Option<i64>, time: i64) -> bool
    ensures { result ≡ is_late slack greatest time }
{
    match greatest {
        Some(greatest) => is_below(slack, greatest, time),
        None => false,
    }
}

/// Returns whether a time is below another one less the slack.
#[inline(always)]
fn is_below(slack: u64, greatest: i64, time: i64) -> bool
    ensures { result ≡ int_lt time (greatest -ℤ pos slack) }
{
    time < greatest && slack < greatest.abs_diff(time)
}
