ghost use Rattle.std.specs.Prelude.{◌≡◌, if◌then◌else◌};
ghost use Rattle.hj_core.specs.Rows as rows;

use hj_base::{EventNo, Side};
use hj_msg::Msg;

/// Makes the message of a left row, or of a right one.
#[inline(always)]
pub fn row_message<const IS_LEFT: bool, P>(no: EventNo, row: P) -> Msg<P>
    ensures { result ≡ rows.row_message IS_LEFT no row }
{
    if IS_LEFT {
        Msg::R { no, row }
    } else {
        Msg::S { no, row }
    }
}

/// Returns the side of a left row, or of a right one.
#[inline(always)]
pub(crate) fn side_of<const IS_LEFT: bool>() -> Side
    ensures { result ≡ rows.side_of IS_LEFT }
{
    if IS_LEFT { Side::Left } else { Side::Right }
}

/// Returns the store that a left row probes, or a right one, and the side of the rows there.
#[inline(always)]
pub(crate) fn probed<'s, const IS_LEFT: bool, S>(left: &'s S, right: &'s S) -> (&'s S, Side)
    ensures store { result.0.now ≡ (if IS_LEFT then right.now else left.now) }
    ensures side { result.1 ≡ rows.opposite_of IS_LEFT }
{
    if IS_LEFT {
        (right, Side::Right)
    } else {
        (left, Side::Left)
    }
}
