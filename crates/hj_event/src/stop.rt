use crate::RecordFault;
use hj_base::{Memory, Side};
use hj_value::SharedRow;

/// Why a side has no further row before its end.
#[derive(Clone, Copy)]
pub(crate) enum SideStop {
    /// The record of this number is refused.
    Bad { at: u64, fault: RecordFault },
    /// A read failed.
    Failed,
    /// Memory ran out.
    Memory,
}

/// What the bytes of a side that were read give, up to the end of a piece.
#[derive(Drop)]
pub(crate) enum ReadStep {
    Row(SharedRow),
    NoRecord,
    /// The piece goes on after them.
    More,
    /// There is no further piece.
    End,
}

/// An answer that a merger gives again by every later call: how it ends.
#[derive(Clone, Copy)]
pub(crate) enum MergeEnd {
    /// Both streams have ended.
    Done,
    /// The record of a side is refused.
    Bad {
        side: Side,
        at: u64,
        fault: RecordFault,
    },
    /// A read of this side failed.
    Failed(Side),
    /// There would be one event more than the limit.
    TooMany,
    /// Memory ran out.
    Memory,
}

impl From<Memory> for SideStop {
    ghost use Rattle.std.specs.Prelude.{◌≡◌};
    ghost use Rattle.hj_event.specs.declared.stop.SideStop.TheVariants as stop;

    ghost from_gives = { λ _ e. e ≡ stop.Memory };

    fn from(_: Memory) -> Self {
        SideStop::Memory
    }
}

impl From<Memory> for MergeEnd {
    ghost use Rattle.std.specs.Prelude.{◌≡◌};
    ghost use Rattle.hj_event.specs.declared.stop.MergeEnd.TheVariants as last;

    ghost from_gives = { λ _ e. e ≡ last.Memory };

    fn from(_: Memory) -> Self {
        MergeEnd::Memory
    }
}
