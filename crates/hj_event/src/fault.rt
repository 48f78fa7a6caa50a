ghost use Rattle.std.specs.Prelude.{◌≡◌};
ghost use Rattle.hj_event.specs.declared.fault.RecordFault.TheVariants.{Piece, Row};

use crate::RowFault;
use hj_record::PieceFault;
use thiserror::Error;

/// Why a record ends the stream.
#[derive(Clone, Copy, Debug, PartialEq, Eq, Error)]
pub enum RecordFault {
    /// Its piece is no record.
    #[error("{0}")]
    Piece(PieceFault),
    /// Its fields are no row.
    #[error("{0}")]
    Row(RowFault),
    /// Its time, the second number, is below the greatest time before it, the first, by more than the slack.
    #[error("time {1} after {0}")]
    TimeBack(i64, i64),
}

impl From<PieceFault> for RecordFault {
    ghost from_gives = { λ found e. e ≡ Piece found };

    fn from(found: PieceFault) -> Self {
        RecordFault::Piece(found)
    }
}

impl From<RowFault> for RecordFault {
    ghost from_gives = { λ found e. e ≡ Row found };

    fn from(found: RowFault) -> Self {
        RecordFault::Row(found)
    }
}
