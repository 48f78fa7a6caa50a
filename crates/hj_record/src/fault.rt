use hj_base::Memory;
use thiserror::Error;

/// Why a piece of a stream is no record.
#[derive(Clone, Copy, Debug, PartialEq, Eq, Error)]
pub enum PieceFault {
    /// The stream ends inside quotes.
    #[error("open quote")]
    OpenQuote,
    /// The piece reads as two or more records.
    #[error("not one record")]
    NotOneRecord,
    /// The piece has more than 65,536 bytes.
    #[error("piece too long")]
    TooLong,
    /// The stream has more bytes than its limit.
    #[error("stream too long")]
    StreamLong,
    /// Memory ran out.
    #[error("out of memory")]
    Memory,
}

impl From<Memory> for PieceFault {
    ghost use Rattle.std.specs.Prelude.{◌≡◌};
    ghost use Rattle.hj_record.specs.declared.fault.PieceFault.TheVariants as fault;

    ghost from_gives = { λ _ e. e ≡ fault.Memory };

    fn from(_: Memory) -> Self {
        PieceFault::Memory
    }
}
