ghost use Rattle.std.specs.Prelude.{◌≡◌};
ghost use Rattle.hj_event.specs.declared.schema.fault.RowFault.TheVariants as fault;

use hj_base::Memory;
use thiserror::Error;

/// Why the fields of a record are no row. Columns are counted from 1.
#[derive(Clone, Copy, Debug, PartialEq, Eq, Error)]
pub enum RowFault {
    /// The record has this many fields, and not one for each column.
    #[error("{0} fields")]
    FieldCount(usize),
    /// The column's field isn't an optional sign and digits.
    #[error("column {0} is not a number")]
    NotNumber(u16),
    /// The column's number is outside 64 bits with sign.
    #[error("column {0} is out of range")]
    NumberRange(u16),
    /// The column's bytes aren't UTF-8.
    #[error("column {0} is not text")]
    NotText(u16),
    /// Memory ran out.
    #[error("out of memory")]
    Memory,
}

impl From<Memory> for RowFault {
    ghost from_gives = { λ _ e. e ≡ fault.Memory };

    fn from(_: Memory) -> Self {
        RowFault::Memory
    }
}
