use hj_base::Memory;
use thiserror::Error;

/// Why a text can't be cut into tokens. A place is that of a byte of the text, counted from 0.
#[derive(Clone, Copy, Debug, PartialEq, Eq, Error)]
pub enum LexFault {
    /// No token goes on with this byte, or begins with it.
    #[error("bad byte at {0}")]
    BadByte(usize),
    /// A text that begins at this quote has no end.
    #[error("open text at {0}")]
    OpenText(usize),
    /// The number that begins at this digit is above 9223372036854775807.
    #[error("number out of range at {0}")]
    NumberRange(usize),
    #[error("out of memory")]
    Memory,
}

impl From<Memory> for LexFault {
    ghost use Rattle.std.specs.Prelude.{◌≡◌};
    ghost use Rattle.hj_lex.specs.declared.fault.LexFault.TheVariants as fault;

    ghost from_gives = { λ _ e. e ≡ fault.Memory };

    fn from(_: Memory) -> Self {
        LexFault::Memory
    }
}
