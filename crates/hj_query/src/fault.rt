ghost use Rattle.std.specs.Prelude.{◌≡◌, ◌≢◌};
ghost use Rattle.hj_lex.specs.declared.fault.LexFault.TheVariants as lex_fault;
ghost use Rattle.hj_query.specs.declared.fault.QueryFault.TheVariants as fault;

use hj_base::Memory;
use hj_lex::LexFault;
use std::alloc::{AllocError, AllocFailed};
use thiserror::Error;

/// What a query text has to go on with.
#[derive(Clone, Copy, Debug, PartialEq, Eq)]
pub enum Wanted {
    /// The word `left`.
    LeftWord,
    /// The word `right`.
    RightWord,
    /// `(`.
    OpenParen,
    /// `,` or `)`.
    CommaOrClose,
    /// The name of a column.
    ColumnName,
    /// `int` or `text`.
    ColumnKind,
    /// The word `window`.
    WindowWord,
    /// The word of the window's side, which is `left` for the first window and `right` for the second.
    WindowSide,
    /// `rows` or `time`.
    WindowKind,
    /// A number.
    Number,
    /// The word `on`.
    OnWord,
    /// The word `of`.
    OfWord,
    /// `.`.
    Dot,
    /// A column, a number or a text.
    Term,
    /// A comparison or `within`, where `+` and `-` go on too.
    Comparison,
    /// `)`, where `and` and `or` go on too.
    CloseParen,
    /// The end of the text, where `and` and `or` go on too.
    End,
}

/// Why a text is no query. A place is that of a byte of the text, counted from 0; the end of the text has the text's length for its place.
#[derive(Clone, Copy, Debug, PartialEq, Eq, Error)]
pub enum QueryFault {
    /// The text can't be cut into tokens.
    #[error("{0}")]
    Lex(LexFault),
    /// The token at this place doesn't go on with what is wanted.
    #[error("expected {0:?} at {1}")]
    Expected(Wanted, usize),
    /// The column named here has the name of one before it in its schema.
    #[error("double column at {0}")]
    DoubleColumn(usize),
    /// The name at this place is that of no column of its side.
    #[error("unknown column at {0}")]
    UnknownColumn(usize),
    /// The comparison that begins here mixes numbers and texts, or counts with a text.
    #[error("wrong types at {0}")]
    Types(usize),
    /// The first column, named here, isn't `ts int`.
    #[error("wrong first column at {0}")]
    FirstColumn(usize),
    /// The number here is outside the range of its window.
    #[error("window out of range at {0}")]
    WindowRange(usize),
    /// The slack's number, here, is above 2^62.
    #[error("slack out of range at {0}")]
    SlackRange(usize),
    /// The quiet number, here, is above 1000000.
    #[error("quiet out of range at {0}")]
    QuietRange(usize),
    /// The `not` or `(` here stands inside 64 others.
    #[error("too deep at {0}")]
    TooDeep(usize),
    /// The 257th column of a schema is named here.
    #[error("too many columns at {0}")]
    TooManyColumns(usize),
    /// The text has more than 65536 bytes.
    #[error("text too long")]
    TooLong,
    #[error("out of memory")]
    Memory,
}

impl From<LexFault> for QueryFault {
    ghost from_gives = { λ found e. (found ≡ lex_fault.Memory → e ≡ fault.Memory) × (found ≢ lex_fault.Memory → e ≡ fault.Lex found) };

    fn from(found: LexFault) -> Self {
        match found {
            LexFault::Memory => QueryFault::Memory,
            _ => QueryFault::Lex(found),
        }
    }
}

impl From<Memory> for QueryFault {
    ghost from_gives = { λ _ e. e ≡ fault.Memory };

    fn from(_: Memory) -> Self {
        QueryFault::Memory
    }
}

impl From<AllocError> for QueryFault {
    ghost from_gives = { λ _ e. e ≡ fault.Memory };

    fn from(_: AllocError) -> Self {
        QueryFault::Memory
    }
}

impl<T: Drop> From<AllocFailed<T>> for QueryFault {
    ghost from_gives = { λ _ e. e ≡ fault.Memory };

    fn from(_: AllocFailed<T>) -> Self {
        QueryFault::Memory
    }
}
