//! CSV streams: cut into pieces, in whatever portions the bytes come, and each piece read as a record.
#![tactic(auto)]

mod byte;
mod cutter;
mod fault;
mod fields;
mod lanes;
mod laws;
mod piece;
mod plain;

pub use byte::{CARRIAGE_RETURN, COMMA, LINE_FEED, QUOTE};
pub use cutter::{Cut, Cutter, Fed};
pub use fault::PieceFault;
pub use fields::Fields;
pub use laws::{cuts_at_line_ends, only_blanks_are_no_record};
pub use piece::{read_piece, read_piece_into};
pub use plain::{bare_size, quote_from};
