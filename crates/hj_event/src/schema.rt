//! Rows by a schema: the fields of a record are read as the kinds of its columns say.

mod fault;
mod line;
mod numbers;
mod read;
mod texts;

pub use fault::RowFault;
pub use line::read_line;
pub use read::read_row;
