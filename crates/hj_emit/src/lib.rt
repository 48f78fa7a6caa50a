//! Lines of output: the text of a left and a right row that were joined.
#![tactic(auto)]

mod fill;
mod marks;
mod numbers;
mod text;
mod writer;

pub use fill::{fill_line, push_line};
pub use hj_base::Bytes as LineBytes;
pub use writer::line;
