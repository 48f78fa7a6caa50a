//! Two streams that a seed determines, and the line that sums up the text of their join.
#![tactic(auto)]

mod number;
mod tally;
mod two_streams;

pub use tally::{Tally, summary};
pub use two_streams::{TwoStreams, streams};
