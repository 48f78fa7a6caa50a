//! The relay of a join: its pairs as the left stream of a second one. What two joins in a row end as, and what they do.
#![tactic(auto)]

mod ending;
mod laws;
mod line;
mod shape;

pub use ending::TwiceOutcome;
pub use laws::{relay_lines_read_back, relay_reads_back, relay_times_never_fall};
pub use line::RelayLine;
pub use shape::fits;
