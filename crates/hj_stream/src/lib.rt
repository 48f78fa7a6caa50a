//! The two ends of a join: the events of two streams as a chain's feed, the lines of pairs as its drain, and what a join's
//! outcome says.
#![tactic(auto)]

mod drain;
mod feed;
mod history;
mod line;
mod outcome;
mod raw;

pub use drain::LineDrain;
pub use feed::EventFeed;
pub use line::{JoinedLine, PairLine};
pub use outcome::{Outcome, outcome_of};
pub use raw::{RawLineDrain, raw_outcome_of};
