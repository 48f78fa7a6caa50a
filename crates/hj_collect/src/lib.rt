//! What the cores reported: the pairs of each report, up to which number all pairs have come, and the pairs that were met, until
//! they are due.
#![tactic(auto)]

mod collector;
mod kept;
mod laws;
mod least;
mod mark;
mod marks;
mod ordered;
mod pairs;
mod reach;

pub use collector::Collector;
pub use laws::collectors_follow_their_reports;
pub use mark::Mark;
pub use ordered::Ordered;
