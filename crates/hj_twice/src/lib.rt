//! Two joins in a row: the pairs of the first one are the left stream of the second one.
#![tactic(auto)]

mod mode;
mod relayed;
mod twice;

pub use mode::Mode;
pub use twice::{TwoJoins, join_twice};
