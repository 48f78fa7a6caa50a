//! A run of a chain over two streams' events, whose steps are written line by line.
#![tactic(auto)]

mod lines;
mod plan;
mod ready;
mod writing;

pub use plan::TracePlan;
pub use ready::AlwaysReady;
pub use writing::write_trace;
