//! Streams and a text that stand in memory, for joins that read no file and write to no output.
#![tactic(auto)]

mod held;

pub use held::{HeldStream, HeldStreams, KeptText};
