//! The join of two streams under a query, from bytes to the text of its pairs.
#![tactic(auto)]

mod crew;
mod ended;
mod lines;
mod raw;
mod run;
mod serial;
mod threads;

pub use lines::LineJoin;
pub use raw::join_raw;
pub use run::SerialPlan;
pub use serial::{join_serial, join_serial_by};
pub use threads::{join_threads, join_threads_by};
