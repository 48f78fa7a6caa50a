//! The driver of the chain: which events may be put at its two ends, and what is still to come out of it.
#![tactic(auto)]

mod answers;
mod closes;
mod driver;
mod lane;
mod laws;
mod leaving;

pub use answers::{Admitted, Closing, Why};
pub use driver::Driver;
pub use laws::drivers_follow_their_logs;
