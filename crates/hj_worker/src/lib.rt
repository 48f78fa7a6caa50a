//! A worker: one core of the chain between its two links, which handles a message a turn.
#![tactic(auto)]

mod answers;
mod ends;
mod hand;
mod station;
mod worker;

pub use answers::{Place, Turn};
pub use worker::{Parts, Worker};
