//! What the words of the command line ask for, done between streams, sinks and threads that the caller hands in: joins of two streams
//! under a query, and of their pairs with a third stream; the steps of a join, and the check of such steps and an output; the canonical
//! text of a query; the sum of the join of two streams that a seed determines.
#![tactic(auto)]

mod ended;
mod generate;
mod join;
mod plan;
mod recipe;
mod serial;
mod serving;
mod trace;
mod twice;

pub use plan::AloneOrder;
pub use serial::serve_serial;
pub use serving::{Parties, Served, serve};
