//! The chain of cores on one thread, step by step, in whatever order the steps come, and the links between its cores.
#![tactic(auto)]

mod actor;
mod chain;
mod laws;
mod links;
mod plain_link;
mod progress;
mod reports;
mod serial;
mod short_queue;

pub use actor::{Actor, NotNow, Stepped};
pub use chain::Chain;
pub use laws::{
    chains_give_the_join, chains_hold_back_few, emission_begins_the_join, steps_give_a_run,
};
pub use plain_link::PlainLink;
pub use progress::{done_is_complete, some_actor_is_enabled, steps_are_few};
pub use serial::Chooser;
