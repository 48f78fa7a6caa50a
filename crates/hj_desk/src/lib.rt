//! The calling thread's part of a run on threads: it puts events into the chain of cores, takes what the cores report,
//! and gives what is made of that.
#![tactic(auto)]

mod caller;
mod desk;
mod in_order;
mod laws;
mod outlet;
mod ports;
mod raw;
mod step;

pub use caller::{Caller, Round};
pub use desk::Desk;
pub use in_order::OrderedOutlet;
pub use laws::desks_give_the_join;
pub use outlet::Outlet;
pub use ports::Ports;
pub use raw::RawOutlet;
pub use step::DeskStep;
