//! One core of the chain: for each message it finds the partners, keeps the row if it is to be kept, and tells what to
//! send on.
#![tactic(auto)]

mod at_home;
mod flight;
mod flying;
mod one_core;
mod place;
mod prepared;
mod rows;
mod sends;
mod way;

pub use one_core::Core;
pub use prepared::Prepared;
pub use rows::row_message;
pub use sends::Sends;
pub use way::Way;
