//! Links between threads, without locks: what one end puts the other end takes, in its order.
#![tactic(auto)]

mod closing;
mod endpoints;
mod ends;
mod halves;
mod incoming;
mod opening;
mod outgoing;
mod plays;
mod ring;
mod steps;
mod table;
mod turn_no;

pub use closing::{Closed, ClosedWay, close, close_way};
pub use ends::{LeftEnd, Receiver, RightEnd, Sender, duplex, one_way};
