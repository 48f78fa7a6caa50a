//! Traces of a run of the chain on one thread: the texts of its steps, and streams that are compared with a text.
#![tactic(auto)]

mod actors;
mod fault;
mod line;
mod looking;
mod messages;
mod naming;
mod puts;
mod step;
mod stream;
mod text;

pub use actors::{push_actor, read_actor};
pub use fault::TraceFault;
pub use line::{StepAction, push_front, push_maker, push_reported};
pub use looking::next_action;
pub use messages::{push_message, push_report};
pub use naming::Naming;
pub use step::{Played, play};
pub use stream::{ActorFound, Compared, NextByte, TextStream};
