//! The real edge: streams that are read from files and from peers of a port, and output that is collected before it is
//! handed on.
#![tactic(auto)]

mod address;
mod channel;
mod collected;
mod output;
mod outside;
mod role_stream;
mod role_streams;
mod sink;

pub use channel::Channel;
pub use collected::Collected;
pub use output::{BehindOutput, Output};
pub use outside::RealOutside;
pub use role_stream::RoleStream;
pub use sink::RealSink;
