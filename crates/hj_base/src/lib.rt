//! Numbers, sides, and the outside: the traits through which streams are read and results are written, with fakes in memory, and
//! pieces of bytes sent to a sink whole.
#![tactic(auto)]

mod bytes;
mod full;
mod gate;
mod lcg;
mod mem_outside;
mod mem_sink;
mod numbers;
mod output;
mod outside;
mod share;
mod sink;
mod stream;
mod text;

pub use bytes::Bytes;
pub use full::Full;
pub use gate::{Gate, OpenGate};
pub use lcg::Lcg;
pub use mem_outside::MemOutside;
pub use mem_sink::MemSink;
pub use numbers::{ChainSize, CoreNo, EventNo, Memory, Setup, Side, Window};
pub use output::{Sent, put_all};
pub use outside::{Got, Opened, Outside, Role};
pub use share::Share;
pub use sink::{Put, Sink};
pub use text::{TextBytes, TextBytes as Name};
