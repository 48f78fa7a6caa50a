//! Live rows under the windows of both streams: which rows expire where a row arrives, and under which number it arrives.
#![tactic(auto)]

mod live;
mod numbers;
mod side_rows;

pub use live::{Expired, Live};
pub use numbers::Numbers;
