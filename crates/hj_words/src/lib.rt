//! The order that the words of a command line spell.
#![tactic(auto)]

mod arguments;
mod names;
mod numbers;
mod order;
mod read;
mod values;
mod verb;

pub use order::{Order, Usage};
pub use read::read_words;
