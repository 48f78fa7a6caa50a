//! The rows of a store by their numbers, and a store that is walked whole by each probe.
#![tactic(auto)]

mod key_filter;
mod list_store;
mod numbered;
mod place;

pub use key_filter::{KeyFilter, KeyRange};
pub use list_store::{ListStore, is_joined, joining_row, partners_of, probe_sorted};
pub use numbered::NumberedRows;
pub use place::RestingRow;
