//! Stores of the rows that rest at a core, in which a probe looks only at rows that may match.
#![tactic(auto)]

mod chains;
mod hash_store;
mod keys;
mod ordered_index;
mod ordered_store;

pub use hash_store::HashStore;
pub use hj_rows::ListStore;
pub use ordered_store::OrderedStore;
