//! The stores of a chain's cores, of the kind that a query's condition asks for.
#![tactic(auto)]

mod stores;

pub use stores::{ChainStores, PlannedStores, planned_stores};
