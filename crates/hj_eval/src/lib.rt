//! Conditions: what the condition of a query says of a left and a right row.
#![tactic(auto)]

mod column_test;
mod condition;
mod conjuncts;
mod filter;
mod join;
mod row_pair;
mod store_plan;
mod value;

pub use condition::holds;
pub use filter::{Filter, filters};
pub use join::{QueryJoin, ReadyQuery};
pub use store_plan::{StorePlan, plan};
