//! A run of the chain of cores on threads.
#![tactic(auto)]

mod begun;
mod bell;
mod closing;
mod deal;
mod drive;
mod ends;
mod levels;
mod links;
mod load;
mod making;
mod pause;
mod plan;
mod ran;
mod room;
mod run;
mod team;
mod turners;

pub use plan::{CrewPlan, CrewSize, Stores};
pub use ran::Ran;
pub use run::JoinInput;
