//! The checker of traces: a trace of a join's run and the join's output, compared with the run step by step.
#![tactic(auto)]

mod beside;
mod checker;
mod line;
mod lines;
mod output;
mod pairs;
mod run;
mod texts;
mod trace;
mod verdict;

pub use checker::verify;
pub use verdict::Verdict;
