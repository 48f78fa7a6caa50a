//! Queries: their grammar, their tree, and the first fault of a text that is none.
#![tactic(auto)]

mod canonical;
mod condition;
mod cursor;
mod fault;
mod keyed;
mod laws;
mod pred;
mod query;
mod schema;
mod schemas;
mod setting;
mod sum;
mod term;
mod text;
mod types;
mod window;

pub use canonical::print;
pub use fault::{QueryFault, Wanted};
pub use hj_base::Bytes as QueryText;
pub use keyed::equi;
pub use laws::text_is_query_or_fault;
pub use pred::{Op, Pred};
pub use query::Query;
pub use sum::{FurtherTerms, SignedTerm, Sum, Term};
pub use text::{MOST_BYTES, parse};
