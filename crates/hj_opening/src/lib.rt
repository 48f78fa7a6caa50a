//! What the words order, what each order promises, and what is done before a join: its query is read, and its streams are
//! opened. The check of a query needs no more.
#![tactic(auto)]

mod check_order;
mod checking;
mod ending;
mod keyed;
mod query;
mod ready;
mod ready_to_check;
mod source;
mod twice;

pub use check_order::CheckOrder;
pub use checking::check;
pub use ending::end_of;
pub use keyed::EquiWindow;
pub use ready::make_ready;
pub use ready_to_check::make_ready_to_check;
pub use source::{JoinOrder, QuerySource};
pub use twice::{TwiceOrder, TwoQueries, end_of_twice, make_twice_ready};
