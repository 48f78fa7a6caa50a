//! The two streams, whose rows are read by their schemas, merged into one list of numbered events.
#![tactic(auto)]

mod arrivals;
mod days;
mod dealing;
mod due;
mod fault;
mod late;
mod late_row;
mod laws;
mod merger;
mod numbering;
mod reader;
mod record;
mod row_source;
mod schema;
mod silence;
mod stop;
mod waiting;

pub use fault::RecordFault;
pub use hj_msg::{Event, Pair};
pub use laws::{
    calls_give_events, cut_stream_gives_prefix, events_are_well_formed, rows_are_in_order,
    rows_expire_in_turn, silence_is_told,
};
pub use merger::{Merger, Next};
pub use schema::{RowFault, read_row};
