//! The chain in definitions: events, messages and reports, the sequential join that defines what is written, one core's
//! step, runs of the whole chain, and their laws.
#![tactic(auto)]

mod crossing;
mod drain;
mod emission;
mod event;
mod examples;
mod feed;
mod fin;
mod join;
mod laws;
mod meeting;
mod message;
mod partner;
mod store;

pub use crossing::{journals_tell_what_was_handled, rows_cross_in_one_order};
pub use drain::{Drain, Drained};
pub use emission::{punctuation_never_overtakes, silence_holds_back_few};
pub use event::{Event, Pair};
pub use examples::{no_runs, small_logs, small_meetings, small_run, small_steps};
pub use feed::{Feed, Given};
pub use fin::Fin;
pub use join::Join;
pub use laws::{
    feeds_stay_well_formed, join_lists_each_match_once, join_of_prefix_is_prefix,
    prefix_is_well_formed,
};
pub use meeting::matches_are_met_once;
pub use message::{Msg, Report};
pub use partner::{Partner, Partners};
pub use store::Store;
