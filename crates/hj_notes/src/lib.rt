//! The notes on standard error: why a run didn't end well, as a text, and as an exit status.
#![tactic(auto)]

mod note;
mod parts;
mod query_note;
mod reason;
mod record_note;
mod twice_note;
mod verify_note;

pub use note::Note;
pub use reason::{Reason, report};
pub use twice_note::TwiceNote;
pub use verify_note::VerifyNote;
