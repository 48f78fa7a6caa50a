//! Joined pairs as the cores meet them, with marks between them that tell what is complete.
#![tactic(auto)]

mod drain;
mod item;
mod items;
mod laws;
mod line;

pub use drain::RawDrain;
pub use item::RawItem;
pub use items::RawItems;
pub use laws::{raw_items_grow, raw_items_tell_of_the_join};
pub use line::{fill_mark_line, fill_pair_line, mark_line, pair_line};
