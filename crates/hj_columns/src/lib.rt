//! A store of the rows that rest at a core, in which a probe looks at keys of 64 bits that stand in columns, and at the rows only
//! where all keys lie in its ranges.
#![tactic(auto)]

mod column_store;
mod found_rows;
mod key_column;
mod mask;
mod probing;

pub use column_store::ColumnStore;
