//! Worked rows of queries, over the public calls of crates below: their texts, what their conditions say of rows, the merge of two
//! streams under their windows, and the notes on standard error. A crate that has tests of its own is proved twice. A table is one
//! text, a line for each row, since a row that is code costs the check more than the rest of its test. What has many parts, as a
//! query, is dropped by a call, so that how these are let go is proved once for its type.
#![tactic(auto)]

#[cfg(test)]
mod bounds;
#[cfg(test)]
mod canonical_texts;
#[cfg(test)]
mod conditions;
#[cfg(test)]
mod merges;
#[cfg(test)]
mod notes;
#[cfg(test)]
mod parts;
#[cfg(test)]
mod queries;
#[cfg(test)]
mod texts;
