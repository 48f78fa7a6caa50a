//! Joins of whole streams, over the public calls of crates below: a crate that has tests of its own is proved twice. What has many
//! parts, as a query, is dropped by a call, so that how these are let go is proved once for its type.
#![tactic(auto)]

#[cfg(test)]
mod cases;
#[cfg(test)]
mod in_a_row;
#[cfg(test)]
mod joins;
#[cfg(test)]
mod meeting;
#[cfg(test)]
mod raw;
#[cfg(test)]
mod runs;
#[cfg(test)]
mod watched;
