//! Worked examples of whole runs through `serve`: what joins, summaries and traces write, how runs end, which words are orders, and
//! who turns the cores of a chain. What has many parts, as an outside, is dropped by a call, so that how these are let go is proved
//! once for its type.
#![tactic(auto)]

#[cfg(test)]
mod cases;
#[cfg(test)]
mod failures;
#[cfg(test)]
mod in_a_row;
#[cfg(test)]
mod joins;
#[cfg(test)]
mod peer;
#[cfg(test)]
mod summaries;
#[cfg(test)]
mod traces;
#[cfg(test)]
mod turns;
#[cfg(test)]
mod words;
