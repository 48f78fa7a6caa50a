//! Worked examples of the parts that a join is made of, from bytes to rows, windows and lines, of the words of the command
//! line, and of the real edge, over the public calls of crates below. A crate that has tests of its own is proved twice.
//! What has many parts, as an outside, is dropped by a call, so that how these are let go is proved once for its type.
#![tactic(auto)]

#[cfg(test)]
mod edge;
#[cfg(test)]
mod generated;
#[cfg(test)]
mod lines;
#[cfg(test)]
mod outsides;
#[cfg(test)]
mod records;
#[cfg(test)]
mod rows;
#[cfg(test)]
mod texts;
#[cfg(test)]
mod tokens;
#[cfg(test)]
mod values;
#[cfg(test)]
mod windows;
#[cfg(test)]
mod words;
