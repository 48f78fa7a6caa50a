//! Worked rows of the chain of cores, over the public calls of crates below: messages, links, stores, cores, workers, the driver, what
//! is collected and released, chains on one thread, and runs on threads. A crate that has tests of its own is proved twice. What has
//! many parts, as a chain, is dropped by a call, so that how these are let go is proved once for its type.
#![tactic(auto)]

#[cfg(test)]
mod chains;
#[cfg(test)]
mod collectors;
#[cfg(test)]
mod cores;
#[cfg(test)]
mod drivers;
#[cfg(test)]
mod gates;
#[cfg(test)]
mod last_pair;
#[cfg(test)]
mod lines;
#[cfg(test)]
mod links;
#[cfg(test)]
mod list_stores;
#[cfg(test)]
mod messages;
#[cfg(test)]
mod plain_links;
#[cfg(test)]
mod refusing;
#[cfg(test)]
mod released;
#[cfg(test)]
mod rows;
#[cfg(test)]
mod silence;
#[cfg(test)]
mod sizes;
#[cfg(test)]
mod stores;
#[cfg(test)]
mod threads;
#[cfg(test)]
mod workers;
