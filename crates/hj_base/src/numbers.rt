ghost use Rattle.std.specs.Prelude.{◌≡◌, ◌≤◌};
ghost use Rattle.hj_base.specs.Outside.{role_of};

use crate::outside::Role;
use std::alloc::{AllocError, AllocFailed};
use thiserror::Error;

/// The number of an event, counted from 0 over both streams.
#[derive(Clone, Copy, Debug, PartialEq, Eq, PartialOrd, Ord, Hash)]
pub struct EventNo(pub u64);

/// The place of a core in the chain, counted from 0 at the left end.
#[derive(Clone, Copy, Debug, PartialEq, Eq, PartialOrd, Ord, Hash)]
pub struct CoreNo(pub u16);

/// One of the two streams.
#[derive(Clone, Copy, Debug, PartialEq, Eq, PartialOrd, Ord, Hash)]
pub enum Side {
    Left,
    Right,
}

impl Side {
    /// Returns the role of this side's stream.
    pub fn role(self) -> Role
        ensures { result ≡ role_of self }
    {
        match self {
            Side::Left => Role::Left,
            Side::Right => Role::Right,
        }
    }
}

/// How long a row of one stream lives.
#[derive(Clone, Copy, Debug, PartialEq, Eq)]
pub enum Window {
    /// Until this many later rows of its stream have arrived, at least 1.
    Rows(u32),
    /// Until the streams' time has grown by this much, in the streams' own units, at least 1.
    Time(u64),
}

/// How many cores a chain has, and how many events are under way in it at most.
#[derive(Clone, Copy, Debug)]
pub struct ChainSize {
    /// From 1 to 64.
    pub cores: u16,
    /// From 1 to 256.
    pub flight: u16,
    ghost some_cores: { 1 ≤ cores },
    ghost few_cores: { cores ≤ 64 },
    ghost some_flight: { 1 ≤ flight },
    ghost low_flight: { flight ≤ 256 },
}

/// How a join is spread out.
#[derive(Clone, Copy, Debug, PartialEq, Eq)]
pub struct Setup {
    /// How many cores the chain has, from 1 to 64.
    pub cores: u16,
    /// How many threads turn them, from 0 to 64; 0 is the calling thread alone.
    pub threads: u16,
    /// How many events are outstanding at most, from 1 to 256.
    pub flight: u16,
}

/// Memory ran out.
#[derive(Clone, Copy, Debug, PartialEq, Eq, Error)]
#[error("out of memory")]
pub struct Memory;

impl From<AllocError> for Memory {
    fn from(_: AllocError) -> Self {
        Memory
    }
}

impl<T: Drop> From<AllocFailed<T>> for Memory {
    fn from(_: AllocFailed<T>) -> Self {
        Memory
    }
}
