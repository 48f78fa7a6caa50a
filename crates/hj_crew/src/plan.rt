//! How a chain is run on threads.
ghost use Rattle.std.specs.Prelude.{◌≡◌, ◌≤◌, true};

use hj_base::ChainSize;
use std::thread::{Threads, available_parallelism};

/// The size of a chain, and how many threads turn its cores.
#[derive(Clone, Copy, Debug)]
pub struct CrewSize {
    pub chain: ChainSize,
    /// At least 1. Each thread turns a team of neighbouring cores, so there are no more teams than cores.
    pub threads: u16,
    ghost some_threads: { 1 ≤ threads },
}

impl CrewSize {
    /// Returns how many teams the calling thread does best to turn itself: none, or one where else there were more threads than
    /// processors.
    pub fn kept<T: Threads>(self, rt: &T) -> u16 {
        let teams = usize::from(self.threads.min(self.chain.cores));
        match available_parallelism(rt) {
            Ok(processors) if teams > 1 && teams >= processors.get() => 1,
            _ => 0,
        }
    }
}

/// Says how a chain is run on threads.
#[derive(Drop)]
pub struct CrewPlan<'r, T, G> {
    /// Starts the threads, and lets them wait.
    pub rt: &'r T,
    pub size: CrewSize,
    /// How many teams, the first ones, the calling thread turns itself while threads turn the others.
    pub kept: u16,
    /// Whether the calling thread may take all teams back, and turn them itself: where it mostly waits for the feed; where it gets on
    /// faster so than with threads; and where other programs want the processors, up to the end. That pays where the cores have little
    /// to do.
    pub takes_back: bool,
    /// Is passed before each turn of a core.
    pub gate: &'r G,
}

impl<'r, T, G> CrewPlan<'r, T, G> {
    /// Returns the plan for cores that have little to do: the calling thread turns all of them where it mostly waits for the feed, where
    /// it gets on faster so, or where other programs want the processors.
    pub fn for_light_cores(&self) -> Self
        ensures size { result.size ≡ self.now.size }
        ensures kept { result.kept ≡ self.now.kept }
        ensures takes_back { result.takes_back ≡ true }
    {
        CrewPlan {
            rt: self.rt,
            size: self.size,
            kept: self.kept,
            takes_back: true,
            gate: self.gate,
        }
    }
}

/// Holds the stores of a chain's cores: a left one and a right one for each, by the place of the core.
#[derive(Drop)]
pub struct Stores<S> {
    pub left: Vec<S>,
    pub right: Vec<S>,
}
