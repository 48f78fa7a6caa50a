use hj_base::{Memory, Name, Setup};
use std::alloc::AllocError;
use thiserror::Error;

/// What the words of a command line ask for.
#[derive(Debug, Drop)]
pub enum Order {
    /// `equi W LEFT RIGHT`: the join of two streams by equal keys.
    Equi {
        /// How many rows each window holds, from 1 to 1,000,000.
        w: u32,
        /// The name of the left stream.
        left: Name,
        /// The name of the right stream.
        right: Name,
    },
    /// `join QUERY LEFT RIGHT`: the join of two streams under a query.
    Join {
        /// How the join is spread out.
        setup: Setup,
        /// How many events are taken at most, from 1 to 4,294,967,295.
        limit: u64,
        /// The seed by which a run without threads is interleaved; None where the actors take turns.
        schedule: Option<u64>,
        /// The name of the query.
        query: Name,
        /// The name of the left stream.
        left: Name,
        /// The name of the right stream.
        right: Name,
    },
    /// `check QUERY`: the canonical text of a query.
    Check {
        /// The name of the query.
        query: Name,
    },
    /// `gen N KEYS SEED W`: the summary of a join of two streams that are made for it.
    Gen {
        /// How many rows each stream has, from 0 to 100,000.
        n: u32,
        /// How many keys there are, from 1 to 1,000,000,000.
        keys: u32,
        /// The seed of the streams.
        seed: u64,
        /// How many rows each window holds, from 1 to 1,000,000.
        w: u32,
    },
    /// `raw QUERY LEFT RIGHT`: the pairs of the join of two streams as they come, with marks between them.
    Raw {
        /// How the join is spread out, on one thread at least.
        setup: Setup,
        /// How many events are taken at most, from 1 to 4,294,967,295.
        limit: u64,
        /// The name of the query.
        query: Name,
        /// The name of the left stream.
        left: Name,
        /// The name of the right stream.
        right: Name,
    },
    /// `trace QUERY LEFT RIGHT`: each step of the join of two streams without threads.
    Trace {
        /// How many cores the chain has, from 1 to 64.
        cores: u16,
        /// How many events are outstanding at most, from 1 to 256.
        flight: u16,
        /// How many events are taken at most, from 1 to 4,294,967,295.
        limit: u64,
        /// The seed by which the steps are interleaved; None where the actors take turns.
        schedule: Option<u64>,
        /// The name of the query.
        query: Name,
        /// The name of the left stream.
        left: Name,
        /// The name of the right stream.
        right: Name,
    },
    /// `verify QUERY LEFT RIGHT TRACE OUTPUT`: whether a trace is one of the join of two streams, and an output is its text.
    Verify {
        /// How many cores the chain has, from 1 to 64.
        cores: u16,
        /// How many events are outstanding at most, from 1 to 256.
        flight: u16,
        /// How many events are taken at most, from 1 to 4,294,967,295.
        limit: u64,
        /// The name of the query.
        query: Name,
        /// The name of the left stream.
        left: Name,
        /// The name of the right stream.
        right: Name,
        /// The name of the trace.
        trace: Name,
        /// The name of the output.
        output: Name,
    },
    /// `twice QUERY LEFT RIGHT QUERY THIRD`: the join of the pairs of the join of two streams with a third stream.
    Twice {
        /// How both joins are spread out.
        setup: Setup,
        /// How many events each join takes at most, from 1 to 4,294,967,295.
        limit: u64,
        /// The seed by which a run without threads is interleaved; None where the actors take turns.
        schedule: Option<u64>,
        /// The name of the first join's query.
        query: Name,
        /// The name of the first join's left stream.
        left: Name,
        /// The name of the first join's right stream.
        right: Name,
        /// The name of the second join's query.
        second: Name,
        /// The name of the second join's right stream.
        third: Name,
    },
}

/// Why no order was read.
#[derive(Clone, Copy, Debug, PartialEq, Eq, Error)]
pub enum Usage {
    /// The words spell no order.
    #[error("usage")]
    Words,
    /// Memory ran out.
    #[error("out of memory")]
    Memory,
}

impl From<Memory> for Usage {
    ghost use Rattle.std.specs.Prelude.{◌≡◌};
    ghost use Rattle.hj_words.specs.declared.order.Usage.TheVariants as usage;

    ghost from_gives = { λ _ e. e ≡ usage.Memory };

    fn from(_: Memory) -> Self {
        Usage::Memory
    }
}

impl From<AllocError> for Usage {
    ghost use Rattle.std.specs.Prelude.{◌≡◌};
    ghost use Rattle.hj_words.specs.declared.order.Usage.TheVariants as usage;

    ghost from_gives = { λ _ e. e ≡ usage.Memory };

    fn from(_: AllocError) -> Self {
        Usage::Memory
    }
}

impl From<clap::Error> for Usage {
    ghost use Rattle.std.specs.Prelude.{◌≡◌, ◌≢◌};
    ghost use Rattle.clap.specs.Words.{kind_of};
    ghost use Rattle.clap.specs.declared.error.kind.ErrorKind.TheVariants as kind;
    ghost use Rattle.hj_words.specs.declared.order.Usage.TheVariants as usage;

    ghost from_gives = { λ error u. (kind_of error ≡ kind.OutOfMemory → u ≡ usage.Memory)
        × (kind_of error ≢ kind.OutOfMemory → u ≡ usage.Words) };

    fn from(error: clap::Error) -> Self {
        match error.kind() {
            clap::error::ErrorKind::OutOfMemory => Usage::Memory,
            _ => Usage::Words,
        }
    }
}
