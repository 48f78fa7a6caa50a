//! The two ends of a link as types, so that what either end does is written once.
ghost use Rattle.std.specs.Prelude.{◌≡◌, Bool, true, false};
ghost use Rattle.hj_link.specs.Words.{words_of};

/// The words of a table that count the puts and the takes of an end, and those of the other end, each modulo 2^64.
#[derive(Clone, Copy)]
pub struct CounterWords {
    pub puts: usize,
    pub takes: usize,
    pub other_puts: usize,
    pub other_takes: usize,
}

/// One of the two ends of a link.
pub trait Endpoint {
    ghost is_left: { Bool };

    /// Returns the words that this end reads and writes. They lie 128 bytes apart, so that no two share a cache line.
    fn words() -> CounterWords
        ensures { result ≡ words_of is_left };
}

pub struct OnLeft;

impl Endpoint for OnLeft {
    ghost is_left = { true };

    fn words() -> CounterWords {
        CounterWords {
            puts: 0,
            takes: 48,
            other_puts: 32,
            other_takes: 16,
        }
    }
}

pub struct OnRight;

impl Endpoint for OnRight {
    ghost is_left = { false };

    fn words() -> CounterWords {
        CounterWords {
            puts: 32,
            takes: 16,
            other_puts: 0,
            other_takes: 48,
        }
    }
}
