use hj_stream::Outcome;

/// Says how two joins in a row ended.
#[derive(Clone, Copy, Debug, PartialEq, Eq)]
pub enum TwiceOutcome {
    /// All three streams ended, and every line was written. The numbers are those of the events of the first and of the second join.
    Done { first: u64, second: u64 },
    /// The first join ended so, which is neither Done nor SinkFault. No second one was made, and nothing was written.
    First(Outcome),
    /// The first join was done, and the second one ended so, which isn't Done. Its left side is the relay, of which only a line or the
    /// whole can be refused, as too long. A failed read is one of the role Third.
    Second(Outcome),
}
