use hj_base::Side;

/// Where a worker puts.
#[derive(Clone, Copy, Debug, PartialEq, Eq)]
pub enum Place {
    /// The link on a side of its core.
    Link(Side),
    /// The queue of its reports.
    Reports,
}

/// What came of a call of a worker.
#[derive(Clone, Copy, Debug, PartialEq, Eq)]
pub enum Turn {
    /// It took a message, or put the last of what was in hand.
    Did,
    /// Neither link had a message.
    Idle,
    /// This place was full.
    Blocked(Place),
    /// Its core has ended, and all was put.
    Ended,
    /// Memory ran out, in this call or in an earlier one.
    NoMemory,
}
