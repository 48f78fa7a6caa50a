use hj_stream::Outcome;
use hj_trace::TraceFault;

/// Says what is to be thought of a trace and an output.
#[derive(Clone, Copy, Debug, PartialEq, Eq)]
pub enum Verdict {
    /// The trace spells a whole run over so many events, and the output is the text of their join.
    Accepted { events: u64 },
    /// The trace or the output is wrong, for this reason.
    Refused(TraceFault),
    /// Nothing is wrong, and the events end so; or a read failed, or memory ran out.
    Ended(Outcome),
}
