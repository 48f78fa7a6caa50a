use hj_base::{EventNo, Side};
use hj_msg::{Event, Msg};

/// Why an event isn't put into the chain now.
#[derive(Clone, Copy, Debug, PartialEq, Eq)]
pub enum Why {
    /// This many events are outstanding, and no more may be.
    Flight(u32),
    /// The row that arrived under this number hasn't come out of its link, so it can't expire.
    NotMarked(EventNo),
    /// The closes were sent.
    Closed,
}

/// The answer to an event.
#[derive(Debug, Drop)]
pub enum Admitted<P> {
    /// The event is outstanding from now on. Its message is to be put on the link at this end of the chain.
    Send(Side, Msg<P>),
    /// The event isn't put now. It comes back.
    Wait(Why, Event<P>),
}

/// The answer to a wish to close.
#[derive(Clone, Copy, Debug, PartialEq, Eq)]
pub enum Closing {
    /// Both closes are to be put, each on the link at its end of the chain.
    Send,
    /// This many events are still outstanding.
    Wait(u32),
    /// The closes were sent before.
    Already,
}
