use crate::Partners;
use hj_base::{EventNo, Side};

/// A message between two neighbours of the chain. The rows of the left stream are called R and go right through all
/// cores, those of the right stream S and go left.
#[derive(Debug, Drop)]
pub enum Msg<P> {
    /// A left row, by the number of its arrival. Goes right.
    R { no: EventNo, row: P },
    /// The sender handled this right row, so its right neighbour need keep it in flight no longer. Goes right, to that
    /// neighbour alone.
    AckS(EventNo),
    /// This right row has been at every core. Goes right.
    EndS(EventNo),
    /// This right row expires. Goes right.
    ExpS(EventNo),
    /// No more left rows come that are numbered below this event. Goes right, through all cores.
    QuietL(EventNo),
    /// Nothing more is put at the left end of the chain. Goes right.
    CloseL,
    /// A right row, by the number of its arrival. Goes left.
    S { no: EventNo, row: P },
    /// This left row has been at every core. Goes left.
    EndR(EventNo),
    /// This left row expires. Goes left.
    ExpR(EventNo),
    /// No more right rows come that are numbered below this event. Goes left, through all cores.
    QuietR(EventNo),
    /// Nothing more is put at the right end of the chain. Goes left.
    CloseR,
}

/// What a core reports of a message that it handled.
#[derive(Debug, Drop)]
pub enum Report<P> {
    /// A row of a side, by the number of its arrival, with the partners that the core found for it.
    Handled {
        no: EventNo,
        side: Side,
        row: P,
        partners: Partners<P>,
    },
    /// The core has handled all rows of a side that are numbered below this event.
    Quiet {
        no: EventNo,
        side: Side,
    },
    /// The core handled both closes.
    Ended,
    /// Memory ran out at this core.
    NoMemory,
}
