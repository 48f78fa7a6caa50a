use hj_base::Outside;
use hj_stream::{EventFeed, Outcome};

/// Holds how a join on threads ended, and what it ran between.
#[derive(Drop)]
pub(crate) struct EndedJoin<'f, O: Outside, D> {
    pub(crate) ended: Outcome,
    pub(crate) feed: EventFeed<'f, O>,
    pub(crate) drain: D,
}
