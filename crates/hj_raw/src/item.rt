use hj_collect::Mark;
use hj_msg::Pair;

/// What is written of the cores' reports.
#[derive(Debug, Drop)]
pub enum RawItem<P> {
    /// A pair that was met.
    Pair(Pair<P>),
    /// All pairs have come, up to this.
    Mark(Mark),
}
