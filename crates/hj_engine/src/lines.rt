use hj_query::Query;
use hj_stream::PairLine;

/// Says which join of two streams is made, and what is written for each of its pairs.
#[derive(Drop)]
pub struct LineJoin<'a, L: PairLine> {
    /// Which pairs are joined.
    pub query: &'a Query,
    /// At most so many events are numbered.
    pub limit: u64,
    /// What the line of a pair is.
    pub lines: &'a L,
}
