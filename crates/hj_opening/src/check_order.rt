use hj_base::ChainSize;

/// The order of a check of a trace and an output.
#[derive(Clone, Copy, Debug)]
pub struct CheckOrder<'a> {
    /// The chain that the trace is of.
    pub size: ChainSize,
    /// The name of the query.
    pub query: &'a str,
    /// The name of the left stream.
    pub left: &'a str,
    /// The name of the right stream.
    pub right: &'a str,
    /// The name of the trace.
    pub trace: &'a str,
    /// The name of the output.
    pub output: &'a str,
    /// How many events are numbered at most.
    pub limit: u64,
}
