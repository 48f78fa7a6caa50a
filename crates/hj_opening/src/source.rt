use crate::keyed::EquiWindow;

/// Where the query of a join comes from.
#[derive(Clone, Copy, Debug)]
pub enum QuerySource<'a> {
    /// `equi W`: rows of equal keys, over windows of that many rows.
    Keyed(EquiWindow),
    /// `join QUERY`: the text under this name.
    Named(&'a str),
}

/// The order of a join, apart from how it is run.
#[derive(Clone, Copy, Debug)]
pub struct JoinOrder<'a> {
    pub source: QuerySource<'a>,
    /// The name of the left stream.
    pub left: &'a str,
    /// The name of the right stream.
    pub right: &'a str,
    /// How many events are numbered at most.
    pub limit: u64,
}
