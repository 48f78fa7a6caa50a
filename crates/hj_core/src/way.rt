/// Where a message goes that only passes through a core.
#[derive(Clone, Copy, Debug, PartialEq, Eq)]
pub enum Way {
    Left,
    Right,
    /// It goes no further.
    Nowhere,
}
