/// What a step did.
#[derive(Clone, Copy, Debug, PartialEq, Eq)]
pub enum DeskStep {
    /// It put or took.
    Did,
    /// There was nothing to take, or nothing that may be put now.
    Idle,
    /// No turn number is left, so nothing was put or taken, and never will be.
    Spent,
    /// A report was taken, and memory ran out for what is made of it. Nothing is given from now on.
    Memory,
}
