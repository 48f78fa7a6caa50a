/// How a run ended.
#[derive(Clone, Copy, Debug, PartialEq, Eq)]
pub enum Fin {
    /// All is done, and every pair was given.
    Done,
    /// A pair was refused.
    Refused,
    /// Memory ran out.
    Memory,
}
